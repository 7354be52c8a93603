// The commands of a run: the ten calls of a study, each with its own arguments.
use numbers::Parts;

#[derive(Drop)]
pub enum Command {
    Weigh,
    Begin(Vec<Parts>),
    Propose,
    Confirm(Vec<Parts>),
    Withdraw,
    Paid,
    Rest,
    Excess,
    Abandon,
    Close,
}
