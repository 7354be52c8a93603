// The commands, given on the command line or one to a line of a file.
use super::failure::{Failure, fail};
use super::{files, join, show};

// The longest file of commands.
const MOST: u64 = 65_536;

const HELP: &str = "usage: planner COMMAND [WORD ...]

  planner join north.feed south.feed     join operator feeds into one book of trains, and show it
  planner show branch.line --feed north.feed
                                         show a line with aims and feeds laid over it
  planner do morning.txt                 perform the commands of a file, one to a line
  planner help                           show this
  planner COMMAND --help                 show the usage of one command

A refusal is told with its number, its line and a sentence on standard error, and ends with status 1.";

const HELP_DO: &str = "usage: planner do FILE

  planner do morning.txt

Performs the commands of a file, one to a line, words parted by blanks, '#' for a comment.
Prints '> COMMAND' before what each command prints, and stops at the first that is refused.";

// Performs one command. `do` is no command of a file of commands.
pub fn perform(rt: &HostRuntime, words: &[&str]) -> Result<(), Failure> {
    match words {
        [] => fail(rt, format_args!("no command\n{HELP}")),
        ["join", rest @ ..] => join::perform(rt, rest),
        ["show", rest @ ..] => show::perform(rt, rest),
        ["help", ..] => Ok(println!(rt; "{HELP}")?),
        ["do", "--help"] => Ok(println!(rt; "{HELP_DO}")?),
        [command, ..] => fail(rt, format_args!("no such command: {command}\n{HELP}")),
    }
}

// Performs the commands of a file up to the first that is refused.
pub fn perform_file(rt: &HostRuntime, name: &str) -> Result<(), Failure> {
    if name == "--help" {
        return Ok(println!(rt; "{HELP_DO}")?);
    }
    let text = files::read_text(rt, name, MOST)?;
    for (number, line) in (1usize..).zip(text.lines()) {
        perform_line(rt, name, number, files::without_comment(line))?;
    }
    Ok(())
}

// One line of a file of commands. A line without words is passed over.
fn perform_line(rt: &HostRuntime, name: &str, number: usize, command: &str) -> Result<(), Failure> {
    let words: Vec<&str> = command.split_whitespace().collect(rt.alloc())?;
    if words.is_empty() {
        return Ok(());
    }
    println!(rt; "> {command}")?;
    perform(rt, words.as_slice()).or_else(|failure| fail(
        rt,
        format_args!("{name} line {number}: {failure}"),
    ))
}
