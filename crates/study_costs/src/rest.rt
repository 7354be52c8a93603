// What is left to pay.
ghost use Rattle.std.specs.Prelude.{◌≡◌, ◌≤◌};
ghost use Rattle.study_terms.specs.Calls.{rest_formula, rest_checks, rest_at, AnswerPromise};
ghost use Rattle.study_terms.specs.Formulas.{Outcome};
ghost use Rattle.study_terms.specs.Sheets.{value_place};
ghost use Rattle.study_terms.specs.Sized.{shape};

use super::forms::form;
use super::lists::state_entry;
use numbers::{Number, Parts};
use study_terms::faults::{Below, StudyFault};
use study_terms::number_at;
use study_terms::stops::Standing;

// Where P at a stop stands in the gains sheet.
fn value_place(at: Standing, row: usize, column: usize) -> usize
    requires row { row ≤ at.sizes.states }
    requires column { column ≤ at.sizes.states }
    ensures { result ≡ value_place (shape at.sizes) at.stop row column }
{
    let sizes = at.sizes;
    let size = sizes.states + 1;
    sizes.stops * sizes.inputs * sizes.wide() + ((at.stop * size + row) * size + column)
}

// The form of P at a stop, taken at the lateness there.
fn value_form<N: Number + Copy>(at: Standing, gains: &[Parts], trail: &[Parts]) -> Result<N, Below>
    ensures { Outcome N.Number (rest_formula N.Number (shape at.sizes) gains.now trail.now at.stop) result }
{
    let lateness = at.lateness(trail);
    form(
        at.sizes.states + 1,
        |row, column|
            requires row { row ≤ at.sizes.states }
            requires column { column ≤ at.sizes.states }
        { Ok(number_at(gains, value_place(at, row, column))) },
        |k| state_entry(at.sizes, lateness, k),
    )
}

// The form of P at this stop, taken at the lateness there.
pub fn rest_at<N: Number + Copy>(
    at: Standing,
    gains: &[Parts],
    trail: &[Parts],
) -> Result<N, StudyFault>
    ensures { AnswerPromise N.Number
        (rest_checks N.Number (shape at.sizes) at.stop gains.now trail.now)
        (rest_at N.Number (shape at.sizes) gains.now trail.now at.stop) result }
{
    at.sizes.check_sheets(gains, trail)?;
    value_form(at, gains, trail).map_err(|_| StudyFault::AnswerTooLarge)
}
