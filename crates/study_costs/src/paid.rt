// What is paid.
ghost use Rattle.std.specs.Prelude.{◌≤◌};
ghost use Rattle.study_terms.specs.Calls.{stage_formula, paid_checks, paid_at, AnswerPromise};
ghost use Rattle.study_terms.specs.Formulas.{Outcome};
ghost use Rattle.study_terms.specs.Sized.{shape};

use super::forms::form;
use super::lists::stacked_entry;
use lines::line::Line;
use numbers::Parts;
use study_terms::faults::{Below, StudyFault};
use study_terms::stops::Standing;
use study_terms::{add_terms, zero};

// The cost of a stop, taken at the adjustments and lateness there.
fn stage_cost<L: Line>(at: Standing, line: &L, trail: &[Parts]) -> Result<L::Number, Below>
    ensures { Outcome L.Number.Number (stage_formula L.Number.Number (shape at.sizes) (L.Line.meaning line.now) trail.now at.stop) result }
{
    let lateness = at.lateness(trail);
    let adjustments = at.adjustments(trail);
    form(
        at.sizes.wide(),
        |row, column| Ok(line.g(at.stop, row, column)?),
        |k| stacked_entry(at.sizes, adjustments, lateness, k),
    )
}

// The cost of the stops before this one.
pub fn paid_at<L: Line>(at: Standing, line: &L, trail: &[Parts]) -> Result<L::Number, StudyFault>
    ensures { AnswerPromise L.Number.Number
        (paid_checks L.Number.Number (shape at.sizes) (L.Line.meaning line.now) at.stop trail.now)
        (paid_at L.Number.Number (shape at.sizes) (L.Line.meaning line.now) trail.now at.stop) result }
{
    let sizes = at.sizes;
    if !sizes.are_of(line) {
        return Err(StudyFault::OtherSizes);
    }
    if trail.len() < sizes.trail_length() {
        return Err(StudyFault::TrailShort);
    }
    let total = add_terms(
        zero(),
        at.stop,
        |stop|
            requires { stop ≤ sizes.stops }
        { stage_cost(Standing { sizes, stop }, line, trail) },
    );
    total.map_err(|_| StudyFault::AnswerTooLarge)
}
