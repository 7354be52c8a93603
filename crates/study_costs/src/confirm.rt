// A stop is confirmed.
ghost use Rattle.study_costs.specs.Answered.{ConfirmAnswer};

use super::lateness::next_lateness;
use super::rows::enter;
use lines::line::Line;
use numbers::Parts;
use study_terms::faults::StudyFault;
use study_terms::stops::{Departing, Standing};

// Enters the adjustments made and the next lateness.
pub fn confirm_at<L: Line>(
    at: Departing,
    line: &L,
    made: &[Parts],
    trail: &mut [Parts],
) -> Result<Standing, StudyFault>
    ensures { ConfirmAnswer L.Number.Number (L.Line.meaning line.now) at made.now trail.old trail.new result }
{
    let sizes = at.sizes;
    if !sizes.are_of(line) {
        return Err(StudyFault::OtherSizes);
    }
    if made.len() != sizes.inputs {
        return Err(StudyFault::AdjustmentsLength);
    }
    if trail.len() < sizes.trail_length() {
        return Err(StudyFault::TrailShort);
    }
    // all of it is worked before a row is written, so that a refusal leaves the trail as it was
    let next = next_lateness(at, line, made, trail)?;
    let from = Standing::from(at).lateness_place() + sizes.states;
    let between = from + sizes.inputs;
    enter::<L::Number>(made, &mut trail[from..between]);
    enter::<L::Number>(&next, &mut trail[between..between + sizes.states]);
    Ok(at.next())
}
