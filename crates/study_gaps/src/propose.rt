// The call that proposes adjustments.
ghost use Rattle.study_gaps.specs.Answered.{Proposed};

use super::plan::plan_rows;
use numbers::{Number, Parts};
use study_terms::faults::StudyFault;
use study_terms::stops::{Departing, Standing};

// Writes the plan at a stop to a slip: the adjustments without a gap. All of them are worked before the first is written, so that a
// refusal leaves the slip as it was.
pub fn propose_at<N: Number + Copy>(
    at: Standing,
    gains: &[Parts],
    trail: &[Parts],
    slip: &mut [Parts],
) -> Result<Departing, StudyFault>
    ensures { Proposed N.Number at gains.now trail.now slip.old slip.new result }
{
    let here = at.departing().ok_or(StudyFault::AtTheEnd)?;
    at.sizes.check_sheets(gains, trail)?;
    if slip.len() != at.sizes.inputs {
        return Err(StudyFault::SlipLength);
    }
    let plan = plan_rows::<N>(here, gains, trail)?;
    slip.copy_from_slice(&plan[..at.sizes.inputs]);
    Ok(here)
}
