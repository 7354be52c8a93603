// The plan at a stop: the adjustments without a gap.
ghost use Rattle.study_terms.specs.Formulas.{Outcome};
ghost use Rattle.study_terms.specs.Sheets.{at};
ghost use Rattle.study_gaps.specs.Steps.{plan_here, PlanAnswered};

use super::input::Input;
use numbers::{Number, Parts};
use study_terms::faults::{Below, StudyFault};
use study_terms::stops::Departing;
use study_terms::{ZERO, zero};

impl Input<'_> {
    // The adjustment that leaves no gap, after the later ones in `plan`: 0 minus what the factors make of them.
    fn without_gap<N: Number + Copy>(&self, plan: &[Parts]) -> Result<N, Below>
        ensures { Outcome N.Number (plan_here N.Number self.now.here self.now.gains.now self.now.trail.now (at N.Number plan.now) self.now.index) result }
    {
        let sum = self.later_sum::<N>(plan)?;
        Ok(zero::<N>().minus(sum)?)
    }
}

// The rows of the plan, worked from the last input to the first. They lie in place, so that no call wants memory.
pub(super) fn plan_rows<N: Number + Copy>(
    here: Departing,
    gains: &[Parts],
    trail: &[Parts],
) -> Result<[Parts; 3], StudyFault>
    ensures { PlanAnswered N.Number here gains.now trail.now result }
{
    let mut plan = [ZERO; 3];
    // by index: each adjustment reads the later ones of the list that it is written to
    for index in (0..here.sizes.inputs).rev() {
        let input = Input {
            here,
            index,
            gains,
            trail,
        };
        let adjustment: N = input
            .without_gap(&plan)
            .map_err(|_| StudyFault::PlanTooLarge)?;
        plan[index] = adjustment.row();
    }
    Ok(plan)
}
