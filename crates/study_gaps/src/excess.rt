// The call that tells what the adjustments made cost beyond the plan.
ghost use Rattle.std.specs.Prelude.{◌<◌};
ghost use Rattle.study_terms.specs.Calls.{square_formula, excess_formula, excess_at, excess_checks, AnswerPromise};
ghost use Rattle.study_terms.specs.Formulas.{Outcome};
ghost use Rattle.study_terms.specs.Sized.{shape};
ghost use Rattle.study_gaps.specs.Steps.{gap_here};

use super::input::Input;
use numbers::{Number, Parts};
use study_terms::faults::{Below, StudyFault};
use study_terms::stops::{Departing, Standing};
use study_terms::{add_terms, number_at, times, zero};

impl Input<'_> {
    // How far the adjustment made lies from the one without a gap.
    fn gap<N: Number + Copy>(&self) -> Result<N, Below>
        ensures { Outcome N.Number (gap_here N.Number self.now.here self.now.gains.now self.now.trail.now self.now.index) result }
    {
        let made = Standing::from(self.here).adjustments(self.trail);
        let sum = self.later_sum::<N>(made)?;
        Ok(number_at::<N>(made, self.index).plus(sum)?)
    }

    // pivot × gap², with the gap worked once
    fn weighted_square<N: Number + Copy>(&self) -> Result<N, Below>
        ensures { Outcome N.Number (square_formula N.Number (shape self.now.here.sizes) self.now.gains.now self.now.trail.now self.now.here.stop self.now.index) result }
    {
        let gap = self.gap::<N>()?;
        let pivot = number_at::<N>(self.row(), self.index);
        times(times(Ok(pivot), gap), gap)
    }
}

// The squares of all stops before this one, inputs upwards at each.
fn excess_before<N: Number + Copy>(
    at: Standing,
    gains: &[Parts],
    trail: &[Parts],
) -> Result<N, Below>
    ensures { Outcome N.Number (excess_formula N.Number (shape at.sizes) gains.now trail.now at.stop) result }
{
    let mut total = zero::<N>();
    for stop in 0..at.stop {
        let here = Departing {
            sizes: at.sizes,
            stop,
        };
        total = add_terms(
            total,
            at.sizes.inputs,
            |index|
                requires { index < here.sizes.inputs }
            {
                let input = Input {
                    here,
                    index,
                    gains,
                    trail,
                };
                input.weighted_square::<N>()
            },
        )?;
    }
    Ok(total)
}

// The sum of pivot × gap² over the stops before this one.
pub fn excess_at<N: Number + Copy>(
    at: Standing,
    gains: &[Parts],
    trail: &[Parts],
) -> Result<N, StudyFault>
    ensures { AnswerPromise N.Number
        (excess_checks N.Number (shape at.sizes) at.stop gains.now trail.now)
        (excess_at N.Number (shape at.sizes) gains.now trail.now at.stop) result }
{
    at.sizes.check_sheets(gains, trail)?;
    excess_before(at, gains, trail).map_err(|_| StudyFault::AnswerTooLarge)
}
