// The sum that the factors of an input make of what comes after it.
ghost use Rattle.study_terms.specs.Formulas.{Outcome};
ghost use Rattle.study_terms.specs.Sheets.{at};
ghost use Rattle.study_gaps.specs.Steps.{later_here};

use super::input::Input;
use numbers::{Number, Parts};
use study_terms::faults::Below;
use study_terms::stops::Standing;
use study_terms::{add_terms, number_at, times};

impl Input<'_> {
    // The constant's factor, then the later inputs upwards, then the states upwards, at these adjustments of the stop.
    pub(super) fn later_sum<N: Number + Copy>(&self, made: &[Parts]) -> Result<N, Below>
        ensures { Outcome N.Number (later_here N.Number self.now.here self.now.gains.now self.now.trail.now (at N.Number made.now) self.now.index) result }
    {
        let sizes = self.here.sizes;
        let row = self.row();
        let lateness = Standing::from(self.here).lateness(self.trail);
        let next = self.index + 1;
        let constant: N = number_at(row, sizes.inputs + sizes.states);
        let inputs = add_terms(constant, sizes.inputs - next, |k| {
            times(Ok(number_at(row, next + k)), number_at(made, next + k))
        })?;
        add_terms(inputs, sizes.states, |j| {
            times(Ok(number_at(row, sizes.inputs + j)), number_at(lateness, j))
        })
    }
}
