// The trail is begun.
ghost use Rattle.study_costs.specs.Answered.{BeginAnswer};

use super::rows::enter;
use numbers::{Number, Parts};
use study_terms::ZERO;
use study_terms::faults::StudyFault;
use study_terms::sizes::Sizes;
use study_terms::stops::Standing;

// Writes the start and zeros to the trail.
pub fn begin_trail<N: Number + Copy>(
    sizes: Sizes,
    start: &[Parts],
    trail: &mut [Parts],
) -> Result<Standing, StudyFault>
    ensures { BeginAnswer N.Number sizes start.now trail.old trail.new result }
{
    if start.len() != sizes.states {
        return Err(StudyFault::StartLength);
    }
    let need = sizes.trail_length();
    if trail.len() < need {
        return Err(StudyFault::TrailShort);
    }
    enter::<N>(start, &mut trail[..sizes.states]);
    // nothing of an earlier study stays in the trail
    trail[sizes.states..need].fill(ZERO);
    Ok(Standing { sizes, stop: 0 })
}
