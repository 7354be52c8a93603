// The lists at which forms are taken: adjustments, lateness and 1.
ghost use Rattle.std.specs.Prelude.{◌≡◌};
ghost use Rattle.study_terms.specs.Sheets.{at, state_list, stacked_list};
ghost use Rattle.study_terms.specs.Sized.{shape};

use numbers::{Number, Parts};
use study_terms::sizes::Sizes;
use study_terms::{number_at, one};

// A number of (lateness, 1).
pub fn state_entry<N: Number>(sizes: Sizes, lateness: &[Parts], place: usize) -> N
    ensures { N.Number.value result ≡ state_list N.Number (shape sizes) (at N.Number lateness.now) place }
{
    if place < sizes.states {
        return number_at(lateness, place);
    }
    one()
}

// A number of (adjustments, lateness, 1).
pub fn stacked_entry<N: Number>(
    sizes: Sizes,
    adjustments: &[Parts],
    lateness: &[Parts],
    place: usize,
) -> N
    ensures { N.Number.value result ≡ stacked_list N.Number (shape sizes) (at N.Number adjustments.now) (at N.Number lateness.now) place }
{
    if place < sizes.inputs {
        return number_at(adjustments, place);
    }
    state_entry(sizes, lateness, place - sizes.inputs)
}
