// A few rows of a sheet.
ghost use Rattle.std.specs.Prelude.{◌≡◌, ℕ, ◌<◌, ◌≤◌, slice_index_or};
ghost use Rattle.study_terms.specs.Sheets.{blank, zero_row};
ghost use Rattle.study_terms.specs.Sized.{shape};
ghost use Rattle.study_runs.specs.Telling.{LatenessRows};

use super::answers::Few;
use numbers::Parts;
use std::array;
use study_terms::ZERO;
use study_terms::stops::Standing;

// What lies past the end of a sheet.
const BLANK: Parts = Parts { p: 0, q: 0, m: 0 };

// The first rows of a sheet, and zeros after them.
pub(super) fn few(sheet: &[Parts], count: usize) -> Few
    requires { count ≤ 4 }
    ensures count { result.count ≡ count }
    ensures rows { (j : ℕ) → j < count → slice_index_or result.rows j blank ≡ slice_index_or sheet.now j blank }
    ensures zeros { (j : ℕ) → count ≤ j → j < 4 → slice_index_or result.rows j blank ≡ zero_row }
{
    let rows = array::from_fn(|j| {
        if j < count {
            sheet.get(j).copied().unwrap_or(BLANK)
        } else {
            ZERO
        }
    });
    Few { rows, count }
}

// The lateness where a run stands.
pub(super) fn lateness_at(at: Standing, trail: &[Parts]) -> Few
    ensures { LatenessRows (shape at.sizes) at.stop trail.now result }
{
    few(at.lateness(trail), at.sizes.states)
}
