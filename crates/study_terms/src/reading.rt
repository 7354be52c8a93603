// Numbers read from sheets.
ghost use Rattle.std.specs.Prelude.{◌≡◌};
ghost use Rattle.algebra.specs.Exact.{zero_e, one_e};
ghost use Rattle.study_terms.specs.Sheets.{at};

use numbers::{Number, Parts};

// The row in which every kind writes 0.
pub const ZERO: Parts = Parts { p: 0, q: 0, m: 1 };

// The number 0 of a kind. A function for 0 and one for 1: formulas name them `zero_e` and `one_e`.
pub fn zero<N: Number>() -> N
    ensures { N.Number.value result ≡ zero_e N.Number.radicand }
{
    N::whole(0).unwrap()
}

// The number 1 of a kind.
pub fn one<N: Number>() -> N
    ensures { N.Number.value result ≡ one_e N.Number.radicand }
{
    N::whole(1).unwrap()
}

// The number that a sheet means at a place; past its end it means 0.
pub fn number_at<N: Number>(sheet: &[Parts], place: usize) -> N
    ensures { N.Number.value result ≡ at N.Number sheet.now place }
{
    match sheet.get(place) {
        Some(row) => N::read(*row),
        None => zero(),
    }
}
