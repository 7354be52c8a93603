#![tactic(auto, using(crate::specs::Finding::worked))]

// Numbers worked at a place of a line: a fault takes the mark of that place. One function for each operation, since each contract names its own.
ghost use Rattle.algebra.specs.Exact.{whole_e, add_e, neg_e, mul_e};
ghost use Rattle.lines.specs.Kinds.{Worked};

use super::faults::{Mark, Placed, at_place};
use super::line::Kind;

// A whole number.
pub fn whole_at<N: Kind>(w: i64, mark: Mark) -> Result<N, Placed>
    ensures { Worked N.Kind.find mark (whole_e N.Number.radicand w) result }
{
    at_place(N::whole(w), mark)
}

// a + b
pub fn plus_at<N: Kind + Copy>(a: N, b: N, mark: Mark) -> Result<N, Placed>
    ensures { Worked N.Kind.find mark (add_e (N.Number.value a) (N.Number.value b)) result }
{
    at_place(a.plus(b), mark)
}

// a − b
pub fn minus_at<N: Kind + Copy>(a: N, b: N, mark: Mark) -> Result<N, Placed>
    ensures { Worked N.Kind.find mark (add_e (N.Number.value a) (neg_e (N.Number.value b))) result }
{
    at_place(a.minus(b), mark)
}

// a × b
pub fn times_at<N: Kind + Copy>(a: N, b: N, mark: Mark) -> Result<N, Placed>
    ensures { Worked N.Kind.find mark (mul_e (N.Number.value a) (N.Number.value b)) result }
{
    at_place(a.times(b), mark)
}
