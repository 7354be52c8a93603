// Numbers that are worked one operation after the other; the first that fails ends the work.
ghost use Rattle.std.specs.Prelude.{ℕ, ◌<◌};
ghost use Rattle.study_terms.specs.Operations.{Multiplied, Summed};

use super::faults::Below;
use numbers::Number;

// x × y, once x is worked.
pub fn times<N: Number + Copy>(x: Result<N, Below>, y: N) -> Result<N, Below>
    ensures { Multiplied N.Number x y result }
{
    Ok(x?.times(y)?)
}

// A total, and after it one term after the other.
pub fn add_terms<N: Number + Copy, T: Fn(usize) -> Result<N, Below>>(
    mut total: N,
    count: usize,
    term: T,
) -> Result<N, Below>
    requires { (k : ℕ) → k < count → T.pre term k }
    ensures { Summed N.Number total count (T.post term) result }
{
    for k in 0..count {
        total = total.plus(term(k)?)?;
    }
    Ok(total)
}
