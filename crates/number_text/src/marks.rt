// The three ways to spell a number, by their marks: the slash, the signs, the root and the parentheses.
ghost use Rattle.std.specs.Prelude.{◌≡◌, ℕ, ◌<◌, ℤ, pos, ◌<ℤ◌, MatchOption, unsigned_abs};
ghost use Rattle.number_text.specs.Readings.{Found, PairAnswer, PlainAnswer, RootedAnswer};
ghost use Rattle.number_text.specs.Spelling.{Natural, Plain, Sum};

use crate::digits::{positive, step, whole};
use numbers::Parts;

// The number below the slash, which is not 0.
fn divisor(text: &str) -> Option<i64>
    ensures { MatchOption result ((m : ℕ) → Natural text.now m → ¬ (0 < m)) (λ z. (pos 0 <ℤ z) × Natural text.now (unsigned_abs z)) }
{
    match positive(text)? {
        0 => None,
        m => Some(m),
    }
}

// `p` or `p/m`.
fn plain(text: &str) -> Option<Parts>
    ensures { PlainAnswer (Plain text.now) result }
{
    let (p, q, m) = match text.split_once('/') {
        Some((above, below)) => (whole(above)?, 0, divisor(below)?),
        None => (whole(text)?, 0, 1),
    };
    Some(Parts { p, q, m })
}

// p and then q with its sign, which is the last sign.
fn sum(text: &str) -> Option<(i64, i64)>
    ensures { PairAnswer (Sum text.now) result }
{
    let (left, right) = text.split_at(text.rfind(['+', '-'])?);
    Some((whole(left)?, step(right)?))
}

// `(p+q√D)/m`.
fn rooted(text: &str, d: i64) -> Option<Parts>
    ensures { (D : ℕ) → d ≡ pos D → RootedAnswer D text.now result }
{
    let (inside, below) = text.strip_prefix('(')?.split_once(")/")?;
    let (above, root) = inside.split_once("√")?;
    if d == 0 || positive(root)? != d {
        return None;
    }
    let (p, q) = sum(above)?;
    let m = divisor(below)?;
    Some(Parts { p, q, m })
}

// The parts that the text spells, in any of the three forms.
pub(crate) fn spelled(text: &str, d: i64) -> Option<Parts>
    ensures { (D : ℕ) → d ≡ pos D → Found D text.now result }
{
    if text.starts_with('(') {
        rooted(text, d)
    } else {
        plain(text)
    }
}
