// Numerals: digits, and whole numbers with their signs.
ghost use Rattle.std.specs.Prelude.{ℤ, MatchOption};
ghost use Rattle.number_text.specs.Spelling.{Minus, Positive, Step, Whole};

// 1 to 18 digits. `parse` alone would read a sign and longer numerals too.
pub(crate) fn positive(text: &str) -> Option<i64>
    ensures { MatchOption result ((z : ℤ) → ¬ Positive text.now z) (λ z. Positive text.now z) }
{
    if text.len() > 18 || text.starts_with('+') || text.starts_with('-') {
        return None;
    }
    text.parse().ok()
}

// A whole number that has a − in front.
fn minus(text: &str) -> Option<i64>
    ensures { MatchOption result ((z : ℤ) → ¬ Minus text.now z) (λ z. Minus text.now z) }
{
    let digits = text.strip_prefix('-')?;
    Some(-positive(digits)?)
}

// A whole number: digits, with a − in front where it is negative.
pub(crate) fn whole(text: &str) -> Option<i64>
    ensures { MatchOption result ((z : ℤ) → ¬ Whole text.now z) (λ z. Whole text.now z) }
{
    if text.starts_with('-') {
        minus(text)
    } else {
        positive(text)
    }
}

// A whole number with its sign in front.
pub(crate) fn step(text: &str) -> Option<i64>
    ensures { MatchOption result ((z : ℤ) → ¬ Step text.now z) (λ z. Step text.now z) }
{
    match text.strip_prefix('+') {
        Some(digits) => positive(digits),
        None => minus(text),
    }
}
