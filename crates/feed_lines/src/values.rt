// The values of a feed's lines: decimals, and factors parted by commas.
ghost use Rattle.std.specs.Prelude.{◌≡◌, ℕ, ◌+◌, ◌<◌, ◌≤◌, ◌^◌, ◌≢◌, List, length, ℤ, decimal, MatchOption, IfSome};
ghost use Rattle.feed_types.specs.Fields.{Counts, Integers};
ghost use Rattle.feed_types.specs.Limits.{Within};
ghost use Rattle.feed_types.specs.Text.{commas};
ghost use Rattle.std.specs.List.{AllByRecursion};
ghost use Rattle.std.specs.Fmt.{signed_decimal};

// The value of a digit.
fn digit(byte: u8) -> Option<u16>
    ensures { IfSome result (λ d. (d ≤ 9) × (byte ≡ 48 + d)) }
{
    match byte {
        b'0'..=b'9' => Some(u16::from(byte - b'0')),
        _ => None,
    }
}

// The number that these bytes write in one digit or in two. Most numbers of a feed are such, and no text need be made of them.
fn short(text: &[u8]) -> Option<u16>
    ensures { IfSome result (λ n. (n ≤ 99) × (text.now ≡ decimal n)) }
{
    match text {
        [ones] => digit(*ones),
        [tens, ones] if *tens != b'0' => Some(digit(*tens)? * 10 + digit(*ones)?),
        _ => None,
    }
}

// The number that these bytes write in decimal, if 16 bits hold it.
fn number(text: &[u8]) -> Option<u16>
    ensures { MatchOption result ((n : ℕ) → n < 2 ^ 16 → text.now ≡ decimal n → ⊥) (λ n. (n < 2 ^ 16) × (text.now ≡ decimal n)) }
{
    if let Some(n) = short(text) {
        return Some(n);
    }
    let first = *text.first()?;
    // `parse` would read a plus and leading zeros too
    if first == b'+' || first == b'0' && text.len() > 1 {
        return None;
    }
    std::str::from_utf8(text).ok()?.parse().ok()
}

// The number that these bytes write in decimal, if it is from `least` to `most`.
pub fn unsigned(text: &[u8], least: u16, most: u16) -> Option<u16>
    ensures { MatchOption result (Counts least most text.now → ⊥) (λ n. (least ≤ n) × (n ≤ most) × (text.now ≡ decimal n)) }
{
    let n = number(text)?;
    if least <= n && n <= most {
        Some(n)
    } else {
        None
    }
}

// The whole number that these bytes write in decimal, if it is between -`most` and `most`.
pub fn integer(text: &[u8], most: u16) -> Option<i16>
    requires { most ≤ 999 }
    ensures { MatchOption result (Integers most text.now → ⊥) (λ z. Within most z × (text.now ≡ signed_decimal z)) }
{
    // at most `most`, so the casts keep the number: a TryFrom would add a refusal that cannot come
    match text {
        [b'-', digits @ ..] => Some(-(unsigned(digits, 1, most)? as i16)),
        _ => Some(unsigned(text, 0, most)? as i16),
    }
}

// Fills `out` with the factors that these bytes write, parted by commas, if they are as many, each between -99 and 99.
pub fn factors(text: &[u8], out: &mut [i8]) -> Option<()>
    requires { 1 ≤ length out.old }
    ensures { MatchOption result ((zs : List ℤ) → length zs ≡ length out.old → AllByRecursion (Within 99) zs → text.now ≢ commas zs) (λ _. AllByRecursion (Within 99) out.new × (text.now ≡ commas out.new)) }
{
    // no further than one word too many
    let words = text.split(|b| *b == b',').take(out.len() + 1).count();
    if words != out.len() {
        return None;
    }
    // by index: a zip over `iter_mut` leaves a proof nothing of what is written
    for (k, word) in text.split(|b| *b == b',').enumerate() {
        // between -99 and 99, so it fits: a TryFrom would add a refusal that cannot come
        out[k] = integer(word, 99)? as i8;
    }
    Some(())
}
