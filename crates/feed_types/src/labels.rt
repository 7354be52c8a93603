// Labels made, read and printed.
ghost use Rattle.std.specs.Prelude.{◌≡◌, MatchOption};
ghost use Rattle.feed_types.specs.Limits.{letter, name, LabelText, GoodLabel};

use super::types::Label;
use std::fmt;

// Whether the byte may stand in a label.
fn is_letter(b: u8) -> bool
    ensures { result ≡ letter b }
{
    matches!(b, b'A'..=b'Z' | b'0'..=b'9')
}

impl Label {
    // The label that these bytes spell, if they may be one.
    pub fn new(text: &[u8]) -> Option<Label>
        ensures { MatchOption result (LabelText text.now → ⊥) (λ l. GoodLabel l × (name l ≡ text.now)) }
    {
        if text.is_empty() || text.len() > 8 {
            return None;
        }
        // by index, a rule of the project: one walk checks the letters and leaves the padding
        let mut bytes = [0u8; 8];
        for (i, b) in text.iter().enumerate() {
            if !is_letter(*b) {
                return None;
            }
            bytes[i] = *b;
        }
        Some(Label { bytes })
    }

    // The bytes of the label, without its padding.
    pub fn text(&self) -> &[u8]
        ensures { result.now ≡ name self.now }
    {
        let end = self.bytes.iter().position(|b| *b == 0).unwrap_or(8);
        &self.bytes[..end]
    }
}

// The label's letters.
impl fmt::Display for Label {
    fn fmt<W: fmt::Write>(&self, f: &mut fmt::Formatter<W>) -> fmt::Result {
        for b in self.text() {
            write!(f, "{}", char::from(*b))?;
        }
        Ok(())
    }
}
