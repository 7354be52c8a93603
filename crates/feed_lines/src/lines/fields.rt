// The lines of a feed by their keys: each is read as its value, or refused with its number.
ghost use Rattle.std.specs.Prelude.{◌≡◌, ◌≤◌, ⊤, take, decimal, MatchResult};
ghost use Rattle.std.specs.Fmt.{signed_decimal};
ghost use Rattle.feed_types.specs.declared.keys.Key.TheVariants as keys;
ghost use Rattle.feed_types.specs.Fields.{Counts, Lists, Integers, BadLine};
ghost use Rattle.feed_types.specs.Limits.{name, LabelText, GoodLabel, Factors, Within};
ghost use Rattle.feed_types.specs.Text.{commas};
ghost use Rattle.feed_lines.specs.Cursor.{Passes, left};

use super::Lines;
use crate::values::{factors, integer, unsigned};
use feed_types::faults::FeedFault;
use feed_types::keys::Key;
use feed_types::types::Label;

impl<'a> Lines<'a> {
    // A train's label.
    pub fn label(&mut self) -> Result<Label, FeedFault>
        ensures { MatchResult result (λ l. GoodLabel l × Passes self.old keys.Train (name l) self.new) (BadLine keys.Train LabelText (left self.old) self.old.place.line) }
    {
        let line = self.place.line;
        let value = self.expect(Key::Train)?;
        Label::new(value).ok_or(FeedFault::BadValue { line })
    }

    // A number from `least` to `most`.
    pub fn count(&mut self, key: Key, least: u16, most: u16) -> Result<u16, FeedFault>
        ensures { MatchResult result (λ n. (least ≤ n) × (n ≤ most) × Passes self.old key (decimal n) self.new) (BadLine key (Counts least most) (left self.old) self.old.place.line) }
    {
        let line = self.place.line;
        let value = self.expect(key)?;
        unsigned(value, least, most).ok_or(FeedFault::BadValue { line })
    }

    // A whole number between -`most` and `most`.
    pub fn integer(&mut self, key: Key, most: u16) -> Result<i16, FeedFault>
        requires { most ≤ 999 }
        ensures { MatchResult result (λ z. Within most z × Passes self.old key (signed_decimal z) self.new) (BadLine key (Integers most) (left self.old) self.old.place.line) }
    {
        let line = self.place.line;
        let value = self.expect(key)?;
        integer(value, most).ok_or(FeedFault::BadValue { line })
    }

    // `count` factors, and zeros after them.
    pub fn factors<const N: usize>(&mut self, key: Key, count: u8) -> Result<[i8; N], FeedFault>
        requires { (1 ≤ count) × (count ≤ N) }
        ensures { MatchResult result (λ zs. Factors count N zs × Passes self.old key (commas (take count zs)) self.new) (BadLine key (Lists count N (λ _. ⊤)) (left self.old) self.old.place.line) }
    {
        let line = self.place.line;
        let value = self.expect(key)?;
        let mut out = [0; N];
        factors(value, &mut out[..usize::from(count)]).ok_or(FeedFault::BadValue { line })?;
        Ok(out)
    }
}
