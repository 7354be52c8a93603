// The next line of a feed, as its key and value.
ghost use Rattle.std.specs.Prelude.{◌≡◌, ◌==◌, length, Decides, MatchOption, MatchResult};
ghost use Rattle.std.specs.List.{position};
ghost use Rattle.feed_types.specs.declared.faults.FeedFault.TheVariants.{NoLine};
ghost use Rattle.feed_types.specs.declared.keys.Key.{Key};
ghost use Rattle.feed_types.specs.Tokens.{spelt, HasNoLine, InFeed};
ghost use Rattle.feed_lines.specs.Lexing.{key_of, value_of};
ghost use Rattle.feed_lines.specs.Cursor.{Passes, left};

use super::Lines;
use crate::tokens::{Token, key_in};
use feed_types::faults::FeedFault;
use feed_types::keys::{Key, Place};

// The index of the first such byte.
fn find(bytes: &[u8], byte: u8) -> Option<usize>
    ensures { result ≡ position (λ b. b == byte) bytes.now }
{
    bytes.iter().position(|b| *b == byte)
}

impl<'a> Lines<'a> {
    // A feed before its first line.
    pub fn new(feed: &'a [u8]) -> Lines<'a>
        ensures { (result.feed.now ≡ feed.now) × (result.place ≡ record { line = 1; at = 0 }) }
    {
        Lines::at(feed, Place { line: 1, at: 0 })
    }

    // A feed before the line at a place.
    pub fn at(feed: &'a [u8], place: Place) -> Lines<'a>
        requires { InFeed feed.now place }
        ensures { (result.feed.now ≡ feed.now) × (result.place ≡ place) }
    {
        Lines { feed, place }
    }

    // The place of the next line.
    pub fn place(&self) -> Place
        ensures { result ≡ self.now.place }
    {
        self.place
    }

    // The number of the next line.
    pub fn line(&self) -> usize
        ensures { result ≡ self.now.place.line }
    {
        self.place.line
    }

    // Whether no line is left.
    pub fn is_done(&self) -> bool
        ensures { Decides result (self.now.place.at ≡ length self.now.feed.now) }
    {
        self.place.at == self.feed.len()
    }

    // The next line, if it has an end, a `=` and a key of a feed.
    fn next_token(&mut self) -> Option<Token<'a>>
        ensures { MatchOption result ((k : Key) → HasNoLine (spelt k) (left self.old)) (λ t. Passes self.old (key_of t) (value_of t) self.new) }
    {
        let left = &self.feed[self.place.at..];
        let line = &left[..find(left, b'\n')?];
        let mid = find(line, b'=')?;
        let key = key_in(&line[..mid])?;
        self.place = Place {
            line: self.place.line + 1,
            at: self.place.at + line.len() + 1,
        };
        Some(Token::new(key, &line[mid + 1..]))
    }

    // The value of the next line, which is to have this key.
    pub fn expect(&mut self, key: Key) -> Result<&'a [u8], FeedFault>
        ensures { MatchResult result (λ v. Passes self.old key v.now self.new) (λ e. (e ≡ NoLine self.old.place.line) × HasNoLine (spelt key) (left self.old)) }
    {
        let line = self.place.line;
        self.next_token()
            .filter(|token| token.key() == key)
            .map(|token| token.value())
            .ok_or(FeedFault::NoLine { line })
    }
}
