// A line of a feed as its key and the part of the feed that is its value.
ghost use Rattle.std.specs.Prelude.{◌≡◌, MatchOption};
ghost use Rattle.feed_types.specs.Tokens.{IsKey, spelt};
ghost use Rattle.feed_lines.specs.Lexing.{key_of, value_of};

use feed_types::keys::Key;

// A line by its key, with the bytes of the feed that are its value.
// An enum, and not a key beside a value: a line is passed on as its key and value in one, which is the project's form.
#[derive(Clone, Copy)]
pub enum Token<'a> {
    Stops(&'a [u8]),
    States(&'a [u8]),
    Inputs(&'a [u8]),
    Train(&'a [u8]),
    Stop(&'a [u8]),
    Weight(&'a [u8]),
    Late(&'a [u8]),
    Move(&'a [u8]),
    Aim(&'a [u8]),
}

// The key that a word spells, if it is one of a feed's.
pub fn key_in(word: &[u8]) -> Option<Key>
    ensures { MatchOption result (IsKey word.now → ⊥) (λ k. word.now ≡ spelt k) }
{
    match word {
        b"stops" => Some(Key::Stops),
        b"states" => Some(Key::States),
        b"inputs" => Some(Key::Inputs),
        b"train" => Some(Key::Train),
        b"stop" => Some(Key::Stop),
        b"weight" => Some(Key::Weight),
        b"late" => Some(Key::Late),
        b"move" => Some(Key::Move),
        b"aim" => Some(Key::Aim),
        _ => None,
    }
}

impl<'a> Token<'a> {
    pub fn new(key: Key, value: &'a [u8]) -> Token<'a>
        ensures { (key_of result ≡ key) × (value_of result ≡ value.now) }
    {
        match key {
            Key::Stops => Token::Stops(value),
            Key::States => Token::States(value),
            Key::Inputs => Token::Inputs(value),
            Key::Train => Token::Train(value),
            Key::Stop => Token::Stop(value),
            Key::Weight => Token::Weight(value),
            Key::Late => Token::Late(value),
            Key::Move => Token::Move(value),
            Key::Aim => Token::Aim(value),
        }
    }

    pub fn key(self) -> Key
        ensures { result ≡ key_of self.entry }
    {
        match self {
            Token::Stops(_) => Key::Stops,
            Token::States(_) => Key::States,
            Token::Inputs(_) => Key::Inputs,
            Token::Train(_) => Key::Train,
            Token::Stop(_) => Key::Stop,
            Token::Weight(_) => Key::Weight,
            Token::Late(_) => Key::Late,
            Token::Move(_) => Key::Move,
            Token::Aim(_) => Key::Aim,
        }
    }

    pub fn value(self) -> &'a [u8]
        ensures { result.now ≡ value_of self.entry }
    {
        match self {
            Token::Stops(value)
            | Token::States(value)
            | Token::Inputs(value)
            | Token::Train(value)
            | Token::Stop(value)
            | Token::Weight(value)
            | Token::Late(value)
            | Token::Move(value)
            | Token::Aim(value) => value,
        }
    }
}
