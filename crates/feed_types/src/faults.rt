// Why a feed is refused. A refused feed leaves the book as it was.
ghost use Rattle.std.specs.Prelude.{◌≡◌};
ghost use Rattle.feed_types.specs.Faults.{number, line_of};

use std::fmt;

// Lines count from 1, slots of the book from 0.
#[derive(Clone, Copy, PartialEq, Eq, Debug)]
pub enum FeedFault {
    // the feed has more than 8,192 bytes
    TooLong,
    // the line is missing, has no end, or has another key than its place asks for
    NoLine { line: usize },
    // the value of the line breaks the rules of its key
    BadValue { line: usize },
    // the size on this line of the header is not the book's
    OtherSize { line: usize },
    // the train of the block that ends with this line stands in the book, at this slot, with other values
    OtherValues { line: usize, slot: usize },
    // the train of the block that ends with this line is new, and the book has 64 trains
    BookFull { line: usize },
}

impl FeedFault {
    // The number of the refusal.
    pub fn number(self) -> u8
        ensures { result ≡ number self }
    {
        match self {
            FeedFault::TooLong => 91,
            FeedFault::NoLine { .. } => 92,
            FeedFault::BadValue { .. } => 93,
            FeedFault::OtherSize { .. } => 94,
            FeedFault::OtherValues { .. } => 95,
            FeedFault::BookFull { .. } => 96,
        }
    }

    // The line that is refused, if the refusal names one.
    pub fn line(self) -> Option<usize>
        ensures { result ≡ line_of self }
    {
        match self {
            FeedFault::TooLong => None,
            FeedFault::NoLine { line }
            | FeedFault::BadValue { line }
            | FeedFault::OtherSize { line }
            | FeedFault::OtherValues { line, .. }
            | FeedFault::BookFull { line } => Some(line),
        }
    }

    // What went wrong, for a person.
    fn sentence(self) -> &'static str {
        match self {
            FeedFault::TooLong => "the feed has more than 8192 bytes",
            FeedFault::NoLine { .. } =>
                "the line is missing, has no end, or has another key than expected here",
            FeedFault::BadValue { .. } => "the value breaks the rules of its key",
            FeedFault::OtherSize { .. } => "the size is not that of the feeds joined before",
            FeedFault::OtherValues { .. } => "the train stands in the book with other values",
            FeedFault::BookFull { .. } => "the train is new, and the book has its 64 trains",
        }
    }
}

// `refused 93 at line 7: the value breaks the rules of its key`
impl fmt::Display for FeedFault {
    fn fmt<W: fmt::Write>(&self, f: &mut fmt::Formatter<W>) -> fmt::Result {
        let fault = *self;
        let number = fault.number();
        let sentence = fault.sentence();
        match fault {
            FeedFault::TooLong => write!(f, "refused {number}: {sentence}"),
            FeedFault::OtherValues { line, slot } => write!(
                f,
                "refused {number} at line {line}: {sentence} (slot {slot})"
            ),
            FeedFault::NoLine { line }
            | FeedFault::BadValue { line }
            | FeedFault::OtherSize { line }
            | FeedFault::BookFull { line } => write!(
                f,
                "refused {number} at line {line}: {sentence}"
            ),
        }
    }
}

impl std::error::Error for FeedFault {}
