// The numbers under which refusals are reported, and their sentences.
ghost use Rattle.std.specs.Prelude.{◌≡◌, Some};
ghost use Rattle.lines.specs.Meaning.{line_fault};
ghost use Rattle.lines.specs.Opening.{open_fault};
ghost use Rattle.lines.specs.Sentences.{fault_text, mark_text, open_text};

use super::faults::{LineFault, Mark, OpenFault};
use std::error::Error;
use std::fmt;

// `mark 1 0 2 2`: level, stop, row, column
impl fmt::Display for Mark {
    ghost output = { λ m. Some (mark_text m) };

    fn fmt<W: fmt::Write>(&self, f: &mut fmt::Formatter<W>) -> fmt::Result {
        let level = self.level;
        let stop = self.stop;
        let row = self.row;
        let column = self.column;
        write!(f, "mark {level} {stop} {row} {column}")
    }
}

impl LineFault {
    pub fn number(self) -> u8
        ensures { result ≡ line_fault self }
    {
        1
    }
}

impl fmt::Display for LineFault {
    ghost output = { λ f. Some (fault_text f) };

    fn fmt<W: fmt::Write>(&self, f: &mut fmt::Formatter<W>) -> fmt::Result {
        let mark = self.mark;
        write!(
            f,
            "refused 1 at {mark}: the number there is too large for its kind"
        )
    }
}

impl Error for LineFault {}

impl OpenFault {
    pub fn number(self) -> u8
        ensures { result ≡ open_fault self }
    {
        match self {
            OpenFault::BadHeader => 3,
            OpenFault::BadLength => 4,
            OpenFault::BadEntry { .. } => 5,
        }
    }
}

impl fmt::Display for OpenFault {
    ghost output = { λ f. Some (open_text f) };

    fn fmt<W: fmt::Write>(&self, f: &mut fmt::Formatter<W>) -> fmt::Result {
        match self {
            OpenFault::BadHeader => {
                f.write_str("refused 3: the header is missing, or a size is outside its limits")
            }
            OpenFault::BadLength => {
                f.write_str("refused 4: there are more or fewer numbers than the header asks for")
            }
            OpenFault::BadEntry { index } => write!(
                f,
                "refused 5 at index {index}: the number is beyond 9999 in size"
            ),
        }
    }
}

impl Error for OpenFault {}
