// Why an entry of a line is refused.
ghost use Rattle.std.specs.Prelude.{◌≡◌, min, max, Ok, Err, MatchResult};
ghost use Rattle.lines.specs.Laws.{place_mark};

use numbers::NumberFault;

// The place where a number came up that its kind does not hold: the level of the line that worked it, and the place that was asked
// there. Of G it names the place above the diagonal.
#[derive(Clone, Copy, PartialEq, Eq, Debug)]
pub struct Mark {
    pub level: u8,
    pub stop: usize,
    pub row: usize,
    pub column: usize,
}

impl Mark {
    // The mark of a place.
    pub fn at(level: u8, stop: usize, row: usize, column: usize) -> Mark
        ensures { result ≡ place_mark level stop row column }
    {
        Mark {
            level,
            stop,
            row,
            column,
        }
    }

    // The mark of a place of G and its mirror.
    pub fn above(level: u8, stop: usize, row: usize, column: usize) -> Mark
        ensures { result ≡ place_mark level stop (min row column) (max row column) }
    {
        Mark::at(level, stop, row.min(column), row.max(column))
    }
}

// A marked place was asked.
#[derive(Clone, Copy, PartialEq, Eq, Debug)]
pub struct LineFault {
    pub mark: Mark,
}

// A number's fault, with the place where it came up.
#[derive(Clone, Copy)]
pub struct Placed {
    pub fault: NumberFault,
    pub mark: Mark,
}

impl From<Placed> for LineFault {
    ghost from_gives = { λ e r. r.mark ≡ e.mark };

    fn from(e: Placed) -> LineFault {
        LineFault { mark: e.mark }
    }
}

// What a number's operation answered, with the place where it was worked.
pub fn at_place<T>(r: Result<T, NumberFault>, mark: Mark) -> Result<T, Placed>
    ensures { MatchResult r (λ x. result ≡ Ok x) (λ e. result ≡ Err (record { fault = e; mark = mark })) }
{
    r.map_err(|fault| Placed { fault, mark })
}

// Why numbers are not opened as a line.
#[derive(Clone, Copy, PartialEq, Eq, Debug)]
pub enum OpenFault {
    // the header is missing, or a size in it is outside its limits
    BadHeader,
    // there are more or fewer numbers than the header asks for
    BadLength,
    // the number at this index, from 0 at the first of the header, is the first that is beyond ±9,999
    BadEntry { index: usize },
}
