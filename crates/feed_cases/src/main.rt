#![tactic(auto)]

// Reads cases from standard input, one to a line, and prints what a book answers to each:
//   new                 a new book
//   read FEED           a feed, with \n, \r, \t, \\ and \xHH for bytes that a line cannot show
//   find STOP LABEL     where a train stands
ghost use Rattle.std.specs.Prelude.{◌<◌, length, IfSome};

use feed_types::faults::FeedFault;
use feeds::book::Book;
use std::alloc::{AllocError, AllocFailed, Global};
use std::io;

// Why the program stops before its end. It prints by its name, `Error: NoCase`, and a cause beside `Memory` would print too: so the
// conversions are written out.
#[derive(Debug, Drop)]
enum Failure {
    Memory,
    Io(io::Error),
    // a line that is no case
    NoCase,
}

impl From<AllocError> for Failure {
    fn from(_e: AllocError) -> Failure {
        Failure::Memory
    }
}

impl<T: Drop> From<AllocFailed<T>> for Failure {
    fn from(_e: AllocFailed<T>) -> Failure {
        Failure::Memory
    }
}

impl From<io::Error> for Failure {
    fn from(e: io::Error) -> Failure {
        Failure::Io(e)
    }
}

fn main(rt: HostRuntime) -> Result<(), Failure> {
    let mut book = Book::new(rt.alloc())?;
    for line in rt.lines(rt.alloc()) {
        let line = line?;
        if line.as_str() == "new" {
            book = Book::new(rt.alloc())?;
            println!(rt; "new")?;
        } else {
            answer(&rt, &mut book, line.as_str())?;
        }
    }
    Ok(())
}

fn answer(rt: &HostRuntime, book: &mut Book, line: &str) -> Result<(), Failure> {
    match line.split_once(' ') {
        Some(("read", feed)) => {
            let bytes = unescaped(rt.alloc(), feed.as_bytes())?;
            let answer = book.read(&bytes);
            tell(rt, answer)?;
            let trains = book.trains().len();
            println!(rt; "trains {trains}")?;
            Ok(())
        }
        Some(("find", rest)) => find(rt, book, rest),
        _ => Err(Failure::NoCase),
    }
}

fn tell(rt: &HostRuntime, answer: Result<usize, FeedFault>) -> Result<(), Failure> {
    match answer {
        Ok(new) => println!(rt; "new {new}")?,
        Err(FeedFault::OtherValues { line, slot }) => println!(rt;
            "refused 95 line {line} slot {slot}"
        )?,
        Err(fault) => {
            let number = fault.number();
            match fault.line() {
                Some(line) => println!(rt; "refused {number} line {line}")?,
                None => println!(rt; "refused {number}")?,
            }
        }
    }
    Ok(())
}

fn find(rt: &HostRuntime, book: &Book, rest: &str) -> Result<(), Failure> {
    let (stop, label) = rest.split_once(' ').ok_or(Failure::NoCase)?;
    let stop = stop.parse::<usize>().map_err(|_| Failure::NoCase)?;
    match book.find(stop, label.as_bytes()) {
        Some(slot) => println!(rt; "slot {slot}")?,
        None => println!(rt; "none")?,
    }
    Ok(())
}

fn digit(b: u8) -> u8
    ensures { result < 16 }
{
    match b {
        b'0'..=b'9' => b - b'0',
        b'a'..=b'f' => b - b'a' + 10,
        _ => 0,
    }
}

// The bytes that an escaped text stands for.
fn unescaped(heap: Global, text: &[u8]) -> Result<Vec<u8>, AllocError> {
    let mut bytes = Vec::new(heap);
    let mut rest = text;
    while let Some((byte, more)) = first_byte(rest) {
        bytes.push(byte)?;
        rest = more;
    }
    Ok(bytes)
}

// The first of them, and the text of the others.
fn first_byte(text: &[u8]) -> Option<(u8, &[u8])>
    ensures { IfSome result (λ p. length p.1.now < length text.now) }
{
    match text {
        [] => None,
        [b'\\', b'n', more @ ..] => Some((b'\n', more)),
        [b'\\', b'r', more @ ..] => Some((b'\r', more)),
        [b'\\', b't', more @ ..] => Some((b'\t', more)),
        [b'\\', b'x', high, low, more @ ..] => Some((digit(*high) * 16 + digit(*low), more)),
        [b'\\', _, more @ ..] => Some((b'\\', more)),
        [byte, more @ ..] => Some((*byte, more)),
    }
}

#[cfg(test)]
mod tests {
    use super::*;
    use std::test::Fail;

    const EXAMPLE: &[u8] =
        b"stops=2\nstates=1\ninputs=1\ntrain=T\nstop=1\nweight=3\nlate=1\nmove=0\naim=2\n";

    #[test]
    fn a_train_in_both_feeds_stands_once(rt: HostRuntime) -> Result<(), Fail> {
        let mut book = Book::new(rt.alloc())?;
        assert_eq!(rt; book.read(EXAMPLE), Ok(1));
        assert_eq!(rt; book.read(EXAMPLE), Ok(0));
        assert!(rt; book.trains().len() == 1);
        assert_eq!(rt; book.trains()[0].weight, 3);
        assert_eq!(rt; book.trains()[0].late, [1, 0, 0, 0]);
        assert_eq!(rt; book.trains()[0].aim, 2);
        assert_eq!(rt; book.find(1, b"T"), Some(0));
        assert_eq!(rt; book.find(0, b"T"), None);
        Ok(())
    }
}
