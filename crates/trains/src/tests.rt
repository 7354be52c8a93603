// Worked examples.
use super::faults::FitFault;
use super::layer::Trains;
use super::laying::{fits, lay};
use aims::layer::Aims;
use feeds::book::Book;
use lines::faults::LineFault;
use lines::line::Line;
use lines::table::Table;
use numbers::{Fraction, Number};
use std::test::Fail;

// The whole number that an entry is; −99 for any other answer. Each crate's tests have it: a shared one would be a public call.
fn whole(entry: Result<Fraction, LineFault>) -> i64 {
    entry
        .ok()
        .map(|k| k.row())
        .filter(|row| row.m == 1)
        .map_or(-99, |row| row.p)
}

const FEED: &[u8] =
    b"stops=1\nstates=1\ninputs=1\ntrain=A\nstop=0\nweight=3\nlate=1\nmove=0\naim=2\n";

#[test]
fn one_train_in_both_feeds(rt: HostRuntime) -> Result<(), Fail> {
    let mut book = Book::new(rt.alloc())?;
    let first = book.read(FEED);
    let second = book.read(FEED);
    assert!(rt; first.is_ok() && second.is_ok());
    let numbers = [1, 1, 1, 1, 1, 0, 0, 0, 0, 0, 0, 0, 0, 0, 0].to_vec(rt.alloc())?;
    let line = lay(Aims::over(Table::open(numbers)?), book)?;
    assert_eq!(rt; whole(line.g(0, 1, 1)), 3);
    assert_eq!(rt; whole(line.g(0, 2, 1)), -6);
    assert_eq!(rt; whole(line.g(0, 2, 2)), 12);
    assert_eq!(rt; whole(line.g(1, 0, 0)), 0);
    assert_eq!(rt; line.level(), 2);
    Ok(())
}

#[test]
fn other_sizes(rt: HostRuntime) -> Result<(), Fail> {
    let mut book = Book::new(rt.alloc())?;
    assert!(rt; book.read(FEED).is_ok());
    let numbers = [
        2, 1, 1, 1, 1, 0, 0, 0, 0, 0, 0, 0, 1, 1, 0, 0, 0, 0, 0, 0, 0, 0, 0, 0,
    ]
    .to_vec(rt.alloc())?;
    let table = Table::open(numbers)?;
    assert!(rt; fits(&table, &book).is_err());
    let line = Trains::over(table, book);
    assert_eq!(rt; whole(line.g(0, 1, 1)), 0);
    Ok(())
}

#[test]
fn sentence(rt: HostRuntime) -> Result<(), Fail> {
    let fault = FitFault::OtherSizes;
    assert_eq!(rt;
        format!(in rt.alloc(); "{fault}")?.as_str(),
        "refused 7: the sizes of the feeds are not those of the line"
    );
    Ok(())
}
