// The layers over lines of odd sizes, and over each other; a steady line over roots.
use super::Plain;
use aims::layer::Aims;
use feeds::book::Book;
use lines::faults::LineFault;
use lines::line::Line;
use lines::steady::Steady;
use numbers::{Five, Fraction, Number, Parts, Root};
use std::test::Fail;
use trains::layer::Trains;

// Whether an entry is 0.
fn is_zero(entry: Result<Fraction, LineFault>) -> bool {
    entry.is_ok_and(|k| k.row().p == 0)
}

// Aims over trains over aims over a line of these sizes, asked at the largest places.
fn layered(stops: usize, states: usize, inputs: usize, book: Book) -> bool {
    let mut below = Aims::over(Plain {
        stops,
        states,
        inputs,
    });
    let _ = below.set(0, 0, 5);
    let line = Aims::over(Trains::over(below, book));
    let most = usize::MAX;
    is_zero(line.g(0, 0, 0))
        && is_zero(line.g(most, most, most))
        && is_zero(line.g(0, most, 0))
        && is_zero(line.f(most, most, most))
        && line.level() == 3
}

#[test]
fn odd_sizes(rt: HostRuntime) -> Result<(), Fail> {
    let most = usize::MAX;
    assert!(rt; layered(0, 0, 0, Book::new(rt.alloc())?));
    assert!(rt; layered(most, most, most, Book::new(rt.alloc())?));
    assert!(rt; layered(1, most, 0, Book::new(rt.alloc())?));
    Ok(())
}

// Whether an entry is (p + q√5)/m.
fn is_root(entry: Result<Root<Five>, LineFault>, p: i64, q: i64, m: i64) -> bool {
    entry.is_ok_and(|k| {
        let row = k.row();
        row.p == p && row.q == q && row.m == m
    })
}

// Whether an entry is a whole number.
fn is_whole(entry: Result<Root<Five>, LineFault>, w: i64) -> bool {
    is_root(entry, w, 0, 1)
}

// The next lateness is u + x and the cost u² + x²; at stop 24 the square of the lateness weighs (1 + √5)/2.
#[test]
fn steady_over_roots(rt: HostRuntime) -> Result<(), Fail> {
    let weight = Root::<Five>::read(Parts { p: 1, q: 1, m: 2 });
    let line = Steady::open(&[24, 1, 1, 0, 1, 0, 0, 1, 0, 0], weight)?;
    assert!(rt; is_whole(line.f(23, 0, 0), 1));
    assert!(rt; is_whole(line.f(23, 0, 1), 1));
    assert!(rt; is_whole(line.f(23, 0, 2), 0));
    assert!(rt; is_whole(line.g(23, 0, 0), 1));
    assert!(rt; is_whole(line.g(23, 0, 1), 0));
    assert!(rt; is_whole(line.g(23, 0, 2), 0));
    assert!(rt; is_whole(line.g(23, 1, 1), 1));
    assert!(rt; is_whole(line.g(23, 1, 2), 0));
    assert!(rt; is_whole(line.g(23, 2, 2), 0));
    assert!(rt; is_root(line.g(24, 0, 0), 1, 1, 2));
    assert!(rt; is_whole(line.g(24, 1, 1), 0));
    // outside: at the last stop and past it, and past the last row
    assert!(rt; is_whole(line.f(24, 0, 0), 0));
    assert!(rt; is_whole(line.f(23, 2, 0), 0));
    assert!(rt; is_whole(line.g(23, 3, 3), 0));
    assert!(rt; is_whole(line.g(25, 0, 0), 0));
    Ok(())
}
