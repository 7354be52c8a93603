// Worked examples.
use super::faults::{LineFault, Mark, OpenFault};
use super::line::Line;
use super::steady::Steady;
use super::table::Table;
use numbers::{Fraction, Number};
use std::test::Fail;

// The whole number that an entry is; −1 for any other answer. Each crate's tests have it: a shared one would be a public call.
fn whole(entry: Result<Fraction, LineFault>) -> i64 {
    entry
        .ok()
        .map(|k| k.row())
        .filter(|row| row.m == 1)
        .map_or(-1, |row| row.p)
}

#[test]
fn table_places(rt: HostRuntime) -> Result<(), Fail> {
    // two stops before the last: F's row, then G's upper half; then the upper half of the last G
    let numbers = [
        2, 1, 1, 10, 11, 12, 13, 14, 15, 16, 17, 18, 20, 21, 22, 23, 24, 25, 26, 27, 28, 30, 31, 32,
    ]
    .to_vec(rt.alloc())?;
    let t = Table::open(numbers)?;
    assert_eq!(rt; whole(t.f(1, 0, 2)), 22);
    assert_eq!(rt; whole(t.f(1, 1, 2)), 1);
    assert_eq!(rt; whole(t.f(2, 1, 2)), 0);
    assert_eq!(rt; whole(t.g(0, 1, 1)), 16);
    assert_eq!(rt; whole(t.g(1, 2, 1)), 27);
    assert_eq!(rt; whole(t.g(2, 1, 0)), 31);
    assert_eq!(rt; whole(t.g(2, 2, 2)), 0);
    Ok(())
}

fn refusal(numbers: &[i64]) -> u8 {
    match Table::open(numbers) {
        Ok(_) => 0,
        Err(fault) => fault.number(),
    }
}

#[test]
fn table_refusals(rt: HostRuntime) -> Result<(), Fail> {
    assert_eq!(rt; refusal(&[2, 1]), 3);
    assert_eq!(rt; refusal(&[25, 1, 1]), 3);
    assert_eq!(rt; refusal(&[1, 1, 1, 0]), 4);
    assert_eq!(rt;
        refusal(&[1, 1, 1, 1, 1, 0, 1, 0, 10000, 1, 0, 0, 1, 0, 0]),
        5
    );
    // owned or lent, a list is opened alike
    assert!(rt; Table::open([2, 1].to_vec(rt.alloc())?).is_err());
    assert_eq!(rt; refusal(&[1, 1, 1, 1, 1, 0, 1, 0, 1, 1, 0, 0, 1, 0, 0]), 0);
    Ok(())
}

// A steady line with a whole final weight.
fn steady(numbers: &[i64], weight: i64) -> Option<Steady<Fraction>> {
    Steady::open(numbers, Fraction::whole(weight).ok()?).ok()
}

#[test]
fn steady_weight(rt: HostRuntime) -> Result<(), Fail> {
    let Some(s) = steady(&[3, 1, 2, 0, 4, 5, 6, 7, 8, 9], 7) else {
        return Err(Fail::new("the line is good"));
    };
    assert_eq!(rt; whole(s.g(3, 0, 0)), 7);
    assert_eq!(rt; whole(s.g(2, 2, 1)), 8);
    assert_eq!(rt; whole(s.f(2, 0, 1)), 2);
    Ok(())
}

#[test]
fn sentences(rt: HostRuntime) -> Result<(), Fail> {
    let fault = LineFault {
        mark: Mark::above(1, 0, 2, 1),
    };
    assert_eq!(rt;
        format!(in rt.alloc(); "{fault}")?.as_str(),
        "refused 1 at mark 1 0 1 2: the number there is too large for its kind"
    );
    let header = OpenFault::BadHeader;
    assert_eq!(rt;
        format!(in rt.alloc(); "{header}")?.as_str(),
        "refused 3: the header is missing, or a size is outside its limits"
    );
    let length = OpenFault::BadLength;
    assert_eq!(rt;
        format!(in rt.alloc(); "{length}")?.as_str(),
        "refused 4: there are more or fewer numbers than the header asks for"
    );
    let entry = OpenFault::BadEntry { index: 7 };
    assert_eq!(rt;
        format!(in rt.alloc(); "{entry}")?.as_str(),
        "refused 5 at index 7: the number is beyond 9999 in size"
    );
    Ok(())
}
