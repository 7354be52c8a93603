// Worked examples.
use super::faults::AimFault;
use super::layer::Aims;
use lines::faults::LineFault;
use lines::line::Line;
use lines::table::Table;
use numbers::{Fraction, Number};
use std::test::Fail;

// The whole number that an entry is; −99 for any other answer. Each crate's tests have it: a shared one would be a public call.
fn whole(entry: Result<Fraction, LineFault>) -> i64 {
    entry
        .ok()
        .map(|k| k.row())
        .filter(|row| row.m == 1)
        .map_or(-99, |row| row.p)
}

#[test]
fn aim_of_two(rt: HostRuntime) -> Result<(), Fail> {
    let numbers = [1, 1, 1, 1, 1, 0, 1, 2, 3, 4, 5, 6, 1, 0, 0].to_vec(rt.alloc())?;
    let mut aims = Aims::over(Table::open(numbers)?);
    assert!(rt; aims.set(0, 0, 2).is_ok());
    assert!(rt; aims.set(2, 0, 2).is_err());
    assert!(rt; aims.set(0, 1, 2).is_err());
    assert!(rt; aims.set(0, 0, 1000).is_err());
    assert_eq!(rt; whole(aims.g(0, 0, 2)), -1);
    assert_eq!(rt; whole(aims.g(0, 2, 1)), -3);
    assert_eq!(rt; whole(aims.g(0, 2, 2)), 2);
    assert_eq!(rt; whole(aims.g(0, 1, 1)), 4);
    assert_eq!(rt; aims.level(), 1);
    Ok(())
}

#[test]
fn sentence(rt: HostRuntime) -> Result<(), Fail> {
    let fault = AimFault::BadAim;
    assert_eq!(rt;
        format!(in rt.alloc(); "{fault}")?.as_str(),
        "refused 6: no such stop or state, or a value beyond 999 in size"
    );
    Ok(())
}
