// A table is opened.
ghost use Rattle.std.specs.Prelude.{◌≡◌, MatchResult};
ghost use Rattle.lines.specs.Laws.{Unmarked};
ghost use Rattle.lines.specs.Opening.{TableOpens, TableRefused};
ghost use Rattle.lines.specs.Tables.{table_line};

use super::super::faults::OpenFault;
use super::super::reading::{Sizes, first_beyond};
use super::Table;
use std::convert::AsSlice;

impl<S: AsSlice<i64> + Drop> Table<S> {
    // The line that the numbers give, which has no mark, or why they give none.
    pub fn open(numbers: S) -> Result<Table<S>, OpenFault>
        ensures { MatchResult result (λ t. (t.numbers ≡ numbers) × TableOpens (S.items numbers) t.sizes.stops t.sizes.states t.sizes.inputs × Unmarked (table_line t.sizes.stops t.sizes.states t.sizes.inputs (S.items numbers))) (TableRefused (S.items numbers)) }
    {
        let list = numbers.as_slice();
        let sizes = Sizes::read(list).ok_or(OpenFault::BadHeader)?;
        if list.len() != sizes.length() {
            return Err(OpenFault::BadLength);
        }
        if let Some(index) = first_beyond(list, 3) {
            return Err(OpenFault::BadEntry { index });
        }
        Ok(Table { sizes, numbers })
    }
}
