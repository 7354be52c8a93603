// Line files: whole numbers parted by blanks or line ends, `#` to the end of the line for a comment.
use super::failure::{Failure, fail};
use super::files;
use lines::faults::OpenFault;
use lines::table::Table;

// The longest line file.
const MOST: u64 = 65_536;

// The table in a file, or what is wrong with it and where.
pub fn read_table(rt: &HostRuntime, name: &str) -> Result<Table, Failure> {
    let text = files::read_text(rt, name, MOST)?;
    let numbers = read_numbers(rt, name, text.as_str())?;
    Table::open(numbers).or_else(|fault| match fault {
        OpenFault::BadEntry { index } => {
            let number = fault.number();
            let place = place_of(text.as_str(), index).unwrap_or(0);
            fail(
                rt,
                format_args!(
                    "{name}: refused {number} at index {index}, line {place}: the number is beyond 9999 in size"
                ),
            )
        }
        fault => fail(rt, format_args!("{name}: {fault}")),
    })
}

fn read_numbers(rt: &HostRuntime, name: &str, text: &str) -> Result<Vec<i64>, Failure> {
    let mut numbers = Vec::new(rt.alloc());
    for (place, line) in (1usize..).zip(text.lines()) {
        for word in files::without_comment(line).split_whitespace() {
            let number = word.parse::<i64>().or_else(|_| {
                fail(
                    rt,
                    format_args!("{name} line {place}: no whole number: {word}"),
                )
            })?;
            numbers.push(number)?;
        }
    }
    Ok(numbers)
}

// The line of a file, from 1, on which the word with this index stands, from 0.
fn place_of(text: &str, index: usize) -> Option<usize> {
    (1usize..)
        .zip(text.lines())
        .flat_map(|(place, line)| {
            files::without_comment(line)
                .split_whitespace()
                .map(move |_| place)
        })
        .nth(index)
}
