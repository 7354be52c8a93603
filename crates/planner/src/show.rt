// `planner show LINE ...`: a line with aims and feeds laid over it, entry by entry.
use super::failure::{Failure, fail};
use super::{files, join, linefile};
use aims::layer::Aims;
use feeds::book::Book;
use lines::faults::LineFault;
use lines::line::Line;
use numbers::{Fraction, Number};
use trains::layer::Trains;

const HELP: &str = "usage: planner show LINE [--aim STOP,STATE,VALUE]... [--feed FILE]...

  planner show branch.line --aim 2,0,30 --feed north.feed --feed south.feed

Lays aims over the line, and the trains of the feeds over that, and prints 'line stops N states X inputs U level L', then each
entry of F that is not 0 as 'F STOP ROW COLUMN NUMBER' and of G's upper half as 'G STOP ROW COLUMN NUMBER'. A number that is too
large is shown as 'mark LEVEL STOP ROW COLUMN'.

A line file holds whole numbers parted by blanks or line ends, '#' to the end of the line is a comment: N, states, inputs, then
for each stop F without its last row and the upper half of G, then the upper half of the last G, row by row.";

// What the command line asks for.
#[derive(Drop)]
struct Wanted<'a> {
    line: &'a str,
    aims: Vec<&'a str>,
    feeds: Vec<&'a str>,
}

pub fn perform(rt: &HostRuntime, words: &[&str]) -> Result<(), Failure> {
    if let ["--help"] = words {
        return Ok(println!(rt; "{HELP}")?);
    }
    let wanted = wanted_by(rt, words)?;
    let table = linefile::read_table(rt, wanted.line)?;
    if wanted.aims.is_empty() {
        return with_feeds(rt, table, wanted.feeds.as_slice());
    }
    let mut aimed = Aims::over(table);
    for word in &wanted.aims {
        set_aim(rt, &mut aimed, word)?;
    }
    with_feeds(rt, aimed, wanted.feeds.as_slice())
}

// The line's file comes first, and each option has one word.
fn wanted_by<'a>(rt: &HostRuntime, words: &[&'a str]) -> Result<Wanted<'a>, Failure> {
    let [line, options @ ..] = words else {
        return fail(rt, format_args!("show: no line is named\n{HELP}"));
    };
    let mut aims = Vec::new(rt.alloc());
    let mut feeds = Vec::new(rt.alloc());
    for option in options.chunks(2) {
        match option {
            ["--aim", word] => aims.push(*word)?,
            ["--feed", word] => feeds.push(*word)?,
            [name @ ("--aim" | "--feed")] => {
                return fail(rt, format_args!("show: {name} wants a word\n{HELP}"));
            }
            [name, ..] => return fail(rt, format_args!("show: no such option: {name}\n{HELP}")),
            [] => {}
        }
    }
    Ok(Wanted {
        line: *line,
        aims,
        feeds,
    })
}

fn set_aim<L: Line>(rt: &HostRuntime, aimed: &mut Aims<L>, word: &str) -> Result<(), Failure> {
    let Some((stop, state, value)) = three(word) else {
        return fail(rt, format_args!("show: --aim {word}: not STOP,STATE,VALUE"));
    };
    aimed.set(stop, state, value).or_else(|fault| fail(
        rt,
        format_args!("show: --aim {word}: {fault}"),
    ))
}

// Three whole numbers parted by commas.
fn three(word: &str) -> Option<(usize, usize, i64)> {
    let (stop, rest) = word.split_once(',')?;
    let (state, value) = rest.split_once(',')?;
    Some((stop.parse().ok()?, state.parse().ok()?, value.parse().ok()?))
}

// Lays the trains of the feeds over a line, if there are feeds, and shows it.
fn with_feeds<L: Line<Number = Fraction> + Drop>(
    rt: &HostRuntime,
    line: L,
    names: &[&str],
) -> Result<(), Failure> {
    if names.is_empty() {
        return show(rt, &line);
    }
    let mut book = Book::new(rt.alloc())?;
    for name in names {
        join::take_in(rt, &mut book, name)?;
    }
    trains::fits(&line, &book).or_else(|fault| fail(rt, format_args!("show: {fault}")))?;
    show(rt, &Trains::over(line, book))
}

fn show<L: Line<Number = Fraction>>(rt: &HostRuntime, line: &L) -> Result<(), Failure> {
    let stops = line.stops();
    let states = line.states();
    let inputs = line.inputs();
    let level = line.level();
    println!(rt; "line stops {stops} states {states} inputs {inputs} level {level}")?;
    let width = inputs.saturating_add(states).saturating_add(1);
    for stop in 0..stops {
        show_f(rt, line, stop, states, width)?;
    }
    for stop in 0..stops {
        show_g(rt, line, stop, width)?;
    }
    show_g(rt, line, stops, states.saturating_add(1))
}

// F at a stop, and below it G: each has its own rows, columns and call, which one function would take all three.
fn show_f<L: Line<Number = Fraction>>(
    rt: &HostRuntime,
    line: &L,
    stop: usize,
    rows: usize,
    width: usize,
) -> Result<(), Failure> {
    for row in 0..rows {
        for column in 0..width {
            show_entry(rt, 'F', stop, row, column, line.f(stop, row, column))?;
        }
    }
    Ok(())
}

fn show_g<L: Line<Number = Fraction>>(
    rt: &HostRuntime,
    line: &L,
    stop: usize,
    width: usize,
) -> Result<(), Failure> {
    for row in 0..width {
        for column in row..width {
            show_entry(rt, 'G', stop, row, column, line.g(stop, row, column))?;
        }
    }
    Ok(())
}

// One entry, if it is not 0.
fn show_entry(
    rt: &HostRuntime,
    matrix: char,
    stop: usize,
    row: usize,
    column: usize,
    entry: Result<Fraction, LineFault>,
) -> Result<(), Failure> {
    match entry {
        Ok(number) => {
            if number.row().p != 0 {
                println!(rt; "{matrix} {stop} {row} {column} {number}")?;
            }
        }
        Err(LineFault { mark }) => println!(rt; "{matrix} {stop} {row} {column} {mark}")?,
    }
    Ok(())
}
