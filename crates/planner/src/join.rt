// `planner join FEED ...`: feeds joined into one book, and the book shown.
use super::failure::{Failure, fail};
use super::files;
use feed_types::types::{Sizes, Train};
use feeds::book::Book;

// One byte past the limit of a feed is enough to refuse a long file.
// `as`: a usize has no From to u64
const MOST: u64 = feeds::MOST_BYTES as u64 + 1;

const HELP: &str = "usage: planner join FEED ...

  planner join north.feed south.feed

Reads the feeds in order into one book, in which a train of several feeds stands once. Prints for each feed
'feed NAME trains T new K', then 'book stops N states X inputs U trains T' (or 'book empty'), and each train of the book.";

pub fn perform(rt: &HostRuntime, names: &[&str]) -> Result<(), Failure> {
    match names {
        [] => return fail(rt, format_args!("join: no feed is named\n{HELP}")),
        ["--help"] => return Ok(println!(rt; "{HELP}")?),
        _ => {}
    }
    let mut book = Book::new(rt.alloc())?;
    for name in names {
        let (trains, new) = take_in(rt, &mut book, name)?;
        println!(rt; "feed {name} trains {trains} new {new}")?;
    }
    show(rt, &book)
}

// Reads one feed into the book: how many blocks it has, and how many of its trains are new.
pub fn take_in(rt: &HostRuntime, book: &mut Book, name: &str) -> Result<(usize, usize), Failure> {
    let bytes = files::read_start(rt, name, MOST)?;
    let new = book
        .read(&bytes)
        .or_else(|fault| fail(rt, format_args!("{name}: {fault}")))?;
    Ok((feed_lines::blocks_in(&bytes), new))
}

// The book's sizes, and its trains by slot.
fn show(rt: &HostRuntime, book: &Book) -> Result<(), Failure> {
    let Some(sizes) = book.sizes() else {
        return Ok(println!(rt; "book empty")?);
    };
    let Sizes {
        stops,
        states,
        inputs,
    } = sizes;
    let count = book.trains().len();
    println!(rt; "book stops {stops} states {states} inputs {inputs} trains {count}")?;
    for (slot, train) in book.trains().iter().enumerate() {
        show_train(rt, slot, train, sizes)?;
    }
    Ok(())
}

fn show_train(rt: &HostRuntime, slot: usize, train: &Train, sizes: Sizes) -> Result<(), Failure> {
    let Train {
        stop,
        label,
        weight,
        late,
        moves,
        aim,
    } = *train;
    let late = listed(rt, &late, sizes.states)?;
    let moves = listed(rt, &moves, sizes.inputs)?;
    println!(rt;
        "train {slot} stop {stop} label {label} weight {weight} late {late} move {moves} aim {aim}"
    )?;
    Ok(())
}

// The first `count` factors, parted by commas as in a feed.
fn listed(rt: &HostRuntime, factors: &[i8], count: u8) -> Result<String, Failure> {
    let mut text = String::new(rt.alloc());
    for factor in factors.iter().take(usize::from(count)) {
        if !text.is_empty() {
            text.push(',')?;
        }
        write!(text, "{factor}")?;
    }
    Ok(text)
}
