#![tactic(auto)]

// Works out the cases of a table and compares each answer with the one written there.
//
// A line has five words: the kind (`fraction`, `root3`, `root5`), the operation (`plus`, `minus`, `times`, `over`, `positive`,
// `same`), two numbers, and the answer: a number, `yes` or `no`, `refused-1` or `refused-2`, `not-held` or `no-number`.
use number_text::{TextFault, read_number};
use numbers::{Five, Fraction, Number, Root, Three};
use std::alloc::{AllocError, Global};
use std::fmt::Display;
use std::io::{BufRead, BufReader};

fn refusal(fault: TextFault) -> &'static str {
    match fault {
        TextFault::NotANumber => "no-number",
        TextFault::NotHeld => "not-held",
    }
}

// What an operation answers, as the table writes it.
fn answered<N: Number + Copy + Display>(
    heap: Global,
    op: &str,
    x: N,
    y: N,
) -> Result<String, AllocError> {
    let result = match op {
        "plus" => x.plus(y),
        "minus" => x.minus(y),
        "times" => x.times(y),
        "over" => x.over(y),
        "same" => Ok(x),
        _ => return String::from_str(heap, if x.is_positive() { "yes" } else { "no" }),
    };
    match result {
        Ok(z) => format!(in heap; "{z}"),
        Err(fault) => format!(in heap; "refused-{}", fault.number()),
    }
}

fn worked<N: Number + Copy + Display>(
    heap: Global,
    op: &str,
    a: &str,
    b: &str,
) -> Result<String, AllocError> {
    match (read_number::<N>(a), read_number::<N>(b)) {
        (Ok(x), Ok(y)) => answered(heap, op, x, y),
        (Err(fault), _) | (_, Err(fault)) => String::from_str(heap, refusal(fault)),
    }
}

// Whether the line's answer is the one worked out.
fn is_right(heap: Global, line: &str) -> Result<bool, AllocError> {
    let mut words = line.split(' ');
    let (Some(kind), Some(op), Some(a), Some(b), Some(answer)) = (
        words.next(),
        words.next(),
        words.next(),
        words.next(),
        words.next(),
    ) else {
        return Ok(false);
    };
    let own = match kind {
        "fraction" => worked::<Fraction>(heap, op, a, b)?,
        "root3" => worked::<Root<Three>>(heap, op, a, b)?,
        _ => worked::<Root<Five>>(heap, op, a, b)?,
    };
    Ok(own.as_str() == answer)
}

fn run(rt: &HostRuntime) -> anyhow::Result<()> {
    let heap = rt.alloc();
    // two counts in the one walk that reads and prints: a chain is no plainer
    let mut right = 0u32;
    let mut wrong = 0u32;
    for line in BufReader::new(heap, rt.stdin())?.lines(heap) {
        let text = line?;
        if is_right(heap, text.as_str())? {
            right = right.saturating_add(1);
        } else {
            wrong = wrong.saturating_add(1);
            println!(rt; "wrong: {text}")?;
        }
    }
    println!(rt; "{right} right, {wrong} wrong")?;
    Ok(())
}

fn main(rt: HostRuntime) -> anyhow::Result<()> {
    run(&rt)
}
