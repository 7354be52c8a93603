#![tactic(auto)]

// Numbers from text: the reader of what numbers are printed as.
ghost use Rattle.std.specs.Prelude.{◌≡◌, ◌≢◌, MatchBool, Some};
ghost use Rattle.number_text.specs.Readings.{Reads, ReadsBack, Short, fault_text};
ghost use Rattle.numbers.specs.Fractions.{fraction_row};
ghost use Rattle.numbers.specs.RootValues.{root_row};

use marks::spelled;
use numbers::{Fraction, Number, Parts, Radicand, Root, lowest_parts};
use std::error::Error;
use std::fmt;

mod digits;
mod marks;

// Why a text gives no number.
#[derive(Clone, Copy, PartialEq, Eq, Debug)]
pub enum TextFault {
    // it spells none
    NotANumber,
    // it spells a number that the kind does not hold
    NotHeld,
}

impl fmt::Display for TextFault {
    ghost output = { λ e. Some (fault_text e) };

    fn fmt<W: fmt::Write>(&self, f: &mut fmt::Formatter<W>) -> fmt::Result {
        match self {
            TextFault::NotANumber => f.write_str("the text spells no number"),
            TextFault::NotHeld => f.write_str("the number is not one of its kind"),
        }
    }
}

impl Error for TextFault {}

// Whether two rows are alike in each part. It stands alone, so that a contract says which parts count.
fn same_parts(a: Parts, b: Parts) -> bool
    ensures { MatchBool result (a ≡ b) (a ≢ b) }
{
    a == b
}

// The number of a kind that a text spells. What is printed reads back.
pub fn read_number<N: Number + Copy>(text: &str) -> Result<N, TextFault>
    ensures reads { Reads N.Number.radicand N.Number.value text.now result }
    ensures back { ReadsBack N.Number.radicand N.Number.parts text.now result }
{
    let raw = spelled(text, N::under_root()).ok_or(TextFault::NotANumber)?;
    let row = lowest_parts(raw).ok_or(TextFault::NotANumber)?;
    let number = N::read(row);
    if same_parts(number.row(), row) {
        Ok(number)
    } else {
        Err(TextFault::NotHeld)
    }
}

// Every fraction is printed with parts short enough to be read back.
pub fn fraction_texts_are_short()
    ensures { (k : Fraction) → Short (fraction_row k) }
{}

// The same of every number with a root.
pub fn root_texts_are_short<R: Radicand>()
    ensures { (k : Root R) → Short (root_row k) }
{}
