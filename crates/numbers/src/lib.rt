#![tactic(auto)]

// Exact numbers in one machine word for each part.
ghost use Rattle.std.specs.Prelude.{◌≡◌, ℕ, ◌≤◌, ◌≢◌, ℤ, pos, unsigned_abs};
ghost use Rattle.algebra.specs.Exact.{Exact, Radicand as GoodRadicand, zero_e, whole_e, add_e, neg_e, mul_e, PosE};
ghost use Rattle.numbers.specs.Answers.{fault_number, Held, Answers, Quotient, Decides};
ghost use Rattle.numbers.specs.Rows.{Row};
ghost use Rattle.numbers.specs.declared.Parts.{Parts};

mod fraction;
mod root;
mod rows;
mod text;
mod words;

pub use fraction::{Fraction, fractions_hold_exactly, products_at_the_limit};
pub use root::{Five, Radicand, Root, Three, roots_hold_exactly};
pub use rows::lowest_parts;

// A row of a list of numbers: (p + q√D)/m. Any three words may stand in it: the kind that reads it says what it means.
#[derive(Clone, Copy, PartialEq, Eq, Debug)]
pub struct Parts {
    pub p: i64,
    pub q: i64,
    pub m: i64,
}

// Why there is no number.
#[derive(Clone, Copy, PartialEq, Eq, Debug)]
pub enum NumberFault {
    // the exact result is none of the kind's numbers
    TooLarge,
    // the divisor is 0
    ZeroDivisor,
}

impl NumberFault {
    // The number under which the refusal is reported.
    pub fn number(self) -> u8
        ensures { result ≡ fault_number self }
    {
        match self {
            NumberFault::TooLarge => 1,
            NumberFault::ZeroDivisor => 2,
        }
    }
}

// A kind of number: which exact numbers it holds, and operations that give the exact result or refuse.
pub trait Number: Sized {
    // The number under the root, 0 where the kind has no root.
    ghost radicand: { ℕ };

    // It is 0, or no square.
    ghost good: { GoodRadicand radicand };

    // The exact number that a value means.
    ghost value: { Self → Exact radicand };

    // The row in which a value is written.
    ghost parts: { Self → Parts };

    // The exact number as which a row is read.
    ghost reading: { Parts → Exact radicand };

    fn under_root() -> i64
        ensures { result ≡ pos radicand };

    fn whole(w: i64) -> Result<Self, NumberFault>
        ensures { Answers value (whole_e radicand w) result };

    fn plus(self, other: Self) -> Result<Self, NumberFault>
        ensures { Answers value (add_e (value self) (value other)) result };

    fn minus(self, other: Self) -> Result<Self, NumberFault>
        ensures { Answers value (add_e (value self) (neg_e (value other))) result };

    fn times(self, other: Self) -> Result<Self, NumberFault>
        ensures { Answers value (mul_e (value self) (value other)) result };

    fn over(self, other: Self) -> Result<Self, NumberFault>
        ensures { Quotient value (value self) (value other) result };

    fn is_positive(self) -> bool
        ensures { Decides result (PosE (value self)) };

    fn read(row: Parts) -> Self
        ensures { value result ≡ reading row };

    fn row(self) -> Parts
        ensures { result ≡ parts self };

    ghost small: { radicand ≤ 99 };

    // Equal meanings have equal parts.
    ghost same: { (a b : Self) → value a ≡ value b → a ≡ b };

    // A written row has the form: lowest parts, which stand for the value.
    ghost form: { (k : Self) → Row radicand (parts k) (value k) };

    // A written row is read as its value.
    ghost back: { (k : Self) → reading (parts k) ≡ value k };

    // Every other row is read as 0.
    ghost blank: { (row : Parts) → ((k : Self) → parts k ≢ row) → reading row ≡ zero_e radicand };

    // The whole numbers from −9,999 to 9,999 are held.
    ghost wholes: { (w : ℤ) → unsigned_abs w ≤ 9999 → Held value (whole_e radicand w) };
}
