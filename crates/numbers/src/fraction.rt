// Fractions in lowest terms.
ghost use Rattle.std.specs.Prelude.{T};
ghost use Rattle.numbers.specs.Forms.{has_form, plain_row};

mod kind;

pub use kind::{fractions_hold_exactly, products_at_the_limit};

// p/m in lowest terms, m above 0. Neither is larger than 2,147,483,647, so that a sum of two products of such numbers
// still fits a signed word of 64 bits.
#[derive(Clone, Copy)]
pub struct Fraction {
    p: i64,
    m: i64,
    ghost form: { T (has_form 2147483647 (plain_row p m)) },
}
