// Numbers with a root.
ghost use Rattle.std.specs.Prelude.{◌≡◌, T, ⊤};
ghost use Rattle.numbers.specs.Forms.{has_form};

use crate::Parts;
use std::alloc::AllocError;
use std::marker::PhantomData;

mod kind;
mod radicand;

pub use kind::roots_hold_exactly;
pub use radicand::{Five, Radicand, Three};

// (p + q√D)/m without a common divisor, m above 0. None of the three is larger than 262,143 in size, so that a quotient
// fits a signed word of 64 bits before its common divisor is taken out.
pub struct Root<R> {
    row: Parts,
    radicand: PhantomData<R>,
    ghost form: { T (has_form 262143 row) },
}

// By hand: a derive asks the same of R, and `derive_where` gives no Clone beside a ghost field.
impl<R> Clone for Root<R> {
    ghost is_clone = { λ x y. y ≡ x };

    ghost is_infallible = { λ _. ⊤ };

    fn clone(&self) -> Result<Self, AllocError> {
        Ok(*self)
    }
}

impl<R> Copy for Root<R> {}
