// Roots as a kind of number: one text for every number under the root.
ghost use Rattle.std.specs.Prelude.{◌≡◌, ◌*◌, pos, ◌-ℤ◌, ◌*ℤ◌, ◌<ℤ◌, refl};
ghost use Rattle.algebra.specs.Exact.{PosE, inv_e, mul_e};
ghost use Rattle.numbers.specs.Answers.{Decides, Quotient};
ghost use Rattle.numbers.specs.RootValues.{root_row, root_value};
ghost use Rattle.numbers.specs.Forms.{HoldsExactly};
ghost use Rattle.numbers.specs.Roots.{Bounded, root_good, root_reading, root_size};
ghost use Rattle.numbers.specs.Rows.{row_number};
ghost use Rattle.numbers.specs.RootKind;
ghost use Rattle.std.proofs.Common.{lit≤};

use crate::rows::{InRows, difference, fitted, product, read, sum};
use crate::words::{times, turned, two_products};
use crate::{Number, NumberFault, Parts, Radicand, Root};
use std::marker::PhantomData;

impl<R: Radicand> InRows for Root<R> {
    const D: i64 = R::D;

    const SIZE: u64 = 262143;

    ghost D = { R.D };

    ghost SIZE = { root_size };

    ghost radicand = { R.radicand };

    ghost value = { root_value R.radicand };

    ghost is = { R.is };

    ghost large = { lit≤ tt };

    ghost room = { RootKind.room R.radicand R.small };

    ghost held = { λ k. (root_row k, RootKind.formed _ R.radicand R.small k, refl) };

    fn made(row: Parts) -> Root<R> {
        Root {
            row,
            radicand: PhantomData,
        }
    }

    fn parts(self) -> Parts {
        self.row
    }
}

// The part without a root of a times the conjugate of b, above m·m': p·p' − D·q·q'.
fn conjugate_whole<R: Radicand>(a: Root<R>, b: Root<R>) -> i64
    ensures value { result ≡ (a.row.p *ℤ b.row.p) -ℤ (pos R.radicand *ℤ (a.row.q *ℤ b.row.q)) }
    ensures bound { Bounded (100 * (root_size * root_size)) result }
{
    two_products(a.row.p, b.row.p, times(-R::D, a.row.q), b.row.q)
}

// Its part with the root: q·p' − p·q'. One function for both parts would be over four words, and ask each caller for their bounds.
fn conjugate_root<R: Radicand>(a: Root<R>, b: Root<R>) -> i64
    ensures value { result ≡ (a.row.q *ℤ b.row.p) -ℤ (a.row.p *ℤ b.row.q) }
    ensures bound { Bounded (100 * (root_size * root_size)) result }
{
    two_products(a.row.q, b.row.p, -a.row.p, b.row.q)
}

// The parts of a over b before what they have in common is taken out: m'·(p + q√D)·(p' − q'√D) over m·(p'² − D·q'²), with the
// sign above.
fn raw_quotient<R: Radicand>(a: Root<R>, b: Root<R>) -> Parts
    requires { ¬ ((b.row.p ≡ pos 0) × (b.row.q ≡ pos 0)) }
    ensures above { pos 0 <ℤ result.m }
    ensures value { row_number R.radicand result ≡ mul_e (root_value R.radicand a) (inv_e (root_value R.radicand b)) }
{
    let norm = conjugate_whole(b, b);
    let up = turned(b.row.m, norm);
    let p = times(up, conjugate_whole(a, b));
    let q = times(up, conjugate_root(a, b));
    let m = times(a.row.m, turned(norm, norm));
    Parts { p, q, m }
}

fn quotient<R: Radicand>(a: Root<R>, b: Root<R>) -> Result<Root<R>, NumberFault>
    ensures { Quotient (root_value R.radicand) (root_value R.radicand a) (root_value R.radicand b) result }
{
    if b.row.p == 0 && b.row.q == 0 {
        return Err(NumberFault::ZeroDivisor);
    }
    fitted(raw_quotient(a, b))
}

// Whether the number is above 0. With parts of two signs the greater of p² and D·q² decides.
fn is_above_zero<R: Radicand>(k: Root<R>) -> bool
    ensures { Decides result (PosE (root_value R.radicand k)) }
{
    if k.row.p >= 0 {
        if k.row.q >= 0 {
            return k.row.p + k.row.q > 0;
        }
        return conjugate_whole(k, k) > 0;
    }
    if k.row.q < 0 {
        return false;
    }
    conjugate_whole(k, k) < 0
}

// The roots of D hold exactly the numbers whose lowest parts are up to 262,143 in size.
pub fn roots_hold_exactly<R: Radicand>()
    ensures { HoldsExactly {A = Root R} R.radicand root_size (root_value R.radicand) }
{}

impl<R: Radicand> Number for Root<R> {
    ghost radicand = { R.radicand };

    ghost good = { root_good R.good };

    ghost value = { root_value R.radicand };

    ghost parts = { root_row };

    ghost reading = { root_reading R.radicand };

    ghost small = { R.small.1 };

    ghost same = { RootKind.same _ R.radicand R.small };

    ghost form = { RootKind.written _ R.radicand R.small };

    ghost back = { RootKind.back _ R.radicand R.small };

    ghost blank = { RootKind.blank _ R.radicand R.small };

    ghost wholes = { RootKind.wholes _ R.radicand R.small };

    fn under_root() -> i64 {
        R::D
    }

    // passed on call by call: one impl over `InRows` would want the quotient and the sign there too, and is no plainer
    fn whole(w: i64) -> Result<Root<R>, NumberFault> {
        fitted(Parts { p: w, q: 0, m: 1 })
    }

    fn plus(self, other: Root<R>) -> Result<Root<R>, NumberFault> {
        sum(self, other)
    }

    fn minus(self, other: Root<R>) -> Result<Root<R>, NumberFault> {
        difference(self, other)
    }

    fn times(self, other: Root<R>) -> Result<Root<R>, NumberFault> {
        product(self, other)
    }

    fn over(self, other: Root<R>) -> Result<Root<R>, NumberFault> {
        quotient(self, other)
    }

    fn is_positive(self) -> bool {
        is_above_zero(self)
    }

    fn read(row: Parts) -> Root<R> {
        read(row)
    }

    fn row(self) -> Parts {
        self.row
    }
}
