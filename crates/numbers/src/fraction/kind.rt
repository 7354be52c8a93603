// Fractions as a kind of number.
ghost use Rattle.std.specs.Prelude.{pos, refl};
ghost use Rattle.numbers.specs.Answers.{Quotient};
ghost use Rattle.numbers.specs.Examples.{ProductsAtTheLimit};
ghost use Rattle.numbers.specs.Forms.{HoldsExactly};
ghost use Rattle.numbers.specs.Fractions.{fraction_reading, fraction_row, fraction_size, fraction_value, no_root};
ghost use Rattle.numbers.specs.FractionKind;
ghost use Rattle.std.proofs.Common.{lit≤, lit<};

use crate::rows::{InRows, difference, fitted, product, read, sum};
use crate::words::{times, turned};
use crate::{Fraction, Number, NumberFault, Parts};

impl InRows for Fraction {
    const D: i64 = 0;

    const SIZE: u64 = 2147483647;

    ghost D = { pos 0 };

    ghost SIZE = { fraction_size };

    ghost radicand = { 0 };

    ghost value = { fraction_value };

    ghost is = { refl };

    ghost large = { lit≤ tt };

    ghost room = { lit< tt };

    ghost held = { λ k. (fraction_row k, FractionKind.formed k, refl) };

    fn made(row: Parts) -> Fraction {
        Fraction { p: row.p, m: row.m }
    }

    fn parts(self) -> Parts {
        self.row()
    }
}

// a over b: p × m' over m × p', with the sign above. That of roots would take p' in twice, which no word holds at this size.
fn quotient(a: Fraction, b: Fraction) -> Result<Fraction, NumberFault>
    ensures { Quotient fraction_value (fraction_value a) (fraction_value b) result }
{
    if b.p == 0 {
        return Err(NumberFault::ZeroDivisor);
    }
    let p = times(a.p, turned(b.m, b.p));
    let m = times(a.m, turned(b.p, b.p));
    fitted(Parts { p, q: 0, m })
}

// A fraction holds exactly the numbers p/m in lowest terms with |p| and m up to 2,147,483,647.
pub fn fractions_hold_exactly()
    ensures { HoldsExactly 0 fraction_size fraction_value }
{}

// The largest product of a worked example is held, and the next is not.
pub fn products_at_the_limit()
    ensures { ProductsAtTheLimit }
{}

impl Number for Fraction {
    ghost radicand = { 0 };

    ghost good = { no_root };

    ghost value = { fraction_value };

    ghost parts = { fraction_row };

    ghost reading = { fraction_reading };

    ghost small = { lit≤ tt };

    ghost same = { FractionKind.same };

    ghost form = { FractionKind.written };

    ghost back = { FractionKind.back };

    ghost blank = { FractionKind.blank };

    ghost wholes = { FractionKind.wholes };

    fn under_root() -> i64 {
        0
    }

    // passed on call by call: one impl over `InRows` would want the quotient and the sign there too, and is no plainer
    fn whole(w: i64) -> Result<Fraction, NumberFault> {
        fitted(Parts { p: w, q: 0, m: 1 })
    }

    fn plus(self, other: Fraction) -> Result<Fraction, NumberFault> {
        sum(self, other)
    }

    fn minus(self, other: Fraction) -> Result<Fraction, NumberFault> {
        difference(self, other)
    }

    fn times(self, other: Fraction) -> Result<Fraction, NumberFault> {
        product(self, other)
    }

    fn over(self, other: Fraction) -> Result<Fraction, NumberFault> {
        quotient(self, other)
    }

    fn is_positive(self) -> bool {
        self.p > 0
    }

    fn read(row: Parts) -> Fraction {
        read(row)
    }

    fn row(self) -> Parts {
        Parts {
            p: self.p,
            q: 0,
            m: self.m,
        }
    }
}
