// Numbers as text: `p`, `p/m`, and `(p+q√D)/m` where there is a root part; and refusals.
ghost use Rattle.std.specs.Prelude.{pos, Some};
ghost use Rattle.numbers.specs.Fractions.{fraction_row};
ghost use Rattle.numbers.specs.RootValues.{root_row};
ghost use Rattle.numbers.specs.Texts.{fault_text, number_text};
ghost use Rattle.std.specs.Fmt.{WritesOnOk};

use crate::{Fraction, Number, NumberFault, Parts, Radicand, Root};
use std::error::Error;
use std::fmt;

fn write_row<W: fmt::Write>(row: Parts, d: i64, f: &mut fmt::Formatter<W>) -> fmt::Result
    ensures { WritesOnOk W.write_str_gives f.old result (number_text d row) f.new }
{
    let Parts { p, q, m } = row;
    if q > 0 {
        write!(f, "({p}+{q}√{d})/{m}")
    } else if q < 0 {
        write!(f, "({p}{q}√{d})/{m}")
    } else if m != 1 {
        write!(f, "{p}/{m}")
    } else {
        write!(f, "{p}")
    }
}

impl fmt::Display for Fraction {
    ghost output = { λ k. Some (number_text (pos 0) (fraction_row k)) };

    fn fmt<W: fmt::Write>(&self, f: &mut fmt::Formatter<W>) -> fmt::Result {
        write_row(self.row(), 0, f)
    }
}

impl<R: Radicand> fmt::Display for Root<R> {
    ghost output = { λ k. Some (number_text (pos R.Radicand.radicand) (root_row k)) };

    fn fmt<W: fmt::Write>(&self, f: &mut fmt::Formatter<W>) -> fmt::Result {
        write_row(self.row(), R::D, f)
    }
}

impl fmt::Display for NumberFault {
    ghost output = { λ e. Some (fault_text e) };

    fn fmt<W: fmt::Write>(&self, f: &mut fmt::Formatter<W>) -> fmt::Result {
        match self {
            NumberFault::TooLarge => f.write_str("refused 1: the number is too large for its kind"),
            NumberFault::ZeroDivisor => f.write_str("refused 2: the divisor is 0"),
        }
    }
}

impl Error for NumberFault {}
