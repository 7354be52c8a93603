#![tactic(auto)]

// A line of another crate under the layers: it tells any sizes that its type holds.
ghost use Rattle.std.specs.Prelude.{◌≡◌};
ghost use Rattle.line_cases.specs.Bare.{bare_line, zeros};
ghost use Rattle.lines.specs.Whole.{whole_F};
ghost use Rattle.numbers.specs.Fractions.{fraction_value};
ghost use Rattle.numbers.specs.FractionKind;
ghost use Rattle.lines.specs.Fractions.{find_fraction};
ghost use Rattle.lines.specs.FractionsLemmas.{fraction_finds};
ghost use Rattle.lines.specs.WholeLines.{whole_lawful, whole_levelled};

use lines::faults::{LineFault, Mark};
use lines::line::{Line, constant};
use lines::worked::whole_at;
use numbers::Fraction;

#[cfg(test)]
mod tests;

// All entries are 0 but for the 1 of F's last row.
#[derive(Clone, Copy)]
pub struct Plain {
    pub stops: usize,
    pub states: usize,
    pub inputs: usize,
}

impl Plain {
    // The whole number at a place of F.
    fn f_number(&self, stop: usize, row: usize, column: usize) -> i64
        ensures { result ≡ whole_F self.now.stops self.now.states self.now.inputs zeros stop row column }
    {
        let last = constant(self.stops, self.states, self.inputs, stop);
        i64::from(stop < self.stops && row == self.states && last == Some(column))
    }
}

impl Line for Plain {
    type Number = Fraction;

    ghost meaning = { λ s. bare_line s.stops s.states s.inputs };

    ghost lawful = { λ s. whole_lawful fraction_value find_fraction fraction_finds FractionKind.wholes s.stops s.states s.inputs zeros zeros };

    ghost levelled = { λ s. whole_levelled fraction_value find_fraction fraction_finds FractionKind.wholes s.stops s.states s.inputs zeros zeros };

    fn stops(&self) -> usize {
        self.stops
    }

    fn states(&self) -> usize {
        self.states
    }

    fn inputs(&self) -> usize {
        self.inputs
    }

    fn level(&self) -> u8 {
        0
    }

    // like the steady line's: one impl for all lines at the bottom would overlap those of the layers
    fn f(&self, stop: usize, row: usize, column: usize) -> Result<Fraction, LineFault> {
        let mark = Mark::at(0, stop, row, column);
        Ok(whole_at(self.f_number(stop, row, column), mark)?)
    }

    fn g(&self, stop: usize, row: usize, column: usize) -> Result<Fraction, LineFault> {
        let mark = Mark::above(0, stop, row, column);
        Ok(whole_at(0, mark)?)
    }
}
