// A table as a line.
ghost use Rattle.std.specs.Prelude.{◌≡◌};
ghost use Rattle.lines.specs.Tables.{table_F, table_G, table_line};
ghost use Rattle.lines.specs.Whole.{whole_F, whole_G};
ghost use Rattle.lines.specs.Tabled.{table_lawful, table_levelled};

use super::super::faults::{LineFault, Mark};
use super::super::line::{Line, constant};
use super::super::reading::number_at;
use super::super::worked::whole_at;
use super::Table;
use numbers::Fraction;
use std::convert::AsSlice;

impl<S: AsSlice<i64>> Table<S> {
    // The whole number at a place of F.
    fn f_number(&self, stop: usize, row: usize, column: usize) -> i64
        ensures { result ≡ whole_F self.now.sizes.stops self.now.sizes.states self.now.sizes.inputs (table_F self.now.sizes.states self.now.sizes.inputs (S.items self.now.numbers)) stop row column }
    {
        let states = usize::from(self.sizes.states);
        let last = usize::from(self.sizes.inputs) + states;
        if stop >= usize::from(self.sizes.stops) || row > states || column > last {
            return 0;
        }
        if row < states {
            return number_at(
                self.numbers.as_slice(),
                self.sizes.f_index(stop, row, column),
            );
        }
        if column < last { 0 } else { 1 }
    }

    // The whole number at a place of G.
    fn g_number(&self, stop: usize, row: usize, column: usize) -> i64
        ensures { result ≡ whole_G self.now.sizes.stops self.now.sizes.states self.now.sizes.inputs (table_G self.now.sizes.stops self.now.sizes.states self.now.sizes.inputs (S.items self.now.numbers)) stop row column }
    {
        let low = row.min(column);
        let high = row.max(column);
        let stops = usize::from(self.sizes.stops);
        let states = usize::from(self.sizes.states);
        let inputs = usize::from(self.sizes.inputs);
        if constant(stops, states, inputs, stop).is_none_or(|last| high > last) {
            return 0;
        }
        let index = if stop < stops {
            self.sizes.g_index(stop, low, high)
        } else {
            self.sizes.last_index(low, high)
        };
        number_at(self.numbers.as_slice(), index)
    }
}

impl<S: AsSlice<i64>> Line for Table<S> {
    type Number = Fraction;

    ghost meaning = { λ t. table_line t.sizes.stops t.sizes.states t.sizes.inputs (S.items t.numbers) };

    ghost lawful = { λ t. table_lawful t.sizes.stops t.sizes.states t.sizes.inputs (S.items t.numbers) };

    ghost levelled = { λ t. table_levelled t.sizes.stops t.sizes.states t.sizes.inputs (S.items t.numbers) };

    fn stops(&self) -> usize {
        usize::from(self.sizes.stops)
    }

    fn states(&self) -> usize {
        usize::from(self.sizes.states)
    }

    fn inputs(&self) -> usize {
        usize::from(self.sizes.inputs)
    }

    fn level(&self) -> u8 {
        0
    }

    // like the steady line's: one impl for all lines at the bottom would overlap those of the layers
    fn f(&self, stop: usize, row: usize, column: usize) -> Result<Fraction, LineFault> {
        let mark = Mark::at(0, stop, row, column);
        Ok(whole_at(self.f_number(stop, row, column), mark)?)
    }

    fn g(&self, stop: usize, row: usize, column: usize) -> Result<Fraction, LineFault> {
        let mark = Mark::above(0, stop, row, column);
        Ok(whole_at(self.g_number(stop, row, column), mark)?)
    }
}
