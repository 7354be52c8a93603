// A steady line as a line.
ghost use Rattle.std.specs.Prelude.{◌≡◌};
ghost use Rattle.lines.specs.Steadies.{steady_F, steady_G, steady_line};
ghost use Rattle.lines.specs.Whole.{whole_F, whole_G};
ghost use Rattle.lines.specs.Steadied.{steady_lawful, steady_levelled};

use super::super::faults::{LineFault, Mark};
use super::super::line::{Kind, Line};
use super::super::reading::{number_at, row_start};
use super::super::worked::whole_at;
use super::Steady;

impl<N: Kind + Copy> Steady<N> {
    // The whole number at a place of F.
    fn f_number(&self, stop: usize, row: usize, column: usize) -> i64
        ensures { result ≡ whole_F self.now.stops 1 1 (steady_F self.now.f) stop row column }
    {
        if stop >= usize::from(self.stops) || row > 1 || column > 2 {
            return 0;
        }
        if row == 0 {
            return number_at(&self.f, column);
        }
        if column < 2 { 0 } else { 1 }
    }

    // The whole number at a place of G; the final weight aside.
    fn g_number(&self, stop: usize, row: usize, column: usize) -> i64
        ensures { result ≡ whole_G self.now.stops 1 1 (steady_G self.now.stops self.now.g) stop row column }
    {
        let low = row.min(column);
        let high = row.max(column);
        if stop >= usize::from(self.stops) || high > 2 {
            return 0;
        }
        number_at(&self.g, row_start(3, low) + (high - low))
    }
}

impl<N: Kind + Copy> Line for Steady<N> {
    type Number = N;

    ghost meaning = { λ s. steady_line N.Number.radicand N.Kind.find s.stops s.f s.g s.weight };

    ghost lawful = { λ s. steady_lawful N.Number.value N.Kind.find N.Kind.finds N.Number.wholes s.stops s.f s.g s.weight };

    ghost levelled = { λ s. steady_levelled N.Number.value N.Kind.find N.Kind.finds N.Number.wholes s.stops s.f s.g s.weight };

    fn stops(&self) -> usize {
        usize::from(self.stops)
    }

    fn states(&self) -> usize {
        1
    }

    fn inputs(&self) -> usize {
        1
    }

    fn level(&self) -> u8 {
        0
    }

    // like the table's: one impl for all lines at the bottom would overlap those of the layers
    fn f(&self, stop: usize, row: usize, column: usize) -> Result<N, LineFault> {
        let mark = Mark::at(0, stop, row, column);
        Ok(whole_at(self.f_number(stop, row, column), mark)?)
    }

    fn g(&self, stop: usize, row: usize, column: usize) -> Result<N, LineFault> {
        if stop == usize::from(self.stops) && row == 0 && column == 0 {
            return Ok(self.weight);
        }
        let mark = Mark::above(0, stop, row, column);
        Ok(whole_at(self.g_number(stop, row, column), mark)?)
    }
}
