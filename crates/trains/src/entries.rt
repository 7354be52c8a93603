// A book of trains over a line is a line.
ghost use Rattle.std.specs.Prelude.{◌≡◌, suc, ◌-◌, ◌&&◌, T, MatchOption, nat_lt};
ghost use Rattle.feeds.specs.Held.{held};
ghost use Rattle.lines.specs.Meaning.{Answer, order};
ghost use Rattle.trains.specs.Trained.{plus_whole, trains_line, weighs};
ghost use Rattle.trains.specs.Weights.{weighed};
ghost use Rattle.trains.specs.Layered.{trains_lawful, trains_levelled};

use super::layer::Trains;
use super::laying::same_sizes;
use super::weights::Places;
use lines::faults::{LineFault, Mark};
use lines::line::{Kind, Line, constant};
use lines::worked::{plus_at, whole_at};

impl<L: Line> Trains<L> {
    // The sum over the trains of a stop at a place of G above the diagonal, if the book counts and the place is the line's.
    fn sum_at(&self, stop: usize, row: usize, column: usize) -> Option<i64>
        ensures { MatchOption result (T (weighs (held self.now.book).sizes (L.Line.meaning self.now.below) && nat_lt column (order (L.Line.meaning self.now.below) stop)) → ⊥) (λ z. T (weighs (held self.now.book).sizes (L.Line.meaning self.now.below) && nat_lt column (order (L.Line.meaning self.now.below) stop)) × (z ≡ weighed stop (order (L.Line.meaning self.now.below) stop - suc (L.Line.meaning self.now.below).nx) (L.Line.meaning self.now.below).nx (held self.now.book).trains row column)) }
    {
        if !same_sizes(self.book.sizes()?, &self.below) {
            return None;
        }
        let states = self.below.states();
        let last = constant(self.below.stops(), states, self.below.inputs(), stop)?;
        if column > last {
            return None;
        }
        let places = Places {
            stop,
            first: last - states,
            states,
        };
        Some(places.weigh(self.book.trains(), row, column))
    }
}

// The entry plus a whole number.
fn raise<N: Kind + Copy>(entry: N, sum: i64, mark: Mark) -> Result<N, LineFault>
    ensures { Answer (plus_whole N.Number.value N.Kind.find mark entry sum) result }
{
    let number = whole_at(sum, mark)?;
    Ok(plus_at(entry, number, mark)?)
}

impl<L: Line> Line for Trains<L> {
    type Number = L::Number;

    ghost meaning = { λ s. trains_line L.Number.Number.value L.Number.Kind.find (held s.book) (L.Line.meaning s.below) };

    ghost lawful = { λ s. trains_lawful L.Number.Number.value L.Number.Kind.find (held s.book) (L.Line.meaning s.below) (L.Line.lawful s.below) };

    ghost levelled = { λ s. trains_levelled L.Number.Number.value L.Number.Kind.find (held s.book) (L.Line.meaning s.below) (L.Line.levelled s.below) };

    // passed on call by call: one impl for all layers would overlap those of the lines at the bottom
    fn stops(&self) -> usize {
        self.below.stops()
    }

    fn states(&self) -> usize {
        self.below.states()
    }

    fn inputs(&self) -> usize {
        self.below.inputs()
    }

    fn level(&self) -> u8 {
        self.below.level().saturating_add(1)
    }

    fn f(&self, stop: usize, row: usize, column: usize) -> Result<L::Number, LineFault> {
        self.below.f(stop, row, column)
    }

    fn g(&self, stop: usize, row: usize, column: usize) -> Result<L::Number, LineFault> {
        let entry = self.below.g(stop, row, column)?;
        match self.sum_at(stop, row.min(column), row.max(column)) {
            Some(sum) => raise(entry, sum, Mark::above(self.level(), stop, row, column)),
            None => Ok(entry),
        }
    }
}
