// Aims over a line are a line.
ghost use Rattle.std.specs.Prelude.{◌≡◌, ◌+◌, ◌<◌};
ghost use Rattle.lines.specs.Meaning.{Answer};
ghost use Rattle.aims.specs.Aimed.{aim, aims_line, column, column_less, corner, corner_less, states_aimed};
ghost use Rattle.aims.specs.Entries.{less};
ghost use Rattle.aims.specs.Layered.{aims_lawful, aims_levelled};

use super::layer::Aims;
use lines::faults::{LineFault, Mark};
use lines::line::{Kind, Line, constant};
use lines::worked::{minus_at, plus_at, times_at, whole_at};

// sum − entry × aim
fn lessened<N: Kind + Copy>(sum: N, entry: N, aim: i64, mark: Mark) -> Result<N, LineFault>
    ensures { Answer (less N.Number.value N.Kind.find mark sum entry aim) result }
{
    let factor = whole_at(aim, mark)?;
    let product = times_at(entry, factor, mark)?;
    Ok(minus_at(sum, product, mark)?)
}

// A place in the constant's row or column: its stop, where there the states begin and the constant stands, and its mark.
#[derive(Drop)]
struct Border<'a, L: Line> {
    over: &'a Aims<L>,
    stop: usize,
    first: usize,
    last: usize,
    mark: Mark,
    ghost states: { first + (L.Line.meaning over.now.below).nx ≡ last },
}

impl<'a, L: Line> Border<'a, L> {
    // sum − entry of the row and of state k × aim
    fn column_less(&self, row: usize, k: usize, sum: L::Number) -> Result<L::Number, LineFault>
        requires { k < (L.Line.meaning self.now.over.now.below).nx }
        ensures { Answer (column_less L.Number.Number.value L.Number.Kind.find (aim self.now.over.now.aims) (L.Line.meaning self.now.over.now.below) self.now.mark self.now.stop row self.now.first k sum) result }
    {
        let entry = self.over.below.g(self.stop, row, self.first + k)?;
        lessened(sum, entry, self.over.aim(self.stop, k), self.mark)
    }

    // The new entry of a row in the constant's column.
    fn column(&self, row: usize) -> Result<L::Number, LineFault>
        ensures { Answer (column L.Number.Number.value L.Number.Kind.find (aim self.now.over.now.aims) (L.Line.meaning self.now.over.now.below) self.now.mark self.now.stop row self.now.last self.now.first (states_aimed (L.Line.meaning self.now.over.now.below).nx)) result }
    {
        let mut sum = self.over.below.g(self.stop, row, self.last)?;
        // k is a state and not a place in a list, and the first refusal ends the loop
        for k in 0..self.over.below.states().min(4) {
            sum = self.column_less(row, k, sum)?;
        }
        Ok(sum)
    }

    // sum − (new entry + old entry of state k and the constant) × aim
    fn corner_less(&self, k: usize, sum: L::Number) -> Result<L::Number, LineFault>
        requires { k < (L.Line.meaning self.now.over.now.below).nx }
        ensures { Answer (corner_less L.Number.Number.value L.Number.Kind.find (aim self.now.over.now.aims) (L.Line.meaning self.now.over.now.below) self.now.mark self.now.stop self.now.last self.now.first k sum) result }
    {
        let row = self.first + k;
        let new = self.column(row)?;
        let old = self.over.below.g(self.stop, row, self.last)?;
        let both = plus_at(new, old, self.mark)?;
        lessened(sum, both, self.over.aim(self.stop, k), self.mark)
    }

    // The new entry of the constant itself.
    fn corner(&self) -> Result<L::Number, LineFault>
        ensures { Answer (corner L.Number.Number.value L.Number.Kind.find (aim self.now.over.now.aims) (L.Line.meaning self.now.over.now.below) self.now.mark self.now.stop self.now.last self.now.first (states_aimed (L.Line.meaning self.now.over.now.below).nx)) result }
    {
        let mut sum = self.over.below.g(self.stop, self.last, self.last)?;
        for k in 0..self.over.below.states().min(4) {
            sum = self.corner_less(k, sum)?;
        }
        Ok(sum)
    }
}

impl<L: Line> Line for Aims<L> {
    type Number = L::Number;

    ghost meaning = { λ s. aims_line L.Number.Number.value L.Number.Kind.find (aim s.aims) (L.Line.meaning s.below) };

    ghost lawful = { λ s. aims_lawful L.Number.Number.value L.Number.Kind.find (aim s.aims) (L.Line.meaning s.below) (L.Line.lawful s.below) };

    ghost levelled = { λ s. aims_levelled L.Number.Number.value L.Number.Kind.find (aim s.aims) (L.Line.meaning s.below) (L.Line.levelled s.below) };

    // passed on call by call: one impl for all layers would overlap those of the lines at the bottom
    fn stops(&self) -> usize {
        self.below.stops()
    }

    fn states(&self) -> usize {
        self.below.states()
    }

    fn inputs(&self) -> usize {
        self.below.inputs()
    }

    fn level(&self) -> u8 {
        self.below.level().saturating_add(1)
    }

    fn f(&self, stop: usize, row: usize, column: usize) -> Result<L::Number, LineFault> {
        self.below.f(stop, row, column)
    }

    fn g(&self, stop: usize, row: usize, column: usize) -> Result<L::Number, LineFault> {
        let last = row.max(column);
        if constant(self.stops(), self.states(), self.inputs(), stop) != Some(last) {
            return self.below.g(stop, row, column);
        }
        let border = Border {
            over: self,
            stop,
            first: last - self.states(),
            last,
            mark: Mark::above(self.level(), stop, row, column),
        };
        let low = row.min(column);
        if low == last {
            border.corner()
        } else {
            border.column(low)
        }
    }
}
