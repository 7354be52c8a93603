// Numbers of a list, and their places.
ghost use Rattle.std.specs.Prelude.{◌≡◌, ℕ, ◌+◌, ◌*◌, ◌<◌, ◌≤◌, length, MatchOption};
ghost use Rattle.lines.specs.Opening.{Size, FirstBeyond, TableHeader};
ghost use Rattle.lines.specs.Tables.{rows, width, block, F_index, G_index, last_index, table_length};
ghost use Rattle.lines.specs.Whole.{SmallFrom, cell};

// The number at an index, 0 past the end.
pub(super) fn number_at(numbers: &[i64], index: usize) -> i64
    ensures { result ≡ cell numbers.now index }
{
    numbers.get(index).copied().unwrap_or(0)
}

// The size from 1 to `most` that stands at an index, if one stands there.
pub(super) fn size_at(numbers: &[i64], index: usize, most: u8) -> Option<u8>
    ensures { MatchOption result ((n : ℕ) → Size most (cell numbers.now index) n → ⊥) (Size most (cell numbers.now index)) }
{
    u8::try_from(number_at(numbers, index))
        .ok()
        .filter(|size| 1 <= *size && *size <= most)
}

// The first index from `from` on of a number beyond ±9,999.
pub(super) fn first_beyond(numbers: &[i64], from: usize) -> Option<usize>
    requires { from ≤ length numbers.now }
    ensures { MatchOption result (SmallFrom from numbers.now) (FirstBeyond from numbers.now) }
{
    numbers[from..]
        .iter()
        .position(|z| z.unsigned_abs() > 9999)
        .map(|i| from + i)
}

// Where row `a` begins in the upper half of a matrix of order `w`.
pub(super) fn row_start(w: usize, a: usize) -> usize
    requires order { w ≤ 511 }
    requires row { a ≤ w }
    ensures value { result ≡ rows w a }
    ensures bound { result ≤ 511 * a }
{
    a * (2 * w + 1 - a) / 2
}

// The sizes that a table begins with: they say where its other numbers stand. A table's own, since lines do not stand on feeds, and a crate for three bytes
// is no plainer.
#[derive(Clone, Copy)]
pub(super) struct Sizes {
    pub(super) stops: u8,
    pub(super) states: u8,
    pub(super) inputs: u8,
}

impl Sizes {
    // The sizes at the head of a list of numbers.
    pub(super) fn read(numbers: &[i64]) -> Option<Sizes>
        ensures { MatchOption result ((end nx nu : ℕ) → TableHeader numbers.now end nx nu → ⊥) (λ s. TableHeader numbers.now s.stops s.states s.inputs) }
    {
        Some(Sizes {
            stops: size_at(numbers, 0, 24)?,
            states: size_at(numbers, 1, 4)?,
            inputs: size_at(numbers, 2, 3)?,
        })
    }

    // How many columns F and G have at a stop before the last.
    fn width(self) -> usize
        ensures { result ≡ width self.states self.inputs }
    {
        usize::from(self.inputs) + usize::from(self.states) + 1
    }

    // How many numbers a stop before the last has.
    fn block(self) -> usize
        ensures value { result ≡ block self.states self.inputs }
        ensures bound { result ≤ 400000 }
    {
        let width = self.width();
        usize::from(self.states) * width + row_start(width, width)
    }

    // How many numbers a table of these sizes has.
    pub(super) fn length(self) -> usize
        ensures { result ≡ table_length self.stops self.states self.inputs }
    {
        let order = usize::from(self.states) + 1;
        3 + usize::from(self.stops) * self.block() + row_start(order, order)
    }

    // The index of a number of F.
    pub(super) fn f_index(self, stop: usize, row: usize, column: usize) -> usize
        requires stop { stop ≤ self.stops }
        requires row { row ≤ self.states }
        requires column { column ≤ self.inputs + self.states }
        ensures { result ≡ F_index self.states self.inputs stop row column }
    {
        3 + stop * self.block() + (row * self.width() + column)
    }

    // The index of a number of the upper half of G, at a stop before the last.
    pub(super) fn g_index(self, stop: usize, row: usize, column: usize) -> usize
        requires stop { stop ≤ self.stops }
        requires row { row ≤ column }
        requires column { column ≤ self.inputs + self.states }
        ensures { result ≡ G_index self.states self.inputs stop row column }
    {
        let width = self.width();
        3 + stop * self.block()
            + (usize::from(self.states) * width + (row_start(width, row) + (column - row)))
    }

    // The index of a number of the upper half of G at the last stop.
    pub(super) fn last_index(self, row: usize, column: usize) -> usize
        requires row { row ≤ column }
        requires column { column ≤ self.states }
        ensures { result ≡ last_index self.states self.inputs self.stops row column }
    {
        3 + usize::from(self.stops) * self.block()
            + (row_start(usize::from(self.states) + 1, row) + (column - row))
    }
}
