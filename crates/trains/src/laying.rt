// A book is asked whether it fits a line, and is laid over it.
ghost use Rattle.std.specs.Prelude.{◌≡◌, Some, MatchResult, codes};
ghost use Rattle.feeds.specs.Held.{held};
ghost use Rattle.aims.specs.Aimed.{aim, aims_line};
ghost use Rattle.trains.specs.Adding.{Adds, ShiftsAndAdds};
ghost use Rattle.trains.specs.Trained.{Fits, fit_fault, same_sizes, trains_line};
ghost use Rattle.trains.specs.Weights.{SumsFit};

use super::faults::FitFault;
use super::layer::Trains;
use aims::layer::Aims;
use feed_types::types::Sizes;
use feeds::book::Book;
use lines::line::Line;
use std::error::Error;
use std::fmt;

impl FitFault {
    // The number under which the refusal is reported.
    pub fn number(self) -> u8
        ensures { result ≡ fit_fault self }
    {
        7
    }
}

impl fmt::Display for FitFault {
    ghost output = { λ _. Some (codes "refused 7: the sizes of the feeds are not those of the line") };

    fn fmt<W: fmt::Write>(&self, f: &mut fmt::Formatter<W>) -> fmt::Result {
        f.write_str("refused 7: the sizes of the feeds are not those of the line")
    }
}

impl Error for FitFault {}

// Whether sizes are those of a line.
pub(super) fn same_sizes<L: Line>(sizes: Sizes, line: &L) -> bool
    ensures { result ≡ same_sizes sizes (L.Line.meaning line.now) }
{
    usize::from(sizes.stops) == line.stops()
        && usize::from(sizes.states) == line.states()
        && usize::from(sizes.inputs) == line.inputs()
}

// Whether the trains of a book would count on a line.
pub fn fits<L: Line>(line: &L, book: &Book) -> Result<(), FitFault>
    ensures { MatchResult result (λ _. Fits (held book.now).sizes (L.Line.meaning line.now)) (λ _. Fits (held book.now).sizes (L.Line.meaning line.now) → ⊥) }
{
    if book.sizes().is_none_or(|sizes| same_sizes(sizes, line)) {
        Ok(())
    } else {
        Err(FitFault::OtherSizes)
    }
}

impl<L: Line> Trains<L> {
    // A book over a line, whatever its sizes. Where it fits, the cost at each stop is, in exact numbers, that of the line below plus
    // weight × (late × lateness + move × adjustments − aim)² of each train of the book at that stop, once each.
    pub fn over(below: L, book: Book) -> Trains<L>
        ensures line { result.below ≡ below }
        ensures book { result.book ≡ book }
        ensures sums { SumsFit (held book).trains }
        ensures cost { Fits (held book).sizes (L.Line.meaning below) → Adds L.Number.Number.good L.Number.Number.value (trains_line L.Number.Number.value L.Number.Kind.find (held book) (L.Line.meaning below)) (L.Line.meaning below) (held book).trains }
    {
        Trains { below, book }
    }
}

// Trains over aims over any line, if the book fits it: the cost is that of the line at the lateness less the aims, plus that of the trains.
pub fn lay<L: Line + Drop>(aims: Aims<L>, book: Book) -> Result<Trains<Aims<L>>, FitFault>
    ensures { MatchResult result (λ s. (s.below ≡ aims) × (s.book ≡ book) × Fits (held book).sizes (L.Line.meaning aims.below) × ShiftsAndAdds L.Number.Number.good L.Number.Number.value (trains_line L.Number.Number.value L.Number.Kind.find (held book) (aims_line L.Number.Number.value L.Number.Kind.find (aim aims.aims) (L.Line.meaning aims.below))) (L.Line.meaning aims.below) (aim aims.aims) (held book).trains) (λ _. Fits (held book).sizes (L.Line.meaning aims.below) → ⊥) }
{
    fits(&aims, &book)?;
    Ok(Trains::over(aims, book))
}
