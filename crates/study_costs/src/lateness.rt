// The next lateness.
ghost use Rattle.study_terms.specs.Formulas.{Outcome};
ghost use Rattle.study_costs.specs.Answered.{NextAnswer, next_at};

use super::lists::stacked_entry;
use lines::line::Line;
use numbers::{Number, Parts};
use study_terms::faults::{Below, StudyFault};
use study_terms::stops::{Departing, Standing};
use study_terms::{ZERO, add_terms, times, zero};

// One number of the next lateness: a row of F times (adjustments, lateness, 1).
fn next_number<L: Line>(
    at: Departing,
    line: &L,
    row: usize,
    made: &[Parts],
    trail: &[Parts],
) -> Result<L::Number, Below>
    ensures { Outcome L.Number.Number (next_at L.Number.Number (L.Line.meaning line.now) at made.now trail.now row) result }
{
    let lateness = Standing::from(at).lateness(trail);
    add_terms(zero(), at.sizes.wide(), |c| {
        let entry = line.f(at.stop, row, c)?;
        times(Ok(entry), stacked_entry(at.sizes, made, lateness, c))
    })
}

// The rows of the next lateness, of which a line has four at most: they lie in place, so that no call wants memory.
pub fn next_lateness<L: Line>(
    at: Departing,
    line: &L,
    made: &[Parts],
    trail: &[Parts],
) -> Result<[Parts; 4], StudyFault>
    ensures { NextAnswer L.Number.Number (L.Line.meaning line.now) at made.now trail.now result }
{
    let mut rows = [ZERO; 4];
    for (j, row) in rows[..at.sizes.states].iter_mut().enumerate() {
        let number = next_number(at, line, j, made, trail).map_err(|_| StudyFault::NextTooLarge)?;
        *row = number.row();
    }
    Ok(rows)
}
