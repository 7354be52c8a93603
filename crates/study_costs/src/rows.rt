// Rows written into a sheet.
ghost use Rattle.study_costs.specs.Rows.{Filled};

use numbers::{Number, Parts};
use study_terms::number_at;

// Writes the numbers of a list, as they are read, into rows.
pub fn enter<N: Number>(numbers: &[Parts], rows: &mut [Parts])
    ensures { Filled N.Number numbers.now rows.new }
{
    for (j, row) in rows.iter_mut().enumerate() {
        *row = number_at::<N>(numbers, j).row();
    }
}
