// Quadratic forms.
ghost use Rattle.std.specs.Prelude.{ℕ, ◌<◌};
ghost use Rattle.study_costs.specs.Worked.{Formed, TermWorked};

use numbers::Number;
use study_terms::faults::Below;
use study_terms::{add_terms, times, zero};

// A form taken at a list of numbers: (entry × left) × right, term by term, row after row.
pub fn form<N: Number + Copy, E: Fn(usize, usize) -> Result<N, Below>, Z: Fn(usize) -> N>(
    width: usize,
    entry: E,
    list: Z,
) -> Result<N, Below>
    requires entries { (a c : ℕ) → a < width → c < width → E.pre entry a c }
    requires numbers { (k : ℕ) → k < width → Z.pre list k }
    ensures { Formed N.Number width (E.post entry) (Z.post list) result }
{
    let mut total = zero();
    for a in 0..width {
        let left = list(a);
        total = add_terms(
            total,
            width,
            |c|
                requires entry { E.pre entry a c }
                requires number { Z.pre list c }
                ensures { TermWorked N.Number (E.post entry a c) left (Z.post list c) result }
            { times(times(entry(a, c), left), list(c)) },
        )?;
    }
    Ok(total)
}
