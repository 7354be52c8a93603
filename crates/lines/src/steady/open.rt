// A steady line is opened.
ghost use Rattle.std.specs.Prelude.{◌≡◌, take, drop, MatchResult};
ghost use Rattle.lines.specs.Laws.{Unmarked};
ghost use Rattle.lines.specs.Opening.{SteadyOpens, SteadyRefused};
ghost use Rattle.lines.specs.Steadies.{steady_line};

use super::super::faults::OpenFault;
use super::super::line::Kind;
use super::super::reading::{first_beyond, size_at};
use super::Steady;

impl<N: Kind + Copy> Steady<N> {
    // The line of the numbers N, F's row and G's upper half, with this final weight, which has no mark; or why they give none.
    pub fn open(numbers: &[i64], weight: N) -> Result<Steady<N>, OpenFault>
        ensures { MatchResult result (λ s. SteadyOpens numbers.now s.stops × (s.f ≡ take 3 (drop 1 numbers.now)) × (s.g ≡ take 6 (drop 4 numbers.now)) × (s.weight ≡ weight) × Unmarked (steady_line N.Number.radicand N.Kind.find s.stops s.f s.g s.weight)) (SteadyRefused numbers.now) }
    {
        let stops = size_at(numbers, 0, 24).ok_or(OpenFault::BadHeader)?;
        if numbers.len() != 10 {
            return Err(OpenFault::BadLength);
        }
        if let Some(index) = first_beyond(numbers, 1) {
            return Err(OpenFault::BadEntry { index });
        }
        let mut f = [0; 3];
        let mut g = [0; 6];
        f.copy_from_slice(&numbers[1..4]);
        g.copy_from_slice(&numbers[4..10]);
        Ok(Steady {
            stops,
            f,
            g,
            weight,
        })
    }
}
