// Aims are laid and set.
ghost use Rattle.std.specs.Prelude.{◌≡◌, ℕ, ◌<◌, length, pos, Some, MatchResult, codes, slice_set};
ghost use Rattle.aims.specs.Aimed.{aim, aim_fault, aims_line, Settable, Replaced};
ghost use Rattle.aims.specs.Shifting.{Shifts};

use super::faults::AimFault;
use super::layer::Aims;
use lines::line::Line;
use std::error::Error;
use std::fmt;

impl AimFault {
    // The number under which the refusal is reported.
    pub fn number(self) -> u8
        ensures { result ≡ aim_fault self }
    {
        6
    }
}

impl fmt::Display for AimFault {
    ghost output = { λ _. Some (codes "refused 6: no such stop or state, or a value beyond 999 in size") };

    fn fmt<W: fmt::Write>(&self, f: &mut fmt::Formatter<W>) -> fmt::Result {
        f.write_str("refused 6: no such stop or state, or a value beyond 999 in size")
    }
}

impl Error for AimFault {}

// Puts an aim in its place among those of a stop. It stands alone, since a proof knows the length of a row only where it is a parameter.
fn put(aims: &mut [i16; 4], state: usize, aim: i16)
    requires { state < 4 }
    ensures four { length aims.old ≡ 4 }
    ensures put { aims.new ≡ slice_set aims.old state aim }
{
    aims[state] = aim;
}

impl<L: Line> Aims<L> {
    // Aims over a line, all of them 0.
    #[tactic(auto, using(crate::proofs::Aiming::no_aims))]
    pub fn over(below: L) -> Aims<L>
        ensures line { result.below ≡ below }
        ensures aims { (n k : ℕ) → aim result.aims n k ≡ pos 0 }
    {
        Aims {
            below,
            aims: [[0; 4]; 25],
        }
    }

    // Sets the aim of a state at a stop, in place of the one that was set before.
    pub fn set(&mut self, stop: usize, state: usize, value: i64) -> Result<(), AimFault>
        ensures line { self.new.below ≡ self.old.below }
        ensures aims { MatchResult result (λ _. Settable (L.Line.meaning self.old.below) stop state value × Replaced self.old.aims self.new.aims stop state value) (λ _. (Settable (L.Line.meaning self.old.below) stop state value → ⊥) × (self.new.aims ≡ self.old.aims)) }
    {
        if stop > self.below.stops() || stop > 24 {
            return Err(AimFault::BadAim);
        }
        if state >= self.below.states() || state >= 4 {
            return Err(AimFault::BadAim);
        }
        if value < -999 || value > 999 {
            return Err(AimFault::BadAim);
        }
        // the test above bounds it: a TryFrom would add a refusal that cannot come
        put(&mut self.aims[stop], state, value as i16);
        Ok(())
    }

    // In exact numbers the cost at each stop is that of the line below, taken at the lateness less the aims.
    pub fn cost_is_shifted(&self)
        ensures { Shifts L.Number.Number.good L.Number.Number.value (aims_line L.Number.Number.value L.Number.Kind.find (aim self.now.aims) (L.Line.meaning self.now.below)) (L.Line.meaning self.now.below) (aim self.now.aims) }
    {}

    // The aim of a state at a stop, 0 where none may be set.
    pub fn aim(&self, stop: usize, state: usize) -> i64
        ensures { result ≡ aim self.now.aims stop state }
    {
        self.aims
            .get(stop)
            .and_then(|aims| aims.get(state))
            .map_or(0, |aim| i64::from(*aim))
    }
}
