// Propose, confirm and withdraw.
ghost use Rattle.std.specs.Prelude.{◌≡◌};
ghost use Rattle.study_terms.specs.Sized.{shape};
ghost use Rattle.study_theory.specs.Runs.{underway};
ghost use Rattle.study.specs.Promises.{ProposePromise, ConfirmPromise};
ghost use Rattle.study.specs.Stages.{underway_stage};

use super::states::{Order, Ordered, Underway};
use lines::line::{Kind, Line};
use numbers::Parts;
use std::marker::PhantomData;
use study_costs::confirm_at;
use study_gaps::propose_at;
use study_terms::faults::StudyFault;
use study_terms::stops::Standing;

impl<N: Kind + Copy> Underway<N> {
    // Writes the plan at this stop to a slip and gives out its order, or refuses 31, 12, 22, 33 or 32.
    pub fn propose(
        self,
        gains: &[Parts],
        trail: &[Parts],
        slip: &mut [Parts],
    ) -> Result<Ordered<N>, (Underway<N>, StudyFault)>
        ensures { ProposePromise N.Number self gains.now trail.now slip.old slip.new result }
    {
        // a match: over map and map_err the proof was tried and did not close
        match propose_at::<N>(self.at, gains, trail, slip) {
            Ok(at) => Ok(Ordered {
                at,
                order: Order::given(at.stop),
                kind: PhantomData,
            }),
            Err(fault) => Err((self, fault)),
        }
    }
}

impl<N: Kind + Copy> Ordered<N> {
    // Enters the adjustments made and the next lateness in the trail, or refuses 16, 41, 22 or 42; then the order stays out.
    pub fn confirm<L: Line<Number = N>>(
        self,
        line: &L,
        made: &[Parts],
        trail: &mut [Parts],
    ) -> Result<Underway<N>, (Ordered<N>, StudyFault)>
        ensures { ConfirmPromise N.Number self (L.Line.meaning line.now) made.now trail.old trail.new result }
    {
        // a match: a closure of map_err that is not called would let the order go unspent
        match confirm_at(self.at, line, made, trail) {
            Ok(at) => {
                self.settle();
                Ok(Underway {
                    at,
                    kind: PhantomData,
                })
            }
            Err(fault) => Err((self, fault)),
        }
    }

    // Takes the order back, and stays at this stop.
    pub fn withdraw(self) -> Underway<N>
        ensures { underway_stage result ≡ underway (shape self.at.sizes) self.at.stop }
    {
        Underway {
            at: Standing::from(self.settle()),
            kind: PhantomData,
        }
    }
}
