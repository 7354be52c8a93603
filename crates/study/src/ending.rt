// Abandon and close.
ghost use Rattle.std.specs.Prelude.{◌≡◌};
ghost use Rattle.study_terms.specs.Sized.{shape};
ghost use Rattle.study_theory.specs.Runs.{weighed};
ghost use Rattle.study.specs.Promises.{ClosePromise};
ghost use Rattle.study.specs.Stages.{weighed_stage};

use super::states::{Underway, Weighed};
use lines::line::Kind;
use study_terms::faults::StudyFault;

impl<N: Kind + Copy> Underway<N> {
    // Gives the run up, at any stop.
    pub fn abandon(self) -> Weighed<N>
        ensures { weighed_stage result ≡ weighed (shape self.at.sizes) }
    {
        let Underway { at, kind } = self;
        Weighed {
            sizes: at.sizes,
            kind,
        }
    }

    // Ends the run at the last stop, or refuses 61 before it.
    pub fn close(self) -> Result<Weighed<N>, (Underway<N>, StudyFault)>
        ensures { ClosePromise N.Number self result }
    {
        if self.at.stop != self.at.sizes.stops {
            return Err((self, StudyFault::BeforeTheEnd));
        }
        Ok(self.abandon())
    }
}
