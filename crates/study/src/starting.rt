// Weigh and begin.
ghost use Rattle.study.specs.Promises.{WeighPromise, BeginPromise};

use super::states::{New, Underway, Weighed};
use super::work::Work;
use lines::line::{Kind, Line};
use numbers::Parts;
use std::marker::PhantomData;
use study_costs::begin_trail;
use study_terms::faults::StudyFault;

impl<N: Kind + Copy> New<N> {
    // A study of any line in numbers of the kind.
    pub fn study() -> New<N> {
        New { kind: PhantomData }
    }

    // Works the numbers of the plan into the gains sheet, or refuses 11 to 15.
    pub fn weigh<W: Work, L: Line<Number = N>>(
        self,
        line: &L,
        gains: &mut [Parts],
        scratch: &mut [Parts],
    ) -> Result<Weighed<N>, (New<N>, StudyFault)>
        ensures { WeighPromise N.Number self (L.Line.meaning line.now) gains.old gains.new scratch.old scratch.new result }
    {
        // a match: over map and map_err, as begin has them, the proof was tried and did not close
        match W::weigh_line(line, gains, scratch) {
            Ok(sizes) => Ok(Weighed {
                sizes,
                kind: PhantomData,
            }),
            Err(fault) => Err((self, fault)),
        }
    }
}

impl<N: Kind + Copy> Weighed<N> {
    // Enters the start in the trail, at stop 0, or refuses 21 or 22.
    pub fn begin(
        self,
        start: &[Parts],
        trail: &mut [Parts],
    ) -> Result<Underway<N>, (Weighed<N>, StudyFault)>
        ensures { BeginPromise N.Number self start.now trail.old trail.new result }
    {
        begin_trail::<N>(self.sizes, start, trail)
            .map(|at| Underway {
                at,
                kind: PhantomData,
            })
            .map_err(|fault| (self, fault))
    }
}
