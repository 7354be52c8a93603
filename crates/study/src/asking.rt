// Where a study stands; paid, rest and excess.
ghost use Rattle.std.specs.Prelude.{◌≡◌};
ghost use Rattle.study_terms.specs.Sized.{shape};
ghost use Rattle.study_terms.specs.Calls.{paid_checks, rest_checks, excess_checks, paid_at, rest_at, excess_at, AnswerPromise};

use super::states::Underway;
use lines::line::{Kind, Line};
use numbers::Parts;
use study_costs::{paid_at, rest_at};
use study_gaps::excess_at;
use study_terms::faults::StudyFault;
use study_terms::stops::Standing;

impl<N: Kind + Copy> Underway<N> {
    // The sizes of the study, and the stop where it stands.
    pub fn standing(&self) -> Standing
        ensures { result ≡ self.now.at }
    {
        self.at
    }

    // The cost of the confirmed stops, or refuses 16, 22 or 51.
    pub fn paid<L: Line<Number = N>>(&self, line: &L, trail: &[Parts]) -> Result<N, StudyFault>
        ensures { AnswerPromise N.Number
            (paid_checks N.Number (shape self.now.at.sizes) (L.Line.meaning line.now) self.now.at.stop trail.now)
            (paid_at N.Number (shape self.now.at.sizes) (L.Line.meaning line.now) trail.now self.now.at.stop) result }
    {
        paid_at(self.at, line, trail)
    }

    // The form of P at this stop, taken at the lateness here, or refuses 12, 22 or 51.
    pub fn rest(&self, gains: &[Parts], trail: &[Parts]) -> Result<N, StudyFault>
        ensures { AnswerPromise N.Number
            (rest_checks N.Number (shape self.now.at.sizes) self.now.at.stop gains.now trail.now)
            (rest_at N.Number (shape self.now.at.sizes) gains.now trail.now self.now.at.stop) result }
    {
        rest_at(self.at, gains, trail)
    }

    // The sum of pivot × gap² over the confirmed adjustments, or refuses 12, 22 or 51.
    pub fn excess(&self, gains: &[Parts], trail: &[Parts]) -> Result<N, StudyFault>
        ensures { AnswerPromise N.Number
            (excess_checks N.Number (shape self.now.at.sizes) self.now.at.stop gains.now trail.now)
            (excess_at N.Number (shape self.now.at.sizes) gains.now trail.now self.now.at.stop) result }
    {
        excess_at(self.at, gains, trail)
    }
}
