// Why a call of the study is refused.
ghost use Rattle.std.specs.Prelude.{◌≡◌};
ghost use Rattle.study_terms.specs.Refusals.{refusal};
ghost use Rattle.study_terms.specs.declared.faults.kinds.Below.TheVariants.{TooLarge, Marked};

use lines::faults::LineFault;
use numbers::NumberFault;

mod kinds;
mod text;

pub use kinds::{Below, StudyFault};

impl StudyFault {
    // The number under which the refusal is reported.
    pub fn number(self) -> u8
        ensures { result ≡ (refusal self).number }
    {
        match self {
            StudyFault::SizesBeyond => 11,
            StudyFault::GainsShort => 12,
            StudyFault::ScratchShort => 13,
            StudyFault::PivotNotPositive { .. } => 14,
            StudyFault::TooLarge { .. } => 15,
            StudyFault::OtherSizes => 16,
            StudyFault::StartLength => 21,
            StudyFault::TrailShort => 22,
            StudyFault::AtTheEnd => 31,
            StudyFault::PlanTooLarge => 32,
            StudyFault::SlipLength => 33,
            StudyFault::AdjustmentsLength => 41,
            StudyFault::NextTooLarge => 42,
            StudyFault::AnswerTooLarge => 51,
            StudyFault::BeforeTheEnd => 61,
        }
    }
}

impl From<NumberFault> for Below {
    ghost from_gives = { λ e r. r ≡ TooLarge };

    fn from(e: NumberFault) -> Below {
        Below::TooLarge
    }
}

impl From<LineFault> for Below {
    ghost from_gives = { λ e r. r ≡ Marked e.mark };

    fn from(e: LineFault) -> Below {
        Below::Marked(e.mark)
    }
}
