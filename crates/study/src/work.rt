// The work that a study leaves to a type of the caller's choice: weigh's steps. What the other calls work is in study_costs and study_gaps.
ghost use Rattle.std.specs.Prelude.{◌≡◌, MatchResult};
ghost use Rattle.study_terms.specs.Shapes.{shape_of};
ghost use Rattle.study_terms.specs.Sized.{shape};
ghost use Rattle.study_terms.specs.Refusals.{refusal};
ghost use Rattle.study_terms.specs.Weighing.{WeighGranted, WeighRefused};

use lines::line::Line;
use numbers::Parts;
use study_terms::faults::StudyFault;
use study_terms::sizes::Sizes;

pub trait Work {
    // Works the gains of a line, with the scratch sheet at hand, which is left zero.
    fn weigh_line<L: Line>(
        line: &L,
        gains: &mut [Parts],
        scratch: &mut [Parts],
    ) -> Result<Sizes, StudyFault>
        ensures { MatchResult result
            (λ s. (shape s ≡ shape_of (L.Line.meaning line.now)) × WeighGranted L.Number.Number (L.Line.meaning line.now) gains.old gains.new scratch.old scratch.new)
            (λ e. WeighRefused L.Number.Number (L.Line.meaning line.now) (refusal e) gains.old gains.new scratch.old scratch.new) };
}
