#![tactic(auto)]

// The law over the runs of a study. The function does nothing: it carries the theorem in its contract, for every line.
ghost use Rattle.study_theory.specs.Law.{StudyLaw};

use lines::line::Line;

// From begin until abandon or close: confirmed cost + least cost from here = least cost from the start + excess; and the rest of the law.
pub fn every_run_keeps_the_law<L: Line>()
    ensures { (l : L) → StudyLaw L.Number.Number (L.Line.meaning l) L.Number.Kind.find }
{}
