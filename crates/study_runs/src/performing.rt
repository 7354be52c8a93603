// One command: the call that it makes, where the state of the study allows it.
ghost use Rattle.std.specs.Prelude.{◌≡◌, List, MatchResult};
ghost use Rattle.lines.specs.Meaning.{Meaning};
ghost use Rattle.numbers.specs.declared.Parts.{Parts};
ghost use Rattle.study.specs.Stages.{weighed_stage, underway_stage, ordered_stage};
ghost use Rattle.study_theory.specs.Runs.{new};
ghost use Rattle.study_runs.specs.Going.{Goes, Stood, stage_of};

use super::answers::{Answer, StageName};
use super::commands::Command;
use super::copying::{few, lateness_at};
use super::sheets::Sheets;
use lines::line::{Kind, Line};
use numbers::Parts;
use study::states::{New, Ordered, Underway, Weighed};
use study::work::Work;
use study_terms::faults::StudyFault;

// A study in any of its states.
pub(super) enum Study<N> {
    New(New<N>),
    Weighed(Weighed<N>),
    Underway(Underway<N>),
    Ordered(Ordered<N>),
}

// Line and command are apart: the line is the caller's for the whole run, a command for one step, and not each state asks the line.
fn from_new<W: Work, L: Line>(
    study: New<L::Number>,
    line: &L,
    command: &Command,
    gains: &mut [Parts],
    scratch: &mut [Parts],
) -> (Study<L::Number>, Answer<L::Number>)
    ensures { (trail : List Parts) → Goes L.Number.Number (L.Line.meaning line.now) command.now result.1 new (stage_of result.0) gains.old gains.new trail trail }
{
    match command {
        Command::Weigh => match study.weigh::<W, L>(line, gains, scratch) {
            Ok(weighed) => (Study::Weighed(weighed), Answer::Accepted),
            Err((study, fault)) => (Study::New(study), Answer::Refused(fault)),
        },
        _ => (Study::New(study), Answer::NotNow(StageName::New)),
    }
}

// A study underway, and the answer that tells where it stands.
fn stands<N: Kind + Copy>(study: Underway<N>, trail: &[Parts]) -> (Study<N>, Answer<N>)
    ensures { Stood study trail.now result.0 result.1 }
{
    let at = study.standing();
    let lateness = lateness_at(at, trail);
    (
        Study::Underway(study),
        Answer::Stands {
            stop: at.stop,
            lateness,
        },
    )
}

fn from_weighed<N: Kind + Copy>(
    study: Weighed<N>,
    command: &Command,
    trail: &mut [Parts],
) -> (Study<N>, Answer<N>)
    ensures { (m : Meaning N) (gains : List Parts) → Goes N.Number m command.now result.1 (weighed_stage study) (stage_of result.0) gains gains trail.old trail.new }
{
    match command {
        Command::Begin(start) => match study.begin(start.as_slice(), trail) {
            Ok(underway) => stands(underway, trail),
            Err((study, fault)) => (Study::Weighed(study), Answer::Refused(fault)),
        },
        _ => (Study::Weighed(study), Answer::NotNow(StageName::Weighed)),
    }
}

fn told<N>(answer: Result<N, StudyFault>) -> Answer<N>
    ensures { MatchResult answer (λ x. result ≡ Answer.Told x) (λ e. result ≡ Answer.Refused e) }
{
    match answer {
        Ok(x) => Answer::Told(x),
        Err(fault) => Answer::Refused(fault),
    }
}

fn from_underway<L: Line>(
    study: Underway<L::Number>,
    line: &L,
    command: &Command,
    gains: &[Parts],
    trail: &[Parts],
    slip: &mut [Parts],
) -> (Study<L::Number>, Answer<L::Number>)
    ensures { Goes L.Number.Number (L.Line.meaning line.now) command.now result.1 (underway_stage study) (stage_of result.0) gains.now gains.now trail.now trail.now }
{
    match command {
        Command::Propose => match study.propose(gains, trail, slip) {
            Ok(ordered) => (
                Study::Ordered(ordered),
                Answer::Planned(few(slip, slip.len())),
            ),
            Err((study, fault)) => (Study::Underway(study), Answer::Refused(fault)),
        },
        Command::Paid => {
            let answer = told(study.paid::<L>(line, trail));
            (Study::Underway(study), answer)
        }
        Command::Rest => {
            let answer = told(study.rest(gains, trail));
            (Study::Underway(study), answer)
        }
        Command::Excess => {
            let answer = told(study.excess(gains, trail));
            (Study::Underway(study), answer)
        }
        Command::Abandon => (Study::Weighed(study.abandon()), Answer::Ended),
        Command::Close => match study.close() {
            Ok(weighed) => (Study::Weighed(weighed), Answer::Ended),
            Err((study, fault)) => (Study::Underway(study), Answer::Refused(fault)),
        },
        _ => (Study::Underway(study), Answer::NotNow(StageName::Underway)),
    }
}

fn from_ordered<L: Line>(
    study: Ordered<L::Number>,
    line: &L,
    command: &Command,
    trail: &mut [Parts],
) -> (Study<L::Number>, Answer<L::Number>)
    ensures { (gains : List Parts) → Goes L.Number.Number (L.Line.meaning line.now) command.now result.1 (ordered_stage study) (stage_of result.0) gains gains trail.old trail.new }
{
    match command {
        Command::Confirm(made) => match study.confirm::<L>(line, made.as_slice(), trail) {
            Ok(underway) => stands(underway, trail),
            Err((study, fault)) => (Study::Ordered(study), Answer::Refused(fault)),
        },
        Command::Withdraw => stands(study.withdraw(), trail),
        _ => (Study::Ordered(study), Answer::NotNow(StageName::Ordered)),
    }
}

// The call that a command makes, whatever the state of the study, and what it is answered.
pub(super) fn perform_one<W: Work, L: Line>(
    study: Study<L::Number>,
    line: &L,
    command: &Command,
    sheets: &mut Sheets,
) -> (Study<L::Number>, Answer<L::Number>)
    ensures { Goes L.Number.Number (L.Line.meaning line.now) command.now result.1 (stage_of study) (stage_of result.0) sheets.old.gains.items sheets.new.gains.items sheets.old.trail.items sheets.new.trail.items }
{
    let Sheets {
        gains,
        scratch,
        trail,
        slip,
    } = sheets;
    match study {
        Study::New(study) => from_new::<W, L>(study, line, command, gains, scratch),
        Study::Weighed(study) => from_weighed(study, command, trail),
        Study::Underway(study) => from_underway::<L>(study, line, command, gains, trail, slip),
        Study::Ordered(study) => from_ordered::<L>(study, line, command, trail),
    }
}

impl<N: Kind + Copy> Study<N> {
    // Lets the study go, arm by arm, since one that may hold an order has no drop; an order that is still out is withdrawn.
    pub(super) fn leave(self) {
        match self {
            Study::New(_) => {}
            Study::Weighed(_) => {}
            Study::Underway(_) => {}
            Study::Ordered(study) => {
                let _ = study.withdraw();
            }
        }
    }
}
