// A list of commands, performed one after the other.
ghost use Rattle.std.specs.Prelude.{◌≡◌, ◌≤◌, [], length, IfOk, vec_capacity};
ghost use Rattle.study_theory.specs.Law.{StudyLaw};
ghost use Rattle.study_runs.specs.Performing.{WholeRun};

use super::answers::Answer;
use super::commands::Command;
use super::performing::{Study, perform_one};
use super::sheets::Sheets;
use lines::line::Line;
use std::alloc::{AllocError, Global};
use study::states::New;
use study::work::Work;

// Performs the commands one after the other; there is room for their answers.
fn run_commands<W: Work, L: Line>(
    line: &L,
    commands: &[Command],
    sheets: &mut Sheets,
    answers: &mut Vec<Answer<L::Number>>,
)
    requires none { answers.old.items ≡ [] }
    requires room { length commands.now ≤ vec_capacity answers.old }
    ensures { WholeRun L.Number.Number (L.Line.meaning line.now) commands.now answers.new.items }
{
    let mut study = Study::New(New::study());
    for command in commands {
        let (next, answer) = perform_one::<W, L>(study, line, command, sheets);
        study = next;
        answers.push_reserved(answer);
    }
    study.leave();
}

// Performs the commands on a new study of the line, in sheets of its own, and answers each. All memory is taken before the first command.
// The answers are those of a run of exactly the commands that the states allow; and of every run on this line the law holds.
pub fn perform<W: Work, L: Line>(
    heap: Global,
    line: &L,
    commands: &[Command],
) -> Result<Vec<Answer<L::Number>>, AllocError>
    ensures run { IfOk result (λ v. WholeRun L.Number.Number (L.Line.meaning line.now) commands.now v.items) }
    ensures law { StudyLaw L.Number.Number (L.Line.meaning line.now) L.Number.Kind.find }
{
    let mut answers = Vec::with_capacity(heap, commands.len())?;
    let mut sheets = Sheets::of(heap, line)?;
    run_commands::<W, L>(line, commands, &mut sheets, &mut answers);
    Ok(answers)
}
