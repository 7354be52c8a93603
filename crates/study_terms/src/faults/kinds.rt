// The refusals of a study.
use lines::faults::Mark;

// The fault below a number that could not be worked. An error enum and no Option of a mark: `?` makes it of a number's fault and of a line's, a rule
// of the project.
#[derive(Clone, Copy, PartialEq, Eq, Debug)]
pub enum Below {
    // the kind does not hold the number
    TooLarge,
    // an entry of the line is marked
    Marked(Mark),
}

// Why a call of the study is refused.
#[derive(Clone, Copy, PartialEq, Eq, Debug)]
pub enum StudyFault {
    // the line's sizes are beyond the limits
    SizesBeyond,
    // the gains sheet is short
    GainsShort,
    // the scratch sheet is short
    ScratchShort,
    // a pivot is not positive
    PivotNotPositive {
        stop: usize,
        input: usize,
    },
    // a number of weigh is too large: the step that worked it, and its row and column
    TooLarge {
        stop: usize,
        step: usize,
        row: usize,
        column: usize,
        below: Below,
    },
    // the line has other sizes than the study
    OtherSizes,
    // the start does not have one number for each state
    StartLength,
    // the trail is short
    TrailShort,
    // nothing is left to propose at the last stop
    AtTheEnd,
    // an adjustment of the plan is too large
    PlanTooLarge,
    // the slip does not have one number for each input
    SlipLength,
    // the adjustments made are not one number for each input
    AdjustmentsLength,
    // the next lateness is too large
    NextTooLarge,
    // the number asked for is too large
    AnswerTooLarge,
    // the study has not reached the last stop
    BeforeTheEnd,
}
