// A refusal as text: its number and a sentence.
use super::kinds::StudyFault;
use std::error::Error;
use std::fmt;

fn sentence(fault: StudyFault) -> &'static str {
    match fault {
        StudyFault::SizesBeyond => "the line has more than 24 stops, 4 states or 3 inputs, or none",
        StudyFault::GainsShort => "the gains sheet is short",
        StudyFault::ScratchShort => "the scratch sheet is short",
        StudyFault::PivotNotPositive { .. } =>
            "a pivot is not positive, so that no list of adjustments is the cheapest",
        StudyFault::TooLarge { .. } => "a number is too large for its kind",
        StudyFault::OtherSizes => "the line has other sizes than the study",
        StudyFault::StartLength => "the start does not have one number for each state",
        StudyFault::TrailShort => "the trail is short",
        StudyFault::AtTheEnd => "the last stop is reached, and no adjustment is made there",
        StudyFault::PlanTooLarge => "an adjustment of the plan is too large for its kind",
        StudyFault::SlipLength => "the slip does not have one number for each input",
        StudyFault::AdjustmentsLength => "the adjustments are not one number for each input",
        StudyFault::NextTooLarge => "the next lateness is too large for its kind",
        StudyFault::AnswerTooLarge => "the number asked for is too large for its kind",
        StudyFault::BeforeTheEnd => "the last stop is not reached yet",
    }
}

impl fmt::Display for StudyFault {
    fn fmt<W: fmt::Write>(&self, f: &mut fmt::Formatter<W>) -> fmt::Result {
        let number = self.number();
        let text = sentence(*self);
        write!(f, "{number}: {text}")
    }
}

impl Error for StudyFault {}
