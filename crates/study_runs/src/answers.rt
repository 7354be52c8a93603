// What a command is answered.
use numbers::Parts;
use study_terms::faults::StudyFault;

// At most four rows: the lateness or the adjustments of a stop. They lie in place and are copied: no answer wants memory, and a
// vector is not `Copy`.
#[derive(Clone, Copy)]
pub struct Few {
    pub rows: [Parts; 4],
    pub count: usize,
}

// The states of a study, by name.
#[derive(Clone, Copy, PartialEq, Eq, Debug)]
pub enum StageName {
    New,
    Weighed,
    Underway,
    Ordered,
}

#[derive(Drop)]
pub enum Answer<N> {
    // the line is weighed
    Accepted,
    // the run stands at this stop, with this lateness
    Stands { stop: usize, lateness: Few },
    // the plan at the stop
    Planned(Few),
    // the number asked for
    Told(N),
    // the run is over, and the study is weighed
    Ended,
    // a refusal, which changes nothing but the sheets of a weigh
    Refused(StudyFault),
    // the state does not allow the command: no call is made
    NotNow(StageName),
}
