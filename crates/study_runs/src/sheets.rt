// The sheets of a run.
use lines::line::Line;
use numbers::Parts;
use std::alloc::{AllocError, Global};
use study_terms::ZERO;
use study_terms::sizes::Sizes;

// Sheets of the sizes of a line; those of a line beyond the limits have no rows.
#[derive(Drop)]
pub(super) struct Sheets {
    pub(super) gains: Vec<Parts>,
    pub(super) scratch: Vec<Parts>,
    pub(super) trail: Vec<Parts>,
    pub(super) slip: Vec<Parts>,
}

impl Sheets {
    pub(super) fn of<L: Line>(heap: Global, line: &L) -> Result<Sheets, AllocError> {
        let (gains, scratch, trail, slip) = match Sizes::of(line) {
            Some(sizes) => (
                sizes.gains_length(),
                sizes.scratch_length(),
                sizes.trail_length(),
                sizes.inputs,
            ),
            None => (0, 0, 0, 0),
        };
        Ok(Sheets {
            gains: vec![in heap; ZERO; gains]?,
            scratch: vec![in heap; ZERO; scratch]?,
            trail: vec![in heap; ZERO; trail]?,
            slip: vec![in heap; ZERO; slip]?,
        })
    }
}
