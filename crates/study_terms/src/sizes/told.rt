// The sizes that a line tells, and the room that sheets of these sizes need and are asked for.
ghost use Rattle.std.specs.Prelude.{◌≡◌, ◌+◌, T, MatchOption, length};
ghost use Rattle.study_terms.specs.Sized.{shape};
ghost use Rattle.study_terms.specs.Room.{LongSheets};
ghost use Rattle.study_terms.specs.Shapes.{shape_of, in_limits, same_shape, width, gains_need, scratch_need, trail_need};

use super::Sizes;
use crate::faults::StudyFault;
use lines::line::Line;
use numbers::Parts;

impl Sizes {
    // The sizes of a line, where they are within the limits.
    pub fn of<L: Line>(line: &L) -> Option<Sizes>
        ensures { MatchOption result (T (in_limits (shape_of (L.Line.meaning line.now))) → ⊥) (λ s. (shape s ≡ shape_of (L.Line.meaning line.now)) × T (in_limits (shape_of (L.Line.meaning line.now)))) }
    {
        let stops = line.stops();
        let states = line.states();
        let inputs = line.inputs();
        if stops < 1 || stops > 24 || states < 1 || states > 4 || inputs < 1 || inputs > 3 {
            return None;
        }
        Some(Sizes {
            stops,
            states,
            inputs,
        })
    }

    // Whether a line has these sizes.
    pub fn are_of<L: Line>(self, line: &L) -> bool
        ensures { result ≡ same_shape (shape_of (L.Line.meaning line.now)) (shape self) }
    {
        line.stops() == self.stops && line.states() == self.states && line.inputs() == self.inputs
    }

    // The length of the list of adjustments, lateness and 1.
    pub fn wide(self) -> usize
        ensures { result ≡ width (shape self) }
    {
        self.inputs + (self.states + 1)
    }

    // How many rows the gains sheet needs.
    pub fn gains_length(self) -> usize
        ensures { result ≡ gains_need (shape self) }
    {
        let square = (self.states + 1) * (self.states + 1);
        self.stops * self.inputs * self.wide() + (self.stops + 1) * square
    }

    // How many rows the scratch sheet needs.
    pub fn scratch_length(self) -> usize
        ensures { result ≡ scratch_need (shape self) }
    {
        let wide = self.wide();
        wide * wide + (self.states + 1) * wide
    }

    // How many rows the trail needs.
    pub fn trail_length(self) -> usize
        ensures { result ≡ trail_need (shape self) }
    {
        self.stops * (self.states + self.inputs) + self.states
    }

    // Whether a gains sheet and a trail have this room.
    pub fn check_sheets(self, gains: &[Parts], trail: &[Parts]) -> Result<(), StudyFault>
        ensures { LongSheets (shape self) (length gains.now) (length trail.now) result }
    {
        if gains.len() < self.gains_length() {
            return Err(StudyFault::GainsShort);
        }
        if trail.len() < self.trail_length() {
            return Err(StudyFault::TrailShort);
        }
        Ok(())
    }
}
