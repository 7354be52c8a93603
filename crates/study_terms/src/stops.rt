// The stops of a study.
ghost use Rattle.std.specs.Prelude.{◌≡◌, suc, ◌<◌, ◌≤◌, MatchOption, drop};
ghost use Rattle.study_terms.specs.Sheets.{x_place, u_place};
ghost use Rattle.study_terms.specs.Sized.{shape};

use super::sizes::Sizes;
use numbers::Parts;

// A stop of the line.
#[derive(Clone, Copy)]
pub struct Standing {
    pub sizes: Sizes,
    pub stop: usize,
    ghost within: { stop ≤ sizes.stops },
}

// A stop before the last.
#[derive(Clone, Copy)]
pub struct Departing {
    pub sizes: Sizes,
    pub stop: usize,
    ghost before: { stop < sizes.stops },
}

impl Standing {
    // The stop as one before the last, unless it is the last.
    pub fn departing(self) -> Option<Departing>
        ensures { MatchOption result (self.stop ≡ self.sizes.stops) (λ d. (d.sizes ≡ self.sizes) × (d.stop ≡ self.stop)) }
    {
        if self.stop == self.sizes.stops {
            return None;
        }
        Some(Departing {
            sizes: self.sizes,
            stop: self.stop,
        })
    }

    // Where the lateness at the stop begins in the trail; before the last stop the adjustments follow it.
    pub fn lateness_place(self) -> usize
        ensures value { result ≡ x_place (shape self.sizes) self.stop 0 }
        ensures bound { result ≤ 168 }
    {
        self.stop * (self.sizes.states + self.sizes.inputs)
    }

    // The trail from the lateness at the stop on.
    pub fn lateness(self, trail: &[Parts]) -> &[Parts]
        ensures { result.now ≡ drop (x_place (shape self.sizes) self.stop 0) trail.now }
    {
        trail.get(self.lateness_place()..).unwrap_or(&[])
    }

    // The trail from the adjustments at the stop on.
    pub fn adjustments(self, trail: &[Parts]) -> &[Parts]
        ensures { result.now ≡ drop (u_place (shape self.sizes) self.stop 0) trail.now }
    {
        trail
            .get(self.lateness_place() + self.sizes.states..)
            .unwrap_or(&[])
    }
}

impl Departing {
    // The stop after this one.
    pub fn next(self) -> Standing
        ensures { (result.sizes ≡ self.sizes) × (result.stop ≡ suc self.stop) }
    {
        Standing {
            sizes: self.sizes,
            stop: self.stop + 1,
        }
    }
}

impl From<Departing> for Standing {
    ghost from_gives = { λ d r. (r.sizes ≡ d.sizes) × (r.stop ≡ d.stop) };

    fn from(d: Departing) -> Standing {
        Standing {
            sizes: d.sizes,
            stop: d.stop,
        }
    }
}
