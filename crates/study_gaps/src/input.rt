// An input of a stop, and where its numbers lie.
ghost use Rattle.std.specs.Prelude.{◌≡◌, ◌<◌, drop};
ghost use Rattle.study_terms.specs.Sheets.{gains_place};
ghost use Rattle.study_terms.specs.Sized.{shape};

use numbers::Parts;
use study_terms::stops::Departing;

// An input of a stop before the last, with the sheets of the study.
#[derive(Clone, Copy)]
pub(super) struct Input<'a> {
    pub(super) here: Departing,
    pub(super) index: usize,
    pub(super) gains: &'a [Parts],
    pub(super) trail: &'a [Parts],
    ghost within: { index < here.sizes.inputs },
}

impl<'a> Input<'a> {
    // The gains sheet from the row of the input on: zeros, its pivot, and then its factors.
    pub(super) fn row(&self) -> &'a [Parts]
        ensures { result.now ≡ drop (gains_place (shape self.now.here.sizes) self.now.here.stop self.now.index 0) self.now.gains.now }
    {
        let place = (self.here.stop * self.here.sizes.inputs + self.index) * self.here.sizes.wide();
        self.gains.get(place..).unwrap_or(&[])
    }
}
