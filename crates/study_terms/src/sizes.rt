// The sizes of a study.
ghost use Rattle.std.specs.Prelude.{◌≤◌};

mod told;

// The last stop, and how many states and inputs each stop has: those of a line within the limits.
#[derive(Clone, Copy)]
pub struct Sizes {
    pub stops: usize,
    pub states: usize,
    pub inputs: usize,
    ghost some_stops: { 1 ≤ stops },
    ghost few_stops: { stops ≤ 24 },
    ghost some_states: { 1 ≤ states },
    ghost few_states: { states ≤ 4 },
    ghost some_inputs: { 1 ≤ inputs },
    ghost few_inputs: { inputs ≤ 3 },
}
