// Aims over a line.

// A whole number for each of the stops 0 to 24 and of four states, 0 until it is set. The cost at a stop is that of the line below,
// taken at the lateness less the aims of the stop.
#[derive(Drop)]
pub struct Aims<L> {
    pub(super) below: L,
    pub(super) aims: [[i16; 4]; 25],
}
