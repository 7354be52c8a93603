// The keys of a feed, and places in it.

// The keys of a feed, three of the header and six of a block.
#[derive(Clone, Copy, PartialEq, Eq, Debug)]
pub enum Key {
    Stops,
    States,
    Inputs,
    Train,
    Stop,
    Weight,
    Late,
    Move,
    Aim,
}

// Where a line begins: its number, counted from 1, and the index of its first byte.
#[derive(Clone, Copy, Debug)]
pub struct Place {
    pub line: usize,
    pub at: usize,
}
