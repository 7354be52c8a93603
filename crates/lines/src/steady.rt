// A line that is the same at each stop but the last.
mod entries;
mod open;

// One state and one input. `f` is the row by which lateness travels, `g` the upper half of the cost, row by row; at the last stop the
// square of the lateness costs `weight`, which may be any number of the kind. Rows in place: they have three and six numbers, and opening wants no memory.
#[derive(Drop)]
pub struct Steady<N> {
    stops: u8,
    f: [i64; 3],
    g: [i64; 6],
    weight: N,
}
