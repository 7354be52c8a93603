// A book of trains over a line.
use feeds::book::Book;

// To each stop's cost every train of the book that stands there adds weight × (late × lateness + move × adjustments − aim)².
// A book whose sizes are not the line's adds nothing.
#[derive(Drop)]
pub struct Trains<L> {
    pub(super) below: L,
    pub(super) book: Book,
}
