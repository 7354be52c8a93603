// Why a book does not fit a line.
#[derive(Clone, Copy, PartialEq, Eq, Debug)]
pub enum FitFault {
    // the sizes of the book are not those of the line
    OtherSizes,
}
