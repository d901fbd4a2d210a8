// What stands before the lines of a listing.

/// What stands before the lines of a listing.
#[derive(Clone, Copy, Debug, PartialEq, Eq)]
pub enum Margin {
    /// Nothing.
    Plain,
    /// The number of each statement, in five columns.
    Numbered,
}
