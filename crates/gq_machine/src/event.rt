// What a step shows.

/// What a step shows.
#[derive(Clone, Copy, Debug, PartialEq, Eq)]
pub enum Event {
    /// The leaf can't run: nothing was done, and no step counted.
    Idle,
    /// A step was done that shows nothing.
    Quiet,
    /// A line was given.
    Line,
    /// The leaf has exited.
    Finished,
}
