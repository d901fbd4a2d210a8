// What a leaf does.
use thiserror::Error;

/// What a leaf does between two steps.
#[derive(Clone, Copy, Debug, PartialEq, Eq, Error)]
pub enum Phase {
    /// It waits for the end of the leaf that it starts after.
    #[error("pending")]
    Pending,
    /// It is in `main`.
    #[error("running")]
    Running,
    /// It waits for a reply.
    #[error("blocked")]
    Blocked,
    /// It provides a service or has signals, and handles neither a request nor a signal.
    #[error("serving")]
    Serving,
    /// It is in another section than `main`.
    #[error("handling")]
    Handling,
    /// It has ended.
    #[error("exited")]
    Exited,
}
