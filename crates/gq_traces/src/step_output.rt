// What is written of steps, up to the first write that fails.
ghost use Rattle.std.specs.Prelude.{◌<◌};
ghost use Rattle.gq_traces.specs.internal.Printed_steps.{Goes};

use gq_output::counted::{Counted, put};
use std::io::Write;

/// Which steps are reported.
#[derive(Clone, Copy, Debug, PartialEq, Eq)]
pub enum Reporting {
    /// Those that write a line, or change an account in anything but its steps, or a session.
    Changes,
    /// All.
    All,
}

/// How the reporting of a step goes: whether no write has failed, and whether the first line of the step is written.
#[derive(Clone, Copy)]
pub(crate) struct Progress {
    pub going: bool,
    pub begun: bool,
}

/// Writes bytes where no write has failed. It returns whether none has failed yet.
pub(crate) fn write_on<W: Write>(out: &mut Counted<W>, going: bool, bytes: &[u8]) -> bool
    ensures { Goes W.contents out.old out.new going result bytes.now }
{
    if !going {
        return false;
    }
    match put(out, bytes) {
        Ok(()) => true,
        Err(_) => false,
    }
}
