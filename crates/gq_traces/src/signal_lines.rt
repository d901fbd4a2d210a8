// Signals that are submitted, reported.
ghost use Rattle.std.specs.Prelude.{ℕ, ◌≡◌, ◌<◌, ◌≤◌, ◌||◌, ◌&&◌, not, length, slice_get};
ghost use Rattle.gq_model.specs.machine.Run.{label_at};
ghost use Rattle.gq_model.specs.machine.Scenario.{components, system};
ghost use Rattle.gq_world.specs.World_between_turns.{greatest_lines};
ghost use Rattle.gq_traces.specs.Trace.{after_submission, flag_at, signal_line, submission_text};
ghost use Rattle.gq_traces.specs.Traces_written.{prints_all};
ghost use Rattle.gq_traces.specs.internal.Printed_steps.{CanTrace, Goes, PrintsTurns};

use crate::line_parts::{TraceLine, extend, extend_number};
use crate::noted::counted;
use crate::session_lines::label_of;
use crate::step_output::{Reporting, write_on};
use crate::trace::Tracing;
use arrayvec::ArrayVec;
use gq_init::NodeTable;
use gq_machine::machine::Machine;
use gq_output::counted::Counted;
use gq_scenario::scenario::LeafNo;
use gq_world::world::World;
use std::io::Write;

// Whether a signal of a leaf is submitted.
fn is_submitted(machine: &Machine, leaf: LeafNo, signal: u8) -> bool
    requires leaf { leaf < length (components machine.now.scenario) }
    requires leaves { length machine.now.world.leaves ≡ length (components machine.now.scenario) }
    ensures { result ≡ flag_at machine.now.world leaf signal }
{
    let signals = machine.signals(leaf);
    let number = usize::from(signal);
    if number < signals.count() {
        signals.get(number).submitted
    } else {
        false
    }
}

// Whether a submission is reported before and after which the signal was submitted, or was not.
fn is_reported(reporting: Reporting, before: bool, after: bool) -> bool
    ensures { result ≡ (prints_all reporting || (after && not before)) }
{
    match reporting {
        Reporting::All => true,
        Reporting::Changes => after && !before,
    }
}

// The line of a signal of a leaf of this label.
fn signal_line(label: &[u8], signal: u8) -> TraceLine
    requires { length label.now ≤ 96 }
    ensures { result.items ≡ signal_line label.now signal }
{
    let mut line = ArrayVec::new();
    extend(&mut line, b"signal ");
    extend(&mut line, label);
    extend(&mut line, b"!");
    extend_number(&mut line, u64::from(signal));
    extend(&mut line, b"\n");
    line
}

// Writes the line of a signal.
fn write_signal<W: Write>(
    table: &NodeTable,
    leaf: LeafNo,
    signal: u8,
    going: bool,
    out: &mut Counted<W>,
) -> bool
    requires { leaf < length (components table.now) }
    ensures { Goes W.contents out.old out.new going result (signal_line (label_at (slice_get (components table.now) leaf)) signal) }
{
    let line = signal_line(label_of(table, leaf), signal);
    write_on(out, going, line.as_slice())
}

/// Submits a signal of a leaf, and reports it if it was not submitted yet, or if all is reported. It is no turn, and allocates no host memory.
pub(crate) fn print_submission<W: Write>(
    world: &mut World,
    tracing: &mut Tracing,
    reporting: Reporting,
    leaf: LeafNo,
    signal: u8,
    going: bool,
    out: &mut Counted<W>,
) -> bool
    requires leaf { leaf < length (components world.old.scenario) }
    requires can { CanTrace world.old tracing.old }
    requires signals { world.old.signals < greatest_lines }
    ensures { (turns : ℕ) → PrintsTurns 1 W.contents (submission_text (prints_all reporting) (system world.old.scenario) leaf signal)
        (after_submission leaf signal) turns 0 world.old world.new tracing.old tracing.new out.old out.new going result }
{
    counted(world);
    let before = is_submitted(world.machine(), leaf, signal);
    let _submitted = world.signal(leaf, usize::from(signal));
    counted(world);
    let after = is_submitted(world.machine(), leaf, signal);
    if is_reported(reporting, before, after) {
        write_signal(world.table(), leaf, signal, going, out)
    } else {
        going
    }
}
