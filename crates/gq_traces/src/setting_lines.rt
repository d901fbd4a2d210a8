// Settings of inputs, reported.
ghost use Rattle.std.specs.Prelude.{ℕ, ◌≡◌, ◌<◌, ◌≤◌, ◌||◌, ◌==◌, not, length, slice_get};
ghost use Rattle.gq_model.specs.machine.Run.{label_at};
ghost use Rattle.gq_model.specs.machine.Scenario.{components, system};
ghost use Rattle.gq_traces.specs.Trace.{after_setting, input_line, setting_text, value_at};
ghost use Rattle.gq_traces.specs.Traces_written.{prints_all};
ghost use Rattle.gq_traces.specs.internal.Printed_steps.{CanTrace, Goes, PrintsTurns};

use crate::line_parts::{TraceLine, extend, extend_entry, extend_number};
use crate::noted::counted;
use crate::session_lines::label_of;
use crate::step_output::{Reporting, write_on};
use crate::trace::Tracing;
use arrayvec::ArrayVec;
use gq_init::NodeTable;
use gq_machine::machine::Machine;
use gq_output::counted::Counted;
use gq_scenario::scenario::LeafNo;
use gq_world::world::World;
use std::io::Write;

// The value of an input of a leaf, or 0 if there is no such input.
fn value(machine: &Machine, leaf: LeafNo, input: u8) -> u32
    requires leaf { leaf < length (components machine.now.scenario) }
    requires leaves { length machine.now.world.leaves ≡ length (components machine.now.scenario) }
    ensures { result ≡ value_at machine.now.world leaf input }
{
    match machine.inputs(leaf).get(usize::from(input)) {
        Some(value) => *value,
        None => 0,
    }
}

// Whether a setting is reported that led from one value to another.
fn is_reported(reporting: Reporting, before: u32, after: u32) -> bool
    ensures { result ≡ (prints_all reporting || not (after == before)) }
{
    match reporting {
        Reporting::All => true,
        Reporting::Changes => after != before,
    }
}

// The line of a setting of a leaf of this label.
fn input_line(label: &[u8], input: u8, number: u32) -> TraceLine
    requires { length label.now ≤ 96 }
    ensures { result.items ≡ input_line label.now input number }
{
    let mut line = ArrayVec::new();
    extend(&mut line, b"input ");
    extend(&mut line, label);
    extend(&mut line, b".");
    extend_number(&mut line, u64::from(input));
    extend_entry(&mut line, b" =", u64::from(number));
    extend(&mut line, b"\n");
    line
}

// Writes the line of a setting.
fn write_setting<W: Write>(
    table: &NodeTable,
    leaf: LeafNo,
    input: u8,
    number: u32,
    going: bool,
    out: &mut Counted<W>,
) -> bool
    requires { leaf < length (components table.now) }
    ensures { Goes W.contents out.old out.new going result (input_line (label_at (slice_get (components table.now) leaf)) input number) }
{
    let line = input_line(label_of(table, leaf), input, number);
    write_on(out, going, line.as_slice())
}

/// Gives an input of a leaf another value, and reports it if the value changes, or if all is reported. It is no turn, and allocates no host memory.
pub(crate) fn print_setting<W: Write>(
    world: &mut World,
    tracing: &mut Tracing,
    reporting: Reporting,
    leaf: LeafNo,
    input: u8,
    number: u32,
    going: bool,
    out: &mut Counted<W>,
) -> bool
    requires leaf { leaf < length (components world.old.scenario) }
    requires can { CanTrace world.old tracing.old }
    ensures { (turns : ℕ) → PrintsTurns 0 W.contents (setting_text (prints_all reporting) (system world.old.scenario) leaf input number)
        (after_setting (system world.old.scenario) leaf input number) turns 0 world.old world.new tracing.old tracing.new out.old out.new going result }
{
    counted(world);
    let before = value(world.machine(), leaf, input);
    let _set = world.set_input(leaf, usize::from(input), number);
    counted(world);
    let after = value(world.machine(), leaf, input);
    if is_reported(reporting, before, after) {
        write_setting(world.table(), leaf, input, number, going, out)
    } else {
        going
    }
}
