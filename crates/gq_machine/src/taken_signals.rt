// Signals that a leaf takes, and what a leaf that serves does next.
ghost use Rattle.std.specs.Prelude.{◌≡◌, ◌<◌, false, true, get_or, IfErr, IfOk, Err};
ghost use Rattle.gq_model.specs.declared.section.Section.TheVariants.{Reacting};
ghost use Rattle.gq_model.specs.machine.Sections.{section_number};
ghost use Rattle.gq_statements.specs.Slot_statements.{done};
ghost use Rattle.gq_machine.specs.internal.Machine_invariant.{CanServe, Goes, HasSignal, LeavesState};
ghost use Rattle.gq_machine.specs.internal.Taken_requests.{takes};

use crate::machine_state::{Fixed, MachineState};
use crate::taken_requests::accept;
use gq_leaf::step_laws::reacts;
use gq_model::fault::Wrong;
use gq_model::limits::SIGNALS;
use gq_model::section::Section;
use gq_statements::paid_laws::lawful;

// Whether a program with these sections has one for a signal.
#[inline(always)]
fn has_section(sections: &[bool; Section::ALL.len()], signal: u8) -> bool
    requires { signal < SIGNALS }
    ensures { result ≡ get_or sections.now (section_number (Reacting signal)) false }
{
    sections[Section::Reacting(signal).number()]
}

// A leaf that serves takes the first of its signals that is submitted, which is this one, and is at the start of its section. `MissingSection` where its
// program has none; then nothing changes.
fn react(fixed: &Fixed, state: &mut MachineState, number: usize, signal: u8) -> Result<(), Wrong>
    requires serves { CanServe fixed.now state.old number }
    requires first { HasSignal state.old number signal }
    requires few { signal < SIGNALS }
    ensures step { Goes fixed.now number state.old state.new (done result) }
    ensures leaves { LeavesState result fixed.now state.old state.new }
{
    let _table = &fixed.table;
    reacts();
    lawful(&state.slots);
    if !has_section(&fixed.prepared[number].sections, signal) {
        return Err(Wrong::MissingSection);
    }
    let leaf = &mut state.leaves[number];
    leaf.react(signal);
    Ok(())
}

// The next step of a leaf that serves: it takes the first of its signals that is submitted, else the oldest request to it. It returns whether it took one.
pub fn take_next(fixed: &Fixed, state: &mut MachineState, number: usize) -> Result<bool, Wrong>
    requires serves { CanServe fixed.now state.old number }
    ensures step { IfOk result (λ was. Goes fixed.now number state.old state.new (takes was)) }
    ensures wrong { IfErr result (λ wrong. Goes fixed.now number state.old state.new (done (Err wrong))) }
    ensures leaves { LeavesState result fixed.now state.old state.new }
    ensures none { IfOk result (λ was. was ≡ false → state.new.leaves.items ≡ state.old.leaves.items) }
    ensures same { IfOk result (λ was. was ≡ false → state.new.slots ≡ state.old.slots) }
{
    let _table = &fixed.table;
    let first = state.leaves[number].first_signal();
    match first {
        None => accept(fixed, state, number),
        Some(signal) => match react(fixed, state, number, signal) {
            Err(wrong) => Err(wrong),
            Ok(()) => Ok(true),
        },
    }
}
