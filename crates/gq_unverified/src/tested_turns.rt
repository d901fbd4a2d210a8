// Turns with tests, settings and signals, one after the other, up to a wrong step.
ghost use Rattle.std.specs.Prelude.{◌≡◌, ◌<◌, length, IfOk, IfSome, OnOk, OnErr};
ghost use Rattle.gq_model.specs.machine.Run.{act_on, turns_of};
ghost use Rattle.gq_model.specs.machine.Scenario.{components, system};
ghost use Rattle.gq_model.specs.texts.Turns.{turns_given};
ghost use Rattle.gq_output.specs.Writer_failures.{written_to};
ghost use Rattle.gq_init.specs.Turn_items.{IsOf};
ghost use Rattle.gq_world.specs.internal.Act_transitions.{AreOf, line_on, lines_on};
ghost use Rattle.gq_unverified.specs.internal.Taking.{CountsFailures, HasCome, HasRoom, IsCut, IsNear, most_turns, turns_in};

use crate::tested_rest::take_rest;
use arrayvec::ArrayVec;
use gq_init::TurnItem;
use gq_laws::turn_step_laws::turn_laws;
use gq_machine::event::Event;
use gq_machine::machine::Machine;
use gq_model::act::{Act, TurnLine};
use gq_model::fault::Wrong;
use gq_output::counted::{Counted, WriteFault};
use gq_scenario::scenario::LeafNo;
use gq_world::leaf_lines::write_line;
use std::io::Write;

// A turn of a leaf, with its line. Answers the leaf and what is wrong, if the step is.
pub(crate) fn take_turn<W: Write>(
    machine: &mut Machine,
    leaf: LeafNo,
    out: &mut Counted<W>,
) -> Result<Option<(LeafNo, Wrong)>, WriteFault>
    requires leaf { leaf < length (components machine.old.scenario) }
    requires room { HasRoom machine.old.world 1 }
    ensures scenario { machine.new.scenario ≡ machine.old.scenario }
    ensures near { IsNear machine.old.world machine.new.world 1 }
    ensures come { IfOk result (λ wrong. HasCome (turns_of (system machine.old.scenario) leaf 1) machine.old.world machine.new.world wrong
        (written_to W.contents out.old) (written_to W.contents out.new)) }
    ensures there { IfOk result (λ wrong. IfSome wrong (λ p. p.0 < length (components machine.old.scenario))) }
    ensures cut { OnErr result (IsCut (turns_of (system machine.old.scenario) leaf 1) machine.old.world (written_to W.contents out.old)
        (written_to W.contents out.new)) }
    ensures failures { CountsFailures out.old out.new result }
{
    turn_laws();
    let mut text = ArrayVec::new();
    let event = match machine.step_tested(leaf, &mut text) {
        Ok(event) => event,
        Err(wrong) => return Ok(Some((leaf, wrong))),
    };
    match event {
        Event::Line => match write_line(machine.table(), leaf, text.as_slice(), out) {
            Ok(()) => Ok(None),
            Err(fault) => Err(fault),
        },
        _ => Ok(None),
    }
}

// So many turns of a leaf, up to the first that is wrong or whose line is not written whole. They allocate no host memory.
fn take_turns<W: Write>(
    machine: &mut Machine,
    leaf: LeafNo,
    count: u32,
    out: &mut Counted<W>,
) -> Result<Option<(LeafNo, Wrong)>, WriteFault>
    requires leaf { leaf < length (components machine.old.scenario) }
    requires room { HasRoom machine.old.world count }
    ensures scenario { machine.new.scenario ≡ machine.old.scenario }
    ensures near { IsNear machine.old.world machine.new.world count }
    ensures come { IfOk result (λ wrong. HasCome (turns_of (system machine.old.scenario) leaf count) machine.old.world machine.new.world wrong
        (written_to W.contents out.old) (written_to W.contents out.new)) }
    ensures there { IfOk result (λ wrong. IfSome wrong (λ p. p.0 < length (components machine.old.scenario))) }
    ensures cut { OnErr result (IsCut (turns_of (system machine.old.scenario) leaf count) machine.old.world (written_to W.contents out.old)
        (written_to W.contents out.new)) }
    ensures failures { CountsFailures out.old out.new result }
{
    for turn in 0..count {
        match take_turn(machine, leaf, out) {
            Ok(None) => (),
            Ok(Some(wrong)) => return Ok(Some(wrong)),
            Err(fault) => return Err(fault),
        }
    }
    Ok(None)
}

// Gives a leaf turns, up to the first that is wrong or whose line is not written whole, or another value of an input, or a signal. It allocates no host
// memory.
fn take_act<W: Write>(
    machine: &mut Machine,
    leaf: LeafNo,
    act: Act,
    out: &mut Counted<W>,
) -> Result<Option<(LeafNo, Wrong)>, WriteFault>
    requires leaf { leaf < length (components machine.old.scenario) }
    requires room { HasRoom machine.old.world (turns_given act) }
    ensures scenario { machine.new.scenario ≡ machine.old.scenario }
    ensures near { IsNear machine.old.world machine.new.world (turns_given act) }
    ensures come { IfOk result (λ wrong. HasCome (act_on (system machine.old.scenario) leaf act) machine.old.world machine.new.world wrong
        (written_to W.contents out.old) (written_to W.contents out.new)) }
    ensures there { IfOk result (λ wrong. IfSome wrong (λ p. p.0 < length (components machine.old.scenario))) }
    ensures cut { OnErr result (IsCut (act_on (system machine.old.scenario) leaf act) machine.old.world (written_to W.contents out.old)
        (written_to W.contents out.new)) }
    ensures failures { CountsFailures out.old out.new result }
{
    match act {
        Act::Turns(count) => take_turns(machine, leaf, count, out),
        Act::Sets(input, number) => {
            let _set = machine.set_input(leaf, usize::from(input), number);
            Ok(None)
        }
        Act::Submits(signal) => {
            let _submitted = machine.submit(leaf, usize::from(signal));
            Ok(None)
        }
    }
}

// What a line of a list of turns gives, up to the first turn that is wrong or whose line is not written whole. It allocates no host memory.
fn take_line<W: Write>(
    machine: &mut Machine,
    line: TurnLine,
    out: &mut Counted<W>,
) -> Result<Option<(LeafNo, Wrong)>, WriteFault>
    requires count { length machine.old.world.leaves ≡ length (components machine.old.scenario) }
    requires leaf { IsOf (length (components machine.old.scenario)) line }
    requires room { HasRoom machine.old.world (most_turns line) }
    ensures scenario { machine.new.scenario ≡ machine.old.scenario }
    ensures leaves { length machine.new.world.leaves ≡ length machine.old.world.leaves }
    ensures near { OnOk result (IsNear machine.old.world machine.new.world (most_turns line)) }
    ensures come { IfOk result (λ wrong. HasCome (line_on (system machine.old.scenario) line) machine.old.world machine.new.world wrong
        (written_to W.contents out.old) (written_to W.contents out.new)) }
    ensures there { IfOk result (λ wrong. IfSome wrong (λ p. p.0 < length (components machine.old.scenario))) }
    ensures cut { OnErr result (IsCut (line_on (system machine.old.scenario) line) machine.old.world (written_to W.contents out.old)
        (written_to W.contents out.new)) }
    ensures failures { CountsFailures out.old out.new result }
{
    match line {
        TurnLine::Gives(leaf, act) => take_act(machine, LeafNo::new(leaf), act, out),
        TurnLine::Rests => match take_rest(machine, out) {
            Ok(()) => Ok(None),
            Err(fault) => Err(fault),
        },
    }
}

// What all lines of a list give, up to the first turn that is wrong or whose line is not written whole. They allocate no host memory.
pub(crate) fn take_all<W: Write>(
    machine: &mut Machine,
    turns: &[TurnItem],
    out: &mut Counted<W>,
) -> Result<Option<(LeafNo, Wrong)>, WriteFault>
    requires count { length machine.old.world.leaves ≡ length (components machine.old.scenario) }
    requires leaves { AreOf (length (components machine.old.scenario)) turns.now }
    requires room { HasRoom machine.old.world (turns_in turns.now) }
    ensures scenario { machine.new.scenario ≡ machine.old.scenario }
    ensures leaves { length machine.new.world.leaves ≡ length machine.old.world.leaves }
    ensures come { IfOk result (λ wrong. HasCome (lines_on (system machine.old.scenario) turns.now) machine.old.world machine.new.world wrong
        (written_to W.contents out.old) (written_to W.contents out.new)) }
    ensures there { IfOk result (λ wrong. IfSome wrong (λ p. p.0 < length (components machine.old.scenario))) }
    ensures cut { OnErr result (IsCut (lines_on (system machine.old.scenario) turns.now) machine.old.world (written_to W.contents out.old)
        (written_to W.contents out.new)) }
    ensures failures { CountsFailures out.old out.new result }
{
    for item in turns {
        match take_line(machine, item.line(), out) {
            Ok(None) => (),
            Ok(Some(wrong)) => return Ok(Some(wrong)),
            Err(fault) => return Err(fault),
        }
    }
    Ok(None)
}
