// Turns of a machine's leaves.
ghost use Rattle.std.specs.Prelude.{◌≡◌, ◌-◌, ◌<◌, ◌≤◌, [], IfErr, IfOk, IsOk, OnErr, Err, Ok, length};
ghost use Rattle.gq_model.specs.machine.Scenario.{components, system};
ghost use Rattle.gq_model.specs.machine.Step.{next};
ghost use Rattle.gq_bytecode.specs.Nexts.{GoesAlone, NoneAlone};
ghost use Rattle.gq_machine.specs.Turn_bursts.{OutputsLines};
ghost use Rattle.gq_machine.specs.Countable.{AreCountable, IsCountable};
ghost use Rattle.gq_machine.specs.Events.{event_of};
ghost use Rattle.gq_machine.specs.declared.event.Event.TheVariants as event;

use crate::bursts::turns_alone;
use crate::event::Event;
use crate::machine::Machine;
use crate::machine_steps::turn;
use crate::others::LINE;
use crate::output::output_turns;
use arrayvec::ArrayVec;
use gq_model::fault::Wrong;
use gq_output::gathered_lines::Lines;
use gq_scenario::scenario::LeafNo;
use gq_statements::paid_laws::lawful;

impl Machine {
    /// One turn of a leaf, tested: where the leaf can run it is one step. After it the line has the text that was given, without label and line feed, and
    /// is empty where none was. Where the step is wrong, nothing is changed. It allocates no host memory.
    pub fn step_tested(
        &mut self,
        leaf: LeafNo,
        line: &mut ArrayVec<u8, LINE>,
    ) -> Result<Event, Wrong>
        requires leaf { leaf < length (components self.old.scenario) }
        requires countable { IsCountable self.old.world leaf }
        ensures scenario { self.new.scenario ≡ self.old.scenario }
        ensures stepped { IfOk result (λ event. next (system self.old.scenario) self.old.world leaf ≡ Ok (self.new.world, event_of event line.new.items)) }
        ensures no_line { IfOk result (λ e. (e ≡ event.Line → ⊥) → line.new.items ≡ []) }
        ensures wrong { IfErr result (λ wrong. next (system self.old.scenario) self.old.world leaf ≡ Err wrong) }
        ensures unchanged { OnErr result (self.new ≡ self.old) }
    {
        lawful(&self.state.slots);
        turn(&self.fixed, &mut self.state, leaf.index(), line)
    }

    /// Takes at most so many turns of a leaf, tested. They end with the first that gives a line or is wrong. After a line those that follow and show numbers
    /// are taken too, as long as a line more has room. Returns what came of them, and how many turns are left.
    ///
    /// - `Line`: lines were given. They are put, with the leaf's label, in the place of those that `lines` had.
    /// - What is wrong with the last of the turns, which then changes nothing.
    /// - Any other event: no turn gave a line, and no turn is left.
    ///
    /// Turns of a leaf that can't run are passed over at once, whatever their number. It allocates no host memory.
    pub fn turns_reported(
        &mut self,
        leaf: LeafNo,
        count: u32,
        lines: &mut Lines,
    ) -> (Result<Event, Wrong>, u32)
        requires leaf { leaf < length (components self.old.scenario) }
        requires countable { AreCountable self.old.world leaf count }
        ensures scenario { self.new.scenario ≡ self.old.scenario }
        ensures left { result.1 ≤ count }
        ensures less { 0 < count → result.1 < count }
        ensures reported { OutputsLines self.old.scenario leaf (count - result.1) self.old.world self.new.world result.0 lines.new.bytes }
        ensures some { IfOk result.0 (λ e. e ≡ event.Line → lines.new.bytes ≡ [] → ⊥) }
        ensures over { IfOk result.0 (λ e. (e ≡ event.Line → ⊥) → result.1 ≡ 0) }
    {
        lawful(&self.state.slots);
        output_turns(&self.fixed, &mut self.state, leaf.index(), count, lines)
    }

    /// Turns that a leaf takes alone, at most so many. Each is a step that shows nothing, and changes nothing but what is left to do, the open loops, the
    /// operands, the locals and the steps of this leaf. It returns how many are left. Where any are left, the leaf can't take its next step alone: others have
    /// a part in it, it would be wrong, or the leaf can't run. It allocates no host memory.
    #[inline(always)]
    pub fn turns_alone(&mut self, leaf: LeafNo, turns: u32) -> u32
        requires leaf { leaf < length (components self.old.scenario) }
        requires some { 0 < turns }
        requires countable { AreCountable self.old.world leaf turns }
        ensures scenario { self.new.scenario ≡ self.old.scenario }
        ensures left { result ≤ turns }
        ensures alone { GoesAlone (system self.old.scenario) leaf (turns - result) self.old.world self.new.world }
        ensures over { 0 < result → NoneAlone self.new.world leaf }
    {
        lawful(&self.state.slots);
        turns_alone(&self.fixed, &mut self.state, leaf.index(), turns)
    }

    /// One turn of a leaf whose step is not wrong. After it the line has the text that was given, without label and line feed, and is empty where none was.
    /// It allocates no host memory.
    pub fn step(&mut self, leaf: LeafNo, line: &mut ArrayVec<u8, LINE>) -> Event
        requires leaf { leaf < length (components self.old.scenario) }
        requires countable { IsCountable self.old.world leaf }
        requires defined { IsOk (next (system self.old.scenario) self.old.world leaf) }
        ensures scenario { self.new.scenario ≡ self.old.scenario }
        ensures stepped { next (system self.old.scenario) self.old.world leaf ≡ Ok (self.new.world, event_of result line.new.items) }
        ensures no_line { (result ≡ event.Line → ⊥) → line.new.items ≡ [] }
    {
        match self.step_tested(leaf, line) {
            Ok(event) => event,
            Err(_) => unreachable!(),
        }
    }
}
