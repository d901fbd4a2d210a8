// A world: an accepted scenario that runs.
ghost use Rattle.std.specs.Prelude.{ℕ, ◌≡◌, ◌↔◌, ◌<◌, ◌≤◌, ◌+◌, ◌-◌, ◌*◌, ◌^◌, [], true, false, not, length, slice_get, slice_index, sum, Some, None};
ghost use Rattle.std.specs.Prelude.{Ok, Err, IfOk, IfErr, IfSome, IsOk, IsErr, OnOk, OnErr, is_some};
ghost use Rattle.gq_model.specs.machine.Amounts.{Ram};
ghost use Rattle.gq_model.specs.machine.Routes.{numbered};
ghost use Rattle.gq_model.specs.machine.Scenario.{components, system};
ghost use Rattle.gq_model.specs.machine.Doing.{Line};
ghost use Rattle.gq_model.specs.machine.Run.{set_input, submit, turns_of};
ghost use Rattle.gq_model.specs.machine.Rest.{can_run, some_can};
ghost use Rattle.gq_model.specs.machine.World.{start};
ghost use Rattle.gq_model.specs.machine.Step.{next};
ghost use Rattle.gq_model.specs.rules.Accept as accept;
ghost use Rattle.gq_model.specs.rules.Accept.{steps_of_signal};
ghost use Rattle.gq_load.specs.internal.Small_budgets.{all_small};
ghost use Rattle.gq_resolve.specs.NodeTables.{IsNodeOf, node_rows};
ghost use Rattle.gq_laws.specs.Stands.{Stands};
ghost use Rattle.gq_prepared.specs.Leaf_holdings.{held_by_all};
ghost use Rattle.gq_output.specs.Writer_failures.{Writes, written_to, failures_of};
ghost use Rattle.gq_world.specs.Headline.{Standing, Upheld};
ghost use Rattle.gq_output.specs.Account_values.{reported_of};
ghost use Rattle.gq_world.specs.Account_lines.{all_accounts, accounts_text};
ghost use Rattle.gq_bytecode.specs.Nexts.{GoesAlone, NoneAlone};
ghost use Rattle.gq_machine.specs.Events.{event_of};
ghost use Rattle.gq_machine.specs.Input_settings.{input_fault};
ghost use Rattle.gq_model.specs.texts.Turns.{inputs_at};
ghost use Rattle.gq_world.specs.World_between_turns.{HasTaken, IsTurn, StopsWriting, greatest_lines, line_reported};
ghost use Rattle.gq_world.specs.internal.Act_transitions.{HasRun, IsCut};
ghost use Rattle.gq_output.specs.Writes.{IsRaised};

use crate::account_lines::write_accounts;
use crate::leaf_lines::write_line;
use crate::node_accounts::account_of;
use arrayvec::ArrayVec;
use gq_init::NodeTable;
use gq_laws::accepted_runs::accepted_laws;
use gq_load::budget::Budget;
use gq_load::signal_lines::all_steps;
use gq_machine::event::Event;
use gq_machine::input_settings::InputFault;
use gq_machine::machine::Machine;
use gq_machine::submitted_signals::NoSignal;
use gq_model::phase::Phase;
use gq_output::account_report::AccountReport;
use gq_output::counted::{Counted, WriteFault, put};
use gq_output::gathered_lines::Lines;
use gq_scenario::node_numbers::NodeNo;
use gq_scenario::scenario::LeafNo;
use std::io::Write;
use std::marker::Model;

/// Why a turn ended a world.
#[derive(Clone, Copy, Debug, PartialEq, Eq)]
pub enum Stop {
    /// A write failed. The step was taken, and a prefix of its line went out.
    Write,
    /// A write failed in an earlier turn: nothing was done.
    Stopped,
    /// The leaf has taken 2^64 - 1 steps: nothing was done.
    Spent,
}

// The most signals that are counted: the most lines of a list of turns.
const COUNTED_SIGNALS: u32 = 16_777_217;

/// The verified bounds of a signal: how many steps it takes at most each time that it is taken.
#[derive(Clone, Copy, Debug, PartialEq, Eq)]
pub struct Reaction {
    /// Those of its leaf.
    pub steps: u64,
    /// Those of all leaves together.
    pub all: u64,
}

// Whether so many steps more can be counted after these.
fn can_count(steps: u64, more: u32) -> bool
    ensures can { result ≡ true → steps + more < 2 ^ 64 }
    ensures full { result ≡ false → more ≡ 1 → steps ≡ 18446744073709551615 }
{
    u64::from(more) <= u64::MAX - steps
}

// Whether a leaf can take a step.
fn can_run(machine: &Machine, leaf: LeafNo) -> bool
    requires count { length machine.now.world.leaves ≡ length (components machine.now.scenario) }
    requires leaf { leaf < length (components machine.now.scenario) }
    ensures { result ≡ can_run (system machine.now.scenario) machine.now.world leaf }
{
    match machine.phase(leaf) {
        Phase::Running | Phase::Handling => true,
        Phase::Serving => {
            machine.signals(leaf).first().is_some() || machine.oldest(leaf).is_some()
        }
        Phase::Pending | Phase::Blocked | Phase::Exited => false,
    }
}

// The bounds of a signal of a leaf.
fn reaction_of(budgets: &[Budget], leaf: LeafNo, signal: u8) -> Reaction
    requires small { all_small budgets.now ≡ true }
    requires few { length budgets.now ≤ 64 }
    ensures steps { result.steps ≡ slice_index (steps_of_signal leaf signal budgets.now) leaf }
    ensures all { result.all ≡ sum (steps_of_signal leaf signal budgets.now) }
{
    let place = leaf.index();
    let steps = match budgets.get(place) {
        Some(budget) => budget.steps().for_signal(place, signal),
        None => 0,
    };
    Reaction {
        steps,
        all: all_steps(budgets, place, signal),
    }
}

/// An accepted scenario between two turns.
#[derive(Drop)]
pub struct World {
    machine: Machine,
    budgets: Vec<Budget>,
    failed: bool,
    stopped: bool,
    // How many signals were submitted, up to the most.
    signals: u32,
}

impl Model for World {
    ghost use Rattle.gq_world.specs.World_between_turns.{World};
    ghost use Rattle.gq_world.specs.internal.World_invariant.{IsKept};
    ghost use Rattle.gq_model.specs.internal.Stored.{statements_code, nodes_code};
    ghost use Rattle.std.specs.Coded.{codes};

    ghost Value = { World };

    ghost coded = { Prim.hlevel (
      codes,
      statements_code (Prim.hlevel codes),
      nodes_code (Prim.hlevel (codes, statements_code (Prim.hlevel codes))) (Prim.hlevel codes),
    ) };

    ghost view = { λ w. record {
      scenario = w.machine.scenario;
      world = w.machine.world;
      failed = w.failed;
      stopped = w.stopped;
      signals = w.signals;
    } };

    ghost invariant = { λ w. IsKept w.machine.scenario w.machine.world w.budgets.items w.stopped w.signals };
}

impl World {
    // The world at the start of a run.
    pub(crate) fn start(machine: Machine, budgets: Vec<Budget>) -> World
        requires stands { Stands machine.scenario machine.world }
        requires start { machine.world ≡ start (system machine.scenario) }
        requires budgets { budgets.items ≡ accept.budgets machine.scenario }
        ensures scenario { result.scenario ≡ machine.scenario }
        ensures world { result.world ≡ machine.world }
        ensures whole { result.failed ≡ false }
        ensures running { result.stopped ≡ false }
        ensures signals { result.signals ≡ 0 }
    {
        World {
            machine,
            budgets,
            failed: false,
            stopped: false,
            signals: 0,
        }
    }

    /// Ends the world, as `drop` does, and gives its host memory back.
    ///
    /// How a value is let go is proved in each crate that drops it, for all that it owns; a crate that ends its worlds by this call need not prove it again.
    pub fn end(self) {
        drop(self);
    }

    /// What each leaf uses at most, in preorder.
    pub fn budgets(&self) -> &[Budget]
        ensures { result.now ≡ accept.budgets self.now.scenario }
    {
        self.budgets.as_slice()
    }

    /// The nodes of the scenario that runs.
    pub fn table(&self) -> &NodeTable
        ensures { result.now ≡ self.now.scenario }
    {
        self.machine.table()
    }

    /// The machine that it is: what stands between two steps.
    pub fn machine(&self) -> &Machine
        ensures is { result.now ≡ record { scenario = self.now.scenario; world = self.now.world } }
        ensures stands { Standing self.now }
    {
        &self.machine
    }

    /// The number of nodes, the root among them.
    pub fn nodes(&self) -> usize
        ensures nodes { result ≡ length (node_rows self.now.scenario) }
        ensures accounts { result ≡ length (all_accounts self.now) }
        ensures few { result ≤ 129 }
    {
        let _stopped = self.stopped;
        self.table().node_count()
    }

    /// The node that a leaf is.
    pub fn node(&self, leaf: LeafNo) -> NodeNo
        requires { leaf < length (components self.now.scenario) }
        ensures node { IfSome (slice_get (components self.now.scenario) leaf) (λ c. IsNodeOf (node_rows self.now.scenario) result c) }
    {
        self.table().node(leaf)
    }

    /// The pages, of 4096 bytes, that no leaf holds.
    pub fn free_pages(&self) -> u64
        ensures { result * 4096 + held_by_all Ram self.now.world ≡ self.now.scenario.total.ram }
    {
        accepted_laws();
        self.machine.free_pages()
    }

    /// The account of a node. A leaf uses no more than its quota, of bytes and of capabilities, and has taken no more steps than its budget.
    pub fn account(&self, node: NodeNo) -> AccountReport
        requires { node < length (node_rows self.now.scenario) }
        ensures reported { IfSome (slice_get (all_accounts self.now) node) (λ a. result ≡ reported_of a) }
        ensures paid { IfSome result.leaf (λ l. l.used.ram ≤ result.quota.ram) }
        ensures paid_caps { IfSome result.leaf (λ l. l.used.caps ≤ result.quota.caps) }
        ensures within_budget { IfSome result.leaf (λ l. l.steps ≤ l.budget) }
    {
        accepted_laws();
        account_of(&self.machine, self.budgets.as_slice(), node)
    }

    // Writes the lines of the accounts of all nodes in preorder, up to the first that is not written whole. They allocate no host memory.
    pub(crate) fn write_accounts<W: Write>(&self, out: &mut Counted<W>) -> Result<(), WriteFault>
        ensures { Writes W.contents out.old out.new (accounts_text self.now) result }
    {
        write_accounts(&self.machine, self.budgets.as_slice(), out)
    }

    /// The leaf of that name, if there is one.
    pub fn leaf(&self, name: &[u8]) -> Option<LeafNo>
        ensures place { result ≡ numbered 0 name.now (components self.now.scenario) }
        ensures there { IfSome result (λ x. x < length (components self.now.scenario)) }
    {
        self.table().leaf_named(name)
    }

    /// What holds in every world, whatever turns it took and inputs and signals it was given. It does nothing.
    pub fn laws(&self)
        // Any leaf can take its turn, all is paid for, and each leaf has kept its budget of steps and of each resource. The quotas sum to the total, and a
        // session that ends gives back its donation.
        ensures upheld { Upheld self.now }
        ensures goes_on { (x : ℕ) → IsOk (next (system self.now.scenario) self.now.world x) }
    {
        accepted_laws();
        let _stopped = self.stopped;
    }

    /// One turn of a leaf: one step where it can run. Its line, if it gives one, is written with the leaf's label. After a
    /// failed write no further turn is taken. A turn allocates no host memory.
    pub fn turn<W: Write>(&mut self, leaf: LeafNo, out: &mut Counted<W>) -> Result<Event, Stop>
        requires { leaf < length (components self.old.scenario) }
        ensures scenario { self.new.scenario ≡ self.old.scenario }
        ensures signals { self.new.signals ≡ self.old.signals }

        // The step of the abstract machine is taken, and the line that it gives is written.
        ensures turned { IfOk result (λ event. IsTurn self.old self.new leaf event (written_to W.contents out.old) (written_to W.contents out.new)) }
        ensures goes_on { OnOk result (self.new.failed ≡ false) }
        ensures running { OnOk result (self.new.stopped ≡ self.old.stopped) }
        ensures counted { OnOk result (failures_of out.new ≡ failures_of out.old) }

        // A failed write stops the world.
        ensures stops { result ≡ Err Stop.Write → StopsWriting self.old self.new leaf (written_to W.contents out.old) (written_to W.contents out.new) }
        ensures raised { result ≡ Err Stop.Write → IsRaised (failures_of out.old) (failures_of out.new) }

        // A world with a failed write stays as it is, and writes nothing.
        ensures stopped { (result ≡ Err Stop.Stopped) ↔ (self.old.failed ≡ true) }
        ensures stays { result ≡ Err Stop.Stopped → self.new ≡ self.old }
        ensures silent { result ≡ Err Stop.Stopped → out.new ≡ out.old }

        // So does one whose leaf has taken as many steps as are counted.
        ensures spent { result ≡ Err Stop.Spent → HasTaken self.old.world leaf 18446744073709551615 }
        ensures spent_stays { result ≡ Err Stop.Spent → self.new ≡ self.old }
        ensures spent_silent { result ≡ Err Stop.Spent → out.new ≡ out.old }
    {
        if self.failed {
            return Err(Stop::Stopped);
        }
        let mut text = ArrayVec::new();
        match self.try_step(leaf, &mut text) {
            None => Err(Stop::Spent),
            Some(Event::Line) => match self.report(leaf, text.as_slice(), out) {
                Ok(()) => Ok(Event::Line),
                Err(_) => Err(Stop::Write),
            },
            Some(event) => Ok(event),
        }
    }

    /// Gives an input of a leaf another value, from here on. It is no turn, and allocates no host memory. A leaf that has exited keeps its inputs, which are 0.
    ///
    /// Refused, and then nothing is changed:
    ///
    /// - `NoInput` if the leaf has no input of this number;
    /// - `TooLarge` if the number is above the greatest value of the input.
    pub fn set_input(&mut self, leaf: LeafNo, input: usize, number: u32) -> Result<(), InputFault>
        requires leaf { leaf < length (components self.old.scenario) }
        ensures scenario { self.new.scenario ≡ self.old.scenario }
        ensures set { self.new.world ≡ set_input (system self.old.scenario) self.old.world leaf input number }
        ensures allowed { IsOk result → input_fault self.old.scenario leaf input number ≡ None }
        ensures refused { IfErr result (λ f. input_fault self.old.scenario leaf input number ≡ Some f) }
        ensures unchanged { OnErr result (self.new ≡ self.old) }
        ensures failed { self.new.failed ≡ self.old.failed }
        ensures stopped { self.new.stopped ≡ self.old.stopped }
        ensures signals { self.new.signals ≡ self.old.signals }
    {
        accepted_laws();
        self.machine.set_input(leaf, input, number)
    }

    /// Submits a signal of a leaf, whatever the leaf does. It is no turn, and allocates no host memory. One that is submitted again before it is taken counts
    /// once.
    ///
    /// Refused with `NoSignal` if the leaf has no signal of this number. Then nothing is changed.
    ///
    /// After 16,777,217 signals, more than the lines of a list of turns, the world is stopped: `step`, `turns_alone` and runs over lists are not for it any
    /// more, but `try_step`, `try_turns_alone` and `turn` are.
    pub fn signal(&mut self, leaf: LeafNo, signal: usize) -> Result<(), NoSignal>
        requires { leaf < length (components self.old.scenario) }
        ensures scenario { self.new.scenario ≡ self.old.scenario }
        ensures submitted { self.new.world ≡ submit self.old.world leaf signal }
        ensures allowed { IsOk result → IfSome (slice_get (components self.old.scenario) leaf) (λ c. signal < c.node.signals) }
        ensures refused { IsErr result → IfSome (slice_get (components self.old.scenario) leaf) (λ c. c.node.signals ≤ signal) }
        ensures unchanged { OnErr result (self.new ≡ self.old) }
        ensures failed { self.new.failed ≡ self.old.failed }
        ensures running { self.old.stopped ≡ false → self.old.signals < greatest_lines → self.new.stopped ≡ false }
        ensures signals { self.new.signals ≤ self.old.signals + 1 }
    {
        accepted_laws();
        self.machine.submit(leaf, signal)?;
        if self.signals < COUNTED_SIGNALS {
            self.signals += 1;
        } else {
            self.stopped = true;
        }
        Ok(())
    }

    /// How many signals a leaf has: at most three.
    pub fn signals(&self, leaf: LeafNo) -> u8
        requires { leaf < length (components self.now.scenario) }
        ensures signals { IfSome (slice_get (components self.now.scenario) leaf) (λ c. result ≡ c.node.signals) }
        ensures few { result ≤ 3 }
    {
        self.table().signals(leaf)
    }

    /// The verified bounds of a signal of a leaf; `None` if the leaf has no signal of this number.
    ///
    /// In a world at rest a signal that is submitted takes at most so many steps until all is at rest again, whatever the turns are.
    pub fn reaction(&self, leaf: LeafNo, signal: usize) -> Option<Reaction>
        requires { leaf < length (components self.now.scenario) }
        ensures steps { IfSome result (λ r. r.steps ≡ slice_index (steps_of_signal leaf signal (accept.budgets self.now.scenario)) leaf) }
        ensures all { IfSome result (λ r. r.all ≡ sum (steps_of_signal leaf signal (accept.budgets self.now.scenario))) }
        ensures there { is_some result ≡ true → IfSome (slice_get (components self.now.scenario) leaf) (λ c. signal < c.node.signals) }
        ensures none { result ≡ None → IfSome (slice_get (components self.now.scenario) leaf) (λ c. c.node.signals ≤ signal) }
    {
        accepted_laws();
        if signal >= usize::from(self.signals(leaf)) {
            return None;
        }
        self.table().scenario().bounds();
        Some(reaction_of(self.budgets.as_slice(), leaf, signal as u8))
    }

    /// Whether a leaf can take a step: it runs, handles a request or a signal, or serves and a signal of its is submitted or a request waits for it.
    pub fn can_run(&self, leaf: LeafNo) -> bool
        requires { leaf < length (components self.now.scenario) }
        ensures { result ≡ can_run (system self.now.scenario) self.now.world leaf }
    {
        let _stopped = self.stopped;
        can_run(&self.machine, leaf)
    }

    /// Whether no leaf can take a step.
    pub fn is_at_rest(&self) -> bool
        ensures { result ≡ not (some_can (system self.now.scenario) self.now.world 0 (components self.now.scenario)) }
    {
        for number in 0..self.table().leaf_count() {
            if self.can_run(LeafNo::new(number as u32)) {
                return false;
            }
        }
        true
    }

    /// The greatest values of a leaf's inputs, from input 0 on: none if it has no inputs.
    pub fn inputs(&self, leaf: LeafNo) -> &[u32]
        requires { leaf < length (components self.now.scenario) }
        ensures inputs { result.now ≡ inputs_at (slice_get (components self.now.scenario) leaf) }
        ensures few { length result.now ≤ 8 }
    {
        self.table().inputs(leaf)
    }

    /// The steps that a leaf has taken.
    pub fn steps(&self, leaf: LeafNo) -> u64
        requires { leaf < length (components self.now.scenario) }
        ensures { HasTaken self.now.world leaf result }
    {
        accepted_laws();
        self.machine.steps(leaf)
    }

    /// One turn of a leaf, of which nothing is written: one step where it can run. After it `line` has the text that the leaf gave, without label and line
    /// feed, and is empty where it gave none. A turn allocates no host memory.
    pub fn step(&mut self, leaf: LeafNo, line: &mut ArrayVec<u8, 64>) -> Event
        requires leaf { leaf < length (components self.old.scenario) }
        requires running { self.old.stopped ≡ false }
        ensures scenario { self.new.scenario ≡ self.old.scenario }
        ensures stepped { next (system self.old.scenario) self.old.world leaf ≡ Ok (self.new.world, event_of result line.new.items) }
        ensures failed { self.new.failed ≡ self.old.failed }
        ensures stopped { self.new.stopped ≡ false }
        ensures signals { self.new.signals ≡ self.old.signals }
    {
        accepted_laws();
        self.machine.step(leaf, line)
    }

    /// One turn of a leaf as `step` takes it, also of a world that was stopped. `None` if the leaf has taken 2^64 - 1 steps: then nothing is done.
    pub fn try_step(&mut self, leaf: LeafNo, line: &mut ArrayVec<u8, 64>) -> Option<Event>
        requires { leaf < length (components self.old.scenario) }
        ensures scenario { self.new.scenario ≡ self.old.scenario }
        ensures stepped { IfSome result (λ e. next (system self.old.scenario) self.old.world leaf ≡ Ok (self.new.world, event_of e line.new.items)) }
        ensures no_line { IfSome result (λ e. (e ≡ Event.Line → ⊥) → line.new.items ≡ []) }
        ensures counted { IfSome result (λ e. HasTaken self.old.world leaf 18446744073709551615 → ⊥) }
        ensures spent { result ≡ None → HasTaken self.old.world leaf 18446744073709551615 }
        ensures stays { result ≡ None → self.new ≡ self.old }
        ensures silent { result ≡ None → line.new ≡ line.old }
        ensures failed { self.new.failed ≡ self.old.failed }
        ensures stopped { self.new.stopped ≡ self.old.stopped }
        ensures signals { self.new.signals ≡ self.old.signals }
    {
        accepted_laws();
        if !can_count(self.steps(leaf), 1) {
            return None;
        }
        Some(self.machine.step(leaf, line))
    }

    /// Turns that a leaf takes alone, at most so many. Each is a step that shows nothing, and changes nothing but what is left to do, the open loops, the
    /// operands, the locals and the steps of this leaf. It returns how many are left. Where any are left, the leaf can't take its next step alone: others have
    /// a part in it, or the leaf can't run. The turns allocate no host memory.
    #[inline(always)]
    pub fn turns_alone(&mut self, leaf: LeafNo, turns: u32) -> u32
        requires leaf { leaf < length (components self.old.scenario) }
        requires running { self.old.stopped ≡ false }
        requires some { 0 < turns }
        ensures scenario { self.new.scenario ≡ self.old.scenario }
        ensures left { result ≤ turns }
        ensures alone { GoesAlone (system self.old.scenario) leaf (turns - result) self.old.world self.new.world }
        ensures over { 0 < result → NoneAlone self.new.world leaf }
        ensures failed { self.new.failed ≡ self.old.failed }
        ensures stopped { self.new.stopped ≡ false }
        ensures signals { self.new.signals ≡ self.old.signals }
    {
        accepted_laws();
        self.machine.turns_alone(leaf, turns)
    }

    /// Turns that a leaf takes alone, as `turns_alone` takes them, also of a world that was stopped. Where the leaf could take more than 2^64 - 1 steps with
    /// them, none is taken.
    #[inline(always)]
    pub fn try_turns_alone(&mut self, leaf: LeafNo, turns: u32) -> u32
        requires leaf { leaf < length (components self.old.scenario) }
        requires some { 0 < turns }
        ensures scenario { self.new.scenario ≡ self.old.scenario }
        ensures left { result ≤ turns }
        ensures alone { GoesAlone (system self.old.scenario) leaf (turns - result) self.old.world self.new.world }
        ensures counted { result < turns → (n : ℕ) → HasTaken self.old.world leaf n → n + turns < 2 ^ 64 }
        ensures failed { self.new.failed ≡ self.old.failed }
        ensures stopped { self.new.stopped ≡ self.old.stopped }
        ensures signals { self.new.signals ≡ self.old.signals }
    {
        accepted_laws();
        if !can_count(self.steps(leaf), turns) {
            return turns;
        }
        self.machine.turns_alone(leaf, turns)
    }

    // Turns of a leaf, at most so many, up to the first that gives a line, and those that show numbers after it. Their lines are put into `lines` and written.
    // It returns how many are left. After a failed write the world is stopped. The turns allocate no host memory.
    pub(crate) fn turns<W: Write>(
        &mut self,
        leaf: LeafNo,
        count: u32,
        lines: &mut Lines,
        out: &mut Counted<W>,
    ) -> Result<u32, WriteFault>
        requires leaf { leaf < length (components self.old.scenario) }
        requires running { self.old.stopped ≡ false }
        ensures scenario { self.new.scenario ≡ self.old.scenario }
        ensures left { IfOk result (λ left. left ≤ count) }
        ensures less { 0 < count → IfOk result (λ left. left < count) }
        ensures ran { IfOk result (λ left. HasRun (turns_of (system self.old.scenario) leaf (count - left)) self.old self.new
            (written_to W.contents out.old) (written_to W.contents out.new)) }
        ensures counted { OnOk result (failures_of out.new ≡ failures_of out.old) }
        ensures cut { OnErr result (IsCut (turns_of (system self.old.scenario) leaf count) self.old (written_to W.contents out.old)
            (written_to W.contents out.new)) }
        ensures raised { OnErr result (IsRaised (failures_of out.old) (failures_of out.new)) }
        ensures signals { self.new.signals ≡ self.old.signals }
    {
        accepted_laws();
        let (last, left) = self.machine.turns_reported(leaf, count, lines);
        match last {
            Err(_) => unreachable!(),
            Ok(event) => match event {
                Event::Line => {
                    self.write_lines(lines, out)?;
                    Ok(left)
                }
                Event::Idle | Event::Quiet | Event::Finished => Ok(left),
            },
        }
    }

    // Writes lines. After a failed write the world is stopped.
    fn write_lines<W: Write>(
        &mut self,
        lines: &Lines,
        out: &mut Counted<W>,
    ) -> Result<(), WriteFault>
        ensures scenario { self.new.scenario ≡ self.old.scenario }
        ensures world { self.new.world ≡ self.old.world }
        ensures writes { Writes W.contents out.old out.new lines.now.bytes result }
        ensures running { OnOk result (self.new.stopped ≡ self.old.stopped) }
        ensures stopped { OnErr result (self.new.stopped ≡ true) }
        ensures signals { self.new.signals ≡ self.old.signals }
    {
        match put(out, lines.as_bytes()) {
            Ok(()) => Ok(()),
            Err(fault) => {
                self.stop();
                Err(fault)
            }
        }
    }

    // Writes the line of a leaf that gives this text. After a failed write the world is stopped.
    fn report<W: Write>(
        &mut self,
        leaf: LeafNo,
        text: &[u8],
        out: &mut Counted<W>,
    ) -> Result<(), WriteFault>
        requires leaf { leaf < length (components self.old.scenario) }
        requires text { length text.now ≤ 64 }
        ensures scenario { self.new.scenario ≡ self.old.scenario }
        ensures world { self.new.world ≡ self.old.world }
        ensures writes { Writes W.contents out.old out.new (line_reported self.old.scenario leaf (Line text.now)) result }
        ensures running { OnOk result (self.new.stopped ≡ self.old.stopped) }
        ensures whole { OnOk result (self.new.failed ≡ self.old.failed) }
        ensures stopped { OnErr result (self.new.stopped ≡ true) }
        ensures failed { OnErr result (self.new.failed ≡ true) }
        ensures signals { self.new.signals ≡ self.old.signals }
    {
        match write_line(self.machine.table(), leaf, text, out) {
            Ok(()) => Ok(()),
            Err(fault) => {
                self.stop();
                Err(fault)
            }
        }
    }

    // No turn is taken from now on.
    fn stop(&mut self)
        ensures scenario { self.new.scenario ≡ self.old.scenario }
        ensures world { self.new.world ≡ self.old.world }
        ensures failed { self.new.failed ≡ true }
        ensures stopped { self.new.stopped ≡ true }
        ensures signals { self.new.signals ≡ self.old.signals }
    {
        self.failed = true;
        self.stopped = true;
    }
}
