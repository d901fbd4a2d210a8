// Each account after the last turn of a run, and what it is made of.
ghost use Rattle.std.specs.Prelude.{◌≡◌, ◌<◌, ◌≤◌, ◌+◌, ◌*◌, ◌++◌, ◌∷◌, [], List, true, false, length, slice_get, IfSome, Some, Ok};
ghost use Rattle.gq_model.specs.machine.Accounts.{Account, account_line};
ghost use Rattle.gq_model.specs.machine.Run.{Acts, run};
ghost use Rattle.gq_model.specs.machine.Scenario.{Component, components, system};
ghost use Rattle.gq_model.specs.machine.World as model;
ghost use Rattle.gq_model.specs.machine.World.{start};
ghost use Rattle.gq_output.specs.Writer_failures.{Writes};
ghost use Rattle.gq_resolve.specs.NodeTables.{NodeRow, node_rows};
ghost use Rattle.gq_world.specs.Account_lines.{all_accounts};
ghost use Rattle.gq_reports.specs.Command_outcomes.{WritesAs};
ghost use Rattle.gq_world.specs.World_between_turns.{AreOf, greatest_lines};
ghost use Rattle.gq_traces.specs.First_turns.{some_turns};
ghost use Rattle.gq_traces.specs.Step_positions.{Ahead};
ghost use Rattle.gq_traces.specs.Account_state.{Given, after_text, before, child_items, handed_items, has_quantum, init_items, inputs_behind, inputs_of, is_at};
ghost use Rattle.gq_traces.specs.Account_state.{is_live, item, items_text, leaf_items, leaf_text, signal_entries, signal_entry, signals_behind};
ghost use Rattle.gq_views.specs.Tree.{amounts};
ghost use Rattle.gq_traces.specs.Account_state.{live_items, next_text, node_text, start_text, state_text, text_in};
ghost use Rattle.gq_traces.specs.Trace.{Traced, after_all, start_traced};
ghost use Rattle.gq_traces.specs.Traces_written.{state_from, state_written};
ghost use Rattle.gq_traces.specs.internal.Flat.{AllStand, AreAheads, ArePrograms, programs_of};
ghost use Rattle.gq_traces.specs.internal.Follows.{IsAt, IsFollowed};
ghost use Rattle.gq_traces.specs.internal.Line_acts.{acts_along};
ghost use Rattle.gq_traces.specs.internal.Lines_given.{AreFew};
ghost use Rattle.gq_traces.specs.internal.Slot_items.{IsStanding, Prints_items, next_prefix};
ghost use Rattle.gq_traces.specs.internal.Printed_steps.{Goes, due_of, statement_text};

use crate::follow::{Followed, take_first};
use crate::items::{SlotRow, write_amount, write_places, write_sessions, write_slots};
use crate::line_parts::{TraceLine, extend, extend_entry, extend_place};
use crate::place_laws::place_laws;
use crate::step_lines::write_statement;
use crate::step_output::write_on;
use crate::trace::turns_of;
use crate::tracker::{Due, next_due};
use arrayvec::ArrayVec;
use gq_init::{NodeTable, TurnItem};
use gq_leaf::{Signal, Signals};
use gq_machine::machine::Machine;
use gq_model::phase::Phase;
use gq_output::account_line::account_line;
use gq_output::counted::{Counted, WriteFault};
use gq_reports::RunFault;
use gq_scenario::node_numbers::NodeNo;
use gq_scenario::scenario::LeafNo;
use gq_tariff::Amount;
use gq_world::world::World;
use std::alloc::Global;
use std::io::Write;

// What a node is given.
fn quantum_of(table: &NodeTable, node: NodeNo) -> Amount
    requires { node < length (node_rows table.now) }
    ensures { IfSome (slice_get (node_rows table.now) node) (λ r. result ≡ r.quantum) }
{
    let quantum = table.quantum(node);
    Amount {
        ram: quantum.ram(),
        caps: u64::from(quantum.caps()),
    }
}

// Reports what a node is given.
fn write_quantum<W: Write>(
    table: &NodeTable,
    node: NodeNo,
    going: bool,
    out: &mut Counted<W>,
) -> bool
    requires { node < length (node_rows table.now) }
    ensures { IfSome (slice_get (node_rows table.now) node) (λ r. Goes W.contents out.old out.new going result
        (items_text table.now.version (item 1 Given r.quantum [] ∷ []))) }
{
    let quantum = quantum_of(table, node);
    write_amount(table, b"  ", b"quantum", quantum, b"", going, out)
}

// INITS

// Whether a leaf has its quantum.
fn is_live(phase: Phase) -> bool
    ensures { result ≡ is_live phase }
{
    match phase {
        Phase::Pending | Phase::Exited => false,
        Phase::Running | Phase::Blocked | Phase::Serving | Phase::Handling => true,
    }
}

// Whether a node has its quantum: an init always has.
fn has_quantum(machine: &Machine, node: NodeNo) -> bool
    requires node { node < length (node_rows machine.now.scenario) }
    requires leaves { length machine.now.world.leaves ≡ length (components machine.now.scenario) }
    ensures { IfSome (slice_get (node_rows machine.now.scenario) node) (λ r. result ≡ has_quantum machine.now.world r.leaf) }
{
    match machine.table().leaf(node) {
        None => true,
        Some(leaf) => is_live(machine.phase(leaf)),
    }
}

// Whether a node stands right below another.
fn is_child(table: &NodeTable, child: NodeNo, node: NodeNo) -> bool
    requires { child < length (node_rows table.now) }
    ensures { IfSome (slice_get (node_rows table.now) child) (λ r. result ≡ is_at node r.parent) }
{
    match table.parent(child) {
        None => false,
        Some(parent) => parent.number() == node.number(),
    }
}

// Reports what an init hands to a node, if that is a live child of it.
fn write_child<W: Write>(
    machine: &Machine,
    node: NodeNo,
    child: NodeNo,
    going: bool,
    out: &mut Counted<W>,
) -> bool
    requires child { child < length (node_rows machine.now.scenario) }
    requires leaves { length machine.now.world.leaves ≡ length (components machine.now.scenario) }
    ensures { IfSome (slice_get (node_rows machine.now.scenario) child) (λ r. Prints_items W.contents out.old out.new going result machine.now
        (child_items machine.now.world node r)) }
{
    let table = machine.table();
    if !is_child(table, child, node) || !has_quantum(machine, child) {
        return going;
    }
    let mut rest = ArrayVec::new();
    extend(&mut rest, b" to ");
    extend(&mut rest, table.label(child));
    let quantum = quantum_of(table, child);
    write_amount(table, b"  ", b"hands", quantum, rest.as_slice(), going, out)
}

// Reports what an init hands to its live children.
fn write_handed<W: Write>(
    machine: &Machine,
    node: NodeNo,
    going: bool,
    out: &mut Counted<W>,
) -> bool
    requires { length machine.now.world.leaves ≡ length (components machine.now.scenario) }
    ensures { Prints_items W.contents out.old out.new going result machine.now
        (handed_items machine.now.world node (node_rows machine.now.scenario)) }
{
    let mut going = going;
    for number in 0..machine.table().node_count() {
        going = write_child(machine, node, NodeNo::new(number as u32), going, out);
    }
    going
}

// Reports what the account of an init is made of.
fn write_init<W: Write>(machine: &Machine, node: NodeNo, going: bool, out: &mut Counted<W>) -> bool
    requires node { node < length (node_rows machine.now.scenario) }
    requires leaves { length machine.now.world.leaves ≡ length (components machine.now.scenario) }
    ensures { IfSome (slice_get (node_rows machine.now.scenario) node) (λ r. Prints_items W.contents out.old out.new going result machine.now
        (init_items machine.now.world node r (node_rows machine.now.scenario))) }
{
    let going = write_quantum(machine.table(), node, going, out);
    write_handed(machine, node, going, out)
}

// LEAVES

// Reports after which leaf one starts, if it does.
fn write_after<W: Write>(table: &NodeTable, leaf: LeafNo, going: bool, out: &mut Counted<W>) -> bool
    requires { leaf < length (components table.now) }
    ensures { IfSome (slice_get (components table.now) leaf) (λ c. Goes W.contents out.old out.new going result
        (after_text (before (system table.now) c))) }
{
    match table.after(leaf) {
        None => going,
        Some(after) => {
            let mut line = ArrayVec::new();
            extend(&mut line, b"  after ");
            extend(&mut line, table.name(after).as_bytes());
            extend(&mut line, b"\n");
            write_on(out, going, line.as_slice())
        }
    }
}

// Reports after which leaf a pending one starts.
fn write_start<W: Write>(
    table: &NodeTable,
    leaf: LeafNo,
    phase: Phase,
    going: bool,
    out: &mut Counted<W>,
) -> bool
    requires { leaf < length (components table.now) }
    ensures { IfSome (slice_get (components table.now) leaf) (λ c. Goes W.contents out.old out.new going result (start_text (system table.now) c phase)) }
{
    match phase {
        Phase::Pending => write_after(table, leaf, going, out),
        Phase::Running | Phase::Blocked | Phase::Serving | Phase::Handling | Phase::Exited => going,
    }
}

// Puts these numbers at the end of a line, each behind a blank.
fn extend_amounts(line: &mut TraceLine, numbers: &[u32])
    requires { length line.old.items + length numbers.now * 21 ≤ 400 }
    ensures bytes { line.new.items ≡ line.old.items ++ amounts numbers.now }
    ensures long { length line.new.items ≤ length line.old.items + length numbers.now * 21 }
{
    for number in numbers {
        extend_entry(line, b"", u64::from(*number));
    }
}

// The values of inputs, in a line of their own behind another.
fn inputs_line(values: &[u32]) -> TraceLine
    requires { length values.now ≤ 8 }
    ensures line { result.items ≡ inputs_behind values.now }
    ensures long { length result.items ≤ 200 }
{
    let mut line = ArrayVec::new();
    if !values.is_empty() {
        extend(&mut line, b"\n  inputs");
        extend_amounts(&mut line, values);
    }
    line
}

// Puts how often a signal was taken at the end of a line, with a mark where it is submitted.
fn extend_signal(line: &mut TraceLine, signal: Signal)
    requires { length line.old.items + 22 ≤ 400 }
    ensures bytes { line.new.items ≡ line.old.items ++ signal_entry (record { submitted = signal.submitted; taken = signal.taken }) }
    ensures long { length line.new.items ≤ length line.old.items + 22 }
{
    extend_entry(line, b"", signal.taken);
    if signal.submitted {
        extend(line, b"!");
    }
}

// Puts how often each signal was taken at the end of a line.
fn extend_each(line: &mut TraceLine, signals: &Signals)
    requires few { length signals.now ≤ 3 }
    requires room { length line.old.items + 66 ≤ 400 }
    ensures bytes { line.new.items ≡ line.old.items ++ signal_entries signals.now }
    ensures long { length line.new.items ≤ length line.old.items + 66 }
{
    for number in 0..signals.count() {
        extend_signal(line, signals.get(number));
    }
}

// Puts how often the signals of a leaf were taken at the end of a line, in a line of their own.
fn extend_signals(line: &mut TraceLine, signals: &Signals)
    requires { length line.old.items ≤ 200 }
    ensures bytes { line.new.items ≡ line.old.items ++ signals_behind signals.now }
    ensures long { length line.new.items ≤ 300 }
{
    if signals.count() > 0 {
        extend(line, b"\n  signals");
        extend_each(line, signals);
    }
}

// Reports what a leaf that lives is given, the values of its inputs, and how often its signals were taken.
fn write_given<W: Write>(machine: &Machine, leaf: LeafNo, going: bool, out: &mut Counted<W>) -> bool
    requires leaf { leaf < length (components machine.now.scenario) }
    requires stands { IsStanding machine.now }
    ensures { (c : Component) → (l : model.Leaf) → slice_get (components machine.now.scenario) leaf ≡ Some c
        → slice_get machine.now.world.leaves leaf ≡ Some l → Prints_items W.contents out.old out.new going result machine.now
        (item 1 Given c.node.quantum (inputs_behind (inputs_of c l) ++ signals_behind l.signals) ∷ []) }
{
    let table = machine.table();
    let count = table.inputs(leaf).len();
    let mut line = inputs_line(&machine.inputs(leaf)[..count]);
    extend_signals(&mut line, machine.signals(leaf));
    let quantum = quantum_of(table, table.node(leaf));
    write_amount(
        table,
        b"  ",
        b"quantum",
        quantum,
        line.as_slice(),
        going,
        out,
    )
}

// Reports what the account of a leaf that lives is made of.
fn write_live<W: Write>(machine: &Machine, leaf: LeafNo, going: bool, out: &mut Counted<W>) -> bool
    requires leaf { leaf < length (components machine.now.scenario) }
    requires stands { IsStanding machine.now }
    ensures { (c : Component) → (l : model.Leaf) → slice_get (components machine.now.scenario) leaf ≡ Some c
        → slice_get machine.now.world.leaves leaf ≡ Some l → Prints_items W.contents out.old out.new going result machine.now
        (live_items (system machine.now.scenario) machine.now.world leaf c l) }
{
    let going = write_given(machine, leaf, going, out);
    let going = write_slots(machine, SlotRow::OfLeaf(leaf.index()), going, out);
    let going = write_places(machine, leaf, going, out);
    write_sessions(machine, leaf, going, out)
}

// Reports what the account of a leaf in this phase is made of.
fn write_items<W: Write>(
    machine: &Machine,
    leaf: LeafNo,
    phase: Phase,
    going: bool,
    out: &mut Counted<W>,
) -> bool
    requires leaf { leaf < length (components machine.now.scenario) }
    requires stands { IsStanding machine.now }
    ensures { (c : Component) → (l : model.Leaf) → slice_get (components machine.now.scenario) leaf ≡ Some c
        → slice_get machine.now.world.leaves leaf ≡ Some l → Prints_items W.contents out.old out.new going result machine.now
        (leaf_items (system machine.now.scenario) machine.now.world leaf c l phase) }
{
    match phase {
        Phase::Pending => going,
        Phase::Running => write_live(machine, leaf, going, out),
        Phase::Blocked => write_live(machine, leaf, going, out),
        Phase::Serving => write_live(machine, leaf, going, out),
        Phase::Handling => write_live(machine, leaf, going, out),
        Phase::Exited => going,
    }
}

// The line of the place of a step, up to its statement.
fn next_line(due: &Due<'_>) -> TraceLine
    ensures { result.items ≡ next_prefix due.now }
{
    let mut line = ArrayVec::new();
    extend(&mut line, b"  next: ");
    extend_place(&mut line, due.section, due.number);
    line
}

// Reports the place of a step.
fn write_due<W: Write>(due: &Due<'_>, going: bool, out: &mut Counted<W>) -> bool
    ensures { Goes W.contents out.old out.new going result (next_prefix due.now ++ statement_text due.now.statement ++ 10 ∷ []) }
{
    let line = next_line(due);
    let going = write_on(out, going, line.as_slice());
    let going = write_statement(due.statement, going, out);
    write_on(out, going, b"\n")
}

// Reports the place of the next step of a leaf, if it can take one.
fn write_next<W: Write>(
    machine: &Machine,
    followed: &Followed,
    leaf: LeafNo,
    going: bool,
    out: &mut Counted<W>,
) -> bool
    requires leaf { leaf < length (components machine.now.scenario) }
    requires leaves { length machine.now.world.leaves ≡ length (components machine.now.scenario) }
    requires programs { ArePrograms followed.now.programs.items (programs_of machine.now.scenario) }
    requires stand { AllStand followed.now.programs.items followed.now.aheads.items }
    ensures { (aheads : List Ahead) → AreAheads followed.now.programs.items followed.now.aheads.items aheads
        → Goes W.contents out.old out.new going result (next_text (due_of machine.now.scenario machine.now.world leaf aheads)) }
{
    let programs = followed.programs.as_slice();
    match next_due(programs, followed.aheads.as_slice(), machine, leaf) {
        None => going,
        Some(due) => write_due(&due, going, out),
    }
}

// Prints what is printed of a leaf below its account.
fn write_leaf<W: Write>(
    machine: &Machine,
    followed: &Followed,
    leaf: LeafNo,
    going: bool,
    out: &mut Counted<W>,
) -> bool
    requires leaf { leaf < length (components machine.now.scenario) }
    requires stands { IsStanding machine.now }
    requires programs { ArePrograms followed.now.programs.items (programs_of machine.now.scenario) }
    requires stand { AllStand followed.now.programs.items followed.now.aheads.items }
    ensures { (t : Traced) → t.world ≡ machine.now.world → AreAheads followed.now.programs.items followed.now.aheads.items t.aheads
        → Goes W.contents out.old out.new going result (leaf_text machine.now.scenario.version (system machine.now.scenario) t leaf
        (slice_get (components machine.now.scenario) leaf) (slice_get t.world.leaves leaf)) }
{
    let phase = machine.phase(leaf);
    let going = write_start(machine.table(), leaf, phase, going, out);
    let going = write_items(machine, leaf, phase, going, out);
    write_next(machine, followed, leaf, going, out)
}

// NODES

// Reports the account of a node.
fn write_account<W: Write>(world: &World, node: NodeNo, going: bool, out: &mut Counted<W>) -> bool
    requires node { node < length (node_rows world.now.scenario) }
    requires leaves { length world.now.world.leaves ≡ length (components world.now.scenario) }
    ensures { (a : Account) → slice_get (all_accounts world.now) node ≡ Some a
        → Goes W.contents out.old out.new going result (account_line world.now.scenario.version a) }
{
    let account = world.account(node);
    let table = world.table();
    let line = account_line(table.scenario().version(), table.label(node), &account);
    write_on(out, going, line.as_slice())
}

// Prints what is printed of a node below its account.
fn write_below<W: Write>(
    machine: &Machine,
    followed: &Followed,
    node: NodeNo,
    going: bool,
    out: &mut Counted<W>,
) -> bool
    requires node { node < length (node_rows machine.now.scenario) }
    requires stands { IsStanding machine.now }
    requires programs { ArePrograms followed.now.programs.items (programs_of machine.now.scenario) }
    requires stand { AllStand followed.now.programs.items followed.now.aheads.items }
    ensures { (t : Traced) → (r : NodeRow) → t.world ≡ machine.now.world
        → AreAheads followed.now.programs.items followed.now.aheads.items t.aheads → slice_get (node_rows machine.now.scenario) node ≡ Some r
        → Goes W.contents out.old out.new going result (node_text machine.now.scenario t node r r.leaf) }
{
    match machine.table().leaf(node) {
        None => write_init(machine, node, going, out),
        Some(leaf) => write_leaf(machine, followed, leaf, going, out),
    }
}

// Reports a node: its account, and what that is made of.
fn write_node<W: Write>(
    world: &World,
    followed: &Followed,
    node: NodeNo,
    going: bool,
    out: &mut Counted<W>,
) -> bool
    requires node { node < length (node_rows world.now.scenario) }
    requires followed { IsFollowed followed.now world.now }
    ensures { (t : Traced) → (r : NodeRow) → (a : Account) → IsAt followed.now world.now t → slice_get (node_rows world.now.scenario) node ≡ Some r
        → slice_get (all_accounts world.now) node ≡ Some a
        → Goes W.contents out.old out.new going result (account_line world.now.scenario.version a ++ node_text world.now.scenario t node r r.leaf) }
{
    let machine = world.machine();
    let going = write_account(world, node, going, out);
    write_below(machine, followed, node, going, out)
}

// Reports all nodes in preorder. It allocates no host memory.
fn write_nodes<W: Write>(world: &World, followed: &Followed, out: &mut Counted<W>) -> bool
    requires { IsFollowed followed.now world.now }
    ensures { (t : Traced) → IsAt followed.now world.now t → Goes W.contents out.old out.new true result (text_in world.now.scenario t) }
{
    let mut going = true;
    for number in 0..world.nodes() {
        going = write_node(world, followed, NodeNo::new(number as u32), going, out);
    }
    going
}

// Takes what the lines of a list give from the start of a world, and returns all nodes then. It allocates no host memory.
fn write_state<W: Write>(
    world: &mut World,
    followed: &mut Followed,
    turns: &[TurnItem],
    first: Option<u32>,
    out: &mut Counted<W>,
) -> Result<(), WriteFault>
    requires leaves { AreOf (length (components world.old.scenario)) turns.now }
    requires each { AreFew turns.now }
    requires signals { world.old.signals + length turns.now ≤ greatest_lines }
    requires followed { IsFollowed followed.old world.old }
    requires at { IsAt followed.old world.old (start_traced (system world.old.scenario)) }
    ensures { Writes W.contents out.old out.new (state_text world.old.scenario
        (some_turns first (acts_along (system world.old.scenario) turns.now (start_traced (system world.old.scenario))))) result }
{
    take_first(world, followed, turns, first);
    if write_nodes(world, followed, out) {
        Ok(())
    } else {
        Err(WriteFault)
    }
}

// Reads turns, settings and signals, takes them from the start of a world, and returns all nodes then.
fn state_of_world<W: Write>(
    alloc: Global,
    world: &mut World,
    turns: &[u8],
    first: Option<u32>,
    out: &mut Counted<W>,
) -> Result<(), RunFault<'static>>
    requires start { world.old.world ≡ start (system world.old.scenario) }
    requires running { world.old.stopped ≡ false }
    requires signals { world.old.signals ≡ 0 }
    requires same { (turns : Acts) → (after_all (system world.old.scenario) turns (start_traced (system world.old.scenario))).world
        ≡ (run (system world.old.scenario) turns).world }
    ensures { WritesAs W.contents (state_from first world.old.scenario turns.now) out.old out.new result }
{
    let turns = turns_of(alloc, world, turns)?;
    state_after(alloc, world, turns.as_slice(), first, out)
}

// Takes what the lines of a list give from the start of a world, and returns all nodes then.
fn state_after<W: Write>(
    alloc: Global,
    world: &mut World,
    turns: &[TurnItem],
    first: Option<u32>,
    out: &mut Counted<W>,
) -> Result<(), RunFault<'static>>
    requires start { world.old.world ≡ start (system world.old.scenario) }
    requires running { world.old.stopped ≡ false }
    requires leaves { AreOf (length (components world.old.scenario)) turns.now }
    requires each { AreFew turns.now }
    requires signals { world.old.signals + length turns.now ≤ greatest_lines }
    ensures { WritesAs W.contents (Ok (state_text world.old.scenario
        (some_turns first (acts_along (system world.old.scenario) turns.now (start_traced (system world.old.scenario)))))) out.old out.new result }
{
    let mut followed = match Followed::new(alloc, world) {
        Ok(followed) => followed,
        Err(_) => return Err(RunFault::Memory),
    };
    match write_state(world, &mut followed, turns, first, out) {
        Ok(()) => Ok(()),
        Err(_) => Err(RunFault::Write),
    }
}

/// Writes each account after the last turn of a run, and what it is made of. Where a number of turns is given, it is after the first so many turns of the list,
/// with the settings and signals before the last of them. A list with fewer is taken whole.
///
/// - Of an init: what it was given, and what it hands to its live children.
/// - Of a leaf that lives: what it was given, the values of its inputs, how often its signals were taken and which are submitted, what each of its slots holds
///   or lends, and the cells of its heap. Then the sessions to it with what they hold, and the place of its next step, if it can take one.
/// - Of a pending leaf: after which leaf it starts.
///
/// If the scenario or the turns are refused, or the host refuses memory, nothing is written; turns need none. All turns of the text are read, those that are
/// not taken, too. After a failed write a prefix of the text was written.
pub fn state<W: Write>(
    alloc: Global,
    scenario: &[u8],
    turns: &[u8],
    first: Option<u32>,
    out: &mut Counted<W>,
) -> Result<(), RunFault<'static>>
    ensures { WritesAs W.contents (state_written first scenario.now turns.now) out.old out.new result }
{
    place_laws();
    let mut world = World::load(alloc, scenario)?;
    let written = state_of_world(alloc, &mut world, turns, first, out);
    world.end();
    written
}
