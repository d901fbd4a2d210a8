// What each turn of a run did, what was set and which signals were submitted, reported.
ghost use Rattle.std.specs.Prelude.{◌≡◌, ◌+◌, ◌<◌, ◌≤◌, ◌++◌, true, false, codes, decimal, length, Ok, IfOk, IfErr};
ghost use Rattle.gq_model.specs.machine.Run.{Acts, run};
ghost use Rattle.gq_model.specs.machine.Scenario.{components, system};
ghost use Rattle.gq_model.specs.machine.World.{start};
ghost use Rattle.gq_reports.specs.Command_outcomes.{WritesAs};
ghost use Rattle.gq_world.specs.World_between_turns as worlds;
ghost use Rattle.gq_world.specs.World_between_turns.{AreOf, greatest_lines};
ghost use Rattle.gq_traces.specs.Trace.{act_text, after_act, after_all, after_turn, after_turns, all_text, start_traced, trace_text, turn_text, turns_text};
ghost use Rattle.gq_traces.specs.Traces_written.{prints_all, trace_from, trace_written};
ghost use Rattle.gq_traces.specs.internal.Noted.{IsUse};
ghost use Rattle.gq_traces.specs.internal.Printed_steps.{CanTrace, Goes, IsOn, IsOwnTaken, IsSilent, IsTurnsFault, PrintsTurns, budgets_of, takes_own};
ghost use Rattle.gq_traces.specs.internal.Line_acts.{acts_along, after_line, after_lines, line_text, lines_text};
ghost use Rattle.gq_traces.specs.internal.Lines_given.{AreFew, IsFew};
ghost use Rattle.gq_init.specs.Turn_items.{IsOf};
ghost use Rattle.gq_model.specs.machine.Rest.{as_acts, can_run, greatest_turns, to_rest, while_can};
ghost use Rattle.gq_model.specs.texts.Turns.{listed, turns_given};

use crate::alone_steps::steps_alone;
use crate::line_parts::{extend, extend_entry};
use crate::noted::{PrintedState, Use, counted, use_of};
use crate::numbered_program::{NumberedProgram, all_numbered};
use crate::place_laws::place_laws;
use crate::rests::next_able;
use crate::setting_lines::print_setting;
use crate::signal_lines::print_submission;
use crate::step_lines::{Head, Taken, is_silent, print_step, print_taken};
use crate::step_output::{Progress, Reporting, write_on};
use crate::tracker::{Ahead, due_in, first_aheads, go_on, next_due, pass_by};
use arrayvec::ArrayVec;
use gq_init::turns::{TurnsError, read_turns};
use gq_init::{TurnItem, line_turns};
use gq_model::act::{Act, TurnLine};
use gq_model::limits::GREATEST_TURNS;
use gq_model::phase::Phase;
use gq_model::section::Section;
use gq_output::counted::Counted;
use gq_reports::RunFault;
use gq_scenario::scenario::LeafNo;
use gq_statements::actor::section_of;
use gq_world::account_lines::write_accounts;
use gq_world::world::World;
use std::alloc::{AllocError, Global};
use std::io::Write;

// A trace on the way: the programs, where all leaves stand in them, and what is noted of the world.
#[derive(Drop)]
pub(crate) struct Tracing {
    programs: Vec<NumberedProgram>,
    aheads: Vec<Ahead>,
    notes: PrintedState,
}

// A step of its own that a leaf took in the turn after so many, in this section and with this top operand, and what was read of it.
#[derive(Clone, Copy)]
struct Own {
    turns: u64,
    leaf: LeafNo,
    section: Section,
    top: Option<u32>,
    taken: Taken,
}

impl Tracing {
    // At the start of a world. Refused only if the host refuses memory.
    fn new(alloc: Global, world: &World) -> Result<Tracing, AllocError>
        requires start { world.now.world ≡ start (system world.now.scenario) }
        requires running { world.now.stopped ≡ false }
        ensures can { IfOk result (λ t. CanTrace world.now t) }
        ensures on { IfOk result (λ t. IsOn t.programs.items t.aheads.items world.now 0 (start_traced (system world.now.scenario))) }
    {
        let programs = all_numbered(alloc, world.table())?;
        let aheads = first_aheads(alloc, programs.as_slice())?;
        let notes = PrintedState::new(alloc, world)?;
        Ok(Tracing {
            programs,
            aheads,
            notes,
        })
    }
}

// One turn of a leaf, before which there were so many, reported if it is a step. It allocates no host memory.
#[inline(never)]
fn print_any<W: Write>(
    world: &mut World,
    tracing: &mut Tracing,
    reporting: Reporting,
    turns: u64,
    leaf: LeafNo,
    going: bool,
    out: &mut Counted<W>,
) -> bool
    requires leaf { leaf < length (components world.old.scenario) }
    requires few { turns < 18446744073709551615 }
    requires can { CanTrace world.old tracing.old }
    ensures { PrintsTurns 0 W.contents (turn_text (prints_all reporting) world.old.scenario (budgets_of world.old.scenario) leaf)
        (after_turn (system world.old.scenario) leaf) turns 1 world.old world.new tracing.old tracing.new out.old out.new going result }
{
    counted(world);
    let programs = tracing.programs.as_slice();
    let stands = tracing.aheads.as_slice();
    let Some(due) = next_due(programs, stands, world.machine(), leaf) else {
        return going;
    };
    go_on(
        programs,
        tracing.aheads.as_mut_slice(),
        world.machine(),
        leaf,
    );
    let head = Head {
        turn: turns + 1,
        leaf,
        due,
    };
    print_step(world, &mut tracing.notes, &head, reporting, going, out)
}

// Reports a step of its own that a leaf took, where changes alone are reported. It allocates no host memory.
#[inline(never)]
fn report_own<W: Write>(
    world: &World,
    tracing: &mut Tracing,
    own: &Own,
    text: &ArrayVec<u8, 64>,
    going: bool,
    out: &mut Counted<W>,
) -> bool
    requires leaf { own.now.leaf < length (components world.now.scenario) }
    requires few { own.now.turns < 18446744073709551615 }
    requires taken { (old : worlds.World) × IsOwnTaken old world.now tracing.old own.now text.now.items }
    ensures { (old : worlds.World) → IsOwnTaken old world.now tracing.old own.now text.now.items
        → PrintsTurns 0 W.contents (turn_text false old.scenario (budgets_of old.scenario) own.now.leaf) (after_turn (system old.scenario) own.now.leaf)
        own.now.turns 1 old world.now tracing.old tracing.new out.old out.new going result }
{
    let programs = tracing.programs.as_slice();
    let due = due_in(programs, tracing.aheads.as_slice(), own.leaf, own.section);
    pass_by(programs, tracing.aheads.as_mut_slice(), own.leaf, own.top);
    let turn = own.turns + 1;
    let head = Head {
        turn,
        leaf: own.leaf,
        due,
    };
    let progress = Progress {
        going,
        begun: false,
    };
    print_taken(
        world,
        &mut tracing.notes,
        &head,
        own.taken,
        text,
        progress,
        out,
    )
    .going
}

// Whether changes alone are reported, and a leaf in this phase takes steps of its own.
fn is_short(reporting: Reporting, phase: Phase) -> bool
    ensures reports { result ≡ true → prints_all reporting ≡ false }
    ensures own { result ≡ true → takes_own phase ≡ true }
{
    match (reporting, phase) {
        (Reporting::Changes, Phase::Running | Phase::Handling) => true,
        _ => false,
    }
}

// One turn of a leaf that takes a step of its own, before which there were so many, reported if the step changes something. What the
// leaf holds and does is known before it and after it. It allocates no host memory.
#[inline(always)]
fn own_turn<W: Write>(
    world: &mut World,
    tracing: &mut Tracing,
    turns: u64,
    leaf: LeafNo,
    before: &mut Use,
    going: bool,
    out: &mut Counted<W>,
) -> bool
    requires leaf { leaf < length (components world.old.scenario) }
    requires few { turns < 18446744073709551615 }
    requires can { CanTrace world.old tracing.old }
    requires before { IsUse world.old.scenario world.old.world leaf before.old }
    requires own { takes_own before.old.phase ≡ true }
    ensures reported { PrintsTurns 0 W.contents (turn_text false world.old.scenario (budgets_of world.old.scenario) leaf)
        (after_turn (system world.old.scenario) leaf) turns 1 world.old world.new tracing.old tracing.new out.old out.new going result }
    ensures after { IsUse world.new.scenario world.new.world leaf before.new }
{
    counted(world);
    let top = world.machine().top(leaf);
    let machine = world.machine();
    let section = section_of(machine.current(leaf), machine.reacting(leaf));
    let mut text = ArrayVec::new();
    let event = world.step(leaf, &mut text);
    counted(world);
    let after = use_of(world.machine(), leaf);
    if is_silent(event, before, &after) {
        let programs = tracing.programs.as_slice();
        pass_by(programs, tracing.aheads.as_mut_slice(), leaf, top);
        return going;
    }
    let taken = Taken {
        before: *before,
        after,
        event,
    };
    let own = Own {
        turns,
        leaf,
        section,
        top,
        taken,
    };
    *before = after;
    report_own(world, tracing, &own, &text, going, out)
}

// One turn of a leaf, before which there were so many, reported if it is a step. What the leaf holds and does is known before it and after it.
// It allocates no host memory.
#[inline(always)]
fn print_turn<W: Write>(
    world: &mut World,
    tracing: &mut Tracing,
    reporting: Reporting,
    turns: u64,
    leaf: LeafNo,
    before: &mut Use,
    going: bool,
    out: &mut Counted<W>,
) -> bool
    requires leaf { leaf < length (components world.old.scenario) }
    requires few { turns < 18446744073709551615 }
    requires can { CanTrace world.old tracing.old }
    requires before { IsUse world.old.scenario world.old.world leaf before.old }
    ensures reported { PrintsTurns 0 W.contents (turn_text (prints_all reporting) world.old.scenario (budgets_of world.old.scenario) leaf)
        (after_turn (system world.old.scenario) leaf) turns 1 world.old world.new tracing.old tracing.new out.old out.new going result }
    ensures after { IsUse world.new.scenario world.new.world leaf before.new }
{
    if is_short(reporting, before.phase) {
        return own_turn(world, tracing, turns, leaf, before, going, out);
    }
    let going = print_any(world, tracing, reporting, turns, leaf, going, out);
    counted(world);
    *before = use_of(world.machine(), leaf);
    going
}

// Turns of a leaf of which nothing is reported, at most so many: where changes alone are reported, those that it takes alone from where it stands. It returns
// how many.
// They allocate no host memory.
#[inline(always)]
fn silent_turns(
    world: &mut World,
    tracing: &mut Tracing,
    reporting: Reporting,
    leaf: LeafNo,
    most: u32,
) -> u32
    requires leaf { leaf < length (components world.old.scenario) }
    requires can { CanTrace world.old tracing.old }
    ensures few { result ≤ most }
    ensures silent { IsSilent (prints_all reporting) leaf result world.old world.new tracing.old tracing.new }
{
    match reporting {
        Reporting::All => 0,
        Reporting::Changes => {
            counted(world);
            steps_alone(
                world,
                tracing.programs.as_slice(),
                tracing.aheads.as_mut_slice(),
                leaf,
                most,
            )
        }
    }
}

// Turns of a leaf, at least one and at most so many, before which there were so many of all. They are those of which nothing is printed, and one more, which is
// printed if it is a step. What the leaf holds and does is known before them and after them. It returns how many there were. They allocate no host memory.
#[inline(always)]
fn print_some<W: Write>(
    world: &mut World,
    tracing: &mut Tracing,
    reporting: Reporting,
    turns: u64,
    leaf: LeafNo,
    most: u32,
    before: &mut Use,
    going: bool,
    out: &mut Counted<W>,
) -> (bool, u32)
    requires leaf { leaf < length (components world.old.scenario) }
    requires some { 0 < most }
    requires few { turns + most ≤ 18446744073709551615 }
    requires can { CanTrace world.old tracing.old }
    requires before { IsUse world.old.scenario world.old.world leaf before.old }
    ensures some { 0 < result.1 }
    ensures few { result.1 ≤ most }
    ensures reported { PrintsTurns 0 W.contents (turns_text (prints_all reporting) world.old.scenario (budgets_of world.old.scenario) leaf result.1)
        (after_turns (system world.old.scenario) leaf result.1) turns result.1 world.old world.new tracing.old tracing.new out.old out.new going result.0 }
    ensures after { IsUse world.new.scenario world.new.world leaf before.new }
{
    let silent = silent_turns(world, tracing, reporting, leaf, most);
    if silent == most {
        return (going, silent);
    }
    let going = print_turn(
        world,
        tracing,
        reporting,
        turns + u64::from(silent),
        leaf,
        before,
        going,
        out,
    );
    (going, silent + 1)
}

// So many turns of a leaf, before which there were so many of all. They allocate no host memory.
fn report_turns<W: Write>(
    world: &mut World,
    tracing: &mut Tracing,
    reporting: Reporting,
    turns: u64,
    leaf: LeafNo,
    count: u32,
    going: bool,
    out: &mut Counted<W>,
) -> bool
    requires leaf { leaf < length (components world.old.scenario) }
    requires few { turns + count ≤ 18446744073709551615 }
    requires can { CanTrace world.old tracing.old }
    ensures { PrintsTurns 0 W.contents (turns_text (prints_all reporting) world.old.scenario (budgets_of world.old.scenario) leaf count)
        (after_turns (system world.old.scenario) leaf count) turns count world.old world.new tracing.old tracing.new out.old out.new going result }
{
    counted(world);
    let mut going = going;
    let mut before = use_of(world.machine(), leaf);
    let mut done = 0;
    while done < count {
        let (goes, more) = print_some(
            world,
            tracing,
            reporting,
            turns + u64::from(done),
            leaf,
            count - done,
            &mut before,
            going,
            out,
        );
        going = goes;
        done += more;
    }
    going
}

// What a leaf is given, before which there were so many turns of all: turns, another value of an input, or a signal. It allocates no host memory.
fn print_act<W: Write>(
    world: &mut World,
    tracing: &mut Tracing,
    reporting: Reporting,
    turns: u64,
    leaf: LeafNo,
    act: Act,
    going: bool,
    out: &mut Counted<W>,
) -> bool
    requires leaf { leaf < length (components world.old.scenario) }
    requires few { turns + turns_given act ≤ 18446744073709551615 }
    requires can { CanTrace world.old tracing.old }
    requires signals { world.old.signals < greatest_lines }
    ensures { PrintsTurns 1 W.contents (act_text (prints_all reporting) world.old.scenario (budgets_of world.old.scenario) leaf act)
        (after_act (system world.old.scenario) leaf act) turns (turns_given act) world.old world.new tracing.old tracing.new out.old out.new going result }
{
    match act {
        Act::Turns(count) => report_turns(
            world, tracing, reporting, turns, leaf, count, going, out,
        ),
        Act::Sets(input, number) => print_setting(
            world, tracing, reporting, leaf, input, number, going, out,
        ),
        Act::Submits(signal) => {
            print_submission(world, tracing, reporting, leaf, signal, going, out)
        }
    }
}

// Turns of a leaf that can take one, at least one and at most so many, before which there were so many of all: those of which nothing is printed, or else one,
// which is printed. Each is a step. It returns how many there were. They allocate no host memory.
fn print_steps<W: Write>(
    world: &mut World,
    tracing: &mut Tracing,
    reporting: Reporting,
    turns: u64,
    leaf: LeafNo,
    most: u32,
    before: &mut Use,
    going: bool,
    out: &mut Counted<W>,
) -> (bool, u32)
    requires leaf { leaf < length (components world.old.scenario) }
    requires some { 0 < most }
    requires few { turns + most ≤ 18446744073709551615 }
    requires can { CanTrace world.old tracing.old }
    requires able { can_run (system world.old.scenario) world.old.world leaf ≡ true }
    requires before { IsUse world.old.scenario world.old.world leaf before.old }
    ensures some { 0 < result.1 }
    ensures few { result.1 ≤ most }
    ensures taken { while_can result.1 (system world.old.scenario) world.old.world leaf ≡ (result.1, world.new.world) }
    ensures reported { PrintsTurns 0 W.contents (turns_text (prints_all reporting) world.old.scenario (budgets_of world.old.scenario) leaf result.1)
        (after_turns (system world.old.scenario) leaf result.1) turns result.1 world.old world.new tracing.old tracing.new out.old out.new going result.0 }
    ensures after { IsUse world.new.scenario world.new.world leaf before.new }
{
    counted(world);
    world.laws();
    let silent = silent_turns(world, tracing, reporting, leaf, most);
    if silent > 0 {
        return (going, silent);
    }
    let going = print_turn(world, tracing, reporting, turns, leaf, before, going, out);
    (going, 1)
}

// Turns of a leaf as long as it can take one, at most so many, before which there were so many of all. It returns how many there were. They allocate no host
// memory.
fn report_able<W: Write>(
    world: &mut World,
    tracing: &mut Tracing,
    reporting: Reporting,
    turns: u64,
    leaf: LeafNo,
    most: u32,
    going: bool,
    out: &mut Counted<W>,
) -> (bool, u32)
    requires leaf { leaf < length (components world.old.scenario) }
    requires few { turns + most ≤ 18446744073709551615 }
    requires can { CanTrace world.old tracing.old }
    ensures few { result.1 ≤ most }
    ensures taken { while_can most (system world.old.scenario) world.old.world leaf ≡ (result.1, world.new.world) }
    ensures reported { PrintsTurns 0 W.contents (turns_text (prints_all reporting) world.old.scenario (budgets_of world.old.scenario) leaf result.1)
        (after_turns (system world.old.scenario) leaf result.1) turns result.1 world.old world.new tracing.old tracing.new out.old out.new going result.0 }
{
    counted(world);
    let mut going = going;
    let mut before = use_of(world.machine(), leaf);
    let mut done = 0;
    while done < most && world.can_run(leaf) {
        let (goes, more) = print_steps(
            world,
            tracing,
            reporting,
            turns + u64::from(done),
            leaf,
            most - done,
            &mut before,
            going,
            out,
        );
        going = goes;
        done += more;
    }
    (going, done)
}

// Turns that bring all work to rest, at most 1,000,000, before which there were so many of all. It returns how many there were. They allocate no host memory.
fn report_rest<W: Write>(
    world: &mut World,
    tracing: &mut Tracing,
    reporting: Reporting,
    turns: u64,
    going: bool,
    out: &mut Counted<W>,
) -> (bool, u32)
    requires few { turns + greatest_turns ≤ 18446744073709551615 }
    requires can { CanTrace world.old tracing.old }
    ensures few { result.1 ≤ greatest_turns }
    ensures reported { PrintsTurns 0 W.contents (all_text (prints_all reporting) world.old.scenario (budgets_of world.old.scenario)
        (as_acts (to_rest (system world.old.scenario) world.old.world).turns))
        (after_all (system world.old.scenario) (as_acts (to_rest (system world.old.scenario) world.old.world).turns)) turns result.1 world.old world.new
        tracing.old tracing.new out.old out.new going result.0 }
{
    let mut going = going;
    let mut taken = 0;
    let mut from = 0;
    while taken < GREATEST_TURNS {
        let Some(leaf) = next_able(world, from) else {
            return (going, taken);
        };
        world.laws();
        let (goes, more) = report_able(
            world,
            tracing,
            reporting,
            turns + u64::from(taken),
            leaf,
            GREATEST_TURNS - taken,
            going,
            out,
        );
        going = goes;
        taken += more;
        from = leaf.index() + 1;
    }
    (going, taken)
}

// What a line gives, before which there were so many turns of all, and how many turns that are. It allocates no host memory.
fn print_line<W: Write>(
    world: &mut World,
    tracing: &mut Tracing,
    reporting: Reporting,
    turns: u64,
    line: TurnLine,
    going: bool,
    out: &mut Counted<W>,
) -> (bool, u32)
    requires leaf { IsOf (length (components world.old.scenario)) line }
    requires few { IsFew line }
    requires turns { turns + greatest_turns ≤ 18446744073709551615 }
    requires can { CanTrace world.old tracing.old }
    requires signals { world.old.signals < greatest_lines }
    ensures few { result.1 ≤ greatest_turns }
    ensures reported { PrintsTurns 1 W.contents (line_text (prints_all reporting) world.old.scenario (budgets_of world.old.scenario) line)
        (after_line (system world.old.scenario) line) turns result.1 world.old world.new tracing.old tracing.new out.old out.new going result.0 }
{
    match line {
        TurnLine::Gives(leaf, act) => {
            let leaf = LeafNo::new(leaf);
            let going = print_act(world, tracing, reporting, turns, leaf, act, going, out);
            (going, line_turns(line))
        }
        TurnLine::Rests => report_rest(world, tracing, reporting, turns, going, out),
    }
}

// What all lines of a list give, and how many turns that are. It allocates no host memory.
fn report_all<W: Write>(
    world: &mut World,
    tracing: &mut Tracing,
    reporting: Reporting,
    turns: &[TurnItem],
    out: &mut Counted<W>,
) -> (bool, u64)
    requires leaves { AreOf (length (components world.old.scenario)) turns.now }
    requires each { AreFew turns.now }
    requires can { CanTrace world.old tracing.old }
    requires signals { world.old.signals + length turns.now ≤ greatest_lines }
    ensures { PrintsTurns (length turns.now) W.contents
        (lines_text (prints_all reporting) world.old.scenario (budgets_of world.old.scenario) turns.now) (after_lines (system world.old.scenario) turns.now)
        0 result.1 world.old world.new tracing.old tracing.new out.old out.new true result.0 }
{
    let mut going = true;
    let mut taken = 0;
    for item in turns {
        let (goes, more) = print_line(world, tracing, reporting, taken, item.line(), going, out);
        going = goes;
        taken += u64::from(more);
    }
    (going, taken)
}

// Writes how many turns there were.
fn write_end<W: Write>(turns: u64, going: bool, out: &mut Counted<W>) -> bool
    ensures { Goes W.contents out.old out.new going result (codes "end after " ++ decimal turns ++ codes " turns\n") }
{
    let mut line = ArrayVec::new();
    extend_entry(&mut line, b"end after", turns);
    extend(&mut line, b" turns\n");
    write_on(out, going, line.as_slice())
}

/// What the lines of a text give, of turns of the leaves of a world.
pub(crate) fn turns_of(
    alloc: Global,
    world: &World,
    turns: &[u8],
) -> Result<Vec<TurnItem>, RunFault<'static>>
    ensures read { IfOk result (λ t. listed world.now.scenario turns.now ≡ Ok t.items) }
    ensures refused { IfErr result (λ f. IsTurnsFault f (listed world.now.scenario turns.now)) }
{
    match read_turns(alloc, turns, world.table()) {
        Ok(turns) => Ok(turns),
        Err(TurnsError::Memory(_)) => Err(RunFault::Memory),
        Err(TurnsError::Fault { fault, line }) => Err(RunFault::Turns { fault, line }),
    }
}

// Takes what all lines of a list give from the start of a world, and writes what that did and then the accounts of all nodes.
fn write_trace<W: Write>(
    world: &mut World,
    tracing: &mut Tracing,
    reporting: Reporting,
    turns: &[TurnItem],
    out: &mut Counted<W>,
) -> Result<(), RunFault<'static>>
    requires leaves { AreOf (length (components world.old.scenario)) turns.now }
    requires each { AreFew turns.now }
    requires can { CanTrace world.old tracing.old }
    requires signals { world.old.signals + length turns.now ≤ greatest_lines }
    requires on { IsOn tracing.old.programs.items tracing.old.aheads.items world.old 0 (start_traced (system world.old.scenario)) }
    ensures { WritesAs W.contents (Ok (trace_text (prints_all reporting) world.old.scenario
        (acts_along (system world.old.scenario) turns.now (start_traced (system world.old.scenario))))) out.old out.new result }
{
    let (going, taken) = report_all(world, tracing, reporting, turns, out);
    let going = write_end(taken, going, out);
    if !going {
        return Err(RunFault::Write);
    }
    counted(world);
    match write_accounts(world.machine(), world.budgets(), out) {
        Ok(()) => Ok(()),
        Err(_) => Err(RunFault::Write),
    }
}

// Reads turns, settings and signals, takes all of them from the start of a world, and writes what they did.
fn trace_world<W: Write>(
    alloc: Global,
    world: &mut World,
    turns: &[u8],
    reporting: Reporting,
    out: &mut Counted<W>,
) -> Result<(), RunFault<'static>>
    requires start { world.old.world ≡ start (system world.old.scenario) }
    requires running { world.old.stopped ≡ false }
    requires signals { world.old.signals ≡ 0 }
    requires same { (turns : Acts) → (after_all (system world.old.scenario) turns (start_traced (system world.old.scenario))).world
        ≡ (run (system world.old.scenario) turns).world }
    ensures { WritesAs W.contents (trace_from (prints_all reporting) world.old.scenario turns.now) out.old out.new result }
{
    let turns = turns_of(alloc, world, turns)?;
    let mut tracing = Tracing::new(alloc, world)?;
    write_trace(world, &mut tracing, reporting, turns.as_slice(), out)
}

/// Writes what each turn of a run did, then how many turns there were, and the accounts of all nodes.
///
/// - A step has a line with the number of its turn, its leaf and its place in the text of the program.
/// - Below it stand the line that it writes, the account of each node that it changes in anything but its steps, and each session that it changes.
/// - A step of which there is nothing of this is printed if all are asked for.
/// - A setting of an input has a line if it changes the value, and a submitted signal if it was not submitted yet, or if all are asked for. Both are no turns.
/// - Turns of a line `rest` are counted and reported as others.
///
/// If the scenario or the turns are refused, or the host refuses memory, nothing is written; turns need none. After a failed write a prefix of the text was
/// written.
pub fn trace<W: Write>(
    alloc: Global,
    scenario: &[u8],
    turns: &[u8],
    reporting: Reporting,
    out: &mut Counted<W>,
) -> Result<(), RunFault<'static>>
    ensures { WritesAs W.contents (trace_written (prints_all reporting) scenario.now turns.now) out.old out.new result }
{
    place_laws();
    let mut world = World::load(alloc, scenario)?;
    let traced = trace_world(alloc, &mut world, turns, reporting, out);
    world.end();
    traced
}
