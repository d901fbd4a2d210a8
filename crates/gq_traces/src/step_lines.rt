// What is reported of a step.
ghost use Rattle.std.specs.Prelude.{◌≡◌, ℕ, ◌<◌, ◌≤◌, if◌then◌else◌, List, [], None, get_or, length, slice_get, true, false};
ghost use Rattle.gq_model.specs.machine.Scenario.{components};
ghost use Rattle.gq_model.specs.machine.Run.{line_of, label_at};
ghost use Rattle.gq_model.specs.machine.World as model;
ghost use Rattle.gq_machine.specs.Events.{event_of};
ghost use Rattle.gq_world.specs.World_between_turns as worlds;
ghost use Rattle.gq_traces.specs.Trace.{same_phase};
ghost use Rattle.gq_model.specs.machine.Amounts.{same_amount};
ghost use Rattle.gq_resolve.specs.NodeTables.{node_rows};
ghost use Rattle.gq_world.specs.Account_lines.{all_accounts};
ghost use Rattle.gq_traces.specs.internal.Noted.{AreKnown, AreNoted, SessionsNoted, WasNoted};
ghost use Rattle.gq_traces.specs.Traces_written.{prints_all};
ghost use Rattle.gq_traces.specs.internal.Printed_steps.{Goes, IsTaken, Reports, PrintsAccounts, PrintsChanges, PrintsNode, PrintsOwn, PrintsSession};
ghost use Rattle.gq_traces.specs.internal.Printed_steps.{PrintsSessions};
ghost use Rattle.gq_traces.specs.internal.Printed_steps.{PrintsStep, head_prefix, head_text, statement_text};

use crate::line_parts::{TraceLine, extend, extend_entry, extend_place};
use crate::noted::{PrintedState, Use, counted, same_account, same_phase, use_of};
use crate::session_lines::{label_of, printed_session, same_amount, same_printed, session_line};
use crate::step_output::{Progress, Reporting, write_on};
use crate::tracker::{Due, TrackedStatement};
use arrayvec::ArrayVec;
use gq_init::NodeTable;
use gq_machine::event::Event;
use gq_output::account_line::account_line;
use gq_output::counted::Counted;
use gq_output::leaf_line::text_line;
use gq_scenario::node_numbers::NodeNo;
use gq_scenario::scenario::LeafNo;
use gq_world::world::World;
use std::io::Write;

/// What the first line of a step reports: the number of its turn, its leaf and its place.
#[derive(Clone, Copy)]
pub(crate) struct Head<'a> {
    pub turn: u64,
    pub leaf: LeafNo,
    pub due: Due<'a>,
}

/// What was read of a step that was taken: what its leaf held and did before it and after it, and what it showed.
#[derive(Clone, Copy)]
pub(crate) struct Taken {
    pub before: Use,
    pub after: Use,
    pub event: Event,
}

// The first line of a step, up to its statement.
fn head_line(table: &NodeTable, head: &Head<'_>) -> TraceLine
    requires { head.now.leaf < length (components table.now) }
    ensures { result.items ≡ head_prefix table.now head.now }
{
    let mut line = ArrayVec::new();
    extend_entry(&mut line, b"turn", head.turn);
    extend(&mut line, b" ");
    extend(&mut line, label_of(table, head.leaf));
    extend(&mut line, b" ");
    extend_place(&mut line, head.due.section, head.due.number);
    line
}

// Writes the statement of a place, behind a blank.
pub(crate) fn write_statement<W: Write>(
    statement: TrackedStatement<'_>,
    going: bool,
    out: &mut Counted<W>,
) -> bool
    ensures { Goes W.contents out.old out.new going result (statement_text statement.entry) }
{
    match statement {
        TrackedStatement::Nothing => going,
        TrackedStatement::Plain(text) => {
            let going = write_on(out, going, b" ");
            write_on(out, going, text)
        }
        TrackedStatement::If => write_on(out, going, b" if"),
        TrackedStatement::Loop(count) => {
            let mut line = ArrayVec::new();
            extend_entry(&mut line, b" loop", u64::from(count));
            write_on(out, going, line.as_slice())
        }
    }
}

// Writes the first line of a step.
#[inline(never)]
fn write_head<W: Write>(
    table: &NodeTable,
    head: &Head<'_>,
    going: bool,
    out: &mut Counted<W>,
) -> bool
    requires { head.now.leaf < length (components table.now) }
    ensures { Goes W.contents out.old out.new going result (head_text table.now head.now) }
{
    let line = head_line(table, head);
    let going = write_on(out, going, line.as_slice());
    let going = write_statement(head.due.statement, going, out);
    write_on(out, going, b"\n")
}

// Writes the first line of a step where all are reported.
fn begin<W: Write>(
    table: &NodeTable,
    reporting: Reporting,
    head: &Head<'_>,
    going: bool,
    out: &mut Counted<W>,
) -> Progress
    requires { head.now.leaf < length (components table.now) }
    ensures begun { result.begun ≡ prints_all reporting }
    ensures goes { Goes W.contents out.old out.new going result.going (if prints_all reporting then head_text table.now head.now else []) }
{
    match reporting {
        Reporting::Changes => Progress {
            going,
            begun: false,
        },
        Reporting::All => Progress {
            going: write_head(table, head, going, out),
            begun: true,
        },
    }
}

// Writes a line of a step, and before it the first line, if that was not written.
fn report<W: Write>(
    table: &NodeTable,
    head: &Head<'_>,
    progress: Progress,
    line: &[u8],
    out: &mut Counted<W>,
) -> Progress
    requires leaf { head.now.leaf < length (components table.now) }
    requires some { 0 < length line.now }
    ensures { Reports W.contents out.old out.new progress result (head_text table.now head.now) line.now }
{
    if progress.begun {
        return Progress {
            going: write_on(out, progress.going, line),
            begun: true,
        };
    }
    let going = write_head(table, head, progress.going, out);
    Progress {
        going: write_on(out, going, line),
        begun: true,
    }
}

// Reports the line that a step gave.
#[inline(never)]
fn report_line<W: Write>(
    table: &NodeTable,
    head: &Head<'_>,
    progress: Progress,
    event: Event,
    text: &ArrayVec<u8, 64>,
    out: &mut Counted<W>,
) -> Progress
    requires leaf { head.now.leaf < length (components table.now) }
    ensures { Reports W.contents out.old out.new progress result (head_text table.now head.now)
        (line_of (label_at (slice_get (components table.now) head.now.leaf)) (event_of event text.now.items)) }
{
    match event {
        Event::Line => {
            let line = text_line(label_of(table, head.leaf), text.as_slice());
            report(table, head, progress, line.as_slice(), out)
        }
        Event::Idle | Event::Quiet | Event::Finished => progress,
    }
}

// Reports the account of a node, if it stands otherwise than it was noted, and notes it anew.
fn print_account<W: Write>(
    world: &World,
    head: &Head<'_>,
    progress: Progress,
    node: NodeNo,
    notes: &mut PrintedState,
    out: &mut Counted<W>,
) -> Progress
    requires leaf { head.now.leaf < length (components world.now.scenario) }
    requires leaves { length world.now.world.leaves ≡ length (components world.now.scenario) }
    requires node { node < length (node_rows world.now.scenario) }
    requires noted { node < length notes.old.accounts.items }
    ensures { PrintsNode W.contents world.now node notes.old notes.new out.old out.new progress result head.now }
{
    let account = world.account(node);
    if same_account(&notes.accounts[node.index()], &account) {
        return progress;
    }
    let table = world.table();
    let line = account_line(table.scenario().version(), table.label(node), &account);
    notes.accounts[node.index()] = account;
    report(table, head, progress, line.as_slice(), out)
}

// Reports the accounts of all nodes that stand otherwise than they were noted, and notes them anew.
fn print_accounts<W: Write>(
    world: &World,
    head: &Head<'_>,
    progress: Progress,
    notes: &mut PrintedState,
    out: &mut Counted<W>,
) -> Progress
    requires leaf { head.now.leaf < length (components world.now.scenario) }
    requires leaves { length world.now.world.leaves ≡ length (components world.now.scenario) }
    requires noted { length notes.old.accounts.items ≡ length (all_accounts world.now) }
    ensures { PrintsAccounts W.contents world.now notes.old notes.new out.old out.new progress result head.now }
{
    let mut progress = progress;
    for number in 0..world.nodes() {
        let node = NodeNo::new(number as u32);
        progress = print_account(world, head, progress, node, notes, out);
    }
    progress
}

// Reports a session, if it is new, gone or another one than was noted, and notes it anew.
fn print_session<W: Write>(
    world: &World,
    head: &Head<'_>,
    progress: Progress,
    session: usize,
    notes: &mut PrintedState,
    out: &mut Counted<W>,
) -> Progress
    requires leaf { head.now.leaf < length (components world.now.scenario) }
    requires leaves { length world.now.world.leaves ≡ length (components world.now.scenario) }
    requires session { session < 16449 }
    requires room { length notes.old.sessions.items ≡ 16449 }
    requires known { AreKnown world.now.scenario (get_or notes.old.sessions.items session None) }
    ensures { PrintsSession W.contents world.now session notes.old notes.new out.old out.new progress result head.now }
{
    let table = world.table();
    let reported = printed_session(world.machine(), session);
    if same_printed(table, &notes.sessions[session], &reported) {
        return progress;
    }
    notes.sessions[session] = reported;
    let line = session_line(table, session, &reported);
    report(table, head, progress, line.as_slice(), out)
}

// Reports all sessions that are new, gone or others than were noted, and notes them anew.
fn print_sessions<W: Write>(
    world: &World,
    head: &Head<'_>,
    progress: Progress,
    notes: &mut PrintedState,
    out: &mut Counted<W>,
) -> Progress
    requires leaf { head.now.leaf < length (components world.now.scenario) }
    requires leaves { length world.now.world.leaves ≡ length (components world.now.scenario) }
    requires room { length notes.old.sessions.items ≡ 16449 }
    requires count { notes.old.count ≤ 16449 }
    requires known { (k : ℕ) → k < 16449 → AreKnown world.now.scenario (get_or notes.old.sessions.items k None) }
    ensures { (old : model.World) → SessionsNoted world.now.scenario old notes.old
        → PrintsSessions W.contents old world.now notes.old notes.new out.old out.new progress result head.now }
{
    let mut progress = progress;
    let now = world.machine().session_count();
    let count = now.max(notes.count);
    for session in 0..count {
        progress = print_session(world, head, progress, session, notes, out);
    }
    notes.count = now;
    progress
}

// Reports the account of the leaf of the step, if it stands otherwise than it was noted, and notes it anew.
fn report_own<W: Write>(
    world: &World,
    head: &Head<'_>,
    progress: Progress,
    notes: &mut PrintedState,
    out: &mut Counted<W>,
) -> Progress
    requires leaf { head.now.leaf < length (components world.now.scenario) }
    requires leaves { length world.now.world.leaves ≡ length (components world.now.scenario) }
    requires noted { length notes.old.accounts.items ≡ length (all_accounts world.now) }
    ensures { PrintsOwn W.contents world.now notes.old notes.new out.old out.new progress result head.now }
{
    counted(world);
    let node = world.table().node(head.leaf);
    print_account(world, head, progress, node, notes, out)
}

/// Reports what a step that was taken changes of what was noted; then that is noted anew. A step that leaves its leaf in its phase changes no session, and of
/// the accounts that of the leaf alone, where it holds more or less than before.
#[inline(never)]
pub(crate) fn print_taken<W: Write>(
    world: &World,
    notes: &mut PrintedState,
    head: &Head<'_>,
    taken: Taken,
    text: &ArrayVec<u8, 64>,
    progress: Progress,
    out: &mut Counted<W>,
) -> Progress
    requires leaf { head.now.leaf < length (components world.now.scenario) }
    requires leaves { length world.now.world.leaves ≡ length (components world.now.scenario) }
    requires noted { WasNoted world.now notes.old }
    ensures { (old : worlds.World) → IsTaken old world.now head.now.leaf taken text.now.items → AreNoted old.scenario old.world notes.old
        → PrintsChanges W.contents old world.now notes.new out.old out.new progress result head.now (event_of taken.event text.now.items) }
{
    let before = taken.before;
    let after = taken.after;
    let progress = report_line(world.table(), head, progress, taken.event, text, out);
    if same_phase(before.phase, after.phase) {
        if same_amount(before.used, after.used) {
            return progress;
        }
        return report_own(world, head, progress, notes, out);
    }
    let progress = print_accounts(world, head, progress, notes, out);
    print_sessions(world, head, progress, notes, out)
}

/// Takes the step of this head, and reports what it changes of what was noted; then that is noted anew.
#[inline(never)]
pub(crate) fn print_step<W: Write>(
    world: &mut World,
    notes: &mut PrintedState,
    head: &Head<'_>,
    reporting: Reporting,
    going: bool,
    out: &mut Counted<W>,
) -> bool
    requires leaf { head.now.leaf < length (components world.old.scenario) }
    requires noted { AreNoted world.old.scenario world.old.world notes.old }
    requires running { world.old.stopped ≡ false }
    ensures { PrintsStep W.contents reporting world.old world.new notes.new out.old out.new going result head.now }
{
    counted(world);
    let before = use_of(world.machine(), head.leaf);
    let progress = begin(world.table(), reporting, head, going, out);
    let mut text = ArrayVec::new();
    let event = world.step(head.leaf, &mut text);
    counted(world);
    let after = use_of(world.machine(), head.leaf);
    let taken = Taken {
        before,
        after,
        event,
    };
    print_taken(world, notes, head, taken, &text, progress, out).going
}

/// Whether a step shows no line, and leaves its leaf in its phase with what it holds: then nothing is reported of it but its first line.
#[inline(always)]
pub(crate) fn is_silent(event: Event, before: &Use, after: &Use) -> bool
    ensures line { (label text : List ℕ) → result ≡ true → line_of label (event_of event text) ≡ [] }
    ensures phase { result ≡ true → same_phase before.now.phase after.now.phase ≡ true }
    ensures used { result ≡ true → same_amount before.now.used after.now.used ≡ true }
{
    match event {
        Event::Line => false,
        Event::Idle | Event::Quiet | Event::Finished => {
            same_phase(before.phase, after.phase) && same_amount(before.used, after.used)
        }
    }
}
