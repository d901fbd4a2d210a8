// What is reported of a session.
ghost use Rattle.std.specs.Prelude.{◌≡◌, ◌<◌, ◌≤◌, ◌+◌, ◌++◌, Some, codes, decimal, length, option_map, slice_get};
ghost use Rattle.gq_machine.specs.Readers.{IsReportedOf, request_of};
ghost use Rattle.gq_model.specs.machine.Run.{label_at};
ghost use Rattle.gq_model.specs.machine.Sections.{same_section};
ghost use Rattle.gq_model.specs.machine.Scenario.{components, system};
ghost use Rattle.gq_traces.specs.Trace.{at_server, leaf_label, parties_text, request_in, requested_text, same_requested, same_printed, session_line};
ghost use Rattle.gq_model.specs.machine.Amounts.{same_amount};
ghost use Rattle.gq_traces.specs.internal.Noted.{AreKnown, IsKnown, IsReported, seen_session, service_at};

use crate::line_parts::{TraceLine, extend, extend_amount, extend_entry, extend_section};
use arrayvec::ArrayVec;
use gq_init::NodeTable;
use gq_machine::machine::Machine;
use gq_machine::world_reads::SessionState;
use gq_model::section::{Section, same_section};
use gq_model::spelling::same_text;
use gq_scenario::scenario::LeafNo;
use gq_tariff::Amount;

/// The request of a session.
#[derive(Clone, Copy, PartialEq, Eq)]
pub enum Requested {
    /// There is none.
    Nothing,
    /// It waits for its server, to start this section.
    Waits(Section),
    /// Its server is in this section for it.
    AtHand(Section),
}

/// What is reported of a session: client and server, the number of the interface of its service, its level, what was given for it, and its request.
#[derive(Clone, Copy)]
pub(crate) struct PrintedSession {
    pub client: usize,
    pub server: usize,
    pub service: usize,
    pub level: u8,
    pub donation: Amount,
    pub requested: Requested,
}

// The request of a session that this leaf has at hand, if it has one.
fn at_hand(machine: &Machine, session: usize, server: LeafNo) -> Requested
    requires leaf { server < length (components machine.now.scenario) }
    requires leaves { length machine.now.world.leaves ≡ length (components machine.now.scenario) }
    ensures { result ≡ at_server session (slice_get machine.now.world.leaves server) }
{
    match machine.current(server) {
        None => Requested::Nothing,
        Some(current) => {
            if current.session == session {
                Requested::AtHand(current.section)
            } else {
                Requested::Nothing
            }
        }
    }
}

// The request of a session that this leaf serves.
fn request_at(machine: &Machine, session: usize, server: LeafNo) -> Requested
    requires leaf { server < length (components machine.now.scenario) }
    requires leaves { length machine.now.world.leaves ≡ length (components machine.now.scenario) }
    ensures { result ≡ request_in machine.now.world session server (request_of session machine.now.world.requests) }
{
    match machine.request_of(session) {
        Some(asked) => Requested::Waits(asked.section),
        None => at_hand(machine, session, server),
    }
}

/// What is reported of the session of a number, if there is one.
pub(crate) fn printed_session(machine: &Machine, session: usize) -> Option<PrintedSession>
    requires { length machine.now.world.leaves ≡ length (components machine.now.scenario) }
    ensures { IsReported machine.now.scenario machine.now.world session result }
{
    let _leaves = machine.table().leaf_count();
    match machine.session(session) {
        None => None,
        Some(state) => Some(reported_of(machine, session, &state)),
    }
}

// What is reported of a session by its state.
fn reported_of(machine: &Machine, session: usize, state: &SessionState) -> PrintedSession
    requires leaves { length machine.now.world.leaves ≡ length (components machine.now.scenario) }
    requires state { IsReportedOf machine.now session state.now }
    ensures { IsReported machine.now.scenario machine.now.world session (Some result) }
{
    let _leaves = machine.table().leaf_count();
    PrintedSession {
        client: state.client,
        server: state.server,
        service: state.service,
        level: state.level,
        donation: state.donation,
        requested: request_at(machine, session, LeafNo::new(state.server as u32)),
    }
}

/// The label of a leaf.
pub(crate) fn label_of(table: &NodeTable, leaf: LeafNo) -> &[u8]
    requires { leaf < length (components table.now) }
    ensures label { result.now ≡ label_at (slice_get (components table.now) leaf) }
    ensures short { length result.now ≤ 96 }
{
    table.label(table.node(leaf))
}

// The label of the leaf of this number.
pub(crate) fn leaf_label(table: &NodeTable, leaf: usize) -> &[u8]
    requires { leaf < length (components table.now) }
    ensures label { result.now ≡ leaf_label (system table.now) leaf }
    ensures short { length result.now ≤ 96 }
{
    let _leaves = table.leaf_count();
    label_of(table, LeafNo::new(leaf as u32))
}

// The name of a service, by the number of its interface.
pub(crate) fn service_name(table: &NodeTable, service: usize) -> &[u8]
    requires { service < length table.now.interfaces }
    ensures name { result.now ≡ service_at table.now service }
    ensures short { length result.now ≤ 16 }
{
    let (name, _interface) = &table.scenario().interfaces().entries()[service];
    name.as_bytes()
}

// Puts the request of a session at the end of a line, if it has one.
pub(crate) fn extend_request(line: &mut TraceLine, requested: Requested)
    requires { length line.old.items + 36 ≤ 400 }
    ensures bytes { line.new.items ≡ line.old.items ++ requested_text requested }
    ensures long { length line.new.items ≤ length line.old.items + 36 }
{
    match requested {
        Requested::Nothing => (),
        Requested::Waits(section) => {
            extend(line, b", ");
            extend_section(line, section);
            extend(line, b" waits");
        }
        Requested::AtHand(section) => {
            extend(line, b", ");
            extend_section(line, section);
            extend(line, b" at hand");
        }
    }
}

// Puts who has a session at the end of a line: its service, its server and its client.
fn extend_parties(line: &mut TraceLine, table: &NodeTable, reported: &PrintedSession)
    requires known { IsKnown table.now reported.now }
    requires short { length line.old.items ≤ 40 }
    ensures bytes { line.new.items ≡ line.old.items ++ parties_text (system table.now) (seen_session table.now reported.now) }
    ensures long { length line.new.items ≤ 260 }
{
    extend(line, service_name(table, reported.service));
    extend(line, b" of ");
    extend(line, leaf_label(table, reported.server));
    extend(line, b" for ");
    extend(line, leaf_label(table, reported.client));
}

// The line of a session that is there.
fn open_line(table: &NodeTable, session: usize, reported: &PrintedSession) -> TraceLine
    requires known { IsKnown table.now reported.now }
    ensures { result.items ≡ session_line table.now.version (system table.now) session (Some (seen_session table.now reported.now)) }
{
    let mut line = ArrayVec::new();
    extend_entry(&mut line, b"session", session as u64);
    extend(&mut line, b" ");
    extend_parties(&mut line, table, reported);
    extend_entry(&mut line, b" at level", u64::from(reported.level));
    extend(&mut line, b" ");
    extend_amount(
        &mut line,
        table.scenario().version(),
        b"lends",
        reported.donation,
    );
    extend_request(&mut line, reported.requested);
    extend(&mut line, b"\n");
    line
}

// The line of a session that is gone.
fn end_line(session: usize) -> TraceLine
    ensures { result.items ≡ codes "session " ++ decimal session ++ codes " ends\n" }
{
    let mut line = ArrayVec::new();
    extend_entry(&mut line, b"session", session as u64);
    extend(&mut line, b" ends\n");
    line
}

/// The line of a session by what is reported of it: where that is nothing, that it ends.
pub(crate) fn session_line(
    table: &NodeTable,
    session: usize,
    reported: &Option<PrintedSession>,
) -> TraceLine
    requires known { AreKnown table.now reported.now }
    ensures { result.items ≡ session_line table.now.version (system table.now) session (option_map (seen_session table.now) reported.now) }
{
    match reported {
        Some(reported) => open_line(table, session, reported),
        None => end_line(session),
    }
}

// Whether two amounts are one.
pub(crate) fn same_amount(a: Amount, b: Amount) -> bool
    ensures { result ≡ same_amount a b }
{
    a.ram == b.ram && a.caps == b.caps
}

// Whether two requests are one.
fn same_requested(a: Requested, b: Requested) -> bool
    ensures { result ≡ same_requested a b }
{
    match (a, b) {
        (Requested::Nothing, Requested::Nothing) => true,
        (Requested::Waits(a), Requested::Waits(b)) => same_section(a, b),
        (Requested::AtHand(a), Requested::AtHand(b)) => same_section(a, b),
        _ => false,
    }
}

// Whether the same is reported of two sessions that are there.
fn same_session(table: &NodeTable, a: &PrintedSession, b: &PrintedSession) -> bool
    requires known { IsKnown table.now a.now × IsKnown table.now b.now }
    ensures { result ≡ same_printed (Some (seen_session table.now a.now)) (Some (seen_session table.now b.now)) }
{
    a.client == b.client
        && a.server == b.server
        && same_text(
            service_name(table, a.service),
            service_name(table, b.service),
        )
        && a.level == b.level
        && same_amount(a.donation, b.donation)
        && same_requested(a.requested, b.requested)
}

/// Whether the same is reported of two sessions.
pub(crate) fn same_printed(
    table: &NodeTable,
    a: &Option<PrintedSession>,
    b: &Option<PrintedSession>,
) -> bool
    requires known { AreKnown table.now a.now × AreKnown table.now b.now }
    ensures { result ≡ same_printed (option_map (seen_session table.now) a.now) (option_map (seen_session table.now) b.now) }
{
    match (a, b) {
        (None, None) => true,
        (Some(a), Some(b)) => same_session(table, a, b),
        _ => false,
    }
}
