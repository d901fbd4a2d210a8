// What the account of a leaf is made of, item by item.
ghost use Rattle.std.specs.Prelude.{◌≡◌, ◌<◌, ◌≤◌, ◌+◌, ◌*◌, ◌++◌, ◌∷◌, [], IfSome, Some, length, slice_get, codes, decimal};
ghost use Rattle.gq_tariff.specs.Prices.{class_size, classes};
ghost use Rattle.gq_heap.specs.Classes.{index_of};
ghost use Rattle.gq_model.specs.machine.Resource_prices.{chunks, price_pool};
ghost use Rattle.gq_model.specs.machine.Scenario.{components, system};
ghost use Rattle.gq_model.specs.machine.World as world;
ghost use Rattle.gq_scenario.specs.Component_trees.{version_number};
ghost use Rattle.gq_trade.specs.Seen_sessions.{slot_id_seen};
ghost use Rattle.gq_machine.specs.Readers.{HasSlotId, IsReportedOf};
ghost use Rattle.gq_views.specs.Listing.{indent, line, place_text};
ghost use Rattle.gq_traces.specs.Account_state.{amount_by, bank_items, depth_of, form_text, items_text, lent_items, place_items, places_items, price};
ghost use Rattle.gq_traces.specs.Account_state.{received_items};
ghost use Rattle.gq_traces.specs.Account_state.{service_text, session_items, sessions_items, slot_items, slots_items};
ghost use Rattle.gq_traces.specs.declared.items.SlotRow.TheVariants as bank;
ghost use Rattle.gq_traces.specs.Trace.{amount_text, leaf_label, requested_text};
ghost use Rattle.gq_traces.specs.internal.Slot_items.{HasBank, IsStanding, Prints_items, bank_place, bank_size, bank_slots, bank_slot_id, holding_items};
ghost use Rattle.gq_traces.specs.internal.Noted.{IsKnown, service_at};
ghost use Rattle.gq_traces.specs.internal.Printed_steps.{Goes};

use crate::line_parts::{TraceLine, extend, extend_amount, extend_entry, extend_number};
use crate::session_lines::{
    PrintedSession, extend_request, leaf_label, printed_session, service_name,
};
use crate::step_output::write_on;
use arrayvec::ArrayVec;
use gq_init::NodeTable;
use gq_machine::machine::Machine;
use gq_machine::world_reads::{Holding, SessionState};
use gq_model::limits::{OWN_SLOTS, SESSION_SLOTS};
use gq_model::program::{Form, OperandSlot};
use gq_output::counted::Counted;
use gq_scenario::scenario::{LeafNo, Version};
use gq_tariff::{
    Amount, Class, Held, price_block, price_caps, price_class, price_pool_table, price_slice,
    round_up,
};
use gq_trade::SlotId;
use std::io::Write;

/// Slots that stand one after the other: those of a leaf's own, or those of a session.
#[derive(Clone, Copy)]
pub(crate) enum SlotRow {
    OfLeaf(usize),
    OfSession(usize),
}

impl SlotRow {
    // How many there are.
    fn count(self) -> usize
        ensures size { result ≡ bank_size self }
        ensures few { result ≤ 64 }
    {
        match self {
            SlotRow::OfLeaf(_) => OWN_SLOTS,
            SlotRow::OfSession(_) => SESSION_SLOTS,
        }
    }

    // Where one of them stands.
    fn slot_id(self, slot: u8) -> SlotId
        ensures { result ≡ bank_slot_id self slot }
    {
        match self {
            SlotRow::OfLeaf(leaf) => SlotId::InLeaf(leaf, slot),
            SlotRow::OfSession(session) => SlotId::InSession(session, slot),
        }
    }

    // What one of them is called.
    fn place(self, slot: u8) -> OperandSlot
        ensures { result ≡ bank_place self slot }
    {
        match self {
            SlotRow::OfLeaf(_) => OperandSlot::Own(slot),
            SlotRow::OfSession(_) => OperandSlot::Shared(slot),
        }
    }
}

// LINES

// The blanks before the line of a slot.
fn indent_of(place: OperandSlot) -> &'static [u8]
    ensures blanks { result.now ≡ indent (depth_of place) }
    ensures few { length result.now ≤ 4 }
{
    match place {
        OperandSlot::Own(_) => b"  ",
        OperandSlot::Shared(_) | OperandSlot::Object => b"    ",
    }
}

// A line of a word and an amount, behind these blanks, and the rest behind them.
fn amount_line(
    version: Version,
    blanks: &[u8],
    word: &[u8],
    amount: Amount,
    rest: &[u8],
) -> TraceLine
    requires blanks { length blanks.now ≤ 4 }
    requires word { length word.now ≤ 8 }
    requires rest { length rest.now ≤ 300 }
    ensures { result.items ≡ blanks.now ++ amount_text (version_number version) word.now amount ++ rest.now ++ 10 ∷ [] }
{
    let mut line = ArrayVec::new();
    extend(&mut line, blanks);
    extend_amount(&mut line, version, word, amount);
    extend(&mut line, rest);
    extend(&mut line, b"\n");
    line
}

/// Writes a line of a word and an amount, behind blanks and before the rest, where no write has failed. It returns whether none has failed yet.
pub(crate) fn write_amount<W: Write>(
    table: &NodeTable,
    blanks: &[u8],
    word: &[u8],
    amount: Amount,
    rest: &[u8],
    going: bool,
    out: &mut Counted<W>,
) -> bool
    requires blanks { length blanks.now ≤ 4 }
    requires word { length word.now ≤ 8 }
    requires rest { length rest.now ≤ 300 }
    ensures { Goes W.contents out.old out.new going result (blanks.now ++ amount_text table.now.version word.now amount ++ rest.now ++ 10 ∷ []) }
{
    let line = amount_line(table.scenario().version(), blanks, word, amount, rest);
    write_on(out, going, line.as_slice())
}

// Puts the name of a slot at the end of a line.
fn extend_name(line: &mut TraceLine, place: OperandSlot)
    requires { length line.old.items ≤ 200 }
    ensures bytes { line.new.items ≡ line.old.items ++ place_text place }
    ensures long { length line.new.items ≤ length line.old.items + 23 }
{
    match place {
        OperandSlot::Own(slot) => {
            extend(line, b"o");
            extend_number(line, u64::from(slot));
        }
        OperandSlot::Shared(slot) => {
            extend(line, b"s");
            extend_number(line, u64::from(slot));
        }
        OperandSlot::Object => extend(line, b"obj"),
    }
}

// Puts a form of memory at the end of a line.
fn extend_form(line: &mut TraceLine, form: Form)
    requires { length line.old.items ≤ 250 }
    ensures bytes { line.new.items ≡ line.old.items ++ form_text form }
    ensures long { length line.new.items ≤ length line.old.items + 7 }
{
    match form {
        Form::Block => extend(line, b" block "),
        Form::Slice => extend(line, b" slice "),
        Form::Space => extend(line, b" space "),
    }
}

// Puts a service, and the level of a session with it, at the end of a line.
fn extend_service(line: &mut TraceLine, table: &NodeTable, service: usize, level: u8)
    requires service { service < length table.now.interfaces }
    requires short { length line.old.items ≤ 200 }
    ensures bytes { line.new.items ≡ line.old.items ++ service_text (service_at table.now service) level }
    ensures long { length line.new.items ≤ length line.old.items + 50 }
{
    extend(line, service_name(table, service));
    extend_entry(line, b" at level", u64::from(level));
}

// SLOTS

// What memory of a form costs, of so many bytes.
fn memory_price(form: Form, bytes: u32) -> Amount
    ensures { result ≡ price (world.Bytes form bytes []) }
{
    let size = u64::from(bytes);
    match form {
        Form::Block => Amount {
            ram: price_block(size),
            caps: price_caps(Held::Block(size)),
        },
        Form::Slice => Amount {
            ram: price_slice(size),
            caps: price_caps(Held::Slice(size)),
        },
        Form::Space => Amount {
            ram: round_up(size),
            caps: price_caps(Held::Space(size)),
        },
    }
}

// What the table of a pool of so many entries costs.
fn pool_price(entries: u32) -> Amount
    ensures { result ≡ amount_by (λ r. price_pool r entries) }
{
    let count = u64::from(entries);
    Amount {
        ram: price_pool_table(count),
        caps: price_caps(Held::Pool(count)),
    }
}

// What is reported of memory behind its price.
fn memory_rest(place: OperandSlot, form: Form, bytes: u32) -> TraceLine
    ensures bytes { result.items ≡ codes ": " ++ place_text place ++ form_text form ++ decimal bytes }
    ensures short { length result.items ≤ 60 }
{
    let mut line = ArrayVec::new();
    extend(&mut line, b": ");
    extend_name(&mut line, place);
    extend_form(&mut line, form);
    extend_number(&mut line, u64::from(bytes));
    line
}

// What is reported of a pool behind its price.
fn pool_rest(place: OperandSlot, size: u32, count: u32) -> TraceLine
    ensures bytes { result.items ≡ codes ": " ++ place_text place ++ codes " pool " ++ decimal size ++ codes " " ++ decimal count }
    ensures short { length result.items ≤ 90 }
{
    let mut line = ArrayVec::new();
    extend(&mut line, b": ");
    extend_name(&mut line, place);
    extend_entry(&mut line, b" pool", u64::from(size));
    extend(&mut line, b" ");
    extend_number(&mut line, u64::from(count));
    line
}

// What is reported of a session behind what is lent with it.
fn lent_rest(table: &NodeTable, place: OperandSlot, reported: &PrintedSession) -> TraceLine
    requires { IsKnown table.now reported.now }
    ensures bytes { result.items ≡ codes " to " ++ leaf_label (system table.now) reported.now.server ++ codes ": " ++ place_text place ++ codes " "
        ++ service_text (service_at table.now reported.now.service) reported.now.level ++ requested_text reported.now.requested }
    ensures short { length result.items ≤ 300 }
{
    let mut line = ArrayVec::new();
    extend(&mut line, b" to ");
    extend(&mut line, leaf_label(table, reported.server));
    extend(&mut line, b": ");
    extend_name(&mut line, place);
    extend(&mut line, b" ");
    extend_service(&mut line, table, reported.service, reported.level);
    extend_request(&mut line, reported.requested);
    line
}

// Reports what is lent with a session, if it is there, that this slot leads to or waits for.
fn write_lent<W: Write>(
    machine: &Machine,
    place: OperandSlot,
    session: usize,
    going: bool,
    out: &mut Counted<W>,
) -> bool
    requires { length machine.now.world.leaves ≡ length (components machine.now.scenario) }
    ensures { Prints_items W.contents out.old out.new going result machine.now
        (lent_items (system machine.now.scenario) machine.now.world place session (world.session_at machine.now.world session)) }
{
    let table = machine.table();
    match printed_session(machine, session) {
        None => going,
        Some(reported) => {
            let rest = lent_rest(table, place, &reported);
            let blanks = indent_of(place);
            write_amount(
                table,
                blanks,
                b"lends",
                reported.donation,
                rest.as_slice(),
                going,
                out,
            )
        }
    }
}

// Reports what a slot holds or lends, by what is read of it.
fn write_holding<W: Write>(
    machine: &Machine,
    place: OperandSlot,
    holding: Holding,
    going: bool,
    out: &mut Counted<W>,
) -> bool
    requires { length machine.now.world.leaves ≡ length (components machine.now.scenario) }
    ensures { Prints_items W.contents out.old out.new going result machine.now
        (holding_items (system machine.now.scenario) machine.now.world place holding) }
{
    let table = machine.table();
    let blanks = indent_of(place);
    match holding {
        Holding::Nothing => going,
        Holding::Bytes(form, size) => {
            let rest = memory_rest(place, form, size);
            let price = memory_price(form, size);
            write_amount(table, blanks, b"holds", price, rest.as_slice(), going, out)
        }
        Holding::Pool(size, count) => {
            let rest = pool_rest(place, size, count);
            let price = pool_price(count);
            write_amount(table, blanks, b"holds", price, rest.as_slice(), going, out)
        }
        Holding::Session(session) => write_lent(machine, place, session, going, out),
    }
}

// Reports what a slot holds or lends.
fn write_slot<W: Write>(
    machine: &Machine,
    place: OperandSlot,
    slot_id: SlotId,
    going: bool,
    out: &mut Counted<W>,
) -> bool
    requires slot_id { HasSlotId machine.now slot_id }
    requires leaves { length machine.now.world.leaves ≡ length (components machine.now.scenario) }
    ensures { IfSome (world.slot_at machine.now.world (slot_id_seen slot_id)) (λ slot. Prints_items W.contents out.old out.new going result machine.now
        (slot_items (system machine.now.scenario) machine.now.world place slot)) }
{
    let holding = machine.holding(slot_id);
    write_holding(machine, place, holding, going, out)
}

/// Reports what slots that stand one after the other hold or lend.
pub(crate) fn write_slots<W: Write>(
    machine: &Machine,
    bank: SlotRow,
    going: bool,
    out: &mut Counted<W>,
) -> bool
    requires bank { HasBank machine.now bank }
    requires leaves { length machine.now.world.leaves ≡ length (components machine.now.scenario) }
    ensures { IfSome (bank_slots machine.now.world bank) (λ slots. Prints_items W.contents out.old out.new going result machine.now
        (slots_items (system machine.now.scenario) machine.now.world (bank_place bank) 0 slots)) }
{
    let mut going = going;
    for slot in 0..bank.count() {
        let slot_id = bank.slot_id(slot as u8);
        let place = bank.place(slot as u8);
        going = write_slot(machine, place, slot_id, going, out);
    }
    going
}

// PLACES OF THE HEAP

// The class of this number, from the least on.
fn class_at(number: usize) -> Class
    requires { number < 8 }
    ensures size { slice_get classes number ≡ Some (class_size result) }
    ensures number { index_of result ≡ number }
{
    match number {
        0 => Class::Bytes16,
        1 => Class::Bytes32,
        2 => Class::Bytes64,
        3 => Class::Bytes128,
        4 => Class::Bytes256,
        5 => Class::Bytes512,
        6 => Class::Bytes1024,
        _ => Class::Bytes2048,
    }
}

// What so many places of a class cost.
fn places_price(class: Class, places: u32) -> Amount
    ensures { result ≡ amount_by (λ r. chunks r (class_size class * places)) }
{
    let count = u64::from(places);
    Amount {
        ram: price_class(class, count),
        caps: price_caps(Held::Places(class, count)),
    }
}

// What is reported of places behind their price.
fn places_rest(class: Class, places: u32) -> TraceLine
    ensures bytes { result.items ≡ codes ": " ++ decimal places ++ codes " places of " ++ decimal (class_size class) }
    ensures short { length result.items ≤ 60 }
{
    let mut line = ArrayVec::new();
    extend(&mut line, b": ");
    extend_number(&mut line, u64::from(places));
    extend_entry(&mut line, b" places of", class.size());
    line
}

// Reports the places of a class, of which so many were in use at one time, if any.
fn write_class<W: Write>(
    table: &NodeTable,
    class: Class,
    peak: u32,
    going: bool,
    out: &mut Counted<W>,
) -> bool
    ensures { Goes W.contents out.old out.new going result (items_text table.now.version (place_items (class_size class) peak)) }
{
    if peak == 0 {
        return going;
    }
    let rest = places_rest(class, peak);
    let price = places_price(class, peak);
    write_amount(table, b"  ", b"holds", price, rest.as_slice(), going, out)
}

/// Reports the places of each class of which a leaf ever had one in use.
pub(crate) fn write_places<W: Write>(
    machine: &Machine,
    leaf: LeafNo,
    going: bool,
    out: &mut Counted<W>,
) -> bool
    requires leaf { leaf < length (components machine.now.scenario) }
    requires peaks { IfSome (slice_get machine.now.world.leaves leaf) (λ l. length l.peaks ≡ 8) }
    ensures { IfSome (slice_get machine.now.world.leaves leaf) (λ l. Prints_items W.contents out.old out.new going result machine.now
        (places_items classes l.peaks)) }
{
    let table = machine.table();
    let mut going = going;
    for number in 0..8 {
        let class = class_at(number);
        let peak = machine.peak(leaf, class);
        going = write_class(table, class, peak, going, out);
    }
    going
}

// SESSIONS

// What is reported of a session behind what is received with it.
fn received_rest(table: &NodeTable, state: &SessionState) -> TraceLine
    requires client { state.now.client < length (components table.now) }
    requires service { state.now.service < length table.now.interfaces }
    ensures bytes { result.items ≡ codes " from " ++ leaf_label (system table.now) state.now.client ++ codes ": "
        ++ service_text (service_at table.now state.now.service) state.now.level }
    ensures short { length result.items ≤ 300 }
{
    let mut line = ArrayVec::new();
    extend(&mut line, b" from ");
    extend(&mut line, leaf_label(table, state.client));
    extend(&mut line, b": ");
    extend_service(&mut line, table, state.service, state.level);
    line
}

// Reports what a session's object and slots hold or lend.
fn write_bank<W: Write>(
    machine: &Machine,
    session: usize,
    going: bool,
    out: &mut Counted<W>,
) -> bool
    requires bank { HasBank machine.now (bank.OfSession session) }
    requires leaves { length machine.now.world.leaves ≡ length (components machine.now.scenario) }
    ensures { IfSome (world.session_at machine.now.world session) (λ s. Prints_items W.contents out.old out.new going result machine.now
        (bank_items (system machine.now.scenario) machine.now.world s)) }
{
    let object = SlotId::InObject(session);
    let going = write_slot(machine, OperandSlot::Object, object, going, out);
    write_slots(machine, SlotRow::OfSession(session), going, out)
}

// Reports what a leaf receives with a session and holds for it.
fn write_received<W: Write>(
    machine: &Machine,
    session: usize,
    state: &SessionState,
    going: bool,
    out: &mut Counted<W>,
) -> bool
    requires state { IsReportedOf machine.now session state.now }
    requires bank { HasBank machine.now (bank.OfSession session) }
    requires leaves { length machine.now.world.leaves ≡ length (components machine.now.scenario) }
    ensures { IfSome (world.session_at machine.now.world session) (λ s. Prints_items W.contents out.old out.new going result machine.now
        (session_items (system machine.now.scenario) machine.now.world s)) }
{
    let table = machine.table();
    let rest = received_rest(table, state);
    let going = write_amount(
        table,
        b"  ",
        b"receives",
        state.donation,
        rest.as_slice(),
        going,
        out,
    );
    write_bank(machine, session, going, out)
}

// Reports what a leaf receives with a session and holds for it, if the session is there and to that leaf.
fn write_session<W: Write>(
    machine: &Machine,
    leaf: LeafNo,
    session: usize,
    going: bool,
    out: &mut Counted<W>,
) -> bool
    requires stands { IsStanding machine.now }
    ensures { Prints_items W.contents out.old out.new going result machine.now
        (received_items (system machine.now.scenario) machine.now.world leaf (world.session_at machine.now.world session)) }
{
    match machine.session(session) {
        None => going,
        Some(state) => {
            if state.server != leaf.index() {
                return going;
            }
            write_received(machine, session, &state, going, out)
        }
    }
}

/// Reports what a leaf receives with sessions and holds for them, in the order of their numbers.
pub(crate) fn write_sessions<W: Write>(
    machine: &Machine,
    leaf: LeafNo,
    going: bool,
    out: &mut Counted<W>,
) -> bool
    requires stands { IsStanding machine.now }
    ensures { Prints_items W.contents out.old out.new going result machine.now
        (sessions_items (system machine.now.scenario) machine.now.world leaf machine.now.world.sessions) }
{
    let mut going = going;
    for session in 0..machine.session_count() {
        going = write_session(machine, leaf, session, going, out);
    }
    going
}
