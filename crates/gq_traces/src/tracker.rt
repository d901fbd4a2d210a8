// Where each leaf stands in the text of its program.
ghost use Rattle.std.specs.Prelude.{◌≡◌, ◌<◌, ◌≤◌, ◌∷◌, [], List, ℕ, suc, nat_lt, true, Option, Some, None, drop, get_or, length, map, slice_get, slice_set};
ghost use Rattle.std.specs.Prelude.{IfOk, IfNone, IfSome};
ghost use Rattle.gq_model.specs.machine.Scenario.{Component, components};
ghost use Rattle.gq_statements.specs.Slot_statements.{current_seen};
ghost use Rattle.gq_traces.specs.declared.numbered_program.NumberedStatement.{NumberedStatement};
ghost use Rattle.gq_traces.specs.Step_positions.{chosen, place, start_aheads};
ghost use Rattle.gq_model.specs.machine.World.{section_of};
ghost use Rattle.gq_traces.specs.declared.tracker.Ahead as places;
ghost use Rattle.gq_traces.specs.internal.Alone_positions.{IsStraight};
ghost use Rattle.gq_traces.specs.internal.Flat.{AllStand, AreAheads, ArePrograms, Passes, Stands, another_round, plain_after, plain_ahead, programs_of};
ghost use Rattle.gq_traces.specs.internal.Printed_steps.{GoesOn, IsTop, PassesBy, PassesOwn, PlaceIs, PlacePrinted, PrintsDue, StartsSection, StepPrinted};
ghost use Rattle.gq_traces.specs.internal.Printed_steps.{entry_place, place_of, section_due};
ghost use Rattle.gq_traces.specs.internal.Printed_steps.{statement_text, way_text};

use crate::numbered_program::{Next, NumberedProgram, NumberedSection, Way};
use arrayvec::ArrayVec;
use gq_machine::machine::Machine;
use gq_model::limits::GREATEST_DEPTH;
use gq_model::phase::Phase;
use gq_model::section::Section;
use gq_scenario::scenario::LeafNo;
use gq_statements::actor::section_of;
use std::alloc::{AllocError, Global};

/// A loop that was entered: the place of its entry, and the round in which it is, from 0.
#[derive(Clone, Copy)]
pub(crate) struct Round {
    pub place: usize,
    pub round: u16,
}

impl Default for Round {
    fn default() -> Round {
        Round { place: 0, round: 0 }
    }
}

/// What a leaf has before it: a statement or the end of a list, and the loops that it is in, the innermost first.
#[derive(Drop)]
pub(crate) struct Ahead {
    next: Next,
    loops: ArrayVec<Round, GREATEST_DEPTH>,
}

/// What a place has of a statement.
#[derive(Clone, Copy)]
pub(crate) enum TrackedStatement<'a> {
    /// Nothing, at the end and at the start of a section.
    Nothing,
    /// The text of one with no statement in it.
    Plain(&'a [u8]),
    /// An `if`.
    If,
    /// A loop that goes round so often.
    Loop(u16),
}

/// The place of the step that a leaf takes next: its section, its number there, and its statement.
#[derive(Clone, Copy)]
pub(crate) struct Due<'a> {
    pub section: Section,
    pub number: u64,
    pub statement: TrackedStatement<'a>,
}

impl Ahead {
    // At the start of a section.
    fn new(part: NumberedSection) -> Ahead
        ensures next { result.next ≡ part.first }
        ensures loops { result.loops.items ≡ [] }
    {
        Ahead {
            next: part.first,
            loops: ArrayVec::new(),
        }
    }

    // Into a loop.
    #[inline(never)]
    fn enter(&mut self, place: usize, body: Next)
        requires { length self.old.loops.items < GREATEST_DEPTH }
        ensures next { self.new.next ≡ body }
        ensures loops { self.new.loops.items ≡ record { place = place; round = 0 } ∷ self.old.loops.items }
    {
        self.loops.insert(0, Round { place, round: 0 });
        self.next = body;
    }

    // Past a statement. An `if` goes by the top operand.
    #[inline(always)]
    fn pass(&mut self, numbered: &NumberedProgram, top: Option<u32>, place: usize)
        requires stands { Stands numbered.now.entries.items self.old }
        requires next { self.old.next ≡ Some place }
        ensures { (operands : List ℕ) → IsTop top operands → Passes numbered.now.entries.items self.old self.new operands }
    {
        match &numbered.entries[place].way {
            Way::Plain(_, next) => self.next = *next,
            Way::If(arm, other) => self.next = chosen(top, *arm, *other),
            Way::Loop(_, body, _) => self.enter(place, *body),
        }
    }

    // Into the next round of the innermost loop.
    #[inline(always)]
    fn go_round(&mut self, body: Next)
        requires some { 0 < length self.old.loops.items }
        requires low { (get_or self.old.loops.items 0 (record { place = 0; round = 0 })).round < 65535 }
        ensures next { self.new.next ≡ body }
        ensures loops { self.new.loops.items ≡ another_round self.old.loops.items }
    {
        self.loops[0].round += 1;
        self.next = body;
    }

    // Out of the innermost loop.
    #[inline(never)]
    fn leave(&mut self, next: Next)
        requires some { 0 < length self.old.loops.items }
        ensures next { self.new.next ≡ next }
        ensures loops { self.new.loops.items ≡ drop 1 self.old.loops.items }
    {
        let _left = self.loops.remove(0);
        self.next = next;
    }

    // The innermost loop that the leaf is in.
    fn innermost(&self) -> Option<Round>
        ensures none { IfNone result (self.now.loops.items ≡ []) }
        ensures some { IfSome result (λ r. self.now.loops.items ≡ r ∷ drop 1 self.now.loops.items) }
    {
        if self.loops.is_empty() {
            return None;
        }
        Some(self.loops[0])
    }

    // Past the end of a list of statements.
    #[inline(always)]
    fn pass_end(&mut self, numbered: &NumberedProgram)
        requires stands { Stands numbered.now.entries.items self.old }
        requires next { self.old.next ≡ None }
        ensures { (operands : List ℕ) → Passes numbered.now.entries.items self.old self.new operands }
    {
        match self.innermost() {
            None => (),
            Some(innermost) => self.pass_body(numbered, innermost),
        }
    }

    // Past the end of the body of a loop: to its next round, or to what follows it.
    #[inline(always)]
    fn pass_body(&mut self, numbered: &NumberedProgram, innermost: Round)
        requires stands { Stands numbered.now.entries.items self.old }
        requires next { self.old.next ≡ None }
        requires innermost { self.old.loops.items ≡ innermost ∷ drop 1 self.old.loops.items }
        ensures { (operands : List ℕ) → Passes numbered.now.entries.items self.old self.new operands }
    {
        match &numbered.entries[innermost.place].way {
            Way::Plain(_text, _next) => (),
            Way::If(_arm, _other) => (),
            Way::Loop(count, body, next) => {
                if has_round(innermost.round, *count) {
                    self.go_round(*body);
                } else {
                    self.leave(*next);
                }
            }
        }
    }

    // The statements with none in them that the leaf has before it, one after the other, at most so many: how many, and where it goes on after them.
    #[inline(always)]
    fn straight(&self, numbered: &NumberedProgram, most: u32) -> (u32, Next)
        ensures few { result.0 ≤ most }
        ensures ahead { plain_ahead numbered.now.entries.items result.0 self.now.next ≡ Some result.1 }
        ensures all { result.0 < most → plain_after numbered.now.entries.items result.1 ≡ None }
    {
        let mut next = self.next;
        let mut count = 0;
        while count < most {
            match after_plain(numbered, next) {
                None => return (count, next),
                Some(after) => {
                    next = after;
                    count += 1;
                }
            }
        }
        (count, next)
    }

    // Goes on there.
    #[inline(always)]
    fn go_to(&mut self, next: Next)
        ensures { self.new ≡ record self.old { next = next } }
    {
        self.next = next;
    }

    // Past the next step of a leaf that takes steps of its own and has this top operand.
    #[inline(always)]
    fn pass_step(&mut self, numbered: &NumberedProgram, top: Option<u32>)
        requires stands { Stands numbered.now.entries.items self.old }
        ensures { (operands : List ℕ) → IsTop top operands → Passes numbered.now.entries.items self.old self.new operands }
    {
        match self.next {
            Some(place) => self.pass(numbered, top, place),
            None => self.pass_end(numbered),
        }
    }

    // The place of the next step, in this section.
    fn place<'a>(&self, numbered: &'a NumberedProgram, section: Section) -> Due<'a>
        requires { Stands numbered.now.entries.items self.now }
        ensures { PlaceIs numbered.now self.now section result }
    {
        match self.next {
            Some(place) => entry_place(numbered, place, section),
            None => self.end_place(numbered, section),
        }
    }

    // The place of the end of a list of statements, in this section.
    fn end_place<'a>(&self, numbered: &'a NumberedProgram, section: Section) -> Due<'a>
        requires stands { Stands numbered.now.entries.items self.now }
        requires next { self.now.next ≡ None }
        ensures { PlaceIs numbered.now self.now section result }
    {
        match self.innermost() {
            None => Due {
                section,
                number: u64::from(numbered.part(section).size) + 1,
                statement: TrackedStatement::Nothing,
            },
            Some(innermost) => entry_place(numbered, innermost.place, section),
        }
    }
}

// Where a leaf goes on after the statement there, if that has none in it.
#[inline(always)]
fn after_plain(numbered: &NumberedProgram, next: Next) -> Option<Next>
    ensures { result ≡ plain_after numbered.now.entries.items next }
{
    let Some(place) = next else {
        return None;
    };
    match numbered.entries.get(place) {
        None => None,
        Some(entry) => match &entry.way {
            Way::Plain(_, after) => Some(*after),
            Way::If(_, _) | Way::Loop(_, _, _) => None,
        },
    }
}

// The place of an entry, in this section.
fn entry_place<'a>(numbered: &'a NumberedProgram, place: usize, section: Section) -> Due<'a>
    requires { place < length numbered.now.entries.items }
    ensures { (e : NumberedStatement) → slice_get numbered.now.entries.items place ≡ Some e → place_of result ≡ entry_place section e }
{
    let entry = &numbered.entries[place];
    Due {
        section,
        number: entry.number as u64,
        statement: statement_of(&entry.way),
    }
}

// Whether a loop that goes round so often has another round after this one.
fn has_round(round: u16, count: u16) -> bool
    ensures more { result ≡ nat_lt (suc round) count }
    ensures low { result ≡ true → round < 65535 }
{
    u32::from(round) + 1 < u32::from(count)
}

// One of two places, by the top operand.
fn chosen(top: Option<u32>, arm: Next, other: Next) -> Next
    ensures { (operands : List ℕ) → IsTop top operands → result ≡ chosen operands arm other }
{
    match top {
        None | Some(0) => other,
        Some(_) => arm,
    }
}

// What a place has of a statement of this way.
fn statement_of(way: &Way) -> TrackedStatement<'_>
    ensures { statement_text result ≡ way_text way.now }
{
    match way {
        Way::Plain(text, _) => TrackedStatement::Plain(text.as_slice()),
        Way::If(_, _) => TrackedStatement::If,
        Way::Loop(count, _, _) => TrackedStatement::Loop(*count),
    }
}

/// All leaves at the start of their programs. Refused only if the host refuses memory.
pub(crate) fn first_aheads(
    alloc: Global,
    programs: &[NumberedProgram],
) -> Result<Vec<Ahead>, AllocError>
    ensures { (cs : List Component) → ArePrograms programs.now (map (λ c. c.node.program) cs)
        → IfOk result (λ aheads. AreAheads programs.now aheads.items (start_aheads cs)) }
{
    let mut aheads = Vec::new(alloc);
    for numbered in programs {
        aheads.push(Ahead::new(numbered.part(Section::Main)))?;
    }
    Ok(aheads)
}

/// The place of the next step of a leaf that takes steps of its own, in this section.
pub(crate) fn due_in<'a>(
    programs: &'a [NumberedProgram],
    aheads: &[Ahead],
    leaf: LeafNo,
    section: Section,
) -> Due<'a>
    requires leaf { leaf < length programs.now }
    requires aheads { AllStand programs.now aheads.now }
    ensures { PlacePrinted programs.now aheads.now leaf section result }
{
    aheads[leaf.index()].place(&programs[leaf.index()], section)
}

// The place of the next step of a leaf that takes steps of its own.
fn step_due<'a>(
    programs: &'a [NumberedProgram],
    aheads: &[Ahead],
    machine: &Machine,
    leaf: LeafNo,
) -> Due<'a>
    requires leaf { leaf < length (components machine.now.scenario) }
    requires programs { ArePrograms programs.now (programs_of machine.now.scenario) }
    requires aheads { AllStand programs.now aheads.now }
    ensures { StepPrinted programs.now aheads.now machine.now.scenario machine.now.world leaf result }
{
    let section = section_of(machine.current(leaf), machine.reacting(leaf));
    due_in(programs, aheads, leaf, section)
}

// The place of the start of a section.
fn start_due(section: Section) -> Due<'static>
    ensures { place_of result ≡ place section 0 [] }
{
    Due {
        section,
        number: 0,
        statement: TrackedStatement::Nothing,
    }
}

// The section that a serving leaf takes next, if it can take one: for a signal that is submitted, else for the oldest request.
fn next_section(machine: &Machine, leaf: LeafNo) -> Option<Section>
    requires leaf { leaf < length (components machine.now.scenario) }
    requires leaves { length machine.now.world.leaves ≡ length (components machine.now.scenario) }
    ensures { IfSome (slice_get machine.now.world.leaves leaf) (λ l. result ≡ section_due machine.now.world leaf l) }
{
    match machine.signals(leaf).first() {
        Some(signal) => Some(Section::Reacting(signal)),
        None => match machine.oldest(leaf) {
            None => None,
            Some(asked) => Some(asked.section),
        },
    }
}

/// The place of the step that a leaf takes next, if it can take one.
pub(crate) fn next_due<'a>(
    programs: &'a [NumberedProgram],
    aheads: &[Ahead],
    machine: &Machine,
    leaf: LeafNo,
) -> Option<Due<'a>>
    requires leaf { leaf < length (components machine.now.scenario) }
    requires leaves { length machine.now.world.leaves ≡ length (components machine.now.scenario) }
    requires programs { ArePrograms programs.now (programs_of machine.now.scenario) }
    requires aheads { AllStand programs.now aheads.now }
    ensures { PrintsDue programs.now aheads.now machine.now.scenario machine.now.world leaf result }
{
    match machine.phase(leaf) {
        Phase::Pending | Phase::Blocked | Phase::Exited => None,
        Phase::Serving => match next_section(machine, leaf) {
            None => None,
            Some(section) => Some(start_due(section)),
        },
        Phase::Running => Some(step_due(programs, aheads, machine, leaf)),
        Phase::Handling => Some(step_due(programs, aheads, machine, leaf)),
    }
}

/// Goes on past the next step of a leaf that takes steps of its own and has this top operand.
#[inline(always)]
pub(crate) fn pass_by(
    programs: &[NumberedProgram],
    aheads: &mut [Ahead],
    leaf: LeafNo,
    top: Option<u32>,
)
    requires leaf { leaf < length programs.now }
    requires aheads { AllStand programs.now aheads.old }
    ensures { (operands : List ℕ) → IsTop top operands → PassesBy programs.now aheads.old aheads.new leaf operands }
{
    aheads[leaf.index()].pass_step(&programs[leaf.index()], top);
}

/// The statements with none in them that a leaf has before it, one after the other, at most so many: how many, and where it goes on after them.
#[inline(always)]
pub(crate) fn straight_in(
    programs: &[NumberedProgram],
    aheads: &[Ahead],
    leaf: LeafNo,
    most: u32,
) -> (u32, Next)
    requires leaf { leaf < length programs.now }
    requires aheads { length aheads.now ≡ length programs.now }
    ensures few { result.0 ≤ most }
    ensures straight { IsStraight programs.now aheads.now leaf result.0 result.1 }
    ensures all { (n : ℕ) (to : Option ℕ) → IsStraight programs.now aheads.now leaf n to → most ≤ n → result.0 ≡ most }
{
    aheads[leaf.index()].straight(&programs[leaf.index()], most)
}

/// How many steps a leaf may take alone from where it stands, one after the other, as far as its program reports. It says how far to look, and no more.
#[inline(always)]
pub(crate) fn alone_in(programs: &[NumberedProgram], aheads: &[Ahead], leaf: LeafNo) -> u32
    requires leaf { leaf < length programs.now }
    requires aheads { length aheads.now ≡ length programs.now }
{
    programs[leaf.index()].alone_from(aheads[leaf.index()].next)
}

/// Lets a leaf go on there.
#[inline(always)]
pub(crate) fn go_to(aheads: &mut [Ahead], leaf: LeafNo, next: Next)
    requires { leaf < length aheads.old }
    ensures { (a : places.Ahead) → slice_get aheads.old leaf ≡ Some a → aheads.new ≡ slice_set aheads.old leaf (record a { next = next }) }
{
    aheads[leaf.index()].go_to(next);
}

// Goes on past the next step of a leaf that takes steps of its own.
fn pass_own(programs: &[NumberedProgram], aheads: &mut [Ahead], machine: &Machine, leaf: LeafNo)
    requires leaf { leaf < length (components machine.now.scenario) }
    requires programs { ArePrograms programs.now (programs_of machine.now.scenario) }
    requires aheads { AllStand programs.now aheads.old }
    ensures { PassesOwn programs.now aheads.old aheads.new machine.now.world leaf }
{
    pass_by(programs, aheads, leaf, machine.top(leaf));
}

// Goes on at the start of a section.
fn start_section(programs: &[NumberedProgram], aheads: &mut [Ahead], leaf: LeafNo, section: Section)
    requires leaf { leaf < length programs.now }
    requires aheads { length aheads.old ≡ length programs.now }
    ensures { StartsSection programs.now aheads.old aheads.new leaf section }
{
    let part = programs[leaf.index()].part(section);
    aheads[leaf.index()] = Ahead::new(part);
}

/// Goes on past the step that a leaf takes next, which it can take and has not taken yet.
pub(crate) fn go_on(
    programs: &[NumberedProgram],
    aheads: &mut [Ahead],
    machine: &Machine,
    leaf: LeafNo,
)
    requires leaf { leaf < length (components machine.now.scenario) }
    requires leaves { length machine.now.world.leaves ≡ length (components machine.now.scenario) }
    requires programs { ArePrograms programs.now (programs_of machine.now.scenario) }
    requires aheads { AllStand programs.now aheads.old }
    ensures { GoesOn programs.now aheads.old aheads.new machine.now.scenario machine.now.world leaf }
{
    match machine.phase(leaf) {
        Phase::Pending | Phase::Blocked | Phase::Exited => (),
        Phase::Serving => match next_section(machine, leaf) {
            None => (),
            Some(section) => start_section(programs, aheads, leaf, section),
        },
        Phase::Running => pass_own(programs, aheads, machine, leaf),
        Phase::Handling => pass_own(programs, aheads, machine, leaf),
    }
}
