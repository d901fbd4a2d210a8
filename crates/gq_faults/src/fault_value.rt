// A fault of a scenario as a value: what `check` says of it, where it stands in the document, and what was compared.
ghost use Rattle.std.specs.Prelude.{◌≡◌, ◌∷◌, ◌++◌, [], OnOk};
ghost use Rattle.gq_load.specs.Load_faults.{load_fault_text};
ghost use Rattle.gq_faults.specs.Found_lines.{lines_found};

use gq_caps::Kind;
use gq_load::load_fault::LoadFault;
use gq_model::program::{Name, OperandSlot};
use gq_model::section::Section;
use gq_reader::rules::ValueRule;
use gq_scenario::key::Key;
use gq_scenario::scenario::Version;
use gq_toml_places::Step;
use std::alloc::{AllocError, Global};
use toml::Value;

/// A fault of a scenario. It does not know the words of its details.
#[derive(Drop)]
pub struct FoundFault<'d> {
    /// The line that `check` reports of it.
    pub line: String,
    /// The way from the document's own table to what is wrong.
    pub path: Vec<Step<'d>>,
    /// Which of the places of what the path leads to is wrong.
    pub part: FaultPart,
    /// What was compared, with its numbers.
    pub detail: Detail<'d>,
}

/// A place of what a path leads to.
#[derive(Clone, Copy, Debug, PartialEq, Eq)]
pub enum FaultPart {
    /// The header of a table.
    Table,
    /// The key.
    Key,
    /// The value.
    Value,
    /// The word of a text that begins on this line, numbered from 1, at this byte, numbered from 0.
    Word(usize, usize),
}

/// The tables of a document, by the keys that they have. Routes have the same keys in each version.
#[derive(Clone, Copy)]
pub enum TableKind {
    Top(Version),
    Interface(Version),
    Init(Version),
    Leaf(Version),
    Route,
}

/// What a scenario has too many of.
#[derive(Clone, Copy, Debug, PartialEq, Eq)]
pub enum Crowd {
    Interfaces,
    Leaves,
    Inits,
    Routes,
}

/// What was compared.
#[derive(Drop)]
pub enum Detail<'d> {
    /// Nothing beside what the fault itself says.
    Nothing,
    /// A key, which no table of this kind has.
    Unknown(TableKind, &'d str),
    /// A key that is missing from a table of this kind.
    Missing(TableKind, Key),
    /// A value at a key, and the values that fit.
    Bad(&'d Value, ValueRule<'d>),
    /// An entry among the interfaces or the offers: whether its key is a name; then its value is no table.
    BadEntry(&'d str, bool),
    /// A key, and another that is there and beside which it can not stand.
    Beside(Key, Key),
    /// So many of these, of which there may be 64.
    TooMany(Crowd, usize),
    /// The levels of a node below the root.
    TooDeep(usize),
    /// The way to the name of the node that has it first.
    NamedFirst(Vec<Step<'static>>),
    /// A name that the root has.
    RootName,
    /// What is wrong on a line of a program's text.
    Text(Mistake),
    /// What a rule for programs compared.
    Rule(Compared),
    /// What an init hands out at the start, of bytes or of capabilities, and what it has, at this key.
    Handed {
        key: &'static str,
        handed: u64,
        has: u64,
    },
    /// Why a leaf may not start after the one that it names.
    After(BadAfter),
    /// A service that an init offers, and why it may not.
    Offer(Name, OfferCause),
    /// How a route led, from the leaf's own init on.
    Routed(Vec<Hop>),
    /// The way round from a leaf to itself: each leaf, with the service that it opens of the next one.
    Round(Vec<(Name, Name)>),
    /// What a leaf uses of its own account at most, and what it is handed, in bytes.
    Own {
        own: u64,
        quantum: u64,
    },
    /// The same in capabilities.
    OwnCaps {
        own: u64,
        caps: u64,
    },
    /// How many steps a leaf may take for the start.
    Steps(u64),
    /// How many it may take for a signal of this number of the leaf of this name.
    SignalSteps(Name, u8, u64),
}

/// What is wrong on a line of a program's text.
#[derive(Drop)]
pub enum Mistake {
    /// Nothing beside what the line says.
    Nothing,
    /// A word with which no line begins there, in a section or outside of sections.
    Unknown {
        word: String,
        is_inside: bool,
        /// Whether a line that stands not there, but outside or in a section, may begin with it.
        is_elsewhere: bool,
        /// Whether the leaf has signals, so that sections for them may stand there.
        has_signals: bool,
        /// The words like it with which a line may begin there.
        near: Vec<Name>,
    },
    /// A word behind all that a line with this first word has.
    Surplus {
        word: String,
        first: String,
        operands: [Option<Operand>; 3],
    },
    /// Another word than this operand, or none.
    Operand {
        word: Option<String>,
        wanted: Operand,
    },
}

/// What stands behind the first word of a line of a program's text.
#[derive(Clone, Copy, Debug, PartialEq, Eq)]
pub enum Operand {
    /// A number in this range.
    Number(u32, u32),
    Slot,
    SlotOrObject,
    Service,
    /// A text between quotation marks.
    Said,
}

/// A statement that pushed an operand; the argument of a call has the number 0.
#[derive(Clone, Copy, Debug, PartialEq, Eq)]
pub struct Pusher {
    pub number: u64,
    /// The line of the program's text, numbered from 1, that has it; code has no lines.
    pub line: Option<usize>,
}

/// What a rule for programs compared.
#[derive(Drop)]
pub enum Compared {
    /// Nothing beside what the statement says.
    Nothing,
    /// 17 operands.
    Operands,
    /// The operands that are left over, by the statements that pushed them.
    Left(Vec<Pusher>),
    /// The bytes of the buffer that an interface asks for, and what the first slot of the session holds where the session is open.
    Buffer(u32, Option<Kind>),
    /// A service without an interface, and the interfaces with names like it.
    Unknown(Name, Vec<Name>),
    /// What a slot holds, and what the statement needs there.
    Slot(OperandSlot, Option<Kind>, Needed),
    /// An index of at most this number, of a slot that has so many of these.
    Index(OperandSlot, u64, u64, Unit),
    /// An upgrade to this level, of a service with so many.
    Level(Name, u8, usize),
    /// A value of at most the first number, where at most the second may stand.
    Value(u32, u32, Holder),
    /// What a slot holds on two ways.
    Kinds(OperandSlot, Kind, Kind),
    /// What an `open`, or an upgrade to a level from 1, gives, and what a session of the service needs for it.
    Donation(Name, u8, u32, u32),
    /// What the current session costs, with its parts, and what is given for it.
    Session(SessionCost),
    /// A section that is missing, or one too many, of a leaf with so many signals.
    Section(Section, bool, u8),
    /// How many steps a section takes.
    Cost(u64),
    /// An input of this number, which the leaf has not, and the greatest values of those that it has.
    Input(u32, Vec<u32>),
}

/// What a statement needs in a slot.
#[derive(Clone, Copy, Debug, PartialEq, Eq)]
pub enum Needed {
    /// A slot that is there in this section.
    There(Section),
    Empty,
    /// The same at the end of a leaf that serves nobody and has no signals.
    EmptyAtEnd,
    /// What can be freed.
    Memory,
    /// What has bytes.
    Bytes,
    Pool,
    Link,
}

/// What an index counts.
#[derive(Clone, Copy, Debug, PartialEq, Eq)]
pub enum Unit {
    Bytes,
    /// Four bytes at once.
    Words,
    Entries,
    BytesOfAnEntry,
}

/// What a value is for.
#[derive(Clone, Copy, Debug, PartialEq, Eq)]
pub enum Holder {
    Local(u32),
    Argument,
    Reply,
}

/// What a session costs its server at a point.
#[derive(Drop)]
pub struct SessionCost {
    /// Whether capabilities are counted, and not bytes.
    pub caps: bool,
    /// The sum of the items.
    pub sum: u64,
    /// What is given for a session of this level.
    pub given: u64,
    pub level: u8,
    /// The bytes of the object, and its price.
    pub object: (u32, u64),
    /// The slots that are not empty, with what each costs.
    pub slots: Vec<(u8, Kind, u64)>,
}

/// Why a leaf may not start after the one that it names.
#[derive(Drop)]
pub enum BadAfter {
    /// No leaf of the same init has this name; these have names like it.
    NoLeaf(Name, Vec<Name>),
    /// This leaf provides a service.
    Provides(Name),
    /// This leaf has so many signals.
    Signals(Name, u8),
    /// An earlier leaf starts after the same one.
    Taken { earlier: Name, named: Name },
    /// The named leaf has fewer bytes.
    Quantum { own: u64, named: u64 },
    /// The named leaf has fewer capabilities.
    Caps { own: u32, named: u32 },
    /// The leaf comes after itself, by these.
    Round(Vec<Name>),
}

/// Why an init may not offer a service.
#[derive(Drop)]
pub enum OfferCause {
    /// There is no interface of the service; these have names like it.
    NoInterface(Vec<Name>),
    /// No child has this name; these have names like it.
    NoChild(Name, Vec<Name>),
    /// The child of this name is a leaf, which provides this service or none.
    Leaf(Name, Option<Name>),
    /// The child of this name is an init, which offers these services.
    Init(Name, Vec<Name>),
}

/// Whose routes are followed at one init.
#[derive(Drop)]
pub struct RouteOwner {
    /// The leaf or init whose service it is.
    pub child: Name,
    /// The init above it.
    pub init: Name,
    /// Whether the child has routes of its own; else they are the default ones of the init.
    pub is_own: bool,
}

/// How a route led at one init.
#[derive(Drop)]
pub enum Hop {
    /// No entry of the list fits, of so many; some are for services with names like that of the one that is asked for.
    NoEntry(RouteOwner, usize, Vec<Name>),
    /// The entry of this number, from 1, decided, for this service or for any.
    Entry(RouteOwner, usize, bool, Where),
    /// The question went beyond the root.
    BeyondRoot,
}

/// Where an entry of a route led.
#[derive(Drop)]
pub enum Where {
    Parent,
    /// No child has this name; these have names like it.
    NoChild(Name, Vec<Name>),
    /// The child of this name is a leaf that does not provide the service, or an init that offers these instead.
    Differs(Name, Vec<Name>),
    /// The child of this name is an init that offers the service, and its offer leads to no server.
    Astray(Name),
    /// None of the children serves the service; these are inits, each with what it offers.
    NoProvider(Vec<(Name, Vec<Name>)>),
    /// These children serve it, and whether one of them is an init.
    Providers(Vec<Name>, bool),
}

/// Puts a fault at the end of those that were found.
pub fn push_fault<'d>(
    alloc: Global,
    found: &mut Vec<FoundFault<'d>>,
    fault: &LoadFault,
    path: Vec<Step<'d>>,
    part: FaultPart,
    detail: Detail<'d>,
) -> Result<(), AllocError>
    ensures { OnOk result (lines_found found.new.items ≡ lines_found found.old.items ++ load_fault_text fault.now ∷ []) }
{
    let line = format!(in alloc; "{fault}")?;
    found.push(FoundFault {
        line,
        path,
        part,
        detail,
    })?;
    Ok(())
}
