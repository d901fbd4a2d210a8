// The words of values, slots and kinds, and lines of them.
ghost use Rattle.std.specs.Prelude.{◌≡◌, ◌==◌, ◌++◌, [], not, filter, IfOk, OnOk};
ghost use Rattle.gq_faults.specs.Details.{AreDetails};

use crate::fault_value::{Crowd, Holder, Needed, TableKind, Unit};
use gq_caps::Kind;
use gq_model::limits::GREATEST_RAM;
use gq_model::program::{Name, OperandSlot};
use gq_reader::rules::ValueRule;
use gq_tariff::price::PAGE;
use itoa::Buffer;
use std::alloc::{AllocError, Global};
use std::marker::Model;
use toml::Value;

/// Details of a fault, each on a line of its own. Words are put at the end of a line that is begun, which ends without its line feeds.
#[derive(Drop)]
pub struct Details {
    alloc: Global,
    lines: Vec<u8>,
    begun: Vec<u8>,
}

impl Model for Details {
    ghost use Rattle.std.specs.Prelude.{ℕ, List};
    ghost use Rattle.gq_faults.specs.Details.{AreDetails};

    ghost Value = { List ℕ };

    ghost view = { λ d. d.lines.items };

    ghost invariant = { λ d. AreDetails d.lines.items };
}

// The most bytes of a word of a scenario that are reported.
const LONGEST: usize = 80;

// Puts a text without its line feeds at the end of another.
fn push_single(text: &mut Vec<u8>, words: &[u8]) -> Result<(), AllocError>
    ensures { OnOk result (text.new.items ≡ text.old.items ++ filter (λ c. not (c == 10)) words.now) }
{
    for byte in words {
        if *byte != b'\n' {
            text.push(*byte)?;
        }
    }
    Ok(())
}

// These details, and one more of these words.
fn with_line(alloc: Global, lines: &[u8], words: &[u8]) -> Result<Vec<u8>, AllocError>
    requires { AreDetails lines.now }
    ensures { IfOk result (λ more. AreDetails more.items) }
{
    let mut more = Vec::from_slice(alloc, lines)?;
    more.extend_from_slice(b"  ")?;
    push_single(&mut more, words)?;
    more.push(b'\n')?;
    Ok(more)
}

impl Details {
    /// None.
    pub fn new(alloc: Global) -> Details
        ensures { result ≡ [] }
    {
        Details {
            alloc,
            lines: Vec::new(alloc),
            begun: Vec::new(alloc),
        }
    }

    /// Where their memory comes from.
    pub fn alloc(&self) -> Global {
        self.alloc
    }

    /// The lines that were ended.
    pub fn lines(&self) -> &[u8]
        ensures lines { result.now ≡ self.now }
        ensures form { AreDetails self.now }
    {
        self.lines.as_slice()
    }

    /// The end of a line.
    pub fn end(&mut self) -> Result<(), AllocError> {
        let lines = with_line(self.alloc, self.lines.as_slice(), self.begun.as_slice())?;
        self.lines = lines;
        self.begun.clear();
        Ok(())
    }

    /// These words.
    pub fn text(&mut self, text: &str) -> Result<(), AllocError> {
        self.begun.extend_from_slice(text.as_bytes())
    }

    /// The same as bytes.
    pub fn raw(&mut self, bytes: &[u8]) -> Result<(), AllocError> {
        self.begun.extend_from_slice(bytes)
    }

    /// A name.
    pub fn name(&mut self, name: &Name) -> Result<(), AllocError> {
        self.raw(name.as_bytes())
    }

    /// A number.
    pub fn number(&mut self, number: u64) -> Result<(), AllocError> {
        self.raw(Buffer::new().format(number).as_bytes())
    }

    /// A text of the scenario: a long one is cut, and what can not stand in a line is left out.
    pub fn quoted(&mut self, text: &str) -> Result<(), AllocError> {
        for byte in cut(text).as_bytes() {
            if *byte == b'\t' || !byte.is_ascii_control() {
                self.begun.push(*byte)?;
            }
        }
        if cut(text).len() < text.len() {
            self.text(" ..")?;
        }
        Ok(())
    }

    /// That there are so many of something, of which there may be fewer.
    pub fn more_than(&mut self, count: u64, what: &str, most: u64) -> Result<(), AllocError> {
        self.number(count)?;
        self.text(" ")?;
        self.text(what)?;
        self.text(", and at most ")?;
        self.number(most)?;
        self.end()
    }

    /// A detail that is these words alone.
    pub fn line(&mut self, text: &str) -> Result<(), AllocError> {
        self.text(text)?;
        self.end()
    }

    /// A number of things: `1 entry`, `3 entries`.
    pub fn count(&mut self, number: u64, one: &str, more: &str) -> Result<(), AllocError> {
        self.number(number)?;
        self.text(" ")?;
        self.text(if number == 1 { one } else { more })
    }

    /// Names, with commas between them.
    pub fn names(&mut self, names: &[Name]) -> Result<(), AllocError> {
        for (place, name) in names.iter().enumerate() {
            if place > 0 {
                self.text(", ")?;
            }
            self.name(name)?;
        }
        Ok(())
    }

    /// Names that may be meant, where there are some.
    pub fn meant(&mut self, names: &[Name]) -> Result<(), AllocError> {
        if names.is_empty() {
            return Ok(());
        }
        self.text(": ")?;
        self.names(names)?;
        self.text("?")
    }

    /// A slot, as programs write it.
    pub fn place(&mut self, place: OperandSlot) -> Result<(), AllocError> {
        match place {
            OperandSlot::Own(slot) => {
                self.text("o")?;
                self.number(u64::from(slot))
            }
            OperandSlot::Shared(slot) => {
                self.text("s")?;
                self.number(u64::from(slot))
            }
            OperandSlot::Object => self.text("obj"),
        }
    }

    // A word and a number.
    fn sized(&mut self, word: &str, size: u32) -> Result<(), AllocError> {
        self.text(word)?;
        self.number(u64::from(size))
    }

    /// What a slot holds, with the numbers of the statement that made it.
    pub fn kind(&mut self, kind: &Kind) -> Result<(), AllocError> {
        match kind {
            Kind::Empty | Kind::Waiting => self.text("nothing"),
            Kind::Block(size) => self.sized("block ", *size),
            Kind::Slice(size) => self.sized("slice ", *size),
            Kind::Space(size) => self.sized("space ", *size),
            Kind::Pool(size, count) => {
                self.sized("pool ", u32::from(*size))?;
                self.sized(" ", u32::from(*count))
            }
            Kind::Link(link) => {
                self.text("link ")?;
                self.raw(link.service())?;
                self.sized(" at level ", u32::from(link.level()))
            }
        }
    }

    /// What two kinds differ in beside their words: of a link what was lent.
    pub fn whole_kind(&mut self, kind: &Kind) -> Result<(), AllocError> {
        self.kind(kind)?;
        if let Kind::Link(_) = kind {
            self.text(" with ")?;
            self.number(kind.lent().ram)?;
        }
        Ok(())
    }

    /// A value as a document has it.
    pub fn value(&mut self, value: &Value) -> Result<(), AllocError> {
        match value {
            Value::String(text) => {
                self.text("\"")?;
                self.quoted(text.as_str())?;
                self.text("\"")
            }
            Value::Integer(number) if *number < 0 => {
                self.text("-")?;
                self.number(number.unsigned_abs())
            }
            Value::Integer(number) => self.number(number.unsigned_abs()),
            Value::Boolean(true) => self.text("true"),
            Value::Boolean(false) => self.text("false"),
            Value::Array(values) => {
                self.text("a list of ")?;
                self.number(values.len() as u64)
            }
            Value::Table(_) => self.text("a table"),
            Value::Float(_) => self.text("a number with a fraction"),
            Value::Datetime(_) => self.text("a date or a time"),
        }
    }

    /// A range of numbers.
    pub fn range(&mut self, what: &str, low: u64, high: u64) -> Result<(), AllocError> {
        self.text(what)?;
        self.text(" from ")?;
        self.number(low)?;
        self.text(" to ")?;
        self.number(high)
    }

    /// What fits at a key.
    pub fn rule(&mut self, rule: ValueRule<'_>) -> Result<(), AllocError> {
        match rule {
            ValueRule::Number(low, high) => self.range("a number", low, high),
            ValueRule::Quantity(low, high) => {
                self.range("a quantity", low, high)?;
                self.text(", as 4096 or \"4K\"")
            }
            ValueRule::Total => {
                self.range("a quantity", PAGE, GREATEST_RAM)?;
                self.text(" that is a multiple of 4096, as 65536 or \"64K\"")
            }
            ValueRule::Text => self.text("a text"),
            ValueRule::Hex => self.text("a text of hexadecimal digits, two for each byte"),
            ValueRule::NameText => self.text(NAME),
            ValueRule::True => self.text("true"),
            ValueRule::Tables => self.text("a list of tables"),
            ValueRule::NamedTables => {
                self.text("a table for each service, and for the service ")?;
                self.text(NAME)
            }
            ValueRule::NamedNames => {
                self.text("a table with the name of a child for each service that is offered")
            }
            ValueRule::Upgrades => { self.range("a list of at most 3 quantities", 0, 4294967295) }
            ValueRule::Counts(count) => {
                self.text("a list of ")?;
                self.count(count as u64, "number", "numbers")?;
                self.text(" from 0 to 65536, as many as upgrades has")
            }
            ValueRule::Inputs => self.range("a list of at most 8 numbers", 0, 4294967295),
            ValueRule::Declared(_) => self.text("the name of an interface"),
        }
    }
}

const NAME: &str = "a name: 1 to 16 letters, digits, - and _";

// The prefix of a text that is reported, which may be up to three bytes shorter so as not to cut a letter.
fn cut(text: &str) -> &str {
    let most = text.len().min(LONGEST);
    for left_out in 0..4 {
        if let Some(prefix) = text.get(..most.saturating_sub(left_out)) {
            return prefix;
        }
    }
    ""
}

/// What a kind of table is called.
pub(crate) fn table_word(kind: TableKind) -> &'static str {
    match kind {
        TableKind::Top(_) => "the top table",
        TableKind::Interface(_) => "an interface",
        TableKind::Init(_) => "an init",
        TableKind::Leaf(_) => "a leaf",
        TableKind::Route => "a route",
    }
}

/// What there is too much of.
pub(crate) fn crowd_word(crowd: Crowd) -> &'static str {
    match crowd {
        Crowd::Interfaces => "interfaces",
        Crowd::Leaves => "leaves",
        Crowd::Inits => "inits under the root",
        Crowd::Routes => "routes in this list",
    }
}

/// What a statement needs in a slot.
pub(crate) fn needed_word(needed: Needed) -> &'static str {
    match needed {
        // Of which section is said behind it.
        Needed::There(_) => "an own slot",
        Needed::Empty => "an empty slot",
        Needed::EmptyAtEnd => "an empty slot: the leaf provides no service and has no signals",
        Needed::Memory => "a block, a slice, a space or a pool",
        Needed::Bytes => "a block, a slice, a space, the object or a link with a buffer",
        Needed::Pool => "a pool",
        Needed::Link => "a link",
    }
}

/// What an index counts, of one and of several.
pub(crate) fn unit_words(unit: Unit) -> (&'static str, &'static str) {
    match unit {
        Unit::Bytes | Unit::Words => ("byte", "bytes"),
        Unit::Entries => ("entry", "entries"),
        Unit::BytesOfAnEntry => ("byte in an entry", "bytes in an entry"),
    }
}

/// What a value is for.
pub(crate) fn holder_word(holder: Holder) -> &'static str {
    match holder {
        Holder::Local(_) => "the local",
        Holder::Argument => "the interface's arg",
        Holder::Reply => "the interface's reply",
    }
}
