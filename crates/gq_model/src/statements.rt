// The table of the statements on operands alone: what program text and code have of each.
ghost use Rattle.std.specs.Prelude.{◌≡◌, ◌≤◌};
ghost use Rattle.gq_model.specs.machine.Program.{Operands, Plain, Numbered};
ghost use Rattle.gq_model.specs.texts.Operands.{bare_entry, number_entry};

use crate::limits::{GREATEST_DEPTH, INPUTS, LOCALS};
use crate::program::{Bare, Instruction, OperandStatement, Operator, WithNumber};

/// Of a statement without a number: the number by which code names it, and its word in text.
#[derive(Clone, Copy)]
pub struct BareEntry {
    pub opcode: u8,
    pub word: &'static [u8],
}

/// Of a statement with a number: besides, how many bytes of code that takes, and its range.
#[derive(Clone, Copy)]
pub struct NumberEntry {
    pub opcode: u8,
    pub word: &'static [u8],
    pub width: usize,
    pub low: u32,
    pub high: u32,
}

// The entry with these.
#[inline(always)]
fn bare(opcode: u8, word: &'static [u8]) -> BareEntry
    ensures opcode { result.opcode ≡ opcode }
    ensures word { result.word.now ≡ word.now }
{
    BareEntry { opcode, word }
}

// The entry with these.
#[inline(always)]
fn numbered(opcode: u8, word: &'static [u8], width: usize, low: u32, high: u32) -> NumberEntry
    ensures opcode { result.opcode ≡ opcode }
    ensures word { result.word.now ≡ word.now }
    ensures width { result.width ≡ width }
    ensures low { result.low ≡ low }
    ensures high { result.high ≡ high }
{
    NumberEntry {
        opcode,
        word,
        width,
        low,
        high,
    }
}

impl Bare {
    /// The statement's line of the table.
    #[inline(always)]
    pub fn entry(self) -> BareEntry
        ensures opcode { result.opcode ≡ (bare_entry self).opcode }
        ensures word { result.word.now ≡ (bare_entry self).word }
    {
        match self {
            Bare::Drop => bare(0x04, b"drop"),
            Bare::Dup => bare(0x05, b"dup"),
            Bare::Combine(Operator::Add) => bare(0x06, b"add"),
            Bare::Combine(Operator::Subtract) => bare(0x07, b"sub"),
            Bare::Combine(Operator::Multiply) => bare(0x08, b"mul"),
            Bare::Combine(Operator::And) => bare(0x0b, b"and"),
            Bare::Combine(Operator::Equal) => bare(0x0c, b"eq"),
            Bare::Combine(Operator::Less) => bare(0x0d, b"lt"),
        }
    }

    /// The statement.
    #[inline(always)]
    pub fn instruction(self) -> Instruction
        ensures { result ≡ Operands (Plain self) }
    {
        Instruction::Operands(OperandStatement::Plain(self))
    }
}

impl WithNumber {
    /// The statement's line of the table.
    #[inline(always)]
    pub fn entry(self) -> NumberEntry
        ensures opcode { result.opcode ≡ (number_entry self).opcode }
        ensures word { result.word.now ≡ (number_entry self).word }
        ensures width { result.width ≡ (number_entry self).width }
        ensures narrow { result.width ≤ 4 }
        ensures low { result.low ≡ (number_entry self).low }
        ensures high { result.high ≡ (number_entry self).high }
    {
        match self {
            WithNumber::Push => numbered(0x03, b"push", 4, 0, u32::MAX),
            WithNumber::Divide => numbered(0x09, b"div", 4, 1, u32::MAX),
            WithNumber::Modulo => numbered(0x0a, b"mod", 4, 1, u32::MAX),
            WithNumber::Get => numbered(0x0e, b"get", 1, 0, LOCALS as u32 - 1),
            WithNumber::Set => numbered(0x0f, b"set", 1, 0, LOCALS as u32 - 1),
            WithNumber::Index => numbered(0x10, b"index", 1, 0, GREATEST_DEPTH as u32 - 1),
            WithNumber::Input => numbered(0x11, b"in", 1, 0, INPUTS as u32 - 1),
        }
    }

    /// The statement with this number.
    #[inline(always)]
    pub fn instruction(self, number: u32) -> Instruction
        ensures { result ≡ Operands (Numbered self number) }
    {
        Instruction::Operands(OperandStatement::Numbered(self, number))
    }
}
