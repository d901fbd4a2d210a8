// The parts of programs that hold no statements.
ghost use Rattle.std.specs.Prelude.{◌≡◌, if◌then◌else◌, IsTrue, Some, IfOk};
ghost use Rattle.gq_model.specs.texts.Letters.{is_name, is_said};

use crate::letters::{is_name, is_said};
use std::alloc::{AllocError, Global};
use std::marker::Model;

/// A slot of the component's own, one of the current session, or that session's object.
#[derive(Clone, Copy, Debug, PartialEq, Eq)]
pub enum OperandSlot {
    /// `o0` to `o63`.
    Own(u8),
    /// `s0` to `s7`.
    Shared(u8),
    /// `obj`.
    Object,
}

/// The three kinds of plain memory.
#[derive(Clone, Copy, Debug, PartialEq, Eq)]
pub enum Form {
    Block,
    Slice,
    Space,
}

/// How much is read or written at once.
#[derive(Clone, Copy, Debug, PartialEq, Eq)]
pub enum Width {
    /// One byte.
    Byte,
    /// Four bytes, the least first.
    Word,
}

/// What makes one number of two.
#[derive(Clone, Copy, Debug, PartialEq, Eq)]
pub enum Operator {
    Add,
    Subtract,
    Multiply,
    And,
    Equal,
    Less,
}

/// The greatest number of bytes of a text to say.
pub const GREATEST_TEXT: usize = 64;

/// The greatest number of bytes of a name.
pub const GREATEST_NAME: usize = 16;

/// A text to say: at most 64 bytes of 0x20 to 0x7e other than the quotation mark. They stand apart, so that a statement without a text has no
/// room for one.
#[derive(Drop)]
pub struct Text {
    bytes: Vec<u8>,
}

impl Model for Text {
    ghost use Rattle.std.specs.Prelude.{ℕ, List, IsTrue};
    ghost use Rattle.gq_model.specs.texts.Letters.{is_said};

    ghost Value = { List ℕ };

    ghost view = { λ t. t.bytes.items };

    ghost invariant = { λ t. IsTrue (is_said t.bytes.items) };
}

impl Text {
    /// The text of these bytes, where they are one. Refused only if the host refuses memory.
    pub fn new(alloc: Global, bytes: &[u8]) -> Result<Option<Text>, AllocError>
        ensures { IfOk result (λ t. t ≡ (if is_said bytes.now then Some bytes.now else None)) }
    {
        if !is_said(bytes) {
            return Ok(None);
        }
        let bytes = Vec::from_slice(alloc, bytes)?;
        Ok(Some(Text { bytes }))
    }

    /// Its bytes.
    pub fn as_bytes(&self) -> &[u8]
        ensures bytes { result.now ≡ self.now }
        ensures said { IsTrue (is_said self.now) }
    {
        self.bytes.as_slice()
    }
}

/// A name of a component or of a service: 1 to 16 bytes of a to z, A to Z, 0 to 9, the hyphen and the underscore.
/// Its room is 16 bytes and one that counts them, so that a statement with a name stays small.
#[derive(Drop)]
pub struct Name {
    letters: [u8; GREATEST_NAME],
    count: u8,
}

impl Model for Name {
    ghost use Rattle.std.specs.Prelude.{ℕ, List, IsTrue, ◌≤◌, take};
    ghost use Rattle.gq_model.specs.texts.Letters.{is_name};

    ghost Value = { List ℕ };

    ghost view = { λ t. take t.count t.letters };

    ghost invariant = { λ t. (t.count ≤ 16) × IsTrue (is_name (take t.count t.letters)) };
}

impl Name {
    /// The name of these bytes, where they are one.
    pub fn new(bytes: &[u8]) -> Option<Name>
        ensures { result ≡ (if is_name bytes.now then Some bytes.now else None) }
    {
        if !is_name(bytes) {
            return None;
        }
        let mut letters = [0; GREATEST_NAME];
        letters[..bytes.len()].copy_from_slice(bytes);
        Some(Name {
            letters,
            count: bytes.len() as u8,
        })
    }

    /// The same name.
    pub fn copied(&self) -> Name
        ensures { result ≡ self.now }
    {
        Name {
            letters: self.letters,
            count: self.count,
        }
    }

    /// Its bytes.
    pub fn as_bytes(&self) -> &[u8]
        ensures bytes { result.now ≡ self.now }
        ensures name { IsTrue (is_name self.now) }
    {
        &self.letters[..usize::from(self.count)]
    }

    /// The name as text.
    pub fn as_str(&self) -> &str
        ensures { result.now ≡ self.now }
    {
        match str::from_utf8(self.as_bytes()) {
            Ok(text) => text,
            Err(_) => unreachable!(),
        }
    }
}

/// A statement on operands alone that takes no number.
#[derive(Clone, Copy, Debug, PartialEq, Eq)]
pub enum Bare {
    /// Takes the top operand off.
    Drop,
    /// Puts the top operand on top once more.
    Dup,
    /// Makes one number of the two on top.
    Combine(Operator),
}

/// A statement on operands alone that takes a number.
#[derive(Clone, Copy, Debug, PartialEq, Eq)]
pub enum WithNumber {
    /// Puts the number on top.
    Push,
    /// Divides the top operand by the number.
    Divide,
    /// Puts the remainder of the top operand by the number in its place.
    Modulo,
    /// Puts the local of this number on top.
    Get,
    /// Takes the top operand off as the new value of the local of this number.
    Set,
    /// Puts the round of an open loop on top, which has so many loops inside.
    Index,
    /// Puts the value of the input of this number on top.
    Input,
}

/// A statement on operands alone: it reads and writes the operands and the locals of its leaf, and reads the rounds of its open
/// loops and its inputs. It touches no memory and no session, and shows no line.
#[derive(Clone, Copy, Debug, PartialEq, Eq)]
pub enum OperandStatement {
    Plain(Bare),
    Numbered(WithNumber, u32),
}

/// A statement with no statement in it.
#[derive(Drop)]
pub enum Instruction {
    Say(Text),
    Out,
    Operands(OperandStatement),
    Make(Form, OperandSlot, u32),
    MakePool(OperandSlot, u16, u16),
    Load(Width, OperandSlot),
    Store(Width, OperandSlot),
    Free(OperandSlot),
    Take(OperandSlot),
    Give(OperandSlot),
    Peek(OperandSlot),
    Poke(OperandSlot),
    Open(OperandSlot, Name, u32),
    Upgrade(OperandSlot, u32),
    Call(OperandSlot),
    Close(OperandSlot),
}
