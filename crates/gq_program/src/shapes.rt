// How the statements but `if` and `loop` are spelled: one table, by the shape of their operands.
ghost use Rattle.std.specs.Prelude.{◌≡◌, option_map};
ghost use Rattle.gq_model.specs.texts.Operands.{opcode};
ghost use Rattle.gq_model.specs.texts.Spelling.{spellings, shape_of_word, shape_of_opcode};
ghost use Rattle.gq_program.specs.Statement_table.{slot_instruction, slot_word, slot_opcode, bytes_instruction, bytes_word, bytes_opcode};
ghost use Rattle.gq_program.specs.Statement_table.{amount_instruction, amount_word, amount_opcode, amount_low, amount_high};
ghost use Rattle.gq_program.specs.Statement_table.{shape_of, word_of, opcode_of, spellings_of};

use gq_model::limits::GREATEST_SIZE;
use gq_model::program::{
    Bare, Form, Instruction, OperandSlot, OperandStatement, Operator, Width, WithNumber,
};
pub use gq_model::spelling::same_text;

/// A statement with a slot.
#[derive(Clone, Copy)]
pub enum WithSlot {
    Free,
    Take,
    Give,
    Peek,
    Poke,
    Call,
    Close,
}

/// A statement with a slot, or the object, whose bytes are meant.
#[derive(Clone, Copy)]
pub enum WithBytes {
    Load(Width),
    Store(Width),
}

/// A statement with a slot and a number.
#[derive(Clone, Copy)]
pub enum WithAmount {
    Make(Form),
    Upgrade,
}

/// A statement but `if` and `loop`, by the shape of its operands.
#[derive(Clone, Copy)]
pub enum Shape {
    /// A text to say.
    Say,
    /// Nothing: it shows the top operand.
    Out,
    /// Nothing: it is on operands alone.
    Plain(Bare),
    /// A number: it is on operands alone.
    Number(WithNumber),
    /// A slot.
    Slot(WithSlot),
    /// A slot, or the object.
    Bytes(WithBytes),
    /// A slot and a number.
    Amount(WithAmount),
    /// A slot and two numbers.
    Pool,
    /// A slot, the name of a service and a number.
    Open,
}

/// The table of the statements, in the order of their numbers in code.
pub const SHAPES: [Shape; 34] = [
    Shape::Say,
    Shape::Out,
    Shape::Number(WithNumber::Push),
    Shape::Plain(Bare::Drop),
    Shape::Plain(Bare::Dup),
    Shape::Plain(Bare::Combine(Operator::Add)),
    Shape::Plain(Bare::Combine(Operator::Subtract)),
    Shape::Plain(Bare::Combine(Operator::Multiply)),
    Shape::Number(WithNumber::Divide),
    Shape::Number(WithNumber::Modulo),
    Shape::Plain(Bare::Combine(Operator::And)),
    Shape::Plain(Bare::Combine(Operator::Equal)),
    Shape::Plain(Bare::Combine(Operator::Less)),
    Shape::Number(WithNumber::Get),
    Shape::Number(WithNumber::Set),
    Shape::Number(WithNumber::Index),
    Shape::Number(WithNumber::Input),
    Shape::Amount(WithAmount::Make(Form::Space)),
    Shape::Amount(WithAmount::Make(Form::Slice)),
    Shape::Amount(WithAmount::Make(Form::Block)),
    Shape::Pool,
    Shape::Slot(WithSlot::Free),
    Shape::Bytes(WithBytes::Load(Width::Byte)),
    Shape::Bytes(WithBytes::Store(Width::Byte)),
    Shape::Bytes(WithBytes::Load(Width::Word)),
    Shape::Bytes(WithBytes::Store(Width::Word)),
    Shape::Slot(WithSlot::Take),
    Shape::Slot(WithSlot::Give),
    Shape::Slot(WithSlot::Peek),
    Shape::Slot(WithSlot::Poke),
    Shape::Open,
    Shape::Amount(WithAmount::Upgrade),
    Shape::Slot(WithSlot::Call),
    Shape::Slot(WithSlot::Close),
];

impl WithSlot {
    /// The statement with this slot.
    pub fn instruction(self, place: OperandSlot) -> Instruction
        ensures { result ≡ slot_instruction self place }
    {
        match self {
            WithSlot::Free => Instruction::Free(place),
            WithSlot::Take => Instruction::Take(place),
            WithSlot::Give => Instruction::Give(place),
            WithSlot::Peek => Instruction::Peek(place),
            WithSlot::Poke => Instruction::Poke(place),
            WithSlot::Call => Instruction::Call(place),
            WithSlot::Close => Instruction::Close(place),
        }
    }

    /// Its word in text.
    pub fn word(self) -> &'static [u8]
        ensures { result.now ≡ slot_word self }
    {
        match self {
            WithSlot::Free => b"free",
            WithSlot::Take => b"take",
            WithSlot::Give => b"give",
            WithSlot::Peek => b"peek",
            WithSlot::Poke => b"poke",
            WithSlot::Call => b"call",
            WithSlot::Close => b"close",
        }
    }

    /// Its number in code.
    pub fn opcode(self) -> u8
        ensures { result ≡ slot_opcode self }
    {
        match self {
            WithSlot::Free => 0x24,
            WithSlot::Take => 0x29,
            WithSlot::Give => 0x2a,
            WithSlot::Peek => 0x2b,
            WithSlot::Poke => 0x2c,
            WithSlot::Call => 0x32,
            WithSlot::Close => 0x33,
        }
    }
}

impl WithBytes {
    /// The statement with this slot.
    pub fn instruction(self, place: OperandSlot) -> Instruction
        ensures { result ≡ bytes_instruction self place }
    {
        match self {
            WithBytes::Load(width) => Instruction::Load(width, place),
            WithBytes::Store(width) => Instruction::Store(width, place),
        }
    }

    /// Its word in text.
    pub fn word(self) -> &'static [u8]
        ensures { result.now ≡ bytes_word self }
    {
        match self {
            WithBytes::Load(Width::Byte) => b"load",
            WithBytes::Store(Width::Byte) => b"store",
            WithBytes::Load(Width::Word) => b"load4",
            WithBytes::Store(Width::Word) => b"store4",
        }
    }

    /// Its number in code.
    pub fn opcode(self) -> u8
        ensures { result ≡ bytes_opcode self }
    {
        match self {
            WithBytes::Load(Width::Byte) => 0x25,
            WithBytes::Store(Width::Byte) => 0x26,
            WithBytes::Load(Width::Word) => 0x27,
            WithBytes::Store(Width::Word) => 0x28,
        }
    }
}

impl WithAmount {
    /// The statement with this slot and this number.
    pub fn instruction(self, place: OperandSlot, number: u32) -> Instruction
        ensures { result ≡ amount_instruction self place number }
    {
        match self {
            WithAmount::Make(form) => Instruction::Make(form, place, number),
            WithAmount::Upgrade => Instruction::Upgrade(place, number),
        }
    }

    /// Its word in text.
    pub fn word(self) -> &'static [u8]
        ensures { result.now ≡ amount_word self }
    {
        match self {
            WithAmount::Make(Form::Space) => b"space",
            WithAmount::Make(Form::Slice) => b"slice",
            WithAmount::Make(Form::Block) => b"block",
            WithAmount::Upgrade => b"upgrade",
        }
    }

    /// Its number in code.
    pub fn opcode(self) -> u8
        ensures { result ≡ amount_opcode self }
    {
        match self {
            WithAmount::Make(Form::Space) => 0x20,
            WithAmount::Make(Form::Slice) => 0x21,
            WithAmount::Make(Form::Block) => 0x22,
            WithAmount::Upgrade => 0x31,
        }
    }

    /// The least number that it takes.
    pub fn low(self) -> u32
        ensures { result ≡ amount_low self }
    {
        match self {
            WithAmount::Make(_) => 1,
            WithAmount::Upgrade => 0,
        }
    }

    /// The greatest number that it takes: 64 MiB, or any.
    pub fn high(self) -> u32
        ensures { result ≡ amount_high self }
    {
        match self {
            WithAmount::Make(_) => GREATEST_SIZE,
            WithAmount::Upgrade => u32::MAX,
        }
    }
}

impl Shape {
    /// Returns the entry of an instruction.
    pub fn of(instruction: &Instruction) -> Shape
        ensures { opcode_of result ≡ opcode instruction.now }
    {
        match instruction {
            Instruction::Say(_) => Shape::Say,
            Instruction::Out => Shape::Out,
            Instruction::Operands(OperandStatement::Plain(statement)) => Shape::Plain(*statement),
            Instruction::Operands(OperandStatement::Numbered(statement, _)) => {
                Shape::Number(*statement)
            }
            Instruction::Make(form, _, _) => Shape::Amount(WithAmount::Make(*form)),
            Instruction::MakePool(_, _, _) => Shape::Pool,
            Instruction::Free(_) => Shape::Slot(WithSlot::Free),
            Instruction::Load(width, _) => Shape::Bytes(WithBytes::Load(*width)),
            Instruction::Store(width, _) => Shape::Bytes(WithBytes::Store(*width)),
            Instruction::Take(_) => Shape::Slot(WithSlot::Take),
            Instruction::Give(_) => Shape::Slot(WithSlot::Give),
            Instruction::Peek(_) => Shape::Slot(WithSlot::Peek),
            Instruction::Poke(_) => Shape::Slot(WithSlot::Poke),
            Instruction::Open(_, _, _) => Shape::Open,
            Instruction::Upgrade(_, _) => Shape::Amount(WithAmount::Upgrade),
            Instruction::Call(_) => Shape::Slot(WithSlot::Call),
            Instruction::Close(_) => Shape::Slot(WithSlot::Close),
        }
    }

    /// The statement's word in text.
    pub fn word(self) -> &'static [u8]
        ensures { result.now ≡ word_of self }
    {
        match self {
            Shape::Say => b"say",
            Shape::Out => b"out",
            Shape::Plain(statement) => statement.entry().word,
            Shape::Number(statement) => statement.entry().word,
            Shape::Slot(statement) => statement.word(),
            Shape::Bytes(statement) => statement.word(),
            Shape::Amount(statement) => statement.word(),
            Shape::Pool => b"pool",
            Shape::Open => b"open",
        }
    }

    /// The statement's number in code.
    pub fn opcode(self) -> u8
        ensures { result ≡ opcode_of self }
    {
        match self {
            Shape::Say => 0x01,
            Shape::Out => 0x02,
            Shape::Plain(statement) => statement.entry().opcode,
            Shape::Number(statement) => statement.entry().opcode,
            Shape::Slot(statement) => statement.opcode(),
            Shape::Bytes(statement) => statement.opcode(),
            Shape::Amount(statement) => statement.opcode(),
            Shape::Pool => 0x23,
            Shape::Open => 0x30,
        }
    }
}

/// The first of these statements with this word, if there is one.
fn with_word(shapes: &[Shape], word: &[u8]) -> Option<Shape>
    ensures { option_map shape_of result ≡ shape_of_word word.now (spellings_of shapes.now) }
{
    for shape in shapes {
        if same_text(word, shape.word()) {
            return Some(*shape);
        }
    }
    None
}

/// The statement with this word, if there is one.
pub fn shape_of_word(word: &[u8]) -> Option<Shape>
    ensures { option_map shape_of result ≡ shape_of_word word.now spellings }
{
    with_word(&SHAPES, word)
}

/// The first of these statements with this number in code, if there is one.
fn with_opcode(shapes: &[Shape], opcode: u8) -> Option<Shape>
    ensures { option_map shape_of result ≡ shape_of_opcode opcode (spellings_of shapes.now) }
{
    for shape in shapes {
        if opcode == shape.opcode() {
            return Some(*shape);
        }
    }
    None
}

/// The entry that has this number, if any has: the numbers stand in three rows without gaps.
fn entry_at(opcode: u8) -> Option<Shape> {
    let before = match opcode {
        0x00..=0x1f => 0x01,
        0x20..=0x2f => 0x0f,
        _ => 0x12,
    };
    SHAPES
        .get(usize::from(opcode.saturating_sub(before)))
        .copied()
}

/// Returns the statement with this number in code, if there is one. The table is searched only for a number that no statement has.
pub fn shape_of_opcode(opcode: u8) -> Option<Shape>
    ensures { option_map shape_of result ≡ shape_of_opcode opcode spellings }
{
    if let Some(shape) = entry_at(opcode) {
        if shape.opcode() == opcode {
            return Some(shape);
        }
    }
    with_opcode(&SHAPES, opcode)
}
