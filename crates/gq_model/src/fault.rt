// The faults of programs, of turns and of steps, by the codes under which they are printed.
ghost use Rattle.std.specs.Prelude.{◌≡◌, Some};
ghost use Rattle.gq_model.specs.texts.Fault_texts.{rule_word, text_fault_word, code_fault_word, turn_fault_word};

use std::fmt::{self, Display, Formatter, Write};
use thiserror::Error;

/// Why a leaf has no next step.
#[derive(Clone, Copy, Debug, PartialEq, Eq, Error)]
pub enum Wrong {
    /// An operand is missing, or has no place.
    #[error("X1 MissingOperand")]
    MissingOperand,
    /// A slot is of another kind than the statement needs.
    #[error("X2 WrongKind")]
    WrongKind,
    /// An index is past the bytes or the entries.
    #[error("X3 UnmappedByte")]
    UnmappedByte,
    /// A leaf would not be paid for after the step.
    #[error("X4 ExceededQuota")]
    ExceededQuota,
    /// The accepted request's section is not in the program.
    #[error("X5 MissingSection")]
    MissingSection,
}

/// The rules of the verifier, by what a program does that breaks one.
#[derive(Clone, Copy, Debug, PartialEq, Eq)]
pub enum Rule {
    MissingOperand,
    StackTooDeep,
    LeftoverOperand,
    WrongKind,
    SlotInUse,
    OutOfRange,
    ValueTooLarge,
    JoinDiffers,
    SessionBankChanged,
    OwnBankChanged,
    HeapInSession,
    ShortDonation,
    OverNeed,
    LinkLeftOpen,
    UnknownService,
    MissingSection,
    BudgetTooLarge,
    OverCaps,
    NoInput,
}

impl Rule {
    /// Its code and its name, as a refusal prints them.
    pub fn word(self) -> &'static str
        ensures { result.now ≡ rule_word self }
    {
        match self {
            Rule::MissingOperand => "V1 MissingOperand",
            Rule::StackTooDeep => "V2 StackTooDeep",
            Rule::LeftoverOperand => "V3 LeftoverOperand",
            Rule::WrongKind => "V4 WrongKind",
            Rule::SlotInUse => "V5 SlotInUse",
            Rule::OutOfRange => "V6 OutOfRange",
            Rule::ValueTooLarge => "V7 ValueTooLarge",
            Rule::JoinDiffers => "V8 JoinDiffers",
            Rule::SessionBankChanged => "V9 SessionBankChanged",
            Rule::OwnBankChanged => "V10 OwnBankChanged",
            Rule::HeapInSession => "V11 HeapInSession",
            Rule::ShortDonation => "V12 ShortDonation",
            Rule::OverNeed => "V13 OverNeed",
            Rule::LinkLeftOpen => "V14 LinkLeftOpen",
            Rule::UnknownService => "V15 UnknownService",
            Rule::MissingSection => "V16 MissingSection",
            Rule::BudgetTooLarge => "V17 BudgetTooLarge",
            Rule::OverCaps => "V18 OverCaps",
            Rule::NoInput => "V19 NoInput",
        }
    }
}

impl Display for Rule {
    ghost output = { λ rule. Some (rule_word rule) };

    fn fmt<W: Write>(&self, f: &mut Formatter<W>) -> fmt::Result {
        f.write_str(self.word())
    }
}

impl std::error::Error for Rule {}

/// Why a text is no program.
#[derive(Clone, Copy, Debug, PartialEq, Eq)]
pub enum TextFault {
    /// A word that can't stand there, or a word too many.
    UnknownWord,
    /// A number is missing, malformed or out of range.
    BadNumber,
    /// A slot is missing, malformed or not allowed.
    BadSlot,
    /// The text ends inside a block.
    Unclosed,
    /// An `end` outside a section, or an `else` without its `if`.
    StrayEnd,
    /// A text to say or the name of a service is bad.
    BadText,
    /// A section or a local's limit is given twice.
    SectionTwice,
    /// The 4097th statement, or a fifth nesting.
    TooLong,
}

impl TextFault {
    /// Its code and its name, as a refusal prints them.
    pub fn word(self) -> &'static str
        ensures { result.now ≡ text_fault_word self }
    {
        match self {
            TextFault::UnknownWord => "M1 UnknownWord",
            TextFault::BadNumber => "M2 BadNumber",
            TextFault::BadSlot => "M3 BadSlot",
            TextFault::Unclosed => "M4 Unclosed",
            TextFault::StrayEnd => "M5 StrayEnd",
            TextFault::BadText => "M6 BadText",
            TextFault::SectionTwice => "M7 SectionTwice",
            TextFault::TooLong => "M8 TooLong",
        }
    }
}

impl Display for TextFault {
    ghost output = { λ fault. Some (text_fault_word fault) };

    fn fmt<W: Write>(&self, f: &mut Formatter<W>) -> fmt::Result {
        f.write_str(self.word())
    }
}

impl std::error::Error for TextFault {}

/// Why bytes are no program's code.
#[derive(Clone, Copy, Debug, PartialEq, Eq)]
pub enum CodeFault {
    /// The bytes end inside a number before the statements, or a section is longer than what is left.
    Truncated,
    /// No statement has this number.
    UnknownOpcode,
    /// An operand is out of its range.
    BadOperand,
    /// A statement, an arm or a body reaches past the end of the one that it stands in, or a fifth nesting.
    BadNesting,
    /// The 4097th statement.
    TooLong,
    /// Bytes after the last section.
    TrailingBytes,
}

impl CodeFault {
    /// Its code and its name, as a refusal prints them.
    pub fn word(self) -> &'static str
        ensures { result.now ≡ code_fault_word self }
    {
        match self {
            CodeFault::Truncated => "C1 Truncated",
            CodeFault::UnknownOpcode => "C2 UnknownOpcode",
            CodeFault::BadOperand => "C3 BadOperand",
            CodeFault::BadNesting => "C4 BadNesting",
            CodeFault::TooLong => "C5 TooLong",
            CodeFault::TrailingBytes => "C6 TrailingBytes",
        }
    }
}

impl Display for CodeFault {
    ghost output = { λ fault. Some (code_fault_word fault) };

    fn fmt<W: Write>(&self, f: &mut Formatter<W>) -> fmt::Result {
        f.write_str(self.word())
    }
}

impl std::error::Error for CodeFault {}

/// Why a line, or a text, is no list of turns.
#[derive(Clone, Copy, Debug, PartialEq, Eq)]
pub enum TurnFault {
    /// A line of another form.
    BadLine,
    /// A name that is no leaf's.
    NoSuchComponent,
    /// More than 1,000,000 turns, or a text of more than 16 MiB.
    TooMany,
    /// An input that the leaf has not.
    NoInput,
    /// A number above the greatest value of an input.
    InputTooLarge,
    /// A signal that the leaf has not.
    NoSignal,
}

impl TurnFault {
    /// Its code and its name, as a refusal prints them.
    pub fn word(self) -> &'static str
        ensures { result.now ≡ turn_fault_word self }
    {
        match self {
            TurnFault::BadLine => "U1 BadLine",
            TurnFault::NoSuchComponent => "U2 NoSuchComponent",
            TurnFault::TooMany => "U3 TooMany",
            TurnFault::NoInput => "U4 NoInput",
            TurnFault::InputTooLarge => "U5 InputTooLarge",
            TurnFault::NoSignal => "U6 NoSignal",
        }
    }
}

impl Display for TurnFault {
    ghost output = { λ fault. Some (turn_fault_word fault) };

    fn fmt<W: Write>(&self, f: &mut Formatter<W>) -> fmt::Result {
        f.write_str(self.word())
    }
}

impl std::error::Error for TurnFault {}
