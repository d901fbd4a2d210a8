//! Turns, settings and signals of a text that comes in pieces.
ghost use Rattle.std.specs.Prelude.{◌≡◌, ℕ, List, [], ◌++◌, ◌<◌, ◌≤◌, ◌+◌, ◌^◌, length, IfOk, OnOk};
ghost use Rattle.gq_model.specs.texts.Turns.{listed};
ghost use Rattle.gq_init.specs.TurnLines.{IsTurned};
ghost use Rattle.gq_init.specs.TurnReading.{answer};
ghost use Rattle.gq_init.specs.internal.Piecewise_lines.{IsEnded};

use crate::item::TurnItem;
use crate::name_index::NameIndex;
use crate::turn_list::TurnList;
use crate::turns::TurnsError;
use gq_model::fault::TurnFault;
use gq_model::limits::{GREATEST_TURNS, GREATEST_TURNS_TEXT};
use gq_resolve::NodeTable;
use memchr::{memchr, memrchr};
use std::alloc::{AllocError, Global};
use std::marker::Model;

/// Turns, settings and signals that are read from a text that comes in pieces. Of the text it keeps no more than what follows its last line feed, and of each
/// line eight bytes at most.
#[derive(Drop)]
pub struct TurnReader {
    names: NameIndex,
    turns: TurnList,
    size: usize,
    // What follows the last line feed.
    last: Vec<u8>,
}

impl Model for TurnReader {
    ghost use Rattle.gq_init.specs.TurnReading.{Reading};
    ghost use Rattle.gq_init.specs.internal.Piecewise_lines.{IsReading};

    ghost Value = { Reading };

    ghost view = { λ r. record {
      items = r.turns.items.items;
      total = r.turns.total;
      line = r.turns.line;
      fault = r.turns.fault;
      size = r.size;
      last = r.last.items;
    } };

    ghost invariant = { λ r. IsReading r.turns.total r.turns.line r.size r.last.items };
}

impl TurnReader {
    /// A reader of which all of the text is still to come, and the leaves of whose turns are those of the table. Fails if the host refuses memory.
    pub fn new(alloc: Global, table: &NodeTable) -> Result<TurnReader, AllocError>
        ensures size { IfOk result (λ r. r.size ≡ 0) }
        ensures answer { IfOk result (λ r. (rest : List ℕ) → answer table.now r rest ≡ listed table.now rest) }
    {
        let turns = TurnList::new(alloc, GREATEST_TURNS as usize)?;
        Ok(TurnReader {
            names: NameIndex::of(table),
            turns,
            size: 0,
            last: Vec::new(alloc),
        })
    }

    /// How many bytes of the text have come.
    pub fn size(&self) -> usize
        ensures { result ≡ self.now.size }
    {
        self.size
    }

    /// Reads the next piece of the text. Fails if the host refuses memory; what was read is lost then.
    pub fn push(&mut self, piece: &[u8], table: &NodeTable) -> Result<(), AllocError>
        requires { self.old.size + length piece.now < 2 ^ 60 }
        ensures size { OnOk result (self.new.size ≡ self.old.size + length piece.now) }
        ensures answer { OnOk result ((rest : List ℕ) →
            answer table.now self.new rest ≡ answer table.now self.old (piece.now ++ rest)) }
    {
        let Some(end) = memchr(b'\n', piece) else {
            return self.keep(piece);
        };
        self.end_line(&piece[..end + 1], table)?;
        self.push_lines(&piece[end + 1..], table)
    }

    // Reads a piece in which the line that was begun ends, and no other.
    fn end_line(&mut self, piece: &[u8], table: &NodeTable) -> Result<(), AllocError>
        requires size { self.old.size + length piece.now < 2 ^ 60 }
        requires ended { IsEnded piece.now }
        ensures size { OnOk result (self.new.size ≡ self.old.size + length piece.now) }
        ensures last { OnOk result (self.new.last ≡ []) }
        ensures answer { OnOk result ((rest : List ℕ) →
            answer table.now self.new rest ≡ answer table.now self.old (piece.now ++ rest)) }
    {
        self.keep(piece)?;
        let read = self
            .turns
            .read_lines(self.last.as_slice(), false, table, &self.names);
        self.last.clear();
        read
    }

    // Reads a piece that begins with a line.
    fn push_lines(&mut self, piece: &[u8], table: &NodeTable) -> Result<(), AllocError>
        requires size { self.old.size + length piece.now < 2 ^ 60 }
        requires last { self.old.last ≡ [] }
        ensures size { OnOk result (self.new.size ≡ self.old.size + length piece.now) }
        ensures answer { OnOk result ((rest : List ℕ) →
            answer table.now self.new rest ≡ answer table.now self.old (piece.now ++ rest)) }
    {
        let Some(end) = memrchr(b'\n', piece) else {
            return self.keep(piece);
        };
        self.push_ended(&piece[..end + 1], table)?;
        self.keep(&piece[end + 1..])
    }

    // Reads a piece of whole lines.
    fn push_ended(&mut self, piece: &[u8], table: &NodeTable) -> Result<(), AllocError>
        requires size { self.old.size + length piece.now < 2 ^ 60 }
        requires last { self.old.last ≡ [] }
        requires ended { IsEnded piece.now }
        ensures size { OnOk result (self.new.size ≡ self.old.size + length piece.now) }
        ensures answer { OnOk result ((rest : List ℕ) →
            answer table.now self.new rest ≡ answer table.now self.old (piece.now ++ rest)) }
    {
        self.size += piece.len();
        self.turns.read_lines(piece, false, table, &self.names)
    }

    // Keeps a piece in which no line ends.
    fn keep(&mut self, piece: &[u8]) -> Result<(), AllocError>
        requires size { self.old.size + length piece.now < 2 ^ 60 }
        ensures kept { OnOk result (self.new ≡ record self.old { size = self.old.size + length piece.now; last = self.old.last ++ piece.now }) }
    {
        self.size += piece.len();
        self.last.extend_from_slice(piece)
    }

    /// The turns, settings and signals of the text, of which all has come, or its first fault, as `read_turns` reports them.
    pub fn finish(mut self, table: &NodeTable) -> Result<Vec<TurnItem>, TurnsError>
        ensures { IsTurned result (answer table.now self []) }
    {
        if self.size > GREATEST_TURNS_TEXT {
            return Err(TurnsError::Fault {
                fault: TurnFault::TooMany,
                line: 0,
            });
        }
        self.turns
            .read_lines(self.last.as_slice(), true, table, &self.names)?;
        self.turns.finish()
    }
}
