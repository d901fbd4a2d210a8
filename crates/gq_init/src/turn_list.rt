// Turns, settings and signals that are read line by line.
ghost use Rattle.std.specs.Prelude.{◌≡◌, ℕ, List, [], ◌++◌, ◌<◌, ◌≤◌, ◌+◌, ◌^◌, ◌&&◌, Bool, not, is_none, None, length, IfOk, OnOk};
ghost use Rattle.gq_model.specs.machine.Scenario.{Scenario};
ghost use Rattle.gq_model.specs.texts.Letters.{lines};
ghost use Rattle.gq_model.specs.machine.Rest.{greatest_turns};
ghost use Rattle.gq_init.specs.TurnLines.{IsTurned};
ghost use Rattle.gq_init.specs.TurnReading.{reported};
ghost use Rattle.gq_init.specs.internal.Piecewise_lines.{lines_read};

use crate::item::{TurnItem, line_turns};
use crate::name_index::NameIndex;
use crate::turns::{TurnsError, next_turn, turn_ahead};
use gq_model::fault::TurnFault;
use gq_model::limits::GREATEST_TURNS;
use gq_resolve::NodeTable;
use std::alloc::{AllocError, Global};

// Whether more of a line may come: no line feed ends it, and the text is not the last one.
#[inline(always)]
fn is_begun(after: &Option<&[u8]>, is_last: bool) -> bool
    ensures { result ≡ (is_none after.now && not is_last) }
{
    after.is_none() && !is_last
}

/// The turns, settings and signals of the lines that were read, up to the first that is wrong.
#[derive(Drop)]
pub(crate) struct TurnList {
    pub(crate) items: Vec<TurnItem>,
    // How many turns they are together; settings and signals are none.
    pub(crate) total: u32,
    // How many lines were read.
    pub(crate) line: u64,
    // The first fault, and its line from 1. Behind it nothing is read.
    pub(crate) fault: Option<(TurnFault, u64)>,
}

impl TurnList {
    /// No line, with room for so many turns.
    pub(crate) fn new(alloc: Global, room: usize) -> Result<TurnList, AllocError>
        ensures items { IfOk result (λ t. t.items.items ≡ []) }
        ensures total { IfOk result (λ t. t.total ≡ 0) }
        ensures line { IfOk result (λ t. t.line ≡ 0) }
        ensures fault { IfOk result (λ t. t.fault ≡ None) }
    {
        let items = Vec::with_capacity(alloc, room)?;
        Ok(TurnList {
            items,
            total: 0,
            line: 0,
            fault: None,
        })
    }

    /// Reads the lines of a text: all of them where it is the last one, else those that end in it. After a refusal it has read no one knows which.
    pub(crate) fn read_lines(
        &mut self,
        text: &[u8],
        is_last: bool,
        table: &NodeTable,
        names: &NameIndex,
    ) -> Result<(), AllocError>
        requires few { self.old.total ≤ greatest_turns }
        requires short { self.old.line + length text.now < 2 ^ 62 }
        ensures few { self.new.total ≤ greatest_turns }
        ensures counted { self.new.line ≤ self.old.line + length text.now + 1 }
        ensures reported { OnOk result ((more : List (List ℕ)) → reported table.now self.new.items.items self.new.total self.new.line self.new.fault more
            ≡ reported table.now self.old.items.items self.old.total self.old.line self.old.fault (lines_read is_last (lines text.now) ++ more)) }
    {
        if self.fault.is_some() {
            return Ok(());
        }
        let _few = table.leaf_count();
        let mut left = Some(text);
        while let Some(begun) = left {
            let rest = self.read_ahead(begun, table, names)?;
            let (said, after) = next_turn(rest, self.total, table, names);
            if is_begun(&after, is_last) {
                return Ok(());
            }
            left = after;
            self.line += 1;
            match said {
                Ok(None) => {}
                Ok(Some(turn)) => {
                    self.total += line_turns(turn);
                    match self.items.push(TurnItem::of(turn)) {
                        Ok(()) => {}
                        Err(_) => return Err(AllocError),
                    }
                }
                Err(fault) => {
                    self.fault = Some((fault, self.line));
                    return Ok(());
                }
            }
        }
        Ok(())
    }

    // Reads the lines at the start of a text that are turns, each in one go, as long as they are not too many. It reports what follows them.
    fn read_ahead<'a>(
        &mut self,
        text: &'a [u8],
        table: &NodeTable,
        names: &NameIndex,
    ) -> Result<&'a [u8], AllocError>
        requires few { self.old.total ≤ greatest_turns }
        requires short { self.old.line + length text.now < 2 ^ 63 }
        requires clear { self.old.fault ≡ None }
        ensures few { self.new.total ≤ greatest_turns }
        ensures clear { self.new.fault ≡ None }
        ensures counted { IfOk result (λ rest. self.new.line + length rest.now ≤ self.old.line + length text.now) }
        ensures shorter { IfOk result (λ rest. length rest.now ≤ length text.now) }
        ensures most { self.new.line ≤ self.old.line + length text.now }
        ensures reported { IfOk result (λ rest. (is_last : Bool) (more : List (List ℕ)) →
            reported table.now self.new.items.items self.new.total self.new.line None (lines_read is_last (lines rest.now) ++ more)
            ≡ reported table.now self.old.items.items self.old.total self.old.line None (lines_read is_last (lines text.now) ++ more)) }
    {
        let _few = table.leaf_count();
        let mut left = text;
        let mut total = self.total;
        let mut line = self.line;
        while let Some((turn, after)) = turn_ahead(left, table, names) {
            if turn.1 > GREATEST_TURNS - total {
                break;
            }
            match self.items.push(TurnItem::new(turn.0, turn.1)) {
                Ok(()) => {}
                Err(_) => return Err(AllocError),
            }
            total += turn.1;
            line += 1;
            left = after;
        }
        self.total = total;
        self.line = line;
        Ok(left)
    }

    /// The turns, settings and signals of all lines, or the first fault.
    pub(crate) fn finish(self) -> Result<Vec<TurnItem>, TurnsError>
        ensures { (s : Scenario) → IsTurned result (reported s self.items.items self.total self.line self.fault []) }
    {
        match self.fault {
            Some((fault, line)) => Err(TurnsError::Fault { fault, line }),
            None => Ok(self.items),
        }
    }
}
