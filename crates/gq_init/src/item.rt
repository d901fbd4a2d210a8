// What a line of a list of turns gives, as it is kept: a million items take a page of the host for each five hundred, so each is kept in eight bytes.
ghost use Rattle.std.specs.Prelude.{◌≡◌, ◌<◌, ◌≤◌};
ghost use Rattle.gq_model.specs.declared.act.Act.TheVariants.{Turns, Sets, Submits};
ghost use Rattle.gq_model.specs.declared.act.TurnLine.TheVariants.{Gives, Rests};
ghost use Rattle.gq_model.specs.texts.Turns.{line_turns};
ghost use Rattle.gq_init.specs.Turn_items.{IsHeld, IsOf};

use gq_model::act::{Act, TurnLine};
use gq_scenario::scenario::LeafNo;
use std::marker::Model;

// The number of the leaf is packed times this, with a smaller number added.
const COUNTS: u32 = 16_777_216;

// What is added is a number of turns below this, or else this alone for a line that brings all work to rest.
const RESTS: u32 = 16_777_204;

// Or what is added is this and the number of a signal.
const SIGNALS: u32 = 16_777_205;

// Or what is added is this and the number of an input.
const SETTINGS: u32 = 16_777_208;

/// How many turns of a line count; a setting, a signal and a line that brings all work to rest have none.
#[inline(always)]
pub fn line_turns(line: TurnLine) -> u32
    ensures { result ≡ line_turns line }
{
    match line {
        TurnLine::Gives(_, Act::Turns(count)) => count,
        TurnLine::Gives(_, Act::Sets(_, _))
        | TurnLine::Gives(_, Act::Submits(_))
        | TurnLine::Rests => 0,
    }
}

/// What a line of a list of turns gives: a leaf and a number of turns, another value of an input, or a signal; or turns that bring all work to rest. It has
/// eight bytes.
#[derive(Drop)]
pub struct TurnItem {
    // The number of the leaf times `COUNTS`, plus the number of turns, or plus `RESTS`, or plus `SIGNALS` and the number of the signal, or plus `SETTINGS` and
    // the number of the input.
    packed: u32,
    // The value of the input; 0 for all others.
    value: u32,
}

impl Model for TurnItem {
    ghost use Rattle.std.specs.Prelude.{◌/◌, ◌%◌};
    ghost use Rattle.gq_model.specs.declared.act.TurnLine.{TurnLine};
    ghost use Rattle.gq_init.specs.Turn_items.{line_at};

    ghost Value = { TurnLine };

    ghost view = { λ t. line_at (t.packed / 16777216) (t.packed % 16777216) t.value };
}

impl TurnItem {
    /// So many turns, fewer than 16,777,204, of this leaf, one of the first 256.
    #[inline(always)]
    pub fn new(leaf: LeafNo, count: u32) -> TurnItem
        requires leaf { leaf < 256 }
        requires count { count < 16777204 }
        ensures { result ≡ Gives leaf (Turns count) }
    {
        TurnItem {
            packed: leaf.number() * COUNTS + count,
            value: 0,
        }
    }

    /// Another value of an input, one of the first 8, of this leaf, one of the first 256.
    #[inline(always)]
    pub fn setting(leaf: LeafNo, input: u8, value: u32) -> TurnItem
        requires leaf { leaf < 256 }
        requires input { input < 8 }
        ensures { result ≡ Gives leaf (Sets input value) }
    {
        TurnItem {
            packed: leaf.number() * COUNTS + SETTINGS + u32::from(input),
            value,
        }
    }

    /// A signal, one of the first 3, of this leaf, one of the first 256.
    #[inline(always)]
    pub fn signal(leaf: LeafNo, signal: u8) -> TurnItem
        requires leaf { leaf < 256 }
        requires signal { signal < 3 }
        ensures { result ≡ Gives leaf (Submits signal) }
    {
        TurnItem {
            packed: leaf.number() * COUNTS + SIGNALS + u32::from(signal),
            value: 0,
        }
    }

    /// Turns that bring all work to rest.
    #[inline(always)]
    pub fn rest() -> TurnItem
        ensures { result ≡ Rests }
    {
        TurnItem {
            packed: RESTS,
            value: 0,
        }
    }

    /// What a line gives, whose leaf is one of the first 256.
    #[inline(always)]
    pub fn of(line: TurnLine) -> TurnItem
        requires leaf { IsOf 256 line }
        requires held { IsHeld line }
        ensures { result ≡ line }
    {
        match line {
            TurnLine::Gives(leaf, Act::Turns(count)) => TurnItem::new(LeafNo::new(leaf), count),
            TurnLine::Gives(leaf, Act::Sets(input, value)) => {
                TurnItem::setting(LeafNo::new(leaf), input, value)
            }
            TurnLine::Gives(leaf, Act::Submits(signal)) => {
                TurnItem::signal(LeafNo::new(leaf), signal)
            }
            TurnLine::Rests => TurnItem::rest(),
        }
    }

    /// What the line gives.
    #[inline(always)]
    pub fn line(&self) -> TurnLine
        ensures { result ≡ self.now }
    {
        let leaf = self.packed / COUNTS;
        let count = self.packed % COUNTS;
        if count < RESTS {
            return TurnLine::Gives(leaf, Act::Turns(count));
        }
        if count < SIGNALS {
            return TurnLine::Rests;
        }
        if count < SETTINGS {
            return TurnLine::Gives(leaf, Act::Submits((count - SIGNALS) as u8));
        }
        TurnLine::Gives(leaf, Act::Sets((count - SETTINGS) as u8, self.value))
    }

    /// How many turns of the line count; a setting, a signal and a line that brings all work to rest have none.
    #[inline(always)]
    pub fn count(&self) -> u32
        ensures { result ≡ line_turns self.now }
    {
        line_turns(self.line())
    }
}
