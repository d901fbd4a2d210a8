// Lines of one word: submitted signals, `NAME!I`, and `rest`.
ghost use Rattle.std.specs.Prelude.{◌≡◌, ◌==◌, ◌∷◌, [], ◌<◌, length, option_map, Some, IfOk, IfSome};
ghost use Rattle.gq_model.specs.machine.Scenario.{components};
ghost use Rattle.gq_model.specs.texts.Letters.{pieces};
ghost use Rattle.gq_model.specs.texts.Turns.{has_signals, signal_in, signal_at, signal_of};
ghost use Rattle.gq_init.specs.Turn_items.{IsHeld, IsOf};
ghost use Rattle.gq_init.specs.TurnLines.{given_in};

use crate::name_index::NameIndex;
use crate::settings::number_up_to;
use gq_model::act::{Act, TurnLine};
use gq_model::fault::TurnFault;
use gq_model::letters::is_name;
use gq_model::spelling::same_text;
use gq_resolve::NodeTable;
use gq_scenario::scenario::LeafNo;
use gq_scenario::text_pieces::next_piece;

// The name of a leaf and the number of a signal, with an exclamation mark between.
fn read_name(text: &[u8]) -> Option<(&[u8], u8)>
    ensures signal { option_map (λ r. (r.0.now, r.1)) result ≡ signal_in (pieces (λ c. c == 33) text.now) }
    ensures small { IfSome result (λ r. r.1 < 3) }
{
    let (name, rest) = next_piece(text, b'!');
    let signal = number_up_to(rest?, 1, 2)?;
    if is_name(name) {
        Some((name, signal as u8))
    } else {
        None
    }
}

// Whether leaves of the scenario can have signals.
fn has_signals(table: &NodeTable) -> bool
    ensures { result ≡ has_signals table.now.version }
{
    table.scenario().version().number() >= 4
}

// This signal of a leaf, if the leaf has it.
fn signal_at(table: &NodeTable, leaf: LeafNo, signal: u8) -> Result<TurnLine, TurnFault>
    requires there { leaf < length (components table.now) }
    requires small { signal < 3 }
    ensures signal { result ≡ signal_at (components table.now) (Some leaf) signal }
    ensures there { IfOk result (IsOf (length (components table.now))) }
    ensures held { IfOk result IsHeld }
{
    if signal < table.signals(leaf) {
        Ok(TurnLine::Gives(leaf.number(), Act::Submits(signal)))
    } else {
        Err(TurnFault::NoSignal)
    }
}

// The signal that a word names, if it does.
fn read_signal(word: &[u8], table: &NodeTable, names: &NameIndex) -> Result<TurnLine, TurnFault>
    ensures signal { result ≡ signal_of (components table.now) (signal_in (pieces (λ c. c == 33) word.now)) }
    ensures there { IfOk result (IsOf (length (components table.now))) }
    ensures held { IfOk result IsHeld }
{
    let Some((name, signal)) = read_name(word) else {
        return Err(TurnFault::BadLine);
    };
    match names.leaf_named(name, table) {
        Some(leaf) => signal_at(table, leaf, signal),
        None => Err(TurnFault::NoSuchComponent),
    }
}

/// What a line of one word says.
pub(crate) fn read_word(
    word: &[u8],
    table: &NodeTable,
    names: &NameIndex,
) -> Result<TurnLine, TurnFault>
    ensures line { result ≡ given_in table.now (word.now ∷ []) }
    ensures there { IfOk result (IsOf (length (components table.now))) }
    ensures held { IfOk result IsHeld }
{
    if !has_signals(table) {
        return Err(TurnFault::BadLine);
    }
    if same_text(word, b"rest") {
        return Ok(TurnLine::Rests);
    }
    read_signal(word, table, names)
}
