// Inputs, signals and turns.
ghost use Rattle.std.specs.Prelude.{◌≡◌, ◌<◌, ◌≤◌, ◌↔◌, length, None, IfSome};
ghost use Rattle.gq_model.specs.machine.Scenario.{components};
ghost use Rattle.gq_library.specs.Loads.{Holds};
ghost use Rattle.gq_library.specs.C_settings.{IsSetting};
ghost use Rattle.gq_library.specs.C_signals.{HasSignal, IsSubmitted};
ghost use Rattle.gq_library.specs.C_turns.{AreRun, AreTaken, IsTaken};

use crate::held::WorldHandle;
use crate::inputs::set_input;
use crate::result_codes::{IDLE, NO_INPUT, NO_SIGNAL, NONE, SET, SUBMITTED};
use crate::signals::signal as signal_of;
use crate::tour::run;
use crate::turn::turn;
use crate::turn_burst::turns;
use std::alloc::Global;

/// Gives an input of a leaf another value, from here on. It is no turn. A leaf that has exited keeps its inputs, which are 0.
///
/// - `SET`: the value is set.
/// - `NO_INPUT`: there is no such leaf, or it has no input of this number; nothing is changed.
/// - `TOO_LARGE`: the number is above the greatest value of the input; nothing is changed.
#[unsafe(no_mangle)]
pub extern "C" fn trade_set_input(
    alloc: Global,
    world: &mut WorldHandle,
    leaf: u32,
    input: u32,
    number: u32,
) -> u32
    ensures set { IfSome world.old.world (λ w. Holds world.new.world (λ after. IsSetting w after leaf input number result)) }
    ensures unchanged { (result ≡ SET → ⊥) → world.new.world ≡ world.old.world }
    ensures empty { world.old.world ≡ None → result ≡ NO_INPUT }
{
    match world.take(alloc) {
        None => NO_INPUT,
        Some(mut owned) => {
            let set = set_input(owned.world_mut(), leaf, input, number);
            world.put(alloc, owned);
            set
        }
    }
}

/// Submits a signal of a leaf, whatever the leaf does. It is no turn. One that is submitted again before it is taken counts once.
///
/// - `SUBMITTED`: the signal is submitted.
/// - `NO_SIGNAL`: there is no such leaf, or it has no signal of this number; nothing is changed.
#[unsafe(no_mangle)]
pub extern "C" fn trade_signal(
    alloc: Global,
    world: &mut WorldHandle,
    leaf: u32,
    signal: u32,
) -> u32
    ensures submitted { result ≡ SUBMITTED → IfSome world.old.world (λ w. Holds world.new.world (λ after. IsSubmitted w after leaf signal)) }
    ensures none { IfSome world.old.world (λ w. result ≡ NO_SIGNAL → HasSignal w.scenario leaf signal → ⊥) }
    ensures known { (result ≡ SUBMITTED → ⊥) → result ≡ NO_SIGNAL }
    ensures unchanged { result ≡ NO_SIGNAL → world.new.world ≡ world.old.world }
    ensures empty { world.old.world ≡ None → result ≡ NO_SIGNAL }
{
    match world.take(alloc) {
        None => NO_SIGNAL,
        Some(mut owned) => {
            let submitted = signal_of(owned.world_mut(), leaf, signal);
            world.put(alloc, owned);
            submitted
        }
    }
}

/// One turn of a leaf: one step where it can run. The result is the number of its event. The text of its line, of at most 64 bytes and without the label, is
/// put into `line`, as much of it as fits. The length of the whole text, 0 if there is none, is put into `written`.
///
/// If there is no such leaf, the result is `NONE` and nothing is changed.
#[unsafe(no_mangle)]
pub extern "C" fn trade_turn(
    alloc: Global,
    world: &mut WorldHandle,
    leaf: u32,
    line: &mut [u8],
    written: &mut usize,
) -> u32
    ensures taken { IfSome world.old.world (λ w. leaf < length (components w.scenario)
        → Holds world.new.world (λ after. IsTaken w after leaf result line.old line.new written.new)) }
    ensures none { IfSome world.old.world (λ w. (result ≡ NONE) ↔ (length (components w.scenario) ≤ leaf)) }
    ensures empty { world.old.world ≡ None → result ≡ NONE }
    ensures stays { result ≡ NONE → world.new.world ≡ world.old.world }
    ensures line { result ≡ NONE → line.new ≡ line.old }
    ensures written { result ≡ NONE → written.new ≡ written.old }
{
    match world.take(alloc) {
        None => NONE,
        Some(mut owned) => {
            let event = turn(owned.world_mut(), leaf, line, written);
            world.put(alloc, owned);
            event
        }
    }
}

/// Turns of a leaf, at most `most`: up to the first that gives a line or is its last, and as long as it can take one. `taken` gets how many were taken.
///
/// The result, `line` and `written` are those of the last of these turns, as of `trade_turn`. If there was none, the result is that of an idle turn. If
/// there is no such leaf, the result is `NONE`, `taken` is 0, and nothing else is changed.
#[unsafe(no_mangle)]
pub extern "C" fn trade_turns(
    alloc: Global,
    world: &mut WorldHandle,
    leaf: u32,
    most: u32,
    taken: &mut u32,
    line: &mut [u8],
    written: &mut usize,
) -> u32
    ensures taken { IfSome world.old.world (λ w. leaf < length (components w.scenario)
        → Holds world.new.world (λ after. AreTaken w after leaf most taken.new result line.old line.new written.new)) }
    ensures few { taken.new ≤ most }
    ensures none { IfSome world.old.world (λ w. (result ≡ NONE) ↔ (length (components w.scenario) ≤ leaf)) }
    ensures empty { world.old.world ≡ None → result ≡ NONE }
    ensures no_turn { result ≡ NONE → taken.new ≡ 0 }
    ensures stays { result ≡ NONE → world.new.world ≡ world.old.world }
    ensures line { result ≡ NONE → line.new ≡ line.old }
    ensures written { result ≡ NONE → written.new ≡ written.old }
{
    match world.take(alloc) {
        None => {
            *taken = 0;
            NONE
        }
        Some(mut owned) => {
            let event = turns(owned.world_mut(), leaf, most, taken, line, written);
            world.put(alloc, owned);
            event
        }
    }
}

/// Turns of all leaves, at most `most`, round by round in preorder from leaf `leaf` on, from the first if there is no such leaf, each as long as it can take
/// one:
/// up to the first turn that gives a line or is a leaf's last, or until none can take one. `leaf` gets the leaf of the last turn, and stays as it was if none
/// was taken.
///
/// The result, `taken`, `line` and `written` are as of `trade_turns`. If no turn was taken, the result is that of an idle turn: no leaf can take one, `most` is
/// 0, or the handle is empty.
#[unsafe(no_mangle)]
pub extern "C" fn trade_run(
    alloc: Global,
    world: &mut WorldHandle,
    most: u32,
    leaf: &mut u32,
    taken: &mut u32,
    line: &mut [u8],
    written: &mut usize,
) -> u32
    ensures run { IfSome world.old.world (λ w. Holds world.new.world
        (λ after. AreRun w after most leaf.old leaf.new taken.new result line.old line.new written.new)) }
    ensures few { taken.new ≤ most }
    ensures empty { world.old.world ≡ None → (result ≡ IDLE) × (taken.new ≡ 0) × (written.new ≡ 0) × (leaf.new ≡ leaf.old) × (line.new ≡ line.old) }
    ensures none { world.old.world ≡ None → world.new.world ≡ None }
{
    match world.take(alloc) {
        None => {
            *taken = 0;
            *written = 0;
            IDLE
        }
        Some(mut owned) => {
            let event = run(owned.world_mut(), most, leaf, taken, line, written);
            world.put(alloc, owned);
            event
        }
    }
}
