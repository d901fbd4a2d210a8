// The outcomes of an accepted scenario.
ghost use Rattle.std.specs.Prelude.{◌≡◌, Ok, IfOk, IfErr, OnOk, length};
ghost use Rattle.gq_model.specs.machine.Scenario.{components};
ghost use Rattle.gq_output.specs.Writer_failures.{written_to};
ghost use Rattle.gq_outcomes.specs.Laws.{WritesTurnsTo};
ghost use Rattle.gq_outcomes.specs.Text.{nth_outcome};
ghost use Rattle.gq_outcomes.specs.Written.{outcome_turns_written, outcomes_written, turns_of_outcome};
ghost use Rattle.gq_outcomes.specs.internal.Search_states.{Finds, IsSearch};
ghost use Rattle.gq_reports.specs.Command_outcomes.{IsBefore, IsFaultOf, WritesAs};

use crate::laws::turn_list_laws;
use crate::search::{Search, search_all};
use crate::text::{search_text, turns_text};
use crate::walk::Walk;
use gq_output::counted::Counted;
use gq_reports::RunFault;
use gq_reports::command_text::put_text;
use std::alloc::Global;
use std::io::Write;

// The text of all outcomes of the scenario of a text.
fn all_text(alloc: Global, scenario: &[u8]) -> Result<Vec<u8>, RunFault<'static>>
    ensures text { IfOk result (λ text. outcomes_written scenario.now ≡ Ok text.items) }
    ensures refused { IfErr result (λ fault. IsBefore fault × IsFaultOf fault (outcomes_written scenario.now)) }
{
    let mut walk = Walk::new(alloc, scenario)?;
    let search = search_all(alloc, scenario, &mut walk)?;
    drop(walk);
    let text = search_text(alloc, &search)?;
    Ok(text)
}

// The turns with which an outcome of this number was found.
fn text_of_turns(
    alloc: Global,
    walk: &Walk,
    search: &Search,
    number: u32,
) -> Result<Vec<u8>, RunFault<'static>>
    requires { IsSearch (length (components walk.now.world.scenario)) search.now }
    ensures text { (t : _) → Finds search.now t
        → IfOk result (λ text. turns_of_outcome walk.now.world.scenario number (nth_outcome number t.found) ≡ Ok text.items) }
    ensures refused { (t : _) → Finds search.now t
        → IfErr result (λ fault. IsBefore fault × IsFaultOf fault (turns_of_outcome walk.now.world.scenario number (nth_outcome number t.found))) }
{
    if number == 0 {
        return Err(RunFault::NoOutcome(number));
    }
    let place = number as usize - 1;
    if place >= search.found.len() {
        return Err(RunFault::NoOutcome(number));
    }
    let found = &search.found[place];
    let text = turns_text(alloc, walk.world.table(), found.past.as_slice())?;
    Ok(text)
}

// The turns with which an outcome of the scenario of a text was found.
fn turns_to(alloc: Global, scenario: &[u8], number: u32) -> Result<Vec<u8>, RunFault<'static>>
    ensures text { IfOk result (λ text. outcome_turns_written number scenario.now ≡ Ok text.items) }
    ensures refused { IfErr result (λ fault. IsBefore fault × IsFaultOf fault (outcome_turns_written number scenario.now)) }
{
    let mut walk = Walk::new(alloc, scenario)?;
    let search = search_all(alloc, scenario, &mut walk)?;
    let text = text_of_turns(alloc, &walk, &search, number);
    drop(walk);
    drop(search);
    text
}

/// Writes the outcomes of an accepted scenario: all ways in which a run of it can end.
///
/// The inputs of all leaves are 0, and no signal is submitted. The outcome of a run to rest is what each leaf that provides nothing has written, and the
/// account lines at its end. For each outcome, in the order in which they are found:
///
/// - a line `outcome` with its number and the number of turns with which it was found;
/// - the lines of leaves that provide nothing, leaves in preorder;
/// - the account lines.
///
/// The last line is the number of outcomes, `1 outcome` if there is one. If more than 10,000,000 turns would be needed, it is a comment that says so.
///
/// If the scenario is refused, as `check` refuses it, or host memory is, nothing is written. After a failed write a prefix of the text was written.
pub fn outcomes<W: Write>(
    alloc: Global,
    scenario: &[u8],
    out: &mut Counted<W>,
) -> Result<(), RunFault<'static>>
    ensures writes { WritesAs W.contents (outcomes_written scenario.now) out.old out.new result }
{
    let text = all_text(alloc, scenario)?;
    put_text(out, text.as_slice())
}

/// Writes the turns with which an outcome was found, with a line for each unbroken row of turns of one leaf. The first outcome has the number 1.
///
/// - A row of more than 9,999,999 turns is parted, since a line of a list of turns has a number of at most seven digits.
/// - If there are more than 1,000,000 turns, the first line is a comment that says so: a list may have no more.
///
/// Else the text is read back as a list of turns, and a run over them ends as the outcome says (`leads`). A list has at most 16 MiB; the text of more than
/// 883,011 turns may be longer, and is not read then.
///
/// If there is no outcome of this number, the call fails with `NoOutcome`. Else it fails as `outcomes` does.
pub fn outcome_turns<W: Write>(
    alloc: Global,
    scenario: &[u8],
    number: u32,
    out: &mut Counted<W>,
) -> Result<(), RunFault<'static>>
    ensures writes { WritesAs W.contents (outcome_turns_written number scenario.now) out.old out.new result }
    ensures leads { OnOk result (WritesTurnsTo number scenario.now (written_to W.contents out.old) (written_to W.contents out.new)) }
{
    turn_list_laws();
    let text = turns_to(alloc, scenario, number)?;
    put_text(out, text.as_slice())
}
