// The statements by which the outcome of an accepted scenario could depend on the turns.
ghost use Rattle.std.specs.Prelude.{◌≡◌, ◌<◌, ◌++◌, ◌∷◌, [], List, IfOk, IfErr, IsOkAnd, OnOk, codes, length};
ghost use Rattle.gq_model.specs.machine.Scenario.{components};
ghost use Rattle.gq_laws.specs.Ready.{IsReady};
ghost use Rattle.gq_output.specs.Writer_failures.{written_to};
ghost use Rattle.gq_load.specs.Load_faults.{Refuses};
ghost use Rattle.gq_load.specs.Load.{loaded};
ghost use Rattle.gq_races.specs.Races.{AreSharedOf, IsInputFree, IsOrderFree, IsRaceFree, IsSignalFree};
ghost use Rattle.gq_races.specs.Race_text.{races_text, sections_lines, shared_text};
ghost use Rattle.gq_races.specs.Races_written.{MeansWithout, races_written, WroteNothing};
ghost use Rattle.gq_races.specs.internal.Conflicts.{sharing};
ghost use Rattle.gq_races.specs.internal.Openers.{opened_among};
ghost use Rattle.gq_races.specs.internal.Owners.{AreShared};
ghost use Rattle.gq_views.specs.Listing.{joined};
ghost use Rattle.gq_views.specs.internal.Table_leaves.{leaf_of};
ghost use Rattle.gq_reports.specs.Command_outcomes.{WritesAs};

use crate::conflicts::conflicts_later;
use crate::effects::push_leaf_effects;
use crate::openers::all_opened;
use crate::opens::push_openers;
use crate::owners::shared;
use gq_load::accepted::Accepted;
use gq_load::load_fault::LoadError;
use gq_load::read::read_laws;
use gq_output::counted::Counted;
use gq_reports::RunFault;
use gq_reports::command_text::put_text;
use gq_resolve::NodeTable;
use gq_scenario::scenario::LeafNo;
use gq_views::table_leaf::TableLeaf;
use std::alloc::{AllocError, Global};
use std::io::Write;

// The first line of a shared leaf.
fn push_shared(text: &mut Vec<u8>, server: &TableLeaf<'_>) -> Result<(), AllocError>
    ensures { OnOk result (text.new.items ≡ text.old.items ++ joined (shared_text server.now.component ∷ [])) }
{
    text.extend_from_slice(b"shared ")?;
    text.extend_from_slice(server.label())?;
    if let Some(service) = server.provides() {
        text.extend_from_slice(b" ")?;
        text.extend_from_slice(service.as_bytes())?;
    }
    text.extend_from_slice(b"\n")
}

// What stands before the lines of a leaf of this number, if it is shared and has a race or an order.
fn push_sharing(
    alloc: Global,
    text: &mut Vec<u8>,
    table: &NodeTable,
    leaf: LeafNo,
    server: &TableLeaf<'_>,
    shared: bool,
) -> Result<(), AllocError>
    requires { IsReady table.now }
    ensures { OnOk result (text.new.items ≡ text.old.items
        ++ joined (sharing shared server.now.component (opened_among (components table.now) leaf (components table.now)))) }
{
    if !shared || !conflicts_later(server.program()) {
        return Ok(());
    }
    push_shared(text, server)?;
    push_openers(alloc, text, table, leaf)
}

// The lines of a leaf.
fn push_leaf(
    alloc: Global,
    text: &mut Vec<u8>,
    table: &NodeTable,
    leaf: LeafNo,
    shared: bool,
) -> Result<(), AllocError>
    requires ready { IsReady table.now }
    requires leaf { leaf < length (components table.now) }
    ensures { OnOk result (text.new.items ≡ text.old.items ++ joined (
        sharing shared (leaf_of table.now leaf).component (opened_among (components table.now) leaf (components table.now))
        ++ sections_lines shared (leaf_of table.now leaf).component.label (leaf_of table.now leaf).component.node.program.sections)) }
{
    let server = TableLeaf::new(table, leaf);
    push_sharing(alloc, text, table, leaf, &server, shared)?;
    push_leaf_effects(alloc, text, server.label(), shared, server.program())
}

// The lines of all leaves.
fn push_leaves(
    alloc: Global,
    text: &mut Vec<u8>,
    table: &NodeTable,
    shared: &[bool],
) -> Result<(), AllocError>
    requires ready { IsReady table.now }
    requires shared { AreShared (components table.now) shared.now }
    ensures { OnOk result (text.new.items ≡ text.old.items ++ races_text table.now) }
{
    for number in 0..table.leaf_count() {
        let leaf = LeafNo::new(number as u32);
        push_leaf(alloc, text, table, leaf, shared[number])?;
    }
    Ok(())
}

/// Whether each leaf of a scenario is shared. Refused only if the host refuses memory.
pub fn all_shared(alloc: Global, table: &NodeTable) -> Result<Vec<bool>, AllocError>
    requires { IsReady table.now }
    ensures shared { IfOk result (λ shared. AreShared (components table.now) shared.items) }
    ensures defined { IfOk result (λ shared. AreSharedOf table.now shared.items) }
{
    let opened = all_opened(alloc, table)?;
    let shared = shared(alloc, opened.as_slice());
    drop(opened);
    shared
}

// The text of the scenario of a table.
fn table_text(alloc: Global, table: &NodeTable) -> Result<Vec<u8>, AllocError>
    requires { IsReady table.now }
    ensures { IfOk result (λ text. text.items ≡ races_text table.now) }
{
    let shared = all_shared(alloc, table)?;
    let mut text = Vec::new(alloc);
    let pushed = push_leaves(alloc, &mut text, table, shared.as_slice());
    drop(shared);
    pushed?;
    Ok(text)
}

// The text of the scenario of a text.
fn loaded_text(alloc: Global, scenario: &[u8]) -> Result<Vec<u8>, LoadError>
    ensures text { IfOk result (λ text. IsOkAnd (loaded scenario.now) (λ s. text.items ≡ races_text s)) }
    ensures refused { IfErr result (λ e. Refuses e (loaded scenario.now)) }
{
    read_laws();
    let accepted = Accepted::read(alloc, scenario)?;
    let text = table_text(alloc, accepted.table());
    drop(accepted);
    match text {
        Ok(text) => Ok(text),
        Err(_) => Err(LoadError::Memory),
    }
}

/// Writes what the outcome of an accepted scenario could depend on: the turns, when inputs are set, and when signals are submitted.
///
/// For each leaf that has any of these, leaves in preorder:
///
/// - If the leaf is shared and has a race or an order, a line `shared` with the leaf and its service.
/// - Below it a line `opened by` for each `open` of a session with it. Leaves go in preorder, statements in the order of the sections and the text.
/// - A line `signal` for each section that a signal begins.
/// - A line `input` for each `in`, in any section, whether the leaf is shared or not.
/// - If the leaf is shared, a line `race` for each statement outside `main` that changes an own slot, what is in it or what is behind it.
/// - If the leaf is shared, a line `order` for each statement outside `main` that writes a line.
///
/// The lines `signal`, `race`, `input` and `order` of a leaf go in the order of the sections and the text. The line of a section stands before those in it.
///
/// If no line that was written begins with `race `, there is no race (`raceless`). If none begins with `input `, no leaf has an `in` (`inputless`). If none
/// begins with `signal `, no leaf handles a signal (`unmoved`). If none begins with `order `, there is no order (`orderless`). If nothing was written,
/// there is none of these (`free`, `unset`, `still`, `quiet`).
///
/// If the scenario is refused, as `check` refuses it, or host memory is, nothing is written. After a failed write a prefix of the text was written.
pub fn races<W: Write>(
    alloc: Global,
    scenario: &[u8],
    out: &mut Counted<W>,
) -> Result<(), RunFault<'static>>
    ensures writes { WritesAs W.contents (races_written scenario.now) out.old out.new result }
    ensures raceless { OnOk result (MeansWithout (codes "race ") IsRaceFree scenario.now (written_to W.contents out.old) (written_to W.contents out.new)) }
    ensures inputless { OnOk result (MeansWithout (codes "input ") IsInputFree scenario.now (written_to W.contents out.old) (written_to W.contents out.new)) }
    ensures unmoved { OnOk result (MeansWithout (codes "signal ") IsSignalFree scenario.now (written_to W.contents out.old) (written_to W.contents out.new)) }
    ensures orderless { OnOk result (MeansWithout (codes "order ") IsOrderFree scenario.now (written_to W.contents out.old) (written_to W.contents out.new)) }
    ensures free { OnOk result (WroteNothing (written_to W.contents out.old) (written_to W.contents out.new) → IsOkAnd (loaded scenario.now) IsRaceFree) }
    ensures unset { OnOk result (WroteNothing (written_to W.contents out.old) (written_to W.contents out.new) → IsOkAnd (loaded scenario.now) IsInputFree) }
    ensures still { OnOk result (WroteNothing (written_to W.contents out.old) (written_to W.contents out.new) → IsOkAnd (loaded scenario.now) IsSignalFree) }
    ensures quiet { OnOk result (WroteNothing (written_to W.contents out.old) (written_to W.contents out.new) → IsOkAnd (loaded scenario.now) IsOrderFree) }
{
    let text = loaded_text(alloc, scenario)?;
    put_text(out, text.as_slice())
}
