// The rules for the ends of sections.
ghost use Rattle.std.specs.Prelude.{◌≡◌, ◌≤◌, IsTrue};
ghost use Rattle.gq_model.specs.machine.Sections.{is_section};
ghost use Rattle.gq_model.specs.rules.Flow.{has_link, bank_is_empty, main_end, opening_end, calling_end, section_end, bank_at};
ghost use Rattle.gq_caps.specs.Known.{all_known};
ghost use Rattle.gq_rules.specs.Judging.{after};
ghost use Rattle.gq_verify.specs.internal.Starting.{IsStarts};

use crate::starts::Starts;
use gq_caps::{Bank, Kind, are_same};
use gq_model::fault::Rule;
use gq_model::limits::SESSION_SLOTS;
use gq_program::Section;
use gq_rules::memory_rules::is_empty;
use gq_rules::operand_rules::must;
use gq_rules::{AbstractState, Subject};

/// Whether one of these slots is a link.
fn has_link(kinds: &[Kind]) -> bool
    ensures { result ≡ has_link (all_known kinds.now) }
{
    for kind in kinds {
        if matches!(kind, Kind::Link(_)) {
            return true;
        }
    }
    false
}

/// Whether all of these slots are empty.
fn are_empty(kinds: &[Kind]) -> bool
    ensures { result ≡ bank_is_empty (all_known kinds.now) }
{
    for kind in kinds {
        if !is_empty(kind) {
            return false;
        }
    }
    true
}

/// Who provides nothing and has no signals ends without a link.
fn main_end(subject: &Subject<'_>, state: &AbstractState) -> Result<(), Rule>
    ensures { after result state.now ≡ main_end subject.now.provided subject.now.signals state.now }
{
    let has_link = has_link(state.own().kinds());
    match (subject.provided(), subject.signals()) {
        (None, 0) => must(!has_link, Rule::LinkLeftOpen),
        _ => Ok(()),
    }
}

/// What holds at the end of `main`.
pub(crate) fn main_section_end(subject: &Subject<'_>, state: &AbstractState) -> Result<(), Rule>
    ensures { after result state.now ≡ section_end subject.now Section.Main state.now }
{
    state.none_left()?;
    main_end(subject, state)
}

/// A buffer is a space of just its size in the first slot.
fn opening_end(buffer: u32, state: &AbstractState) -> Result<(), Rule>
    ensures { after result state.now ≡ opening_end buffer state.now }
{
    if buffer == 0 {
        return Ok(());
    }
    match state.shared_kind(0) {
        Some(Kind::Space(size)) => must(size == buffer, Rule::SessionBankChanged),
        _ => Err(Rule::SessionBankChanged),
    }
}

/// A call leaves one operand within the bound, and the slots of the session as they were.
fn calling_end(
    subject: &Subject<'_>,
    before: &Bank<SESSION_SLOTS>,
    state: &mut AbstractState,
) -> Result<(), Rule>
    ensures { after result state.new ≡ calling_end subject.now.provided (all_known before.now) state.old }
{
    let reply = state.pop()?;
    must(state.is_spent(), Rule::LeftoverOperand)?;
    must(reply <= subject.reply(), Rule::ValueTooLarge)?;
    must(
        are_same(state.bank().kinds(), before.kinds()),
        Rule::SessionBankChanged,
    )
}

/// What holds at a section's end.
pub(crate) fn section_end(
    subject: &Subject<'_>,
    starts: &Starts,
    section: Section,
    state: &mut AbstractState,
) -> Result<(), Rule>
    requires starts { IsStarts subject.now starts.now }
    requires section { IsTrue (is_section section) }
    ensures { after result state.new ≡ section_end subject.now section state.old }
{
    match section {
        Section::Main => main_section_end(subject, state),
        Section::Opening => {
            state.none_left()?;
            opening_end(subject.buffer(), state)
        }
        Section::Upgrading(_) | Section::Reacting(_) => state.none_left(),
        Section::Calling(level) => calling_end(subject, starts.bank_at(subject, level), state),
        Section::Closing(_) => {
            state.none_left()?;
            must(are_empty(state.bank().kinds()), Rule::SessionBankChanged)
        }
    }
}
