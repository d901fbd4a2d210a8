// The lines of points and of what slots hold there.
ghost use Rattle.std.specs.Prelude.{◌≡◌, ◌++◌, ◌∷◌, [], OnOk, codes, decimal};
ghost use Rattle.gq_caps.specs.Known.{all_known, known};
ghost use Rattle.gq_model.specs.declared.program.Form.TheVariants.{Slice};
ghost use Rattle.gq_model.specs.rules.Kinds.{Memory, kind_price};
ghost use Rattle.gq_why.specs.Why.{item_line, item_lines, kind_cost, kind_text, place_words};

use gq_caps::Kind;
use gq_program::Section;
use gq_tariff::Resource;
use gq_tariff::price::{Held, price_caps, price_slice};
use gq_views::listing::push_heading;
use gq_views::view_words::{end_line, push_amount, push_number};
use std::alloc::AllocError;

/// Puts a number of another at the end of a text, and ends the line.
pub(crate) fn push_of(text: &mut Vec<u8>, number: u64, most: u64) -> Result<(), AllocError>
    ensures { OnOk result (text.new.items ≡ text.old.items ++ decimal number ++ codes " of " ++ decimal most ++ 10 ∷ []) }
{
    push_number(text, number)?;
    text.extend_from_slice(b" of ")?;
    push_number(text, most)?;
    end_line(text)
}

/// Puts a point of a section at the end of a text.
pub(crate) fn push_point(
    text: &mut Vec<u8>,
    section: Section,
    number: u64,
) -> Result<(), AllocError>
    ensures { OnOk result (text.new.items ≡ text.old.items ++ place_words section number) }
{
    text.extend_from_slice(b"  in ")?;
    push_heading(text, section)?;
    text.extend_from_slice(b" at ")?;
    push_number(text, number)?;
    text.extend_from_slice(b": ")
}

/// Puts a word and a number at the end of a text.
fn push_sized(text: &mut Vec<u8>, word: &[u8], number: u64) -> Result<(), AllocError>
    ensures { OnOk result (text.new.items ≡ text.old.items ++ word.now ++ decimal number) }
{
    text.extend_from_slice(word)?;
    push_number(text, number)
}

/// Puts what a slot is known to hold at the end of a text; nothing where it holds nothing.
fn push_kind(text: &mut Vec<u8>, kind: &Kind) -> Result<(), AllocError>
    ensures { OnOk result (text.new.items ≡ text.old.items ++ kind_text (known kind.now)) }
{
    match kind {
        Kind::Empty | Kind::Waiting => Ok(()),
        Kind::Block(size) => push_sized(text, b"block ", u64::from(*size)),
        Kind::Slice(size) => push_sized(text, b"slice ", u64::from(*size)),
        Kind::Space(size) => push_sized(text, b"space ", u64::from(*size)),
        Kind::Pool(size, count) => {
            push_sized(text, b"pool ", u64::from(*size))?;
            push_amount(text, u64::from(*count))
        }
        Kind::Link(link) => {
            text.extend_from_slice(b"link ")?;
            text.extend_from_slice(link.service())?;
            push_sized(text, b" at level ", u64::from(link.level()))
        }
    }
}

/// Puts the line of a slot that costs so much at the end of a text, where that is not nothing.
fn push_slot(
    text: &mut Vec<u8>,
    letter: &[u8],
    slot: usize,
    kind: &Kind,
    cost: u64,
) -> Result<(), AllocError>
    ensures { OnOk result (text.new.items ≡ text.old.items ++ item_line (letter.now ++ decimal slot) (kind_text (known kind.now)) cost) }
{
    if cost == 0 {
        return Ok(());
    }
    text.extend_from_slice(b"    ")?;
    push_sized(text, letter, slot as u64)?;
    text.extend_from_slice(b" ")?;
    push_kind(text, kind)?;
    push_sized(text, b": ", cost)?;
    end_line(text)
}

/// What a slot of a kind holds and has lent.
fn cost_of(resource: Resource, kind: &Kind) -> u64
    ensures { result ≡ kind_cost resource (known kind.now) }
{
    match resource {
        Resource::Ram => kind.price().ram + kind.lent().ram,
        Resource::Caps => kind.price().caps + kind.lent().caps,
    }
}

/// Puts the lines of slots, whose names begin with a letter, at the end of a text.
pub(crate) fn push_slots(
    text: &mut Vec<u8>,
    resource: Resource,
    letter: &[u8],
    kinds: &[Kind],
) -> Result<(), AllocError>
    ensures { OnOk result (text.new.items ≡ text.old.items ++ item_lines resource letter.now 0 (all_known kinds.now)) }
{
    for (slot, kind) in kinds.iter().enumerate() {
        push_slot(text, letter, slot, kind, cost_of(resource, kind))?;
    }
    Ok(())
}

/// What a session's object of so many bytes costs.
fn object_cost(resource: Resource, object: u32) -> u64
    ensures { result ≡ kind_price resource (Memory Slice object) }
{
    let held = u64::from(object);
    match resource {
        Resource::Ram => price_slice(held),
        Resource::Caps => price_caps(Held::Slice(held)),
    }
}

/// Puts the line of a session's object of so many bytes at the end of a text.
pub(crate) fn push_object(
    text: &mut Vec<u8>,
    resource: Resource,
    object: u32,
) -> Result<(), AllocError>
    ensures { OnOk result (text.new.items ≡ text.old.items
        ++ item_line (codes "obj") (codes "slice " ++ decimal object) (kind_price resource (Memory Slice object))) }
{
    text.extend_from_slice(b"    obj slice ")?;
    push_number(text, u64::from(object))?;
    push_sized(text, b": ", object_cost(resource, object))?;
    end_line(text)
}
