// What stands before the number of a statement.
ghost use Rattle.std.specs.Prelude.{◌≡◌, IfOk};
ghost use Rattle.gq_races.specs.Race_text.{prefix_of};

use gq_model::section::Section;
use gq_views::listing::push_heading;
use std::alloc::{AllocError, Global};

// The leaf and the section.
pub(crate) fn prefix_of(
    alloc: Global,
    label: &[u8],
    section: Section,
) -> Result<Vec<u8>, AllocError>
    ensures { IfOk result (λ prefix. prefix.items ≡ prefix_of label.now section) }
{
    let mut prefix = Vec::new(alloc);
    prefix.extend_from_slice(label)?;
    prefix.extend_from_slice(b" in ")?;
    push_heading(&mut prefix, section)?;
    prefix.extend_from_slice(b" at ")?;
    Ok(prefix)
}
