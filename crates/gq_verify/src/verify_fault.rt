// Why a program is refused.

use gq_model::fault::Rule;
use gq_program::Section;
use thiserror::Error;

/// The rule that a program breaks first: the section, and the number of the statement there, from 1; 0 is the section's start, and the
/// number past the last its end.
#[derive(Clone, Copy, Debug, PartialEq, Eq, Error)]
#[error("{rule} in {section} at {place}")]
pub struct BrokenRule {
    pub rule: Rule,
    pub section: Section,
    pub place: u64,
}
