// Ways into a document.
// No contract: its results are places alone. Tests show them.
use gq_toml_places::Step;
use std::alloc::{AllocError, Global};

/// A way and one more step.
pub(crate) fn with_step<'d>(
    alloc: Global,
    way: &[Step<'d>],
    step: Step<'d>,
) -> Result<Vec<Step<'d>>, AllocError> {
    let mut longer = Vec::from_slice(alloc, way)?;
    longer.push(step)?;
    Ok(longer)
}
