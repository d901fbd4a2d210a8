// Ways into a document.
// No contract: its results are places alone. Tests show them.
use gq_toml_places::Step;
use std::alloc::{AllocError, Global};

/// A way and one more step.
pub fn with_step<'d>(
    alloc: Global,
    path: &[Step<'d>],
    step: Step<'d>,
) -> Result<Vec<Step<'d>>, AllocError> {
    let mut longer = Vec::with_capacity(alloc, path.len() + 1)?;
    longer.extend_from_slice(path)?;
    longer.push(step)?;
    Ok(longer)
}
