// Programs as scenarios give them.
ghost use Rattle.std.specs.Prelude.{◌≡◌, IfOk};
ghost use Rattle.gq_scenario.specs.Given.{source_of};

use std::alloc::{AllocError, Global};

/// How a scenario gives the program of a leaf.
#[derive(Drop)]
pub enum Source {
    /// As program text.
    Text(Vec<u8>),
    /// As code: the bytes that the hexadecimal text spells.
    Code(Vec<u8>),
}

impl Source {
    /// The same once more.
    pub fn copy(&self, alloc: Global) -> Result<Source, AllocError>
        ensures { IfOk result (λ s. source_of s ≡ source_of self.now) }
    {
        match self {
            Source::Text(text) => Ok(Source::Text(Vec::from_slice(alloc, text.as_slice())?)),
            Source::Code(code) => Ok(Source::Code(Vec::from_slice(alloc, code.as_slice())?)),
        }
    }
}
