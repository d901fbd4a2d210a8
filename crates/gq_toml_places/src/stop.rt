// Where a text stops being TOML.
ghost use Rattle.std.specs.Prelude.{◌≡◌, ◌≤◌, length, None, IsSome, MatchOption, IfOk};
ghost use Rattle.toml.specs.Parse.{parse_document};

use std::alloc::{AllocError, Global};
use toml::de::Error;

/// A text is no TOML.
#[derive(Clone, Copy, Debug)]
pub struct NotToml {
    /// The offset at which it stops being TOML.
    pub at: usize,
    /// What `toml` says of it.
    pub error: Error,
}

/// Whether a text is no TOML, as `toml` decides, and from where on.
pub fn not_toml(alloc: Global, text: &str) -> Result<Option<NotToml>, AllocError>
    ensures { IfOk result (λ stop. MatchOption stop (IsSome (parse_document text.now)) (λ s. (parse_document text.now ≡ None) × (s.at ≤ length text.now))) }
{
    match toml::table_from_str(alloc, text) {
        Ok(_) => Ok(None),
        Err(error) => match error.span() {
            Some(span) => Ok(Some(NotToml {
                at: span.start,
                error,
            })),
            None => Err(AllocError),
        },
    }
}
