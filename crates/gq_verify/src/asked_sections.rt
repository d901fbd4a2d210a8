// The sections that statements on a link ask for.
ghost use Rattle.std.specs.Prelude.{◌≡◌, ◌≤◌};
ghost use Rattle.gq_verify.specs.internal.Requesting.{section_by};

use gq_program::Section;

/// A section of the level of a session: for an upgrade it is that of the next level.
#[derive(Clone, Copy)]
pub(crate) enum ByLevel {
    Upgrading,
    Calling,
    Closing,
}

/// The section of a session of this level.
pub(crate) fn section_by(of: ByLevel, level: u8) -> Section
    requires { level ≤ 3 }
    ensures { result ≡ section_by of level }
{
    match of {
        ByLevel::Upgrading => Section::Upgrading(level + 1),
        ByLevel::Calling => Section::Calling(level),
        ByLevel::Closing => Section::Closing(level),
    }
}
