// What links are.
ghost use Rattle.std.specs.Prelude.{◌+◌, ◌*◌, ◌^◌, ◌≤◌};

use gq_model::program::GREATEST_NAME;

/// A link to a session, by what is known of the session: its service, its level, 0 to 3, and what was given for it so far.
#[derive(Clone, Copy)]
pub struct Link {
    pub(crate) ram: u64,
    pub(crate) caps: u32,
    pub(crate) level: u8,
    pub(crate) length: u8,
    pub(crate) letters: [u8; GREATEST_NAME],
    ghost name_fits: { length ≤ 16 },
    ghost level_fits: { level ≤ 3 },
    ghost ram_fits: { ram ≤ (level + 1) * 2 ^ 32 },
    ghost caps_fits: { caps ≤ (level + 1) * 65536 },
}
