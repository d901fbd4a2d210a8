// Words and numbers of the lines of quantities.
ghost use Rattle.std.specs.Prelude.{◌≡◌, ◌++◌, OnOk};
ghost use Rattle.gq_scenario.specs.Component_trees.{version_number};
ghost use Rattle.gq_sizes.specs.Size_text.{caps_entries, least_entry, pair_entries, unless};

use gq_scenario::scenario::Version;
use gq_tariff::Amount;
use gq_views::view_words::push_entry;
use std::alloc::AllocError;

/// What a quantity is at least. It has no capabilities where no number of them is enough.
#[derive(Clone, Copy)]
pub struct Least {
    /// Bytes.
    pub ram: u64,
    /// Capabilities.
    pub caps: Option<u64>,
}

/// What a quantity is at least, by what is counted and whether no number of capabilities is enough.
pub(crate) fn least_of(counted: Amount, endless: bool) -> Least
    ensures ram { result.ram ≡ counted.ram }
    ensures caps { result.caps ≡ unless endless counted.caps }
{
    Least {
        ram: counted.ram,
        caps: if endless { None } else { Some(counted.caps) },
    }
}

/// Puts a quantity and what it is at least at the end of a text.
pub(crate) fn push_pair(
    text: &mut Vec<u8>,
    word: &[u8],
    has: u64,
    least: u64,
) -> Result<(), AllocError>
    ensures { OnOk result (text.new.items ≡ text.old.items ++ pair_entries word.now has least) }
{
    push_entry(text, word, has)?;
    push_entry(text, b"least", least)
}

/// Puts the least capabilities at the end of a text, or `none`.
fn push_least(text: &mut Vec<u8>, least: Option<u64>) -> Result<(), AllocError>
    ensures { OnOk result (text.new.items ≡ text.old.items ++ least_entry least) }
{
    match least {
        Some(least) => push_entry(text, b"least", least),
        None => text.extend_from_slice(b" least none"),
    }
}

/// Puts capabilities and what they are at least at the end of a text, where the version counts them.
pub(crate) fn push_caps(
    text: &mut Vec<u8>,
    version: Version,
    has: u64,
    least: Option<u64>,
) -> Result<(), AllocError>
    ensures { OnOk result (text.new.items ≡ text.old.items ++ caps_entries (version_number version) has least) }
{
    if !version.counts_caps() {
        return Ok(());
    }
    push_entry(text, b"caps", has)?;
    push_least(text, least)
}
