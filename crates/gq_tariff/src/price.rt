// The price list.
ghost use Rattle.std.specs.Prelude.{◌≡◌, ◌+◌, ◌%◌, ◌^◌, ◌<◌, ◌≤◌};
ghost use Rattle.gq_tariff.specs.Prices.{up, amount_of, price_bytes, price_capabilities};

use crate::class::Class;

/// What a component can hold. Sizes are in bytes.
#[derive(Clone, Copy, Debug, PartialEq, Eq)]
pub enum Held {
    /// A dataspace of so many bytes.
    Space(u64),
    /// A slice of so many bytes, as a session's object is one.
    Slice(u64),
    /// A block of so many bytes.
    Block(u64),
    /// The table of a pool of so many entries.
    Pool(u64),
    /// The heap's places of a class, by the greatest number of them in use at one time so far.
    Places(Class, u64),
}

/// The bytes of a page.
pub const PAGE: u64 = 4096;

/// The bytes of bookkeeping at the start of a slice.
pub const SLICE_HEADER: u64 = 32;

/// The greatest block that is a place of the heap, in bytes.
pub const GREATEST_PLACE: u64 = 2048;

/// The bytes of an entry in the table of a pool.
pub const POOL_ENTRY: u64 = 4;

/// `n` bytes in whole pages, as bytes: the least multiple of 4096 that is at least `n`.
pub fn round_up(n: u64) -> u64
    requires { n + 4095 < 2 ^ 64 }
    ensures value { result ≡ up n }
    ensures whole { result % 4096 ≡ 0 }
    ensures at_least { n ≤ result }
    ensures least { result < n + 4096 }
{
    n.next_multiple_of(PAGE)
}

/// The price of a slice of `n` bytes, in bytes: whole pages for it and its bookkeeping.
pub fn price_slice(n: u64) -> u64
    requires { n ≤ 2 ^ 40 }
    ensures { result ≡ price_bytes (Held.Slice n) }
{
    round_up(n + SLICE_HEADER)
}

/// The price of a block of `n` bytes, in bytes: whole pages, or 0 for a block of at most 2048 bytes. Such a block is a place of the heap, and is paid for with
/// its class.
pub fn price_block(n: u64) -> u64
    requires { n ≤ 2 ^ 40 }
    ensures { result ≡ price_bytes (Held.Block n) }
{
    if n > GREATEST_PLACE { round_up(n) } else { 0 }
}

/// The price of the table of a pool of `m` entries, in bytes.
pub fn price_pool_table(m: u64) -> u64
    requires { m ≤ 2 ^ 40 }
    ensures { result ≡ price_bytes (Held.Pool m) }
{
    round_up(POOL_ENTRY * m)
}

/// The price of the heap's places of a class, in bytes, where at most `peak` of them were in use at one time so far.
pub fn price_class(class: Class, peak: u64) -> u64
    requires { peak ≤ 2 ^ 40 }
    ensures { result ≡ price_bytes (Held.Places class peak) }
{
    round_up(class.size() * peak)
}

/// The price of what is held, in capabilities: one for each dataspace, and one for each page of a class of the heap.
pub fn price_caps(held: Held) -> u64
    requires { amount_of held ≤ 2 ^ 40 }
    ensures { result ≡ price_capabilities held }
{
    match held {
        Held::Space(_) | Held::Slice(_) | Held::Pool(_) => 1,
        Held::Block(n) => u64::from(n > GREATEST_PLACE),
        Held::Places(class, peak) => price_class(class, peak) / PAGE,
    }
}
