// The classes of the heap.
ghost use Rattle.std.specs.Prelude.{◌≡◌, ◌<◌, ◌≤◌};
ghost use Rattle.gq_tariff.specs.Prices.{class_size, size_for};

/// A class of the heap: blocks of at most so many bytes are places of that size.
#[derive(Clone, Copy, Debug, PartialEq, Eq)]
pub enum Class {
    Bytes16,
    Bytes32,
    Bytes64,
    Bytes128,
    Bytes256,
    Bytes512,
    Bytes1024,
    Bytes2048,
}

impl Class {
    /// The classes by size, the least first.
    pub const ALL: [Class; 8] = [
        Class::Bytes16,
        Class::Bytes32,
        Class::Bytes64,
        Class::Bytes128,
        Class::Bytes256,
        Class::Bytes512,
        Class::Bytes1024,
        Class::Bytes2048,
    ];

    /// The bytes of a place of this class.
    pub fn size(self) -> u64
        ensures { result ≡ class_size self }
    {
        match self {
            Class::Bytes16 => 16,
            Class::Bytes32 => 32,
            Class::Bytes64 => 64,
            Class::Bytes128 => 128,
            Class::Bytes256 => 256,
            Class::Bytes512 => 512,
            Class::Bytes1024 => 1024,
            Class::Bytes2048 => 2048,
        }
    }
}

/// The class of a block of `n` bytes: the least whose places hold it. A block of more than 2048 bytes has none.
pub fn class_of(n: u64) -> Class
    requires some { 1 ≤ n }
    requires small { n ≤ 2048 }
    ensures size { class_size result ≡ size_for n }
    ensures fits { n ≤ class_size result }
    ensures least { (smaller : Class) → class_size smaller < class_size result → class_size smaller < n }
{
    match n {
        ..=16 => Class::Bytes16,
        17..=32 => Class::Bytes32,
        33..=64 => Class::Bytes64,
        65..=128 => Class::Bytes128,
        129..=256 => Class::Bytes256,
        257..=512 => Class::Bytes512,
        513..=1024 => Class::Bytes1024,
        _ => Class::Bytes2048,
    }
}
