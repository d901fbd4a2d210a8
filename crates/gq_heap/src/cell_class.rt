// The classes, as the heap counts them.
ghost use Rattle.std.specs.Prelude.{◌≡◌, ◌/◌, ◌%◌, ◌^◌, ◌<◌, ◌≤◌};
ghost use Rattle.gq_tariff.specs.Prices.{class_size, size_for};
ghost use Rattle.gq_heap.specs.Classes.{index_of, size_at, places_at, class_for};

use gq_tariff::{Class, class_of};

/// The number of a class, by size, from 0.
pub fn class_index(class: Class) -> usize
    ensures index { result ≡ index_of class }
    ensures below { result < 8 }
{
    match class {
        Class::Bytes16 => 0,
        Class::Bytes32 => 1,
        Class::Bytes64 => 2,
        Class::Bytes128 => 3,
        Class::Bytes256 => 4,
        Class::Bytes512 => 5,
        Class::Bytes1024 => 6,
        Class::Bytes2048 => 7,
    }
}

/// The bytes of a place of a class.
pub fn place_size(class: Class) -> u32
    ensures { result ≡ size_at (index_of class) }
{
    16 << class_index(class)
}

/// How many places of a class a chunk has.
pub fn places_per_chunk(class: Class) -> u32
    ensures { result ≡ places_at (index_of class) }
{
    256 >> class_index(class)
}

/// How many bits the index of a place of a class has: a chunk has two to the power of it of them.
pub fn place_bits(class: Class) -> u32
    ensures bits { places_at (index_of class) ≡ 2 ^ result }
    ensures few { result ≤ 8 }
{
    8 - class_index(class) as u32
}

/// The chunk of a place, by its number, and the place's index there, where a chunk has so many places, two to the power of `bits`. A division would take as
/// long as all else that is done with a place.
#[inline(always)]
pub fn cell_position(place: u32, places: u32, bits: u32) -> (u32, u32)
    requires few { bits ≤ 8 }
    requires power { places ≡ 2 ^ bits }
    ensures chunk { result.0 ≡ place / places }
    ensures index { result.1 ≡ place % places }
{
    (place >> bits, place & (places - 1))
}

/// The class of a block of `size` bytes.
pub fn class_for_size(size: u32) -> Class
    requires { (1 ≤ size) × (size ≤ 2048) }
    ensures size { class_size result ≡ size_for size }
    ensures index { index_of result ≡ class_for size }
    ensures fits { size ≤ size_at (index_of result) }
{
    class_of(u64::from(size))
}
