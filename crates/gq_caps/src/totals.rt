// Numbers of each thing that is measured of slots.
ghost use Rattle.std.specs.Prelude.{◌≡◌, ◌+◌, ◌≤◌, ◌^◌, ◌==◌, if◌then◌else◌, max};
ghost use Rattle.gq_tariff.specs.Prices.{class_size};
ghost use Rattle.gq_tariff.specs.declared.class.Class.{Class};
ghost use Rattle.gq_caps.specs.Known.{known};
ghost use Rattle.gq_caps.specs.Measured.{total_of, limit_of, AreFew};
ghost use Rattle.gq_caps.specs.internal.Totalled.{weight, IsSmall};

use crate::kind::Kind;
use gq_tariff::Amount;
use gq_tariff::class::Class;

/// What is measured of slots.
#[derive(Clone, Copy)]
pub enum Measure {
    /// The bytes that they hold and have lent.
    Ram,
    /// The capabilities that they hold and have lent.
    Caps,
    /// The places of a class of the heap that they may take.
    Places(Class),
}

/// A number for each measure: bytes, capabilities, and places of each class of the heap.
#[derive(Clone, Copy)]
pub struct Totals {
    pub ram: u64,
    pub caps: u64,
    pub bytes16: u64,
    pub bytes32: u64,
    pub bytes64: u64,
    pub bytes128: u64,
    pub bytes256: u64,
    pub bytes512: u64,
    pub bytes1024: u64,
    pub bytes2048: u64,
}

impl Totals {
    /// All are 0.
    pub fn none() -> Totals
        ensures none { (m : Measure) → total_of result m ≡ 0 }
        ensures small { AreFew result }
    {
        Totals {
            ram: 0,
            caps: 0,
            bytes16: 0,
            bytes32: 0,
            bytes64: 0,
            bytes128: 0,
            bytes256: 0,
            bytes512: 0,
            bytes1024: 0,
            bytes2048: 0,
        }
    }

    /// So many bytes and capabilities, and so many places of the class of this size, where there is one.
    pub(crate) fn of_class(ram: u64, caps: u64, size: u64, count: u64) -> Totals
        ensures ram { result.ram ≡ ram }
        ensures caps { result.caps ≡ caps }
        ensures places { (class : Class) → total_of result (Measure.Places class) ≡ (if size == class_size class then count else 0) }
    {
        let places = |of: u64| if size == of { count } else { 0 };
        Totals {
            ram,
            caps,
            bytes16: places(16),
            bytes32: places(32),
            bytes64: places(64),
            bytes128: places(128),
            bytes256: places(256),
            bytes512: places(512),
            bytes1024: places(1024),
            bytes2048: places(2048),
        }
    }

    /// The number of places of a class.
    pub fn places(&self, class: Class) -> u64
        requires { AreFew self.now }
        ensures places { result ≡ total_of self.now (Measure.Places class) }
        ensures small { result ≤ 2 ^ 22 }
    {
        match class {
            Class::Bytes16 => self.bytes16,
            Class::Bytes32 => self.bytes32,
            Class::Bytes64 => self.bytes64,
            Class::Bytes128 => self.bytes128,
            Class::Bytes256 => self.bytes256,
            Class::Bytes512 => self.bytes512,
            Class::Bytes1024 => self.bytes1024,
            Class::Bytes2048 => self.bytes2048,
        }
    }

    /// The numbers once something is gone and something has come.
    fn moved(&self, gone: &Totals, come: &Totals) -> Totals
        requires gone { (m : Measure) → total_of gone.now m ≤ total_of self.now m }
        requires small { AreFew self.now }
        requires come { (m : Measure) → total_of come.now m ≤ limit_of m }
        ensures { (m : Measure) → total_of result m + total_of gone.now m ≡ total_of self.now m + total_of come.now m }
    {
        Totals {
            ram: self.ram - gone.ram + come.ram,
            caps: self.caps - gone.caps + come.caps,
            bytes16: self.bytes16 - gone.bytes16 + come.bytes16,
            bytes32: self.bytes32 - gone.bytes32 + come.bytes32,
            bytes64: self.bytes64 - gone.bytes64 + come.bytes64,
            bytes128: self.bytes128 - gone.bytes128 + come.bytes128,
            bytes256: self.bytes256 - gone.bytes256 + come.bytes256,
            bytes512: self.bytes512 - gone.bytes512 + come.bytes512,
            bytes1024: self.bytes1024 - gone.bytes1024 + come.bytes1024,
            bytes2048: self.bytes2048 - gone.bytes2048 + come.bytes2048,
        }
    }

    /// The same where bytes and capabilities alone change.
    #[inline(always)]
    fn paid(&self, gone: &Amount, come: &Amount) -> Totals
        requires ram { gone.now.ram ≤ self.now.ram }
        requires caps { gone.now.caps ≤ self.now.caps }
        requires few { AreFew self.now }
        requires small { come.now.ram ≤ 2 ^ 35 }
        requires small_caps { come.now.caps ≤ 2 ^ 35 }
        ensures ram { result.ram + gone.now.ram ≡ self.now.ram + come.now.ram }
        ensures caps { result.caps + gone.now.caps ≡ self.now.caps + come.now.caps }
        ensures places { (class : Class) → total_of result (Measure.Places class) ≡ total_of self.now (Measure.Places class) }
    {
        Totals {
            ram: self.ram - gone.ram + come.ram,
            caps: self.caps - gone.caps + come.caps,
            ..*self
        }
    }

    /// The numbers once a slot of one kind has another. Most kinds take no place of the heap.
    #[inline(always)]
    pub(crate) fn once_changed(&self, old: &Kind, new: &Kind) -> Totals
        requires gone { (m : Measure) → weight m (known old.now) ≤ total_of self.now m }
        requires few { AreFew self.now }
        ensures changed { (m : Measure) → total_of result m + weight m (known old.now) ≡ total_of self.now m + weight m (known new.now) }
        ensures small { IsSmall (known new.now) }
    {
        if old.takes_no_place() && new.takes_no_place() {
            return self.paid(&old.paid(), &new.paid());
        }
        self.moved(&old.weights(), &new.weights())
    }

    /// Each is at least what it is in others from now on.
    pub fn raise(&mut self, others: &Totals)
        requires self_small { AreFew self.old }
        requires small { AreFew others.now }
        ensures raised { (m : Measure) → total_of self.new m ≡ max (total_of self.old m) (total_of others.now m) }
        ensures small { AreFew self.new }
    {
        self.ram = self.ram.max(others.ram);
        self.caps = self.caps.max(others.caps);
        self.bytes16 = self.bytes16.max(others.bytes16);
        self.bytes32 = self.bytes32.max(others.bytes32);
        self.bytes64 = self.bytes64.max(others.bytes64);
        self.bytes128 = self.bytes128.max(others.bytes128);
        self.bytes256 = self.bytes256.max(others.bytes256);
        self.bytes512 = self.bytes512.max(others.bytes512);
        self.bytes1024 = self.bytes1024.max(others.bytes1024);
        self.bytes2048 = self.bytes2048.max(others.bytes2048);
    }
}
