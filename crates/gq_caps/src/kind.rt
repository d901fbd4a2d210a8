// The kinds of slots.
ghost use Rattle.std.specs.Prelude.{◌≡◌, ◌+◌, ◌^◌, ◌≤◌, ◌==◌, true, if◌then◌else◌};
ghost use Rattle.gq_tariff.specs.Prices.{size_for, class_size};
ghost use Rattle.gq_tariff.specs.declared.class.Class.{Class};
ghost use Rattle.gq_model.specs.machine.Amounts.{Ram, Caps};
ghost use Rattle.gq_model.specs.rules.Kinds.{Empty_kind, Memory, same_kind, kind_price, kind_lent, kind_places};
ghost use Rattle.gq_caps.specs.Known.{known};
ghost use Rattle.gq_caps.specs.declared.totals.Measure.{Measure};
ghost use Rattle.gq_caps.specs.Measured.{total_of};
ghost use Rattle.gq_caps.specs.internal.Totalled.{weight, IsSmall};

use crate::link::Link;
use crate::totals::Totals;
use gq_model::program::Form;
use gq_tariff::Amount;
use gq_tariff::class::class_of;
use gq_tariff::price::{GREATEST_PLACE, price_block, price_pool_table, price_slice, round_up};

/// What a slot is known to hold. Sizes are in bytes.
#[derive(Clone, Copy)]
pub enum Kind {
    /// Nothing.
    Empty,
    /// Nothing yet, or no longer: a request to open, upgrade or close a session waits for its reply.
    Waiting,
    /// A block of so many bytes.
    Block(u32),
    /// A slice of so many bytes.
    Slice(u32),
    /// A space of so many bytes.
    Space(u32),
    /// A pool: the bytes of an entry, and how many entries there are at most.
    Pool(u16, u16),
    /// A link to a session.
    Link(Link),
}

impl Kind {
    /// Memory of this form, of so many bytes.
    pub fn memory(form: Form, size: u32) -> Kind
        ensures { known result ≡ Memory form size }
    {
        match form {
            Form::Block => Kind::Block(size),
            Form::Slice => Kind::Slice(size),
            Form::Space => Kind::Space(size),
        }
    }

    /// Whether it holds nothing, or waits.
    #[inline(always)]
    fn is_empty(&self) -> bool
        ensures { result ≡ same_kind Empty_kind (known self.now) }
    {
        matches!(self, Kind::Empty | Kind::Waiting)
    }

    /// Whether both hold nothing, or wait.
    #[inline(always)]
    pub(crate) fn are_empty(&self, other: &Kind) -> bool
        ensures { result ≡ true → same_kind (known self.now) (known other.now) ≡ true }
    {
        self.is_empty() & other.is_empty()
    }

    /// Whether both are the same kind, with the same numbers: spaces of 10 and 20 bytes differ, and so do links to sessions of
    /// one service for which different amounts were given. A slot that waits is taken for an empty one.
    pub fn is_same(&self, other: &Kind) -> bool
        ensures { result ≡ same_kind (known self.now) (known other.now) }
    {
        match (self, other) {
            (Kind::Empty | Kind::Waiting, Kind::Empty | Kind::Waiting) => true,
            (Kind::Block(n), Kind::Block(m)) => *n == *m,
            (Kind::Slice(n), Kind::Slice(m)) => *n == *m,
            (Kind::Space(n), Kind::Space(m)) => *n == *m,
            (Kind::Pool(size, count), Kind::Pool(other_size, other_count)) => {
                *size == *other_size && *count == *other_count
            }
            (Kind::Link(link), Kind::Link(other_link)) => link.is_same(other_link),
            _ => false,
        }
    }

    /// What is paid for what the slot holds: at most 2^33 bytes and one capability. Places of the heap are not among it.
    pub fn price(&self) -> Amount
        ensures ram { result.ram ≡ kind_price Ram (known self.now) }
        ensures caps { result.caps ≡ kind_price Caps (known self.now) }
        ensures small { result.ram ≤ 2 ^ 33 }
        ensures one { result.caps ≤ 1 }
    {
        match self {
            Kind::Empty | Kind::Waiting | Kind::Link(_) => Amount { ram: 0, caps: 0 },
            Kind::Block(size) => Amount {
                ram: price_block(u64::from(*size)),
                caps: u64::from(u64::from(*size) > GREATEST_PLACE),
            },
            Kind::Slice(size) => Amount {
                ram: price_slice(u64::from(*size)),
                caps: 1,
            },
            Kind::Space(size) => Amount {
                ram: round_up(u64::from(*size)),
                caps: 1,
            },
            Kind::Pool(_, count) => Amount {
                ram: price_pool_table(u64::from(*count)),
                caps: 1,
            },
        }
    }

    /// What was given for the session that the slot leads to: at most 2^34 bytes and 2^18 capabilities.
    pub fn lent(&self) -> Amount
        ensures ram { result.ram ≡ kind_lent Ram (known self.now) }
        ensures caps { result.caps ≡ kind_lent Caps (known self.now) }
        ensures small { result.ram ≤ 2 ^ 34 }
        ensures few { result.caps ≤ 2 ^ 18 }
    {
        match self {
            Kind::Link(link) => link.given(),
            _ => Amount { ram: 0, caps: 0 },
        }
    }

    /// How many places of the heap's class of this size it may take, at most 65535: one for a block, one for each entry of a pool.
    pub fn places(&self, size: u64) -> u64
        requires { 1 ≤ size }
        ensures places { result ≡ kind_places size (known self.now) }
        ensures small { result ≤ 65535 }
    {
        match self {
            Kind::Block(n) => u64::from(class_size(u64::from(*n)) == size),
            Kind::Pool(n, count) if class_size(u64::from(*n)) == size => u64::from(*count),
            _ => 0,
        }
    }

    /// What is measured of the slot.
    #[inline(always)]
    pub(crate) fn weights(&self) -> Totals
        ensures weights { (m : Measure) → total_of result m ≡ weight m (known self.now) }
        ensures small { IsSmall (known self.now) }
    {
        let paid = self.paid();
        let (size, count) = self.heap_places();
        Totals::of_class(paid.ram, paid.caps, size, count)
    }

    /// The bytes and capabilities that it holds and has lent.
    #[inline(always)]
    pub(crate) fn paid(&self) -> Amount
        ensures ram { result.ram ≡ weight Measure.Ram (known self.now) }
        ensures caps { result.caps ≡ weight Measure.Caps (known self.now) }
        ensures small { result.ram ≤ 2 ^ 35 }
        ensures few { result.caps ≤ 2 ^ 35 }
    {
        let price = self.price();
        let lent = self.lent();
        Amount {
            ram: price.ram + lent.ram,
            caps: price.caps + lent.caps,
        }
    }

    /// Whether it takes no place of the heap, of whatever class.
    #[inline(always)]
    pub(crate) fn takes_no_place(&self) -> bool
        ensures { result ≡ true → (class : Class) → weight (Measure.Places class) (known self.now) ≡ 0 }
    {
        !matches!(self, Kind::Block(_) | Kind::Pool(_, _))
    }

    /// The size of the class of the heap's places that it may take, and how many; 0 and none where it takes none.
    fn heap_places(&self) -> (u64, u64)
        ensures places { (class : Class) → kind_places (class_size class) (known self.now) ≡ (if result.0 == class_size class then result.1 else 0) }
        ensures small { result.1 ≤ 65535 }
    {
        match self {
            Kind::Block(n) => (class_size(u64::from(*n)), 1),
            Kind::Pool(n, count) => (class_size(u64::from(*n)), u64::from(*count)),
            Kind::Empty | Kind::Waiting | Kind::Slice(_) | Kind::Space(_) | Kind::Link(_) => (0, 0),
        }
    }
}

/// The size of the class of a block of `n` bytes; 0 where it has none.
fn class_size(n: u64) -> u64
    ensures { result ≡ size_for n }
{
    match n {
        0 => 16,
        1..=GREATEST_PLACE => class_of(n).size(),
        _ => 0,
    }
}
