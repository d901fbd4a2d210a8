// The places of one class.
ghost use Rattle.std.specs.Prelude.{◌≡◌, ℕ, ◌+◌, ◌-◌, ◌/◌, ◌^◌, ◌<◌, ◌≤◌, ◌↔◌, Ok, Some, IfOk, OnErr, IsErrOf};
ghost use Rattle.gq_heap.specs.internal.Chain.{IsSize};
ghost use Rattle.gq_heap.specs.internal.Bin.{IsBin, HasPlace, TakesPlace, FreesPlace, Chains};
ghost use Rattle.gq_heap.specs.Bins.{bin_price, next_peak};

use crate::chain::{chain_all, pop, push};
use gq_store::{AccountNo, ByteStore, GrowFault};

/// The head of the chain of free places, how many places are in use, and how many were at most.
#[derive(Clone, Copy, Debug, PartialEq, Eq)]
pub struct Bin {
    pub head: u32,
    pub count: u32,
    pub peak: u32,
}

/// The head of the chain, which gets a new chunk's places where it has none.
fn first_free<S: ByteStore>(
    store: &mut S,
    account: AccountNo,
    size: u32,
    places: u32,
    head: u32,
) -> Result<u32, GrowFault>
    requires size { IsSize size places }
    ensures same { 0 < head → (result ≡ Ok head) × (S.state store.new account.0 ≡ S.state store.old account.0) }
    ensures chained { head ≡ 0 → IfOk result (λ first. Chains size places first (S.state store.old account.0) (S.state store.new account.0)) }
    ensures exceeded { IsErrOf result GrowFault.Exceeded ↔ ((head ≡ 0) × ((S.state store.old account.0).left < 4096)) }
    ensures caps { IsErrOf result GrowFault.CapsExceeded ↔ ((head ≡ 0) × (4096 ≤ (S.state store.old account.0).left) × ((S.state store.old account.0).caps ≡
        Some 0)) }
    ensures err { OnErr result (store.new ≡ store.old) }
    ensures rest { S.same_rest account.0 store.old store.new }
{
    if head > 0 {
        return Ok(head);
    }
    let chunk = store.grow(account, 1)?;
    Ok(chain_all(store, chunk, size, places))
}

/// Takes a free place, which reads 0.
pub fn take<S: ByteStore>(
    store: &mut S,
    account: AccountNo,
    bin: &mut Bin,
    size: u32,
    places: u32,
    bits: u32,
) -> Result<u32, GrowFault>
    requires size { IsSize size places }
    requires bits { (bits ≤ 8) × (places ≡ 2 ^ bits) }
    requires kept { IsBin size places bin.old (S.state store.old account.0) }
    ensures ok { IfOk result (λ q. TakesPlace size places bin.old bin.new (S.state store.old account.0) (S.state store.new account.0) q) }
    ensures exceeded { IsErrOf result GrowFault.Exceeded ↔ ((S.state store.old account.0).left + bin_price size bin.old.peak < bin_price size (next_peak
        bin.old)) }
    ensures caps { IsErrOf result GrowFault.CapsExceeded ↔ ((bin_price size bin.old.peak < bin_price size (next_peak bin.old))
        × (bin_price size (next_peak bin.old) ≤ (S.state store.old account.0).left + bin_price size bin.old.peak)
        × ((S.state store.old account.0).caps ≡ Some 0)) }
    ensures err { OnErr result ((bin.new ≡ bin.old) × (store.new ≡ store.old)) }
    ensures rest { S.same_rest account.0 store.old store.new }
{
    let head = first_free(store, account, size, places, bin.head)?;
    let place = head - 1;
    bin.head = pop(store, size, places, bits, place);
    bin.count += 1;
    bin.peak = bin.peak.max(bin.count);
    Ok(place)
}

/// Makes a place free.
pub fn give<S: ByteStore>(
    store: &mut S,
    bin: &mut Bin,
    size: u32,
    places: u32,
    bits: u32,
    place: u32,
)
    requires size { IsSize size places }
    requires bits { (bits ≤ 8) × (places ≡ 2 ^ bits) }
    requires kept { (a : ℕ) × HasPlace size places bin.old (S.state store.old a) place }
    ensures gives { (a : ℕ) → HasPlace size places bin.old (S.state store.old a) place
        → FreesPlace size places bin.old bin.new (S.state store.old a) (S.state store.new a) place }
    ensures rest { (a : ℕ) → HasPlace size places bin.old (S.state store.old a) place → S.same_rest a store.old store.new }
{
    bin.head = push(store, size, places, bits, bin.head, place);
    bin.count -= 1;
}
