// Pools: entries that are added and removed, the heap's charge, what is refused.
ghost use Rattle.std.specs.Prelude.{◌≡◌, ◌<◌, ◌≤◌, IfOk};
ghost use Rattle.gq_heap.specs.Heap.{IsHeap};
ghost use Rattle.gq_pool.specs.Pools.{IsPool, count_of, size_of};

use crate::used::used;
use gq_heap::Heap;
use gq_list_store::ListStore;
use gq_pool::Pool;
use gq_store::{AccountNo, ByteStore, GrowFault};

fn make<S: ByteStore>(store: &mut S, heap: &Heap, account: AccountNo) -> Result<Pool, GrowFault>
    requires { IsHeap heap.now (S.state store.old account.0) }
    ensures kept { IfOk result (λ pool. IsPool pool heap.now (S.state store.new account.0)) }
    ensures size { IfOk result (λ pool. (count_of pool ≡ 1024) × (size_of pool ≡ 16)) }
{
    Pool::new(store, account, 16, 1024)
}

// Adds the entries, and says whether it added each.
fn take_all<S: ByteStore>(
    pool: &Pool,
    store: &mut S,
    heap: &mut Heap,
    account: AccountNo,
    from: u32,
    to: u32,
) -> Result<bool, GrowFault>
    requires kept { IsPool pool.now heap.old (S.state store.old account.0) }
    requires inside { to ≤ count_of pool.now }
    ensures { IsPool pool.now heap.new (S.state store.new account.0) }
{
    let mut all = true;
    for index in from..to {
        if !pool.take(store, heap, account, index)? {
            all = false;
        }
    }
    Ok(all)
}

// Removes the entries before `to`, and says whether it removed each.
fn give_all<S: ByteStore>(
    pool: &Pool,
    store: &mut S,
    heap: &mut Heap,
    account: AccountNo,
    to: u32,
) -> bool
    requires kept { IsPool pool.now heap.old (S.state store.old account.0) }
    requires inside { to ≤ count_of pool.now }
    ensures { IsPool pool.now heap.new (S.state store.new account.0) }
{
    let mut all = true;
    for index in 0..to {
        if !pool.give(store, heap, account, index) {
            all = false;
        }
    }
    all
}

// What an entry reads before and after a write.
fn write<S: ByteStore>(
    pool: &Pool,
    store: &mut S,
    heap: &Heap,
    account: AccountNo,
    index: u32,
) -> (u8, u8)
    requires kept { IsPool pool.now heap.now (S.state store.old account.0) }
    requires inside { (index < count_of pool.now) × (size_of pool.now ≡ 16) }
    ensures { IsPool pool.now heap.now (S.state store.new account.0) }
{
    let before = pool.load(store, heap, index, 15);
    pool.store(store, heap, index, 15, 7);
    (before, pool.load(store, heap, index, 15))
}

// Whether entries are added one page after the other, the last of them beyond the first page, and whether they are removed and added again. Whether one is
// added that is there. What the heap costs with a page, with the entry beyond it, and with all of them again.
fn use_entries<S: ByteStore>(
    pool: &Pool,
    store: &mut S,
    heap: &mut Heap,
    account: AccountNo,
) -> Result<([bool; 6], [u64; 3]), GrowFault>
    requires kept { IsPool pool.now heap.old (S.state store.old account.0) }
    requires count { count_of pool.now ≡ 1024 }
    ensures { IsPool pool.now heap.new (S.state store.new account.0) }
{
    let first = take_all(pool, store, heap, account, 0, 256)?;
    let one_page = heap.charge();
    let second = take_all(pool, store, heap, account, 256, 257)?;
    let two_pages = heap.charge();
    let removed = give_all(pool, store, heap, account, 256);
    let third = take_all(pool, store, heap, account, 128, 256)?;
    let fourth = take_all(pool, store, heap, account, 0, 128)?;
    let again = heap.charge();
    let there = take_all(pool, store, heap, account, 0, 1)?;
    Ok((
        [first, second, removed, third, fourth, there],
        [one_page, two_pages, again],
    ))
}

// The same of a new pool, and what the heap costs once that has ended.
fn use_pool<S: ByteStore>(
    store: &mut S,
    heap: &mut Heap,
    account: AccountNo,
) -> Result<(Result<([bool; 6], [u64; 3]), GrowFault>, u64), GrowFault>
    requires { IsHeap heap.old (S.state store.old account.0) }
{
    let pool = make(store, heap, account)?;
    let seen = use_entries(&pool, store, heap, account);
    pool.end(store, heap, account);
    Ok((seen, heap.charge()))
}

// Whether a page of entries is added, why one more is not, what the heap costs then, and what that entry and the one before it read before and after a
// write.
fn refused<S: ByteStore>(
    store: &mut S,
    heap: &mut Heap,
    account: AccountNo,
) -> Result<(bool, Option<GrowFault>, u64, [(u8, u8); 2]), GrowFault>
    requires { IsHeap heap.old (S.state store.old account.0) }
{
    let pool = make(store, heap, account)?;
    let first = take_all(&pool, store, heap, account, 0, 256)?;
    let fault = take_all(&pool, store, heap, account, 256, 257).err();
    let beyond = write(&pool, store, heap, account, 256);
    let last = write(&pool, store, heap, account, 255);
    Ok((first, fault, heap.charge(), [beyond, last]))
}

// The former in a heap of its own, and the latter.
fn use_pool_anew<S: ByteStore>(
    store: &mut S,
    account: AccountNo,
) -> Result<(Result<([bool; 6], [u64; 3]), GrowFault>, u64), GrowFault> {
    let mut heap = Heap::new();
    let seen = use_pool(store, &mut heap, account);
    drop(heap);
    seen
}

fn refused_anew<S: ByteStore>(
    store: &mut S,
    account: AccountNo,
) -> Result<(bool, Option<GrowFault>, u64, [(u8, u8); 2]), GrowFault> {
    let mut heap = Heap::new();
    let seen = refused(store, &mut heap, account);
    drop(heap);
    seen
}

// A pool costs the peak of its entries, and an entry that is not paid is refused.
#[test]
fn keeps_its_entries(rt: HostRuntime) {
    let alloc = rt.alloc();
    assert_eq!(rt;
        (
            used(
                ListStore::new(alloc, 3, Some(3)),
                |store| use_pool_anew(store, AccountNo(0))
            ),
            used(
                ListStore::new(alloc, 2, Some(3)),
                |store| refused_anew(store, AccountNo(0))
            )
        ),
        (
            Ok(Ok((
                Ok(([true, true, true, true, true, false], [4096, 8192, 8192])),
                8192
            ))),
            Ok(Ok((true, Some(GrowFault::Exceeded), 4096, [(0, 0), (0, 7)])))
        )
    );
}
