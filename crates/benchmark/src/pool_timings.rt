// Slices, and the entries of a pool, in a store of plain lists.
ghost use Rattle.std.specs.Prelude.{◌≡◌, ◌≤◌, IfOk, OnOk};
ghost use Rattle.gq_heap.specs.Heap.{IsHeap};
ghost use Rattle.gq_pool.specs.Pools.{IsPool, count_of};

use crate::measure_fault::MeasureFault;
use crate::timing::{report, report_all, since};
use gq_heap::Heap;
use gq_list_store::ListStore;
use gq_pool::Pool;
use gq_sliced::Sliced;
use gq_store::{AccountNo, ByteStore};
use std::time::Instant;

// The account that pays.
const ACCOUNT: AccountNo = AccountNo(0);

// The pages of the store.
const PAGES: u32 = 64;

// How often a slice is made and freed in a round.
const PAIRS: u32 = 4096;

// The entries of the pool, and the bytes of each.
const ENTRIES: u32 = 1024;

const ENTRY: u32 = 16;

/// Measures slices of `size` bytes that are made and freed, so many times over. Gives the bytes that one costs.
pub fn slices(rt: &HostRuntime, times: u32, size: u32) -> Result<usize, MeasureFault> {
    if size > 65536 {
        return Err(MeasureFault::Usage);
    }
    let mut store = ListStore::new(rt.alloc(), PAGES, None)?;
    let given = slices_in(rt, &mut store, times, size);
    drop(store);
    given
}

fn slices_in<S: ByteStore>(
    rt: &HostRuntime,
    store: &mut S,
    times: u32,
    size: u32,
) -> Result<usize, MeasureFault>
    requires { size ≤ 65536 }
{
    let start = Instant::now(rt)?;
    for _ in 0..times {
        alloc_and_free(store, size)?;
    }
    let pairs = u64::from(times) * u64::from(PAIRS);
    report(rt, "slice alloc and free", pairs, Ok(start))?;
    Ok((u64::from(size) + Sliced::overhead(u64::from(size))) as usize)
}

fn alloc_and_free<S: ByteStore>(store: &mut S, size: u32) -> Result<(), MeasureFault>
    requires { size ≤ 65536 }
{
    let sliced = Sliced::new();
    for _ in 0..PAIRS {
        let slice = sliced.alloc(store, ACCOUNT, size)?;
        sliced.free(store, ACCOUNT, slice);
    }
    Ok(())
}

/// Measures the entries of a pool, so many times over: all are added, added once more in vain, and removed. Gives how many there are.
pub fn entries(rt: &HostRuntime, times: u32) -> Result<usize, MeasureFault> {
    let mut first = 0;
    let mut again = 0;
    let mut removed = 0;
    for _ in 0..times {
        let [a, b, c] = round(rt)?;
        first = a.saturating_add(first);
        again = b.saturating_add(again);
        removed = c.saturating_add(removed);
    }
    let operations = u64::from(times) * u64::from(ENTRIES);
    report_all(rt, "pool first take", operations, first)?;
    report_all(rt, "pool give", operations, removed)?;
    report_all(rt, "pool take again", operations, again)?;
    Ok(ENTRIES as usize)
}

// The nanoseconds of all entries: added for the first time, added again after they were removed, and removed.
fn round(rt: &HostRuntime) -> Result<[u128; 3], MeasureFault> {
    let mut store = ListStore::new(rt.alloc(), PAGES, None)?;
    let mut heap = Heap::new();
    let given = measured_in(rt, &mut store, &mut heap);
    drop(heap);
    drop(store);
    given
}

fn measured_in<S: ByteStore>(
    rt: &HostRuntime,
    store: &mut S,
    heap: &mut Heap,
) -> Result<[u128; 3], MeasureFault>
    requires { IsHeap heap.old (S.state store.old 0) }
{
    let pool = made(store, heap)?;
    let first = timed_takes(rt, &pool, store, heap)?;
    let start = Instant::now(rt);
    give_all(&pool, store, heap);
    let removed = since(rt, start)?;
    let again = timed_takes(rt, &pool, store, heap)?;
    Ok([first, again, removed])
}

// The nanoseconds in which all entries are added.
fn timed_takes<S: ByteStore>(
    rt: &HostRuntime,
    pool: &Pool,
    store: &mut S,
    heap: &mut Heap,
) -> Result<u128, MeasureFault>
    requires kept { IsPool pool.now heap.old (S.state store.old 0) }
    requires count { count_of pool.now ≡ 1024 }
    ensures { OnOk result (IsPool pool.now heap.new (S.state store.new 0)) }
{
    let start = Instant::now(rt)?;
    take_all(pool, store, heap)?;
    since(rt, Ok(start))
}

fn made<S: ByteStore>(store: &mut S, heap: &Heap) -> Result<Pool, MeasureFault>
    requires { IsHeap heap.now (S.state store.old 0) }
    ensures kept { IfOk result (λ pool. IsPool pool heap.now (S.state store.new 0)) }
    ensures count { IfOk result (λ pool. count_of pool ≡ 1024) }
{
    let pool = Pool::new(store, ACCOUNT, ENTRY, ENTRIES)?;
    Ok(pool)
}

fn take_all<S: ByteStore>(pool: &Pool, store: &mut S, heap: &mut Heap) -> Result<(), MeasureFault>
    requires kept { IsPool pool.now heap.old (S.state store.old 0) }
    requires count { count_of pool.now ≡ 1024 }
    ensures { OnOk result (IsPool pool.now heap.new (S.state store.new 0)) }
{
    for index in 0..ENTRIES {
        pool.take(store, heap, ACCOUNT, index)?;
    }
    Ok(())
}

fn give_all<S: ByteStore>(pool: &Pool, store: &mut S, heap: &mut Heap)
    requires kept { IsPool pool.now heap.old (S.state store.old 0) }
    requires count { count_of pool.now ≡ 1024 }
    ensures { IsPool pool.now heap.new (S.state store.new 0) }
{
    for index in 0..ENTRIES {
        pool.give(store, heap, ACCOUNT, index);
    }
}
