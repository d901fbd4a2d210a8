// Blocks of the heap, in a store of plain lists.
ghost use Rattle.std.specs.Prelude.{◌≡◌, ◌≤◌, [], ◌∷◌, ◌++◌, OnOk};
ghost use Rattle.gq_heap.specs.Heap.{IsHeap, AreInUse};

use crate::measure_fault::MeasureFault;
use crate::timing::{report_all, since};
use gq_heap::{Heap, Place};
use gq_list_store::ListStore;
use gq_store::{AccountNo, ByteStore};
use std::alloc::AllocError;
use std::time::Instant;

// The account that pays.
const ACCOUNT: AccountNo = AccountNo(0);

// The pages of the store, and its bytes.
const PAGES: u32 = 64;

const BYTES: u32 = 262144;

// How often a block is made and freed in a round.
const PAIRS: u32 = 65536;

/// Measures blocks of `size` bytes, 1 to 2048, so many times over. First come as many as the store has room for, but for one, and then the same freed, last to
/// first. All of this is done once more. Then one block is made and freed beside all of these, over and over, and one of 2048 bytes, whose place is cleared
/// each time. Gives how many blocks there were in a round.
pub fn measured(rt: &HostRuntime, times: u32, size: u32) -> Result<usize, MeasureFault> {
    if size == 0 || size > 2048 {
        return Err(MeasureFault::Usage);
    }
    let count = BYTES / size - 1;
    rounds(rt, times, size, count)?;
    pairs(rt, size, 0, times, "heap alloc and free, no other block")?;
    pairs(
        rt,
        size,
        count,
        times,
        "heap alloc and free, all others in use",
    )?;
    pairs(rt, 2048, 0, times, "heap alloc and free of 2048 bytes")?;
    Ok(count as usize)
}

// As many blocks as the store has room for, but for one, and reports of them.
fn rounds(rt: &HostRuntime, times: u32, size: u32, count: u32) -> Result<(), MeasureFault>
    requires { (1 ≤ size) × (size ≤ 2048) }
{
    let mut first = 0;
    let mut free = 0;
    let mut again = 0;
    for _ in 0..times {
        let [a, b, c] = round(rt, size, count)?;
        first = a.saturating_add(first);
        free = b.saturating_add(free);
        again = c.saturating_add(again);
    }
    let operations = u64::from(times) * u64::from(count);
    report_all(rt, "heap first alloc", operations, first)?;
    report_all(rt, "heap free", operations, free)?;
    report_all(rt, "heap alloc again", operations, again)
}

// A round over a fresh store and heap.
fn round(rt: &HostRuntime, size: u32, count: u32) -> Result<[u128; 3], MeasureFault>
    requires { (1 ≤ size) × (size ≤ 2048) }
{
    let mut places = Vec::with_capacity(rt.alloc(), count as usize)?;
    let mut store = ListStore::new(rt.alloc(), PAGES, None)?;
    let mut heap = Heap::new();
    let given = measured_in(rt, &mut heap, &mut store, &mut places, size, count);
    drop(heap);
    drop(store);
    drop(places);
    given
}

// The nanoseconds of so many blocks: made for the first time, freed, and made again.
fn measured_in<S: ByteStore>(
    rt: &HostRuntime,
    heap: &mut Heap,
    store: &mut S,
    places: &mut Vec<Place>,
    size: u32,
    count: u32,
) -> Result<[u128; 3], MeasureFault>
    requires size { (1 ≤ size) × (size ≤ 2048) }
    requires kept { AreInUse heap.old (S.state store.old 0) places.old.items }
{
    let first = timed_allocs(rt, heap, store, places, size, count)?;
    let start = Instant::now(rt);
    free_all(heap, store, places);
    let free = since(rt, start)?;
    let again = timed_allocs(rt, heap, store, places, size, count)?;
    Ok([first, free, again])
}

// The nanoseconds in which so many blocks are made.
fn timed_allocs<S: ByteStore>(
    rt: &HostRuntime,
    heap: &mut Heap,
    store: &mut S,
    places: &mut Vec<Place>,
    size: u32,
    count: u32,
) -> Result<u128, MeasureFault>
    requires size { (1 ≤ size) × (size ≤ 2048) }
    requires kept { AreInUse heap.old (S.state store.old 0) places.old.items }
    ensures { OnOk result (AreInUse heap.new (S.state store.new 0) places.new.items) }
{
    let start = Instant::now(rt)?;
    alloc_all(heap, store, places, size, count)?;
    since(rt, Ok(start))
}

// Makes so many blocks, and keeps their places.
fn alloc_all<S: ByteStore>(
    heap: &mut Heap,
    store: &mut S,
    places: &mut Vec<Place>,
    size: u32,
    count: u32,
) -> Result<(), MeasureFault>
    requires size { (1 ≤ size) × (size ≤ 2048) }
    requires kept { AreInUse heap.old (S.state store.old 0) places.old.items }
    ensures { OnOk result (AreInUse heap.new (S.state store.new 0) places.new.items) }
{
    for _ in 0..count {
        let place = heap.alloc(store, ACCOUNT, size)?;
        keep(places, place)?;
    }
    Ok(())
}

// Keeps a place, after the others.
fn keep(places: &mut Vec<Place>, place: Place) -> Result<(), AllocError>
    ensures { OnOk result (places.new.items ≡ places.old.items ++ place ∷ []) }
{
    places.push(place)?;
    Ok(())
}

// Frees all of them, last to first.
fn free_all<S: ByteStore>(heap: &mut Heap, store: &mut S, places: &mut Vec<Place>)
    requires { AreInUse heap.old (S.state store.old 0) places.old.items }
    ensures { AreInUse heap.new (S.state store.new 0) places.new.items }
{
    for _ in 0..places.len() {
        free_last(heap, store, places);
    }
}

// Frees the last one, where there is one.
fn free_last<S: ByteStore>(heap: &mut Heap, store: &mut S, places: &mut Vec<Place>)
    requires { AreInUse heap.old (S.state store.old 0) places.old.items }
    ensures { AreInUse heap.new (S.state store.new 0) places.new.items }
{
    let Some(place) = places.pop() else {
        return;
    };
    heap.free(store, ACCOUNT, place);
}

// Beside so many blocks, one is made and freed over and over.
fn pairs(
    rt: &HostRuntime,
    size: u32,
    count: u32,
    times: u32,
    name: &str,
) -> Result<(), MeasureFault>
    requires { (1 ≤ size) × (size ≤ 2048) }
{
    let mut places = Vec::with_capacity(rt.alloc(), count as usize)?;
    let mut store = ListStore::new(rt.alloc(), PAGES, None)?;
    let mut heap = Heap::new();
    let nanoseconds = pairs_in(rt, &mut heap, &mut store, &mut places, size, count, times);
    drop(heap);
    drop(store);
    drop(places);
    report_all(rt, name, u64::from(times) * u64::from(PAIRS), nanoseconds?)
}

// The nanoseconds of one that is made and freed over and over, beside so many blocks.
fn pairs_in<S: ByteStore>(
    rt: &HostRuntime,
    heap: &mut Heap,
    store: &mut S,
    places: &mut Vec<Place>,
    size: u32,
    count: u32,
    times: u32,
) -> Result<u128, MeasureFault>
    requires size { (1 ≤ size) × (size ≤ 2048) }
    requires kept { AreInUse heap.old (S.state store.old 0) places.old.items }
{
    alloc_all(heap, store, places, size, count)?;
    let start = Instant::now(rt)?;
    for _ in 0..times {
        alloc_and_free(heap, store, size)?;
    }
    since(rt, Ok(start))
}

fn alloc_and_free<S: ByteStore>(
    heap: &mut Heap,
    store: &mut S,
    size: u32,
) -> Result<(), MeasureFault>
    requires size { (1 ≤ size) × (size ≤ 2048) }
    requires kept { IsHeap heap.old (S.state store.old 0) }
    ensures { OnOk result (IsHeap heap.new (S.state store.new 0)) }
{
    for _ in 0..PAIRS {
        let place = heap.alloc(store, ACCOUNT, size)?;
        heap.free(store, ACCOUNT, place);
    }
    Ok(())
}
