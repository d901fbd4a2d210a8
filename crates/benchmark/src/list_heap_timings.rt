// Blocks of the kit's heap, whose free parts are a list in the order of their addresses.
use crate::measure_fault::MeasureFault;
use crate::timing::{report_all, since};
use linked_list_allocator::LocalHeap;
use std::alloc::AllocError;
use std::time::Instant;

// The bytes that all blocks have together, and those of the heap.
const BYTES: u32 = 262144;

const ROOM: usize = 524288;

/// Measures blocks of `size` bytes, 1 to 2048, so many times over: some are made, freed last to first, and made once more. Gives how many blocks there were
/// in a round.
pub fn measured(rt: &HostRuntime, times: u32, size: u32) -> Result<usize, MeasureFault> {
    if size == 0 || size > 2048 {
        return Err(MeasureFault::Usage);
    }
    let count = BYTES / size - 1;
    let mut first = 0;
    let mut free = 0;
    let mut again = 0;
    for _ in 0..times {
        let [a, b, c] = round(rt, size, count)?;
        first = a.saturating_add(first);
        free = b.saturating_add(free);
        again = c.saturating_add(again);
    }
    let operations = u64::from(times) * u64::from(count);
    report_all(rt, "list first alloc", operations, first)?;
    report_all(rt, "list free", operations, free)?;
    report_all(rt, "list alloc again", operations, again)?;
    Ok(count as usize)
}

// The nanoseconds of so many blocks: made for the first time, freed, and made again.
fn round(rt: &HostRuntime, size: u32, count: u32) -> Result<[u128; 3], MeasureFault> {
    let heap = LocalHeap::new(rt.alloc(), ROOM)?;
    let mut blocks = Vec::with_capacity(rt.alloc(), count as usize)?;
    let given = measured_in(rt, &heap, &mut blocks, size, count);
    drop(blocks);
    drop(heap);
    given
}

fn measured_in<'a>(
    rt: &HostRuntime,
    heap: &'a LocalHeap,
    blocks: &mut Vec<Vec<u8, &'a LocalHeap>>,
    size: u32,
    count: u32,
) -> Result<[u128; 3], MeasureFault> {
    let first = timed_allocs(rt, heap, blocks, size, count)?;
    let start = Instant::now(rt);
    free_all(blocks);
    let free = since(rt, start)?;
    let again = timed_allocs(rt, heap, blocks, size, count)?;
    Ok([first, free, again])
}

// The nanoseconds in which so many blocks are made.
fn timed_allocs<'a>(
    rt: &HostRuntime,
    heap: &'a LocalHeap,
    blocks: &mut Vec<Vec<u8, &'a LocalHeap>>,
    size: u32,
    count: u32,
) -> Result<u128, MeasureFault> {
    let start = Instant::now(rt)?;
    alloc_all(heap, blocks, size, count)?;
    since(rt, Ok(start))
}

// Makes so many blocks whose bytes are 0.
fn alloc_all<'a>(
    heap: &'a LocalHeap,
    blocks: &mut Vec<Vec<u8, &'a LocalHeap>>,
    size: u32,
    count: u32,
) -> Result<(), AllocError> {
    for _ in 0..count {
        blocks.push(vec![in heap; 0u8; size as usize]?)?;
    }
    Ok(())
}

// Frees all of them, last to first.
fn free_all(blocks: &mut Vec<Vec<u8, &LocalHeap>>) {
    for _ in 0..blocks.len() {
        let _freed = blocks.pop();
    }
}
