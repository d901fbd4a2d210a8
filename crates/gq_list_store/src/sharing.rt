// Two pools, a block and a slice in one store.
ghost use Rattle.std.specs.Prelude.{◌≡◌, IfOk};
ghost use Rattle.gq_heap.specs.Heap.{IsHeap};
ghost use Rattle.gq_list_store.specs.Laid.{IsLaid};

use gq_heap::{Heap, Place};
use gq_pool::Pool;
use gq_sliced::{SliceNo, Sliced};
use gq_store::{AccountNo, ByteStore, GrowFault};

/// What `lay` made: a slice and a block of 16 bytes, and two pools of four entries of 16 bytes.
#[derive(Clone, Copy)]
struct Laid {
    slice: SliceNo,
    block: Place,
    first: Pool,
    second: Pool,
}

/// Lays a slice and a block of 16 bytes and two pools of four entries of 16 bytes into the store, beside what else is there. Writes a byte to the slice (7), to
/// the block (9) and to an entry of the first pool (5). Then the second pool adds an entry, removes it and ends. Answers what the three bytes read after that,
/// of the slice, the block and the entry.
///
/// Refused where the store can't pay for one of them; what was made before stays then.
pub fn share<S: ByteStore>(
    heap: &mut Heap,
    store: &mut S,
    account: AccountNo,
) -> Result<(u8, u8, u8), GrowFault>
    requires { IsHeap heap.old (S.state store.old account.0) }
    ensures slice { IfOk result (λ r. r.0 ≡ 7) }
    ensures block { IfOk result (λ r. r.1 ≡ 9) }
    ensures entry { IfOk result (λ r. r.2 ≡ 5) }
{
    let laid = lay(heap, store, account)?;
    trade(&laid, heap, store, account)
}

// Makes all four, and writes to the slice and the block.
fn lay<S: ByteStore>(heap: &mut Heap, store: &mut S, account: AccountNo) -> Result<Laid, GrowFault>
    requires { IsHeap heap.old (S.state store.old account.0) }
    ensures { IfOk result (λ l. IsLaid l.first l.second heap.new (S.state store.new account.0) l.block l.slice) }
{
    let block = heap.alloc(store, account, 16)?;
    heap.store(store, block, 0, 9);
    let slice = Sliced.alloc(store, account, 16)?;
    Sliced.store(store, slice, 3, 7);
    let first = Pool::new(store, account, 16, 4)?;
    let second = Pool::new(store, account, 16, 4)?;
    Ok(Laid {
        slice,
        block,
        first,
        second,
    })
}

// Takes an entry of each pool, writes to that of the first, gives that of the second back and ends the second; then reads all.
fn trade<S: ByteStore>(
    laid: &Laid,
    heap: &mut Heap,
    store: &mut S,
    account: AccountNo,
) -> Result<(u8, u8, u8), GrowFault>
    requires { IsLaid laid.now.first laid.now.second heap.old (S.state store.old account.0) laid.now.block laid.now.slice }
    ensures { IfOk result (λ r. (r.0 ≡ 7) × (r.1 ≡ 9) × (r.2 ≡ 5)) }
{
    let Laid {
        slice,
        block,
        first,
        second,
    } = *laid;
    first.take(store, heap, account, 0)?;
    first.store(store, heap, 0, 2, 5);
    second.take(store, heap, account, 1)?;
    second.give(store, heap, account, 1);
    second.end(store, heap, account);
    let in_slice = Sliced.load(store, slice, 3);
    let in_block = heap.load(store, block, 0);
    let in_entry = first.load(store, heap, 0, 2);
    Ok((in_slice, in_block, in_entry))
}
