// The heap: a page of places, places that are used again, large blocks, capabilities.
ghost use Rattle.std.specs.Prelude.{[], ◌∷◌, IfOk};
ghost use Rattle.gq_heap.specs.Heap.{IsHeap, AreInUse};

use crate::used::used;
use gq_heap::{Class, Heap, Place};
use gq_list_store::ListStore;
use gq_store::{AccountNo, ByteStore, GrowFault};

fn make_three<S: ByteStore>(
    heap: &mut Heap,
    store: &mut S,
    account: AccountNo,
) -> Result<(Place, Place, Place), GrowFault>
    requires { IsHeap heap.old (S.state store.old account.0) }
    ensures { IfOk result (λ p. AreInUse heap.new (S.state store.new account.0) (p.0 ∷ p.1 ∷ p.2 ∷ [])) }
{
    let a = heap.alloc(store, account, 16)?;
    let b = heap.alloc(store, account, 16)?;
    let c = heap.alloc(store, account, 16)?;
    Ok((c, b, a))
}

// Writes a byte to each of the blocks, and gives what they read then.
fn write_three<S: ByteStore>(
    heap: &Heap,
    store: &mut S,
    account: AccountNo,
    a: Place,
    b: Place,
    c: Place,
) -> (u8, u8, u8)
    requires { AreInUse heap.now (S.state store.old account.0) (a ∷ b ∷ c ∷ []) }
    ensures { AreInUse heap.now (S.state store.new account.0) (a ∷ b ∷ c ∷ []) }
{
    heap.store(store, a, 0, 7);
    heap.store(store, b, 0, 8);
    heap.store(store, c, 0, 9);
    read_three(heap, store, account, a, b, c)
}

fn read_three<S: ByteStore>(
    heap: &Heap,
    store: &S,
    account: AccountNo,
    a: Place,
    b: Place,
    c: Place,
) -> (u8, u8, u8)
    requires { AreInUse heap.now (S.state store.now account.0) (a ∷ b ∷ c ∷ []) }
{
    (
        heap.load(store, a, 0),
        heap.load(store, b, 0),
        heap.load(store, c, 0),
    )
}

fn free_three<S: ByteStore>(
    heap: &mut Heap,
    store: &mut S,
    account: AccountNo,
    a: Place,
    b: Place,
    c: Place,
)
    requires { AreInUse heap.old (S.state store.old account.0) (a ∷ b ∷ c ∷ []) }
    ensures { IsHeap heap.new (S.state store.new account.0) }
{
    heap.free(store, account, a);
    heap.free(store, account, b);
    heap.free(store, account, c);
}

fn make_two<S: ByteStore>(
    heap: &mut Heap,
    store: &mut S,
    account: AccountNo,
) -> Result<(Place, Place), GrowFault>
    requires { IsHeap heap.old (S.state store.old account.0) }
    ensures { IfOk result (λ p. AreInUse heap.new (S.state store.new account.0) (p.0 ∷ p.1 ∷ [])) }
{
    let a = heap.alloc(store, account, 16)?;
    let b = heap.alloc(store, account, 16)?;
    Ok((b, a))
}

// Writes 7 to the first byte of one block and 9 to that of the other, and gives what both read then.
fn write_two<S: ByteStore>(
    heap: &Heap,
    store: &mut S,
    account: AccountNo,
    a: Place,
    b: Place,
) -> (u8, u8)
    requires { AreInUse heap.now (S.state store.old account.0) (a ∷ b ∷ []) }
{
    heap.store(store, a, 0, 7);
    heap.store(store, b, 0, 9);
    (heap.load(store, a, 0), heap.load(store, b, 0))
}

fn free_two<S: ByteStore>(heap: &mut Heap, store: &mut S, account: AccountNo, a: Place, b: Place)
    requires { AreInUse heap.old (S.state store.old account.0) (a ∷ b ∷ []) }
    ensures { IsHeap heap.new (S.state store.new account.0) }
{
    heap.free(store, account, a);
    heap.free(store, account, b);
}

// What two blocks read once each is written, where two others were freed before, and what the heap costs then.
fn read_again<S: ByteStore>(
    heap: &mut Heap,
    store: &mut S,
    account: AccountNo,
) -> Result<((u8, u8), u64), GrowFault>
    requires { IsHeap heap.old (S.state store.old account.0) }
{
    let (a, b) = make_two(heap, store, account)?;
    free_two(heap, store, account, a, b);
    let (c, d) = make_two(heap, store, account)?;
    let read = write_two(heap, store, account, c, d);
    Ok((read, heap.charge()))
}

// Makes so many blocks of 16 bytes, and says whether each was made.
fn fill<S: ByteStore>(heap: &mut Heap, store: &mut S, account: AccountNo, count: u32) -> bool
    requires { IsHeap heap.old (S.state store.old account.0) }
    ensures { IsHeap heap.new (S.state store.new account.0) }
{
    let mut all = true;
    for _ in 0..count {
        if heap.alloc(store, account, 16).is_err() {
            all = false;
        }
    }
    all
}

// What the last three places of a page read once each is written, whether the three that are made once these are freed are apart, and what those read.
fn read_last<S: ByteStore>(
    heap: &mut Heap,
    store: &mut S,
    account: AccountNo,
) -> Result<((u8, u8, u8), bool, (u8, u8, u8)), GrowFault>
    requires { IsHeap heap.old (S.state store.old account.0) }
{
    let (a, b, c) = make_three(heap, store, account)?;
    let written = write_three(heap, store, account, a, b, c);
    free_three(heap, store, account, a, b, c);
    let (d, e, f) = make_three(heap, store, account)?;
    let are_apart = d != e && d != f && e != f;
    Ok((
        written,
        are_apart,
        read_three(heap, store, account, d, e, f),
    ))
}

// What the heap costs in bytes and capabilities with a large block, without it, and once a small one is made and freed after it.
fn charges<S: ByteStore>(
    heap: &mut Heap,
    store: &mut S,
    account: AccountNo,
) -> Result<[(u64, u64); 4], GrowFault>
    requires { IsHeap heap.old (S.state store.old account.0) }
    ensures { IsHeap heap.new (S.state store.new account.0) }
{
    let large = heap.alloc(store, account, 2049)?;
    let with_large = (heap.charge(), heap.charge_caps());
    heap.free(store, account, large);
    let without = (heap.charge(), heap.charge_caps());
    let small = heap.alloc(store, account, 2048)?;
    let with_small = (heap.charge(), heap.charge_caps());
    heap.free(store, account, small);
    let last = (heap.charge(), heap.charge_caps());
    Ok([with_large, without, with_small, last])
}

// The same in a heap of its own.
fn reuse_two<S: ByteStore>(
    store: &mut S,
    account: AccountNo,
) -> Result<((u8, u8), u64), GrowFault> {
    let mut heap = Heap::new();
    let read = read_again(&mut heap, store, account);
    drop(heap);
    read
}

// Whether 253 blocks were made, what the last three of the page read, and what the three read that are made once these are freed. What the heap costs then, and
// how many places were in use at most.
fn reuse_last<S: ByteStore>(
    store: &mut S,
    account: AccountNo,
) -> (
    bool,
    Result<((u8, u8, u8), bool, (u8, u8, u8)), GrowFault>,
    u64,
    u32,
) {
    let mut heap = Heap::new();
    let is_full = fill(&mut heap, store, account, 253);
    let read = read_last(&mut heap, store, account);
    let charge = heap.charge();
    let peak = heap.peak(Class::Bytes16);
    drop(heap);
    (is_full, read, charge, peak)
}

// Whether a page of blocks was made, and why one more of them was not, and one of the next class.
fn refuse_more<S: ByteStore>(store: &mut S, account: AccountNo) -> (bool, [Option<GrowFault>; 2]) {
    let mut heap = Heap::new();
    let is_full = fill(&mut heap, store, account, 256);
    let refused = [
        heap.alloc(store, account, 16).err(),
        heap.alloc(store, account, 17).err(),
    ];
    drop(heap);
    (is_full, refused)
}

// What large blocks cost, and why there is no other one then.
fn give_back<S: ByteStore>(
    store: &mut S,
    account: AccountNo,
) -> (Result<[(u64, u64); 4], GrowFault>, [Option<GrowFault>; 2]) {
    let mut heap = Heap::new();
    let charges = charges(&mut heap, store, account);
    let refused = [
        heap.alloc(store, account, 32).err(),
        heap.alloc(store, account, 8193).err(),
    ];
    drop(heap);
    (charges, refused)
}

// Blocks are apart in places that were freed, freed places are used again, and a page has 256 of them.
#[test]
fn uses_places_again(rt: HostRuntime) {
    let alloc = rt.alloc();
    assert_eq!(rt;
        (
            used(
                ListStore::new(alloc, 1, None),
                |store| reuse_two(store, AccountNo(0))
            ),
            used(
                ListStore::new(alloc, 1, None),
                |store| reuse_last(store, AccountNo(0))
            ),
            used(
                ListStore::new(alloc, 1, None),
                |store| refuse_more(store, AccountNo(0))
            )
        ),
        (
            Ok(Ok(((7, 9), 4096))),
            Ok((true, Ok(((7, 8, 9), true, (0, 0, 0))), 4096, 256)),
            Ok((true, [Some(GrowFault::Exceeded), Some(GrowFault::Exceeded)]))
        )
    );
}

#[test]
fn gives_large_blocks_back(rt: HostRuntime) {
    assert_eq!(rt;
        used(
            ListStore::new(rt.alloc(), 2, Some(1)),
            |store| give_back(store, AccountNo(0))
        ),
        Ok((
            Ok([(4096, 1), (0, 0), (4096, 1), (4096, 1)]),
            [Some(GrowFault::CapsExceeded), Some(GrowFault::Exceeded)]
        ))
    );
}
