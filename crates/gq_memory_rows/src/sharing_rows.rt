// Two pools, a block and a slice in one store.
use crate::used::used;
use gq_heap::Heap;
use gq_list_store::{ListStore, share};
use gq_store::{AccountNo, ByteStore, GrowFault};

// What each reads in a heap of its own.
fn shared<S: ByteStore>(store: &mut S) -> Result<(u8, u8, u8), GrowFault> {
    let mut heap = Heap::new();
    let read = share(&mut heap, store, AccountNo(0));
    drop(heap);
    read
}

#[test]
fn reads_what_each_has(rt: HostRuntime) {
    assert_eq!(rt;
        used(ListStore::new(rt.alloc(), 4, Some(4)), shared),
        Ok(Ok((7, 9, 5)))
    );
}
