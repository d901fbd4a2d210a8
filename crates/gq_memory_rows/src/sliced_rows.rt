// The sliced heap: whole pages with the bookkeeping, and back when a slice is freed.
use crate::used::used;
use gq_list_store::ListStore;
use gq_sliced::Sliced;
use gq_store::{AccountNo, ByteStore, GrowFault};

// What is seen of a slice of a page: its last byte before and after a write, its size, and what a second slice is answered beside it.
fn see_a_page<S: ByteStore>(
    sliced: &Sliced,
    store: &mut S,
    account: AccountNo,
) -> Result<(u8, u8, u32, Option<GrowFault>), GrowFault> {
    let slice = sliced.alloc(store, account, 4064)?;
    let before = sliced.load(store, slice, 4063);
    sliced.store(store, slice, 4063, 7);
    let after = sliced.load(store, slice, 4063);
    let size = sliced.size(store, slice);
    let second = sliced.alloc(store, account, 1);
    sliced.free(store, account, slice);
    Ok((before, after, size, second.err()))
}

// The same, and then what slices of 4065 bytes and of one byte are answered.
fn see_pages<S: ByteStore>(
    store: &mut S,
    account: AccountNo,
) -> (
    Result<(u8, u8, u32, Option<GrowFault>), GrowFault>,
    [Option<GrowFault>; 2],
) {
    let sliced = Sliced::new();
    let seen = see_a_page(&sliced, store, account);
    (
        seen,
        [
            sliced.alloc(store, account, 4065).err(),
            sliced.alloc(store, account, 1).err(),
        ],
    )
}

#[test]
fn gives_slices_back_whole(rt: HostRuntime) {
    assert_eq!(rt;
        used(
            ListStore::new(rt.alloc(), 1, Some(1)),
            |store| see_pages(store, AccountNo(0))
        ),
        Ok((
            Ok((0, 7, 4064, Some(GrowFault::Exceeded))),
            [Some(GrowFault::Exceeded), None]
        ))
    );
}

// What slices of so many bytes are answered in turn.
fn answers<S: ByteStore>(
    store: &mut S,
    account: AccountNo,
    sizes: [u16; 3],
) -> [Option<GrowFault>; 3] {
    let sliced = Sliced::new();
    let [first, second, third] = sizes;
    [
        sliced.alloc(store, account, u32::from(first)).err(),
        sliced.alloc(store, account, u32::from(second)).err(),
        sliced.alloc(store, account, u32::from(third)).err(),
    ]
}

// Of 8192 bytes a slice of 4064 leaves 4096, and one of 4065 leaves none. Each slice wants a capability; bytes are refused before it.
#[test]
fn takes_whole_pages(rt: HostRuntime) {
    let alloc = rt.alloc();
    let exceeded = Some(GrowFault::Exceeded);
    let lacks_caps = Some(GrowFault::CapsExceeded);
    assert_eq!(rt;
        [
            used(
                ListStore::new(alloc, 2, None),
                |store| answers(store, AccountNo(0), [4064, 4065, 4064])
            ),
            used(
                ListStore::new(alloc, 2, None),
                |store| answers(store, AccountNo(0), [4065, 0, 0])
            ),
            used(
                ListStore::new(alloc, 2, Some(1)),
                |store| answers(store, AccountNo(0), [0, 0, 4065])
            )
        ],
        [
            Ok([None, exceeded, None]),
            Ok([None, exceeded, exceeded]),
            Ok([None, lacks_caps, exceeded])
        ]
    );
}

#[test]
fn costs_more_than_its_bytes(rt: HostRuntime) {
    assert_eq!(rt;
        [
            Sliced::overhead(0),
            Sliced::overhead(4064),
            Sliced::overhead(4065)
        ],
        [4096, 32, 4127]
    );
}
