// Dataspaces on their happy paths, and what no contract can say: that the host gives memory where it has some.
ghost use Rattle.std.specs.Prelude.{◌≡◌, ◌≢◌, ◌+◌, ◌^◌, ◌≤◌, ℕ, length, IfOk};
ghost use Rattle.gq_tariff.specs.Prices.{up};
ghost use Rattle.gq_dataspace.specs.Dataspaces.{IsLive, content_of};

use crate::used::used;
use gq_dataspace::{DsId, SpaceFault, Spaces};
use gq_pages::Pages;
use std::alloc::{AllocError, Global};

// `create`, by sizes.
fn made(spaces: &mut Spaces, n: u64) -> Result<DsId, SpaceFault>
    requires { (1 ≤ n) × (n ≤ 2 ^ 40) }
    ensures size { IfOk result (λ ds. length (content_of spaces.new.spaces ds.0) ≡ up n) }
    ensures apart { IfOk result (λ ds. (k : ℕ) → IsLive spaces.old.spaces k → k ≢ ds.0) }
    ensures others { IfOk result (λ ds. (k : ℕ) → k ≢ ds.0 → content_of spaces.new.spaces k ≡ content_of spaces.old.spaces k) }
{
    let ds = spaces.create(n)?;
    Ok(ds)
}

// `store4`, by sizes.
fn put(spaces: &mut Spaces, ds: DsId, offset: u32, word: u32)
    requires { offset + 4 ≤ length (content_of spaces.old.spaces ds.0) }
    ensures size { length (content_of spaces.new.spaces ds.0) ≡ length (content_of spaces.old.spaces ds.0) }
    ensures others { (k : ℕ) → k ≢ ds.0 → content_of spaces.new.spaces k ≡ content_of spaces.old.spaces k }
{
    spaces.store4(ds, offset, word);
}

// `store`, by sizes.
fn put_byte(spaces: &mut Spaces, ds: DsId, offset: u32, byte: u8)
    requires { offset + 1 ≤ length (content_of spaces.old.spaces ds.0) }
    ensures size { length (content_of spaces.new.spaces ds.0) ≡ length (content_of spaces.old.spaces ds.0) }
    ensures others { (k : ℕ) → k ≢ ds.0 → content_of spaces.new.spaces k ≡ content_of spaces.old.spaces k }
{
    spaces.store(ds, offset, byte);
}

// `destroy`, by sizes.
fn removed(spaces: &mut Spaces, ds: DsId)
    requires { 1 ≤ length (content_of spaces.old.spaces ds.0) }
    ensures others { (k : ℕ) → k ≢ ds.0 → content_of spaces.new.spaces k ≡ content_of spaces.old.spaces k }
{
    spaces.destroy(ds);
}

// Dataspaces over so many frames.
fn over(alloc: Global, frames: u32) -> Result<Spaces, AllocError>
    requires { (1 ≤ frames) × (frames ≤ 16384) }
{
    let pages = Pages::new(alloc, frames)?;
    Spaces::new(alloc, pages)
}

// The size of a dataspace of a byte, how many frames are free then, what two pages more are answered, and how many frames are free once it is destroyed.
fn refused(spaces: &mut Spaces) -> Option<(u64, u32, SpaceFault, u32)> {
    let ds = spaces.create(1).ok()?;
    let size = spaces.size(ds);
    let free = spaces.free_frames();
    let Err(fault) = spaces.create(8192) else {
        return None;
    };
    spaces.destroy(ds);
    Some((size, free, fault, spaces.free_frames()))
}

// The size of a dataspace of 10,000 bytes, and bytes around a word that is written across two of its pages. Its last byte and the word before that, once its
// last word is written.
fn written(spaces: &mut Spaces) -> Result<(u64, [u8; 3], u8, u32), SpaceFault> {
    let ds = spaces.create(10000)?;
    let size = spaces.size(ds);
    spaces.store4(ds, 8190, 0x04030201);
    let bytes = [
        spaces.load(ds, 8189),
        spaces.load(ds, 8190),
        spaces.load(ds, 8192),
    ];
    spaces.store4(ds, 12284, 0x08070605);
    Ok((size, bytes, spaces.load(ds, 12287), spaces.load4(ds, 12283)))
}

// A dataspace of a page with 7 and 9 at its ends, and one of the two frames beside it, where there are three frames.
fn scattered(spaces: &mut Spaces) -> Result<(DsId, DsId), SpaceFault>
    ensures first { IfOk result (λ x. length (content_of spaces.new.spaces x.0.0) ≡ 4096) }
    ensures second { IfOk result (λ x. length (content_of spaces.new.spaces x.1.0) ≡ 8192) }
    ensures apart { IfOk result (λ x. x.0.0 ≢ x.1.0) }
{
    let before = made(spaces, 4096)?;
    let between = made(spaces, 4096)?;
    let behind = made(spaces, 4096)?;
    put_byte(spaces, between, 0, 7);
    put_byte(spaces, between, 4095, 9);
    removed(spaces, before);
    removed(spaces, behind);
    let scattered = made(spaces, 8192)?;
    Ok((between, scattered))
}

// The word across both frames before and after its bytes are written, and then the first byte, the word behind it and the last byte of the dataspace between.
fn read_across(spaces: &mut Spaces) -> Result<(u32, u32, u8, u32, u8), SpaceFault> {
    let (between, scattered) = scattered(spaces)?;
    let before = spaces.load4(scattered, 4094);
    put_byte(spaces, scattered, 4094, 1);
    put_byte(spaces, scattered, 4095, 2);
    put_byte(spaces, scattered, 4096, 3);
    put_byte(spaces, scattered, 4097, 4);
    Ok((
        before,
        spaces.load4(scattered, 4094),
        spaces.load(between, 0),
        spaces.load4(between, 1),
        spaces.load(between, 4095),
    ))
}

// What words read in a dataspace of 300 pages, where the way to a page has one, two or three links; and how many frames are free once it is destroyed.
fn read_far(spaces: &mut Spaces) -> Result<([u32; 6], u32), SpaceFault> {
    let ds = made(spaces, 1228800)?;
    put(spaces, ds, 0, 11);
    put(spaces, ds, 61440, 12);
    put(spaces, ds, 65536, 13);
    put(spaces, ds, 1044480, 14);
    put(spaces, ds, 1048576, 15);
    put(spaces, ds, 1228796, 16);
    let words = [
        spaces.load4(ds, 0),
        spaces.load4(ds, 61440),
        spaces.load4(ds, 65536),
        spaces.load4(ds, 1044480),
        spaces.load4(ds, 1048576),
        spaces.load4(ds, 1228796),
    ];
    removed(spaces, ds);
    Ok((words, spaces.free_frames()))
}

// More bytes than are free are refused; words are written across pages, read across scattered frames, and found in each page of a large space.
#[test]
fn has_bytes_and_words(rt: HostRuntime) {
    let alloc = rt.alloc();
    assert_eq!(rt;
        (
            used(over(alloc, 2), refused),
            used(over(alloc, 4), written),
            used(over(alloc, 3), read_across),
            used(over(alloc, 300), read_far)
        ),
        (
            Ok(Some((4096, 1, SpaceFault::NoFrames, 2))),
            Ok(Ok((12288, [0, 1, 3], 8, 0x07060500))),
            Ok(Ok((0, 67305985, 7, 0, 9))),
            Ok(Ok(([11, 12, 13, 14, 15, 16], 300)))
        )
    );
}
