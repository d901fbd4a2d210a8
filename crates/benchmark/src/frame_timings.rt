// Frames that are taken and given back, and what is made for 64 MiB.
ghost use Rattle.std.specs.Prelude.{◌≡◌, length};

use crate::measure_fault::MeasureFault;
use crate::timing::{report, report_all, since};
use crate::word_timings::zeros;
use gq_pages::Pages;
use gq_ram::Accounts;
use std::alloc::{AllocError, Global};
use std::time::Instant;

// How many frames there are in 64 MiB.
const FRAMES: u32 = 16384;

// The bytes of a frame, and of all of them.
const FRAME: usize = 4096;

const WHOLE: u64 = 67108864;

// How often a frame is taken and given back in a round.
const PAIRS: u32 = 65536;

/// Measures frames that are taken for the first time, frames that are taken and given back, and what is made for 64 MiB, so many times over. Gives the
/// number of a frame.
pub fn measured(rt: &HostRuntime, times: u32) -> Result<usize, MeasureFault> {
    let fresh = first_takes(rt, times)?;
    let taken = pairs(rt, times)?;
    let last = vecs(rt, times, taken)?;
    new_for_all(rt, times)?;
    Ok((fresh ^ last) as usize)
}

// A frame is taken and given back.
fn pairs(rt: &HostRuntime, times: u32) -> Result<u32, MeasureFault> {
    let mut pages = Pages::new(rt.alloc(), 2)?;
    let given = pairs_of(rt, &mut pages, times);
    drop(pages);
    given
}

fn pairs_of(rt: &HostRuntime, pages: &mut Pages, times: u32) -> Result<u32, MeasureFault> {
    let start = Instant::now(rt);
    let mut last = 0;
    for _ in 0..times {
        last = take_and_give(pages, last);
    }
    let pairs = u64::from(times) * u64::from(PAIRS);
    report(rt, "frame take and give", pairs, start)?;
    Ok(last)
}

// A `Vec` of a frame's bytes is made and dropped.
fn vecs(rt: &HostRuntime, times: u32, before: u32) -> Result<u32, MeasureFault> {
    let start = Instant::now(rt)?;
    let mut last = before;
    for _ in 0..times {
        last = make_and_drop(rt.alloc(), last)?;
    }
    let pairs = u64::from(times) * u64::from(PAIRS);
    report(rt, "Vec of a frame", pairs, Ok(start))?;
    Ok(last)
}

// All frames of 64 MiB are taken for the first time.
fn first_takes(rt: &HostRuntime, times: u32) -> Result<u32, MeasureFault> {
    let mut nanoseconds = 0;
    let mut last = 0;
    for _ in 0..times {
        let taken = first_take(rt)?;
        last = taken.0;
        nanoseconds = taken.1.saturating_add(nanoseconds);
    }
    report_all(
        rt,
        "frame first take",
        u64::from(times) * u64::from(FRAMES),
        nanoseconds,
    )?;
    Ok(last)
}

// The number of the last frame, and the nanoseconds that all of them take.
fn first_take(rt: &HostRuntime) -> Result<(u32, u128), MeasureFault> {
    let mut pages = Pages::new(rt.alloc(), FRAMES)?;
    let given = first_take_of(rt, &mut pages);
    drop(pages);
    given
}

fn first_take_of(rt: &HostRuntime, pages: &mut Pages) -> Result<(u32, u128), MeasureFault> {
    let start = Instant::now(rt);
    let last = take_all(pages);
    Ok((last, since(rt, start)?))
}

// Takes all frames, and gives the number of the last one.
fn take_all(pages: &mut Pages) -> u32 {
    let mut last = 0;
    for _ in 0..FRAMES {
        if let Ok(frame) = pages.take() {
            last = frame.0;
        }
    }
    last
}

// Takes a frame and gives it back, over and over.
fn take_and_give(pages: &mut Pages, before: u32) -> u32 {
    let mut last = before;
    for _ in 0..PAIRS {
        if let Ok(frame) = pages.take() {
            last = last.wrapping_add(frame.0);
            pages.give(frame);
        }
    }
    last
}

// Makes a `Vec` of the bytes of a frame, each 0, and drops the one before it, over and over.
fn make_and_drop(alloc: Global, before: u32) -> Result<u32, AllocError> {
    let mut last = before;
    let mut kept = zeros(alloc, FRAME)?;
    for pair in 0..PAIRS {
        last = last.wrapping_add(touched(&mut kept, pair));
        kept = zeros(alloc, FRAME)?;
    }
    Ok(last)
}

// Writes one of its bytes, and gives another one.
fn touched(bytes: &mut Vec<u8>, pair: u32) -> u32
    requires { length bytes.old.items ≡ 4096 }
{
    bytes[pair as usize % FRAME] = 1;
    u32::from(bytes[pair as usize / 16 % FRAME])
}

// What is made for 64 MiB, and dropped.
fn new_for_all(rt: &HostRuntime, times: u32) -> Result<(), MeasureFault> {
    new_pages(rt, times)?;
    new_accounts(rt, times)?;
    new_vecs(rt, times)
}

fn new_pages(rt: &HostRuntime, times: u32) -> Result<(), MeasureFault> {
    let start = Instant::now(rt)?;
    for _ in 0..times {
        drop(Pages::new(rt.alloc(), FRAMES)?);
    }
    report(rt, "Pages::new of 64 MiB", u64::from(times), Ok(start))
}

fn new_accounts(rt: &HostRuntime, times: u32) -> Result<(), MeasureFault> {
    let start = Instant::now(rt)?;
    for _ in 0..times {
        drop(Accounts::new(rt.alloc(), WHOLE, None)?);
    }
    report(rt, "Accounts::new of 64 MiB", u64::from(times), Ok(start))
}

fn new_vecs(rt: &HostRuntime, times: u32) -> Result<(), MeasureFault> {
    let start = Instant::now(rt)?;
    for _ in 0..times {
        drop(zeros(rt.alloc(), WHOLE as usize)?);
    }
    report(rt, "Vec of 64 MiB", u64::from(times), Ok(start))
}
