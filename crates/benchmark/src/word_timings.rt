// Numbers of four bytes in a dataspace of 1 MiB and in a `Vec` of that length, and blocks of the dataspace that are cleared.
ghost use Rattle.std.specs.Prelude.{◌≡◌, ◌+◌, ◌<◌, ◌≤◌, IfOk, length};
ghost use Rattle.gq_dataspace.specs.Dataspaces.{content_of};
ghost use Rattle.gq_ram.specs.Account_table.{IsOpen};

use crate::measure_fault::MeasureFault;
use crate::timing::{report, report_all, since};
use gq_dataspace::DsId;
use gq_ram::{AccountNo, Accounts};
use gq_tariff::Amount;
use std::alloc::{AllocError, Global};
use std::io;
use std::time::Instant;

// The bytes of the dataspace, and the numbers in it.
const SIZE: u64 = 1048576;

const WORDS: u32 = 262144;

// The bytes that are cleared at a time, and how often all of it has as many.
const BLOCK: u32 = 2048;

const BLOCKS: u32 = 512;

/// Measures numbers that are written and read, each as often as there are numbers, and blocks of bytes that are cleared, so many times over. They lie in a
/// dataspace whose frames follow one another, in one where none follows the one before, and in a `Vec`. Gives a sum of what was read.
pub fn measured(rt: &HostRuntime, times: u32) -> Result<usize, MeasureFault> {
    let in_row = in_row(rt, times)?;
    let scattered = scattered(rt, times)?;
    let in_vec = in_a_vec(rt, times)?;
    Ok((in_row ^ scattered ^ in_vec) as usize)
}

// In a dataspace whose frames follow one another.
fn in_row(rt: &HostRuntime, times: u32) -> Result<u32, MeasureFault> {
    let mut accounts = Accounts::new(rt.alloc(), 2 * SIZE, None)?;
    let given = in_new(rt, &mut accounts, times, "dataspace");
    drop(accounts);
    given
}

// In a dataspace in which no frame follows the one before.
fn scattered(rt: &HostRuntime, times: u32) -> Result<u32, MeasureFault> {
    let mut accounts = Accounts::new(rt.alloc(), SIZE, None)?;
    let given = in_scattered(rt, &mut accounts, times);
    drop(accounts);
    given
}

// The same once another account had each frame and gave it back: the last of them first.
fn in_scattered(
    rt: &HostRuntime,
    accounts: &mut Accounts,
    times: u32,
) -> Result<u32, MeasureFault> {
    let root = accounts.root();
    let member = accounts.add(root)?;
    open_and_close(accounts, member);
    in_new(rt, accounts, times, "scattered")
}

// In a dataspace that the root account makes, whose frames lie so.
fn in_new(
    rt: &HostRuntime,
    accounts: &mut Accounts,
    times: u32,
    frames: &str,
) -> Result<u32, MeasureFault> {
    let root = accounts.root();
    match accounts.alloc(root, SIZE) {
        Ok(ds) => in_a_dataspace(rt, accounts, ds, times, frames),
        Err(_) => Err(MeasureFault::Account),
    }
}

// In a dataspace that an account pays for, whose frames lie so.
fn in_a_dataspace(
    rt: &HostRuntime,
    accounts: &mut Accounts,
    ds: DsId,
    times: u32,
    frames: &str,
) -> Result<u32, MeasureFault>
    requires { length (content_of accounts.old.spaces.spaces ds.0) ≡ 1048576 }
{
    let sum = in_sequence(rt, accounts, ds, times, frames)?;
    let sum = at_random(rt, accounts, ds, times, frames, sum)?;
    let blocks = u64::from(times) * u64::from(BLOCKS);
    let start = Instant::now(rt);
    for _ in 0..times {
        clear_all(accounts, ds);
    }
    report_of(rt, frames, "clear of 2048 bytes", blocks, start)?;
    Ok(sum)
}

// Numbers in sequence.
fn in_sequence(
    rt: &HostRuntime,
    accounts: &mut Accounts,
    ds: DsId,
    times: u32,
    frames: &str,
) -> Result<u32, MeasureFault>
    requires { length (content_of accounts.old.spaces.spaces ds.0) ≡ 1048576 }
    ensures { length (content_of accounts.new.spaces.spaces ds.0) ≡ 1048576 }
{
    let words = u64::from(times) * u64::from(WORDS);
    let start = Instant::now(rt);
    for round in 0..times {
        store_all(accounts, ds, round);
    }
    report_of(rt, frames, "store4 in sequence", words, start)?;
    let start = Instant::now(rt);
    let mut sum = 0;
    for _ in 0..times {
        sum = load_all(accounts, ds, sum);
    }
    report_of(rt, frames, "load4 in sequence", words, start)?;
    Ok(sum)
}

// Numbers at random, added to a sum.
fn at_random(
    rt: &HostRuntime,
    accounts: &mut Accounts,
    ds: DsId,
    times: u32,
    frames: &str,
    sum: u32,
) -> Result<u32, MeasureFault>
    requires { length (content_of accounts.old.spaces.spaces ds.0) ≡ 1048576 }
    ensures { length (content_of accounts.new.spaces.spaces ds.0) ≡ 1048576 }
{
    let words = u64::from(times) * u64::from(WORDS);
    let start = Instant::now(rt);
    let mut state = 1;
    for _ in 0..times {
        state = store_anywhere(accounts, ds, state);
    }
    report_of(rt, frames, "store4 at random", words, start)?;
    let start = Instant::now(rt);
    let mut sum = sum;
    for _ in 0..times {
        sum = load_anywhere(accounts, ds, sum);
    }
    report_of(rt, frames, "load4 at random", words, start)?;
    Ok(sum)
}

// Reports how long it took to do a thing so often, in a dataspace whose frames lie so.
fn report_of(
    rt: &HostRuntime,
    frames: &str,
    what: &str,
    times: u64,
    start: io::Result<Instant>,
) -> Result<(), MeasureFault> {
    let nanoseconds = since(rt, start)?;
    let name = format!(in rt.alloc(); "{frames} {what}")?;
    report_all(rt, name.as_str(), times, nanoseconds)
}

// An account gets all quota, takes each frame by itself, and is closed.
fn open_and_close(accounts: &mut Accounts, member: AccountNo)
    requires { IsOpen accounts.old.accounts member.0 }
{
    endow(accounts, member);
    for _page in 0..256 {
        take_page(accounts, member);
    }
    let _closed = accounts.close(member);
}

// Moves the quota for all of it from the root account.
fn endow(accounts: &mut Accounts, member: AccountNo)
    requires { IsOpen accounts.old.accounts member.0 }
    ensures { IsOpen accounts.new.accounts member.0 }
{
    let root = accounts.root();
    let _moved = accounts.transfer(root, member, Amount { ram: SIZE, caps: 0 });
}

// The account makes a dataspace of one page.
fn take_page(accounts: &mut Accounts, member: AccountNo)
    requires { IsOpen accounts.old.accounts member.0 }
    ensures { IsOpen accounts.new.accounts member.0 }
{
    let _page = accounts.alloc(member, 4096);
}

// Writes each number, first to last.
fn store_all(accounts: &mut Accounts, ds: DsId, round: u32)
    requires { length (content_of accounts.old.spaces.spaces ds.0) ≡ 1048576 }
    ensures { length (content_of accounts.new.spaces.spaces ds.0) ≡ 1048576 }
{
    for word in 0..WORDS {
        accounts.store4(ds, 4 * word, word.wrapping_add(round));
    }
}

// Adds each number to a sum, first to last.
fn load_all(accounts: &Accounts, ds: DsId, sum: u32) -> u32
    requires { length (content_of accounts.now.spaces.spaces ds.0) ≡ 1048576 }
{
    let mut sum = sum;
    for word in 0..WORDS {
        sum = sum.wrapping_add(accounts.load4(ds, 4 * word));
    }
    sum
}

// Writes as many numbers at places by a generator of random numbers, and gives its state.
fn store_anywhere(accounts: &mut Accounts, ds: DsId, state: u32) -> u32
    requires { length (content_of accounts.old.spaces.spaces ds.0) ≡ 1048576 }
    ensures { length (content_of accounts.new.spaces.spaces ds.0) ≡ 1048576 }
{
    let mut state = state;
    for word in 0..WORDS {
        state = next(state);
        accounts.store4(ds, 4 * place(state), word);
    }
    state
}

// Adds as many numbers, at places by a generator of random numbers that begins with the sum.
fn load_anywhere(accounts: &Accounts, ds: DsId, sum: u32) -> u32
    requires { length (content_of accounts.now.spaces.spaces ds.0) ≡ 1048576 }
{
    let mut state = sum;
    let mut sum = sum;
    for _ in 0..WORDS {
        state = next(state);
        sum = sum.wrapping_add(accounts.load4(ds, 4 * place(state)));
    }
    sum
}

// Clears a dataspace, 2048 bytes at a time.
fn clear_all(accounts: &mut Accounts, ds: DsId)
    requires { length (content_of accounts.old.spaces.spaces ds.0) ≡ 1048576 }
    ensures { length (content_of accounts.new.spaces.spaces ds.0) ≡ 1048576 }
{
    for block in 0..BLOCKS {
        accounts.clear(ds, BLOCK * block, BLOCK);
    }
}

// The next state of a linear congruential generator.
fn next(state: u32) -> u32 {
    state.wrapping_mul(1664525).wrapping_add(1013904223)
}

// The number at which it points: its high bits.
fn place(state: u32) -> u32
    ensures { result < 262144 }
{
    state / 16384
}

/// So many bytes, each 0.
pub fn zeros(alloc: Global, n: usize) -> Result<Vec<u8>, AllocError>
    ensures { IfOk result (λ v. length v.items ≡ n) }
{
    vec![in alloc; 0; n]
}

// The same in a `Vec`.
fn in_a_vec(rt: &HostRuntime, times: u32) -> Result<u32, MeasureFault> {
    let mut bytes = zeros(rt.alloc(), SIZE as usize)?;
    let given = in_bytes(rt, &mut bytes, times);
    drop(bytes);
    given
}

fn in_bytes(rt: &HostRuntime, bytes: &mut Vec<u8>, times: u32) -> Result<u32, MeasureFault>
    requires { length bytes.old.items ≡ 1048576 }
{
    let operations = u64::from(times) * u64::from(WORDS);
    let start = Instant::now(rt);
    for round in 0..times {
        vec_store_all(bytes, round);
    }
    report(rt, "Vec store4 in sequence", operations, start)?;
    let start = Instant::now(rt);
    let mut sum = 0;
    for _ in 0..times {
        sum = vec_load_all(bytes, sum);
    }
    report(rt, "Vec load4 in sequence", operations, start)?;
    let start = Instant::now(rt);
    let mut state = 1;
    for _ in 0..times {
        state = vec_store_anywhere(bytes, state);
    }
    report(rt, "Vec store4 at random", operations, start)?;
    let start = Instant::now(rt);
    for _ in 0..times {
        sum = vec_load_anywhere(bytes, sum);
    }
    report(rt, "Vec load4 at random", operations, start)?;
    Ok(sum)
}

fn vec_store_all(bytes: &mut Vec<u8>, round: u32)
    requires { length bytes.old.items ≡ 1048576 }
    ensures { length bytes.new.items ≡ 1048576 }
{
    for word in 0..WORDS {
        vec_store(bytes, 4 * word as usize, word.wrapping_add(round));
    }
}

fn vec_load_all(bytes: &Vec<u8>, sum: u32) -> u32
    requires { length bytes.now.items ≡ 1048576 }
{
    let mut sum = sum;
    for word in 0..WORDS {
        sum = sum.wrapping_add(vec_load(bytes, 4 * word as usize));
    }
    sum
}

fn vec_store_anywhere(bytes: &mut Vec<u8>, state: u32) -> u32
    requires { length bytes.old.items ≡ 1048576 }
    ensures { length bytes.new.items ≡ 1048576 }
{
    let mut state = state;
    for word in 0..WORDS {
        state = next(state);
        vec_store(bytes, 4 * place(state) as usize, word);
    }
    state
}

fn vec_load_anywhere(bytes: &Vec<u8>, sum: u32) -> u32
    requires { length bytes.now.items ≡ 1048576 }
{
    let mut state = sum;
    let mut sum = sum;
    for _ in 0..WORDS {
        state = next(state);
        sum = sum.wrapping_add(vec_load(bytes, 4 * place(state) as usize));
    }
    sum
}

// Writes a number to four bytes, the lowest first.
fn vec_store(bytes: &mut Vec<u8>, offset: usize, word: u32)
    requires { offset + 4 ≤ length bytes.old.items }
    ensures { length bytes.new.items ≡ length bytes.old.items }
{
    let [a, b, c, d] = word.to_le_bytes();
    bytes[offset] = a;
    bytes[offset + 1] = b;
    bytes[offset + 2] = c;
    bytes[offset + 3] = d;
}

// The number in four bytes, the lowest first.
fn vec_load(bytes: &Vec<u8>, offset: usize) -> u32
    requires { offset + 4 ≤ length bytes.now.items }
{
    u32::from_le_bytes([
        bytes[offset],
        bytes[offset + 1],
        bytes[offset + 2],
        bytes[offset + 3],
    ])
}
