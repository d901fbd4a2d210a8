// Bytes of a space, by its slot and by their addresses, and of a dataspace.
ghost use Rattle.std.specs.Prelude.{◌≡◌, length};
ghost use Rattle.gq_dataspace.specs.Dataspaces.{content_of};
ghost use Rattle.gq_trade.specs.declared.session.SlotId.TheVariants.{InLeaf};
ghost use Rattle.gq_trade.specs.Trades.{IsLive};
ghost use Rattle.gq_slots.specs.Slots.{IsSlotId};
ghost use Rattle.benchmark.specs.Session_rounds.{HasRoom};

use crate::measure_fault::MeasureFault;
use crate::session_timings::market;
use crate::timing::report;
use gq_dataspace::DsId;
use gq_model::program::Width;
use gq_ram::Accounts;
use gq_region::region_addresses;
use gq_slots::{Addresses, Slots};
use gq_trade::SlotId;
use std::time::Instant;

// The bytes of the space.
const SIZE: u32 = 16384;

/// Measures so many bytes that are read in sequence: of a dataspace, and of a space of as many bytes, each by the space's slot, and then each by its
/// address. Gives what they are together.
pub fn measured(rt: &HostRuntime, times: u32) -> Result<usize, MeasureFault> {
    let alone = in_accounts(rt, times)?;
    let in_slots = in_market(rt, times)?;
    Ok(alone ^ in_slots)
}

// Of a dataspace that the root account pays for.
fn in_accounts(rt: &HostRuntime, times: u32) -> Result<usize, MeasureFault> {
    let mut accounts = Accounts::new(rt.alloc(), u64::from(SIZE), None)?;
    let given = in_root(rt, &mut accounts, times);
    drop(accounts);
    given
}

fn in_root(rt: &HostRuntime, accounts: &mut Accounts, times: u32) -> Result<usize, MeasureFault> {
    let root = accounts.root();
    match accounts.alloc(root, u64::from(SIZE)) {
        Ok(ds) => in_dataspace(rt, accounts, ds, times),
        Err(_) => Err(MeasureFault::Account),
    }
}

fn in_dataspace(
    rt: &HostRuntime,
    accounts: &Accounts,
    ds: DsId,
    times: u32,
) -> Result<usize, MeasureFault>
    requires { length (content_of accounts.now.spaces.spaces ds.0) ≡ 16384 }
{
    let start = Instant::now(rt);
    let sum = by_dataspace(accounts, ds, times);
    report(rt, "byte by dataspace", u64::from(times), start)?;
    Ok(usize::from(sum))
}

fn by_dataspace(accounts: &Accounts, ds: DsId, times: u32) -> u8
    requires { length (content_of accounts.now.spaces.spaces ds.0) ≡ 16384 }
{
    let mut sum = 0;
    for index in 0..times {
        sum ^= accounts.load(ds, index % SIZE);
    }
    sum
}

// Of a space, in the slots of a scenario.
fn in_market(rt: &HostRuntime, times: u32) -> Result<usize, MeasureFault> {
    let mut slots = market(rt.alloc())?;
    let addresses = Addresses::new(Vec::new(rt.alloc()));
    let given = in_slots(rt, &mut slots, &addresses, times);
    drop(addresses);
    drop(slots);
    given
}

// The same in slots in which no session is open.
fn in_slots(
    rt: &HostRuntime,
    slots: &mut Slots,
    addresses: &Addresses,
    times: u32,
) -> Result<usize, MeasureFault>
    requires { HasRoom 0 slots.old }
{
    slots.laws();
    let slot = SlotId::InLeaf(1, 0);
    if !slots.content(slot).is_empty() {
        return Err(MeasureFault::Account);
    }
    slots.make_space(slot, SIZE)?;
    both(rt, slots, addresses, times)
}

fn both(
    rt: &HostRuntime,
    slots: &Slots,
    addresses: &Addresses,
    times: u32,
) -> Result<usize, MeasureFault>
    requires live { IsLive slots.now.trades 1 }
    requires there { IsSlotId slots.now (InLeaf 1 0) }
{
    let start = Instant::now(rt);
    let one = by_slot(slots, times);
    report(rt, "byte by slot", u64::from(times), start)?;
    let start = Instant::now(rt);
    let other = by_address(slots, addresses, times);
    report(rt, "byte by address", u64::from(times), start)?;
    match (one, other) {
        (Some(one), Some(other)) => Ok((one ^ other) as usize),
        _ => Err(MeasureFault::Account),
    }
}

// All bytes that are read, one after the other, as one. `None` where one is not there.
fn by_slot(slots: &Slots, times: u32) -> Option<u32>
    requires { IsSlotId slots.now (InLeaf 1 0) }
{
    let mut sum = 0;
    for index in 0..times {
        sum ^= in_slot(slots, index % SIZE)?;
    }
    Some(sum)
}

fn in_slot(slots: &Slots, index: u32) -> Option<u32>
    requires { IsSlotId slots.now (InLeaf 1 0) }
{
    let extent = slots.extent(SlotId::InLeaf(1, 0))?;
    if u64::from(index) < extent.length {
        Some(slots.read(extent, Width::Byte, index))
    } else {
        None
    }
}

// The same, each found by its address. `None` where one is not there.
fn by_address(slots: &Slots, addresses: &Addresses, times: u32) -> Option<u32>
    requires { IsLive slots.now.trades 1 }
{
    let mut sum = 0;
    for index in 0..times {
        sum ^= region_addresses::load(addresses, slots, 1, Width::Byte, index % SIZE)?;
    }
    Some(sum)
}
