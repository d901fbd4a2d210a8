//! Tests of component memory: prices, frames, dataspaces, accounts, stores of accounts and region maps; the allocators over a store of plain lists, and slots.
#![tactic(auto)]

#[cfg(test)]
mod dataspace_rows;
#[cfg(test)]
mod heap_rows;
#[cfg(test)]
mod memory_rows;
#[cfg(test)]
mod numbered_rows;
#[cfg(test)]
mod pages_rows;
#[cfg(test)]
mod pool_rows;
#[cfg(test)]
mod ram_rows;
#[cfg(test)]
mod region_rows;
#[cfg(test)]
mod sharing_rows;
#[cfg(test)]
mod sliced_rows;
#[cfg(test)]
mod slots_rows;
#[cfg(test)]
mod tariff_rows;
#[cfg(test)]
mod trade_rows;
#[cfg(test)]
mod used;
