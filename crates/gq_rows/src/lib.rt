//! Tests over public surfaces of what the program's cases can't show: bytes of names, programs as trees, worlds turn by turn, readers and writers that fail,
//! and places in TOML texts.
#![tactic(auto)]

#[cfg(test)]
mod interface_rows;
#[cfg(test)]
mod letter_rows;
#[cfg(test)]
mod program_rows;
#[cfg(test)]
mod reader_rows;
#[cfg(test)]
mod toml_place_rows;
#[cfg(test)]
mod world_rows;
