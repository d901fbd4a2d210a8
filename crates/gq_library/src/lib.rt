//! The C library: systems of components inside a program of one's own. `library/trade.h` is its header.
//!
//! Modules: `loading`, `reading` and `running` have the functions of the header. `held` has the handle that C holds, and the world that a call takes out of it;
//! `loose` has a box as its pointer. `texts` puts bytes into a buffer, `refusal_line` the line of a refusal. `account_structs` reads accounts and bounds,
//! `lookup` names and labels. `inputs` sets inputs, `signals` submits signals. `turn` and `turn_burst` take turns of a leaf, `tour` those of all leaves.
//! `result_codes` has the numbers of results.
#![tactic(auto)]

mod account_structs;
mod held;
mod inputs;
pub mod loading;
mod lookup;
mod loose;
pub mod reading;
mod refusal_line;
mod result_codes;
pub mod running;
mod signals;
mod texts;
mod tour;
mod turn;
mod turn_burst;
