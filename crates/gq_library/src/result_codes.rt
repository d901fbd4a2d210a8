// The numbers of results, as the header names them.

/// What stands for no number: `TRADE_NONE`.
pub const NONE: u32 = 4294967295;

/// The scenario was accepted: `TRADE_LOADED`.
pub const LOADED: u32 = 0;

/// The text was refused: `TRADE_REFUSED`.
pub const REFUSED: u32 = 1;

/// Host memory was refused: `TRADE_MEMORY`.
pub const MEMORY: u32 = 3;

/// The input was set: `TRADE_SET`.
pub const SET: u32 = 0;

/// The leaf has no such input: `TRADE_NO_INPUT`.
pub const NO_INPUT: u32 = 1;

/// The number is above the greatest value of the input: `TRADE_TOO_LARGE`.
pub const TOO_LARGE: u32 = 2;

/// A turn that is no step: `TRADE_IDLE`.
pub const IDLE: u32 = 0;

/// The signal was submitted: `TRADE_SUBMITTED`.
pub const SUBMITTED: u32 = 0;

/// The leaf has no such signal: `TRADE_NO_SIGNAL`.
pub const NO_SIGNAL: u32 = 1;
