// The greatest numbers that a scenario, a program and its run may have; each stands once, here.

/// The leaves of a scenario, and its inits under the root.
pub const GREATEST_LEAVES: usize = 64;

/// The bytes of a label: four names of 16 bytes with the root's, and ` -> ` between them, are 84; a label has room for 96.
pub const GREATEST_LABEL: usize = 96;

/// The depth of a node: the root's children are at depth 1.
pub const GREATEST_NODE_DEPTH: usize = 4;

/// The levels of a session, from 0: a service has at most so many upgrades.
pub const GREATEST_LEVEL: usize = 3;

/// The interfaces of a scenario.
pub const GREATEST_INTERFACES: usize = 64;

/// The capabilities of a scenario.
pub const GREATEST_CAPS: u64 = 65536;

/// The bytes of a system: 2 to the 26, in whole pages.
pub const GREATEST_RAM: u64 = 67_108_864;

/// A quantity of bytes in a scenario, as a quantum: 2 to the 40.
pub const GREATEST_QUANTITY: u64 = 1 << 40;

/// The bytes of the object of a session.
pub const GREATEST_OBJECT: u64 = 65_536;

/// The bytes of the buffer of a session.
pub const GREATEST_BUFFER: u64 = 1_048_576;

/// The numbers of sessions. At most 16384 are accepted at a time, as the server of each pays a page for its object. At most one more for each leaf is
/// not, as its client waits. And there is one that none has.
pub const GREATEST_SESSIONS: usize = 16_449;

/// The bytes of a space, a slice or a block: 2 to the 26.
pub const GREATEST_SIZE: u32 = 67_108_864;

/// The entries of a pool.
pub const GREATEST_ENTRIES: u16 = 1024;

/// The rounds of a loop.
pub const GREATEST_ROUNDS: u16 = 65_535;

/// The operands of a leaf.
pub const OPERANDS: usize = 16;

/// The locals of a leaf.
pub const LOCALS: usize = 8;

/// The inputs of a leaf.
pub const INPUTS: usize = 8;

/// The signals of a leaf.
pub const SIGNALS: usize = 3;

/// The slots of a leaf.
pub const OWN_SLOTS: usize = 64;

/// The slots of a session.
pub const SESSION_SLOTS: usize = 8;

/// The blocks, `if` and `loop` together, that may be open at one place.
pub const GREATEST_DEPTH: usize = 4;

/// The statements of a program.
pub const GREATEST_STATEMENTS: u16 = 4096;

/// The steps of a section, and of a leaf: 10 to the 12.
pub const GREATEST_STEPS: u64 = 1_000_000_000_000;

/// The turns of a run.
pub const GREATEST_TURNS: u32 = 1_000_000;

/// The bytes of a scenario's text: 2 to the 20.
pub const GREATEST_SCENARIO: usize = 1_048_576;

/// The bytes of a text of turns: 2 to the 24.
pub const GREATEST_TURNS_TEXT: usize = 16_777_216;

/// The bytes of an input of the program: 18 times 2 to the 20.
pub const GREATEST_INPUT: usize = 18_874_368;
