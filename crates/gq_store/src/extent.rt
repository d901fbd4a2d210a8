// Where bytes lie.
use crate::ChunkNo;

/// Bytes of a chunk that follow one another: from `start` on, `length` of them.
#[derive(Clone, Copy, Debug, PartialEq, Eq)]
pub struct Extent {
    pub chunk: ChunkNo,
    pub start: u32,
    pub length: u64,
}
