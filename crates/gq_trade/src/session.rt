// What a session is.
use gq_contents::Content;
use gq_tariff::Amount;

/// Where a slot stands.
#[derive(Clone, Copy, Debug, PartialEq, Eq)]
pub enum SlotId {
    /// A leaf's own slot: the number of the leaf, and of the slot.
    InLeaf(usize, u8),
    /// A session's slot: the number of the session, and of the slot.
    InSession(usize, u8),
    /// A session's object.
    InObject(usize),
}

/// A session: from which slot of which leaf it was asked for, which leaf serves it and as which service, its level, and what was given for it.
/// Its object and its slots are there once it is accepted.
#[derive(Clone, Copy)]
pub struct Session {
    pub client: usize,
    pub slot_id: SlotId,
    pub server: usize,
    pub service: usize,
    pub level: u8,
    pub donation: Amount,
    pub accepted: bool,
    pub object: Content,
    pub slots: [Content; 8],
}
