// What a run gives a leaf.

/// What a leaf is given between two steps of others.
#[derive(Clone, Copy, Debug, PartialEq, Eq)]
pub enum Act {
    /// So many turns.
    Turns(u32),
    /// Another value of one of its inputs: the number of the input, and the value.
    Sets(u8, u32),
    /// One of its signals, by its number.
    Submits(u8),
}

/// What a line of a list of turns gives.
#[derive(Clone, Copy, Debug, PartialEq, Eq)]
pub enum TurnLine {
    /// A leaf, by its number in preorder, is given this.
    Gives(u32, Act),
    /// All leaves take turns round by round, in preorder, each as long as it can take one: until none can, or 1,000,000 turns are taken.
    Rests,
}
