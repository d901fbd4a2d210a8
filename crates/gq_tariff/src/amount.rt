// Amounts of quota.

/// The two kinds of quota.
#[derive(Clone, Copy, Debug, PartialEq, Eq)]
pub enum Resource {
    /// Bytes.
    Ram,
    /// Capabilities.
    Caps,
}

/// How much there is of each kind of quota: bytes of RAM, and capabilities.
#[derive(Clone, Copy, Debug, PartialEq, Eq)]
pub struct Amount {
    pub ram: u64,
    pub caps: u64,
}
