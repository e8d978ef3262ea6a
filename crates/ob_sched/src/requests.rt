use crate::start_infos::StartInfo;

/// What became of a request of an organization block.
#[derive(Clone, Copy, Debug, PartialEq, Eq)]
pub enum Arrived {
    /// The request is pending.
    Queued,
    /// The request is dropped, since the organization block is disabled.
    Dropped,
    /// The request fails, since the organization block isn't loaded.
    NotLoaded,
    /// The request fails, since as many requests of the organization block are pending as its
    /// queue takes.
    Full,
}

/// The pending request that is started next.
#[derive(Clone, Copy, Debug, PartialEq, Eq)]
pub struct Pending {
    /// The number of the organization block.
    pub ob: u16,
    /// The priority class of the organization block in the operating mode.
    pub class: u8,
    /// The start information with which the organization block is to start.
    pub info: StartInfo,
}
