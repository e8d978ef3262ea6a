use crate::start_infos::StartInfo;
use arrayvec::ArrayVec;

/// The requests of one priority class that wait: organization blocks with their start information,
/// in the order of their arrival.
#[derive(Drop)]
pub struct Bin {
    /// The requests, each an OB number and the start information, in the order of their arrival.
    pub waiting: ArrayVec<(u16, StartInfo), 8>,
}
