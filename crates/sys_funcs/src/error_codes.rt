//! The error codes that system functions return: each of them once.

/// EN_AIRT: interrupts aren't delayed.
pub(crate) const INTERRUPTS_NOT_DELAYED: u32 = 0x8080;

/// DIS_IRT and EN_IRT: an OB_NR that means no interrupt; SRT_DINT and CAN_DINT: another OB_NR than
/// that of a time-delay interrupt.
pub(crate) const WRONG_OB_NR: u32 = 0x8090;

/// DIS_IRT and EN_IRT: another MODE than 0, 1 and 2.
pub(crate) const WRONG_MODE: u32 = 0x8091;

/// SRT_DINT: a delay that isn't 1 to 60,000 ms.
pub(crate) const WRONG_DTIME: u32 = 0x8091;

/// CAN_DINT: no delay is started.
pub(crate) const NO_DELAY_STARTED: u32 = 0x80A0;
