//! The causes of STOP: each of them once.

/// The program stops the controller by SFC 46.
pub const BY_PROGRAM: u8 = 1;

/// The operator stops the controller.
pub const BY_OPERATOR: u8 = 2;

/// A synchronous error for which OB 121 isn't loaded.
pub const NO_OB_121: u8 = 3;

/// A synchronous error for which OB 122 isn't loaded.
pub const NO_OB_122: u8 = 4;

/// A synchronous error in OB 121 or OB 122.
pub const IN_ERROR_OB: u8 = 5;

/// A block is called where the activation already has the most frames of its profile.
pub const BLOCK_DEPTH: u8 = 6;

/// A block is called whose local bytes don't fit into those that are left of its activation.
pub const LOCAL_DATA: u8 = 7;

/// A request of an organization block that isn't loaded, without OB 85.
pub const NO_OB_85: u8 = 8;

/// A time error, without OB 80.
pub const NO_OB_80: u8 = 9;

/// The cycle time was exceeded a second time before a cycle point.
pub const CYCLE_TIME_TWICE: u8 = 10;
