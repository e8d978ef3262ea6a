//! The codes of synchronous errors: each of them once. Where an error of reading has another code
//! than that of writing, the code of writing is the next one.

/// A BCD digit above 9, or a sign that is none.
pub const BAD_BCD: u8 = 0x21;

/// No such place in I, Q, M, L, DB or DI, to read; to write 16#23.
pub const NO_PLACE: u8 = 0x22;

/// A pointer to no area, or to a bit in the peripheral area, to read; to write 16#25.
pub const BAD_AREA: u8 = 0x24;

/// No timer of the number.
pub const NO_TIMER: u8 = 0x26;

/// No counter of the number.
pub const NO_COUNTER: u8 = 0x27;

/// A byte, word or double word at a pointer whose bit isn't 0, to read; to write 16#29.
pub const ALIGNMENT_ERROR: u8 = 0x28;

/// No data block is open in the DB register.
pub const NO_DB_OPEN: u8 = 0x32;

/// No data block is open in the DI register.
pub const NO_DI_OPEN: u8 = 0x33;

/// A data block that isn't loaded.
pub const NO_DATA_BLOCK: u8 = 0x3A;

/// No such place in the peripheral area, to read.
pub const NO_PERIPHERAL: u8 = 0x42;

/// No such place in the peripheral area, to write.
pub const NO_PERIPHERAL_TO_WRITE: u8 = 0x43;
