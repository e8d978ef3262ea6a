use std::alloc::AllocError;

/// Want of memory, where a call has no other error.
pub type NoMemory = AllocError;
