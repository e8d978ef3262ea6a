//! The last records of diagnostics.
ghost use Rattle.std.specs.Prelude.{◌≡◌, [], ◌≤◌, length, IfOk};
ghost use Rattle.monitor.specs.Diagnostics.{last_records};

use crate::records::DiagRecord;
use arrayvec::ArrayVec;
use circular_buffer::HeapCircularBuffer;
use plc_base::NoMemory;
use std::alloc::Global;
use std::marker::Model;

/// How many records of diagnostics are kept.
const MOST_RECORDS: usize = 100;

/// Records of diagnostics, at most 100, the oldest first. A contract sees the list.
#[derive(Debug, Drop, PartialEq, Eq)]
pub struct Records {
    list: ArrayVec<DiagRecord, MOST_RECORDS>,
}

impl Model for Records {
    ghost use Rattle.std.specs.Prelude.{List};
    ghost use Rattle.monitor.specs.declared.records.DiagRecord.{DiagRecord};

    ghost Value = { List DiagRecord };

    ghost view = { λ r. r.list.items };

    ghost inverse = { λ records. record { list = record { items = records } } };
}

impl Records {
    /// The records as a slice.
    pub fn as_slice(&self) -> &[DiagRecord]
        ensures value { result.now ≡ self.now }
        ensures most { length result.now ≤ 100 }
    {
        self.list.as_slice()
    }

    /// The same records once more. It takes no memory.
    pub fn copied(&self) -> Records
        ensures { result ≡ self.now }
    {
        let mut list = ArrayVec::new();
        for record in self.list.as_slice() {
            list.push(*record);
        }
        Records { list }
    }
}

/// The last 100 records of diagnostics (manual: the diagnostic buffer, a ring buffer). A contract
/// sees the list of them, the oldest first.
#[derive(Drop)]
pub struct DiagRing {
    ring: HeapCircularBuffer<DiagRecord>,
}

impl Model for DiagRing {
    ghost use Rattle.std.specs.Prelude.{◌≡◌, ◌≤◌, length, List};
    ghost use Rattle.monitor.specs.declared.records.DiagRecord.{DiagRecord};

    ghost Value = { List DiagRecord };

    ghost view = { λ d. d.ring.items };

    ghost invariant = { λ d. (d.ring.capacity ≡ 100) × (length d.ring.items ≤ 100) };
}

impl DiagRing {
    /// No record. The memory for 100 is taken here, and no other call takes any.
    ///
    /// # Errors
    ///
    /// `NoMemory` for want of memory.
    pub fn new(alloc: Global) -> Result<DiagRing, NoMemory>
        ensures { IfOk result (λ d. d ≡ []) }
    {
        Ok(DiagRing {
            ring: HeapCircularBuffer::with_capacity(alloc, MOST_RECORDS)?,
        })
    }

    /// One more record. Where 100 stand the oldest goes.
    pub fn push(&mut self, newest: DiagRecord)
        ensures { self.new ≡ last_records self.old newest }
    {
        self.ring.push_back(newest);
    }

    /// The records, the oldest first.
    pub fn list(&self) -> Records
        ensures { result ≡ self.now }
    {
        let mut list = ArrayVec::new();
        for record in self.ring.iter() {
            list.push(*record);
        }
        Records { list }
    }
}
