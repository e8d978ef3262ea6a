ghost use Rattle.std.specs.Prelude.{
  ◌≡◌,
  ◌≤◌,
  ◌-◌,
  ◌↔◌,
  ◌++◌,
  [],
  length,
  take,
  min,
  is_err,
  IfOk,
  IsTrue,
  OnOk,
  OnErr,
};
ghost use Rattle.plc_io.specs.Calls.{NoCalls, after_call, is_next_to_fail, read_answer};
ghost use Rattle.plc_io.specs.Contents.{IsPiece, ReadsFrom};
ghost use Rattle.plc_io.specs.FileCalls.{LeavesRead, LeavesWritten};
ghost use Rattle.plc_io.specs.NamedFiles.{bytes_of_file, contents_of, memory_files, with_file};
ghost use Rattle.plc_io.specs.SinkBytes.{OfferedPiece, told_sink};

use crate::calls::Calls;
use crate::faults::{IoFault, NoMemory};
use crate::lists::{Bytes, NamedFiles};
use crate::traits::{Files, Sink};
use arrayvec::ArrayVec;
use std::alloc::Global;

/// Files in memory, of which chosen reads and writes fail.
#[derive(Drop)]
pub struct MemFiles {
    /// The files by name.
    pub files: NamedFiles,
    /// The reads that were made, and those that are to fail.
    pub reads: Calls,
    /// The writes that were made, and those that are to fail.
    pub writes: Calls,
}

impl MemFiles {
    /// No files, and no call that is to fail. This takes no memory.
    pub fn new(alloc: Global) -> Self
        ensures empty { result.files ≡ [] }
        ensures reads { NoCalls result.reads }
        ensures writes { NoCalls result.writes }
    {
        MemFiles {
            files: NamedFiles::new(alloc),
            reads: Calls::new(),
            writes: Calls::new(),
        }
    }

    /// Puts a file, in place of one of this name. Without memory nothing changes.
    pub fn put(&mut self, name: &str, bytes: &[u8]) -> Result<(), NoMemory>
        ensures ok { let files = with_file self.old.files name.now bytes.now in
            OnOk result (self.new ≡ record self.old { files = files }) }
        ensures err { OnErr result (self.new ≡ self.old) }
    {
        self.files.put(name, bytes)
    }

    /// Makes the reads of these numbers fail, in place of those that were chosen before. The first
    /// read of these files has number 1. This takes no memory.
    pub fn fail_reads(&mut self, calls: ArrayVec<u64, 16>)
        ensures { self.new ≡ record self.old {
          reads = record self.old.reads { failing = calls };
        } }
    {
        self.reads.failing = calls;
    }

    /// Makes the writes of these numbers fail, in place of those that were chosen before. The first
    /// write to these files has number 1. This takes no memory.
    pub fn fail_writes(&mut self, calls: ArrayVec<u64, 16>)
        ensures { self.new ≡ record self.old {
          writes = record self.old.writes { failing = calls };
        } }
    {
        self.writes.failing = calls;
    }
}

impl Files for MemFiles {
    ghost shown = { λ m. memory_files m.files m.reads.failed m.writes.failed };

    /// Fails at the chosen reads, and where there is no such file. This takes no memory.
    fn read_some(&mut self, name: &str, at: u64, into: &mut [u8]) -> Result<usize, IoFault>
        ensures reads { IfOk result (ReadsFrom (contents_of self.old.files) name.now at into.new) }
        ensures leaves { let before =
            memory_files self.old.files self.old.reads.failed self.old.writes.failed in
            let after = memory_files self.new.files self.new.reads.failed self.new.writes.failed in
            LeavesRead before after name.now result }
        // The answer: a failure where this read is chosen to fail or there is no such file, else
        // the number of bytes read. Only the count of reads changes.
        ensures answer { let fails = is_next_to_fail self.old.reads in
            result ≡ read_answer fails (bytes_of_file self.old.files name.now) at
            (length into.new) }
        ensures after { self.new ≡ record self.old {
          reads = after_call self.old.reads (is_err result);
        } }
    {
        if self.reads.is_next_to_fail() {
            return Err(self.reads.fail());
        }
        let Some(all) = self.files.get(name) else {
            return Err(self.reads.fail());
        };
        self.reads.pass();
        Ok(copy_from(all, at, into))
    }

    /// Fails at the chosen writes, and then changes no file.
    fn write_whole(&mut self, name: &str, bytes: &[u8]) -> Result<(), IoFault>
        ensures leaves { let before =
            memory_files self.old.files self.old.reads.failed self.old.writes.failed in
            let after = memory_files self.new.files self.new.reads.failed self.new.writes.failed in
            LeavesWritten before after name.now bytes.now result }
        // `Failed` exactly where this write is chosen to fail. Ok: the file has the new bytes.
        // Err: no file changed. Else only the count of writes changes.
        ensures fails { (result ≡ Err IoFault.Failed)
            ↔ IsTrue (is_next_to_fail self.old.writes) }
        ensures ok { OnOk result (self.new.files ≡ with_file self.old.files name.now bytes.now) }
        ensures err { OnErr result (self.new.files ≡ self.old.files) }
        ensures after { let writes = after_call self.old.writes (is_next_to_fail self.old.writes) in
            self.new ≡ record self.old { files = self.new.files; writes = writes } }
    {
        if self.writes.is_next_to_fail() {
            return Err(self.writes.fail());
        }
        self.writes.pass();
        self.files.put(name, bytes)?;
        Ok(())
    }
}

/// Copies bytes from place `at` of a file on, as many as there are and `into` has room for, and
/// answers how many.
pub(crate) fn copy_from(all: &[u8], at: u64, into: &mut [u8]) -> usize
    ensures count { result ≡ min (length into.new) (length all.now - at) }
    ensures piece { IsPiece all.now at into.new result }
{
    let start = (at as usize).min(all.len());
    let rest = &all[start..];
    let count = rest.len().min(into.len());
    into[..count].copy_from_slice(&rest[..count]);
    count
}

/// A sink in memory that takes at most so many bytes of a piece, and of which chosen pushes fail.
#[derive(Drop)]
pub struct MemSink {
    /// All bytes that the sink took, in order.
    pub taken: Bytes,
    /// How many bytes a push takes at most.
    pub most: usize,
    /// The pushes that were made, and those that are to fail.
    pub pushes: Calls,
    ghost some: { 1 ≤ most },
}

impl MemSink {
    /// Nothing taken, and no push that is to fail; `most` is the greatest number of bytes per push.
    /// This takes no memory.
    pub fn new(alloc: Global, most: usize) -> Self
        requires { 1 ≤ most }
        ensures empty { result.taken ≡ [] }
        ensures most { result.most ≡ most }
        ensures pushes { NoCalls result.pushes }
    {
        MemSink {
            taken: Bytes::new(alloc),
            most,
            pushes: Calls::new(),
        }
    }

    /// Makes the pushes of these numbers fail, in place of those that were chosen before. The first
    /// push to this sink has number 1. This takes no memory.
    pub fn fail_pushes(&mut self, calls: ArrayVec<u64, 16>)
        ensures taken { self.new.taken ≡ self.old.taken }
        ensures most { self.new.most ≡ self.old.most }
        ensures pushes { self.new.pushes ≡ record self.old.pushes { failing = calls } }
    {
        self.pushes.failing = calls;
    }
}

impl Sink for MemSink {
    ghost shown = { λ k. told_sink k.taken k.pushes.failed };

    /// Fails at the chosen pushes.
    fn push(&mut self, bytes: &[u8]) -> Result<usize, IoFault>
        ensures offered { let before = told_sink self.old.taken self.old.pushes.failed in
            let after = told_sink self.new.taken self.new.pushes.failed in
            OfferedPiece before after bytes.now result }
        // `Failed` exactly where this push is chosen to fail. Ok: as many first bytes as the sink
        // takes at once are taken. Err: none is taken.
        ensures fails { (result ≡ Err IoFault.Failed)
            ↔ IsTrue (is_next_to_fail self.old.pushes) }
        ensures count { IfOk result (λ n. n ≡ min self.old.most (length bytes.now)) }
        ensures ok { IfOk result (λ n. self.new.taken ≡ self.old.taken ++ take n bytes.now) }
        ensures err { OnErr result (self.new.taken ≡ self.old.taken) }
        ensures most { self.new.most ≡ self.old.most }
        ensures after { self.new.pushes
            ≡ after_call self.old.pushes (is_next_to_fail self.old.pushes) }
    {
        if self.pushes.is_next_to_fail() {
            return Err(self.pushes.fail());
        }
        self.pushes.pass();
        let count = bytes.len().min(self.most);
        self.taken.append(&bytes[..count])?;
        Ok(count)
    }
}
