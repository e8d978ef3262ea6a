ghost use Rattle.std.specs.Prelude.{◌≡◌, ◌-◌, ◌++◌, [], length, min, IfOk, IfErr, OnOk, OnErr};
ghost use Rattle.plc_io.specs.Contents.{ReadsFrom};
ghost use Rattle.plc_io.specs.FileCalls.{LeavesRead, LeavesWritten};
ghost use Rattle.plc_io.specs.NamedFiles.{bytes_or_empty, sure_contents_of, sure_files, with_file};
ghost use Rattle.plc_io.specs.SinkBytes.{OfferedPiece, told_sink};

use crate::faults::{IoFault, NoMemory};
use crate::lists::{Bytes, NamedFiles};
use crate::memory::copy_from;
use crate::traits::{Files, Sink};
use std::alloc::Global;

/// Files in memory of which no read and no write fails. A name without file is an empty file.
#[derive(Drop)]
pub struct SureFiles {
    /// The files by name.
    pub files: NamedFiles,
}

impl SureFiles {
    /// No files. This takes no memory.
    pub fn new(alloc: Global) -> Self
        ensures { result.files ≡ [] }
    {
        SureFiles {
            files: NamedFiles::new(alloc),
        }
    }

    /// Puts a file, in place of one of this name. Without memory nothing changes.
    pub fn put(&mut self, name: &str, bytes: &[u8]) -> Result<(), NoMemory>
        ensures ok { OnOk result (self.new.files ≡ with_file self.old.files name.now bytes.now) }
        ensures err { OnErr result (self.new.files ≡ self.old.files) }
    {
        self.files.put(name, bytes)
    }
}

impl Files for SureFiles {
    ghost shown = { λ s. sure_files s.files };

    /// Always answers Ok. This takes no memory.
    fn read_some(&mut self, name: &str, at: u64, into: &mut [u8]) -> Result<usize, IoFault>
        ensures reads { IfOk result
            (ReadsFrom (sure_contents_of self.old.files) name.now at into.new) }
        ensures leaves { LeavesRead (sure_files self.old.files) (sure_files self.new.files)
            name.now result }
        // The answer: the number of bytes read. No file changes.
        ensures answer { let rest = length (bytes_or_empty self.old.files name.now) - at in
            result ≡ Ok (min (length into.new) rest) }
        ensures after { self.new.files ≡ self.old.files }
    {
        let all = self.files.get(name).unwrap_or(&[]);
        Ok(copy_from(all, at, into))
    }

    /// Never answers Failed.
    fn write_whole(&mut self, name: &str, bytes: &[u8]) -> Result<(), IoFault>
        ensures leaves { LeavesWritten (sure_files self.old.files) (sure_files self.new.files)
            name.now bytes.now result }
        // Ok: the file has the new bytes. Err, only for want of memory: nothing changed.
        ensures ok { OnOk result (self.new.files ≡ with_file self.old.files name.now bytes.now) }
        ensures err { OnErr result (self.new.files ≡ self.old.files) }
        ensures only_memory { IfErr result (λ fault. fault ≡ IoFault.NoMemory) }
    {
        self.files.put(name, bytes)?;
        Ok(())
    }
}

/// A sink in memory that takes every piece whole and never fails.
#[derive(Drop)]
pub struct SureSink {
    /// All bytes that the sink took, in order.
    pub taken: Bytes,
}

impl SureSink {
    /// Nothing taken. This takes no memory.
    pub fn new(alloc: Global) -> Self
        ensures { result.taken ≡ [] }
    {
        SureSink {
            taken: Bytes::new(alloc),
        }
    }
}

impl Sink for SureSink {
    ghost shown = { λ k. told_sink k.taken 0 };

    /// Never answers Failed.
    fn push(&mut self, bytes: &[u8]) -> Result<usize, IoFault>
        ensures offered { OfferedPiece (told_sink self.old.taken 0) (told_sink self.new.taken 0)
            bytes.now result }
        // Ok: the whole piece is taken. Err, only for want of memory: nothing is taken.
        ensures whole { IfOk result (λ n. n ≡ length bytes.now) }
        ensures ok { OnOk result (self.new.taken ≡ self.old.taken ++ bytes.now) }
        ensures err { OnErr result (self.new.taken ≡ self.old.taken) }
        ensures only_memory { IfErr result (λ fault. fault ≡ IoFault.NoMemory) }
    {
        self.taken.append(bytes)?;
        Ok(bytes.len())
    }
}
