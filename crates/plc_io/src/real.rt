ghost use Rattle.std.specs.Prelude.{◌≡◌, ◌≤◌, length, IfOk};
ghost use Rattle.plc_io.specs.CountsAlone.{untold_files, untold_sink};

use crate::faults::IoFault;
use crate::traits::{Files, Gate, Sink};
use std::io::{ErrorKind, Read, Seek, SeekFrom, Write};
use std::{fs, io, rt};

/// The files of the system. It tells nothing of their contents, and keeps one count of failed reads
/// and one of failed writes for all names.
#[derive(Drop)]
pub struct RealFiles<R> {
    rt: R,
    failed_reads: u64,
    failed_writes: u64,
}

impl<R: rt::Files + Drop> RealFiles<R> {
    /// Nothing has failed yet.
    pub fn new(rt: R) -> Self
        ensures { ⟦<RealFiles<R> as Files>⟧.shown result ≡ untold_files 0 0 }
    {
        RealFiles {
            rt,
            failed_reads: 0,
            failed_writes: 0,
        }
    }
}

impl<R: rt::Files + Drop> Files for RealFiles<R> {
    ghost shown = { λ f. untold_files f.failed_reads f.failed_writes };

    fn read_some(&mut self, name: &str, at: u64, into: &mut [u8]) -> Result<usize, IoFault> {
        match read_at(&self.rt, name, at, into) {
            Ok(count) => Ok(count),
            Err(error) if error.kind() == ErrorKind::OutOfMemory => Err(IoFault::NoMemory),
            Err(_) => {
                self.failed_reads = self.failed_reads.saturating_add(1);
                Err(IoFault::Failed)
            }
        }
    }

    fn write_whole(&mut self, name: &str, bytes: &[u8]) -> Result<(), IoFault> {
        match fs::write(&self.rt, name, bytes) {
            Ok(()) => Ok(()),
            Err(error) if error.kind() == ErrorKind::OutOfMemory => Err(IoFault::NoMemory),
            Err(_) => {
                self.failed_writes = self.failed_writes.saturating_add(1);
                Err(IoFault::Failed)
            }
        }
    }
}

/// Reads from place `at` of the file on.
fn read_at<R: rt::Files>(rt: &R, name: &str, at: u64, into: &mut [u8]) -> io::Result<usize>
    ensures { IfOk result (λ n. n ≤ length into.new) }
{
    let mut file = fs::open(rt, name)?;
    file.seek(SeekFrom::Start(at))?;
    file.read(into)
}

/// Standard output. It tells nothing of the bytes taken, and keeps a count of faults.
#[derive(Drop)]
pub struct RealSink<R> {
    rt: R,
    faults: u64,
}

impl<R: Print + Drop> RealSink<R> {
    /// Nothing has failed yet.
    pub fn new(rt: R) -> Self
        ensures { ⟦<RealSink<R> as Sink>⟧.shown result ≡ untold_sink 0 }
    {
        RealSink { rt, faults: 0 }
    }
}

impl<R: Print + Drop> Sink for RealSink<R> {
    ghost shown = { λ k. untold_sink k.faults };

    fn push(&mut self, bytes: &[u8]) -> Result<usize, IoFault> {
        match self.rt.write_some(bytes) {
            Ok(count) if count > 0 || bytes.is_empty() => Ok(count),
            Err(error) if error.kind() == ErrorKind::OutOfMemory => Err(IoFault::NoMemory),
            _ => {
                self.faults = self.faults.saturating_add(1);
                Err(IoFault::Failed)
            }
        }
    }
}

/// The gate that lets every worker pass at once.
#[derive(Clone, Copy, Debug, PartialEq, Eq)]
pub struct OpenGate;

impl Gate for OpenGate {
    fn pass(&self, _who: u8, _turn: u64) {}
}
