ghost use Rattle.std.specs.Prelude.{◌≡◌, ℕ, IfOk};
ghost use Rattle.plc_io.specs.Contents.{ReadsFrom};
ghost use Rattle.plc_io.specs.FileCalls.{LeavesRead, LeavesWritten};
ghost use Rattle.plc_io.specs.Moments.{FilesAt, SinkAt};
ghost use Rattle.plc_io.specs.SinkBytes.{OfferedPiece};

use crate::faults::IoFault;

/// Files that are read in pieces and written whole, each known by its name.
///
/// For each name there is a count of failed reads and one of failed writes, which never fall. An
/// implementation may show one count for all names. Both calls may take memory.
pub trait Files {
    // What the files show at one moment: contents, and counts of failed reads and writes.
    ghost shown: { Self → FilesAt };

    /// Reads bytes of the file from place `at` on to the start of `into`, and answers how many: 0
    /// exactly from the file's end on, or where `into` is empty. A name without file is a failed
    /// read, except where an implementation takes it for an empty file.
    fn read_some(&mut self, name: &str, at: u64, into: &mut [u8]) -> Result<usize, IoFault>
        ensures reads { IfOk result (ReadsFrom (shown self.old).contents name.now at into.new) }
        ensures leaves { LeavesRead (shown self.old) (shown self.new) name.now result };

    /// Makes `bytes` the whole contents of the file. After a failure the file holds what it held,
    /// or the first of `bytes`. No other file changes.
    fn write_whole(&mut self, name: &str, bytes: &[u8]) -> Result<(), IoFault>
        ensures { LeavesWritten (shown self.old) (shown self.new) name.now bytes.now result };
}

/// Where bytes go, piece by piece.
///
/// There is a count of faults, which never falls. The call may take memory.
pub trait Sink {
    // What the sink shows at one moment: the bytes taken, and a count of failed pushes.
    ghost shown: { Self → SinkAt };

    /// Offers a piece, and answers how many of its first bytes were taken: at least one of a
    /// nonempty piece. After a failure nothing of it was taken.
    fn push(&mut self, bytes: &[u8]) -> Result<usize, IoFault>
        ensures { OfferedPiece (shown self.old) (shown self.new) bytes.now result };
}

/// Passed by each worker of a live run before each of its entries. It tells nothing.
pub trait Gate {
    /// `who` is the worker, and `turn` the number of its turn, counted from 1.
    fn pass(&self, who: u8, turn: u64);
}
