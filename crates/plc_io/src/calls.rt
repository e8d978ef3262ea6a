ghost use Rattle.std.specs.Prelude.{◌≡◌, ◌≤◌, true, false};
ghost use Rattle.plc_io.specs.Calls.{NoCalls, after_call, is_next_to_fail};
ghost use Rattle.plc_io.specs.Counts.{CountRose};

use crate::faults::IoFault;
use arrayvec::ArrayVec;

/// The calls of one kind on an outside in memory.
#[derive(Drop)]
pub struct Calls {
    /// How many calls were made.
    pub made: u64,
    /// How many of them failed.
    pub failed: u64,
    /// The numbers of the calls that are to fail. The first call has number 1.
    pub failing: ArrayVec<u64, 16>,
}

impl Calls {
    pub fn new() -> Self
        ensures { NoCalls result }
    {
        Calls {
            made: 0,
            failed: 0,
            failing: ArrayVec::new(),
        }
    }

    /// Whether the next call is to fail.
    pub fn is_next_to_fail(&self) -> bool
        ensures { result ≡ is_next_to_fail self.now }
    {
        self.failing.contains(&self.made.saturating_add(1))
    }

    /// Counts one more call, which doesn't fail.
    pub fn pass(&mut self)
        ensures { self.new ≡ after_call self.old false }
    {
        self.made = self.made.saturating_add(1);
    }

    /// Counts one more call, which fails.
    pub fn fail(&mut self) -> IoFault
        ensures fault { result ≡ IoFault.Failed }
        ensures after { self.new ≡ after_call self.old true }
        ensures never_falls { self.old.failed ≤ self.new.failed }
        ensures rose { CountRose self.old.failed self.new.failed }
    {
        self.made = self.made.saturating_add(1);
        self.failed = self.failed.saturating_add(1);
        IoFault::Failed
    }
}
