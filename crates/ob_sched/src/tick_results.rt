ghost use Rattle.std.specs.Prelude.{◌≡◌, [], None};
ghost use Rattle.ob_sched.specs.TickState.{with_record, with_stop};

use arrayvec::ArrayVec;

/// What passed in a tick.
#[derive(Drop)]
pub struct TickResult {
    /// The milliseconds that have passed in the tick.
    pub ms: u32,
    /// The stop cause that ended the tick, if there is one.
    pub stop: Option<u8>,
    /// The last 100 records of diagnostics in their order, each a code and its detail.
    pub records: ArrayVec<(u16, u16), 100>,
}

impl TickResult {
    /// The result of a tick at its begin: no millisecond, no stop cause, no record of diagnostics.
    pub fn new() -> TickResult
        ensures ms { result.ms ≡ 0 }
        ensures stop { result.stop ≡ None }
        ensures records { result.records.items ≡ [] }
    {
        TickResult {
            ms: 0,
            stop: None,
            records: ArrayVec::new(),
        }
    }

    /// Adds a record of diagnostics, a code and its detail. Where there are 100 the oldest goes.
    pub(crate) fn record(&mut self, code: u16, info: u16)
        ensures { self.new ≡ with_record code info self.old }
    {
        if self.records.is_full() {
            self.records.remove(0);
        }
        self.records.push((code, info));
    }

    /// Sets the stop cause with which the tick ends.
    pub(crate) fn halt(&mut self, cause: u8)
        ensures { self.new ≡ with_stop cause self.old }
    {
        self.stop = Some(cause);
    }
}
