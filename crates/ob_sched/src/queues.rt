ghost use Rattle.std.specs.Prelude.{◌≡◌, ◌≤◌, ◌<◌, ◌^◌, [], ◌∷◌, ◌++◌, Some, None, drop, length, IsTrue, MatchOption, slice_get, slice_set, IfOk, IfSome, false};
ghost use Rattle.ob_sched.specs.Bin.{requests_by_rank, empty_bin, requests_waiting_in, IsHighest};
ghost use Rattle.ob_sched.specs.OrganizationBlock.{can_wait, priority_class};
ghost use Rattle.ob_sched.specs.StartRequest.{waiting_count, is_queue_full, request_queued, best_of};
ghost use Rattle.ob_sched.specs.Views.{pending_of};

use crate::bin::Bin;
use crate::bins::Bins;
use crate::organization_blocks::{class_in, class_of};
use crate::requests::Pending;
use crate::start_infos::StartInfo;
use arrayvec::ArrayVec;
use plc_base::{Mode, NoMemory};
use std::alloc::Global;

/// How many bins there are, one for each priority class from 0 to 31.
const BINS: usize = 32;

/// The bit of bin n in the bitmap.
fn bin_bit(n: usize) -> u32
    requires { n < 32 }
    ensures { result ≡ 2 ^ n }
{
    1 << n
}

/// How many of some requests are requests of this organization block.
fn count(waiting_requests: &[(u16, StartInfo)], ob: u16) -> usize
    ensures { result ≡ waiting_count ob waiting_requests.now }
{
    waiting_requests
        .iter()
        .filter(|request| request.0 == ob)
        .count()
}

impl Bins {
    /// The bins in which no request waits.
    pub(crate) fn new(alloc: Global) -> Result<Bins, NoMemory>
        ensures { IfOk result (λ bins. pending_of bins ≡ []) }
    {
        let mut bins = Vec::with_capacity(alloc, BINS)?;
        for _ in 0..BINS {
            bins.push(Bin {
                waiting: ArrayVec::new(),
            })?;
        }
        Ok(Bins { map: 0, bins })
    }

    /// How many requests of an organization block are pending.
    pub(crate) fn waiting_count(&self, ob: u16) -> usize
        requires { IsTrue (can_wait ob) }
        ensures { result ≡ waiting_count ob (pending_of self.now) }
    {
        let bin = &self.bins[usize::from(class_of(ob))];
        count(bin.waiting.as_slice(), ob)
    }

    /// Adds a request to the pending ones, behind all that outrank it.
    pub(crate) fn push(&mut self, ob: u16, info: StartInfo)
        requires known { IsTrue (can_wait ob) }
        requires room { is_queue_full ob (pending_of self.old) ≡ false }
        ensures { pending_of self.new ≡ request_queued (ob, info) (pending_of self.old) }
    {
        let n = usize::from(class_of(ob));
        let bin = &mut self.bins[n];
        bin.waiting.push((ob, info));
        self.map |= bin_bit(n);
    }

    /// The number of the highest bin in which a request waits.
    fn highest(&self) -> Option<usize>
        ensures { MatchOption result (pending_of self.now ≡ []) (IsHighest self.now.bins.items) }
    {
        if self.map == 0 {
            None
        } else {
            Some(self.map.ilog2() as usize)
        }
    }

    /// The first pending request by rank: the one that is started next.
    fn first(&self) -> Option<(u16, StartInfo)>
        ensures value { result ≡ slice_get (pending_of self.now) 0 }
        ensures known { IfSome result (λ request. IsTrue (can_wait request.0)) }
    {
        match self.highest() {
            None => None,
            Some(n) => {
                let bin = &self.bins[n];
                Some(bin.waiting.as_slice()[0])
            }
        }
    }

    /// The first pending request by rank, with its priority class in the operating mode.
    pub(crate) fn best(&self, mode: Mode) -> Option<Pending>
        ensures value { result ≡ best_of mode (pending_of self.now) }
        ensures known { IfSome result (λ best. IsTrue (can_wait best.ob)) }
    {
        let (ob, info) = self.first()?;
        Some(Pending {
            ob,
            class: class_in(mode, ob),
            info,
        })
    }

    /// Takes the first request by rank away, if one is pending.
    pub(crate) fn take_best(&mut self)
        ensures { pending_of self.new ≡ drop 1 (pending_of self.old) }
    {
        if let Some(n) = self.highest() {
            let bin = &mut self.bins[n];
            bin.waiting.remove(0);
            if bin.waiting.is_empty() {
                self.map &= !bin_bit(n);
            }
        }
    }

    /// Takes all pending requests away.
    pub(crate) fn clear(&mut self)
        ensures { pending_of self.new ≡ [] }
    {
        for bin in self.bins.iter_mut() {
            bin.waiting.clear();
        }
        self.map = 0;
    }
}
