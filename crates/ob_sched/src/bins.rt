ghost use Rattle.std.specs.Prelude.{◌≡◌, ◌≤◌, ℕ, IsTrue, length};
ghost use Rattle.ob_sched.specs.Bin.{requests_by_rank, bitmap_of, are_placed_from};
ghost use Rattle.ob_sched.specs.OrganizationBlock.{queue_length};
ghost use Rattle.ob_sched.specs.StartRequest.{waiting_count};

use crate::bin::Bin;

/// The pending requests in 32 bins, one for each priority class in RUN, with a bitmap whose bit n is
/// 1 exactly where bin n holds a request.
#[derive(Drop)]
pub struct Bins {
    /// The bitmap: bit n is 1 exactly where a request waits in bin n.
    pub map: u32,
    /// The 32 bins; bin n holds the requests of priority class n in RUN.
    pub bins: Vec<Bin>,
    ghost count: { length bins.items ≡ 32 },
    ghost bitmap: { map ≡ bitmap_of bins.items },
    ghost placed: { IsTrue (are_placed_from 0 bins.items) },
    ghost within: { (ob : ℕ)
        → waiting_count ob (requests_by_rank bins.items) ≤ queue_length ob },
}
