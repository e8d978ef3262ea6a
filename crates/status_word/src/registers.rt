ghost use Rattle.std.specs.Prelude.{◌≡◌};
ghost use Rattle.status_word.specs.Registers.{regs_at_rest};
ghost use Rattle.status_word.specs.Check.{after_check, is_and};
ghost use Rattle.status_word.specs.BareOr.{or_bare};
ghost use Rattle.status_word.specs.Store.{after_store};
ghost use Rattle.status_word.specs.SetClear.{rlo_set_to_1, clr, rlo_negated, rlo_saved_in_br};
ghost use Rattle.status_word.specs.Edge.{after_edge};
ghost use Rattle.status_word.specs.Flags.{flag_value};

use crate::statuses::Status;
use plc_base::{Check, Flag};

/// The registers of an activation: accumulators 1 and 2, address registers 1 and 2, and the
/// status word.
#[derive(Clone, Copy, Debug, PartialEq, Eq)]
pub struct Regs {
    pub a1: u32,
    pub a2: u32,
    pub ar1: u32,
    pub ar2: u32,
    pub status: Status,
}

fn is_and(code: Check) -> bool
    ensures { result ≡ is_and code }
{
    matches!(code, Check::A | Check::An)
}

impl Regs {
    /// The registers with which an activation begins: all 0, and the status word 0.
    pub fn new() -> Regs
        ensures { result ≡ regs_at_rest }
    {
        Regs {
            a1: 0,
            a2: 0,
            ar1: 0,
            ar2: 0,
            status: Status::new(),
        }
    }

    /// A, AN, O, ON, X and XN, where `read` is the bit read, not inverted. Only the status bits are
    /// written, in place: most of what a program does is such checks.
    #[tactic(auto, unfolding(crate::specs::Check::after_check))]
    #[inline(always)]
    pub fn check(&mut self, code: Check, read: bool)
        ensures { self.new ≡ after_check code read self.old }
    {
        let word = &mut self.status;
        let first = !word.fc;
        match code {
            Check::A => word.rlo = (first || word.rlo) && read || word.or,
            Check::An => word.rlo = (first || word.rlo) && !read || word.or,
            Check::O => word.rlo = !first && word.rlo || read || word.or,
            Check::On => word.rlo = !first && word.rlo || !read || word.or,
            Check::X => word.rlo = if first {
                read || word.or
            } else {
                word.rlo ^ read
            },
            Check::Xn => word.rlo = if first {
                !read || word.or
            } else {
                word.rlo ^ !read
            },
        }
        word.or = is_and(code) && word.or;
        word.sta = read;
        word.fc = true;
    }

    /// O without an operand: AND before OR.
    #[tactic(auto, unfolding(crate::specs::BareOr::or_bare))]
    pub fn or_bare(&mut self)
        ensures { self.new ≡ or_bare self.old }
    {
        let word = &mut self.status;
        if word.fc {
            word.or = word.rlo;
        }
        word.sta = true;
        word.fc = false;
    }

    /// The value of a condition as bit logic instructions read it.
    pub fn flag(&self, flag: Flag) -> bool
        ensures { result ≡ flag_value flag self.now.status }
    {
        self.status.flag(flag)
    }

    /// What =, S and R do to the status word, for a bit whose value afterwards is `after`.
    #[tactic(auto, unfolding(crate::specs::Store::after_store))]
    pub fn store(&mut self, after: bool)
        ensures { self.new ≡ after_store after self.old }
    {
        self.status.sta = after;
        self.status.or = false;
        self.status.fc = false;
    }

    /// SET: sets the RLO.
    #[tactic(auto, unfolding(crate::specs::SetClear::rlo_set_to_1, crate::specs::Store::after_store))]
    pub fn set(&mut self)
        ensures { self.new ≡ rlo_set_to_1 self.old }
    {
        self.status.rlo = true;
        self.store(true);
    }

    /// CLR: clears the RLO.
    #[tactic(auto, unfolding(crate::specs::SetClear::clr, crate::specs::Store::after_store))]
    pub fn clr(&mut self)
        ensures { self.new ≡ clr self.old }
    {
        self.status.rlo = false;
        self.store(false);
    }

    /// NOT: negates the RLO.
    #[tactic(auto, unfolding(crate::specs::SetClear::rlo_negated))]
    pub fn not(&mut self)
        ensures { self.new ≡ rlo_negated self.old }
    {
        self.status.rlo = !self.status.rlo;
        self.status.sta = true;
    }

    /// SAVE: saves the RLO in BR.
    #[tactic(auto, unfolding(crate::specs::SetClear::rlo_saved_in_br))]
    pub fn save(&mut self)
        ensures { self.new ≡ rlo_saved_in_br self.old }
    {
        self.status.br = self.status.rlo;
    }

    /// FP where `rising` is true, else FN. `bit` is the edge bit, which holds the RLO of the last
    /// time; the answer is its new value.
    #[tactic(auto, unfolding(crate::specs::Edge::after_edge))]
    pub fn edge(&mut self, rising: bool, bit: bool) -> bool
        ensures registers { self.new ≡ after_edge rising bit self.old }
        ensures edge_bit { result ≡ self.old.status.rlo }
    {
        let rlo = self.status.rlo;
        let edge = if rising { rlo && !bit } else { !rlo && bit };
        self.status.rlo = edge;
        self.status.sta = edge;
        self.status.or = false;
        self.status.fc = true;
        rlo
    }
}
