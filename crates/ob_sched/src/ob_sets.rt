ghost use Rattle.std.specs.Prelude.{◌≡◌, ◌<◌, false, slice_index_or, slice_set};
ghost use Rattle.ob_sched.specs.Scheduler.{none_disabled};

use std::marker::Model;

/// One above the greatest number that an organization block in the set can have.
const NUMBERS: usize = 128;

/// A set of organization block numbers. A contract sees for each number from 0 to 127 whether it
/// is in the set.
#[derive(Drop)]
pub(crate) struct ObSet {
    members: [bool; NUMBERS],
}

impl Model for ObSet {
    ghost use Rattle.std.specs.Prelude.{◌≡◌, List, Bool, length};

    ghost Value = { List Bool };

    ghost view = { λ s. s.members };

    ghost invariant = { λ s. length s.members ≡ 128 };
}

impl ObSet {
    /// The empty set.
    pub(crate) fn new() -> ObSet
        ensures { result ≡ none_disabled }
    {
        ObSet {
            members: [false; NUMBERS],
        }
    }

    /// Whether the organization block is in the set.
    pub(crate) fn contains(&self, ob: u16) -> bool
        ensures { result ≡ slice_index_or self.now ob false }
    {
        match self.members.get(usize::from(ob)) {
            Some(member) => *member,
            None => false,
        }
    }

    /// Puts the organization block into the set, or takes it out.
    pub(crate) fn set(&mut self, ob: u16, member: bool)
        requires { ob < 128 }
        ensures { self.new ≡ slice_set self.old ob member }
    {
        self.members[usize::from(ob)] = member;
    }
}
