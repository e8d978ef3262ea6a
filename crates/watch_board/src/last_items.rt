//! An item with the prefix that it ends.
ghost use Rattle.std.specs.Prelude.{◌≡◌, Some};
ghost use mathlib.Core.List.{IsPrefix};
ghost use Rattle.watch_board.specs.BoardList.{last_item_of};

use crate::prefixes::Prefix;
use crate::shown::Shown;
use left_right::Absorb;
use std::alloc::AllocError;

/// An item, and the prefix of a board's list that ends with it.
#[derive(Drop)]
pub struct LastItem {
    pub shown: Shown,
    pub prefix: Prefix,
    ghost last: { last_item_of prefix.list ≡ Some shown },
}

impl LastItem {
    pub fn new(shown: Shown, prefix: Prefix) -> LastItem
        requires { last_item_of prefix.list ≡ Some shown }
        ensures { (result.shown ≡ shown) × (result.prefix ≡ prefix) }
    {
        LastItem { shown, prefix }
    }

    /// The same item and prefix once more. It takes no memory.
    pub fn copied(&self) -> LastItem
        ensures { result ≡ self.now }
    {
        LastItem {
            shown: self.shown.copied(),
            prefix: self.prefix.copied(),
        }
    }

    /// Becomes the later of the two.
    pub fn take_in(&mut self, other: &LastItem)
        requires board { other.now.prefix.board ≡ self.old.prefix.board }
        ensures board { self.new.prefix.board ≡ self.old.prefix.board }
        ensures seen { IsPrefix self.old.prefix.list self.new.prefix.list }
        ensures known { IsPrefix other.now.prefix.list self.new.prefix.list }
    {
        if self.prefix.is_shorter(&other.prefix) {
            *self = other.copied();
        }
    }
}

impl Absorb<LastItem> for LastItem {
    type State = LastItem;

    ghost state = { λ item. item };

    ghost applied = { λ _ next. next };

    ghost never_fails = { Unit {0} };

    fn absorb_first(&mut self, next: &LastItem, _other: &LastItem) -> Result<(), AllocError> {
        *self = next.copied();
        Ok(())
    }
}
