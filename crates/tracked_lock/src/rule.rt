//! The table of the lock, its rule, and what each kind of step tells.
use crate::storied::Storied;
use crate::views::View;
use atomic_table::{Join, Play, Seat, Split, TableRule};
use std::marker::PhantomData;
use std::snapshot::Snapshot;

/// The word that counts the entries.
pub const COUNT: usize = 0;

/// The word that is 1 while a pass has the turn.
pub const BUSY: usize = 1;

/// The word with the number of passes.
pub const SEATS: usize = 2;

/// What the table is told when it is made.
#[derive(Drop)]
pub struct Key<V> {
    /// The first value under the lock.
    pub first: Snapshot<V>,
    /// How many passes the lock has.
    pub passes: u64,
}

/// What a seat of a lock on such values knows.
pub type SeatView<V> = View<<V as Storied>::Origin, <V as Storied>::Entry>;

/// The seat of a pass at the lock's table.
pub type PassSeat<V> = Seat<Option<V>, SeatView<V>>;

/// The rule of the table: there is one list, of which each seat knows a beginning.
pub struct OneList<V> {
    value: PhantomData<V>,
}

impl<V: Storied> TableRule<Option<V>, View<V::Origin, V::Entry>, Key<V>> for OneList<V> {
    ghost use Rattle.tracked_lock.specs.Rule.{KeepsLockRule, starting_view};

    ghost holds = { λ key. KeepsLockRule V.origin V.story V.maker
        (V.origin key.first.value) key.passes };

    ghost first = { λ key. starting_view (V.origin key.first.value) key.passes };
}

/// A try to take the turn.
pub struct Take<V> {
    value: PhantomData<V>,
}

impl<V: Storied> Play<Option<V>, View<V::Origin, V::Entry>> for Take<V> {
    ghost use Rattle.tracked_lock.specs.Plays.{Takes};

    ghost then = { λ st m r n. Takes V.origin V.story V.maker m r n };
}

/// A look at the count of entries.
pub struct ReadCount<V> {
    value: PhantomData<V>,
}

impl<V: Storied> Play<Option<V>, View<V::Origin, V::Entry>> for ReadCount<V> {
    ghost use Rattle.tracked_lock.specs.Plays.{Reads};

    ghost then = { λ st m r n. Reads V.maker m r n };
}

/// The count of entries is stored, by the seat with the turn.
pub struct StoreCount<V> {
    value: PhantomData<V>,
}

impl<V: Storied> Play<Option<V>, View<V::Origin, V::Entry>> for StoreCount<V> {
    ghost use Rattle.tracked_lock.specs.Plays.{Counts};

    ghost then = { λ st m r n. Counts V.story m n };
}

/// The turn is given back.
pub struct Release<V> {
    value: PhantomData<V>,
}

impl<V: Storied> Play<Option<V>, View<V::Origin, V::Entry>> for Release<V> {
    ghost use Rattle.tracked_lock.specs.Plays.{Releases};

    ghost then = { λ st m r n. Releases m n };
}

/// The last number of a seat goes to a seat of its own.
pub struct LastNumber;

impl<O, E> Split<View<O, E>> for LastNumber {
    ghost use Rattle.tracked_lock.specs.Views.{without_last, only_last};

    ghost left = { without_last };

    ghost right = { only_last };
}

/// The numbers of two seats come to one.
pub struct BothNumbers;

impl<O, E> Join<View<O, E>> for BothNumbers {
    ghost use Rattle.tracked_lock.specs.Views.{joined_view, spent_view};

    ghost both = { joined_view };

    ghost spent = { spent_view };
}
