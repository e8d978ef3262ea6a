//! Passes, and the values that are out with them.
ghost use Rattle.std.specs.Prelude.{◌≡◌, ◌≤◌, length};
ghost use Rattle.std.specs.Borrow.{Lends, sem};

use crate::rule::PassSeat;
use crate::storied::Storied;
use std::marker::Model;
use std::snapshot::Snapshot;

/// The right to take turns under one number, from 1 on. Contracts see its lock, its number, whether
/// a value is out with it, the list that it has seen, and the entries that were made under each of
/// its numbers, its own first (`specs/Passes`, `PassView`).
#[derive(Drop)]
pub struct Pass<V: Storied> {
    pub(crate) seat: PassSeat<V>,
    pub(crate) number: u8,
    pub(crate) seen: u64,
    pub(crate) numbers: u64,
}

impl<V: Storied> Model for Pass<V> {
    ghost use Rattle.tracked_lock.specs.Passes.{PassView, IsPass, pass_of_seat};

    ghost Value = { PassView V.Origin V.Entry };

    ghost view = { λ p. pass_of_seat p.seat.table_id p.seat.me.0 p.number };

    ghost invariant = { λ p. IsPass V.maker p.seat.me p.number p.seen p.numbers };
}

impl<V: Storied> Pass<V> {
    /// How many entries the list has that the pass has seen.
    pub fn seen(&self) -> u64
        ensures { result ≡ length self.now.seen }
    {
        self.seen
    }

    /// The pass's own number, from 1 on.
    pub fn number(&self) -> u8
        ensures value { result ≡ self.now.number }
        ensures least { 1 ≤ result }
    {
        self.number
    }
}

/// A value that is out of the lock with a pass. It ends in `put` alone: it can't be let go, and its
/// value is lent. Contracts see the value, and the pass as `take` left it (`specs/Passes`,
/// `LentValue`).
pub struct Held<V: Storied> {
    value: V,
    taken: Snapshot<Pass<V>>,
}

impl<V: Storied> Model for Held<V> {
    ghost use Rattle.tracked_lock.specs.Passes.{LentValue};

    ghost Value = { LentValue V V.Origin V.Entry };

    ghost view = { λ h. record { value = h.value; pass = h.taken.value } };
}

impl<V: Storied> Held<V> {
    ghost use Rattle.tracked_lock.specs.contracts.passes.Held.{the_row};
    ghost use Rattle.tracked_lock.specs.Passes.{with_value};

    /// The value.
    pub fn value(&self) -> &V
        ensures { result.now ≡ self.now.value }
    {
        &self.value
    }

    /// The value, to be changed.
    pub fn value_mut(&mut self) -> &mut V
        ensures* writes_back { sem 𝓛
            (Lends (the_row V.row V.Origin.row V.Entry.row V.Storied) V.row self.entry result
            (with_value self.old)) }
        ensures value { result.now ≡ self.old.value }
    {
        &mut self.value
    }

    pub(crate) fn new(value: V, pass: &Pass<V>) -> Held<V>
        ensures value { result.value ≡ value }
        ensures pass { result.pass ≡ pass.now }
    {
        Held {
            value,
            taken: Snapshot::of(pass),
        }
    }

    pub(crate) fn into_value(self) -> V
        ensures { result ≡ self.value }
    {
        let Held { value, taken: _ } = self;
        value
    }
}
