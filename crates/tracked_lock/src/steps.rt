//! The kinds of atomic step on the table, each in a function of its own, and the turn that they
//! make up. The table has three words, `count`, `busy` and `seats`, and one slot with the value,
//! which is at home where no pass has the turn.
ghost use Rattle.std.specs.Prelude.{◌≡◌, ◌<◌, true, false, None, [], ◌∷◌, length, IfOk};
ghost use Rattle.tracked_lock.specs.Plays.{
  Took,
  TookOut,
  Reads,
  Counts,
  Releases,
  HasTurn,
  IsCounted,
  IsSettled,
  CanJoin,
  view_with_list,
  without_turn,
};
ghost use Rattle.tracked_lock.specs.Rule.{IsLockTable, IsFirstSeat};
ghost use Rattle.tracked_lock.specs.Views.{own_number, IsAdded, joined_view, without_last, only_last};

use crate::faults::NoMemory;
use crate::rule::{
    BUSY, BothNumbers, COUNT, Key, LastNumber, OneList, PassSeat, ReadCount, Release, SeatView,
    StoreCount, Take,
};
use crate::storied::Storied;
use atomic_table::{Refused, Shared, Table};
use std::alloc::{AllocError, Global};
use std::hint::spin_loop;
use std::sync::Wait;

/// The table of a lock.
pub type LockTable<V> = Table<Option<V>, SeatView<V>, Key<V>, OneList<V>, Global>;

/// What steps are made on.
pub type TableSteps<V> = Shared<Option<V>, SeatView<V>, Key<V>, OneList<V>>;

/// Make: the table with its first seat, which has all numbers.
pub fn make<V: Storied + Drop>(
    alloc: Global,
    value: V,
    key: &Key<V>,
) -> Result<(LockTable<V>, PassSeat<V>), NoMemory>
    requires first { key.now.first.value ≡ value }
    requires empty { V.story value ≡ [] }
    ensures table { IfOk result (λ r. IsLockTable r.0.shared.table_id
        × (r.0.shared.key ≡ key.now)) }
    ensures seat { IfOk result (λ r. IsFirstSeat (V.origin value) key.now.passes r.1.me) }
    ensures same { IfOk result (λ r. r.1.table_id ≡ r.0.shared.table_id) }
{
    let mut slots = Vec::with_capacity(alloc, 1)?;
    slots.push_reserved(Some(value));
    match Table::new(alloc, &[0, 0, key.passes], slots, key) {
        Ok(made) => Ok(made),
        Err(Refused { slots: _ }) => Err(AllocError),
    }
}

/// Split: the last number gets a seat of its own.
pub fn split_last<V: Storied>(steps: &TableSteps<V>, seat: &mut PassSeat<V>) -> PassSeat<V>
    requires steps { IsLockTable steps.now.table_id × (seat.old.table_id ≡ steps.now.table_id) }
    requires seat { (1 < length seat.old.me.0.made) × (seat.old.me.0.turn ≡ false) }
    ensures seat { (seat.new.table_id ≡ seat.old.table_id) × (seat.new.id ≡ seat.old.id) }
    ensures rest { seat.new.me ≡ (without_last seat.old.me.0, seat.old.me.1) }
    ensures last { (result.table_id ≡ seat.old.table_id)
        × (result.me ≡ (only_last seat.old.me.0, [])) }
{
    steps.split_seat::<LastNumber>(seat)
}

/// Take: one try for the turn. Where it succeeds the slot is out with the seat.
fn try_take<V: Storied>(steps: &TableSteps<V>, seat: &mut PassSeat<V>) -> bool
    requires steps { IsLockTable steps.now.table_id × (seat.old.table_id ≡ steps.now.table_id) }
    requires seat { 0 < length seat.old.me.0.made }
    ensures seat { (seat.new.table_id ≡ seat.old.table_id) × (seat.new.id ≡ seat.old.id) }
    ensures took { result ≡ true → Took V.origin V.story V.maker seat.old.me seat.new.me }
    ensures tried { result ≡ false → seat.new.me ≡ seat.old.me }
{
    steps.compare_exchange::<Take<V>>(seat, BUSY, 0, 1) == 0
}

/// Read: how many entries the list has. What the seat has seen is a prefix of it.
pub fn read_count<V: Storied>(steps: &TableSteps<V>, seat: &mut PassSeat<V>) -> u64
    requires steps { IsLockTable steps.now.table_id × (seat.old.table_id ≡ steps.now.table_id) }
    requires seat { 0 < length seat.old.me.0.made }
    ensures seat { (seat.new.table_id ≡ seat.old.table_id) × (seat.new.id ≡ seat.old.id) }
    ensures reads { Reads V.maker seat.old.me result seat.new.me }
{
    steps.load::<ReadCount<V>>(seat, COUNT)
}

/// Count: stores the length of the list that the value out with the seat stands for.
fn store_count<V: Storied>(steps: &TableSteps<V>, seat: &mut PassSeat<V>, len: u64)
    requires steps { IsLockTable steps.now.table_id × (seat.old.table_id ≡ steps.now.table_id) }
    requires turn { HasTurn seat.old.me }
    requires value { IsCounted V.story V.maker seat.old.me len }
    ensures seat { (seat.new.table_id ≡ seat.old.table_id) × (seat.new.id ≡ seat.old.id) }
    ensures counts { Counts V.story seat.old.me seat.new.me }
{
    steps.store::<StoreCount<V>>(seat, COUNT, len);
}

/// Release: the turn and the slot go back.
fn release<V: Storied>(steps: &TableSteps<V>, seat: &mut PassSeat<V>)
    requires steps { IsLockTable steps.now.table_id × (seat.old.table_id ≡ steps.now.table_id) }
    requires turn { HasTurn seat.old.me }
    requires value { IsSettled V.origin V.story seat.old.me }
    ensures seat { (seat.new.table_id ≡ seat.old.table_id) × (seat.new.id ≡ seat.old.id) }
    ensures releases { Releases seat.old.me seat.new.me }
{
    steps.store::<Release<V>>(seat, BUSY, 0);
}

/// Join: the seat takes over the other's numbers and what it has seen.
fn join_other<V: Storied>(steps: &TableSteps<V>, seat: &mut PassSeat<V>, other: PassSeat<V>)
    requires steps { IsLockTable steps.now.table_id × (seat.old.table_id ≡ steps.now.table_id) }
    requires other { (other.table_id ≡ steps.now.table_id) × (other.me.1 ≡ []) }
    requires views { CanJoin V.maker seat.old.me.0 other.me.0 }
    ensures seat { (seat.new.table_id ≡ seat.old.table_id) × (seat.new.id ≡ seat.old.id) }
    ensures joined { seat.new.me ≡ (joined_view seat.old.me.0 other.me.0, seat.old.me.1) }
{
    steps.join_seat::<BothNumbers>(seat, other);
}

/// Waits for the turn. The slot is then out with the seat.
fn wait_for_turn<V: Storied, R: Wait>(rt: &R, steps: &TableSteps<V>, seat: &mut PassSeat<V>)
    requires steps { IsLockTable steps.now.table_id × (seat.old.table_id ≡ steps.now.table_id) }
    requires seat { 0 < length seat.old.me.0.made }
    ensures seat { (seat.new.table_id ≡ seat.old.table_id) × (seat.new.id ≡ seat.old.id) }
    ensures took { Took V.origin V.story V.maker seat.old.me seat.new.me }
{
    for _ in rt.forever() {
        if try_take(steps, seat) {
            return;
        }
        spin_loop();
    }
}

/// Waits for the turn, and moves the value out of the slot.
pub fn take_out<V: Storied, R: Wait>(rt: &R, steps: &TableSteps<V>, seat: &mut PassSeat<V>) -> V
    requires steps { IsLockTable steps.now.table_id × (seat.old.table_id ≡ steps.now.table_id) }
    requires seat { (0 < length seat.old.me.0.made) × (seat.old.me.1 ≡ []) }
    ensures seat { (seat.new.table_id ≡ seat.old.table_id) × (seat.new.id ≡ seat.old.id) }
    ensures took { TookOut V.origin V.story V.maker seat.old.me seat.new.me result }
{
    wait_for_turn(rt, steps, seat);
    steps.exchange(seat, 0, None).unwrap()
}

/// Moves the value back into the slot, for the list that was seen or for that list with more
/// entries of the seat's own number, and gives the turn back.
pub fn give_back<V: Storied + Drop>(
    steps: &TableSteps<V>,
    seat: &mut PassSeat<V>,
    value: V,
    len: u64,
)
    requires steps { IsLockTable steps.now.table_id × (seat.old.table_id ≡ steps.now.table_id) }
    requires turn { HasTurn seat.old.me × (seat.old.me.1 ≡ (0, None) ∷ []) }
    requires origin { V.origin value ∷ [] ≡ seat.old.me.0.origin }
    requires entries { IsAdded V.maker (own_number seat.old.me.0.made)
        seat.old.me.0.seen (V.story value) }
    requires len { len ≡ length (V.story value) }
    ensures seat { (seat.new.table_id ≡ seat.old.table_id) × (seat.new.id ≡ seat.old.id) }
    ensures back { seat.new.me
        ≡ (without_turn (view_with_list seat.old.me.0 (V.story value)), []) }
{
    drop(steps.exchange(seat, 0, Some(value)));
    store_count(steps, seat, len);
    release(steps, seat);
}

/// Both seats' numbers, and the longer of the two lists that they have seen, in one seat.
pub fn join_seats<V: Storied>(
    steps: &TableSteps<V>,
    seat: &mut PassSeat<V>,
    other: PassSeat<V>,
) -> u64
    requires steps { IsLockTable steps.now.table_id × (seat.old.table_id ≡ steps.now.table_id) }
    requires other { (other.table_id ≡ steps.now.table_id) × (other.me.1 ≡ []) }
    requires views { CanJoin V.maker seat.old.me.0 other.me.0 }
    ensures seat { (seat.new.table_id ≡ seat.old.table_id) × (seat.new.id ≡ seat.old.id) }
    ensures reads { Reads V.maker (joined_view seat.old.me.0 other.me.0, seat.old.me.1)
        result seat.new.me }
{
    join_other(steps, seat, other);
    read_count(steps, seat)
}
