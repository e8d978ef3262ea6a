//! The lock.
ghost use Rattle.std.specs.Prelude.{
  ◌≡◌,
  ◌+◌,
  ◌^◌,
  ◌<◌,
  ◌≤◌,
  true,
  false,
  [],
  ◌∷◌,
  length,
  IfOk,
  IfErr,
};
ghost use mathlib.Core.List.{IsPrefix};
ghost use Rattle.tracked_lock.specs.Passes.{
  IsOneStep,
  IsClosed,
  IsCountOut,
  fresh_pass,
  fresh_passes,
  pass_after_put,
  joined_pass,
  lock_of,
};
ghost use Rattle.tracked_lock.specs.Rule.{IsLockTable, IsFirstSeat, IsFreshSeat};
ghost use Rattle.tracked_lock.specs.Views.{AreEntriesByMaker};

use crate::faults::NoMemory;
use crate::passes::{Held, Pass};
use crate::rule::{Key, PassSeat};
use crate::steps::{
    LockTable, TableSteps, give_back, join_seats, make, read_count, split_last, take_out,
};
use crate::storied::Storied;
use std::alloc::Global;
use std::marker::Model;
use std::snapshot::Snapshot;
use std::sync::Wait;

/// A lock on a value that stands for a growing list of entries. Contracts see which table it is,
/// the origin of the value that it was made with, and the number of passes (`specs/Passes`,
/// `LockView`).
#[derive(Drop)]
pub struct TrackedLock<V: Storied + Drop> {
    table: LockTable<V>,
    passes: u64,
}

impl<V: Storied + Drop> Model for TrackedLock<V> {
    ghost use Rattle.std.specs.Prelude.{◌≡◌, ◌<◌};
    ghost use Rattle.tracked_lock.specs.Passes.{LockView, lock_of};
    ghost use Rattle.tracked_lock.specs.Rule.{IsLockTable};

    ghost Value = { LockView V.Origin };

    ghost view = { λ l. lock_of l.table.shared.table_id
        (V.origin l.table.shared.key.first.value) l.table.shared.key.passes };

    ghost invariant = { λ l. IsLockTable l.table.shared.table_id
        × (l.passes ≡ l.table.shared.key.passes) × (l.passes < 256) };
}

/// Why a lock isn't closed: some of its numbers from 1 to n aren't those of the pass.
#[derive(Drop)]
pub struct SeatsOut<V: Storied + Drop> {
    /// How many of the numbers aren't.
    pub count: u64,
    /// The lock, as it was.
    pub lock: TrackedLock<V>,
    /// The pass, as it was.
    pub pass: Pass<V>,
}

// The pass with one number, at the start.
fn pass_at_start<V: Storied>(key: &Key<V>, seat: PassSeat<V>, number: u8) -> Pass<V>
    requires seat { IsFreshSeat (V.origin key.now.first.value) key.now.passes number seat.me }
    requires number { (1 ≤ number) × (number ≤ key.now.passes) }
    ensures { result
        ≡ fresh_pass (lock_of seat.table_id (V.origin key.now.first.value) key.now.passes)
        number }
{
    let _ = key;
    Pass {
        seat,
        number,
        seen: 0,
        numbers: 1,
    }
}

// All passes, in the order of their numbers.
fn deal<V: Storied>(
    alloc: Global,
    steps: &TableSteps<V>,
    key: &Key<V>,
    mut seat: PassSeat<V>,
    n: u8,
) -> Result<Vec<Pass<V>>, NoMemory>
    requires steps { IsLockTable steps.now.table_id × (seat.table_id ≡ steps.now.table_id) }
    requires some { 1 ≤ n }
    requires key { (steps.now.key ≡ key.now) × (key.now.passes ≡ n) }
    requires seat { IsFirstSeat (V.origin key.now.first.value) n seat.me }
    ensures { IfOk result (λ v. v.items
        ≡ fresh_passes (lock_of steps.now.table_id (V.origin key.now.first.value) n) 0 n) }
{
    let mut passes = Vec::new(alloc);
    let mut left = n;
    while left > 1 {
        let last = split_last(steps, &mut seat);
        passes.insert(0, pass_at_start(key, last, left))?;
        left -= 1;
    }
    passes.insert(0, pass_at_start(key, seat, left))?;
    Ok(passes)
}

impl<V: Storied + Drop> TrackedLock<V> {
    /// A lock round `value`, and all `n` passes that it will ever have, in the order of their
    /// numbers 1 to n. Each has seen the empty list, and made nothing. `NoMemory` where there is
    /// none.
    pub fn new(alloc: Global, value: V, n: u8) -> Result<(TrackedLock<V>, Vec<Pass<V>>), NoMemory>
        requires some { 1 ≤ n }
        requires empty { V.story value ≡ [] }
        ensures lock { IfOk result (λ r. (r.0.origin ≡ V.origin value ∷ [])
            × (r.0.passes ≡ n)) }
        ensures passes { IfOk result (λ r. r.1.items ≡ fresh_passes r.0 0 n) }
    {
        let key = Key {
            first: Snapshot::of(&value),
            passes: u64::from(n),
        };
        let (table, seat) = make(alloc, value, &key)?;
        let passes = deal(alloc, &table.shared, &key, seat, n)?;
        let lock = TrackedLock {
            table,
            passes: u64::from(n),
        };
        Ok((lock, passes))
    }

    /// Waits for the turn, and takes the value out. It stands for a list that continues what the
    /// pass had seen, and the pass has then seen that list.
    pub fn take<R: Wait>(&self, rt: &R, p: &mut Pass<V>) -> Held<V>
        requires lock { p.old.lock ≡ self.now }
        requires free { p.old.out ≡ false }
        ensures origin { V.origin result.value ∷ [] ≡ self.now.origin }
        ensures list { V.story result.value ≡ p.new.seen }
        ensures seen { IsPrefix p.old.seen p.new.seen }
        ensures pass { p.new ≡ record p.old { out = true; seen = p.new.seen } }
        ensures made { AreEntriesByMaker V.maker p.new.seen p.new.made }
        ensures taken { result.pass ≡ p.new }
    {
        let steps = &self.table.shared;
        let value = take_out(rt, steps, &mut p.seat);
        p.seen = read_count(steps, &mut p.seat);
        Held::new(value, p)
    }

    /// Gives the value back, for the list that it stood for or for that list with one entry more,
    /// of the pass's own number.
    pub fn put(&self, p: &mut Pass<V>, held: Held<V>)
        requires lock { p.old.lock ≡ self.now }
        requires taken { (p.old.out ≡ true) × (held.pass ≡ p.old) }
        requires origin { V.origin held.value ∷ [] ≡ self.now.origin }
        requires list { IsOneStep V.maker p.old.number p.old.seen (V.story held.value) }
        requires room { length (V.story held.value) + 1 < 2 ^ 64 }
        ensures pass { p.new ≡ pass_after_put p.old (V.story held.value) }
        ensures made { AreEntriesByMaker V.maker p.new.seen p.new.made }
    {
        let value = held.into_value();
        let len = value.story_len();
        give_back(&self.table.shared, &mut p.seat, value, len);
        p.seen = len;
    }

    /// The pass takes over the other's numbers, with the entries made under each, and has seen the
    /// longer of the two lists.
    pub fn join(&self, p: &mut Pass<V>, q: Pass<V>)
        requires lock { (p.old.lock ≡ self.now) × (q.lock ≡ self.now) }
        requires free { (p.old.out ≡ false) × (q.out ≡ false) }
        ensures pass { p.new ≡ joined_pass p.old q }
        ensures seen { IsPrefix p.old.seen p.new.seen × IsPrefix q.seen p.new.seen }
        ensures made { AreEntriesByMaker V.maker p.new.seen p.new.made }
    {
        let Pass {
            seat,
            number: _,
            seen,
            numbers,
        } = q;
        join_seats(&self.table.shared, &mut p.seat, seat);
        p.numbers += numbers;
        p.seen = p.seen.max(seen);
    }

    /// The value, where the pass has every number from 1 to n. It stands for a list that continues
    /// what the pass has seen, and that is exactly the entries made under these numbers. Else
    /// `SeatsOut`, with how many numbers aren't the pass's, and lock and pass as they were. A pass
    /// that was dropped keeps its numbers out for good.
    pub fn close(self, p: Pass<V>) -> Result<V, SeatsOut<V>>
        requires lock { p.lock ≡ self }
        requires free { p.out ≡ false }
        ensures ok { IfOk result (IsClosed V.origin V.story V.maker self p) }
        ensures err { IfErr result (λ o. IsCountOut self p o.count
            × (o.lock ≡ self) × (o.pass ≡ p)) }
    {
        if p.numbers < self.passes {
            return Err(SeatsOut {
                count: self.passes - p.numbers,
                lock: self,
                pass: p,
            });
        }
        let TrackedLock { table, passes: _ } = self;
        let Pass {
            seat,
            number: _,
            seen: _,
            numbers: _,
        } = p;
        let mut closed = table.close_with(seat);
        let value = closed.take(0);
        closed.free();
        Ok(value.unwrap())
    }
}
