ghost use Rattle.std.specs.Prelude.{◌≡◌, ◌+◌, ◌-◌, ◌^◌, ◌<◌, ◌≤◌, ◌++◌, ◌∷◌, [], length, max, replicate, slice_get, true, false, OnOk, OnErr, IfSome, vec_len, vec_capacity};
ghost use Rattle.var_access.specs.Runs.{AreRuns, entry_by as entry_of, is_step as is_step_of, are_steps_of_one_worker, run_at as run_at_of, entries_of_runs};

use crate::entries::Entry;
use plc_base::NoMemory;
use std::alloc::Global;
use std::marker::Model;

/// Equal entries in a row, more than one only of steps: the entry, the place of the first in the
/// history, counted from 0, and how many there are.
#[derive(Clone, Copy, Debug, PartialEq, Eq)]
pub struct Run {
    pub entry: Entry,
    pub first: u64,
    pub count: u64,
}

/// The entries of a history in their order, kept as runs, and for how many further ones there is
/// room. A contract sees the list of entries, and `spare`.
#[derive(Drop)]
pub struct Entries {
    runs: Vec<Run>,
    len: u64,
    spare: u64,
}

impl Model for Entries {
    ghost use Rattle.var_access.specs.History.{History, IsHistory, history_of};

    ghost Value = { History };

    ghost view = { history_of };

    ghost invariant = { IsHistory };
}

impl Run {
    ghost use Rattle.std.specs.Prelude.{◌≡◌};
    ghost use Rattle.var_access.specs.Runs.{are_steps_of_one_worker};

    /// Whether an entry behind the run is one more of it: both are steps of one worker.
    fn joins(&self, next: &Entry) -> bool
        ensures { result ≡ are_steps_of_one_worker self.now.entry next.now }
    {
        self.entry.is_step() && next.is_step() && self.entry.who == next.who
    }
}

// Adds an element to a list that has room for it. It is generic because no proof is found of std's own
// call at a type that holds requests.
fn push_reserved<T: Copy>(list: &mut Vec<T>, element: T)
    requires { vec_len list.old < vec_capacity list.old }
    ensures items { list.new.items ≡ list.old.items ++ element ∷ [] }
    ensures len { vec_len list.new ≡ vec_len list.old + 1 }
    ensures capacity { vec_capacity list.new ≡ vec_capacity list.old }
{
    list.push_reserved(element);
}

// Adds equal entries behind those of runs.
fn add(runs: &mut Vec<Run>, entry: &Entry, first: u64, count: u64)
    requires are { AreRuns runs.old.items }
    requires first { first ≡ length (entries_of_runs runs.old.items) }
    requires some { 1 ≤ count }
    requires one { is_step_of entry.now ≡ false → count ≡ 1 }
    requires bounded { first + count < 2 ^ 64 }
    requires room { vec_len runs.old < vec_capacity runs.old }
    ensures written { entries_of_runs runs.new.items
        ≡ entries_of_runs runs.old.items ++ replicate count entry.now }
    ensures are { AreRuns runs.new.items }
    ensures len { vec_len runs.new ≤ vec_len runs.old + 1 }
    ensures capacity { vec_capacity runs.new ≡ vec_capacity runs.old }
{
    if let Some(last) = runs.last_mut() {
        if last.joins(entry) {
            last.count += count;
            return;
        }
    }
    push_reserved(
        runs,
        Run {
            entry: *entry,
            first,
            count,
        },
    );
}

// A run by its place among the runs.
fn run_in_place(runs: &[Run], place: usize) -> Option<Run>
    ensures { result ≡ slice_get runs.now place }
{
    runs.get(place).copied()
}

// The last of the runs that begin at a number or before it.
fn run_at(runs: &[Run], i: u64) -> Option<Run>
    requires { AreRuns runs.now }
    ensures found { result ≡ run_at_of runs.now i }
    ensures begins { IfSome result (λ r. r.first ≤ i) }
{
    let behind = runs.partition_point(|r| r.first <= i);
    if behind == 0 {
        return None;
    }
    run_in_place(runs, behind - 1)
}

// The entry of a number in the run that begins at it or before it.
fn entry_by(run: Option<Run>, i: u64) -> Option<Entry>
    requires { IfSome run (λ r. r.first ≤ i) }
    ensures { result ≡ entry_of run i }
{
    let run = run?;
    if i - run.first < run.count {
        Some(run.entry)
    } else {
        None
    }
}

// The entry of a number.
#[tactic(auto, using(crate::proofs::RunLemmas::found_entry))]
fn entry_at(runs: &[Run], i: u64) -> Option<Entry>
    requires { AreRuns runs.now }
    ensures { result ≡ slice_get (entries_of_runs runs.now) i }
{
    entry_by(run_at(runs, i), i)
}

impl Entries {
    /// No entry, and room for none.
    pub fn new(alloc: Global) -> Entries
        ensures { result ≡ record { entries = []; spare = 0 } }
    {
        Entries {
            runs: Vec::new(alloc),
            len: 0,
            spare: 0,
        }
    }

    /// Makes room for `n` runs of further entries, and so for `n` entries, whatever they are.
    ///
    /// # Errors
    ///
    /// `NoMemory` for want of memory. Nothing has changed then.
    pub fn reserve(&mut self, n: u64) -> Result<(), NoMemory>
        requires { length self.old.entries + n < 2 ^ 64 }
        ensures ok { OnOk result (self.new ≡ record self.old { spare = max self.old.spare n }) }
        ensures err { OnErr result (self.new ≡ self.old) }
    {
        if n > self.spare {
            self.runs.reserve(n as usize)?;
            self.spare = n;
        }
        Ok(())
    }

    /// Adds an entry `count` times, a step so often as there is room, another entry once. It takes no
    /// memory.
    pub fn push(&mut self, entry: &Entry, count: u64)
        requires some { 1 ≤ count }
        requires one { is_step_of entry.now ≡ false → count ≡ 1 }
        requires room { count ≤ self.old.spare }
        ensures { self.new ≡ record self.old {
          entries = self.old.entries ++ replicate count entry.now;
          spare = self.old.spare - count;
        } }
    {
        add(&mut self.runs, entry, self.len, count);
        self.len += count;
        self.spare -= count;
    }

    /// Adds an entry `count` times, a step as often as wanted, another entry once. It takes memory for
    /// one run at most, and leaves the room for further entries as it is.
    ///
    /// # Errors
    ///
    /// `NoMemory` for want of memory. Nothing has changed then.
    pub fn append(&mut self, entry: &Entry, count: u64) -> Result<(), NoMemory>
        requires some { 1 ≤ count }
        requires one { is_step_of entry.now ≡ false → count ≡ 1 }
        requires bounded { length self.old.entries + self.old.spare + count < 2 ^ 64 }
        ensures ok { OnOk result (self.new ≡ record self.old {
          entries = self.old.entries ++ replicate count entry.now;
        }) }
        ensures err { OnErr result (self.new ≡ self.old) }
    {
        self.runs.reserve(self.spare as usize + 1)?;
        add(&mut self.runs, entry, self.len, count);
        self.len += count;
        Ok(())
    }

    /// How many entries there are.
    pub fn len(&self) -> u64
        ensures len { result ≡ length self.now.entries }
        ensures bounded { result + self.now.spare < 2 ^ 64 }
    {
        self.len
    }

    /// Nothing is done. The contract says that the entries, with those for which there is room, are
    /// fewer than 2^64.
    pub fn law_of_room(&self)
        ensures { length self.now.entries + self.now.spare < 2 ^ 64 }
    {
        let _ = &self.runs;
    }

    /// An entry by its place, counted from 0; `None` from the length on.
    pub fn entry(&self, i: u64) -> Option<Entry>
        ensures { result ≡ slice_get self.now.entries i }
    {
        entry_at(self.runs.as_slice(), i)
    }

    /// The entries as runs: written out in their order these are the entries, and no run of steps is
    /// followed by one of the same worker. It takes no memory.
    pub fn runs(&self) -> &[Run]
        ensures out { entries_of_runs result.now ≡ self.now.entries }
        ensures are { AreRuns result.now }
    {
        self.runs.as_slice()
    }
}
