//! A register of notes, as a value that stands for a list.
ghost use Rattle.std.specs.Prelude.{◌≡◌, ◌+◌, ◌^◌, ◌<◌, [], ◌∷◌, ◌++◌, length, OnOk, OnErr};

use std::alloc::AllocError;
use tracked_lock::{NoMemory, Storied};

/// A note, by the number of the pass under which it was made.
#[derive(Clone, Copy, Debug, PartialEq, Eq, Drop)]
pub struct Note {
    pub who: u8,
    pub value: u64,
}

/// Notes, and what the register was made from.
#[derive(Drop)]
pub struct Register {
    pub first: u64,
    pub notes: Vec<Note>,
}

impl Storied for Register {
    type Origin = u64;

    type Entry = Note;

    ghost origin = { λ r. r.first };

    ghost story = { λ r. r.notes.items };

    ghost maker = { λ n. n.who };

    fn story_len(&self) -> u64 {
        self.notes.len() as u64
    }
}

impl Register {
    /// Adds a note, up to a million.
    pub fn note(&mut self, who: u8, value: u64) -> Result<(), NoMemory>
        ensures origin { self.new.first ≡ self.old.first }
        ensures ok { OnOk result (self.new.notes.items
            ≡ self.old.notes.items ++ record { who = who; value = value } ∷ []) }
        ensures err { OnErr result (self.new.notes.items ≡ self.old.notes.items) }
        ensures room { length self.new.notes.items + 1 < 2 ^ 64 }
    {
        if self.notes.len() > 1_000_000 {
            return Err(AllocError);
        }
        self.notes.push(Note { who, value })?;
        Ok(())
    }
}
