ghost use Rattle.std.specs.Prelude.{◌≡◌, ◌==◌, ◌↔◌, [], ◌∷◌, length, IsFalse};
ghost use Rattle.std.specs.Bool.{OnTrue, OnFalse};
ghost use Rattle.status_word.specs.Brackets.{bracket_entry, bracket_begun, bracket_ended, Closes};

use crate::registers::Regs;
use crate::statuses::Status;
use arrayvec::ArrayVec;
use plc_base::Check;
use std::marker::Model;

/// How many brackets may be open at once: the entries of the nesting stack.
pub const NESTING_DEPTH: usize = 7;

/// An entry of the nesting stack: what the status word held when the bracket began, and the
/// function code, which says how the result of the bracket is combined.
#[derive(Clone, Copy, Debug, Default, PartialEq, Eq)]
pub struct Bracket {
    pub rlo: bool,
    pub or: bool,
    pub fc: bool,
    pub code: Check,
}

/// The nesting stack of a frame. A contract sees the list of the open brackets, the innermost one
/// first.
#[derive(Drop)]
pub struct Brackets {
    entries: ArrayVec<Bracket, NESTING_DEPTH>,
}

impl Model for Brackets {
    ghost use Rattle.std.specs.Prelude.{List, reverse};
    ghost use Rattle.status_word.specs.declared.nesting.Bracket.{Bracket};

    ghost Value = { List Bracket };

    ghost view = { λ b. reverse b.entries.items };
}

impl Brackets {
    /// No open bracket.
    pub fn new() -> Brackets
        ensures { result ≡ [] }
    {
        Brackets {
            entries: ArrayVec::new(),
        }
    }

    /// How many brackets are open.
    pub fn len(&self) -> usize
        ensures { result ≡ length self.now }
    {
        self.entries.len()
    }

    /// Whether no bracket is open.
    pub fn is_empty(&self) -> bool
        ensures { result ≡ (length self.now == 0) }
    {
        self.entries.is_empty()
    }

    /// The same brackets again, with no memory taken.
    pub fn copied(&self) -> Brackets
        ensures { result ≡ self.now }
    {
        let mut entries = ArrayVec::new();
        for bracket in self.entries.as_slice() {
            entries.push(*bracket);
        }
        Brackets { entries }
    }

    /// `A(`, `AN(`, `O(`, `ON(`, `X(` and `XN(`. False, with nothing changed, where seven brackets
    /// are open.
    #[tactic(auto, unfolding(crate::specs::Brackets::bracket_begun))]
    pub fn begin(&mut self, regs: &mut Regs, code: Check) -> bool
        ensures full { IsFalse result ↔ (length self.old ≡ 7) }
        ensures open { OnTrue result (self.new ≡ bracket_entry code regs.old ∷ self.old) }
        ensures inside { OnTrue result (regs.new ≡ bracket_begun regs.old) }
        ensures unchanged { OnFalse result (self.new ≡ self.old) }
        ensures same_regs { OnFalse result (regs.new ≡ regs.old) }
    {
        if self.entries.is_full() {
            return false;
        }
        let before = regs.status;
        self.entries.push(Bracket {
            rlo: before.rlo,
            or: before.or,
            fc: before.fc,
            code,
        });
        regs.status = Status {
            or: false,
            sta: true,
            fc: false,
            ..before
        };
        true
    }

    /// `)`: makes the check of the innermost bracket with the RLO as the value read. False, with
    /// nothing changed, where no bracket is open.
    #[tactic(auto, unfolding(crate::specs::Brackets::bracket_ended))]
    pub fn close(&mut self, regs: &mut Regs) -> bool
        ensures { Closes self.old regs.old self.new regs.new result }
    {
        let Some(bracket) = self.entries.pop() else {
            return false;
        };
        let inner = regs.status.rlo;
        regs.status.rlo = bracket.rlo;
        regs.status.or = bracket.or;
        regs.status.fc = bracket.fc;
        regs.check(bracket.code, inner);
        regs.status.sta = true;
        true
    }
}
