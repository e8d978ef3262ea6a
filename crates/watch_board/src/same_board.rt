//! The rule of a board's copies: whoever reads them or writes them knows the same board.
use crate::last_items::LastItem;
use crate::prefixes::Prefix;
use atomic_table::{Join, Split};
use crossbeam_utils::rule::{Outcome, Protocol};
use std::collections::LinkedList;

/// All that know a board know this one. A view is a list of at most one prefix.
pub struct SameBoard;

impl Protocol<LastItem, LinkedList<Prefix>> for SameBoard {
    ghost use Rattle.std.specs.Prelude.{[]};
    ghost use Rattle.watch_board.specs.Views.{AreAllOfBoard};

    ghost holds = { λ item views. AreAllOfBoard item.prefix.board views };

    ghost first = { [] };
}

/// What a read tells: the item is of the board that was known, and known now.
pub struct ReadItem;

impl Outcome<LastItem, LinkedList<Prefix>> for ReadItem {
    ghost use Rattle.watch_board.specs.Views.{ReadsBoardList};

    ghost then = { λ v x y w. ReadsBoardList v y.prefix w };
}

/// What showing an item tells: its prefix is known.
pub struct Show;

impl Outcome<LastItem, LinkedList<Prefix>> for Show {
    ghost use Rattle.std.specs.Prelude.{◌≡◌, ◌∷◌, []};

    ghost then = { λ v x y w. w ≡ y.prefix ∷ [] };
}

/// What the writer knows, a reader is told.
pub struct Tell;

impl Split<LinkedList<Prefix>> for Tell {
    ghost left = { λ v. v };

    ghost right = { λ v. v };
}

impl Join<LinkedList<Prefix>> for Tell {
    ghost use Rattle.std.specs.Prelude.{[]};

    ghost both = { λ v w. w };

    ghost spent = { [] };
}
