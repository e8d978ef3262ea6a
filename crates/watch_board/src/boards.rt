//! Publishing and viewing.
ghost use Rattle.std.specs.Prelude.{◌≡◌, [], ◌∷◌, ◌++◌, drop, Some, IfOk, OnOk, OnErr};
ghost use mathlib.Core.List.{IsPrefix};
ghost use Rattle.watch_board.specs.BoardList.{MayFollow, HasRisingLengths, last_item_of, initial_item};
ghost use Rattle.watch_board.specs.Views.{HasOnePendingItem};

use crate::copies::{BoardReader, BoardWriter, append, opening_copies, read, show};
use crate::last_items::LastItem;
use crate::prefixes::{ItemCount, Prefix};
use crate::same_board::Tell;
use crate::shown::Shown;
use core::mem::replace_with;
use plc_base::NoMemory;
use std::alloc::{AllocError, Global};
use std::marker::Model;
use std::sync::Wait;

/// A board with one publisher and one viewer, which together are the board.
pub struct Board;

/// Puts items on a board. It can't be let go: `close` ends it. Contracts see the board, and the
/// list of all that was published on it, the opening item first (`specs/BoardList`, `KnownBoard`).
pub struct Publisher {
    count: ItemCount,
    prefix: Prefix,
    copies: BoardWriter,
}

impl Model for Publisher {
    ghost use Rattle.std.specs.Prelude.{◌≡◌, [], drop};
    ghost use Rattle.watch_board.specs.BoardList.{KnownBoard};

    ghost Value = { KnownBoard };

    ghost view = { λ p. p.prefix };

    ghost invariant = { λ p. (p.count ≡ p.prefix.board)
        × (p.copies.desk.shown.value.prefix.board ≡ p.prefix.board)
        × (drop p.copies.behind p.copies.log.items ≡ []) };
}

/// Views a board. Contracts see the board, and a list of published items, of which all that this
/// viewer saw or was told of is a prefix.
#[derive(Drop)]
pub struct Viewer {
    /// The reader of the copies. None once no writer was found.
    reader: Option<BoardReader>,
    last: LastItem,
}

impl Model for Viewer {
    ghost use Rattle.std.specs.Prelude.{IfSome};
    ghost use Rattle.left_right.specs.Sides.{view as known_at};
    ghost use Rattle.watch_board.specs.BoardList.{KnownBoard};
    ghost use Rattle.watch_board.specs.Views.{KnowsOneBoard};

    ghost Value = { KnownBoard };

    ghost view = { λ v. v.last.prefix };

    ghost invariant = { λ v. IfSome v.reader
        (λ r. KnowsOneBoard v.last.prefix.board (known_at r.place)) };
}

/// Word of what was published. Contracts see the board, and the list that ends with the item.
#[derive(Drop)]
pub struct Note {
    last: LastItem,
}

impl Model for Note {
    ghost use Rattle.watch_board.specs.BoardList.{KnownBoard};

    ghost Value = { KnownBoard };

    ghost view = { λ n. n.last.prefix };
}

impl Board {
    /// A board that shows the opening item, of length 0 and without a reply: its publisher and its
    /// viewer. It waits for nobody.
    ///
    /// # Errors
    ///
    /// `NoMemory` for want of memory.
    pub fn new<R: Wait>(rt: &R, alloc: Global) -> Result<(Publisher, Viewer), NoMemory>
        ensures list { IfOk result (λ r. r.0.list ≡ initial_item ∷ []) }
        ensures same { IfOk result (λ r. r.1 ≡ r.0) }
    {
        let (count, prefix) = Prefix::open();
        let mut copies = opening_copies(rt, alloc, &prefix)?;
        let Ok(mut reader) = copies.factory().reader() else {
            drop(copies.take(rt));
            return Err(AllocError);
        };
        reader.learn::<Tell>(copies.tell::<Tell>());
        let viewer = Viewer {
            reader: Some(reader),
            last: LastItem::new(Shown::opening(), prefix.copied()),
        };
        let publisher = Publisher {
            count,
            prefix,
            copies,
        };
        Ok((publisher, viewer))
    }
}

impl Publisher {
    /// Puts an item on the board, whose length is above that of the last one. It may wait for the
    /// viewer.
    ///
    /// # Errors
    ///
    /// `NoMemory` for want of memory. The board then shows what it showed.
    #[tactic(auto, using(crate::proofs::AppendLemmas::last_more))]
    pub fn publish<R: Wait>(&mut self, rt: &R, shown: Shown) -> Result<Note, NoMemory>
        requires rises { MayFollow self.old.list shown }
        ensures board { self.new.board ≡ self.old.board }
        ensures ok { OnOk result (self.new.list ≡ self.old.list ++ shown ∷ []) }
        ensures note { IfOk result (λ note. note ≡ self.new) }
        ensures last { OnOk result (last_item_of self.new.list ≡ Some shown) }
        ensures err { OnErr result (self.new ≡ self.old) }
    {
        let Some(prefix) = self.prefix.with(&self.count, &shown) else {
            return Err(AllocError);
        };
        let last = LastItem::new(shown, prefix);
        append(&mut self.copies, last.copied())?;
        replace_with(
            &mut self.copies,
            rt,
            |copies, rt| -> (BoardWriter, ())
                requires { HasOnePendingItem copies.desk.shown.value.prefix.board
                    (drop copies.behind copies.log.items) }
                ensures { (drop result.0.behind result.0.log.items ≡ [])
                    × (result.0.desk.shown.value.prefix.board
                    ≡ copies.desk.shown.value.prefix.board) }
            { (show(copies, rt), ()) },
        );
        self.prefix = last.prefix.copied();
        Ok(Note { last })
    }

    /// Ends the board that this publisher and the viewer belong to. It may wait.
    pub fn close<R: Wait>(self, rt: &R, viewer: Viewer)
        requires { viewer.board ≡ self.board }
    {
        drop(viewer);
        let Publisher {
            count: _count,
            prefix: _prefix,
            copies,
        } = self;
        drop(copies.take(rt));
    }
}

impl Viewer {
    /// The last item of a list of which all that this viewer saw or was told of is a prefix; the
    /// viewer has then seen that list. It waits for nobody, and takes no memory.
    pub fn view(&mut self) -> Shown
        ensures board { self.new.board ≡ self.old.board }
        ensures seen { IsPrefix self.old.list self.new.list }
        ensures last { last_item_of self.new.list ≡ Some result }
        ensures rising { HasRisingLengths self.new.list }
    {
        if let Some(reader) = self.reader.take() {
            self.reader = read(reader, &mut self.last);
        }
        self.last.prefix.law_of_rising();
        self.last.shown.copied()
    }

    /// Learns of what was published on this board. It takes no memory.
    pub fn learn(&mut self, note: Note)
        requires board { note.board ≡ self.old.board }
        ensures board { self.new.board ≡ self.old.board }
        ensures seen { IsPrefix self.old.list self.new.list }
        ensures known { IsPrefix note.list self.new.list }
    {
        self.last.take_in(&note.last);
    }
}
