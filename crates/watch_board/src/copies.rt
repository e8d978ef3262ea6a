//! The two copies of what a board shows.
ghost use Rattle.std.specs.Prelude.{◌≡◌, ◌∷◌, [], drop, IfOk, IfSome, OnOk, OnErr};
ghost use Rattle.left_right.specs.Sides.{view};
ghost use mathlib.Core.List.{IsPrefix};
ghost use Rattle.watch_board.specs.BoardList.{initial_item};
ghost use Rattle.watch_board.specs.Views.{KnowsOneBoard, HasOnePendingItem};

use crate::last_items::LastItem;
use crate::prefixes::Prefix;
use crate::same_board::{ReadItem, SameBoard, Show};
use crate::shown::Shown;
use left_right::reader::Reader;
use left_right::writer::Writer;
use plc_base::NoMemory;
use std::alloc::{AllocError, Global};
use std::collections::LinkedList;
use std::sync::Wait;

/// The writer of the copies: the publisher has it.
pub type BoardWriter = Writer<LastItem, LastItem, LinkedList<Prefix>, SameBoard>;

/// The reader of the copies: the viewer has it.
pub type BoardReader = Reader<LastItem, LinkedList<Prefix>, SameBoard>;

/// Copies that show the opening item, whose writer knows the board. No reader is there yet, so it
/// waits for nobody.
pub fn opening_copies<R: Wait>(
    rt: &R,
    alloc: Global,
    prefix: &Prefix,
) -> Result<BoardWriter, NoMemory>
    requires { prefix.now.list ≡ initial_item ∷ [] }
    ensures clear { IfOk result (λ c. drop c.behind c.log.items ≡ []) }
    ensures board { IfOk result (λ c. c.desk.shown.value.prefix.board ≡ prefix.now.board) }
    ensures knows { IfOk result (λ c. view c.desk.place ≡ c.desk.shown.value.prefix ∷ []) }
{
    let item = LastItem::new(Shown::opening(), prefix.copied());
    let copies = Writer::new(alloc, item.copied(), item.copied(), 1)?;
    // shown twice, as each copy takes an item in after the other: the room for both is there from
    // now on
    let copies = show_first(rt, copies, item.copied())?;
    show_first(rt, copies, item)
}

// Shows an item of the board. Want of memory ends the copies.
fn show_first<R: Wait>(
    rt: &R,
    mut copies: BoardWriter,
    item: LastItem,
) -> Result<BoardWriter, NoMemory>
    requires clear { drop copies.behind copies.log.items ≡ [] }
    requires board { item.prefix.board ≡ copies.desk.shown.value.prefix.board }
    ensures clear { IfOk result (λ c. drop c.behind c.log.items ≡ []) }
    ensures board { IfOk result (λ c. c.desk.shown.value.prefix.board
        ≡ copies.desk.shown.value.prefix.board) }
    ensures knows { IfOk result (λ c. view c.desk.place ≡ c.desk.shown.value.prefix ∷ []) }
{
    match append(&mut copies, item) {
        Ok(()) => Ok(show(copies, rt)),
        Err(fault) => {
            drop(copies.take(rt));
            Err(fault)
        }
    }
}

/// Notes what is to be shown next.
pub fn append(copies: &mut BoardWriter, item: LastItem) -> Result<(), NoMemory>
    requires { drop copies.old.behind copies.old.log.items ≡ [] }
    ensures ok { OnOk result
        (HasOnePendingItem item.prefix.board (drop copies.new.behind copies.new.log.items)) }
    ensures err { OnErr result (drop copies.new.behind copies.new.log.items ≡ []) }
    ensures same { copies.new.desk ≡ copies.old.desk }
{
    match copies.append(item) {
        Ok(()) => Ok(()),
        Err(_) => Err(AllocError),
    }
}

/// Shows the one item that was noted. It waits for a reader that still reads the other copy.
#[tactic(auto, using(crate::proofs::ViewLemmas::last_shown))]
pub fn show<R: Wait>(copies: BoardWriter, rt: &R) -> BoardWriter
    requires { HasOnePendingItem copies.desk.shown.value.prefix.board
        (drop copies.behind copies.log.items) }
    ensures clear { drop result.behind result.log.items ≡ [] }
    ensures board { result.desk.shown.value.prefix.board ≡ copies.desk.shown.value.prefix.board }
    ensures knows { view result.desk.place ≡ result.desk.shown.value.prefix ∷ [] }
{
    let (copies, shown) = copies.publish_as::<Show, R>(rt);
    prove!(shown.is_ok());
    copies
}

/// Takes in the item that the copies show. None, with the reader let go, where there is no writer
/// any more.
pub fn read(reader: BoardReader, last: &mut LastItem) -> Option<BoardReader>
    requires { KnowsOneBoard last.old.prefix.board (view reader.place) }
    ensures board { last.new.prefix.board ≡ last.old.prefix.board }
    ensures seen { IsPrefix last.old.prefix.list last.new.prefix.list }
    ensures knows { IfSome result (λ r. KnowsOneBoard last.new.prefix.board (view r.place)) }
{
    match reader.enter_as::<ReadItem>() {
        Ok(reading) => {
            last.take_in(reading.get());
            Some(reading.leave())
        }
        Err(_) => None,
    }
}
