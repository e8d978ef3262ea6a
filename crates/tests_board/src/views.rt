//! One thread that publishes and views by turns.
ghost use Rattle.std.specs.Prelude.{◌≡◌, ◌<◌, ◌∷◌, [], Some, IfSome};
ghost use Rattle.watch_board.specs.BoardList.{last_item_of, initial_item};

use crate::compare::same;
use crate::items::{one_value, publish_and_tell};
use monitor::{DiagRecord, DiagRing};
use plc_base::NoMemory;
use std::alloc::Global;
use std::process::Abort;
use std::sync::Wait;
use std::test::Fail;
use var_access::{Numbers, Reply};
use watch_board::{Board, Publisher, Shown, Viewer};

/// The item that a board begins with.
fn opening_item() -> Shown {
    Shown {
        length: 0,
        reply: None,
    }
}

#[test]
fn a_board_begins_with_the_opening_item(rt: HostRuntime) -> Result<(), Fail> {
    let (publisher, mut viewer) = Board::new(&rt, rt.alloc())?;
    same(&rt, "first view", viewer.view(), opening_item());
    same(&rt, "second view", viewer.view(), opening_item());
    publisher.close(&rt, viewer);
    Ok(())
}

/// What was published last is seen, before its note is handed over and after.
fn publish_and_view<R: Wait + Abort>(
    rt: &R,
    publisher: &mut Publisher,
    viewer: &mut Viewer,
) -> Result<(), NoMemory>
    requires list { publisher.old.list ≡ initial_item ∷ [] }
    requires board { viewer.old.board ≡ publisher.old.board }
    ensures publisher { publisher.new.board ≡ publisher.old.board }
    ensures viewer { viewer.new.board ≡ viewer.old.board }
{
    let note = publisher.publish(rt, one_value(2, 170))?;
    same(rt, "without the note", viewer.view(), one_value(2, 170));
    viewer.learn(note);
    same(rt, "with the note", viewer.view(), one_value(2, 170));
    Ok(())
}

#[test]
fn what_was_published_is_viewed(rt: HostRuntime) -> Result<(), Fail> {
    let (mut publisher, mut viewer) = Board::new(&rt, rt.alloc())?;
    let published = publish_and_view(&rt, &mut publisher, &mut viewer);
    publisher.close(&rt, viewer);
    published?;
    Ok(())
}

/// A viewer that always shows the opening item fails here.
fn tell_and_view<R: Wait + Abort>(
    rt: &R,
    publisher: &mut Publisher,
    viewer: &mut Viewer,
) -> Result<(), NoMemory>
    requires list { publisher.old.list ≡ initial_item ∷ [] }
    requires board { viewer.old.board ≡ publisher.old.board }
    ensures publisher { publisher.new.board ≡ publisher.old.board }
    ensures viewer { viewer.new.board ≡ viewer.old.board }
{
    same(rt, "nothing learned", viewer.view(), opening_item());
    publish_and_tell(rt, publisher, viewer, one_value(1, 1))?;
    same(rt, "a note of 1", viewer.view().length >= 1, true);
    // two notes, and no view between
    publish_and_tell(rt, publisher, viewer, one_value(7, 2))?;
    publish_and_tell(rt, publisher, viewer, one_value(u64::MAX, 3))?;
    same(rt, "a note of all", viewer.view(), one_value(u64::MAX, 3));
    Ok(())
}

#[test]
fn a_view_is_as_new_as_its_notes(rt: HostRuntime) -> Result<(), Fail> {
    let (mut publisher, mut viewer) = Board::new(&rt, rt.alloc())?;
    let outcome = tell_and_view(&rt, &mut publisher, &mut viewer);
    publisher.close(&rt, viewer);
    outcome?;
    Ok(())
}

/// A note of an older item changes nothing.
fn tell_late<R: Wait + Abort>(
    rt: &R,
    publisher: &mut Publisher,
    viewer: &mut Viewer,
) -> Result<(), NoMemory>
    requires list { publisher.old.list ≡ initial_item ∷ [] }
    requires board { viewer.old.board ≡ publisher.old.board }
    ensures publisher { publisher.new.board ≡ publisher.old.board }
    ensures viewer { viewer.new.board ≡ viewer.old.board }
{
    let old = publisher.publish(rt, one_value(3, 30))?;
    let new = publisher.publish(rt, one_value(4, 40))?;
    viewer.learn(new);
    viewer.learn(old);
    same(rt, "the older note last", viewer.view(), one_value(4, 40));
    Ok(())
}

#[test]
fn an_older_note_changes_nothing(rt: HostRuntime) -> Result<(), Fail> {
    let (mut publisher, mut viewer) = Board::new(&rt, rt.alloc())?;
    let outcome = tell_late(&rt, &mut publisher, &mut viewer);
    publisher.close(&rt, viewer);
    outcome?;
    Ok(())
}

/// The reply to a read of eight variables.
fn eight_values() -> Reply {
    let mut values = Numbers::new();
    for value in 0..8 {
        values.push(value);
    }
    Reply::Values { values }
}

/// The reply to a request of diagnostics, of so many records.
fn records(alloc: Global, count: u64) -> Result<Reply, NoMemory> {
    let mut ring = DiagRing::new(alloc)?;
    for entry in 0..count {
        ring.push(DiagRecord {
            entry,
            code: 1,
            info: 35,
        });
    }
    Ok(Reply::Diag { list: ring.list() })
}

/// A reply of this kind, made anew at each call.
fn reply_of_kind(alloc: Global, kind: u64) -> Result<Reply, NoMemory> {
    match kind {
        1 => Ok(eight_values()),
        2 => Ok(Reply::Done),
        3 => Ok(Reply::NoSuch { index: 8 }),
        4 => Ok(Reply::NotStopped),
        5 => records(alloc, 0),
        _ => records(alloc, 100),
    }
}

/// Each kind of reply is viewed as it was published.
fn view_each_kind<R: Wait + Abort>(
    rt: &R,
    alloc: Global,
    publisher: &mut Publisher,
    viewer: &mut Viewer,
) -> Result<(), NoMemory>
    requires list { publisher.old.list ≡ initial_item ∷ [] }
    requires board { viewer.old.board ≡ publisher.old.board }
    ensures publisher { publisher.new.board ≡ publisher.old.board }
    ensures viewer { viewer.new.board ≡ viewer.old.board }
{
    for kind in 1..7 {
        let shown = Shown {
            length: kind,
            reply: Some(reply_of_kind(alloc, kind)?),
        };
        publish_and_tell(rt, publisher, viewer, shown)?;
        let want = Shown {
            length: kind,
            reply: Some(reply_of_kind(alloc, kind)?),
        };
        same(rt, kind, viewer.view(), want);
    }
    Ok(())
}

#[test]
fn every_kind_of_reply_is_viewed(rt: HostRuntime) -> Result<(), Fail> {
    let (mut publisher, mut viewer) = Board::new(&rt, rt.alloc())?;
    let viewed = view_each_kind(&rt, rt.alloc(), &mut publisher, &mut viewer);
    publisher.close(&rt, viewer);
    viewed?;
    Ok(())
}

#[test]
fn a_board_ends_before_it_was_viewed(rt: HostRuntime) -> Result<(), Fail> {
    let (mut publisher, viewer) = Board::new(&rt, rt.alloc())?;
    let published = publisher.publish(&rt, one_value(1, 1));
    publisher.close(&rt, viewer);
    published?;
    Ok(())
}
