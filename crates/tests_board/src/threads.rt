//! One thread that publishes beside one that views.
ghost use Rattle.std.specs.Prelude.{◌≡◌, ◌∷◌, []};
ghost use Rattle.watch_board.specs.BoardList.{initial_item};

use crate::compare::same;
use crate::items::one_value;
use plc_base::NoMemory;
use std::sync::Wait;
use std::test::Fail;
use std::thread::{Threads, join_mut};
use watch_board::{Board, Note, Publisher, Shown, Viewer};

const PUBLISHED: u32 = 10_000;

const VIEWED: u32 = 10_000;

/// Publishes items of the lengths 1, 2, 3 and so on, each with its length as a value. The last one's note.
fn publish_all<R: Wait>(rt: &R, publisher: &mut Publisher) -> Result<Option<Note>, NoMemory>
    requires { publisher.old.list ≡ initial_item ∷ [] }
    ensures { publisher.new.board ≡ publisher.old.board }
{
    let mut last = None;
    for length in 1..=PUBLISHED {
        last = Some(publisher.publish(rt, one_value(u64::from(length), length))?);
    }
    Ok(last)
}

/// Whether it is the opening item, or one that `publish_all` makes.
fn is_published(shown: &Shown) -> bool {
    match u32::try_from(shown.length) {
        Ok(0) => shown.reply.is_none(),
        Ok(length) => *shown == one_value(u64::from(length), length),
        Err(_) => false,
    }
}

/// Whether each view was whole, and none older than the one before.
fn view_all(viewer: &mut Viewer) -> bool
    ensures { viewer.new.board ≡ viewer.old.board }
{
    let mut length = 0;
    for _ in 0..VIEWED {
        let shown = viewer.view();
        if !is_published(&shown) || shown.length < length {
            return false;
        }
        length = shown.length;
    }
    true
}

/// Both beside each other: the last note, and whether the views were right.
fn publish_beside_views<R: Threads + Wait + Sync>(
    rt: &R,
    publisher: &mut Publisher,
    viewer: &mut Viewer,
) -> (Result<Option<Note>, NoMemory>, bool)
    requires { publisher.old.list ≡ initial_item ∷ [] }
    ensures publisher { publisher.new.board ≡ publisher.old.board }
    ensures viewer { viewer.new.board ≡ viewer.old.board }
{
    join_mut(
        rt,
        &mut || -> Result<Option<Note>, NoMemory>
            requires { publisher.now.list ≡ initial_item ∷ [] }
            ensures { publisher.exit.now.board ≡ publisher.entry.now.board }
        { publish_all(rt, publisher) },
        &mut || -> bool
            ensures { viewer.exit.now.board ≡ viewer.entry.now.board }
        { view_all(viewer) },
    )
}

#[test]
fn each_view_is_whole_and_none_goes_back(rt: HostRuntime) -> Result<(), Fail> {
    let (mut publisher, mut viewer) = Board::new(&rt, rt.alloc())?;
    let (published, viewed) = publish_beside_views(&rt, &mut publisher, &mut viewer);
    let last = viewer.view();
    publisher.close(&rt, viewer);
    published?;
    same(&rt, "views", viewed, true);
    same(
        &rt,
        "the last one",
        last,
        one_value(u64::from(PUBLISHED), PUBLISHED),
    );
    Ok(())
}
