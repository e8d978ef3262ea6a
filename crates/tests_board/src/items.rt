//! Items, and what the tests do with a board.
ghost use Rattle.std.specs.Prelude.{◌≡◌, ◌<◌, Some, IfSome, OnOk};
ghost use Rattle.watch_board.specs.BoardList.{last_item_of};

use plc_base::NoMemory;
use std::sync::Wait;
use var_access::{Numbers, Reply};
use watch_board::{Publisher, Shown, Viewer};

/// An item with the reply to a read of one variable.
pub(crate) fn one_value(length: u64, value: u32) -> Shown
    ensures { result.length ≡ length }
{
    let mut values = Numbers::new();
    values.push(value);
    Shown {
        length,
        reply: Some(Reply::Values { values }),
    }
}

/// Publishes an item, and hands its note over to the viewer.
pub(crate) fn publish_and_tell<R: Wait>(
    rt: &R,
    publisher: &mut Publisher,
    viewer: &mut Viewer,
    shown: Shown,
) -> Result<(), NoMemory>
    requires rises { IfSome (last_item_of publisher.old.list)
        (λ last. last.length < shown.length) }
    requires board { viewer.old.board ≡ publisher.old.board }
    ensures publisher { publisher.new.board ≡ publisher.old.board }
    ensures viewer { viewer.new.board ≡ viewer.old.board }
    ensures last { OnOk result (last_item_of publisher.new.list ≡ Some shown) }
{
    let note = publisher.publish(rt, shown)?;
    viewer.learn(note);
    Ok(())
}
