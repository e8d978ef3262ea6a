//! An activation, and a scheduler.
ghost use Rattle.std.specs.Prelude.{◌≡◌, ◌≤◌};

use frames::{Activation, Frame};
use plc_base::{BlockId, BlockKind, Profile};

/// A frame of a block with so many local bytes, in which nothing is open.
pub fn frame(kind: BlockKind, number: u16, local_len: u16) -> Frame
    ensures local_len { result.local_len ≡ local_len }
    ensures block { result.block ≡ record { kind = kind; number = number } }
{
    let mut frame = Frame::default();
    frame.block = BlockId { kind, number };
    frame.local_len = local_len;
    frame
}

/// OB 1 as it begins.
pub fn cycle() -> Activation {
    Activation::new(1, 1, frame(BlockKind::Ob, 1, 20), Profile::Small)
}
