//! Blocks entered and left, and their local bytes.
use crate::compare::same;
use crate::function_tools::{cycle, frame};
use frames::{Activation, FrameFault};
use plc_base::{BlockKind, Profile};
use std::test::Fail;

#[test]
fn most_frames_stand(rt: HostRuntime) -> Result<(), Fail> {
    for (profile, most) in [(Profile::Small, 16_u16), (Profile::Large, 24)] {
        let mut a = Activation::new(1, 1, frame(BlockKind::Ob, 1, 0), profile);
        for number in 2..most.wrapping_add(1) {
            let entered = (a.refuses(0), enter(&mut a, number, 0));
            same(&rt, number, entered, (None, true));
        }
        same(&rt, "frames that stand", a.depth(), usize::from(most));
        same(&rt, "a further one", a.refuses(0), Some(FrameFault::Depth));
        same(&rt, "it isn't entered", enter(&mut a, 99, 0), false);
        same(&rt, "block of frame 0", number_at(&a, 0), Some(1));
        same(&rt, "block of frame 15", number_at(&a, 15), Some(16));
        same(&rt, "block of frame 24", number_at(&a, 24), None);
        // the innermost one is exited first, and the last one too
        for left in 0..most {
            same(&rt, "a block exited", exit(&mut a), Some(most - left));
        }
        same(&rt, "a block exited after the last one", exit(&mut a), None);
        same(&rt, "frames at the end", a.depth(), 0);
        same(&rt, "block of frame 0 at the end", number_at(&a, 0), None);
    }
    Ok(())
}

// The number of the block of a frame, by its place in the list.
fn number_at(a: &Activation, place: u8) -> Option<u16> {
    a.frame(place).map(|f| f.block.number)
}

// Exits the innermost block, and gives its number.
fn exit(a: &mut Activation) -> Option<u16> {
    a.exit().map(|f| f.block.number)
}

// Enters a function with so many local bytes, if it can be entered.
fn enter(a: &mut Activation, number: u16, local_len: u16) -> bool {
    if a.running.locals.depth() != a.depth() {
        return false;
    }
    a.enter(frame(BlockKind::Fc, number, local_len)).is_ok()
}

#[test]
fn local_bytes_have_room_for_1024(rt: HostRuntime) -> Result<(), Fail> {
    let mut a = cycle();
    let full = Some(FrameFault::LocalFull);
    same(&rt, "1,005 more", a.refuses(1005), full);
    same(&rt, "1,004 more", enter(&mut a, 2, 1004), true);
    same(&rt, "one beyond them", a.refuses(1), full);
    same(&rt, "none beyond them", a.refuses(0), None);
    // a frame, a byte, its value, and whether the frame has the byte
    for (frame, byte, value, is_there) in [
        (1, 1003, 7, true),
        (1, 1004, 7, false),
        (0, 19, 5, true),
        (0, 20, 5, false),
        (2, 0, 5, false),
    ] {
        let set = a.set_local(frame, byte, value).is_ok();
        same(&rt, (frame, byte), set, is_there);
    }
    same(
        &rt,
        "bytes that were set, and one that wasn't",
        (a.local(0, 19), a.local(1, 0), a.local(1, 1003)),
        (Some(5), Some(0), Some(7)),
    );
    // a block that is entered anew has local bytes of 0
    same(&rt, "the block exited", exit(&mut a), Some(2));
    same(&rt, "the next one entered", enter(&mut a, 3, 1004), true);
    same(
        &rt,
        "bytes of the next one",
        (a.local(0, 19), a.local(1, 1003), a.local(1, 1004)),
        (Some(5), Some(0), None),
    );
    Ok(())
}
