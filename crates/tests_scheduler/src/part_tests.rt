//! Local bytes, bindings, registers and a frame by themselves.
use crate::compare::same;
use crate::function_tools::cycle;
use frames::{Binding, Bindings, Frame, Locals};
use status_word::Regs;
use std::test::Fail;

#[test]
fn local_bytes_are_set_and_cleared(rt: HostRuntime) -> Result<(), Fail> {
    let mut locals = Locals::new();
    locals.open(1000);
    same(&rt, "room for 24", locals.has_room(24), true);
    same(&rt, "room for 25", locals.has_room(25), false);
    // a frame, a byte, and whether the frame has the byte
    for (frame, byte, is_there) in [(0, 999, true), (0, 1000, false), (1, 0, false)] {
        let set = locals.set_byte(frame, byte, 7).is_ok();
        same(&rt, (frame, byte), set, is_there);
    }
    same(&rt, "byte 998", locals.byte(0, 998), Some(0));
    same(&rt, "byte 999", locals.byte(0, 999), Some(7));
    locals.clear();
    same(&rt, "frames when cleared", locals.depth(), 0);
    same(&rt, "byte 0 when cleared", locals.byte(0, 0), None);
    same(&rt, "room for 1,024", locals.has_room(1024), true);
    same(&rt, "room for 1,025", locals.has_room(1025), false);
    Ok(())
}

#[test]
fn bindings_are_cleared(rt: HostRuntime) -> Result<(), Fail> {
    let mut bindings = Bindings::new();
    let constant = Binding::Constant { value: 7 };
    bindings.push(constant);
    same(&rt, "one bound", bindings.len(), 1);
    same(&rt, "what it is bound to", bindings.get(0), Some(constant));
    bindings.clear();
    same(&rt, "none bound", bindings.len(), 0);
    same(&rt, "the first one when cleared", bindings.get(0), None);
    // the next one is the first one again
    bindings.push(Binding::Unsupplied);
    same(&rt, "one bound again", bindings.len(), 1);
    same(
        &rt,
        "the new one",
        bindings.get(0),
        Some(Binding::Unsupplied),
    );
    Ok(())
}

#[test]
fn registers_and_the_frame_are_set(rt: HostRuntime) -> Result<(), Fail> {
    let mut a = cycle();
    same(&rt, "byte 19 set", a.set_local(0, 19, 7).is_ok(), true);
    let mut frame = Frame::default();
    frame.copy_from(&a.running.frame);
    frame.at = 12;
    frame.db = Some(10);
    assert!(rt; !a.ended);
    a.set_frame(frame);
    let mut regs = Regs::new();
    regs.a1 = 5;
    regs.ar2 = 0x50;
    a.set_regs(regs);
    same(&rt, "the registers", *a.regs(), regs);
    let at_and_db = a.frame(0).map(|f| (f.at, f.db));
    same(&rt, "the frame", at_and_db, Some((12, Some(10))));
    // the local bytes stay, and no frame has come
    same(&rt, "byte 19", a.local(0, 19), Some(7));
    same(&rt, "frames", a.depth(), 1);
    Ok(())
}
