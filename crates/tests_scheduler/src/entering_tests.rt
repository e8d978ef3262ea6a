//! A block that is entered once more and left, an activation that begins anew, and what is copied.
use crate::compare::same;
use crate::function_tools::{cycle, frame};
use frames::{Activation, Binding, Bindings, Frame, Locals, Relay};
use plc_base::{BlockId, BlockKind, Profile, Width};
use status_word::{Check, Regs};
use std::process::Abort;

// The number of the block of a frame and how many local bytes it has, by its place in the list.
fn frame_at(a: &Activation, place: u8) -> Option<(u16, u16)> {
    a.frame(place).map(|f| (f.block.number, f.local_len))
}

#[test]
fn a_block_is_entered_once_more(rt: HostRuntime) {
    let mut a = cycle();
    same(&rt, "byte 19 set", a.set_local(0, 19, 5).is_ok(), true);
    assert!(rt; a.running.locals.depth() == a.depth());
    assert!(rt; a.refuses(4).is_none());
    a.enter_again(4);
    let frames = (frame_at(&a, 0), frame_at(&a, 1), frame_at(&a, 2));
    same(&rt, "frames", frames, (Some((1, 20)), Some((1, 4)), None));
    let bytes = (a.local(0, 19), a.local(1, 3), a.local(1, 4));
    same(&rt, "bytes", bytes, (Some(5), Some(0), None));
    // the caller goes on, and behind the outermost block none does
    for (goes_on, depth, byte) in [(true, 1, Some(5)), (false, 0, None)] {
        assert!(rt; !a.ended);
        same(&rt, depth, a.exit_block(), goes_on);
        same(&rt, "exited", (a.depth(), a.local(0, 19)), (depth, byte));
    }
}

#[test]
fn an_activation_begins_anew(rt: HostRuntime) {
    let mut a = cycle();
    a.running.regs.a1 = 7;
    a.set_delay(3);
    let block = BlockId {
        kind: BlockKind::Ob,
        number: 40,
    };
    a.restart(16, 40, block, 22, Profile::Large);
    let head = (a.class(), a.ob(), a.delay(), a.depth());
    same(&rt, "OB 40", head, (16, 40, 0, 1));
    same(&rt, "profile", a.profile, Profile::Large);
    same(&rt, "registers", *a.regs(), Regs::new());
    same(&rt, "frame", frame_at(&a, 0), Some((40, 22)));
    let bytes = (a.local(0, 21), a.local(0, 22));
    same(&rt, "bytes", bytes, (Some(0), None));
}

// What a frame has: its brackets and its bindings by their count.
fn has(
    rt: &impl Abort,
    f: &Frame,
    head: (BlockId, u32, u16),
    data: [Option<u16>; 3],
    counts: (usize, usize),
) {
    same(rt, "head", (f.block, f.at, f.local_len), head);
    same(rt, "data blocks", [f.db, f.di, f.instance], data);
    let found = (f.brackets.len(), f.bindings.len());
    same(rt, "brackets and bindings", found, counts);
}

#[test]
fn a_frame_is_copied_and_begins_anew(rt: HostRuntime) {
    let value = Binding::Constant { value: 5 };
    let mut bindings = Bindings::new();
    bindings.push(value);
    let mut first = frame(BlockKind::Fb, 7, 12);
    first.at = 20;
    first.db = Some(10);
    first.di = Some(11);
    first.instance = Some(12);
    first.bindings = bindings;
    first.relay.active = true;
    same(&rt, "a zone", first.relay.open(false), true);
    let begun = first.brackets.begin(&mut Regs::new(), Check::A);
    same(&rt, "a bracket", begun, true);
    let mut second = frame(BlockKind::Ob, 1, 20);
    let (fb, ob) = (first.block, second.block);
    second.copy_from(&first);
    first.begin(ob, 30);
    has(&rt, &first, (ob, 0, 30), [None, None, None], (0, 0));
    let data = [Some(10), Some(11), Some(12)];
    has(&rt, &second, (fb, 20, 12), data, (1, 1));
    let closed = (first.relay.is_zone_closed(), second.relay.is_zone_closed());
    same(&rt, "relays", closed, (false, true));
    let zones = (first.relay.zones.len(), second.relay.zones.len());
    same(&rt, "zones", zones, (0, 1));
    same(&rt, "bound", second.bindings.get(0), Some(value));
}

// The value of a zone is RLO and the value of the zone around it.
#[test]
fn zones_of_a_relay(rt: HostRuntime) {
    let mut relay = Relay::off();
    same(&rt, "no zone", relay.is_zone_closed(), false);
    relay.active = true;
    for (rlo, closed) in [(true, false), (false, true), (true, true)] {
        let opened = (relay.open(rlo), relay.is_zone_closed());
        same(&rt, rlo, opened, (true, closed));
    }
    let mut copy = relay.copied();
    copy.active = false;
    same(&rt, "an inactive one", copy.is_zone_closed(), false);
    for (ended, closed) in [(true, true), (true, false), (true, false), (false, false)] {
        same(&rt, "a zone ends", relay.end(), ended);
        same(&rt, "what is left", relay.is_zone_closed(), closed);
    }
    let zones = (relay.zones.len(), copy.zones.len());
    same(&rt, "zones", zones, (0, 3));
}

#[test]
fn eight_zones_are_open_at_most(rt: HostRuntime) {
    let mut relay = Relay::off();
    for zones in 1..9 {
        let opened = (relay.open(true), relay.zones.len());
        same(&rt, "a zone", opened, (true, zones));
    }
    let opened = (relay.open(true), relay.zones.len());
    same(&rt, "a ninth zone", opened, (false, 8));
}

#[test]
fn bindings_are_set_and_copied(rt: HostRuntime) {
    let value = Some(Binding::Constant { value: 6 });
    let mut first = Bindings::new();
    first.push(Binding::Unsupplied);
    first.set(0, Binding::Constant { value: 6 });
    // there is no second one
    first.set(1, Binding::Unsupplied);
    let mut second = Bindings::new();
    second.copy_from(&first);
    let third = first.copied();
    first.clear();
    same(&rt, "the first", (first.len(), first.get(0)), (0, None));
    same(&rt, "the second", (second.len(), second.get(0)), (1, value));
    same(&rt, "the third", (third.len(), third.get(0)), (1, value));
}

// A frame of four bytes below one of two. 16#34 is 2#0011_0100.
#[test]
fn local_bytes_of_two_frames(rt: HostRuntime) {
    let mut locals = Locals::new();
    locals.open(4);
    locals.open(2);
    let within = locals.put(0, 1, 0, Width::Word, 0x1234).is_ok();
    let beyond = locals.put(0, 3, 0, Width::Word, 0).is_ok();
    same(&rt, "LW 1 and LW 3", (within, beyond), (true, false));
    for (byte, bit, width, number) in [
        (0, 0, Width::Dword, Some(0x0012_3400)),
        (2, 5, Width::Bit, Some(1)),
        (2, 3, Width::Bit, Some(0)),
        (3, 0, Width::Word, None),
    ] {
        let found = locals.number(0, byte, bit, width);
        same(&rt, (byte, bit), found, number);
    }
    same(&rt, "of two", locals.byte(1, 1), Some(0));
    locals.close();
    same(&rt, "closed", locals.byte(1, 1), None);
    same(&rt, "still open", locals.byte(0, 1), Some(0x12));
}
