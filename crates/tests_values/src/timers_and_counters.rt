use crate::compare::same;
use plc_base::Profile;
use std::process::Abort;
use timers_counters::TimerFault::{BadBcd, NoNumber};
use timers_counters::TimerKind::{Sd, Se, Sf, Sp, Ss};
use timers_counters::{Counters, TimerFault, TimerKind, Timers};

/// What happens to a timer.
#[derive(Clone, Copy, Debug)]
enum Event {
    Start(TimerKind, bool, u16),
    Pass(u32),
    Reset(bool),
    Free(bool),
}

use Event::{Free, Pass, Reset, Start};

impl Event {
    fn happen(self, timers: &mut Timers, number: u16) -> Result<(), TimerFault> {
        match self {
            Start(kind, rlo, value) => timers.start(number, kind, rlo, value),
            Pass(ms) => {
                timers.pass_ms(ms);
                Ok(())
            }
            Reset(rlo) => timers.reset(number, rlo),
            Free(rlo) => timers.free(number, rlo),
        }
    }
}

// 16#0005 is S5T#50MS, 5 units of 10 ms; 16#1002 is S5T#200MS, 2 units of 100 ms. Each row has the
// event, and then the output and the units left, rounded up. Each list has a timer of its own, and
// its last one ends: a list begins where the timers before it stand still.
static STORIES: [&[(Event, bool, u16)]; 9] = [
    // pulse: RLO 0 ends it, with the time left kept
    &[
        (Start(Sp, true, 0x0005), true, 5),
        (Pass(10), true, 4),
        (Start(Sp, false, 0x0005), false, 4),
        (Pass(1_000), false, 4),
        (Start(Sp, true, 0x1002), true, 2),
        (Start(Sp, true, 0x0005), true, 2),
        (Pass(199), true, 1),
        (Pass(1), false, 0),
    ],
    // extended pulse: RLO 0 does nothing, the next rising RLO starts it again
    &[
        (Start(Se, true, 0x0005), true, 5),
        (Start(Se, false, 0x0005), true, 5),
        (Pass(49), true, 1),
        (Start(Se, true, 0x0005), true, 5),
        (Pass(4_000_000_000), false, 0),
    ],
    // on-delay
    &[
        (Start(Sd, true, 0x0005), false, 5),
        (Pass(49), false, 1),
        (Pass(1), true, 0),
        (Start(Sd, true, 0x0005), true, 0),
        (Start(Sd, false, 0x0005), false, 0),
        (Start(Sd, true, 0x0005), false, 5),
        (Pass(20), false, 3),
        (Start(Sd, false, 0x0005), false, 3),
        (Pass(100), false, 3),
    ],
    // retentive on-delay: only R clears the output
    &[
        (Start(Ss, true, 0x0005), false, 5),
        (Start(Ss, false, 0x0005), false, 5),
        (Pass(50), true, 0),
        (Start(Ss, true, 0x0005), true, 5),
        (Pass(60), true, 0),
        (Start(Ss, false, 0x0005), true, 0),
        (Reset(false), true, 0),
        (Reset(true), false, 0),
    ],
    // off-delay: the falling RLO starts it
    &[
        (Start(Sf, false, 0x0005), false, 0),
        (Start(Sf, true, 0x0005), true, 0),
        (Pass(100), true, 0),
        (Start(Sf, false, 0x0005), true, 5),
        (Pass(49), true, 1),
        (Start(Sf, true, 0x0005), true, 1),
        (Pass(100), true, 1),
        (Start(Sf, false, 0x0005), true, 5),
        (Pass(50), false, 0),
    ],
    // a time of 0 ends at once
    &[
        (Start(Sd, true, 0x0000), true, 0),
        (Start(Sd, false, 0x0000), false, 0),
        (Start(Sp, true, 0x3000), false, 0),
    ],
    // FR on its rising RLO lets the start instruction start again
    &[
        (Start(Se, true, 0x0005), true, 5),
        (Pass(20), true, 3),
        (Free(true), true, 3),
        (Start(Se, true, 0x0005), true, 5),
        (Pass(20), true, 3),
        (Free(true), true, 3),
        (Start(Se, true, 0x0005), true, 3),
        (Free(false), true, 3),
        (Free(true), true, 3),
        (Start(Se, true, 0x0005), true, 5),
        (Pass(50), false, 0),
    ],
    // R keeps the start edge
    &[
        (Start(Se, true, 0x0005), true, 5),
        (Reset(true), false, 0),
        (Start(Se, true, 0x0005), false, 0),
    ],
    // a digit above 9 counts only where it is read
    &[
        (Start(Se, false, 0x00A0), false, 0),
        (Start(Se, true, 0x0005), true, 5),
        (Start(Se, true, 0x00A0), true, 5),
        (Pass(50), false, 0),
    ],
];

/// What happens to a timer, one after the other.
fn follow_story(rt: &impl Abort, timers: &mut Timers, number: u16, story: &[(Event, bool, u16)]) {
    for (event, output, value) in story {
        let answer = event.happen(timers, number);
        let got = (answer, timers.output(number), timers.value(number));
        let want = (Ok(()), Ok(*output), Ok(*value));
        same(rt, (number, *event), got, want);
    }
}

#[test]
fn stories_of_timers(rt: HostRuntime) {
    let mut timers = Timers::new(Profile::Small);
    let mut number = 0;
    for story in &STORIES {
        follow_story(&rt, &mut timers, number, story);
        number = if number < 126 { number + 1 } else { 0 };
    }
}

// The last timer of a profile, and that there is none behind it.
#[test]
fn the_last_timer(rt: HostRuntime) {
    for (profile, last) in [(Profile::Small, 127_u16), (Profile::Large, 255)] {
        let mut timers = Timers::new(profile);
        let started = timers.start(last, Sp, true, 0x000A);
        same(&rt, "SP by a digit 10", started, Err(BadBcd));
        same(&rt, "not started", timers.output(last), Ok(false));
        same(&rt, "SP", timers.start(last, Sp, true, 0x1123), Ok(()));
        same(&rt, "LC", timers.bcd(last), Ok(0x1123));
        timers.pass_ms(101);
        same(&rt, "LC after 101 ms", timers.bcd(last), Ok(0x1122));
        no_timer(&rt, &mut timers, last.wrapping_add(1));
    }
}

fn no_timer(rt: &impl Abort, timers: &mut Timers, number: u16) {
    let started = timers.start(number, Sp, true, 0x000A);
    same(rt, ("SP T", number), started, Err(NoNumber));
    same(rt, "R T", timers.reset(number, true), Err(NoNumber));
    same(rt, "FR T", timers.free(number, true), Err(NoNumber));
    same(rt, "A T", timers.output(number), Err(NoNumber));
    same(rt, "L T", timers.value(number), Err(NoNumber));
    same(rt, "LC T", timers.bcd(number), Err(NoNumber));
}

/// An instruction on a counter.
#[derive(Clone, Copy, Debug)]
enum Count {
    Up(bool),
    Down(bool),
    Set(bool, u16),
    Clear(bool),
    Release(bool),
}

use Count::{Clear, Down, Release, Set, Up};

impl Count {
    fn happen(self, counters: &mut Counters, number: u16) -> Result<(), TimerFault> {
        match self {
            Up(rlo) => counters.up(number, rlo),
            Down(rlo) => counters.down(number, rlo),
            Set(rlo, value) => counters.set(number, rlo, value),
            Clear(rlo) => counters.reset(number, rlo),
            Release(rlo) => counters.free(number, rlo),
        }
    }
}

// Each row has the instruction, its answer, and then the value.
static COUNTS: [(Count, Result<(), TimerFault>, u16); 23] = [
    (Down(true), Ok(()), 0),
    (Up(true), Ok(()), 1),
    (Up(true), Ok(()), 1),
    (Up(false), Ok(()), 1),
    (Up(true), Ok(()), 2),
    (Down(true), Ok(()), 2),
    (Down(false), Ok(()), 2),
    (Down(true), Ok(()), 1),
    (Set(true, 0xF998), Ok(()), 998),
    (Set(true, 0x0005), Ok(()), 998),
    (Up(false), Ok(()), 998),
    (Up(true), Ok(()), 999),
    (Up(false), Ok(()), 999),
    (Up(true), Ok(()), 999),
    // FR on its rising RLO clears the edges of CU, CD and S
    (Release(true), Ok(()), 999),
    (Set(true, 0x0345), Ok(()), 345),
    (Release(true), Ok(()), 345),
    (Set(true, 0x0111), Ok(()), 345),
    // a digit above 9 counts only where it is read
    (Set(false, 0x00A0), Ok(()), 345),
    (Set(true, 0x00A0), Err(BadBcd), 345),
    (Set(true, 0x0012), Ok(()), 12),
    (Clear(false), Ok(()), 12),
    (Clear(true), Ok(()), 0),
];

// The last counter of a profile, and that there is none behind it.
#[test]
fn counters(rt: HostRuntime) {
    for (profile, last) in [(Profile::Small, 63_u16), (Profile::Large, 255)] {
        let mut counters = Counters::new(profile);
        for (count, answer, value) in &COUNTS {
            let done = count.happen(&mut counters, last);
            let got = (done, counters.value(last), counters.output(last));
            same(&rt, *count, got, (*answer, Ok(*value), Ok(*value > 0)));
        }
        same(&rt, "S C 0", counters.set(0, true, 0x0345), Ok(()));
        same(&rt, "LC C 0", counters.bcd(0), Ok(0x0345));
        no_counter(&rt, &mut counters, last.wrapping_add(1));
    }
}

fn no_counter(rt: &impl Abort, counters: &mut Counters, number: u16) {
    same(
        rt,
        ("CU C", number),
        counters.up(number, true),
        Err(NoNumber),
    );
    same(rt, "CD C", counters.down(number, true), Err(NoNumber));
    same(rt, "S C", counters.set(number, true, 0x00A0), Err(NoNumber));
    same(rt, "R C", counters.reset(number, true), Err(NoNumber));
    same(rt, "FR C", counters.free(number, true), Err(NoNumber));
    same(rt, "A C", counters.output(number), Err(NoNumber));
    same(rt, "L C", counters.value(number), Err(NoNumber));
    same(rt, "LC C", counters.bcd(number), Err(NoNumber));
}

// A warm restart leaves C 0 to C 7 with their edges, and no other counter.
#[test]
fn restarts(rt: HostRuntime) {
    for (profile, last) in [(Profile::Small, 63_u16), (Profile::Large, 255)] {
        let mut counters = Counters::new(profile);
        for number in [0, 7, 8, last] {
            same(&rt, number, counters.set(number, true, 0x0345), Ok(()));
        }
        counters.clear_unretained();
        for (number, left) in [(0, 345), (7, 345), (8, 0), (last, 0)] {
            same(&rt, number, counters.value(number), Ok(left));
            // set again: an edge that stayed keeps it from being so
            same(&rt, number, counters.set(number, true, 0x0012), Ok(()));
            let value = if left == 0 { 12 } else { left };
            same(&rt, number, counters.value(number), Ok(value));
        }
        no_counter(&rt, &mut counters, last.wrapping_add(1));
    }
}
