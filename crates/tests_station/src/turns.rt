//! One worker with several passes, each entry a turn.
ghost use Rattle.std.specs.Prelude.{◌≡◌, false};

use crate::bench::{
    MB3, closed, is_answered, one_value, only_mb3, still_open, with_three_passes, with_two_passes,
};
use crate::compare::same;
use plc_base::Mode;
use station::{Pass, Shared, Station};
use std::process::Abort;
use std::sync::Wait;
use std::test::Fail;
use var_access::{Entry, Reply, Request, What};

/// Both passes ask.
fn both_ask<R: Abort + Wait>(
    rt: &R,
    station: &Station,
    first: &mut Pass<Shared>,
    second: &mut Pass<Shared>,
)
    requires first { (first.old.lock ≡ station.now) × (first.old.out ≡ false) }
    requires second { (second.old.lock ≡ station.now) × (second.old.out ≡ false) }
    ensures first { (first.new.lock ≡ first.old.lock) × (first.new.out ≡ false) }
    ensures second { (second.new.lock ≡ second.old.lock) × (second.new.out ≡ false) }
{
    is_answered(
        rt,
        "the first asks",
        station,
        first,
        Request::MonitorOff,
        Ok(Reply::Done),
    );
    is_answered(
        rt,
        "the second asks",
        station,
        second,
        Request::Restart,
        Ok(Reply::NotStopped),
    );
    same(rt, "entries seen by the first", first.seen(), 1);
    same(rt, "entries seen by the second", second.seen(), 2);
}

/// The station is closed only with both numbers, and then has two entries.
fn close_with_both(rt: &impl Abort, station: Station, first: Pass<Shared>, second: Pass<Shared>)
    requires first { (first.lock ≡ station) × (first.out ≡ false) }
    requires second { (second.lock ≡ station) × (second.out ≡ false) }
{
    let (station, mut first) = still_open(rt, station, first);
    station.join(&mut first, second);
    let controller = closed(rt, station, first);
    same(rt, "entries", controller.history_len(), 2);
    let request = Request::Restart;
    let what = What::Ask { request };
    let last = Some(Entry { who: 2, what });
    same(rt, "the last entry", controller.entry(1), last);
}

#[test]
fn both_passes_ask_and_the_one_that_is_out_is_counted(rt: HostRuntime) -> Result<(), Fail> {
    let (station, mut first, mut second) = with_two_passes(rt.alloc())?;
    both_ask(&rt, &station, &mut first, &mut second);
    close_with_both(&rt, station, first, second);
    Ok(())
}

/// A byte that one pass wrote is read by both.
fn write_and_read<R: Abort + Wait>(
    rt: &R,
    station: &Station,
    second: &mut Pass<Shared>,
    third: &mut Pass<Shared>,
)
    requires second { (second.old.lock ≡ station.now) × (second.old.out ≡ false) }
    requires third { (third.old.lock ≡ station.now) × (third.old.out ≡ false) }
{
    let write = Request::WriteVar {
        var: MB3,
        value: 0xAA,
    };
    is_answered(rt, "a write", station, second, write, Ok(Reply::Done));
    let read = Request::ReadVars { vars: only_mb3() };
    is_answered(
        rt,
        "its own write",
        station,
        second,
        read,
        Ok(one_value(0xAA)),
    );
    let read = Request::ReadVars { vars: only_mb3() };
    is_answered(
        rt,
        "another's write",
        station,
        third,
        read,
        Ok(one_value(0xAA)),
    );
}

#[test]
fn a_pass_reads_what_it_wrote(rt: HostRuntime) -> Result<(), Fail> {
    let (station, mut second, mut third) = with_three_passes(rt.alloc())?;
    write_and_read(&rt, &station, &mut second, &mut third);
    Ok(())
}

/// The first pass steps, before and after the second feeds.
fn step_and_feed<R: Abort + Wait>(
    rt: &R,
    station: &Station,
    first: &mut Pass<Shared>,
    second: &mut Pass<Shared>,
)
    requires first { (first.old.lock ≡ station.now) × (first.old.out ≡ false) }
    requires second { (second.old.lock ≡ station.now) × (second.old.out ≡ false) }
    ensures first { (first.new.lock ≡ first.old.lock) × (first.new.out ≡ false) }
    ensures second { (second.new.lock ≡ second.old.lock) × (second.new.out ≡ false) }
{
    let mode = station.step(rt, first);
    same(rt, "a cycle point", mode, Ok(Mode::Run));
    let tick = What::Tick { ms: 5 };
    same(rt, "a tick", station.feed(rt, second, tick), Ok(()));
    let arrival = What::Arrive { ob: 40, value: 7 };
    let fed = station.feed(rt, second, arrival);
    same(rt, "an arrival", fed, Ok(()));
    // no organization block 40 and no 85 is loaded
    let stop = Mode::Stop { cause: 8, at: None };
    let mode = station.step(rt, first);
    same(rt, "a step in STOP", mode, Ok(stop));
}

/// The station is closed, and has the four entries in their order.
fn close_with_four(rt: &impl Abort, station: Station, mut first: Pass<Shared>, second: Pass<Shared>)
    requires first { (first.lock ≡ station) × (first.out ≡ false) }
    requires second { (second.lock ≡ station) × (second.out ≡ false) }
{
    station.join(&mut first, second);
    let controller = closed(rt, station, first);
    same(rt, "entries", controller.history_len(), 4);
    let what = What::Tick { ms: 5 };
    let tick = Some(Entry { who: 2, what });
    same(rt, "the second", controller.entry(1), tick);
    let what = What::Arrive { ob: 40, value: 7 };
    let arrival = Some(Entry { who: 2, what });
    same(rt, "the third", controller.entry(2), arrival);
}

#[test]
fn steps_and_what_is_fed_stand_in_their_order(rt: HostRuntime) -> Result<(), Fail> {
    let (station, mut first, mut second) = with_two_passes(rt.alloc())?;
    step_and_feed(&rt, &station, &mut first, &mut second);
    close_with_four(&rt, station, first, second);
    Ok(())
}
