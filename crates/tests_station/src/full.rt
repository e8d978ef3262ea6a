//! A station whose controller has almost all entries that it may have.
ghost use Rattle.std.specs.Prelude.{◌≡◌, false};

use crate::bench::{closed, empty_controller, is_answered, with_one_pass};
use crate::compare::same;
use controller::Controller;
use plc_base::Mode;
use station::{FULL, Pass, Shared, Station, StationFault};
use std::alloc::Global;
use std::process::Abort;
use std::sync::Wait;
use std::test::Fail;
use var_access::{Entry, Reply, Request, What};

/// Makes so many steps.
fn enter_steps(rt: &impl Abort, controller: &mut Controller, count: u64) -> Result<(), Fail> {
    let what = What::Step;
    let step = Entry { who: 1, what };
    for _ in 0..count {
        assert!(rt; controller.history_len() < FULL);
        controller.reserve(1)?;
        controller.enter(&step);
    }
    Ok(())
}

/// A controller in STOP, by a request under a pass's number.
fn stopped_controller<R: Abort + Wait>(rt: &R, alloc: Global) -> Result<Controller, Fail> {
    let controller = empty_controller(alloc)?;
    let (station, mut pass) = with_one_pass(alloc, controller)?;
    is_answered(
        rt,
        "a stop",
        &station,
        &mut pass,
        Request::Stop,
        Ok(Reply::Done),
    );
    Ok(closed(rt, station, pass))
}

/// A controller in STOP, which can have one entry more.
fn almost_full_controller<R: Abort + Wait>(rt: &R, alloc: Global) -> Result<Controller, Fail> {
    let mut controller = stopped_controller(rt, alloc)?;
    enter_steps(rt, &mut controller, FULL - 2)?;
    Ok(controller)
}

/// One step is made, and nothing behind it.
fn fill<R: Abort + Wait>(rt: &R, station: &Station, pass: &mut Pass<Shared>)
    requires { (pass.old.lock ≡ station.now) × (pass.old.out ≡ false) }
    ensures { (pass.new.lock ≡ pass.old.lock) × (pass.new.out ≡ false) }
{
    let stop = Mode::Stop { cause: 2, at: None };
    let mode = station.step(rt, pass);
    same(rt, "the last entry", mode, Ok(stop));
    let mode = station.step(rt, pass);
    same(rt, "a further step", mode, Err(StationFault::Full));
    is_answered(
        rt,
        "a further request",
        station,
        pass,
        Request::Diag,
        Err(StationFault::Full),
    );
    same(rt, "entries seen", pass.seen(), 1);
}

/// A station is filled and closed.
fn fill_and_close<R: Abort + Wait>(rt: &R, station: Station, mut pass: Pass<Shared>)
    requires { (pass.lock ≡ station) × (pass.out ≡ false) }
{
    fill(rt, &station, &mut pass);
    let controller = closed(rt, station, pass);
    same(rt, "entries", controller.history_len(), FULL);
}

#[test]
fn one_entry_more_and_then_it_is_full(rt: HostRuntime) -> Result<(), Fail> {
    let controller = almost_full_controller(&rt, rt.alloc())?;
    let (station, pass) = with_one_pass(rt.alloc(), controller)?;
    fill_and_close(&rt, station, pass);
    Ok(())
}
