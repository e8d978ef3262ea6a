//! A station with a controller of the empty source, what its passes ask, and variables and values of its
//! bit memory.
ghost use Rattle.std.specs.Prelude.{◌≡◌, false, [], ◌∷◌, IfOk};
ghost use Rattle.var_access.specs.Entry.{IsRequest};

use crate::compare::same;
use controller::Controller;
use image_file::load;
use plc_base::{Area, Place, Width};
use station::{Pass, Shared, Station, StationFault, StationOut};
use std::alloc::Global;
use std::process::Abort;
use std::sync::Wait;
use std::test::Fail;
use var_access::{Numbers, Reply, Request, Var, Vars};

/// The image of a program without blocks and names.
static EMPTY: [u8; 20] = [
    b'S', b'7', b'F', b'B', 0, 1, 0, 0, 0, 0, 0, 20, 0, 0, 0, 0, 0, 0, 0, 0,
];

/// A controller without entries.
pub(crate) fn empty_controller(alloc: Global) -> Result<Controller, Fail> {
    match load(alloc, &EMPTY) {
        Ok(loaded) => Ok(Controller::new(alloc, loaded)?),
        Err(_) => Err(Fail::new("the image isn't read")),
    }
}

/// A station with one pass.
pub(crate) fn with_one_pass(
    alloc: Global,
    controller: Controller,
) -> Result<(Station, Pass<Shared>), Fail>
    ensures { IfOk result (λ r. (r.1.lock ≡ r.0) × (r.1.out ≡ false)) }
{
    let (station, mut passes) = Station::start(alloc, controller, 1)?;
    let pass = passes.remove(0);
    Ok((station, pass))
}

/// A station without entries, with two passes.
pub(crate) fn with_two_passes(alloc: Global) -> Result<(Station, Pass<Shared>, Pass<Shared>), Fail>
    ensures first { IfOk result (λ r. (r.1.lock ≡ r.0) × (r.1.out ≡ false)) }
    ensures second { IfOk result (λ r. (r.2.lock ≡ r.0) × (r.2.out ≡ false)) }
{
    let controller = empty_controller(alloc)?;
    let (station, mut passes) = Station::start(alloc, controller, 2)?;
    let first = passes.remove(0);
    let second = passes.remove(0);
    Ok((station, first, second))
}

/// A station without entries, and the last two of its three passes.
pub(crate) fn with_three_passes(
    alloc: Global,
) -> Result<(Station, Pass<Shared>, Pass<Shared>), Fail>
    ensures second { IfOk result (λ r. (r.1.lock ≡ r.0) × (r.1.out ≡ false)) }
    ensures third { IfOk result (λ r. (r.2.lock ≡ r.0) × (r.2.out ≡ false)) }
{
    let controller = empty_controller(alloc)?;
    let (station, mut passes) = Station::start(alloc, controller, 3)?;
    let second = passes.remove(1);
    let third = passes.remove(1);
    Ok((station, second, third))
}

/// A request under a pass's number gets this reply.
pub(crate) fn is_answered<R: Abort + Wait>(
    rt: &R,
    what: &str,
    station: &Station,
    pass: &mut Pass<Shared>,
    request: Request,
    wanted: Result<Reply, StationFault>,
)
    requires pass { (pass.old.lock ≡ station.now) × (pass.old.out ≡ false) }
    requires valid { IsRequest request }
    ensures { (pass.new.lock ≡ pass.old.lock) × (pass.new.out ≡ false) }
{
    let reply = station.ask(rt, pass, request);
    same(rt, what, reply, wanted);
}

/// The controller of a station whose numbers are all the pass's.
pub(crate) fn closed(rt: &impl Abort, station: Station, pass: Pass<Shared>) -> Controller
    requires { (pass.lock ≡ station) × (pass.out ≡ false) }
{
    match station.close(pass) {
        Ok(controller) => controller,
        Err(_) => panic!(rt; "all numbers are there"),
    }
}

/// The station and the pass as they were, since one number isn't the pass's.
pub(crate) fn still_open(
    rt: &impl Abort,
    station: Station,
    pass: Pass<Shared>,
) -> (Station, Pass<Shared>)
    requires { (pass.lock ≡ station) × (pass.out ≡ false) }
    ensures { (result.0 ≡ station) × (result.1 ≡ pass) }
{
    match station.close(pass) {
        Ok(_) => panic!(rt; "a number is out"),
        Err(
            StationOut {
                count,
                station,
                pass,
            },
        ) => {
            same(rt, "numbers out", count, 1);
            (station, pass)
        }
    }
}

/// A byte of bit memory.
pub(crate) const MB3: Var = Var {
    place: Place {
        number: 0,
        byte: 3,
        area: Area::M,
        bit: 0,
    },
    width: Width::Byte,
};

/// That byte alone.
pub(crate) fn only_mb3() -> Vars
    ensures { result ≡ MB3 ∷ [] }
{
    let mut vars = Vars::new();
    vars.push(MB3);
    vars
}

/// The reply to a read of one variable.
pub(crate) fn one_value(value: u32) -> Reply {
    let mut values = Numbers::new();
    values.push(value);
    Reply::Values { values }
}
