//! A read of a station's variables that is published on a board.
ghost use Rattle.std.specs.Prelude.{◌≡◌, ◌∷◌, [], false};
ghost use Rattle.watch_board.specs.BoardList.{initial_item};

use crate::compare::same;
use crate::images::EMPTY;
use controller::Controller;
use image_file::load;
use plc_base::{Area, Place, Width};
use s7_cli::publish_read;
use station::{Pass, Shared, Station, StationFault};
use std::alloc::Global;
use std::sync::Wait;
use std::test::Fail;
use var_access::{Numbers, Reply, Request, Var, Vars};
use watch_board::{Board, Publisher, Shown, Viewer};

/// A byte of bit memory.
const MB3: Var = Var {
    place: Place {
        number: 0,
        byte: 3,
        area: Area::M,
        bit: 0,
    },
    width: Width::Byte,
};

/// That byte alone.
fn only_mb3() -> Vars
    ensures { result ≡ MB3 ∷ [] }
{
    let mut vars = Vars::new();
    vars.push(MB3);
    vars
}

/// A controller of the empty program.
fn empty_controller(alloc: Global) -> Result<Controller, Fail> {
    match load(alloc, EMPTY) {
        Ok(loaded) => Ok(Controller::new(alloc, loaded)?),
        Err(_) => Err(Fail::new("the image isn't read")),
    }
}

/// Writes the byte, then reads and publishes it, and hands the note over: what is viewed then.
fn write_and_publish<R: Wait>(
    rt: &R,
    station: &Station,
    pass: &mut Pass<Shared>,
    publisher: &mut Publisher,
    viewer: &mut Viewer,
) -> Result<Shown, StationFault>
    requires pass { (pass.old.lock ≡ station.now) × (pass.old.out ≡ false) }
    requires list { publisher.old.list ≡ initial_item ∷ [] }
    requires board { viewer.old.board ≡ publisher.old.board }
    ensures publisher { publisher.new.board ≡ publisher.old.board }
    ensures viewer { viewer.new.board ≡ viewer.old.board }
{
    let write = Request::WriteVar {
        var: MB3,
        value: 0xAA,
    };
    station.ask(rt, pass, write)?;
    let note = publish_read(rt, station, pass, publisher, &only_mb3())?;
    viewer.learn(note);
    Ok(viewer.view())
}

// The write is the first entry, the read the second.
#[test]
fn a_read_is_published(rt: HostRuntime) -> Result<(), Fail> {
    let controller = empty_controller(rt.alloc())?;
    let (station, mut passes) = Station::start(rt.alloc(), controller, 1)?;
    let mut pass = passes.remove(0);
    let (mut publisher, mut viewer) = Board::new(&rt, rt.alloc())?;
    let shown = write_and_publish(&rt, &station, &mut pass, &mut publisher, &mut viewer);
    publisher.close(&rt, viewer);
    let mut values = Numbers::new();
    values.push(0xAA);
    let wanted = Shown {
        length: 2,
        reply: Some(Reply::Values { values }),
    };
    same(&rt, "what is viewed", shown, Ok(wanted));
    Ok(())
}
