//! A watch: from a program and what the workers are to make to a controller with its history, and
//! what was seen of it.
ghost use Rattle.std.specs.Prelude.{◌≡◌, ◌+◌, ◌-◌, ◌<◌, ◌≤◌, ◌∷◌, ◌++◌, [], length, map, replicate, All, IfOk};
ghost use Rattle.event_text.specs.Regular.{IsRegular, IsRegularOf};
ghost use Rattle.event_text.specs.Texts.{steps_in};
ghost use Rattle.station.specs.declared.shared.TheConstants.{FULL};
ghost use Rattle.s7_cli.specs.Living.{AreRegularBy, IsLive, opening_on, total_length};
ghost use Rattle.s7_cli.specs.Watching.{AreViews, read_entry_of, watch_lists};
ghost use Rattle.s7_cli.specs.run_text.Behind.{program_of_recording};

use crate::lists::add;
use crate::living::controller_at_end;
use crate::watching::watch_station;
use controller::Controller;
use image_file::Loaded;
use plc_base::NoMemory;
use plc_io::Gate;
use station::{Pass, Shared, Station};
use std::alloc::Global;
use std::sync::Wait;
use std::thread::Threads;
use var_access::{Entry, Vars};
use watch_board::{Board, Shown};

/// How many operators of a watch may have a script: all but the last.
const SCRIPTS: usize = 3;

/// How many passes the station of a watch has: those of a stepper, a feeder and four operators.
const PASSES: u8 = 6;

/// A script for each operator but the last, without lines where there was none.
fn padded_scripts(alloc: Global, scripts: Vec<Vec<Entry>>) -> Result<Vec<Vec<Entry>>, NoMemory>
    requires { length scripts.items ≤ 3 }
    ensures { IfOk result (λ v. map (λ x. x.items) v.items
        ≡ map (λ x. x.items) scripts.items ++ replicate (3 - length scripts.items) []) }
{
    let mut all = scripts;
    for _ in all.len()..SCRIPTS {
        add(&mut all, Vec::new(alloc))?;
    }
    Ok(all)
}

/// The last pass, off the end.
fn last_pass(passes: &mut Vec<Pass<Shared>>) -> Pass<Shared>
    requires { 0 < length passes.old.items }
    ensures { passes.old.items ≡ passes.new.items ++ result ∷ [] }
{
    match passes.pop() {
        Some(pass) => pass,
        None => unreachable!(),
    }
}

/// Lets a stepper, a feeder and an operator for each script work beside each other on a program,
/// with one more operator, the last, who reads the variables again and again and publishes the
/// replies, and with one who views what is published. Gives the controller with the history that
/// they made, and the views.
///
/// # Errors
///
/// `NoMemory` for want of memory.
pub(crate) fn watch_run<R: Threads + Wait + Sync, G: Gate + Sync>(
    rt: &R,
    alloc: Global,
    program: Loaded,
    steps: u32,
    stimuli: &[Entry],
    scripts: Vec<Vec<Entry>>,
    vars: &Vars,
    gate: &G,
) -> Result<(Controller, Vec<Shown>), NoMemory>
    requires some { (0 < length scripts.items) × (length scripts.items ≤ 3) }
    requires few { steps + length stimuli.now
        + total_length (map (λ v. v.items) scripts.items) + 100 < FULL }
    requires entries { AreRegularBy 2 (stimuli.now ∷ map (λ v. v.items) scripts.items) }
    requires reads { IsRegularOf 6 (read_entry_of 6 vars.now) }
    ensures program { IfOk result (λ r. program_of_recording r.0 ≡ program) }
    ensures live { IfOk result (λ r. IsLive program steps stimuli.now
        (watch_lists 100 (map (λ v. v.items) scripts.items) vars.now) r.0.history) }
    ensures regular { IfOk result (λ r. All IsRegular r.0.history) }
    ensures steps { IfOk result (λ r. steps_in r.0.history ≤ steps) }
    ensures views { IfOk result (λ r. AreViews (read_entry_of 6 vars.now) (opening_on program)
        r.0.history 100 r.1.items) }
{
    let scripts = padded_scripts(alloc, scripts)?;
    let controller = Controller::new(alloc, program)?;
    let (station, mut passes) = Station::start(alloc, controller, PASSES)?;
    let last = last_pass(&mut passes);
    let (publisher, viewer) = Board::new(rt, alloc)?;
    let mut views = Vec::new(alloc);
    let (pass, outcome) = watch_station(
        rt, alloc, &station, passes, steps, stimuli, &scripts, last, publisher, viewer, &mut views,
        vars, gate,
    );
    let controller = controller_at_end(station, pass, outcome)?;
    Ok((controller, views))
}
