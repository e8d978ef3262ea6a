//! A live run: from a program and what the workers are to make to a controller with its history.
ghost use Rattle.std.specs.Prelude.{◌≡◌, ◌+◌, ◌<◌, ◌≤◌, ◌∷◌, true, false, is_ok, length, map, All, IfOk};
ghost use Rattle.controller.specs.Recording.{Recording};
ghost use Rattle.event_text.specs.Regular.{IsRegular};
ghost use Rattle.event_text.specs.Texts.{steps_in};
ghost use Rattle.tracked_lock.specs.Passes.{missing_number_count};
ghost use Rattle.station.specs.Closing.{IsGivenBack};
ghost use Rattle.station.specs.Openings.{the_opening};
ghost use Rattle.station.specs.declared.shared.TheConstants.{FULL};
ghost use Rattle.s7_cli.specs.Living.{AreRegularBy, IsFullNever, IsLive, total_length};
ghost use Rattle.s7_cli.specs.run_text.Behind.{program_of_recording};

use crate::working::work;
use controller::Controller;
use image_file::Loaded;
use plc_base::NoMemory;
use plc_io::Gate;
use station::{Pass, Shared, Station, StationFault};
use std::alloc::{AllocError, Global};
use std::sync::Wait;
use std::thread::Threads;
use var_access::Entry;

/// The controller of a station, once all workers have ended. The station is closed before the
/// refusal is looked at: only the whole history says that it isn't full.
pub(crate) fn controller_at_end(
    station: Station,
    pass: Pass<Shared>,
    outcome: Result<(), StationFault>,
) -> Result<Controller, NoMemory>
    requires station { (pass.lock ≡ station) × (pass.out ≡ false) }
    requires all { missing_number_count station.passes pass.made ≡ 0 }
    requires room { (c : Recording) → IsGivenBack (the_opening station.origin) c pass
        → IsFullNever outcome }
    ensures { IfOk result (λ c. IsGivenBack (the_opening station.origin) c pass
        × (is_ok outcome ≡ true)) }
{
    let Ok(controller) = station.close(pass) else {
        unreachable!()
    };
    match outcome {
        Ok(()) => Ok(controller),
        Err(StationFault::NoMemory) => Err(AllocError),
        Err(StationFault::Full) => unreachable!(),
    }
}

/// Lets a stepper, a feeder and an operator for each script work beside each other on a program,
/// and gives the controller with the history that they made.
///
/// # Errors
///
/// `NoMemory` for want of memory.
pub(crate) fn live_run<R: Threads + Wait + Sync, G: Gate + Sync>(
    rt: &R,
    alloc: Global,
    program: Loaded,
    steps: u32,
    stimuli: &[Entry],
    scripts: &[Vec<Entry>],
    gate: &G,
) -> Result<Controller, NoMemory>
    requires some { (0 < length scripts.now) × (length scripts.now ≤ 4) }
    requires few { steps + length stimuli.now
        + total_length (map (λ v. v.items) scripts.now) < FULL }
    requires entries { AreRegularBy 2 (stimuli.now ∷ map (λ v. v.items) scripts.now) }
    ensures program { IfOk result (λ c. program_of_recording c ≡ program) }
    ensures live { IfOk result (λ c. IsLive program steps stimuli.now
        (map (λ v. v.items) scripts.now) c.history) }
    ensures regular { IfOk result (λ c. All IsRegular c.history) }
    ensures steps { IfOk result (λ c. steps_in c.history ≤ steps) }
{
    let controller = Controller::new(alloc, program)?;
    let (station, passes) = Station::start(alloc, controller, scripts.len() as u8 + 2)?;
    let (pass, outcome) = work(rt, &station, passes, steps, stimuli, scripts, gate);
    controller_at_end(station, pass, outcome)
}
