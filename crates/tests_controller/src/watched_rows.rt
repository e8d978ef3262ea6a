//! The numbers of a program's data blocks, and the mode that is seen where it changes.
use crate::bench::loaded;
use crate::compare::same;
use controller::{Cpu, Observer, data_numbers};
use plc_base::{Mode, Profile};
use std::alloc::Global;
use std::process::Abort;
use std::test::Fail;

/// Programs with the numbers of their data blocks.
static NUMBERS: [(&str, &[u16]); 3] = [
    ("NOP #0", &[]),
    ("NOP #0 | FC 7 0 0 { NOP #0", &[]),
    (
        "NOP #0 | FC 7 0 0 { NOP #0 | DB 2 { 00 00 | DB 10 { 00 00 | DB 300 { 00 00",
        &[2, 10, 300],
    ),
];

fn numbers_of(alloc: Global, program: &str) -> Result<Vec<u16>, Fail> {
    let program = loaded(alloc, program)?;
    Ok(data_numbers(alloc, &program)?)
}

#[test]
fn numbers_of_data_blocks(rt: HostRuntime) -> Result<(), Fail> {
    for (program, numbers) in &NUMBERS {
        let found = numbers_of(rt.alloc(), program)?;
        same(&rt, *program, found.as_slice(), *numbers);
    }
    Ok(())
}

/// A program as it starts at a profile.
fn started_at(alloc: Global, profile: Profile, program: &str) -> Result<Cpu, Fail> {
    let program = loaded(alloc, program)?;
    Ok(Cpu::start(alloc, &program, profile)?)
}

static PROFILES: [Profile; 2] = [Profile::Small, Profile::Large];

#[test]
fn first_bytes_of_data_blocks(rt: HostRuntime) -> Result<(), Fail> {
    for profile in &PROFILES {
        let cpu = started_at(rt.alloc(), *profile, "NOP #0 | DB 2 { 00 FF")?;
        same(&rt, "DB 2", cpu.db_bytes(2), Some(&[0x00, 0xFF][..]));
        same(&rt, "DB 3", cpu.db_bytes(3), None);
    }
    Ok(())
}

/// A program of the small profile as it starts.
fn cpu_after_start(alloc: Global, program: &str) -> Result<Cpu, Fail> {
    started_at(alloc, Profile::Small, program)
}

/// Looks at a state, where such a mode is seen and no output.
fn sees(rt: &impl Abort, observer: &mut Observer, state: &Cpu, mode: Option<Mode>) {
    observer.look(state, None);
    let seen = observer.last_shown();
    same(rt, "the mode", seen.mode, mode);
    same(rt, "no output", seen.outputs.as_slice().is_empty(), true);
}

/// What one observer sees of a state in RUN and of one in STARTUP.
fn modes_are_seen(rt: &impl Abort, run: &Cpu, startup: &Cpu) {
    let mut observer = Observer::new(run);
    same(rt, "at first", observer.last_shown().mode, None);
    sees(rt, &mut observer, run, None);
    sees(rt, &mut observer, startup, Some(Mode::Startup));
    sees(rt, &mut observer, startup, None);
    sees(rt, &mut observer, run, Some(Mode::Run));
    observer.pass();
    same(rt, "without a look", observer.last_shown().mode, None);
}

/// The other state is a start with OB 100.
fn startup_is_seen(rt: &impl Abort, alloc: Global, run: &Cpu) -> Result<(), Fail> {
    let startup = cpu_after_start(alloc, "OB 100 20 0 { NOP #0")?;
    modes_are_seen(rt, run, &startup);
    Ok(())
}

#[test]
fn a_mode_is_seen_where_it_changes(rt: HostRuntime) -> Result<(), Fail> {
    let run = cpu_after_start(rt.alloc(), "NOP #0")?;
    startup_is_seen(&rt, rt.alloc(), &run)
}
