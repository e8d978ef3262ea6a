//! A live run: several workers run an image, and the history that they made is written, and its
//! run.
ghost use Rattle.std.specs.Prelude.{◌≡◌, ℕ, ◌^◌, ◌<◌, ◌≤◌, List, ◌++◌, codes, length, map, All, IfOk, Some};
ghost use Rattle.plc_io.specs.Moments.{FilesAt};
ghost use Rattle.plc_io.specs.SinkBytes.{WroteText};
ghost use Rattle.machine.specs.Flat.{code_of};
ghost use Rattle.var_access.specs.Entry.{IsValid};
ghost use Rattle.var_access.specs.Runs.{AreRuns, entries_of_runs};
ghost use Rattle.event_text.specs.HistoryText.{history_text};
ghost use Rattle.s7_cli.specs.Answer.{done_answer};
ghost use Rattle.s7_cli.specs.Command.{Live};
ghost use Rattle.s7_cli.specs.Ends.{EndsWithStatus, sink_moments};
ghost use Rattle.s7_cli.specs.Inner.{ComesBeforeLine, CommandComesTo, SaysRefusal};
ghost use Rattle.s7_cli.specs.LiveSays.{live_text};
ghost use Rattle.s7_cli.specs.LiveTexts.{IsLiveText, LiveTextSays, live_contents};
ghost use Rattle.s7_cli.specs.Reading.{disk_moments};
ghost use Rattle.s7_cli.specs.StatusTable.{StatusTable};
ghost use Rattle.s7_cli.specs.run_text.Behind.{program_of_recording};
ghost use Rattle.s7_cli.specs.run_text.RunText.{run_text};

use crate::command_checks::{LiveWork, check_live};
use crate::failures::{ExitStatus, Failure};
use crate::files::{LiveText, read_live};
use crate::finish::{end_command, outcome_of_write};
use crate::living::live_run;
use crate::run_text::replay_text;
use controller::Controller;
use event_text::write_history;
use plc_base::NoMemory;
use plc_io::{Files, Gate, IoFault, Sink, push_all};
use std::alloc::Global;
use std::sync::Wait;
use std::thread::Threads;
use var_access::{Entries, Run};

/// Checks what the files of a live run hold, and lets its workers make a history.
fn live_controller<R: Threads + Wait + Sync, G: Gate + Sync>(
    rt: &R,
    alloc: Global,
    text: &LiveText,
    steps: u32,
    gate: &G,
) -> Result<Controller, Failure>
    requires text { IsLiveText text.now }
    requires steps { steps ≤ 1000000 }
    ensures says { IfOk result
        (λ c. LiveTextSays steps text.now
        (done_answer (live_text (program_of_recording c) c.history))) }
    ensures valid { IfOk result (λ c. All IsValid c.history) }
    ensures refused { SaysRefusal (LiveTextSays steps text.now) result }
{
    event_text::laws::written_is_read();
    let LiveWork {
        program,
        stimuli,
        scripts,
    } = check_live(alloc, text)?;
    Ok(live_run(rt, alloc, program, steps, &stimuli, &scripts, gate)?)
}

/// The entries of runs.
fn entries_of(alloc: Global, runs: &[Run]) -> Result<Entries, NoMemory>
    requires are { AreRuns runs.now }
    requires bounded { length (entries_of_runs runs.now) < 2 ^ 64 }
    ensures { IfOk result (λ v. v.entries ≡ entries_of_runs runs.now) }
{
    let mut entries = Entries::new(alloc);
    for run in runs {
        entries.append(&run.entry, run.count)?;
    }
    Ok(entries)
}

/// Writes the history of a controller, and a line `---`.
fn push_history<K: Sink>(alloc: Global, controller: &Controller, out: &mut K) -> Result<(), IoFault>
    ensures { WroteText (K.shown out.old) (K.shown out.new)
        (history_text controller.now.history ++ codes "---\n") result }
{
    let history = write_history(alloc, controller)?;
    push_all(out, &history)?;
    push_all(out, b"---\n")
}

/// Writes the text of the run of a controller's history.
fn replay_history<K: Sink>(
    alloc: Global,
    controller: Controller,
    out: &mut K,
) -> Result<(), IoFault>
    requires { All IsValid controller.history }
    ensures { WroteText (K.shown out.old) (K.shown out.new)
        (let p = program_of_recording controller in
        run_text p.profile (code_of p.program) controller.history) result }
{
    // a history has fewer than 2^64 entries
    let _len = controller.history_len();
    let entries = entries_of(alloc, controller.runs())?;
    replay_text(alloc, controller.into_program(), &entries, out)
}

/// Writes the history of a controller, a line `---`, and the text of the history's run.
pub fn write_live<K: Sink>(
    alloc: Global,
    controller: Controller,
    out: &mut K,
) -> Result<(), IoFault>
    requires { All IsValid controller.history }
    ensures { WroteText (K.shown out.old) (K.shown out.new)
        (live_text (program_of_recording controller) controller.history) result }
{
    push_history(alloc, &controller, out)?;
    replay_history(alloc, controller, out)
}

/// Checks what the files of a live run hold, lets the workers work, and writes what they made.
fn live_read<R: Threads + Wait + Sync, K: Sink, G: Gate + Sync>(
    rt: &R,
    alloc: Global,
    text: &LiveText,
    steps: u32,
    out: &mut K,
    gate: &G,
) -> Result<(), Failure>
    requires text { IsLiveText text.now }
    requires steps { steps ≤ 1000000 }
    ensures { let took = sink_moments (K.shown out.old) (K.shown out.new) in
        (img stim : List ℕ) (ops : List (List ℕ)) (at : FilesAt)
        → CommandComesTo (Live img stim ops steps) (live_contents text.now)
        (disk_moments at at) took result }
{
    let controller = live_controller(rt, alloc, text, steps, gate)?;
    outcome_of_write(write_live(alloc, controller, out))
}

/// Reads an image, stimuli and scripts, checks all, lets the workers work, and writes what they
/// made.
fn live<R: Threads + Wait + Sync, F: Files, K: Sink, G: Gate + Sync>(
    rt: &R,
    alloc: Global,
    img: &str,
    stim: &str,
    ops: &[&str],
    steps: u32,
    files: &mut F,
    out: &mut K,
    gate: &G,
) -> Result<(), Failure>
    requires ops { (1 ≤ length ops.now) × (length ops.now ≤ 4) }
    requires steps { steps ≤ 1000000 }
    ensures { let went = disk_moments (F.shown files.old) (F.shown files.new) in
        let took = sink_moments (K.shown out.old) (K.shown out.new) in
        ComesBeforeLine (Some (Live img.now stim.now (map (λ w. w.now) ops.now) steps)) went
        took result }
{
    let text = read_live(alloc, files, img, stim, ops)?;
    live_read(rt, alloc, &text, steps, out, gate)
}

/// Lets several workers run the image in the file `img` beside each other: a stepper makes `steps`
/// steps, or fewer where one of them leaves STOP; a feeder makes the entries of the file `stim`;
/// and an operator for each file of `ops` asks what that holds, where the names of the image are
/// known. Each passes `gate` before each of its entries. Then the history that they made is
/// written, a line `---`, and the text of the history's run; or the line of a refusal.
pub fn cmd_live<R: Threads + Wait + Sync, F: Files, K: Sink, G: Gate + Sync>(
    rt: &R,
    alloc: Global,
    img: &str,
    stim: &str,
    ops: &[&str],
    steps: u32,
    files: &mut F,
    out: &mut K,
    gate: &G,
) -> ExitStatus
    requires ops { (1 ≤ length ops.now) × (length ops.now ≤ 4) }
    requires steps { (1 ≤ steps) × (steps ≤ 1000000) }
    ensures ends { let went = disk_moments (F.shown files.old) (F.shown files.new) in
        EndsWithStatus (Some (Live img.now stim.now (map (λ w. w.now) ops.now) steps)) went
        (sink_moments (K.shown out.old) (K.shown out.new)) result.code }
    ensures table { let went = disk_moments (F.shown files.old) (F.shown files.new) in
        StatusTable (Some (Live img.now stim.now (map (λ w. w.now) ops.now) steps)) went
        (sink_moments (K.shown out.old) (K.shown out.new)) result.code }
{
    let came = live(rt, alloc, img, stim, ops, steps, files, out, gate);
    end_command(out, came)
}
