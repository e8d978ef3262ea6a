//! A watch: workers run an image while a viewer views what one of them reads, and the history that
//! they made is written, its run, and the views.
ghost use Rattle.std.specs.Prelude.{◌≡◌, ℕ, List, ◌++◌, ◌≤◌, codes, length, map, All, IfOk, OnOk, Some};
ghost use Rattle.plc_io.specs.Moments.{FilesAt};
ghost use Rattle.plc_io.specs.SinkBytes.{WroteText};
ghost use Rattle.var_access.specs.Entry.{IsValid};
ghost use Rattle.s7_cli.specs.Answer.{done_answer};
ghost use Rattle.s7_cli.specs.Command.{Watch};
ghost use Rattle.s7_cli.specs.Ends.{EndsWithStatus, sink_moments};
ghost use Rattle.s7_cli.specs.Inner.{ComesBeforeLine, CommandComesTo, SaysRefusal};
ghost use Rattle.s7_cli.specs.Reading.{disk_moments};
ghost use Rattle.s7_cli.specs.StatusTable.{StatusTable};
ghost use Rattle.s7_cli.specs.WatchSays.{seen_line, seen_reply, seen_text, watch_text};
ghost use Rattle.s7_cli.specs.WatchTexts.{IsWatchText, WatchTextSays, watch_contents};
ghost use Rattle.s7_cli.specs.run_text.Behind.{program_of_recording};

use crate::failures::{ExitStatus, Failure};
use crate::finish::{end_command, outcome_of_write};
use crate::live_command::write_live;
use crate::watch_checks::{WatchWork, check_watch};
use crate::watch_files::{WatchText, read_watch};
use crate::watch_run::watch_run;
use controller::Controller;
use event_text::outcome_lines;
use monitor::Line;
use plc_base::NoMemory;
use plc_io::{Files, Gate, IoFault, Sink, push_all};
use std::alloc::Global;
use std::sync::Wait;
use std::thread::Threads;
use var_access::{Reply, Request, Vars};
use watch_board::Shown;

/// What came of a watch.
#[derive(Drop)]
struct WatchOutcome {
    /// The controller, with the history that the workers made.
    controller: Controller,
    /// What the last operator read.
    vars: Vars,
    /// What the viewer saw.
    views: Vec<Shown>,
}

/// Checks what the files of a watch hold, and lets its workers make a history.
fn run_watch<R: Threads + Wait + Sync, G: Gate + Sync>(
    rt: &R,
    alloc: Global,
    text: &WatchText,
    steps: u32,
    gate: &G,
) -> Result<WatchOutcome, Failure>
    requires text { IsWatchText text.now }
    requires steps { steps ≤ 1000000 }
    ensures says { IfOk result (λ w. WatchTextSays steps text.now (done_answer
        (watch_text (program_of_recording w.controller) w.controller.history w.vars
        w.views.items))) }
    ensures valid { IfOk result (λ w. All IsValid w.controller.history) }
    ensures refused { SaysRefusal (WatchTextSays steps text.now) result }
{
    event_text::laws::written_is_read();
    let WatchWork {
        program,
        stimuli,
        vars,
        scripts,
    } = check_watch(alloc, text)?;
    let (controller, views) = watch_run(rt, alloc, program, steps, &stimuli, scripts, &vars, gate)?;
    Ok(WatchOutcome {
        controller,
        vars,
        views,
    })
}

/// Appends what a view says of a reply.
fn add_reply(
    vars: &Vars,
    number: u64,
    reply: &Option<Reply>,
    text: &mut Vec<u8>,
) -> Result<(), NoMemory>
    ensures { OnOk result
        (text.new.items ≡ text.old.items ++ seen_reply vars.now number reply.now) }
{
    match reply {
        None => text.extend_from_slice(b" NONE\n"),
        Some(reply) => {
            let request = Request::ReadVars { vars: *vars };
            outcome_lines(number, &request, reply, text)
        }
    }
}

/// Appends the line of a view.
fn add_view(vars: &Vars, view: &Shown, text: &mut Vec<u8>) -> Result<(), NoMemory>
    ensures { OnOk result (text.new.items ≡ text.old.items ++ seen_line vars.now view.now) }
{
    let mut line = Line::new();
    line.add(b"SEEN ");
    line.add_number(view.length);
    line.append_to(text)?;
    add_reply(vars, view.length, &view.reply, text)
}

/// The lines of all views.
#[tactic(auto, unfolding(crate::specs::WatchSays::seen_text))]
fn view_lines(alloc: Global, vars: &Vars, views: &[Shown]) -> Result<Vec<u8>, NoMemory>
    ensures { IfOk result (λ v. v.items ≡ seen_text vars.now views.now) }
{
    let mut text = Vec::new(alloc);
    for view in views {
        add_view(vars, view, &mut text)?;
    }
    Ok(text)
}

/// Writes a line `---`, and the lines of the views.
fn write_views<K: Sink>(
    alloc: Global,
    vars: &Vars,
    views: &[Shown],
    out: &mut K,
) -> Result<(), IoFault>
    ensures { WroteText (K.shown out.old) (K.shown out.new)
        (codes "---\n" ++ seen_text vars.now views.now) result }
{
    push_all(out, b"---\n")?;
    let lines = view_lines(alloc, vars, views)?;
    push_all(out, &lines)
}

/// Writes the text of a live run, a line `---`, and the lines of the views.
fn write_watch<K: Sink>(alloc: Global, watched: WatchOutcome, out: &mut K) -> Result<(), IoFault>
    requires { All IsValid watched.controller.history }
    ensures { WroteText (K.shown out.old) (K.shown out.new)
        (watch_text (program_of_recording watched.controller) watched.controller.history
        watched.vars watched.views.items) result }
{
    let WatchOutcome {
        controller,
        vars,
        views,
    } = watched;
    write_live(alloc, controller, out)?;
    write_views(alloc, &vars, &views, out)
}

/// Checks what the files of a watch hold, lets the workers work and the viewer view, and writes
/// what they made and saw.
fn watch_read<R: Threads + Wait + Sync, K: Sink, G: Gate + Sync>(
    rt: &R,
    alloc: Global,
    text: &WatchText,
    steps: u32,
    out: &mut K,
    gate: &G,
) -> Result<(), Failure>
    requires text { IsWatchText text.now }
    requires steps { steps ≤ 1000000 }
    ensures { let took = sink_moments (K.shown out.old) (K.shown out.new) in
        (img stim vars : List ℕ) (ops : List (List ℕ)) (at : FilesAt)
        → CommandComesTo (Watch img stim vars ops steps) (watch_contents text.now)
        (disk_moments at at) took result }
{
    let watched = run_watch(rt, alloc, text, steps, gate)?;
    outcome_of_write(write_watch(alloc, watched, out))
}

/// Reads an image, stimuli, variables and scripts, checks all, lets the workers work and the viewer
/// view, and writes what they made and saw.
fn watch<R: Threads + Wait + Sync, F: Files, K: Sink, G: Gate + Sync>(
    rt: &R,
    alloc: Global,
    img: &str,
    stim: &str,
    vars: &str,
    ops: &[&str],
    steps: u32,
    files: &mut F,
    out: &mut K,
    gate: &G,
) -> Result<(), Failure>
    requires ops { (1 ≤ length ops.now) × (length ops.now ≤ 3) }
    requires steps { steps ≤ 1000000 }
    ensures { let went = disk_moments (F.shown files.old) (F.shown files.new) in
        let took = sink_moments (K.shown out.old) (K.shown out.new) in
        let asked = Watch img.now stim.now vars.now (map (λ w. w.now) ops.now) steps in
        ComesBeforeLine (Some asked) went took result }
{
    let text = read_watch(alloc, files, img, stim, vars, ops)?;
    watch_read(rt, alloc, &text, steps, out, gate)
}

/// Lets several workers run the image in the file `img` beside each other, as `live` does, with an
/// operator for each file of `ops`, and one more, the fourth, who makes the read in the file `vars`
/// a hundred times and publishes each reply on a board, which a viewer views a hundred times beside
/// them. Then the text of a live run is written, a line `---`, and a line for each view; or the
/// line of a refusal.
pub fn cmd_watch<R: Threads + Wait + Sync, F: Files, K: Sink, G: Gate + Sync>(
    rt: &R,
    alloc: Global,
    img: &str,
    stim: &str,
    vars: &str,
    ops: &[&str],
    steps: u32,
    files: &mut F,
    out: &mut K,
    gate: &G,
) -> ExitStatus
    requires ops { (1 ≤ length ops.now) × (length ops.now ≤ 3) }
    requires steps { (1 ≤ steps) × (steps ≤ 1000000) }
    ensures ends { let went = disk_moments (F.shown files.old) (F.shown files.new) in
        let asked = Watch img.now stim.now vars.now (map (λ w. w.now) ops.now) steps in
        EndsWithStatus (Some asked) went (sink_moments (K.shown out.old) (K.shown out.new))
        result.code }
    ensures table { let went = disk_moments (F.shown files.old) (F.shown files.new) in
        let asked = Watch img.now stim.now vars.now (map (λ w. w.now) ops.now) steps in
        StatusTable (Some asked) went (sink_moments (K.shown out.old) (K.shown out.new))
        result.code }
{
    let came = watch(rt, alloc, img, stim, vars, ops, steps, files, out, gate);
    end_command(out, came)
}
