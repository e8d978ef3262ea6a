ghost use Rattle.std.specs.Prelude.{◌≡◌, ◌≤◌, [], ◌∷◌, ◌++◌, length, replicate, true, All, OnOk};
ghost use Rattle.std.specs.List.{flat_map};
ghost use Rattle.plc_io.specs.SinkBytes.{WroteText};
ghost use Rattle.monitor.specs.LineText.{output_text};
ghost use Rattle.var_access.specs.Entry.{IsValid};
ghost use Rattle.var_access.specs.Runs.{IsHistoryRun, AreRuns, entries_of_runs};
ghost use Rattle.var_access.specs.declared.What.TheVariants.{Ask, Step};
ghost use Rattle.controller.specs.ReplayResult.{next_result};
ghost use Rattle.controller.specs.ShownEntry.{nothing_shown};
ghost use Rattle.s7_cli.specs.run_text.Behind.{lines_behind, with_entries};
ghost use Rattle.s7_cli.specs.run_text.RunText.{changed_mode_text, entry_text, monitored_text, shown_text};

use controller::{Controller, Observed};
use event_text::reply_lines;
use monitor::{MonRecord, mode_line, mon_line, output_line};
use plc_base::{Mode, NoMemory};
use plc_io::{IoFault, Sink, push_all};
use var_access::{Entries, Entry, Request, Run, What};

/// Appends the line of the monitored statement, if entry `n` made a record of one.
fn add_record(n: u64, mon: Option<MonRecord>, text: &mut Vec<u8>) -> Result<(), NoMemory>
    ensures { OnOk result (text.new.items ≡ text.old.items ++ monitored_text n mon) }
{
    match mon {
        Some(record) => mon_line(n, &record, text),
        None => Ok(()),
    }
}

/// Appends the lines of the output bytes that entry `n` changed.
fn add_outputs(n: u64, outputs: &[(u16, u8)], text: &mut Vec<u8>) -> Result<(), NoMemory>
    ensures { OnOk result
        (text.new.items ≡ text.old.items ++ flat_map (output_text n) outputs.now) }
{
    for output in outputs {
        let (byte, value) = *output;
        output_line(n, byte, value, text)?;
    }
    Ok(())
}

/// Appends the line of the mode that entry `n` began, if it began one.
fn add_changed_mode(n: u64, mode: Option<Mode>, text: &mut Vec<u8>) -> Result<(), NoMemory>
    ensures { OnOk result (text.new.items ≡ text.old.items ++ changed_mode_text n mode) }
{
    match mode {
        Some(mode) => mode_line(n, &mode, text),
        None => Ok(()),
    }
}

/// Whether an entry showed nothing, so that it has no lines.
fn is_nothing_shown(seen: &Observed) -> bool
    ensures { result ≡ true → seen.now ≡ nothing_shown }
{
    seen.mon.is_none() && seen.outputs.as_slice().is_empty() && seen.mode.is_none()
}

/// Appends the lines of what entry `n` showed.
#[inline(never)]
#[tactic(auto, unfolding(crate::specs::run_text::RunText::shown_text))]
fn add_seen(n: u64, seen: &Observed, text: &mut Vec<u8>) -> Result<(), NoMemory>
    ensures { OnOk result (text.new.items ≡ text.old.items ++ shown_text n seen.now) }
{
    add_record(n, seen.mon, text)?;
    add_outputs(n, seen.outputs.as_slice(), text)?;
    add_changed_mode(n, seen.mode, text)
}

/// Appends what entry `n` showed, which mostly is nothing.
#[tactic(auto, unfolding(crate::specs::run_text::RunText::shown_text))]
fn add_shown(n: u64, seen: &Observed, text: &mut Vec<u8>) -> Result<(), NoMemory>
    ensures { OnOk result (text.new.items ≡ text.old.items ++ shown_text n seen.now) }
{
    if is_nothing_shown(seen) {
        return Ok(());
    }
    add_seen(n, seen, text)
}

/// Applies a request, and appends its lines. The reply is that of the state before it.
#[inline(never)]
fn add_request(
    controller: &mut Controller,
    entry: &Entry,
    request: &Request,
    text: &mut Vec<u8>,
) -> Result<(), NoMemory>
    requires room { 1 ≤ controller.old.spare }
    requires valid { IsValid entry.now }
    requires asks { entry.now.what ≡ Ask request.now }
    ensures applied { controller.new ≡ with_entries controller.old (entry.now ∷ []) }
    ensures lines { OnOk result (text.new.items ≡ text.old.items
        ++ entry_text (length controller.new.history) entry.now
        (next_result controller.old entry.now)) }
{
    let reply = controller.answer(request);
    controller.enter(entry);
    let n = controller.history_len();
    add_shown(n, controller.observed(), text)?;
    reply_lines(n, entry.who, request, &reply, text)
}

/// Applies an entry that is no request, and appends its lines.
fn add_event(controller: &mut Controller, entry: &Entry, text: &mut Vec<u8>) -> Result<(), NoMemory>
    requires room { 1 ≤ controller.old.spare }
    requires valid { IsValid entry.now }
    ensures applied { controller.new ≡ with_entries controller.old (entry.now ∷ []) }
    ensures lines { OnOk result (text.new.items ≡ text.old.items
        ++ shown_text (length controller.new.history)
        (next_result controller.old entry.now).seen) }
{
    controller.enter(entry);
    add_shown(controller.history_len(), controller.observed(), text)
}

/// Applies an entry, and appends its lines.
fn apply_entry(
    controller: &mut Controller,
    entry: &Entry,
    text: &mut Vec<u8>,
) -> Result<(), NoMemory>
    requires room { 1 ≤ controller.old.spare }
    requires valid { IsValid entry.now }
    ensures applied { controller.new ≡ with_entries controller.old (entry.now ∷ []) }
    ensures lines { OnOk result (text.new.items ≡ text.old.items
        ++ lines_behind controller.old (entry.now ∷ [])) }
{
    match &entry.what {
        What::Ask { request } => add_request(controller, entry, request, text),
        What::Step | What::Input { .. } | What::Arrive { .. } | What::Tick { .. } => {
            add_event(controller, entry, text)
        }
    }
}

/// Applies an entry, and writes its lines in one piece. The buffer `text` is used again for each
/// entry.
fn write_applied<K: Sink>(
    controller: &mut Controller,
    entry: &Entry,
    out: &mut K,
    text: &mut Vec<u8>,
) -> Result<(), IoFault>
    requires room { 1 ≤ controller.old.spare }
    requires valid { IsValid entry.now }
    ensures applied { controller.new ≡ with_entries controller.old (entry.now ∷ []) }
    ensures text { WroteText (K.shown out.old) (K.shown out.new)
        (lines_behind controller.old (entry.now ∷ [])) result }
{
    text.clear();
    apply_entry(controller, entry, text)?;
    push_all(out, text)
}

/// Applies a step so many times, and writes the lines of each. Those that show nothing are passed
/// in a row.
fn write_steps<K: Sink>(
    controller: &mut Controller,
    step: &Entry,
    count: u64,
    out: &mut K,
    text: &mut Vec<u8>,
) -> Result<(), IoFault>
    requires room { count ≤ controller.old.spare }
    requires valid { IsValid step.now }
    requires is { step.now.what ≡ Step }
    ensures applied { OnOk result
        (controller.new ≡ with_entries controller.old (replicate count step.now)) }
    ensures text { WroteText (K.shown out.old) (K.shown out.new)
        (lines_behind controller.old (replicate count step.now)) result }
{
    controller::laws::continues_replay();
    let mut left = count;
    loop {
        left -= controller.step_silently(step, left);
        if left == 0 {
            return Ok(());
        }
        write_applied(controller, step, out, text)?;
        left -= 1;
    }
}

/// Applies the entries of a run, and writes their lines.
fn write_run<K: Sink>(
    controller: &mut Controller,
    run: &Run,
    out: &mut K,
    text: &mut Vec<u8>,
) -> Result<(), IoFault>
    requires room { run.now.count ≤ controller.old.spare }
    requires valid { IsValid run.now.entry }
    requires is { IsHistoryRun run.now }
    ensures applied { OnOk result
        (controller.new ≡ with_entries controller.old (replicate run.now.count run.now.entry)) }
    ensures text { WroteText (K.shown out.old) (K.shown out.new)
        (lines_behind controller.old (replicate run.now.count run.now.entry)) result }
{
    if run.entry.is_step() {
        write_steps(controller, &run.entry, run.count, out, text)
    } else {
        write_applied(controller, &run.entry, out, text)
    }
}

/// Applies the entries of runs, and writes their lines.
fn replay_runs<K: Sink>(
    controller: &mut Controller,
    runs: &[Run],
    out: &mut K,
    text: &mut Vec<u8>,
) -> Result<(), IoFault>
    requires room { length (entries_of_runs runs.now) ≤ controller.old.spare }
    requires valid { All IsValid (entries_of_runs runs.now) }
    requires are { AreRuns runs.now }
    ensures applied { OnOk result
        (controller.new ≡ with_entries controller.old (entries_of_runs runs.now)) }
    ensures text { WroteText (K.shown out.old) (K.shown out.new)
        (lines_behind controller.old (entries_of_runs runs.now)) result }
{
    controller::laws::continues_replay();
    for run in runs {
        write_run(controller, run, out, text)?;
    }
    Ok(())
}

/// Applies entries, and writes their lines.
pub fn write_entries<K: Sink>(
    controller: &mut Controller,
    entries: &Entries,
    out: &mut K,
    text: &mut Vec<u8>,
) -> Result<(), IoFault>
    requires room { length entries.now.entries ≤ controller.old.spare }
    requires valid { All IsValid entries.now.entries }
    ensures applied { OnOk result
        (controller.new ≡ with_entries controller.old entries.now.entries) }
    ensures text { WroteText (K.shown out.old) (K.shown out.new)
        (lines_behind controller.old entries.now.entries) result }
{
    replay_runs(controller, entries.runs(), out, text)
}
