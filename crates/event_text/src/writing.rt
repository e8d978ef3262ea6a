ghost use Rattle.std.specs.Prelude.{◌≡◌, ◌+◌, ◌<◌, ◌≤◌, ◌^◌, ◌++◌, List, length, replicate, decimal, codes, false, IfOk, OnErr, OnOk};
ghost use Rattle.monitor.specs.LineText.{hex_text, kind_text};
ghost use Rattle.var_access.specs.Runs.{AreRuns, is_step, entries_of_runs};
ghost use Rattle.var_access.specs.declared.entries.Entry.{Entry};
ghost use Rattle.event_text.specs.Workers.{operator_of as operator_number};
ghost use Rattle.event_text.specs.HistoryText.{
  arrival_text,
  entry_line,
  more_vars_text,
  request_text,
  steps_text,
  value_text,
  var_text,
  vars_text,
  what_text,
  history_text,
  history_text_behind,
};

use crate::addresses::{value_text, var_text};
use controller::Controller;
use monitor::{Line, kind_text};
use plc_base::{BlockId, NoMemory, Width};
use std::alloc::Global;
use var_access::{Entry, Request, Run, Var, What};

/// The operator of a worker: 1 to 4 for workers 3 to 6; a request of another one is written as
/// operator 1's.
pub(crate) fn operator_of(who: u8) -> u8
    ensures { result ≡ operator_number who }
{
    match who {
        3..=6 => who - 2,
        _ => 1,
    }
}

/// Appends a number in decimal digits.
pub(crate) fn append_number(number: u64, out: &mut Vec<u8>) -> Result<(), NoMemory>
    ensures ok { OnOk result (out.new.items ≡ out.old.items ++ decimal number) }
    ensures err { OnErr result (out.new.items ≡ out.old.items) }
{
    let mut line = Line::new();
    line.add_number(number);
    line.append_to(out)
}

/// Appends a number in so many hexadecimal digits.
fn append_hex(number: u32, digits: u32, out: &mut Vec<u8>) -> Result<(), NoMemory>
    requires { digits ≤ 8 }
    ensures { OnOk result (out.new.items ≡ out.old.items ++ hex_text digits number) }
{
    let mut line = Line::new();
    line.add_hex(number, digits);
    line.append_to(out)
}

/// Appends a variable by its address.
fn append_var(var: &Var, out: &mut Vec<u8>) -> Result<(), NoMemory>
    ensures { OnOk result (out.new.items ≡ out.old.items ++ var_text var.now) }
{
    var_text(var).append_to(out)
}

/// Appends a value at its width.
pub(crate) fn append_value(width: Width, value: u32, out: &mut Vec<u8>) -> Result<(), NoMemory>
    ensures ok { OnOk result (out.new.items ≡ out.old.items ++ value_text width value) }
    ensures err { OnErr result (out.new.items ≡ out.old.items) }
{
    value_text(width, value).append_to(out)
}

/// Appends further variables, each behind a comma and a blank.
fn append_more_vars(vars: &[Var], out: &mut Vec<u8>) -> Result<(), NoMemory>
    ensures { OnOk result (out.new.items ≡ out.old.items ++ more_vars_text vars.now) }
{
    let mut left = vars;
    while let [var, rest @ ..] = left {
        out.extend_from_slice(b", ")?;
        append_var(var, out)?;
        left = rest;
    }
    Ok(())
}

/// Appends the variables of a read.
fn append_vars(vars: &[Var], out: &mut Vec<u8>) -> Result<(), NoMemory>
    ensures { OnOk result (out.new.items ≡ out.old.items ++ vars_text vars.now) }
{
    match vars {
        [] => Ok(()),
        [var, rest @ ..] => {
            append_var(var, out)?;
            append_more_vars(rest, out)
        }
    }
}

/// Appends a block's kind and number.
fn append_block(block: &BlockId, out: &mut Vec<u8>) -> Result<(), NoMemory>
    ensures { OnOk result (out.new.items
        ≡ out.old.items
        ++ (kind_text block.now.kind ++ (codes " " ++ decimal block.now.number))) }
{
    out.extend_from_slice(kind_text(block.kind))?;
    out.extend_from_slice(b" ")?;
    append_number(u64::from(block.number), out)
}

/// Appends a variable and the value that it is to take.
fn append_write(var: &Var, value: u32, out: &mut Vec<u8>) -> Result<(), NoMemory>
    ensures { OnOk result (out.new.items
        ≡ out.old.items ++ (var_text var.now ++ (codes " " ++ value_text var.now.width value))) }
{
    append_var(var, out)?;
    out.extend_from_slice(b" ")?;
    append_value(var.width, value, out)
}

/// Appends a request.
#[tactic(auto, unfolding(crate::specs::HistoryText::request_text))]
fn append_request(request: &Request, out: &mut Vec<u8>) -> Result<(), NoMemory>
    ensures { OnOk result (out.new.items ≡ out.old.items ++ request_text request.now) }
{
    match request {
        Request::ReadVars { vars } => {
            out.extend_from_slice(b"read ")?;
            append_vars(vars.as_slice(), out)
        }
        Request::WriteVar { var, value } => {
            out.extend_from_slice(b"write ")?;
            append_write(var, *value, out)
        }
        Request::Stop => out.extend_from_slice(b"stop"),
        Request::Restart => out.extend_from_slice(b"restart"),
        Request::MonitorOn { block } => {
            out.extend_from_slice(b"monitor on ")?;
            append_block(block, out)
        }
        Request::MonitorOff => out.extend_from_slice(b"monitor off"),
        Request::Diag => out.extend_from_slice(b"diag"),
    }
}

/// Appends an arrival's value, where it isn't 0.
fn append_arrival_value(value: u32, out: &mut Vec<u8>) -> Result<(), NoMemory>
    ensures { OnOk result (out.new.items ≡ out.old.items ++ arrival_text value) }
{
    if value == 0 {
        return Ok(());
    }
    out.extend_from_slice(b" ")?;
    append_hex(value, 8, out)
}

/// Appends what an entry does, without the line's end.
#[tactic(auto, unfolding(crate::specs::HistoryText::what_text))]
fn append_what(who: u8, what: &What, out: &mut Vec<u8>) -> Result<(), NoMemory>
    ensures { OnOk result (out.new.items ≡ out.old.items ++ what_text who what.now) }
{
    match what {
        What::Step => out.extend_from_slice(b"step 1"),
        What::Input { byte, value } => {
            out.extend_from_slice(b"in ")?;
            append_number(u64::from(*byte), out)?;
            out.extend_from_slice(b" ")?;
            append_hex(u32::from(*value), 2, out)
        }
        What::Arrive { ob, value } => {
            out.extend_from_slice(b"arrive ")?;
            append_number(u64::from(*ob), out)?;
            append_arrival_value(*value, out)
        }
        What::Tick { ms } => {
            out.extend_from_slice(b"tick ")?;
            append_number(u64::from(*ms), out)
        }
        What::Ask { request } => {
            out.extend_from_slice(b"op ")?;
            append_number(u64::from(operator_of(who)), out)?;
            out.extend_from_slice(b" ")?;
            append_request(request, out)
        }
    }
}

/// Appends the line of an entry that is no step.
fn append_entry(entry: &Entry, out: &mut Vec<u8>) -> Result<(), NoMemory>
    ensures { OnOk result (out.new.items ≡ out.old.items ++ entry_line entry.now) }
{
    append_what(entry.who, &entry.what, out)?;
    out.extend_from_slice(b"\n")
}

/// Appends the line of so many steps in a row; none for none.
fn append_step_line(count: u64, out: &mut Vec<u8>) -> Result<(), NoMemory>
    ensures { OnOk result (out.new.items ≡ out.old.items ++ steps_text count) }
{
    if count == 0 {
        return Ok(());
    }
    out.extend_from_slice(b"step ")?;
    append_number(count, out)?;
    out.extend_from_slice(b"\n")
}

/// Appends a run, with so many steps in front of it that weren't written yet; how many steps aren't
/// written yet behind it.
#[tactic(auto, using(crate::proofs::WritingLemmas::steps_more, crate::proofs::WritingLemmas::entry_written))]
fn append_run(run: &Run, steps: u64, out: &mut Vec<u8>) -> Result<u64, NoMemory>
    requires one { is_step run.now.entry ≡ false → run.now.count ≡ 1 }
    requires bounded { steps + run.now.count < 2 ^ 64 }
    ensures few { IfOk result (λ left. left ≤ steps + run.now.count) }
    ensures text { IfOk result (λ left. (rest : List Entry)
        → out.new.items ++ history_text_behind left rest
        ≡ out.old.items
        ++ history_text_behind steps (replicate run.now.count run.now.entry ++ rest)) }
{
    if run.entry.is_step() {
        return Ok(steps + run.count);
    }
    append_step_line(steps, out)?;
    append_entry(&run.entry, out)?;
    Ok(0)
}

/// Appends the entries of runs: each row of steps as one line, each other entry as a line.
#[tactic(auto, using(crate::proofs::WritingLemmas::none_left, crate::proofs::WritingLemmas::written_whole))]
fn append_history(runs: &[Run], out: &mut Vec<u8>) -> Result<(), NoMemory>
    requires are { AreRuns runs.now }
    requires bounded { length (entries_of_runs runs.now) < 2 ^ 64 }
    ensures { OnOk result
        (out.new.items ≡ out.old.items ++ history_text (entries_of_runs runs.now)) }
{
    let mut steps: u64 = 0;
    for run in runs {
        steps = append_run(run, steps, out)?;
    }
    append_step_line(steps, out)
}

/// The text of a history, given as its runs: `step n` for each longest row of steps, each other
/// entry on a line of its own.
fn write_runs(alloc: Global, runs: &[Run]) -> Result<Vec<u8>, NoMemory>
    requires are { AreRuns runs.now }
    requires bounded { length (entries_of_runs runs.now) < 2 ^ 64 }
    ensures { IfOk result (λ text. text.items ≡ history_text (entries_of_runs runs.now)) }
{
    let mut out = Vec::new(alloc);
    append_history(runs, &mut out)?;
    Ok(out)
}

/// The text of a controller's history: `step n` for each longest row of steps, each other entry on
/// a line of its own; symbols as addresses, no blank inside a variable, hexadecimal digits in upper
/// case, an arrival's value only where it isn't 0. What is written of a regular history (steps by
/// worker 1, inputs, arrivals and ticks by worker 2, requests by workers 3 to 6) with at most
/// 1,000,000 steps is read as that history (`laws::written_is_read`).
///
/// # Errors
///
/// `NoMemory` for want of memory.
pub fn write_history(alloc: Global, controller: &Controller) -> Result<Vec<u8>, NoMemory>
    ensures { IfOk result (λ text. text.items ≡ history_text controller.now.history) }
{
    // A history has fewer than 2^64 entries, and so has each row of steps.
    let _len = controller.history_len();
    write_runs(alloc, controller.runs())
}
