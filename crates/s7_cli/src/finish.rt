ghost use Rattle.std.specs.Prelude.{ℕ, List, Option};
ghost use Rattle.plc_io.specs.Moments.{SinkAt};
ghost use Rattle.plc_io.specs.SinkBytes.{WroteText};
ghost use Rattle.s7_cli.specs.Command.{Command};
ghost use Rattle.s7_cli.specs.Ends.{EndsWithStatus, EndsWithOutcome, sink_moments};
ghost use Rattle.s7_cli.specs.Inner.{AreOutputs, ComesBeforeLine, CommandComesTo, IsOutput, LineWritten, TextWritten, written_file};
ghost use Rattle.s7_cli.specs.Lines.{line_of_failure};
ghost use Rattle.s7_cli.specs.Reading.{Disk, disk_moments};
ghost use Rattle.s7_cli.specs.StatusTable.{StatusTable};

use crate::failures::{ExitStatus, Failure};
use crate::files::write_file;
use crate::listing::law_of_listings;
use crate::texts::failure_line;
use plc_io::{Files, IoFault, Sink, push_all};

/// What `check` writes for a source that is accepted, `recheck` for a certificate that holds, and
/// `compile`, `english`, `german`, `upgrade`, `list` and `bound` behind their files.
pub const OK_LINE: &[u8] = b"OK\n";

/// How a command came out whose text was written so.
pub fn outcome_of_write(outcome: Result<(), IoFault>) -> Result<(), Failure>
    ensures { (before after : SinkAt) (text : List ℕ)
        → WroteText before after text outcome
        → TextWritten text (sink_moments before after) result }
{
    match outcome {
        Ok(()) => Ok(()),
        Err(IoFault::Failed) => Err(Failure::WriteFault),
        Err(IoFault::NoMemory) => Err(Failure::NoMemory),
    }
}

/// Writes a whole text.
pub fn write_text<K: Sink>(out: &mut K, text: &[u8]) -> Result<(), Failure>
    ensures { TextWritten text.now (sink_moments (K.shown out.old) (K.shown out.new)) result }
{
    outcome_of_write(push_all(out, text))
}

/// Makes bytes the whole of a command's output file, and then writes `OK`.
pub fn write_output<F: Files, K: Sink>(
    files: &mut F,
    out: &mut K,
    name: &str,
    bytes: &[u8],
) -> Result<(), Failure>
    ensures { let went = disk_moments (F.shown files.old) (F.shown files.new) in
        let took = sink_moments (K.shown out.old) (K.shown out.new) in
        (c : Command) (contents : List (List ℕ)) → IsOutput c contents name.now bytes.now
        → CommandComesTo c contents went took result }
{
    write_file(files, name, bytes)?;
    write_text(out, OK_LINE)
}

/// A text that is made the whole of an output file.
#[derive(Clone, Copy)]
pub struct Output<'a> {
    pub name: &'a str,
    pub bytes: &'a [u8],
}

/// Makes texts the whole of a command's two output files, the first one first, and then writes
/// `OK`.
pub fn write_outputs<F: Files, K: Sink>(
    files: &mut F,
    out: &mut K,
    first: &Output<'_>,
    second: &Output<'_>,
) -> Result<(), Failure>
    ensures { let went = disk_moments (F.shown files.old) (F.shown files.new) in
        let took = sink_moments (K.shown out.old) (K.shown out.new) in
        (c : Command) (contents : List (List ℕ))
        → AreOutputs c contents (written_file first.now) (written_file second.now)
        → CommandComesTo c contents went took result }
{
    write_file(files, first.name, first.bytes)?;
    write_file(files, second.name, second.bytes)?;
    write_text(out, OK_LINE)
}

/// Writes the line of a failure, if it has one, and answers the failure, or that of the writing.
fn say<K: Sink>(out: &mut K, failure: Failure) -> Failure
    ensures { LineWritten (line_of_failure failure) failure
        (sink_moments (K.shown out.old) (K.shown out.new)) result }
{
    let Some(line) = failure_line(failure) else {
        return failure;
    };
    match write_text(out, line.as_slice()) {
        Ok(()) => failure,
        Err(fault) => fault,
    }
}

/// Writes the line of a command's failure, where it came out with one.
fn finish<K: Sink>(out: &mut K, came: Result<(), Failure>) -> Result<(), Failure>
    ensures { (c : Option Command) (d : Disk) (start : SinkAt)
        → ComesBeforeLine c d (sink_moments start (K.shown out.old)) came
        → EndsWithOutcome c d (sink_moments start (K.shown out.new)) result }
{
    match came {
        Ok(()) => Ok(()),
        Err(failure) => Err(say(out, failure)),
    }
}

/// Ends a command, whose failure isn't written yet.
pub fn end_command<K: Sink>(out: &mut K, came: Result<(), Failure>) -> ExitStatus
    ensures ends { (c : Option Command) (d : Disk) (start : SinkAt)
        → ComesBeforeLine c d (sink_moments start (K.shown out.old)) came
        → EndsWithStatus c d (sink_moments start (K.shown out.new)) result.code }
    ensures table { (c : Option Command) (d : Disk) (start : SinkAt)
        → ComesBeforeLine c d (sink_moments start (K.shown out.old)) came
        → StatusTable c d (sink_moments start (K.shown out.new)) result.code }
{
    // a source has one meaning or one refusal, and one translation or one violation
    sem_kept::laws::law_of_sources();
    de_mnemonics::law_of_translations();
    stack_bound::laws::certificates_keep_stacks();
    law_of_listings();
    ExitStatus::of(finish(out, came))
}
