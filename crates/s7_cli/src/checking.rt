ghost use Rattle.std.specs.Prelude.{ℕ, List, Option, Some};
ghost use Rattle.std.specs.Option.{option_map};
ghost use Rattle.plc_io.specs.Moments.{FilesAt};
ghost use Rattle.s7_cli.specs.Command.{Check};
ghost use Rattle.s7_cli.specs.Ends.{EndsWithStatus, sink_moments};
ghost use Rattle.s7_cli.specs.Inner.{ComesBeforeLine, CommandComesTo};
ghost use Rattle.s7_cli.specs.Reading.{disk_moments};
ghost use Rattle.s7_cli.specs.StatusTable.{StatusTable};
ghost use Rattle.s7_cli.specs.Texts.{AreFilesWithinLimits, file_contents_of};

use crate::command_checks::check_program;
use crate::failures::{ExitStatus, Failure};
use crate::files::{ProgramText, read_program};
use crate::finish::{OK_LINE, end_command, write_text};
use plc_io::{Files, Sink};
use std::alloc::Global;

/// Checks a source with its symbols, and writes `OK`.
fn check_text<K: Sink>(
    alloc: Global,
    text: &ProgramText,
    german: bool,
    out: &mut K,
) -> Result<(), Failure>
    requires { AreFilesWithinLimits text.now }
    ensures { let took = sink_moments (K.shown out.old) (K.shown out.new) in
        (src : List ℕ) (symbols : Option (List ℕ)) (at : FilesAt)
        → CommandComesTo (Check src symbols german) (file_contents_of text.now)
        (disk_moments at at) took result }
{
    check_program(alloc, text, german)?;
    write_text(out, OK_LINE)
}

/// Reads a source with its symbols, checks it, and writes `OK`.
fn check<F: Files, K: Sink>(
    alloc: Global,
    src: &str,
    symbols: Option<&str>,
    german: bool,
    files: &mut F,
    out: &mut K,
) -> Result<(), Failure>
    ensures { let files_went = disk_moments (F.shown files.old) (F.shown files.new) in
        ComesBeforeLine (Some (Check src.now (option_map (λ s. s.now) symbols.entry) german))
        files_went (sink_moments (K.shown out.old) (K.shown out.new)) result }
{
    let text = read_program(alloc, files, src, symbols)?;
    check_text(alloc, &text, german, out)
}

/// Checks the source in the file `src`, with the symbols in the file `symbols` if there is one,
/// both of which are German where `german` says so, and writes `OK`, or the line of a refusal.
pub fn cmd_check<F: Files, K: Sink>(
    alloc: Global,
    src: &str,
    symbols: Option<&str>,
    german: bool,
    files: &mut F,
    out: &mut K,
) -> ExitStatus
    ensures ends { let went = disk_moments (F.shown files.old) (F.shown files.new) in
        EndsWithStatus (Some (Check src.now (option_map (λ s. s.now) symbols.entry) german)) went
        (sink_moments (K.shown out.old) (K.shown out.new)) result.code }
    ensures table { let went = disk_moments (F.shown files.old) (F.shown files.new) in
        let took = sink_moments (K.shown out.old) (K.shown out.new) in
        StatusTable (Some (Check src.now (option_map (λ s. s.now) symbols.entry) german)) went took
        result.code }
{
    let came = check(alloc, src, symbols, german, files, out);
    end_command(out, came)
}
