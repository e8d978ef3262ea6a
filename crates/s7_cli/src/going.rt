ghost use Rattle.std.specs.Prelude.{ℕ, ◌≤◌, List, [], ◌∷◌, ◌++◌, Option, length, Some};
ghost use Rattle.std.specs.Option.{option_map};
ghost use Rattle.plc_io.specs.Moments.{FilesAt};
ghost use Rattle.s7_cli.specs.Command.{Go};
ghost use Rattle.s7_cli.specs.Ends.{EndsWithStatus, sink_moments};
ghost use Rattle.s7_cli.specs.Inner.{ComesBeforeLine, CommandComesTo};
ghost use Rattle.s7_cli.specs.Reading.{disk_moments};
ghost use Rattle.s7_cli.specs.StatusTable.{StatusTable};
ghost use Rattle.s7_cli.specs.Texts.{AreFilesWithinLimits, file_contents_of};

use crate::command_checks::check_with_history;
use crate::failures::{ExitStatus, Failure, File};
use crate::files::{ProgramText, read_file, read_program};
use crate::finish::{end_command, outcome_of_write};
use crate::run_text::replay_text;
use plc_io::{Files, Sink};
use std::alloc::Global;

/// Checks a source with its symbols and a history, and writes the run.
fn go_along<K: Sink>(
    alloc: Global,
    text: &ProgramText,
    german: bool,
    history: &[u8],
    out: &mut K,
) -> Result<(), Failure>
    requires text { AreFilesWithinLimits text.now }
    requires history { length history.now ≤ 4194304 }
    ensures { let took = sink_moments (K.shown out.old) (K.shown out.new) in
        (src hist : List ℕ) (symbols : Option (List ℕ)) (at : FilesAt)
        → CommandComesTo (Go src symbols german hist)
        (file_contents_of text.now ++ history.now ∷ []) (disk_moments at at) took result }
{
    let (program, entries) = check_with_history(alloc, text, german, history)?;
    // programs that no history tells apart have one text
    controller::laws::continues_replay();
    outcome_of_write(replay_text(alloc, program, &entries, out))
}

/// Reads a source with its symbols and a history, checks all, and writes the run.
fn go<F: Files, K: Sink>(
    alloc: Global,
    src: &str,
    hist: &str,
    symbols: Option<&str>,
    german: bool,
    files: &mut F,
    out: &mut K,
) -> Result<(), Failure>
    ensures { let went = disk_moments (F.shown files.old) (F.shown files.new) in
        let took = sink_moments (K.shown out.old) (K.shown out.new) in
        ComesBeforeLine
        (Some (Go src.now (option_map (λ s. s.now) symbols.entry) german hist.now))
        went took result }
{
    let text = read_program(alloc, files, src, symbols)?;
    let history = read_file(alloc, files, File::History, hist)?;
    go_along(alloc, &text, german, &history, out)
}

/// Runs the source in the file `src`, with the symbols in the file `symbols` if there is one, both
/// of which are German where `german` says so, along the history in the file `hist`, and writes the
/// text of the run, or the line of a refusal.
pub fn cmd_go<F: Files, K: Sink>(
    alloc: Global,
    src: &str,
    hist: &str,
    symbols: Option<&str>,
    german: bool,
    files: &mut F,
    out: &mut K,
) -> ExitStatus
    ensures ends { let went = disk_moments (F.shown files.old) (F.shown files.new) in
        let took = sink_moments (K.shown out.old) (K.shown out.new) in
        EndsWithStatus
        (Some (Go src.now (option_map (λ s. s.now) symbols.entry) german hist.now))
        went took result.code }
    ensures table { let went = disk_moments (F.shown files.old) (F.shown files.new) in
        let took = sink_moments (K.shown out.old) (K.shown out.new) in
        StatusTable
        (Some (Go src.now (option_map (λ s. s.now) symbols.entry) german hist.now))
        went took result.code }
{
    let came = go(alloc, src, hist, symbols, german, files, out);
    end_command(out, came)
}
