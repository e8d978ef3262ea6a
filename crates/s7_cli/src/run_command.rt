ghost use Rattle.std.specs.Prelude.{ℕ, ◌≤◌, List, [], ◌∷◌, length, Some};
ghost use Rattle.plc_io.specs.Moments.{FilesAt};
ghost use Rattle.s7_cli.specs.Command.{Run};
ghost use Rattle.s7_cli.specs.Ends.{EndsWithStatus, sink_moments};
ghost use Rattle.s7_cli.specs.Inner.{ComesBeforeLine, CommandComesTo};
ghost use Rattle.s7_cli.specs.Reading.{disk_moments};
ghost use Rattle.s7_cli.specs.StatusTable.{StatusTable};

use crate::command_checks::check_run;
use crate::failures::{ExitStatus, Failure, File};
use crate::files::read_file;
use crate::finish::{end_command, outcome_of_write};
use crate::run_text::replay_text;
use plc_io::{Files, Sink};
use std::alloc::Global;

/// Checks an image and a history, and writes the run.
fn run_along<K: Sink>(
    alloc: Global,
    image: &[u8],
    history: &[u8],
    out: &mut K,
) -> Result<(), Failure>
    requires { length history.now ≤ 4194304 }
    ensures { let took = sink_moments (K.shown out.old) (K.shown out.new) in
        (img hist : List ℕ) (at : FilesAt)
        → CommandComesTo (Run img hist) (image.now ∷ history.now ∷ [])
        (disk_moments at at) took result }
{
    let (program, entries) = check_run(alloc, image, history)?;
    outcome_of_write(replay_text(alloc, program, &entries, out))
}

/// Reads an image and a history, checks both, and writes the run.
fn run<F: Files, K: Sink>(
    alloc: Global,
    img: &str,
    hist: &str,
    files: &mut F,
    out: &mut K,
) -> Result<(), Failure>
    ensures { let went = disk_moments (F.shown files.old) (F.shown files.new) in
        let took = sink_moments (K.shown out.old) (K.shown out.new) in
        ComesBeforeLine (Some (Run img.now hist.now)) went took result }
{
    let image = read_file(alloc, files, File::Image, img)?;
    let history = read_file(alloc, files, File::History, hist)?;
    run_along(alloc, &image, &history, out)
}

/// Runs the image in the file `img` along the history in the file `hist`, which may name the
/// variables whose names stand in the image, and writes the text of the run, or the line of a
/// refusal.
pub fn cmd_run<F: Files, K: Sink>(
    alloc: Global,
    img: &str,
    hist: &str,
    files: &mut F,
    out: &mut K,
) -> ExitStatus
    ensures ends { let went = disk_moments (F.shown files.old) (F.shown files.new) in
        EndsWithStatus (Some (Run img.now hist.now)) went
        (sink_moments (K.shown out.old) (K.shown out.new)) result.code }
    ensures table { let went = disk_moments (F.shown files.old) (F.shown files.new) in
        StatusTable (Some (Run img.now hist.now)) went
        (sink_moments (K.shown out.old) (K.shown out.new)) result.code }
{
    let came = run(alloc, img, hist, files, out);
    end_command(out, came)
}
