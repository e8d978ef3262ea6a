ghost use Rattle.std.specs.Prelude.{ℕ, List, [], ◌∷◌, Some};
ghost use Rattle.s7_cli.specs.Command.{Upgrade};
ghost use Rattle.s7_cli.specs.Ends.{EndsWithStatus, sink_moments};
ghost use Rattle.s7_cli.specs.Inner.{ComesBeforeLine, CommandComesTo};
ghost use Rattle.s7_cli.specs.Reading.{disk_moments};
ghost use Rattle.s7_cli.specs.StatusTable.{StatusTable};

use crate::command_checks::check_upgrade;
use crate::failures::{ExitStatus, Failure, File};
use crate::files::read_file;
use crate::finish::{end_command, write_output};
use plc_io::{Files, Sink};
use std::alloc::Global;

/// Writes the image of version 2 of what an image holds, and then `OK`.
fn upgrade_image<F: Files, K: Sink>(
    alloc: Global,
    image: &[u8],
    img2: &str,
    files: &mut F,
    out: &mut K,
) -> Result<(), Failure>
    ensures { let went = disk_moments (F.shown files.old) (F.shown files.new) in
        let took = sink_moments (K.shown out.old) (K.shown out.new) in
        (img : List ℕ)
        → CommandComesTo (Upgrade img img2.now) (image.now ∷ []) went took result }
{
    let upgraded = check_upgrade(alloc, image)?;
    write_output(files, out, img2, &upgraded)
}

/// Reads an image, writes the image of version 2 of what it holds, and then `OK`.
fn upgrade<F: Files, K: Sink>(
    alloc: Global,
    img: &str,
    img2: &str,
    files: &mut F,
    out: &mut K,
) -> Result<(), Failure>
    ensures { let went = disk_moments (F.shown files.old) (F.shown files.new) in
        let took = sink_moments (K.shown out.old) (K.shown out.new) in
        ComesBeforeLine (Some (Upgrade img.now img2.now)) went took result }
{
    let image = read_file(alloc, files, File::Image, img)?;
    upgrade_image(alloc, &image, img2, files, out)
}

/// Loads the image in the file `img`, makes the image of version 2 of its program, names and
/// profile the whole of the file `img2`, and then writes `OK`; or writes the line of a refusal, and
/// no file. Both may be the same file.
pub fn cmd_upgrade<F: Files, K: Sink>(
    alloc: Global,
    img: &str,
    img2: &str,
    files: &mut F,
    out: &mut K,
) -> ExitStatus
    ensures ends { let went = disk_moments (F.shown files.old) (F.shown files.new) in
        EndsWithStatus (Some (Upgrade img.now img2.now)) went
        (sink_moments (K.shown out.old) (K.shown out.new)) result.code }
    ensures table { let went = disk_moments (F.shown files.old) (F.shown files.new) in
        StatusTable (Some (Upgrade img.now img2.now)) went
        (sink_moments (K.shown out.old) (K.shown out.new)) result.code }
{
    let came = upgrade(alloc, img, img2, files, out);
    end_command(out, came)
}
