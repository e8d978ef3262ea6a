ghost use Rattle.std.specs.Prelude.{◌≢◌, ℕ, List, [], ◌∷◌, Some};
ghost use Rattle.s7_cli.specs.Command.{ListImage};
ghost use Rattle.s7_cli.specs.Ends.{EndsWithStatus, sink_moments};
ghost use Rattle.s7_cli.specs.Inner.{ComesBeforeLine, CommandComesTo};
ghost use Rattle.s7_cli.specs.Reading.{disk_moments};
ghost use Rattle.s7_cli.specs.StatusTable.{StatusTable};

use crate::failures::{ExitStatus, Failure, File};
use crate::files::read_file;
use crate::finish::{Output, end_command, write_outputs};
use crate::listing::check_listing;
use plc_io::{Files, Sink};
use std::alloc::Global;

/// Writes the source and the symbols file of what an image holds, and then `OK`.
fn list_image<F: Files, K: Sink>(
    alloc: Global,
    image: &[u8],
    src: &str,
    sym: &str,
    files: &mut F,
    out: &mut K,
) -> Result<(), Failure>
    requires { src.now ≢ sym.now }
    ensures { let went = disk_moments (F.shown files.old) (F.shown files.new) in
        let took = sink_moments (K.shown out.old) (K.shown out.new) in
        (img : List ℕ)
        → CommandComesTo (ListImage img src.now sym.now) (image.now ∷ []) went took result }
{
    let listing = check_listing(alloc, image)?;
    let source = Output {
        name: src,
        bytes: listing.source.as_slice(),
    };
    let symbols = Output {
        name: sym,
        bytes: listing.symbols.as_slice(),
    };
    write_outputs(files, out, &source, &symbols)
}

/// Reads an image, writes the source and the symbols file of what it holds, and then `OK`.
fn list<F: Files, K: Sink>(
    alloc: Global,
    img: &str,
    src: &str,
    sym: &str,
    files: &mut F,
    out: &mut K,
) -> Result<(), Failure>
    requires { src.now ≢ sym.now }
    ensures { let went = disk_moments (F.shown files.old) (F.shown files.new) in
        let took = sink_moments (K.shown out.old) (K.shown out.new) in
        ComesBeforeLine (Some (ListImage img.now src.now sym.now)) went took result }
{
    let image = read_file(alloc, files, File::Image, img)?;
    list_image(alloc, &image, src, sym, files, out)
}

/// Loads the image in the file `img`, makes the source that is listed of its program the whole of
/// the file `src`, and its names the whole of the symbols file `sym`, and then writes `OK`; or
/// writes the line of a refusal, and no file. Where the status is 0, the two compile to the program
/// of the image, names and lines with it. Either may be the image's own file.
pub fn cmd_list<F: Files, K: Sink>(
    alloc: Global,
    img: &str,
    src: &str,
    sym: &str,
    files: &mut F,
    out: &mut K,
) -> ExitStatus
    requires { src.now ≢ sym.now }
    ensures ends { let went = disk_moments (F.shown files.old) (F.shown files.new) in
        EndsWithStatus (Some (ListImage img.now src.now sym.now)) went
        (sink_moments (K.shown out.old) (K.shown out.new)) result.code }
    ensures table { let went = disk_moments (F.shown files.old) (F.shown files.new) in
        StatusTable (Some (ListImage img.now src.now sym.now)) went
        (sink_moments (K.shown out.old) (K.shown out.new)) result.code }
{
    let came = list(alloc, img, src, sym, files, out);
    end_command(out, came)
}
