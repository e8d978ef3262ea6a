ghost use Rattle.std.specs.Prelude.{ℕ, ◌≤◌, List, [], ◌∷◌, length, Some, OnOk};
ghost use Rattle.plc_io.specs.Moments.{FilesAt};
ghost use Rattle.s7_cli.specs.BoundSays.{RecheckSays};
ghost use Rattle.s7_cli.specs.BoundTexts.{IsCertificateOfImage};
ghost use Rattle.s7_cli.specs.Command.{Recheck};
ghost use Rattle.s7_cli.specs.Ends.{EndsWithStatus, sink_moments};
ghost use Rattle.s7_cli.specs.Inner.{ComesBeforeLine, CommandComesTo, SaysRefusal};
ghost use Rattle.s7_cli.specs.Reading.{disk_moments};
ghost use Rattle.s7_cli.specs.StatusTable.{StatusTable};

use crate::command_checks::loaded_image;
use crate::failures::{ExitStatus, Failure, File};
use crate::files::read_file;
use crate::finish::{OK_LINE, end_command, write_text};
use plc_io::{Files, Sink};
use stack_bound::{holds, read_certificate};
use std::alloc::Global;

/// Checks an image, and then a certificate of it.
fn check_recheck(alloc: Global, image: &[u8], certificate: &[u8]) -> Result<(), Failure>
    requires { length certificate.now ≤ 4194304 }
    ensures holds { OnOk result (IsCertificateOfImage image.now certificate.now) }
    ensures refused { SaysRefusal (RecheckSays image.now certificate.now) result }
{
    let loaded = loaded_image(alloc, image)?;
    let list = read_certificate(alloc, &loaded, certificate)?;
    if holds(&loaded, &list) {
        return Ok(());
    }
    Err(Failure::SaysNo)
}

/// Checks an image and a certificate, and writes `OK`.
fn recheck_image<K: Sink>(
    alloc: Global,
    image: &[u8],
    certificate: &[u8],
    out: &mut K,
) -> Result<(), Failure>
    requires { length certificate.now ≤ 4194304 }
    ensures { let took = sink_moments (K.shown out.old) (K.shown out.new) in
        (img cert : List ℕ) (at : FilesAt)
        → CommandComesTo (Recheck img cert) (image.now ∷ certificate.now ∷ [])
        (disk_moments at at) took result }
{
    check_recheck(alloc, image, certificate)?;
    write_text(out, OK_LINE)
}

/// Reads an image and a certificate, checks both, and writes `OK`.
fn recheck<F: Files, K: Sink>(
    alloc: Global,
    img: &str,
    cert: &str,
    files: &mut F,
    out: &mut K,
) -> Result<(), Failure>
    ensures { let went = disk_moments (F.shown files.old) (F.shown files.new) in
        let took = sink_moments (K.shown out.old) (K.shown out.new) in
        ComesBeforeLine (Some (Recheck img.now cert.now)) went took result }
{
    let image = read_file(alloc, files, File::Image, img)?;
    let certificate = read_file(alloc, files, File::Certificate, cert)?;
    recheck_image(alloc, &image, &certificate, out)
}

/// Loads the image in the file `img`, reads the certificate in the file `cert`, and writes `OK`
/// where it holds of the image, else the line of a refusal, or that it says no. Where the status is
/// 0, no valid history of the image leads to a STOP by block depth or local data.
pub fn cmd_recheck<F: Files, K: Sink>(
    alloc: Global,
    img: &str,
    cert: &str,
    files: &mut F,
    out: &mut K,
) -> ExitStatus
    ensures ends { let went = disk_moments (F.shown files.old) (F.shown files.new) in
        EndsWithStatus (Some (Recheck img.now cert.now)) went
        (sink_moments (K.shown out.old) (K.shown out.new)) result.code }
    ensures table { let went = disk_moments (F.shown files.old) (F.shown files.new) in
        StatusTable (Some (Recheck img.now cert.now)) went
        (sink_moments (K.shown out.old) (K.shown out.new)) result.code }
{
    let came = recheck(alloc, img, cert, files, out);
    end_command(out, came)
}
