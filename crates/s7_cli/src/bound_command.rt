ghost use Rattle.std.specs.Prelude.{ℕ, List, [], ◌∷◌, Some, IfOk};
ghost use Rattle.plc_io.specs.Moments.{FilesAt};
ghost use Rattle.s7_cli.specs.BoundSays.{BoundSays};
ghost use Rattle.s7_cli.specs.BoundTexts.{IsChainLine, IsBoundText, IsBoundTextOfImage};
ghost use Rattle.s7_cli.specs.Command.{Bound};
ghost use Rattle.s7_cli.specs.Ends.{EndsWithStatus, sink_moments};
ghost use Rattle.s7_cli.specs.Inner.{ComesBeforeLine, CommandComesTo, SaysRefusal};
ghost use Rattle.s7_cli.specs.Reading.{disk_moments};
ghost use Rattle.s7_cli.specs.StatusTable.{StatusTable};

use crate::command_checks::loaded_image;
use crate::failures::{ExitStatus, Failure, File};
use crate::files::read_file;
use crate::finish::{end_command, write_output, write_text};
use plc_base::NoMemory;
use plc_io::{Files, Sink};
use stack_bound::{Found, find, write_certificate, write_chain};
use std::alloc::Global;

/// What is found of a program, as text.
#[derive(Drop)]
enum BoundText {
    /// The certificate.
    Fits { certificate: Vec<u8> },
    /// The line of a chain that is too deep.
    Deep { line: Vec<u8> },
}

/// The text of what was found.
fn text_of_found(alloc: Global, found: &Found) -> Result<BoundText, NoMemory>
    ensures { IfOk result (IsBoundText found.now) }
{
    let mut text = Vec::new(alloc);
    match found {
        Found::Fits { list } => {
            write_certificate(list, &mut text)?;
            Ok(BoundText::Fits { certificate: text })
        }
        Found::Deep { chain } => {
            write_chain(chain, &mut text)?;
            Ok(BoundText::Deep { line: text })
        }
    }
}

/// Checks an image, and finds the certificate of its program, or a chain that is too deep.
#[tactic(auto, using(crate::proofs::BoundLemmas::tells))]
fn check_bound(alloc: Global, image: &[u8]) -> Result<BoundText, Failure>
    ensures tells { IfOk result (IsBoundTextOfImage image.now) }
    ensures refused { SaysRefusal (BoundSays image.now) result }
{
    let loaded = loaded_image(alloc, image)?;
    let found = find(alloc, &loaded)?;
    Ok(text_of_found(alloc, &found)?)
}

/// Writes the line of a chain that is too deep.
fn write_deep<K: Sink>(out: &mut K, line: &[u8]) -> Result<(), Failure>
    ensures { let took = sink_moments (K.shown out.old) (K.shown out.new) in
        (img cert image : List ℕ) (at : FilesAt) → IsChainLine line.now image
        → CommandComesTo (Bound img cert) (image ∷ []) (disk_moments at at) took result }
{
    write_text(out, line)?;
    Err(Failure::TooDeep)
}

/// Writes the certificate of an image and then `OK`, or the line of a chain.
fn bound_image<F: Files, K: Sink>(
    alloc: Global,
    image: &[u8],
    cert: &str,
    files: &mut F,
    out: &mut K,
) -> Result<(), Failure>
    ensures { let went = disk_moments (F.shown files.old) (F.shown files.new) in
        let took = sink_moments (K.shown out.old) (K.shown out.new) in
        (img : List ℕ)
        → CommandComesTo (Bound img cert.now) (image.now ∷ []) went took result }
{
    match check_bound(alloc, image) {
        Ok(BoundText::Fits { certificate }) => write_output(files, out, cert, &certificate),
        Ok(BoundText::Deep { line }) => write_deep(out, &line),
        Err(failure) => Err(failure),
    }
}

/// Reads an image, and writes its certificate and then `OK`, or the line of a chain.
fn bound<F: Files, K: Sink>(
    alloc: Global,
    img: &str,
    cert: &str,
    files: &mut F,
    out: &mut K,
) -> Result<(), Failure>
    ensures { let went = disk_moments (F.shown files.old) (F.shown files.new) in
        let took = sink_moments (K.shown out.old) (K.shown out.new) in
        ComesBeforeLine (Some (Bound img.now cert.now)) went took result }
{
    let image = read_file(alloc, files, File::Image, img)?;
    bound_image(alloc, &image, cert, files, out)
}

/// Loads the image in the file `img`, makes the least certificate of its stacks the whole of the
/// file `cert`, and then writes `OK`; or writes a chain of calls that is too deep, or the line of a
/// refusal, and no file. Where the status is 0, no valid history of the image leads to a STOP by
/// block depth or local data.
pub fn cmd_bound<F: Files, K: Sink>(
    alloc: Global,
    img: &str,
    cert: &str,
    files: &mut F,
    out: &mut K,
) -> ExitStatus
    ensures ends { let went = disk_moments (F.shown files.old) (F.shown files.new) in
        EndsWithStatus (Some (Bound img.now cert.now)) went
        (sink_moments (K.shown out.old) (K.shown out.new)) result.code }
    ensures table { let went = disk_moments (F.shown files.old) (F.shown files.new) in
        StatusTable (Some (Bound img.now cert.now)) went
        (sink_moments (K.shown out.old) (K.shown out.new)) result.code }
{
    let came = bound(alloc, img, cert, files, out);
    end_command(out, came)
}
