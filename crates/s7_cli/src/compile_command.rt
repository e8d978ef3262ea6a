ghost use Rattle.std.specs.Prelude.{ℕ, List, Option, Some};
ghost use Rattle.std.specs.Option.{option_map};
ghost use Rattle.s7_cli.specs.Command.{Compile};
ghost use Rattle.s7_cli.specs.Ends.{EndsWithStatus, sink_moments};
ghost use Rattle.s7_cli.specs.Inner.{ComesBeforeLine, CommandComesTo};
ghost use Rattle.s7_cli.specs.Reading.{disk_moments};
ghost use Rattle.s7_cli.specs.StatusTable.{StatusTable};
ghost use Rattle.s7_cli.specs.Texts.{AreFilesWithinLimits, file_contents_of};

use crate::command_checks::check_image;
use crate::failures::{ExitStatus, Failure};
use crate::files::{ProgramText, read_program};
use crate::finish::{end_command, write_output};
use plc_io::{Files, Sink};
use std::alloc::Global;

/// Writes the image of a source with its symbols, and then `OK`.
fn compile_text<F: Files, K: Sink>(
    alloc: Global,
    text: &ProgramText,
    img: &str,
    german: bool,
    files: &mut F,
    out: &mut K,
) -> Result<(), Failure>
    requires { AreFilesWithinLimits text.now }
    ensures { let went = disk_moments (F.shown files.old) (F.shown files.new) in
        let took = sink_moments (K.shown out.old) (K.shown out.new) in
        (src : List ℕ) (symbols : Option (List ℕ))
        → CommandComesTo (Compile src symbols german img.now) (file_contents_of text.now) went
        took result }
{
    let image = check_image(alloc, text, german)?;
    write_output(files, out, img, &image)
}

/// Reads a source with its symbols, writes its image, and then `OK`.
fn compile<F: Files, K: Sink>(
    alloc: Global,
    src: &str,
    img: &str,
    symbols: Option<&str>,
    german: bool,
    files: &mut F,
    out: &mut K,
) -> Result<(), Failure>
    ensures { let went = disk_moments (F.shown files.old) (F.shown files.new) in
        let took = sink_moments (K.shown out.old) (K.shown out.new) in
        ComesBeforeLine
        (Some (Compile src.now (option_map (λ s. s.now) symbols.entry) german img.now))
        went took result }
{
    let text = read_program(alloc, files, src, symbols)?;
    compile_text(alloc, &text, img, german, files, out)
}

/// Compiles the source in the file `src`, with the symbols in the file `symbols` if there is one,
/// both of which are German where `german` says so,
/// makes its image the whole of the file `img`, and then writes `OK`; or writes the line of a
/// refusal, and no file.
pub fn cmd_compile<F: Files, K: Sink>(
    alloc: Global,
    src: &str,
    img: &str,
    symbols: Option<&str>,
    german: bool,
    files: &mut F,
    out: &mut K,
) -> ExitStatus
    ensures ends { let went = disk_moments (F.shown files.old) (F.shown files.new) in
        let took = sink_moments (K.shown out.old) (K.shown out.new) in
        EndsWithStatus
        (Some (Compile src.now (option_map (λ s. s.now) symbols.entry) german img.now))
        went took result.code }
    ensures table { let went = disk_moments (F.shown files.old) (F.shown files.new) in
        let took = sink_moments (K.shown out.old) (K.shown out.new) in
        StatusTable (Some (Compile src.now (option_map (λ s. s.now) symbols.entry) german img.now))
        went took result.code }
{
    let came = compile(alloc, src, img, symbols, german, files, out);
    end_command(out, came)
}
