ghost use Rattle.std.specs.Prelude.{ℕ, ◌≤◌, List, [], ◌∷◌, length, Some};
ghost use Rattle.stl_lexer.specs.Limits.{source_limit};
ghost use Rattle.stl_symbols.specs.declared.languages.Language.TheVariants.{English, German};
ghost use Rattle.s7_cli.specs.Command.{Translate};
ghost use Rattle.s7_cli.specs.Ends.{EndsWithStatus, sink_moments};
ghost use Rattle.s7_cli.specs.Inner.{ComesBeforeLine, CommandComesTo};
ghost use Rattle.s7_cli.specs.Reading.{disk_moments};
ghost use Rattle.s7_cli.specs.StatusTable.{StatusTable};

use crate::failures::{ExitStatus, Failure, File};
use crate::files::read_file;
use crate::finish::{end_command, write_output};
use crate::translating::translated_source;
use plc_io::{Files, Sink};
use std::alloc::Global;
use stl_symbols::Language;

/// Writes the translation of a source, and then `OK`.
fn translate_text<F: Files, K: Sink>(
    alloc: Global,
    language: Language,
    source: &[u8],
    translation: &str,
    files: &mut F,
    out: &mut K,
) -> Result<(), Failure>
    requires { length source.now ≤ source_limit }
    ensures { let went = disk_moments (F.shown files.old) (F.shown files.new) in
        let took = sink_moments (K.shown out.old) (K.shown out.new) in
        (src : List ℕ)
        → CommandComesTo (Translate language src translation.now) (source.now ∷ []) went took
        result }
{
    let text = translated_source(alloc, language, source)?;
    write_output(files, out, translation, &text)
}

/// Reads a source, writes its translation, and then `OK`.
fn translate<F: Files, K: Sink>(
    alloc: Global,
    language: Language,
    src: &str,
    translation: &str,
    files: &mut F,
    out: &mut K,
) -> Result<(), Failure>
    ensures { let went = disk_moments (F.shown files.old) (F.shown files.new) in
        let took = sink_moments (K.shown out.old) (K.shown out.new) in
        ComesBeforeLine (Some (Translate language src.now translation.now)) went took result }
{
    let source = read_file(alloc, files, File::Source, src)?;
    translate_text(alloc, language, &source, translation, files, out)
}

/// Makes the translation of the source in the file `src` to the mnemonics of a language the whole
/// of the file `translation`, and then writes `OK`; or writes the line of a refusal, and no file.
pub fn cmd_translate<F: Files, K: Sink>(
    alloc: Global,
    language: Language,
    src: &str,
    translation: &str,
    files: &mut F,
    out: &mut K,
) -> ExitStatus
    ensures ends { let went = disk_moments (F.shown files.old) (F.shown files.new) in
        EndsWithStatus (Some (Translate language src.now translation.now)) went
        (sink_moments (K.shown out.old) (K.shown out.new)) result.code }
    ensures table { let went = disk_moments (F.shown files.old) (F.shown files.new) in
        StatusTable (Some (Translate language src.now translation.now)) went
        (sink_moments (K.shown out.old) (K.shown out.new)) result.code }
{
    let came = translate(alloc, language, src, translation, files, out);
    end_command(out, came)
}

/// Makes the translation of the source in the file `src` from German mnemonics to English ones the
/// whole of the file `translation`, and then writes `OK`; or writes the line of a refusal, and no
/// file. Both may be the same file.
pub fn cmd_english<F: Files, K: Sink>(
    alloc: Global,
    src: &str,
    translation: &str,
    files: &mut F,
    out: &mut K,
) -> ExitStatus
    ensures ends { let went = disk_moments (F.shown files.old) (F.shown files.new) in
        EndsWithStatus (Some (Translate English src.now translation.now)) went
        (sink_moments (K.shown out.old) (K.shown out.new)) result.code }
    ensures table { let went = disk_moments (F.shown files.old) (F.shown files.new) in
        StatusTable (Some (Translate English src.now translation.now)) went
        (sink_moments (K.shown out.old) (K.shown out.new)) result.code }
{
    cmd_translate(alloc, Language::English, src, translation, files, out)
}

/// Makes the translation of the source in the file `src` from English mnemonics to German ones the
/// whole of the file `translation`, as `cmd_english` does the other way.
pub fn cmd_german<F: Files, K: Sink>(
    alloc: Global,
    src: &str,
    translation: &str,
    files: &mut F,
    out: &mut K,
) -> ExitStatus
    ensures ends { let went = disk_moments (F.shown files.old) (F.shown files.new) in
        EndsWithStatus (Some (Translate German src.now translation.now)) went
        (sink_moments (K.shown out.old) (K.shown out.new)) result.code }
    ensures table { let went = disk_moments (F.shown files.old) (F.shown files.new) in
        StatusTable (Some (Translate German src.now translation.now)) went
        (sink_moments (K.shown out.old) (K.shown out.new)) result.code }
{
    cmd_translate(alloc, Language::German, src, translation, files, out)
}
