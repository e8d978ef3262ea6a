ghost use Rattle.std.specs.Prelude.{◌≡◌, ◌≤◌, true, length, IfOk, IfErr, Ok};
ghost use Rattle.de_mnemonics.specs.Translation.{IsTranslationRefused, IsTranslation};
ghost use Rattle.plc_base.specs.declared.Profile.TheVariants.{Large};
ghost use Rattle.sem_kept.specs.Meaning.{HasSymbolsIn};
ghost use Rattle.stl_lexer.specs.Limits.{source_limit};
ghost use Rattle.stl_symbols.specs.declared.languages.Language.TheVariants.{German};
ghost use Rattle.s7_cli.specs.Inner.{SaysRefusal};
ghost use Rattle.s7_cli.specs.Says.{RefusedProgram};
ghost use Rattle.s7_cli.specs.Texts.{AreFilesWithinLimits, symbols_text_of};
ghost use Rattle.s7_cli.specs.Translating.{
  HasNoTranslation,
  HasProgramOf,
  IsEnglish,
  IsProgramOf,
  IsSourceImage,
  KeepsText,
  NotInEnglish,
};

use crate::compiling::{
    check_source_with, law_of_files, loaded_large, program_with_symbols, symbols_for_source,
};
use crate::failures::{Failure, File};
use crate::files::{ProgramText, limit_of};
use de_mnemonics::{to_english, to_german};
use flat_code::Program;
use image_file::{Loaded, write_image2};
use plc_base::{Profile, SourceFault};
use std::alloc::Global;
use stl_symbols::{Language, Symbols};

/// The translation of a source, however long it is.
fn whole_translation(
    alloc: Global,
    language: Language,
    source: &[u8],
) -> Result<Vec<u8>, SourceFault>
    requires { length source.now ≤ source_limit }
    ensures ok { IfOk result (λ text. IsTranslation language source.now text.items) }
    ensures refused { IfErr result (IsTranslationRefused language source.now) }
{
    match language {
        Language::English => to_english(alloc, source),
        Language::German => to_german(alloc, source),
    }
}

/// The translation of a source, which may be as long as a source.
pub(crate) fn translated_source(
    alloc: Global,
    language: Language,
    source: &[u8],
) -> Result<Vec<u8>, Failure>
    requires { length source.now ≤ source_limit }
    ensures ok { IfOk result (λ text. IsTranslation language source.now text.items) }
    ensures fits { IfOk result (λ text. length text.items ≤ 1048576) }
    ensures refused { SaysRefusal (HasNoTranslation language source.now) result }
{
    match whole_translation(alloc, language, source) {
        Ok(text) if text.len() <= limit_of(File::Translation) => Ok(text),
        Ok(_) => Err(Failure::TooLong {
            file: File::Translation,
        }),
        Err(SourceFault::Refused { refusal }) => Err(Failure::Refused {
            file: File::Source,
            refusal,
        }),
        Err(SourceFault::NoMemory) => Err(Failure::NoMemory),
    }
}

/// What the files of a German program come to.
#[derive(Drop)]
struct EnglishProgram {
    /// The English text of the source.
    source: Vec<u8>,
    /// The symbols.
    symbols: Symbols,
}

/// Reads the symbols of a German program, and then translates its source.
fn english_program(alloc: Global, text: &ProgramText) -> Result<EnglishProgram, Failure>
    requires { AreFilesWithinLimits text.now }
    ensures english { IfOk result
        (λ p. IsEnglish true text.now.source.items p.source.items) }
    ensures symbols { IfOk result
        (λ p. HasSymbolsIn German (symbols_text_of text.now) (Ok p.symbols)) }
    ensures refused { SaysRefusal
        (NotInEnglish text.now.source.items (symbols_text_of text.now)) result }
{
    let symbols = symbols_for_source(alloc, Language::German, text.symbols())?;
    let source = translated_source(alloc, Language::English, &text.source)?;
    Ok(EnglishProgram { source, symbols })
}

/// Checks a German source with its symbols.
pub(crate) fn check_german_source(alloc: Global, text: &ProgramText) -> Result<(), Failure>
    requires { AreFilesWithinLimits text.now }
    ensures accepted { IfOk result
        (λ done. HasProgramOf true text.now.source.items (symbols_text_of text.now)) }
    ensures refused { SaysRefusal
        (RefusedProgram true text.now.source.items (symbols_text_of text.now)) result }
{
    let EnglishProgram { source, symbols } = english_program(alloc, text)?;
    law_of_files(&source, text.symbols());
    Ok(check_source_with(alloc, &source, symbols)?)
}

/// The program of a German source with its symbols.
fn german_program(alloc: Global, text: &ProgramText) -> Result<Program, Failure>
    requires { AreFilesWithinLimits text.now }
    ensures keeps { IfOk result
        (KeepsText true text.now.source.items (symbols_text_of text.now)) }
    ensures made { IfOk result
        (IsProgramOf true text.now.source.items (symbols_text_of text.now)) }
    ensures refused { SaysRefusal
        (RefusedProgram true text.now.source.items (symbols_text_of text.now)) result }
{
    let EnglishProgram { source, symbols } = english_program(alloc, text)?;
    law_of_files(&source, text.symbols());
    Ok(program_with_symbols(alloc, &source, symbols)?)
}

/// The program of a German source with its symbols, loaded with the large profile.
pub(crate) fn compiled_german(alloc: Global, text: &ProgramText) -> Result<Loaded, Failure>
    requires { AreFilesWithinLimits text.now }
    ensures keeps { IfOk result
        (λ l. KeepsText true text.now.source.items (symbols_text_of text.now) l.program) }
    ensures large { IfOk result (λ l. l.profile ≡ Large) }
    ensures refused { SaysRefusal
        (RefusedProgram true text.now.source.items (symbols_text_of text.now)) result }
{
    let program = german_program(alloc, text)?;
    Ok(loaded_large(alloc, program)?)
}

/// The image of the program of a German source with its symbols, of version 2 for the large
/// profile.
pub(crate) fn image_german(alloc: Global, text: &ProgramText) -> Result<Vec<u8>, Failure>
    requires { AreFilesWithinLimits text.now }
    ensures keeps { IfOk result
        (λ v. IsSourceImage true v.items text.now.source.items (symbols_text_of text.now)) }
    ensures refused { SaysRefusal
        (RefusedProgram true text.now.source.items (symbols_text_of text.now)) result }
{
    let program = german_program(alloc, text)?;
    Ok(write_image2(alloc, &program, Profile::Large)?)
}
