ghost use Rattle.std.specs.Prelude.{◌≡◌, ◌≤◌, length, map, option_to_list};
ghost use Rattle.std.specs.Option.{option_map};
ghost use Rattle.s7_cli.specs.Command.{InputFile, limit_of, live_inputs, program_inputs, script_inputs, symbols_inputs};
ghost use Rattle.s7_cli.specs.Inner.{AllRead, FileRead, FileWritten};
ghost use Rattle.s7_cli.specs.LiveTexts.{live_contents};
ghost use Rattle.s7_cli.specs.Reading.{disk_moments};
ghost use Rattle.s7_cli.specs.Texts.{file_contents_of, symbols_text_of};

use crate::failures::{Failure, File};
use crate::lists::add;
use plc_io::{Files, IoFault, read_to_limit};
use std::alloc::Global;
use stl_lexer::SOURCE_LIMIT;
use stl_symbols::SYMBOLS_LIMIT;

/// The most bytes of an image.
const IMAGE_LIMIT: usize = 8_388_608;

/// The most bytes of a history, and of stimuli.
const HISTORY_LIMIT: usize = 4_194_304;

/// The most bytes of the file of a watch's variables.
const VARS_LIMIT: usize = 1_048_576;

/// The most bytes of a script.
const SCRIPT_LIMIT: usize = 1_048_576;

/// The most bytes of a certificate.
const CERTIFICATE_LIMIT: usize = 1_048_576;

/// What the files of a program hold.
#[derive(Drop)]
pub struct ProgramText {
    /// The source.
    pub source: Vec<u8>,
    /// The symbols file, if there is one.
    pub symbols: Option<Vec<u8>>,
}

impl ProgramText {
    /// The bytes of the symbols file; none where there is no file.
    pub fn symbols(&self) -> &[u8]
        ensures { result.now ≡ symbols_text_of self.now }
    {
        match &self.symbols {
            Some(bytes) => bytes.as_slice(),
            None => &[],
        }
    }
}

/// What the files of a live run hold.
#[derive(Drop)]
pub struct LiveText {
    /// The image.
    pub image: Vec<u8>,
    /// What the feeder makes.
    pub stimuli: Vec<u8>,
    /// What the operators ask, in their order.
    pub scripts: Vec<Vec<u8>>,
}

/// The most bytes that a file may hold.
pub(crate) fn limit_of(file: File) -> usize
    ensures { result ≡ limit_of file }
{
    match file {
        File::Source | File::Translation | File::Listing => SOURCE_LIMIT,
        File::Symbols => SYMBOLS_LIMIT,
        File::Image => IMAGE_LIMIT,
        File::History | File::Stimuli => HISTORY_LIMIT,
        File::Vars => VARS_LIMIT,
        File::Script { .. } => SCRIPT_LIMIT,
        File::Certificate => CERTIFICATE_LIMIT,
    }
}

/// Reads an input file whole. A failed read goes before a length past the limit.
pub fn read_file<F: Files>(
    alloc: Global,
    files: &mut F,
    file: File,
    name: &str,
) -> Result<Vec<u8>, Failure>
    ensures { let input : InputFile = record { file = file; name = name.now } in
        FileRead (λ v. v.items) (disk_moments (F.shown files.old) (F.shown files.new)) input
        result }
{
    let limit = limit_of(file);
    match read_to_limit(alloc, files, name, limit) {
        Ok(bytes) if bytes.len() <= limit => Ok(bytes),
        Ok(_) => Err(Failure::TooLong { file }),
        Err(IoFault::Failed) => Err(Failure::ReadFault),
        Err(IoFault::NoMemory) => Err(Failure::NoMemory),
    }
}

/// Reads the symbols file whole, if there is one.
fn read_symbols_file<F: Files>(
    alloc: Global,
    files: &mut F,
    symbols: Option<&str>,
) -> Result<Option<Vec<u8>>, Failure>
    ensures { AllRead (λ o. option_to_list (option_map (λ v. v.items) o))
        (disk_moments (F.shown files.old) (F.shown files.new))
        (symbols_inputs (option_map (λ s. s.now) symbols.entry)) result }
{
    match symbols {
        Some(name) => Ok(Some(read_file(alloc, files, File::Symbols, name)?)),
        None => Ok(None),
    }
}

/// Reads a source whole, and then its symbols file, if there is one.
pub fn read_program<F: Files>(
    alloc: Global,
    files: &mut F,
    source: &str,
    symbols: Option<&str>,
) -> Result<ProgramText, Failure>
    ensures { AllRead file_contents_of (disk_moments (F.shown files.old) (F.shown files.new))
        (program_inputs source.now (option_map (λ s. s.now) symbols.entry)) result }
{
    let source = read_file(alloc, files, File::Source, source)?;
    let symbols = read_symbols_file(alloc, files, symbols)?;
    Ok(ProgramText { source, symbols })
}

/// Reads the scripts of operators whole, one after the other.
pub fn read_scripts<F: Files>(
    alloc: Global,
    files: &mut F,
    names: &[&str],
) -> Result<Vec<Vec<u8>>, Failure>
    requires { length names.now ≤ 4 }
    ensures { AllRead (λ v. map (λ w. w.items) v.items)
        (disk_moments (F.shown files.old) (F.shown files.new))
        (script_inputs 1 (map (λ s. s.now) names.now)) result }
{
    let mut scripts = Vec::new(alloc);
    for (place, name) in names.iter().enumerate() {
        let number = place as u8 + 1;
        let script = read_file(alloc, files, File::Script { number }, name)?;
        add(&mut scripts, script)?;
    }
    Ok(scripts)
}

/// Reads an image whole, then stimuli, and then the scripts in their order.
pub fn read_live<F: Files>(
    alloc: Global,
    files: &mut F,
    image: &str,
    stimuli: &str,
    scripts: &[&str],
) -> Result<LiveText, Failure>
    requires { length scripts.now ≤ 4 }
    ensures { AllRead live_contents (disk_moments (F.shown files.old) (F.shown files.new))
        (live_inputs image.now stimuli.now (map (λ s. s.now) scripts.now)) result }
{
    let image = read_file(alloc, files, File::Image, image)?;
    let stimuli = read_file(alloc, files, File::Stimuli, stimuli)?;
    let scripts = read_scripts(alloc, files, scripts)?;
    Ok(LiveText {
        image,
        stimuli,
        scripts,
    })
}

/// Makes bytes the whole contents of an output file.
pub fn write_file<F: Files>(files: &mut F, name: &str, bytes: &[u8]) -> Result<(), Failure>
    ensures { FileWritten (disk_moments (F.shown files.old) (F.shown files.new)) name.now bytes.now
        result }
{
    match files.write_whole(name, bytes) {
        Ok(()) => Ok(()),
        Err(IoFault::Failed) => Err(Failure::WriteFault),
        Err(IoFault::NoMemory) => Err(Failure::NoMemory),
    }
}
