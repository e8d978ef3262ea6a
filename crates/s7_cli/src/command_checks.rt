ghost use Rattle.std.specs.Prelude.{◌≡◌, ℕ, ◌≤◌, length, map, All, IfOk, IfErr, Ok};
ghost use Rattle.var_access.specs.Entry.{IsValid};
ghost use Rattle.flat_code.specs.Image.{image as image_of};
ghost use Rattle.flat_code.specs.Loading.{faults_of};
ghost use Rattle.flat_code.specs.declared.stamps.Stamp.TheVariants.{Two};
ghost use Rattle.image_file.specs.Refusing.{IsLoadError};
ghost use Rattle.plc_base.specs.declared.Profile.TheVariants.{Large};
ghost use Rattle.sem_kept.specs.Agreement.{names_read_in};
ghost use Rattle.event_text.specs.Texts.{history_of_text};
ghost use Rattle.s7_cli.specs.Inner.{SaysRefusal};
ghost use Rattle.s7_cli.specs.LiveSays.{scripts_from};
ghost use Rattle.s7_cli.specs.LiveTexts.{AreScriptsWithin, FindsProgramAndScripts, IsLiveText, IsScriptRefusal, LiveTextSays};
ghost use Rattle.s7_cli.specs.Living.{AreRegularBy, total_length};
ghost use Rattle.s7_cli.specs.Loads.{LoadsAs};
ghost use Rattle.s7_cli.specs.Says.{GoSays, IsUpgraded, RefusedProgram, RunSays, UpgradeSays};
ghost use Rattle.s7_cli.specs.Texts.{AreFilesWithinLimits, symbols_text_of};
ghost use Rattle.s7_cli.specs.Translating.{HasProgramOf, IsSourceImage, KeepsText, language_of};

use crate::compiling::{check_source, compiled, compiled_image};
use crate::failures::{Failure, File, failure_of_text};
use crate::files::{LiveText, ProgramText};
use crate::lists::add;
use crate::translating::{check_german_source, compiled_german, image_german};
use event_text::{read_history, read_script, read_stimuli};
use flat_code::Names;
use image_file::{LoadError, Loaded, load, write_image2};
use plc_base::NoMemory;
use std::alloc::Global;
use var_access::{Entries, Entry};

/// Checks a source with its symbols, which are German where `german` says so.
pub fn check_program(alloc: Global, text: &ProgramText, german: bool) -> Result<(), Failure>
    requires { AreFilesWithinLimits text.now }
    ensures accepted { IfOk result
        (λ done. HasProgramOf german text.now.source.items (symbols_text_of text.now)) }
    ensures refused { SaysRefusal
        (RefusedProgram german text.now.source.items (symbols_text_of text.now)) result }
{
    if german {
        return check_german_source(alloc, text);
    }
    Ok(check_source(alloc, &text.source, text.symbols())?)
}

/// Checks a source with its symbols, and makes the image of its program.
pub fn check_image(alloc: Global, text: &ProgramText, german: bool) -> Result<Vec<u8>, Failure>
    requires { AreFilesWithinLimits text.now }
    ensures keeps { IfOk result
        (λ v. IsSourceImage german v.items text.now.source.items (symbols_text_of text.now)) }
    ensures refused { SaysRefusal
        (RefusedProgram german text.now.source.items (symbols_text_of text.now)) result }
{
    if german {
        return image_german(alloc, text);
    }
    Ok(compiled_image(alloc, &text.source, text.symbols())?)
}

/// The loaded program of a source with its symbols.
fn check_loaded(alloc: Global, text: &ProgramText, german: bool) -> Result<Loaded, Failure>
    requires { AreFilesWithinLimits text.now }
    ensures keeps { IfOk result
        (λ l. KeepsText german text.now.source.items (symbols_text_of text.now) l.program) }
    ensures large { IfOk result (λ l. l.profile ≡ Large) }
    ensures refused { SaysRefusal
        (RefusedProgram german text.now.source.items (symbols_text_of text.now)) result }
{
    if german {
        return compiled_german(alloc, text);
    }
    Ok(compiled(alloc, &text.source, text.symbols())?)
}

/// Checks a source with its symbols, and then a history, which may name the symbols' variables.
pub fn check_with_history(
    alloc: Global,
    text: &ProgramText,
    german: bool,
    history: &[u8],
) -> Result<(Loaded, Entries), Failure>
    requires text { AreFilesWithinLimits text.now }
    requires history { length history.now ≤ 4194304 }
    ensures keeps { IfOk result
        (λ v. KeepsText german text.now.source.items (symbols_text_of text.now) v.0.program) }
    ensures large { IfOk result (λ v. v.0.profile ≡ Large) }
    ensures spells { IfOk result
        (λ v. history_of_text (names_read_in (language_of german) (symbols_text_of text.now))
        history.now ≡ Ok v.1.entries) }
    ensures valid { IfOk result (λ v. All IsValid v.1.entries) }
    ensures refused { SaysRefusal
        (GoSays german text.now.source.items (symbols_text_of text.now) history.now) result }
{
    let program = check_loaded(alloc, text, german)?;
    let entries = read_history(alloc, history, program.names())?;
    Ok((program, entries))
}

/// The program of an image, with its profile.
pub(crate) fn loaded_image(alloc: Global, image: &[u8]) -> Result<Loaded, LoadError>
    ensures loads { IfOk result (λ l. LoadsAs image.now (Ok l)) }
    ensures refused { IfErr result (λ e. IsLoadError e (faults_of image.now)) }
{
    image_file::laws::gives_exactly_images();
    load(alloc, image)
}

/// Checks an image, and then a history, which may name the variables whose names stand in it.
pub fn check_run(alloc: Global, image: &[u8], history: &[u8]) -> Result<(Loaded, Entries), Failure>
    requires { length history.now ≤ 4194304 }
    ensures loads { IfOk result (λ v. LoadsAs image.now (Ok v.0)) }
    ensures spells { IfOk result
        (λ v. history_of_text v.0.program.names history.now ≡ Ok v.1.entries) }
    ensures valid { IfOk result (λ v. All IsValid v.1.entries) }
    ensures refused { SaysRefusal (RunSays image.now history.now) result }
{
    let program = loaded_image(alloc, image)?;
    let entries = read_history(alloc, history, program.names())?;
    Ok((program, entries))
}

/// The image of version 2 of a loaded program and its profile.
fn image_again(alloc: Global, loaded: &Loaded) -> Result<Vec<u8>, NoMemory>
    ensures { IfOk result
        (λ v. v.items ≡ image_of (Two loaded.now.profile) loaded.now.program) }
{
    let program = loaded.program(alloc)?;
    write_image2(alloc, &program, loaded.profile())
}

/// Checks an image, and makes the image of version 2 of its program, names and profile.
pub fn check_upgrade(alloc: Global, image: &[u8]) -> Result<Vec<u8>, Failure>
    ensures upgrades { IfOk result (λ v. IsUpgraded v.items image.now) }
    ensures refused { SaysRefusal (UpgradeSays image.now) result }
{
    let loaded = loaded_image(alloc, image)?;
    Ok(image_again(alloc, &loaded)?)
}

/// A program, and the lists of the workers of a live run.
#[derive(Drop)]
pub struct LiveWork {
    pub program: Loaded,
    pub stimuli: Vec<Entry>,
    pub scripts: Vec<Vec<Entry>>,
}

/// Checks the scripts of operators, in their order.
pub(crate) fn check_scripts(
    alloc: Global,
    texts: &[Vec<u8>],
    names: &Names,
) -> Result<Vec<Vec<Entry>>, Failure>
    requires few { length texts.now ≤ 4 }
    requires within { AreScriptsWithin (map (λ t. t.items) texts.now) }
    ensures spells { IfOk result (λ v. scripts_from names.now 1 (map (λ t. t.items) texts.now)
        ≡ Ok (map (λ x. x.items) v.items)) }
    ensures regular { IfOk result (λ v. AreRegularBy 3 (map (λ x. x.items) v.items)) }
    ensures few { IfOk result (λ v. total_length (map (λ x. x.items) v.items) ≤ 1048576) }
    ensures many { IfOk result (λ v. length v.items ≡ length texts.now) }
    ensures refused { IfErr result
        (IsScriptRefusal (scripts_from names.now 1 (map (λ t. t.items) texts.now))) }
{
    let mut scripts = Vec::new(alloc);
    for (place, text) in texts.iter().enumerate() {
        let number = place as u8 + 1;
        match read_script(alloc, text, number + 2, names) {
            Ok(entries) => add(&mut scripts, entries)?,
            Err(fault) => return Err(failure_of_text(File::Script { number }, fault)),
        }
    }
    Ok(scripts)
}

/// Checks an image, then stimuli, and then the scripts in their order, which may name the variables
/// whose names stand in the image.
pub fn check_live(alloc: Global, text: &LiveText) -> Result<LiveWork, Failure>
    requires { IsLiveText text.now }
    ensures finds { IfOk result (λ w. FindsProgramAndScripts text.now w.program w.stimuli.items
        (map (λ x. x.items) w.scripts.items)) }
    ensures refused { (steps : ℕ) → SaysRefusal (LiveTextSays steps text.now) result }
{
    let program = loaded_image(alloc, &text.image)?;
    let stimuli = match read_stimuli(alloc, &text.stimuli) {
        Ok(entries) => entries,
        Err(fault) => return Err(failure_of_text(File::Stimuli, fault)),
    };
    let scripts = check_scripts(alloc, &text.scripts, program.names())?;
    Ok(LiveWork {
        program,
        stimuli,
        scripts,
    })
}
