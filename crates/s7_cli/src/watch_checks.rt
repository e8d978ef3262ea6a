//! What the files of a watch hold, checked.
ghost use Rattle.std.specs.Prelude.{◌≡◌, ℕ, ◌≤◌, length, map, IfErr, IfOk, Ok};
ghost use Rattle.event_text.specs.Regular.{IsRegularOf};
ghost use Rattle.event_text.specs.WatchedVars.{watched_vars_of};
ghost use Rattle.s7_cli.specs.Inner.{SaysRefusal};
ghost use Rattle.s7_cli.specs.WatchTexts.{FindsWatch, IsWatchText, AreVarsRefused, WatchTextSays};
ghost use Rattle.s7_cli.specs.Watching.{read_entry_of};

use crate::command_checks::{check_scripts, loaded_image};
use crate::failures::{Failure, File, failure_of_text};
use crate::watch_files::WatchText;
use event_text::{read_stimuli, read_watched_vars};
use flat_code::Names;
use image_file::Loaded;
use std::alloc::Global;
use var_access::{Entry, Vars};

/// A program, the lists of the workers of a watch, and the variables that are watched.
#[derive(Drop)]
pub struct WatchWork {
    pub program: Loaded,
    pub stimuli: Vec<Entry>,
    pub vars: Vars,
    pub scripts: Vec<Vec<Entry>>,
}

/// Checks the variables of a watch, with the names of a program.
fn check_vars(bytes: &[u8], names: &Names) -> Result<Vars, Failure>
    requires { length bytes.now ≤ 1048576 }
    ensures spells { IfOk result (λ vars. watched_vars_of names.now bytes.now ≡ Ok vars) }
    ensures regular { IfOk result (λ vars. IsRegularOf 6 (read_entry_of 6 vars)) }
    ensures refused { IfErr result (AreVarsRefused (watched_vars_of names.now bytes.now)) }
{
    match read_watched_vars(bytes, names) {
        Ok(vars) => Ok(vars),
        Err(refusal) => Err(Failure::Refused {
            file: File::Vars,
            refusal,
        }),
    }
}

/// Checks an image, then stimuli, the variables, and the scripts in their order; variables and
/// scripts may name those whose names stand in the image.
pub fn check_watch(alloc: Global, text: &WatchText) -> Result<WatchWork, Failure>
    requires { IsWatchText text.now }
    ensures finds { IfOk result (λ w. FindsWatch text.now w.program w.stimuli.items w.vars
        (map (λ x. x.items) w.scripts.items)) }
    ensures refused { (steps : ℕ) → SaysRefusal (WatchTextSays steps text.now) result }
{
    let program = loaded_image(alloc, &text.image)?;
    let stimuli = match read_stimuli(alloc, &text.stimuli) {
        Ok(entries) => entries,
        Err(fault) => return Err(failure_of_text(File::Stimuli, fault)),
    };
    let vars = check_vars(&text.vars, program.names())?;
    let scripts = check_scripts(alloc, &text.scripts, program.names())?;
    Ok(WatchWork {
        program,
        stimuli,
        vars,
        scripts,
    })
}
