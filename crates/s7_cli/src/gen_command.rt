ghost use Rattle.std.specs.Prelude.{◌≡◌, [], Some, All, IfOk, IfErr};
ghost use Rattle.plc_base.specs.declared.Profile.TheVariants.{Large};
ghost use Rattle.plc_io.specs.Moments.{FilesAt};
ghost use Rattle.var_access.specs.Entry.{IsValid};
ghost use Rattle.generator.specs.Source.{source_text};
ghost use Rattle.sem_kept.specs.Agreement.{KeepsSource};
ghost use Rattle.s7_cli.specs.Command.{Gen};
ghost use Rattle.s7_cli.specs.declared.failures.Failure.TheVariants.{NoMemory};
ghost use Rattle.s7_cli.specs.Ends.{EndsWithStatus, sink_moments};
ghost use Rattle.s7_cli.specs.Inner.{ComesBeforeLine, SaysRefusal};
ghost use Rattle.s7_cli.specs.Reading.{disk_moments};
ghost use Rattle.s7_cli.specs.Says.{GenSays};
ghost use Rattle.s7_cli.specs.StatusTable.{StatusTable};

use crate::compiling::compiled;
use crate::failures::{ExitStatus, Failure};
use crate::finish::{end_command, write_text};
use crate::nowhere::Nowhere;
use crate::run_text::{controller_at_start, write_entries};
use crate::summaries::summary_line;
use controller::Controller;
use generator::{history, source_text};
use image_file::Loaded;
use plc_io::Sink;
use std::alloc::Global;
use var_access::Entries;

/// The program of a number, compiled.
fn program_of_number(alloc: Global, number: u32) -> Result<Loaded, Failure>
    ensures keeps { IfOk result (λ l. KeepsSource Large (source_text number) [] l.program) }
    ensures large { IfOk result (λ l. l.profile ≡ Large) }
    ensures refused { SaysRefusal (GenSays number) result }
{
    let source = source_text(alloc, number)?;
    Ok(compiled(alloc, &source, &[])?)
}

/// A controller that has run a program along a history.
fn controller_behind(
    alloc: Global,
    program: Loaded,
    entries: &Entries,
) -> Result<Controller, Failure>
    requires { All IsValid entries.now.entries }
    ensures ok { IfOk result (λ c. c ≡ record {
      program = program.program;
      profile = program.profile;
      history = entries.now.entries;
      spare = 0;
    }) }
    ensures err { IfErr result (λ failure. failure ≡ NoMemory) }
{
    let Ok(mut controller) = controller_at_start(alloc, program, entries.len()) else {
        return Err(Failure::NoMemory);
    };
    let mut text = Vec::new(alloc);
    match write_entries(&mut controller, entries, &mut Nowhere, &mut text) {
        Ok(()) => Ok(controller),
        Err(_) => Err(Failure::NoMemory),
    }
}

/// Compiles the program of a number, runs it along the history of the number, and writes the
/// summary.
fn generate<K: Sink>(alloc: Global, number: u32, out: &mut K) -> Result<(), Failure>
    ensures { (files : FilesAt) → ComesBeforeLine (Some (Gen number)) (disk_moments files files)
        (sink_moments (K.shown out.old) (K.shown out.new)) result }
{
    let program = program_of_number(alloc, number)?;
    let entries = history(alloc, number)?;
    let controller = controller_behind(alloc, program, &entries)?;
    write_text(out, summary_line(number, &controller).as_slice())
}

/// Makes the program and the history of a number, runs the one along the other, and writes the
/// summary: how many entries the history has, the mode behind them, and the sum of the bytes MB 0
/// to MB 255; or the line of a refusal. No file is read.
pub fn cmd_gen<K: Sink>(alloc: Global, number: u32, out: &mut K) -> ExitStatus
    ensures ends { (files : FilesAt)
        → EndsWithStatus (Some (Gen number)) (disk_moments files files)
        (sink_moments (K.shown out.old) (K.shown out.new)) result.code }
    ensures table { (files : FilesAt) → StatusTable (Some (Gen number)) (disk_moments files files)
        (sink_moments (K.shown out.old) (K.shown out.new)) result.code }
{
    let came = generate(alloc, number, out);
    end_command(out, came)
}
