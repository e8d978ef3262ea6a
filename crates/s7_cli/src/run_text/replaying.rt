ghost use Rattle.std.specs.Prelude.{◌≡◌, [], All, IfOk, IfErr};
ghost use Rattle.plc_io.specs.SinkBytes.{WroteText};
ghost use Rattle.plc_io.specs.declared.faults.IoFault.TheVariants.{NoMemory};
ghost use Rattle.var_access.specs.Entry.{IsValid};
ghost use Rattle.machine.specs.Flat.{code_of};
ghost use Rattle.s7_cli.specs.run_text.RunText.{run_text};

use crate::run_text::closing::write_closing;
use crate::run_text::entries::write_entries;
use controller::Controller;
use image_file::Loaded;
use plc_io::{IoFault, Sink};
use std::alloc::Global;
use var_access::Entries;

/// A controller at its start, with room for so many entries.
pub fn controller_at_start(
    alloc: Global,
    program: Loaded,
    entries: u64,
) -> Result<Controller, IoFault>
    ensures ok { IfOk result (λ c. c ≡ record {
      program = program.program;
      profile = program.profile;
      history = [];
      spare = entries;
    }) }
    ensures err { IfErr result (λ fault. fault ≡ NoMemory) }
{
    let mut controller = Controller::new(alloc, program)?;
    controller.reserve(entries)?;
    Ok(controller)
}

/// Runs a program at its profile along a history, and writes the text of the run: for each
/// entry the record of its statement where that is of the monitored block, the peripheral output
/// bytes and the mode that it changed, and the reply to a request; then the mode at the end and all
/// data blocks.
///
/// # Errors
///
/// `Failed` where the sink fails, `NoMemory` for want of memory; a prefix of the text was taken
/// then.
#[tactic(auto, unfolding(crate::specs::run_text::RunText::run_text))]
pub fn replay_text<K: Sink>(
    alloc: Global,
    program: Loaded,
    entries: &Entries,
    out: &mut K,
) -> Result<(), IoFault>
    requires { All IsValid entries.now.entries }
    ensures { WroteText (K.shown out.old) (K.shown out.new)
        (run_text program.profile (code_of program.program) entries.now.entries) result }
{
    let mut controller = controller_at_start(alloc, program, entries.len())?;
    let mut text = Vec::new(alloc);
    write_entries(&mut controller, entries, out, &mut text)?;
    write_closing(out, &controller)
}
