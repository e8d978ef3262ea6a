//! Where statements stand.
ghost use Rattle.std.specs.Prelude.{◌≡◌};
ghost use Rattle.machine.specs.Flat.{code_of};
ghost use Rattle.controller.specs.Ready.{HasStatement};
ghost use Rattle.controller.specs.Stopping.{statement_spot as spot_in};

use image_file::Loaded;
use plc_base::{BlockId, Spot};

/// A block and the source line of its statement at an offset.
#[tactic(auto, using(crate::proofs::ReadyLemmas::spot_read))]
pub(crate) fn statement_start_at(program: &Loaded, block: BlockId, at: u32) -> Option<Spot>
    requires { HasStatement (code_of program.now.program) block at }
    ensures { result ≡ spot_in (code_of program.now.program) block at }
{
    let line = program.line(block, at)?;
    Some(Spot { block, line })
}
