//! Monitoring: the records of a block's statements.
ghost use Rattle.std.specs.Prelude.{◌≡◌};
ghost use Rattle.machine.specs.Flat.{code_of};
ghost use Rattle.controller.specs.Leaves.{record_of_statement};
ghost use Rattle.controller.specs.Monitoring.{is_monitored as is_monitored_block};
ghost use Rattle.controller.specs.Ready.{HasStatement};

use crate::activations::At;
use crate::spots::statement_start_at;
use image_file::Loaded;
use monitor::MonRecord;
use plc_base::BlockId;
use status_word::Regs;

fn is_monitored(monitored: Option<BlockId>, block: BlockId) -> bool
    ensures { result ≡ is_monitored_block monitored block }
{
    match monitored {
        None => false,
        Some(monitored) => monitored == block,
    }
}

/// The record of a statement that stood at `position`, with the registers after it; none where its block
/// isn't the monitored one.
pub(crate) fn statement_record(
    program: &Loaded,
    monitored: Option<BlockId>,
    position: &At,
    regs: &Regs,
) -> Option<MonRecord>
    requires { HasStatement (code_of program.now.program) position.now.block position.now.at }
    ensures { result
        ≡ record_of_statement (code_of program.now.program) monitored position.now regs.now }
{
    if !is_monitored(monitored, position.block) {
        return None;
    }
    let at = statement_start_at(program, position.block, position.at)?;
    Some(MonRecord {
        block: at.block,
        line: at.line,
        stw: regs.status.number(),
        a1: regs.a1,
        a2: regs.a2,
    })
}
