//! Organization blocks as they begin.
ghost use Rattle.std.specs.Prelude.{◌≡◌, ◌+◌, ◌≤◌, ◌<◌, length, min, is_some, IfSome, unwrap_or};
ghost use Rattle.std.specs.Option.{option_map};
ghost use Rattle.frames.specs.Activations.{with_local_byte};
ghost use Rattle.machine.specs.Entering.{at_block};
ghost use Rattle.machine.specs.Flat.{code_of};
ghost use Rattle.machine.specs.Lasting.{ob_block as block_of_ob};
ghost use Rattle.controller.specs.Beginning.{with_start_bytes};

use frames::Activation;
use image_file::Loaded;
use plc_base::{BlockId, BlockKind};
use status_word::Regs;

/// How many local bytes an activation has at most.
const LOCAL_BYTES: u16 = 1024;

/// The block of an organization block.
pub(crate) fn ob_block(ob: u16) -> BlockId
    ensures { result ≡ block_of_ob ob }
{
    BlockId {
        kind: BlockKind::Ob,
        number: ob,
    }
}

/// Whether a code block is loaded.
pub(crate) fn is_loaded(program: &Loaded, block: BlockId) -> bool
    ensures { result ≡ is_some ((code_of program.now.program).head block) }
{
    program.block(block).is_some()
}

// A local byte of the outermost frame, if there is such a byte.
fn set_start_byte(a: &mut Activation, byte: u16, value: u8)
    ensures { a.new ≡ unwrap_or (with_local_byte 0 byte value a.old) a.old }
{
    let _ = a.set_local(0, byte, value);
}

/// Writes the first local bytes of the outermost frame, as far as there are such local bytes.
pub(crate) fn set_start_bytes(a: &mut Activation, bytes: &[u8])
    requires { length bytes.now ≤ 1024 }
    ensures { a.new ≡ with_start_bytes 0 bytes.now a.old }
{
    let mut byte = 0;
    let mut left = bytes;
    while let [value, rest @ ..] = left {
        set_start_byte(a, byte, *value);
        byte += 1;
        left = rest;
    }
}

/// How many local bytes an organization block of the program has, 1,024 at most; none where it isn't
/// loaded.
pub(crate) fn local_len_of(program: &Loaded, ob: u16) -> Option<u16>
    ensures value { result ≡ option_map (λ head. min head.local_len 1024)
        ((code_of program.now.program).head (block_of_ob ob)) }
    ensures few { IfSome result (λ n. n ≤ 1024) }
{
    let code = program.block(ob_block(ob))?;
    Some(code.local_len().min(LOCAL_BYTES))
}

/// The registers with OS 0, OR 0, STA 1, /FC 0, as at the begin of a block.
pub(crate) fn at_begin(regs: &Regs) -> Regs
    ensures { result ≡ at_block regs.now }
{
    let mut regs = *regs;
    regs.status.os = false;
    regs.status.or = false;
    regs.status.sta = true;
    regs.status.fc = false;
    regs
}
