//! Whether nothing that the next statement needs is missing.
ghost use Rattle.std.specs.Prelude.{◌≡◌, true, false, length, List, ℕ, Option, Some, is_some};
ghost use Rattle.frames.specs.Activations.{frames_of};
ghost use Rattle.flat_code.specs.Instr.{Passing};
ghost use Rattle.flat_code.specs.Ops.{OpData};
ghost use Rattle.machine.specs.Flat.{code_of, block_head_of, instr_of, statement_fetched};
ghost use Rattle.machine.specs.Statement.{GlobalStore, statement_step as statement_of, IsNotStuck};
ghost use Rattle.machine.specs.There.{is_block_callable as is_callee_of, is_called_block_there, is_statement_complete, is_activation_ready as is_ready_of};
ghost use Rattle.flat_code.specs.PlacedOps.{line_placed};

use crate::fetching::Fetched;
use crate::system_calls::system_function;
use crate::walking::walk_from;
use flat_code::{Operand, Operation, kind_of_code};
use frames::Activation;
use image_file::{Loaded, LoadedCode};
use plc_base::BlockId;

// Whether a block that is called is there.
fn is_callee(c: &Loaded, block: BlockId) -> bool
    ensures { result ≡ is_callee_of (code_of c.now.program) block }
{
    if block.kind.is_system_function() {
        system_function(block.number).is_some()
    } else {
        c.block(block).is_some()
    }
}

// Whether what an instruction needs is there.
fn is_op_there(c: &Loaded, own: BlockId, operation: Operation, operand: &Operand) -> bool
    ensures { (use_db : Option ℕ) (passings : List Passing) (next : ℕ) (ops : List OpData)
        → is_some ((code_of c.now.program).head own) ≡ true
        → result ≡ is_called_block_there (code_of c.now.program)
        (instr_of operation operand.now use_db passings next ops) own }
{
    match operation {
        Operation::Call(_) => match *operand {
            Operand::Called { kind, number, .. } => match kind_of_code(kind) {
                Some(kind) => is_callee(c, BlockId { kind, number }),
                None => true,
            },
            _ => true,
        },
        _ => true,
    }
}

// Whether what the instruction of a statement that was found needs is there.
fn is_found_there(c: &Loaded, own: BlockId, f: &Fetched<'_>) -> bool
    requires { is_some ((code_of c.now.program).head own) ≡ true }
    ensures { result ≡ is_called_block_there (code_of c.now.program) f.now.instr own }
{
    let last = f.last;
    is_op_there(c, own, last.operation(), &last.operand)
}

fn has_line(code: &LoadedCode<'_>, at: u32) -> bool
    ensures { result ≡ is_some (line_placed 0 true code.now.code code.now.lines at) }
{
    code.line(at).is_some()
}

// Whether a statement begins at an offset of a block, with what it needs.
fn is_complete_at(c: &Loaded, code: &LoadedCode<'_>, own: BlockId, at: u32) -> bool
    requires { (code_of c.now.program).head own ≡ Some (block_head_of code.now) }
    ensures { result
        ≡ is_statement_complete (code_of c.now.program) (statement_fetched code.now at)
        own }
{
    if !has_line(code, at) {
        return false;
    }
    match walk_from(code, at) {
        Some(walk) => {
            let found = Fetched {
                code,
                at,
                opens: walk.opens,
                last: &walk.last,
                next: walk.next,
            };
            is_found_there(c, own, &found)
        }
        None => false,
    }
}

/// Whether a frame stands, as many frames have local data as stand, a statement begins where the
/// innermost frame stands, and what it calls is there. Then `statement` may be called.
pub fn is_ready(c: &Loaded, a: &Activation) -> bool
    ensures exact { result ≡ is_ready_of (code_of c.now.program) a.now }
    ensures stands { result ≡ true → (a.now.ended ≡ false) }
    ensures depth { result ≡ true →
        (length a.now.running.locals.starts ≡ length (frames_of a.now)) }
    ensures there { result ≡ true →
        ((w : GlobalStore) → IsNotStuck (statement_of (code_of c.now.program) a.now w)) }
{
    if a.ended || a.running.locals.depth() != a.depth() {
        return false;
    }
    match c.block(a.running.frame.block) {
        Some(code) => is_complete_at(c, &code, a.running.frame.block, a.running.frame.at),
        None => false,
    }
}
