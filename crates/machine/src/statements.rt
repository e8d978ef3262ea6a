//! One statement of an activation.
ghost use Rattle.std.specs.Prelude.{◌≡◌, length, false, Some, is_some, true};
ghost use Rattle.frames.specs.Activations.{frames_of};
ghost use Rattle.machine.specs.Flat.{code_of, statement_fetched};
ghost use Rattle.machine.specs.Statement.{global_store, is_sync_error as is_error_of, statement_step as statement_of, step_found, instruction_step, IsNotStuck, IsOutcomeOf};

use crate::fetching::Fetched;
use crate::outcomes::Outcome;
use crate::performing::perform;
use crate::walking::walk_from;
use frames::{Activation, Bindings};
use image_file::{Loaded, LoadedCode};
use plc_mem::Memory;
use timers_counters::{Counters, Timers};

fn is_sync_error(outcome: &Outcome) -> bool
    ensures { result ≡ is_error_of outcome.now }
{
    matches!(outcome, Outcome::SyncError { .. })
}

// A statement that was found.
#[tactic(auto, using(crate::proofs::Steps::goes_comes, crate::proofs::Steps::error_comes, crate::proofs::Steps::other_comes))]
#[inline(always)]
fn execute(
    c: &Loaded,
    f: &Fetched<'_>,
    a: &mut Activation,
    m: &mut Memory,
    t: &mut Timers,
    n: &mut Counters,
    spare: &mut Bindings,
) -> Outcome
    requires stands { a.old.ended ≡ false }
    requires depth { length a.old.running.locals.starts ≡ length (frames_of a.old) }
    requires there { IsNotStuck (instruction_step (code_of c.now.program)
        f.now.instr f.now.next a.old
        (global_store m.old t.old n.old)) }
    ensures { IsOutcomeOf (instruction_step (code_of c.now.program) f.now.instr f.now.next a.old
        (global_store m.old t.old n.old)) a.old a.new (global_store m.old t.old n.old)
        (global_store m.new t.new n.new)
        result }
{
    let mut other = Outcome::Went;
    if perform(c, f, a, m, t, n, spare, &mut other) {
        return Outcome::Went;
    }
    if is_sync_error(&other) {
        a.running.frame.at = f.next;
        return other;
    }
    other
}

// The statement of a block at which the innermost frame stands.
#[inline(always)]
fn execute_at(
    c: &Loaded,
    code: &LoadedCode<'_>,
    a: &mut Activation,
    m: &mut Memory,
    t: &mut Timers,
    n: &mut Counters,
    spare: &mut Bindings,
) -> Outcome
    requires stands { a.old.ended ≡ false }
    requires depth { length a.old.running.locals.starts ≡ length (frames_of a.old) }
    requires there { IsNotStuck (step_found (code_of c.now.program)
        (statement_fetched code.now a.old.running.frame.at)
        a.old (global_store m.old t.old n.old)) }
    ensures { IsOutcomeOf (step_found (code_of c.now.program)
        (statement_fetched code.now a.old.running.frame.at) a.old (global_store m.old t.old n.old))
        a.old a.new (global_store m.old t.old n.old) (global_store m.new t.new n.new) result }
{
    let at = a.running.frame.at;
    match walk_from(code, at) {
        Some(walk) => {
            let found = Fetched {
                code,
                at,
                opens: walk.opens,
                last: &walk.last,
                next: walk.next,
            };
            execute(c, &found, a, m, t, n, spare)
        }
        None => unreachable!(),
    }
}

/// Executes the statement at which the innermost frame of an activation stands, with memory, timers
/// and counters, over the code of a loaded program. A frame stands, as many frames have local data
/// as stand, and nothing that the statement needs is missing, as in an activation that fits.
/// `spare` is room for what the parameters of a call stand for; what it holds before and after says
/// nothing.
#[tactic(auto, unfolding(crate::specs::Statement::statement_step))]
pub fn statement(
    c: &Loaded,
    m: &mut Memory,
    t: &mut Timers,
    n: &mut Counters,
    a: &mut Activation,
    spare: &mut Bindings,
) -> Outcome
    requires stands { a.old.ended ≡ false }
    requires depth { length a.old.running.locals.starts ≡ length (frames_of a.old) }
    requires there { IsNotStuck (statement_of (code_of c.now.program) a.old
        (global_store m.old t.old n.old)) }
    ensures { IsOutcomeOf (statement_of (code_of c.now.program)
        a.old (global_store m.old t.old n.old))
        a.old a.new (global_store m.old t.old n.old) (global_store m.new t.new n.new) result }
{
    match c.block(a.running.frame.block) {
        Some(code) => execute_at(c, &code, a, m, t, n, spare),
        None => unreachable!(),
    }
}
