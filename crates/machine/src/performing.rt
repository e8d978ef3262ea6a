//! What performing an instruction comes to: the one place where operations are told apart.
//!
//! Each function answers whether the activation goes on. What else came of it stands in `other`,
//! which is handed in: an answer of that size would be made anew for each instruction. What the
//! parameters of a call stand for is found in `spare`, whatever that held.
ghost use Rattle.std.specs.Prelude.{◌≡◌, ◌≤◌, ℕ, length, false, true, Ok, List};
ghost use Rattle.timers_counters.specs.Timer.{Timer};
ghost use Rattle.timers_counters.specs.Counter.{Counter};
ghost use Rattle.frames.specs.Activations.{frames_of};
ghost use Rattle.flat_code.specs.Instr.{Calls, Returns};
ghost use Rattle.machine.specs.Code.{Code};
ghost use Rattle.machine.specs.Effect.{statement_effect as statement_effect_of};
ghost use Rattle.machine.specs.Entering.{block_call as call_of, call_with_bindings, activation_continued_at};
ghost use Rattle.machine.specs.Flat.{code_of, jump_by_operation, is_jl as is_jl_of, instance_named as instance_named_of, instr_of, block_head_of};
ghost use Rattle.machine.specs.Jumps.{regs_after_jump, jump_goal as goes_to_of, is_jump_taken as is_taken_of, rlo_tested};
ghost use Rattle.machine.specs.ExecState.{local_of, exec_state_of};
ghost use Rattle.machine.specs.Returning.{block_return};
ghost use Rattle.machine.specs.Statement.{GlobalStore, global_store, continue_with, return_made, call_step, after_return, after_system_call, called_block, cause_of as cause_of_fault, instruction_step, call_made, block_called, system_call_made, is_call_made as is_called_of, is_return_made as is_ended_of, regs_after_call_not_made, IsOutcomeOf, IsInstructionOutcome};
ghost use Rattle.machine.specs.SystemCalls.{system_function as system_function_of, system_call, count_inputs, arguments_of_activation};
ghost use Rattle.machine.specs.Walking.{passings_at};
ghost use Rattle.machine.specs.declared.outcomes.Outcome.{Outcome as OutcomeOf};

use crate::entering::{CalledBlock, at_block, enter_if_room};
use crate::fetching::Fetched;
use crate::jumps::{is_taken, jump_goal, put_jump, test_rlo};
use crate::outcomes::Outcome;
use crate::returning::return_from_block;
use crate::system_calls::{inputs_from, result_from, system_function};
use crate::walking::{bind_all, jump_of_number, pick};
use crate::whole::effect_with;
use flat_code::{
    CallOperation, EndOperation, JumpOperation, Operand, Operation, Param, kind_of_code,
};
use frames::{Activation, Bindings, FrameFault};
use image_file::{Loaded, LoadedCode};
use plc_base::{BlockId, stop_causes};
use plc_mem::Memory;
use timers_counters::{Counters, Timers};

// An instruction that touches no position.
#[tactic(auto, using(crate::proofs::Steps::continue_with_goes, crate::proofs::Steps::continue_with_fails))]
#[inline(always)]
fn perform_plain(
    opens: Option<u16>,
    operation: Operation,
    operand: &Operand,
    next: u32,
    a: &mut Activation,
    m: &mut Memory,
    t: &mut Timers,
    n: &mut Counters,
    other: &mut Outcome,
) -> bool
    ensures { IsInstructionOutcome (continue_with (statement_effect_of opens operation operand.now
        (exec_state_of a.old.running m.old t.old n.old)) next a.old) next a.old a.new
        (global_store m.old t.old n.old) (global_store m.new t.new n.new) result other.new }
{
    match effect_with(opens, operation, operand, &mut a.running, m, t, n) {
        Ok(()) => {
            a.running.frame.at = next;
            true
        }
        Err(code) => {
            *other = Outcome::SyncError { code };
            false
        }
    }
}

// An instruction whose operand its operation doesn't take; it touches no position.
#[inline(never)]
fn perform_other(
    opens: Option<u16>,
    operation: Operation,
    operand: &Operand,
    next: u32,
    a: &mut Activation,
    m: &mut Memory,
    t: &mut Timers,
    n: &mut Counters,
    other: &mut Outcome,
) -> bool
    ensures { IsInstructionOutcome (continue_with (statement_effect_of opens operation operand.now
        (exec_state_of a.old.running m.old t.old n.old)) next a.old) next a.old a.new
        (global_store m.old t.old n.old) (global_store m.new t.new n.new) result other.new }
{
    perform_plain(opens, operation, operand, next, a, m, t, n, other)
}

pub(crate) fn is_jl(operation: JumpOperation) -> bool
    ensures { result ≡ is_jl_of operation }
{
    matches!(operation, JumpOperation::Jl)
}

// A jump, JL apart.
fn jump_to(operation: JumpOperation, target: u32, next: u32, a: &mut Activation)
    ensures { a.new ≡ activation_continued_at
        (goes_to_of (is_taken_of operation a.old.running.regs) target next)
        (regs_after_jump operation a.old.running.regs) a.old }
{
    let taken = is_taken(operation, &a.running.regs);
    put_jump(operation, &mut a.running.regs);
    a.running.frame.at = jump_goal(taken, target, next);
}

// A jump, JL among them. The activation goes on.
#[inline(never)]
fn jump(code: &LoadedCode<'_>, operation: JumpOperation, target: u32, next: u32, a: &mut Activation)
    ensures { (c : Code) (w : GlobalStore) (other : OutcomeOf) →
        IsInstructionOutcome (instruction_step c
        (jump_by_operation operation target next code.now.code)
        next a.old w) next
        a.old a.new w w true other }
{
    if is_jl(operation) {
        let at = pick(code, target, next, &a.running.regs);
        a.running.frame.at = at;
    } else {
        jump_to(operation, target, next, a);
    }
}

pub(crate) fn is_called(how: CallOperation, rlo: bool) -> bool
    ensures { result ≡ is_called_of how rlo }
{
    match how {
        CallOperation::Cc => rlo,
        _ => true,
    }
}

pub(crate) fn is_ended(how: EndOperation, rlo: bool) -> bool
    ensures { result ≡ is_ended_of how rlo }
{
    match how {
        EndOperation::Bec => rlo,
        _ => true,
    }
}

fn instance_named(number: u16) -> Option<u16>
    ensures { result ≡ instance_named_of number }
{
    if number == 0 { None } else { Some(number) }
}

// CC with RLO 0.
fn pass_over_call(next: u32, a: &mut Activation)
    ensures { a.new ≡ activation_continued_at next (regs_after_call_not_made a.old.running.regs)
        a.old }
{
    at_block(&mut a.running.regs);
    test_rlo(&mut a.running.regs);
    a.running.frame.at = next;
}

// BEC with RLO 0.
fn pass_over_end(next: u32, a: &mut Activation)
    ensures { a.new ≡ activation_continued_at next (rlo_tested a.old.running.regs) a.old }
{
    test_rlo(&mut a.running.regs);
    a.running.frame.at = next;
}

fn cause_of(fault: FrameFault) -> u8
    ensures { result ≡ cause_of_fault fault }
{
    match fault {
        FrameFault::Depth => stop_causes::BLOCK_DEPTH,
        FrameFault::LocalFull => stop_causes::LOCAL_DATA,
    }
}

// A call of a function or function block whose parameters are bound.
#[tactic(auto, using(crate::proofs::Steps::call_goes_on, crate::proofs::Steps::call_stops))]
fn call_block(
    called: &CalledBlock<'_>,
    bindings: &Bindings,
    next: u32,
    a: &mut Activation,
    m: &mut Memory,
    other: &mut Outcome,
) -> bool
    requires depth { length a.old.running.locals.starts ≡ length (frames_of a.old) }
    requires params { length called.now.params ≤ 60 }
    ensures { (t : List Timer) (n : List Counter) →
        IsInstructionOutcome (call_step
        (call_with_bindings (Ok bindings.now) called.now next a.old m.old)
        next a.old (global_store m.old t n))
        next a.old a.new (global_store m.old t n) (global_store m.new t n) result other.new }
{
    match enter_if_room(called, bindings, next, a, m) {
        Ok(()) => true,
        Err(fault) => {
            *other = Outcome::Stop {
                cause: cause_of(fault),
            };
            false
        }
    }
}

// A call of a function or function block with these parameters.
fn call_with(
    called: &CalledBlock<'_>,
    code: &LoadedCode<'_>,
    at: u32,
    next: u32,
    a: &mut Activation,
    m: &mut Memory,
    spare: &mut Bindings,
    other: &mut Outcome,
) -> bool
    requires depth { length a.old.running.locals.starts ≡ length (frames_of a.old) }
    requires params { length called.now.params ≤ 60 }
    ensures { (t : List Timer) (n : List Counter) →
        IsInstructionOutcome (call_step
        (call_of called.now (passings_at code.now.code at) next a.old m.old)
        next a.old (global_store m.old t n))
        next a.old a.new (global_store m.old t n) (global_store m.new t n) result other.new }
{
    match bind_all(code, at, called.params, &a.running, m, spare) {
        Err(error) => {
            *other = Outcome::SyncError { code: error };
            false
        }
        Ok(()) => call_block(called, spare, next, a, m, other),
    }
}

// A call of a block that is loaded.
fn call_loaded(
    callee: &LoadedCode<'_>,
    code: &LoadedCode<'_>,
    at: u32,
    block: BlockId,
    instance: Option<u16>,
    next: u32,
    a: &mut Activation,
    m: &mut Memory,
    spare: &mut Bindings,
    other: &mut Outcome,
) -> bool
    requires depth { length a.old.running.locals.starts ≡ length (frames_of a.old) }
    ensures { (t : List Timer) (n : List Counter) →
        IsInstructionOutcome (call_step
        (call_of (called_block block instance (block_head_of callee.now))
        (passings_at code.now.code at) next a.old m.old) next a.old (global_store m.old t n))
        next a.old a.new (global_store m.old t n) (global_store m.new t n) result other.new }
{
    let called = CalledBlock {
        block,
        instance,
        local_len: callee.local_len(),
        params: callee.params(),
    };
    call_with(&called, code, at, next, a, m, spare, other)
}

// A call of a function or function block.
fn call_code(
    c: &Loaded,
    code: &LoadedCode<'_>,
    at: u32,
    block: BlockId,
    instance: Option<u16>,
    next: u32,
    a: &mut Activation,
    m: &mut Memory,
    spare: &mut Bindings,
    other: &mut Outcome,
) -> bool
    requires depth { length a.old.running.locals.starts ≡ length (frames_of a.old) }
    ensures { (t : List Timer) (n : List Counter) →
        IsInstructionOutcome (block_called ((code_of c.now.program).head block) block instance
        (passings_at code.now.code at) next a.old (global_store m.old t n))
        next a.old a.new (global_store m.old t n) (global_store m.new t n) result other.new }
{
    match c.block(block) {
        Some(callee) => call_loaded(&callee, code, at, block, instance, next, a, m, spare, other),
        None => false,
    }
}

// A call of a system function whose parameters are bound.
fn call_system(
    number: u16,
    params: &[Param],
    bindings: &Bindings,
    next: u32,
    a: &mut Activation,
    m: &Memory,
) -> Outcome
    requires few { length params.now ≤ 4 }
    requires inputs { count_inputs params.now ≤ 3 }
    ensures { (w : GlobalStore) →
        IsOutcomeOf (after_system_call (Ok (arguments_of_activation
        params.now bindings.now a.old m.now)) number next
        a.old) a.old a.new w w result }
{
    let inputs = inputs_from(params, bindings, &a.running, m);
    let result = result_from(params, bindings);
    at_block(&mut a.running.regs);
    a.running.frame.at = next;
    Outcome::SysCall {
        number,
        inputs,
        result,
    }
}

// A call of a system function with these parameters. The activation doesn't go on by itself.
fn call_system_with(
    number: u16,
    params: &[Param],
    code: &LoadedCode<'_>,
    at: u32,
    next: u32,
    a: &mut Activation,
    m: &Memory,
    spare: &mut Bindings,
    other: &mut Outcome,
)
    requires few { length params.now ≤ 4 }
    requires inputs { count_inputs params.now ≤ 3 }
    ensures { (w : GlobalStore) →
        IsInstructionOutcome (after_system_call
        (system_call params.now (passings_at code.now.code at)
        (local_of a.old.running) m.now) number next a.old) next a.old a.new w w false other.new }
{
    match bind_all(code, at, params, &a.running, m, spare) {
        Err(error) => *other = Outcome::SyncError { code: error },
        Ok(()) => *other = call_system(number, params, spare, next, a, m),
    }
}

// A call of a system function.
fn call_function(
    code: &LoadedCode<'_>,
    at: u32,
    number: u16,
    next: u32,
    a: &mut Activation,
    m: &Memory,
    spare: &mut Bindings,
    other: &mut Outcome,
)
    ensures { (t : List Timer) (n : List Counter) →
        IsInstructionOutcome (system_call_made (system_function_of number)
        number (passings_at code.now.code at)
        next a.old (global_store m.now t n))
        next a.old a.new (global_store m.now t n) (global_store m.now t n) false other.new }
{
    match system_function(number) {
        Some(params) => call_system_with(
            number,
            params.as_slice(),
            code,
            at,
            next,
            a,
            m,
            spare,
            other,
        ),
        None => {}
    }
}

// A call that is made.
fn call_any(
    c: &Loaded,
    code: &LoadedCode<'_>,
    at: u32,
    block: BlockId,
    instance: Option<u16>,
    next: u32,
    a: &mut Activation,
    m: &mut Memory,
    spare: &mut Bindings,
    other: &mut Outcome,
) -> bool
    requires depth { length a.old.running.locals.starts ≡ length (frames_of a.old) }
    ensures { (t : List Timer) (n : List Counter) →
        IsInstructionOutcome (call_made (code_of c.now.program) block instance
        (passings_at code.now.code at)
        next a.old (global_store m.old t n))
        next a.old a.new (global_store m.old t n) (global_store m.new t n) result other.new }
{
    if block.kind.is_system_function() {
        call_function(code, at, block.number, next, a, m, spare, other);
        false
    } else {
        call_code(c, code, at, block, instance, next, a, m, spare, other)
    }
}

// CALL, UC and CC.
#[inline(never)]
fn call(
    c: &Loaded,
    code: &LoadedCode<'_>,
    at: u32,
    how: CallOperation,
    block: BlockId,
    instance: Option<u16>,
    next: u32,
    a: &mut Activation,
    m: &mut Memory,
    spare: &mut Bindings,
    other: &mut Outcome,
) -> bool
    requires depth { length a.old.running.locals.starts ≡ length (frames_of a.old) }
    ensures { (t : List Timer) (n : List Counter) →
        IsInstructionOutcome (instruction_step (code_of c.now.program)
        (Calls how block instance (passings_at code.now.code at))
        next a.old (global_store m.old t n))
        next a.old a.new (global_store m.old t n) (global_store m.new t n) result other.new }
{
    if is_called(how, a.running.regs.status.rlo) {
        call_any(c, code, at, block, instance, next, a, m, spare, other)
    } else {
        pass_over_call(next, a);
        true
    }
}

// A return from the innermost block, which is loaded.
#[tactic(auto, using(crate::proofs::Steps::return_goes_on, crate::proofs::Steps::return_ends))]
fn end_loaded(
    code: &LoadedCode<'_>,
    a: &mut Activation,
    m: &mut Memory,
    other: &mut Outcome,
) -> bool
    requires stands { a.old.ended ≡ false }
    ensures { (next : ℕ) (t : List Timer) (n : List Counter) →
        IsInstructionOutcome (return_made (Some (block_head_of code.now)) a.old
        (global_store m.old t n))
        next
        a.old a.new (global_store m.old t n) (global_store m.new t n) result other.new }
{
    if return_from_block(code.params(), a, m) {
        true
    } else {
        *other = Outcome::Ended;
        false
    }
}

// A return that is made.
fn end_any(c: &Loaded, a: &mut Activation, m: &mut Memory, other: &mut Outcome) -> bool
    requires stands { a.old.ended ≡ false }
    ensures { (next : ℕ) (t : List Timer) (n : List Counter) →
        IsInstructionOutcome (return_made
        ((code_of c.now.program).head a.old.running.frame.block) a.old
        (global_store m.old t n))
        next a.old a.new (global_store m.old t n) (global_store m.new t n) result other.new }
{
    match c.block(a.running.frame.block) {
        Some(code) => end_loaded(&code, a, m, other),
        None => false,
    }
}

// BE, BEU and BEC.
#[inline(never)]
fn end(
    c: &Loaded,
    how: EndOperation,
    next: u32,
    a: &mut Activation,
    m: &mut Memory,
    other: &mut Outcome,
) -> bool
    requires stands { a.old.ended ≡ false }
    ensures { (t : List Timer) (n : List Counter) →
        IsInstructionOutcome (instruction_step (code_of c.now.program) (Returns how)
        next a.old (global_store m.old t n))
        next a.old a.new (global_store m.old t n) (global_store m.new t n) result other.new }
{
    if is_ended(how, a.running.regs.status.rlo) {
        end_any(c, a, m, other)
    } else {
        pass_over_end(next, a);
        true
    }
}

// The last op of the statement that begins at `at`, with the data block that the statement opens.
#[inline(always)]
fn perform_op(
    c: &Loaded,
    code: &LoadedCode<'_>,
    at: u32,
    opens: Option<u16>,
    operation: Operation,
    operand: &Operand,
    next: u32,
    a: &mut Activation,
    m: &mut Memory,
    t: &mut Timers,
    n: &mut Counters,
    spare: &mut Bindings,
    other: &mut Outcome,
) -> bool
    requires stands { a.old.ended ≡ false }
    requires depth { length a.old.running.locals.starts ≡ length (frames_of a.old) }
    ensures { IsInstructionOutcome (instruction_step (code_of c.now.program)
        (instr_of operation operand.now opens (passings_at code.now.code at) next code.now.code)
        next a.old (global_store m.old t.old n.old))
        next a.old a.new (global_store m.old t.old n.old)
        (global_store m.new t.new n.new) result other.new }
{
    match operation {
        Operation::Jump => match *operand {
            Operand::Jump { kind, target } => {
                jump(code, jump_of_number(kind), target, next, a);
                true
            }
            _ => perform_other(opens, operation, operand, next, a, m, t, n, other),
        },
        Operation::Call(how) => match *operand {
            Operand::Called {
                kind,
                number,
                instance,
            } => match kind_of_code(kind) {
                Some(kind) => {
                    let block = BlockId { kind, number };
                    let instance = instance_named(instance);
                    call(c, code, at, how, block, instance, next, a, m, spare, other)
                }
                None => perform_other(opens, operation, operand, next, a, m, t, n, other),
            },
            _ => perform_other(opens, operation, operand, next, a, m, t, n, other),
        },
        Operation::End(how) => end(c, how, next, a, m, other),
        _ => perform_plain(opens, operation, operand, next, a, m, t, n, other),
    }
}

// The last op of the statement that begins at `at`, as `perform_op` performs it, but where nothing is
// inlined.
#[inline(never)]
fn perform_op_apart(
    c: &Loaded,
    code: &LoadedCode<'_>,
    at: u32,
    opens: Option<u16>,
    operation: Operation,
    operand: &Operand,
    next: u32,
    a: &mut Activation,
    m: &mut Memory,
    t: &mut Timers,
    n: &mut Counters,
    spare: &mut Bindings,
    other: &mut Outcome,
) -> bool
    requires stands { a.old.ended ≡ false }
    requires depth { length a.old.running.locals.starts ≡ length (frames_of a.old) }
    ensures { IsInstructionOutcome (instruction_step (code_of c.now.program)
        (instr_of operation operand.now opens (passings_at code.now.code at) next code.now.code)
        next a.old (global_store m.old t.old n.old))
        next a.old a.new (global_store m.old t.old n.old)
        (global_store m.new t.new n.new) result other.new }
{
    perform_op(
        c, code, at, opens, operation, operand, next, a, m, t, n, spare, other,
    )
}

/// Performs the instruction of a statement that was found. A synchronous error leaves all as it
/// was.
#[inline(always)]
pub(crate) fn perform(
    c: &Loaded,
    f: &Fetched<'_>,
    a: &mut Activation,
    m: &mut Memory,
    t: &mut Timers,
    n: &mut Counters,
    spare: &mut Bindings,
    other: &mut Outcome,
) -> bool
    requires stands { a.old.ended ≡ false }
    requires depth { length a.old.running.locals.starts ≡ length (frames_of a.old) }
    ensures { IsInstructionOutcome (instruction_step (code_of c.now.program)
        f.now.instr f.now.next a.old
        (global_store m.old t.old n.old)) f.now.next a.old a.new (global_store m.old t.old n.old)
        (global_store m.new t.new n.new) result other.new }
{
    let last = f.last;
    perform_op(
        c,
        f.code,
        f.at,
        f.opens,
        last.operation(),
        &last.operand,
        f.next,
        a,
        m,
        t,
        n,
        spare,
        other,
    )
}

/// Performs the instruction of a statement that was found, as `perform` does, but where nothing is
/// inlined, so that the code around it stays short.
#[inline(always)]
pub(crate) fn perform_apart(
    c: &Loaded,
    f: &Fetched<'_>,
    a: &mut Activation,
    m: &mut Memory,
    t: &mut Timers,
    n: &mut Counters,
    spare: &mut Bindings,
    other: &mut Outcome,
) -> bool
    requires stands { a.old.ended ≡ false }
    requires depth { length a.old.running.locals.starts ≡ length (frames_of a.old) }
    ensures { IsInstructionOutcome (instruction_step (code_of c.now.program)
        f.now.instr f.now.next a.old
        (global_store m.old t.old n.old)) f.now.next a.old a.new (global_store m.old t.old n.old)
        (global_store m.new t.new n.new) result other.new }
{
    let last = f.last;
    perform_op_apart(
        c,
        f.code,
        f.at,
        f.opens,
        last.operation(),
        &last.operand,
        f.next,
        a,
        m,
        t,
        n,
        spare,
        other,
    )
}
