//! Statements one after another that leave the peripheral outputs as they are.
ghost use Rattle.std.specs.Prelude.{◌≡◌, ◌<◌, ◌≤◌, true, false, ℕ, List, None, Option, Some};
ghost use Rattle.std.specs.Option.{option_map};
ghost use Rattle.flat_code.specs.Instr.{Passing, Returns};
ghost use Rattle.flat_code.specs.Ops.{OpData};
ghost use Rattle.flat_code.specs.declared.operations.Operation.TheVariants as operation;
ghost use Rattle.frames.specs.declared.Activation.{Activation as ActivationOf};
ghost use Rattle.image_file.specs.Readers.{block_by_id};
ghost use Rattle.flat_code.specs.Codes.{most_ops};
ghost use Rattle.machine.specs.Flat.{code_of, instr_of, op_run_at};
ghost use Rattle.machine.specs.Lasting.{IsStatementReady};
ghost use Rattle.machine.specs.Silent.{GoesOrStays, RunsSilently, StaysReady, goes_on_by_kind, has_caller as has_caller_of, shows_nothing, has_place_inside as has_place_inside_of, is_bound_inside as is_bound_inside_of, is_inside_area as is_inside_of, is_named_inside as is_named_inside_of, is_next_statement_of_kind, is_silent, is_still_inside, keeps_outputs as keeps_outputs_of, may_write as may_write_of, stays_in_block};
ghost use Rattle.machine.specs.Statement.{IsNotStuck, instruction_step, statement_step, global_store};
ghost use Rattle.machine.specs.Walking.{walk_with};

use crate::fetching::Fetched;
use crate::outcomes::Outcome;
use crate::performing::{is_called, is_ended, is_jl, perform, perform_apart};
use crate::walking::{jump_of_number, opens_after, walk_on};
use flat_code::{CallOperation, EndOperation, Operand, Operation, kind_of_code};
use frames::{Activation, Binding, Bindings, Running};
use image_file::{Loaded, LoadedCode};
use plc_base::Area;
use plc_mem::Memory;
use timers_counters::{Counters, Timers};

/// Whether a statement is sure to show nothing, and where it leads then; or, of one that was tried,
/// whether it was executed.
#[derive(Clone, Copy)]
pub(crate) enum Silent {
    /// The statement shows nothing, and its block stays the running one.
    Inside,
    /// The statement shows nothing, and another block may run after it.
    Across,
    /// The statement isn't sure to show nothing; or it was tried, and nothing was done.
    Not,
}

// Whether an instruction may write to the place of its operand.
fn may_write(operation: Operation) -> bool
    ensures { result ≡ may_write_of operation }
{
    matches!(
        operation,
        Operation::Transfer
            | Operation::Assign
            | Operation::Set
            | Operation::Reset
            | Operation::Edge { .. }
            | Operation::Pointer(_)
    )
}

fn is_inside_area(area: Area) -> bool
    ensures { result ≡ is_inside_of area }
{
    !matches!(area, Area::P)
}

fn is_named_inside(area: Option<Area>) -> bool
    ensures { result ≡ is_named_inside_of area }
{
    match area {
        Some(area) => is_inside_area(area),
        None => false,
    }
}

fn is_bound_inside(binding: Option<Binding>) -> bool
    ensures { result ≡ is_bound_inside_of binding }
{
    match binding {
        Some(Binding::AtPlace { place, .. }) => is_inside_area(place.area),
        _ => true,
    }
}

// Whether it is sure, by the operand and what parameters stand for, that no place in the
// peripheral area is written.
fn has_place_inside(operand: &Operand, s: &Running) -> bool
    ensures { result ≡ has_place_inside_of operand.now s.now.frame.bindings }
{
    match *operand {
        Operand::Direct { area, .. } => is_inside_area(area),
        Operand::ByMemory { area, .. } => is_inside_area(area),
        Operand::ByRegister { area, .. } => is_named_inside(area),
        Operand::Parameter { index, .. } => is_bound_inside(s.frame.bindings.get(index)),
        _ => true,
    }
}

#[inline(always)]
fn keeps_outputs(operation: Operation, operand: &Operand, s: &Running) -> bool
    ensures { result ≡ keeps_outputs_of operation operand.now s.now.frame.bindings }
{
    !may_write(operation) || has_place_inside(operand, s)
}

// A jump, unless it goes by a list.
fn is_silent_jump(operand: &Operand) -> bool
    ensures { (opens : Option ℕ) (passings : List Passing) (next : ℕ) (ops : List OpData)
        (a : ActivationOf)
        → result ≡ is_silent (instr_of operation.Jump operand.now opens passings next ops) a }
{
    match *operand {
        Operand::Jump { kind, .. } => !is_jl(jump_of_number(kind)),
        _ => false,
    }
}

// CALL, UC and CC of a function or function block, where they call.
fn is_silent_call(how: CallOperation, operand: &Operand, a: &Activation) -> bool
    ensures { (opens : Option ℕ) (passings : List Passing) (next : ℕ) (ops : List OpData)
        → result
        ≡ is_silent (instr_of (operation.Call how) operand.now opens passings next ops) a.now }
{
    match *operand {
        Operand::Called { kind, .. } => match kind_of_code(kind) {
            Some(kind) => {
                is_called(how, a.running.regs.status.rlo) && !kind.is_system_function()
            }
            None => false,
        },
        _ => false,
    }
}

fn has_caller(a: &Activation) -> bool
    requires { a.now.ended ≡ false }
    ensures { result ≡ has_caller_of a.now.below }
{
    if a.depth() < 2 {
        return false;
    }
    true
}

// BE, BEU and BEC, where they return from a block without an instance to its caller.
fn is_silent_end(how: EndOperation, a: &Activation) -> bool
    requires { a.now.ended ≡ false }
    ensures { result ≡ is_silent (Returns how) a.now }
{
    is_ended(how, a.running.regs.status.rlo) && !a.running.frame.instance.is_some() && has_caller(a)
}

#[inline(always)]
fn inside(silent: bool) -> Silent
    ensures { shows_nothing result ≡ silent }
{
    if silent { Silent::Inside } else { Silent::Not }
}

#[inline(always)]
fn across(silent: bool) -> Silent
    ensures silent { shows_nothing result ≡ silent }
    ensures across { is_still_inside result ≡ false }
{
    if silent { Silent::Across } else { Silent::Not }
}

// Whether the last op of a statement is sure to show nothing.
#[inline(always)]
fn silent_kind_of_op(operation: Operation, operand: &Operand, a: &Activation) -> Silent
    requires { a.now.ended ≡ false }
    ensures silent { (opens : Option ℕ) (passings : List Passing) (next : ℕ) (ops : List OpData)
        → shows_nothing result
        ≡ is_silent (instr_of operation operand.now opens passings next ops) a.now }
    ensures inside { (opens : Option ℕ) (passings : List Passing) (next : ℕ) (ops : List OpData)
        → is_still_inside result ≡ true
        → stays_in_block (instr_of operation operand.now opens passings next ops) ≡ true }
{
    match operation {
        Operation::Jump => inside(is_silent_jump(operand)),
        Operation::Call(how) => across(is_silent_call(how, operand, a)),
        Operation::End(how) => across(is_silent_end(how, a)),
        _ => inside(keeps_outputs(operation, operand, &a.running)),
    }
}

// Whether a statement that was found is sure to show nothing.
#[inline(always)]
fn silent_kind_of(f: &Fetched<'_>, a: &Activation) -> Silent
    requires { a.now.ended ≡ false }
    ensures silent { shows_nothing result ≡ is_silent f.now.instr a.now }
    ensures inside { is_still_inside result ≡ true → stays_in_block f.now.instr ≡ true }
{
    let last = f.last;
    silent_kind_of_op(last.operation(), &last.operand, a)
}

// A statement that was found, if it is sure to show nothing and doesn't fail. A call or a return is
// made apart, so that the way of the others stays short.
#[inline(always)]
fn pass(
    c: &Loaded,
    f: &Fetched<'_>,
    a: &mut Activation,
    m: &mut Memory,
    t: &mut Timers,
    n: &mut Counters,
    spare: &mut Bindings,
    other: &mut Outcome,
) -> Silent
    requires ready { IsStatementReady (code_of c.now.program) a.old }
    requires there { IsNotStuck (instruction_step (code_of c.now.program)
        f.now.instr f.now.next a.old
        (global_store m.old t.old n.old)) }
    ensures goes { GoesOrStays (instruction_step (code_of c.now.program)
        f.now.instr f.now.next a.old
        (global_store m.old t.old n.old)) (is_silent f.now.instr a.old) a.old a.new
        (global_store m.old t.old n.old) (global_store m.new t.new n.new) (shows_nothing result) }
    ensures block { is_still_inside result ≡ true
        → a.new.running.frame.block ≡ a.old.running.frame.block }
{
    match silent_kind_of(f, a) {
        Silent::Not => Silent::Not,
        Silent::Across => across(perform_apart(c, f, a, m, t, n, spare, other)),
        Silent::Inside => inside(perform(c, f, a, m, t, n, spare, other)),
    }
}

// The statement of a block at which the innermost frame stands, from its second op on, with what
// the first one opens, if it is sure to show nothing and doesn't fail.
#[inline(never)]
fn pass_further(
    c: &Loaded,
    code: &LoadedCode<'_>,
    second: u32,
    opens: Option<u16>,
    a: &mut Activation,
    m: &mut Memory,
    t: &mut Timers,
    n: &mut Counters,
    spare: &mut Bindings,
    other: &mut Outcome,
) -> Silent
    requires ready { IsStatementReady (code_of c.now.program) a.old }
    requires block { block_by_id a.old.running.frame.block c.now.program.code_blocks
        ≡ Some code.now }
    requires walk { option_map (walk_with None)
        (op_run_at most_ops code.now.code a.old.running.frame.at)
        ≡ option_map (walk_with opens) (op_run_at 63 code.now.code second) }
    ensures goes { GoesOrStays (statement_step (code_of c.now.program)
        a.old (global_store m.old t.old n.old))
        (is_next_statement_of_kind is_silent (code_of c.now.program) a.old) a.old a.new
        (global_store m.old t.old n.old) (global_store m.new t.new n.new) (shows_nothing result) }
    ensures block { is_still_inside result ≡ true
        → a.new.running.frame.block ≡ a.old.running.frame.block }
{
    let at = a.running.frame.at;
    match walk_on(code, second, opens) {
        Some(walk) => {
            let found = Fetched {
                code,
                at,
                opens: walk.opens,
                last: &walk.last,
                next: walk.next,
            };
            pass(c, &found, a, m, t, n, spare, other)
        }
        None => unreachable!(),
    }
}

// The statement of a block at which the innermost frame stands, if it is sure to show nothing and
// doesn't fail.
#[inline(always)]
fn pass_statement(
    c: &Loaded,
    code: &LoadedCode<'_>,
    a: &mut Activation,
    m: &mut Memory,
    t: &mut Timers,
    n: &mut Counters,
    spare: &mut Bindings,
    other: &mut Outcome,
) -> Silent
    requires ready { IsStatementReady (code_of c.now.program) a.old }
    requires block { block_by_id a.old.running.frame.block c.now.program.code_blocks
        ≡ Some code.now }
    ensures goes { GoesOrStays (statement_step (code_of c.now.program)
        a.old (global_store m.old t.old n.old))
        (is_next_statement_of_kind is_silent (code_of c.now.program) a.old) a.old a.new
        (global_store m.old t.old n.old) (global_store m.new t.new n.new) (shows_nothing result) }
    ensures block { is_still_inside result ≡ true
        → a.new.running.frame.block ≡ a.old.running.frame.block }
{
    let at = a.running.frame.at;
    match code.op(at) {
        Some((op, next)) => {
            if op.last {
                let found = Fetched {
                    code,
                    at,
                    opens: None,
                    last: &op,
                    next,
                };
                pass(c, &found, a, m, t, n, spare, other)
            } else {
                let opens = opens_after(None, &op.operand);
                pass_further(c, code, next, opens, a, m, t, n, spare, other)
            }
        }
        None => unreachable!(),
    }
}

// Statements of the running block, one after another: how many, and whether the last one led to
// another block.
fn run_inside(
    c: &Loaded,
    m: &mut Memory,
    t: &mut Timers,
    n: &mut Counters,
    a: &mut Activation,
    most: u64,
    spare: &mut Bindings,
) -> (u64, bool)
    requires { StaysReady c.now.program a.old (global_store m.old t.old n.old) }
    ensures few { result.0 ≤ most }
    ensures more { result.1 ≡ true → 1 ≤ result.0 }
    ensures runs { RunsSilently (code_of c.now.program) result.0 a.old a.new
        (global_store m.old t.old n.old) (global_store m.new t.new n.new) }
    ensures stops { result.1 ≡ false → result.0 < most
        → goes_on_by_kind is_silent (code_of c.now.program) a.new (global_store m.new t.new n.new)
        ≡ false }
{
    let Some(code) = c.block(a.running.frame.block) else {
        return (0, false);
    };
    let mut other = Outcome::Went;
    let mut done = 0;
    while done < most {
        match pass_statement(c, &code, a, m, t, n, spare, &mut other) {
            Silent::Inside => done += 1,
            Silent::Across => return (done + 1, true),
            Silent::Not => return (done, false),
        }
    }
    (done, false)
}

/// Executes statements one after another as long as each lets the activation go on and leaves the
/// peripheral outputs as they are, `most` at most; the answer is how many. It stops only before one
/// that isn't of the silent kind or doesn't go on: what it leaves is for `statement`. Silent are
/// the instructions inside a block that don't write to a peripheral place, by their operand or what
/// a parameter stands for; jumps but JL; a call that is made, but of a system function; and a
/// return to a caller from a block without an instance. `spare` is room for what the parameters of
/// a call stand for; what it holds before and after says nothing.
pub fn run(
    c: &Loaded,
    m: &mut Memory,
    t: &mut Timers,
    n: &mut Counters,
    a: &mut Activation,
    most: u64,
    spare: &mut Bindings,
) -> u64
    requires { StaysReady c.now.program a.old (global_store m.old t.old n.old) }
    ensures few { result ≤ most }
    ensures runs { RunsSilently (code_of c.now.program) result a.old a.new
        (global_store m.old t.old n.old) (global_store m.new t.new n.new) }
    ensures stops { result < most
        → goes_on_by_kind is_silent (code_of c.now.program) a.new (global_store m.new t.new n.new)
        ≡ false }
{
    let mut done = 0;
    while done < most {
        let (more, crosses) = run_inside(c, m, t, n, a, most - done, spare);
        done += more;
        if !crosses {
            return done;
        }
    }
    done
}
