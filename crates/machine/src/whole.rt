//! What an instruction does that touches no position.
ghost use Rattle.std.specs.Prelude.{◌≡◌};
ghost use Rattle.machine.specs.ExecState.{exec_state_of};
ghost use Rattle.machine.specs.Outcomes.{ChangesExecState};
ghost use Rattle.machine.specs.Effect.{operation_effect as operation_effect_of, statement_effect as statement_effect_of, kind_of_numbered_operand as kind_named_of, set_effect, reset_effect, enable_effect, with_db_opened};

use crate::bit_logic::{assign, check, edge, set_bit};
use crate::data_blocks::{exchange, is_loaded, load_open_block, open};
use crate::loads::{load, load_bcd, load_status, transfer, transfer_status};
use crate::nesting::{nest, unnest};
use crate::numbers::{add, combine, number, shift};
use crate::places::NO_OPERAND;
use crate::pointers::point;
use crate::relay::relay;
use crate::timing::{
    count_down, count_up, free_counter, free_timer, reset_counter, reset_timer, set_counter, start,
};
use flat_code::{Operand, Operation, TIMER_KIND};
use frames::Running;
use plc_base::error_codes;
use plc_mem::Memory;
use timers_counters::{Counters, Timers};

// The kind of an operand that is a timer (1) or counter (2).
fn kind_named(operand: &Operand) -> Option<u8>
    ensures { result ≡ kind_named_of operand.now }
{
    match *operand {
        Operand::Numbered { kind, .. } => Some(kind),
        Operand::NumberedBy { kind, .. } => Some(kind),
        _ => None,
    }
}

// S of a bit or a counter.
#[tactic(auto, using(crate::proofs::Lifts::acts_meet, crate::proofs::Lifts::counts_meet))]
#[inline(never)]
fn set(
    operand: &Operand,
    s: &mut Running,
    m: &mut Memory,
    t: &Timers,
    n: &mut Counters,
) -> Result<(), u8>
    ensures { ChangesExecState (set_effect (kind_named_of operand.now) operand.now
        (exec_state_of s.old m.old t.now n.old))
        s.old s.new m.old m.new t.now t.now n.old n.new result }
{
    match kind_named(operand) {
        None => set_bit(true, operand, s, m),
        Some(_) => set_counter(operand, s, m, n),
    }
}

// R of a bit, a timer or a counter.
#[tactic(auto, using(crate::proofs::Lifts::acts_meet, crate::proofs::Lifts::times_meet, crate::proofs::Lifts::counts_meet))]
#[inline(never)]
fn reset(
    operand: &Operand,
    s: &mut Running,
    m: &mut Memory,
    t: &mut Timers,
    n: &mut Counters,
) -> Result<(), u8>
    ensures { ChangesExecState (reset_effect (kind_named_of operand.now) operand.now
        (exec_state_of s.old m.old t.old n.old))
        s.old s.new m.old m.new t.old t.new n.old n.new result }
{
    match kind_named(operand) {
        None => set_bit(false, operand, s, m),
        Some(TIMER_KIND) => reset_timer(operand, s, m, t),
        Some(_) => reset_counter(operand, s, m, n),
    }
}

// FR of a timer or a counter.
#[tactic(auto, using(crate::proofs::Lifts::times_meet, crate::proofs::Lifts::counts_meet))]
#[inline(never)]
fn free(
    operand: &Operand,
    s: &mut Running,
    m: &Memory,
    t: &mut Timers,
    n: &mut Counters,
) -> Result<(), u8>
    ensures { ChangesExecState (enable_effect (kind_named_of operand.now) operand.now
        (exec_state_of s.old m.now t.old n.old))
        s.old s.new m.now m.now t.old t.new n.old n.new result }
{
    match kind_named(operand) {
        None => Err(NO_OPERAND),
        Some(TIMER_KIND) => free_timer(operand, s, m, t),
        Some(_) => free_counter(operand, s, m, n),
    }
}

/// An instruction that touches no position.
#[tactic(auto, unfolding(crate::specs::Effect::operation_effect), using(crate::proofs::Lifts::checks_meet, crate::proofs::Lifts::changes_meet, crate::proofs::Lifts::turns_meet, crate::proofs::Lifts::acts_meet, crate::proofs::Lifts::times_meet, crate::proofs::Lifts::counts_meet))]
#[inline(always)]
pub(crate) fn effect(
    operation: Operation,
    operand: &Operand,
    s: &mut Running,
    m: &mut Memory,
    t: &mut Timers,
    n: &mut Counters,
) -> Result<(), u8>
    ensures { ChangesExecState (operation_effect_of operation operand.now
        (exec_state_of s.old m.old t.old n.old))
        s.old s.new m.old m.new t.old t.new n.old n.new result }
{
    match operation {
        Operation::Nop | Operation::Bld => Ok(()),
        Operation::Check(with) => check(with, operand, s, m, t, n),
        Operation::OrBare => {
            s.regs.or_bare();
            Ok(())
        }
        Operation::Nest(with) => nest(with, s),
        Operation::Unnest => unnest(s),
        Operation::Relay(which) => relay(which, s),
        Operation::Load => load(operand, s, m, t, n),
        Operation::Transfer => transfer(operand, s, m),
        Operation::Assign => assign(operand, s, m),
        Operation::Set => set(operand, s, m, t, n),
        Operation::Reset => reset(operand, s, m, t, n),
        Operation::Edge { rising } => edge(rising, operand, s, m),
        Operation::SetRlo => {
            s.regs.set();
            Ok(())
        }
        Operation::ClearRlo => {
            s.regs.clr();
            Ok(())
        }
        Operation::NegateRlo => {
            s.regs.not();
            Ok(())
        }
        Operation::SaveRlo => {
            s.regs.save();
            Ok(())
        }
        Operation::LoadBcd => load_bcd(operand, s, m, t, n),
        Operation::LoadStatus => {
            load_status(&mut s.regs);
            Ok(())
        }
        Operation::TransferStatus => {
            transfer_status(&mut s.regs);
            Ok(())
        }
        Operation::LoadOpenBlock => load_open_block(operand, s, m),
        Operation::Pointer(what) => point(what, operand, s, m),
        Operation::Number(what) => number(what, &mut s.regs),
        Operation::Add(what) => {
            add(what, operand, &mut s.regs);
            Ok(())
        }
        Operation::CompareInt(how) => {
            alu::compare_i(&mut s.regs, how);
            Ok(())
        }
        Operation::CompareDint(how) => {
            alu::compare_d(&mut s.regs, how);
            Ok(())
        }
        Operation::Logic(what) => {
            combine(what, operand, &mut s.regs);
            Ok(())
        }
        Operation::Shift(what) => {
            shift(what, operand, &mut s.regs);
            Ok(())
        }
        Operation::Start(how) => start(how, operand, s, m, t),
        Operation::Free => free(operand, s, m, t, n),
        Operation::CountUp => count_up(operand, s, m, n),
        Operation::CountDown => count_down(operand, s, m, n),
        Operation::OpenBlock => open(operand, s, m),
        Operation::Exchange => {
            exchange(s);
            Ok(())
        }
        Operation::NoOperation
        | Operation::UseDb
        | Operation::Pass
        | Operation::Jump
        | Operation::Call(_)
        | Operation::End(_) => { Err(NO_OPERAND) }
    }
}

// The rest of a statement whose data block was opened; it is closed again after an error.
#[inline(never)]
fn effect_opened(
    number: u16,
    operation: Operation,
    operand: &Operand,
    s: &mut Running,
    m: &mut Memory,
    t: &mut Timers,
    n: &mut Counters,
) -> Result<(), u8>
    ensures { ChangesExecState (operation_effect_of operation operand.now
        (with_db_opened number (exec_state_of s.old m.old t.old n.old)))
        s.old s.new m.old m.new t.old t.new n.old n.new result }
{
    let before = s.frame.db;
    s.frame.db = Some(number);
    match effect(operation, operand, s, m, t, n) {
        Ok(()) => Ok(()),
        Err(code) => {
            s.frame.db = before;
            Err(code)
        }
    }
}

/// An instruction that touches no position, with the data block that its statement opens.
#[tactic(auto, unfolding(crate::specs::Effect::statement_effect))]
#[inline(always)]
pub(crate) fn effect_with(
    opens: Option<u16>,
    operation: Operation,
    operand: &Operand,
    s: &mut Running,
    m: &mut Memory,
    t: &mut Timers,
    n: &mut Counters,
) -> Result<(), u8>
    ensures { ChangesExecState (statement_effect_of opens operation operand.now
        (exec_state_of s.old m.old t.old n.old))
        s.old s.new m.old m.new t.old t.new n.old n.new result }
{
    match opens {
        None => effect(operation, operand, s, m, t, n),
        Some(number) => {
            if !is_loaded(number, m) {
                return Err(error_codes::NO_DATA_BLOCK);
            }
            effect_opened(number, operation, operand, s, m, t, n)
        }
    }
}
