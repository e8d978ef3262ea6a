//! Timers and counters: SP SE SD SS SF, CU, CD, S of a counter, R and FR of both.
ghost use Rattle.std.specs.Prelude.{◌≡◌};
ghost use Rattle.machine.specs.ExecState.{local_of};
ghost use Rattle.machine.specs.Timing.{start_word as word_of_own, logic_string_ended, timer_start, timer_reset, timer_freed, counting_up, counting_down, counter_set, counter_reset, counter_freed, HasTimerOrCounterEffect};

use crate::values::{fault_code, number_named};
use flat_code::Operand;
use frames::Running;
use plc_base::{TimerKind, error_codes};
use plc_mem::Memory;
use status_word::Regs;
use timers_counters::{Counters, Timers};

/// Ends the logic string: OR 0, /FC 0.
fn end_string(r: &mut Regs)
    ensures { r.new ≡ logic_string_ended r.old }
{
    r.status.or = false;
    r.status.fc = false;
}

fn start_word(s: &Running) -> u16
    ensures { result ≡ word_of_own (local_of s.now) }
{
    (s.regs.a1 % 0x1_0000) as u16
}

/// SP, SE, SD, SS, SF.
#[tactic(auto, unfolding(crate::specs::Timing::timer_start))]
#[inline(never)]
pub(crate) fn start(
    how: TimerKind,
    operand: &Operand,
    s: &mut Running,
    m: &Memory,
    t: &mut Timers,
) -> Result<(), u8>
    ensures { HasTimerOrCounterEffect (timer_start how operand.now (local_of s.old) m.now t.old)
        s.old s.new t.old t.new result }
{
    let number = number_named(operand, s, m)?;
    match t.start(number, how, s.regs.status.rlo, start_word(s)) {
        Ok(()) => {
            end_string(&mut s.regs);
            Ok(())
        }
        Err(fault) => Err(fault_code(fault, error_codes::NO_TIMER)),
    }
}

/// R of a timer.
#[tactic(auto, unfolding(crate::specs::Timing::timer_reset))]
pub(crate) fn reset_timer(
    operand: &Operand,
    s: &mut Running,
    m: &Memory,
    t: &mut Timers,
) -> Result<(), u8>
    ensures { HasTimerOrCounterEffect (timer_reset operand.now (local_of s.old) m.now t.old)
        s.old s.new t.old t.new result }
{
    let number = number_named(operand, s, m)?;
    match t.reset(number, s.regs.status.rlo) {
        Ok(()) => {
            end_string(&mut s.regs);
            Ok(())
        }
        Err(fault) => Err(fault_code(fault, error_codes::NO_TIMER)),
    }
}

/// FR of a timer.
#[tactic(auto, unfolding(crate::specs::Timing::timer_freed))]
pub(crate) fn free_timer(
    operand: &Operand,
    s: &mut Running,
    m: &Memory,
    t: &mut Timers,
) -> Result<(), u8>
    ensures { HasTimerOrCounterEffect (timer_freed operand.now (local_of s.old) m.now t.old)
        s.old s.new t.old t.new result }
{
    let number = number_named(operand, s, m)?;
    match t.free(number, s.regs.status.rlo) {
        Ok(()) => {
            end_string(&mut s.regs);
            Ok(())
        }
        Err(fault) => Err(fault_code(fault, error_codes::NO_TIMER)),
    }
}

/// CU.
#[tactic(auto, unfolding(crate::specs::Timing::counting_up))]
pub(crate) fn count_up(
    operand: &Operand,
    s: &mut Running,
    m: &Memory,
    n: &mut Counters,
) -> Result<(), u8>
    ensures { HasTimerOrCounterEffect (counting_up operand.now (local_of s.old) m.now n.old)
        s.old s.new n.old n.new result }
{
    let number = number_named(operand, s, m)?;
    match n.up(number, s.regs.status.rlo) {
        Ok(()) => {
            end_string(&mut s.regs);
            Ok(())
        }
        Err(fault) => Err(fault_code(fault, error_codes::NO_COUNTER)),
    }
}

/// CD.
#[tactic(auto, unfolding(crate::specs::Timing::counting_down))]
pub(crate) fn count_down(
    operand: &Operand,
    s: &mut Running,
    m: &Memory,
    n: &mut Counters,
) -> Result<(), u8>
    ensures { HasTimerOrCounterEffect (counting_down operand.now (local_of s.old) m.now n.old)
        s.old s.new n.old n.new result }
{
    let number = number_named(operand, s, m)?;
    match n.down(number, s.regs.status.rlo) {
        Ok(()) => {
            end_string(&mut s.regs);
            Ok(())
        }
        Err(fault) => Err(fault_code(fault, error_codes::NO_COUNTER)),
    }
}

/// S of a counter.
#[tactic(auto, unfolding(crate::specs::Timing::counter_set))]
pub(crate) fn set_counter(
    operand: &Operand,
    s: &mut Running,
    m: &Memory,
    n: &mut Counters,
) -> Result<(), u8>
    ensures { HasTimerOrCounterEffect (counter_set operand.now (local_of s.old) m.now n.old)
        s.old s.new n.old n.new result }
{
    let number = number_named(operand, s, m)?;
    match n.set(number, s.regs.status.rlo, start_word(s)) {
        Ok(()) => {
            end_string(&mut s.regs);
            Ok(())
        }
        Err(fault) => Err(fault_code(fault, error_codes::NO_COUNTER)),
    }
}

/// R of a counter.
#[tactic(auto, unfolding(crate::specs::Timing::counter_reset))]
pub(crate) fn reset_counter(
    operand: &Operand,
    s: &mut Running,
    m: &Memory,
    n: &mut Counters,
) -> Result<(), u8>
    ensures { HasTimerOrCounterEffect (counter_reset operand.now (local_of s.old) m.now n.old)
        s.old s.new n.old n.new result }
{
    let number = number_named(operand, s, m)?;
    match n.reset(number, s.regs.status.rlo) {
        Ok(()) => {
            end_string(&mut s.regs);
            Ok(())
        }
        Err(fault) => Err(fault_code(fault, error_codes::NO_COUNTER)),
    }
}

/// FR of a counter.
#[tactic(auto, unfolding(crate::specs::Timing::counter_freed))]
pub(crate) fn free_counter(
    operand: &Operand,
    s: &mut Running,
    m: &Memory,
    n: &mut Counters,
) -> Result<(), u8>
    ensures { HasTimerOrCounterEffect (counter_freed operand.now (local_of s.old) m.now n.old)
        s.old s.new n.old n.new result }
{
    let number = number_named(operand, s, m)?;
    match n.free(number, s.regs.status.rlo) {
        Ok(()) => {
            end_string(&mut s.regs);
            Ok(())
        }
        Err(fault) => Err(fault_code(fault, error_codes::NO_COUNTER)),
    }
}
