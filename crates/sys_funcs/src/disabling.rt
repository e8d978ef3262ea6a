ghost use Rattle.std.specs.Prelude.{◌≡◌, true, false};
ghost use Rattle.ob_sched.specs.OrganizationBlock.{is_interrupt as interrupts};
ghost use Rattle.ob_sched.specs.Views.{scheduler_of};
ghost use Rattle.sys_funcs.specs.Disabling.{interrupts_disabled, first_of_group, is_interrupt_selected, selection_error_code, ob_disabled_if_selected};
ghost use Rattle.sys_funcs.specs.Results.{LeavesSystemFunctionResult};
ghost use Rattle.sys_funcs.specs.Functions.{dis_irt as disables, en_irt as enables, interrupts_disabled_or_error};

use crate::error_codes::{WRONG_MODE, WRONG_OB_NR};
use crate::returns::returned_value;
use frames::Activation;
use ob_sched::Sched;

// Whether an organization block is that of an interrupt.
fn is_interrupt(ob: u32) -> bool
    ensures { result ≡ interrupts ob }
{
    (10..=17).contains(&ob)
        || (20..=23).contains(&ob)
        || (30..=38).contains(&ob)
        || (40..=47).contains(&ob)
}

// The first organization block number of the group of an interrupt: 10, 20, 30 or 40.
fn first_of_group(ob: u32) -> u32
    ensures { result ≡ first_of_group ob }
{
    ob / 10 * 10
}

// Whether MODE and OB_NR mean an organization block.
fn is_interrupt_selected(mode: u32, ob_nr: u32, ob: u32) -> bool
    ensures { result ≡ is_interrupt_selected mode ob_nr ob }
{
    is_interrupt(ob)
        && (mode == 0 || mode == 1 && first_of_group(ob) == ob_nr || mode == 2 && ob == ob_nr)
}

// The error code of DIS_IRT and EN_IRT by MODE and OB_NR, if these mean no interrupt.
fn selection_error_code(mode: u32, ob_nr: u32) -> Option<u32>
    ensures { result ≡ selection_error_code mode ob_nr }
{
    if mode > 2 {
        return Some(WRONG_MODE);
    }
    let means_one = mode == 0
        || mode == 1 && is_interrupt(ob_nr) && first_of_group(ob_nr) == ob_nr
        || mode == 2 && is_interrupt(ob_nr);
    if means_one { None } else { Some(WRONG_OB_NR) }
}

// Disables or enables one organization block, if MODE and OB_NR mean it.
fn set_one(s: &mut Sched, mode: u32, ob_nr: u32, ob: u16, disabled: bool)
    ensures { scheduler_of s.new
        ≡ ob_disabled_if_selected (is_interrupt_selected mode ob_nr ob) disabled ob
        (scheduler_of s.old) }
{
    if !is_interrupt_selected(mode, ob_nr, u32::from(ob)) {
        return;
    }
    if disabled {
        s.disable(ob);
    } else {
        s.enable(ob);
    }
}

// Disables or enables the organization blocks that MODE and OB_NR mean.
#[tactic(auto, unfolding(crate::specs::Disabling::interrupts_disabled))]
fn set_all(s: &mut Sched, mode: u32, ob_nr: u32, disabled: bool)
    ensures { scheduler_of s.new ≡ interrupts_disabled disabled mode ob_nr (scheduler_of s.old) }
{
    for ob in 10..48 {
        set_one(s, mode, ob_nr, ob, disabled);
    }
}

// DIS_IRT and EN_IRT: disables or enables what MODE and OB_NR mean, or returns their error code.
fn disable_or_error(s: &mut Sched, a: &mut Activation, mode: u32, ob_nr: u32, disabled: bool) -> u32
    ensures { LeavesSystemFunctionResult
        (interrupts_disabled_or_error (selection_error_code mode ob_nr) disabled mode ob_nr
        (scheduler_of s.old) a.old)
        (scheduler_of s.new) a.new result }
{
    if let Some(code) = selection_error_code(mode, ob_nr) {
        return returned_value(a, code);
    }
    set_all(s, mode, ob_nr, disabled);
    returned_value(a, 0)
}

/// SFC 39 DIS_IRT: disables interrupts: all of them (MODE 0, whatever OB_NR is), the group whose
/// first number is OB_NR (MODE 1: 10, 20, 30 or 40), or that of OB_NR (MODE 2). Another MODE is
/// 16#8091; after that another OB_NR is 16#8090.
#[tactic(auto, unfolding(crate::specs::Functions::dis_irt))]
pub fn dis_irt(s: &mut Sched, a: &mut Activation, mode: u32, ob_nr: u32) -> u32
    ensures { LeavesSystemFunctionResult (disables (scheduler_of s.old) a.old mode ob_nr)
        (scheduler_of s.new) a.new result }
{
    disable_or_error(s, a, mode, ob_nr, true)
}

/// SFC 40 EN_IRT: enables interrupts, by MODE and OB_NR as DIS_IRT disables them.
#[tactic(auto, unfolding(crate::specs::Functions::en_irt))]
pub fn en_irt(s: &mut Sched, a: &mut Activation, mode: u32, ob_nr: u32) -> u32
    ensures { LeavesSystemFunctionResult (enables (scheduler_of s.old) a.old mode ob_nr)
        (scheduler_of s.new) a.new result }
{
    disable_or_error(s, a, mode, ob_nr, false)
}
