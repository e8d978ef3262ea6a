ghost use Rattle.std.specs.Prelude.{◌≡◌};
ghost use Rattle.stl_types.specs.Kinds.{is_peripheral, is_peripheral_area};
ghost use Rattle.stl_types.specs.Operands.{
  composite_rule,
  has_width,
  is_input,
  is_on_wrong_side,
  rule_of_resolved_operand,
  takes_operand,
  takes_places,
  takes_width,
  rule_writes_operand,
};

use crate::kinds::{
    is_bit, is_composite, is_condition, is_counter, is_date, is_direct, is_double_word,
    is_in_memory, is_label_operand, is_loadable_register, is_opened, is_operand_of_call,
    is_pointer_constant, is_second_register, is_status_word, is_timer, names_nothing, width_in,
};
use crate::operand_rules::OperandRule;
use crate::resolved_operands::{ResolvedOperand, Side};
use plc_base::{Area, Width};
use stl_ast::PartKind;

/// Whether a form takes an operand that is no constant, whatever its width.
#[tactic(auto, unfolding(crate::specs::Operands::takes_operand))]
fn takes(form: OperandRule, view: ResolvedOperand) -> bool
    ensures { result ≡ takes_operand form view }
{
    match form {
        OperandRule::Bare | OperandRule::Shifts { .. } | OperandRule::Combines { .. } =>
            names_nothing(view),
        OperandRule::ReadsBit => {
            is_in_memory(view) || is_timer(view) || is_counter(view) || is_condition(view)
        }
        OperandRule::ReadsBitOrBare => {
            names_nothing(view)
                || is_in_memory(view)
                || is_timer(view)
                || is_counter(view)
                || is_condition(view)
        }
        OperandRule::WritesBit => is_in_memory(view),
        OperandRule::Sets => is_in_memory(view) || is_counter(view),
        OperandRule::Resets => is_in_memory(view) || is_timer(view) || is_counter(view),
        OperandRule::Loads => {
            is_in_memory(view)
                || is_timer(view)
                || is_counter(view)
                || is_pointer_constant(view)
                || is_loadable_register(view)
        }
        OperandRule::Transfers => is_in_memory(view) || is_status_word(view),
        OperandRule::LoadsBcd | OperandRule::Enables => is_timer(view) || is_counter(view),
        OperandRule::LoadsAr1 => {
            names_nothing(view)
                || is_pointer_constant(view)
                || is_direct(view)
                || is_second_register(view)
        }
        OperandRule::LoadsAr2 => names_nothing(view)
            || is_pointer_constant(view)
            || is_direct(view),
        OperandRule::StoresAr1 => names_nothing(view)
            || is_direct(view)
            || is_second_register(view),
        OperandRule::StoresAr2 => names_nothing(view) || is_direct(view),
        OperandRule::AddsToAr => names_nothing(view) || is_pointer_constant(view),
        OperandRule::Counts { .. } | OperandRule::Adds => false,
        OperandRule::Jumps => is_label_operand(view),
        OperandRule::StartsTimer => is_timer(view),
        OperandRule::StepsCounter => is_counter(view),
        OperandRule::Calls => is_operand_of_call(view),
        OperandRule::Opens => is_opened(view),
    }
}

/// Whether a form takes a place in memory, of whatever width.
#[tactic(auto, unfolding(crate::specs::Operands::takes_places))]
fn takes_places(form: OperandRule) -> bool
    ensures { result ≡ takes_places form }
{
    matches!(
        form,
        OperandRule::ReadsBit
            | OperandRule::ReadsBitOrBare
            | OperandRule::WritesBit
            | OperandRule::Sets
            | OperandRule::Resets
            | OperandRule::Loads
            | OperandRule::Transfers
            | OperandRule::LoadsAr1
            | OperandRule::LoadsAr2
            | OperandRule::StoresAr1
            | OperandRule::StoresAr2
    )
}

#[tactic(auto, unfolding(crate::specs::Operands::takes_width))]
fn takes_width(form: OperandRule, width: Option<Width>) -> bool
    ensures { result ≡ takes_width form width }
{
    match form {
        OperandRule::ReadsBit
        | OperandRule::ReadsBitOrBare
        | OperandRule::WritesBit
        | OperandRule::Sets
        | OperandRule::Resets => is_bit(width),
        OperandRule::Loads | OperandRule::Transfers => !is_bit(width),
        OperandRule::LoadsAr1
        | OperandRule::LoadsAr2
        | OperandRule::StoresAr1
        | OperandRule::StoresAr2 => { is_double_word(width) }
        _ => true,
    }
}

/// Only a place in memory has a width.
fn has_width(form: OperandRule, width: Option<Width>) -> bool
    ensures { result ≡ has_width form width }
{
    match width {
        None => true,
        Some(_) => takes_width(form, width),
    }
}

/// Whether instructions of a form write their operand.
fn writes(form: OperandRule) -> bool
    ensures { result ≡ rule_writes_operand form }
{
    matches!(
        form,
        OperandRule::WritesBit
            | OperandRule::Sets
            | OperandRule::Resets
            | OperandRule::Transfers
            | OperandRule::StoresAr1
            | OperandRule::StoresAr2
    )
}

fn is_peripheral(area: Area) -> bool
    ensures { result ≡ is_peripheral area }
{
    matches!(area, Area::P)
}

fn is_peripheral_area(area: Option<Area>) -> bool
    ensures { result ≡ is_peripheral_area area }
{
    match area {
        None => false,
        Some(area) => is_peripheral(area),
    }
}

fn is_on_wrong_side(form: OperandRule, view: ResolvedOperand) -> bool
    ensures { result ≡ is_on_wrong_side form view }
{
    match view {
        ResolvedOperand::Direct { side, .. } => match side {
            Side::Both => false,
            Side::Inputs => writes(form),
            Side::Outputs => !writes(form),
        },
        ResolvedOperand::ByMemory { area, .. } => is_peripheral(area),
        ResolvedOperand::ByRegister { area, .. } => is_peripheral_area(area),
        _ => false,
    }
}

fn is_input(view: ResolvedOperand) -> bool
    ensures { result ≡ is_input view }
{
    match view {
        ResolvedOperand::Parameter { section, .. } => matches!(section, PartKind::Input),
        _ => false,
    }
}

fn composite_rule(form: OperandRule, view: ResolvedOperand) -> u16
    ensures { result ≡ composite_rule form view }
{
    if is_date(view) || takes_places(form) {
        24
    } else {
        25
    }
}

/// The rule that an instruction breaks by an operand that is no constant.
#[tactic(auto, unfolding(crate::specs::Operands::rule_of_resolved_operand))]
pub(crate) fn rule_of(form: OperandRule, view: ResolvedOperand) -> Option<u16>
    ensures { result ≡ rule_of_resolved_operand form view }
{
    if is_composite(view) {
        return Some(composite_rule(form, view));
    }
    if !takes(form, view) {
        return Some(25);
    }
    if !has_width(form, width_in(view)) {
        return Some(24);
    }
    if is_on_wrong_side(form, view) {
        return Some(25);
    }
    if writes(form) && is_input(view) {
        return Some(39);
    }
    None
}
