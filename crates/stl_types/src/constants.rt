ghost use Rattle.std.specs.Prelude.{◌≡◌};
ghost use Rattle.stl_types.specs.Constants.{
  is_addend,
  is_count,
  is_truth,
  is_up_to,
  takes_constant,
};

use crate::operand_rules::OperandRule;
use block_layout::fits;
use stl_ast::Literal;

fn is_up_to(most: u16, value: i32) -> bool
    ensures { result ≡ is_up_to most value }
{
    value >= 0 && value <= most as i32
}

fn is_count(most: u16, value: &Literal) -> bool
    ensures { result ≡ is_count most value.now }
{
    match value {
        Literal::Number { value } => is_up_to(most, *value),
        _ => false,
    }
}

fn is_addend(value: &Literal) -> bool
    ensures { result ≡ is_addend value.now }
{
    matches!(value, Literal::Number { .. } | Literal::Long { .. })
}

fn is_truth(value: &Literal) -> bool
    ensures { result ≡ is_truth value.now }
{
    matches!(value, Literal::Truth { .. })
}

/// Whether an instruction of a form takes a constant.
#[tactic(auto, unfolding(crate::specs::Constants::takes_constant))]
pub(crate) fn takes_constant(form: OperandRule, value: &Literal) -> bool
    ensures { result ≡ takes_constant form value.now }
{
    match form {
        OperandRule::Loads => !is_truth(value),
        OperandRule::Counts { most } => is_count(most, value),
        OperandRule::Shifts { most } => is_count(most, value),
        OperandRule::Adds => is_addend(value),
        OperandRule::Combines { of } => fits(value, of),
        _ => false,
    }
}
