ghost use Rattle.std.specs.Prelude.{◌≡◌};
ghost use Rattle.stl_types.specs.Actuals.{
  fits_type,
  fits_resolved_operand,
  is_input_section,
  is_same_type,
  is_same_width,
  takes_section,
  takes_side,
  type_number,
};

use crate::parameters::Formal;
use crate::resolved_operands::{ResolvedOperand, Side};
use block_layout::width_of;
use plc_base::Width;
use stl_ast::{PartKind, Simple};

pub(crate) fn is_input_section(section: PartKind) -> bool
    ensures { result ≡ is_input_section section }
{
    matches!(section, PartKind::Input)
}

fn is_same_width(a: Width, b: Width) -> bool
    ensures { result ≡ is_same_width a b }
{
    a.number() == b.number()
}

fn type_number(kind: Simple) -> u8
    ensures { result ≡ type_number kind }
{
    match kind {
        Simple::Bool => 1,
        Simple::Byte => 2,
        Simple::Char => 3,
        Simple::Word => 4,
        Simple::Int => 5,
        Simple::S5time => 6,
        Simple::Dword => 7,
        Simple::Dint => 8,
        Simple::Time => 9,
    }
}

fn is_same_type(a: Simple, b: Simple) -> bool
    ensures { result ≡ is_same_type a b }
{
    type_number(a) == type_number(b)
}

/// Whether a section takes a peripheral address.
fn takes_side(section: PartKind, side: Side) -> bool
    ensures { result ≡ takes_side section side }
{
    match side {
        Side::Both => true,
        Side::Inputs => is_input_section(section),
        Side::Outputs => !is_input_section(section),
    }
}

/// Whether a section takes a parameter of the caller, which stands in the section `own`.
fn takes_section(section: PartKind, own: PartKind) -> bool
    ensures { result ≡ takes_section section own }
{
    is_input_section(section) || !is_input_section(own)
}

/// An absolute operand fits by its width, a variable by its type.
fn fits_type(formal: &Formal, width: Width, declared: Option<Simple>) -> bool
    ensures { result ≡ fits_type formal.now width declared }
{
    match declared {
        None => is_same_width(width, width_of(formal.kind)),
        Some(declared) => is_same_type(declared, formal.kind),
    }
}

/// Whether what an actual parameter names fits a parameter.
#[tactic(auto, unfolding(crate::specs::Actuals::fits_resolved_operand))]
pub(crate) fn fits_resolved_operand(formal: &Formal, view: ResolvedOperand) -> bool
    ensures { result ≡ fits_resolved_operand formal.now view }
{
    match view {
        ResolvedOperand::Direct {
            width,
            side,
            declared,
            ..
        } => fits_type(formal, width, declared) && takes_side(formal.section, side),
        ResolvedOperand::Parameter {
            section,
            declared,
            ..
        } => is_same_type(declared, formal.kind) && takes_section(formal.section, section),
        _ => false,
    }
}
