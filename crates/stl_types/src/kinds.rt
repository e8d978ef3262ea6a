ghost use Rattle.std.specs.Prelude.{◌≡◌};
ghost use Rattle.plc_base.specs.Kinds.{is_callable};
ghost use Rattle.block_layout.specs.Offsets.{width_of};
ghost use Rattle.stl_types.specs.Kinds.{
  is_bit,
  is_operand_of_call,
  is_composite,
  is_condition,
  is_counter,
  is_date,
  is_direct,
  is_double_word,
  is_in_memory,
  is_label_operand,
  is_loadable_register,
  names_nothing,
  is_opened,
  is_pointer_constant,
  is_second_register,
  is_status_word,
  is_timer,
  width_in,
};

use crate::resolved_operands::{Register, ResolvedOperand};
use block_layout::width_of;
use plc_base::{BlockKind, Width};
use stl_ast::Numbered;

pub(crate) fn names_nothing(view: ResolvedOperand) -> bool
    ensures { result ≡ names_nothing view }
{
    matches!(view, ResolvedOperand::Nothing)
}

/// Whether a place has an address of its own.
pub(crate) fn is_direct(view: ResolvedOperand) -> bool
    ensures { result ≡ is_direct view }
{
    matches!(view, ResolvedOperand::Direct { .. })
}

/// Whether a place in memory is meant: direct, a parameter of a function, or by a pointer.
pub(crate) fn is_in_memory(view: ResolvedOperand) -> bool
    ensures { result ≡ is_in_memory view }
{
    matches!(
        view,
        ResolvedOperand::Direct { .. }
            | ResolvedOperand::Parameter { .. }
            | ResolvedOperand::ByMemory { .. }
            | ResolvedOperand::ByRegister { .. }
    )
}

pub(crate) fn is_timer(view: ResolvedOperand) -> bool
    ensures { result ≡ is_timer view }
{
    match view {
        ResolvedOperand::Timer { .. } => true,
        ResolvedOperand::NumberBy { what, .. } => matches!(what, Numbered::Timer),
        _ => false,
    }
}

pub(crate) fn is_counter(view: ResolvedOperand) -> bool
    ensures { result ≡ is_counter view }
{
    match view {
        ResolvedOperand::Counter { .. } => true,
        ResolvedOperand::NumberBy { what, .. } => matches!(what, Numbered::Counter),
        _ => false,
    }
}

/// Whether a data block is opened.
pub(crate) fn is_opened(view: ResolvedOperand) -> bool
    ensures { result ≡ is_opened view }
{
    match view {
        ResolvedOperand::OpenBlock { .. } => true,
        ResolvedOperand::NumberBy { what, .. } => matches!(what, Numbered::Db | Numbered::Di),
        _ => false,
    }
}

pub(crate) fn is_condition(view: ResolvedOperand) -> bool
    ensures { result ≡ is_condition view }
{
    matches!(view, ResolvedOperand::OfStatus { .. })
}

pub(crate) fn is_pointer_constant(view: ResolvedOperand) -> bool
    ensures { result ≡ is_pointer_constant view }
{
    matches!(view, ResolvedOperand::Pointer { .. })
}

pub(crate) fn is_label_operand(view: ResolvedOperand) -> bool
    ensures { result ≡ is_label_operand view }
{
    matches!(view, ResolvedOperand::Label)
}

pub(crate) fn is_status_word(view: ResolvedOperand) -> bool
    ensures { result ≡ is_status_word view }
{
    match view {
        ResolvedOperand::Register { which } => matches!(which, Register::Stw),
        _ => false,
    }
}

pub(crate) fn is_second_register(view: ResolvedOperand) -> bool
    ensures { result ≡ is_second_register view }
{
    match view {
        ResolvedOperand::Register { which } => matches!(which, Register::Ar2),
        _ => false,
    }
}

/// Whether a register can be loaded by L.
pub(crate) fn is_loadable_register(view: ResolvedOperand) -> bool
    ensures { result ≡ is_loadable_register view }
{
    match view {
        ResolvedOperand::Register { which } => !matches!(which, Register::Ar2),
        _ => false,
    }
}

/// Whether a block can be called so: only a function block has an instance.
pub(crate) fn is_operand_of_call(view: ResolvedOperand) -> bool
    ensures { result ≡ is_operand_of_call view }
{
    match view {
        ResolvedOperand::Called { block, instance } => match instance {
            None => block.kind.is_callable(),
            Some(_) => matches!(block.kind, BlockKind::Fb),
        },
        _ => false,
    }
}

pub(crate) fn is_composite(view: ResolvedOperand) -> bool
    ensures { result ≡ is_composite view }
{
    matches!(view, ResolvedOperand::Composite | ResolvedOperand::Date)
}

pub(crate) fn is_date(view: ResolvedOperand) -> bool
    ensures { result ≡ is_date view }
{
    matches!(view, ResolvedOperand::Date)
}

/// The width of a place in memory.
pub(crate) fn width_in(view: ResolvedOperand) -> Option<Width>
    ensures { result ≡ width_in view }
{
    match view {
        ResolvedOperand::Direct { width, .. } => Some(width),
        ResolvedOperand::Parameter { declared, .. } => Some(width_of(declared)),
        ResolvedOperand::ByMemory { width, .. } => Some(width),
        ResolvedOperand::ByRegister { width, .. } => Some(width),
        _ => None,
    }
}

pub(crate) fn is_bit(width: Option<Width>) -> bool
    ensures { result ≡ is_bit width }
{
    matches!(width, Some(Width::Bit))
}

pub(crate) fn is_double_word(width: Option<Width>) -> bool
    ensures { result ≡ is_double_word width }
{
    matches!(width, Some(Width::Dword))
}
