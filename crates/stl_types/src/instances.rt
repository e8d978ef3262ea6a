ghost use Rattle.std.specs.Prelude.{◌≡◌};
ghost use Rattle.std.specs.List.{slice_get};
ghost use Rattle.plc_base.specs.Kinds.{is_function_block, is_system_function};
ghost use Rattle.stl_ast.specs.Statements.{has_actuals};
ghost use Rattle.stl_types.specs.Calls.{
  calls_unknown,
  has_formals,
  has_no_instance,
  has_wrong_instance,
  is_bare_call,
  is_instance,
  is_no_instance,
  is_of_block,
  is_unknown_function,
};

use crate::contexts::Context;
use crate::parameters::{Callee, Formal};
use crate::system_functions::is_known;
use block_layout::{BlockLayout, Shape, named_block};
use plc_base::BlockId;
use stl_ast::{Mnemonic, Operand, Statement};

fn has_actuals(code: Mnemonic) -> bool
    ensures { result ≡ has_actuals code }
{
    matches!(code, Mnemonic::Call)
}

fn is_of_block(place: Option<usize>, shape: Shape) -> bool
    ensures { result ≡ is_of_block place shape }
{
    match (place, shape) {
        (Some(place), Shape::Of { block }) => place == block,
        _ => false,
    }
}

/// Whether the layout of a block is that of an instance of the block at `place`.
fn is_instance(place: Option<usize>, layouts: &[BlockLayout], block: usize) -> bool
    ensures { result ≡ is_instance place (slice_get layouts.now block) }
{
    match layouts.get(block) {
        None => true,
        Some(layout) => is_of_block(place, layout.shape),
    }
}

/// Whether the data block at `found` isn't an instance of the block at `place`.
fn is_no_instance(context: &Context, place: Option<usize>, found: Option<usize>) -> bool
    ensures { result ≡ is_no_instance context.now place found }
{
    match found {
        None => false,
        Some(block) => !is_instance(place, context.layouts().list(), block),
    }
}

/// Whether a call names a data block that isn't an instance of the function block.
pub(crate) fn has_wrong_instance(context: &Context, callee: &Callee, operand: &Operand) -> bool
    ensures { result ≡ has_wrong_instance context.now callee.now operand.now }
{
    match operand {
        Operand::Called {
            instance: Some(instance),
            ..
        } => {
            callee.id.kind.is_function_block()
                && is_no_instance(context, callee.place, context.whole_data_place(instance))
        }
        _ => false,
    }
}

fn has_no_instance(operand: &Operand) -> bool
    ensures { result ≡ has_no_instance operand.now }
{
    matches!(operand, Operand::Called { instance: None, .. })
}

fn has_formals(formals: &[Formal]) -> bool
    ensures { result ≡ has_formals formals.now }
{
    !formals.is_empty()
}

/// Whether UC or CC calls a block with parameters, or CALL a function block without data block.
pub(crate) fn is_bare_call(callee: &Callee, statement: &Statement) -> bool
    ensures { result ≡ is_bare_call callee.now statement.now }
{
    let takes = has_actuals(statement.code);
    takes && callee.id.kind.is_function_block() && has_no_instance(&statement.operand)
        || !takes && has_formals(callee.formals.as_slice())
}

fn is_unknown_function(id: Option<BlockId>) -> bool
    ensures { result ≡ is_unknown_function id }
{
    match id {
        None => false,
        Some(id) => id.kind.is_system_function() && !is_known(id.number),
    }
}

/// Whether a statement calls a system function that isn't one of the nine.
pub(crate) fn calls_unknown(context: &Context, operand: &Operand) -> bool
    ensures { result ≡ calls_unknown context.now operand.now }
{
    match operand {
        Operand::Called { name, .. } => is_unknown_function(named_block(context.symbols(), name)),
        _ => false,
    }
}
