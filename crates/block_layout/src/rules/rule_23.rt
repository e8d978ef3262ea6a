ghost use Rattle.std.specs.Prelude.{◌≡◌};
ghost use Rattle.std.specs.List.{flat_map};
ghost use Rattle.plc_base.specs.Least.{least};
ghost use Rattle.block_layout.specs.Operands.{in_body, operands_of};
ghost use Rattle.block_layout.specs.Heads.{on_heads};
ghost use Rattle.block_layout.specs.Rule23.{has_unknown_head, is_unknown_called, is_unknown_data, is_unknown_id, is_unknown_instance, is_unknown_path, names_unknown, operand_23, rule_23};

use crate::alone::{DeclarationFault, least_alone};
use crate::blocks::Shape;
use crate::lengths::shape_of;
use crate::types::{Types, id_of, named_block};
use plc_base::{BlockId, BlockKind, Refusal, broken_if, least_of, lesser};
use stl_ast::{Actual, Block, BlockName, Operand, PathHead, Statement};

fn is_unknown_data(types: &Types, name: &BlockName) -> bool
    ensures { result ≡ is_unknown_data types.now name.now }
{
    types.data_block(name).is_none()
}

fn is_unknown_instance(types: &Types, name: &Option<BlockName>) -> bool
    ensures { result ≡ is_unknown_instance types.now name.now }
{
    match name {
        None => false,
        Some(name) => is_unknown_data(types, name),
    }
}

fn is_unknown_id(types: &Types, id: Option<BlockId>) -> bool
    ensures { result ≡ is_unknown_id types.now id }
{
    match id {
        None => true,
        Some(id) => match id.kind {
            BlockKind::Sfc => false,
            _ => types.directory.known_block(id).is_none(),
        },
    }
}

fn is_unknown_called(types: &Types, name: &BlockName) -> bool
    ensures { result ≡ is_unknown_called types.now name.now }
{
    is_unknown_id(types, named_block(types.symbols, name))
}

fn is_unknown_path(types: &Types, head: &PathHead) -> bool
    ensures { result ≡ is_unknown_path types.now head.now }
{
    match head {
        PathHead::InBlock { name } => is_unknown_data(types, name),
        _ => false,
    }
}

/// Whether an operand names a block that the source hasn't.
fn names_unknown(types: &Types, operand: &Operand) -> bool
    ensures { result ≡ names_unknown types.now operand.now }
{
    match operand {
        Operand::Direct { block, .. } => is_unknown_instance(types, block),
        Operand::Named { head, .. } => is_unknown_path(types, head),
        Operand::OpenBlock { name, .. } => is_unknown_data(types, name),
        Operand::Called { name, instance } => {
            is_unknown_called(types, name) || is_unknown_instance(types, instance)
        }
        _ => false,
    }
}

fn unknown_in(types: &Types, operand: &Operand, line: u32) -> Option<Refusal>
    ensures { result
        ≡ least (operand_23 types.now (record { line = line; operand = operand.now })) }
{
    broken_if(names_unknown(types, operand), line, 23)
}

fn least_in_actuals(types: &Types, actuals: &[Actual]) -> Option<Refusal>
    ensures { result ≡ least (flat_map
        (λ a. operand_23 types.now (record { line = a.line; operand = a.value })) actuals.now) }
{
    least_of(actuals, |actual: &Actual| {
        unknown_in(types, &actual.value, actual.line)
    })
}

#[tactic(auto, using(crate::proofs::OperandLemmas::least_of_statement))]
fn least_in_statement(types: &Types, statement: &Statement) -> Option<Refusal>
    ensures { result
        ≡ least (flat_map (operand_23 types.now) (operands_of statement.now)) }
{
    lesser(
        unknown_in(types, &statement.operand, statement.line),
        least_in_actuals(types, statement.actuals.as_slice()),
    )
}

fn least_in_body(types: &Types, body: &[Statement]) -> Option<Refusal>
    ensures { result ≡ least (in_body (operand_23 types.now) body.now) }
{
    least_of(body, |statement: &Statement| {
        least_in_statement(types, statement)
    })
}

/// The least refusal of operands that name a block that the source hasn't.
fn least_unknown_operand(types: &Types, blocks: &[Block]) -> Option<Refusal>
    ensures { result
        ≡ least (flat_map (λ b. in_body (operand_23 types.now) b.body) blocks.now) }
{
    least_of(blocks, |block: &Block| {
        least_in_body(types, block.body.as_slice())
    })
}

/// Whether the head of a block names a block that the source hasn't.
pub(crate) fn has_unknown_head(types: &Types, block: &Block) -> bool
    ensures { result ≡ has_unknown_head types.now block.now }
{
    id_of(types.symbols, block).is_none() || matches!(shape_of(types, block), Shape::Unknown)
}

fn least_unknown_head(types: &Types, blocks: &[Block]) -> Option<Refusal>
    ensures { result
        ≡ least (on_heads (λ before b. has_unknown_head types.now b) 23 blocks.now) }
{
    least_of(blocks, |block: &Block| {
        broken_if(has_unknown_head(types, block), block.line, 23)
    })
}

/// The least refusal by rule 23.
pub(crate) fn least_unknown(types: &Types, blocks: &[Block]) -> Option<Refusal>
    ensures { result ≡ least (rule_23 types.now blocks.now) }
{
    let heads = least_unknown_head(types, blocks);
    let declared = least_alone(types, DeclarationFault::UnknownType, blocks);
    let used = least_unknown_operand(types, blocks);
    lesser(lesser(heads, declared), used)
}
