ghost use Rattle.std.specs.Prelude.{◌≡◌, IfOk};
ghost use Rattle.std.specs.List.{flat_map};
ghost use Rattle.plc_base.specs.Folding.{upper_case_name};
ghost use Rattle.plc_base.specs.Least.{least};
ghost use Rattle.block_layout.specs.Operands.{in_body, operands_of};
ghost use Rattle.block_layout.specs.Paths.{folded_path, leaves_local};
ghost use Rattle.block_layout.specs.Rule42.{bodies_42, leaves_found, leaves_path, operand_42, operand_is_outside, rule_42};

use crate::alone::{DeclarationFault, least_alone};
use crate::beyond::{leaves_local, leaves_structure};
use crate::blocks::BlockLayout;
use crate::paths::Path;
use crate::routes::structure_of;
use crate::settings::{SettingFault, least_of_settings};
use crate::types::Types;
use plc_base::{Refusal, broken_if, lesser, try_least_of};
use std::alloc::{AllocError, Global};
use stl_ast::{Actual, Block, Name, Operand, PathHead, PathStep, Statement};

fn leaves_own(
    alloc: Global,
    layouts: &[BlockLayout],
    block: usize,
    name: &Name,
    steps: &[PathStep],
) -> Result<bool, AllocError>
    ensures { IfOk result (λ b. b
        ≡ leaves_local layouts.now block (upper_case_name name.now) (folded_path steps.now)) }
{
    let name = name.as_bytes().to_ascii_uppercase(alloc)?;
    let path = Path::new(alloc, steps)?;
    Ok(leaves_local(layouts, block, name.as_slice(), path.steps()))
}

fn leaves_found(
    alloc: Global,
    layouts: &[BlockLayout],
    found: Option<usize>,
    steps: &[PathStep],
) -> Result<bool, AllocError>
    ensures { IfOk result (λ b. b ≡ leaves_found layouts.now found (folded_path steps.now)) }
{
    match found {
        None => Ok(false),
        Some(block) => {
            let path = Path::new(alloc, steps)?;
            Ok(leaves_structure(layouts, structure_of(layouts, block), path.steps()))
        }
    }
}

/// Whether the path of an operand in the body of a block leaves an array.
fn leaves_path(
    alloc: Global,
    types: &Types,
    layouts: &[BlockLayout],
    block: usize,
    head: &PathHead,
    steps: &[PathStep],
) -> Result<bool, AllocError>
    ensures { IfOk result (λ b. b
        ≡ leaves_path types.now layouts.now block head.now steps.now) }
{
    match head {
        PathHead::Local { name } => leaves_own(alloc, layouts, block, name, steps),
        PathHead::InBlock { name } => {
            leaves_found(alloc, layouts, types.data_block(name), steps)
        }
        PathHead::Symbol { .. } => Ok(false),
    }
}

fn operand_is_outside(
    alloc: Global,
    types: &Types,
    layouts: &[BlockLayout],
    block: usize,
    operand: &Operand,
) -> Result<bool, AllocError>
    ensures { IfOk result (λ b. b
        ≡ operand_is_outside types.now layouts.now block operand.now) }
{
    match operand {
        Operand::Named { head, steps } => {
            leaves_path(alloc, types, layouts, block, head, steps.as_slice())
        }
        _ => Ok(false),
    }
}

fn outside_in(
    alloc: Global,
    types: &Types,
    layouts: &[BlockLayout],
    block: usize,
    operand: &Operand,
    line: u32,
) -> Result<Option<Refusal>, AllocError>
    ensures { IfOk result (λ r. r
        ≡ least (operand_42 types.now layouts.now block
        (record { line = line; operand = operand.now }))) }
{
    let outside = operand_is_outside(alloc, types, layouts, block, operand)?;
    Ok(broken_if(outside, line, 42))
}

fn least_in_actuals(
    alloc: Global,
    types: &Types,
    layouts: &[BlockLayout],
    block: usize,
    actuals: &[Actual],
) -> Result<Option<Refusal>, AllocError>
    ensures { IfOk result (λ r. r ≡ least (flat_map
        (λ a. operand_42 types.now layouts.now block
        (record { line = a.line; operand = a.value })) actuals.now)) }
{
    try_least_of(actuals, |actual: &Actual| {
        outside_in(alloc, types, layouts, block, &actual.value, actual.line)
    })
}

fn least_in_statement(
    alloc: Global,
    types: &Types,
    layouts: &[BlockLayout],
    block: usize,
    statement: &Statement,
) -> Result<Option<Refusal>, AllocError>
    ensures { IfOk result (λ r. r
        ≡ least (flat_map (operand_42 types.now layouts.now block) (operands_of statement.now))) }
{
    let own = outside_in(
        alloc,
        types,
        layouts,
        block,
        &statement.operand,
        statement.line,
    )?;
    let actuals = least_in_actuals(alloc, types, layouts, block, statement.actuals.as_slice())?;
    Ok(lesser(own, actuals))
}

fn least_in_body(
    alloc: Global,
    types: &Types,
    layouts: &[BlockLayout],
    block: usize,
    body: &[Statement],
) -> Result<Option<Refusal>, AllocError>
    ensures { IfOk result (λ r. r
        ≡ least (in_body (operand_42 types.now layouts.now block) body.now)) }
{
    try_least_of(body, |statement: &Statement| {
        least_in_statement(alloc, types, layouts, block, statement)
    })
}

/// The least refusal of operands with an index outside its array.
fn least_outside_operand(
    alloc: Global,
    types: &Types,
    layouts: &[BlockLayout],
    blocks: &[Block],
) -> Result<Option<Refusal>, AllocError>
    ensures { IfOk result (λ r. r ≡ least (bodies_42 types.now layouts.now 0 blocks.now)) }
{
    let mut found = None;
    for i in 0..blocks.len() {
        let body = blocks[i].body.as_slice();
        let one = least_in_body(alloc, types, layouts, i, body)?;
        found = lesser(found, one);
    }
    Ok(found)
}

/// The least refusal by rule 42.
pub(crate) fn least_outside(
    alloc: Global,
    types: &Types,
    layouts: &[BlockLayout],
    blocks: &[Block],
) -> Result<Option<Refusal>, AllocError>
    ensures { IfOk result (λ r. r ≡ least (rule_42 types.now layouts.now blocks.now)) }
{
    let declared = least_alone(types, DeclarationFault::UpsideDown, blocks);
    let set = least_of_settings(alloc, layouts, SettingFault::OutsideIndex, blocks)?;
    let used = least_outside_operand(alloc, types, layouts, blocks)?;
    Ok(lesser(lesser(declared, set), used))
}
