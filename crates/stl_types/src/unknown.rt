ghost use Rattle.std.specs.Prelude.{◌≡◌, IfOk};
ghost use Rattle.std.specs.List.{flat_map};
ghost use Rattle.plc_base.specs.Least.{broken_if, least};
ghost use Rattle.block_layout.specs.Operands.{in_body, operands_of};
ghost use Rattle.block_layout.specs.Settings.{in_settings, on_settings};
ghost use Rattle.stl_types.specs.Bodies.{first_context, in_contexts};
ghost use Rattle.stl_types.specs.Unknown.{
  is_unknown,
  leads_nowhere,
  operand_20,
  rule_20,
  sets_unknown,
};

use crate::contexts::Context;
use crate::resolved_operands::Resolution;
use block_layout::{Layouts, Path, PathEnd};
use plc_base::{Refusal, broken_if, lesser, try_least_of};
use std::alloc::{AllocError, Global};
use stl_ast::{Actual, Block, Operand, Setting, Statement, Tree};
use stl_symbols::Symbols;

fn is_unknown(resolution: Resolution) -> bool
    ensures { result ≡ is_unknown resolution }
{
    matches!(resolution, Resolution::Unknown)
}

fn leads_nowhere(path_end: PathEnd) -> bool
    ensures { result ≡ leads_nowhere path_end }
{
    matches!(path_end, PathEnd::Unknown)
}

fn unknown_target(
    layouts: &Layouts,
    alloc: Global,
    block: usize,
    setting: &Setting,
) -> Result<Option<Refusal>, AllocError>
    ensures { IfOk result (λ found. found ≡ least
        (broken_if (sets_unknown layouts.now block setting.now) setting.now.line 20)) }
{
    let path = Path::new(alloc, setting.path.as_slice())?;
    let unknown = leads_nowhere(layouts.walk_data(block, &path));
    Ok(broken_if(unknown, setting.line, 20))
}

fn unknown_targets(
    layouts: &Layouts,
    alloc: Global,
    block: usize,
    settings: &[Setting],
) -> Result<Option<Refusal>, AllocError>
    ensures { IfOk result (λ found. found
        ≡ least (in_settings (sets_unknown layouts.now block) 20 settings.now)) }
{
    try_least_of(
        settings,
        |s: &Setting| unknown_target(layouts, alloc, block, s),
    )
}

/// The least refusal by rule 20 of settings.
fn least_unknown_target(
    layouts: &Layouts,
    alloc: Global,
    blocks: &[Block],
) -> Result<Option<Refusal>, AllocError>
    ensures { IfOk result (λ found. found
        ≡ least (on_settings (sets_unknown layouts.now) 20 0 blocks.now)) }
{
    let mut found = None;
    for block in 0..blocks.len() {
        let one = unknown_targets(layouts, alloc, block, blocks[block].settings.as_slice())?;
        found = lesser(found, one);
    }
    Ok(found)
}

fn unknown_operand(
    context: &Context,
    alloc: Global,
    operand: &Operand,
    line: u32,
) -> Result<Option<Refusal>, AllocError>
    ensures { IfOk result (λ found. found ≡ least (operand_20 context.now
        (record { line = line; operand = operand.now }))) }
{
    let resolution = context.resolution(alloc, operand)?;
    Ok(broken_if(is_unknown(resolution), line, 20))
}

fn unknown_actuals(
    context: &Context,
    alloc: Global,
    actuals: &[Actual],
) -> Result<Option<Refusal>, AllocError>
    ensures { IfOk result (λ found. found ≡ least (flat_map
        (λ a. operand_20 context.now (record { line = a.line; operand = a.value }))
        actuals.now)) }
{
    try_least_of(
        actuals,
        |a: &Actual| unknown_operand(context, alloc, &a.value, a.line),
    )
}

fn unknown_in_statement(
    context: &Context,
    alloc: Global,
    statement: &Statement,
) -> Result<Option<Refusal>, AllocError>
    ensures { IfOk result (λ found. found
        ≡ least (flat_map (operand_20 context.now) (operands_of statement.now))) }
{
    let own = unknown_operand(context, alloc, &statement.operand, statement.line)?;
    let actuals = unknown_actuals(context, alloc, statement.actuals.as_slice())?;
    Ok(lesser(own, actuals))
}

fn unknown_in_body(
    context: &Context,
    alloc: Global,
    body: &[Statement],
) -> Result<Option<Refusal>, AllocError>
    ensures { IfOk result (λ found. found ≡ least (in_body (operand_20 context.now) body.now)) }
{
    try_least_of(
        body,
        |s: &Statement| unknown_in_statement(context, alloc, s),
    )
}

fn unknown_in_blocks(
    context: &Context,
    alloc: Global,
    blocks: &[Block],
) -> Result<Option<Refusal>, AllocError>
    ensures { IfOk result (λ found. found
        ≡ least (in_contexts (λ c body. in_body (operand_20 c) body)
        (record context.now { block = 0 }) blocks.now)) }
{
    let mut found = None;
    for block in 0..blocks.len() {
        let here = context.at(block);
        let one = unknown_in_body(&here, alloc, blocks[block].body.as_slice())?;
        found = lesser(found, one);
    }
    Ok(found)
}

/// The least refusal by rule 20.
#[tactic(auto, unfolding(crate::specs::Unknown::rule_20))]
pub(crate) fn least_unknown(
    alloc: Global,
    symbols: &Symbols,
    tree: &Tree,
    layouts: &Layouts,
) -> Result<Option<Refusal>, AllocError>
    ensures { IfOk result (λ found. found ≡ least (rule_20
        (first_context symbols.now layouts.now tree.now.blocks) tree.now.blocks)) }
{
    let blocks = tree.blocks.as_slice();
    let first = Context::new(symbols, tree, layouts);
    let set = least_unknown_target(layouts, alloc, blocks)?;
    let used = unknown_in_blocks(&first, alloc, blocks)?;
    Ok(lesser(set, used))
}
