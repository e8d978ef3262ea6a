ghost use Rattle.std.specs.Prelude.{◌≡◌, ◌++◌, IfOk};
ghost use Rattle.std.specs.List.{flat_map};
ghost use Rattle.plc_base.specs.Least.{least};
ghost use Rattle.stl_types.specs.Bodies.{first_context};
ghost use Rattle.stl_types.specs.RuleGroups.{broken_call, broken_statement, rules_of_calls};
ghost use Rattle.stl_types.specs.Calls.{by_callee};

use crate::calls::{lacks_actual, least_supplied_twice, least_unnamed};
use crate::contexts::Context;
use crate::instances::{calls_unknown, has_wrong_instance, is_bare_call};
use crate::misfits::{least_date, least_misfit};
use crate::parameters::Callee;
use block_layout::Layouts;
use plc_base::{Refusal, broken_if, lesser, try_least_of};
use std::alloc::{AllocError, Global};
use stl_ast::{Statement, Tree};
use stl_symbols::Symbols;

/// The least refusal of a call, by the block that is called.
fn least_in_call(
    context: &Context,
    alloc: Global,
    callee: &Callee,
    statement: &Statement,
) -> Result<Option<Refusal>, AllocError>
    ensures { IfOk result (λ found. found
        ≡ least (broken_call context.now callee.now statement.now)) }
{
    let formals = callee.formals.as_slice();
    let actuals = statement.actuals.as_slice();
    let unnamed = least_unnamed(formals, alloc, actuals)?;
    let twice = least_supplied_twice(formals, alloc, actuals)?;
    let lacks = lacks_actual(callee, alloc, statement)?;
    let missing = broken_if(lacks, statement.line, 36);
    let misfit = least_misfit(context, alloc, formals, actuals)?;
    let wrong = has_wrong_instance(context, callee, &statement.operand);
    let instance = broken_if(wrong, statement.line, 38);
    let bare = broken_if(is_bare_call(callee, statement), statement.line, 40);
    let by_actuals = lesser(lesser(lesser(unnamed, twice), missing), misfit);
    Ok(lesser(lesser(by_actuals, instance), bare))
}

/// The least refusal of a statement by the block that it calls, if it calls one.
fn least_by_callee(
    context: &Context,
    alloc: Global,
    statement: &Statement,
    callee: &Option<Callee>,
) -> Result<Option<Refusal>, AllocError>
    ensures { IfOk result (λ found. found
        ≡ least (by_callee (broken_call context.now) statement.now callee.now)) }
{
    match callee {
        None => Ok(None),
        Some(callee) => least_in_call(context, alloc, callee, statement),
    }
}

fn least_in_statement(
    context: &Context,
    alloc: Global,
    statement: &Statement,
) -> Result<Option<Refusal>, AllocError>
    ensures { IfOk result (λ found. found ≡ least (broken_statement context.now statement.now)) }
{
    let callee = context.callee(alloc, &statement.operand)?;
    let by_callee = least_by_callee(context, alloc, statement, &callee)?;
    let unknown = broken_if(
        calls_unknown(context, &statement.operand),
        statement.line,
        46,
    );
    let date = least_date(context, alloc, statement.actuals.as_slice())?;
    Ok(lesser(lesser(by_callee, unknown), date))
}

fn least_in_body(
    context: &Context,
    alloc: Global,
    body: &[Statement],
) -> Result<Option<Refusal>, AllocError>
    ensures { IfOk result (λ found. found
        ≡ least (flat_map (broken_statement context.now) body.now)) }
{
    try_least_of(body, |s: &Statement| least_in_statement(context, alloc, s))
}

/// The least refusal by the rules of calls: 24 of actuals, 34 to 38, 40 and 46.
#[tactic(auto, using(crate::proofs::CallLemmas::rules_joined))]
pub(crate) fn least_wrong_call(
    alloc: Global,
    symbols: &Symbols,
    tree: &Tree,
    layouts: &Layouts,
) -> Result<Option<Refusal>, AllocError>
    ensures { IfOk result (λ found. found ≡ least (rules_of_calls
        (first_context symbols.now layouts.now tree.now.blocks) tree.now.blocks)) }
{
    let first = Context::new(symbols, tree, layouts);
    let blocks = tree.blocks.as_slice();
    let mut found = None;
    for block in 0..blocks.len() {
        let one = least_in_body(&first.at(block), alloc, blocks[block].body.as_slice())?;
        found = lesser(found, one);
    }
    Ok(found)
}
