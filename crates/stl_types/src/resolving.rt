ghost use Rattle.std.specs.Prelude.{◌≡◌, IfOk};
ghost use Rattle.plc_base.specs.Least.{least};
ghost use Rattle.stl_types.specs.Bodies.{first_context, in_contexts};
ghost use Rattle.stl_types.specs.Context.{Context};
ghost use Rattle.stl_types.specs.Operands.{
  at_line,
  rule_of_operand,
  operands_24,
  rule_of_resolution,
  rules_24_25_39,
  statement_rule,
};
ghost use Rattle.stl_types.specs.ResolvedStatement.{resolved_operand, operand_if_resolved};
ghost use Rattle.stl_types.specs.Resolution.{resolution_of};

use crate::constants::takes_constant;
use crate::contexts::Context;
use crate::operand_rules::{OperandRule, operand_rule_of};
use crate::operands::rule_of;
use crate::resolved_operands::{Resolution, ResolvedOperand};
use block_layout::Layouts;
use plc_base::{Refusal, lesser, try_least_of};
use std::alloc::{AllocError, Global};
use stl_ast::{Block, Operand, Statement, Tree};
use stl_symbols::Symbols;

/// The rule that an instruction breaks by what its operand comes to.
fn rule_of_resolution(form: OperandRule, resolution: Resolution) -> Option<u16>
    ensures { result ≡ rule_of_resolution form resolution }
{
    match resolution {
        Resolution::Resolved { view } => rule_of(form, view),
        _ => None,
    }
}

/// The rule that an instruction breaks by its operand, which comes to `found`.
fn rule_of_operand(form: OperandRule, operand: &Operand, found: Resolution) -> Option<u16>
    ensures { (c : Context) → found ≡ resolution_of c operand.now
        → result ≡ rule_of_operand c form operand.now }
{
    match operand {
        Operand::Constant { value } => {
            if takes_constant(form, value) {
                None
            } else {
                Some(25)
            }
        }
        _ => rule_of_resolution(form, found),
    }
}

/// What an operand names, where its resolution has that.
fn operand_if_resolved(resolution: Resolution) -> Option<ResolvedOperand>
    ensures { result ≡ operand_if_resolved resolution }
{
    match resolution {
        Resolution::Resolved { view } => Some(view),
        _ => None,
    }
}

#[tactic(auto, unfolding(plc_base::specs::Least::lesser))]
fn at_line(line: u32, rule: Option<u16>) -> Option<Refusal>
    ensures { result ≡ least (at_line line rule) }
{
    match rule {
        None => None,
        Some(rule) => Some(Refusal { line, rule }),
    }
}

impl<'a> Context<'a> {
    /// What the operand of a statement names; none where its instruction doesn't take it, or where
    /// it can't be resolved.
    ///
    /// # Errors
    ///
    /// Want of memory.
    #[tactic(auto, unfolding(crate::specs::ResolvedStatement::resolved_operand))]
    pub fn resolved_operand(
        &self,
        alloc: Global,
        statement: &Statement,
    ) -> Result<Option<ResolvedOperand>, AllocError>
        ensures { IfOk result (λ v. v ≡ resolved_operand self.now statement.now) }
    {
        let resolution = self.resolution(alloc, &statement.operand)?;
        let rule = rule_of_operand(
            operand_rule_of(statement.code),
            &statement.operand,
            resolution,
        );
        if rule.is_none() {
            Ok(operand_if_resolved(resolution))
        } else {
            Ok(None)
        }
    }
}

/// The rule that a statement breaks by its operand.
fn statement_rule(
    context: &Context,
    alloc: Global,
    statement: &Statement,
) -> Result<Option<u16>, AllocError>
    ensures { IfOk result (λ rule. rule ≡ statement_rule context.now statement.now) }
{
    let resolution = context.resolution(alloc, &statement.operand)?;
    Ok(rule_of_operand(
        operand_rule_of(statement.code),
        &statement.operand,
        resolution,
    ))
}

fn wrong_operand(
    context: &Context,
    alloc: Global,
    statement: &Statement,
) -> Result<Option<Refusal>, AllocError>
    ensures { IfOk result (λ found. found
        ≡ least (at_line statement.now.line (statement_rule context.now statement.now))) }
{
    let rule = statement_rule(context, alloc, statement)?;
    Ok(at_line(statement.line, rule))
}

fn wrong_in_body(
    context: &Context,
    alloc: Global,
    body: &[Statement],
) -> Result<Option<Refusal>, AllocError>
    ensures { IfOk result (λ found. found ≡ least (operands_24 context.now body.now)) }
{
    try_least_of(body, |s: &Statement| wrong_operand(context, alloc, s))
}

fn wrong_in_blocks(
    context: &Context,
    alloc: Global,
    blocks: &[Block],
) -> Result<Option<Refusal>, AllocError>
    ensures { IfOk result (λ found. found
        ≡ least (in_contexts operands_24 (record context.now { block = 0 }) blocks.now)) }
{
    let mut found = None;
    for block in 0..blocks.len() {
        let here = context.at(block);
        let one = wrong_in_body(&here, alloc, blocks[block].body.as_slice())?;
        found = lesser(found, one);
    }
    Ok(found)
}

/// The least refusal by rules 24, 25 and 39 of the operands of statements.
#[tactic(auto, unfolding(crate::specs::Operands::rules_24_25_39))]
pub(crate) fn least_wrong_operand(
    alloc: Global,
    symbols: &Symbols,
    tree: &Tree,
    layouts: &Layouts,
) -> Result<Option<Refusal>, AllocError>
    ensures { IfOk result (λ found. found ≡ least (rules_24_25_39
        (first_context symbols.now layouts.now tree.now.blocks) tree.now.blocks)) }
{
    let first = Context::new(symbols, tree, layouts);
    wrong_in_blocks(&first, alloc, tree.blocks.as_slice())
}
