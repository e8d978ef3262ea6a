ghost use Rattle.std.specs.Prelude.{◌≡◌, IfOk};
ghost use Rattle.plc_base.specs.Least.{least};
ghost use Rattle.stl_types.specs.RuleGroups.{rules_of_jumps, rules_of_zones};
ghost use Rattle.stl_types.specs.Table.{ChecksTree, statement_refusals};

use crate::brackets::{least_closed_without, least_eighth, least_left_open};
use crate::call_walks::least_wrong_call;
use crate::labels::{least_label_twice, least_unknown_label};
use crate::landings::least_crossing_jump;
use crate::lists::least_wrong_list;
use crate::resolving::least_wrong_operand;
use crate::unknown::least_unknown;
use crate::zones::{least_ended_without, least_ninth, least_zone_left_open};
use block_layout::Layouts;
use plc_base::{Refusal, SourceFault, lesser};
use std::alloc::{AllocError, Global};
use std::marker::Model;
use stl_ast::{Block, Tree};
use stl_symbols::Symbols;

/// A source whose statements break no rule.
#[derive(Drop)]
pub struct CheckedSource<'a> {
    tree: &'a Tree,
}

impl<'a> Model for CheckedSource<'a> {
    ghost use Rattle.stl_ast.specs.declared.blocks.Tree.{Tree};

    ghost Value = { Tree };

    ghost view = { λ c. c.tree.now };
}

impl<'a> CheckedSource<'a> {
    /// The source.
    pub fn tree(&self) -> &'a Tree
        ensures { result.now ≡ self.now }
    {
        self.tree
    }
}

/// The least refusal by the rules of labels, brackets and jumps.
fn least_wrong_jump(alloc: Global, blocks: &[Block]) -> Result<Option<Refusal>, AllocError>
    ensures { IfOk result (λ found. found ≡ least (rules_of_jumps blocks.now)) }
{
    let unknown = least_unknown_label(alloc, blocks)?;
    let twice = least_label_twice(alloc, blocks)?;
    let closed = least_closed_without(alloc, blocks)?;
    let left_open = least_left_open(alloc, blocks)?;
    let eighth = least_eighth(alloc, blocks)?;
    let list = least_wrong_list(alloc, blocks)?;
    let crossing = least_crossing_jump(alloc, blocks)?;
    let labels = lesser(unknown, twice);
    let brackets = lesser(lesser(labels, closed), left_open);
    Ok(lesser(lesser(lesser(brackets, eighth), list), crossing))
}

/// The least refusal by the rules of zones.
fn least_wrong_zone(alloc: Global, blocks: &[Block]) -> Result<Option<Refusal>, AllocError>
    ensures { IfOk result (λ found. found ≡ least (rules_of_zones blocks.now)) }
{
    let ended = least_ended_without(alloc, blocks)?;
    let left_open = least_zone_left_open(alloc, blocks)?;
    let ninth = least_ninth(alloc, blocks)?;
    Ok(lesser(lesser(ended, left_open), ninth))
}

/// The least refusal by the rules of statements.
fn least_refusal(
    alloc: Global,
    tree: &Tree,
    symbols: &Symbols,
    layouts: &Layouts,
) -> Result<Option<Refusal>, AllocError>
    ensures { IfOk result (λ found. found
        ≡ least (statement_refusals tree.now symbols.now layouts.now)) }
{
    let unknown = least_unknown(alloc, symbols, tree, layouts)?;
    let operand = least_wrong_operand(alloc, symbols, tree, layouts)?;
    let jump = least_wrong_jump(alloc, tree.blocks.as_slice())?;
    let call = least_wrong_call(alloc, symbols, tree, layouts)?;
    let zone = least_wrong_zone(alloc, tree.blocks.as_slice())?;
    Ok(lesser(lesser(lesser(lesser(unknown, operand), jump), call), zone))
}

/// Checks the statements of a source by the rules on them, with its symbols and the layouts of its
/// blocks.
///
/// # Errors
///
/// `Refused` with the least line and rule where the source breaks one; else `NoMemory`.
pub fn check<'a>(
    alloc: Global,
    tree: &'a Tree,
    symbols: &Symbols,
    layouts: &Layouts,
) -> Result<CheckedSource<'a>, SourceFault>
    ensures { ChecksTree (least (statement_refusals tree.now symbols.now layouts.now)) tree.now
        result }
{
    match least_refusal(alloc, tree, symbols, layouts)? {
        Some(refusal) => Err(SourceFault::Refused { refusal }),
        None => Ok(CheckedSource { tree }),
    }
}
