ghost use Rattle.std.specs.Prelude.{◌≡◌, [], IfOk};
ghost use Rattle.plc_base.specs.Least.{broken_if, least};
ghost use Rattle.stl_types.specs.Brackets.{
  brackets_behind,
  brackets_behind_all,
  is_closing_bracket,
  closes_no_bracket,
  is_eighth_bracket,
  brackets_left_open,
  bracket_function,
  rule_29,
  rule_30,
  rule_31,
  with_brackets,
};

use plc_base::{Refusal, broken_if, least_of, lesser, try_least_of};
use std::alloc::{AllocError, Global};
use stl_ast::{Block, Mnemonic, Statement};

/// A bracket that stands open: its function code, 0 to 5 for `A(` `AN(` `O(` `ON(` `X(` `XN(`, and
/// its line.
#[derive(Clone, Copy, Debug, PartialEq, Eq)]
pub struct SourceBracket {
    pub function: u8,
    pub line: u32,
}

#[tactic(auto, unfolding(crate::specs::Brackets::bracket_function))]
pub(crate) fn opening(code: Mnemonic) -> Option<u8>
    ensures { result ≡ bracket_function code }
{
    match code {
        Mnemonic::AOpen => Some(0),
        Mnemonic::AnOpen => Some(1),
        Mnemonic::OOpen => Some(2),
        Mnemonic::OnOpen => Some(3),
        Mnemonic::XOpen => Some(4),
        Mnemonic::XnOpen => Some(5),
        _ => None,
    }
}

#[tactic(auto, unfolding(crate::specs::Brackets::is_closing_bracket))]
fn closes(code: Mnemonic) -> bool
    ensures { result ≡ is_closing_bracket code }
{
    matches!(code, Mnemonic::Close)
}

/// Opens or closes a bracket by a statement.
pub(crate) fn pass(
    brackets: &mut Vec<SourceBracket>,
    statement: &Statement,
) -> Result<(), AllocError>
    ensures { IfOk result (λ _. brackets.new.items
        ≡ brackets_behind brackets.old.items statement.now) }
{
    if let Some(function) = opening(statement.code) {
        brackets.push(SourceBracket {
            function,
            line: statement.line,
        })?;
        return Ok(());
    }
    if closes(statement.code) {
        let _ = brackets.pop();
    }
    Ok(())
}

fn closes_none(brackets: &[SourceBracket], statement: &Statement) -> bool
    ensures { result ≡ closes_no_bracket brackets.now statement.now }
{
    closes(statement.code) && brackets.is_empty()
}

fn is_eighth(brackets: &[SourceBracket], statement: &Statement) -> bool
    ensures { result ≡ is_eighth_bracket brackets.now statement.now }
{
    opening(statement.code).is_some() && brackets.len() >= 7
}

fn brackets_closed_without(alloc: Global, body: &[Statement]) -> Result<Option<Refusal>, AllocError>
    ensures { IfOk result (λ found. found ≡ least
        (with_brackets
        (λ brackets s. broken_if (closes_no_bracket brackets s) s.line 29) [] body.now)) }
{
    let mut brackets = Vec::new(alloc);
    let mut found = None;
    for statement in body {
        let wrong = closes_none(brackets.as_slice(), statement);
        found = lesser(found, broken_if(wrong, statement.line, 29));
        pass(&mut brackets, statement)?;
    }
    Ok(found)
}

/// The least refusal by rule 29.
#[tactic(auto, unfolding(crate::specs::Brackets::rule_29))]
pub(crate) fn least_closed_without(
    alloc: Global,
    blocks: &[Block],
) -> Result<Option<Refusal>, AllocError>
    ensures { IfOk result (λ found. found ≡ least (rule_29 blocks.now)) }
{
    try_least_of(
        blocks,
        |b: &Block| brackets_closed_without(alloc, b.body.as_slice()),
    )
}

fn eighth(alloc: Global, body: &[Statement]) -> Result<Option<Refusal>, AllocError>
    ensures { IfOk result (λ found. found ≡ least
        (with_brackets
        (λ brackets s. broken_if (is_eighth_bracket brackets s) s.line 31) [] body.now)) }
{
    let mut brackets = Vec::new(alloc);
    let mut found = None;
    for statement in body {
        let wrong = is_eighth(brackets.as_slice(), statement);
        found = lesser(found, broken_if(wrong, statement.line, 31));
        pass(&mut brackets, statement)?;
    }
    Ok(found)
}

/// The least refusal by rule 31.
#[tactic(auto, unfolding(crate::specs::Brackets::rule_31))]
pub(crate) fn least_eighth(alloc: Global, blocks: &[Block]) -> Result<Option<Refusal>, AllocError>
    ensures { IfOk result (λ found. found ≡ least (rule_31 blocks.now)) }
{
    try_least_of(blocks, |b: &Block| eighth(alloc, b.body.as_slice()))
}

fn open_at_end(alloc: Global, body: &[Statement]) -> Result<Vec<SourceBracket>, AllocError>
    ensures { IfOk result (λ brackets. brackets.items ≡ brackets_behind_all [] body.now) }
{
    let mut brackets = Vec::new(alloc);
    for statement in body {
        pass(&mut brackets, statement)?;
    }
    Ok(brackets)
}

fn brackets_left_open(alloc: Global, body: &[Statement]) -> Result<Option<Refusal>, AllocError>
    ensures { IfOk result (λ found. found ≡ least (brackets_left_open body.now)) }
{
    let brackets = open_at_end(alloc, body)?;
    Ok(least_of(&brackets, |b: &SourceBracket| broken_if(true, b.line, 30)))
}

/// The least refusal by rule 30.
#[tactic(auto, unfolding(crate::specs::Brackets::rule_30))]
pub(crate) fn least_left_open(
    alloc: Global,
    blocks: &[Block],
) -> Result<Option<Refusal>, AllocError>
    ensures { IfOk result (λ found. found ≡ least (rule_30 blocks.now)) }
{
    try_least_of(
        blocks,
        |b: &Block| brackets_left_open(alloc, b.body.as_slice()),
    )
}
