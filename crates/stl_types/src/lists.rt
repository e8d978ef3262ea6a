ghost use Rattle.std.specs.Prelude.{◌≡◌, ◌<◌, ◌+◌, [], IfOk, length, drop};
ghost use Rattle.stl_ast.specs.Statements.{is_empty_statement};
ghost use Rattle.plc_base.specs.Least.{least};
ghost use Rattle.stl_types.specs.Lists.{
  has_label,
  has_list,
  is_list_jump,
  is_list_to,
  is_unconditional_jump,
  is_wrong_list,
  lacks_list,
  jumps_left,
  lists_from,
  rule_32,
};

use crate::labels::add_label;
use plc_base::{Refusal, broken_if, lesser, try_least_of};
use std::alloc::{AllocError, Global};
use stl_ast::{Block, Mnemonic, Name, Operand, Statement};
use stl_symbols::NameIndex;

/// The most jumps of the list of a JL.
const MOST_JUMPS: u32 = 255;

fn is_list_jump(code: Mnemonic) -> bool
    ensures { result ≡ is_list_jump code }
{
    matches!(code, Mnemonic::Jl)
}

fn is_unconditional_jump(code: Mnemonic) -> bool
    ensures { result ≡ is_unconditional_jump code }
{
    matches!(code, Mnemonic::Ju)
}

fn is_empty(code: Mnemonic) -> bool
    ensures { result ≡ is_empty_statement code }
{
    matches!(code, Mnemonic::Empty)
}

fn has_label(name: &[u8], label: &Option<Name>) -> bool
    ensures { result ≡ has_label name.now label.now }
{
    match label {
        None => false,
        Some(label) => name == label.as_bytes(),
    }
}

/// How many jumps a list may still have behind a statement; none where it isn't of the list.
fn jumps_left(left: u32, code: Mnemonic) -> Option<u32>
    ensures { result ≡ jumps_left left code }
{
    if is_empty(code) {
        return Some(left);
    }
    if is_unconditional_jump(code) && left > 0 {
        return Some(left - 1);
    }
    None
}

/// Whether the statements from here on are a jump list up to the label.
fn is_list_to(name: &[u8], body: &[Statement]) -> bool
    ensures { result ≡ is_list_to 255 name.now body.now }
{
    let mut left = MOST_JUMPS;
    for statement in body {
        if has_label(name, &statement.label) {
            return true;
        }
        match jumps_left(left, statement.code) {
            None => return false,
            Some(next) => left = next,
        }
    }
    false
}

fn has_list(before: &NameIndex, name: &[u8], behind: &[Statement]) -> bool
    ensures { result ≡ has_list before.now name.now behind.now }
{
    before.place(name).is_none() && is_list_to(name, behind)
}

fn lacks_list(before: &NameIndex, operand: &Operand, behind: &[Statement]) -> bool
    ensures { result ≡ lacks_list before.now operand.now behind.now }
{
    match operand {
        Operand::Label { name } => !has_list(before, name.as_bytes(), behind),
        _ => false,
    }
}

fn is_wrong_list(before: &NameIndex, statement: &Statement, behind: &[Statement]) -> bool
    ensures { result ≡ is_wrong_list before.now statement.now behind.now }
{
    is_list_jump(statement.code) && lacks_list(before, &statement.operand, behind)
}

/// The statements behind the one at a place.
fn behind(body: &[Statement], place: usize) -> &[Statement]
    requires { place < length body.now }
    ensures { result.now ≡ drop (place + 1) body.now }
{
    &body[place + 1..]
}

fn wrong_lists(alloc: Global, body: &[Statement]) -> Result<Option<Refusal>, AllocError>
    ensures { IfOk result (λ found. found ≡ least (lists_from [] body.now)) }
{
    let mut before = NameIndex::new(alloc);
    let mut found = None;
    for place in 0..body.len() {
        let statement = &body[place];
        add_label(&mut before, alloc, &statement.label)?;
        let wrong = is_wrong_list(&before, statement, behind(body, place));
        found = lesser(found, broken_if(wrong, statement.line, 32));
    }
    Ok(found)
}

/// The least refusal by rule 32.
#[tactic(auto, unfolding(crate::specs::Lists::rule_32))]
pub(crate) fn least_wrong_list(
    alloc: Global,
    blocks: &[Block],
) -> Result<Option<Refusal>, AllocError>
    ensures { IfOk result (λ found. found ≡ least (rule_32 blocks.now)) }
{
    try_least_of(blocks, |b: &Block| wrong_lists(alloc, b.body.as_slice()))
}
