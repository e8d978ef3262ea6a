//! Which parameters calls pass on to which.
ghost use Rattle.std.specs.Prelude.{◌≡◌, ◌<◌, ◌^◌, ◌++◌, ◌∷◌, List, length, slice_get, IfOk};
ghost use Rattle.flat_code.specs.Ops.{OpData};
ghost use Rattle.stl_list.specs.Runs.{runs_from};
ghost use Rattle.plc_base.specs.Kinds.{is_same_block};
ghost use Rattle.stl_list.specs.JoinedParameters.{
  block_links,
  call_links,
  called_id,
  called_kind,
  first_of,
  joined_link,
  joined_links,
  links,
  links_of_runs,
  passed_parameter,
  run_links,
  system_link,
  system_links,
  system_parameters,
  typed_link,
};

use crate::parameters::formal_at;
use crate::runs::is_last;
use flat_code::{CodeBlock, Op, Operand, Passed, kind_of_code};
use plc_base::{BlockId, BlockKind, NoMemory};
use std::alloc::Global;
use stl_ast::Simple;
use stl_types::{Formal, system_formals};

/// What a CALL says of a parameter of the function that calls. Parameters are numbers here: those
/// of all code blocks are counted in the image's order.
#[derive(Clone, Copy)]
pub enum Link {
    /// The parameter is passed for another one.
    Joins { own: usize, other: usize },
    /// The parameter is passed for one of a system function, which has a type.
    Has { own: usize, kind: Simple },
}

/// The kind of a block that is called, by its number in an op; a function where none has the
/// number.
fn called_kind(kind: u8) -> BlockKind
    ensures { result ≡ called_kind kind }
{
    match kind_of_code(kind) {
        Some(kind) => kind,
        None => BlockKind::Fc,
    }
}

/// The block that an op calls.
pub(crate) fn called_id(kind: u8, number: u16) -> BlockId
    ensures { result ≡ called_id kind number }
{
    BlockId {
        kind: called_kind(kind),
        number,
    }
}

/// Whether two blocks are the same.
pub(crate) fn is_same(a: BlockId, b: BlockId) -> bool
    ensures { result ≡ is_same_block a b }
{
    a.kind.is_same_kind(b.kind) && a.number == b.number
}

/// The parameters of a system function; none where there is no such function.
pub(crate) fn system_parameters(alloc: Global, number: u16) -> Result<Vec<Formal>, NoMemory>
    ensures { IfOk result (λ v. v.items ≡ system_parameters number) }
{
    match system_formals(alloc, number)? {
        Some(formals) => Ok(formals),
        None => Ok(Vec::new(alloc)),
    }
}

/// The number of the first parameter of a block; past all parameters where there is no such block.
fn first_of(blocks: &[CodeBlock], id: BlockId) -> usize
    requires { length blocks.now < 65536 }
    ensures value { result ≡ first_of blocks.now id }
    ensures small { result < 2 ^ 32 }
{
    let mut first = 0;
    for block in blocks {
        if is_same(block.id, id) {
            return first;
        }
        first += block.params.len();
    }
    first
}

/// The parameter of the function that calls which an op before a call passes, behind the index of
/// the one that it is passed for.
fn passed_parameter(op: &Op) -> Option<(u8, u8)>
    ensures { result ≡ passed_parameter op.now.operand }
{
    match op.operand {
        Operand::Pass {
            index,
            actual: Passed::Parameter { index: own, .. },
        } => Some((index, own)),
        _ => None,
    }
}

/// Adds that a parameter is passed to a block. `first` is the first parameter of the function that
/// calls, `other` that of the block.
fn add_joined_one(
    links: &mut Vec<Link>,
    first: usize,
    other: usize,
    passed: Option<(u8, u8)>,
) -> Result<(), NoMemory>
    requires first { first < 2 ^ 32 }
    requires other { other < 2 ^ 32 }
    ensures { IfOk result (λ _. links.new.items
        ≡ links.old.items ++ joined_link first other passed) }
{
    match passed {
        None => Ok(()),
        Some((index, own)) => {
            links.push(Link::Joins {
                own: first + own as usize,
                other: other + index as usize,
            })?;
            Ok(())
        }
    }
}

/// Adds what the ops before a call of a block say.
fn add_joined(
    links: &mut Vec<Link>,
    first: usize,
    other: usize,
    before: &[Op],
) -> Result<(), NoMemory>
    requires first { first < 2 ^ 32 }
    requires other { other < 2 ^ 32 }
    ensures { IfOk result (λ _. links.new.items
        ≡ links.old.items ++ joined_links first other before.now) }
{
    for op in before {
        add_joined_one(links, first, other, passed_parameter(op))?;
    }
    Ok(())
}

/// Adds that a parameter is passed for one of a system function.
fn add_typed(
    links: &mut Vec<Link>,
    formals: &[Formal],
    index: u8,
    own: usize,
) -> Result<(), NoMemory>
    ensures { IfOk result (λ _. links.new.items
        ≡ links.old.items ++ typed_link own (slice_get formals.now index)) }
{
    match formal_at(formals, index) {
        None => Ok(()),
        Some(formal) => {
            links.push(Link::Has {
                own,
                kind: formal.kind,
            })?;
            Ok(())
        }
    }
}

/// Adds that a parameter is passed to a system function.
fn add_system_one(
    links: &mut Vec<Link>,
    formals: &[Formal],
    first: usize,
    passed: Option<(u8, u8)>,
) -> Result<(), NoMemory>
    requires { first < 2 ^ 32 }
    ensures { IfOk result (λ _. links.new.items
        ≡ links.old.items ++ system_link formals.now first passed) }
{
    match passed {
        None => Ok(()),
        Some((index, own)) => add_typed(links, formals, index, first + own as usize),
    }
}

/// Adds what the ops before a call of a system function say.
fn add_system(
    links: &mut Vec<Link>,
    formals: &[Formal],
    first: usize,
    before: &[Op],
) -> Result<(), NoMemory>
    requires { first < 2 ^ 32 }
    ensures { IfOk result (λ _. links.new.items
        ≡ links.old.items ++ system_links formals.now first before.now) }
{
    for op in before {
        add_system_one(links, formals, first, passed_parameter(op))?;
    }
    Ok(())
}

/// Adds what the ops before a call say.
fn add_call(
    alloc: Global,
    links: &mut Vec<Link>,
    blocks: &[CodeBlock],
    id: BlockId,
    first: usize,
    before: &[Op],
) -> Result<(), NoMemory>
    requires first { first < 2 ^ 32 }
    requires blocks { length blocks.now < 65536 }
    ensures { IfOk result (λ _. links.new.items
        ≡ links.old.items ++ call_links blocks.now id first before.now) }
{
    if id.kind.is_system_function() {
        let formals = system_parameters(alloc, id.number)?;
        add_system(links, formals.as_slice(), first, before)
    } else {
        add_joined(links, first, first_of(blocks, id), before)
    }
}

/// Adds the links of a statement.
fn add_run(
    alloc: Global,
    links: &mut Vec<Link>,
    blocks: &[CodeBlock],
    first: usize,
    before: &[Op],
    op: &Op,
) -> Result<(), NoMemory>
    requires first { first < 2 ^ 32 }
    requires blocks { length blocks.now < 65536 }
    ensures { IfOk result (λ _. links.new.items
        ≡ links.old.items ++ run_links blocks.now first before.now op.now.operand) }
{
    match op.operand {
        Operand::Called { kind, number, .. } => add_call(
            alloc,
            links,
            blocks,
            called_id(kind, number),
            first,
            before,
        ),
        _ => Ok(()),
    }
}

/// Goes on to an op. `before` are those of its statement before it; the links of the statement are
/// added with the last one.
fn add_op(
    alloc: Global,
    links: &mut Vec<Link>,
    blocks: &[CodeBlock],
    first: usize,
    before: &mut Vec<Op>,
    op: &Op,
) -> Result<(), NoMemory>
    requires first { first < 2 ^ 32 }
    requires blocks { length blocks.now < 65536 }
    ensures { IfOk result (λ _. (rest : List OpData)
        → links.new.items ++ links_of_runs blocks.now first (runs_from before.new.items rest)
        ≡ links.old.items ++ links_of_runs blocks.now first
        (runs_from before.old.items (op.now ∷ rest))) }
{
    if is_last(op) {
        add_run(alloc, links, blocks, first, before.as_slice(), op)?;
        before.clear();
        return Ok(());
    }
    before.push(*op)?;
    Ok(())
}

/// Adds the links of the statements of a block.
fn add_block(
    alloc: Global,
    links: &mut Vec<Link>,
    blocks: &[CodeBlock],
    first: usize,
    ops: &[Op],
) -> Result<(), NoMemory>
    requires first { first < 2 ^ 32 }
    requires blocks { length blocks.now < 65536 }
    ensures { IfOk result (λ _. links.new.items
        ≡ links.old.items ++ block_links blocks.now first ops.now) }
{
    let mut before = Vec::new(alloc);
    for op in ops {
        add_op(alloc, links, blocks, first, &mut before, op)?;
    }
    Ok(())
}

/// The links of a program.
#[tactic(auto, unfolding(crate::specs::JoinedParameters::links))]
pub(crate) fn links(alloc: Global, blocks: &[CodeBlock]) -> Result<Vec<Link>, NoMemory>
    requires { length blocks.now < 65536 }
    ensures { IfOk result (λ v. v.items ≡ links blocks.now) }
{
    let mut links = Vec::new(alloc);
    let mut first = 0;
    for block in blocks {
        add_block(alloc, &mut links, blocks, first, block.code.as_slice())?;
        first += block.params.len();
    }
    Ok(links)
}
