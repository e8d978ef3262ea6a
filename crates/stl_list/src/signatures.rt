//! What a source says of a code block before its statements, as far as calls and instances need it.
ghost use Rattle.std.specs.Prelude.{◌≡◌, ◌<◌, ◌≤◌, ◌^◌, false, length, IfOk};
ghost use Rattle.plc_base.specs.Kinds.{is_function};
ghost use Rattle.stl_list.specs.Signatures.{formal_of_param, formals_from, formals_of_block, is_behind, signature, signatures};

use crate::chains::PassingChains;
use crate::links::is_same;
use crate::parameters::{name_of, section_of};
use flat_code::{CodeBlock, Param, SECTION_IN_OUT, SECTION_OUT};
use plc_base::{BlockId, BlockKind, NoMemory};
use std::alloc::Global;
use std::marker::Model;
use stl_types::Formal;

/// A block by kind and number, the bytes of its instances, its parameters with their places, and
/// the same parameters by name, section and type.
#[derive(Drop)]
pub(crate) struct Signature {
    pub(crate) id: BlockId,
    pub(crate) instance_len: u16,
    pub(crate) params: Vec<Param>,
    pub(crate) formals: Vec<Formal>,
}

impl Model for Signature {
    ghost use Rattle.stl_list.specs.Signatures.{Signature as SignatureData};

    ghost Value = { SignatureData };

    ghost view = { λ s. record {
      id = s.id;
      instance_len = s.instance_len;
      params = s.params.items;
      formals = s.formals.items;
    } };
}

/// A parameter of an index, whose number among all is `parameter`; `behind`: an IN_OUT of a
/// function stands before it.
fn formal_of_param(
    alloc: Global,
    chains: &PassingChains,
    behind: bool,
    index: usize,
    parameter: usize,
    param: &Param,
) -> Result<Formal, NoMemory>
    ensures { IfOk result
        (λ f. f ≡ formal_of_param chains.now behind index parameter param.now) }
{
    let returns = behind && param.section == SECTION_OUT;
    Ok(Formal {
        name: name_of(alloc, returns, index)?,
        section: section_of(param.section),
        kind: chains.kind_at(parameter, param.width),
    })
}

/// The parameters of a block, of which the first has a number; `returns`: the block may have a
/// return value.
fn formals(
    alloc: Global,
    chains: &PassingChains,
    returns: bool,
    first: usize,
    params: &[Param],
) -> Result<Vec<Formal>, NoMemory>
    requires first { first < 2 ^ 32 }
    requires few { length params.now ≤ 60 }
    ensures { IfOk result (λ v. v.items
        ≡ formals_from chains.now returns false 0 first params.now) }
{
    let mut formals = Vec::new(alloc);
    let mut behind = false;
    for index in 0..params.len() {
        let param = &params[index];
        formals.push(formal_of_param(alloc, chains, behind, index, first + index, param)?)?;
        behind = behind || returns && param.section == SECTION_IN_OUT;
    }
    Ok(formals)
}

fn is_function(kind: BlockKind) -> bool
    ensures { result ≡ is_function kind }
{
    matches!(kind, BlockKind::Fc)
}

/// A code block whose first parameter has this number.
fn signature_of_block(
    alloc: Global,
    chains: &PassingChains,
    first: usize,
    block: &CodeBlock,
) -> Result<Signature, NoMemory>
    requires { first < 2 ^ 32 }
    ensures { IfOk result (λ s. s ≡ signature chains.now first block.now) }
{
    let params = Vec::from_slice(alloc, block.params.as_slice())?;
    let returns = is_function(block.id.kind);
    Ok(Signature {
        id: block.id,
        instance_len: block.instance_len,
        formals: formals(alloc, chains, returns, first, block.params.as_slice())?,
        params,
    })
}

/// The code blocks of a program.
#[tactic(auto, unfolding(crate::specs::Signatures::signatures))]
pub(crate) fn signatures(
    alloc: Global,
    chains: &PassingChains,
    blocks: &[CodeBlock],
) -> Result<Vec<Signature>, NoMemory>
    requires { length blocks.now < 65536 }
    ensures { IfOk result (λ v. v.items ≡ signatures chains.now blocks.now) }
{
    let mut signatures = Vec::new(alloc);
    let mut first = 0;
    for block in blocks {
        signatures.push(signature_of_block(alloc, chains, first, block)?)?;
        first += block.params.len();
    }
    Ok(signatures)
}

/// The parameters of a code block; none where there is no such block.
pub(crate) fn formals_of(signatures: &[Signature], id: BlockId) -> &[Formal]
    ensures { result.now ≡ formals_of_block signatures.now id }
{
    for signature in signatures {
        if is_same(signature.id, id) {
            return signature.formals.as_slice();
        }
    }
    &[]
}
