ghost use Rattle.std.specs.Prelude.{
  ◌≡◌,
  ◌≤◌,
  ◌/◌,
  ◌++◌,
  [],
  ◌∷◌,
  IfOk,
  IfSome,
  length,
};
ghost use Rattle.std.specs.Option.{IfNone};
ghost use Rattle.std.specs.List.{AllByRecursion, flat_map};
ghost use Rattle.plc_base.specs.Kinds.{is_function_block};
ghost use Rattle.block_layout.specs.Offsets.{width_of};
ghost use Rattle.stl_codegen.specs.Fitting.{AreItemsAppended, ParamFits, ParamsFit};
ghost use Rattle.block_layout.specs.ListedParameters.{offset_of_member};
ghost use Rattle.stl_codegen.specs.GeneratedProgram.{param_at_bits, param_bits, param_here, params_of, section_number};

use crate::instructions::in_order;
use arrayvec::ArrayVec;
use block_layout::{BlockLayout, Cell, Element, Layout, Member, is_parameter, width_of};
use flat_code::{Param, SECTION_IN, SECTION_IN_OUT, SECTION_OUT};
use plc_base::Width;
use std::alloc::{AllocError, Global};
use stl_ast::{Block, PartKind, Simple};

/// The number of a section in an image.
fn section_number(section: PartKind) -> u8
    ensures { result ≡ section_number section }
{
    match section {
        PartKind::Input => SECTION_IN,
        PartKind::Output => SECTION_OUT,
        _ => SECTION_IN_OUT,
    }
}

/// A parameter that begins so many bits from the start; `None` where its byte doesn't fit its
/// field.
fn param(section: u8, width: Width, bits: u64) -> Option<Param>
    ensures value { IfSome result (λ p. p ≡ param_at_bits section width bits) }
    ensures far { IfNone result (65536 ≤ bits / 8) }
{
    let byte = bits / 8;
    if byte > 65_535 {
        return None;
    }
    Some(Param {
        section,
        width,
        byte: byte as u16,
        bit: (bits % 8) as u8,
    })
}

fn offset_of_member(member: Option<Member>) -> u64
    ensures { result ≡ offset_of_member member }
{
    match member {
        None => 0,
        Some(member) => member.offset,
    }
}

/// Where a parameter begins: that of a function block has its place in the instance.
fn param_bits(in_instance: bool, components: &Layout, cell: &Cell) -> u64
    ensures { result ≡ param_bits in_instance components.now cell.now }
{
    if in_instance {
        offset_of_member(components.outermost(cell.name.as_bytes()))
    } else {
        0
    }
}

/// Adds a parameter of an elementary type; `None` where its place doesn't fit its field.
#[tactic(auto, using(crate::proofs::FitLemmas::far_param))]
fn add_plain(
    params: &mut Vec<Param>,
    in_instance: bool,
    components: &Layout,
    cell: &Cell,
    kind: Simple,
) -> Result<Option<()>, AllocError>
    ensures { IfOk result (λ done. AreItemsAppended ParamFits params.old.items params.new.items
        (param_at_bits (section_number cell.now.section) (width_of kind)
        (param_bits in_instance components.now cell.now) ∷ []) done) }
{
    let bits = param_bits(in_instance, components, cell);
    let Some(param) = param(section_number(cell.section), width_of(kind), bits) else {
        return Ok(None);
    };
    params.push(param)?;
    Ok(Some(()))
}

/// Adds the parameter that a component is, if it is one.
fn add_param(
    params: &mut Vec<Param>,
    in_instance: bool,
    components: &Layout,
    cell: &Cell,
) -> Result<Option<()>, AllocError>
    ensures { IfOk result (λ done. AreItemsAppended ParamFits params.old.items params.new.items
        (param_here in_instance components.now cell.now) done) }
{
    if !is_parameter(cell.section) {
        return Ok(Some(()));
    }
    match cell.of {
        Element::Plain { kind } => add_plain(params, in_instance, components, cell, kind),
        _ => Ok(Some(())),
    }
}

/// The parameters among the components of a block, in the order of their declaration.
fn declared_params(
    alloc: Global,
    in_instance: bool,
    components: &Layout,
) -> Result<Option<Vec<Param>>, AllocError>
    ensures value { IfOk result (λ made. IfSome made (λ params. params.items
        ≡ flat_map (λ c. param_here in_instance components.now c) components.now)) }
    ensures none { IfOk result (λ made. IfNone made
        (AllByRecursion ParamFits
        (flat_map (λ c. param_here in_instance components.now c) components.now) → ⊥)) }
{
    let mut params = Vec::new(alloc);
    for cell in components.cells() {
        let Some(_) = add_param(&mut params, in_instance, components, cell)? else {
            return Ok(None);
        };
    }
    Ok(Some(params))
}

/// At most 60 parameters.
fn short(params: &[Param]) -> Option<ArrayVec<Param, 60>>
    ensures value { IfSome result (λ short. short.items ≡ params.now) }
    ensures long { IfNone result (61 ≤ length params.now) }
{
    let mut short = ArrayVec::new();
    for param in params {
        if short.try_push(*param).is_err() {
            return None;
        }
    }
    Some(short)
}

/// The parameters of a block by their index in a call. `None` where they are too many, or one of
/// their places doesn't fit its field.
pub(crate) fn params_of(
    alloc: Global,
    block: &Block,
    layout: &BlockLayout,
) -> Result<Option<ArrayVec<Param, 60>>, AllocError>
    ensures value { IfOk result (λ made. IfSome made (λ params. params.items
        ≡ params_of block.now layout.now)) }
    ensures none { IfOk result (λ made. IfNone made
        (ParamsFit (params_of block.now layout.now) → ⊥)) }
{
    let in_instance = block.kind.is_function_block();
    let Some(params) = declared_params(alloc, in_instance, &layout.components)? else {
        return Ok(None);
    };
    let params = in_order(Some(block), params);
    Ok(short(params.as_slice()))
}
