ghost use Rattle.std.specs.Prelude.{◌≡◌, ◌≤◌, ◌^◌, get_or, nat_le, IfSome};
ghost use Rattle.std.specs.List.{list_all};
ghost use Rattle.block_layout.specs.Fits.{fits_elementary_type};
ghost use Rattle.block_layout.specs.Cells.{is_oversized, uses_oversized};
ghost use Rattle.block_layout.specs.Declarations.{
  are_within,
  fit_or_none,
  fit_type,
  has_upside_down,
  init_fits,
  is_unknown_type,
  is_upside_down,
  settable_count,
  elements_set_by,
  repetition_factor,
};
ghost use Rattle.block_layout.specs.Measures.{capped_depth};
ghost use Rattle.block_layout.specs.Rule56.{element_depth, own_depth, udt_depth};
ghost use Rattle.block_layout.specs.DeclarationFacts.{breaks_alone};

use crate::constants::fits;
use crate::sizes::count;
use crate::types::Types;
use stl_ast::{Bounds, Declaration, ElementType, Init, Simple};

fn is_upside_down(bounds: &Bounds) -> bool
    ensures { result ≡ is_upside_down bounds.now }
{
    bounds.high < bounds.low
}

pub(crate) fn has_upside_down(declaration: &Declaration) -> bool
    ensures { result ≡ has_upside_down declaration.now }
{
    declaration.of.arrays.as_slice().iter().any(is_upside_down)
}

pub(crate) fn is_unknown_type(types: &Types, of: &ElementType) -> bool
    ensures { result ≡ is_unknown_type types.now of.now }
{
    match of {
        ElementType::Udt { name } => types.data_type(name).is_none(),
        _ => false,
    }
}

/// How many elements an initial value can set.
fn room(arrays: &[Bounds]) -> Option<u64>
    ensures value { result ≡ settable_count arrays.now }
    ensures near { IfSome result (λ most. most ≤ 2 ^ 32) }
{
    match arrays {
        [] => Some(1),
        [bounds] => Some(count(bounds)),
        _ => None,
    }
}

/// How many elements initial values set, where they are no more than so many.
fn are_set_within(init: &[Init], most: u64) -> bool
    requires { most ≤ 2 ^ 32 }
    ensures { result ≡ nat_le (elements_set_by init.now) most }
{
    let mut set = 0u64;
    for i in init {
        set = set.saturating_add(i.count.unwrap_or(1) as u64);
    }
    set <= most
}

fn fit_kind(init: &[Init], kind: Simple) -> bool
    ensures { result ≡ list_all (λ i. fits_elementary_type i.value kind) init.now }
{
    init.iter().all(|i| fits(&i.value, kind))
}

fn fits_within(init: &[Init], arrays: &[Bounds]) -> bool
    ensures { result ≡ are_within (elements_set_by init.now) (settable_count arrays.now) }
{
    match room(arrays) {
        None => false,
        Some(most) => are_set_within(init, most),
    }
}

/// Whether initial values fit a type.
fn fit_type(arrays: &[Bounds], of: &ElementType, init: &[Init]) -> bool
    ensures { result ≡ fit_type arrays.now of.now init.now }
{
    match of {
        ElementType::Plain { kind } => fit_kind(init, *kind) && fits_within(init, arrays),
        _ => init.is_empty(),
    }
}

pub(crate) fn init_fits(declaration: &Declaration) -> bool
    ensures { result ≡ init_fits declaration.now }
{
    match declaration.init.as_slice() {
        [] => true,
        init => fit_type(declaration.of.arrays.as_slice(), &declaration.of.of, init),
    }
}

/// Whether a declaration by itself breaks a rule.
pub(crate) fn breaks_alone(types: &Types, declaration: &Declaration) -> bool
    ensures { result ≡ breaks_alone types.now declaration.now }
{
    is_unknown_type(types, &declaration.of.of)
        || !init_fits(declaration)
        || has_upside_down(declaration)
}

pub(crate) fn number_at(numbers: &[u64], place: usize) -> u64
    ensures { result ≡ get_or numbers.now place 0 }
{
    if place < numbers.len() {
        numbers[place]
    } else {
        0
    }
}

pub(crate) fn uses_oversized(types: &Types, of: &ElementType) -> bool
    ensures { result ≡ uses_oversized types.now of.now }
{
    match of {
        ElementType::Udt { name } => match types.data_type(name) {
            None => false,
            Some(block) => number_at(&types.bits, block) > 131_072,
        },
        _ => false,
    }
}

fn element_depth(types: &Types, of: &ElementType) -> u64
    ensures { result ≡ element_depth types.now of.now }
{
    match of {
        ElementType::Structure => 1,
        ElementType::Udt { name } => match types.data_type(name) {
            None => 0,
            Some(block) => number_at(&types.depths, block),
        },
        _ => 0,
    }
}

/// A depth of nesting, capped at 9: what is deeper breaks rule 56 alike.
pub(crate) fn deep(n: u64) -> u64
    ensures { result ≡ capped_depth n }
{
    if n < 9 { n } else { 9 }
}

/// The structures and arrays that a declaration opens, at most 9.
pub(crate) fn own_depth(types: &Types, declaration: &Declaration) -> u64
    ensures { result ≡ capped_depth (own_depth types.now declaration.now) }
{
    let arrays = deep(declaration.of.arrays.len() as u64);
    deep(arrays + deep(element_depth(types, &declaration.of.of)))
}
