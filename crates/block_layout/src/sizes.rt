ghost use Rattle.std.specs.Prelude.{◌≡◌, ◌≤◌, ◌<◌, ◌^◌, ◌+◌, IfOk, if◌then◌else◌};
ghost use Rattle.block_layout.specs.Declarations.{element_count};
ghost use Rattle.block_layout.specs.Sizes.{
  alignment,
  array_bits,
  capped_size,
  element_alignment,
  element_bits,
  elements_of,
  components_end,
  component_end,
  plain_bits,
  end_behind_cell,
  structure_bits,
  next_multiple,
  largest_size,
};

use crate::cells::{Cell, Element, LARGEST};
use std::alloc::{AllocError, Global};
use stl_ast::{Bounds, Simple};

pub(crate) fn capped_size(n: u64) -> u64
    ensures { result ≡ capped_size n }
{
    if n < LARGEST { n } else { LARGEST }
}

/// The least multiple of the alignment at or past a number.
#[tactic(auto, unfolding(crate::specs::Sizes::next_multiple))]
pub(crate) fn up(n: u64, alignment: u64) -> u64
    requires positive { 0 < alignment }
    requires small { alignment ≤ 16 }
    requires near { n ≤ largest_size }
    ensures value { result ≡ next_multiple n alignment }
    ensures near { result < n + alignment }
{
    (n + (alignment - 1)) / alignment * alignment
}

/// The bits of an elementary type.
pub fn plain_bits(kind: Simple) -> u64
    ensures { result ≡ plain_bits kind }
{
    match kind {
        Simple::Bool => 1,
        Simple::Byte | Simple::Char => 8,
        Simple::Word | Simple::Int | Simple::S5time => 16,
        Simple::Dword | Simple::Dint | Simple::Time => 32,
    }
}

fn element_alignment(of: Element) -> u64
    ensures value { result ≡ element_alignment of }
    ensures positive { 0 < result }
    ensures small { result ≤ 16 }
{
    match of {
        Element::Plain { kind } => {
            let bits = plain_bits(kind);
            if bits < 16 { bits } else { 16 }
        }
        _ => 16,
    }
}

pub(crate) fn alignment(cell: &Cell) -> u64
    ensures value { result ≡ alignment cell.now }
    ensures positive { 0 < result }
    ensures small { result ≤ 16 }
{
    if cell.opens || cell.bounds.len() > 0 {
        16
    } else {
        element_alignment(cell.of)
    }
}

/// The number of elements of an array; none where its bounds are upside down.
pub(crate) fn count(bounds: &Bounds) -> u64
    ensures value { result ≡ element_count bounds.now }
    ensures near { result ≤ 2 ^ 32 }
{
    if bounds.high < bounds.low {
        0
    } else {
        bounds.high.abs_diff(bounds.low) as u64 + 1
    }
}

/// The bits of arrays, the outermost first, of elements of so many bits.
pub(crate) fn array_bits(bounds: &[Bounds], element: u64) -> u64
    requires { element ≤ largest_size }
    ensures value { result ≡ array_bits bounds.now element }
    ensures near { result ≤ largest_size }
{
    let mut bits = element;
    for i in (0..bounds.len()).rev() {
        let whole = count(&bounds[i]) * bits;
        bits = capped_size(up(capped_size(whole), 16));
    }
    bits
}

fn element_bits(of: Element, components: u64) -> u64
    requires { components ≤ largest_size }
    ensures value { result ≡ element_bits of components }
    ensures near { result ≤ largest_size }
{
    match of {
        Element::Plain { kind } => plain_bits(kind),
        Element::Structure => components,
        Element::DateAndTime => 64,
        Element::Udt { bits, .. } => capped_size(bits),
        Element::Unknown => 0,
    }
}

fn past(at: u64, cell: &Cell, bits: u64) -> u64
    requires near { at ≤ largest_size }
    requires small { bits ≤ largest_size }
    ensures value { result ≡ component_end at cell.now bits }
    ensures near { result ≤ largest_size }
{
    if cell.sound {
        capped_size(up(at, alignment(cell)) + bits)
    } else {
        at
    }
}

pub(crate) fn end_behind_cell(at: u64, cell: &Cell, bits: u64, level: u64) -> u64
    requires near { at ≤ largest_size }
    requires small { bits ≤ largest_size }
    ensures value { result ≡ end_behind_cell level at cell.now bits }
    ensures near { result ≤ largest_size }
{
    if cell.level as u64 == level {
        past(at, cell, bits)
    } else {
        at
    }
}

/// Where the components at this level end.
#[tactic(auto, using(crate::proofs::SizeLemmas::end_lower, crate::proofs::SizeLemmas::size_small, crate::proofs::SizeLemmas::size_within))]
fn components_end(cells: &[Cell], elements: &[u64], level: u64) -> u64
    requires { elements.now ≡ elements_of cells.now }
    ensures value { result ≡ components_end level 0 cells.now }
    ensures near { result ≤ largest_size }
{
    let mut at = 0;
    for i in 0..cells.len() {
        let cell = &cells[i];
        if (cell.level as u64) < level {
            return at;
        }
        let bits = array_bits(cell.bounds.as_slice(), elements[i]);
        at = end_behind_cell(at, cell, bits, level);
    }
    at
}

/// The bits of the components of a cell; an unsound one has none that count.
fn components(cell: &Cell, behind: &[Cell], elements: &[u64]) -> u64
    requires { elements.now ≡ elements_of behind.now }
    ensures value { result ≡ (if cell.now.sound
        then capped_size (next_multiple (components_end (cell.now.level + 1) 0 behind.now) 16)
        else 0) }
    ensures near { result ≤ largest_size }
{
    if cell.sound {
        capped_size(up(components_end(behind, elements, cell.level as u64 + 1), 16))
    } else {
        0
    }
}

/// The bits of an element of each cell.
#[tactic(auto, using(crate::proofs::SizeLemmas::elements_next))]
pub(crate) fn elements(alloc: Global, cells: &[Cell]) -> Result<Vec<u64>, AllocError>
    ensures { IfOk result (λ v. v.items ≡ elements_of cells.now) }
{
    let mut elements = vec![in alloc; 0; cells.len()]?;
    for i in (0..cells.len()).rev() {
        let cell = &cells[i];
        let inner = components(cell, &cells[i + 1..], &elements[i + 1..]);
        elements[i] = element_bits(cell.of, inner);
    }
    Ok(elements)
}

/// The bits of a structure of these cells.
#[tactic(auto, unfolding(crate::specs::Sizes::structure_bits))]
pub(crate) fn structure_bits(cells: &[Cell], elements: &[u64]) -> u64
    requires { elements.now ≡ elements_of cells.now }
    ensures value { result ≡ structure_bits cells.now }
    ensures near { result ≤ largest_size }
{
    capped_size(up(components_end(cells, elements, 0), 16))
}
