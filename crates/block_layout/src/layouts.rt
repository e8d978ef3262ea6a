ghost use Rattle.std.specs.Prelude.{
  ◌≡◌,
  ◌≤◌,
  ◌<◌,
  ◌^◌,
  IfOk,
  IfSome,
  ◌+◌,
  length,
  drop,
  get_or,
  true,
};
ghost use Rattle.std.specs.List.{slice_get};
ghost use Rattle.std.specs.Option.{option_copied};
ghost use Rattle.block_layout.specs.Members.{component_of_name};
ghost use Rattle.block_layout.specs.Sizes.{element_of, elements_of, structure_bits, largest_size};
ghost use Rattle.block_layout.specs.NameLists.{AreNameLists, EndParameters, HaveParameters, IsNameList};
ghost use Rattle.block_layout.specs.declared.cells.Cell.{Cell};

use crate::cells::Cell;
use crate::members::{Member, NameList, find, members};
use crate::rules::rule_52::is_parameter;
use crate::sizes::{elements, structure_bits};
use std::alloc::{AllocError, Global};
use std::marker::Model;

/// Cells with their sizes, and with the components of each structure. Contracts see the cells.
/// - `elements`: the size of one element of each cell, in bits.
/// - `outer`: the components at level 0. `name_lists`: the components of each sound cell.
/// - `bits`: the size of a structure of all cells, in bits.
/// - `parameters`: how many cells from the first one on have all parameters among them.
#[derive(Drop)]
pub struct Layout {
    cells: Vec<Cell>,
    elements: Vec<u64>,
    outer: NameList,
    name_lists: Vec<NameList>,
    bits: u64,
    parameters: usize,
}

impl Model for Layout {
    ghost use Rattle.std.specs.Prelude.{List, ◌≡◌, length};
    ghost use Rattle.block_layout.specs.declared.cells.Cell.{Cell};
    ghost use Rattle.block_layout.specs.Sizes.{elements_of, structure_bits};
    ghost use Rattle.block_layout.specs.NameLists.{AreNameLists, AreCellTables};

    ghost Value = { List Cell };

    ghost view = { λ l. l.cells.items };

    ghost invariant = { λ l.
        AreCellTables l.cells.items l.elements.items l.outer l.name_lists.items
        l.bits
        l.parameters };
}

/// The cells from a place on.
pub(crate) fn behind(cells: &[Cell], from: usize) -> &[Cell]
    requires { from ≤ length cells.now }
    ensures { result.now ≡ drop from cells.now }
{
    &cells[from..]
}

pub(crate) fn numbers_behind(numbers: &[u64], from: usize) -> &[u64]
    requires { from ≤ length numbers.now }
    ensures { result.now ≡ drop from numbers.now }
{
    &numbers[from..]
}

/// The components of a sound cell.
fn name_list_of(
    alloc: Global,
    cell: &Cell,
    behind: &[Cell],
    elements: &[u64],
) -> Result<NameList, AllocError>
    requires { elements.now ≡ elements_of behind.now }
    ensures { IfOk result (λ s. cell.now.sound ≡ true → IsNameList cell.now behind.now s) }
{
    if cell.sound {
        members(alloc, behind, elements, cell.level as u64 + 1)
    } else {
        Ok(NameList::new(alloc))
    }
}

/// The components of each sound cell.
#[tactic(auto, using(crate::proofs::NameListLemmas::behind_elements, crate::proofs::NameListLemmas::name_lists_next))]
fn name_lists(alloc: Global, cells: &[Cell], elements: &[u64]) -> Result<Vec<NameList>, AllocError>
    requires { elements.now ≡ elements_of cells.now }
    ensures count { IfOk result (λ v. length v.items ≡ length cells.now) }
    ensures name_lists { IfOk result (λ v. AreNameLists cells.now v.items) }
{
    let mut name_lists = Vec::new(alloc);
    for i in 0..cells.len() {
        let one = name_list_of(
            alloc,
            &cells[i],
            behind(cells, i + 1),
            numbers_behind(elements, i + 1),
        )?;
        name_lists.push(one)?;
    }
    Ok(name_lists)
}

/// The place behind the last parameter.
fn parameters_end(cells: &[Cell]) -> usize
    ensures { EndParameters cells.now result }
{
    let mut end = cells.len();
    while end > 0 && !is_parameter(cells[end - 1].section) {
        end -= 1;
    }
    end
}

impl Layout {
    /// Lays out cells.
    pub(crate) fn new(alloc: Global, cells: Vec<Cell>) -> Result<Self, AllocError>
        ensures { IfOk result (λ l. l ≡ cells.items) }
    {
        let elements = elements(alloc, cells.as_slice())?;
        let outer = members(alloc, cells.as_slice(), elements.as_slice(), 0)?;
        let name_lists = name_lists(alloc, cells.as_slice(), elements.as_slice())?;
        let bits = structure_bits(cells.as_slice(), elements.as_slice());
        let parameters = parameters_end(cells.as_slice());
        Ok(Layout {
            cells,
            elements,
            outer,
            name_lists,
            bits,
            parameters,
        })
    }

    /// The cells in their order.
    pub fn cells(&self) -> &[Cell]
        ensures { result.now ≡ self.now }
    {
        self.cells.as_slice()
    }

    /// The cells up to the last parameter.
    pub(crate) fn parameters(&self) -> &[Cell]
        ensures { HaveParameters self.now result.now }
    {
        &self.cells.as_slice()[..self.parameters]
    }

    /// The bits of an element of each cell.
    pub(crate) fn elements(&self) -> &[u64]
        ensures { result.now ≡ elements_of self.now }
    {
        self.elements.as_slice()
    }

    /// The bits of a structure of these cells.
    pub fn bits(&self) -> u64
        ensures value { result ≡ structure_bits self.now }
        ensures near { result ≤ largest_size }
    {
        self.bits
    }

    /// The cell at a place.
    pub(crate) fn cell_at(&self, place: usize) -> Option<&Cell>
        ensures value { option_copied result ≡ slice_get self.now place }
        ensures within { IfSome result (λ _. place + 1 < 2 ^ 64) }
        ensures length { IfSome result (λ _. place < length self.now) }
    {
        if place < self.cells.len() {
            Some(&self.cells[place])
        } else {
            None
        }
    }

    /// The outermost component of this name.
    pub fn outermost(&self, name: &[u8]) -> Option<Member>
        ensures value { result ≡ component_of_name 0 0 0 name.now self.now }
        ensures within { IfSome result (λ m. m.place < length self.now) }
    {
        find(&self.outer, name, self.cells.as_slice(), 0)
    }

    /// The component of this name of the sound cell at a place; its place counts from behind that
    /// cell.
    pub(crate) fn inner(&self, place: usize, name: &[u8]) -> Option<Member>
        requires within { place < length self.now }
        requires sound { (c : Cell) → (get_or self.now place c).sound ≡ true }
        ensures value { (c : Cell) → result
            ≡ component_of_name ((get_or self.now place c).level + 1) 0 0 name.now
            (drop (place + 1) self.now) }
        ensures within { IfSome result (λ m. place + 1 + m.place < 2 ^ 64) }
    {
        let behind = behind(self.cells.as_slice(), place + 1);
        find(
            &self.name_lists[place],
            name,
            behind,
            self.cells[place].level as u64 + 1,
        )
    }

    /// The bits of an element of the cell at a place.
    pub(crate) fn element_at(&self, place: usize) -> u64
        requires { place < length self.now }
        ensures value { (c : Cell) → result
            ≡ element_of (get_or self.now place c) (drop (place + 1) self.now) }
        ensures near { result ≤ largest_size }
    {
        self.elements[place]
    }
}
