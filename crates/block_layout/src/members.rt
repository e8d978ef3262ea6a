ghost use Rattle.std.specs.Prelude.{
  ◌≡◌,
  IfOk,
  IfSome,
  ◌<◌,
  length,
  ◌++◌,
  [],
  ◌∷◌,
  nat_eq,
  if◌then◌else◌,
};
ghost use Rattle.std.specs.List.{slice_get};
ghost use Rattle.block_layout.specs.Sizes.{elements_of};
ghost use Rattle.block_layout.specs.Members.{component_of_name, members_of, name_here, component_names};

use crate::cells::Cell;
use crate::sizes::{alignment, array_bits, end_behind_cell, up};
use std::alloc::{AllocError, Global};
use stl_symbols::NameIndex;

/// A component of a structure: its place among the cells, and its offset in the structure in bits.
#[derive(Clone, Copy, Debug, PartialEq, Eq)]
pub struct Member {
    pub place: usize,
    pub offset: u64,
}

/// The components of a structure, and their names in the same order.
#[derive(Drop)]
pub struct NameList {
    pub names: NameIndex,
    pub members: Vec<Member>,
}

impl NameList {
    /// No components.
    pub(crate) fn new(alloc: Global) -> Self
        ensures names { result.names ≡ [] }
        ensures members { result.members.items ≡ [] }
    {
        NameList {
            names: NameIndex::new(alloc),
            members: Vec::new(alloc),
        }
    }

    /// Adds a cell, if it stands at this level.
    fn add(
        &mut self,
        alloc: Global,
        cell: &Cell,
        level: u64,
        member: Member,
    ) -> Result<(), AllocError>
        ensures names { IfOk result (λ _. self.new.names
            ≡ self.old.names ++ name_here level cell.now) }
        ensures members { IfOk result (λ _. self.new.members.items
            ≡ self.old.members.items
            ++ (if nat_eq cell.now.level level then member ∷ [] else [])) }
    {
        if cell.level as u64 == level {
            self.names.add(alloc, cell.name.as_bytes())?;
            self.members.push(member)?;
        }
        Ok(())
    }
}

/// The components at this level, of which the first is the first of the cells.
#[tactic(auto, using(crate::proofs::SizeLemmas::size_small, crate::proofs::SizeLemmas::size_within))]
pub(crate) fn members(
    alloc: Global,
    cells: &[Cell],
    elements: &[u64],
    level: u64,
) -> Result<NameList, AllocError>
    requires { elements.now ≡ elements_of cells.now }
    ensures names { IfOk result (λ s. s.names ≡ component_names level cells.now) }
    ensures members { IfOk result (λ s. s.members.items ≡ members_of level 0 0 cells.now) }
{
    let mut name_list = NameList::new(alloc);
    let mut at = 0;
    for i in 0..cells.len() {
        let cell = &cells[i];
        if (cell.level as u64) < level {
            return Ok(name_list);
        }
        name_list.add(
            alloc,
            cell,
            level,
            Member {
                place: i,
                offset: up(at, alignment(cell)),
            },
        )?;
        let bits = array_bits(cell.bounds.as_slice(), elements[i]);
        at = end_behind_cell(at, cell, bits, level);
    }
    Ok(name_list)
}

fn member_at(members: &[Member], place: usize) -> Option<Member>
    ensures { result ≡ slice_get members.now place }
{
    if place < members.len() {
        Some(members[place])
    } else {
        None
    }
}

/// The component of this name.
pub(crate) fn find(name_list: &NameList, name: &[u8], cells: &[Cell], level: u64) -> Option<Member>
    requires names { name_list.now.names ≡ component_names level cells.now }
    requires members { name_list.now.members.items ≡ members_of level 0 0 cells.now }
    ensures value { result ≡ component_of_name level 0 0 name.now cells.now }
    ensures within { IfSome result (λ m. m.place < length cells.now) }
{
    let place = name_list.names.place(name)?;
    member_at(name_list.members.as_slice(), place)
}
