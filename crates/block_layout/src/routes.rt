ghost use Rattle.std.specs.Prelude.{◌≡◌, Some, false, is_some};
ghost use Rattle.std.specs.List.{slice_get};
ghost use Rattle.std.specs.Option.{option_copied};
ghost use Rattle.block_layout.specs.Members.{component_of_name};
ghost use Rattle.block_layout.specs.Paths.{
  OffsetIsNear,
  ReachesSound,
  cells_at,
  elementary_at,
  if_whole,
  in_sections,
  kind_of,
  plain_kind,
  setting_structure,
  shape_block,
  structure_of,
  path_end_in_data_block,
  path_end_of_local,
  path_end_or_unjudged,
  path_end_of_setting,
  whole_at,
};

use crate::blocks::{BlockLayout, Shape};
use crate::cells::{Cell, Element};
use crate::path_ends::{
    ComponentAt, PathEnd, is_used_up, layout_at, outermost, walk_from, walk_on,
};
use stl_ast::{PathStep, Simple};

/// The block at this place in the source, where it breaks no rule as a whole.
pub(crate) fn whole_at(layouts: &[BlockLayout], block: usize) -> Option<&BlockLayout>
    ensures { option_copied result ≡ whole_at layouts.now block }
{
    let found = layouts.get(block)?;
    if found.broken { None } else { Some(found) }
}

/// The place of a block that breaks no rule as a whole.
pub(crate) fn if_whole(layouts: &[BlockLayout], block: usize) -> Option<usize>
    ensures { result ≡ if_whole layouts.now block }
{
    if whole_at(layouts, block).is_some() {
        Some(block)
    } else {
        None
    }
}

fn shape_block(layouts: &[BlockLayout], block: usize, shape: Shape) -> Option<usize>
    ensures { result ≡ shape_block layouts.now block shape }
{
    match shape {
        Shape::Own => Some(block),
        Shape::Of { block: other } => if_whole(layouts, other),
        Shape::Unknown => None,
    }
}

/// The block that declares the components of a data block, where neither of the two is broken.
pub(crate) fn structure_of(layouts: &[BlockLayout], block: usize) -> Option<usize>
    ensures { result ≡ structure_of layouts.now block }
{
    let found = whole_at(layouts, block)?;
    shape_block(layouts, block, found.shape)
}

/// The block that declares the components of a data block, which may itself be broken, as its
/// settings are checked all the same.
pub(crate) fn setting_structure(layouts: &[BlockLayout], block: usize) -> Option<usize>
    ensures { result ≡ setting_structure layouts.now block }
{
    let found = layouts.get(block)?;
    shape_block(layouts, block, found.shape)
}

fn walk_or_unjudged(layouts: &[BlockLayout], structure: Option<usize>, path: &[PathStep]) -> PathEnd
    ensures value { result ≡ path_end_or_unjudged layouts.now structure path.now }
    ensures near { OffsetIsNear result }
{
    match structure {
        None => PathEnd::Unjudged,
        Some(block) => walk_from(layouts, block, false, path),
    }
}

/// Where the target of a setting leads.
#[tactic(auto, unfolding(crate::specs::Paths::path_end_of_setting))]
pub(crate) fn walk_setting(layouts: &[BlockLayout], block: usize, path: &[PathStep]) -> PathEnd
    ensures value { result ≡ path_end_of_setting layouts.now block path.now }
    ensures near { OffsetIsNear result }
{
    walk_or_unjudged(layouts, setting_structure(layouts, block), path)
}

/// Where a path into a data block leads.
#[tactic(auto, unfolding(crate::specs::Paths::path_end_in_data_block))]
pub(crate) fn walk_data(layouts: &[BlockLayout], block: usize, path: &[PathStep]) -> PathEnd
    ensures value { result ≡ path_end_in_data_block layouts.now block path.now }
    ensures near { OffsetIsNear result }
{
    walk_or_unjudged(layouts, structure_of(layouts, block), path)
}

#[tactic(auto, unfolding(crate::specs::Members::component_of_name))]
pub(crate) fn has_component(layouts: &[BlockLayout], block: usize, name: &[u8]) -> bool
    ensures { result
        ≡ is_some (component_of_name 0 0 0 name.now (cells_at layouts.now block false)) }
{
    match layout_at(layouts, block, false) {
        None => false,
        Some(layout) => layout.outermost(name).is_some(),
    }
}

/// Where a name leads in the sections of a block, of which VAR_TEMP is the last.
#[tactic(auto, using(crate::proofs::WalkLemmas::outermost_reaches))]
pub(crate) fn in_sections(layouts: &[BlockLayout], block: usize, name: &[u8]) -> PathEnd
    ensures value { result ≡ in_sections layouts.now block name.now }
    ensures near { OffsetIsNear result }
    ensures sound { ReachesSound layouts.now result }
{
    let temporary = !has_component(layouts, block, name);
    outermost(layouts, block, temporary, 0, name)
}

/// Where a path in the body of a block leads, into its own variables.
#[tactic(auto, unfolding(crate::specs::Paths::path_end_of_local))]
pub(crate) fn walk_local(
    layouts: &[BlockLayout],
    block: usize,
    name: &[u8],
    path: &[PathStep],
) -> PathEnd
    ensures value { result ≡ path_end_of_local layouts.now block name.now path.now }
    ensures near { OffsetIsNear result }
{
    if whole_at(layouts, block).is_none() {
        return PathEnd::Unjudged;
    }
    let found = in_sections(layouts, block, name);
    walk_on(layouts, found, path)
}

fn plain_kind(of: Element) -> Option<Simple>
    ensures { result ≡ plain_kind of }
{
    match of {
        Element::Plain { kind } => Some(kind),
        _ => None,
    }
}

fn kind_of(component: ComponentAt, cell: &Cell) -> Option<Simple>
    ensures { result ≡ kind_of component (Some cell.now) }
{
    if is_used_up(cell, component.depth) {
        plain_kind(cell.of)
    } else {
        None
    }
}

/// The elementary type of the component that a path reaches.
pub(crate) fn elementary_at(layouts: &[BlockLayout], component: ComponentAt) -> Option<Simple>
    ensures { result ≡ elementary_at layouts.now component }
{
    let layout = layout_at(layouts, component.block, component.temporary)?;
    let cell = layout.cell_at(component.place)?;
    kind_of(component, cell)
}
