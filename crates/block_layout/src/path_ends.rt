ghost use Rattle.block_layout.specs.Sizes.{largest_size};
ghost use Rattle.std.specs.Prelude.{
  ◌≡◌,
  ◌≤◌,
  ◌<◌,
  ◌^◌,
  ◌+◌,
  IfSome,
  Some,
  [],
  length,
  get_or,
  drop,
  nat_eq,
  int_lt,
  true,
};
ghost use Rattle.std.specs.List.{slice_get};
ghost use Rattle.std.specs.Option.{IfNone, option_copied};
ghost use Rattle.block_layout.specs.Members.{component_of_name};
ghost use Rattle.block_layout.specs.Paths.{
  OffsetIsNear,
  IsSoundAt,
  ReachesSound,
  cells_at,
  path_end_at_cell,
  path_end_at_member,
  path_end_and_then,
  path_end_by_index,
  path_end_behind_index,
  path_end_by_name,
  path_end_behind_name,
  path_end_in_component,
  outermost_path_end,
  path_end_by_step,
  path_end_behind,
  path_end_in_block,
  path_end_in_bounds,
};
ghost use Rattle.block_layout.specs.declared.cells.Cell.{Cell};

use crate::blocks::BlockLayout;
use crate::cells::{Cell, Element};
use crate::layouts::Layout;
use crate::members::Member;
use crate::sizes::{array_bits, capped_size};
use stl_ast::{Bounds, PathStep};

/// A component, or an element of an array in it: the block that declares it, whether in VAR_TEMP,
/// its place among the cells there, how many of its bounds the path has used, and its offset in
/// bits from the start of the whole.
#[derive(Clone, Copy, Debug, PartialEq, Eq)]
pub struct ComponentAt {
    pub block: usize,
    pub temporary: bool,
    pub place: usize,
    pub depth: usize,
    pub offset: u64,
}

/// Where a path leads. `Unknown` names a component that isn't there, `Unjudged` goes through a
/// declaration or a block that breaks a rule itself. An index outside its array leads on as the
/// first element does.
#[derive(Clone, Copy, Debug, PartialEq, Eq)]
pub enum PathEnd {
    Reaches { component: ComponentAt },
    Unknown,
    Unjudged,
}

/// The declarations of a block that a path is in.
pub(crate) fn layout_at(layouts: &[BlockLayout], block: usize, temporary: bool) -> Option<&Layout>
    ensures some { IfSome result (λ l. l.now ≡ cells_at layouts.now block temporary) }
    ensures none { IfNone result (cells_at layouts.now block temporary ≡ []) }
{
    let block = layouts.get(block)?;
    if temporary {
        Some(&block.temps)
    } else {
        Some(&block.components)
    }
}

/// The component at a place of a block.
fn path_end_at_cell(
    layout: &Layout,
    block: usize,
    temporary: bool,
    place: usize,
    offset: u64,
) -> PathEnd
    requires { offset ≤ largest_size }
    ensures value { result
        ≡ path_end_at_cell block temporary place offset (slice_get layout.now place) }
    ensures near { OffsetIsNear result }
{
    match layout.cell_at(place) {
        None => PathEnd::Unknown,
        Some(cell) => {
            if cell.sound {
                PathEnd::Reaches {
                    component: ComponentAt {
                        block,
                        temporary,
                        place,
                        depth: 0,
                        offset,
                    },
                }
            } else {
                PathEnd::Unjudged
            }
        }
    }
}

fn path_end_at_member(
    layout: &Layout,
    block: usize,
    temporary: bool,
    first: usize,
    offset: u64,
    found: Option<Member>,
) -> PathEnd
    requires near { offset ≤ largest_size }
    requires within { IfSome found (λ m. first + m.place < 2 ^ 64) }
    ensures value { result ≡ path_end_at_member layout.now block temporary first offset found }
    ensures near { OffsetIsNear result }
{
    match found {
        None => PathEnd::Unknown,
        Some(member) => path_end_at_cell(
            layout,
            block,
            temporary,
            first + member.place,
            capped_size(offset + capped_size(member.offset)),
        ),
    }
}

/// Where a name in the outermost declarations of a block leads.
#[tactic(auto, unfolding(crate::specs::Paths::outermost_path_end, crate::specs::Members::component_of_name))]
pub(crate) fn outermost(
    layouts: &[BlockLayout],
    block: usize,
    temporary: bool,
    offset: u64,
    name: &[u8],
) -> PathEnd
    requires { offset ≤ largest_size }
    ensures value { result ≡ outermost_path_end layouts.now block temporary offset name.now }
    ensures near { OffsetIsNear result }
{
    match layout_at(layouts, block, temporary) {
        None => PathEnd::Unknown,
        Some(layout) => {
            let found = layout.outermost(name);
            path_end_at_member(layout, block, temporary, 0, offset, found)
        }
    }
}

pub(crate) fn is_used_up(cell: &Cell, depth: usize) -> bool
    ensures { result ≡ nat_eq depth (length cell.now.bounds) }
{
    depth == cell.bounds.len()
}

/// Where a name behind a component leads, by its declaration.
fn path_end_in_component(
    layouts: &[BlockLayout],
    layout: &Layout,
    component: ComponentAt,
    name: &[u8],
    cell: &Cell,
) -> PathEnd
    requires offset { component.offset ≤ largest_size }
    requires layout { layout.now ≡ cells_at layouts.now component.block component.temporary }
    requires cell { slice_get layout.now component.place ≡ Some cell.now }
    requires within { component.place + 1 < 2 ^ 64 }
    requires sound { cell.now.sound ≡ true }
    ensures value { result
        ≡ path_end_in_component layouts.now component name.now cell.now cell.now.of }
    ensures near { OffsetIsNear result }
{
    match cell.of {
        Element::Structure => {
            let found = layout.inner(component.place, name);
            path_end_at_member(
                layout,
                component.block,
                component.temporary,
                component.place + 1,
                component.offset,
                found,
            )
        }
        Element::Udt { block, .. } => outermost(layouts, block, false, component.offset, name),
        _ => PathEnd::Unknown,
    }
}

/// Where a name leads from a component.
#[tactic(auto, unfolding(crate::specs::Paths::path_end_by_name))]
fn path_end_by_name(layouts: &[BlockLayout], component: ComponentAt, name: &[u8]) -> PathEnd
    requires offset { component.offset ≤ largest_size }
    requires sound { IsSoundAt layouts.now component }
    ensures value { result ≡ path_end_by_name layouts.now component name.now }
    ensures near { OffsetIsNear result }
{
    let Some(layout) = layout_at(layouts, component.block, component.temporary) else {
        return PathEnd::Unknown;
    };
    let Some(cell) = layout.cell_at(component.place) else {
        return PathEnd::Unknown;
    };
    if !is_used_up(cell, component.depth) {
        return PathEnd::Unknown;
    }
    path_end_in_component(layouts, layout, component, name, cell)
}

pub(crate) fn bounds_at(bounds: &[Bounds], depth: usize) -> Option<Bounds>
    ensures value { result ≡ slice_get bounds.now depth }
    ensures within { IfSome result (λ _. depth < length bounds.now) }
{
    if depth < bounds.len() {
        Some(bounds[depth])
    } else {
        None
    }
}

pub(crate) fn bounds_behind(bounds: &[Bounds], depth: usize) -> &[Bounds]
    requires { depth < length bounds.now }
    ensures { result.now ≡ drop (depth + 1) bounds.now }
{
    &bounds[depth + 1..]
}

/// An index behind a component of a block.
fn path_end_behind_index(layout: &Layout, component: ComponentAt, at: i32) -> PathEnd
    requires { component.offset ≤ largest_size }
    ensures value { result
        ≡ path_end_behind_index component layout.now at (slice_get layout.now component.place) }
    ensures near { OffsetIsNear result }
{
    let Some(cell) = layout.cell_at(component.place) else {
        return PathEnd::Unknown;
    };
    let Some(bounds) = bounds_at(cell.bounds.as_slice(), component.depth) else {
        return PathEnd::Unknown;
    };
    if at < bounds.low || bounds.high < at {
        return PathEnd::Reaches {
            component: ComponentAt {
                depth: component.depth + 1,
                ..component
            },
        };
    }
    let element = layout.element_at(component.place);
    let inner = array_bits(
        bounds_behind(cell.bounds.as_slice(), component.depth),
        element,
    );
    let gone = at.abs_diff(bounds.low) as u64 * inner;
    PathEnd::Reaches {
        component: ComponentAt {
            block: component.block,
            temporary: component.temporary,
            place: component.place,
            depth: component.depth + 1,
            offset: capped_size(component.offset + capped_size(gone)),
        },
    }
}

/// Where an index leads from a component.
#[tactic(auto, unfolding(crate::specs::Paths::path_end_by_index))]
fn path_end_by_index(layouts: &[BlockLayout], component: ComponentAt, at: i32) -> PathEnd
    requires { component.offset ≤ largest_size }
    ensures value { result ≡ path_end_by_index layouts.now component at }
    ensures near { OffsetIsNear result }
{
    match layout_at(layouts, component.block, component.temporary) {
        None => PathEnd::Unknown,
        Some(layout) => path_end_behind_index(layout, component, at),
    }
}

/// Where a step of a path leads from a component.
#[tactic(auto, unfolding(crate::specs::Paths::path_end_by_step))]
pub(crate) fn step(layouts: &[BlockLayout], component: ComponentAt, step: &PathStep) -> PathEnd
    requires offset { component.offset ≤ largest_size }
    requires sound { IsSoundAt layouts.now component }
    ensures value { result ≡ path_end_by_step layouts.now component step.now }
    ensures near { OffsetIsNear result }
{
    match step {
        PathStep::Named { name } => path_end_by_name(layouts, component, name.as_bytes()),
        PathStep::Index { at } => path_end_by_index(layouts, component, *at),
    }
}

/// Where a path leads from a sound component.
#[tactic(auto, using(crate::proofs::WalkLemmas::step_sound))]
fn walk_behind(layouts: &[BlockLayout], start: ComponentAt, path: &[PathStep]) -> PathEnd
    requires offset { start.offset ≤ largest_size }
    requires sound { IsSoundAt layouts.now start }
    ensures value { result ≡ path_end_behind layouts.now start path.now }
    ensures near { OffsetIsNear result }
{
    let mut component = start;
    for next in path {
        match step(layouts, component, next) {
            PathEnd::Reaches { component: reached } => component = reached,
            other => return other,
        }
    }
    PathEnd::Reaches { component }
}

/// Where a path leads from a component that was looked up.
#[tactic(auto, using(crate::proofs::WalkLemmas::goes_to))]
pub(crate) fn walk_on(layouts: &[BlockLayout], found: PathEnd, path: &[PathStep]) -> PathEnd
    requires near { OffsetIsNear found }
    requires sound { ReachesSound layouts.now found }
    ensures value { result
        ≡ path_end_and_then found (λ component. path_end_behind layouts.now component path.now) }
    ensures near { OffsetIsNear result }
{
    match found {
        PathEnd::Reaches { component } => walk_behind(layouts, component, path),
        other => other,
    }
}

/// Where a path leads in the outermost declarations of a block.
#[tactic(auto, using(crate::proofs::WalkLemmas::outermost_reaches))]
pub(crate) fn walk_from(
    layouts: &[BlockLayout],
    block: usize,
    temporary: bool,
    path: &[PathStep],
) -> PathEnd
    ensures value { result ≡ path_end_in_block layouts.now block temporary path.now }
    ensures near { OffsetIsNear result }
{
    match path {
        [PathStep::Named { name }, behind @ ..] => {
            let found = outermost(layouts, block, temporary, 0, name.as_bytes());
            walk_on(layouts, found, behind)
        }
        _ => PathEnd::Unknown,
    }
}
