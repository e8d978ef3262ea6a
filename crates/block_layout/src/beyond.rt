ghost use Rattle.block_layout.specs.Sizes.{largest_size};
ghost use Rattle.std.specs.Prelude.{◌≡◌, ◌≤◌, Some};
ghost use Rattle.std.specs.List.{slice_get};
ghost use Rattle.block_layout.specs.Paths.{
  IsSoundAt,
  OffsetIsNear,
  ReachesSound,
  cells_at,
  holds_where_reached,
  is_beyond,
  is_beyond_in,
  is_checkable,
  leaves_array,
  leaves_from,
  leaves_structure,
  leaves_local,
  leaves_sections,
  step_is_beyond,
};

use crate::blocks::BlockLayout;
use crate::cells::Cell;
use crate::path_ends::{ComponentAt, PathEnd, bounds_at, layout_at, outermost, step, walk_from};
use crate::routes::{in_sections, walk_local};
use stl_ast::{Bounds, PathStep};

/// Whether an index is outside these bounds.
pub(crate) fn is_beyond(bounds: &Bounds, at: i32) -> bool
    ensures { result ≡ is_beyond bounds.now at }
{
    at < bounds.low || bounds.high < at
}

fn is_beyond_in(cell: &Cell, depth: usize, at: i32) -> bool
    ensures { result ≡ is_beyond_in depth (Some cell.now) at }
{
    match bounds_at(cell.bounds.as_slice(), depth) {
        None => false,
        Some(bounds) => is_beyond(&bounds, at),
    }
}

fn index_is_beyond(layouts: &[BlockLayout], component: ComponentAt, at: i32) -> bool
    ensures { result ≡ is_beyond_in component.depth
        (slice_get (cells_at layouts.now component.block component.temporary) component.place) at }
{
    let Some(layout) = layout_at(layouts, component.block, component.temporary) else {
        return false;
    };
    match layout.cell_at(component.place) {
        None => false,
        Some(cell) => is_beyond_in(cell, component.depth, at),
    }
}

fn step_is_beyond(layouts: &[BlockLayout], component: ComponentAt, step: &PathStep) -> bool
    ensures { result ≡ step_is_beyond layouts.now component step.now }
{
    match step {
        PathStep::Named { .. } => false,
        PathStep::Index { at } => index_is_beyond(layouts, component, *at),
    }
}

/// Whether an index of a path is outside its array, from a sound component on.
#[tactic(auto, using(crate::proofs::WalkLemmas::step_sound))]
fn leaves(layouts: &[BlockLayout], start: ComponentAt, path: &[PathStep]) -> bool
    requires offset { start.offset ≤ largest_size }
    requires sound { IsSoundAt layouts.now start }
    ensures { result ≡ leaves_array layouts.now start path.now }
{
    let mut component = start;
    for next in path {
        if step_is_beyond(layouts, component, next) {
            return true;
        }
        match step(layouts, component, next) {
            PathEnd::Reaches { component: reached } => component = reached,
            _ => return false,
        }
    }
    false
}

/// Whether a path leaves an array behind a component that was looked up.
fn leaves_behind(layouts: &[BlockLayout], found: PathEnd, path: &[PathStep]) -> bool
    requires near { OffsetIsNear found }
    requires sound { ReachesSound layouts.now found }
    ensures { result
        ≡ holds_where_reached found (λ component. leaves_array layouts.now component path.now) }
{
    match found {
        PathEnd::Reaches { component } => leaves(layouts, component, path),
        _ => false,
    }
}

/// Whether a path in the outermost declarations of a block leaves an array.
#[tactic(auto, using(crate::proofs::WalkLemmas::outermost_reaches))]
pub(crate) fn leaves_from(
    layouts: &[BlockLayout],
    block: usize,
    temporary: bool,
    path: &[PathStep],
) -> bool
    ensures { result ≡ leaves_from layouts.now block temporary path.now }
{
    match path {
        [PathStep::Named { name }, behind @ ..] => {
            let found = outermost(layouts, block, temporary, 0, name.as_bytes());
            leaves_behind(layouts, found, behind)
        }
        _ => false,
    }
}

/// Whether a path can be checked by where it leads: it does not go through what breaks a rule
/// itself.
fn is_checkable(path_end: PathEnd) -> bool
    ensures { result ≡ is_checkable path_end }
{
    !matches!(path_end, PathEnd::Unjudged)
}

/// Whether a path leaves an array of the structure that this block declares, unless it goes
/// through what breaks a rule itself.
pub(crate) fn leaves_structure(
    layouts: &[BlockLayout],
    structure: Option<usize>,
    path: &[PathStep],
) -> bool
    ensures { result ≡ leaves_structure layouts.now structure path.now }
{
    match structure {
        None => false,
        Some(block) => {
            is_checkable(walk_from(layouts, block, false, path))
                && leaves_from(layouts, block, false, path)
        }
    }
}

fn leaves_sections(layouts: &[BlockLayout], block: usize, name: &[u8], path: &[PathStep]) -> bool
    ensures { result ≡ leaves_sections layouts.now block name.now path.now }
{
    let found = in_sections(layouts, block, name);
    leaves_behind(layouts, found, path)
}

/// Whether a path in the body of a block leaves an array of its own variables, where it is checked.
pub(crate) fn leaves_local(
    layouts: &[BlockLayout],
    block: usize,
    name: &[u8],
    path: &[PathStep],
) -> bool
    ensures { result ≡ leaves_local layouts.now block name.now path.now }
{
    is_checkable(walk_local(layouts, block, name, path))
        && leaves_sections(layouts, block, name, path)
}
