ghost use Rattle.block_layout.specs.Sizes.{largest_size};
ghost use Rattle.std.specs.Prelude.{◌≡◌, ◌≤◌, ◌++◌, IfOk, replicate};
ghost use Rattle.std.specs.List.{flat_map};
ghost use Rattle.block_layout.specs.InitialBytes.{
  component_starts,
  element_starts,
  filled_starts,
  in_steps,
  preset_values,
};

use crate::cells::{Cell, Preset};
use crate::path_ends::bounds_behind;
use crate::sizes::{alignment, array_bits, capped_size, count, up};
use std::alloc::{AllocError, Global};
use stl_ast::Bounds;

/// Adds so many places, of which each is a step behind the one before it.
fn add_steps(step: u64, count: u64, start: u64, places: &mut Vec<u64>) -> Result<(), AllocError>
    ensures { IfOk result (λ _. places.new.items
        ≡ places.old.items ++ in_steps step count start) }
{
    for k in 0..count {
        let gone = capped_size(k.saturating_mul(step));
        places.push(capped_size(start.saturating_add(gone)))?;
    }
    Ok(())
}

fn spread(alloc: Global, step: u64, count: u64, starts: &[u64]) -> Result<Vec<u64>, AllocError>
    ensures { IfOk result (λ v. v.items ≡ flat_map (in_steps step count) starts.now) }
{
    let mut places = Vec::new(alloc);
    for start in starts {
        add_steps(step, count, *start, &mut places)?;
    }
    Ok(places)
}

/// Where the elements of arrays begin that themselves begin at these places.
pub(crate) fn element_starts(
    alloc: Global,
    bounds: &[Bounds],
    element: u64,
    starts: &[u64],
) -> Result<Vec<u64>, AllocError>
    requires { element ≤ largest_size }
    ensures { IfOk result (λ v. v.items ≡ element_starts bounds.now element starts.now) }
{
    let mut places = starts.to_vec(alloc)?;
    for depth in 0..bounds.len() {
        let step = array_bits(bounds_behind(bounds, depth), element);
        places = spread(alloc, step, count(&bounds[depth]), places.as_slice())?;
    }
    Ok(places)
}

/// Where the elements of arrays begin that themselves begin at these places; none for elements of
/// no bits, which hold no values.
pub(crate) fn filled_starts(
    alloc: Global,
    bounds: &[Bounds],
    element: u64,
    starts: &[u64],
) -> Result<Vec<u64>, AllocError>
    requires { element ≤ largest_size }
    ensures { IfOk result (λ v. v.items ≡ filled_starts bounds.now element starts.now) }
{
    if element == 0 {
        Ok(Vec::new(alloc))
    } else {
        element_starts(alloc, bounds, element, starts)
    }
}

/// Where a component begins in structures that begin at these places.
pub(crate) fn component_starts(
    alloc: Global,
    at: u64,
    cell: &Cell,
    starts: &[u64],
) -> Result<Vec<u64>, AllocError>
    requires { at ≤ largest_size }
    ensures { IfOk result (λ v. v.items ≡ component_starts at cell.now starts.now) }
{
    let first = up(at, alignment(cell));
    let mut places = Vec::with_capacity(alloc, starts.len())?;
    for start in starts {
        places.push(capped_size(start.saturating_add(first)))?;
    }
    Ok(places)
}

fn add_repeated(count: u16, value: u32, values: &mut Vec<u32>) -> Result<(), AllocError>
    ensures { IfOk result (λ _. values.new.items ≡ values.old.items ++ replicate count value) }
{
    for _i in 0..count {
        values.push(value)?;
    }
    Ok(())
}

/// The initial values of a component, one after the other.
pub(crate) fn preset_values(alloc: Global, presets: &[Preset]) -> Result<Vec<u32>, AllocError>
    ensures { IfOk result (λ v. v.items ≡ preset_values presets.now) }
{
    let mut values = Vec::new(alloc);
    for preset in presets {
        add_repeated(preset.count, preset.value, &mut values)?;
    }
    Ok(values)
}
