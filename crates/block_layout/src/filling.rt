ghost use Rattle.std.specs.Prelude.{◌≡◌, ◌≤◌, ◌+◌, ◌&&◌, ◌∷◌, ◌++◌, [], IfOk, length, nat_eq};
ghost use Rattle.std.specs.List.{flat_map, fold, slice_get};
ghost use Rattle.block_layout.specs.InitialBytes.{
  cell_writes,
  element_starts,
  initial_bytes,
  length_at,
  preset_values,
  bytes_with_write,
  setting_write,
  setting_writes,
  settings_at,
  structure_writes,
  type_writes,
  writes_at,
  writes_from,
};
ghost use Rattle.block_layout.specs.Paths.{folded_path, structure_of, path_end_in_data_block};
ghost use Rattle.block_layout.specs.Sizes.{elements_of, plain_bits, largest_size};

use crate::blocks::BlockLayout;
use crate::bytes::{put, put_values};
use crate::cells::{Cell, Element};
use crate::constants::bits_of;
use crate::layouts::{behind, numbers_behind};
use crate::measures::ROUNDS;
use crate::path_ends::{PathEnd, layout_at};
use crate::paths::Path;
use crate::routes::{elementary_at, structure_of, walk_data};
use crate::sizes::{array_bits, end_behind_cell};
use crate::starts::{component_starts, element_starts, filled_starts, preset_values};
use std::alloc::{AllocError, Global};
use stl_ast::{Block, Setting, Simple};

/// Whether a cell is a sound component at this level.
fn is_component(cell: &Cell, level: u64) -> bool
    ensures { result ≡ (cell.now.sound && nat_eq cell.now.level level) }
{
    cell.sound && cell.level as u64 == level
}

/// Writes the initial values of a component of an elementary type, or of an array of one, that
/// begins at each of these places.
fn put_plain(
    alloc: Global,
    bytes: &mut [u8],
    kind: Simple,
    cell: &Cell,
    element: u64,
    starts: &[u64],
) -> Result<(), AllocError>
    requires { element ≤ largest_size }
    ensures { IfOk result (λ _. bytes.new ≡ fold bytes_with_write bytes.old (flat_map
        (λ s. writes_at (plain_bits kind) (element_starts cell.now.bounds element (s ∷ []))
        (preset_values cell.now.presets)) starts.now)) }
{
    let values = preset_values(alloc, cell.presets.as_slice())?;
    for start in starts {
        let offsets = element_starts(alloc, cell.bounds.as_slice(), element, &[*start])?;
        put_values(bytes, kind, offsets.as_slice(), values.as_slice());
    }
    Ok(())
}

/// Writes the initial values of a cell, if it is a sound component at this level, of structures
/// that begin at these places. `behind` has the cells behind it, and `elements` the bits of an
/// element of each of those.
#[cycle(filling)]
fn put_cell(
    alloc: Global,
    layouts: &[BlockLayout],
    bytes: &mut [u8],
    depth: u32,
    cell: &Cell,
    element: u64,
    behind: &[Cell],
    elements: &[u64],
    level: u64,
    at: u64,
    starts: &[u64],
) -> Result<(), AllocError>
    requires element { element ≤ largest_size }
    requires elements { elements.now ≡ elements_of behind.now }
    requires near { at ≤ largest_size }
    ensures { IfOk result (λ _. bytes.new ≡ fold bytes_with_write bytes.old (cell_writes
        (λ inner. writes_from (type_writes layouts.now depth) (cell.now.level + 1) inner 0
        behind.now) (type_writes layouts.now depth) level at starts.now cell.now element)) }
{
    if !is_component(cell, level) {
        return Ok(());
    }
    let begun = component_starts(alloc, at, cell, starts)?;
    match cell.of {
        Element::Plain { kind } => {
            put_plain(alloc, bytes, kind, cell, element, begun.as_slice())
        }
        Element::Structure => {
            let inner = filled_starts(alloc, cell.bounds.as_slice(), element, begun.as_slice())?;
            put_from(
                alloc,
                layouts,
                bytes,
                depth,
                behind,
                elements,
                cell.level as u64 + 1,
                inner.as_slice(),
            )
        }
        Element::Udt { block, .. } => {
            let inner = filled_starts(alloc, cell.bounds.as_slice(), element, begun.as_slice())?;
            put_type(alloc, layouts, bytes, depth, block, inner.as_slice())
        }
        _ => Ok(()),
    }
}

/// Writes the initial values of the components at a level, of structures that begin at these
/// places.
#[cycle(filling)]
fn put_from(
    alloc: Global,
    layouts: &[BlockLayout],
    bytes: &mut [u8],
    depth: u32,
    cells: &[Cell],
    elements: &[u64],
    level: u64,
    starts: &[u64],
) -> Result<(), AllocError>
    requires { elements.now ≡ elements_of cells.now }
    ensures { IfOk result (λ _. bytes.new ≡ fold bytes_with_write bytes.old
        (writes_from (type_writes layouts.now depth) level starts.now 0 cells.now)) }
{
    let mut at = 0;
    for i in 0..cells.len() {
        let cell = &cells[i];
        if (cell.level as u64) < level {
            return Ok(());
        }
        put_cell(
            alloc,
            layouts,
            bytes,
            depth,
            cell,
            elements[i],
            behind(cells, i + 1),
            numbers_behind(elements, i + 1),
            level,
            at,
            starts,
        )?;
        let bits = array_bits(cell.bounds.as_slice(), elements[i]);
        at = end_behind_cell(at, cell, bits, level);
    }
    Ok(())
}

/// Writes the initial values of structures of a block that begin at these places.
#[cycle(filling)]
fn put_type(
    alloc: Global,
    layouts: &[BlockLayout],
    bytes: &mut [u8],
    depth: u32,
    block: usize,
    starts: &[u64],
) -> Result<(), AllocError>
    ensures { IfOk result (λ _. bytes.new
        ≡ fold bytes_with_write bytes.old (type_writes layouts.now depth block starts.now)) }
{
    if depth == 0 {
        return Ok(());
    }
    let Some(layout) = layout_at(layouts, block, false) else {
        return Ok(());
    };
    put_from(
        alloc,
        layouts,
        bytes,
        depth - 1,
        layout.cells(),
        layout.elements(),
        0,
        starts,
    )?;
    Ok(())
}

/// Writes the initial values of the structure of a data block.
fn put_structure(
    alloc: Global,
    layouts: &[BlockLayout],
    block: usize,
    bytes: &mut [u8],
) -> Result<(), AllocError>
    ensures { IfOk result (λ _. bytes.new
        ≡ fold bytes_with_write bytes.old
        (structure_writes layouts.now (structure_of layouts.now block))) }
{
    match structure_of(layouts, block) {
        None => Ok(()),
        Some(shape) => put_type(alloc, layouts, bytes, ROUNDS, shape, &[0]),
    }
}

fn put_setting(
    alloc: Global,
    layouts: &[BlockLayout],
    block: usize,
    setting: &Setting,
    bytes: &mut [u8],
) -> Result<(), AllocError>
    ensures { IfOk result (λ _. bytes.new
        ≡ fold bytes_with_write bytes.old (setting_write layouts.now
        setting.now.value
        (path_end_in_data_block layouts.now block (folded_path setting.now.path)))) }
{
    let path = Path::new(alloc, setting.path.as_slice())?;
    match walk_data(layouts, block, path.steps()) {
        PathEnd::Reaches { component } => {
            if let Some(kind) = elementary_at(layouts, component) {
                put(bytes, kind, component.offset, bits_of(&setting.value));
            }
            Ok(())
        }
        _ => Ok(()),
    }
}

/// Writes the settings of a data block.
fn put_settings(
    alloc: Global,
    layouts: &[BlockLayout],
    block: usize,
    settings: &[Setting],
    bytes: &mut [u8],
) -> Result<(), AllocError>
    ensures { IfOk result (λ _. bytes.new
        ≡ fold bytes_with_write bytes.old (setting_writes layouts.now block settings.now)) }
{
    for setting in settings {
        put_setting(alloc, layouts, block, setting, bytes)?;
    }
    Ok(())
}

fn length_at(layouts: &[BlockLayout], block: usize) -> u64
    ensures { result ≡ length_at (slice_get layouts.now block) }
{
    match layouts.get(block) {
        None => 0,
        Some(found) => found.length,
    }
}

fn settings_at(blocks: &[Block], block: usize) -> &[Setting]
    ensures { result.now ≡ settings_at (slice_get blocks.now block) }
{
    match blocks.get(block) {
        None => &[],
        Some(found) => found.settings.as_slice(),
    }
}

/// Writes the initial values of a data block and then its settings.
fn put_all(
    alloc: Global,
    layouts: &[BlockLayout],
    blocks: &[Block],
    block: usize,
    bytes: &mut [u8],
) -> Result<(), AllocError>
    ensures { IfOk result (λ _. bytes.new ≡ fold bytes_with_write bytes.old
        (structure_writes layouts.now (structure_of layouts.now block)
        ++ setting_writes layouts.now block (settings_at (slice_get blocks.now block)))) }
{
    put_structure(alloc, layouts, block, bytes)?;
    put_settings(alloc, layouts, block, settings_at(blocks, block), bytes)?;
    Ok(())
}

/// The initial bytes of the data block at this place in the source.
pub(crate) fn initial_bytes(
    alloc: Global,
    layouts: &[BlockLayout],
    blocks: &[Block],
    block: usize,
) -> Result<Vec<u8>, AllocError>
    ensures value { IfOk result (λ v. v.items ≡ initial_bytes layouts.now blocks.now block) }
    ensures len { IfOk result (λ v. length v.items ≡ length_at (slice_get layouts.now block)) }
{
    let len = length_at(layouts, block) as usize;
    let mut bytes = vec![in alloc; 0; len]?;
    put_all(alloc, layouts, blocks, block, bytes.as_mut_slice())?;
    Ok(bytes)
}
