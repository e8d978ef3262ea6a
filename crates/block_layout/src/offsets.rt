ghost use Rattle.std.specs.Prelude.{◌≡◌, Some};
ghost use Rattle.std.specs.Option.{option_and_then};
ghost use Rattle.plc_base.specs.Kinds.{is_code, is_function_block};
ghost use Rattle.block_layout.specs.Offsets.{component_place, place_in_section, elementary_place, place_at_path_end, variable_place, width_of};
ghost use Rattle.block_layout.specs.Paths.{if_whole};

use crate::beyond::{leaves_from, leaves_structure};
use crate::blocks::{BlockLayout, Section};
use crate::path_ends::{PathEnd, walk_from};
use crate::routes::{elementary_at, if_whole, structure_of, walk_data};
use plc_base::{Area, BlockId, Place, Width};
use stl_ast::{PathStep, Simple};

/// The width of an elementary type.
pub fn width_of(kind: Simple) -> Width
    ensures { result ≡ width_of kind }
{
    match kind {
        Simple::Bool => Width::Bit,
        Simple::Byte | Simple::Char => Width::Byte,
        Simple::Word | Simple::Int | Simple::S5time => Width::Word,
        Simple::Dword | Simple::Dint | Simple::Time => Width::Dword,
    }
}

/// The place so many bits from the start of an area or a data block, and the width of a type there;
/// none that is past the 65,536th byte.
pub fn elementary_place(area: Area, number: u16, bits: u64, kind: Simple) -> Option<(Place, Width)>
    ensures { result ≡ elementary_place area number bits (Some kind) }
{
    let byte = bits / 8;
    if byte <= 65_535 {
        let place = Place {
            area,
            number,
            byte: byte as u16,
            bit: (bits % 8) as u8,
        };
        Some((place, width_of(kind)))
    } else {
        None
    }
}

fn place_at_path_end(
    layouts: &[BlockLayout],
    area: Area,
    number: u16,
    path_end: PathEnd,
) -> Option<(Place, Width)>
    ensures { result ≡ place_at_path_end layouts.now area number path_end }
{
    match path_end {
        PathEnd::Reaches { component } => {
            let kind = elementary_at(layouts, component)?;
            elementary_place(area, number, component.offset, kind)
        }
        _ => None,
    }
}

/// A component of a data block.
fn component(
    layouts: &[BlockLayout],
    number: u16,
    block: usize,
    path: &[PathStep],
) -> Option<(Place, Width)>
    ensures { result ≡ component_place layouts.now number block path.now }
{
    if leaves_structure(layouts, structure_of(layouts, block), path) {
        None
    } else {
        let path_end = walk_data(layouts, block, path);
        place_at_path_end(layouts, Area::Db, number, path_end)
    }
}

/// A variable of a code block, which lies in this area.
fn variable(
    layouts: &[BlockLayout],
    area: Area,
    block: usize,
    temporary: bool,
    path: &[PathStep],
) -> Option<(Place, Width)>
    ensures { result ≡ variable_place layouts.now area block temporary path.now }
{
    if leaves_from(layouts, block, temporary, path) {
        None
    } else {
        let path_end = walk_from(layouts, block, temporary, path);
        place_at_path_end(layouts, area, 0, path_end)
    }
}

fn offset_in(
    layouts: &[BlockLayout],
    id: BlockId,
    section: Section,
    path: &[PathStep],
    block: usize,
) -> Option<(Place, Width)>
    ensures { result ≡ place_in_section layouts.now id section path.now block }
{
    match section {
        Section::Global if id.kind.is_data_block() => component(layouts, id.number, block, path),
        Section::Instance if id.kind.is_function_block() => {
            variable(layouts, Area::Di, block, false, path)
        }
        Section::Temp if id.kind.is_code() => variable(layouts, Area::L, block, true, path),
        _ => None,
    }
}

/// The place and the width of the elementary component that a path in a block names; `known` is the
/// place of the block in the source.
pub(crate) fn offset(
    layouts: &[BlockLayout],
    known: Option<usize>,
    id: BlockId,
    section: Section,
    path: &[PathStep],
) -> Option<(Place, Width)>
    ensures { result ≡ option_and_then (place_in_section layouts.now id section path.now)
        (option_and_then (if_whole layouts.now) known) }
{
    let block = if_whole(layouts, known?)?;
    offset_in(layouts, id, section, path, block)
}
