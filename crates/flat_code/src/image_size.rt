//! Whether the image of a program is short enough.
ghost use Rattle.std.specs.Prelude.{◌≡◌, ◌+◌, ◌≤◌, ◌*◌, ◌<◌, nat_le, sum_by, IfSome, IfNone};
ghost use Rattle.flat_code.specs.Checking.{records_size, data_size, image_size, name_size};

use crate::good_blocks::code_len;
use crate::names::NameEntry;
use crate::programs::{CodeBlock, DataBlock};

/// What is left of so many bytes behind a number of bytes.
fn room_behind(room: u32, len: usize) -> Option<u32>
    ensures some { IfSome result (λ left. left + len ≡ room) }
    ensures none { IfNone result (room < len) }
{
    if (room as usize) < len {
        return None;
    }
    Some(room - len as u32)
}

/// What is left of so many bytes behind the lines of a block.
fn room_behind_lines(room: u32, count: usize) -> Option<u32>
    ensures some { IfSome result (λ left. left + 4 * count ≡ room) }
    ensures none { IfNone result (room < 4 * count) }
{
    if room as usize / 4 < count {
        return None;
    }
    Some(room - 4 * count as u32)
}

/// What is left of so many bytes behind a code block.
fn room_behind_block(room: u32, block: &CodeBlock) -> Option<u32>
    ensures some { IfSome result (λ left. left + records_size block.now ≡ room) }
    ensures none { IfNone result (room < records_size block.now) }
{
    let room = room_behind(room, 16 + 6 * block.params.as_slice().len())?;
    let room = room.checked_sub(code_len(block.code.as_slice())?)?;
    room_behind_lines(room, block.lines.len())
}

fn room_behind_blocks(room: u32, blocks: &[CodeBlock]) -> Option<u32>
    ensures some { IfSome result (λ left. left + sum_by records_size blocks.now ≡ room) }
    ensures none { IfNone result (room < sum_by records_size blocks.now) }
{
    let mut room = room;
    for block in blocks {
        room = room_behind_block(room, block)?;
    }
    Some(room)
}

/// What is left of so many bytes behind a data block.
fn room_behind_data_block(room: u32, block: &DataBlock) -> Option<u32>
    ensures some { IfSome result (λ left. left + data_size block.now ≡ room) }
    ensures none { IfNone result (room < data_size block.now) }
{
    let room = room.checked_sub(8)?;
    room_behind(room, block.bytes.len())
}

fn room_behind_data_blocks(room: u32, blocks: &[DataBlock]) -> Option<u32>
    ensures some { IfSome result (λ left. left + sum_by data_size blocks.now ≡ room) }
    ensures none { IfNone result (room < sum_by data_size blocks.now) }
{
    let mut room = room;
    for block in blocks {
        room = room_behind_data_block(room, block)?;
    }
    Some(room)
}

/// What is left of so many bytes behind a name.
fn room_behind_name(room: u32, entry: &NameEntry) -> Option<u32>
    ensures some { IfSome result (λ left. left + name_size entry.now ≡ room) }
    ensures none { IfNone result (room < name_size entry.now) }
{
    let room = room.checked_sub(6)?;
    room_behind(room, entry.name.len())
}

fn room_behind_names(room: u32, entries: &[NameEntry]) -> Option<u32>
    ensures some { IfSome result (λ left. left + sum_by name_size entries.now ≡ room) }
    ensures none { IfNone result (room < sum_by name_size entries.now) }
{
    let mut room = room;
    for entry in entries {
        room = room_behind_name(room, entry)?;
    }
    Some(room)
}

/// What is left of the 8,388,608 bytes of an image.
fn room_behind_all(
    code_blocks: &[CodeBlock],
    data_blocks: &[DataBlock],
    names: &[NameEntry],
) -> Option<u32>
    ensures some { IfSome result (λ left. left + image_size (record {
      code_blocks = code_blocks.now;
      data_blocks = data_blocks.now;
      names = names.now;
    }) ≡ 8388608) }
    ensures none { IfNone result (8388608 < image_size (record {
      code_blocks = code_blocks.now;
      data_blocks = data_blocks.now;
      names = names.now;
    })) }
{
    let room = room_behind_blocks(8_388_608 - 20, code_blocks)?;
    let room = room_behind_data_blocks(room, data_blocks)?;
    room_behind_names(room, names)
}

/// Whether the image has at most 8,388,608 bytes.
pub(crate) fn is_short(
    code_blocks: &[CodeBlock],
    data_blocks: &[DataBlock],
    names: &[NameEntry],
) -> bool
    ensures { result ≡ nat_le (image_size (record {
      code_blocks = code_blocks.now;
      data_blocks = data_blocks.now;
      names = names.now;
    })) 8388608 }
{
    room_behind_all(code_blocks, data_blocks, names).is_some()
}
