//! Whether the data blocks and the names of a program have no fault in their image.
ghost use Rattle.std.specs.Prelude.{◌≡◌, ◌+◌, ◌≤◌, [], true, length};
ghost use Rattle.flat_code.specs.Checking.{good_datas, good_names};
ghost use Rattle.flat_code.specs.Faults.{name_fault};
ghost use Rattle.flat_code.specs.Image.{bytes_fit, data_block_layout, data_length_layout, instance_field, name_len, name_of_entry, name_record, number_of_instance, plain_u16};
ghost use Rattle.flat_code.specs.Layout.{is_fine};

use crate::good_blocks::{is_fine, is_good_u8, is_good_u16};
use crate::image_fields::Field;
use crate::names::{NameEntry, ends_blank, is_name_before, is_upper_case};
use crate::programs::DataBlock;
use crate::record_numbers::number_of_area;

/// A law: bytes fit a field of their number.
fn law_of_bytes(bytes: &[u8])
    ensures { bytes_fit bytes.now ≡ true }
{}

/// A law: a number fits a field of its size.
#[tactic(auto, unfolding(crate::specs::Image::plain_u16))]
fn law_of_word(number: u16)
    ensures { plain_u16.good number ≡ true }
{}

/// Whether the number of an instance's function block has no fault.
#[tactic(auto, unfolding(crate::specs::Image::instance_field, crate::specs::Faults::field_fault))]
fn is_good_instance(instance_of: Option<u16>) -> bool
    ensures { result ≡ instance_field.good (number_of_instance instance_of) }
{
    match instance_of {
        None => true,
        Some(number) => number < 2048,
    }
}

/// Whether the length of a data block behind so many bytes of data blocks has no fault.
#[tactic(auto, unfolding(crate::specs::Image::data_length_layout, crate::specs::Faults::field_fault))]
fn is_good_len(before: u32, len: usize) -> bool
    ensures good { result ≡ (data_length_layout before).good len }
    ensures within { result ≡ true → before + len ≤ 2097152 }
{
    len <= 16_384 && before as usize + len <= 2_097_152
}

/// Whether a data block behind another's number (0 for none) and so many bytes of data blocks has
/// no fault.
#[tactic(auto, unfolding(crate::specs::Image::data_block_layout, crate::specs::Image::data_rows, crate::specs::Image::data_number_layout), using(crate::proofs::CheckLemmas::zero_word_good, crate::proofs::CheckLemmas::contents_good))]
fn is_good_data_block(before: u16, sum: u32, block: &DataBlock) -> bool
    ensures good { result ≡ (data_block_layout (before, sum)).good block.now }
    ensures within { result ≡ true → sum + length block.now.bytes ≤ 2097152 }
{
    law_of_bytes(block.bytes.as_slice());
    is_good_u16(
        block.number,
        Field::DataNumber {
            before,
            number: block.number,
        },
    ) && is_good_instance(block.instance_of)
        && is_good_len(sum, block.bytes.len())
}

/// Whether no data block has a fault.
pub(crate) fn are_good_data_blocks(blocks: &[DataBlock]) -> bool
    ensures { result ≡ good_datas (0, 0) blocks.now }
{
    let mut before = 0;
    let mut sum = 0;
    for block in blocks {
        if !is_good_data_block(before, sum, block) {
            return false;
        }
        before = block.number;
        sum += block.bytes.len() as u32;
    }
    true
}

/// Whether the bytes of a name behind another (empty for none) have no fault.
#[tactic(auto, unfolding(crate::specs::Faults::name_fault))]
fn is_good_text(before: &[u8], name: &[u8]) -> bool
    ensures { result ≡ is_fine (name_fault before.now name.now) }
{
    is_name_before(before, name) && is_upper_case(name) && !ends_blank(name)
}

#[tactic(auto, unfolding(crate::specs::Image::name_len))]
fn is_good_name_len(len: usize) -> bool
    ensures { result ≡ name_len.good len }
{
    len < 256 && is_fine(Field::NameLength { bytes: len as u8 })
}

/// Whether a name behind another (empty for none) has no fault.
#[tactic(auto, unfolding(crate::specs::Image::name_record, crate::specs::Image::name_rows, crate::specs::Image::name_area, crate::specs::Image::width_field, crate::specs::Image::name_bit), using(crate::proofs::CheckLemmas::text_good))]
fn is_good_name(before: &[u8], entry: &NameEntry) -> bool
    ensures { result ≡ (name_record before.now).good (name_of_entry entry.now) }
{
    let name = entry.name.as_slice();
    let area = number_of_area(&entry.place);
    let width = entry.width.number();
    law_of_bytes(name);
    law_of_word(entry.place.byte);
    is_good_name_len(name.len())
        && is_good_text(before, name)
        && is_good_u8(area, Field::NameArea { area })
        && is_good_u8(width, Field::Width { width })
        && is_good_u8(
            entry.place.bit,
            Field::NameBit {
                width,
                bit: entry.place.bit,
            },
        )
}

/// Whether no name has a fault.
pub(crate) fn are_good_names(entries: &[NameEntry]) -> bool
    ensures { result ≡ good_names [] entries.now }
{
    let mut before: &[u8] = &[];
    for entry in entries {
        if !is_good_name(before, entry) {
            return false;
        }
        before = entry.name.as_slice();
    }
    true
}
