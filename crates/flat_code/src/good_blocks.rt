//! Whether the code blocks of a program have no fault in their image.
ghost use Rattle.std.specs.Prelude.{◌≡◌, ◌≤◌, ◌&&◌, nat_lt, true, false, length, IfSome, IfNone};
ghost use Rattle.plc_base.specs.Kinds.{kind_number};
ghost use Rattle.flat_code.specs.Checking.{good_blocks, good_lines, good_params};
ghost use Rattle.flat_code.specs.Codes.{are_ops, code_bytes};
ghost use Rattle.flat_code.specs.Coding.{u8, u16};
ghost use Rattle.flat_code.specs.Faults.{field_fault};
ghost use Rattle.flat_code.specs.Image.{code_block_layout, head_layout, head_of_block, instance_bytes_layout, local_length_layout, parameter_layout, plain_u16, plain_u32, record_of_block, record_of_param, zero_u16};
ghost use Rattle.flat_code.specs.Layout.{is_fine};

use crate::image_fields::Field;
use crate::ops::Op;
use crate::programs::{CodeBlock, Param};

/// Whether a field has no fault.
pub(crate) fn is_fine(field: Field) -> bool
    ensures { result ≡ is_fine (field_fault field) }
{
    field.fault().is_none()
}

/// Whether a number in a field of one byte has no fault.
pub(crate) fn is_good_u8(number: u8, field: Field) -> bool
    ensures { result ≡ (u8.fits number && is_fine (field_fault field)) }
{
    number <= u8::MAX && is_fine(field)
}

/// Whether a number in a field of two bytes has no fault.
pub(crate) fn is_good_u16(number: u16, field: Field) -> bool
    ensures { result ≡ (u16.fits number && is_fine (field_fault field)) }
{
    number <= u16::MAX && is_fine(field)
}

/// How many bytes code takes; `None` where their number doesn't fit 32 bits.
#[tactic(auto, using(crate::proofs::CheckLemmas::left_code))]
pub(crate) fn code_len(ops: &[Op]) -> Option<u32>
    ensures len { IfSome result (λ n. n ≡ length (code_bytes ops.now)) }
    ensures ops { IfSome result (λ n. are_ops ops.now ≡ true) }
    ensures none { IfNone result (4294967296 ≤ length (code_bytes ops.now)) }
{
    let mut len = 0_u32;
    for op in ops {
        let Some(sum) = len.checked_add(op.size()) else {
            return None;
        };
        len = sum;
    }
    Some(len)
}

#[tactic(auto, unfolding(crate::specs::Image::parameter_layout, crate::specs::Image::parameter_rows, crate::specs::Image::section_field, crate::specs::Image::width_field, crate::specs::Image::parameter_byte, crate::specs::Image::parameter_bit), using(crate::proofs::CheckLemmas::zero_byte_good))]
fn is_good_parameter(kind: u8, instance: u16, param: &Param) -> bool
    ensures { result ≡ (parameter_layout kind instance).good (record_of_param param.now) }
{
    let width = param.width.number();
    is_good_u8(
        param.section,
        Field::Section {
            section: param.section,
        },
    ) && is_good_u8(width, Field::Width { width })
        && is_good_u16(
            param.byte,
            Field::ParameterByte {
                kind,
                instance,
                width,
                byte: param.byte,
            },
        )
        && is_good_u8(
            param.bit,
            Field::ParameterBit {
                kind,
                bit: param.bit,
            },
        )
}

fn are_good_parameters(kind: u8, instance: u16, params: &[Param]) -> bool
    ensures { result ≡ good_params kind instance params.now }
{
    for param in params {
        if !is_good_parameter(kind, instance, param) {
            return false;
        }
    }
    true
}

fn has_good_parameters(block: &CodeBlock) -> bool
    ensures { result
        ≡ good_params (kind_number block.now.id.kind) block.now.instance_len block.now.params }
{
    are_good_parameters(
        block.id.kind.number(),
        block.instance_len,
        block.params.as_slice(),
    )
}

/// Whether the number of lines fits its field. Every line fits its own.
fn are_few_lines(lines: &[u32]) -> bool
    ensures few { result ≡ nat_lt (length lines.now) 65536 }
    ensures lines { good_lines lines.now ≡ true }
{
    lines.len() < 65_536
}

/// Whether the length of code fits its field.
#[tactic(auto, unfolding(crate::specs::Image::plain_u32))]
fn is_good_code_len(ops: &[Op]) -> bool
    ensures good { result ≡ plain_u32.good (length (code_bytes ops.now)) }
    ensures ops { result ≡ true → are_ops ops.now ≡ true }
{
    code_len(ops).is_some()
}

/// Whether the lengths and the statement count in the head of a block have no fault.
#[tactic(auto, unfolding(crate::specs::Image::local_length_layout, crate::specs::Image::instance_bytes_layout, crate::specs::Image::plain_u16), using(crate::proofs::CheckLemmas::zero_word_good))]
fn are_good_lens(kind: u8, block: &CodeBlock) -> bool
    ensures good { result
        ≡ ((local_length_layout kind).good block.now.local_len
        && ((instance_bytes_layout kind).good block.now.instance_len
        && (plain_u16.good (length block.now.lines)
        && (zero_u16.good 0 && plain_u32.good (length (code_bytes block.now.code)))))) }
    ensures ops { result ≡ true → are_ops block.now.code ≡ true }
    ensures lines { good_lines block.now.lines ≡ true }
{
    let few_lines = are_few_lines(block.lines.as_slice());
    is_good_u16(
        block.local_len,
        Field::LocalBytes {
            kind,
            bytes: block.local_len,
        },
    ) && is_good_u16(
        block.instance_len,
        Field::InstanceBytes {
            kind,
            bytes: block.instance_len,
        },
    ) && few_lines
        && is_good_code_len(block.code.as_slice())
}

/// Whether the head of a block behind another (kind 0 for none) has no fault.
#[tactic(auto, unfolding(crate::specs::Image::head_layout, crate::specs::Image::head_rows, crate::specs::Image::kind_field, crate::specs::Image::parameter_count_layout, crate::specs::Image::block_number_layout))]
fn is_good_head(kind_before: u8, before: u16, block: &CodeBlock) -> bool
    ensures head { result
        ≡ (head_layout (kind_before, before)).good (head_of_block (record_of_block block.now)) }
    ensures ops { result ≡ true → are_ops block.now.code ≡ true }
    ensures lines { good_lines block.now.lines ≡ true }
{
    let kind = block.id.kind.number();
    let count = block.params.as_slice().len() as u8;
    let number = block.id.number;
    let lens = are_good_lens(kind, block);
    is_good_u8(
        kind,
        Field::Kind {
            before: kind_before,
            kind,
        },
    ) && is_good_u8(count, Field::ParameterCount { kind, count })
        && is_good_u16(
            number,
            Field::Number {
                kind_before,
                before,
                kind,
                number,
            },
        )
        && lens
}

/// Whether a block behind another (kind 0 for none) has no fault.
fn is_good_block(kind_before: u8, before: u16, block: &CodeBlock) -> bool
    ensures { result
        ≡ (code_block_layout false (kind_before, before)).good (record_of_block block.now) }
{
    let head = is_good_head(kind_before, before, block);
    let params = has_good_parameters(block);
    head && params
}

/// Kind and number of a block.
fn key_of(block: &CodeBlock) -> (u8, u16)
    ensures { result ≡ (kind_number block.now.id.kind, block.now.id.number) }
{
    (block.id.kind.number(), block.id.number)
}

/// Whether no code block has a fault.
pub(crate) fn are_good_blocks(blocks: &[CodeBlock]) -> bool
    ensures { result ≡ good_blocks (0, 0) blocks.now }
{
    let mut before = (0, 0);
    for block in blocks {
        if !is_good_block(before.0, before.1, block) {
            return false;
        }
        before = key_of(block);
    }
    true
}
