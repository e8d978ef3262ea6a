//! The image of a program: its records one behind the other, and the header in front of them.
ghost use Rattle.std.specs.Prelude.{◌≡◌, ◌++◌, ◌+◌, ◌≤◌, ◌<◌, false, [], map, length, All, IfOk, OnOk};
ghost use Rattle.flat_code.specs.Codes.{code_bytes};
ghost use Rattle.flat_code.specs.Image.{head_of_block, head_layout, counts_layout, counts_of, front_layout, front_of, records_of, record_of_block, record_of_param, name_of_entry, number_of_instance, front_size, parameter_layout, same_state, line_field, line_after, code_block_layout, after_block, data_block_layout, after_data, name_record, after_name, body_layout, image};
ghost use Rattle.flat_code.specs.Layout.{spell_many};
ghost use Rattle.flat_code.specs.declared.stamps.Stamp.TheVariants as stamps;
ghost use Rattle.image_file.specs.Running.{head_values};
ghost use Rattle.image_file.specs.Writing.{BlockFitsFields, DataFitsFields, NameFitsField, ProgramFitsFields};

use crate::records::HeadRead;
use flat_code::{
    CodeBlock, DataBlock, NameEntry, Op, Param, Program, Stamp, encode_op, number_of_area,
};
use plc_base::{NoMemory, Profile};
use std::alloc::Global;

/// The number of the function block of an instance plus 1, or 0.
fn instance_number(instance_of: Option<u16>) -> u16
    requires { number_of_instance instance_of < 65536 }
    ensures { result ≡ number_of_instance instance_of }
{
    match instance_of {
        None => 0,
        Some(number) => number + 1,
    }
}

/// How many bytes code takes.
pub(crate) fn code_len(ops: &[Op]) -> u32
    requires { length (code_bytes ops.now) < 4294967296 }
    ensures { result ≡ length (code_bytes ops.now) }
{
    let mut len = 0;
    for op in ops {
        len += op.size();
    }
    len
}

#[tactic(auto, unfolding(flat_code::specs::Image::parameter_layout, flat_code::specs::Image::parameter_rows, flat_code::specs::Image::section_field, flat_code::specs::Image::width_field, flat_code::specs::Image::parameter_byte, flat_code::specs::Image::parameter_bit, flat_code::specs::Image::zero_u8))]
fn put_parameter(out: &mut Vec<u8>, param: &Param) -> Result<(), NoMemory>
    ensures { OnOk result (out.new.items
        ≡ out.old.items ++ (parameter_layout 0 0).spell (record_of_param param.now)) }
{
    let [a, b] = param.byte.to_be_bytes();
    out.extend_from_slice(&[param.section, param.width.number(), a, b, param.bit, 0])
}

fn put_parameters(out: &mut Vec<u8>, params: &[Param]) -> Result<(), NoMemory>
    ensures { OnOk result (out.new.items
        ≡ out.old.items ++ spell_many
        (λ s. parameter_layout 0 0) same_state 0 (map record_of_param params.now)) }
{
    for param in params {
        put_parameter(out, param)?;
    }
    Ok(())
}

fn put_code(out: &mut Vec<u8>, ops: &[Op]) -> Result<(), NoMemory>
    ensures { OnOk result (out.new.items ≡ out.old.items ++ code_bytes ops.now) }
{
    for op in ops {
        encode_op(op, out)?;
    }
    Ok(())
}

fn put_lines(out: &mut Vec<u8>, lines: &[u32]) -> Result<(), NoMemory>
    ensures { OnOk result (out.new.items
        ≡ out.old.items ++ spell_many (line_field false) line_after 0 lines.now) }
{
    for line in lines {
        out.extend_from_slice(&line.to_be_bytes())?;
    }
    Ok(())
}

/// The head of a code block.
fn head_of(block: &CodeBlock) -> HeadRead
    requires { BlockFitsFields block.now }
    ensures { head_values result ≡ head_of_block (record_of_block block.now) }
{
    HeadRead {
        kind: block.id.kind.number(),
        parameter_count: block.params.as_slice().len() as u8,
        number: block.id.number,
        local_bytes: block.local_len,
        instance_bytes: block.instance_len,
        statement_count: block.lines.len() as u16,
        reserved: 0,
        code_length: code_len(block.code.as_slice()),
    }
}

#[tactic(auto, unfolding(flat_code::specs::Image::head_layout, flat_code::specs::Image::head_rows, flat_code::specs::Image::kind_field, flat_code::specs::Image::parameter_count_layout, flat_code::specs::Image::block_number_layout, flat_code::specs::Image::local_length_layout, flat_code::specs::Image::instance_bytes_layout, flat_code::specs::Image::plain_u16, flat_code::specs::Image::zero_u16, flat_code::specs::Image::plain_u32))]
fn put_head(out: &mut Vec<u8>, head: &HeadRead) -> Result<(), NoMemory>
    ensures { OnOk result (out.new.items
        ≡ out.old.items ++ (head_layout (0, 0)).spell (head_values head.now)) }
{
    let [a, b] = head.number.to_be_bytes();
    let [c, d] = head.local_bytes.to_be_bytes();
    let [e, f] = head.instance_bytes.to_be_bytes();
    let [g, h] = head.statement_count.to_be_bytes();
    let [i, j] = head.reserved.to_be_bytes();
    let [k, l, m, n] = head.code_length.to_be_bytes();
    out.extend_from_slice(&[
        head.kind,
        head.parameter_count,
        a,
        b,
        c,
        d,
        e,
        f,
        g,
        h,
        i,
        j,
        k,
        l,
        m,
        n,
    ])
}

fn put_code_block(out: &mut Vec<u8>, block: &CodeBlock) -> Result<(), NoMemory>
    requires { BlockFitsFields block.now }
    ensures { OnOk result (out.new.items
        ≡ out.old.items ++ (code_block_layout false (0, 0)).spell (record_of_block block.now)) }
{
    put_head(out, &head_of(block))?;
    put_parameters(out, block.params.as_slice())?;
    put_code(out, block.code.as_slice())?;
    put_lines(out, block.lines.as_slice())?;
    Ok(())
}

fn put_code_blocks(out: &mut Vec<u8>, blocks: &[CodeBlock]) -> Result<(), NoMemory>
    requires { All BlockFitsFields blocks.now }
    ensures { OnOk result (out.new.items
        ≡ out.old.items ++ spell_many
        (code_block_layout false) after_block (0, 0) (map record_of_block blocks.now)) }
{
    for block in blocks {
        put_code_block(out, block)?;
    }
    Ok(())
}

#[tactic(auto, unfolding(flat_code::specs::Image::data_block_layout, flat_code::specs::Image::data_rows, flat_code::specs::Image::data_number_layout, flat_code::specs::Image::instance_field, flat_code::specs::Image::data_length_layout, flat_code::specs::Image::zero_u16, flat_code::specs::Image::contents_layout))]
fn put_data_block(out: &mut Vec<u8>, block: &DataBlock) -> Result<(), NoMemory>
    requires { DataFitsFields block.now }
    ensures { OnOk result (out.new.items
        ≡ out.old.items ++ (data_block_layout (0, 0)).spell block.now) }
{
    let [a, b] = block.number.to_be_bytes();
    let [c, d] = instance_number(block.instance_of).to_be_bytes();
    let [e, f] = (block.bytes.len() as u16).to_be_bytes();
    out.extend_from_slice(&[a, b, c, d, e, f, 0, 0])?;
    out.extend_from_slice(block.bytes.as_slice())
}

fn put_data_blocks(out: &mut Vec<u8>, blocks: &[DataBlock]) -> Result<(), NoMemory>
    requires { All DataFitsFields blocks.now }
    ensures { OnOk result (out.new.items
        ≡ out.old.items ++ spell_many data_block_layout after_data (0, 0) blocks.now) }
{
    for block in blocks {
        put_data_block(out, block)?;
    }
    Ok(())
}

#[tactic(auto, unfolding(flat_code::specs::Image::name_record, flat_code::specs::Image::name_rows, flat_code::specs::Image::name_len, flat_code::specs::Image::name_bytes, flat_code::specs::Image::name_area, flat_code::specs::Image::width_field, flat_code::specs::Image::plain_u16, flat_code::specs::Image::name_bit))]
fn put_name(out: &mut Vec<u8>, entry: &NameEntry) -> Result<(), NoMemory>
    requires { NameFitsField entry.now }
    ensures { OnOk result (out.new.items
        ≡ out.old.items ++ (name_record []).spell (name_of_entry entry.now)) }
{
    let [a, b] = entry.place.byte.to_be_bytes();
    out.push(entry.name.len() as u8)?;
    out.extend_from_slice(entry.name.as_slice())?;
    out.extend_from_slice(&[
        number_of_area(&entry.place),
        entry.width.number(),
        a,
        b,
        entry.place.bit,
    ])
}

fn put_names(out: &mut Vec<u8>, entries: &[NameEntry]) -> Result<(), NoMemory>
    requires { All NameFitsField entries.now }
    ensures { OnOk result (out.new.items
        ≡ out.old.items ++ spell_many
        name_record after_name [] (map name_of_entry entries.now)) }
{
    for entry in entries {
        put_name(out, entry)?;
    }
    Ok(())
}

/// How many records of each kind there are.
#[tactic(auto, unfolding(flat_code::specs::Image::counts_layout, flat_code::specs::Image::count_rows, flat_code::specs::Image::plain_u16, flat_code::specs::Image::data_count, flat_code::specs::Image::zero_u16))]
fn put_counts(out: &mut Vec<u8>, program: &Program) -> Result<(), NoMemory>
    requires { ProgramFitsFields program.now }
    ensures { OnOk result (out.new.items
        ≡ out.old.items ++ counts_layout.spell (counts_of (records_of program.now))) }
{
    let [a, b] = (program.code_blocks.len() as u16).to_be_bytes();
    let [c, d] = (program.data_blocks.len() as u16).to_be_bytes();
    let [e, f] = (program.names.as_slice().len() as u16).to_be_bytes();
    out.extend_from_slice(&[a, b, c, d, e, f, 0, 0])
}

/// All behind the total length.
fn put_body(out: &mut Vec<u8>, program: &Program) -> Result<(), NoMemory>
    ensures spelled { OnOk result (out.new.items
        ≡ out.old.items ++ (body_layout false).spell program.now) }
    ensures short { front_size + length ((body_layout false).spell program.now) ≤ 8388608 }
{
    let code_blocks = program.code_blocks.as_slice();
    put_counts(out, program)?;
    put_code_blocks(out, code_blocks)?;
    put_data_blocks(out, program.data_blocks.as_slice())?;
    put_names(out, program.names.as_slice())?;
    Ok(())
}

/// The header up to the total length.
#[tactic(auto, unfolding(flat_code::specs::Image::front_layout, flat_code::specs::Image::front_rows, flat_code::specs::Image::magic_field, flat_code::specs::Image::version_field, flat_code::specs::Image::profile_field, flat_code::specs::Image::plain_u32))]
fn put_front(out: &mut Vec<u8>, stamp: Stamp, total: u32) -> Result<(), NoMemory>
    ensures { OnOk result
        (out.new.items ≡ out.old.items ++ front_layout.spell (front_of stamp total)) }
{
    let [e, f] = stamp.version().to_be_bytes();
    let [g, h] = stamp.profile_field().to_be_bytes();
    let [a, b, c, d] = total.to_be_bytes();
    out.extend_from_slice(&[0x53, 0x37, 0x46, 0x42, e, f, g, h, a, b, c, d])
}

/// The image of a program, of a version and profile.
#[tactic(auto, unfolding(flat_code::specs::Image::image))]
pub(crate) fn write_stamped(
    alloc: Global,
    program: &Program,
    stamp: Stamp,
) -> Result<Vec<u8>, NoMemory>
    ensures { IfOk result (λ v. v.items ≡ image stamp program.now) }
{
    let mut body = Vec::new(alloc);
    put_body(&mut body, program)?;
    let mut image = Vec::new(alloc);
    put_front(&mut image, stamp, 12 + body.len() as u32)?;
    image.extend_from_slice(body.as_slice())?;
    Ok(image)
}

/// The image of version 1 of a program, whether it verifies or not.
///
/// # Errors
///
/// `NoMemory` where memory is wanting.
pub fn write_image(alloc: Global, program: &Program) -> Result<Vec<u8>, NoMemory>
    ensures { IfOk result (λ v. v.items ≡ image stamps.One program.now) }
{
    write_stamped(alloc, program, Stamp::One)
}

/// The image of version 2 of a program, whether it verifies or not, with the profile with which it
/// is to be run.
///
/// # Errors
///
/// `NoMemory` where memory is wanting.
pub fn write_image2(alloc: Global, program: &Program, profile: Profile) -> Result<Vec<u8>, NoMemory>
    ensures { IfOk result (λ v. v.items ≡ image (stamps.Two profile) program.now) }
{
    write_stamped(alloc, program, Stamp::Two(profile))
}
