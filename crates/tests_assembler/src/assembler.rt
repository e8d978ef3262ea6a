//! Programs for the tests, written as text, as images.
//!
//! A program is the code of OB 1, and behind each `|` a further block: `FC 1 8 0 IW OW { code` with its
//! local bytes, instance bytes and parameters (section I, O or N for IN_OUT, then the width, in a function
//! block the place as `IW@2.0`), or `DB 10 { bytes`, or `DB 5 2 { bytes` for an instance of FB 2. Blocks
//! stand in the order of an image. Statements end with `;`, ops before the last of a statement with `,`.
//! Literals are hexadecimal behind `#`, a parameter is `@0W`, an address register's place `MW[AR1+2.0]`.
use crate::places::{
    area_and_width, byte_and_bit, decimal, in_named_block, spelled_place, width_number,
};
use crate::words::{code_of, condition_number, jump_kind};
use std::alloc::{AllocError, Global};

type Written = Result<(), AllocError>;

/// An image, and the offset of the last statement of OB 1.
#[derive(Drop)]
pub struct Image {
    pub bytes: Vec<u8>,
    pub end: u32,
}

fn byte(out: &mut Vec<u8>, number: u8) -> Written {
    out.push(number)?;
    Ok(())
}

fn word(out: &mut Vec<u8>, number: u16) -> Written {
    out.extend_from_slice(&number.to_be_bytes())
}

fn dword(out: &mut Vec<u8>, number: u32) -> Written {
    out.extend_from_slice(&number.to_be_bytes())
}

// Lengths in the fields of an image; no test comes near their bounds.
fn in_u32(len: usize) -> u32 {
    (len % 0x1_0000_0000) as u32
}

fn in_u16(len: usize) -> u16 {
    (len % 0x1_0000) as u16
}

fn in_u8(len: usize) -> u8 {
    (len % 0x100) as u8
}

fn hexadecimal(text: &str) -> u32 {
    u32::from_str_radix(text, 16).unwrap_or(0)
}

/// A form byte that no op has, for what can't be read.
const UNREADABLE: u8 = 0xFF;

fn direct(out: &mut Vec<u8>, text: &str) -> Written {
    let Some(place) = spelled_place(text) else {
        return byte(out, UNREADABLE);
    };
    out.extend_from_slice(&[0x02, place.area, place.width])?;
    word(out, place.byte)?;
    byte(out, place.bit)
}

/// The area and the byte of a pointer's own place.
fn pointer(out: &mut Vec<u8>, text: &str) -> Written {
    let Some(place) = spelled_place(text) else {
        return byte(out, UNREADABLE);
    };
    out.push(place.area)?;
    word(out, place.byte)
}

/// `AR1+2.0`: register and offset in bits.
fn register(out: &mut Vec<u8>, text: &str) -> Written {
    let (name, offset) = text.split_once('+').unwrap_or((text, ""));
    let (byte, bit) = byte_and_bit(offset).unwrap_or((0, 255));
    out.push(if name == "AR1" { 1 } else { 2 })?;
    dword(
        out,
        u32::from(byte).wrapping_mul(8).wrapping_add(u32::from(bit)),
    )
}

/// A place that is pointed at: the letters, and what stands in the brackets.
fn put_pointed_place(out: &mut Vec<u8>, letters: &str, inside: &str) -> Written {
    let inside = inside.strip_suffix(']').unwrap_or("");
    match letters {
        "T" => {
            out.extend_from_slice(&[0x07, 1])?;
            pointer(out, inside)
        }
        "C" => {
            out.extend_from_slice(&[0x07, 2])?;
            pointer(out, inside)
        }
        "DB" => {
            out.extend_from_slice(&[0x0F, 1])?;
            pointer(out, inside)
        }
        "DI" => {
            out.extend_from_slice(&[0x0F, 2])?;
            pointer(out, inside)
        }
        _ => {
            let (area, width) = area_and_width(letters).unwrap_or((0, 0));
            if inside.starts_with("AR") {
                out.extend_from_slice(&[0x04, area, width])?;
                register(out, inside)
            } else {
                out.extend_from_slice(&[0x03, area, width])?;
                pointer(out, inside)
            }
        }
    }
}

/// `0W`: a parameter's index and width.
fn parameter(out: &mut Vec<u8>, text: &str) -> Written {
    let index = text.trim_end_matches(|letter: char| !letter.is_ascii_digit());
    let width = text.strip_prefix(index).unwrap_or("");
    let index = u8::from_str_radix(index, 10).unwrap_or(255);
    out.extend_from_slice(&[0x05, index, width_number(width)])
}

/// A number behind letters, as `T5` or `DB10`.
fn number_behind(text: &str, letters: &str) -> Option<u16> {
    decimal(text.strip_prefix(letters)?)
}

/// `FC1`, `FB2:5`, `SFC41`.
fn put_called_block(out: &mut Vec<u8>, text: &str) -> Written {
    let (block, instance) = text.split_once(':').unwrap_or((text, "0"));
    let instance = decimal(instance).unwrap_or(0);
    for (letters, kind) in [("FC", 2), ("FB", 3), ("SFC", 5)] {
        if let Some(number) = number_behind(block, letters) {
            out.extend_from_slice(&[0x0D, kind])?;
            word(out, number)?;
            return word(out, instance);
        }
    }
    byte(out, UNREADABLE)
}

/// Operands that are a number behind letters: timers, counters, data blocks.
fn put_numbered_place(out: &mut Vec<u8>, text: &str) -> Result<bool, AllocError> {
    for (letters, form, what) in [
        ("T", 0x06, 1),
        ("C", 0x06, 2),
        ("DB", 0x0E, 1),
        ("DI", 0x0E, 2),
    ] {
        if let Some(number) = number_behind(text, letters) {
            out.extend_from_slice(&[form, what])?;
            word(out, number)?;
            return Ok(true);
        }
    }
    Ok(false)
}

fn operand(out: &mut Vec<u8>, text: &str) -> Written {
    if text.is_empty() {
        return byte(out, 0x00);
    }
    if let Some(digits) = text.strip_prefix('#') {
        out.push(0x01)?;
        return dword(out, hexadecimal(digits));
    }
    if let Some(rest) = text.strip_prefix('@') {
        return parameter(out, rest);
    }
    if let Some((letters, inside)) = text.split_once('[') {
        return put_pointed_place(out, letters, inside);
    }
    if let Some(condition) = condition_number(text) {
        return out.extend_from_slice(&[0x09, condition]);
    }
    if put_numbered_place(out, text)? {
        return Ok(());
    }
    if text.starts_with("FC") || text.starts_with("FB") || text.starts_with("SFC") {
        return put_called_block(out, text);
    }
    direct(out, text)
}

fn put_passed_actual(out: &mut Vec<u8>, index: &str, actual: &str) -> Written {
    out.extend_from_slice(&[0x0B, u8::from_str_radix(index, 10).unwrap_or(255)])?;
    let Some((block, rest)) = in_named_block(actual) else {
        return operand(out, actual);
    };
    out.push(0x0C)?;
    word(out, block)?;
    // as form 02, without its form byte
    let Some(place) = spelled_place(rest) else {
        return Ok(());
    };
    out.extend_from_slice(&[place.area, place.width])?;
    word(out, place.byte)?;
    byte(out, place.bit)
}

fn end_mark(is_last: bool) -> u8 {
    if is_last { 0x80 } else { 0 }
}

/// One op, or two where its operand names a data block. `target` is that of a jump.
fn op(out: &mut Vec<u8>, text: &str, is_last: bool, target: u32) -> Written {
    let mut words = text.split_ascii_whitespace();
    let name = words.next().unwrap_or("");
    let first = words.next().unwrap_or("");
    let second = words.next().unwrap_or("");
    let mark = end_mark(is_last);
    if let Some(kind) = jump_kind(name) {
        out.extend_from_slice(&[0x6F | mark, 0x08, kind])?;
        return dword(out, target);
    }
    if name == "PASS" {
        out.push(0x04 | mark)?;
        return put_passed_actual(out, first, second);
    }
    if let Some((block, rest)) = in_named_block(first) {
        out.extend_from_slice(&[0x02, 0x0A])?;
        word(out, block)?;
        out.push(code_of(name) | mark)?;
        return operand(out, rest);
    }
    out.push(code_of(name) | mark)?;
    operand(out, first)
}

/// A statement without its label.
fn without_label(statement: &str) -> &str {
    let text = statement.trim();
    match text.split_once(' ') {
        Some((first, rest)) if first.ends_with(':') => rest,
        _ => text,
    }
}

fn has_label(statement: &str, label: &str) -> bool {
    match statement.trim().split_once(':') {
        Some((first, _)) => first == label,
        None => false,
    }
}

/// The label that a jump names, as the last word of its statement.
fn label_in(statement: &str) -> &str {
    statement.split_ascii_whitespace().last().unwrap_or("")
}

fn statement(out: &mut Vec<u8>, text: &str, target: u32) -> Written {
    let text = without_label(text);
    let last = text.split(',').count();
    let mut place = 0_usize;
    for part in text.split(',') {
        place = place.wrapping_add(1);
        op(out, part, place == last, target)?;
    }
    Ok(())
}

/// The offset of the statement with a label; that of the last one where there is none.
fn offset_of(alloc: Global, code: &str, label: &str) -> Result<u32, AllocError> {
    let mut before = Vec::new(alloc);
    for text in code.split(';') {
        if has_label(text, label) {
            break;
        }
        if !text.trim().is_empty() {
            statement(&mut before, text, 0)?;
        }
    }
    Ok(in_u32(before.len()))
}

/// The ops of a block and its last BE, and how many statements they are.
fn code_bytes(alloc: Global, code: &str) -> Result<(Vec<u8>, u16), AllocError> {
    let mut out = Vec::new(alloc);
    let mut count = 1_u16;
    for text in code.split(';') {
        if text.trim().is_empty() {
            continue;
        }
        let mut target = 0;
        let name = without_label(text)
            .split_ascii_whitespace()
            .next()
            .unwrap_or("");
        if jump_kind(name).is_some() {
            target = offset_of(alloc, code, label_in(text))?;
        }
        statement(&mut out, text, target)?;
        count = count.wrapping_add(1);
    }
    out.extend_from_slice(&[0xFB, 0x00])?;
    Ok((out, count))
}

/// `IW` or `IW@2.0`: section, width and place of a parameter.
fn param(out: &mut Vec<u8>, text: &str) -> Written {
    let (kind, place) = text.split_once('@').unwrap_or((text, "0.0"));
    let (byte, bit) = byte_and_bit(place).unwrap_or((0, 0));
    for (letter, section) in [('I', 1), ('O', 2), ('N', 3)] {
        if let Some(width) = kind.strip_prefix(letter) {
            out.extend_from_slice(&[section, width_number(width)])?;
        }
    }
    word(out, byte)?;
    out.extend_from_slice(&[bit, 0])
}

/// Kind, number, local bytes and instance bytes of a block, and its parameters.
fn head(out: &mut Vec<u8>, text: &str, count: u16, len: usize) -> Written {
    let kind = match text.split_ascii_whitespace().next() {
        Some("FC") => 2,
        Some("FB") => 3,
        _ => 1,
    };
    let params = text.split_ascii_whitespace().skip(4).count();
    out.extend_from_slice(&[kind, in_u8(params)])?;
    for field in text.split_ascii_whitespace().skip(1).take(3) {
        word(out, decimal(field).unwrap_or(0))?;
    }
    word(out, count)?;
    word(out, 0)?;
    dword(out, in_u32(len))?;
    for text in text.split_ascii_whitespace().skip(4) {
        param(out, text)?;
    }
    Ok(())
}

fn lines(out: &mut Vec<u8>, count: u16) -> Written {
    for line in 1..=count {
        dword(out, u32::from(line))?;
    }
    Ok(())
}

/// A code block; the answer is the offset of its last statement.
fn code_block(alloc: Global, out: &mut Vec<u8>, text: &str) -> Result<u32, AllocError> {
    let (about, code) = text.split_once('{').unwrap_or(("OB 1 20 0", text));
    let (bytes, count) = code_bytes(alloc, code)?;
    head(out, about, count, bytes.len())?;
    out.extend_from_slice(bytes.as_slice())?;
    lines(out, count)?;
    Ok(in_u32(bytes.len()).wrapping_sub(2))
}

/// Whether a part of a program is a data block.
pub fn is_data_block(text: &str) -> bool {
    text.trim().starts_with("DB ") && text.contains('{')
}

/// The number and the bytes of a data block.
pub fn data_of(alloc: Global, text: &str) -> Result<(u16, Vec<u8>), AllocError> {
    let (about, bytes) = text.split_once('{').unwrap_or((text, ""));
    let number = about.split_ascii_whitespace().skip(1).next().unwrap_or("");
    let mut data = Vec::new(alloc);
    for byte in bytes.split_ascii_whitespace() {
        data.push(u8::from_str_radix(byte, 16).unwrap_or(0))?;
    }
    Ok((decimal(number).unwrap_or(0), data))
}

fn data_block(alloc: Global, out: &mut Vec<u8>, text: &str) -> Written {
    let (about, _) = text.split_once('{').unwrap_or((text, ""));
    let (number, data) = data_of(alloc, text)?;
    word(out, number)?;
    let block = about.split_ascii_whitespace().skip(2).next();
    word(
        out,
        match block {
            Some(block) => decimal(block).unwrap_or(0).wrapping_add(1),
            None => 0,
        },
    )?;
    word(out, in_u16(data.len()))?;
    word(out, 0)?;
    out.extend_from_slice(data.as_slice())
}

/// The image of a program.
pub fn assembled_image(alloc: Global, program: &str) -> Result<Image, AllocError> {
    let mut records = Vec::new(alloc);
    let mut end = None;
    let mut code_blocks = 0_u16;
    let mut data_blocks = 0_u16;
    for text in program.split('|') {
        if is_data_block(text) {
            data_block(alloc, &mut records, text)?;
            data_blocks = data_blocks.wrapping_add(1);
        } else {
            let last = code_block(alloc, &mut records, text)?;
            end = Some(end.unwrap_or(last));
            code_blocks = code_blocks.wrapping_add(1);
        }
    }
    let mut bytes = Vec::new(alloc);
    bytes.extend_from_slice(b"S7FB")?;
    word(&mut bytes, 1)?;
    word(&mut bytes, 0)?;
    dword(&mut bytes, in_u32(records.len()).wrapping_add(20))?;
    word(&mut bytes, code_blocks)?;
    word(&mut bytes, data_blocks)?;
    dword(&mut bytes, 0)?;
    bytes.extend_from_slice(records.as_slice())?;
    Ok(Image {
        bytes,
        end: end.unwrap_or(0),
    })
}
