//! Places as the tests spell them: `M0.1`, `MB2`, `DBW4`, `L0.0`, `PB256`.
use plc_base::{Area, Width};

/// A place: its area and width with their numbers in an op, its byte and bit.
#[derive(Clone, Copy)]
pub struct Address {
    pub area: u8,
    pub width: u8,
    pub byte: u16,
    pub bit: u8,
}

/// The letters before a number: area (0 for none) and width.
static LETTERS: [(&str, u8, u8); 32] = [
    ("P", 0x80, 1),
    ("PB", 0x80, 2),
    ("PW", 0x80, 3),
    ("PD", 0x80, 4),
    ("I", 0x81, 1),
    ("IB", 0x81, 2),
    ("IW", 0x81, 3),
    ("ID", 0x81, 4),
    ("Q", 0x82, 1),
    ("QB", 0x82, 2),
    ("QW", 0x82, 3),
    ("QD", 0x82, 4),
    ("M", 0x83, 1),
    ("MB", 0x83, 2),
    ("MW", 0x83, 3),
    ("MD", 0x83, 4),
    ("DBX", 0x84, 1),
    ("DBB", 0x84, 2),
    ("DBW", 0x84, 3),
    ("DBD", 0x84, 4),
    ("DIX", 0x85, 1),
    ("DIB", 0x85, 2),
    ("DIW", 0x85, 3),
    ("DID", 0x85, 4),
    ("L", 0x86, 1),
    ("LB", 0x86, 2),
    ("LW", 0x86, 3),
    ("LD", 0x86, 4),
    ("X", 0, 1),
    ("B", 0, 2),
    ("W", 0, 3),
    ("D", 0, 4),
];

pub(crate) fn area_and_width(letters: &str) -> Option<(u8, u8)> {
    for (name, area, width) in &LETTERS {
        if *name == letters {
            return Some((*area, *width));
        }
    }
    None
}

pub fn decimal(text: &str) -> Option<u16> {
    u16::from_str_radix(text, 10).ok()
}

/// A byte and a bit, as `2.3`; `2` is bit 0 of byte 2.
pub(crate) fn byte_and_bit(text: &str) -> Option<(u16, u8)> {
    let (byte, bit) = text.split_once('.').unwrap_or((text, "0"));
    let bit = u8::from_str_radix(bit, 10).ok()?;
    Some((decimal(byte)?, bit))
}

fn is_number_part(letter: char) -> bool {
    letter.is_ascii_digit() || letter == '.'
}

/// A direct place.
pub fn spelled_place(text: &str) -> Option<Address> {
    let letters = text.trim_end_matches(|letter: char| is_number_part(letter));
    let (area, width) = area_and_width(letters)?;
    let (byte, bit) = byte_and_bit(text.strip_prefix(letters)?)?;
    Some(Address {
        area,
        width,
        byte,
        bit,
    })
}

/// A place in a data block that is named, as `DB10.DBW2`: the block, and the rest.
pub fn in_named_block(text: &str) -> Option<(u16, &str)> {
    let (block, rest) = text.strip_prefix("DB")?.split_once('.')?;
    Some((decimal(block)?, rest))
}

pub fn area_of(number: u8) -> Area {
    match number {
        0x80 => Area::P,
        0x81 => Area::I,
        0x82 => Area::Q,
        0x83 => Area::M,
        0x84 => Area::Db,
        0x85 => Area::Di,
        _ => Area::L,
    }
}

pub fn width_of(number: u8) -> Width {
    match number {
        1 => Width::Bit,
        2 => Width::Byte,
        3 => Width::Word,
        _ => Width::Dword,
    }
}

/// The number of a width in an op by its letter: X, B, W, D.
pub(crate) fn width_number(letter: &str) -> u8 {
    match area_and_width(letter) {
        Some((0, width)) => width,
        _ => 0,
    }
}
