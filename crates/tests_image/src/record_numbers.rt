//! The numbers of kinds, areas and widths in the records of an image, and its version and profile.

use crate::compare::same;
use flat_code::{
    Stamp, area_of_number, kind_of_code, kind_of_number, number_of_area, width_of_number,
};
use plc_base::{Area, BlockKind, Place, Profile, Width};
use std::process::Abort;

static WIDTHS: [(Width, u8); 4] = [
    (Width::Bit, 1),
    (Width::Byte, 2),
    (Width::Word, 3),
    (Width::Dword, 4),
];

#[test]
fn numbers_of_widths(rt: HostRuntime) {
    for (width, number) in &WIDTHS {
        same(&rt, *width, width.number(), *number);
    }
}

/// A number that names no width gives a bit.
static NUMBERED_WIDTHS: [(u8, Width); 7] = [
    (0, Width::Bit),
    (1, Width::Bit),
    (2, Width::Byte),
    (3, Width::Word),
    (4, Width::Dword),
    (5, Width::Bit),
    (255, Width::Bit),
];

#[test]
fn widths_of_numbers(rt: HostRuntime) {
    for (number, width) in &NUMBERED_WIDTHS {
        same(&rt, *number, width_of_number(*number), *width);
    }
}

/// Data blocks have records of their own, and there are none of a type.
static KINDS: [(BlockKind, u8); 6] = [
    (BlockKind::Ob, 1),
    (BlockKind::Fc, 2),
    (BlockKind::Fb, 3),
    (BlockKind::Sfc, 5),
    (BlockKind::Db, 0),
    (BlockKind::Udt, 0),
];

#[test]
fn numbers_of_kinds(rt: HostRuntime) {
    for (kind, number) in &KINDS {
        same(&rt, *kind, kind.number(), *number);
    }
}

/// The area of a name's variable, and its number; that of a place in data block 10 is 0.
static AREAS: [(Area, u8); 7] = [
    (Area::I, 0x81),
    (Area::Q, 0x82),
    (Area::M, 0x83),
    (Area::P, 0),
    (Area::Db, 0),
    (Area::Di, 0),
    (Area::L, 0),
];

/// The number of the area of a place, in a data block where its number isn't 0.
fn has_number(rt: &impl Abort, area: Area, block: u16, want: u8) {
    let place = Place {
        area,
        number: block,
        byte: 4,
        bit: 7,
    };
    same(rt, (area, block), number_of_area(&place), want);
}

#[test]
fn numbers_of_areas(rt: HostRuntime) {
    for (area, number) in &AREAS {
        has_number(&rt, *area, 0, *number);
        has_number(&rt, *area, 10, 0);
    }
}

/// A number that names none of I, Q and M gives M, also where it names another area.
static NUMBERED_AREAS: [(u8, Area); 10] = [
    (0, Area::M),
    (1, Area::M),
    (0x80, Area::M),
    (0x81, Area::I),
    (0x82, Area::Q),
    (0x83, Area::M),
    (0x84, Area::M),
    (0x86, Area::M),
    (0x87, Area::M),
    (255, Area::M),
];

#[test]
fn areas_of_numbers(rt: HostRuntime) {
    for (number, area) in &NUMBERED_AREAS {
        same(&rt, *number, area_of_number(*number), *area);
    }
}

/// A number, the kind that it names, and the kind of a record. System functions have a number, but no
/// record.
static NUMBERED_KINDS: [(u8, Option<BlockKind>, BlockKind); 8] = [
    (0, None, BlockKind::Udt),
    (1, Some(BlockKind::Ob), BlockKind::Ob),
    (2, Some(BlockKind::Fc), BlockKind::Fc),
    (3, Some(BlockKind::Fb), BlockKind::Fb),
    (4, None, BlockKind::Udt),
    (5, Some(BlockKind::Sfc), BlockKind::Udt),
    (6, None, BlockKind::Udt),
    (255, None, BlockKind::Udt),
];

#[test]
fn kinds_of_numbers(rt: HostRuntime) {
    for (number, named, of_record) in &NUMBERED_KINDS {
        same(&rt, *number, kind_of_code(*number), *named);
        same(&rt, *number, kind_of_number(*number), *of_record);
    }
}

/// The two fields behind the magic, and the profile with which the image is run.
static STAMPS: [(Stamp, (u16, u16), Profile); 3] = [
    (Stamp::One, (1, 0), Profile::Small),
    (Stamp::Two(Profile::Small), (2, 1), Profile::Small),
    (Stamp::Two(Profile::Large), (2, 2), Profile::Large),
];

#[test]
fn fields_of_stamps(rt: HostRuntime) {
    for (stamp, fields, profile) in &STAMPS {
        let found = (stamp.version(), stamp.profile_field());
        same(&rt, *stamp, found, *fields);
        same(&rt, *fields, Stamp::of(fields.0, fields.1), *stamp);
        same(&rt, *stamp, stamp.profile(), *profile);
    }
}

/// Of fields that are a fault there is a stamp too, which no image has.
static FAULTY_STAMPS: [((u16, u16), Stamp); 8] = [
    ((0, 0), Stamp::One),
    ((0, 2), Stamp::One),
    ((1, 1), Stamp::One),
    ((1, 2), Stamp::One),
    ((2, 0), Stamp::Two(Profile::Small)),
    ((2, 3), Stamp::Two(Profile::Small)),
    ((3, 2), Stamp::One),
    ((65_535, 1), Stamp::One),
];

#[test]
fn stamps_of_faulty_fields(rt: HostRuntime) {
    for (fields, stamp) in &FAULTY_STAMPS {
        same(&rt, *fields, Stamp::of(fields.0, fields.1), *stamp);
    }
}
