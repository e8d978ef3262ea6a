use crate::compare::same;
use plc_base::{Area, BlockKind, Width, are_digits, first_line, has_bit, is_blank};

// A kind of block: its number in images and start information, its place in the order of kinds, and
// whether it is a code block, a function block, a data block, a data type, a system function, and
// one that can be called.
static KINDS: [(BlockKind, u8, u8, [bool; 6]); 6] = [
    (
        BlockKind::Ob,
        1,
        0,
        [true, false, false, false, false, false],
    ),
    (
        BlockKind::Fc,
        2,
        1,
        [true, false, false, false, false, true],
    ),
    (BlockKind::Fb, 3, 2, [true, true, false, false, false, true]),
    (
        BlockKind::Db,
        0,
        3,
        [false, false, true, false, false, false],
    ),
    (
        BlockKind::Sfc,
        5,
        4,
        [false, false, false, false, true, true],
    ),
    (
        BlockKind::Udt,
        0,
        5,
        [false, false, false, true, false, false],
    ),
];

#[test]
fn kinds_of_blocks(rt: HostRuntime) {
    for (kind, number, order, is) in &KINDS {
        let got = [
            kind.is_code(),
            kind.is_function_block(),
            kind.is_data_block(),
            kind.is_data_type(),
            kind.is_system_function(),
            kind.is_callable(),
        ];
        same(&rt, *kind, got, *is);
        same(&rt, *kind, (kind.number(), kind.order()), (*number, *order));
        for (other, _, place, _) in &KINDS {
            let same_place = *order == *place;
            same(&rt, (*kind, *other), kind.is_same_kind(*other), same_place);
        }
    }
}

// The area bits of an area-crossing pointer; the numbers of widths in images.
static AREAS: [(Area, u8); 7] = [
    (Area::P, 0),
    (Area::I, 1),
    (Area::Q, 2),
    (Area::M, 3),
    (Area::Db, 4),
    (Area::Di, 5),
    (Area::L, 6),
];

static WIDTHS: [(Width, u8); 4] = [
    (Width::Bit, 1),
    (Width::Byte, 2),
    (Width::Word, 3),
    (Width::Dword, 4),
];

#[test]
fn numbers_of_areas_and_widths(rt: HostRuntime) {
    for (area, number) in &AREAS {
        same(&rt, *area, area.number(), *number);
    }
    for (width, number) in &WIDTHS {
        same(&rt, *width, width.number(), *number);
    }
}

// A number, a place in it, and the bit there.
static BITS: [(u32, u32, bool); 6] = [
    (0, 0, false),
    (1, 0, true),
    (2, 0, false),
    (2, 1, true),
    (0x8000_0000, 31, true),
    (0x7FFF_FFFF, 31, false),
];

// A text, its first line, and what follows.
static LINES: [(&str, &str, &str); 7] = [
    ("a", "a", ""),
    ("a\n", "a", ""),
    ("a\r\nb", "a", "b"),
    ("\n\nb", "", "\nb"),
    ("\r\r\n", "\r", ""),
    ("a\rb\n", "a\rb", ""),
    ("a\r", "a\r", ""),
];

static DIGITS: [(&str, bool); 4] = [("", true), ("0189", true), ("18a", false), (" 1", false)];

#[test]
fn bits_lines_and_digits(rt: HostRuntime) {
    for (number, place, is_one) in &BITS {
        same(&rt, (*number, *place), has_bit(*number, *place), *is_one);
    }
    for (text, line, rest) in &LINES {
        if !text.is_empty() {
            let got = first_line(text.as_bytes());
            same(&rt, *text, got, (line.as_bytes(), rest.as_bytes()));
        }
    }
    for (word, are) in &DIGITS {
        same(&rt, *word, are_digits(word.as_bytes()), *are);
    }
    let blanks = [
        is_blank(b' '),
        is_blank(b'\t'),
        is_blank(b'\r'),
        is_blank(b'_'),
    ];
    same(&rt, "blanks", blanks, [true, true, false, false]);
}
