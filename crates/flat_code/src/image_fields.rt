ghost use Rattle.std.specs.Prelude.{◌≡◌, ◌≤◌};
ghost use Rattle.flat_code.specs.Faults.{field_fault, has_number, holds_parameter, is_existing_ob, fault_unless_met};

use crate::record_numbers::{code_of_area, width_of_number};
use crate::stamps::profile_number;
use plc_base::{Area, BlockKind, Profile, Width};

/// The section of an IN parameter.
pub const SECTION_IN: u8 = 1;

/// The section of an OUT parameter.
pub const SECTION_OUT: u8 = 2;

/// The section of an IN_OUT parameter.
pub const SECTION_IN_OUT: u8 = 3;

/// A field of an image, with what of the fields before it is needed to check it. Numbers are as
/// written in the image: kinds 1 OB, 2 FC, 3 FB; sections 1 IN, 2 OUT, 3 IN_OUT; widths 1 bit,
/// 2 byte, 3 word, 4 double word; areas 0x81 I, 0x82 Q, 0x83 M.
#[derive(Clone, Copy)]
pub enum Field {
    Magic {
        number: u32,
    },
    Version {
        number: u16,
    },
    /// The field behind the version, which names the profile in version 2 (1 Small, 2 Large).
    Profile {
        version: u16,
        number: u16,
    },
    Reserved {
        number: u16,
    },
    DataBlockCount {
        count: u16,
    },
    /// The kind of a code block behind one of another kind (0 for none).
    Kind {
        before: u8,
        kind: u8,
    },
    ParameterCount {
        kind: u8,
        count: u8,
    },
    /// The number of a code block behind another block's kind and number.
    Number {
        kind_before: u8,
        before: u16,
        kind: u8,
        number: u16,
    },
    LocalBytes {
        kind: u8,
        bytes: u16,
    },
    InstanceBytes {
        kind: u8,
        bytes: u16,
    },
    Section {
        section: u8,
    },
    Width {
        width: u8,
    },
    /// The byte of a parameter in a block of a kind with so many instance bytes.
    ParameterByte {
        kind: u8,
        instance: u16,
        width: u8,
        byte: u16,
    },
    ParameterBit {
        kind: u8,
        bit: u8,
    },
    /// The statement count of a block whose code has this many end marks.
    StatementCount {
        end_marks: usize,
        count: u16,
    },
    /// The line of a statement behind another (0 for none).
    Line {
        before: u32,
        line: u32,
    },
    /// The number of a data block behind another (0 for none).
    DataNumber {
        before: u16,
        number: u16,
    },
    /// The number of the function block whose instance a data block is, plus 1, or 0.
    InstanceOf {
        number: u16,
    },
    /// The bytes of a data block behind blocks of so many bytes together.
    DataBytes {
        before: u32,
        bytes: u16,
    },
    NameLength {
        bytes: u8,
    },
    NameArea {
        area: u8,
    },
    NameBit {
        width: u8,
        bit: u8,
    },
}

/// A parameter of a code block as its image has it: section (1 IN, 2 OUT, 3 IN_OUT), width (1 bit,
/// 2 byte, 3 word, 4 double word), and its place in the instance of a function block.
#[derive(Clone, Copy, Debug, PartialEq, Eq)]
pub struct ParameterRecord {
    pub section: u8,
    pub width: u8,
    pub byte: u16,
    pub bit: u8,
}

/// A nesting bracket that stands open: the offset of its op in the block's code, and its op code.
#[derive(Clone, Copy, Debug, PartialEq, Eq)]
pub struct OpenBracket {
    pub at: u32,
    pub code: u8,
}

fn fault_unless(fine: bool, code: u16) -> Option<u16>
    ensures { result ≡ fault_unless_met fine code }
{
    if fine { None } else { Some(code) }
}

/// Whether there is an organization block of the number.
fn is_existing_ob(number: u16) -> bool
    ensures { result ≡ is_existing_ob number }
{
    matches!(number, 1 | 10..=17 | 20..=23 | 30..=38 | 40..=47 | 80 | 85 | 100 | 121 | 122)
}

/// Whether a code block may have the number.
fn has_number(kind: u8, number: u16) -> bool
    ensures { result ≡ has_number kind number }
{
    if kind == BlockKind::Ob.number() {
        is_existing_ob(number)
    } else {
        number <= 2047
    }
}

/// Whether a parameter may stand at the byte.
fn is_parameter_byte(kind: u8, instance: u16, width: u8, byte: u16) -> bool
    ensures { result ≡ holds_parameter kind instance width byte }
{
    if kind == BlockKind::Fb.number() {
        let bytes = width_of_number(width).byte_count();
        usize::from(byte) + bytes <= usize::from(instance)
    } else {
        byte == 0
    }
}

impl Field {
    /// The code of the field's fault, if it has one.
    #[tactic(auto, unfolding(crate::specs::Faults::field_fault))]
    pub fn fault(self) -> Option<u16>
        ensures { result ≡ field_fault self }
    {
        match self {
            Field::Magic { number } => fault_unless(number == 0x5337_4642, 1),
            Field::Version { number } => fault_unless(number == 1 || number == 2, 2),
            Field::Profile { version, number } => fault_unless(
                if version == 2 {
                    let first = profile_number(Profile::Small);
                    let last = profile_number(Profile::Large);
                    first <= number && number <= last
                } else {
                    number == 0
                },
                4,
            ),
            Field::Reserved { number } => fault_unless(number == 0, 4),
            Field::DataBlockCount { count } => fault_unless(count <= 256, 4),
            Field::Kind { before, kind } => {
                let (first, last) = (BlockKind::Ob.number(), BlockKind::Fb.number());
                fault_unless(first <= kind && kind <= last && before <= kind, 4)
            }
            Field::ParameterCount { kind, count } => {
                let organization_block = kind == BlockKind::Ob.number();
                fault_unless(count <= 60 && (!organization_block || count == 0), 4)
            }
            Field::Number {
                kind_before,
                before,
                kind,
                number,
            } => {
                let rises = kind != kind_before || before < number;
                fault_unless(has_number(kind, number) && rises, 4)
            }
            Field::LocalBytes { kind, bytes } => {
                let organization_block = kind == BlockKind::Ob.number();
                fault_unless(bytes <= 1024 && (!organization_block || 20 <= bytes), 4)
            }
            Field::InstanceBytes { kind, bytes } => {
                fault_unless(
                    if kind == BlockKind::Fb.number() {
                        bytes <= 16_384
                    } else {
                        bytes == 0
                    },
                    4,
                )
            }
            Field::Section { section } => {
                fault_unless(SECTION_IN <= section && section <= SECTION_IN_OUT, 4)
            }
            Field::Width { width } => {
                let (first, last) = (Width::Bit.number(), Width::Dword.number());
                fault_unless(first <= width && width <= last, 4)
            }
            Field::ParameterByte {
                kind,
                instance,
                width,
                byte,
            } => fault_unless(is_parameter_byte(kind, instance, width, byte), 4),
            Field::ParameterBit { kind, bit } => {
                let function_block = kind == BlockKind::Fb.number();
                fault_unless(bit <= 7 && (function_block || bit == 0), 4)
            }
            Field::StatementCount { end_marks, count } => {
                fault_unless(end_marks == usize::from(count), 9)
            }
            Field::Line { before, line } => fault_unless(line != 0 && before <= line, 9),
            Field::DataNumber { before, number } => {
                fault_unless(1 <= number && number <= 2047 && before < number, 4)
            }
            Field::InstanceOf { number } => fault_unless(number <= 2048, 4),
            Field::DataBytes { before, bytes } => {
                let all = u64::from(before) + u64::from(bytes);
                fault_unless(bytes <= 16_384 && all <= 2_097_152, 4)
            }
            Field::NameLength { bytes } => fault_unless(1 <= bytes && bytes <= 24, 4),
            Field::NameArea { area } => {
                let (first, last) = (code_of_area(Area::I), code_of_area(Area::M));
                fault_unless(first <= area && area <= last, 4)
            }
            Field::NameBit { width, bit } => {
                let one_bit = width == Width::Bit.number();
                fault_unless(bit <= 7 && (one_bit || bit == 0), 4)
            }
        }
    }
}
