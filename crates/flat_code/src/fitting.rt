//! Whether operands can be written in their forms.
ghost use Rattle.std.specs.Prelude.{◌≡◌, ◌&&◌};
ghost use Rattle.flat_code.specs.Coding.{u8, u16, u32, range_coding};
ghost use Rattle.flat_code.specs.Forms.{actual_fits, callable_coding, crossing_area_coding, memory_area_coding, payload_fits, pointer_area_coding};

use crate::kinds::{FUNCTION, FUNCTION_BLOCK, SYSTEM_FUNCTION};
use crate::operands::{Operand, Passed};
use plc_base::Area;

/// A number fits a field of its own size.
fn fits_u8(number: u8) -> bool
    ensures { result ≡ u8.fits number }
{
    number <= u8::MAX
}

fn fits_u16(number: u16) -> bool
    ensures { result ≡ u16.fits number }
{
    number <= u16::MAX
}

fn fits_u32(number: u32) -> bool
    ensures { result ≡ u32.fits number }
{
    number <= u32::MAX
}

fn is_one_or_two(number: u8) -> bool
    ensures { result ≡ (range_coding 1 2).fits number }
{
    1 <= number && number <= 2
}

/// Whether a byte and a bit are those of a place.
fn is_place(byte: u16, bit: u8) -> bool
    ensures { result ≡ (u16.fits byte && (range_coding 0 7).fits bit) }
{
    fits_u16(byte) && bit <= 7
}

/// Whether a pointer may stand at the place.
fn fits_pointer_place(area: Area, byte: u16) -> bool
    ensures { result ≡ (pointer_area_coding.fits area && u16.fits byte) }
{
    matches!(area, Area::M | Area::Db | Area::Di | Area::L) && fits_u16(byte)
}

fn is_memory_area(area: Area) -> bool
    ensures { result ≡ memory_area_coding.fits area }
{
    !matches!(area, Area::P)
}

/// Whether an offset to an address register may have the area.
fn crosses(area: Option<Area>) -> bool
    ensures { result ≡ crossing_area_coding.fits area }
{
    match area {
        None => true,
        Some(area) => is_memory_area(area),
    }
}

fn is_callable_number(kind: u8) -> bool
    ensures { result ≡ callable_coding.fits kind }
{
    kind == FUNCTION || kind == FUNCTION_BLOCK || kind == SYSTEM_FUNCTION
}

impl Passed {
    /// Whether every field is one that the form has.
    #[tactic(auto, unfolding(crate::specs::Forms::direct_coding))]
    fn fits(self) -> bool
        ensures { result ≡ actual_fits self }
    {
        match self {
            Passed::Literal { value } => fits_u32(value),
            Passed::Direct { byte, bit, .. } => is_place(byte, bit),
            Passed::Parameter { index, .. } => fits_u8(index),
            Passed::InBlock {
                number,
                byte,
                bit,
                ..
            } => fits_u16(number) && is_place(byte, bit),
        }
    }
}

impl Operand {
    /// Whether every field is one that the form has.
    #[tactic(auto, unfolding(crate::specs::Forms::direct_coding, crate::specs::Forms::passed_coding))]
    pub fn fits(self) -> bool
        ensures { result ≡ payload_fits self }
    {
        match self {
            Operand::Nothing => true,
            Operand::Literal { value } => fits_u32(value),
            Operand::Direct { byte, bit, .. } => is_place(byte, bit),
            Operand::ByMemory {
                area,
                from,
                byte,
                ..
            } => is_memory_area(area) && fits_pointer_place(from, byte),
            Operand::ByRegister {
                area,
                register,
                bits,
                ..
            } => crosses(area) && is_one_or_two(register) && fits_u32(bits),
            Operand::Parameter { index, .. } => fits_u8(index),
            Operand::Numbered { kind, number } => is_one_or_two(kind) && fits_u16(number),
            Operand::NumberedBy { kind, from, byte } => {
                is_one_or_two(kind) && fits_pointer_place(from, byte)
            }
            Operand::Jump { kind, target } => kind <= 17 && fits_u32(target),
            Operand::OfStatus { condition } => 1 <= condition && condition <= 10,
            Operand::UseDb { number } => fits_u16(number),
            Operand::Pass { index, actual } => fits_u8(index) && actual.fits(),
            Operand::Called {
                kind,
                number,
                instance,
            } => is_callable_number(kind) && fits_u16(number) && fits_u16(instance),
            Operand::OpenBlock { register, number } => is_one_or_two(register) && fits_u16(number),
            Operand::OpenBy {
                register,
                from,
                byte,
            } => is_one_or_two(register) && fits_pointer_place(from, byte),
        }
    }
}
