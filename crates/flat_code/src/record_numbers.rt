//! Kinds, areas and widths as an image has them.
ghost use Rattle.std.specs.Prelude.{◌≡◌};
ghost use Rattle.flat_code.specs.Forms.{area_code, kind_of_code, width_of_number};
ghost use Rattle.flat_code.specs.Image.{area_of_number, kind_of_number, number_of_area};

use crate::fields::{area_of_code, width_of_code};
use crate::kinds::{FUNCTION, FUNCTION_BLOCK, ORGANIZATION_BLOCK, SYSTEM_FUNCTION};
use plc_base::{Area, BlockKind, Place, Width};

/// The width that a number in an image names: 1 bit, 2 byte, 3 word, 4 double word; a bit for the
/// others, which are faults.
pub fn width_of_number(number: u8) -> Width
    ensures { result ≡ width_of_number number }
{
    match width_of_code(number) {
        Some(width) => width,
        None => Width::Bit,
    }
}

/// The kind of block that a number in an image names: 1 OB, 2 FC, 3 FB, 5 SFC. `None` exactly for
/// the others.
pub fn kind_of_code(number: u8) -> Option<BlockKind>
    ensures { result ≡ kind_of_code number }
{
    match number {
        ORGANIZATION_BLOCK => Some(BlockKind::Ob),
        FUNCTION => Some(BlockKind::Fc),
        FUNCTION_BLOCK => Some(BlockKind::Fb),
        SYSTEM_FUNCTION => Some(BlockKind::Sfc),
        _ => None,
    }
}

/// The kind of a code block that a number in an image names: 1 OB, 2 FC, 3 FB; a data type for the
/// others, which are faults.
pub fn kind_of_number(number: u8) -> BlockKind
    ensures { result ≡ kind_of_number number }
{
    match kind_of_code(number) {
        Some(BlockKind::Ob) => BlockKind::Ob,
        Some(BlockKind::Fc) => BlockKind::Fc,
        Some(BlockKind::Fb) => BlockKind::Fb,
        _ => BlockKind::Udt,
    }
}

/// The byte that names an area: 0x80 and its number.
pub(crate) fn code_of_area(area: Area) -> u8
    ensures { result ≡ area_code area }
{
    128 + area.number()
}

/// The area of a name's variable that a number in an image names: 0x81 I, 0x82 Q, 0x83 M; M for
/// the others, which are faults.
pub fn area_of_number(number: u8) -> Area
    ensures { result ≡ area_of_number number }
{
    match area_of_code(number) {
        Some(Area::I) => Area::I,
        Some(Area::Q) => Area::Q,
        _ => Area::M,
    }
}

/// The area of a name's variable as an image has it: 0x81 I, 0x82 Q, 0x83 M; 0 for the others.
pub fn number_of_area(place: &Place) -> u8
    ensures { result ≡ number_of_area place.now.number place.now.area }
{
    if place.number != 0 {
        return 0;
    }
    match place.area {
        Area::I | Area::Q | Area::M => code_of_area(place.area),
        _ => 0,
    }
}
