//! From an operand to its place.
ghost use Rattle.std.specs.Prelude.{◌≡◌, ◌<◌, ◌^◌, Some, IfOk, IfSome};
ghost use Rattle.plc_base.specs.Widths.{bit_count};
ghost use Rattle.machine.specs.ExecState.{local_of};
ghost use Rattle.machine.specs.Places.{error_of, innermost_frame_index as innermost_of, open_block_location as in_register_of, open_area_location as in_area_of, error_of_absent_place as absent_of, location_number as location_number_of, number_read_at as read_of, direct_number as direct_of, pointer_number as pointer_of, is_aligned as is_aligned_of, location_at_pointer as at_pointer_of, pointer_location as by_pointer_of, location_in_named_area as in_named_of, area_location as placed_of, area_crossing_location as by_crossing_of, address_moved_by as moved_of, register_address as address_of, register_location as by_register_of, binding_location as of_binding_of, operand_location as located_of};

use flat_code::{AR1_NUMBER, Operand};
use frames::{Binding, Locals, Running};
use plc_base::{Area, Place, Width, error_codes, place_of_pointer};
use plc_mem::Memory;

/// The error code of an operand that the instruction doesn't take: never in a program that is
/// loaded.
pub(crate) const NO_OPERAND: u8 = 0;

/// Whether a place is to be read or written.
#[derive(Clone, Copy)]
pub enum Access {
    Reading,
    Writing,
}

/// A place that an operand means, with its width. For local data `frame` says whose local bytes are
/// meant, by the place in the list of frames, counted from 0 at the outermost one.
#[derive(Clone, Copy)]
pub struct Location {
    pub place: Place,
    pub width: Width,
    pub frame: u8,
}

impl Access {
    /// The code of an error that has two, where `code` is that of reading.
    pub(crate) fn error(self, code: u8) -> u8
        requires { code < 255 }
        ensures { result ≡ error_of self code }
    {
        match self {
            Access::Reading => code,
            Access::Writing => code + 1,
        }
    }

    /// The code of a place that doesn't exist.
    pub(crate) fn absent(self, area: Area) -> u8
        ensures { result ≡ absent_of self area }
    {
        match area {
            Area::P => self.error(error_codes::NO_PERIPHERAL),
            _ => self.error(error_codes::NO_PLACE),
        }
    }
}

#[inline(always)]
fn in_register(
    register: Option<u16>,
    error: u8,
    byte: u16,
    bit: u8,
    width: Width,
) -> Result<Location, u8>
    ensures value { result ≡ in_register_of register error byte bit width }
    ensures wide { IfOk result (λ at. at.width ≡ width) }
{
    match register {
        Some(number) => Ok(Location {
            place: Place {
                area: Area::Db,
                number,
                byte,
                bit,
            },
            width,
            frame: 0,
        }),
        None => Err(error),
    }
}

#[inline(always)]
fn innermost(s: &Running) -> u8
    ensures { result ≡ innermost_of (local_of s.now) }
{
    s.locals.depth().saturating_sub(1) as u8
}

/// The place in an area.
#[tactic(auto, unfolding(crate::specs::Places::open_area_location))]
#[inline(always)]
pub(crate) fn in_area(
    area: Area,
    byte: u16,
    bit: u8,
    width: Width,
    s: &Running,
) -> Result<Location, u8>
    ensures value { result ≡ in_area_of area byte bit width (local_of s.now) }
    ensures wide { IfOk result (λ at. at.width ≡ width) }
{
    match area {
        Area::Db => in_register(s.frame.db, error_codes::NO_DB_OPEN, byte, bit, width),
        Area::Di => in_register(s.frame.di, error_codes::NO_DI_OPEN, byte, bit, width),
        Area::L => Ok(Location {
            place: Place {
                area,
                number: 0,
                byte,
                bit,
            },
            width,
            frame: innermost(s),
        }),
        _ => Ok(Location {
            place: Place {
                area,
                number: 0,
                byte,
                bit,
            },
            width,
            frame: 0,
        }),
    }
}

/// The place in an area that an operand names. No bit is read or written in the peripheral area.
#[inline(always)]
pub(crate) fn area_location(
    access: Access,
    area: Area,
    byte: u16,
    bit: u8,
    width: Width,
    s: &Running,
) -> Result<Location, u8>
    ensures { result ≡ placed_of access area byte bit width (local_of s.now) }
{
    match (area, width) {
        (Area::P, Width::Bit) => Err(access.error(error_codes::BAD_AREA)),
        _ => in_area(area, byte, bit, width, s),
    }
}

/// The number at a place, if each of its bits exists.
#[inline(always)]
pub(crate) fn location_number(at: &Location, locals: &Locals, m: &Memory) -> Option<u32>
    ensures value { result ≡ location_number_of at.now locals.now m.now }
    ensures fits { IfSome result (λ n. n < 2 ^ bit_count at.now.width) }
{
    match at.place.area {
        Area::L => locals.number(at.frame, at.place.byte, at.place.bit, at.width),
        _ => m.read(at.place, at.width).ok(),
    }
}

/// The number at a place.
#[tactic(auto, unfolding(crate::specs::Places::number_read_at))]
#[inline(always)]
pub(crate) fn read(at: &Location, s: &Running, m: &Memory) -> Result<u32, u8>
    ensures value { result ≡ read_of at.now (local_of s.now) m.now }
    ensures fits { IfOk result (λ n. n < 2 ^ bit_count at.now.width) }
{
    match location_number(at, &s.locals, m) {
        Some(number) => Ok(number),
        None => Err(Access::Reading.absent(at.place.area)),
    }
}

/// The number at a place of an area.
#[inline(never)]
#[tactic(auto, unfolding(crate::specs::Places::direct_number, crate::specs::Places::open_area_location))]
pub(crate) fn direct_number(
    area: Area,
    byte: u16,
    bit: u8,
    width: Width,
    s: &Running,
    m: &Memory,
) -> Result<u32, u8>
    ensures value { result ≡ direct_of area byte bit width (local_of s.now) m.now }
    ensures fits { IfOk result (λ n. n < 2 ^ bit_count width) }
{
    let at = in_area(area, byte, bit, width, s)?;
    let number = read(&at, s, m)?;
    Ok(number)
}

/// The double word at a pointer's own place.
fn pointer(from: Area, byte: u16, s: &Running, m: &Memory) -> Result<u32, u8>
    ensures { result ≡ pointer_of from byte Width.Dword (local_of s.now) m.now }
{
    direct_number(from, byte, 0, Width::Dword, s, m)
}

/// The word at the own place of the number of a timer, counter or data block.
pub(crate) fn pointer_word(from: Area, byte: u16, s: &Running, m: &Memory) -> Result<u16, u8>
    ensures { result ≡ pointer_of from byte Width.Word (local_of s.now) m.now }
{
    let number = direct_number(from, byte, 0, Width::Word, s, m)?;
    Ok(number as u16)
}

fn is_aligned(width: Width, n: u32) -> bool
    ensures { result ≡ is_aligned_of width n }
{
    match width {
        Width::Bit => true,
        _ => n % 8 == 0,
    }
}

fn at_pointer(area: Area, width: Width, n: u32, s: &Running) -> Result<Location, u8>
    ensures { result ≡ at_pointer_of area width n (local_of s.now) }
{
    in_area(area, ((n >> 3) % 0x1_0000) as u16, (n % 8) as u8, width, s)
}

#[tactic(auto, unfolding(crate::specs::Places::pointer_location))]
fn by_pointer(access: Access, area: Area, width: Width, n: u32, s: &Running) -> Result<Location, u8>
    ensures { result ≡ by_pointer_of access area width n (local_of s.now) }
{
    if !is_aligned(width, n) {
        return Err(access.error(error_codes::ALIGNMENT_ERROR));
    }
    at_pointer(area, width, n, s)
}

fn in_named(access: Access, area: Area, width: Width, n: u32, s: &Running) -> Result<Location, u8>
    ensures { (named : Place) → named.area ≡ area →
        result ≡ in_named_of access (Some named) width n (local_of s.now) }
{
    area_location(
        access,
        area,
        ((n >> 3) % 0x1_0000) as u16,
        (n % 8) as u8,
        width,
        s,
    )
}

#[tactic(auto, unfolding(crate::specs::Places::area_crossing_location))]
fn by_crossing(
    access: Access,
    width: Width,
    address: u32,
    n: u32,
    s: &Running,
) -> Result<Location, u8>
    ensures { result ≡ by_crossing_of access width address n (local_of s.now) }
{
    if !is_aligned(width, n) {
        return Err(access.error(error_codes::ALIGNMENT_ERROR));
    }
    match place_of_pointer(address) {
        Ok(place) => in_named(access, place.area, width, n, s),
        Err(_) => Err(access.error(error_codes::BAD_AREA)),
    }
}

#[inline(always)]
fn address_moved_by(address: u32, bits: u32) -> u32
    ensures { result ≡ moved_of address bits }
{
    (address % 0x8_0000 + bits % 0x8_0000) % 0x8_0000
}

fn address(register: u8, s: &Running) -> u32
    ensures { result ≡ address_of register (local_of s.now) }
{
    if register == AR1_NUMBER {
        s.regs.ar1
    } else {
        s.regs.ar2
    }
}

fn by_register(
    access: Access,
    area: Option<Area>,
    width: Width,
    address: u32,
    bits: u32,
    s: &Running,
) -> Result<Location, u8>
    ensures { result ≡ by_register_of access area width address bits (local_of s.now) }
{
    match area {
        Some(area) => by_pointer(access, area, width, address_moved_by(address, bits), s),
        None => by_crossing(access, width, address, address_moved_by(address, bits), s),
    }
}

fn of_binding(binding: Option<Binding>) -> Result<Location, u8>
    ensures { result ≡ of_binding_of binding }
{
    match binding {
        Some(
            Binding::AtPlace {
                place,
                width,
                frame,
            },
        ) => Ok(Location {
            place,
            width,
            frame,
        }),
        _ => Err(NO_OPERAND),
    }
}

/// The place of an operand that is to be read or written.
#[tactic(auto, unfolding(crate::specs::Places::operand_location))]
#[inline(never)]
pub(crate) fn operand_location(
    access: Access,
    operand: &Operand,
    s: &Running,
    m: &Memory,
) -> Result<Location, u8>
    ensures { result ≡ located_of access operand.now (local_of s.now) m.now }
{
    match *operand {
        Operand::Direct {
            area,
            width,
            byte,
            bit,
        } => area_location(access, area, byte, bit, width, s),
        Operand::ByMemory {
            area,
            width,
            from,
            byte,
        } => {
            let n = pointer(from, byte, s, m)?;
            by_pointer(access, area, width, n, s)
        }
        Operand::ByRegister {
            area,
            width,
            register,
            bits,
        } => by_register(access, area, width, address(register, s), bits, s),
        Operand::Parameter { index, .. } => of_binding(s.frame.bindings.get(index)),
        _ => Err(NO_OPERAND),
    }
}
