ghost use Rattle.std.specs.Prelude.{◌≡◌};
ghost use Rattle.std.specs.Option.{option_and_then};
ghost use Rattle.stl_parser.specs.Addresses.{address_at};
ghost use Rattle.stl_parser.specs.Operands.{
  register_number,
  offset_of,
  register_pointer,
  operand_by_register,
  holds_pointer,
  pointer_close,
  pointer_end,
  memory_pointer,
  operand_by_memory_number,
  operand_by_pointer,
  indirect_operand,
  area_pointer,
  plain_pointer,
  pointer_constant_operand,
};

use crate::addresses::{address, bit};
use crate::keywords::{ClauseWord, has_kind, is_key, is_mark};
use crate::numbers::number;
use crate::parsed_items::NumberedItem;
use crate::tables::AddressKind;
use plc_base::Width;
use stl_ast::{Letters, Numbered, Operand};
use stl_lexer::{Mark, Token, TokenKind};

/// The number of the address register AR1.
const AR1_REGISTER: u8 = 1;

/// The number of the address register AR2.
const AR2_REGISTER: u8 = 2;

/// The number of an address register.
#[tactic(auto, unfolding(crate::specs::Operands::register_number))]
fn register_number(source: &[u8], token: &Token) -> Option<u8>
    ensures { result ≡ register_number source.now token.now }
{
    if is_key(source, token, ClauseWord::Ar1) {
        Some(AR1_REGISTER)
    } else if is_key(source, token, ClauseWord::Ar2) {
        Some(AR2_REGISTER)
    } else {
        None
    }
}

/// `P#n.b` with n 0 to 65,535 and b 0 to 7, counted in bits. The last two tokens are `.` and b.
#[tactic(auto, unfolding(crate::specs::Operands::offset_of))]
fn offset(source: &[u8], prefix: &Token, byte: &Token, bit_tokens: &[Token]) -> Option<u32>
    ensures { result ≡ offset_of source.now prefix.now byte.now bit_tokens.now }
{
    if !is_mark(source, prefix, Mark::Pointer) {
        return None;
    }
    let byte = number(source, byte)?;
    let bit = bit(source, bit_tokens)?;
    Some(8 * u32::from(byte) + u32::from(bit))
}

/// `[AR1, P#n.b]` that is all of the tokens: the register, and the constant in bits.
#[tactic(auto, unfolding(crate::specs::Operands::register_pointer))]
fn register_pointer(source: &[u8], tokens: &[Token]) -> Option<(u8, u32)>
    ensures { result ≡ register_pointer source.now tokens.now }
{
    let [open, register, comma, prefix, byte, dot, bit, close] = tokens else {
        return None;
    };
    if is_mark(source, open, Mark::OpenBracket)
        && is_mark(source, comma, Mark::Comma)
        && is_mark(source, close, Mark::CloseBracket)
    {
        let register = register_number(source, register)?;
        let bits = offset(source, prefix, byte, &[*dot, *bit])?;
        Some((register, bits))
    } else {
        None
    }
}

/// An operand by an address register; `area` is None where the register has the area.
#[tactic(auto, unfolding(crate::specs::Operands::operand_by_register))]
pub(crate) fn by_register(
    source: &[u8],
    area: Option<Letters>,
    width: Width,
    tokens: &[Token],
) -> Option<Operand>
    ensures { result ≡ operand_by_register source.now area width tokens.now }
{
    let (register, bits) = register_pointer(source, tokens)?;
    Some(Operand::ByRegister {
        area,
        width,
        register,
        bits,
    })
}

/// Whether an area may hold a pointer: M, L, DB or DI.
#[tactic(auto, unfolding(crate::specs::Operands::holds_pointer))]
fn holds_pointer(area: Letters) -> bool
    ensures { result ≡ holds_pointer area }
{
    matches!(area, Letters::M | Letters::L | Letters::Db | Letters::Di)
}

/// `]` behind an area that holds a pointer.
#[tactic(auto, unfolding(crate::specs::Operands::pointer_close))]
fn pointer_close(
    source: &[u8],
    area: Letters,
    byte: u16,
    tokens: &[Token],
) -> Option<(Letters, u16)>
    ensures { result ≡ pointer_close source.now area byte tokens.now }
{
    let [close] = tokens else {
        return None;
    };
    if holds_pointer(area) && is_mark(source, close, Mark::CloseBracket) {
        Some((area, byte))
    } else {
        None
    }
}

/// The area and the byte of a pointer in memory whose address was read, up to its `]`: the address
/// must have the width of a number or of a pointer.
#[tactic(auto, unfolding(crate::specs::Operands::pointer_end))]
fn pointer_end(
    source: &[u8],
    pointer: bool,
    address: AddressKind,
    byte: u16,
    tokens: &[Token],
) -> Option<(Letters, u16)>
    ensures { result ≡ pointer_end source.now pointer address byte tokens.now }
{
    match address {
        AddressKind::Area {
            letters,
            width: Width::Dword,
        } => {
            if pointer {
                pointer_close(source, letters, byte, tokens)
            } else {
                None
            }
        }
        AddressKind::Area {
            letters,
            width: Width::Word,
        } => {
            if pointer {
                None
            } else {
                pointer_close(source, letters, byte, tokens)
            }
        }
        _ => None,
    }
}

/// `[MD n]` for a pointer, or `[MW n]` for a number, that is all of the tokens.
#[tactic(auto, unfolding(crate::specs::Operands::memory_pointer))]
fn memory_pointer(source: &[u8], pointer: bool, tokens: &[Token]) -> Option<(Letters, u16)>
    ensures { result ≡ memory_pointer source.now pointer tokens.now }
{
    let [open, rest @ ..] = tokens else {
        return None;
    };
    if !is_mark(source, open, Mark::OpenBracket) {
        return None;
    }
    let NumberedItem(address, byte, rest) = address(source, rest)?;
    pointer_end(source, pointer, address, byte, rest)
}

/// A timer, a counter or a data block whose number stands in memory.
#[tactic(auto, unfolding(crate::specs::Operands::operand_by_memory_number))]
fn number_by(source: &[u8], what: Numbered, tokens: &[Token]) -> Option<Operand>
    ensures { result ≡ operand_by_memory_number source.now what tokens.now }
{
    let (from, byte) = memory_pointer(source, false, tokens)?;
    Some(Operand::NumberBy { what, from, byte })
}

/// An area with a pointer, in memory or in a register.
#[tactic(auto, unfolding(crate::specs::Operands::operand_by_pointer))]
fn area_by(source: &[u8], area: Letters, width: Width, tokens: &[Token]) -> Option<Operand>
    ensures { result ≡ operand_by_pointer source.now area width tokens.now }
{
    match memory_pointer(source, true, tokens) {
        Some((from, byte)) => Some(Operand::ByMemory {
            area,
            width,
            from,
            byte,
        }),
        None => by_register(source, Some(area), width, tokens),
    }
}

/// An operand that is letters and a pointer in brackets.
#[tactic(auto, unfolding(crate::specs::Operands::indirect_operand))]
pub(crate) fn indirect(source: &[u8], address: AddressKind, tokens: &[Token]) -> Option<Operand>
    ensures { result ≡ indirect_operand source.now address tokens.now }
{
    match address {
        AddressKind::Area { letters, width } => area_by(source, letters, width, tokens),
        AddressKind::Timer => number_by(source, Numbered::Timer, tokens),
        AddressKind::Counter => number_by(source, Numbered::Counter, tokens),
        AddressKind::Block { di: false } => number_by(source, Numbered::Db, tokens),
        AddressKind::Block { di: true } => number_by(source, Numbered::Di, tokens),
    }
}

/// A pointer constant with an area, behind `P#`.
#[tactic(auto, unfolding(crate::specs::Operands::area_pointer))]
fn area_pointer(source: &[u8], address: AddressKind, byte: u16, rest: &[Token]) -> Option<Operand>
    ensures { result ≡ area_pointer source.now address byte rest.now }
{
    match address {
        AddressKind::Area {
            letters,
            width: Width::Bit,
        } => {
            let bit = bit(source, rest)?;
            let area = Some(letters);
            Some(Operand::Pointer { area, byte, bit })
        }
        _ => None,
    }
}

/// A pointer constant without an area, behind `P#`.
#[tactic(auto, unfolding(crate::specs::Operands::plain_pointer))]
fn plain_pointer(source: &[u8], tokens: &[Token]) -> Option<Operand>
    ensures { result ≡ plain_pointer source.now tokens.now }
{
    let [token, rest @ ..] = tokens else {
        return None;
    };
    let byte = number(source, token)?;
    let bit = bit(source, rest)?;
    Some(Operand::Pointer {
        area: None,
        byte,
        bit,
    })
}

/// The pointer constant of an address, behind `P#`.
fn address_pointer(source: &[u8], tokens: &[Token]) -> Option<Operand>
    ensures { result ≡ option_and_then
        (λ r. area_pointer source.now r.0 r.1 r.2) (address_at source.now tokens.now) }
{
    let NumberedItem(address, byte, rest) = address(source, tokens)?;
    area_pointer(source, address, byte, rest)
}

/// The pointer constant that stands behind `P#`.
#[tactic(auto, unfolding(crate::specs::Operands::pointer_constant_operand))]
pub(crate) fn pointer(source: &[u8], tokens: &[Token]) -> Option<Operand>
    ensures { result ≡ pointer_constant_operand source.now tokens.now }
{
    match plain_pointer(source, tokens) {
        Some(pointer) => Some(pointer),
        None => address_pointer(source, tokens),
    }
}
