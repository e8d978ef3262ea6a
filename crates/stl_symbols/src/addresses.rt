ghost use Rattle.std.specs.Prelude.{◌≡◌, ◌≤◌, ◌==◌, length, map, find, not, bytes_eq};
ghost use Rattle.std.specs.Char.{is_ascii_digit};
ghost use Rattle.std.specs.List.{list_any, prefix_len};
ghost use Rattle.std.specs.Option.{option_map};
ghost use Rattle.stl_symbols.specs.Address.{
  address_letters,
  address_of,
  bit_address,
  bit_behind,
  has_type,
  names_type_among,
  letters_spelled_as,
  number_of_address,
  numbered_address,
  letters_in_language,
  type_names_of_width,
  variable_address,
};

use crate::languages::Language;
use crate::targets::Target;
use plc_base::{Area, BlockId, BlockKind, Place, Width, decimal_up_to};

/// The greatest number of an address.
const LAST_NUMBER: u32 = 65_535;

/// The greatest number of a bit in its byte.
const LAST_BIT: u32 = 7;

/// What the letters of an address stand for.
#[derive(Clone, Copy, Debug, PartialEq, Eq)]
pub(crate) enum AddressLetters {
    Variable { area: Area, width: Width },
    Timer,
    Counter,
    Block { kind: BlockKind },
    NoSymbol,
}

/// The address of a line: what its symbol names, or that of a variable table, a system function
/// block or a system data block, which gives no symbol.
#[derive(Clone, Copy, Debug, PartialEq, Eq)]
pub(crate) enum SymbolAddress {
    Names { target: Target },
    NoSymbol,
}

/// The letters of addresses in English and in German.
pub static LETTERS: [(&[u8], &[u8], AddressLetters); 29] = [
    (
        b"I",
        b"E",
        AddressLetters::Variable {
            area: Area::I,
            width: Width::Bit,
        },
    ),
    (
        b"IB",
        b"EB",
        AddressLetters::Variable {
            area: Area::I,
            width: Width::Byte,
        },
    ),
    (
        b"IW",
        b"EW",
        AddressLetters::Variable {
            area: Area::I,
            width: Width::Word,
        },
    ),
    (
        b"ID",
        b"ED",
        AddressLetters::Variable {
            area: Area::I,
            width: Width::Dword,
        },
    ),
    (
        b"Q",
        b"A",
        AddressLetters::Variable {
            area: Area::Q,
            width: Width::Bit,
        },
    ),
    (
        b"QB",
        b"AB",
        AddressLetters::Variable {
            area: Area::Q,
            width: Width::Byte,
        },
    ),
    (
        b"QW",
        b"AW",
        AddressLetters::Variable {
            area: Area::Q,
            width: Width::Word,
        },
    ),
    (
        b"QD",
        b"AD",
        AddressLetters::Variable {
            area: Area::Q,
            width: Width::Dword,
        },
    ),
    (
        b"M",
        b"M",
        AddressLetters::Variable {
            area: Area::M,
            width: Width::Bit,
        },
    ),
    (
        b"MB",
        b"MB",
        AddressLetters::Variable {
            area: Area::M,
            width: Width::Byte,
        },
    ),
    (
        b"MW",
        b"MW",
        AddressLetters::Variable {
            area: Area::M,
            width: Width::Word,
        },
    ),
    (
        b"MD",
        b"MD",
        AddressLetters::Variable {
            area: Area::M,
            width: Width::Dword,
        },
    ),
    (
        b"PIB",
        b"PEB",
        AddressLetters::Variable {
            area: Area::P,
            width: Width::Byte,
        },
    ),
    (
        b"PIW",
        b"PEW",
        AddressLetters::Variable {
            area: Area::P,
            width: Width::Word,
        },
    ),
    (
        b"PID",
        b"PED",
        AddressLetters::Variable {
            area: Area::P,
            width: Width::Dword,
        },
    ),
    (
        b"PQB",
        b"PAB",
        AddressLetters::Variable {
            area: Area::P,
            width: Width::Byte,
        },
    ),
    (
        b"PQW",
        b"PAW",
        AddressLetters::Variable {
            area: Area::P,
            width: Width::Word,
        },
    ),
    (
        b"PQD",
        b"PAD",
        AddressLetters::Variable {
            area: Area::P,
            width: Width::Dword,
        },
    ),
    (b"T", b"T", AddressLetters::Timer),
    (b"C", b"Z", AddressLetters::Counter),
    (
        b"OB",
        b"OB",
        AddressLetters::Block {
            kind: BlockKind::Ob,
        },
    ),
    (
        b"FB",
        b"FB",
        AddressLetters::Block {
            kind: BlockKind::Fb,
        },
    ),
    (
        b"FC",
        b"FC",
        AddressLetters::Block {
            kind: BlockKind::Fc,
        },
    ),
    (
        b"SFC",
        b"SFC",
        AddressLetters::Block {
            kind: BlockKind::Sfc,
        },
    ),
    (
        b"DB",
        b"DB",
        AddressLetters::Block {
            kind: BlockKind::Db,
        },
    ),
    (
        b"UDT",
        b"UDT",
        AddressLetters::Block {
            kind: BlockKind::Udt,
        },
    ),
    (b"VAT", b"VAT", AddressLetters::NoSymbol),
    (b"SFB", b"SFB", AddressLetters::NoSymbol),
    (b"SDB", b"SDB", AddressLetters::NoSymbol),
];

/// The letters of an address as a language spells them.
fn letters_in<'a>(language: Language, english: &'a [u8], german: &'a [u8]) -> &'a [u8]
    ensures { result.now ≡ letters_in_language language english.now german.now }
{
    match language {
        Language::English => english,
        Language::German => german,
    }
}

/// What stands beside letters in a table.
fn letters_entry(
    language: Language,
    table: &[(&[u8], &[u8], AddressLetters)],
    word: &[u8],
) -> Option<AddressLetters>
    ensures { result ≡ option_map (λ e. e.2) (find
        (λ e. bytes_eq word.now (letters_in_language language e.0.now e.1.now)) table.now) }
{
    table
        .iter()
        .find(|entry| word == letters_in(language, entry.0, entry.1))
        .map(|entry| entry.2)
}

/// What stands beside letters in a table, whose letters a contract sees as bytes.
fn look_up(
    language: Language,
    table: &[(&[u8], &[u8], AddressLetters)],
    word: &[u8],
) -> Option<AddressLetters>
    ensures { result
        ≡ letters_spelled_as language (map (λ e. (e.0.now, e.1.now, e.2)) table.now) word.now }
{
    letters_entry(language, table, word)
}

/// What the letters of an address stand for.
#[tactic(auto, unfolding(crate::specs::Address::address_letters))]
fn letters_of(language: Language, word: &[u8]) -> Option<AddressLetters>
    ensures { result ≡ letters_spelled_as language address_letters word.now }
{
    look_up(language, &LETTERS, word)
}

/// The number of an address.
#[tactic(auto, using(plc_base::proofs::DecimalLemmas::decimal_range))]
fn number_of_address(text: &[u8]) -> Option<u16>
    ensures { result ≡ number_of_address text.now }
{
    let number = decimal_up_to(text, LAST_NUMBER)?;
    Some(number as u16)
}

/// The address of a variable that isn't in a data block.
fn variable(area: Area, width: Width, byte: u16, bit: u8) -> SymbolAddress
    ensures { result ≡ variable_address area width byte bit }
{
    let place = Place {
        area,
        number: 0,
        byte,
        bit,
    };
    SymbolAddress::Names {
        target: Target::Variable { place, width },
    }
}

/// How many bytes stand before the first point.
fn point_of(text: &[u8]) -> usize
    ensures value { result ≡ prefix_len (λ b. not (b == 46)) text.now }
    ensures within { result ≤ length text.now }
{
    text.iter().take_while(|byte| **byte != b'.').count()
}

/// The number of a bit behind a point.
#[tactic(auto, using(plc_base::proofs::DecimalLemmas::decimal_range))]
fn bit_behind(text: &[u8]) -> Option<u8>
    ensures { result ≡ bit_behind text.now }
{
    match text {
        [] => None,
        [_point, digits @ ..] => {
            let bit = decimal_up_to(digits, LAST_BIT)?;
            Some(bit as u8)
        }
    }
}

/// The address of a bit, by what stands behind the letter of its area.
#[tactic(auto, unfolding(crate::specs::Address::bit_address))]
fn bit_address(area: Area, text: &[u8]) -> Option<SymbolAddress>
    ensures { result ≡ bit_address area text.now }
{
    let (number, behind) = text.split_at(point_of(text));
    let byte = number_of_address(number)?;
    let bit = bit_behind(behind)?;
    Some(variable(area, Width::Bit, byte, bit))
}

/// The address of letters and what stands behind them.
fn numbered_address(letters: AddressLetters, text: &[u8]) -> Option<SymbolAddress>
    ensures { result ≡ numbered_address letters text.now }
{
    let target = match letters {
        AddressLetters::Variable {
            area,
            width: Width::Bit,
        } => return bit_address(area, text),
        AddressLetters::Variable { area, width } => return Some(variable(
            area,
            width,
            number_of_address(text)?,
            0,
        )),
        AddressLetters::Timer => Target::Timer {
            number: number_of_address(text)?,
        },
        AddressLetters::Counter => Target::Counter {
            number: number_of_address(text)?,
        },
        AddressLetters::Block { kind } => Target::Block {
            id: BlockId {
                kind,
                number: number_of_address(text)?,
            },
        },
        AddressLetters::NoSymbol => {
            number_of_address(text)?;
            return Some(SymbolAddress::NoSymbol);
        }
    };
    Some(SymbolAddress::Names { target })
}

/// How many bytes stand before the first digit.
fn letters_len(text: &[u8]) -> usize
    ensures value { result ≡ prefix_len (λ b. not (is_ascii_digit b)) text.now }
    ensures within { result ≤ length text.now }
{
    text.iter()
        .take_while(|byte| !byte.is_ascii_digit())
        .count()
}

/// The address that a text without blanks is in a language.
#[tactic(auto, unfolding(crate::specs::Address::address_of))]
pub(crate) fn address_of(language: Language, text: &[u8]) -> Option<SymbolAddress>
    ensures { result ≡ address_of language text.now }
{
    let (letters, number) = text.split_at(letters_len(text));
    numbered_address(letters_of(language, letters)?, number)
}

/// Whether a text is one of these.
fn is_among(types: &[&[u8]], kind: &[u8]) -> bool
    ensures { result ≡ list_any (λ t. bytes_eq kind.now t.now) types.now }
{
    types.iter().any(|name| kind == *name)
}

/// Whether a text names a type of a variable of this width.
#[tactic(auto, unfolding(crate::specs::Address::type_names_of_width))]
fn is_variable_type(width: Width, kind: &[u8]) -> bool
    ensures { result ≡ names_type_among (type_names_of_width width) kind.now }
{
    match width {
        Width::Bit => is_among(&[b"BOOL"], kind),
        Width::Byte => is_among(&[b"BYTE", b"CHAR"], kind),
        Width::Word => is_among(&[b"WORD", b"INT", b"S5TIME", b"DATE"], kind),
        Width::Dword => is_among(&[b"DWORD", b"DINT", b"TIME", b"REAL", b"TIME_OF_DAY"], kind),
    }
}

/// Whether an address may have the type of this name; that of a block, or of an address that gives
/// no symbol, is any text.
#[tactic(auto, unfolding(crate::specs::Address::has_type))]
pub(crate) fn has_type(address: SymbolAddress, kind: &[u8]) -> bool
    ensures { result ≡ has_type address kind.now }
{
    match address {
        SymbolAddress::Names {
            target: Target::Variable { width, .. },
        } => is_variable_type(width, kind),
        SymbolAddress::Names {
            target: Target::Timer { .. },
        } => is_among(&[b"TIMER"], kind),
        SymbolAddress::Names {
            target: Target::Counter { .. },
        } => is_among(&[b"COUNTER"], kind),
        SymbolAddress::Names {
            target: Target::Block { .. },
        } => true,
        SymbolAddress::NoSymbol => true,
    }
}
