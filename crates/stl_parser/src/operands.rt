ghost use Rattle.std.specs.Prelude.{◌≡◌, IfOk, drop};
ghost use Rattle.stl_parser.specs.Operands.{
  place_bit,
  area_operand,
  place_of_data_address,
  block_place,
  block_path,
  operand_in_block,
  operand_behind_block,
  data_block_name,
  data_block_operand,
  direct_address_operand,
  condition_word_operand,
  lone_word_operand,
  is_operand_word,
  plain_path,
  operand_by_sized_register,
  word_operand,
  quoted_operand,
  mark_operand,
  sign_operand,
  local_path,
  operand_by_kind,
  operand_of,
  register_name_operand,
  operand_with_number,
  operand_with_pointer,
};
ghost use Rattle.stl_lexer.specs.Tokens.{text_of};

use crate::addresses::{address, bit, is_address_word};
use crate::keywords::{ClauseWord, has_kind, is_key, is_mark};
use crate::literals::{literal, text_between_quotes};
use crate::lookups::{address_kind_of, flag_of_word, register_entry};
use crate::numbers::number;
use crate::parsed_items::NumberedItem;
use crate::paths::{all_steps, path};
use crate::pointers::{by_register, indirect, pointer};
use crate::tables::AddressKind;
use plc_base::{BlockId, BlockKind, Width};
use std::alloc::{AllocError, Global};
use stl_ast::{BlockName, Letters, Name, Numbered, Operand, PathHead, PathStep, Sequence};
use stl_lexer::{Mark, Token, TokenKind};

/// The bit of an address of this width: `.` and its number for a bit, and nothing for a wider one.
#[tactic(auto, unfolding(crate::specs::Operands::place_bit))]
fn place_bit(source: &[u8], width: Width, rest: &[Token]) -> Option<u8>
    ensures { result ≡ place_bit source.now width rest.now }
{
    match width {
        Width::Bit => bit(source, rest),
        Width::Byte | Width::Word | Width::Dword => match rest {
            [] => Some(0),
            [_, ..] => None,
        },
    }
}

/// An address in an area.
#[tactic(auto, unfolding(crate::specs::Operands::area_operand))]
fn area(source: &[u8], area: Letters, width: Width, byte: u16, rest: &[Token]) -> Option<Operand>
    ensures { result ≡ area_operand source.now area width byte rest.now }
{
    let bit = place_bit(source, width, rest)?;
    Some(Operand::Direct {
        block: None,
        area,
        width,
        byte,
        bit,
    })
}

/// Width, byte and bit of an address of a data block, as `DBW 2`.
#[tactic(auto, unfolding(crate::specs::Operands::place_of_data_address))]
fn place(source: &[u8], address: AddressKind, byte: u16, rest: &[Token]) -> Option<(Width, u16, u8)>
    ensures { result ≡ place_of_data_address source.now address byte rest.now }
{
    match address {
        AddressKind::Area {
            letters: Letters::Db,
            width,
        } => {
            let bit = place_bit(source, width, rest)?;
            Some((width, byte, bit))
        }
        _ => None,
    }
}

/// Width, byte and bit of the address behind a data block and its `.`, as in `DB1.DBW 2`.
#[tactic(auto, unfolding(crate::specs::Operands::block_place))]
fn block_place(source: &[u8], tokens: &[Token]) -> Option<(Width, u16, u8)>
    ensures { result ≡ block_place source.now tokens.now }
{
    let NumberedItem(address, byte, rest) = address(source, tokens)?;
    place(source, address, byte, rest)
}

/// A component of a data block, behind the block and the `.`.
#[tactic(auto, unfolding(crate::specs::Operands::block_path))]
fn block_path(
    alloc: Global,
    source: &[u8],
    name: BlockName,
    tokens: &[Token],
) -> Result<Option<Operand>, AllocError>
    ensures { IfOk result (λ found. found ≡ block_path source.now name tokens.now) }
{
    let [token, rest @ ..] = tokens else {
        return Ok(None);
    };
    if !has_kind(token, TokenKind::Word) {
        return Ok(None);
    }
    let mut first = Vec::new(alloc);
    first.push(PathStep::Named {
        name: Name::new(alloc, token.text(source))?,
    })?;
    let Some(steps) = all_steps(alloc, source, first, rest)? else {
        return Ok(None);
    };
    Ok(Some(Operand::Named {
        head: PathHead::InBlock { name },
        steps,
    }))
}

/// What stands in a data block, behind the block and the `.`: an address, else a component.
#[tactic(auto, unfolding(crate::specs::Operands::operand_in_block))]
fn in_block(
    alloc: Global,
    source: &[u8],
    name: BlockName,
    tokens: &[Token],
) -> Result<Option<Operand>, AllocError>
    ensures { IfOk result (λ found. found ≡ operand_in_block source.now name tokens.now) }
{
    match block_place(source, tokens) {
        Some((width, byte, bit)) => {
            let block = Some(name);
            Ok(Some(Operand::Direct {
                block,
                area: Letters::Db,
                width,
                byte,
                bit,
            }))
        }
        None => block_path(alloc, source, name, tokens),
    }
}

/// `.` and what stands in a data block.
#[tactic(auto, unfolding(crate::specs::Operands::operand_behind_block))]
fn behind_block(
    alloc: Global,
    source: &[u8],
    name: BlockName,
    tokens: &[Token],
) -> Result<Option<Operand>, AllocError>
    ensures { IfOk result (λ found. found ≡ operand_behind_block source.now name tokens.now) }
{
    let [dot, rest @ ..] = tokens else {
        return Ok(None);
    };
    if is_mark(source, dot, Mark::Dot) {
        in_block(alloc, source, name, rest)
    } else {
        Ok(None)
    }
}

/// The data block with this number.
fn data_block_name(number: u16) -> BlockName
    ensures { result ≡ data_block_name number }
{
    let id = BlockId {
        kind: BlockKind::Db,
        number,
    };
    BlockName::Number { id }
}

/// A data block by number: alone, for OPN, or with what stands in it.
#[tactic(auto, unfolding(crate::specs::Operands::data_block_operand))]
fn data_block(
    alloc: Global,
    source: &[u8],
    number: u16,
    tokens: &[Token],
) -> Result<Option<Operand>, AllocError>
    ensures { IfOk result (λ found. found ≡ data_block_operand source.now number tokens.now) }
{
    let name = data_block_name(number);
    match tokens {
        [] => Ok(Some(Operand::OpenBlock { di: false, name })),
        [_, ..] => behind_block(alloc, source, name, tokens),
    }
}

/// An operand that is letters and a number.
#[tactic(auto, unfolding(crate::specs::Operands::direct_address_operand))]
fn direct(
    alloc: Global,
    source: &[u8],
    address: AddressKind,
    number: u16,
    rest: &[Token],
) -> Result<Option<Operand>, AllocError>
    ensures { IfOk result (λ found. found
        ≡ direct_address_operand source.now address number rest.now) }
{
    match address {
        AddressKind::Area { letters, width } => Ok(area(source, letters, width, number, rest)),
        AddressKind::Timer => match rest {
            [] => Ok(Some(Operand::Timer { number })),
            [_, ..] => Ok(None),
        },
        AddressKind::Counter => match rest {
            [] => Ok(Some(Operand::Counter { number })),
            [_, ..] => Ok(None),
        },
        AddressKind::Block { di: false } => data_block(alloc, source, number, rest),
        AddressKind::Block { di: true } => match rest {
            [] => {
                let name = data_block_name(number);
                Ok(Some(Operand::OpenBlock { di: true, name }))
            }
            [_, ..] => Ok(None),
        },
    }
}

/// A condition of the status word.
#[tactic(auto, unfolding(crate::specs::Operands::condition_word_operand))]
fn condition(source: &[u8], token: &Token) -> Option<Operand>
    ensures { result ≡ condition_word_operand source.now token.now }
{
    let flag = flag_of_word(token.text(source))?;
    Some(Operand::OfStatus { flag })
}

/// A register that an instruction has as an operand.
#[tactic(auto, unfolding(crate::specs::Operands::register_name_operand))]
fn other(alloc: Global, source: &[u8], token: &Token) -> Result<Option<Operand>, AllocError>
    ensures { IfOk result (λ found. found ≡ register_name_operand source.now token.now) }
{
    match register_entry(token.text(source)) {
        Some(true) => {
            let name = Name::new(alloc, token.text(source))?;
            Ok(Some(Operand::Other { name }))
        }
        _ => Ok(None),
    }
}

/// A word that stands alone as an operand: a condition of the status word or a register.
#[tactic(auto, unfolding(crate::specs::Operands::lone_word_operand))]
fn alone(
    alloc: Global,
    source: &[u8],
    token: &Token,
    rest: &[Token],
) -> Result<Option<Operand>, AllocError>
    ensures { IfOk result (λ found. found ≡ lone_word_operand source.now token.now rest.now) }
{
    let [] = rest else {
        return Ok(None);
    };
    match condition(source, token) {
        Some(operand) => Ok(Some(operand)),
        None => other(alloc, source, token),
    }
}

/// Whether a word means something as an operand, so that no path begins with it.
#[tactic(auto, unfolding(crate::specs::Operands::is_operand_word))]
fn is_operand_word(source: &[u8], token: &Token) -> bool
    ensures { result ≡ is_operand_word source.now token.now }
{
    let word = token.text(source);
    is_address_word(word)
        || flag_of_word(word).is_some()
        || register_entry(word).is_some()
        || is_key(source, token, ClauseWord::True)
        || is_key(source, token, ClauseWord::False)
}

/// A path that begins with a word.
#[tactic(auto, unfolding(crate::specs::Operands::plain_path))]
fn plain_path(
    alloc: Global,
    source: &[u8],
    token: &Token,
    rest: &[Token],
) -> Result<Option<Operand>, AllocError>
    ensures { IfOk result (λ found. found ≡ plain_path source.now token.now rest.now) }
{
    if is_operand_word(source, token) {
        return Ok(None);
    }
    let name = Name::new(alloc, token.text(source))?;
    path(alloc, source, PathHead::Local { name }, rest)
}

/// B, W or D before a pointer in a register that has the area.
#[tactic(auto, unfolding(crate::specs::Operands::operand_by_sized_register))]
fn operand_by_sized_register(source: &[u8], token: &Token, rest: &[Token]) -> Option<Operand>
    ensures { result ≡ operand_by_sized_register source.now token.now rest.now }
{
    if is_key(source, token, ClauseWord::B) {
        by_register(source, None, Width::Byte, rest)
    } else if is_key(source, token, ClauseWord::W) {
        by_register(source, None, Width::Word, rest)
    } else if is_key(source, token, ClauseWord::D) {
        by_register(source, None, Width::Dword, rest)
    } else {
        None
    }
}

/// Letters of an address with their number. `tokens` begin with the letters.
#[tactic(auto, unfolding(crate::specs::Operands::operand_with_number))]
fn with_number(
    alloc: Global,
    source: &[u8],
    tokens: &[Token],
) -> Result<Option<Operand>, AllocError>
    ensures { IfOk result (λ found. found ≡ operand_with_number source.now tokens.now) }
{
    match address(source, tokens) {
        Some(NumberedItem(address, number, rest)) => direct(alloc, source, address, number, rest),
        None => Ok(None),
    }
}

/// Letters of an address with a pointer in brackets.
#[tactic(auto, unfolding(crate::specs::Operands::operand_with_pointer))]
fn with_pointer(source: &[u8], token: &Token, rest: &[Token]) -> Option<Operand>
    ensures { result ≡ operand_with_pointer source.now token.now rest.now }
{
    let address = address_kind_of(token.text(source))?;
    indirect(source, address, rest)
}

/// An operand that begins with a word. `tokens` are the word and the rest.
#[tactic(auto, unfolding(crate::specs::Operands::word_operand))]
fn word_operand(
    alloc: Global,
    source: &[u8],
    token: &Token,
    rest: &[Token],
    tokens: &[Token],
) -> Result<Option<Operand>, AllocError>
    ensures { IfOk result
        (λ found. found ≡ word_operand source.now token.now rest.now tokens.now) }
{
    if let Some(operand) = alone(alloc, source, token, rest)? {
        return Ok(Some(operand));
    }
    if let Some(operand) = with_number(alloc, source, tokens)? {
        return Ok(Some(operand));
    }
    if let Some(operand) = with_pointer(source, token, rest) {
        return Ok(Some(operand));
    }
    if let Some(operand) = operand_by_sized_register(source, token, rest) {
        return Ok(Some(operand));
    }
    plain_path(alloc, source, token, rest)
}

/// An operand that begins with a quoted name: a symbol, or what stands in a data block.
#[tactic(auto, unfolding(crate::specs::Operands::quoted_operand))]
fn quoted_operand(
    alloc: Global,
    source: &[u8],
    token: &Token,
    rest: &[Token],
) -> Result<Option<Operand>, AllocError>
    ensures { IfOk result (λ found. found ≡ quoted_operand source.now token.now rest.now) }
{
    let name = Name::new(alloc, text_between_quotes(token.text(source)))?;
    match rest {
        [] => {
            let steps = Sequence::from_vec(Vec::new(alloc));
            Ok(Some(Operand::Named {
                head: PathHead::Symbol { name },
                steps,
            }))
        }
        [_, ..] => behind_block(alloc, source, BlockName::Quoted { name }, rest),
    }
}

/// An operand that begins with a mark: a pointer constant, or a bit by a register that has the
/// area. `tokens` are the mark and the rest.
#[tactic(auto, unfolding(crate::specs::Operands::mark_operand))]
fn mark_operand(source: &[u8], token: &Token, rest: &[Token], tokens: &[Token]) -> Option<Operand>
    ensures { result ≡ mark_operand source.now token.now rest.now tokens.now }
{
    if is_mark(source, token, Mark::Pointer) {
        pointer(source, rest)
    } else {
        by_register(source, None, Width::Bit, tokens)
    }
}

/// A sign word that stands alone as an operand.
#[tactic(auto, unfolding(crate::specs::Operands::sign_operand))]
fn sign_operand(source: &[u8], token: &Token, rest: &[Token]) -> Option<Operand>
    ensures { result ≡ sign_operand source.now token.now rest.now }
{
    match rest {
        [] => condition(source, token),
        [_, ..] => None,
    }
}

/// The name behind the `#` of a local name.
pub(crate) fn local_name(alloc: Global, source: &[u8], token: &Token) -> Result<Name, AllocError>
    ensures { IfOk result (λ name. name ≡ drop 1 (text_of source.now token.now)) }
{
    match token.text(source) {
        [] => Name::new(alloc, &[]),
        [_, name @ ..] => Name::new(alloc, name),
    }
}

/// A path that begins with a local name.
#[tactic(auto, unfolding(crate::specs::Operands::local_path))]
fn local_path(
    alloc: Global,
    source: &[u8],
    token: &Token,
    rest: &[Token],
) -> Result<Option<Operand>, AllocError>
    ensures { IfOk result (λ found. found ≡ local_path source.now token.now rest.now) }
{
    let name = local_name(alloc, source, token)?;
    path(alloc, source, PathHead::Local { name }, rest)
}

/// An operand that is no constant, by the kind of its first token. `tokens` are it and the rest.
#[tactic(auto, unfolding(crate::specs::Operands::operand_by_kind))]
fn operand_by_kind(
    alloc: Global,
    source: &[u8],
    token: &Token,
    rest: &[Token],
    tokens: &[Token],
) -> Result<Option<Operand>, AllocError>
    ensures { IfOk result (λ found. found
        ≡ operand_by_kind source.now token.now rest.now tokens.now token.now.kind) }
{
    match token.kind {
        TokenKind::Word => word_operand(alloc, source, token, rest, tokens),
        TokenKind::Quoted => quoted_operand(alloc, source, token, rest),
        TokenKind::Local => local_path(alloc, source, token, rest),
        TokenKind::Mark => Ok(mark_operand(source, token, rest, tokens)),
        TokenKind::SignWord => Ok(sign_operand(source, token, rest)),
        _ => Ok(None),
    }
}

/// The operand that these tokens are.
#[tactic(auto, unfolding(crate::specs::Operands::operand_of))]
pub(crate) fn operand(
    alloc: Global,
    source: &[u8],
    tokens: &[Token],
) -> Result<Option<Operand>, AllocError>
    ensures { IfOk result (λ found. found ≡ operand_of source.now tokens.now) }
{
    let [token, rest @ ..] = tokens else {
        return Ok(Some(Operand::Nothing));
    };
    match literal(source, tokens) {
        Some(value) => Ok(Some(Operand::Constant { value })),
        None => operand_by_kind(alloc, source, token, rest, tokens),
    }
}
