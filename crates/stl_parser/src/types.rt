ghost use Rattle.std.specs.Prelude.{◌≡◌, IfOk, [], ◌∷◌, length};
ghost use Rattle.std.specs.Option.{option_map, option_and_then};
ghost use Rattle.stl_parser.specs.Numbers.{int_at};
ghost use Rattle.stl_parser.specs.Literals.{literal_at};
ghost use Rattle.stl_parser.specs.Parts.{parts_from, complete_reading};
ghost use Rattle.stl_parser.specs.Types.{
  array_end,
  array_high,
  array_at,
  arrays_end,
  arrays_at,
  udt_of,
  simple_at,
  udt_at,
  element_at,
  counted_init_end,
  counted_init_at,
  init_at,
  next_init,
  end_of_tokens,
  init_list,
  single_init,
  init_of,
};

use crate::addresses::block;
use crate::keywords::{ClauseWord, has_kind, is_key, is_mark};
use crate::literals::{literal, literal_at};
use crate::lookups::simple_type_of;
use crate::numbers::{int, number};
use crate::parsed_items::ParsedItem;
use plc_base::BlockKind;
use std::alloc::{AllocError, Global};
use stl_ast::{BlockName, Bounds, ElementType, Init, Literal, Sequence};
use stl_lexer::{Mark, Token, TokenKind};

/// `] OF` behind the bounds of an array.
#[tactic(auto, unfolding(crate::specs::Types::array_end))]
fn array_end<'a>(
    source: &[u8],
    low: i32,
    high: i32,
    tokens: &'a [Token],
) -> Option<ParsedItem<'a, Bounds>>
    ensures { result ≡ array_end source.now low high tokens.now }
{
    let [close, of, rest @ ..] = tokens else {
        return None;
    };
    if is_mark(source, close, Mark::CloseBracket) && is_key(source, of, ClauseWord::Of) {
        Some(ParsedItem(Bounds { low, high }, rest))
    } else {
        None
    }
}

/// The upper bound and `] OF`, behind the `..`.
fn array_rest<'a>(source: &[u8], low: i32, tokens: &'a [Token]) -> Option<ParsedItem<'a, Bounds>>
    ensures { result
        ≡ option_and_then (λ r. array_end source.now low r.0 r.1)
        (int_at source.now tokens.now) }
{
    let ParsedItem(high, rest) = int(source, tokens)?;
    array_end(source, low, high, rest)
}

/// `.. high ] OF` behind the lower bound.
#[tactic(auto, unfolding(crate::specs::Types::array_high))]
fn array_high<'a>(source: &[u8], low: i32, tokens: &'a [Token]) -> Option<ParsedItem<'a, Bounds>>
    ensures { result ≡ array_high source.now low tokens.now }
{
    let [dots, rest @ ..] = tokens else {
        return None;
    };
    if is_mark(source, dots, Mark::DotDot) {
        array_rest(source, low, rest)
    } else {
        None
    }
}

/// The bounds of an array, behind its `[`.
fn array_bounds<'a>(source: &[u8], tokens: &'a [Token]) -> Option<ParsedItem<'a, Bounds>>
    ensures { result
        ≡ option_and_then (λ r. array_high source.now r.0 r.1) (int_at source.now tokens.now) }
{
    let ParsedItem(low, rest) = int(source, tokens)?;
    array_high(source, low, rest)
}

/// `ARRAY [ low .. high ] OF`, and what follows.
#[tactic(auto, unfolding(crate::specs::Types::array_at))]
fn array<'a>(source: &[u8], tokens: &'a [Token]) -> Option<ParsedItem<'a, Bounds>>
    ensures { result ≡ array_at source.now tokens.now }
{
    let [array, open, rest @ ..] = tokens else {
        return None;
    };
    if is_key(source, array, ClauseWord::Array) && is_mark(source, open, Mark::OpenBracket) {
        array_bounds(source, rest)
    } else {
        None
    }
}

/// The arrays of a type end where no further one stands.
#[tactic(auto, unfolding(crate::specs::Types::arrays_end))]
fn arrays_end<'a>(source: &[u8], tokens: &'a [Token]) -> Option<&'a [Token]>
    ensures { option_map (λ r. r.now) result ≡ arrays_end source.now tokens.now }
{
    match array(source, tokens) {
        None => Some(tokens),
        Some(_) => None,
    }
}

/// The arrays of a type, the outermost first, and what follows.
#[tactic(auto, using(crate::proofs::PartLemmas::parts_from_end, crate::proofs::PartLemmas::parts_from_stuck, crate::proofs::PartLemmas::parts_from_part, crate::proofs::PartLemmas::parts_from_over), unfolding(crate::specs::Types::arrays_at))]
pub(crate) fn arrays<'a>(
    alloc: Global,
    source: &[u8],
    tokens: &'a [Token],
) -> Result<Option<ParsedItem<'a, Sequence<Bounds>>>, AllocError>
    ensures { IfOk result (λ found. found ≡ arrays_at source.now tokens.now) }
{
    let mut read = Vec::new(alloc);
    let mut rest = tokens;
    for _done in 0..tokens.len() {
        if let Some(end) = arrays_end(source, rest) {
            return Ok(Some(ParsedItem(Sequence::from_vec(read), end)));
        }
        let Some(ParsedItem(bounds, more)) = array(source, rest) else {
            return Ok(None);
        };
        read.push(bounds)?;
        rest = more;
    }
    match arrays_end(source, rest) {
        Some(end) => Ok(Some(ParsedItem(Sequence::from_vec(read), end))),
        None => Ok(None),
    }
}

/// The name of a user-defined data type: UDT and its number, or a quoted name.
#[tactic(auto, unfolding(crate::specs::Types::udt_of))]
fn udt_name(name: BlockName) -> Option<BlockName>
    ensures { result ≡ udt_of name }
{
    match name {
        BlockName::Number { id } => match id.kind {
            BlockKind::Udt => Some(BlockName::Number { id }),
            _ => None,
        },
        BlockName::Quoted { name } => Some(BlockName::Quoted { name }),
    }
}

/// An elementary type or DATE_AND_TIME, and what follows.
#[tactic(auto, unfolding(crate::specs::Types::simple_at))]
fn simple<'a>(
    source: &[u8],
    token: &Token,
    rest: &'a [Token],
) -> Option<ParsedItem<'a, ElementType>>
    ensures { result ≡ simple_at source.now token.now rest.now }
{
    if !has_kind(token, TokenKind::Word) {
        return None;
    }
    if is_key(source, token, ClauseWord::DateAndTime) {
        return Some(ParsedItem(ElementType::DateAndTime, rest));
    }
    let kind = simple_type_of(token.text(source))?;
    Some(ParsedItem(ElementType::Plain { kind }, rest))
}

/// A user-defined data type, and what follows.
#[tactic(auto, unfolding(crate::specs::Types::udt_at))]
fn udt<'a>(
    alloc: Global,
    source: &[u8],
    tokens: &'a [Token],
) -> Result<Option<ParsedItem<'a, ElementType>>, AllocError>
    ensures { IfOk result (λ found. found ≡ udt_at source.now tokens.now) }
{
    let Some(ParsedItem(name, rest)) = block(alloc, source, tokens)? else {
        return Ok(None);
    };
    let Some(name) = udt_name(name) else {
        return Ok(None);
    };
    Ok(Some(ParsedItem(ElementType::Udt { name }, rest)))
}

/// An element type other than a structure, and what follows.
#[tactic(auto, unfolding(crate::specs::Types::element_at))]
pub(crate) fn element<'a>(
    alloc: Global,
    source: &[u8],
    tokens: &'a [Token],
) -> Result<Option<ParsedItem<'a, ElementType>>, AllocError>
    ensures { IfOk result (λ found. found ≡ element_at source.now tokens.now) }
{
    let [token, rest @ ..] = tokens else {
        return Ok(None);
    };
    match simple(source, token, rest) {
        Some(found) => Ok(Some(found)),
        None => udt(alloc, source, tokens),
    }
}

/// `)` behind the value of `n (value)`.
#[tactic(auto, unfolding(crate::specs::Types::counted_init_end))]
fn counted_end<'a>(
    source: &[u8],
    count: u16,
    value: Literal,
    tokens: &'a [Token],
) -> Option<ParsedItem<'a, Init>>
    ensures { result ≡ counted_init_end source.now count value tokens.now }
{
    let [token, rest @ ..] = tokens else {
        return None;
    };
    if is_mark(source, token, Mark::CloseParen) {
        let count = Some(count);
        Some(ParsedItem(Init { count, value }, rest))
    } else {
        None
    }
}

/// `n (value)`, and what follows.
#[tactic(auto, unfolding(crate::specs::Types::counted_init_at))]
fn counted_init<'a>(source: &[u8], tokens: &'a [Token]) -> Option<ParsedItem<'a, Init>>
    ensures { result ≡ counted_init_at source.now tokens.now }
{
    let [token, open, rest @ ..] = tokens else {
        return None;
    };
    if !is_mark(source, open, Mark::OpenParen) {
        return None;
    }
    let count = number(source, token)?;
    let ParsedItem(value, rest) = literal_at(source, rest)?;
    counted_end(source, count, value, rest)
}

/// An initial value, `n (value)` or a value, and what follows.
#[tactic(auto, unfolding(crate::specs::Types::init_at))]
fn init<'a>(source: &[u8], tokens: &'a [Token]) -> Option<ParsedItem<'a, Init>>
    ensures { result ≡ init_at source.now tokens.now }
{
    match counted_init(source, tokens) {
        Some(found) => Some(found),
        None => {
            let ParsedItem(value, rest) = literal_at(source, tokens)?;
            Some(ParsedItem(Init { count: None, value }, rest))
        }
    }
}

/// A further initial value, behind its comma.
#[tactic(auto, unfolding(crate::specs::Types::next_init))]
fn next_init<'a>(source: &[u8], tokens: &'a [Token]) -> Option<ParsedItem<'a, Init>>
    ensures { result ≡ next_init source.now tokens.now }
{
    let [token, rest @ ..] = tokens else {
        return None;
    };
    if is_mark(source, token, Mark::Comma) {
        init(source, rest)
    } else {
        None
    }
}

/// Nothing is left.
#[tactic(auto, unfolding(crate::specs::Types::end_of_tokens))]
fn at_end(tokens: &[Token]) -> Option<&[Token]>
    ensures { option_map (λ r. r.now) result ≡ end_of_tokens tokens.now }
{
    match tokens {
        [] => Some(tokens),
        [_, ..] => None,
    }
}

/// Further initial values behind the first ones, up to the end.
#[tactic(auto, using(crate::proofs::PartLemmas::parts_from_end, crate::proofs::PartLemmas::parts_from_stuck, crate::proofs::PartLemmas::parts_from_part, crate::proofs::PartLemmas::parts_from_over))]
fn further_inits<'a>(
    source: &[u8],
    first: Vec<Init>,
    tokens: &'a [Token],
) -> Result<Option<ParsedItem<'a, Sequence<Init>>>, AllocError>
    ensures { IfOk result (λ found. found
        ≡ parts_from end_of_tokens (next_init source.now) first.items
        (length tokens.now) tokens.now) }
{
    let mut read = first;
    let mut rest = tokens;
    for _done in 0..tokens.len() {
        if let Some(end) = at_end(rest) {
            return Ok(Some(ParsedItem(Sequence::from_vec(read), end)));
        }
        let Some(ParsedItem(init, more)) = next_init(source, rest) else {
            return Ok(None);
        };
        read.push(init)?;
        rest = more;
    }
    match at_end(rest) {
        Some(end) => Ok(Some(ParsedItem(Sequence::from_vec(read), end))),
        None => Ok(None),
    }
}

/// A list of initial values that is all of the tokens.
#[tactic(auto, unfolding(crate::specs::Types::init_list))]
fn init_list(
    alloc: Global,
    source: &[u8],
    tokens: &[Token],
) -> Result<Option<Sequence<Init>>, AllocError>
    ensures { IfOk result (λ found. found ≡ init_list source.now tokens.now) }
{
    let Some(ParsedItem(init, rest)) = init(source, tokens) else {
        return Ok(None);
    };
    let mut first = Vec::new(alloc);
    first.push(init)?;
    match further_inits(source, first, rest)? {
        Some(ParsedItem(inits, [])) => Ok(Some(inits)),
        _ => Ok(None),
    }
}

/// The one initial value that is all of the tokens.
#[tactic(auto, unfolding(crate::specs::Types::single_init))]
fn single_init(
    alloc: Global,
    source: &[u8],
    tokens: &[Token],
) -> Result<Option<Sequence<Init>>, AllocError>
    ensures { IfOk result (λ found. found ≡ single_init source.now tokens.now) }
{
    let Some(value) = literal(source, tokens) else {
        return Ok(None);
    };
    let mut inits = Vec::new(alloc);
    inits.push(Init { count: None, value })?;
    Ok(Some(Sequence::from_vec(inits)))
}

/// An array of elementary type has a list of initial values, and every other type one value.
#[tactic(auto, unfolding(crate::specs::Types::init_of))]
pub(crate) fn inits(
    alloc: Global,
    source: &[u8],
    arrays: &[Bounds],
    element: &ElementType,
    tokens: &[Token],
) -> Result<Option<Sequence<Init>>, AllocError>
    ensures { IfOk result
        (λ found. found ≡ init_of source.now arrays.now element.now tokens.now) }
{
    match arrays {
        [_] => match element {
            ElementType::Plain { kind: _ } => init_list(alloc, source, tokens),
            _ => single_init(alloc, source, tokens),
        },
        _ => single_init(alloc, source, tokens),
    }
}
