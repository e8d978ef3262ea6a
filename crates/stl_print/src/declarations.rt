ghost use Rattle.std.specs.Prelude.{◌≡◌, ◌++◌, OnOk};
ghost use Rattle.std.specs.List.{flat_map};
ghost use Rattle.stl_print.specs.Declarations.{
  array_pieces,
  behind_type,
  declaration_pieces,
  element_pieces,
  further_inits,
  init_pieces,
  inits_pieces,
  setting_pieces,
};
ghost use Rattle.stl_print.specs.Pieces.{with_pieces};

use crate::gaps::Gap;
use crate::literals::append_literal;
use crate::names::{append_block_name, append_path};
use crate::tokens::{append_mark, append_number, append_signed_number, append_token};
use crate::words::type_word;
use plc_base::NoMemory;
use stl_ast::{Bounds, Declaration, ElementType, Init, Setting};
use stl_lexer::Mark;

#[tactic(auto, unfolding(crate::specs::Declarations::array_pieces))]
fn append_array(bounds: &Bounds, out: &mut Vec<u8>) -> Result<(), NoMemory>
    ensures { OnOk result (out.new.items ≡ with_pieces out.old.items (array_pieces bounds.now)) }
{
    append_token(Gap::Blank, b"ARRAY", out)?;
    append_mark(Gap::Blank, Mark::OpenBracket, out)?;
    append_signed_number(Gap::Nothing, bounds.low, out)?;
    append_mark(Gap::Nothing, Mark::DotDot, out)?;
    append_signed_number(Gap::Nothing, bounds.high, out)?;
    append_mark(Gap::Nothing, Mark::CloseBracket, out)?;
    append_token(Gap::Blank, b"OF", out)
}

fn append_arrays(arrays: &[Bounds], out: &mut Vec<u8>) -> Result<(), NoMemory>
    ensures { OnOk result (out.new.items
        ≡ with_pieces out.old.items (flat_map array_pieces arrays.now)) }
{
    let mut left = arrays;
    while let [bounds, rest @ ..] = left {
        append_array(bounds, out)?;
        left = rest;
    }
    Ok(())
}

#[tactic(auto, unfolding(crate::specs::Declarations::element_pieces))]
fn append_element_type(gap: Gap, of: &ElementType, out: &mut Vec<u8>) -> Result<(), NoMemory>
    ensures { OnOk result
        (out.new.items ≡ with_pieces out.old.items (element_pieces gap of.now)) }
{
    match of {
        ElementType::Plain { kind } => append_token(gap, type_word(*kind), out),
        ElementType::Structure => append_token(gap, b"STRUCT", out),
        ElementType::Udt { name } => append_block_name(gap, name, out),
        ElementType::DateAndTime => append_token(gap, b"DATE_AND_TIME", out),
    }
}

#[tactic(auto, unfolding(crate::specs::Declarations::init_pieces))]
fn append_init(gap: Gap, init: &Init, out: &mut Vec<u8>) -> Result<(), NoMemory>
    ensures { OnOk result (out.new.items ≡ with_pieces out.old.items (init_pieces gap init.now)) }
{
    match init.count {
        None => append_literal(gap, &init.value, out),
        Some(count) => {
            append_number(gap, u32::from(count), out)?;
            append_mark(Gap::Blank, Mark::OpenParen, out)?;
            append_literal(Gap::Nothing, &init.value, out)?;
            append_mark(Gap::Nothing, Mark::CloseParen, out)
        }
    }
}

fn append_further_inits(inits: &[Init], out: &mut Vec<u8>) -> Result<(), NoMemory>
    ensures { OnOk result (out.new.items ≡ with_pieces out.old.items (further_inits inits.now)) }
{
    let mut left = inits;
    while let [init, rest @ ..] = left {
        append_mark(Gap::Nothing, Mark::Comma, out)?;
        append_init(Gap::Blank, init, out)?;
        left = rest;
    }
    Ok(())
}

fn append_inits(inits: &[Init], out: &mut Vec<u8>) -> Result<(), NoMemory>
    ensures { OnOk result (out.new.items ≡ with_pieces out.old.items (inits_pieces inits.now)) }
{
    match inits {
        [] => Ok(()),
        [first, rest @ ..] => {
            append_mark(Gap::Blank, Mark::Assign, out)?;
            append_init(Gap::Blank, first, out)?;
            append_further_inits(rest, out)
        }
    }
}

#[tactic(auto, unfolding(crate::specs::Declarations::behind_type))]
fn append_behind_type(of: &ElementType, inits: &[Init], out: &mut Vec<u8>) -> Result<(), NoMemory>
    ensures { OnOk result (out.new.items
        ≡ with_pieces out.old.items (behind_type of.now inits.now)) }
{
    match of {
        ElementType::Structure => Ok(()),
        _ => {
            append_inits(inits, out)?;
            append_mark(Gap::Nothing, Mark::Semicolon, out)
        }
    }
}

/// Appends a declaration behind a gap, that of a structure up to its `STRUCT`.
#[tactic(auto, unfolding(crate::specs::Declarations::declaration_pieces))]
pub(crate) fn append_declaration(
    gap: Gap,
    declaration: &Declaration,
    out: &mut Vec<u8>,
) -> Result<(), NoMemory>
    ensures { OnOk result (out.new.items
        ≡ with_pieces out.old.items (declaration_pieces gap declaration.now)) }
{
    append_token(gap, declaration.name.as_bytes(), out)?;
    append_mark(Gap::Blank, Mark::Colon, out)?;
    append_arrays(declaration.of.arrays.as_slice(), out)?;
    append_element_type(Gap::Blank, &declaration.of.of, out)?;
    append_behind_type(&declaration.of.of, declaration.init.as_slice(), out)
}

/// Appends a setting behind a gap.
#[tactic(auto, unfolding(crate::specs::Declarations::setting_pieces))]
pub(crate) fn append_setting(gap: Gap, setting: &Setting, out: &mut Vec<u8>) -> Result<(), NoMemory>
    ensures { OnOk result (out.new.items
        ≡ with_pieces out.old.items (setting_pieces gap setting.now)) }
{
    append_path(gap, setting.path.as_slice(), out)?;
    append_mark(Gap::Blank, Mark::Assign, out)?;
    append_literal(Gap::Blank, &setting.value, out)?;
    append_mark(Gap::Nothing, Mark::Semicolon, out)
}
