ghost use Rattle.std.specs.Prelude.{◌≡◌, ◌≤◌, ◌-◌, ℕ, List, length, take, not, filter, IfOk};
ghost use Rattle.std.specs.List.{suffix_len};
ghost use Rattle.plc_base.specs.Texts.{is_blank};
ghost use Rattle.plc_base.specs.declared.refusals.SourceFault.TheVariants.{Refused};
ghost use Rattle.stl_symbols.specs.Line.{columns_of_line};
ghost use Rattle.stl_symbols.specs.declared.languages.Language.TheVariants.{German};
ghost use Rattle.stl_symbols.specs.Symbols.{
  AddsDeclaration,
  ReadsSymbols,
  symbol_declaration,
  declaration_in_columns,
  is_name,
  symbols_in,
  symbols_limit,
  symbols_of,
  with_columns,
  with_declaration,
  with_line,
  with_symbol,
  without_blanks,
  without_last_blanks,
};

use crate::addresses::{SymbolAddress, address_of, has_type};
use crate::columns::{Columns, read_columns};
use crate::languages::Language;
use crate::symbols::{LONGEST_NAME, Symbol, Symbols};
use plc_base::{Refusal, SourceFault, first_line, is_blank};
use std::alloc::Global;

/// The most bytes of a symbols file.
pub const SYMBOLS_LIMIT: usize = 1_048_576;

/// The most symbols of a file.
const MOST_SYMBOLS: usize = 65_535;

/// Rule 14: a line that isn't one record of four fields.
const NO_RECORD: u16 = 14;

/// Rule 15: a line whose columns are no right declaration, or one symbol too many.
const NO_DECLARATION: u16 = 15;

/// Rule 16: a symbol whose name is there already.
const NAME_TWICE: u16 = 16;

/// How many blanks a field ends with.
fn last_blanks(field: &[u8]) -> usize
    ensures value { result ≡ suffix_len is_blank field.now }
    ensures within { result ≤ length field.now }
{
    field
        .iter()
        .rev()
        .take_while(|byte| is_blank(**byte))
        .count()
}

/// A field without the blanks at its end.
#[tactic(auto, unfolding(crate::specs::Symbols::without_last_blanks))]
fn without_last_blanks(mut field: Vec<u8>) -> Vec<u8>
    ensures { result.items ≡ without_last_blanks field.items }
{
    let kept = field.len() - last_blanks(field.as_slice());
    field.truncate(kept);
    field
}

/// A field without any blanks.
#[tactic(auto, unfolding(crate::specs::Symbols::without_blanks))]
fn without_blanks(mut field: Vec<u8>) -> Vec<u8>
    ensures { result.items ≡ without_blanks field.items }
{
    field.retain(|byte| !is_blank(*byte));
    field
}

/// Whether a name has one to 24 bytes.
fn is_name(name: &[u8]) -> bool
    ensures { result ≡ is_name name.now }
{
    !name.is_empty() && name.len() <= LONGEST_NAME
}

/// What a line with these columns, cut of their blanks, declares: a symbol, or nothing. `None`
/// where name, address or type isn't right.
fn declaration(
    language: Language,
    name: Vec<u8>,
    address: &[u8],
    kind: &[u8],
) -> Option<Option<Symbol>>
    ensures { result ≡ symbol_declaration language name.items address.now kind.now }
{
    if !is_name(name.as_slice()) {
        return None;
    }
    let address = address_of(language, address)?;
    if !has_type(address, kind) {
        return None;
    }
    match address {
        SymbolAddress::Names { target } => Some(Some(Symbol { name, target })),
        SymbolAddress::NoSymbol => Some(None),
    }
}

/// What a line with these columns declares.
#[tactic(auto, unfolding(crate::specs::Symbols::declaration_in_columns))]
fn declaration_of(language: Language, columns: Columns) -> Option<Option<Symbol>>
    ensures { result ≡ declaration_in_columns language columns }
{
    let Columns {
        name,
        address,
        kind,
    } = columns;
    let name = without_last_blanks(name);
    let address = without_blanks(address);
    let kind = without_last_blanks(kind);
    declaration(language, name, address.as_slice(), kind.as_slice())
}

/// The refusal of a line.
fn refusal_at(line: u32, rule: u16) -> SourceFault
    ensures { result ≡ Refused (record { line = line; rule = rule }) }
{
    SourceFault::Refused {
        refusal: Refusal { line, rule },
    }
}

/// Adds the symbol of a line.
#[tactic(auto, unfolding(crate::specs::Symbols::with_symbol))]
fn add_symbol(
    symbols: &mut Symbols,
    alloc: Global,
    line: u32,
    symbol: Symbol,
) -> Result<(), SourceFault>
    requires { length symbol.name ≤ 24 }
    ensures { AddsDeclaration line (with_symbol symbols.old symbol) symbols.new result }
{
    if symbols.list().len() == MOST_SYMBOLS {
        return Err(refusal_at(line, NO_DECLARATION));
    }
    if symbols.lookup(symbol.name.as_slice()).is_some() {
        return Err(refusal_at(line, NAME_TWICE));
    }
    symbols.add(alloc, symbol)?;
    Ok(())
}

/// Adds what a line declares.
#[tactic(auto, unfolding(crate::specs::Symbols::with_line), using(crate::proofs::ReadingLemmas::short_name))]
fn add_line(
    symbols: &mut Symbols,
    alloc: Global,
    language: Language,
    line: u32,
    text: &[u8],
) -> Result<(), SourceFault>
    ensures { AddsDeclaration line (with_line language symbols.old text.now) symbols.new result }
{
    if text.is_empty() {
        return Ok(());
    }
    let Some(columns) = read_columns(alloc, text)? else {
        return Err(refusal_at(line, NO_RECORD));
    };
    match declaration_of(language, columns) {
        None => Err(refusal_at(line, NO_DECLARATION)),
        Some(None) => Ok(()),
        Some(Some(symbol)) => add_symbol(symbols, alloc, line, symbol),
    }
}

/// Reads a symbols file of at most `SYMBOLS_LIMIT` bytes: each line by itself as CSV, with the
/// name, the address and the type of a symbol and a comment.
#[tactic(auto, unfolding(crate::specs::Symbols::symbols_in), using(crate::proofs::ReadingLemmas::line_added, crate::proofs::ReadingLemmas::line_refused, crate::proofs::ReadingLemmas::no_line))]
fn symbols_in(alloc: Global, language: Language, bytes: &[u8]) -> Result<Symbols, SourceFault>
    requires { length bytes.now ≤ symbols_limit }
    ensures { ReadsSymbols (symbols_in language bytes.now) result }
{
    let mut symbols = Symbols::new(alloc);
    let mut left = bytes;
    let mut number = 1;
    while !left.is_empty() {
        let (line, rest) = first_line(left);
        add_line(&mut symbols, alloc, language, number, line)?;
        number += 1;
        left = rest;
    }
    Ok(symbols)
}

/// Reads a symbols file of at most `SYMBOLS_LIMIT` bytes.
///
/// # Errors
///
/// The first line that breaks rule 14, 15 or 16 and the least that it breaks, exactly where there
/// is such a line; or want of memory.
pub fn read_symbols(alloc: Global, bytes: &[u8]) -> Result<Symbols, SourceFault>
    requires { length bytes.now ≤ symbols_limit }
    ensures { ReadsSymbols (symbols_of bytes.now) result }
{
    symbols_in(alloc, Language::English, bytes)
}

/// Reads a symbols file whose addresses are German, as `E 0.0`.
///
/// # Errors
///
/// The first line that breaks rule 14, 15 or 16 and the least that it breaks, exactly where there
/// is such a line; or want of memory.
pub fn read_symbols_german(alloc: Global, bytes: &[u8]) -> Result<Symbols, SourceFault>
    requires { length bytes.now ≤ symbols_limit }
    ensures { ReadsSymbols (symbols_in German bytes.now) result }
{
    symbols_in(alloc, Language::German, bytes)
}
