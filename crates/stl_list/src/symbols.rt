//! The symbols file of a listing.
ghost use Rattle.std.specs.Prelude.{◌≡◌, [], ◌∷◌, IfOk};
ghost use Rattle.csv.specs.Writing.{row_text};
ghost use Rattle.stl_list.specs.Symbols.{
  address_text as text_of_address,
  listed_names as text_of_names,
  name_text as text_of_name,
  symbols_writer,
};

use crate::operands::read_letters;
use crate::parameters::kind_of_width;
use csv::{Error, QuoteStyle, WriterBuilder};
use flat_code::NameEntry;
use plc_base::NoMemory;
use std::alloc::{AllocError, Global};
use stl_print::{Gap, append_address, type_word};

/// The address of a name, `MW 2` or `M 0.3`.
fn address_text(alloc: Global, entry: &NameEntry) -> Result<Vec<u8>, NoMemory>
    ensures { IfOk result (λ v. v.items ≡ text_of_address entry.now) }
{
    let place = entry.place;
    let letters = read_letters(place.area);
    let mut text = Vec::new(alloc);
    append_address(
        Gap::Nothing,
        letters,
        entry.width,
        place.byte,
        place.bit,
        &mut text,
    )?;
    Ok(text)
}

/// The line of a name with its address and type, each field quoted, and an empty comment.
fn quoted_line<'a>(
    alloc: Global,
    name: &'a [u8],
    address: &'a [u8],
    kind: &'a [u8],
) -> Result<Vec<u8>, Error>
    ensures { IfOk result (λ v. v.items
        ≡ row_text symbols_writer (name.now ∷ address.now ∷ kind.now ∷ [] ∷ [])) }
{
    let comment: &'a [u8] = b"";
    let mut writer = WriterBuilder::new()
        .quote_style(QuoteStyle::Always)
        .from_writer(Vec::new(alloc));
    writer.write_fields(&[name, address, kind, comment])?;
    match writer.into_inner() {
        Ok(line) => Ok(line),
        Err(e) => Err(e.into_error()),
    }
}

/// The line of a name. Nothing but want of memory keeps a line from a text in memory.
fn name_text(alloc: Global, entry: &NameEntry) -> Result<Vec<u8>, NoMemory>
    ensures { IfOk result (λ v. v.items ≡ text_of_name entry.now) }
{
    let address = address_text(alloc, entry)?;
    let kind = type_word(kind_of_width(entry.width));
    match quoted_line(alloc, entry.name.as_slice(), address.as_slice(), kind) {
        Ok(line) => Ok(line),
        Err(_) => Err(AllocError),
    }
}

/// The text of the symbols file.
#[tactic(auto, unfolding(crate::specs::Symbols::listed_names))]
pub(crate) fn listed_names(alloc: Global, names: &[NameEntry]) -> Result<Vec<u8>, NoMemory>
    ensures { IfOk result (λ v. v.items ≡ text_of_names names.now) }
{
    let mut text = Vec::new(alloc);
    for entry in names {
        let line = name_text(alloc, entry)?;
        text.extend_from_slice(line.as_slice())?;
    }
    Ok(text)
}
