ghost use Rattle.std.specs.Prelude.{◌≡◌, ◌≤◌, [], length, IfOk};
ghost use Rattle.std.specs.List.{prefix_len};
ghost use Rattle.std.specs.Option.{option_map};
ghost use Rattle.csv.specs.Reading.{strip_bom};
ghost use Rattle.csv.specs.declared.parser.State.TheVariants as state;
ghost use Rattle.stl_symbols.specs.Fields.{is_line_end, record_at_start, record_from};
ghost use Rattle.stl_symbols.specs.Line.{columns_of_line};

use crate::fields::{Behind, is_line_end, read_field};
use std::alloc::{AllocError, Global};
use std::marker::Model;

/// What a line says of a symbol: its name, its address and the name of its type.
#[derive(Drop)]
pub(crate) struct Columns {
    pub name: Vec<u8>,
    pub address: Vec<u8>,
    pub kind: Vec<u8>,
}

impl Model for Columns {
    ghost use Rattle.stl_symbols.specs.Line.{Columns as ColumnsData};

    ghost Value = { ColumnsData };

    ghost view = { λ c. record {
      name = c.name.items;
      address = c.address.items;
      kind = c.kind.items;
    } };
}

/// A line without the byte order mark that it may begin with.
#[tactic(auto, unfolding(csv::specs::Reading::strip_bom))]
fn without_mark(line: &[u8]) -> &[u8]
    ensures { result.now ≡ strip_bom line.now }
{
    match line {
        [0xEF, 0xBB, 0xBF, rest @ ..] => rest,
        _ => line,
    }
}

/// How many line ends a line begins with.
fn line_ends_len(line: &[u8]) -> usize
    ensures value { result ≡ prefix_len is_line_end line.now }
    ensures within { result ≤ length line.now }
{
    line.iter().take_while(|byte| is_line_end(**byte)).count()
}

/// A line from its first record on, without the line ends before it.
#[tactic(auto, using(crate::proofs::FieldLemmas::record_from_start))]
fn from_record(line: &[u8]) -> &[u8]
    ensures { record_from state.StartRecord [] [] line.now
        ≡ record_at_start result.now }
{
    let (_line_ends, record) = line.split_at(line_ends_len(line));
    record
}

/// The columns of a line that is one record of four fields; the fourth is a comment.
#[tactic(auto, unfolding(crate::specs::Line::only_record, crate::specs::Line::columns_of_line), using(crate::proofs::FieldLemmas::fifth_field))]
pub(crate) fn read_columns(alloc: Global, line: &[u8]) -> Result<Option<Columns>, AllocError>
    ensures { IfOk result (λ read. read ≡ columns_of_line line.now) }
{
    let left = from_record(without_mark(line));
    if left.is_empty() {
        return Ok(None);
    }
    let (name, Behind::Field { rest }) = read_field(alloc, left)? else {
        return Ok(None);
    };
    let (address, Behind::Field { rest }) = read_field(alloc, rest)? else {
        return Ok(None);
    };
    let (kind, Behind::Field { rest }) = read_field(alloc, rest)? else {
        return Ok(None);
    };
    let (_comment, behind) = read_field(alloc, rest)?;
    match behind {
        Behind::Nothing => Ok(Some(Columns {
            name,
            address,
            kind,
        })),
        Behind::Field { .. } => Ok(None),
        Behind::Record => Ok(None),
    }
}
