ghost use Rattle.std.specs.Prelude.{◌≡◌, ℕ, List, [], ◌∷◌, ◌++◌, Ok, Some, None, IfOk};
ghost use Rattle.std.specs.List.{list_all};
ghost use Rattle.csv.specs.Machine.{step as csv_step};
ghost use Rattle.csv.specs.Reading.{default_config};
ghost use Rattle.csv.specs.declared.parser.State.TheVariants as state;
ghost use Rattle.stl_symbols.specs.Fields.{
  is_line_end,
  machine_step,
  record_before,
  record_behind,
  record_from,
  state_of,
};

use std::alloc::{AllocError, Global};

/// Where a line stands in one of its fields.
#[derive(Clone, Copy, Debug, PartialEq, Eq)]
enum FieldState {
    Start,
    Plain,
    Quoted,
    AfterQuote,
}

/// What a byte does to the field at hand.
#[derive(Clone, Copy, Debug, PartialEq, Eq)]
enum Step {
    Skips { next: FieldState },
    Joins { next: FieldState },
    EndsField,
    EndsRecord,
}

/// What stands behind a field: a further one, nothing more, or another record.
#[derive(Clone, Copy, Debug)]
pub(crate) enum Behind<'a> {
    Field { rest: &'a [u8] },
    Nothing,
    Record,
}

/// Whether a byte ends a record.
pub(crate) fn is_line_end(byte: u8) -> bool
    ensures { result ≡ is_line_end byte }
{
    byte == b'\r' || byte == b'\n'
}

/// What a byte does outside of quotes.
fn plain_step(byte: u8) -> Step
    ensures { csv_step default_config state.InField byte ≡ machine_step result byte }
{
    if byte == b',' {
        Step::EndsField
    } else if is_line_end(byte) {
        Step::EndsRecord
    } else {
        Step::Joins {
            next: FieldState::Plain,
        }
    }
}

/// What a byte does. Two quotes inside of quotes are one.
fn step_at(field_state: FieldState, byte: u8) -> Step
    ensures { csv_step default_config (state_of field_state) byte ≡ machine_step result byte }
{
    let quotes = byte == b'"';
    match field_state {
        FieldState::Quoted if quotes => Step::Skips {
            next: FieldState::AfterQuote,
        },
        FieldState::Quoted => Step::Joins {
            next: FieldState::Quoted,
        },
        FieldState::AfterQuote if quotes => Step::Joins {
            next: FieldState::Quoted,
        },
        FieldState::Start if quotes => Step::Skips {
            next: FieldState::Quoted,
        },
        _ => plain_step(byte),
    }
}

/// A field of a line while it is read.
#[derive(Drop)]
struct FieldReader {
    bytes: Vec<u8>,
    field_state: FieldState,
}

/// What a byte ends.
#[derive(Clone, Copy, Debug, PartialEq, Eq)]
enum Ending {
    Field,
    Record,
}

impl FieldReader {
    ghost use Rattle.std.specs.Prelude.{◌≡◌, ℕ, List, [], ◌∷◌, ◌++◌, IfOk};
    ghost use Rattle.csv.specs.declared.parser.State.TheVariants as state;
    ghost use Rattle.stl_symbols.specs.Fields.{record_from, state_of, record_at};

    /// No bytes so far.
    fn new(alloc: Global) -> Self
        ensures bytes { result.bytes.items ≡ [] }
        ensures field_state { state_of result.field_state ≡ state.StartField }
    {
        FieldReader {
            bytes: Vec::new(alloc),
            field_state: FieldState::Start,
        }
    }

    /// Takes one more byte of the line; the answer is what it ends, if it ends something.
    #[tactic(auto, unfolding(csv::specs::Machine::next_record))]
    fn take(&mut self, byte: u8) -> Result<Option<Ending>, AllocError>
        ensures { IfOk result (λ ending. (fields : List (List ℕ)) (rest : List ℕ)
            → record_from (state_of self.old.field_state) fields self.old.bytes.items
            (byte ∷ rest)
            ≡ record_at ending (state_of self.new.field_state) fields self.new.bytes.items rest) }
    {
        match step_at(self.field_state, byte) {
            Step::Skips { next } => self.field_state = next,
            Step::Joins { next } => {
                self.bytes.push(byte)?;
                self.field_state = next;
            }
            Step::EndsField => return Ok(Some(Ending::Field)),
            Step::EndsRecord => return Ok(Some(Ending::Record)),
        }
        Ok(None)
    }
}

/// Whether each of these bytes ends a record.
fn are_line_ends(bytes: &[u8]) -> bool
    ensures { result ≡ list_all is_line_end bytes.now }
{
    bytes.iter().all(|byte| is_line_end(*byte))
}

/// What stands behind a record that has ended.
fn behind_record(rest: &[u8]) -> Behind<'_>
    ensures { (fields : List (List ℕ))
        → record_before fields rest.now ≡ record_behind fields result }
{
    if are_line_ends(rest) {
        Behind::Nothing
    } else {
        Behind::Record
    }
}

/// The first field of what is left of a line, and what stands behind it.
pub(crate) fn read_field<'a>(
    alloc: Global,
    text: &'a [u8],
) -> Result<(Vec<u8>, Behind<'a>), AllocError>
    ensures { IfOk result (λ read. (fields : List (List ℕ))
        → record_from state.StartField fields [] text.now
        ≡ record_behind (fields ++ read.0.items ∷ []) read.1) }
{
    let mut field = FieldReader::new(alloc);
    let mut left = text;
    while let [byte, rest @ ..] = left {
        match field.take(*byte)? {
            None => left = rest,
            Some(Ending::Field) => return Ok((field.bytes, Behind::Field { rest })),
            Some(Ending::Record) => return Ok((field.bytes, behind_record(rest))),
        }
    }
    Ok((field.bytes, Behind::Nothing))
}
