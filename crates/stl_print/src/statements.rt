ghost use Rattle.std.specs.Prelude.{◌≡◌, ◌++◌, OnOk};
ghost use Rattle.stl_ast.specs.Statements.{is_empty_statement};
ghost use Rattle.stl_print.specs.Pieces.{with_pieces};
ghost use Rattle.stl_print.specs.Statements.{
  actual_pieces,
  actuals_pieces,
  further_actuals,
  instruction_pieces,
  labelled_pieces,
  statement_pieces,
  unlabelled_pieces,
};

use crate::gaps::Gap;
use crate::mnemonics::append_mnemonic;
use crate::operands::append_operand;
use crate::tokens::{append_mark, append_token};
use plc_base::NoMemory;
use stl_ast::{Actual, Mnemonic, Statement};
use stl_lexer::Mark;

#[tactic(auto, unfolding(crate::specs::Statements::actual_pieces))]
fn append_actual(gap: Gap, actual: &Actual, out: &mut Vec<u8>) -> Result<(), NoMemory>
    ensures { OnOk result (out.new.items
        ≡ with_pieces out.old.items (actual_pieces gap actual.now)) }
{
    append_token(gap, actual.name.as_bytes(), out)?;
    append_mark(Gap::Blank, Mark::Assign, out)?;
    append_operand(Gap::Blank, &actual.value, out)
}

fn append_further_actuals(actuals: &[Actual], out: &mut Vec<u8>) -> Result<(), NoMemory>
    ensures { OnOk result (out.new.items
        ≡ with_pieces out.old.items (further_actuals actuals.now)) }
{
    let mut left = actuals;
    while let [actual, rest @ ..] = left {
        append_mark(Gap::Nothing, Mark::Comma, out)?;
        append_actual(Gap::Blank, actual, out)?;
        left = rest;
    }
    append_mark(Gap::Nothing, Mark::CloseParen, out)
}

fn append_actuals(actuals: &[Actual], out: &mut Vec<u8>) -> Result<(), NoMemory>
    ensures { OnOk result
        (out.new.items ≡ with_pieces out.old.items (actuals_pieces actuals.now)) }
{
    match actuals {
        [] => Ok(()),
        [first, rest @ ..] => {
            append_mark(Gap::Blank, Mark::OpenParen, out)?;
            append_actual(Gap::Nothing, first, out)?;
            append_further_actuals(rest, out)
        }
    }
}

fn is_empty(code: Mnemonic) -> bool
    ensures { result ≡ is_empty_statement code }
{
    matches!(code, Mnemonic::Empty)
}

#[tactic(auto, unfolding(crate::specs::Statements::instruction_pieces))]
fn append_instruction(gap: Gap, statement: &Statement, out: &mut Vec<u8>) -> Result<(), NoMemory>
    ensures { OnOk result (out.new.items
        ≡ with_pieces out.old.items (instruction_pieces gap statement.now)) }
{
    append_mnemonic(gap, statement.code, out)?;
    append_operand(Gap::Blank, &statement.operand, out)?;
    append_actuals(statement.actuals.as_slice(), out)?;
    append_mark(Gap::Nothing, Mark::Semicolon, out)
}

#[tactic(auto, unfolding(crate::specs::Statements::unlabelled_pieces))]
fn append_unlabelled(gap: Gap, statement: &Statement, out: &mut Vec<u8>) -> Result<(), NoMemory>
    ensures { OnOk result (out.new.items
        ≡ with_pieces out.old.items (unlabelled_pieces gap statement.now)) }
{
    if is_empty(statement.code) {
        append_mark(gap, Mark::Semicolon, out)
    } else {
        append_instruction(gap, statement, out)
    }
}

#[tactic(auto, unfolding(crate::specs::Statements::labelled_pieces))]
fn append_behind_label(statement: &Statement, out: &mut Vec<u8>) -> Result<(), NoMemory>
    ensures { OnOk result (out.new.items
        ≡ with_pieces out.old.items (labelled_pieces statement.now)) }
{
    if is_empty(statement.code) {
        Ok(())
    } else {
        append_instruction(Gap::Blank, statement, out)
    }
}

/// Appends a statement behind a gap.
#[tactic(auto, unfolding(crate::specs::Statements::statement_pieces))]
pub(crate) fn append_statement(
    gap: Gap,
    statement: &Statement,
    out: &mut Vec<u8>,
) -> Result<(), NoMemory>
    ensures { OnOk result (out.new.items
        ≡ with_pieces out.old.items (statement_pieces gap statement.now)) }
{
    match &statement.label {
        None => append_unlabelled(gap, statement, out),
        Some(label) => {
            append_token(gap, label.as_bytes(), out)?;
            append_mark(Gap::Nothing, Mark::Colon, out)?;
            append_behind_label(statement, out)
        }
    }
}
