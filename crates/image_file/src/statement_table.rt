//! The statements of a block, each found by its offset without a search.
ghost use Rattle.std.specs.Prelude.{◌≡◌, ◌++◌, ◌∷◌, [], ◌<◌, ◌^◌, length, map, slice_get, if◌then◌else◌, OnOk, IfOk};
ghost use Rattle.std.specs.Option.{option_map};
ghost use Rattle.flat_code.specs.Codes.{code_bytes};
ghost use Rattle.flat_code.specs.PlacedOps.{codes_of_few_brackets, starts_of_statements, statement_start_at};

use crate::checking::{OpenInCode, StatementStart, codes_of_few_brackets, is_last};
use crate::tables::{place_at_offset, table_of};
use flat_code::Op;
use plc_base::NoMemory;
use std::alloc::Global;
use std::marker::Model;

/// The statements of a block, in the order of their offsets.
#[derive(Drop)]
pub(crate) struct Statements {
    list: Vec<StatementStart>,
    table: Vec<u32>,
}

impl Model for Statements {
    ghost use Rattle.std.specs.Prelude.{List};
    ghost use Rattle.flat_code.specs.PlacedOps.{StatementStart as StatementStartData};
    ghost use Rattle.image_file.specs.Tables.{FindsStatements};

    ghost Value = { List StatementStartData };

    ghost view = { λ s. s.list.items };

    ghost invariant = { λ s. FindsStatements s.list.items s.table.items };
}

/// The statements of ops, and the offset after the last op.
fn statement_list(alloc: Global, ops: &[Op]) -> Result<(Vec<StatementStart>, u32), NoMemory>
    requires { length (code_bytes ops.now) < 2 ^ 32 }
    ensures statements { IfOk result (λ r. r.0.items ≡ starts_of_statements ops.now) }
    ensures end { IfOk result (λ r. r.1 ≡ length (code_bytes ops.now)) }
{
    let mut statements = Vec::new(alloc);
    let mut nesting = OpenInCode::new(alloc);
    let mut at = 0;
    let mut begin = true;
    for op in ops {
        add_statement(&mut statements, begin, at, &nesting)?;
        nesting.pass(at, op)?;
        at += op.size();
        begin = is_last(op);
    }
    Ok((statements, at))
}

/// Adds a statement where one begins.
fn add_statement(
    statements: &mut Vec<StatementStart>,
    begin: bool,
    at: u32,
    nesting: &OpenInCode,
) -> Result<(), NoMemory>
    ensures { OnOk result (statements.new.items ≡ (if begin then statements.old.items ++ record {
      at = at;
      codes = codes_of_few_brackets nesting.now.brackets.items;
      zones = length nesting.now.zones.items;
    } ∷ []
        else statements.old.items)) }
{
    if !begin {
        return Ok(());
    }
    let codes = codes_of_few_brackets(nesting.brackets.as_slice());
    let zones = nesting.zones.len();
    statements.push(StatementStart { at, codes, zones })?;
    Ok(())
}

fn offset_of(statement: &StatementStart) -> u32
    ensures { result ≡ statement.now.at }
{
    statement.at
}

fn offsets_of(alloc: Global, statements: &[StatementStart]) -> Result<Vec<u32>, NoMemory>
    ensures { IfOk result (λ v. v.items ≡ map (λ s. s.at) statements.now) }
{
    let mut offsets = Vec::new(alloc);
    for statement in statements {
        offsets.push(offset_of(statement))?;
    }
    Ok(offsets)
}

/// The statement at a place of a list.
fn statement_at(statements: &[StatementStart], place: usize) -> Option<&StatementStart>
    ensures { option_map (λ s. s.now) result ≡ slice_get statements.now place }
{
    statements.get(place)
}

impl Statements {
    /// The statements of ops.
    pub(crate) fn of(alloc: Global, ops: &[Op]) -> Result<Self, NoMemory>
        requires { length (code_bytes ops.now) < 2 ^ 32 }
        ensures { IfOk result (λ s. s ≡ starts_of_statements ops.now) }
    {
        let (list, end) = statement_list(alloc, ops)?;
        let offsets = offsets_of(alloc, list.as_slice())?;
        let table = table_of(alloc, offsets.as_slice(), end as usize)?;
        Ok(Statements { list, table })
    }

    /// The statement that begins at an offset.
    pub(crate) fn at(&self, at: u32) -> Option<&StatementStart>
        ensures { option_map (λ s. s.now) result ≡ statement_start_at self.now at }
    {
        let place = place_at_offset(self.table.as_slice(), at)?;
        statement_at(self.list.as_slice(), place)
    }
}
