//! The statements of a code block.
ghost use Rattle.std.specs.Prelude.{◌≡◌, ◌++◌, IfOk};
ghost use Rattle.image_file.specs.Writing.{BlockFitsFields};
ghost use Rattle.stl_list.specs.Statements.{body_of, label_alone, label_of_end};

use crate::actuals::actuals_by;
use crate::labels::label_of_number;
use crate::lines::line_of_statement;
use crate::mnemonics::mnemonic_of;
use crate::operands::{opened_by, operand_by};
use crate::runs::{is_last, starts, targets};
use crate::signatures::{Signature, formals_of};
use flat_code::{CodeBlock, Op};
use plc_base::NoMemory;
use std::alloc::Global;
use std::marker::Model;
use stl_ast::{Mnemonic, Name, Operand, Sequence, Statement};
use stl_types::Formal;

/// What the statements of a block refer to: the blocks of the program, the block's own parameters,
/// the lines on which its statements stand, their offsets, and of each whether a jump leads to it.
#[derive(Drop)]
struct ListingContext<'a> {
    signatures: &'a [Signature],
    formals: &'a [Formal],
    lines: &'a [u32],
    starts: &'a [u32],
    targets: &'a [bool],
}

impl<'a> Model for ListingContext<'a> {
    ghost use Rattle.stl_list.specs.Statements.{ListingContext as ListingContextData};

    ghost Value = { ListingContextData };

    ghost view = { λ s. record {
      signatures = s.signatures.now;
      formals = s.formals.now;
      lines = s.lines.now;
      starts = s.starts.now;
      targets = s.targets.now;
    } };

    ghost use Rattle.std.specs.List.Sorted.{IsStrictlySortedBy};
    ghost use Rattle.std.specs.Ordering.{nat_cmp};

    ghost invariant = { λ s. IsStrictlySortedBy nat_cmp s.starts.now };
}

/// A label with nothing behind its colon.
fn label_alone(alloc: Global, line: u32, label: Name) -> Statement
    ensures { result ≡ label_alone line label }
{
    Statement {
        line,
        code: Mnemonic::Empty,
        label: Some(label),
        operand: Operand::Nothing,
        actuals: Sequence::from_vec(Vec::new(alloc)),
    }
}

/// Adds the label of the END clause, where it has one.
fn add_label(
    alloc: Global,
    statements: &mut Vec<Statement>,
    line: u32,
    label: Option<Name>,
) -> Result<(), NoMemory>
    ensures { IfOk result (λ _. statements.new.items
        ≡ statements.old.items ++ label_of_end line label) }
{
    if let Some(label) = label {
        statements.push(label_alone(alloc, line, label))?;
    }
    Ok(())
}

impl<'a> ListingContext<'a> {
    ghost use Rattle.std.specs.Prelude.{◌≡◌, ◌+◌, ◌<◌, ◌≤◌, ◌^◌, ◌++◌, ◌∷◌, List, IfOk};
    ghost use Rattle.flat_code.specs.Ops.{OpData};
    ghost use Rattle.stl_list.specs.Lines.{line_of_statement};
    ghost use Rattle.stl_list.specs.Statements.{label_at, listed_statement, statement_at, statements_from};
    ghost use Rattle.stl_list.specs.Runs.{runs, runs_from};

    fn line_of_statement(&self, n: usize) -> u32
        ensures { result ≡ line_of_statement self.now.lines n }
    {
        line_of_statement(self.lines, n)
    }

    /// The label of a statement, where a jump leads to it.
    fn label_at(&self, alloc: Global, n: usize) -> Result<Option<Name>, NoMemory>
        ensures { IfOk result (λ label. label ≡ label_at self.now.targets n) }
    {
        if self.targets.get(n).copied().unwrap_or(false) {
            Ok(Some(label_of_number(alloc, n)?))
        } else {
            Ok(None)
        }
    }

    /// The statement with this number in its block, by its last op and those before it.
    fn statement(
        &self,
        alloc: Global,
        n: usize,
        before: &[Op],
        op: &Op,
    ) -> Result<Statement, NoMemory>
        ensures { IfOk result (λ s. s
            ≡ listed_statement self.now n (record { before = before.now; op = op.now })) }
    {
        let line = self.line_of_statement(n);
        let label = self.label_at(alloc, n)?;
        let actuals = actuals_by(alloc, self.signatures, line, self.formals, before, op)?;
        Ok(Statement {
            line,
            code: mnemonic_of(op),
            label,
            actuals: Sequence::from_vec(actuals),
            operand: operand_by(alloc, self.formals, self.starts, opened_by(before), op)?,
        })
    }

    /// Adds a statement; the last one is the END clause.
    #[tactic(auto, unfolding(crate::specs::Statements::statement_at))]
    fn add_statement(
        &self,
        alloc: Global,
        statements: &mut Vec<Statement>,
        n: usize,
        before: &[Op],
        op: &Op,
    ) -> Result<(), NoMemory>
        requires { n + 1 < 2 ^ 64 }
        ensures { IfOk result (λ _. statements.new.items ≡ statements.old.items
            ++ statement_at self.now n (record { before = before.now; op = op.now })) }
    {
        if n + 1 == self.lines.len() {
            let label = self.label_at(alloc, n)?;
            add_label(alloc, statements, self.line_of_statement(n), label)
        } else {
            statements.push(self.statement(alloc, n, before, op)?)?;
            Ok(())
        }
    }

    /// Goes on to an op, and gives the number of the statement behind it. `before` are the ops of
    /// its statement before it; the statement is added with its last op.
    fn add_op(
        &self,
        alloc: Global,
        statements: &mut Vec<Statement>,
        n: usize,
        before: &mut Vec<Op>,
        op: &Op,
    ) -> Result<usize, NoMemory>
        requires { n + 1 < 2 ^ 64 }
        ensures value { IfOk result (λ m. (rest : List OpData)
            → statements.new.items ++ statements_from self.now m (runs_from before.new.items rest)
            ≡ statements.old.items ++ statements_from self.now n
            (runs_from before.old.items (op.now ∷ rest))) }
        ensures next { IfOk result (λ m. m ≤ n + 1) }
    {
        if is_last(op) {
            self.add_statement(alloc, statements, n, before.as_slice(), op)?;
            before.clear();
            return Ok(n + 1);
        }
        before.push(*op)?;
        Ok(n)
    }

    /// The statements of ops.
    fn statements(&self, alloc: Global, ops: &[Op]) -> Result<Vec<Statement>, NoMemory>
        ensures { IfOk result (λ v. v.items ≡ statements_from self.now 0 (runs ops.now)) }
    {
        let mut statements = Vec::new(alloc);
        let mut before = Vec::new(alloc);
        let mut n = 0;
        for op in ops {
            n = self.add_op(alloc, &mut statements, n, &mut before, op)?;
        }
        Ok(statements)
    }
}

/// The body of a block whose statements stand on these lines.
#[tactic(auto, using(crate::proofs::RunLemmas::starts_rise), unfolding(crate::specs::Statements::body_of))]
pub(crate) fn body_of(
    alloc: Global,
    signatures: &[Signature],
    lines: &[u32],
    block: &CodeBlock,
) -> Result<Vec<Statement>, NoMemory>
    requires { BlockFitsFields block.now }
    ensures { IfOk result (λ v. v.items ≡ body_of signatures.now lines.now block.now) }
{
    let ops = block.code.as_slice();
    let starts = starts(alloc, ops)?;
    let targets = targets(alloc, starts.as_slice(), ops)?;
    let listing_context = ListingContext {
        signatures,
        formals: formals_of(signatures, block.id),
        lines,
        starts: starts.as_slice(),
        targets: targets.as_slice(),
    };
    listing_context.statements(alloc, ops)
}
