ghost use Rattle.std.specs.Prelude.{◌≡◌, ◌<◌, ◌≤◌, ◌++◌, [], ◌∷◌, IfOk, length};
ghost use Rattle.std.specs.List.{flat_map, slice_get};
ghost use Rattle.block_layout.specs.Fits.{number_or_zero};
ghost use Rattle.stl_ast.specs.Statements.{is_empty_statement};
ghost use Rattle.stl_types.specs.Labels.{label_of};
ghost use Rattle.stl_codegen.specs.Bodies.{AreTargets, body_lines, count_of_statements, line_here, number_here, ops_here};
ghost use Rattle.stl_codegen.specs.Fitting.{AreOpsAppended};
ghost use Rattle.stl_codegen.specs.Instruction.{target_in, target_of, count_of_mnemonic};

use crate::instructions::{append_jump_to, append_resolved};
use crate::operations::jump_operation_of;
use flat_code::Op;
use std::alloc::{AllocError, Global};
use std::marker::Model;
use stl_ast::{Block, Mnemonic, Name, Operand, Statement};
use stl_symbols::NameIndex;
use stl_types::Context;

pub(crate) fn is_empty(code: Mnemonic) -> bool
    ensures { result ≡ is_empty_statement code }
{
    matches!(code, Mnemonic::Empty)
}

/// Adds the line of a statement.
fn add_line(lines: &mut Vec<u32>, statement: &Statement) -> Result<(), AllocError>
    ensures { IfOk result (λ _. lines.new.items ≡ lines.old.items ++ line_here statement.now) }
{
    if is_empty(statement.code) {
        return Ok(());
    }
    lines.push(statement.line)?;
    Ok(())
}

/// The lines of the statements of a body, and that of its END clause.
pub(crate) fn lines_of(alloc: Global, block: &Block) -> Result<Vec<u32>, AllocError>
    ensures { IfOk result (λ lines. lines.items ≡ body_lines block.now) }
{
    let mut lines = Vec::new(alloc);
    for statement in block.body.as_slice() {
        add_line(&mut lines, statement)?;
    }
    lines.push(block.end_line)?;
    Ok(lines)
}

/// The statements of a body, with the number of the statement of each label. Contracts see the
/// statements. `numbers` has a number for each label; `count` is the number of all statements but
/// the empty ones.
#[derive(Drop)]
pub(crate) struct Body<'a> {
    statements: &'a [Statement],
    labels: NameIndex,
    numbers: Vec<u32>,
    count: u32,
}

impl<'a> Model for Body<'a> {
    ghost use Rattle.std.specs.Prelude.{List};
    ghost use Rattle.stl_ast.specs.declared.statements.Statement.{Statement};
    ghost use Rattle.stl_codegen.specs.Bodies.{AreTargets};

    ghost Value = { List Statement };

    ghost view = { λ b. b.statements.now };

    ghost invariant = { λ b. AreTargets b.statements.now b.labels b.numbers.items b.count };
}

/// 0 for an empty statement, which has no number, and 1 for every other.
fn count_of_mnemonic(code: Mnemonic) -> u32
    ensures { result ≡ count_of_mnemonic code }
{
    if is_empty(code) { 0 } else { 1 }
}

/// Adds a label with the number of its statement.
fn add_target(
    labels: &mut NameIndex,
    numbers: &mut Vec<u32>,
    alloc: Global,
    number: u32,
    label: &Option<Name>,
) -> Result<(), AllocError>
    ensures labels { IfOk result (λ _. labels.new ≡ labels.old ++ label_of label.now) }
    ensures numbers { IfOk result (λ _. numbers.new.items
        ≡ numbers.old.items ++ number_here number label.now) }
{
    match label {
        None => Ok(()),
        Some(name) => {
            labels.add(alloc, name.as_bytes())?;
            numbers.push(number)?;
            Ok(())
        }
    }
}

fn number_at(numbers: &[u32], place: usize) -> u32
    ensures { result ≡ number_or_zero (slice_get numbers.now place) }
{
    if place < numbers.len() {
        numbers[place]
    } else {
        0
    }
}

impl<'a> Body<'a> {
    /// The body with these statements.
    pub(crate) fn new(alloc: Global, statements: &'a [Statement]) -> Result<Self, AllocError>
        requires { count_of_statements statements.now < 65536 }
        ensures { IfOk result (λ body. body ≡ statements.now) }
    {
        let mut labels = NameIndex::new(alloc);
        let mut numbers = Vec::new(alloc);
        let mut count: u32 = 0;
        for statement in statements {
            add_target(&mut labels, &mut numbers, alloc, count, &statement.label)?;
            count += count_of_mnemonic(statement.code);
        }
        Ok(Body {
            statements,
            labels,
            numbers,
            count,
        })
    }

    /// The number of the first statement that has a label; how many statements there are where none
    /// has it.
    #[tactic(auto, using(crate::proofs::TargetLemmas::target_placed))]
    fn target(&self, label: &[u8]) -> u32
        ensures { result ≡ target_in label.now self.now }
    {
        match self.labels.place(label) {
            None => self.count,
            Some(place) => number_at(self.numbers.as_slice(), place),
        }
    }

    /// The number of the statement at which a jump goes on.
    fn target_of(&self, operand: &Operand) -> u32
        ensures { result ≡ target_of self.now operand.now }
    {
        match operand {
            Operand::Label { name } => self.target(name.as_bytes()),
            _ => 0,
        }
    }

    /// Appends the ops of one of the statements.
    #[tactic(auto, unfolding(crate::specs::Bodies::ops_here, crate::specs::Instruction::instruction))]
    fn append_statement(
        &self,
        alloc: Global,
        ops: &mut Vec<Op>,
        context: &Context,
        statement: &Statement,
    ) -> Result<Option<()>, AllocError>
        ensures { IfOk result (λ done. AreOpsAppended ops.old.items ops.new.items
            (ops_here context.now self.now statement.now) done) }
    {
        if is_empty(statement.code) {
            return Ok(Some(()));
        }
        match jump_operation_of(statement.code) {
            Some(how) => append_jump_to(ops, how, self.target_of(&statement.operand)),
            None => {
                let view = context.resolved_operand(alloc, statement)?;
                append_resolved(alloc, ops, context, statement, view)
            }
        }
    }

    /// Appends the ops of all statements.
    pub(crate) fn append_to(
        &self,
        alloc: Global,
        ops: &mut Vec<Op>,
        context: &Context,
    ) -> Result<Option<()>, AllocError>
        ensures { IfOk result (λ done. AreOpsAppended ops.old.items ops.new.items
            (flat_map (λ s. ops_here context.now self.now s) self.now) done) }
    {
        for statement in self.statements {
            let Some(_) = self.append_statement(alloc, ops, context, statement)? else {
                return Ok(None);
            };
        }
        Ok(Some(()))
    }
}
