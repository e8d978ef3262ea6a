ghost use Rattle.std.specs.Prelude.{◌≡◌, not, if◌then◌else◌};
ghost use Rattle.std.specs.List.{count_by};
ghost use Rattle.stl_ast.specs.Statements.{is_empty_statement};
ghost use Rattle.plc_base.specs.Least.{least};
ghost use Rattle.block_layout.specs.Rule55.{has_too_many_statements, rule_55};

use plc_base::{Refusal, broken_if, least_of};
use stl_ast::{Block, Mnemonic, Statement};

/// The most statements of a block.
const MOST_STATEMENTS: usize = 65_534;

fn is_empty(code: Mnemonic) -> bool
    ensures { result ≡ is_empty_statement code }
{
    matches!(code, Mnemonic::Empty)
}

/// An empty statement doesn't count.
fn count_of_statement(statement: &Statement) -> usize
    ensures { result ≡ (if not (is_empty_statement statement.now.code) then 1 else 0) }
{
    if is_empty(statement.code) { 0 } else { 1 }
}

/// How many statements aren't empty.
fn statement_count(body: &[Statement]) -> usize
    ensures { result ≡ count_by (λ s. not (is_empty_statement s.code)) body.now }
{
    let mut count = 0;
    for statement in body {
        count += count_of_statement(statement);
    }
    count
}

pub(crate) fn has_too_many_statements(block: &Block) -> bool
    ensures { result ≡ has_too_many_statements block.now }
{
    statement_count(block.body.as_slice()) > MOST_STATEMENTS
}

/// The least refusal by rule 55.
#[tactic(auto, unfolding(crate::specs::Rule55::rule_55), using(crate::proofs::HeadLemmas::by_itself))]
pub(crate) fn least_too_many_statements(blocks: &[Block]) -> Option<Refusal>
    ensures { result ≡ least (rule_55 blocks.now) }
{
    least_of(blocks, |block: &Block| {
        broken_if(has_too_many_statements(block), block.line, 55)
    })
}
