//! Clauses, each on its line. A function takes the line that the text has reached, 0 where nothing
//! is printed yet, and answers the line that it has reached behind the clause.
ghost use Rattle.std.specs.Prelude.{◌≡◌, ◌++◌, ◌∷◌, [], IfOk, OnOk};
ghost use Rattle.stl_parser.specs.declared.clauses.Clause.TheVariants as clause;
ghost use Rattle.stl_print.specs.Clauses.{result_pieces, with_clauses};
ghost use Rattle.stl_print.specs.Gaps.{clause_gap as gap_before, gap_text, line_behind as line_after};
ghost use Rattle.stl_print.specs.Pieces.{with_pieces};
ghost use Rattle.stl_print.specs.Trees.{structure_ends};

use crate::declarations::{append_declaration, append_setting};
use crate::gaps::{Gap, clause_gap, line_behind};
use crate::names::append_block_name;
use crate::statements::append_statement;
use crate::tokens::{append_mark, append_token};
use crate::words::{end_word, head_word, result_word, section_word};
use plc_base::{BlockKind, NoMemory};
use stl_ast::{Block, BlockName, Declaration, PartKind, Setting, Simple, Statement};
use stl_lexer::Mark;

/// The line of a clause for which a tree has none: it stands on the line that is reached.
const HERE: u32 = 0;

/// Appends a clause that is one word.
fn append_keyword(word: &[u8], line: u32, reached: u32, out: &mut Vec<u8>) -> Result<u32, NoMemory>
    ensures line { IfOk result (λ behind. behind ≡ line_after reached line) }
    ensures text { OnOk result (out.new.items
        ≡ (out.old.items ++ gap_text (gap_before reached line)) ++ word.now) }
{
    append_token(clause_gap(reached, line), word, out)?;
    Ok(line_behind(reached, line))
}

#[tactic(auto, unfolding(crate::specs::Clauses::result_pieces))]
fn append_return_type(
    kind: BlockKind,
    returned: Option<Simple>,
    out: &mut Vec<u8>,
) -> Result<(), NoMemory>
    ensures { OnOk result (out.new.items
        ≡ with_pieces out.old.items (result_pieces kind returned)) }
{
    match kind {
        BlockKind::Fc => {
            append_mark(Gap::Blank, Mark::Colon, out)?;
            append_token(Gap::Blank, result_word(returned), out)
        }
        _ => Ok(()),
    }
}

/// Appends the first clause of a block.
#[tactic(auto, unfolding(crate::specs::Clauses::clause_pieces, crate::specs::Clauses::line_of, crate::specs::Clauses::with_clause))]
pub(crate) fn append_head(block: &Block, reached: u32, out: &mut Vec<u8>) -> Result<u32, NoMemory>
    ensures { IfOk result (λ behind. (behind, out.new.items)
        ≡ with_clauses (reached, out.old.items)
        (clause.Head block.now.line block.now.kind block.now.name block.now.result ∷ [])) }
{
    let line = append_keyword(head_word(block.kind), block.line, reached, out)?;
    append_block_name(Gap::Blank, &block.name, out)?;
    append_return_type(block.kind, block.result, out)?;
    Ok(line)
}

/// Appends the END clause of a block.
#[tactic(auto, unfolding(crate::specs::Clauses::clause_pieces, crate::specs::Clauses::line_of, crate::specs::Clauses::with_clause))]
pub(crate) fn append_end(
    kind: BlockKind,
    line: u32,
    reached: u32,
    out: &mut Vec<u8>,
) -> Result<u32, NoMemory>
    ensures { IfOk result (λ behind. (behind, out.new.items)
        ≡ with_clauses (reached, out.old.items) (clause.Ends line kind ∷ [])) }
{
    let line = append_keyword(end_word(kind), line, reached, out)?;
    Ok(line)
}

/// Appends the word that begins a section.
#[tactic(auto, unfolding(crate::specs::Clauses::clause_pieces, crate::specs::Clauses::line_of, crate::specs::Clauses::with_clause))]
pub(crate) fn append_section_word(
    kind: PartKind,
    line: u32,
    reached: u32,
    out: &mut Vec<u8>,
) -> Result<u32, NoMemory>
    ensures { IfOk result (λ behind. (behind, out.new.items)
        ≡ with_clauses (reached, out.old.items) (clause.Section line kind ∷ [])) }
{
    let line = append_keyword(section_word(kind), line, reached, out)?;
    Ok(line)
}

/// Appends END_VAR.
#[tactic(auto, unfolding(crate::specs::Clauses::clause_pieces, crate::specs::Clauses::line_of, crate::specs::Clauses::with_clause))]
pub(crate) fn append_section_end(reached: u32, out: &mut Vec<u8>) -> Result<u32, NoMemory>
    ensures { IfOk result (λ behind. (behind, out.new.items)
        ≡ with_clauses (reached, out.old.items) (clause.EndSection ∷ [])) }
{
    append_keyword(b"END_VAR", HERE, reached, out)
}

/// Appends BEGIN.
#[tactic(auto, unfolding(crate::specs::Clauses::clause_pieces, crate::specs::Clauses::line_of, crate::specs::Clauses::with_clause))]
pub(crate) fn append_begin(reached: u32, out: &mut Vec<u8>) -> Result<u32, NoMemory>
    ensures { IfOk result (λ behind. (behind, out.new.items)
        ≡ with_clauses (reached, out.old.items) (clause.Begins ∷ [])) }
{
    append_keyword(b"BEGIN", HERE, reached, out)
}

/// Appends the STRUCT of a block.
#[tactic(auto, unfolding(crate::specs::Clauses::clause_pieces, crate::specs::Clauses::line_of, crate::specs::Clauses::with_clause))]
pub(crate) fn append_structure(reached: u32, out: &mut Vec<u8>) -> Result<u32, NoMemory>
    ensures { IfOk result (λ behind. (behind, out.new.items)
        ≡ with_clauses (reached, out.old.items) (clause.Structure ∷ [])) }
{
    append_keyword(b"STRUCT", HERE, reached, out)
}

/// Appends END_STRUCT.
#[tactic(auto, unfolding(crate::specs::Clauses::clause_pieces, crate::specs::Clauses::line_of, crate::specs::Clauses::with_clause))]
pub(crate) fn append_structure_end(reached: u32, out: &mut Vec<u8>) -> Result<u32, NoMemory>
    ensures { IfOk result (λ behind. (behind, out.new.items)
        ≡ with_clauses (reached, out.old.items) (clause.EndStructure ∷ [])) }
{
    let line = append_keyword(b"END_STRUCT", HERE, reached, out)?;
    append_mark(Gap::Nothing, Mark::Semicolon, out)?;
    Ok(line)
}

/// Appends the END_STRUCT of so many structures.
#[tactic(auto, using(crate::proofs::LineLemmas::ends_all, crate::proofs::LineLemmas::ends_more))]
pub(crate) fn append_structure_ends(
    count: u64,
    reached: u32,
    out: &mut Vec<u8>,
) -> Result<u32, NoMemory>
    ensures { IfOk result (λ behind. (behind, out.new.items)
        ≡ with_clauses (reached, out.old.items) (structure_ends count)) }
{
    let mut line = reached;
    for _ in 0..count {
        line = append_structure_end(line, out)?;
    }
    Ok(line)
}

/// Appends the block on which a data block is based.
#[tactic(auto, unfolding(crate::specs::Clauses::clause_pieces, crate::specs::Clauses::line_of, crate::specs::Clauses::with_clause))]
pub(crate) fn append_base(
    name: &BlockName,
    reached: u32,
    out: &mut Vec<u8>,
) -> Result<u32, NoMemory>
    ensures { IfOk result (λ behind. (behind, out.new.items)
        ≡ with_clauses (reached, out.old.items) (clause.Based name.now ∷ [])) }
{
    append_block_name(clause_gap(reached, HERE), name, out)?;
    Ok(line_behind(reached, HERE))
}

/// Appends a declaration, that of a structure up to its STRUCT.
#[tactic(auto, unfolding(crate::specs::Clauses::clause_pieces, crate::specs::Clauses::line_of, crate::specs::Clauses::with_clause))]
pub(crate) fn append_declares(
    declaration: &Declaration,
    reached: u32,
    out: &mut Vec<u8>,
) -> Result<u32, NoMemory>
    ensures { IfOk result (λ behind. (behind, out.new.items)
        ≡ with_clauses (reached, out.old.items) (clause.Declares declaration.now ∷ [])) }
{
    append_declaration(clause_gap(reached, declaration.line), declaration, out)?;
    Ok(line_behind(reached, declaration.line))
}

/// Appends a setting.
#[tactic(auto, unfolding(crate::specs::Clauses::clause_pieces, crate::specs::Clauses::line_of, crate::specs::Clauses::with_clause))]
pub(crate) fn append_sets(
    setting: &Setting,
    reached: u32,
    out: &mut Vec<u8>,
) -> Result<u32, NoMemory>
    ensures { IfOk result (λ behind. (behind, out.new.items)
        ≡ with_clauses (reached, out.old.items) (clause.Sets setting.now ∷ [])) }
{
    append_setting(clause_gap(reached, setting.line), setting, out)?;
    Ok(line_behind(reached, setting.line))
}

/// Appends a statement.
#[tactic(auto, unfolding(crate::specs::Clauses::clause_pieces, crate::specs::Clauses::line_of, crate::specs::Clauses::with_clause))]
pub(crate) fn append_runs(
    statement: &Statement,
    reached: u32,
    out: &mut Vec<u8>,
) -> Result<u32, NoMemory>
    ensures { IfOk result (λ behind. (behind, out.new.items)
        ≡ with_clauses (reached, out.old.items) (clause.Runs statement.now ∷ [])) }
{
    append_statement(clause_gap(reached, statement.line), statement, out)?;
    Ok(line_behind(reached, statement.line))
}
