ghost use Rattle.std.specs.Prelude.{◌≡◌, ◌≤◌, ◌*◌, length, IfOk, IfErr};
ghost use Rattle.stl_ast.specs.Sizes.{tree_size};
ghost use Rattle.stl_ast.specs.WellFormed.{IsWellFormed};
ghost use Rattle.stl_parser.specs.Lines.{LinesRise, LinesRiseAcross};
ghost use Rattle.stl_parser.specs.Source.{
  last_line,
  IsTree,
  IsRefusedBy,
  AreClausesUnique,
  ClausesExcludeViolation,
  IsClauseViolationUnique,
  ClausesHaveTree,
  IsParsingTotal,
  IsTreeUnique,
  TreeExcludesViolation,
};

use crate::blocks::source_blocks;
use plc_base::SourceFault;
use std::alloc::Global;
use stl_ast::{Sequence, Tree};
use stl_lexer::{Token, Tokens};

/// The line of the last token, or 0.
fn last_line(tokens: &[Token]) -> u32
    ensures { result ≡ last_line 0 tokens.now }
{
    let mut line = 0;
    let mut rest = tokens;
    while let [token, more @ ..] = rest {
        line = token.line;
        rest = more;
    }
    line
}

/// There is at most one list of clauses for the tokens of a source, none where there is a
/// violation, and one first violation. Right clauses have a tree; there is at most one, and none
/// where there is a violation. So a source has one tree, or no tree and one first violation, and
/// `parse` answers the tree, refuses with the violation, or wants memory.
pub fn law_of_clauses()
    ensures one_list { AreClausesUnique }
    ensures list_or_violation { ClausesExcludeViolation }
    ensures one_violation { IsClauseViolationUnique }
    ensures tree_there { ClausesHaveTree }
    ensures total { IsParsingTotal }
    ensures one_tree { IsTreeUnique }
    ensures tree_or_violation { TreeExcludesViolation }
{}

/// The lines of the statements of each block rise, and so does that of its END clause behind them;
/// and they rise from block to block.
pub fn law_of_lines()
    ensures within { LinesRise }
    ensures across { LinesRiseAcross }
{}

/// The one tree of a source. It is well-formed, and the code of its statements takes at most four
/// times the bytes of the source.
///
/// # Errors
///
/// The line and the rule, 10 to 13, of the first clause that breaks one, exactly where there is one
/// or the source ends inside a block; or want of memory.
pub fn parse(alloc: Global, t: &Tokens) -> Result<Tree, SourceFault>
    ensures tree { IfOk result (IsTree t.now.source.items t.now.list.items) }
    ensures refused { IfErr result (IsRefusedBy t.now.source.items t.now.list.items) }
    ensures well_formed { IfOk result IsWellFormed }
    ensures bounded { IfOk result (λ tree. tree_size tree ≤ 4 * length t.now.source.items) }
{
    let tokens = t.list.as_slice();
    let blocks = source_blocks(alloc, t.source.as_slice(), last_line(tokens), tokens)?;
    Ok(Tree {
        blocks: Sequence::from_vec(blocks),
    })
}
