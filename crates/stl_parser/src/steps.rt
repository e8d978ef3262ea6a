ghost use Rattle.std.specs.Prelude.{◌≡◌, ◌<◌, [], length, false, IfOk, IfErr, Ok};
ghost use Rattle.plc_base.specs.declared.refusals.SourceFault.TheVariants as fault;
ghost use Rattle.stl_parser.specs.Clauses.{level_at};
ghost use Rattle.stl_parser.specs.Frame.{next_place};
ghost use Rattle.stl_parser.specs.Source.{step_of, place_or_rule, is_outside, IsBrokenAt};

use crate::clauses::{Clause, ReadClause, clause_at};
use crate::frames::follow;
use crate::places::ClausePlace;
use plc_base::{Refusal, SourceFault};
use std::alloc::Global;
use stl_lexer::Token;

/// Rule 10: a clause isn't in the grammar.
pub const NO_CLAUSE: u16 = 10;

/// Rule 11: a clause stands where its kind may not follow.
pub const MISPLACED_CLAUSE: u16 = 11;

/// Rule 12: a label is longer than four characters.
pub const LONG_LABEL: u16 = 12;

/// Rule 13: the source ends inside a block.
pub const OPEN_BLOCK: u16 = 13;

/// The refusal by a rule that is broken at a line.
fn refusal_at(line: u32, rule: u16) -> SourceFault
    ensures { result ≡ fault.Refused (record { line = line; rule = rule }) }
{
    SourceFault::Refused {
        refusal: Refusal { line, rule },
    }
}

/// Where the clauses behind one of the grammar stand, or the rule that it breaks.
fn place_behind(at: ClausePlace, clause: &Clause, is_long: bool) -> Result<ClausePlace, u16>
    requires level { level_at at < 4294967295 }
    ensures value { result ≡ place_or_rule is_long (next_place at clause.now) }
{
    match follow(at, clause) {
        None => Err(MISPLACED_CLAUSE),
        Some(_) if is_long => Err(LONG_LABEL),
        Some(next) => Ok(next),
    }
}

/// The clause at the front of the tokens, what follows it, and where that stands.
///
/// # Errors
///
/// The line and the rule that the clause breaks, or at the end of the source `last`, the line of
/// its last token; or want of memory.
#[tactic(auto, unfolding(crate::specs::Source::step_of))]
pub(crate) fn next_clause<'a>(
    alloc: Global,
    source: &[u8],
    last: u32,
    at: ClausePlace,
    tokens: &'a [Token],
) -> Result<(Clause, &'a [Token], ClausePlace), SourceFault>
    requires level { level_at at < 4294967295 }
    requires inside { tokens.now ≡ [] → is_outside at ≡ false }
    ensures right { IfOk result
        (λ r. step_of source.now at tokens.now ≡ Ok (r.0, r.1.now, r.2)) }
    ensures broken { IfErr result (IsBrokenAt source.now at tokens.now last) }
{
    let [first, ..] = tokens else {
        return Err(refusal_at(last, OPEN_BLOCK));
    };
    let Some(ReadClause(clause, rest, is_long)) = clause_at(alloc, source, at, tokens)? else {
        return Err(refusal_at(first.line, NO_CLAUSE));
    };
    match place_behind(at, &clause, is_long) {
        Ok(next) => Ok((clause, rest, next)),
        Err(rule) => Err(refusal_at(first.line, rule)),
    }
}
