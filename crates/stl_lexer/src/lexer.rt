ghost use Rattle.std.specs.Prelude.{◌≡◌, ◌≤◌, length, IfOk, IfErr};
ghost use Rattle.stl_lexer.specs.Limits.{source_limit};
ghost use Rattle.stl_lexer.specs.TimeLiteral.{ReadsTimes};
ghost use Rattle.stl_lexer.specs.Tokens.{AreTokens, AreTokensUnique, ExcludesViolation, IsRefused, IsLexingTotal, IsViolationUnique};

use crate::gaps::{Position, token_lines};
use crate::lists::Tokens;
use crate::places::{is_minus, next_token};
use plc_base::SourceFault;
use std::alloc::Global;

/// Cuts a source of at most `SOURCE_LIMIT` bytes into its tokens.
///
/// # Errors
///
/// The line and the rule, 1 to 4, of the first place that breaks one, exactly where there is such a
/// place; or want of memory.
pub fn lex(alloc: Global, bytes: &[u8]) -> Result<Tokens, SourceFault>
    requires { length bytes.now ≤ source_limit }
    ensures source { IfOk result (λ tokens. tokens.source.items ≡ bytes.now) }
    ensures tokens { IfOk result (λ tokens. AreTokens bytes.now tokens.list.items) }
    ensures refused { IfErr result (IsRefused bytes.now) }
{
    let source = Vec::from_slice(alloc, bytes)?;
    let mut list = Vec::new(alloc);
    let mut from = Position { offset: 0, line: 1 };
    let mut minus = false;
    loop {
        match next_token(bytes, from, minus) {
            Ok(Some(token)) => {
                let text = &bytes[token.start as usize..token.end as usize];
                from = Position {
                    offset: token.end as usize,
                    line: token.line + token_lines(token.kind, text),
                };
                minus = is_minus(token.kind, text);
                list.push(token)?;
            }
            Ok(None) => return Ok(Tokens { source, list }),
            Err(refusal) => return Err(SourceFault::Refused { refusal }),
        }
    }
}

/// A source has one list of tokens, or no list and one first violation: so `lex` refuses exactly
/// the sources without tokens, with exactly that line and rule.
pub fn law_of_tokens()
    ensures one_list { AreTokensUnique }
    ensures list_or_violation { ExcludesViolation }
    ensures one_violation { IsViolationUnique }
    ensures total { IsLexingTotal }
{}

/// A time literal means the sum of its parts, whose units fall.
pub fn law_of_time_literals()
    ensures { ReadsTimes }
{}
