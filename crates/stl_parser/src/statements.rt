ghost use Rattle.std.specs.Prelude.{◌≡◌, ◌≤◌, ◌||◌, IfOk};
ghost use Rattle.std.specs.Option.{option_map};
ghost use Rattle.plc_base.specs.Kinds.{is_data_block, is_function_block};
ghost use Rattle.stl_parser.specs.Statements.{
  may_be_of_kind,
  data_block_at,
  instance_at,
  statement_without_actuals,
  call_of,
  block_call_of,
  statement_with_operand,
  is_long_label,
  jump_of,
  open_of,
  behind_word,
  after_paren,
  opening_instruction,
  zone_end_of,
  one_token_instruction,
  instruction_of,
  statement_with_label,
  labelled_statement,
  unlabelled_statement,
  statement_of,
};

use crate::addresses::block;
use crate::keywords::{ClauseWord, has_kind, is_key, is_mark};
use crate::literals::text_between_quotes;
use crate::lookups::{mnemonic_of, opening_mnemonic_of};
use crate::operands::operand;
use crate::parameters::actuals;
use crate::parsed_items::ParsedItem;
use crate::tables::OperandSyntax;
use std::alloc::{AllocError, Global};
use stl_ast::{Actual, BlockName, Mnemonic, Name, Operand, Sequence, Statement};
use stl_lexer::{Mark, Token, TokenKind};

/// The most characters that a label may have.
pub const LABEL_LENGTH: usize = 4;

/// An instruction with its operand and its actual parameters, without line and label; `long` says
/// that a label in it is too long.
#[derive(Drop)]
pub struct BareStatement {
    pub code: Mnemonic,
    pub operand: Operand,
    pub actuals: Sequence<Actual>,
    pub long: bool,
}

/// Whether the name may be that of a function block.
fn may_be_fb(name: &BlockName) -> bool
    ensures { result ≡ may_be_of_kind name.now is_function_block }
{
    match name {
        BlockName::Number { id } => id.kind.is_function_block(),
        BlockName::Quoted { name: _ } => true,
    }
}

/// Whether the name may be that of a data block.
fn may_be_db(name: &BlockName) -> bool
    ensures { result ≡ may_be_of_kind name.now is_data_block }
{
    match name {
        BlockName::Number { id } => id.kind.is_data_block(),
        BlockName::Quoted { name: _ } => true,
    }
}

/// The data block behind the comma of a call.
#[tactic(auto, unfolding(crate::specs::Statements::data_block_at))]
fn data_block<'a>(
    alloc: Global,
    source: &[u8],
    tokens: &'a [Token],
) -> Result<Option<ParsedItem<'a, BlockName>>, AllocError>
    ensures { IfOk result (λ found. found ≡ data_block_at source.now tokens.now) }
{
    let Some(ParsedItem(name, rest)) = block(alloc, source, tokens)? else {
        return Ok(None);
    };
    if may_be_db(&name) {
        Ok(Some(ParsedItem(name, rest)))
    } else {
        Ok(None)
    }
}

/// The instance of a call, `, DB n` behind a function block, and what follows.
#[tactic(auto, unfolding(crate::specs::Statements::instance_at))]
fn instance<'a>(
    alloc: Global,
    source: &[u8],
    name: &BlockName,
    tokens: &'a [Token],
) -> Result<Option<ParsedItem<'a, Option<BlockName>>>, AllocError>
    ensures { IfOk result (λ found. found ≡ instance_at source.now name.now tokens.now) }
{
    let [token, rest @ ..] = tokens else {
        return Ok(Some(ParsedItem(None, tokens)));
    };
    if !is_mark(source, token, Mark::Comma) {
        return Ok(Some(ParsedItem(None, tokens)));
    }
    if !may_be_fb(name) {
        return Ok(None);
    }
    let Some(ParsedItem(instance, rest)) = data_block(alloc, source, rest)? else {
        return Ok(None);
    };
    Ok(Some(ParsedItem(Some(instance), rest)))
}

/// An instruction without actual parameters and without a label that is too long.
fn plain(alloc: Global, code: Mnemonic, operand: Operand) -> BareStatement
    ensures { result ≡ statement_without_actuals code operand }
{
    BareStatement {
        code,
        operand,
        actuals: Sequence::from_vec(Vec::new(alloc)),
        long: false,
    }
}

/// CALL, behind the word.
#[tactic(auto, unfolding(crate::specs::Statements::call_of))]
fn call(
    alloc: Global,
    source: &[u8],
    code: Mnemonic,
    tokens: &[Token],
) -> Result<Option<BareStatement>, AllocError>
    ensures { IfOk result (λ found. found ≡ call_of source.now code tokens.now) }
{
    let Some(ParsedItem(name, rest)) = block(alloc, source, tokens)? else {
        return Ok(None);
    };
    let Some(ParsedItem(instance, rest)) = instance(alloc, source, &name, rest)? else {
        return Ok(None);
    };
    let Some(actuals) = actuals(alloc, source, rest)? else {
        return Ok(None);
    };
    let operand = Operand::Called { name, instance };
    Ok(Some(BareStatement {
        code,
        operand,
        actuals,
        long: false,
    }))
}

/// UC and CC, behind the word: one block.
#[tactic(auto, unfolding(crate::specs::Statements::block_call_of))]
fn block_call(
    alloc: Global,
    source: &[u8],
    code: Mnemonic,
    tokens: &[Token],
) -> Result<Option<BareStatement>, AllocError>
    ensures { IfOk result (λ found. found ≡ block_call_of source.now code tokens.now) }
{
    match block(alloc, source, tokens)? {
        Some(ParsedItem(name, [])) => {
            let operand = Operand::Called {
                name,
                instance: None,
            };
            Ok(Some(plain(alloc, code, operand)))
        }
        _ => Ok(None),
    }
}

/// An instruction with an operand of any form, behind the word.
#[tactic(auto, unfolding(crate::specs::Statements::statement_with_operand))]
fn with_operand(
    alloc: Global,
    source: &[u8],
    code: Mnemonic,
    tokens: &[Token],
) -> Result<Option<BareStatement>, AllocError>
    ensures { IfOk result (λ found. found ≡ statement_with_operand source.now code tokens.now) }
{
    let Some(operand) = operand(alloc, source, tokens)? else {
        return Ok(None);
    };
    Ok(Some(plain(alloc, code, operand)))
}

/// Whether a label is too long.
#[tactic(auto, unfolding(crate::specs::Statements::is_long_label))]
fn is_long(source: &[u8], token: &Token) -> bool
    ensures { result ≡ is_long_label source.now token.now }
{
    token.text(source).len() > LABEL_LENGTH
}

/// A jump, behind the word: a word that stands alone is its label.
#[tactic(auto, unfolding(crate::specs::Statements::jump_of))]
fn jump(
    alloc: Global,
    source: &[u8],
    code: Mnemonic,
    tokens: &[Token],
) -> Result<Option<BareStatement>, AllocError>
    ensures { IfOk result (λ found. found ≡ jump_of source.now code tokens.now) }
{
    match tokens {
        [token] if has_kind(token, TokenKind::Word) => {
            let name = Name::new(alloc, token.text(source))?;
            Ok(Some(BareStatement {
                code,
                operand: Operand::Label { name },
                actuals: Sequence::from_vec(Vec::new(alloc)),
                long: is_long(source, token),
            }))
        }
        _ => with_operand(alloc, source, code, tokens),
    }
}

/// OPN, behind the word: a quoted name that stands alone is a data block for the DB register.
#[tactic(auto, unfolding(crate::specs::Statements::open_of))]
fn open(
    alloc: Global,
    source: &[u8],
    code: Mnemonic,
    tokens: &[Token],
) -> Result<Option<BareStatement>, AllocError>
    ensures { IfOk result (λ found. found ≡ open_of source.now code tokens.now) }
{
    match tokens {
        [token] if has_kind(token, TokenKind::Quoted) => {
            let name = Name::new(alloc, text_between_quotes(token.text(source)))?;
            let operand = Operand::OpenBlock {
                di: false,
                name: BlockName::Quoted { name },
            };
            Ok(Some(plain(alloc, code, operand)))
        }
        _ => with_operand(alloc, source, code, tokens),
    }
}

/// What may stand behind an instruction word of this form.
#[tactic(auto, unfolding(crate::specs::Statements::behind_word))]
fn behind_word(
    alloc: Global,
    source: &[u8],
    form: OperandSyntax,
    code: Mnemonic,
    tokens: &[Token],
) -> Result<Option<BareStatement>, AllocError>
    ensures { IfOk result (λ found. found ≡ behind_word source.now form code tokens.now) }
{
    match form {
        OperandSyntax::Operand => with_operand(alloc, source, code, tokens),
        OperandSyntax::Jump => jump(alloc, source, code, tokens),
        OperandSyntax::Open => open(alloc, source, code, tokens),
        OperandSyntax::BlockCall => block_call(alloc, source, code, tokens),
        OperandSyntax::Call => call(alloc, source, code, tokens),
    }
}

/// A `(` at the front, and what follows.
#[tactic(auto, unfolding(crate::specs::Statements::after_paren))]
fn after_paren<'a>(source: &[u8], tokens: &'a [Token]) -> Option<&'a [Token]>
    ensures { option_map (λ r. r.now) result ≡ after_paren source.now tokens.now }
{
    let [token, rest @ ..] = tokens else {
        return None;
    };
    if is_mark(source, token, Mark::OpenParen) {
        Some(rest)
    } else {
        None
    }
}

/// An instruction word that opens a bracket or a zone: the word and a `(`.
#[tactic(auto, unfolding(crate::specs::Statements::opening_instruction))]
fn opening(
    alloc: Global,
    source: &[u8],
    token: &Token,
    rest: &[Token],
) -> Result<Option<BareStatement>, AllocError>
    ensures { IfOk result (λ found. found ≡ opening_instruction source.now token.now rest.now) }
{
    let Some(code) = opening_mnemonic_of(token.text(source)) else {
        return Ok(None);
    };
    let Some(behind) = after_paren(source, rest) else {
        return Ok(None);
    };
    with_operand(alloc, source, code, behind)
}

/// `)MCR`, which ends a zone: a `)` and the word.
#[tactic(auto, unfolding(crate::specs::Statements::zone_end_of))]
fn zone_end(
    alloc: Global,
    source: &[u8],
    token: &Token,
    rest: &[Token],
) -> Result<Option<BareStatement>, AllocError>
    ensures { IfOk result (λ found. found ≡ zone_end_of source.now token.now rest.now) }
{
    match rest {
        [word, behind @ ..]
            if is_mark(source, token, Mark::CloseParen) && is_key(source, word, ClauseWord::Mcr) =>
            { with_operand(alloc, source, Mnemonic::McrClose, behind) }
        _ => Ok(None),
    }
}

/// An instruction whose word is one token.
#[tactic(auto, unfolding(crate::specs::Statements::one_token_instruction))]
fn one_token_instruction(
    alloc: Global,
    source: &[u8],
    token: &Token,
    rest: &[Token],
) -> Result<Option<BareStatement>, AllocError>
    ensures { IfOk result
        (λ found. found ≡ one_token_instruction source.now token.now rest.now) }
{
    let Some((code, form)) = mnemonic_of(token.text(source)) else {
        return Ok(None);
    };
    behind_word(alloc, source, form, code, rest)
}

/// An instruction that is all of the tokens.
#[tactic(auto, unfolding(crate::specs::Statements::instruction_of))]
fn whole_instruction(
    alloc: Global,
    source: &[u8],
    tokens: &[Token],
) -> Result<Option<BareStatement>, AllocError>
    ensures { IfOk result (λ found. found ≡ instruction_of source.now tokens.now) }
{
    let [token, rest @ ..] = tokens else {
        return Ok(None);
    };
    if let Some(opening) = opening(alloc, source, token, rest)? {
        return Ok(Some(opening));
    }
    if let Some(end) = zone_end(alloc, source, token, rest)? {
        return Ok(Some(end));
    }
    one_token_instruction(alloc, source, token, rest)
}

/// The statement of an instruction.
fn statement_with(line: u32, label: Option<Name>, instruction: BareStatement) -> Statement
    ensures { result ≡ statement_with_label line label instruction }
{
    let BareStatement {
        code,
        operand,
        actuals,
        long: _,
    } = instruction;
    Statement {
        line,
        label,
        code,
        operand,
        actuals,
    }
}

/// A statement with a label, behind the `:`, and whether a label in it is too long.
#[tactic(auto, unfolding(crate::specs::Statements::labelled_statement))]
fn labelled_statement(
    alloc: Global,
    source: &[u8],
    line: u32,
    word: &Token,
    tokens: &[Token],
) -> Result<Option<(Statement, bool)>, AllocError>
    ensures { IfOk result (λ found. found
        ≡ labelled_statement source.now line word.now tokens.now) }
{
    let Some(instruction) = whole_instruction(alloc, source, tokens)? else {
        return Ok(None);
    };
    let long = instruction.long || is_long(source, word);
    let label = Name::new(alloc, word.text(source))?;
    Ok(Some((statement_with(line, Some(label), instruction), long)))
}

/// A statement without a label, and whether a label in it is too long.
#[tactic(auto, unfolding(crate::specs::Statements::unlabelled_statement))]
fn unlabelled_statement(
    alloc: Global,
    source: &[u8],
    line: u32,
    tokens: &[Token],
) -> Result<Option<(Statement, bool)>, AllocError>
    ensures { IfOk result (λ found. found ≡ unlabelled_statement source.now line tokens.now) }
{
    let Some(instruction) = whole_instruction(alloc, source, tokens)? else {
        return Ok(None);
    };
    let long = instruction.long;
    Ok(Some((statement_with(line, None, instruction), long)))
}

/// A statement that is all of the tokens before its `;`, and whether a label in it is too long.
#[tactic(auto, unfolding(crate::specs::Statements::statement_of))]
pub(crate) fn statement(
    alloc: Global,
    source: &[u8],
    line: u32,
    tokens: &[Token],
) -> Result<Option<(Statement, bool)>, AllocError>
    ensures { IfOk result (λ found. found ≡ statement_of source.now line tokens.now) }
{
    match tokens {
        [] => {
            let empty = plain(alloc, Mnemonic::Empty, Operand::Nothing);
            Ok(Some((statement_with(line, None, empty), false)))
        }
        [word, colon, rest @ ..]
            if has_kind(word, TokenKind::Word) && is_mark(source, colon, Mark::Colon) => {
            labelled_statement(alloc, source, line, word, rest)
        }
        _ => unlabelled_statement(alloc, source, line, tokens),
    }
}
