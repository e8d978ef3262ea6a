ghost use Rattle.std.specs.Prelude.{◌≡◌, ◌≤◌, ◌∷◌, ◌++◌, length, drop, slice_range, Ok, IfOk, IfErr, OnOk};
ghost use Rattle.stl_lexer.specs.Limits.{source_limit};
ghost use Rattle.stl_lexer.specs.Tokens.{text_of};
ghost use Rattle.de_mnemonics.specs.Words.{IsFoundAsWanted, translated_word};
ghost use Rattle.stl_symbols.specs.declared.languages.Language.TheVariants.{English, German};
ghost use Rattle.de_mnemonics.specs.Translation.{
  TranslationExcludesViolation,
  ContinuesTranslation,
  IsTranslationRefused,
  IsStoppedByForeignWord,
  IsTranslationTotal,
  IsTranslation,
  IsTranslationUnique,
  IsTranslationViolationUnique,
  next_class,
  role_at,
  position_behind,
  translation_of,
  translation_from,
};

use crate::classes::{TokenClass, token_class};
use crate::places::{TokenPlace, role_of, token_place_behind};
use crate::roles::Role;
use crate::words::{WrittenWord, written_word};
use plc_base::{Refusal, SourceFault};
use std::alloc::{AllocError, Global};
use stl_lexer::{Token, lex};
use stl_symbols::Language;

/// The rule of a word of the other language.
const FOREIGN_WORD: u16 = 17;

/// Where a translation stands.
#[derive(Clone, Copy, Debug)]
pub struct TranslationPosition {
    /// The byte of the source behind the last token.
    pub from: usize,
    /// The place in the program.
    pub place: TokenPlace,
    /// The class of the last token.
    pub before: TokenClass,
}

/// The bytes of a source from one place to another.
fn between(source: &[u8], from: usize, to: usize) -> &[u8]
    ensures { result.now ≡ slice_range source.now from to }
{
    let rest = behind_byte(source, from);
    rest.get(..to.saturating_sub(from)).unwrap_or(rest)
}

/// The bytes of a source from a place on.
fn behind_byte(source: &[u8], from: usize) -> &[u8]
    ensures { result.now ≡ drop from source.now }
{
    source.get(from..).unwrap_or(&[])
}

/// The class of the first of these tokens.
fn next_class(source: &[u8], tokens: &[Token]) -> TokenClass
    ensures { result ≡ next_class source.now tokens.now }
{
    match tokens {
        [next, ..] => token_class(next.kind, next.text(source)),
        [] => TokenClass::Other,
    }
}

/// The role of a token at a position, with the tokens behind it.
fn role_at(source: &[u8], position: &TranslationPosition, token: &Token, rest: &[Token]) -> Role
    ensures { result ≡ role_at source.now position.now token.now rest.now }
{
    let word = token.text(source);
    let class = token_class(token.kind, word);
    role_of(
        position.place,
        position.before,
        class,
        word,
        next_class(source, rest),
    )
}

/// The position behind a token, with the tokens behind it.
fn position_behind(
    source: &[u8],
    position: &TranslationPosition,
    token: &Token,
    rest: &[Token],
) -> TranslationPosition
    ensures { result ≡ position_behind source.now position.now token.now rest.now }
{
    let word = token.text(source);
    let class = token_class(token.kind, word);
    let next = next_class(source, rest);
    TranslationPosition {
        from: token.end as usize,
        place: token_place_behind(position.place, position.before, class, word, next),
        before: class,
    }
}

/// How a token at a position is written.
fn spelling_at<'a>(
    language: Language,
    source: &'a [u8],
    position: &TranslationPosition,
    token: &Token,
    rest: &[Token],
) -> Option<WrittenWord<'a>>
    ensures { IsFoundAsWanted (λ s. s.front.now ++ s.rest.now)
        (translated_word language (role_at source.now position.now token.now rest.now)
        (text_of source.now token.now)) result }
{
    written_word(
        language,
        role_at(source, position, token, rest),
        token.text(source),
    )
}

/// Writes what stands between two tokens, and the second one.
fn append_spelling(
    text: &mut Vec<u8>,
    gap: &[u8],
    spelling: &WrittenWord<'_>,
) -> Result<(), AllocError>
    ensures { OnOk result (text.new.items
        ≡ text.old.items ++ (gap.now ++ (spelling.now.front.now ++ spelling.now.rest.now))) }
{
    text.extend_from_slice(gap)?;
    text.extend_from_slice(spelling.front)?;
    text.extend_from_slice(spelling.rest)?;
    Ok(())
}

/// Writes what stands between a position and a token, and the token.
#[tactic(auto, using(crate::proofs::TranslationLemmas::goes_on, crate::proofs::TranslationLemmas::stops))]
fn put_token(
    text: &mut Vec<u8>,
    language: Language,
    source: &[u8],
    position: &TranslationPosition,
    token: &Token,
    rest: &[Token],
) -> Result<TranslationPosition, SourceFault>
    ensures ok { IfOk result
        (λ next. ContinuesTranslation language source.now text.old.items position.now
        (token.now ∷ rest.now) text.new.items next rest.now) }
    ensures stopped { IfErr result
        (IsStoppedByForeignWord (translation_from language source.now position.now
        (token.now ∷ rest.now))) }
{
    let Some(spelling) = spelling_at(language, source, position, token, rest) else {
        return Err(SourceFault::Refused {
            refusal: Refusal {
                line: token.line,
                rule: FOREIGN_WORD,
            },
        });
    };
    let gap = between(source, position.from, token.start as usize);
    append_spelling(text, gap, &spelling)?;
    Ok(position_behind(source, position, token, rest))
}

/// The translation of a source with these tokens.
#[tactic(auto, using(crate::proofs::TranslationLemmas::at_front, crate::proofs::TranslationLemmas::at_end))]
fn translate_tokens(
    alloc: Global,
    language: Language,
    source: &[u8],
    tokens: &[Token],
) -> Result<Vec<u8>, SourceFault>
    ensures ok { IfOk result (λ text. translation_of language source.now tokens.now
        ≡ Ok text.items) }
    ensures stopped { IfErr result
        (IsStoppedByForeignWord (translation_of language source.now tokens.now)) }
{
    let mut text = Vec::new(alloc);
    let mut position = TranslationPosition {
        from: 0,
        place: TokenPlace::Outside,
        before: TokenClass::Other,
    };
    let mut left = tokens;
    while let [token, rest @ ..] = left {
        position = put_token(&mut text, language, source, &position, token, rest)?;
        left = rest;
    }
    text.extend_from_slice(behind_byte(source, position.from))?;
    Ok(text)
}

/// The translation of a source.
#[tactic(auto, using(crate::proofs::TranslationLemmas::is_translation, crate::proofs::TranslationLemmas::refused_by_tokens, crate::proofs::TranslationLemmas::refused_by_word))]
fn translate(alloc: Global, language: Language, bytes: &[u8]) -> Result<Vec<u8>, SourceFault>
    requires { length bytes.now ≤ source_limit }
    ensures ok { IfOk result (λ text. IsTranslation language bytes.now text.items) }
    ensures refused { IfErr result (IsTranslationRefused language bytes.now) }
{
    let tokens = lex(alloc, bytes)?;
    let text = translate_tokens(alloc, language, bytes, tokens.list.as_slice())?;
    Ok(text)
}

/// The translation of a source with German mnemonics to English ones.
///
/// # Errors
///
/// The line and the rule of the first violation of the rules of tokens (1 to 4), and where there is
/// none, of the first word of English mnemonics alone (rule 17); or want of memory.
pub fn to_english(alloc: Global, bytes: &[u8]) -> Result<Vec<u8>, SourceFault>
    requires { length bytes.now ≤ source_limit }
    ensures ok { IfOk result (λ text. IsTranslation English bytes.now text.items) }
    ensures refused { IfErr result (IsTranslationRefused English bytes.now) }
{
    translate(alloc, Language::English, bytes)
}

/// The translation of a source with English mnemonics to German ones.
///
/// # Errors
///
/// The line and the rule of the first violation of the rules of tokens (1 to 4), and where there is
/// none, of the first word of German mnemonics alone (rule 17); or want of memory.
pub fn to_german(alloc: Global, bytes: &[u8]) -> Result<Vec<u8>, SourceFault>
    requires { length bytes.now ≤ source_limit }
    ensures ok { IfOk result (λ text. IsTranslation German bytes.now text.items) }
    ensures refused { IfErr result (IsTranslationRefused German bytes.now) }
{
    translate(alloc, Language::German, bytes)
}

/// A source has one translation, or none and one violation: so each call refuses exactly the
/// sources with a violation, with exactly that line and rule.
pub fn law_of_translations()
    ensures one_text { IsTranslationUnique }
    ensures text_or_violation { TranslationExcludesViolation }
    ensures one_violation { IsTranslationViolationUnique }
    ensures total { IsTranslationTotal }
{
    stl_lexer::law_of_tokens();
}
