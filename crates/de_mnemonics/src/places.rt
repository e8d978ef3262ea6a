ghost use Rattle.std.specs.Prelude.{◌≡◌};
ghost use Rattle.de_mnemonics.specs.Places.{
  token_place_behind,
  place_behind_closing,
  place_behind_first,
  place_behind_front,
  place_behind_head,
  place_behind_instruction,
  place_behind_open,
  place_behind_opening,
  place_behind_outside,
  place_behind_part,
  place_behind_sign,
  place_behind_start,
  place_behind_word,
  is_assign,
  is_behind_instruction,
  is_component_word,
  is_dot,
  is_numbered_operand,
  is_operand_place,
  is_pointer_mark,
  may_be_keyword,
  opens_number,
  opens_path,
  role_at_start,
  role_first,
  role_in,
  role_of,
  role_of_word,
};

use crate::classes::TokenClass;
use crate::roles::Role;
use crate::words::{
    begins_body, ends_code, ends_in_digits, has_digits, is_jump_word, is_result, is_zone_word,
    opens_code, opens_data, opens_network, takes_number,
};

/// Where a token stands in a source.
#[derive(Clone, Copy, Debug, PartialEq, Eq)]
pub enum TokenPlace {
    /// Outside of blocks, or in a block of data.
    Outside,
    /// In a block of statements, before its body.
    Head,
    /// At the start of a statement.
    Start,
    /// Behind the word of a label.
    Label,
    /// Behind the `:` of a label.
    Labelled,
    /// Behind the instruction word of a jump, and no word since.
    Jump,
    /// Behind another instruction word.
    Instruction,
    /// Behind a `)` at the front of an instruction.
    Closing,
    /// Behind the rest of an instruction, where a path may begin.
    Path,
    /// In the rest of a statement.
    Inside,
}

/// Whether a keyword may stand behind a token of this class.
fn may_be_keyword(before: TokenClass) -> bool
    ensures { result ≡ may_be_keyword before }
{
    !matches!(before, TokenClass::Colon | TokenClass::Dot)
}

/// The place behind a word outside of blocks, or in a block of data.
#[tactic(auto, unfolding(crate::specs::Places::place_behind_outside))]
fn place_behind_outside(before: TokenClass, word: &[u8]) -> TokenPlace
    ensures { result ≡ place_behind_outside before word.now }
{
    if may_be_keyword(before) && opens_code(word) {
        TokenPlace::Head
    } else {
        TokenPlace::Outside
    }
}

/// The place behind a word before the body of a block of statements.
#[tactic(auto, unfolding(crate::specs::Places::place_behind_head))]
fn place_behind_head(before: TokenClass, word: &[u8]) -> TokenPlace
    ensures { result ≡ place_behind_head before word.now }
{
    if !may_be_keyword(before) {
        return TokenPlace::Head;
    }
    if begins_body(word) {
        return TokenPlace::Start;
    }
    if opens_data(word) {
        return TokenPlace::Outside;
    }
    TokenPlace::Head
}

/// The place behind an instruction word.
#[tactic(auto, unfolding(crate::specs::Places::place_behind_instruction))]
fn place_behind_instruction(word: &[u8]) -> TokenPlace
    ensures { result ≡ place_behind_instruction word.now }
{
    if is_jump_word(word) {
        TokenPlace::Jump
    } else {
        TokenPlace::Instruction
    }
}

/// The place behind the first word of a statement: a label, or else an instruction word.
fn place_behind_first(next: TokenClass, word: &[u8]) -> TokenPlace
    ensures { result ≡ place_behind_first next word.now }
{
    match next {
        TokenClass::Colon => TokenPlace::Label,
        _ => place_behind_instruction(word),
    }
}

/// The place behind a word at the start of a statement.
#[tactic(auto, unfolding(crate::specs::Places::place_behind_start))]
fn place_behind_start(word: &[u8], next: TokenClass) -> TokenPlace
    ensures { result ≡ place_behind_start word.now next }
{
    if ends_code(word) {
        return TokenPlace::Outside;
    }
    if opens_network(word) {
        return TokenPlace::Start;
    }
    place_behind_first(next, word)
}

/// The place behind a word that follows a `)` at the front of an instruction.
#[tactic(auto, unfolding(crate::specs::Places::place_behind_closing))]
fn place_behind_closing(word: &[u8]) -> TokenPlace
    ensures { result ≡ place_behind_closing word.now }
{
    if is_zone_word(word) {
        TokenPlace::Path
    } else {
        TokenPlace::Inside
    }
}

/// The place behind a word, by the place of the word; behind one of an operand it is the rest of
/// the statement.
#[tactic(auto, unfolding(crate::specs::Places::place_behind_word))]
fn place_behind_word(
    place: TokenPlace,
    before: TokenClass,
    word: &[u8],
    next: TokenClass,
) -> TokenPlace
    ensures { result ≡ place_behind_word place before word.now next }
{
    match place {
        TokenPlace::Outside => place_behind_outside(before, word),
        TokenPlace::Head => place_behind_head(before, word),
        TokenPlace::Start => place_behind_start(word, next),
        TokenPlace::Label => place_behind_instruction(word),
        TokenPlace::Labelled => place_behind_instruction(word),
        TokenPlace::Closing => place_behind_closing(word),
        _ => TokenPlace::Inside,
    }
}

/// The place behind another token at the front of an instruction.
fn place_behind_front(class: TokenClass) -> TokenPlace
    ensures { result ≡ place_behind_front class }
{
    match class {
        TokenClass::Semicolon => TokenPlace::Start,
        TokenClass::CloseParen => TokenPlace::Closing,
        TokenClass::Number => TokenPlace::Inside,
        _ => TokenPlace::Path,
    }
}

/// The place behind a token that is no word, at the start of a statement.
fn place_behind_open(class: TokenClass) -> TokenPlace
    ensures { result ≡ place_behind_open class }
{
    match class {
        TokenClass::Note => TokenPlace::Start,
        _ => place_behind_front(class),
    }
}

/// The place behind a token that is no word, within a statement.
fn place_behind_part(place: TokenPlace, class: TokenClass) -> TokenPlace
    ensures { result ≡ place_behind_part place class }
{
    match class {
        TokenClass::Semicolon => TokenPlace::Start,
        _ => place,
    }
}

/// The place behind a token that follows an instruction word.
fn place_behind_opening(class: TokenClass) -> TokenPlace
    ensures { result ≡ place_behind_opening class }
{
    match class {
        TokenClass::Semicolon => TokenPlace::Start,
        TokenClass::OpenParen => TokenPlace::Path,
        _ => TokenPlace::Inside,
    }
}

/// The place behind a token that is no word.
#[tactic(auto, unfolding(crate::specs::Places::place_behind_sign))]
fn place_behind_sign(place: TokenPlace, class: TokenClass) -> TokenPlace
    ensures { result ≡ place_behind_sign place class }
{
    match place {
        TokenPlace::Outside => TokenPlace::Outside,
        TokenPlace::Head => TokenPlace::Head,
        TokenPlace::Start => place_behind_open(class),
        TokenPlace::Label => TokenPlace::Labelled,
        TokenPlace::Labelled => place_behind_front(class),
        TokenPlace::Jump => place_behind_part(TokenPlace::Jump, class),
        TokenPlace::Instruction => place_behind_opening(class),
        _ => place_behind_part(TokenPlace::Inside, class),
    }
}

/// The place behind a token of this class, with the classes of the tokens before and behind it.
#[tactic(auto, unfolding(crate::specs::Places::token_place_behind))]
pub(crate) fn token_place_behind(
    place: TokenPlace,
    before: TokenClass,
    class: TokenClass,
    text: &[u8],
    next: TokenClass,
) -> TokenPlace
    ensures { result ≡ token_place_behind place before class text.now next }
{
    match class {
        TokenClass::Word => place_behind_word(place, before, text, next),
        _ => place_behind_sign(place, class),
    }
}

/// Whether a number or an index in brackets begins with a token of this class.
fn opens_number(next: TokenClass) -> bool
    ensures { result ≡ opens_number next }
{
    matches!(next, TokenClass::Number | TokenClass::OpenBracket)
}

/// Whether a token of this class is `P#`.
fn is_pointer_mark(before: TokenClass) -> bool
    ensures { result ≡ is_pointer_mark before }
{
    matches!(before, TokenClass::Pointer)
}

/// Whether a word is an operand word with its number.
#[tactic(auto, unfolding(crate::specs::Places::is_numbered_operand))]
fn is_numbered(word: &[u8], next: TokenClass) -> bool
    ensures { result ≡ is_numbered_operand word.now next }
{
    takes_number(word) && ends_in_digits(word) && (has_digits(word) || opens_number(next))
}

/// Whether a word stands in an operand place.
#[tactic(auto, unfolding(crate::specs::Places::is_operand_place))]
fn is_operand_place(before: TokenClass, word: &[u8], next: TokenClass) -> bool
    ensures { result ≡ is_operand_place before word.now next }
{
    is_pointer_mark(before) || is_numbered(word, next) || is_result(word)
}

/// Whether a token of this class is `.`.
fn is_dot(class: TokenClass) -> bool
    ensures { result ≡ is_dot class }
{
    matches!(class, TokenClass::Dot)
}

/// Whether a token of this class is `:=`.
fn is_assign(class: TokenClass) -> bool
    ensures { result ≡ is_assign class }
{
    matches!(class, TokenClass::Assign)
}

/// Whether a word is a component or a parameter.
fn is_component_word(before: TokenClass, next: TokenClass) -> bool
    ensures { result ≡ is_component_word before next }
{
    is_dot(before) || is_assign(next)
}

/// Whether this place is behind an instruction.
fn is_behind_instruction(place: TokenPlace) -> bool
    ensures { result ≡ is_behind_instruction place }
{
    matches!(
        place,
        TokenPlace::Instruction | TokenPlace::Closing | TokenPlace::Path
    )
}

/// Whether a path may begin at this place.
fn opens_path(place: TokenPlace, before: TokenClass) -> bool
    ensures { result ≡ opens_path place before }
{
    is_behind_instruction(place) || is_assign(before)
}

/// The role of a word behind the instruction of a statement.
#[tactic(auto, unfolding(crate::specs::Places::role_in))]
fn role_in(place: TokenPlace, before: TokenClass, word: &[u8], next: TokenClass) -> Role
    ensures { result ≡ role_in place before word.now next }
{
    if is_component_word(before, next) {
        return Role::Stays;
    }
    if is_operand_place(before, word, next) {
        return Role::Operand;
    }
    if opens_path(place, before) {
        Role::Path
    } else {
        Role::Stays
    }
}

/// The role of the first word of a statement that is no keyword.
fn role_first(next: TokenClass) -> Role
    ensures { result ≡ role_first next }
{
    match next {
        TokenClass::Colon => Role::Stays,
        _ => Role::Instruction,
    }
}

/// The role of a word at the start of a statement: a keyword and a label stay.
#[tactic(auto, unfolding(crate::specs::Places::role_at_start))]
fn role_at_start(word: &[u8], next: TokenClass) -> Role
    ensures { result ≡ role_at_start word.now next }
{
    if ends_code(word) || opens_network(word) {
        return Role::Stays;
    }
    role_first(next)
}

/// The role of a word, by its place: a word outside of statements stays, and the label of a jump;
/// one behind a label is the instruction word.
#[tactic(auto, unfolding(crate::specs::Places::role_of_word))]
fn role_of_word(place: TokenPlace, before: TokenClass, word: &[u8], next: TokenClass) -> Role
    ensures { result ≡ role_of_word place before word.now next }
{
    match place {
        TokenPlace::Outside => Role::Stays,
        TokenPlace::Head => Role::Stays,
        TokenPlace::Start => role_at_start(word, next),
        TokenPlace::Label => Role::Instruction,
        TokenPlace::Labelled => Role::Instruction,
        TokenPlace::Jump => Role::Stays,
        _ => role_in(place, before, word, next),
    }
}

/// The role of a token.
#[tactic(auto, unfolding(crate::specs::Places::role_of))]
pub(crate) fn role_of(
    place: TokenPlace,
    before: TokenClass,
    class: TokenClass,
    text: &[u8],
    next: TokenClass,
) -> Role
    ensures { result ≡ role_of place before class text.now next }
{
    match class {
        TokenClass::Word => role_of_word(place, before, text, next),
        _ => Role::Stays,
    }
}
