ghost use Rattle.std.specs.Prelude.{◌≡◌, ◌++◌, ◌≤◌, find, length, map, is_some, nat_lt, Some};
ghost use Rattle.std.specs.Char.{is_ascii_digit};
ghost use Rattle.std.specs.List.{list_all, list_any};
ghost use Rattle.std.specs.Option.{option_map};
ghost use Rattle.std.specs.Str.{str_eq_ignore_ascii_case};
ghost use Rattle.de_mnemonics.specs.declared.roles.Role.TheVariants.{Instruction, Operand, Path};
ghost use Rattle.de_mnemonics.specs.Tables.{
  begin_words,
  code_openings,
  common_jumps,
  data_openings,
  block_end_words,
  instruction_pairs,
  jump_pairs,
  network_words,
  operand_pairs,
  result_pairs,
  zone_words,
};
ghost use Rattle.de_mnemonics.specs.Back.{WordsComeBack};
ghost use Rattle.de_mnemonics.specs.Places.{is_word_in_list, is_word_in_pairs, is_jump_word};
ghost use Rattle.de_mnemonics.specs.Words.{IsFoundAsWanted, digits_of_word, instruction_partner, letter_count, letters_of_word, numbered_partner, operand_partner, opposite_language, partner_in_table, translated_word};

use crate::roles::Role;
use crate::tables::{
    BEGIN_WORDS, CODE_OPENINGS, COMMON_JUMPS, DATA_OPENINGS, ENDINGS, INSTRUCTIONS, JUMPS,
    NETWORK_WORDS, OPERANDS, Pair, RESULTS, ZONE_WORDS,
};
use stl_symbols::Language;

/// How a word is written: bytes in front, and the rest of it.
#[derive(Clone, Copy, Debug)]
pub(crate) struct WrittenWord<'a> {
    pub(crate) front: &'a [u8],
    pub(crate) rest: &'a [u8],
}

/// The other language.
fn opposite(language: Language) -> Language
    ensures { result ≡ opposite_language language }
{
    match language {
        Language::English => Language::German,
        Language::German => Language::English,
    }
}

/// The German word beside an English one in a table.
fn german_of(table: &'static [Pair], word: &[u8]) -> Option<&'static [u8]>
    ensures { result ≡ option_map (λ pair. pair.1) (find
        (λ pair. str_eq_ignore_ascii_case word.now pair.0.now) table.now) }
{
    table
        .iter()
        .find(|pair| word.eq_ignore_ascii_case(pair.0))
        .map(|pair| pair.1)
}

/// The English word beside a German one in a table.
fn english_of(table: &'static [Pair], word: &[u8]) -> Option<&'static [u8]>
    ensures { result ≡ option_map (λ pair. pair.0) (find
        (λ pair. str_eq_ignore_ascii_case word.now pair.1.now) table.now) }
{
    table
        .iter()
        .find(|pair| word.eq_ignore_ascii_case(pair.1))
        .map(|pair| pair.0)
}

/// What a table has beside a word of the language that is translated from.
fn partner(language: Language, table: &'static [Pair], word: &[u8]) -> Option<&'static [u8]>
    ensures { IsFoundAsWanted (λ found. found.now) (partner_in_table language
        (map (λ pair. (pair.0.now, pair.1.now)) table.now) word.now) result }
{
    match language {
        Language::German => german_of(table, word),
        Language::English => english_of(table, word),
    }
}

/// What stands beside an instruction word that is no jump.
#[tactic(auto, unfolding(crate::specs::Tables::instruction_pairs))]
fn common_partner(language: Language, word: &[u8]) -> Option<&'static [u8]>
    ensures { IsFoundAsWanted (λ found. found.now)
        (partner_in_table language instruction_pairs word.now) result }
{
    partner(language, &INSTRUCTIONS, word)
}

/// What stands beside the instruction word of a jump.
#[tactic(auto, unfolding(crate::specs::Tables::jump_pairs))]
fn jump_partner(language: Language, word: &[u8]) -> Option<&'static [u8]>
    ensures { IsFoundAsWanted (λ found. found.now)
        (partner_in_table language jump_pairs word.now) result }
{
    partner(language, &JUMPS, word)
}

/// What stands beside an instruction word.
#[tactic(auto, unfolding(crate::specs::Words::instruction_partner))]
fn instruction_partner(language: Language, word: &[u8]) -> Option<&'static [u8]>
    ensures { IsFoundAsWanted (λ found. found.now) (instruction_partner language word.now) result }
{
    match common_partner(language, word) {
        Some(found) => Some(found),
        None => jump_partner(language, word),
    }
}

/// How many bytes of a word stand before its first digit.
fn letter_count(word: &[u8]) -> usize
    ensures value { result ≡ letter_count word.now }
    ensures within { result ≤ length word.now }
{
    word.iter().take_while(|b| !b.is_ascii_digit()).count()
}

/// The letters of a word that may be followed by a number.
fn letters(word: &[u8]) -> &[u8]
    ensures { result.now ≡ letters_of_word word.now }
{
    &word[..letter_count(word)]
}

/// What stands behind the letters of a word.
fn digits(word: &[u8]) -> &[u8]
    ensures { result.now ≡ digits_of_word word.now }
{
    &word[letter_count(word)..]
}

/// Whether nothing but digits stands behind the letters of a word.
pub(crate) fn ends_in_digits(word: &[u8]) -> bool
    ensures { result ≡ list_all is_ascii_digit (digits_of_word word.now) }
{
    digits(word).iter().all(|b| b.is_ascii_digit())
}

/// Whether anything stands behind the letters of a word.
pub(crate) fn has_digits(word: &[u8]) -> bool
    ensures { result ≡ nat_lt 0 (length (digits_of_word word.now)) }
{
    !digits(word).is_empty()
}

/// What stands beside the letters of an operand word that takes a number.
#[tactic(auto, unfolding(crate::specs::Tables::operand_pairs))]
fn letters_partner(language: Language, letters: &[u8]) -> Option<&'static [u8]>
    ensures { IsFoundAsWanted (λ found. found.now)
        (partner_in_table language operand_pairs letters.now) result }
{
    partner(language, &OPERANDS, letters)
}

/// What stands beside the letters of an operand word, with the digits of the same word.
#[tactic(auto, unfolding(crate::specs::Words::numbered_partner))]
fn numbered_partner<'a>(language: Language, word: &'a [u8]) -> Option<WrittenWord<'a>>
    ensures { IsFoundAsWanted (λ s. s.front.now ++ s.rest.now)
        (numbered_partner language word.now) result }
{
    if !ends_in_digits(word) {
        return None;
    }
    match letters_partner(language, letters(word)) {
        Some(front) => Some(WrittenWord {
            front,
            rest: digits(word),
        }),
        None => None,
    }
}

/// What stands beside an operand word that stands alone.
#[tactic(auto, unfolding(crate::specs::Tables::result_pairs))]
fn result_partner(language: Language, word: &[u8]) -> Option<&'static [u8]>
    ensures { IsFoundAsWanted (λ found. found.now)
        (partner_in_table language result_pairs word.now) result }
{
    partner(language, &RESULTS, word)
}

/// What stands beside an operand word.
#[tactic(auto, unfolding(crate::specs::Words::operand_partner))]
fn operand_partner<'a>(language: Language, word: &'a [u8]) -> Option<WrittenWord<'a>>
    ensures { IsFoundAsWanted (λ s. s.front.now ++ s.rest.now)
        (operand_partner language word.now) result }
{
    if let Some(found) = numbered_partner(language, word) {
        return Some(found);
    }
    match result_partner(language, word) {
        Some(rest) => Some(WrittenWord { front: &[], rest }),
        None => None,
    }
}

/// Whether the language that is translated from has this instruction word, in the table.
fn has_instruction(language: Language, word: &[u8]) -> bool
    ensures { result ≡ is_some (instruction_partner language word.now) }
{
    instruction_partner(language, word).is_some()
}

/// Whether the language that is translated from has this operand word, in the table.
fn has_operand(language: Language, word: &[u8]) -> bool
    ensures { result ≡ is_some (operand_partner language word.now) }
{
    operand_partner(language, word).is_some()
}

/// How an instruction word is written in the translation.
#[tactic(auto, unfolding(crate::specs::Words::translated_word))]
fn written_instruction<'a>(language: Language, word: &'a [u8]) -> Option<WrittenWord<'a>>
    ensures { IsFoundAsWanted (λ s. s.front.now ++ s.rest.now)
        (translated_word language Instruction word.now) result }
{
    if let Some(rest) = instruction_partner(language, word) {
        return Some(WrittenWord { front: &[], rest });
    }
    if has_instruction(opposite(language), word) {
        return None;
    }
    Some(WrittenWord {
        front: &[],
        rest: word,
    })
}

/// How an operand word is written in the translation.
#[tactic(auto, unfolding(crate::specs::Words::translated_word))]
fn written_operand<'a>(language: Language, word: &'a [u8]) -> Option<WrittenWord<'a>>
    ensures { IsFoundAsWanted (λ s. s.front.now ++ s.rest.now)
        (translated_word language Operand word.now) result }
{
    if let Some(found) = operand_partner(language, word) {
        return Some(found);
    }
    if has_operand(opposite(language), word) {
        return None;
    }
    Some(WrittenWord {
        front: &[],
        rest: word,
    })
}

/// How a word that begins a path is written in the translation.
#[tactic(auto, unfolding(crate::specs::Words::translated_word))]
fn written_path<'a>(language: Language, word: &'a [u8]) -> WrittenWord<'a>
    ensures { Some (result.front.now ++ result.rest.now)
        ≡ translated_word language Path word.now }
{
    if has_operand(opposite(language), word) {
        return WrittenWord {
            front: b"#",
            rest: word,
        };
    }
    WrittenWord {
        front: &[],
        rest: word,
    }
}

/// How a word in this role is written in the translation, or None where it is a word of the other
/// language alone.
#[tactic(auto, unfolding(crate::specs::Words::translated_word))]
pub(crate) fn written_word<'a>(
    language: Language,
    role: Role,
    word: &'a [u8],
) -> Option<WrittenWord<'a>>
    ensures { IsFoundAsWanted (λ s. s.front.now ++ s.rest.now)
        (translated_word language role word.now) result }
{
    match role {
        Role::Instruction => written_instruction(language, word),
        Role::Operand => written_operand(language, word),
        Role::Path => Some(written_path(language, word)),
        Role::Stays => Some(WrittenWord {
            front: &[],
            rest: word,
        }),
    }
}

/// Whether a word is in a list.
fn is_word_in_table(table: &'static [&'static [u8]], word: &[u8]) -> bool
    ensures { result
        ≡ list_any (λ entry. str_eq_ignore_ascii_case word.now entry.now) table.now }
{
    table.iter().any(|entry| word.eq_ignore_ascii_case(entry))
}

/// Whether a word is in a list, whose words a contract sees as bytes.
fn is_word_in_list(table: &'static [&'static [u8]], word: &[u8]) -> bool
    ensures { result ≡ is_word_in_list (map (λ entry. entry.now) table.now) word.now }
{
    is_word_in_table(table, word)
}

/// Whether a table has something beside a word of the language that is translated from.
fn has_partner(language: Language, table: &'static [Pair], word: &[u8]) -> bool
    ensures { result ≡ is_some (partner_in_table language
        (map (λ pair. (pair.0.now, pair.1.now)) table.now) word.now) }
{
    partner(language, table, word).is_some()
}

/// Whether a word is in one of the two columns of a table.
#[tactic(auto, unfolding(crate::specs::Places::is_word_in_pairs))]
fn is_in(table: &'static [Pair], word: &[u8]) -> bool
    ensures { result
        ≡ is_word_in_pairs (map (λ pair. (pair.0.now, pair.1.now)) table.now) word.now }
{
    has_partner(Language::German, table, word) || has_partner(Language::English, table, word)
}

/// Whether these are the letters of an operand word that takes a number.
#[tactic(auto, unfolding(crate::specs::Tables::operand_pairs))]
fn is_operand(letters: &[u8]) -> bool
    ensures { result ≡ is_word_in_pairs operand_pairs letters.now }
{
    is_in(&OPERANDS, letters)
}

/// Whether these are the letters of an operand word that takes a number.
pub(crate) fn takes_number(word: &[u8]) -> bool
    ensures { result ≡ is_word_in_pairs operand_pairs (letters_of_word word.now) }
{
    is_operand(letters(word))
}

/// Whether this is an operand word that stands alone.
#[tactic(auto, unfolding(crate::specs::Tables::result_pairs))]
pub(crate) fn is_result(word: &[u8]) -> bool
    ensures { result ≡ is_word_in_pairs result_pairs word.now }
{
    is_in(&RESULTS, word)
}

/// Whether this is the word of a jump that differs between the two languages.
#[tactic(auto, unfolding(crate::specs::Tables::jump_pairs))]
fn is_own_jump(word: &[u8]) -> bool
    ensures { result ≡ is_word_in_pairs jump_pairs word.now }
{
    is_in(&JUMPS, word)
}

/// Whether this is the word of a jump in both languages.
#[tactic(auto, unfolding(crate::specs::Tables::common_jumps))]
fn is_common_jump(word: &[u8]) -> bool
    ensures { result ≡ is_word_in_list common_jumps word.now }
{
    is_word_in_list(&COMMON_JUMPS, word)
}

/// Whether an instruction word is that of a jump.
#[tactic(auto, unfolding(crate::specs::Places::is_jump_word))]
pub(crate) fn is_jump_word(word: &[u8]) -> bool
    ensures { result ≡ is_jump_word word.now }
{
    is_own_jump(word) || is_common_jump(word)
}

/// Whether a word opens a block of statements.
#[tactic(auto, unfolding(crate::specs::Tables::code_openings))]
pub(crate) fn opens_code(word: &[u8]) -> bool
    ensures { result ≡ is_word_in_list code_openings word.now }
{
    is_word_in_list(&CODE_OPENINGS, word)
}

/// Whether a word opens a block of data.
#[tactic(auto, unfolding(crate::specs::Tables::data_openings))]
pub(crate) fn opens_data(word: &[u8]) -> bool
    ensures { result ≡ is_word_in_list data_openings word.now }
{
    is_word_in_list(&DATA_OPENINGS, word)
}

/// Whether a word opens a body.
#[tactic(auto, unfolding(crate::specs::Tables::begin_words))]
pub(crate) fn begins_body(word: &[u8]) -> bool
    ensures { result ≡ is_word_in_list begin_words word.now }
{
    is_word_in_list(&BEGIN_WORDS, word)
}

/// Whether a word ends a block of statements.
#[tactic(auto, unfolding(crate::specs::Tables::block_end_words))]
pub(crate) fn ends_code(word: &[u8]) -> bool
    ensures { result ≡ is_word_in_list block_end_words word.now }
{
    is_word_in_list(&ENDINGS, word)
}

/// Whether a word opens a network.
#[tactic(auto, unfolding(crate::specs::Tables::network_words))]
pub(crate) fn opens_network(word: &[u8]) -> bool
    ensures { result ≡ is_word_in_list network_words word.now }
{
    is_word_in_list(&NETWORK_WORDS, word)
}

/// Whether a word is that of `)MCR`.
#[tactic(auto, unfolding(crate::specs::Tables::zone_words))]
pub(crate) fn is_zone_word(word: &[u8]) -> bool
    ensures { result ≡ is_word_in_list zone_words word.now }
{
    is_word_in_list(&ZONE_WORDS, word)
}

/// A word that has a translation in one language has one in the other, which is the word again but
/// for the case of its letters.
pub fn law_of_translated_words()
    ensures instructions { WordsComeBack Instruction }
    ensures operands { WordsComeBack Operand }
{}
