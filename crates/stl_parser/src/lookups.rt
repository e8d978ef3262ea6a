ghost use Rattle.std.specs.Prelude.{◌≡◌, map, find};
ghost use Rattle.std.specs.Option.{option_map};
ghost use Rattle.std.specs.Str.{str_eq_ignore_ascii_case};
ghost use Rattle.stl_parser.specs.Tables.{
  look_up,
  keywords,
  head_words,
  simple_types,
  addresses,
  mnemonics,
  opening_mnemonics,
  flags,
  registers,
};

use crate::tables::{
    ADDRESSES, AddressKind, FLAGS, HEAD_WORDS, HeadWord, KEYWORDS, Keyword, MNEMONICS,
    OPENING_MNEMONICS, OperandSyntax, REGISTERS, SIMPLE_TYPES,
};
use plc_base::Flag;
use stl_ast::{Mnemonic, Simple};
use stl_lexer::first_letter;

/// Whether two words are the same without case of ASCII letters.
#[tactic(auto, using(crate::proofs::TableLemmas::other_letter))]
fn same_word(a: &[u8], b: &[u8]) -> bool
    ensures { result ≡ str_eq_ignore_ascii_case a.now b.now }
{
    if first_letter(a) != first_letter(b) {
        return false;
    }
    a.eq_ignore_ascii_case(b)
}

/// The value that stands beside a text in a table, compared without case of ASCII letters.
fn entry_of<X: Copy + Drop>(table: &[(&[u8], X)], word: &[u8]) -> Option<X>
    ensures { result ≡ option_map (λ e. e.1) (find
        (λ e. str_eq_ignore_ascii_case word.now e.0.now) table.now) }
{
    table
        .iter()
        .find(|entry| same_word(word, entry.0))
        .map(|entry| entry.1)
}

/// What stands beside a word in a table, whose texts a contract sees as bytes.
pub(crate) fn look_up<X: Copy + Drop>(table: &[(&[u8], X)], word: &[u8]) -> Option<X>
    ensures { result ≡ look_up (map (λ e. (e.0.now, e.1)) table.now) word.now }
{
    entry_of(table, word)
}

/// The keyword that this word is.
#[tactic(auto, unfolding(crate::specs::Tables::keywords))]
pub(crate) fn keyword_of(word: &[u8]) -> Option<Keyword>
    ensures { result ≡ look_up keywords word.now }
{
    look_up(&KEYWORDS, word)
}

/// The word of a block's head that this word is.
#[tactic(auto, unfolding(crate::specs::Tables::head_words))]
pub(crate) fn head_word_of(word: &[u8]) -> Option<HeadWord>
    ensures { result ≡ look_up head_words word.now }
{
    look_up(&HEAD_WORDS, word)
}

/// The elementary type that this word names.
#[tactic(auto, unfolding(crate::specs::Tables::simple_types))]
pub(crate) fn simple_type_of(word: &[u8]) -> Option<Simple>
    ensures { result ≡ look_up simple_types word.now }
{
    look_up(&SIMPLE_TYPES, word)
}

/// What these letters of an address name.
#[tactic(auto, unfolding(crate::specs::Tables::addresses))]
pub(crate) fn address_kind_of(word: &[u8]) -> Option<AddressKind>
    ensures { result ≡ look_up addresses word.now }
{
    look_up(&ADDRESSES, word)
}

/// The instruction that this word is, and what may stand behind it.
#[tactic(auto, unfolding(crate::specs::Tables::mnemonics))]
pub(crate) fn mnemonic_of(word: &[u8]) -> Option<(Mnemonic, OperandSyntax)>
    ensures { result ≡ look_up mnemonics word.now }
{
    look_up(&MNEMONICS, word)
}

/// The instruction that this word and a `(` are.
#[tactic(auto, unfolding(crate::specs::Tables::opening_mnemonics))]
pub(crate) fn opening_mnemonic_of(word: &[u8]) -> Option<Mnemonic>
    ensures { result ≡ look_up opening_mnemonics word.now }
{
    look_up(&OPENING_MNEMONICS, word)
}

/// The condition of the status word that this word is.
#[tactic(auto, unfolding(crate::specs::Tables::flags))]
pub(crate) fn flag_of_word(word: &[u8]) -> Option<Flag>
    ensures { result ≡ look_up flags word.now }
{
    look_up(&FLAGS, word)
}

/// Whether this word names a register, and whether one that an instruction has as an operand.
#[tactic(auto, unfolding(crate::specs::Tables::registers))]
pub(crate) fn register_entry(word: &[u8]) -> Option<bool>
    ensures { result ≡ look_up registers word.now }
{
    look_up(&REGISTERS, word)
}
