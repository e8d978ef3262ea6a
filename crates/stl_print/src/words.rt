//! The words of the language, but for the instruction words.
ghost use Rattle.std.specs.Prelude.{◌≡◌};
ghost use Rattle.stl_print.specs.Words.{
  area_letters,
  bit_letter,
  block_letters,
  end_word,
  flag_text,
  head_word,
  numbered_letters,
  result_word,
  section_word,
  size_letter,
  truth_word,
  type_word,
  width_letter,
};

use plc_base::{BlockKind, Flag, Width};
use stl_ast::{Letters, Numbered, PartKind, Simple};

/// The word that begins a block.
#[tactic(auto, unfolding(crate::specs::Words::head_word))]
pub(crate) fn head_word(kind: BlockKind) -> &'static [u8]
    ensures { result.now ≡ head_word kind }
{
    match kind {
        BlockKind::Ob => b"ORGANIZATION_BLOCK",
        BlockKind::Fc | BlockKind::Sfc => b"FUNCTION",
        BlockKind::Fb => b"FUNCTION_BLOCK",
        BlockKind::Db => b"DATA_BLOCK",
        BlockKind::Udt => b"TYPE",
    }
}

/// The word that ends a block.
#[tactic(auto, unfolding(crate::specs::Words::end_word))]
pub(crate) fn end_word(kind: BlockKind) -> &'static [u8]
    ensures { result.now ≡ end_word kind }
{
    match kind {
        BlockKind::Ob => b"END_ORGANIZATION_BLOCK",
        BlockKind::Fc | BlockKind::Sfc => b"END_FUNCTION",
        BlockKind::Fb => b"END_FUNCTION_BLOCK",
        BlockKind::Db => b"END_DATA_BLOCK",
        BlockKind::Udt => b"END_TYPE",
    }
}

/// The letters of a block's number.
#[tactic(auto, unfolding(crate::specs::Words::block_letters))]
pub(crate) fn block_letters(kind: BlockKind) -> &'static [u8]
    ensures { result.now ≡ block_letters kind }
{
    match kind {
        BlockKind::Ob => b"OB",
        BlockKind::Fc => b"FC",
        BlockKind::Fb => b"FB",
        BlockKind::Db => b"DB",
        BlockKind::Sfc => b"SFC",
        BlockKind::Udt => b"UDT",
    }
}

/// The word that begins a section.
#[tactic(auto, unfolding(crate::specs::Words::section_word))]
pub(crate) fn section_word(kind: PartKind) -> &'static [u8]
    ensures { result.now ≡ section_word kind }
{
    match kind {
        PartKind::Input => b"VAR_INPUT",
        PartKind::Output => b"VAR_OUTPUT",
        PartKind::InOut => b"VAR_IN_OUT",
        PartKind::Static => b"VAR",
        PartKind::Temp => b"VAR_TEMP",
    }
}

/// How an elementary type is written.
#[tactic(auto, unfolding(crate::specs::Words::type_word))]
pub fn type_word(kind: Simple) -> &'static [u8]
    ensures { result.now ≡ type_word kind }
{
    match kind {
        Simple::Bool => b"BOOL",
        Simple::Byte => b"BYTE",
        Simple::Char => b"CHAR",
        Simple::Word => b"WORD",
        Simple::Int => b"INT",
        Simple::S5time => b"S5TIME",
        Simple::Dword => b"DWORD",
        Simple::Dint => b"DINT",
        Simple::Time => b"TIME",
    }
}

/// How the type of a return value is written: `VOID` where there is none.
pub(crate) fn result_word(kind: Option<Simple>) -> &'static [u8]
    ensures { result.now ≡ result_word kind }
{
    match kind {
        None => b"VOID",
        Some(kind) => type_word(kind),
    }
}

/// The letters of an area.
#[tactic(auto, unfolding(crate::specs::Words::area_letters))]
pub(crate) fn area_letters(area: Letters) -> &'static [u8]
    ensures { result.now ≡ area_letters area }
{
    match area {
        Letters::I => b"I",
        Letters::Q => b"Q",
        Letters::M => b"M",
        Letters::Db => b"DB",
        Letters::Di => b"DI",
        Letters::L => b"L",
        Letters::Pi => b"PI",
        Letters::Pq => b"PQ",
    }
}

/// What stands for a bit behind the letters of an area.
#[tactic(auto, unfolding(crate::specs::Words::bit_letter))]
fn bit_letter(area: Letters) -> &'static [u8]
    ensures { result.now ≡ bit_letter area }
{
    match area {
        Letters::Db | Letters::Di => b"X",
        _ => b"",
    }
}

/// The letter of a width; a bit has none.
#[tactic(auto, unfolding(crate::specs::Words::width_letter))]
pub(crate) fn width_letter(width: Width) -> &'static [u8]
    ensures { result.now ≡ width_letter width }
{
    match width {
        Width::Bit => b"",
        Width::Byte => b"B",
        Width::Word => b"W",
        Width::Dword => b"D",
    }
}

/// The letter of a width behind those of an area.
#[tactic(auto, unfolding(crate::specs::Words::size_letter))]
pub(crate) fn size_letter(area: Letters, width: Width) -> &'static [u8]
    ensures { result.now ≡ size_letter area width }
{
    match width {
        Width::Bit => bit_letter(area),
        _ => width_letter(width),
    }
}

/// The letters of what has a number that memory can give.
#[tactic(auto, unfolding(crate::specs::Words::numbered_letters))]
pub(crate) fn numbered_letters(what: Numbered) -> &'static [u8]
    ensures { result.now ≡ numbered_letters what }
{
    match what {
        Numbered::Timer => b"T",
        Numbered::Counter => b"C",
        Numbered::Db => b"DB",
        Numbered::Di => b"DI",
    }
}

/// How a condition of the status word is written.
#[tactic(auto, unfolding(crate::specs::Words::flag_text))]
pub(crate) fn flag_text(flag: Flag) -> &'static [u8]
    ensures { result.now ≡ flag_text flag }
{
    match flag {
        Flag::Br => b"BR",
        Flag::Ov => b"OV",
        Flag::Os => b"OS",
        Flag::EqZero => b"==0",
        Flag::NeZero => b"<>0",
        Flag::GtZero => b">0",
        Flag::LtZero => b"<0",
        Flag::GeZero => b">=0",
        Flag::LeZero => b"<=0",
        Flag::Uo => b"UO",
    }
}

/// How the value of a bit is written.
#[tactic(auto, unfolding(crate::specs::Words::truth_word))]
pub(crate) fn truth_word(value: bool) -> &'static [u8]
    ensures { result.now ≡ truth_word value }
{
    if value { b"TRUE" } else { b"FALSE" }
}
