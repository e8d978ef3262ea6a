//! The text of a certificate, both ways.
ghost use Rattle.std.specs.Prelude.{◌≡◌, ◌≤◌, ◌++◌, length, IfErr, IfOk, OnOk};
ghost use Rattle.var_access.specs.Readings.{words_of};
ghost use Rattle.stack_bound.specs.CertificateText.{IsCertificateTextFault, IsCertificateLineFault, TakesBoundLine, SpellsCertificate, bound_line, bound_read, bound_text, bound_words, certificate_of, certificate_text, comes_behind as comes_behind_of, is_line_skipped as is_skipped_line};

use crate::certificates::{Bound, is_before};
use image_file::Loaded;
use monitor::{Line, kind_text};
use plc_base::{BlockId, NoMemory, first_line};
use std::alloc::{AllocError, Global};
use var_access::text_rules::NOT_IN_GRAMMAR;
use var_access::{address_number, both, first_word, kind_of_word};

/// A block isn't loaded, or doesn't come behind the one of the line before.
const NOT_IN_ORDER: u16 = 3;

/// Why the text of a certificate isn't read.
#[derive(Clone, Copy, Debug, PartialEq, Eq)]
pub enum CertificateFault {
    /// The first bad line, counted from 1, and the least rule that it breaks: 1 it isn't in the grammar,
    /// 2 a number is out of its range, 3 the block isn't loaded, or not after the one before.
    BadLine { line: u32, rule: u16 },
    /// Memory ran out.
    NoMemory,
}

impl From<AllocError> for CertificateFault {
    ghost use Rattle.std.specs.Prelude.{◌≡◌};
    ghost use Rattle.stack_bound.specs.declared.texts.CertificateFault.TheVariants.{NoMemory};

    ghost from_gives = { λ _ fault. fault ≡ NoMemory };

    fn from(_error: AllocError) -> CertificateFault {
        CertificateFault::NoMemory
    }
}

/// The line of a bound.
#[tactic(auto, unfolding(crate::specs::CertificateText::bound_text))]
fn bound_text(b: &Bound) -> Line
    ensures { result ≡ bound_text b.now }
{
    let mut line = Line::new();
    line.add(kind_text(b.block.kind));
    line.add(b" ");
    line.add_number(u64::from(b.block.number));
    line.add(b" DEPTH ");
    line.add_number(u64::from(b.depth));
    line.add(b" BYTES ");
    line.add_number(u64::from(b.bytes));
    line.add(b"\n");
    line
}

/// Appends the text of a certificate: a line `KIND n DEPTH d BYTES b` for each bound.
pub fn write_certificate(list: &[Bound], out: &mut Vec<u8>) -> Result<(), NoMemory>
    ensures { OnOk result (out.new.items ≡ out.old.items ++ certificate_text list.now) }
{
    let mut left = list;
    while let [b, rest @ ..] = left {
        bound_text(b).append_to(out)?;
        left = rest;
    }
    Ok(())
}

/// What the four words say that aren't fixed.
fn bound_read(kind: &[u8], number: &[u8], depth: &[u8], bytes: &[u8]) -> Result<Bound, u16>
    ensures { result ≡ bound_read kind.now number.now depth.now bytes.now }
{
    let ((kind, number), (depth, bytes)) = both(
        both(kind_of_word(kind), address_number(number)),
        both(address_number(depth), address_number(bytes)),
    )?;
    Ok(Bound {
        block: BlockId { kind, number },
        depth: u32::from(depth),
        bytes: u32::from(bytes),
    })
}

/// The bound that the words of a line say.
#[tactic(auto, unfolding(crate::specs::CertificateText::bound_words))]
fn bound_words(line: &[u8]) -> Result<Bound, u16>
    ensures { result ≡ bound_words (words_of line.now) }
{
    let Some((kind, rest)) = first_word(line) else {
        return Err(NOT_IN_GRAMMAR);
    };
    let Some((number, rest)) = first_word(rest) else {
        return Err(NOT_IN_GRAMMAR);
    };
    let Some((first, rest)) = first_word(rest) else {
        return Err(NOT_IN_GRAMMAR);
    };
    let Some((depth, rest)) = first_word(rest) else {
        return Err(NOT_IN_GRAMMAR);
    };
    let Some((second, rest)) = first_word(rest) else {
        return Err(NOT_IN_GRAMMAR);
    };
    let Some((bytes, rest)) = first_word(rest) else {
        return Err(NOT_IN_GRAMMAR);
    };
    if first_word(rest).is_some() || first != b"DEPTH".as_slice() || second != b"BYTES".as_slice() {
        return Err(NOT_IN_GRAMMAR);
    }
    bound_read(kind, number, depth, bytes)
}

fn comes_behind(before: Option<BlockId>, block: BlockId) -> bool
    ensures { result ≡ comes_behind_of before block }
{
    match before {
        Some(before) => is_before(before, block),
        None => true,
    }
}

/// The bound of a line behind one of a block.
fn bound_line(l: &Loaded, before: Option<BlockId>, line: &[u8]) -> Result<Bound, u16>
    ensures { result ≡ bound_line l.now.program before line.now }
{
    let b = bound_words(line)?;
    if l.block(b.block).is_some() && comes_behind(before, b.block) {
        Ok(b)
    } else {
        Err(NOT_IN_ORDER)
    }
}

/// Whether a line is skipped: it is empty, or begins with `//`.
fn is_skipped(line: &[u8]) -> bool
    ensures { result ≡ is_skipped_line line.now }
{
    line.is_empty() || line.starts_with(b"//")
}

/// Takes one more line.
fn take_line(
    l: &Loaded,
    number: u32,
    before: &mut Option<BlockId>,
    line: &[u8],
    list: &mut Vec<Bound>,
) -> Result<(), CertificateFault>
    ensures taken { OnOk result
        (TakesBoundLine l.now.program before.old before.new line.now list.old.items
        list.new.items) }
    ensures bad { IfErr result (IsCertificateLineFault number l.now.program before.old line.now) }
{
    if is_skipped(line) {
        return Ok(());
    }
    match bound_line(l, *before, line) {
        Ok(b) => {
            list.extend_from_slice(&[b])?;
            *before = Some(b.block);
            Ok(())
        }
        Err(rule) => Err(CertificateFault::BadLine { line: number, rule }),
    }
}

/// The bounds that the text of a certificate spells, line by line: `KIND n DEPTH d BYTES b`, with the blocks
/// of the program in the image's order, and numbers from 0 to 65,535. Empty lines and lines that begin with
/// `//` are skipped. The text has at most 4,194,304 bytes.
///
/// # Errors
///
/// `BadLine` with the first line that breaks a rule and the least rule that it breaks, or want of memory.
pub fn read_certificate(
    alloc: Global,
    l: &Loaded,
    bytes: &[u8],
) -> Result<Vec<Bound>, CertificateFault>
    requires { length bytes.now ≤ 4194304 }
    ensures spelled { IfOk result (λ list. SpellsCertificate l.now.program bytes.now list.items) }
    ensures refused { IfErr result
        (IsCertificateTextFault (certificate_of l.now.program bytes.now)) }
{
    let mut list = Vec::new(alloc);
    let mut before = None;
    let mut number: u32 = 1;
    let mut rest = bytes;
    while !rest.is_empty() {
        let (line, behind) = first_line(rest);
        take_line(l, number, &mut before, line, &mut list)?;
        number += 1;
        rest = behind;
    }
    Ok(list)
}
