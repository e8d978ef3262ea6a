//! The lines of a run, each appended to a text.
ghost use Rattle.std.specs.Prelude.{◌≡◌, ◌++◌, length, take, OnErr, OnOk};
ghost use Rattle.std.specs.List.{flat_map};
ghost use Rattle.monitor.specs.LineText.{
  byte_text,
  diag_text,
  end_text,
  mode_text,
  mon_text,
  output_text,
  row_head,
  row_text,
};

use crate::records::{DiagRecord, MonRecord};
use crate::texts::{byte_text, diag_text, end_text, mode_text, mon_text, output_text, row_head};
use plc_base::{Mode, NoMemory};

/// Appends the line `@N MON KIND n LINE l STW hhhh A1 hhhhhhhh A2 hhhhhhhh` of a statement of the
/// monitored block that entry `n` executed.
///
/// # Errors
///
/// `NoMemory` for want of memory; the text is then as before.
pub fn mon_line(n: u64, record: &MonRecord, out: &mut Vec<u8>) -> Result<(), NoMemory>
    ensures ok { OnOk result (out.new.items ≡ out.old.items ++ mon_text n record.now) }
    ensures err { OnErr result (out.new.items ≡ out.old.items) }
{
    mon_text(n, record).append_to(out)
}

/// Appends the line `@N PQ b = hh` of a peripheral output byte that entry `n` changed, with its new
/// value.
///
/// # Errors
///
/// `NoMemory` for want of memory; the text is then as before.
pub fn output_line(n: u64, byte: u16, value: u8, out: &mut Vec<u8>) -> Result<(), NoMemory>
    ensures ok { OnOk result (out.new.items ≡ out.old.items ++ output_text n (byte, value)) }
    ensures err { OnErr result (out.new.items ≡ out.old.items) }
{
    output_text(n, (byte, value)).append_to(out)
}

/// Appends the line `@N MODE ..` of a mode that entry `n` began.
///
/// # Errors
///
/// `NoMemory` for want of memory; the text is then as before.
pub fn mode_line(n: u64, mode: &Mode, out: &mut Vec<u8>) -> Result<(), NoMemory>
    ensures ok { OnOk result (out.new.items ≡ out.old.items ++ mode_text n mode.now) }
    ensures err { OnErr result (out.new.items ≡ out.old.items) }
{
    mode_text(n, *mode).append_to(out)
}

/// Appends the line `@N DIAG e code info` of a record of diagnostics, in the answer to entry `n`.
///
/// # Errors
///
/// `NoMemory` for want of memory; the text is then as before.
pub fn diag_line(n: u64, record: &DiagRecord, out: &mut Vec<u8>) -> Result<(), NoMemory>
    ensures ok { OnOk result (out.new.items ≡ out.old.items ++ diag_text n record.now) }
    ensures err { OnErr result (out.new.items ≡ out.old.items) }
{
    diag_text(n, record).append_to(out)
}

/// Appends the line `END N ..` of the mode after `n` entries.
///
/// # Errors
///
/// `NoMemory` for want of memory; the text is then as before.
pub fn end_line(n: u64, mode: &Mode, out: &mut Vec<u8>) -> Result<(), NoMemory>
    ensures ok { OnOk result (out.new.items ≡ out.old.items ++ end_text n mode.now) }
    ensures err { OnErr result (out.new.items ≡ out.old.items) }
{
    end_text(n, *mode).append_to(out)
}

// The bytes of a data block as hexadecimal digits, behind what stands there.
fn append_bytes(bytes: &[u8], out: &mut Vec<u8>) -> Result<(), NoMemory>
    ensures ok { OnOk result (out.new.items ≡ out.old.items ++ flat_map byte_text bytes.now) }
    ensures err { OnErr result (take (length out.old.items) out.new.items ≡ out.old.items) }
{
    for byte in bytes {
        out.extend_from_slice(&byte_text(*byte))?;
    }
    Ok(())
}

#[tactic(auto, unfolding(crate::specs::LineText::row_text))]
fn append_row(number: u16, at: u16, bytes: &[u8], out: &mut Vec<u8>) -> Result<(), NoMemory>
    ensures ok { OnOk result (out.new.items ≡ out.old.items ++ row_text number at bytes.now) }
    ensures err { OnErr result (take (length out.old.items) out.new.items ≡ out.old.items) }
{
    row_head(number, usize::from(at)).append_to(out)?;
    append_bytes(bytes, out)?;
    out.extend_from_slice(b"\n")
}

/// Appends the line `DB n at hh..` of bytes of a data block, with the offset of the first one.
///
/// # Errors
///
/// `NoMemory` for want of memory; the text is then as before.
pub fn db_line(number: u16, at: u16, bytes: &[u8], out: &mut Vec<u8>) -> Result<(), NoMemory>
    ensures ok { OnOk result (out.new.items ≡ out.old.items ++ row_text number at bytes.now) }
    ensures err { OnErr result (out.new.items ≡ out.old.items) }
{
    let len = out.len();
    let appended = append_row(number, at, bytes, out);
    if appended.is_err() {
        out.truncate(len);
    }
    appended
}
