ghost use Rattle.std.specs.Prelude.{◌≡◌, ◌+◌, ◌*◌, ◌<◌, ◌≤◌, ◌++◌, length};
ghost use Rattle.std.specs.List.{flat_map};
ghost use Rattle.monitor.specs.LineText.{
  byte_text,
  diag_text,
  end_text,
  kind_text,
  mode_text,
  mon_text,
  output_text,
  registers_text,
  row_head,
  row_text,
  spot_text,
  stop_text,
};

use crate::lines::{Line, hex_digit};
use crate::records::{DiagRecord, MonRecord};
use plc_base::{BlockKind, Mode, Spot};

/// The most bytes of a data block that one line tells.
pub const ROW_BYTES: usize = 32;

/// A byte as two hexadecimal digits in upper case.
pub(crate) fn byte_text(byte: u8) -> [u8; 2]
    ensures { result ≡ byte_text byte }
{
    [hex_digit(byte / 16), hex_digit(byte % 16)]
}

/// The kind of a block, as STEP 7 abbreviates it.
#[tactic(auto, unfolding(crate::specs::LineText::kind_text))]
pub fn kind_text(kind: BlockKind) -> &'static [u8]
    ensures value { result.now ≡ kind_text kind }
    ensures short { length result.now ≤ 3 }
{
    match kind {
        BlockKind::Ob => b"OB",
        BlockKind::Fc => b"FC",
        BlockKind::Fb => b"FB",
        BlockKind::Db => b"DB",
        BlockKind::Sfc => b"SFC",
        BlockKind::Udt => b"UDT",
    }
}

/// The line `@N PQ b = hh` of a peripheral output byte that entry `n` changed, with its new value.
#[tactic(auto, unfolding(crate::specs::LineText::output_text))]
pub(crate) fn output_text(n: u64, output: (u16, u8)) -> Line
    ensures { result ≡ output_text n output }
{
    let (byte, value) = output;
    let mut line = Line::new();
    line.add(b"@");
    line.add_number(n);
    line.add(b" PQ ");
    line.add_number(u64::from(byte));
    line.add(b" = ");
    line.add(&byte_text(value));
    line.add(b"\n");
    line
}

/// Appends a statement by its block and its source line: `KIND n LINE l`.
#[tactic(auto, unfolding(crate::specs::LineText::spot_text))]
fn add_spot(line: &mut Line, at: Spot)
    requires { length line.old ≤ 160 }
    ensures value { line.new ≡ line.old ++ spot_text at }
    ensures len { length line.new ≤ length line.old + 96 }
{
    line.add(kind_text(at.block.kind));
    line.add(b" ");
    line.add_number(u64::from(at.block.number));
    line.add(b" LINE ");
    line.add_number(u64::from(at.line));
}

/// Appends where a stop happened: `KIND n LINE l`, or `NONE`.
fn add_stop(line: &mut Line, at: Option<Spot>)
    requires { length line.old ≤ 160 }
    ensures value { line.new ≡ line.old ++ stop_text at }
    ensures len { length line.new ≤ length line.old + 96 }
{
    match at {
        None => line.add(b"NONE"),
        Some(spot) => add_spot(line, spot),
    }
}

/// Appends the registers that monitoring shows: ` STW hhhh A1 hhhhhhhh A2 hhhhhhhh`.
#[tactic(auto, unfolding(crate::specs::LineText::registers_text))]
fn add_registers(line: &mut Line, record: &MonRecord)
    requires { length line.old ≤ 160 }
    ensures value { line.new ≡ line.old ++ registers_text record.now }
    ensures len { length line.new ≤ length line.old + 40 }
{
    line.add(b" STW ");
    line.add_hex(u32::from(record.stw), 4);
    line.add(b" A1 ");
    line.add_hex(record.a1, 8);
    line.add(b" A2 ");
    line.add_hex(record.a2, 8);
}

/// The line `@N MON KIND n LINE l STW hhhh A1 hhhhhhhh A2 hhhhhhhh` of a statement of the monitored
/// block that entry `n` executed.
#[tactic(auto, unfolding(crate::specs::LineText::mon_text))]
pub(crate) fn mon_text(n: u64, record: &MonRecord) -> Line
    ensures { result ≡ mon_text n record.now }
{
    let at = Spot {
        block: record.block,
        line: record.line,
    };
    let mut line = Line::new();
    line.add(b"@");
    line.add_number(n);
    line.add(b" MON ");
    add_spot(&mut line, at);
    add_registers(&mut line, record);
    line.add(b"\n");
    line
}

/// The line `@N MODE ..` of a mode that entry `n` began.
#[tactic(auto, unfolding(crate::specs::LineText::mode_text))]
pub(crate) fn mode_text(n: u64, mode: Mode) -> Line
    ensures { result ≡ mode_text n mode }
{
    let mut line = Line::new();
    line.add(b"@");
    line.add_number(n);
    match mode {
        Mode::Run => line.add(b" MODE RUN\n"),
        Mode::Startup => line.add(b" MODE STARTUP\n"),
        Mode::Stop { cause, at } => {
            line.add(b" MODE STOP ");
            line.add_number(u64::from(cause));
            line.add(b" AT ");
            add_stop(&mut line, at);
            line.add(b"\n");
        }
    }
    line
}

/// The line `@N DIAG e code info` of an entry of the diagnostic buffer, in the answer to entry `n`.
#[tactic(auto, unfolding(crate::specs::LineText::diag_text))]
pub(crate) fn diag_text(n: u64, record: &DiagRecord) -> Line
    ensures { result ≡ diag_text n record.now }
{
    let mut line = Line::new();
    line.add(b"@");
    line.add_number(n);
    line.add(b" DIAG ");
    line.add_number(record.entry);
    line.add(b" ");
    line.add_number(u64::from(record.code));
    line.add(b" ");
    line.add_number(u64::from(record.info));
    line.add(b"\n");
    line
}

/// The line `END N ..` of the mode after `n` entries.
#[tactic(auto, unfolding(crate::specs::LineText::end_text))]
pub fn end_text(n: u64, mode: Mode) -> Line
    ensures { result ≡ end_text n mode }
{
    let mut line = Line::new();
    line.add(b"END ");
    line.add_number(n);
    match mode {
        Mode::Run => line.add(b" RUN\n"),
        Mode::Startup => line.add(b" STARTUP\n"),
        Mode::Stop { cause, .. } => {
            line.add(b" STOP ");
            line.add_number(u64::from(cause));
            line.add(b"\n");
        }
    }
    line
}

/// How a line of a data block begins: `DB n at `.
pub(crate) fn row_head(number: u16, at: usize) -> Line
    ensures value { result ≡ row_head number at }
    ensures short { length result ≤ 90 }
{
    let mut line = Line::new();
    line.add(b"DB ");
    line.add_number(u64::from(number));
    line.add(b" ");
    line.add_number(at as u64);
    line.add(b" ");
    line
}

/// Appends bytes as hexadecimal digits.
fn add_bytes(line: &mut Line, bytes: &[u8])
    requires { length line.old + 2 * length bytes.now ≤ 256 }
    ensures value { line.new ≡ line.old ++ flat_map byte_text bytes.now }
    ensures len { length line.new ≡ length line.old + 2 * length bytes.now }
{
    for byte in bytes {
        line.add(&byte_text(*byte));
    }
}

/// The line `DB n at hh..` of at most 32 bytes of a data block, with the offset of the first one.
#[tactic(auto, unfolding(crate::specs::LineText::row_text))]
pub fn row_text(number: u16, at: usize, bytes: &[u8]) -> Line
    requires { length bytes.now ≤ 32 }
    ensures { result ≡ row_text number at bytes.now }
{
    let mut line = row_head(number, at);
    add_bytes(&mut line, bytes);
    line.add(b"\n");
    line
}
