ghost use Rattle.std.specs.Prelude.{◌≡◌, ◌≤◌, ◌+◌, ◌++◌, length};
ghost use Rattle.event_text.specs.HistoryText.{
  area_text,
  bit_text,
  block_width_text,
  value_text,
  var_text,
  width_text,
};

use monitor::Line;
use plc_base::{Area, Width};
use var_access::Var;

/// The letter of an area of bits.
fn area_text(area: Area) -> &'static [u8]
    ensures value { result.now ≡ area_text area }
    ensures short { length result.now ≤ 1 }
{
    match area {
        Area::I => b"I",
        Area::Q => b"Q",
        Area::M => b"M",
        Area::P | Area::Db | Area::Di | Area::L => b"",
    }
}

/// The letter of a width, behind that of an area.
fn width_text(width: Width) -> &'static [u8]
    ensures value { result.now ≡ width_text width }
    ensures short { length result.now ≤ 1 }
{
    match width {
        Width::Bit => b"",
        Width::Byte => b"B",
        Width::Word => b"W",
        Width::Dword => b"D",
    }
}

/// The letters of an operand in a data block.
fn block_width_text(width: Width) -> &'static [u8]
    ensures value { result.now ≡ block_width_text width }
    ensures short { length result.now ≤ 3 }
{
    match width {
        Width::Bit => b"DBX",
        Width::Byte => b"DBB",
        Width::Word => b"DBW",
        Width::Dword => b"DBD",
    }
}

/// Appends a bit's number, behind its byte's.
fn add_bit(line: &mut Line, width: Width, bit: u8)
    requires { length line.old ≤ 128 }
    ensures { line.new ≡ line.old ++ bit_text width bit }
{
    if width == Width::Bit {
        line.add(b".");
        line.add_number(u64::from(bit));
    }
}

/// A variable by its address, with no blank inside: `M0.3`, `MW2`, `DB10.DBX0.1`, `DB10.DBW2`.
#[tactic(auto, unfolding(crate::specs::HistoryText::var_text))]
pub(crate) fn var_text(var: &Var) -> Line
    ensures { result ≡ var_text var.now }
{
    let place = var.place;
    let mut line = Line::new();
    if place.area == Area::Db {
        line.add(b"DB");
        line.add_number(u64::from(place.number));
        line.add(b".");
        line.add(block_width_text(var.width));
    } else {
        line.add(area_text(place.area));
        line.add(width_text(var.width));
    }
    line.add_number(u64::from(place.byte));
    add_bit(&mut line, var.width, place.bit);
    line
}

/// A value at its width: two hexadecimal digits a byte, a bit as one digit.
#[tactic(auto, unfolding(crate::specs::HistoryText::value_text))]
pub(crate) fn value_text(width: Width, value: u32) -> Line
    ensures { result ≡ value_text width value }
{
    let mut line = Line::new();
    match width {
        Width::Bit => line.add_number(u64::from(value)),
        Width::Byte => line.add_hex(value, 2),
        Width::Word => line.add_hex(value, 4),
        Width::Dword => line.add_hex(value, 8),
    }
    line
}
