ghost use Rattle.std.specs.Prelude.{
  ◌≡◌,
  ◌<◌,
  ◌+◌,
  ◌/◌,
  ◌%◌,
  ◌^◌,
  slice_index,
  slice_set,
};
ghost use Rattle.std.specs.List.{fold};
ghost use Rattle.block_layout.specs.InitialBytes.{
  big_endian_bytes,
  bytes_with_write,
  with_bit,
  with_bytes,
  writes_at,
};
ghost use Rattle.block_layout.specs.Sizes.{plain_bits};

use stl_ast::Simple;

/// A byte with its bit at a place set to the lowest bit of a value.
fn with_bit(bit: u8, value: u32, byte: u8) -> u8
    requires { bit < 8 }
    ensures { result ≡ with_bit bit value byte }
{
    let mask = 1 << bit;
    if value % 2 == 1 {
        byte | mask
    } else {
        byte & !mask
    }
}

fn put_byte(bytes: &mut [u8], at: usize, byte: u8)
    ensures { bytes.new ≡ slice_set bytes.old at byte }
{
    if at < bytes.len() {
        bytes[at] = byte;
    }
}

fn put_bit(bytes: &mut [u8], at: usize, bit: u8, value: u32)
    requires { bit < 8 }
    ensures { bytes.new ≡ slice_set bytes.old at (with_bit bit value (slice_index bytes.old at)) }
{
    if at < bytes.len() {
        bytes[at] = with_bit(bit, value, bytes[at]);
    }
}

fn put_word(bytes: &mut [u8], at: usize, value: u32)
    requires { at + 1 < 2 ^ 64 }
    ensures { bytes.new ≡ with_bytes bytes.old at (big_endian_bytes 2 value) }
{
    put_byte(bytes, at, (value / 256 % 256) as u8);
    put_byte(bytes, at + 1, (value % 256) as u8);
}

fn put_dword(bytes: &mut [u8], at: usize, value: u32)
    requires { at + 3 < 2 ^ 64 }
    ensures { bytes.new ≡ with_bytes bytes.old at (big_endian_bytes 4 value) }
{
    put_byte(bytes, at, (value / 16_777_216 % 256) as u8);
    put_byte(bytes, at + 1, (value / 65_536 % 256) as u8);
    put_byte(bytes, at + 2, (value / 256 % 256) as u8);
    put_byte(bytes, at + 3, (value % 256) as u8);
}

/// Writes a value of an elementary type so many bits from the start, as far as the bytes go.
pub(crate) fn put(bytes: &mut [u8], kind: Simple, offset: u64, value: u32)
    ensures { bytes.new ≡ bytes_with_write bytes.old
        (record { offset = offset; width = plain_bits kind; value = value }) }
{
    let at = (offset / 8) as usize;
    match kind {
        Simple::Bool => put_bit(bytes, at, (offset % 8) as u8, value),
        Simple::Byte | Simple::Char => put_byte(bytes, at, (value % 256) as u8),
        Simple::Word | Simple::Int | Simple::S5time => put_word(bytes, at, value),
        Simple::Dword | Simple::Dint | Simple::Time => put_dword(bytes, at, value),
    }
}

/// Writes one value after the other to one element after the other.
pub(crate) fn put_values(bytes: &mut [u8], kind: Simple, offsets: &[u64], values: &[u32])
    ensures { bytes.new
        ≡ fold bytes_with_write bytes.old (writes_at (plain_bits kind) offsets.now values.now) }
{
    for i in 0..offsets.len().min(values.len()) {
        put(bytes, kind, offsets[i], values[i]);
    }
}
