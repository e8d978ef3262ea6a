ghost use Rattle.std.specs.Prelude.{◌≡◌, ◌<◌};
ghost use Rattle.monitor.specs.LineText.{hex_digit};

use arrayvec::ArrayVec;
use itoa::Buffer;
use plc_base::NoMemory;
use std::marker::Model;

/// The most bytes of a line. No line of a fixed form is longer.
const LINE_LIMIT: usize = 256;

/// A hexadecimal digit in upper case.
pub(crate) fn hex_digit(digit: u8) -> u8
    requires { digit < 16 }
    ensures { result ≡ hex_digit digit }
{
    if digit < 10 {
        b'0' + digit
    } else {
        b'A' + (digit - 10)
    }
}

/// One line of text, kept without memory from an allocator.
#[derive(Drop)]
pub struct Line {
    bytes: ArrayVec<u8, LINE_LIMIT>,
}

impl Model for Line {
    ghost use Rattle.std.specs.Prelude.{ℕ, List};

    ghost Value = { List ℕ };

    ghost view = { λ l. l.bytes.items };
}

impl Line {
    ghost use Rattle.std.specs.Prelude.{◌≡◌, ◌+◌, ◌≤◌, [], ◌++◌, length, decimal, OnErr, OnOk};
    ghost use Rattle.monitor.specs.LineText.{hex_text};

    /// An empty line.
    pub fn new() -> Line
        ensures { result ≡ [] }
    {
        Line {
            bytes: ArrayVec::new(),
        }
    }

    /// The bytes of the line, its line end with them.
    pub fn as_slice(&self) -> &[u8]
        ensures { result.now ≡ self.now }
    {
        self.bytes.as_slice()
    }

    /// Appends the line to a text.
    ///
    /// # Errors
    ///
    /// `NoMemory` for want of memory; the text is then as before.
    pub fn append_to(&self, out: &mut Vec<u8>) -> Result<(), NoMemory>
        ensures ok { OnOk result (out.new.items ≡ out.old.items ++ self.now) }
        ensures err { OnErr result (out.new.items ≡ out.old.items) }
    {
        out.extend_from_slice(self.as_slice())
    }

    /// Appends these bytes.
    pub fn add(&mut self, bytes: &[u8])
        requires { length self.old + length bytes.now ≤ 256 }
        ensures value { self.new ≡ self.old ++ bytes.now }
        ensures len { length self.new ≡ length self.old + length bytes.now }
    {
        for byte in bytes {
            self.bytes.push(*byte);
        }
    }

    /// Appends a number in decimal digits. It wants room for 40 bytes.
    pub fn add_number(&mut self, number: u64)
        requires { length self.old + 40 ≤ 256 }
        ensures value { self.new ≡ self.old ++ decimal number }
        ensures len { length self.new ≤ length self.old + 40 }
    {
        let mut digits = Buffer::new();
        self.add(digits.format(number).as_bytes());
    }

    /// Appends the lowest hexadecimal digits of a number, 8 at most, in upper case.
    pub fn add_hex(&mut self, number: u32, digits: u32)
        requires few { digits ≤ 8 }
        requires room { length self.old + digits ≤ 256 }
        ensures value { self.new ≡ self.old ++ hex_text digits number }
        ensures len { length self.new ≡ length self.old + digits }
    {
        for place in (0..digits).rev() {
            let digit = (number >> (4 * place)) % 16;
            self.bytes.push(hex_digit(digit as u8));
        }
    }
}
