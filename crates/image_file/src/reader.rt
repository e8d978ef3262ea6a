//! The bytes of an image, read from left to right: numbers and runs of bytes.
ghost use Rattle.std.specs.Prelude.{◌≡◌, ◌+◌, ◌<◌, ◌^◌, length, min, IfOk, OnOk};
ghost use Rattle.flat_code.specs.Coding.{u8 as a_byte, u16 as a_word, u32 as a_dword};
ghost use Rattle.flat_code.specs.Faults.{field_fault};
ghost use Rattle.flat_code.specs.Image.{no_fault, contents_layout, bytes_coding};
ghost use Rattle.flat_code.specs.Layout.{field_layout, fault_note};
ghost use Rattle.image_file.specs.Least.{with_fault, with_faults};
ghost use Rattle.image_file.specs.Running.{reader_run, run_layout, reader_cursor, log_of, log_after};

use crate::faults::LoadFault;
use crate::records::LocatedBlock;
use crate::stops::ReadingEnd;
use flat_code::{DataBlock, Field};

/// Where reading stands: the bytes that are left, their offset, the least fault so far, the code
/// blocks that were read whole, and the data blocks once all blocks were read.
#[derive(Drop)]
pub(crate) struct Reader<'a> {
    pub rest: &'a [u8],
    pub at: u32,
    pub least: Option<LoadFault>,
    pub blocks: Vec<LocatedBlock>,
    pub datas: Option<Vec<DataBlock>>,
}

/// The lesser of the fault so far and another.
pub(crate) fn lesser_fault(least: Option<LoadFault>, at: u32, code: u16) -> Option<LoadFault>
    ensures { result ≡ with_fault least (at, code) }
{
    let smaller = match least {
        None => true,
        Some(least) => at < least.at || at == least.at && code < least.code,
    };
    if smaller {
        Some(LoadFault { at, code })
    } else {
        least
    }
}

impl<'a> Reader<'a> {
    /// Notes a fault.
    pub(crate) fn note(&mut self, at: u32, code: u16)
        ensures least { self.new.least ≡ with_fault self.old.least (at, code) }
        ensures at { self.new.at ≡ self.old.at }
        ensures rest { self.new.rest.now ≡ self.old.rest.now }
        ensures blocks { self.new.blocks.items ≡ self.old.blocks.items }
        ensures datas { self.new.datas ≡ self.old.datas }
    {
        self.least = lesser_fault(self.least, at, code);
    }

    /// Notes the fault of a field at an offset, if it has one.
    #[tactic(auto, unfolding(crate::specs::Least::with_faults, crate::specs::Running::log_after))]
    pub(crate) fn check(&mut self, at: u32, field: Field)
        ensures log { log_of self.new
            ≡ log_after (log_of self.old) (fault_note at (field_fault field)) }
        ensures at { self.new.at ≡ self.old.at }
        ensures rest { self.new.rest.now ≡ self.old.rest.now }
    {
        match field.fault() {
            Some(code) => self.note(at, code),
            None => {}
        }
    }

    #[tactic(auto, unfolding(crate::specs::Running::run_layout, crate::specs::Running::log_after, crate::specs::Least::with_faults))]
    pub(crate) fn u8(&mut self) -> Result<u8, ReadingEnd>
        requires { self.old.at + length self.old.rest.now < 2 ^ 32 }
        ensures read { reader_run (λ n. n) result self.new
            ≡ run_layout (field_layout a_byte no_fault) (reader_cursor self.old)
            (log_of self.old) }
        ensures all { self.new.at + length self.new.rest.now
            ≡ self.old.at + length self.old.rest.now }
        ensures step { OnOk result (self.new.at ≡ self.old.at + 1) }
    {
        match self.rest {
            [a, rest @ ..] => {
                self.rest = rest;
                self.at += 1;
                Ok(*a)
            }
            [] => {
                self.note(self.at, 3);
                Err(ReadingEnd)
            }
        }
    }

    #[tactic(auto, unfolding(crate::specs::Running::run_layout, crate::specs::Running::log_after, crate::specs::Least::with_faults))]
    pub(crate) fn u16(&mut self) -> Result<u16, ReadingEnd>
        requires { self.old.at + min 4 (length self.old.rest.now) < 2 ^ 32 }
        ensures read { reader_run (λ n. n) result self.new
            ≡ run_layout (field_layout a_word no_fault) (reader_cursor self.old)
            (log_of self.old) }
        ensures all { self.new.at + length self.new.rest.now
            ≡ self.old.at + length self.old.rest.now }
        ensures step { OnOk result (self.new.at ≡ self.old.at + 2) }
    {
        match self.rest {
            [a, b, rest @ ..] => {
                let number = u16::from_be_bytes([*a, *b]);
                self.rest = rest;
                self.at += 2;
                Ok(number)
            }
            _ => {
                self.note(self.at, 3);
                Err(ReadingEnd)
            }
        }
    }

    #[tactic(auto, unfolding(crate::specs::Running::run_layout, crate::specs::Running::log_after, crate::specs::Least::with_faults))]
    pub(crate) fn u32(&mut self) -> Result<u32, ReadingEnd>
        requires { self.old.at + min 4 (length self.old.rest.now) < 2 ^ 32 }
        ensures read { reader_run (λ n. n) result self.new
            ≡ run_layout (field_layout a_dword no_fault)
            (reader_cursor self.old) (log_of self.old) }
        ensures all { self.new.at + length self.new.rest.now
            ≡ self.old.at + length self.old.rest.now }
        ensures step { OnOk result (self.new.at ≡ self.old.at + 4) }
    {
        match self.rest {
            [a, b, c, d, rest @ ..] => {
                let number = u32::from_be_bytes([*a, *b, *c, *d]);
                self.rest = rest;
                self.at += 4;
                Ok(number)
            }
            _ => {
                self.note(self.at, 3);
                Err(ReadingEnd)
            }
        }
    }

    /// The next bytes, as many as are wanted.
    #[tactic(auto, unfolding(crate::specs::Running::run_layout, crate::specs::Running::log_after, crate::specs::Least::with_faults))]
    pub(crate) fn bytes(&mut self, count: u16) -> Result<&'a [u8], ReadingEnd>
        requires { self.old.at + length self.old.rest.now < 2 ^ 32 }
        ensures read { reader_run (λ s. s.now) result self.new
            ≡ run_layout (field_layout (bytes_coding count) (λ bs. None))
            (reader_cursor self.old) (log_of self.old) }
        ensures all { self.new.at + length self.new.rest.now
            ≡ self.old.at + length self.old.rest.now }
        ensures len { IfOk result (λ s. length s.now ≡ count) }
    {
        if self.rest.len() < usize::from(count) {
            self.note(self.at, 3);
            return Err(ReadingEnd);
        }
        let (taken, rest) = self.rest.split_at(usize::from(count));
        self.rest = rest;
        self.at += u32::from(count);
        Ok(taken)
    }
}
