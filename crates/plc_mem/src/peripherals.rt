// Peripheral inputs, or peripheral outputs: bytes 0 to 127, and bytes 256 to 767.
ghost use Rattle.std.specs.Prelude.{◌≡◌, ◌^◌, ◌<◌, Some, None, IsSome, IfSome, IsTrue, ◌↔◌};
ghost use Rattle.plc_mem.specs.Bits.{peripheral_byte};
ghost use Rattle.plc_mem.specs.Changes.{IsFirstChange, IsFirstHighChange};
ghost use Rattle.plc_mem.specs.Fresh.{clear_peripheral};
ghost use Rattle.plc_base.specs.Changes.{ChangesOrStays};
ghost use Rattle.plc_base.specs.Widths.{bit_count};
ghost use Rattle.plc_base.specs.AreaBytes.{is_peripheral_byte};
ghost use Rattle.plc_mem.specs.Run.{number_over};
ghost use Rattle.plc_mem.specs.Writing.{put_peripheral};

use crate::differences::first_difference;
use crate::faults::Missing;
use crate::operands;
use crate::upper_parts::UpperPart;
use plc_base::Width;
use std::marker::Model;

/// How many bytes the lower part of a peripheral area has, bytes 0 to 127, and a process image with
/// it.
pub(crate) const LOW_BYTES: usize = 128;

/// The number of the first byte of the upper part of a peripheral area, bytes 256 to 767.
const HIGH_START: usize = 256;

/// A peripheral area, that of the inputs (PI) or that of the outputs (PQ): bytes 0 to 127, and
/// bytes 256 to 767.
#[derive(Drop)]
pub struct PeripheralArea {
    /// Peripheral bytes 0 to 127.
    pub(crate) low: [u8; LOW_BYTES],
    /// Peripheral bytes 256 to 767.
    high: UpperPart,
}

impl Model for PeripheralArea {
    ghost use Rattle.plc_mem.specs.Areas.{PeripheralBytes, peripheral_code};

    ghost Value = { PeripheralBytes };

    ghost coded = { peripheral_code };

    ghost view = { λ a. record { low = a.low; high = a.high } };
}

impl PeripheralArea {
    /// A peripheral area in which each bit is 0.
    pub(crate) fn clear() -> Self
        ensures { result ≡ clear_peripheral }
    {
        PeripheralArea {
            low: [0; LOW_BYTES],
            high: UpperPart::clear(),
        }
    }

    /// A copy of the peripheral area.
    pub fn copied(&self) -> PeripheralArea
        ensures { result ≡ self.now }
    {
        PeripheralArea {
            low: self.low,
            high: self.high.copied(),
        }
    }

    /// Makes the peripheral area a copy of another one.
    pub fn copy_from(&mut self, other: &PeripheralArea)
        ensures { self.new ≡ other.now }
    {
        self.low = other.low;
        self.high.copy_from(&other.high);
    }

    /// The peripheral byte with a number, if there is one.
    pub fn byte(&self, number: u16) -> Option<u8>
        ensures value { result ≡ peripheral_byte self.now number }
        ensures exists { IsSome result ↔ IsTrue (is_peripheral_byte number) }
    {
        let number = usize::from(number);
        if number < HIGH_START {
            self.low.get(number).copied()
        } else {
            self.high.byte(number - HIGH_START)
        }
    }

    /// The number of the first byte, from `from` on, that differs from that of `before`, if there
    /// is one. All changes are found by asking again from the number after each.
    pub fn next_change(&self, before: &PeripheralArea, from: u16) -> Option<u16>
        ensures first { IsFirstChange before.now self.now from result }
        ensures exists { IfSome result (λ byte. IsTrue (is_peripheral_byte byte)) }
    {
        let from = usize::from(from);
        match first_difference(&before.low, &self.low, from) {
            Some(index) => Some(index as u16),
            None => self.next_high_change(before, from.saturating_sub(HIGH_START)),
        }
    }

    // The number of the first byte of the upper part that differs from that of `before`, the first
    // `skip` bytes passed over, if there is one.
    fn next_high_change(&self, before: &PeripheralArea, skip: usize) -> Option<u16>
        ensures first { IsFirstHighChange before.now self.now skip result }
        ensures exists { IfSome result (λ byte. IsTrue (is_peripheral_byte byte)) }
    {
        let index = self.high.first_difference(&before.high, skip)?;
        Some((HIGH_START + index) as u16)
    }

    /// The unsigned number in the operand from byte `at` of the peripheral area, if each bit of the
    /// operand exists.
    #[inline(never)]
    pub(crate) fn number(&self, at: usize, bit: u8, width: Width) -> Option<u32>
        requires { at < 2 ^ 16 }
        ensures { result ≡ number_over (peripheral_byte self.now) at bit width }
    {
        if at < HIGH_START {
            operands::number(&self.low, at, bit, width)
        } else {
            self.high.number(at - HIGH_START, bit, width)
        }
    }

    /// Writes a number to the operand from byte `at` of the peripheral area, if each bit of the
    /// operand exists.
    #[tactic(auto, unfolding(crate::specs::Writing::put_peripheral))]
    pub(crate) fn put(
        &mut self,
        at: usize,
        bit: u8,
        width: Width,
        value: u32,
    ) -> Result<(), Missing>
        requires near { at < 2 ^ 16 }
        requires fits { value < 2 ^ bit_count width }
        ensures cases { ChangesOrStays (put_peripheral self.old at bit width value)
            self.old self.new result }
    {
        if at < HIGH_START {
            operands::put(&mut self.low, at, bit, width, value)
        } else {
            self.high.put(at - HIGH_START, bit, width, value)
        }
    }
}
