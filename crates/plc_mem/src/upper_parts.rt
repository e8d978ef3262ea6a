// The upper part of a peripheral area: bytes 256 to 767.
ghost use Rattle.std.specs.Prelude.{◌≡◌, ◌^◌, ◌<◌, ◌≤◌, replicate, slice_get, IsSome, IfSome, ◌↔◌};
ghost use Rattle.plc_base.specs.AreaBytes.{upper_size};
ghost use Rattle.plc_base.specs.Changes.{ChangesOrStays};
ghost use Rattle.plc_base.specs.Widths.{bit_count};
ghost use Rattle.plc_mem.specs.Changes.{IsFirstDifference};
ghost use Rattle.plc_mem.specs.Run.{number_over};
ghost use Rattle.plc_mem.specs.Writing.{put_number as put_spec};

use crate::differences::{BLOCK, first_difference};
use crate::faults::Missing;
use crate::operands;
use plc_base::Width;
use std::marker::Model;

/// How many bytes the upper part of a peripheral area has: bytes 256 to 767.
const UPPER_BYTES: usize = 512;

/// The upper part of a peripheral area, bytes 256 to 767. Most programs write few of its bytes, so
/// it keeps where those end: from `in_use` on, each byte is 0.
#[derive(Drop)]
pub(crate) struct UpperPart {
    /// The bytes of the upper part, from peripheral byte 256 on.
    bytes: [u8; UPPER_BYTES],
    /// The index from which on each byte is 0.
    in_use: usize,
}

impl Model for UpperPart {
    ghost use Rattle.std.specs.Prelude.{ℕ, List, ◌≤◌};
    ghost use Rattle.plc_mem.specs.Places.{IsClearFrom};

    ghost Value = { List ℕ };

    ghost view = { λ a. a.bytes };

    ghost invariant = { λ a. (a.in_use ≤ 512) × IsClearFrom a.in_use a.bytes };
}

impl UpperPart {
    /// An upper part in which each bit is 0.
    pub(crate) fn clear() -> Self
        ensures { result ≡ replicate upper_size 0 }
    {
        UpperPart {
            bytes: [0; UPPER_BYTES],
            in_use: 0,
        }
    }

    /// A copy of the upper part.
    pub(crate) fn copied(&self) -> Self
        ensures { result ≡ self.now }
    {
        UpperPart {
            bytes: self.bytes,
            in_use: self.in_use,
        }
    }

    /// Makes the upper part a copy of another one.
    pub(crate) fn copy_from(&mut self, other: &UpperPart)
        ensures { self.new ≡ other.now }
    {
        let end = self.in_use.max(other.in_use);
        self.bytes[..end].copy_from_slice(&other.bytes[..end]);
        self.in_use = other.in_use;
    }

    /// The byte of the upper part at an index from 0 (peripheral byte 256), if there is one.
    pub(crate) fn byte(&self, index: usize) -> Option<u8>
        ensures value { result ≡ slice_get self.now index }
        ensures exists { IsSome result ↔ index < 512 }
    {
        self.bytes.get(index).copied()
    }

    /// The unsigned number in the operand from index `at` of the upper part, if each bit of the
    /// operand exists.
    pub(crate) fn number(&self, at: usize, bit: u8, width: Width) -> Option<u32>
        requires { at < 2 ^ 16 }
        ensures { result ≡ number_over (slice_get self.now) at bit width }
    {
        operands::number(&self.bytes, at, bit, width)
    }

    /// Writes a number to the operand from index `at` of the upper part, if each bit of the operand
    /// exists.
    pub(crate) fn put(
        &mut self,
        at: usize,
        bit: u8,
        width: Width,
        value: u32,
    ) -> Result<(), Missing>
        requires near { at < 2 ^ 16 }
        requires fits { value < 2 ^ bit_count width }
        ensures { ChangesOrStays (put_spec self.old at bit width value)
            self.old self.new result }
    {
        operands::put(&mut self.bytes, at, bit, width, value)?;
        self.in_use = self.in_use.max(block_end(at + width.byte_count()));
        Ok(())
    }

    /// The first index, from `from` on, at which the upper part differs from `before`, if there is
    /// one.
    pub(crate) fn first_difference(&self, before: &UpperPart, from: usize) -> Option<usize>
        ensures first { IsFirstDifference before.now self.now from result }
        ensures within { IfSome result (λ index. index < 512) }
    {
        let end = self.in_use.max(before.in_use);
        first_difference(&before.bytes[..end], &self.bytes[..end], from)
    }
}

// Where a whole block of compared bytes ends, at `end` or behind it.
fn block_end(end: usize) -> usize
    requires { end ≤ 512 }
    ensures from { end ≤ result }
    ensures to { result ≤ 512 }
{
    (end + BLOCK - 1) / BLOCK * BLOCK
}
