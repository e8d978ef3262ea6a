// The loaded data blocks, each by its number.
ghost use Rattle.std.specs.Prelude.{◌≡◌, ◌^◌, ◌<◌, nat_eq, Option, Some, None, IfOk};
ghost use Rattle.std.specs.Option.{option_copied, option_map};
ghost use Rattle.std.specs.FinMap as map;
ghost use Rattle.std.specs.List.{IsDistinct};
ghost use Rattle.plc_mem.specs.Blocks.{bytes_by_number, block_numbers};
ghost use Rattle.plc_mem.specs.Bits.{block_byte};
ghost use Rattle.plc_base.specs.Changes.{ChangesOrStays};
ghost use Rattle.plc_base.specs.Widths.{bit_count};
ghost use Rattle.plc_mem.specs.Places.{AreBlocks, AreByteValues};
ghost use Rattle.plc_mem.specs.Run.{number_over};
ghost use Rattle.plc_mem.specs.Writing.{put_in_block};

use crate::faults::Missing;
use crate::operands;
use plc_base::{NoMemory, Width};
use std::alloc::Global;
use std::collections::BTreeMap;
use std::marker::Model;

/// The loaded data blocks. A contract sees the finite map from their numbers to their bytes.
#[derive(Drop)]
pub(crate) struct DataBlocks {
    /// The bytes of each loaded data block, by its number.
    by_number: BTreeMap<u16, Vec<u8>>,
}

impl Model for DataBlocks {
    ghost use Rattle.std.specs.Prelude.{ℕ, List};
    ghost use Rattle.std.specs.Ordering.{nat_cmp};
    ghost use Rattle.std.specs.FinMap as map;
    ghost use Rattle.plc_mem.specs.Areas.{data_blocks_code};
    ghost use Rattle.plc_mem.specs.Blocks.{data_block_map};

    ghost Value = { map.FinMap nat_cmp (List ℕ) };

    ghost coded = { data_blocks_code };

    ghost view = { λ a. data_block_map a.by_number.entries };
}

/// A copy of a list of bytes, or `NoMemory` where no memory for it is left.
fn copy_of_bytes(alloc: Global, bytes: &[u8]) -> Result<Vec<u8>, NoMemory>
    ensures items { IfOk result (λ copy. copy.items ≡ bytes.now) }
    ensures bytes { AreByteValues bytes.now }
{
    Vec::from_slice(alloc, bytes)
}

impl DataBlocks {
    /// Copies of data blocks, each given by its number and bytes, or `NoMemory` where no memory for
    /// them is left.
    pub(crate) fn new(alloc: Global, blocks: &[(u16, Vec<u8>)]) -> Result<Self, NoMemory>
        requires { IsDistinct nat_eq (block_numbers blocks.now) }
        ensures blocks { IfOk result (λ r. r ≡ map.from_entries (bytes_by_number blocks.now)) }
        ensures bytes { IfOk result AreBlocks }
    {
        let mut by_number = BTreeMap::new(alloc);
        for (number, bytes) in blocks {
            by_number.insert(*number, copy_of_bytes(alloc, bytes)?)?;
        }
        Ok(DataBlocks { by_number })
    }

    /// The bytes of the data block with a number, if it is loaded.
    pub(crate) fn bytes(&self, number: u16) -> Option<&[u8]>
        ensures { option_copied result ≡ map.get self.now number }
    {
        match self.by_number.get(&number) {
            Some(bytes) => Some(bytes.as_slice()),
            None => None,
        }
    }

    /// The unsigned number in the operand from byte `at` of a data block, if that is loaded and the
    /// operand lies within it.
    #[inline(never)]
    pub(crate) fn number(&self, number: u16, at: usize, bit: u8, width: Width) -> Option<u32>
        requires { at < 2 ^ 16 }
        ensures { result ≡ number_over (block_byte self.now number) at bit width }
    {
        let bytes = self.bytes(number)?;
        operands::number(bytes, at, bit, width)
    }

    /// Writes a number to the operand from byte `at` of a data block, if that is loaded and the
    /// operand lies within it.
    pub(crate) fn put(
        &mut self,
        number: u16,
        at: usize,
        bit: u8,
        width: Width,
        value: u32,
    ) -> Result<(), Missing>
        requires near { at < 2 ^ 16 }
        requires fits { value < 2 ^ bit_count width }
        ensures { ChangesOrStays (put_in_block self.old number at bit width value)
            self.old self.new result }
    {
        match self.by_number.get_mut(&number) {
            Some(bytes) => operands::put(bytes.as_mut_slice(), at, bit, width, value),
            None => Err(Missing),
        }
    }
}
