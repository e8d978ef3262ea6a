// The memory areas of the controller but local data.
ghost use Rattle.plc_base.specs.Profiles.{bit_memory_size};
ghost use Rattle.std.specs.Prelude.{replicate, ◌≡◌, ◌^◌, ◌<◌, nat_eq, Some, None, IfOk, OnOk, IsOk, IsSome, IsTrue, MatchResult, ◌↔◌};
ghost use Rattle.std.specs.Option.{option_copied};
ghost use Rattle.std.specs.FinMap as map;
ghost use Rattle.std.specs.List.{IsDistinct};
ghost use Rattle.plc_mem.specs.Blocks.{bytes_by_number, block_numbers};
ghost use Rattle.plc_mem.specs.Fresh.{zeroed_memory, initial_memory};
ghost use Rattle.plc_base.specs.AreaBytes.{is_peripheral_byte};
ghost use Rattle.plc_base.specs.Changes.{ChangesOrStays};
ghost use Rattle.plc_base.specs.Widths.{bit_count};
ghost use Rattle.plc_mem.specs.Number.{number_at_place, region_read, region_written, EachBitExists};
ghost use Rattle.plc_mem.specs.Peripherals.{with_input, output_of, outputs_cleared};
ghost use Rattle.plc_mem.specs.Refresh.{memory_refreshed};
ghost use Rattle.plc_mem.specs.Restart.{retained_bit_memory, memory_after_restart};
ghost use Rattle.plc_mem.specs.Writing.{put_number, number_written, number_written_in};
ghost use Rattle.plc_mem.specs.WrittenBits.{IsNumberWritten};
ghost use Rattle.plc_mem.specs.Places.{AreBlocks, HasImage, IsMemory};
ghost use Rattle.plc_mem.specs.BitPlace.{Inputs, Outputs, BitMemory, PeripheralOutputs, DataBlock};

use crate::data_blocks::DataBlocks;
use crate::faults::Missing;
use crate::operands;
use crate::peripherals::{LOW_BYTES, PeripheralArea};
use plc_base::{Area, NoMemory, Place, Profile, Width};
use std::alloc::Global;
use std::marker::Model;

/// How many bytes of bit memory a warm restart retains: MB 0 to MB 15.
const RETAINED: usize = 16;

/// The memory areas but local data: the process images of the inputs and of the outputs (I, Q), bit
/// memory (M), peripheral inputs and outputs (PI, PQ) and the data blocks (DB).
#[derive(Drop)]
pub struct Memory {
    /// The process image of the inputs (I).
    inputs: [u8; LOW_BYTES],
    /// The process image of the outputs (Q).
    outputs: [u8; LOW_BYTES],
    /// Bit memory (M), as many bytes as the profile has.
    bit_memory: Vec<u8>,
    /// The peripheral inputs (PI).
    peripheral_inputs: PeripheralArea,
    /// The peripheral outputs (PQ).
    peripheral_outputs: PeripheralArea,
    /// The loaded data blocks (DB).
    data_blocks: DataBlocks,
}

impl Model for Memory {
    ghost use Rattle.plc_mem.specs.Areas.{Areas, areas_code};
    ghost use Rattle.plc_mem.specs.Places.{IsMemory};

    ghost Value = { Areas };

    ghost coded = { areas_code };

    ghost view = { λ a. record {
      inputs = a.inputs;
      outputs = a.outputs;
      bit_memory = a.bit_memory.items;
      peripheral_inputs = a.peripheral_inputs;
      peripheral_outputs = a.peripheral_outputs;
      data_blocks = a.data_blocks;
    } };

    ghost invariant = { λ a. IsMemory (record {
      inputs = a.inputs;
      outputs = a.outputs;
      bit_memory = a.bit_memory.items;
      peripheral_inputs = a.peripheral_inputs;
      peripheral_outputs = a.peripheral_outputs;
      data_blocks = a.data_blocks;
    }) };
}

// So many bytes, each 0.
fn clear_bytes(alloc: Global, count: usize) -> Result<Vec<u8>, NoMemory>
    ensures { IfOk result (λ v. v.items ≡ replicate count 0) }
{
    let bytes = vec![in alloc; 0; count]?;
    Ok(bytes)
}

// Makes each byte 0 but those that a warm restart retains.
fn clear_other_bytes(bytes: &mut [u8])
    ensures { bytes.new ≡ retained_bit_memory bytes.old }
{
    let kept = bytes.len().min(RETAINED);
    bytes[kept..].fill(0);
}

// Makes each byte of a vector 0 but those that a warm restart retains.
fn clear_other_bytes_in(bytes: &mut Vec<u8>)
    ensures { bytes.new.items ≡ retained_bit_memory bytes.old.items }
{
    clear_other_bytes(bytes.as_mut_slice());
}

// Writes an operand of bytes.
#[inline(always)]
fn put_in(bytes: &mut Vec<u8>, at: usize, bit: u8, width: Width, value: u32) -> Result<(), Missing>
    requires near { at < 2 ^ 16 }
    requires fits { value < 2 ^ bit_count width }
    ensures { ChangesOrStays (put_number bytes.old.items at bit width value)
        bytes.old.items bytes.new.items result }
{
    operands::put(bytes.as_mut_slice(), at, bit, width, value)
}

impl Memory {
    /// Memory with copies of these data blocks, each given by its number, in which all else is 0.
    #[tactic(auto, unfolding(crate::specs::Fresh::initial_memory))]
    pub fn new(alloc: Global, blocks: &[(u16, Vec<u8>)], profile: Profile) -> Result<Self, NoMemory>
        requires { IsDistinct nat_eq (block_numbers blocks.now) }
        ensures { IfOk result (λ m. m ≡ initial_memory profile (bytes_by_number blocks.now)) }
    {
        let data_blocks = DataBlocks::new(alloc, blocks)?;
        let bit_memory = clear_bytes(alloc, profile.bit_memory_size())?;
        Ok(Memory::with_data_blocks(profile, bit_memory, data_blocks))
    }

    /// Law, which does nothing: each memory has its areas, each of its size and made of bytes.
    pub fn law_of_areas(&self)
        ensures { IsMemory self.now }
    {
        let _ = &self.inputs;
    }

    /// Reads the unsigned number at a place and width. Reading area P reads peripheral inputs.
    #[inline(always)]
    pub fn read(&self, place: Place, width: Width) -> Result<u32, Missing>
        ensures cases { MatchResult result
            (λ n. number_at_place self.now place width ≡ Some n)
            (λ _. number_at_place self.now place width ≡ None) }
        ensures fits { IfOk result (λ n. n < 2 ^ bit_count width) }
        ensures exists { IsOk result ↔ EachBitExists self.now (region_read place) place width }
    {
        self.number(place, width).ok_or(Missing)
    }

    /// Writes a number at a place and width. Writing area P writes peripheral outputs, and the same
    /// bytes of the process image of the outputs where these exist.
    #[inline(always)]
    pub fn write(&mut self, place: Place, width: Width, value: u32) -> Result<(), Missing>
        requires { value < 2 ^ bit_count width }
        ensures cases { ChangesOrStays (number_written self.old place width value)
            self.old self.new result }
        ensures bits { OnOk result (IsNumberWritten self.old self.new place width value) }
        ensures exists { IsOk result ↔ EachBitExists self.old (region_written place) place width }
    {
        self.store(place, width, value)
    }

    /// Sets one byte of the peripheral inputs (PI).
    #[tactic(auto, unfolding(crate::specs::Peripherals::with_input))]
    pub fn set_input(&mut self, byte: u16, value: u8) -> Result<(), Missing>
        ensures exists { IsOk result ↔ IsTrue (is_peripheral_byte byte) }
        ensures cases { ChangesOrStays (with_input self.old byte value) self.old self.new result }
    {
        let at = usize::from(byte);
        self.peripheral_inputs.put(at, 0, Width::Byte, value.into())
    }

    /// One byte of the peripheral outputs (PQ), if there is one with this number.
    #[tactic(auto, unfolding(crate::specs::Peripherals::output_of))]
    pub fn output(&self, byte: u16) -> Option<u8>
        ensures value { result ≡ output_of self.now byte }
        ensures exists { IsSome result ↔ IsTrue (is_peripheral_byte byte) }
    {
        self.peripheral_outputs.byte(byte)
    }

    /// All bytes of the peripheral outputs (PQ).
    pub fn outputs(&self) -> &PeripheralArea
        ensures { result.now ≡ self.now.peripheral_outputs }
    {
        &self.peripheral_outputs
    }

    /// Makes each peripheral output 0, as in STOP.
    #[tactic(auto, unfolding(crate::specs::Peripherals::outputs_cleared))]
    pub fn clear_outputs(&mut self)
        ensures { self.new ≡ outputs_cleared self.old }
    {
        self.peripheral_outputs = PeripheralArea::clear();
    }

    /// The bytes of the data block with a number, if it is loaded.
    pub fn data_block(&self, number: u16) -> Option<&[u8]>
        ensures { option_copied result ≡ map.get self.now.data_blocks number }
    {
        self.data_blocks.bytes(number)
    }

    /// Updates the process images, as at a cycle point: the process image of the outputs is written
    /// to peripheral outputs 0 to 127, and peripheral inputs 0 to 127 are read to the process image
    /// of the inputs.
    #[tactic(auto, unfolding(crate::specs::Refresh::memory_refreshed))]
    pub fn refresh(&mut self)
        ensures { self.new ≡ memory_refreshed self.old }
    {
        self.peripheral_outputs.low = self.outputs;
        self.inputs = self.peripheral_inputs.low;
    }

    /// What a warm restart does: the process images are cleared, and bit memory but for bytes 0 to
    /// 15; data blocks and the peripheral inputs and outputs stay.
    pub fn clear_unretained(&mut self)
        ensures { self.new ≡ memory_after_restart self.old }
    {
        self.inputs = [0; LOW_BYTES];
        self.outputs = [0; LOW_BYTES];
        clear_other_bytes_in(&mut self.bit_memory);
    }

    // Memory with these data blocks, in which all else is 0.
    fn with_data_blocks(profile: Profile, bit_memory: Vec<u8>, data_blocks: DataBlocks) -> Self
        requires bits { bit_memory.items ≡ replicate (bit_memory_size profile) 0 }
        requires blocks { AreBlocks data_blocks }
        ensures { result ≡ zeroed_memory profile data_blocks }
    {
        let _ = profile;
        Memory {
            inputs: [0; LOW_BYTES],
            outputs: [0; LOW_BYTES],
            bit_memory,
            peripheral_inputs: PeripheralArea::clear(),
            peripheral_outputs: PeripheralArea::clear(),
            data_blocks,
        }
    }

    // The number at a place, if each bit of the operand exists.
    #[tactic(auto, using(crate::proofs::Numbers::number_at_bytes))]
    #[inline(always)]
    fn number(&self, place: Place, width: Width) -> Option<u32>
        ensures { result ≡ number_at_place self.now place width }
    {
        let at = usize::from(place.byte);
        match (place.area, place.number) {
            (Area::P, 0) => self.peripheral_inputs.number(at, place.bit, width),
            (Area::I, 0) => operands::number(&self.inputs, at, place.bit, width),
            (Area::Q, 0) => operands::number(&self.outputs, at, place.bit, width),
            (Area::M, 0) => operands::number(self.bit_memory.as_slice(), at, place.bit, width),
            (Area::Db, number) => self.data_blocks.number(number, at, place.bit, width),
            _ => None,
        }
    }

    // Writes a number at a place, as `write`.
    #[tactic(auto, unfolding(crate::specs::Writing::number_written))]
    #[inline(always)]
    fn store(&mut self, place: Place, width: Width, value: u32) -> Result<(), Missing>
        requires { value < 2 ^ bit_count width }
        ensures sizes { region_written place ≡ Some PeripheralOutputs → HasImage self.old }
        ensures cases { ChangesOrStays (number_written self.old place width value)
            self.old self.new result }
    {
        let at = usize::from(place.byte);
        match (place.area, place.number) {
            (Area::P, 0) => self.put_peripheral_outputs(at, place.bit, width, value),
            (Area::I, 0) => self.put_inputs(at, place.bit, width, value),
            (Area::Q, 0) => self.put_outputs(at, place.bit, width, value),
            (Area::M, 0) => self.put_bit_memory(at, place.bit, width, value),
            (Area::Db, number) => self.put_block(number, at, place.bit, width, value),
            _ => Err(Missing),
        }
    }

    // Writes an operand of the process image of the inputs.
    #[inline(always)]
    fn put_inputs(&mut self, at: usize, bit: u8, width: Width, value: u32) -> Result<(), Missing>
        requires near { at < 2 ^ 16 }
        requires fits { value < 2 ^ bit_count width }
        ensures { ChangesOrStays (number_written_in self.old Inputs at bit width value)
            self.old self.new result }
    {
        operands::put(&mut self.inputs, at, bit, width, value)
    }

    // Writes an operand of the process image of the outputs.
    #[inline(always)]
    fn put_outputs(&mut self, at: usize, bit: u8, width: Width, value: u32) -> Result<(), Missing>
        requires near { at < 2 ^ 16 }
        requires fits { value < 2 ^ bit_count width }
        ensures { ChangesOrStays (number_written_in self.old Outputs at bit width value)
            self.old self.new result }
    {
        operands::put(&mut self.outputs, at, bit, width, value)
    }

    // Writes an operand of bit memory.
    #[inline(always)]
    fn put_bit_memory(
        &mut self,
        at: usize,
        bit: u8,
        width: Width,
        value: u32,
    ) -> Result<(), Missing>
        requires near { at < 2 ^ 16 }
        requires fits { value < 2 ^ bit_count width }
        ensures { ChangesOrStays (number_written_in self.old BitMemory at bit width value)
            self.old self.new result }
    {
        put_in(&mut self.bit_memory, at, bit, width, value)
    }

    // Writes an operand of a data block.
    #[inline(never)]
    fn put_block(
        &mut self,
        number: u16,
        at: usize,
        bit: u8,
        width: Width,
        value: u32,
    ) -> Result<(), Missing>
        requires near { at < 2 ^ 16 }
        requires fits { value < 2 ^ bit_count width }
        ensures { ChangesOrStays (number_written_in self.old (DataBlock number) at bit width value)
            self.old self.new result }
    {
        self.data_blocks.put(number, at, bit, width, value)
    }

    // Writes an operand of the peripheral outputs, and the same bytes of the process image.
    #[inline(never)]
    fn put_peripheral_outputs(
        &mut self,
        at: usize,
        bit: u8,
        width: Width,
        value: u32,
    ) -> Result<(), Missing>
        requires near { at < 2 ^ 16 }
        requires fits { value < 2 ^ bit_count width }
        ensures sizes { HasImage self.old }
        ensures cases { ChangesOrStays
            (number_written_in self.old PeripheralOutputs at bit width value)
            self.old self.new result }
    {
        self.peripheral_outputs.put(at, bit, width, value)?;
        // Only bytes 0 to 127 have a place in the process image.
        let _ = operands::put(&mut self.outputs, at, bit, width, value);
        Ok(())
    }
}
