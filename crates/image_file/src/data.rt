//! The data blocks and the names of an image.
ghost use Rattle.std.specs.Prelude.{true, ◌≡◌, ◌+◌, ◌≤◌, ◌<◌, ◌^◌, length, [], OnOk, IfOk, vec_len};
ghost use Rattle.flat_code.specs.Faults.{name_fault};
ghost use Rattle.flat_code.specs.Image.{instance_of_number, contents_layout, data_block_layout, plain_data_blocks, name_bytes, name_record, after_name};
ghost use Rattle.flat_code.specs.Layout.{list_layout};
ghost use Rattle.image_file.specs.Running.{reader_run, run_layout, reader_cursor, log_of, name_values, IsReaderRun};

use crate::reader::Reader;
use crate::records::NameRead;
use crate::stops::{ReadingEnd, Stop};
use flat_code::{DataBlock, ends_blank, is_name_before, is_upper_case};
use std::alloc::Global;

/// The function block of an instance, by its number plus 1, or 0.
fn instance_of(number: u16) -> Option<u16>
    ensures { result ≡ instance_of_number number }
{
    match number {
        0 => None,
        _ => Some(number - 1),
    }
}

/// The code of the fault of a name behind another, if it has one.
#[tactic(auto, unfolding(flat_code::specs::Faults::name_fault))]
fn name_fault(before: &[u8], name: &[u8]) -> Option<u16>
    ensures { result ≡ name_fault before.now name.now }
{
    if is_name_before(before, name) && is_upper_case(name) && !ends_blank(name) {
        None
    } else {
        Some(4)
    }
}

/// The number of a data block and its length.
fn key_of_data(block: &DataBlock) -> (u16, u32)
    requires { length block.now.bytes ≤ 65535 }
    ensures number { result.0 ≡ block.now.number }
    ensures len { result.1 ≡ length block.now.bytes }
{
    (block.number, block.bytes.len() as u32)
}

impl<'a> Reader<'a> {
    #[tactic(auto, unfolding(flat_code::specs::Image::contents_layout))]
    fn contents(&mut self, alloc: Global, count: u16) -> Result<Vec<u8>, Stop>
        requires { self.old.at + length self.old.rest.now < 2 ^ 32 }
        ensures read { IsReaderRun (λ v. v.items) result self.new
            (run_layout (contents_layout count)
            (reader_cursor self.old) (log_of self.old)) }
        ensures all { OnOk result (self.new.at + length self.new.rest.now
            ≡ self.old.at + length self.old.rest.now) }
        ensures small { IfOk result (λ v. vec_len v ≡ count) }
    {
        let taken = self.bytes(count)?;
        let contents = Vec::from_slice(alloc, taken)?;
        Ok(contents)
    }

    /// A data block behind another one and so many bytes of data blocks together.
    #[tactic(auto, unfolding(flat_code::specs::Image::data_block_layout, flat_code::specs::Image::data_rows), using(crate::proofs::RunLemmas::run_seen, crate::proofs::RunLemmas::run_chain))]
    fn data_block(&mut self, alloc: Global, before: u16, sum: u32) -> Result<DataBlock, Stop>
        requires { self.old.at + length self.old.rest.now < 2 ^ 32 }
        ensures read { IsReaderRun (λ d. d) result self.new
            (run_layout (data_block_layout (before, sum))
            (reader_cursor self.old) (log_of self.old)) }
        ensures all { OnOk result (self.new.at + length self.new.rest.now
            ≡ self.old.at + length self.old.rest.now) }
        ensures small { IfOk result (λ d. length d.bytes ≤ 65535) }
    {
        let number = self.data_number(before)?;
        let instance = self.instance_of()?;
        let len = self.data_len(sum)?;
        let _reserved = self.reserved_u16()?;
        let bytes = self.contents(alloc, len)?;
        Ok(DataBlock {
            number,
            instance_of: instance_of(instance),
            bytes,
        })
    }

    pub(crate) fn plain_data_blocks(
        &mut self,
        alloc: Global,
        count: u16,
    ) -> Result<Vec<DataBlock>, Stop>
        requires { self.old.at + length self.old.rest.now < 2 ^ 32 }
        ensures read { IsReaderRun (λ v. v.items) result self.new
            (run_layout (plain_data_blocks count)
            (reader_cursor self.old) (log_of self.old)) }
        ensures all { OnOk result (self.new.at + length self.new.rest.now
            ≡ self.old.at + length self.old.rest.now) }
    {
        let mut blocks = Vec::new(alloc);
        let mut before = 0;
        let mut sum = 0;
        for _ in 0..count {
            let block = self.data_block(alloc, before, sum)?;
            let key = key_of_data(&block);
            blocks.push(block)?;
            before = key.0;
            sum += key.1;
        }
        Ok(blocks)
    }

    /// The bytes of a name behind another name.
    #[tactic(auto, unfolding(crate::specs::Running::run_layout, crate::specs::Running::log_after, crate::specs::Least::with_faults, flat_code::specs::Image::name_bytes))]
    fn name_text(&mut self, before: &[u8], count: u8) -> Result<&'a [u8], ReadingEnd>
        requires { self.old.at + length self.old.rest.now < 2 ^ 32 }
        ensures read { reader_run (λ s. s.now) result self.new
            ≡ run_layout (name_bytes before.now count) (reader_cursor self.old)
            (log_of self.old) }
        ensures all { self.new.at + length self.new.rest.now
            ≡ self.old.at + length self.old.rest.now }
    {
        let at = self.at;
        let text = self.bytes(u16::from(count))?;
        if let Some(code) = name_fault(before, text) {
            self.note(at, code);
        }
        Ok(text)
    }

    /// A name behind another: its bytes, area, width, byte and bit.
    #[tactic(auto, unfolding(flat_code::specs::Image::name_record, flat_code::specs::Image::name_rows), using(crate::proofs::RunLemmas::run_seen, crate::proofs::RunLemmas::run_chain))]
    fn name(&mut self, before: &[u8]) -> Result<(&'a [u8], u8, u8, u16, u8), ReadingEnd>
        requires { self.old.at + length self.old.rest.now < 2 ^ 32 }
        ensures read { reader_run name_values result self.new
            ≡ run_layout (name_record before.now) (reader_cursor self.old) (log_of self.old) }
        ensures all { self.new.at + length self.new.rest.now
            ≡ self.old.at + length self.old.rest.now }
    {
        let count = self.name_len()?;
        let text = self.name_text(before, count)?;
        let area = self.name_area()?;
        let width = self.width()?;
        let byte = self.plain_u16()?;
        let bit = self.name_bit(width)?;
        Ok((text, area, width, byte, bit))
    }

    pub(crate) fn names(&mut self, alloc: Global, count: u16) -> Result<Vec<NameRead>, Stop>
        requires { self.old.at + length self.old.rest.now < 2 ^ 32 }
        ensures read { IsReaderRun (λ v. v.items) result self.new (run_layout
            (list_layout name_record after_name [] count)
            (reader_cursor self.old) (log_of self.old)) }
        ensures all { OnOk result (self.new.at + length self.new.rest.now
            ≡ self.old.at + length self.old.rest.now) }
    {
        let mut names = Vec::new(alloc);
        let mut before: &[u8] = &[];
        for _ in 0..count {
            let (text, area, width, byte, bit) = self.name(before)?;
            let name = Vec::from_slice(alloc, text)?;
            names.push(NameRead {
                name,
                area,
                width,
                byte,
                bit,
            })?;
            before = text;
        }
        Ok(names)
    }
}
