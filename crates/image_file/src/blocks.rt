//! The code blocks of an image.
ghost use Rattle.std.specs.Prelude.{true, ◌≡◌, ◌+◌, ◌*◌, ◌<◌, ◌≤◌, ◌^◌, length, OnOk, IfOk, vec_len};
ghost use Rattle.flat_code.specs.Codes.{code_layout, code_bytes};
ghost use Rattle.flat_code.specs.Image.{Head, head_layout, parameter_layout, parameters_layout, end_marks, lines_layout, line_field, line_after, code_and_lines, plain_block, code_block_layout, code_blocks_layout};
ghost use Rattle.flat_code.specs.Layout.{list_layout, chain_layout};
ghost use Rattle.image_file.specs.Running.{reader_run, run_layout, reader_cursor, log_of, head_values, IsReaderRun, IsBlockRun, IsBlocksRun};

use crate::codes::ops_of_code;
use crate::reader::Reader;
use crate::records::{BlockRead, HeadRead, LocatedBlock};
use crate::stops::{ReadingEnd, Stop};
use flat_code::{Field, Op, ParameterRecord};
use std::alloc::Global;

/// How many ops have the end mark.
pub(crate) fn end_mark_count(ops: &[Op]) -> usize
    ensures { result ≡ end_marks ops.now }
{
    let mut count = 0;
    for op in ops {
        if op.last {
            count += 1;
        }
    }
    count
}

/// Kind and number of a block.
fn key_of(block: &BlockRead) -> (u8, u16)
    ensures kind { result.0 ≡ block.now.kind }
    ensures number { result.1 ≡ block.now.number }
{
    (block.kind, block.number)
}

/// The offset of a block's code, of a block that begins at an offset.
fn code_start(at: u32, block: &BlockRead) -> u32
    requires room { at + 2000 < 2 ^ 32 }
    requires few { length block.now.params ≤ 255 }
    ensures { result ≡ at + 16 + 6 * length block.now.params }
{
    at + 16 + 6 * block.params.len() as u32
}

impl Reader<'_> {
    #[tactic(auto, unfolding(flat_code::specs::Image::head_layout, flat_code::specs::Image::head_rows), using(crate::proofs::RunLemmas::run_seen, crate::proofs::RunLemmas::run_chain))]
    fn head(&mut self, kind_before: u8, before: u16) -> Result<HeadRead, ReadingEnd>
        requires { self.old.at + length self.old.rest.now < 2 ^ 32 }
        ensures read { reader_run head_values result self.new
            ≡ run_layout (head_layout (kind_before, before))
            (reader_cursor self.old) (log_of self.old) }
        ensures all { self.new.at + length self.new.rest.now
            ≡ self.old.at + length self.old.rest.now }
        ensures step { OnOk result (self.new.at ≡ self.old.at + 16) }
    {
        let kind = self.kind(kind_before)?;
        let parameter_count = self.parameter_count(kind)?;
        let number = self.block_number(kind_before, before, kind)?;
        let local_bytes = self.local_bytes(kind)?;
        let instance_bytes = self.instance_bytes(kind)?;
        let statement_count = self.plain_u16()?;
        let reserved = self.reserved_u16()?;
        let code_length = self.plain_u32()?;
        Ok(HeadRead {
            kind,
            parameter_count,
            number,
            local_bytes,
            instance_bytes,
            statement_count,
            reserved,
            code_length,
        })
    }

    #[tactic(auto, unfolding(flat_code::specs::Image::parameter_layout, flat_code::specs::Image::parameter_rows), using(crate::proofs::RunLemmas::run_seen, crate::proofs::RunLemmas::run_chain))]
    fn parameter(&mut self, kind: u8, instance: u16) -> Result<ParameterRecord, ReadingEnd>
        requires { self.old.at + length self.old.rest.now < 2 ^ 32 }
        ensures read { reader_run (λ p. p) result self.new
            ≡ run_layout (parameter_layout kind instance)
            (reader_cursor self.old) (log_of self.old) }
        ensures all { self.new.at + length self.new.rest.now
            ≡ self.old.at + length self.old.rest.now }
        ensures step { OnOk result (self.new.at ≡ self.old.at + 6) }
    {
        let section = self.section()?;
        let width = self.width()?;
        let byte = self.parameter_byte(kind, instance, width)?;
        let bit = self.parameter_bit(kind)?;
        let _reserved = self.reserved_u8()?;
        Ok(ParameterRecord {
            section,
            width,
            byte,
            bit,
        })
    }

    #[tactic(auto, unfolding(flat_code::specs::Image::parameters_layout))]
    fn parameters(&mut self, alloc: Global, head: HeadRead) -> Result<Vec<ParameterRecord>, Stop>
        requires { self.old.at + length self.old.rest.now < 2 ^ 32 }
        ensures read { IsReaderRun (λ v. v.items) result self.new (run_layout
            (parameters_layout (head_values head)) (reader_cursor self.old) (log_of self.old)) }
        ensures all { OnOk result (self.new.at + length self.new.rest.now
            ≡ self.old.at + length self.old.rest.now) }
        ensures step { IfOk result (λ v. self.new.at ≡ self.old.at + 6 * vec_len v) }
        ensures count { IfOk result (λ v. vec_len v ≤ 255) }
    {
        let count = head.parameter_count;
        let mut params = Vec::new(alloc);
        for _ in 0..count {
            let param = self.parameter(head.kind, head.instance_bytes)?;
            params.push(param)?;
        }
        Ok(params)
    }

    /// The code of a block.
    #[tactic(auto, unfolding(crate::specs::Running::run_layout, crate::specs::Running::log_after, crate::specs::Least::with_faults, flat_code::specs::Codes::code_layout))]
    fn code(&mut self, alloc: Global, size: u32) -> Result<Vec<Op>, Stop>
        requires { self.old.at + length self.old.rest.now < 2 ^ 32 }
        ensures read { IsReaderRun (λ v. v.items) result self.new
            (run_layout (code_layout true size)
            (reader_cursor self.old) (log_of self.old)) }
        ensures all { OnOk result (self.new.at + length self.new.rest.now
            ≡ self.old.at + length self.old.rest.now) }
        ensures room { IfOk result (λ v. length (code_bytes v.items)
            ≤ length self.old.rest.now) }
    {
        if self.rest.len() < size as usize {
            self.note(self.at, 3);
            return Err(Stop::AtFault);
        }
        let (code, rest) = self.rest.split_at(size as usize);
        let found = ops_of_code(alloc, code)?;
        match found.fault {
            Some(offset) => {
                self.note(self.at + offset, 5);
                Err(Stop::AtFault)
            }
            None => {
                self.rest = rest;
                self.at += size;
                Ok(found.ops)
            }
        }
    }

    fn lines(&mut self, alloc: Global, count: u16) -> Result<Vec<u32>, Stop>
        requires { self.old.at + length self.old.rest.now < 2 ^ 32 }
        ensures read { IsReaderRun (λ v. v.items) result self.new
            (run_layout (list_layout
            (line_field true) line_after 0 count) (reader_cursor self.old) (log_of self.old)) }
        ensures all { OnOk result (self.new.at + length self.new.rest.now
            ≡ self.old.at + length self.old.rest.now) }
    {
        let mut lines = Vec::new(alloc);
        let mut before = 0;
        for _ in 0..count {
            let line = self.line(before)?;
            lines.push(line)?;
            before = line;
        }
        Ok(lines)
    }

    /// The statement count, which is checked now, and the lines.
    #[tactic(auto, unfolding(flat_code::specs::Image::lines_layout), using(crate::proofs::RunLemmas::run_checked))]
    fn counted_lines(
        &mut self,
        alloc: Global,
        start: u32,
        head: HeadRead,
        ops: &[Op],
    ) -> Result<Vec<u32>, Stop>
        requires fits { self.old.at + length self.old.rest.now < 2 ^ 32 }
        requires room { start + 8 < 2 ^ 32 }
        ensures read { IsReaderRun (λ v. v.items) result self.new
            (run_layout (lines_layout true start
            (head_values head) ops.now) (reader_cursor self.old) (log_of self.old)) }
        ensures all { OnOk result (self.new.at + length self.new.rest.now
            ≡ self.old.at + length self.old.rest.now) }
    {
        let end_marks = end_mark_count(ops);
        self.check(
            start + 8,
            Field::StatementCount {
                end_marks,
                count: head.statement_count,
            },
        );
        let lines = self.lines(alloc, head.statement_count)?;
        Ok(lines)
    }

    /// The code of a block and its lines.
    #[tactic(auto, unfolding(flat_code::specs::Image::code_and_lines), using(crate::proofs::RunLemmas::run_chain))]
    fn code_and_lines(
        &mut self,
        alloc: Global,
        start: u32,
        head: HeadRead,
    ) -> Result<(Vec<Op>, Vec<u32>), Stop>
        requires fits { self.old.at + length self.old.rest.now < 2 ^ 32 }
        requires room { start + 8 < 2 ^ 32 }
        ensures read { IsReaderRun (λ r. (r.0.items, r.1.items)) result self.new (run_layout
            (code_and_lines true start (head_values head))
            (reader_cursor self.old) (log_of self.old)) }
        ensures all { OnOk result (self.new.at + length self.new.rest.now
            ≡ self.old.at + length self.old.rest.now) }
        ensures room { IfOk result (λ r. length (code_bytes r.0.items)
            ≤ length self.old.rest.now) }
    {
        let ops = self.code(alloc, head.code_length)?;
        let lines = self.counted_lines(alloc, start, head, &ops)?;
        Ok((ops, lines))
    }

    /// A code block.
    #[tactic(auto, unfolding(flat_code::specs::Image::plain_block, flat_code::specs::Image::block_rows), using(crate::proofs::RunLemmas::run_seen, crate::proofs::RunLemmas::run_chain))]
    fn plain_block(
        &mut self,
        alloc: Global,
        kind_before: u8,
        before: u16,
    ) -> Result<BlockRead, Stop>
        requires { self.old.at + length self.old.rest.now + 8 < 2 ^ 32 }
        ensures read { IsReaderRun (λ b. b) result self.new
            (run_layout (plain_block true
            (kind_before, before) self.old.at) (reader_cursor self.old) (log_of self.old)) }
        ensures all { OnOk result (self.new.at + length self.new.rest.now
            ≡ self.old.at + length self.old.rest.now) }
        ensures room { IfOk result
            (λ b. 16 + 6 * length b.params + length
            (code_bytes b.code) ≤ length self.old.rest.now) }
        ensures count { IfOk result (λ b. length b.params ≤ 255) }
    {
        let start = self.at;
        let head = self.head(kind_before, before)?;
        let params = self.parameters(alloc, head)?;
        let (code, lines) = self.code_and_lines(alloc, start, head)?;
        Ok(BlockRead {
            kind: head.kind,
            number: head.number,
            local_len: head.local_bytes,
            instance_len: head.instance_bytes,
            params,
            code,
            lines,
        })
    }

    /// A code block, which is kept. Its kind and number are answered.
    #[tactic(auto, unfolding(flat_code::specs::Image::code_block_layout, crate::specs::Running::log_after, crate::specs::Least::with_faults), using(crate::proofs::RunLemmas::run_located, crate::proofs::RunLemmas::run_remembered))]
    fn code_block(&mut self, alloc: Global, kind_before: u8, before: u16) -> Result<(u8, u16), Stop>
        requires { self.old.at + length self.old.rest.now + 2000 < 2 ^ 32 }
        ensures read { IsBlockRun result self.new (run_layout
            (code_block_layout true (kind_before, before))
            (reader_cursor self.old) (log_of self.old)) }
        ensures all { OnOk result (self.new.at + length self.new.rest.now
            ≡ self.old.at + length self.old.rest.now) }
    {
        let at = self.at;
        let block = self.plain_block(alloc, kind_before, before)?;
        let key = key_of(&block);
        let start = code_start(at, &block);
        self.blocks.push(LocatedBlock { start, block })?;
        Ok(key)
    }

    /// All code blocks, which are kept.
    #[tactic(auto, unfolding(flat_code::specs::Image::code_blocks_layout))]
    pub(crate) fn code_blocks(&mut self, alloc: Global, count: u16) -> Result<(), Stop>
        requires { self.old.at + length self.old.rest.now + 2000 < 2 ^ 32 }
        ensures read { IsBlocksRun result self.new (run_layout (code_blocks_layout true count)
            (reader_cursor self.old) (log_of self.old)) }
        ensures all { OnOk result (self.new.at + length self.new.rest.now
            ≡ self.old.at + length self.old.rest.now) }
    {
        let mut kind_before = 0;
        let mut before = 0;
        for _ in 0..count {
            let key = self.code_block(alloc, kind_before, before)?;
            kind_before = key.0;
            before = key.1;
        }
        Ok(())
    }
}
