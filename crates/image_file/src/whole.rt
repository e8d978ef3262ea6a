//! An image as a whole.
ghost use Rattle.std.specs.Prelude.{true, ◌≡◌, ◌+◌, ◌<◌, ◌≤◌, ◌^◌, length, take, [], ◌∷◌, if◌then◌else◌, OnOk, IfOk};
ghost use Rattle.flat_code.specs.Image.{counts_layout, data_blocks_layout, names_layout, records_layout, front_layout, read_cut_off, read_image};
ghost use Rattle.flat_code.specs.Layout.{Faulty};
ghost use Rattle.image_file.specs.Running.{reader_run, run_layout, run_of_read, log_after, reader_cursor, log_of, counts_values, front_values, IsReaderRun, IsDataBlocksRun, IsRecordsRun, IsImageRun};

use crate::reader::Reader;
use crate::records::{CountsRead, FoundRead, FrontRead, NameRead};
use crate::stops::{ReadingEnd, Stop};
use flat_code::Stamp;
use std::alloc::Global;

/// The bytes up to a length.
fn up_to(bytes: &[u8], count: usize) -> &[u8]
    requires { count ≤ length bytes.now }
    ensures { result.now ≡ take count bytes.now }
{
    bytes.split_at(count).0
}

impl Reader<'_> {
    #[tactic(auto, unfolding(flat_code::specs::Image::counts_layout, flat_code::specs::Image::count_rows), using(crate::proofs::RunLemmas::run_seen, crate::proofs::RunLemmas::run_chain))]
    fn counts(&mut self) -> Result<CountsRead, ReadingEnd>
        requires { self.old.at + length self.old.rest.now < 2 ^ 32 }
        ensures read { reader_run counts_values result self.new
            ≡ run_layout counts_layout (reader_cursor self.old) (log_of self.old) }
        ensures all { self.new.at + length self.new.rest.now
            ≡ self.old.at + length self.old.rest.now }
    {
        let code_blocks = self.plain_u16()?;
        let data_blocks = self.data_count()?;
        let names = self.plain_u16()?;
        let reserved = self.reserved_u16()?;
        Ok(CountsRead {
            code_blocks,
            data_blocks,
            names,
            reserved,
        })
    }

    /// All data blocks, which are kept.
    #[tactic(auto, unfolding(flat_code::specs::Image::data_blocks_layout, crate::specs::Running::log_after, crate::specs::Least::with_faults), using(crate::proofs::RunLemmas::run_remembered))]
    fn data_blocks(&mut self, alloc: Global, count: u16) -> Result<(), Stop>
        requires { self.old.at + length self.old.rest.now < 2 ^ 32 }
        ensures read { IsDataBlocksRun result self.new (run_layout (data_blocks_layout count)
            (reader_cursor self.old) (log_of self.old)) }
        ensures all { OnOk result (self.new.at + length self.new.rest.now
            ≡ self.old.at + length self.old.rest.now) }
    {
        let blocks = self.plain_data_blocks(alloc, count)?;
        self.datas = Some(blocks);
        Ok(())
    }

    /// All records behind the total length. The blocks are kept.
    fn records(&mut self, alloc: Global) -> Result<Vec<NameRead>, Stop>
        requires { self.old.at + length self.old.rest.now + 2000 < 2 ^ 32 }
        ensures read { IsRecordsRun
            (λ v. v.items) result self.new (run_layout (records_layout true)
            (reader_cursor self.old) (log_of self.old)) }
        ensures all { OnOk result (self.new.at + length self.new.rest.now
            ≡ self.old.at + length self.old.rest.now) }
    {
        let counts = self.counts()?;
        self.code_blocks(alloc, counts.code_blocks)?;
        self.data_blocks(alloc, counts.data_blocks)?;
        let names = self.names(alloc, counts.names)?;
        Ok(names)
    }

    #[tactic(auto, unfolding(flat_code::specs::Image::front_layout, flat_code::specs::Image::front_rows), using(crate::proofs::RunLemmas::run_seen, crate::proofs::RunLemmas::run_chain))]
    fn front(&mut self) -> Result<FrontRead, ReadingEnd>
        requires { self.old.at ≡ 0 }
        ensures read { reader_run front_values result self.new
            ≡ run_layout front_layout (reader_cursor self.old) (log_of self.old) }
        ensures all { self.new.at + length self.new.rest.now
            ≡ self.old.at + length self.old.rest.now }
        ensures at { IfOk result (λ f. self.new.at ≡ 12) }
    {
        let magic = self.magic()?;
        let version = self.version()?;
        let profile = self.profile(version)?;
        let total_length = self.plain_u32()?;
        Ok(FrontRead {
            magic,
            version,
            profile,
            total_length,
        })
    }

    /// What stands behind the total length of an image of so many bytes.
    fn rest_of_image(
        &mut self,
        alloc: Global,
        stamp: Stamp,
        size: usize,
        total: u32,
    ) -> Result<FoundRead, Stop>
        requires place { self.old.at ≡ 12 }
        requires all { 12 + length self.old.rest.now ≡ size }
        requires low { 20 ≤ total }
        requires there { total ≤ size }
        requires high { total ≤ 8388608 }
        ensures { IsImageRun result self.new (run_of_read (read_cut_off true stamp size total
            (reader_cursor self.old)) (log_of self.old)) }
    {
        self.note_if(size != total as usize, total, 10);
        self.rest = up_to(self.rest, total as usize - 12);
        let names = self.records(alloc)?;
        self.note_if(!self.rest.is_empty(), self.at, 10);
        Ok(FoundRead { stamp, names })
    }

    /// An image. Its stamp and its names are answered, the blocks are kept.
    pub(crate) fn image(&mut self, alloc: Global) -> Result<FoundRead, Stop>
        requires { self.old.at ≡ 0 }
        ensures { IsImageRun result self.new (run_of_read
            (read_image self.old.rest.now) (log_of self.old)) }
    {
        let size = self.rest.len();
        let front = self.front()?;
        if front.total_length < 20 {
            self.note_if(true, 8, 3);
            return Err(Stop::AtFault);
        }
        if size < front.total_length as usize {
            self.note_if(true, 8, 3);
            return Err(Stop::AtFault);
        }
        if front.total_length > 8_388_608 {
            self.note_if(true, 8, 4);
            return Err(Stop::AtFault);
        }
        let stamp = Stamp::of(front.version, front.profile);
        self.rest_of_image(alloc, stamp, size, front.total_length)
    }

    /// Notes a fault where there is one.
    #[tactic(auto, unfolding(crate::specs::Least::with_faults, crate::specs::Running::log_after))]
    fn note_if(&mut self, faulty: bool, at: u32, code: u16)
        ensures log { log_of self.new
            ≡ log_after (log_of self.old) (if faulty then Faulty at code ∷ [] else []) }
        ensures at { self.new.at ≡ self.old.at }
        ensures rest { self.new.rest.now ≡ self.old.rest.now }
    {
        if faulty {
            self.note(at, code);
        }
    }
}
