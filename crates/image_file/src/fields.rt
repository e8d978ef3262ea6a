//! The fields of an image, each read and checked.
ghost use Rattle.std.specs.Prelude.{true, ◌≡◌, ◌+◌, ◌<◌, ◌^◌, length, min, OnOk};
ghost use Rattle.flat_code.specs.Image.{plain_u16, plain_u32, zero_u8, zero_u16, width_field, section_field, parameter_byte, parameter_bit, kind_field, parameter_count_layout, block_number_layout, local_length_layout, instance_bytes_layout, line_field, data_number_layout, instance_field, data_length_layout, name_len, name_area, name_bit, data_count, magic_field, version_field, profile_field};
ghost use Rattle.image_file.specs.Running.{reader_run, run_layout, reader_cursor, log_of};

use crate::reader::Reader;
use crate::stops::ReadingEnd;
use flat_code::Field;

impl Reader<'_> {
    #[tactic(auto, unfolding(flat_code::specs::Image::plain_u16))]
    pub(crate) fn plain_u16(&mut self) -> Result<u16, ReadingEnd>
        requires { self.old.at + length self.old.rest.now < 2 ^ 32 }
        ensures read { reader_run (λ n. n) result self.new
            ≡ run_layout plain_u16 (reader_cursor self.old) (log_of self.old) }
        ensures all { self.new.at + length self.new.rest.now
            ≡ self.old.at + length self.old.rest.now }
        ensures step { OnOk result (self.new.at ≡ self.old.at + 2) }
    {
        let number = self.u16()?;
        Ok(number)
    }

    #[tactic(auto, unfolding(flat_code::specs::Image::plain_u32))]
    pub(crate) fn plain_u32(&mut self) -> Result<u32, ReadingEnd>
        requires { self.old.at + min 4 (length self.old.rest.now) < 2 ^ 32 }
        ensures read { reader_run (λ n. n) result self.new
            ≡ run_layout plain_u32 (reader_cursor self.old) (log_of self.old) }
        ensures all { self.new.at + length self.new.rest.now
            ≡ self.old.at + length self.old.rest.now }
        ensures step { OnOk result (self.new.at ≡ self.old.at + 4) }
    {
        let number = self.u32()?;
        Ok(number)
    }

    #[tactic(auto, unfolding(crate::specs::Running::run_layout, crate::specs::Running::log_after, crate::specs::Least::with_faults, flat_code::specs::Image::zero_u8))]
    pub(crate) fn reserved_u8(&mut self) -> Result<u8, ReadingEnd>
        requires { self.old.at + length self.old.rest.now < 2 ^ 32 }
        ensures read { reader_run (λ n. n) result self.new
            ≡ run_layout zero_u8 (reader_cursor self.old) (log_of self.old) }
        ensures all { self.new.at + length self.new.rest.now
            ≡ self.old.at + length self.old.rest.now }
        ensures step { OnOk result (self.new.at ≡ self.old.at + 1) }
    {
        let at = self.at;
        let number = self.u8()?;
        self.check(
            at,
            Field::Reserved {
                number: u16::from(number),
            },
        );
        Ok(number)
    }

    #[tactic(auto, unfolding(crate::specs::Running::run_layout, crate::specs::Running::log_after, crate::specs::Least::with_faults, flat_code::specs::Image::zero_u16))]
    pub(crate) fn reserved_u16(&mut self) -> Result<u16, ReadingEnd>
        requires { self.old.at + min 4 (length self.old.rest.now) < 2 ^ 32 }
        ensures read { reader_run (λ n. n) result self.new
            ≡ run_layout zero_u16 (reader_cursor self.old) (log_of self.old) }
        ensures all { self.new.at + length self.new.rest.now
            ≡ self.old.at + length self.old.rest.now }
        ensures step { OnOk result (self.new.at ≡ self.old.at + 2) }
    {
        let at = self.at;
        let number = self.u16()?;
        self.check(at, Field::Reserved { number });
        Ok(number)
    }

    #[tactic(auto, unfolding(crate::specs::Running::run_layout, crate::specs::Running::log_after, crate::specs::Least::with_faults, flat_code::specs::Image::width_field))]
    pub(crate) fn width(&mut self) -> Result<u8, ReadingEnd>
        requires { self.old.at + length self.old.rest.now < 2 ^ 32 }
        ensures read { reader_run (λ n. n) result self.new
            ≡ run_layout width_field (reader_cursor self.old) (log_of self.old) }
        ensures all { self.new.at + length self.new.rest.now
            ≡ self.old.at + length self.old.rest.now }
        ensures step { OnOk result (self.new.at ≡ self.old.at + 1) }
    {
        let at = self.at;
        let number = self.u8()?;
        self.check(at, Field::Width { width: number });
        Ok(number)
    }

    #[tactic(auto, unfolding(crate::specs::Running::run_layout, crate::specs::Running::log_after, crate::specs::Least::with_faults, flat_code::specs::Image::section_field))]
    pub(crate) fn section(&mut self) -> Result<u8, ReadingEnd>
        requires { self.old.at + length self.old.rest.now < 2 ^ 32 }
        ensures read { reader_run (λ n. n) result self.new
            ≡ run_layout section_field (reader_cursor self.old) (log_of self.old) }
        ensures all { self.new.at + length self.new.rest.now
            ≡ self.old.at + length self.old.rest.now }
        ensures step { OnOk result (self.new.at ≡ self.old.at + 1) }
    {
        let at = self.at;
        let number = self.u8()?;
        self.check(at, Field::Section { section: number });
        Ok(number)
    }

    #[tactic(auto, unfolding(crate::specs::Running::run_layout, crate::specs::Running::log_after, crate::specs::Least::with_faults, flat_code::specs::Image::parameter_byte))]
    pub(crate) fn parameter_byte(
        &mut self,
        kind: u8,
        instance: u16,
        width: u8,
    ) -> Result<u16, ReadingEnd>
        requires { self.old.at + length self.old.rest.now < 2 ^ 32 }
        ensures read { reader_run (λ n. n) result self.new
            ≡ run_layout (parameter_byte kind instance width)
            (reader_cursor self.old) (log_of self.old) }
        ensures all { self.new.at + length self.new.rest.now
            ≡ self.old.at + length self.old.rest.now }
        ensures step { OnOk result (self.new.at ≡ self.old.at + 2) }
    {
        let at = self.at;
        let number = self.u16()?;
        self.check(
            at,
            Field::ParameterByte {
                kind,
                instance,
                width,
                byte: number,
            },
        );
        Ok(number)
    }

    #[tactic(auto, unfolding(crate::specs::Running::run_layout, crate::specs::Running::log_after, crate::specs::Least::with_faults, flat_code::specs::Image::parameter_bit))]
    pub(crate) fn parameter_bit(&mut self, kind: u8) -> Result<u8, ReadingEnd>
        requires { self.old.at + length self.old.rest.now < 2 ^ 32 }
        ensures read { reader_run (λ n. n) result self.new
            ≡ run_layout (parameter_bit kind) (reader_cursor self.old) (log_of self.old) }
        ensures all { self.new.at + length self.new.rest.now
            ≡ self.old.at + length self.old.rest.now }
        ensures step { OnOk result (self.new.at ≡ self.old.at + 1) }
    {
        let at = self.at;
        let number = self.u8()?;
        self.check(at, Field::ParameterBit { kind, bit: number });
        Ok(number)
    }

    #[tactic(auto, unfolding(crate::specs::Running::run_layout, crate::specs::Running::log_after, crate::specs::Least::with_faults, flat_code::specs::Image::kind_field))]
    pub(crate) fn kind(&mut self, before: u8) -> Result<u8, ReadingEnd>
        requires { self.old.at + length self.old.rest.now < 2 ^ 32 }
        ensures read { reader_run (λ n. n) result self.new
            ≡ run_layout (kind_field before) (reader_cursor self.old) (log_of self.old) }
        ensures all { self.new.at + length self.new.rest.now
            ≡ self.old.at + length self.old.rest.now }
        ensures step { OnOk result (self.new.at ≡ self.old.at + 1) }
    {
        let at = self.at;
        let number = self.u8()?;
        self.check(
            at,
            Field::Kind {
                before,
                kind: number,
            },
        );
        Ok(number)
    }

    #[tactic(auto, unfolding(crate::specs::Running::run_layout, crate::specs::Running::log_after, crate::specs::Least::with_faults, flat_code::specs::Image::parameter_count_layout))]
    pub(crate) fn parameter_count(&mut self, kind: u8) -> Result<u8, ReadingEnd>
        requires { self.old.at + length self.old.rest.now < 2 ^ 32 }
        ensures read { reader_run (λ n. n) result self.new
            ≡ run_layout (parameter_count_layout kind) (reader_cursor self.old)
            (log_of self.old) }
        ensures all { self.new.at + length self.new.rest.now
            ≡ self.old.at + length self.old.rest.now }
        ensures step { OnOk result (self.new.at ≡ self.old.at + 1) }
    {
        let at = self.at;
        let number = self.u8()?;
        self.check(
            at,
            Field::ParameterCount {
                kind,
                count: number,
            },
        );
        Ok(number)
    }

    #[tactic(auto, unfolding(crate::specs::Running::run_layout, crate::specs::Running::log_after, crate::specs::Least::with_faults, flat_code::specs::Image::block_number_layout))]
    pub(crate) fn block_number(
        &mut self,
        kind_before: u8,
        before: u16,
        kind: u8,
    ) -> Result<u16, ReadingEnd>
        requires { self.old.at + length self.old.rest.now < 2 ^ 32 }
        ensures read { reader_run (λ n. n) result self.new
            ≡ run_layout (block_number_layout kind_before before kind)
            (reader_cursor self.old) (log_of self.old) }
        ensures all { self.new.at + length self.new.rest.now
            ≡ self.old.at + length self.old.rest.now }
        ensures step { OnOk result (self.new.at ≡ self.old.at + 2) }
    {
        let at = self.at;
        let number = self.u16()?;
        self.check(
            at,
            Field::Number {
                kind_before,
                before,
                kind,
                number,
            },
        );
        Ok(number)
    }

    #[tactic(auto, unfolding(crate::specs::Running::run_layout, crate::specs::Running::log_after, crate::specs::Least::with_faults, flat_code::specs::Image::local_length_layout))]
    pub(crate) fn local_bytes(&mut self, kind: u8) -> Result<u16, ReadingEnd>
        requires { self.old.at + length self.old.rest.now < 2 ^ 32 }
        ensures read { reader_run (λ n. n) result self.new
            ≡ run_layout (local_length_layout kind) (reader_cursor self.old) (log_of self.old) }
        ensures all { self.new.at + length self.new.rest.now
            ≡ self.old.at + length self.old.rest.now }
        ensures step { OnOk result (self.new.at ≡ self.old.at + 2) }
    {
        let at = self.at;
        let number = self.u16()?;
        self.check(
            at,
            Field::LocalBytes {
                kind,
                bytes: number,
            },
        );
        Ok(number)
    }

    #[tactic(auto, unfolding(crate::specs::Running::run_layout, crate::specs::Running::log_after, crate::specs::Least::with_faults, flat_code::specs::Image::instance_bytes_layout))]
    pub(crate) fn instance_bytes(&mut self, kind: u8) -> Result<u16, ReadingEnd>
        requires { self.old.at + length self.old.rest.now < 2 ^ 32 }
        ensures read { reader_run (λ n. n) result self.new
            ≡ run_layout (instance_bytes_layout kind) (reader_cursor self.old) (log_of self.old) }
        ensures all { self.new.at + length self.new.rest.now
            ≡ self.old.at + length self.old.rest.now }
        ensures step { OnOk result (self.new.at ≡ self.old.at + 2) }
    {
        let at = self.at;
        let number = self.u16()?;
        self.check(
            at,
            Field::InstanceBytes {
                kind,
                bytes: number,
            },
        );
        Ok(number)
    }

    #[tactic(auto, unfolding(crate::specs::Running::run_layout, crate::specs::Running::log_after, crate::specs::Least::with_faults, flat_code::specs::Image::line_field))]
    pub(crate) fn line(&mut self, before: u32) -> Result<u32, ReadingEnd>
        requires { self.old.at + length self.old.rest.now < 2 ^ 32 }
        ensures read { reader_run (λ n. n) result self.new
            ≡ run_layout (line_field true before) (reader_cursor self.old) (log_of self.old) }
        ensures all { self.new.at + length self.new.rest.now
            ≡ self.old.at + length self.old.rest.now }
    {
        let at = self.at;
        let number = self.u32()?;
        self.check(
            at,
            Field::Line {
                before,
                line: number,
            },
        );
        Ok(number)
    }

    #[tactic(auto, unfolding(crate::specs::Running::run_layout, crate::specs::Running::log_after, crate::specs::Least::with_faults, flat_code::specs::Image::data_number_layout))]
    pub(crate) fn data_number(&mut self, before: u16) -> Result<u16, ReadingEnd>
        requires { self.old.at + length self.old.rest.now < 2 ^ 32 }
        ensures read { reader_run (λ n. n) result self.new
            ≡ run_layout (data_number_layout before) (reader_cursor self.old) (log_of self.old) }
        ensures all { self.new.at + length self.new.rest.now
            ≡ self.old.at + length self.old.rest.now }
    {
        let at = self.at;
        let number = self.u16()?;
        self.check(at, Field::DataNumber { before, number });
        Ok(number)
    }

    #[tactic(auto, unfolding(crate::specs::Running::run_layout, crate::specs::Running::log_after, crate::specs::Least::with_faults, flat_code::specs::Image::instance_field))]
    pub(crate) fn instance_of(&mut self) -> Result<u16, ReadingEnd>
        requires { self.old.at + length self.old.rest.now < 2 ^ 32 }
        ensures read { reader_run (λ n. n) result self.new
            ≡ run_layout instance_field (reader_cursor self.old) (log_of self.old) }
        ensures all { self.new.at + length self.new.rest.now
            ≡ self.old.at + length self.old.rest.now }
    {
        let at = self.at;
        let number = self.u16()?;
        self.check(at, Field::InstanceOf { number });
        Ok(number)
    }

    #[tactic(auto, unfolding(crate::specs::Running::run_layout, crate::specs::Running::log_after, crate::specs::Least::with_faults, flat_code::specs::Image::data_length_layout))]
    pub(crate) fn data_len(&mut self, before: u32) -> Result<u16, ReadingEnd>
        requires { self.old.at + length self.old.rest.now < 2 ^ 32 }
        ensures read { reader_run (λ n. n) result self.new
            ≡ run_layout (data_length_layout before) (reader_cursor self.old) (log_of self.old) }
        ensures all { self.new.at + length self.new.rest.now
            ≡ self.old.at + length self.old.rest.now }
    {
        let at = self.at;
        let number = self.u16()?;
        self.check(
            at,
            Field::DataBytes {
                before,
                bytes: number,
            },
        );
        Ok(number)
    }

    #[tactic(auto, unfolding(crate::specs::Running::run_layout, crate::specs::Running::log_after, crate::specs::Least::with_faults, flat_code::specs::Image::name_len))]
    pub(crate) fn name_len(&mut self) -> Result<u8, ReadingEnd>
        requires { self.old.at + length self.old.rest.now < 2 ^ 32 }
        ensures read { reader_run (λ n. n) result self.new
            ≡ run_layout name_len (reader_cursor self.old) (log_of self.old) }
        ensures all { self.new.at + length self.new.rest.now
            ≡ self.old.at + length self.old.rest.now }
    {
        let at = self.at;
        let number = self.u8()?;
        self.check(at, Field::NameLength { bytes: number });
        Ok(number)
    }

    #[tactic(auto, unfolding(crate::specs::Running::run_layout, crate::specs::Running::log_after, crate::specs::Least::with_faults, flat_code::specs::Image::name_area))]
    pub(crate) fn name_area(&mut self) -> Result<u8, ReadingEnd>
        requires { self.old.at + length self.old.rest.now < 2 ^ 32 }
        ensures read { reader_run (λ n. n) result self.new
            ≡ run_layout name_area (reader_cursor self.old) (log_of self.old) }
        ensures all { self.new.at + length self.new.rest.now
            ≡ self.old.at + length self.old.rest.now }
    {
        let at = self.at;
        let number = self.u8()?;
        self.check(at, Field::NameArea { area: number });
        Ok(number)
    }

    #[tactic(auto, unfolding(crate::specs::Running::run_layout, crate::specs::Running::log_after, crate::specs::Least::with_faults, flat_code::specs::Image::name_bit))]
    pub(crate) fn name_bit(&mut self, width: u8) -> Result<u8, ReadingEnd>
        requires { self.old.at + length self.old.rest.now < 2 ^ 32 }
        ensures read { reader_run (λ n. n) result self.new
            ≡ run_layout (name_bit width) (reader_cursor self.old) (log_of self.old) }
        ensures all { self.new.at + length self.new.rest.now
            ≡ self.old.at + length self.old.rest.now }
    {
        let at = self.at;
        let number = self.u8()?;
        self.check(at, Field::NameBit { width, bit: number });
        Ok(number)
    }

    #[tactic(auto, unfolding(crate::specs::Running::run_layout, crate::specs::Running::log_after, crate::specs::Least::with_faults, flat_code::specs::Image::data_count))]
    pub(crate) fn data_count(&mut self) -> Result<u16, ReadingEnd>
        requires { self.old.at + length self.old.rest.now < 2 ^ 32 }
        ensures read { reader_run (λ n. n) result self.new
            ≡ run_layout data_count (reader_cursor self.old) (log_of self.old) }
        ensures all { self.new.at + length self.new.rest.now
            ≡ self.old.at + length self.old.rest.now }
    {
        let at = self.at;
        let number = self.u16()?;
        self.check(at, Field::DataBlockCount { count: number });
        Ok(number)
    }

    #[tactic(auto, unfolding(crate::specs::Running::run_layout, crate::specs::Running::log_after, crate::specs::Least::with_faults, flat_code::specs::Image::magic_field))]
    pub(crate) fn magic(&mut self) -> Result<u32, ReadingEnd>
        requires { self.old.at + min 4 (length self.old.rest.now) < 2 ^ 32 }
        ensures read { reader_run (λ n. n) result self.new
            ≡ run_layout magic_field (reader_cursor self.old) (log_of self.old) }
        ensures all { self.new.at + length self.new.rest.now
            ≡ self.old.at + length self.old.rest.now }
        ensures step { OnOk result (self.new.at ≡ self.old.at + 4) }
    {
        let at = self.at;
        let number = self.u32()?;
        self.check(at, Field::Magic { number });
        Ok(number)
    }

    #[tactic(auto, unfolding(crate::specs::Running::run_layout, crate::specs::Running::log_after, crate::specs::Least::with_faults, flat_code::specs::Image::version_field))]
    pub(crate) fn version(&mut self) -> Result<u16, ReadingEnd>
        requires { self.old.at + min 4 (length self.old.rest.now) < 2 ^ 32 }
        ensures read { reader_run (λ n. n) result self.new
            ≡ run_layout version_field (reader_cursor self.old) (log_of self.old) }
        ensures all { self.new.at + length self.new.rest.now
            ≡ self.old.at + length self.old.rest.now }
        ensures step { OnOk result (self.new.at ≡ self.old.at + 2) }
    {
        let at = self.at;
        let number = self.u16()?;
        self.check(at, Field::Version { number });
        Ok(number)
    }

    #[tactic(auto, unfolding(crate::specs::Running::run_layout, crate::specs::Running::log_after, crate::specs::Least::with_faults, flat_code::specs::Image::profile_field))]
    pub(crate) fn profile(&mut self, version: u16) -> Result<u16, ReadingEnd>
        requires { self.old.at + min 4 (length self.old.rest.now) < 2 ^ 32 }
        ensures read { reader_run (λ n. n) result self.new
            ≡ run_layout (profile_field version) (reader_cursor self.old) (log_of self.old) }
        ensures all { self.new.at + length self.new.rest.now
            ≡ self.old.at + length self.old.rest.now }
        ensures step { OnOk result (self.new.at ≡ self.old.at + 2) }
    {
        let at = self.at;
        let number = self.u16()?;
        self.check(at, Field::Profile { version, number });
        Ok(number)
    }
}
