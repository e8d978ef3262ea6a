ghost use Rattle.std.specs.Prelude.{◌≡◌, ◌≤◌};
ghost use Rattle.plc_base.specs.AreaBytes.{is_peripheral_byte};
ghost use Rattle.plc_base.specs.Pointer.{area_number, area_numbered};
ghost use Rattle.plc_base.specs.Widths.{byte_count, bit_count, width_number};

/// The width of an operand: one bit, or one, two or four bytes.
#[derive(Clone, Copy, Debug, PartialEq, Eq)]
pub enum Width {
    Bit,
    Byte,
    Word,
    Dword,
}

impl Width {
    /// How many bytes an operand lies in; a bit lies in one.
    pub fn byte_count(self) -> usize
        ensures { result ≡ byte_count self }
    {
        match self {
            Width::Bit | Width::Byte => 1,
            Width::Word => 2,
            Width::Dword => 4,
        }
    }

    /// How many bits an operand has.
    pub fn bit_count(self) -> u32
        ensures { result ≡ bit_count self }
    {
        match self {
            Width::Bit => 1,
            Width::Byte => 8,
            Width::Word => 16,
            Width::Dword => 32,
        }
    }

    /// The number of the width: 1 bit, 2 byte, 3 word, 4 double word.
    pub fn number(self) -> u8
        ensures { result ≡ width_number self }
    {
        match self {
            Width::Bit => 1,
            Width::Byte => 2,
            Width::Word => 3,
            Width::Dword => 4,
        }
    }
}

/// A memory area: peripheral (`PI`, `PQ`), process image of the inputs and of the outputs, bit
/// memory, the data block in the DB register and in the DI register, local data.
#[derive(Clone, Copy, Debug, PartialEq, Eq)]
pub enum Area {
    P,
    I,
    Q,
    M,
    Db,
    Di,
    L,
}

impl Area {
    /// The number of the area in a pointer: 0 P, 1 I, 2 Q, 3 M, 4 DB, 5 DI, 6 L.
    pub fn number(self) -> u8
        ensures value { result ≡ area_number self }
        ensures below { result ≤ 6 }
    {
        match self {
            Area::P => 0,
            Area::I => 1,
            Area::Q => 2,
            Area::M => 3,
            Area::Db => 4,
            Area::Di => 5,
            Area::L => 6,
        }
    }

    /// The area of this number in a pointer. `None` exactly for a number above 6.
    pub fn from_number(number: u8) -> Option<Area>
        ensures { result ≡ area_numbered number }
    {
        match number {
            0 => Some(Area::P),
            1 => Some(Area::I),
            2 => Some(Area::Q),
            3 => Some(Area::M),
            4 => Some(Area::Db),
            5 => Some(Area::Di),
            6 => Some(Area::L),
            _ => None,
        }
    }
}

/// Whether there is a peripheral byte of this number: 0 to 127, and 256 to 767.
pub fn is_peripheral_byte(byte: u16) -> bool
    ensures { result ≡ is_peripheral_byte byte }
{
    byte < 128 || (byte >= 256 && byte < 768)
}

/// A place in memory. `number` is that of a data block, else 0; `bit` is 0 to 7 where a bit is
/// meant.
#[derive(Clone, Copy, Debug, PartialEq, Eq)]
pub struct Place {
    pub number: u16,
    pub byte: u16,
    pub area: Area,
    pub bit: u8,
}

// Operands hold many of them: no byte of one is padding.
const _: () = prove!(size_of::<Place>() == 6);
