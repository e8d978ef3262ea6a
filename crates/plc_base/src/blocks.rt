ghost use Rattle.std.specs.Prelude.{◌≡◌};
ghost use Rattle.plc_base.specs.Kinds.{is_code, is_function_block, is_data_block, is_data_type, is_system_function, is_callable, is_same_kind, kind_number, kind_order};

/// The kind of a block (manual: organization block, function, function block, data block, system
/// function, user-defined data type).
#[derive(Clone, Copy, Debug, PartialEq, Eq)]
pub enum BlockKind {
    Ob,
    Fc,
    Fb,
    Db,
    Sfc,
    Udt,
}

impl BlockKind {
    /// Whether it is the kind of a code block: an organization block, a function, a function block.
    pub fn is_code(self) -> bool
        ensures { result ≡ is_code self }
    {
        matches!(self, BlockKind::Ob | BlockKind::Fc | BlockKind::Fb)
    }

    pub fn is_function_block(self) -> bool
        ensures { result ≡ is_function_block self }
    {
        matches!(self, BlockKind::Fb)
    }

    pub fn is_data_block(self) -> bool
        ensures { result ≡ is_data_block self }
    {
        matches!(self, BlockKind::Db)
    }

    /// Whether it is the kind of user-defined data types.
    pub fn is_data_type(self) -> bool
        ensures { result ≡ is_data_type self }
    {
        matches!(self, BlockKind::Udt)
    }

    pub fn is_system_function(self) -> bool
        ensures { result ≡ is_system_function self }
    {
        matches!(self, BlockKind::Sfc)
    }

    /// Whether blocks of the kind can be called.
    pub fn is_callable(self) -> bool
        ensures { result ≡ is_callable self }
    {
        matches!(self, BlockKind::Fc | BlockKind::Fb | BlockKind::Sfc)
    }

    /// Whether two kinds are the same.
    pub fn is_same_kind(self, other: BlockKind) -> bool
        ensures { result ≡ is_same_kind self other }
    {
        match self {
            BlockKind::Ob => matches!(other, BlockKind::Ob),
            BlockKind::Fc => matches!(other, BlockKind::Fc),
            BlockKind::Fb => matches!(other, BlockKind::Fb),
            BlockKind::Db => matches!(other, BlockKind::Db),
            BlockKind::Sfc => matches!(other, BlockKind::Sfc),
            BlockKind::Udt => matches!(other, BlockKind::Udt),
        }
    }

    /// The number of a kind of code in images and in start information: 1 OB, 2 FC, 3 FB, 5 SFC; 0
    /// for the others.
    pub fn number(self) -> u8
        ensures { result ≡ kind_number self }
    {
        match self {
            BlockKind::Ob => 1,
            BlockKind::Fc => 2,
            BlockKind::Fb => 3,
            BlockKind::Sfc => 5,
            BlockKind::Db | BlockKind::Udt => 0,
        }
    }

    /// The place of the kind in the order of kinds, from 0 on: OB, FC, FB, DB, SFC, UDT.
    pub fn order(self) -> u8
        ensures { result ≡ kind_order self }
    {
        match self {
            BlockKind::Ob => 0,
            BlockKind::Fc => 1,
            BlockKind::Fb => 2,
            BlockKind::Db => 3,
            BlockKind::Sfc => 4,
            BlockKind::Udt => 5,
        }
    }
}

/// A block by kind and number, as `OB 1` or `DB 10`.
#[derive(Clone, Copy, Debug, PartialEq, Eq)]
pub struct BlockId {
    pub kind: BlockKind,
    pub number: u16,
}
