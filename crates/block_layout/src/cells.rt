use stl_ast::{Bounds, Name, PartKind, Sequence, Simple};

/// What a cell holds, or each element of its array. `block` is the place of a `TYPE` block in the
/// source, counted from 0, and `bits` is its size; `Unknown` is a data type that the source hasn't.
#[derive(Clone, Copy, Debug, PartialEq, Eq)]
pub enum Element {
    Plain { kind: Simple },
    Structure,
    DateAndTime,
    Udt { block: usize, bits: u64 },
    Unknown,
}

/// An initial value, as the bits of the type, for so many elements one behind the other.
#[derive(Clone, Copy, Debug, PartialEq, Eq)]
pub struct Preset {
    pub count: u16,
    pub value: u32,
}

/// A declaration as the layout sees it. `name` is in upper case; `level` says in how many
/// structures it stands; `opens` says that it is the first of its section; an unsound cell breaks a
/// rule of declarations, stands in one that does, or is of a data type that does, and takes no
/// place.
#[derive(Drop)]
pub struct Cell {
    pub name: Name,
    pub section: PartKind,
    pub level: u32,
    pub opens: bool,
    pub sound: bool,
    pub bounds: Sequence<Bounds>,
    pub of: Element,
    pub presets: Sequence<Preset>,
}

/// Sizes and offsets from here on count as this one, in bits: 256 MiB, far above each limit.
pub(crate) const LARGEST: u64 = 2_147_483_648;
