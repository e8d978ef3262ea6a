use crate::declarations::{Declarations, Simple, TypeTree};
use crate::literals::Literal;
use crate::names::{BlockName, Name};
use crate::sequences::Sequence;
use crate::statements::Statement;
use plc_base::BlockKind;

/// A source: its blocks in the order of the text.
#[derive(Drop)]
pub struct Tree {
    pub blocks: Sequence<Block>,
}

/// A block of the source.
#[derive(Drop)]
pub struct Block {
    /// The line of the head.
    pub line: u32,
    /// The line of the END clause.
    pub end_line: u32,
    pub kind: BlockKind,
    pub name: BlockName,
    /// The type of the return value of a function, `None` for `VOID` and for every other block.
    pub result: Option<Simple>,
    /// The declaration sections, in their order.
    pub parts: Sequence<Part>,
    /// The type of a data block or of a `TYPE` block.
    pub shape: Option<TypeTree>,
    /// The declarations of a shape that is a structure.
    pub components: Declarations,
    /// The function block of an instance data block.
    pub instance_of: Option<BlockName>,
    /// The values that the BEGIN part of a data block sets.
    pub settings: Sequence<Setting>,
    /// The statements, the first one first.
    pub body: Sequence<Statement>,
}

/// The kind of a declaration section.
#[derive(Clone, Copy, Debug, PartialEq, Eq)]
pub enum PartKind {
    /// `VAR_INPUT`.
    Input,
    /// `VAR_OUTPUT`.
    Output,
    /// `VAR_IN_OUT`.
    InOut,
    /// `VAR`.
    Static,
    /// `VAR_TEMP`.
    Temp,
}

/// A declaration section, from its `VAR..` to its `END_VAR`.
#[derive(Drop)]
pub struct Part {
    /// The line of the `VAR..` that opens the section.
    pub line: u32,
    pub kind: PartKind,
    /// The declarations of the section.
    pub items: Declarations,
}

/// A step of a path.
#[derive(Drop)]
pub enum PathStep {
    /// A component by its name.
    Named { name: Name },
    /// An element of an array by its index.
    Index { at: i32 },
}

/// `path := value;` in the BEGIN part of a data block.
#[derive(Drop)]
pub struct Setting {
    pub line: u32,
    pub path: Sequence<PathStep>,
    pub value: Literal,
}
