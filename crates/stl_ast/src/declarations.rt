use crate::literals::Literal;
use crate::names::{BlockName, Name};
use crate::sequences::Sequence;
use std::marker::Model;

/// An elementary data type (manual: elementary data types).
#[derive(Clone, Copy, Debug, PartialEq, Eq)]
pub enum Simple {
    Bool,
    Byte,
    Char,
    Word,
    Int,
    S5time,
    Dword,
    Dint,
    Time,
}

/// The bounds of an array, `[low .. high]`.
#[derive(Clone, Copy, Debug, PartialEq, Eq)]
pub struct Bounds {
    pub low: i32,
    pub high: i32,
}

/// What a declaration or an array holds.
#[derive(Drop)]
pub enum ElementType {
    /// An elementary type.
    Plain { kind: Simple },
    /// A structure; its components are the declarations behind it that stand one level deeper.
    Structure,
    /// A user-defined data type.
    Udt { name: BlockName },
    /// `DATE_AND_TIME`.
    DateAndTime,
}

/// A type: an element type, or arrays of it.
#[derive(Drop)]
pub struct TypeTree {
    /// The bounds of the arrays, the outermost first; none for a type that is no array.
    pub arrays: Sequence<Bounds>,
    /// The type of the elements, or of what is no array.
    pub of: ElementType,
}

/// An initial value, `value` or `count (value)`.
#[derive(Drop)]
pub struct Init {
    /// How many elements the value stands for, where it is written with a count.
    pub count: Option<u16>,
    pub value: Literal,
}

/// A declared name.
#[derive(Drop)]
pub struct Declaration {
    pub line: u32,
    pub name: Name,
    /// How many structures of its list are open around it.
    pub level: u32,
    /// The type of the declared name.
    pub of: TypeTree,
    /// The initial values of the declared name; empty where there is none.
    pub init: Sequence<Init>,
}

/// The declarations of a section or of a structure, in the order of the text, with those of inner
/// structures: each stands at a level that the one before it leaves open.
#[derive(Drop)]
pub struct Declarations {
    items: Vec<Declaration>,
}

impl Model for Declarations {
    ghost use Rattle.std.specs.Prelude.{List};
    ghost use Rattle.stl_ast.specs.declared.declarations.Declaration.{Declaration};

    ghost Value = { List Declaration };

    ghost use Rattle.stl_ast.specs.Outline.{IsOutline};

    ghost view = { λ d. d.items.items };

    ghost invariant = { λ d. IsOutline 0 d.items.items };
}

impl Declarations {
    ghost use Rattle.std.specs.Prelude.{◌≡◌, length};
    ghost use Rattle.stl_ast.specs.Outline.{IsOutline};

    /// The list of these declarations.
    pub fn from_vec(items: Vec<Declaration>) -> Self
        requires { IsOutline 0 items.items }
        ensures { result ≡ items.items }
    {
        Declarations { items }
    }

    /// The declarations as a `Vec`.
    pub fn into_vec(self) -> Vec<Declaration>
        ensures items { result.items ≡ self }
        ensures outline { IsOutline 0 self }
    {
        let Declarations { items } = self;
        items
    }

    /// The declarations as a slice.
    pub fn as_slice(&self) -> &[Declaration]
        ensures items { result.now ≡ self.now }
        ensures outline { IsOutline 0 self.now }
    {
        self.items.as_slice()
    }
}
