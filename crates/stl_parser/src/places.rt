ghost use Rattle.std.specs.Prelude.{◌≡◌};
ghost use Rattle.stl_parser.specs.Clauses.{
  in_head,
  in_data_head,
  is_outer,
  level_at,
  takes_parameters,
};

use plc_base::BlockKind;
use stl_ast::PartKind;

/// Where a clause stands: what is open. `level` counts the structures that are open in a section,
/// or inside the structure of a data block or of a `TYPE` block.
#[derive(Clone, Copy)]
pub enum ClausePlace {
    /// Between blocks.
    Outside,
    /// Behind the first clause of a block.
    Head {
        kind: BlockKind,
    },
    /// In a declaration section.
    Section {
        kind: BlockKind,
        part: PartKind,
        level: u32,
    },
    /// Behind a declaration section, the last one so far.
    Between {
        kind: BlockKind,
        last: PartKind,
    },
    /// In the structure of a data block or of a `TYPE` block.
    Shape {
        kind: BlockKind,
        level: u32,
    },
    /// Behind the structure of a data block or of a `TYPE` block, or behind the name of what a data
    /// block is based on.
    Shaped {
        kind: BlockKind,
    },
    /// In the body of a block.
    Body {
        kind: BlockKind,
    },
    /// In the BEGIN part of a data block.
    Settings,
}

/// Whether the place is in the head of a block.
pub(crate) fn in_head(at: ClausePlace) -> bool
    ensures { result ≡ in_head at }
{
    matches!(at, ClausePlace::Head { kind: _ })
}

/// Whether the place is in the head of a data block.
pub(crate) fn in_data_head(at: ClausePlace) -> bool
    ensures { result ≡ in_data_head at }
{
    match at {
        ClausePlace::Head { kind } => matches!(kind, BlockKind::Db),
        _ => false,
    }
}

/// Whether the place is outside of sections, structures, bodies and settings.
pub(crate) fn is_outer(at: ClausePlace) -> bool
    ensures { result ≡ is_outer at }
{
    match at {
        ClausePlace::Outside
        | ClausePlace::Head { kind: _ }
        | ClausePlace::Between { kind: _, last: _ }
        | ClausePlace::Shaped { kind: _ } => true,
        _ => false,
    }
}

/// How many structures are open at a place; the one that is the type of a block isn't counted.
pub(crate) fn level_at(at: ClausePlace) -> u32
    ensures { result ≡ level_at at }
{
    match at {
        ClausePlace::Section {
            kind: _,
            part: _,
            level,
        } => level,
        ClausePlace::Shape { kind: _, level } => level,
        _ => 0,
    }
}

/// Whether the parameters of a block are declared here.
pub(crate) fn takes_parameters(at: ClausePlace) -> bool
    ensures { result ≡ takes_parameters at }
{
    match at {
        ClausePlace::Section {
            kind: _,
            part,
            level: _,
        } => { matches!(part, PartKind::Input | PartKind::Output | PartKind::InOut) }
        _ => false,
    }
}
