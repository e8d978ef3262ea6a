ghost use Rattle.std.specs.Prelude.{◌≡◌, ◌<◌};
ghost use Rattle.stl_ast.specs.Outline.{level_behind};
ghost use Rattle.stl_ast.specs.Blocks as blocks;
ghost use Rattle.stl_parser.specs.Clauses.{level_at};
ghost use Rattle.stl_parser.specs.Frame as frame;

use crate::clauses::Clause;
use crate::places::ClausePlace;
use plc_base::BlockKind;
use stl_ast::{Bounds, Declaration, ElementType, Init, PartKind};

/// Whether a block of this kind has a structure.
fn has_shape(kind: BlockKind) -> bool
    ensures { result ≡ blocks.has_shape kind }
{
    matches!(kind, BlockKind::Db | BlockKind::Udt)
}

/// The place of a section among those of a block.
fn part_rank(part: PartKind) -> u8
    ensures { result ≡ blocks.part_rank part }
{
    match part {
        PartKind::Input => 0,
        PartKind::Output => 1,
        PartKind::InOut => 2,
        PartKind::Static => 3,
        PartKind::Temp => 4,
    }
}

/// Whether a block of this kind has such a section: an organization block VAR_TEMP alone, a
/// function all but VAR.
#[tactic(auto, unfolding(stl_ast::specs::Blocks::may_have_section))]
fn may_have(kind: BlockKind, part: PartKind) -> bool
    ensures { result ≡ blocks.may_have_section kind part }
{
    match kind {
        BlockKind::Ob => part_rank(part) == part_rank(PartKind::Temp),
        BlockKind::Fc => part_rank(part) != part_rank(PartKind::Static),
        BlockKind::Fb => true,
        _ => false,
    }
}

/// Whether there are no initial values.
fn has_no_init(init: &[Init]) -> bool
    ensures { result ≡ blocks.has_no_init init.now }
{
    match init {
        [] => true,
        [_, ..] => false,
    }
}

/// Whether this is DATE_AND_TIME, as a type or as the elements of an array.
fn is_date_and_time(of: &ElementType) -> bool
    ensures { result ≡ blocks.is_date_and_time of.now }
{
    matches!(of, ElementType::DateAndTime)
}

/// Whether a type is no array.
fn is_single(arrays: &[Bounds]) -> bool
    ensures { result ≡ blocks.has_no_bounds arrays.now }
{
    match arrays {
        [] => true,
        [_, ..] => false,
    }
}

/// Whether initial values may stand in this section: in those of a function block but VAR_TEMP.
#[tactic(auto, unfolding(stl_ast::specs::Blocks::may_have_init))]
fn may_init(kind: BlockKind, part: PartKind) -> bool
    ensures { result ≡ blocks.may_have_init kind part }
{
    match kind {
        BlockKind::Fb => !matches!(part, PartKind::Temp),
        _ => false,
    }
}

/// Whether DATE_AND_TIME may stand here: directly in VAR_TEMP, in no array and no structure.
#[tactic(auto, unfolding(stl_ast::specs::Blocks::may_have_date_and_time))]
fn may_date(part: PartKind, level: u32, arrays: &[Bounds]) -> bool
    ensures { result ≡ blocks.may_have_date_and_time part level arrays.now }
{
    match part {
        PartKind::Temp => level == 0 && is_single(arrays),
        _ => false,
    }
}

/// Whether a declaration may stand in this section, inside so many structures.
#[tactic(auto, unfolding(stl_ast::specs::Blocks::may_declare))]
fn may_declare(kind: BlockKind, part: PartKind, level: u32, declaration: &Declaration) -> bool
    ensures { result ≡ blocks.may_declare kind part level declaration.now }
{
    (has_no_init(declaration.init.as_slice()) || may_init(kind, part))
        && (!is_date_and_time(&declaration.of.of)
            || may_date(part, level, declaration.of.arrays.as_slice()))
}

/// The level behind a declaration.
fn level_behind(level: u32, of: &ElementType) -> u32
    requires { level < 4294967295 }
    ensures { result ≡ level_behind level of.now }
{
    match of {
        ElementType::Structure => level + 1,
        _ => level,
    }
}

/// Where the clauses behind an END_STRUCT stand, in a section.
fn section_behind(kind: BlockKind, part: PartKind, level: u32) -> Option<ClausePlace>
    ensures { result ≡ frame.section_behind kind part level }
{
    if level == 0 {
        None
    } else {
        Some(ClausePlace::Section {
            kind,
            part,
            level: level - 1,
        })
    }
}

/// Where the clauses behind an END_STRUCT stand, in a data block or a `TYPE` block.
fn shape_behind(kind: BlockKind, level: u32) -> Option<ClausePlace>
    ensures { result ≡ frame.shape_behind kind level }
{
    if level == 0 {
        Some(ClausePlace::Shaped { kind })
    } else {
        Some(ClausePlace::Shape {
            kind,
            level: level - 1,
        })
    }
}

/// The place behind a clause in the head of a block, or none where it may not stand there.
#[tactic(auto, unfolding(crate::specs::Frame::next_place_in_head))]
fn follow_head(kind: BlockKind, clause: &Clause) -> Option<ClausePlace>
    ensures { result ≡ frame.next_place_in_head kind clause.now }
{
    match clause {
        Clause::Note => Some(ClausePlace::Head { kind }),
        Clause::Title => Some(ClausePlace::Head { kind }),
        Clause::Section {
            line: _,
            kind: part,
        } => {
            if may_have(kind, *part) {
                Some(ClausePlace::Section {
                    kind,
                    part: *part,
                    level: 0,
                })
            } else {
                None
            }
        }
        Clause::Begins => {
            if kind.is_code() {
                Some(ClausePlace::Body { kind })
            } else {
                None
            }
        }
        Clause::Structure => {
            if has_shape(kind) {
                Some(ClausePlace::Shape { kind, level: 0 })
            } else {
                None
            }
        }
        Clause::Based { name: _ } => {
            if kind.order() == BlockKind::Db.order() {
                Some(ClausePlace::Shaped { kind })
            } else {
                None
            }
        }
        _ => None,
    }
}

/// The place behind a clause in a section, or none where it may not stand there.
#[tactic(auto, unfolding(crate::specs::Frame::next_place_in_section))]
fn follow_section(
    kind: BlockKind,
    part: PartKind,
    level: u32,
    clause: &Clause,
) -> Option<ClausePlace>
    requires { level < 4294967295 }
    ensures { result ≡ frame.next_place_in_section kind part level clause.now }
{
    match clause {
        Clause::EndSection => {
            if level == 0 {
                Some(ClausePlace::Between { kind, last: part })
            } else {
                None
            }
        }
        Clause::Declares { declaration } => {
            if may_declare(kind, part, level, declaration) {
                let level = level_behind(level, &declaration.of.of);
                Some(ClausePlace::Section { kind, part, level })
            } else {
                None
            }
        }
        Clause::EndStructure => section_behind(kind, part, level),
        _ => None,
    }
}

/// The place behind a clause that follows a section: a later section, or the body.
#[tactic(auto, unfolding(crate::specs::Frame::next_place_between))]
fn follow_between(kind: BlockKind, last: PartKind, clause: &Clause) -> Option<ClausePlace>
    ensures { result ≡ frame.next_place_between kind last clause.now }
{
    match clause {
        Clause::Section {
            line: _,
            kind: part,
        } => {
            if may_have(kind, *part) && part_rank(last) < part_rank(*part) {
                Some(ClausePlace::Section {
                    kind,
                    part: *part,
                    level: 0,
                })
            } else {
                None
            }
        }
        Clause::Begins => Some(ClausePlace::Body { kind }),
        _ => None,
    }
}

/// The place behind a clause in the structure of a data block or of a `TYPE` block, or none where
/// it may not stand there.
#[tactic(auto, unfolding(crate::specs::Frame::next_place_in_shape))]
fn follow_shape(kind: BlockKind, level: u32, clause: &Clause) -> Option<ClausePlace>
    requires { level < 4294967295 }
    ensures { result ≡ frame.next_place_in_shape kind level clause.now }
{
    match clause {
        Clause::Declares { declaration } => {
            if is_date_and_time(&declaration.of.of) {
                None
            } else {
                let level = level_behind(level, &declaration.of.of);
                Some(ClausePlace::Shape { kind, level })
            }
        }
        Clause::EndStructure => shape_behind(kind, level),
        _ => None,
    }
}

/// The place behind a clause that follows the structure of a data block or of a `TYPE` block, or
/// what a data block is based on: the settings of a data block, or the end of a `TYPE` block.
#[tactic(auto, unfolding(crate::specs::Frame::next_place_behind_shape))]
fn follow_shaped(kind: BlockKind, clause: &Clause) -> Option<ClausePlace>
    ensures { result ≡ frame.next_place_behind_shape kind clause.now }
{
    match kind {
        BlockKind::Db => match clause {
            Clause::Begins => Some(ClausePlace::Settings),
            _ => None,
        },
        BlockKind::Udt => match clause {
            Clause::Ends {
                line: _,
                kind: BlockKind::Udt,
            } => Some(ClausePlace::Outside),
            _ => None,
        },
        _ => None,
    }
}

/// The place behind a clause in a body, or none where it may not stand there.
#[tactic(auto, unfolding(crate::specs::Frame::next_place_in_body))]
fn follow_body(kind: BlockKind, clause: &Clause) -> Option<ClausePlace>
    ensures { result ≡ frame.next_place_in_body kind clause.now }
{
    match clause {
        Clause::Runs { statement: _ } => Some(ClausePlace::Body { kind }),
        Clause::Network => Some(ClausePlace::Body { kind }),
        Clause::Title => Some(ClausePlace::Body { kind }),
        Clause::Ends {
            line: _,
            kind: ended,
        } => {
            if ended.order() == kind.order() {
                Some(ClausePlace::Outside)
            } else {
                None
            }
        }
        _ => None,
    }
}

/// The place behind a clause in the BEGIN part of a data block, or none where it may not stand
/// there.
#[tactic(auto, unfolding(crate::specs::Frame::next_place_in_settings))]
fn follow_settings(clause: &Clause) -> Option<ClausePlace>
    ensures { result ≡ frame.next_place_in_settings clause.now }
{
    match clause {
        Clause::Sets { setting: _ } => Some(ClausePlace::Settings),
        Clause::Ends {
            line: _,
            kind: BlockKind::Db,
        } => Some(ClausePlace::Outside),
        _ => None,
    }
}

/// The place behind a clause between blocks, or none where it may not stand there.
#[tactic(auto, unfolding(crate::specs::Frame::next_place_outside))]
fn follow_outside(clause: &Clause) -> Option<ClausePlace>
    ensures { result ≡ frame.next_place_outside clause.now }
{
    match clause {
        Clause::Head {
            line: _,
            kind,
            name: _,
            result: _,
        } => Some(ClausePlace::Head { kind: *kind }),
        _ => None,
    }
}

/// Where the next clause stands, or None where such a clause may not stand here.
#[tactic(auto, unfolding(crate::specs::Frame::next_place))]
pub(crate) fn follow(at: ClausePlace, clause: &Clause) -> Option<ClausePlace>
    requires { level_at at < 4294967295 }
    ensures { result ≡ frame.next_place at clause.now }
{
    match at {
        ClausePlace::Outside => follow_outside(clause),
        ClausePlace::Head { kind } => follow_head(kind, clause),
        ClausePlace::Section { kind, part, level } => follow_section(kind, part, level, clause),
        ClausePlace::Between { kind, last } => follow_between(kind, last, clause),
        ClausePlace::Shape { kind, level } => follow_shape(kind, level, clause),
        ClausePlace::Shaped { kind } => follow_shaped(kind, clause),
        ClausePlace::Body { kind } => follow_body(kind, clause),
        ClausePlace::Settings => follow_settings(clause),
    }
}
