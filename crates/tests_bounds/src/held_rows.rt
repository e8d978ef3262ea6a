//! Lists that hold of a program, and lists that don't.
use crate::bench::loaded;
use crate::compare::same;
use plc_base::{BlockId, BlockKind, Profile};
use stack_bound::{Bound, holds};
use std::alloc::{AllocError, Global};
use std::test::Fail;

/// A bound: kind and number of the block, depth and bytes.
type Row = (BlockKind, u16, u32, u32);

/// The list of bounds of these rows.
fn list_of(alloc: Global, rows: &[Row]) -> Result<Vec<Bound>, AllocError> {
    let mut list = Vec::new(alloc);
    for (kind, number, depth, bytes) in rows {
        list.push(Bound {
            block: BlockId {
                kind: *kind,
                number: *number,
            },
            depth: *depth,
            bytes: *bytes,
        })?;
    }
    Ok(list)
}

/// FC 2 is called by nobody and calls FC 1.
const PROGRAM: &str = "UC FC1 | FC 1 4 0 { NOP #0 | FC 2 8 0 { UC FC1";

/// Lists, with what each shows and whether it holds.
static LISTS: [(&str, &[Row], bool); 17] = [
    (
        "the least one",
        &[(BlockKind::Ob, 1, 2, 24), (BlockKind::Fc, 1, 1, 4)],
        true,
    ),
    (
        "the limits of an activation",
        &[(BlockKind::Ob, 1, 16, 1024), (BlockKind::Fc, 1, 15, 1004)],
        true,
    ),
    (
        "another order",
        &[(BlockKind::Fc, 1, 1, 4), (BlockKind::Ob, 1, 2, 24)],
        true,
    ),
    (
        "a block on no chain, with what it calls",
        &[
            (BlockKind::Ob, 1, 2, 24),
            (BlockKind::Fc, 1, 1, 4),
            (BlockKind::Fc, 2, 2, 12),
        ],
        true,
    ),
    (
        "a block on no chain above the limits",
        &[
            (BlockKind::Ob, 1, 2, 24),
            (BlockKind::Fc, 1, 1, 4),
            (BlockKind::Fc, 2, 99, 2000),
        ],
        true,
    ),
    ("nothing", &[], false),
    ("no organization block", &[(BlockKind::Fc, 1, 1, 4)], false),
    ("no called block", &[(BlockKind::Ob, 1, 2, 24)], false),
    (
        "a depth of 1 above a called block",
        &[(BlockKind::Ob, 1, 1, 24), (BlockKind::Fc, 1, 1, 4)],
        false,
    ),
    (
        "a depth of 0",
        &[(BlockKind::Ob, 1, 1, 24), (BlockKind::Fc, 1, 0, 4)],
        false,
    ),
    (
        "bytes without those of the called block",
        &[(BlockKind::Ob, 1, 2, 23), (BlockKind::Fc, 1, 1, 4)],
        false,
    ),
    (
        "fewer bytes than the block has",
        &[(BlockKind::Ob, 1, 2, 24), (BlockKind::Fc, 1, 1, 3)],
        false,
    ),
    (
        "a depth above the frames",
        &[(BlockKind::Ob, 1, 17, 24), (BlockKind::Fc, 1, 1, 4)],
        false,
    ),
    (
        "bytes above 1,024",
        &[(BlockKind::Ob, 1, 2, 1025), (BlockKind::Fc, 1, 1, 4)],
        false,
    ),
    (
        "a block twice",
        &[
            (BlockKind::Ob, 1, 2, 24),
            (BlockKind::Fc, 1, 1, 4),
            (BlockKind::Fc, 1, 1, 4),
        ],
        false,
    ),
    (
        "a block that isn't loaded",
        &[
            (BlockKind::Ob, 1, 2, 24),
            (BlockKind::Fc, 1, 1, 4),
            (BlockKind::Fc, 3, 1, 4),
        ],
        false,
    ),
    (
        "a block on no chain that doesn't count what it calls",
        &[
            (BlockKind::Ob, 1, 2, 24),
            (BlockKind::Fc, 1, 1, 4),
            (BlockKind::Fc, 2, 1, 12),
        ],
        false,
    ),
];

#[test]
fn lists_hold_or_do_not(rt: HostRuntime) -> Result<(), Fail> {
    let l = loaded(rt.alloc(), PROGRAM, Profile::Small)?;
    for (what, rows, want) in &LISTS {
        let list = list_of(rt.alloc(), rows)?;
        same(&rt, *what, holds(&l, list.as_slice()), *want);
    }
    Ok(())
}
