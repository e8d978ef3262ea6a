//! The code of loaded blocks: its bytes as the image has them, which are the coding of its ops.

use crate::building::{Block, bytes_of, db, fc, image, ob};
use crate::compare::same;
use flat_code::encode_op;
use image_file::{Loaded, load};
use plc_base::{BlockId, BlockKind};
use std::alloc::{AllocError, Global};
use std::process::Abort;
use std::test::Fail;

/// `A M 2.5; L L#7; T DB10.DBW 2; JU 0; BE`, of which the third statement has two ops.
const CODE: &str = "90 02 83 01 00 02 05 ; A0 01 00 00 00 07 ; 02 0A 00 0A A1 02 84 03 00 02 00 ;
    EF 08 00 00 00 00 00 ; FB 00";

/// The offsets at which its statements begin, with their lines.
static STATEMENTS: [(u32, u32); 5] = [(0, 1), (7, 2), (13, 3), (24, 4), (31, 5)];

/// The ops of a block, one behind the other, each of them encoded.
fn encoded(alloc: Global, loaded: &Loaded, block: BlockId) -> Result<Vec<u8>, AllocError> {
    let mut bytes = Vec::new(alloc);
    let mut at = 0;
    for _ in 0..16 {
        match loaded.op(block, at) {
            None => return Ok(bytes),
            Some((op, next)) => {
                encode_op(&op, &mut bytes)?;
                at = next;
            }
        }
    }
    Ok(bytes)
}

/// The bytes of a block's code are those of the image, which are those of its ops.
fn is_lent(rt: &impl Abort, alloc: Global, loaded: &Loaded, block: BlockId) -> Result<(), Fail> {
    let lent = loaded.code(block).ok_or("no OB 1")?;
    let written = bytes_of(alloc, CODE)?;
    same(rt, "as in the image", lent, written.as_slice());
    let again = encoded(alloc, loaded, block)?;
    same(rt, "as the ops", lent, again.as_slice());
    Ok(())
}

/// Each statement of a block has its line.
fn have_lines(rt: &impl Abort, loaded: &Loaded, block: BlockId) {
    for (at, line) in &STATEMENTS {
        same(rt, *at, loaded.line(block, *at), Some(*line));
    }
    same(rt, "no statement", loaded.line(block, 17), None);
}

/// The program of these code blocks and a DB 10 of four bytes.
fn loaded_of(alloc: Global, blocks: &[Block]) -> Result<Loaded, Fail> {
    let bytes = image(alloc, blocks, &[db(10, 4)], &[])?;
    let loaded = load(alloc, bytes.as_slice())?;
    Ok(loaded)
}

#[test]
fn code_is_lent(rt: HostRuntime) -> Result<(), Fail> {
    let loaded = loaded_of(rt.alloc(), &[ob(CODE), fc(2, &[], "FB 00")])?;
    let ob_1 = BlockId {
        kind: BlockKind::Ob,
        number: 1,
    };
    have_lines(&rt, &loaded, ob_1);
    is_lent(&rt, rt.alloc(), &loaded, ob_1)
}

/// Kinds and numbers of blocks that aren't loaded code blocks.
static ABSENT: [(BlockKind, u16); 5] = [
    (BlockKind::Ob, 2),
    (BlockKind::Ob, 2049),
    (BlockKind::Fc, 1),
    (BlockKind::Db, 10),
    (BlockKind::Sfc, 1),
];

fn have_no_code(rt: &impl Abort, loaded: &Loaded) {
    for (kind, number) in &ABSENT {
        let block = BlockId {
            kind: *kind,
            number: *number,
        };
        same(rt, *number, loaded.code(block).is_none(), true);
    }
}

#[test]
fn no_code(rt: HostRuntime) -> Result<(), Fail> {
    let loaded = loaded_of(rt.alloc(), &[ob("FB 00")])?;
    have_no_code(&rt, &loaded);
    Ok(())
}
