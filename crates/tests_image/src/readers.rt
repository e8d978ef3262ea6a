//! What the readers of a loaded program give.

use crate::building::{fb, image};
use crate::compare::same;
use crate::images::EXAMPLE;
use flat_code::{Op, Operand, Param};
use image_file::{Loaded, LoadedCode, load};
use plc_base::{BlockId, BlockKind, Width};
use std::alloc::Global;
use std::process::Abort;
use std::test::Fail;

/// Offsets in the code of OB 1: the op code there, whether it ends its statement, the offset after it,
/// and the line of the statement that begins there (0 for none). The op code 0 says that no op begins.
static OPS: [(u32, u8, bool, u32, u32); 8] = [
    (0, 0x6F, true, 7, 3),
    (1, 0, false, 0, 0),
    (6, 0, false, 0, 0),
    (7, 0x02, false, 11, 4),
    (11, 0x21, true, 18, 0),
    (18, 0x7B, true, 20, 5),
    (19, 0, false, 0, 0),
    (20, 0, false, 0, 0),
];

fn id(kind: BlockKind, number: u16) -> BlockId {
    BlockId { kind, number }
}

/// What stands at an offset, in the form of the table above.
fn op_at(loaded: &Loaded, block: BlockId, at: u32) -> (u8, bool, u32, u32) {
    let line = match loaded.line(block, at) {
        None => 0,
        Some(line) => line,
    };
    match loaded.op(block, at) {
        None => (0, false, 0, line),
        Some((op, next)) => (op.code, op.last, next, line),
    }
}

fn is_jump_to_7(found: Option<(Op, u32)>) -> bool {
    match found {
        Some((op, _)) => matches!(op.operand, Operand::Jump { kind: 0, target: 7 }),
        None => false,
    }
}

/// The program of the example.
fn example(rt: &impl Abort, alloc: Global) -> Loaded {
    let Ok(loaded) = load(alloc, &EXAMPLE) else {
        panic!(rt; "the example")
    };
    loaded
}

fn have_ops_and_lines(rt: &impl Abort, loaded: &Loaded) {
    let ob = id(BlockKind::Ob, 1);
    for row in &OPS {
        let (at, code, last, next, line) = *row;
        same(rt, at, op_at(loaded, ob, at), (code, last, next, line));
    }
    same(rt, "JU to 7", is_jump_to_7(loaded.op(ob, 0)), true);
    for other in [id(BlockKind::Fc, 1), id(BlockKind::Ob, 2049)] {
        same(rt, other, op_at(loaded, other, 0), (0, false, 0, 0));
    }
}

#[test]
fn ops_and_lines(rt: HostRuntime) {
    let loaded = example(&rt, rt.alloc());
    have_ops_and_lines(&rt, &loaded);
}

fn sizes(loaded: &Loaded) -> Option<(u16, u16, u16, u32, usize)> {
    let head = loaded.head(id(BlockKind::Ob, 1))?;
    Some((
        head.local_len,
        head.instance_len,
        head.statements,
        head.code_len,
        head.params.len(),
    ))
}

fn data_len(loaded: &Loaded, number: u16) -> Option<usize> {
    Some(loaded.data_block(number)?.len())
}

fn have_heads_and_data_blocks(rt: &impl Abort, loaded: &Loaded) {
    same(rt, "OB 1", sizes(loaded), Some((20, 0, 3, 20, 0)));
    same(rt, "DB 10", data_len(loaded, 10), Some(4));
    same(rt, "DB 1", data_len(loaded, 1), None);
    let blocks = [id(BlockKind::Ob, 1), id(BlockKind::Db, 10)];
    same(rt, "blocks", loaded.blocks(), blocks.as_slice());
    same(rt, "names", loaded.names().as_slice().len(), 0);
}

#[test]
fn heads_and_data_blocks(rt: HostRuntime) {
    let loaded = example(&rt, rt.alloc());
    have_heads_and_data_blocks(&rt, &loaded);
}

/// A block's code is BE alone, at line 1.
fn is_end_alone(rt: &impl Abort, code: &LoadedCode<'_>) {
    let head = code.head();
    same(rt, "head", (head.statements, head.code_len), (1, 2));
    let be = code.op(0).map(|(op, next)| (op.code, op.last, next));
    same(rt, "BE", be, Some((0x7B, true, 2)));
    same(rt, "no op", code.op(1).is_none(), true);
    same(rt, "lines", (code.line(0), code.line(1)), (Some(1), None));
}

/// A block has 20 local bytes, four instance bytes, an input bit at 0.0 and an output word at 2.
fn has_sizes(rt: &impl Abort, code: &LoadedCode<'_>) {
    let sizes = (code.local_len(), code.instance_len());
    same(rt, "bytes", sizes, (20, 4));
    let output = Param {
        section: 2,
        width: Width::Word,
        byte: 2,
        bit: 0,
    };
    let params = [Param::default(), output];
    same(rt, "parameters", code.params(), params.as_slice());
}

fn has_block(rt: &impl Abort, loaded: &Loaded) -> Result<(), Fail> {
    let absent = loaded.block(id(BlockKind::Fc, 1)).is_none();
    same(rt, "no FC 1", absent, true);
    let code = loaded.block(id(BlockKind::Fb, 1)).ok_or("no FB 1")?;
    has_sizes(rt, &code);
    is_end_alone(rt, &code);
    Ok(())
}

/// The program of a function block whose code is BE alone.
fn block_alone(alloc: Global) -> Result<Loaded, Fail> {
    let block = fb(1, 4, &[(1, 1, 0), (2, 3, 2)], "FB 00");
    let bytes = image(alloc, &[block], &[], &[])?;
    let loaded = load(alloc, bytes.as_slice())?;
    Ok(loaded)
}

/// A function block with an input bit at 0.0 and an output word at 2, whose code is BE alone.
#[test]
fn code_of_a_block(rt: HostRuntime) -> Result<(), Fail> {
    let loaded = block_alone(rt.alloc())?;
    has_block(&rt, &loaded)
}
