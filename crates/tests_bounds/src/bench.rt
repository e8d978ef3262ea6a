//! A program, and what is found of it.
//!
//! A row has a program (as `tests_assembler` spells it) and what `find` finds of it, as text: `OB 1 DEPTH 2
//! BYTES 24 | FC 1 DEPTH 1 BYTES 4`, or `chain: OB 1, FC 1, FC 1`.
use crate::compare::same;
use image_file::{Loaded, load};
use plc_base::{BlockId, BlockKind, Profile};
use stack_bound::{Bound, Found, find, holds};
use std::alloc::{AllocError, Global};
use std::process::Abort;
use std::test::Fail;
use tests_assembler::assembled_image;

/// A program, and what is found of it.
pub(crate) type Row = (&'static str, &'static str);

fn kind_name(kind: BlockKind) -> &'static str {
    match kind {
        BlockKind::Ob => "OB",
        BlockKind::Fc => "FC",
        _ => "FB",
    }
}

fn write_block(out: &mut String, block: BlockId) -> Result<(), AllocError> {
    out.push_str(kind_name(block.kind))?;
    write!(out, " {}", block.number)
}

fn write_bounds(out: &mut String, list: &[Bound]) -> Result<(), AllocError> {
    let mut first = true;
    for b in list {
        if !first {
            out.push_str(" | ")?;
        }
        first = false;
        write_block(out, b.block)?;
        write!(out, " DEPTH {} BYTES {}", b.depth, b.bytes)?;
    }
    Ok(())
}

fn write_chain(out: &mut String, chain: &[BlockId]) -> Result<(), AllocError> {
    out.push_str("chain:")?;
    let mut first = true;
    for block in chain {
        out.push_str(if first { " " } else { ", " })?;
        first = false;
        write_block(out, *block)?;
    }
    Ok(())
}

fn write_found(out: &mut String, found: &Found) -> Result<(), AllocError> {
    match found {
        Found::Fits { list } => write_bounds(out, list.as_slice()),
        Found::Deep { chain } => write_chain(out, chain.as_slice()),
    }
}

/// A program as it is loaded, with a profile.
pub(crate) fn loaded(alloc: Global, program: &str, profile: Profile) -> Result<Loaded, Fail> {
    let image = assembled_image(alloc, program)?;
    let loaded = load(alloc, image.bytes.as_slice())?;
    Ok(loaded.with_profile(profile))
}

/// What is found of a program that fits holds of it.
fn fits_hold(rt: &impl Abort, program: &str, l: &Loaded, found: &Found) {
    if let Found::Fits { list } = found {
        same(rt, program, holds(l, list.as_slice()), true);
    }
}

/// Each row finds what it has.
pub(crate) fn all_found(
    rt: &impl Abort,
    alloc: Global,
    profile: Profile,
    rows: &[Row],
) -> Result<(), Fail> {
    for (program, want) in rows {
        let l = loaded(alloc, program, profile)?;
        let found = find(alloc, &l)?;
        let mut text = String::new(alloc);
        write_found(&mut text, &found)?;
        same(rt, *program, text.as_str(), *want);
        fits_hold(rt, program, &l, &found);
    }
    Ok(())
}
