//! As many functions as there may be, in one chain.
use crate::bench::loaded;
use crate::compare::same;
use plc_base::{BlockId, BlockKind, Profile};
use stack_bound::{Found, find};
use std::alloc::{AllocError, Global};
use std::test::Fail;

/// OB 1 calls FC 0, and each of 2,048 functions the next one.
fn chain_of_functions(alloc: Global) -> Result<String, AllocError> {
    let mut program = String::new(alloc);
    program.push_str("UC FC0")?;
    for number in 0..2047 {
        write!(program, " | FC {} 0 0 {{ UC FC{}", number, number + 1)?;
    }
    program.push_str(" | FC 2047 0 0 { NOP #0")?;
    Ok(program)
}

#[test]
fn functions_in_one_chain(rt: HostRuntime) -> Result<(), Fail> {
    let program = chain_of_functions(rt.alloc())?;
    let l = loaded(rt.alloc(), program.as_str(), Profile::Large)?;
    match find(rt.alloc(), &l)? {
        Found::Deep { chain } => {
            same(&rt, "blocks", chain.len(), 25);
            same(
                &rt,
                "the last block",
                chain.last().copied(),
                Some(BlockId {
                    kind: BlockKind::Fc,
                    number: 23,
                }),
            );
        }
        Found::Fits { list } => same(&rt, "fits", list.len(), 0),
    }
    Ok(())
}
