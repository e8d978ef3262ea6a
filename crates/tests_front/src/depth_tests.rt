use crate::compare::same;
use std::alloc::{AllocError, Global};
use stl_ast::{Bounds, Declaration, Declarations, ElementType, Name, Sequence, TypeTree};

/// A chain of structures, each inside the one before.
fn chain(alloc: Global, depth: u32) -> Result<Declarations, AllocError> {
    let mut items = Vec::new(alloc);
    for level in 0..depth {
        items.push(Declaration {
            line: 1,
            name: Name::new(alloc, b"a")?,
            level,
            of: TypeTree {
                arrays: Sequence::from_vec(Vec::new(alloc)),
                of: ElementType::Structure,
            },
            init: Sequence::from_vec(Vec::new(alloc)),
        })?;
    }
    Ok(Declarations::from_vec(items))
}

/// An array of arrays, `depth` deep.
fn nested_arrays(alloc: Global, depth: u32) -> Result<TypeTree, AllocError> {
    let mut arrays = Vec::new(alloc);
    for _ in 0..depth {
        arrays.push(Bounds { low: 0, high: 0 })?;
    }
    Ok(TypeTree {
        arrays: Sequence::from_vec(arrays),
        of: ElementType::DateAndTime,
    })
}

/// Trees as deep as a source of 1 MiB can make them, and deeper, are built, read and dropped: no
/// step goes down them by a call.
#[test]
fn deep_types_are_dropped(rt: HostRuntime) {
    let structures = chain(rt.alloc(), 100_000).expect(&rt, "memory");
    same(&rt, "structures", structures.as_slice().len(), 100_000);
    let arrays = nested_arrays(rt.alloc(), 100_000).expect(&rt, "memory");
    same(&rt, "arrays", arrays.arrays.len(), 100_000);
}
