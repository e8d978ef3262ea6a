//! What names find, and the names of jumps and conditions.

use crate::compare::same;
use flat_code::{JUMPS, NameEntry, Names, condition_number, flag_of, jump_of_number};
use plc_base::{Area, Place, Width};
use std::alloc::{AllocError, Global};
use std::process::Abort;
use std::test::*;

fn entry(alloc: Global, name: &[u8], byte: u16) -> Result<NameEntry, AllocError> {
    let mut own = Vec::new(alloc);
    own.extend_from_slice(name)?;
    Ok(NameEntry {
        name: own,
        place: Place {
            area: Area::M,
            number: 0,
            byte,
            bit: 0,
        },
        width: Width::Word,
    })
}

/// Entries of names, their bytes 0, 1, 2 and so on.
fn entries(alloc: Global, names: &[&[u8]]) -> Result<Vec<NameEntry>, AllocError> {
    let mut list = Vec::new(alloc);
    for (byte, name) in names.iter().enumerate() {
        list.push(entry(alloc, name, (byte % 65_536) as u16)?)?;
    }
    Ok(list)
}

static SPELLED: [&[u8]; 5] = [b"A", b"A B", b"MOTOR_1", b"MOTOR_10", b"Z\xC4"];

/// What is looked for, and the byte of the name that is found.
static FOUND: [(&[u8], Option<u16>); 12] = [
    (b"a", Some(0)),
    (b"A", Some(0)),
    (b"a b", Some(1)),
    (b"Motor_1", Some(2)),
    (b"MOTOR_10", Some(3)),
    (b"z\xC4", Some(4)),
    (b"z\xE4", None),
    (b"", None),
    (b"A ", None),
    (b"MOTOR", None),
    (b"MOTOR_2", None),
    (b"ZZ", None),
];

fn are_found(rt: &impl Abort, names: &Names) {
    same(rt, "names", names.as_slice().len(), 5);
    for (name, byte) in &FOUND {
        let found = names.find(name).map(|found| found.0.byte);
        same(rt, *name, found, *byte);
    }
}

#[test]
fn names_without_case(rt: HostRuntime) -> Result<(), Fail> {
    let list = entries(rt.alloc(), &SPELLED)?;
    assert!(rt; Names::are_in_order(list.as_slice()));
    let names = Names::new(list);
    are_found(&rt, &names);
    Ok(())
}

/// Names, and whether they are in order.
static ORDERED: [(&[&[u8]], bool); 7] = [
    (&[], true),
    (&[b""], false),
    (&[b"A", b"B"], true),
    (&[b"B", b"A"], false),
    (&[b"A", b"A"], false),
    (&[b"a"], false),
    (&[b"A", b"Bz"], false),
];

#[test]
fn names_in_order(rt: HostRuntime) -> Result<(), Fail> {
    for (names, right) in &ORDERED {
        let list = entries(rt.alloc(), names)?;
        let found = Names::are_in_order(list.as_slice());
        same(&rt, *names, found, *right);
    }
    Ok(())
}

// JU JL JC JCN JCB JNB JBI JNBI JO JOS JZ JN JP JM JPZ JMZ JUO LOOP, from 0.
#[test]
fn numbers_of_jumps(rt: HostRuntime) -> Result<(), Fail> {
    let jumps = [
        "Ju", "Jl", "Jc", "Jcn", "Jcb", "Jnb", "Jbi", "Jnbi", "Jo", "Jos", "Jz", "Jn", "Jp", "Jm",
        "Jpz", "Jmz", "Juo", "Loop",
    ];
    same(&rt, "jumps", JUMPS.len(), jumps.len());
    for kind in 0..18u8 {
        let jump = jump_of_number(kind);
        let spelled = format!(in rt.alloc(); "{jump:?}")?;
        let found = (spelled.as_str(), jump.kind());
        same(&rt, kind, found, (jumps[kind as usize], kind));
    }
    Ok(())
}

// BR OV OS ==0 <>0 >0 <0 >=0 <=0 UO, from 1.
#[test]
fn numbers_of_conditions(rt: HostRuntime) -> Result<(), Fail> {
    let flags = [
        "Br", "Ov", "Os", "EqZero", "NeZero", "GtZero", "LtZero", "GeZero", "LeZero", "Uo",
    ];
    for condition in 1..11u8 {
        let flag = flag_of(condition);
        let spelled = format!(in rt.alloc(); "{flag:?}")?;
        let found = (spelled.as_str(), condition_number(flag));
        let name = flags[condition as usize - 1];
        same(&rt, condition, found, (name, condition));
    }
    Ok(())
}
