use crate::compare::same;
use plc_base::{Refusal, broken_if, least_of, lesser, try_least_of};
use std::alloc::{AllocError, Global};
use std::test::Fail;
use stl_symbols::{NameIndex, NumberIndex};

/// The line and the rule of a refusal.
type BrokenRule = Option<(u32, u16)>;

fn refusal(broken: BrokenRule) -> Option<Refusal> {
    let (line, rule) = broken?;
    Some(Refusal { line, rule })
}

/// Two refusals, and the lesser one.
static LESSER: [(BrokenRule, BrokenRule, BrokenRule); 8] = [
    (None, None, None),
    (Some((2, 56)), None, Some((2, 56))),
    (None, Some((2, 56)), Some((2, 56))),
    (Some((2, 56)), Some((10, 20)), Some((2, 56))),
    (Some((10, 20)), Some((2, 56)), Some((2, 56))),
    (Some((10, 20)), Some((10, 21)), Some((10, 20))),
    (Some((10, 21)), Some((10, 20)), Some((10, 20))),
    (Some((10, 21)), Some((10, 21)), Some((10, 21))),
];

#[test]
fn the_lesser_refusal_is_of_the_first_line_and_then_of_the_least_rule(rt: HostRuntime) {
    for (first, second, least) in &LESSER {
        let found = lesser(refusal(*first), refusal(*second));
        same(&rt, (*first, *second), found, refusal(*least));
    }
    same(
        &rt,
        "broken",
        broken_if(true, 7, 41),
        refusal(Some((7, 41))),
    );
    same(&rt, "not broken", broken_if(false, 7, 41), None);
}

/// A number of two digits is a line, and the one digit above it a rule; a number below 100 is none.
fn rule_of(number: &u32) -> Option<Refusal> {
    broken_if(*number >= 100, *number % 100, (*number / 100 % 10) as u16)
}

fn try_rule_of(number: &u32) -> Result<Option<Refusal>, AllocError> {
    Ok(rule_of(number))
}

/// Numbers, and the least of their refusals.
static LISTS: [(&[u32], BrokenRule); 5] = [
    (&[], None),
    (&[99, 0, 7], None),
    (&[350], Some((50, 3))),
    (&[350, 240, 17], Some((40, 2))),
    (&[340, 350, 240, 940, 260], Some((40, 2))),
];

#[test]
fn the_least_refusal_of_a_list(rt: HostRuntime) -> Result<(), Fail> {
    for (numbers, least) in &LISTS {
        let tried = try_least_of(numbers, try_rule_of)?;
        let found = (least_of(numbers, rule_of), tried);
        same(&rt, *numbers, found, (refusal(*least), refusal(*least)));
    }
    Ok(())
}

static NAMES: [&[u8]; 6] = [b"b", b"a", b"", b"b", b"B", b"a"];

/// Where each of these names stands first.
static NAME_PLACES: [(&[u8], Option<usize>); 6] = [
    (b"b", Some(0)),
    (b"a", Some(1)),
    (b"", Some(2)),
    (b"B", Some(4)),
    (b"A", None),
    (b"ab", None),
];

fn add_names(alloc: Global, names: &mut NameIndex) -> Result<(), AllocError> {
    for name in &NAMES {
        names.add(alloc, name)?;
    }
    Ok(())
}

#[test]
fn names_have_first_places(rt: HostRuntime) -> Result<(), Fail> {
    let mut names = NameIndex::new(rt.alloc());
    add_names(rt.alloc(), &mut names)?;
    for (name, place) in &NAME_PLACES {
        same(&rt, *name, names.place(name), *place);
    }
    Ok(())
}

static NUMBERS: [u16; 5] = [7, 65_535, 7, 0, 65_535];

/// Where each of these numbers stands first.
static NUMBER_PLACES: [(u16, Option<usize>); 4] = [
    (7, Some(0)),
    (65_535, Some(1)),
    (0, Some(3)),
    (1, None),
];

fn add_numbers(numbers: &mut NumberIndex) -> Result<(), AllocError> {
    for number in &NUMBERS {
        numbers.add(*number)?;
    }
    Ok(())
}

#[test]
fn numbers_have_first_places(rt: HostRuntime) -> Result<(), Fail> {
    let mut numbers = NumberIndex::new(rt.alloc());
    add_numbers(&mut numbers)?;
    for (number, place) in &NUMBER_PLACES {
        same(&rt, *number, numbers.place(*number), *place);
    }
    Ok(())
}
