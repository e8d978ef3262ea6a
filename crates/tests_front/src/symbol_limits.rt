use crate::compare::same;
use crate::symbol_calls::{Named, are_found, check_result, read};
use std::alloc::{AllocError, Global};
use std::test::Fail;
use stl_symbols::{Language, SYMBOLS_LIMIT, Symbols};

/// The most symbols of a file.
const MOST: u32 = 65_535;

/// Writes so many symbols, each with a name and a number of its own.
fn write_symbols(out: &mut String, count: u32) -> Result<(), AllocError> {
    for n in 0..count {
        let number = n % 10;
        writeln!(out, "{n:x},T{number},TIMER,")?;
    }
    Ok(())
}

/// A file of the most symbols, and these lines behind them.
fn full_file(alloc: Global, behind: &str) -> Result<String, AllocError> {
    let mut file = String::new(alloc);
    write_symbols(&mut file, MOST)?;
    file.push_str(behind)?;
    Ok(file)
}

/// The symbols of such a file.
fn full_symbols(alloc: Global, behind: &str) -> Result<Symbols, Fail> {
    let file = full_file(alloc, behind)?;
    Ok(read(alloc, Language::English, file.as_bytes())?)
}

/// What the check finds of such a file.
fn full_check_result(alloc: Global, behind: &str) -> Result<(u32, u16), AllocError> {
    let file = full_file(alloc, behind)?;
    Ok(check_result(alloc, Language::English, file.as_bytes()))
}

/// Names of a file with the most symbols.
static NUMBERED: [(&[u8], Option<Named>); 4] = [
    (b"0", Some(Named::Timer(0))),
    (b"FFFE", Some(Named::Timer(4))),
    (b"8000", Some(Named::Timer(8))),
    (b"ffff", None),
];

#[test]
fn a_file_has_65535_symbols(rt: HostRuntime) -> Result<(), Fail> {
    let symbols = full_symbols(rt.alloc(), "0,VAT 1,,\nx,SDB 2,,\n")?;
    same(&rt, "symbols", symbols.list().len(), 65_535);
    are_found(&rt, &symbols, &NUMBERED);
    Ok(())
}

/// A new name, and a name that stands twice.
static ONE_MORE: [&str; 2] = ["ffff,T1,TIMER,", "0,T1,TIMER,"];

#[test]
fn the_next_symbol_breaks_rule_15(rt: HostRuntime) -> Result<(), Fail> {
    for line in &ONE_MORE {
        let found = full_check_result(rt.alloc(), line)?;
        same(&rt, *line, found, (65_536, 15));
    }
    Ok(())
}

/// The longest files, with the line and the rule of the refusal: of empty lines, and of one line.
static LONGEST: [(u8, u32, u16); 5] = [
    (b'\n', 0, 0),
    (b'a', 1, 14),
    (b',', 1, 14),
    (b'"', 1, 14),
    (b'\r', 1, 14),
];

/// What the check finds of the longest file of one byte, again and again.
fn longest_check_result(alloc: Global, byte: u8) -> Result<(u32, u16), AllocError> {
    let file = Vec::from_elem(alloc, byte, SYMBOLS_LIMIT)?;
    Ok(check_result(alloc, Language::English, file.as_slice()))
}

#[test]
fn a_file_has_1048576_bytes(rt: HostRuntime) -> Result<(), Fail> {
    for (byte, line, rule) in &LONGEST {
        let found = longest_check_result(rt.alloc(), *byte)?;
        same(&rt, *byte, found, (*line, *rule));
    }
    Ok(())
}
