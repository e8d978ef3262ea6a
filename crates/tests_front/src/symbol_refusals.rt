use crate::compare::same;
use crate::symbol_calls::check_result;
use csv::{ByteRecord, Reader, ReaderBuilder};
use std::alloc::Global;
use std::process::Abort;
use std::test::Fail;
use stl_symbols::Language;

/// A symbols file with the line and the rule of its refusal, worked out by hand from
/// docs/FORMATS.md; 0 and 0 where it is right.
type Row = (&'static [u8], u32, u16);

// Each line is read by itself as CSV, and is one record of four fields.
static RECORDS: [Row; 26] = [
    (b"", 0, 0),
    (b"\n\r\n\n", 0, 0),
    (b"a,M0.0,BOOL,", 0, 0),
    (b"\"a\",\"M 0.0\",\"BOOL\",\"a comment\"\n", 0, 0),
    (b"a,M0.0,BOOL,c\r\nb,M0.1,BOOL,c\r\n", 0, 0),
    (
        b"\"a,b\",M0.0,BOOL,\"with \"\"quotes\"\", and commas\"",
        0,
        0,
    ),
    (b"a,M0.0,BOOL,\"without an end\nb,M0.1,BOOL,", 0, 0),
    (b"a\"b,M0.0,BOOL,", 0, 0),
    (b"\"a\" ,M0.0,BOOL,", 0, 0),
    (b"\xEF\xBB\xBFa,M0.0,BOOL,\n\xEF\xBB\xBFb,M0.1,BOOL,", 0, 0),
    (b"\r\ra,M0.0,BOOL,\r\r\r\n", 0, 0),
    (b"a,M0.0,BOOL,\"c\r\"", 0, 0),
    (b"a", 1, 14),
    (b"a,M0.0,BOOL", 1, 14),
    (b"a,M0.0,BOOL,c,", 1, 14),
    (b"\"a,M0.0,BOOL,c", 1, 14),
    (b"a,M0.0,\"BOOL,c\"", 1, 14),
    (b"a,M0.0,BOOL,c\rb,M0.1,BOOL,c", 1, 14),
    (b"a,M0.0,BOOL,c\r\xEF\xBB\xBF", 1, 14),
    (b" ", 1, 14),
    (b"// a comment", 1, 14),
    (b"\xEF\xBB\xBF", 1, 14),
    (b"\r", 1, 14),
    (b"\n\r\r\n", 2, 14),
    (b"a,M0.0,BOOL,\nb,M0.1,BOOL\nc\n", 2, 14),
    (b"a,M0.0,BOOL,\n\na,M0.0,BOOL", 3, 14),
];

// Names of one to 24 bytes, addresses and types that are right.
static DECLARATIONS: [Row; 13] = [
    (
        b"a,I 0.0,BOOL,\nb,Q 65535.7,BOOL,\nc,M 00007.00,BOOL,",
        0,
        0,
    ),
    (b"a,IB0,BYTE,\nb,QB 1,CHAR,\nc,MB 65535,BYTE,", 0, 0),
    (
        b"a,IW0,WORD,\nb,QW 1,INT,\nc,MW 65535,S5TIME,\nd,IW 2,DATE,",
        0,
        0,
    ),
    (
        b"a,ID0,DWORD,\nb,QD 1,DINT,\nc,MD 65535,TIME,\nd,MD 2,REAL,\ne,ID 3,TIME_OF_DAY,",
        0,
        0,
    ),
    (
        b"a,PIB 0,BYTE,\nb,PIW 1,WORD,\nc,PID 2,DWORD,\nd,PQB 3,CHAR,\ne,PQW 4,INT,\nf,PQD 5,TIME,",
        0,
        0,
    ),
    (
        b"a,T 0,TIMER,\nb,T65535,TIMER,\nc,C 0,COUNTER,\nd,C 65535,COUNTER,",
        0,
        0,
    ),
    (
        b"a,OB 1,OB 1,\nb,FB 65535,,\nc,FC 0,bool,\nd,SFC 64,SFC,\ne,DB 1,FB 7,\nf,UDT 1,UDT 1,",
        0,
        0,
    ),
    (b"a,VAT 1,,\nb,SFB 65535,x,\nc,SDB 0,SDB 0,", 0, 0),
    (b"\" a\",\" \tM \t 1 . 0\t \",\"BOOL \t\",\" \"", 0, 0),
    (b"a,I       0.0,BOOL      ,on", 0, 0),
    (b"abcdefghijklmnopqrstuvwx,M0.0,BOOL,", 0, 0),
    (b"abcdefghijklmnopqrstuvwx    ,M0.0,BOOL,", 0, 0),
    (b"\x01\xFF,M0.0,BOOL,", 0, 0),
];

// Names and addresses that aren't.
static WRONG_ADDRESSES: [Row; 34] = [
    (b",M0.0,BOOL,", 1, 15),
    (b"\" \t \",M0.0,BOOL,", 1, 15),
    (b"abcdefghijklmnopqrstuvwxy,M0.0,BOOL,", 1, 15),
    (b"                        a,M0.0,BOOL,", 1, 15),
    (b",VAT 1,,", 1, 15),
    (b"a,,BOOL,", 1, 15),
    (b"a,0.0,BOOL,", 1, 15),
    (b"a,M,BOOL,", 1, 15),
    (b"a,M0,BOOL,", 1, 15),
    (b"a,M0.,BOOL,", 1, 15),
    (b"a,M.0,BOOL,", 1, 15),
    (b"a,M0.8,BOOL,", 1, 15),
    (b"a,M0.0.0,BOOL,", 1, 15),
    (b"a,M65536.0,BOOL,", 1, 15),
    (b"a,M-1.0,BOOL,", 1, 15),
    (b"a,m0.0,BOOL,", 1, 15),
    (b"a,MB,BYTE,", 1, 15),
    (b"a,MB0.0,BYTE,", 1, 15),
    (b"a,MW65536,WORD,", 1, 15),
    (b"a,MX0.0,BOOL,", 1, 15),
    (b"a,E0.0,BOOL,", 1, 15),
    (b"a,L0.0,BOOL,", 1, 15),
    (b"a,LW0,WORD,", 1, 15),
    (b"a,DBW0,WORD,", 1, 15),
    (b"a,DIX0.0,BOOL,", 1, 15),
    (b"a,PI0.0,BOOL,", 1, 15),
    (b"a,PEW0,WORD,", 1, 15),
    (b"a,T65536,TIMER,", 1, 15),
    (b"a,C 1 x,COUNTER,", 1, 15),
    (b"a,Z1,COUNTER,", 1, 15),
    (b"a,DB,DB 1,", 1, 15),
    (b"a,DB65536,,", 1, 15),
    (b"a,VAT,,", 1, 15),
    (b"a,SDB 65536,,", 1, 15),
];

// Types that don't fit the address.
static WRONG_TYPES: [Row; 11] = [
    (b"a,M0.0,,", 1, 15),
    (b"a,M0.0,bool,", 1, 15),
    (b"a,M0.0,BYTE,", 1, 15),
    (b"a,MB0,BOOL,", 1, 15),
    (b"a,MW0,BYTE,", 1, 15),
    (b"a,MW0,\" WORD\",", 1, 15),
    (b"a,MD0,DATE,", 1, 15),
    (b"a,T0,COUNTER,", 1, 15),
    (b"a,C0,TIMER,", 1, 15),
    (b"a,T0,S5TIME,", 1, 15),
    (b"a,M0.0,BOOL,\nb,X1,BOOL,\nc", 2, 15),
];

// A name stands once, whatever the case of ASCII letters.
static NAMES: [Row; 12] = [
    (b"a,M0.0,BOOL,\nb,M0.0,BOOL,", 0, 0),
    (b"a,M0.0,BOOL,\n\" a\",M0.1,BOOL,", 0, 0),
    (b"a,M0.0,BOOL,\naa,M0.1,BOOL,", 0, 0),
    (b"\xE4,M0.0,BOOL,\n\xC4,M0.1,BOOL,", 0, 0),
    (
        b"a@,M0.0,BOOL,\na`,M0.1,BOOL,\nb[,M0.2,BOOL,\nb{,M0.3,BOOL,",
        0,
        0,
    ),
    (b"a,VAT 1,,\na,M0.0,BOOL,\nA,SFB 2,,\na,SDB 3,,", 0, 0),
    (b"a,M0.0,BOOL,\na,M0.0,BOOL,", 2, 16),
    (b"Motor,M0.0,BOOL,\nmOTOR,M0.1,BOOL,", 2, 16),
    (b"z,T1,TIMER,\nZ1,T2,TIMER,\nz  ,M0.0,BOOL,", 3, 16),
    (b"a,M0.0,BOOL,\n\n\nb,M0.1,BOOL,\nB\t,DB 1,,\na", 5, 16),
    (b"a,M0.0,BOOL,\nA,M0.8,BOOL,", 2, 15),
    (b"a,M0.0,BOOL,\na,M0.0,BOOL,,\na,M0.0,BOOL,", 2, 14),
];

// Letters of the other language are none, those that both languages have are right in either.
static GERMAN: [Row; 12] = [
    (
        b"a,E 0.0,BOOL,\nb,A 124.7,BOOL,\nc,EB 0,BYTE,\nd,AW 2,WORD,",
        0,
        0,
    ),
    (
        b"a,ED 0,DWORD,\nb,PEB 1,BYTE,\nc,PED 4,DWORD,\nd,PAW 2,WORD,",
        0,
        0,
    ),
    (
        b"a,Z 1,COUNTER,\nb,T 1,TIMER,\nc,M 0.0,BOOL,\nd,VAT 1,,",
        0,
        0,
    ),
    (
        b"a,OB 1,,\nb,FB 1,,\nc,FC 1,,\nd,SFC 1,,\ne,DB 1,,\nf,UDT 1,,",
        0,
        0,
    ),
    (b"a,I 0.0,BOOL,", 1, 15),
    (b"a,QW 2,WORD,", 1, 15),
    (b"a,C 1,COUNTER,", 1, 15),
    (b"a,PIB 1,BYTE,", 1, 15),
    (b"a,PQW 2,WORD,", 1, 15),
    (b"a,E 0.0,BYTE,", 1, 15),
    (b"a,AX 0.0,BOOL,", 1, 15),
    (b"a,E 0.0,BOOL,\nA,A 0.0,BOOL,", 2, 16),
];

fn are_refused<R: Abort>(rt: &R, alloc: Global, language: Language, rows: &[Row]) {
    for (file, line, rule) in rows {
        same(
            rt,
            *file,
            check_result(alloc, language, file),
            (*line, *rule),
        );
    }
}

/// Whether a reader finds one record of four fields.
fn reads_four(reader: &mut Reader<&[u8]>, record: &mut ByteRecord) -> Result<bool, csv::Error> {
    let found = reader.read_byte_record(record)?;
    let fields = record.len();
    Ok(found && fields == 4 && !reader.read_byte_record(record)?)
}

/// Whether csv's own reader finds one record of four fields.
fn is_record_of_four(alloc: Global, line: &[u8]) -> Result<bool, csv::Error> {
    let mut reader = ReaderBuilder::new()
        .has_headers(false)
        .flexible(true)
        .from_reader(alloc, line);
    let mut record = ByteRecord::new(alloc);
    reads_four(&mut reader, &mut record)
}

#[test]
fn german_addresses(rt: HostRuntime) {
    are_refused(&rt, rt.alloc(), Language::German, &GERMAN);
}

#[test]
fn lines_that_are_no_record_of_four_fields(rt: HostRuntime) {
    are_refused(&rt, rt.alloc(), Language::English, &RECORDS);
}

#[test]
fn declarations_that_are_not_right(rt: HostRuntime) {
    are_refused(&rt, rt.alloc(), Language::English, &DECLARATIONS);
    are_refused(&rt, rt.alloc(), Language::English, &WRONG_ADDRESSES);
    are_refused(&rt, rt.alloc(), Language::English, &WRONG_TYPES);
}

#[test]
fn names_that_stand_twice(rt: HostRuntime) {
    are_refused(&rt, rt.alloc(), Language::English, &NAMES);
}

// Of the lines that aren't empty and have no line feed, csv's reader says the same.
#[test]
fn lines_as_csv_reads_them(rt: HostRuntime) -> Result<(), Fail> {
    for (line, _number, rule) in &RECORDS {
        if line.is_empty() || line.contains(&b'\n') {
            continue;
        }
        let is_record = is_record_of_four(rt.alloc(), line)?;
        same(&rt, line, is_record, *rule != 14);
    }
    Ok(())
}
