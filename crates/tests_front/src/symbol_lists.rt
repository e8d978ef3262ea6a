use crate::compare::same;
use crate::symbol_calls::Named::{self, Block, Counter, Timer, Variable};
use crate::symbol_calls::{are_found, read, target};
use plc_base::{Area, BlockKind, Width};
use std::process::Abort;
use std::test::Fail;
use stl_symbols::{Language, Symbols};

// As STEP 7 exports symbols: four quoted fields, filled up with blanks.
const EXPORT: &[u8] =
    b"\"Enable                  \",\"I       0.0\",\"BOOL      \",\"on                  \"\r\n\
\"Motor 1 runs            \",\"Q     124.7\",\"BOOL      \",\"                    \"\r\n\
\"Speed                   \",\"PIW   256  \",\"INT       \",\"says \"\"n\"\", in rpm\"\r\n\
\"Watch                   \",\"VAT     1  \",\"          \",\"                    \"\r\n\
\"Delay                   \",\"T       5  \",\"TIMER     \",\"                    \"\r\n\
\"Pieces                  \",\"C       7  \",\"COUNTER   \",\"                    \"\r\n\
\"Recipe                  \",\"DB     10  \",\"UDT     2 \",\"                    \"\r\n\
\"Main                    \",\"OB      1  \",\"OB      1 \",\"                    \"\r\n\
\"SET_TINT                \",\"SFC    28  \",\"SFC    28 \",\"                    \"\r\n\
\"Total                   \",\"MD     20  \",\"DINT      \",\"                    \"\r\n";

// A name keeps the case and the blanks at its start, and a quote in it stands as it is.
const ODD_NAMES: &[u8] = b"\" a \"\"b\"\"\t \",I0.1,BOOL,\nc\"d,MB3,CHAR,\n\xC4,C0,COUNTER,\n";

// The letters of inputs, outputs and counters are others in German.
const GERMAN_FILE: &[u8] =
    b"\"Enable\",\"E       0.0\",\"BOOL\",\"\"\nLamp,A4.0,BOOL,\nSpeed,PEW 256,INT,\nValve,PAB 3,BYTE,\n\
Pieces,Z 7,COUNTER,\nTotal,MD 20,DINT,\nDelay,T 5,TIMER,\n";

/// A symbols file, the language of its addresses, its names in their order with what they stand for,
/// and what further names find.
struct File {
    bytes: &'static [u8],
    language: Language,
    symbols: &'static [(&'static [u8], Named)],
    found: &'static [(&'static [u8], Option<Named>)],
}

static FILES: [File; 3] = [
    File {
        bytes: EXPORT,
        language: Language::English,
        symbols: &[
            // read by hand from the export
            (b"Enable", Variable(Area::I, Width::Bit, 0, 0)),
            (b"Motor 1 runs", Variable(Area::Q, Width::Bit, 124, 7)),
            (b"Speed", Variable(Area::P, Width::Word, 256, 0)),
            (b"Delay", Timer(5)),
            (b"Pieces", Counter(7)),
            (b"Recipe", Block(BlockKind::Db, 10)),
            (b"Main", Block(BlockKind::Ob, 1)),
            (b"SET_TINT", Block(BlockKind::Sfc, 28)),
            (b"Total", Variable(Area::M, Width::Dword, 20, 0)),
        ],
        found: &[
            // without case
            (b"enable", Some(Variable(Area::I, Width::Bit, 0, 0))),
            (b"ENABLE", Some(Variable(Area::I, Width::Bit, 0, 0))),
            (b"set_tint", Some(Block(BlockKind::Sfc, 28))),
            (b"MOTOR 1 RUNS", Some(Variable(Area::Q, Width::Bit, 124, 7))),
            (b"Watch", None),
            (b"Enable ", None),
            (b"Enabl", None),
            (b"", None),
            (b"Enable                   ", None),
        ],
    },
    File {
        bytes: ODD_NAMES,
        language: Language::English,
        symbols: &[
            (b" a \"b\"", Variable(Area::I, Width::Bit, 0, 1)),
            (b"c\"d", Variable(Area::M, Width::Byte, 3, 0)),
            (b"\xC4", Counter(0)),
        ],
        found: &[
            // the name with a quote, and a letter that is no ASCII one
            (b" A \"B\"", Some(Variable(Area::I, Width::Bit, 0, 1))),
            (b"\xE4", None),
        ],
    },
    File {
        bytes: GERMAN_FILE,
        language: Language::German,
        symbols: &[
            (b"Enable", Variable(Area::I, Width::Bit, 0, 0)),
            (b"Lamp", Variable(Area::Q, Width::Bit, 4, 0)),
            (b"Speed", Variable(Area::P, Width::Word, 256, 0)),
            (b"Valve", Variable(Area::P, Width::Byte, 3, 0)),
            (b"Pieces", Counter(7)),
            (b"Total", Variable(Area::M, Width::Dword, 20, 0)),
            (b"Delay", Timer(5)),
        ],
        found: &[],
    },
];

/// The list has these names and targets in this order, and each name finds its target.
fn are_listed(rt: &impl Abort, symbols: &Symbols, expected: &[(&[u8], Named)]) {
    same(rt, "symbols", symbols.list().len(), expected.len());
    for (symbol, (name, named)) in symbols.list().iter().zip(expected) {
        let found = (symbol.name.as_slice(), symbol.target, symbols.lookup(name));
        let wanted = target(*named);
        same(rt, *name, found, (*name, wanted, Some(wanted)));
    }
}

#[test]
fn symbols_of_files(rt: HostRuntime) -> Result<(), Fail> {
    for file in &FILES {
        let symbols = read(rt.alloc(), file.language, file.bytes)?;
        are_listed(&rt, &symbols, file.symbols);
        are_found(&rt, &symbols, file.found);
    }
    Ok(())
}
