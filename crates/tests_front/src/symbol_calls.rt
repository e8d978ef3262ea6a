use crate::compare::same;
use plc_base::{Area, BlockId, BlockKind, Place, SourceFault, Width};
use std::alloc::Global;
use std::process::Abort;
use stl_symbols::{Language, SYMBOLS_LIMIT, Symbols, Target, read_symbols, read_symbols_german};

/// The symbols of a file with addresses of this language, or its refusal; a longer file than the limit
/// is refused for want of memory.
pub(crate) fn read(alloc: Global, language: Language, file: &[u8]) -> Result<Symbols, SourceFault> {
    if file.len() > SYMBOLS_LIMIT {
        return Err(SourceFault::NoMemory);
    }
    match language {
        Language::English => read_symbols(alloc, file),
        Language::German => read_symbols_german(alloc, file),
    }
}

/// The line and the rule of a file's refusal; (0, 0) for symbols and (0, 1) for want of memory.
pub(crate) fn check_result(alloc: Global, language: Language, file: &[u8]) -> (u32, u16) {
    match read(alloc, language, file) {
        Ok(_) => (0, 0),
        Err(SourceFault::Refused { refusal }) => (refusal.line, refusal.rule),
        Err(SourceFault::NoMemory) => (0, 1),
    }
}

/// What a name stands for, as a table can hold it: a variable by its area, width, byte and bit.
#[derive(Clone, Copy)]
pub(crate) enum Named {
    Variable(Area, Width, u16, u8),
    Block(BlockKind, u16),
    Timer(u16),
    Counter(u16),
}

pub(crate) fn target(named: Named) -> Target {
    match named {
        Named::Variable(area, width, byte, bit) => Target::Variable {
            place: Place {
                area,
                number: 0,
                byte,
                bit,
            },
            width,
        },
        Named::Block(kind, number) => Target::Block {
            id: BlockId { kind, number },
        },
        Named::Timer(number) => Target::Timer { number },
        Named::Counter(number) => Target::Counter { number },
    }
}

/// Each name finds what it stands for, or nothing.
pub(crate) fn are_found(rt: &impl Abort, symbols: &Symbols, rows: &[(&[u8], Option<Named>)]) {
    for (name, named) in rows {
        same(rt, *name, symbols.lookup(name), named.map(target));
    }
}
