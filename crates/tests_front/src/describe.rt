//! Trees as text: one line for each block, section, declaration, setting, statement and actual
//! parameter, each with its line in the source, so that a table holds trees beside their sources.

use plc_base::Width;
use std::alloc::{AllocError, Global};
use stl_ast::{
    Actual, Block, BlockName, Bounds, Characters, Declaration, ElementType, Init, Letters, Literal,
    Name, Numbered, Operand, Part, PathHead, PathStep, Setting, Simple, Statement, Tree, TypeTree,
};

type WriteResult = Result<(), AllocError>;

/// The name, or `?` where it is no text.
fn name_text(name: &Name) -> &str {
    str::from_utf8(name.as_bytes()).unwrap_or("?")
}

/// These words and the name.
fn words_and_name(out: &mut String, words: &str, name: &Name) -> WriteResult {
    out.push_str(words)?;
    out.push_str(name_text(name))
}

/// `Db 10`, or a quoted name.
fn block_name(out: &mut String, name: &BlockName) -> WriteResult {
    match name {
        BlockName::Number { id } => {
            let kind = id.kind;
            let number = id.number;
            write!(out, "{kind:?} {number}")
        }
        BlockName::Quoted { name } => {
            words_and_name(out, "\"", name)?;
            out.push_str("\"")
        }
    }
}

/// This word, and the bytes, each behind a blank.
fn word_and_bytes(out: &mut String, word: &str, bytes: &Characters) -> WriteResult {
    out.push_str(word)?;
    for byte in bytes.as_slice() {
        write!(out, " {byte}")?;
    }
    Ok(())
}

/// The word and the number of a literal that is one; a time is in milliseconds.
fn word_and_number(literal: &Literal) -> Option<(&'static str, i64)> {
    match literal {
        Literal::Number { value } => Some(("Number", i64::from(*value))),
        Literal::Binary { value } => Some(("Binary", i64::from(*value))),
        Literal::Byte { value } => Some(("Byte", i64::from(*value))),
        Literal::Word { value } => Some(("Word", i64::from(*value))),
        Literal::Dword { value } => Some(("Dword", i64::from(*value))),
        Literal::Long { value } => Some(("Long", i64::from(*value))),
        Literal::Count { value } => Some(("Count", i64::from(*value))),
        Literal::Time { ms } => Some(("Time", i64::from(*ms))),
        Literal::S5time { ms } => Some(("S5time", i64::from(*ms))),
        _ => None,
    }
}

/// `Word 255`.
fn literal(out: &mut String, literal: &Literal) -> WriteResult {
    if let Some((word, number)) = word_and_number(literal) {
        return write!(out, "{word} {number}");
    }
    match literal {
        Literal::Truth { value } => write!(out, "Truth {value}"),
        Literal::Characters { bytes } => word_and_bytes(out, "Characters", bytes),
        Literal::Bytes { bytes } => word_and_bytes(out, "Bytes", bytes),
        _ => Ok(()),
    }
}

/// `.name` or `[index]`.
fn step(out: &mut String, step: &PathStep) -> WriteResult {
    match step {
        PathStep::Named { name } => words_and_name(out, ".", name),
        PathStep::Index { at } => write!(out, "[{at}]"),
    }
}

fn steps(out: &mut String, steps: &[PathStep]) -> WriteResult {
    for one in steps {
        step(out, one)?;
    }
    Ok(())
}

fn path_head(out: &mut String, head: &PathHead) -> WriteResult {
    match head {
        PathHead::Local { name } => words_and_name(out, "Local ", name),
        PathHead::InBlock { name } => {
            out.push_str("In ")?;
            block_name(out, name)
        }
        PathHead::Symbol { name } => words_and_name(out, "Symbol ", name),
    }
}

/// A blank and the letters, where there are any.
fn area(out: &mut String, area: Option<Letters>) -> WriteResult {
    match area {
        Some(letters) => write!(out, " {letters:?}"),
        None => Ok(()),
    }
}

/// These words and the name, as ` in Db 10`, where there is one.
fn named_block(out: &mut String, words: &str, block: &Option<BlockName>) -> WriteResult {
    match block {
        Some(name) => {
            out.push_str(words)?;
            block_name(out, name)
        }
        None => Ok(()),
    }
}

fn direct(out: &mut String, area: Letters, width: Width, byte: u16, bit: u8) -> WriteResult {
    write!(out, "Direct {area:?} {width:?} {byte}.{bit}")
}

fn by_memory(
    out: &mut String,
    area: Letters,
    width: Width,
    from: Letters,
    byte: u16,
) -> WriteResult {
    write!(out, "ByMemory {area:?} {width:?} {from:?} {byte}")
}

fn number_by(out: &mut String, what: Numbered, from: Letters, byte: u16) -> WriteResult {
    write!(out, "NumberBy {what:?} {from:?} {byte}")
}

fn by_register(
    out: &mut String,
    letters: Option<Letters>,
    width: Width,
    register: u8,
    bits: u32,
) -> WriteResult {
    out.push_str("ByRegister")?;
    area(out, letters)?;
    write!(out, " {width:?} {register} {bits}")
}

fn pointer(out: &mut String, letters: Option<Letters>, byte: u16, bit: u8) -> WriteResult {
    out.push_str("Pointer")?;
    area(out, letters)?;
    write!(out, " {byte}.{bit}")
}

fn open_block(out: &mut String, di: bool, name: &BlockName) -> WriteResult {
    out.push_str(if di { "OpenBlock DI " } else { "OpenBlock DB " })?;
    block_name(out, name)
}

fn called(out: &mut String, name: &BlockName, instance: &Option<BlockName>) -> WriteResult {
    out.push_str("Called ")?;
    block_name(out, name)?;
    named_block(out, " with ", instance)
}

/// An operand, as `Direct M Word 2.0`.
fn operand(out: &mut String, operand: &Operand) -> WriteResult {
    match operand {
        Operand::Nothing => out.push_str("Nothing"),
        Operand::Direct {
            block,
            area,
            width,
            byte,
            bit,
        } => {
            direct(out, *area, *width, *byte, *bit)?;
            named_block(out, " in ", block)
        }
        Operand::Timer { number } => write!(out, "Timer {number}"),
        Operand::Counter { number } => write!(out, "Counter {number}"),
        Operand::Named { head, steps: own } => {
            path_head(out, head)?;
            steps(out, own.as_slice())
        }
        Operand::ByMemory {
            area,
            width,
            from,
            byte,
        } => by_memory(out, *area, *width, *from, *byte),
        Operand::NumberBy { what, from, byte } => number_by(out, *what, *from, *byte),
        Operand::ByRegister {
            area,
            width,
            register,
            bits,
        } => by_register(out, *area, *width, *register, *bits),
        Operand::Pointer { area, byte, bit } => pointer(out, *area, *byte, *bit),
        Operand::Constant { value } => literal(out, value),
        Operand::Label { name } => words_and_name(out, "Label ", name),
        Operand::OfStatus { flag } => write!(out, "OfStatus {flag:?}"),
        Operand::Other { name } => words_and_name(out, "Other ", name),
        Operand::OpenBlock { di, name } => open_block(out, *di, name),
        Operand::Called { name, instance } => called(out, name, instance),
    }
}

/// `  7 a := Direct M Word 2.0`.
fn actual(out: &mut String, actual: &Actual) -> WriteResult {
    let line = actual.line;
    let name = name_text(&actual.name);
    write!(out, "  {line} {name} := ")?;
    operand(out, &actual.value)?;
    out.push_str("\n")
}

fn label(out: &mut String, label: &Option<Name>) -> WriteResult {
    match label {
        Some(name) => {
            let text = name_text(name);
            write!(out, "{text}: ")
        }
        None => Ok(()),
    }
}

/// `7 M1: L Direct M Word 2.0`, and a line for each actual parameter.
fn statement(out: &mut String, statement: &Statement) -> WriteResult {
    let line = statement.line;
    let code = statement.code;
    write!(out, "{line} ")?;
    label(out, &statement.label)?;
    write!(out, "{code:?} ")?;
    operand(out, &statement.operand)?;
    out.push_str("\n")?;
    for one in statement.actuals.as_slice() {
        actual(out, one)?;
    }
    Ok(())
}

fn statements(out: &mut String, statements: &[Statement]) -> WriteResult {
    for one in statements {
        statement(out, one)?;
    }
    Ok(())
}

/// `9 Set .a[1] := Word 255`.
fn setting(out: &mut String, setting: &Setting) -> WriteResult {
    let line = setting.line;
    write!(out, "{line} Set ")?;
    steps(out, setting.path.as_slice())?;
    out.push_str(" := ")?;
    literal(out, &setting.value)?;
    out.push_str("\n")
}

fn settings(out: &mut String, settings: &[Setting]) -> WriteResult {
    for one in settings {
        setting(out, one)?;
    }
    Ok(())
}

fn arrays(out: &mut String, arrays: &[Bounds]) -> WriteResult {
    for bounds in arrays {
        let low = bounds.low;
        let high = bounds.high;
        write!(out, "Array {low}..{high} of ")?;
    }
    Ok(())
}

fn element(out: &mut String, element: &ElementType) -> WriteResult {
    match element {
        ElementType::Plain { kind } => write!(out, "{kind:?}"),
        ElementType::Structure => out.push_str("Structure"),
        ElementType::Udt { name } => block_name(out, name),
        ElementType::DateAndTime => out.push_str("DateAndTime"),
    }
}

/// `Array 1..2 of Int`.
fn type_tree(out: &mut String, of: &TypeTree) -> WriteResult {
    arrays(out, of.arrays.as_slice())?;
    element(out, &of.of)
}

fn count(out: &mut String, count: Option<u16>) -> WriteResult {
    match count {
        Some(count) => write!(out, "{count} times "),
        None => Ok(()),
    }
}

/// Each initial value behind `:=`.
fn inits(out: &mut String, inits: &[Init]) -> WriteResult {
    for init in inits {
        out.push_str(" := ")?;
        count(out, init.count)?;
        literal(out, &init.value)?;
    }
    Ok(())
}

/// `4 level 1 a : Array 1..2 of Int := 2 times Number 5`.
fn declaration(out: &mut String, declaration: &Declaration) -> WriteResult {
    let line = declaration.line;
    let level = declaration.level;
    let name = name_text(&declaration.name);
    write!(out, "{line} level {level} {name} : ")?;
    type_tree(out, &declaration.of)?;
    inits(out, declaration.init.as_slice())?;
    out.push_str("\n")
}

fn declarations(out: &mut String, declarations: &[Declaration]) -> WriteResult {
    for one in declarations {
        declaration(out, one)?;
    }
    Ok(())
}

/// `3 Section Static`, and its declarations.
fn part(out: &mut String, part: &Part) -> WriteResult {
    let line = part.line;
    let kind = part.kind;
    writeln!(out, "{line} Section {kind:?}")?;
    declarations(out, part.items.as_slice())
}

fn parts(out: &mut String, parts: &[Part]) -> WriteResult {
    for one in parts {
        part(out, one)?;
    }
    Ok(())
}

fn shape(out: &mut String, shape: &Option<TypeTree>) -> WriteResult {
    match shape {
        Some(of) => {
            out.push_str("Shape ")?;
            type_tree(out, of)?;
            out.push_str("\n")
        }
        None => Ok(()),
    }
}

fn instance_of(out: &mut String, name: &Option<BlockName>) -> WriteResult {
    match name {
        Some(name) => {
            out.push_str("Instance of ")?;
            block_name(out, name)?;
            out.push_str("\n")
        }
        None => Ok(()),
    }
}

/// ` : Int`, where a function gives a value back.
fn returns(out: &mut String, returns: Option<Simple>) -> WriteResult {
    match returns {
        Some(kind) => write!(out, " : {kind:?}"),
        None => Ok(()),
    }
}

/// `1 to 9 Fc "x" : Int`.
fn head(out: &mut String, block: &Block) -> WriteResult {
    let line = block.line;
    let end_line = block.end_line;
    let kind = block.kind;
    write!(out, "{line} to {end_line} {kind:?} ")?;
    block_name(out, &block.name)?;
    returns(out, block.result)?;
    out.push_str("\n")
}

fn block(out: &mut String, block: &Block) -> WriteResult {
    head(out, block)?;
    parts(out, block.parts.as_slice())?;
    shape(out, &block.shape)?;
    instance_of(out, &block.instance_of)?;
    declarations(out, block.components.as_slice())?;
    settings(out, block.settings.as_slice())?;
    statements(out, block.body.as_slice())
}

/// The tree as text.
pub fn described(alloc: Global, tree: &Tree) -> Result<String, AllocError> {
    let mut out = String::new(alloc);
    for one in tree.blocks.as_slice() {
        block(&mut out, one)?;
    }
    Ok(out)
}
