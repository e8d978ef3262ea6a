//! What the operand of a statement names, and the block that a call is checked by. A statement stands
//! in the body of FC 1, the eleventh block (`calls`).
use crate::calls::{SYMBOLS, symbols_of, tree_of_source, with_body};
use crate::compare::same;
use block_layout::lay_out_sound;
use plc_base::{Area, BlockId, BlockKind, Flag, Place, Width};
use std::alloc::Global;
use std::process::Abort;
use std::test::Fail;
use stl_ast::{PartKind, Simple, Tree};
use stl_symbols::Symbols;
use stl_types::{Callee, Context, Register, Resolution, ResolvedOperand, Side, check};

/// What a statement comes to.
#[derive(Drop)]
struct LastStatement {
    seen: Resolution,
    resolved: Option<ResolvedOperand>,
    callee: Option<Callee>,
}

/// What the last statement of the context's block comes to.
fn last_in(alloc: Global, context: &Context<'_>) -> Result<LastStatement, Fail> {
    let blocks = context.tree().blocks.as_slice();
    let block = blocks.get(context.block()).ok_or("no such block")?;
    let statement = block.body.as_slice().last().ok_or("no statement")?;
    let seen = context.resolution(alloc, &statement.operand)?;
    let resolved = context.resolved_operand(alloc, statement)?;
    let callee = context.callee(alloc, &statement.operand)?;
    Ok(LastStatement {
        seen,
        resolved,
        callee,
    })
}

fn last_of(alloc: Global, tree: &Tree, symbols: &Symbols) -> Result<LastStatement, Fail> {
    let layouts = lay_out_sound(alloc, tree, symbols)?;
    last_in(alloc, &Context::new(symbols, tree, &layouts).at(10))
}

/// What the last statement of a body comes to.
fn last_statement(alloc: Global, body: &[u8]) -> Result<LastStatement, Fail> {
    let source = with_body(alloc, body)?;
    let tree = tree_of_source(alloc, source.as_slice())?;
    let symbols = symbols_of(alloc, SYMBOLS)?;
    last_of(alloc, &tree, &symbols)
}

/// A place of no type with its side.
fn at(area: Area, byte: u16, width: Width, side: Side) -> ResolvedOperand {
    ResolvedOperand::Direct {
        place: Place {
            area,
            number: 0,
            byte,
            bit: 0,
        },
        width,
        side,
        declared: None,
    }
}

/// A variable of a type: a component of DB 1, or a temporary one with the number 0.
fn variable(area: Area, number: u16, byte: u16, width: Width, of: Simple) -> ResolvedOperand {
    ResolvedOperand::Direct {
        place: Place {
            area,
            number,
            byte,
            bit: 0,
        },
        width,
        side: Side::Both,
        declared: Some(of),
    }
}

fn parameter(index: usize, section: PartKind, declared: Simple) -> ResolvedOperand {
    ResolvedOperand::Parameter {
        index,
        section,
        declared,
    }
}

fn called(kind: BlockKind, number: u16, instance: Option<u16>) -> ResolvedOperand {
    ResolvedOperand::Called {
        block: BlockId { kind, number },
        instance,
    }
}

/// A statement with what its operand names.
type Row = (&'static str, ResolvedOperand);

/// Each statement's operand names what stands beside it.
fn are_named(rt: &impl Abort, alloc: Global, rows: &[Row]) -> Result<(), Fail> {
    for (body, view) in rows {
        let found = last_statement(alloc, body.as_bytes())?;
        let seen = Resolution::Resolved { view: *view };
        same(rt, *body, (found.seen, found.resolved), (seen, Some(*view)));
    }
    Ok(())
}

#[test]
fn addresses_and_symbols(rt: HostRuntime) -> Result<(), Fail> {
    let memory = at(Area::M, 2, Width::Word, Side::Both);
    let rows = [
        ("L MW 2;", memory),
        ("L \"Speed\";", memory),
        ("A \"motor\";", at(Area::M, 0, Width::Bit, Side::Both)),
        ("L PIW 4;", at(Area::P, 4, Width::Word, Side::Inputs)),
        ("T PQB 4;", at(Area::P, 4, Width::Byte, Side::Outputs)),
        ("T \"Outside\";", at(Area::P, 4, Width::Word, Side::Both)),
        ("L DIW 6;", at(Area::Di, 6, Width::Word, Side::Both)),
        ("L \"Delay\";", ResolvedOperand::Timer { number: 5 }),
        ("A C 7;", ResolvedOperand::Counter { number: 7 }),
    ];
    are_named(&rt, rt.alloc(), &rows)
}

/// The temporary variables are tmp at 0, way at 2.0, own from 4 on with its structure from 6 on, and
/// row from 14 on.
#[test]
fn variables_and_parameters(rt: HostRuntime) -> Result<(), Fail> {
    let (bit, word) = (Width::Bit, Width::Word);
    let (of_bool, of_int) = (Simple::Bool, Simple::Int);
    let rows = [
        ("L DB1.num;", variable(Area::Db, 1, 0, word, of_int)),
        ("A DB1.inner.flag;", variable(Area::Db, 1, 2, bit, of_bool)),
        ("L #tmp;", variable(Area::L, 0, 0, word, of_int)),
        ("= #own.inner.flag;", variable(Area::L, 0, 6, bit, of_bool)),
        ("L #ROW[2];", variable(Area::L, 0, 16, word, of_int)),
        ("L #num;", parameter(0, PartKind::Input, of_int)),
        ("T #res;", parameter(3, PartKind::Output, of_int)),
        ("T #wide;", parameter(4, PartKind::InOut, Simple::Dword)),
    ];
    are_named(&rt, rt.alloc(), &rows)
}

#[test]
fn other_operands(rt: HostRuntime) -> Result<(), Fail> {
    let data = ResolvedOperand::OpenBlock {
        di: false,
        number: 2,
    };
    let by_memory = ResolvedOperand::ByMemory {
        area: Area::M,
        width: Width::Word,
        from: Area::M,
        byte: 4,
    };
    let which = Register::Dbno;
    let instance = called(BlockKind::Fb, 1, Some(2));
    let rows = [
        ("SET;", ResolvedOperand::Nothing),
        ("L 5;", ResolvedOperand::Constant),
        ("x: JU x;", ResolvedOperand::Label),
        ("A BR;", ResolvedOperand::OfStatus { flag: Flag::Br }),
        ("L DBNO;", ResolvedOperand::Register { which }),
        ("OPN \"Data\";", data),
        ("L MW [MD 4];", by_memory),
        ("CALL \"Block\", \"Data\";", instance),
        ("CALL SFC 43;", called(BlockKind::Sfc, 43, None)),
    ];
    are_named(&rt, rt.alloc(), &rows)
}

/// A name or a component that isn't there, what rests on a block that is absent, and instructions that
/// don't take what is named.
#[test]
fn unresolved_operands(rt: HostRuntime) -> Result<(), Fail> {
    let word = at(Area::M, 2, Width::Word, Side::Both);
    let input = at(Area::P, 4, Width::Byte, Side::Inputs);
    for (body, seen) in [
        ("A \"Motro\";", Resolution::Unknown),
        ("L #own.other;", Resolution::Unknown),
        ("OPN DB 9;", Resolution::Unjudged),
        ("CALL FC 9;", Resolution::Unjudged),
        ("A MW 2;", Resolution::Resolved { view: word }),
        ("T PIB 4;", Resolution::Resolved { view: input }),
    ] {
        let found = last_statement(rt.alloc(), body.as_bytes())?;
        same(&rt, body, (found.seen, found.resolved), (seen, None));
    }
    Ok(())
}

/// A parameter: its name in upper case, its section and its type.
type Parameter = (&'static [u8], PartKind, Simple);

/// A call, the kind and number of the called block, its place in the source, and its parameters.
type Call = (
    &'static str,
    BlockKind,
    u16,
    Option<usize>,
    &'static [Parameter],
);

static CALLS: [Call; 4] = [
    (
        "CALL \"Fun\";",
        BlockKind::Fc,
        2,
        Some(6),
        &[
            (b"NUM", PartKind::Input, Simple::Int),
            (b"FLAG", PartKind::Output, Simple::Bool),
            (b"WIDE", PartKind::InOut, Simple::Dword),
            (b"RET_VAL", PartKind::Output, Simple::Int),
        ],
    ),
    // A static variable is no parameter.
    (
        "CALL FB 1, DB 2;",
        BlockKind::Fb,
        1,
        Some(2),
        &[
            (b"NUM", PartKind::Input, Simple::Int),
            (b"FLAG", PartKind::Output, Simple::Bool),
            (b"WIDE", PartKind::InOut, Simple::Dword),
        ],
    ),
    ("UC FC 3;", BlockKind::Fc, 3, Some(7), &[]),
    ("CALL SFC 43;", BlockKind::Sfc, 43, None, &[]),
];

/// A called block has these parameters, in any order, and no others.
fn has_parameters(rt: &impl Abort, callee: &Callee, parameters: &[Parameter]) {
    let formals = callee.formals.as_slice();
    same(rt, callee.id, formals.len(), parameters.len());
    for (name, section, kind) in parameters {
        let formal = formals.iter().find(|f| f.name.as_bytes() == *name);
        let found = formal.map(|f| (f.section, f.kind));
        same(rt, *name, found, Some((*section, *kind)));
    }
}

#[test]
fn called_blocks(rt: HostRuntime) -> Result<(), Fail> {
    for (body, kind, number, place, parameters) in &CALLS {
        let found = last_statement(rt.alloc(), body.as_bytes())?;
        let callee = found.callee.ok_or("no called block")?;
        let called = (callee.id.kind, callee.id.number, callee.place);
        same(&rt, *body, called, (*kind, *number, *place));
        has_parameters(&rt, &callee, parameters);
    }
    Ok(())
}

/// A block that is absent, one that breaks a rule by a parameter, a system function that isn't one of
/// the nine, and no call.
#[test]
fn no_called_block(rt: HostRuntime) -> Result<(), Fail> {
    for body in ["CALL FC 9;", "UC FC 4;", "CALL SFC 20;", "L MW 2;"] {
        let found = last_statement(rt.alloc(), body.as_bytes())?;
        same(&rt, body, found.callee.is_some(), false);
    }
    Ok(())
}

/// A context and a check give back what they are made of: eleven blocks, nine symbols.
fn parts_are_given_back(rt: &impl Abort, context: &Context<'_>, tree: &Tree) {
    let places = (context.block(), context.at(10).block());
    same(rt, "places", places, (0, 10));
    same(rt, "symbols", context.symbols().list().len(), 9);
    let blocks = (context.tree().blocks.len(), context.layouts().list().len());
    same(rt, "blocks", blocks, (11, 11));
    same(rt, "the tree", tree.blocks.len(), 11);
}

#[test]
fn parts_of_a_context(rt: HostRuntime) -> Result<(), Fail> {
    let alloc = rt.alloc();
    let source = with_body(alloc, b"SET;")?;
    let tree = tree_of_source(alloc, source.as_slice())?;
    let symbols = symbols_of(alloc, SYMBOLS)?;
    let layouts = lay_out_sound(alloc, &tree, &symbols)?;
    let checked = check(alloc, &tree, &symbols, &layouts)?;
    let context = Context::new(&symbols, &tree, &layouts);
    parts_are_given_back(&rt, &context, checked.tree());
    Ok(())
}
