use crate::calls::{Step, at, laid_sound, path_of, symbols_of};
use crate::compare::same;
use block_layout::{
    Cell, ComponentAt, Layout, Layouts, Member, Path, PathEnd, bits_of, elementary_place, fits,
    is_parameter, named_block, plain_bits, width_of,
};
use plc_base::{Area, BlockId, BlockKind, Place, Width};
use std::alloc::{AllocError, Global};
use std::fmt::Debug;
use std::process::Abort;
use std::test::Fail;
use stl_ast::{BlockName, Literal, Name, PartKind, PathStep, Simple};
use stl_symbols::Symbols;

/// The types with their bits and widths.
static TYPES: [(Simple, u64, Width); 9] = [
    (Simple::Bool, 1, Width::Bit),
    (Simple::Byte, 8, Width::Byte),
    (Simple::Char, 8, Width::Byte),
    (Simple::Word, 16, Width::Word),
    (Simple::Int, 16, Width::Word),
    (Simple::S5time, 16, Width::Word),
    (Simple::Dword, 32, Width::Dword),
    (Simple::Dint, 32, Width::Dword),
    (Simple::Time, 32, Width::Dword),
];

// 80 bits are ten bytes.
#[test]
fn bits_of_types(rt: HostRuntime) {
    for (kind, bits, width) in &TYPES {
        let found = (plain_bits(*kind), elementary_place(Area::Db, 7, 80, *kind));
        same(&rt, *kind, found, (*bits, at(Area::Db, 7, 10, 0, *width)));
        same(&rt, *kind, width_of(*kind), *width);
    }
}

/// Bits from the start of the local data, and the byte and the bit of a BOOL there.
static PLACES: [(u64, Option<(u16, u8)>); 3] = [
    (83, Some((10, 3))),
    (524_287, Some((65_535, 7))),
    (524_288, None),
];

fn bit_at(place: Option<(u16, u8)>) -> Option<(Place, Width)> {
    let (byte, bit) = place?;
    at(Area::L, 0, byte, bit, Width::Bit)
}

#[test]
fn places_of_bits(rt: HostRuntime) {
    for (bits, place) in &PLACES {
        let found = elementary_place(Area::L, 0, *bits, Simple::Bool);
        same(&rt, bits, found, bit_at(*place));
    }
}

/// A constant that has no bytes of its own, for tables.
#[derive(Clone, Copy)]
enum Constant {
    Truth(bool),
    Number(i32),
    Binary(u32),
    Byte(u8),
    Word(u16),
    Dword(u32),
    Long(i32),
    Count(u16),
    Time(i32),
    S5time(u32),
}

fn literal(constant: Constant) -> Literal {
    match constant {
        Constant::Truth(value) => Literal::Truth { value },
        Constant::Number(value) => Literal::Number { value },
        Constant::Binary(value) => Literal::Binary { value },
        Constant::Byte(value) => Literal::Byte { value },
        Constant::Word(value) => Literal::Word { value },
        Constant::Dword(value) => Literal::Dword { value },
        Constant::Long(value) => Literal::Long { value },
        Constant::Count(value) => Literal::Count { value },
        Constant::Time(ms) => Literal::Time { ms },
        Constant::S5time(ms) => Literal::S5time { ms },
    }
}

// Numbers are in two's complement: of 16 bits, or of 32 with `L#` and `T#`.
static CONSTANTS: [(Constant, u32); 11] = [
    (Constant::Truth(true), 1),
    (Constant::Truth(false), 0),
    (Constant::Number(-2), 0xFFFE),
    (Constant::Binary(0b1010), 10),
    (Constant::Byte(0xC3), 0xC3),
    (Constant::Word(0xABCD), 0xABCD),
    (Constant::Dword(0x8000_0001), 0x8000_0001),
    (Constant::Long(-2), 0xFFFF_FFFE),
    (Constant::Count(123), 0x0123),
    (Constant::Time(-1_000), 0xFFFF_FC18),
    (Constant::S5time(9_995), 0x1099),
];

#[test]
fn bits_of_constants(rt: HostRuntime) {
    for (constant, bits) in &CONSTANTS {
        same(&rt, bits, bits_of(&literal(*constant)), *bits);
    }
}

/// A constant with a type that it fits and one that it doesn't.
static FITTING: [(Constant, Simple, Simple); 10] = [
    (Constant::Truth(true), Simple::Bool, Simple::Byte),
    (Constant::Number(-2), Simple::Int, Simple::Word),
    (Constant::Binary(10), Simple::Byte, Simple::Int),
    (Constant::Byte(0xC3), Simple::Byte, Simple::Word),
    (Constant::Word(0x100), Simple::Word, Simple::Byte),
    (Constant::Dword(1), Simple::Dint, Simple::Word),
    (Constant::Long(-2), Simple::Dint, Simple::Dword),
    (Constant::Count(123), Simple::Word, Simple::Int),
    (Constant::Time(-1_000), Simple::Time, Simple::S5time),
    (Constant::S5time(10), Simple::S5time, Simple::Time),
];

#[test]
fn types_that_constants_fit(rt: HostRuntime) {
    for (constant, right, wrong) in &FITTING {
        let literal = literal(*constant);
        let found = (fits(&literal, *right), fits(&literal, *wrong));
        same(&rt, (*right, *wrong), found, (true, false));
    }
}

const fn id(kind: BlockKind, number: u16) -> BlockId {
    BlockId { kind, number }
}

const RECIPE: BlockId = BlockId {
    kind: BlockKind::Db,
    number: 10,
};

// The symbol of an address is no block.
static NAMED: [(&[u8], Option<BlockId>); 4] = [
    (b"Recipe", Some(RECIPE)),
    (b"RECIPE", Some(RECIPE)),
    (b"Speed", None),
    (b"Other", None),
];

fn quoted(alloc: Global, name: &[u8]) -> Result<BlockName, AllocError> {
    Ok(BlockName::Quoted {
        name: Name::new(alloc, name)?,
    })
}

fn name_means(
    rt: &impl Abort,
    alloc: Global,
    symbols: &Symbols,
    name: &[u8],
    id: Option<BlockId>,
) -> Result<(), Fail> {
    let quoted = quoted(alloc, name)?;
    same(rt, name, named_block(symbols, &quoted), id);
    Ok(())
}

fn number_means_itself(rt: &impl Abort, symbols: &Symbols, id: BlockId) {
    let found = named_block(symbols, &BlockName::Number { id });
    same(rt, id, found, Some(id));
}

fn names_mean(rt: &impl Abort, alloc: Global, symbols: &Symbols) -> Result<(), Fail> {
    number_means_itself(rt, symbols, id(BlockKind::Fb, 3));
    for (name, id) in &NAMED {
        name_means(rt, alloc, symbols, name, *id)?;
    }
    Ok(())
}

#[test]
fn blocks_that_names_mean(rt: HostRuntime) -> Result<(), Fail> {
    let symbols = symbols_of(
        rt.alloc(),
        b"\"Recipe\",\"DB 10\",\"UDT 2\",\"\"\n\"Speed\",\"PIW 256\",\"INT\",\"\"",
    )?;
    names_mean(&rt, rt.alloc(), &symbols)
}

// A section of each kind; a data block; a number that no data block has.
static SOURCE: &[u8] = b"FUNCTION_BLOCK FB 1
VAR_INPUT
a : BOOL;
END_VAR
VAR_OUTPUT
b : BOOL;
END_VAR
VAR_IN_OUT
c : INT;
END_VAR
VAR
d : ARRAY [0 .. 1] OF BYTE;
END_VAR
VAR_TEMP
e : CHAR;
f : DINT;
END_VAR
BEGIN
END_FUNCTION_BLOCK
DATA_BLOCK DB 1
STRUCT
g : BYTE;
h : STRUCT
i : BOOL;
j : WORD;
END_STRUCT;
k : ARRAY [2 .. 4] OF INT;
l : BOOL;
END_STRUCT
BEGIN
END_DATA_BLOCK
DATA_BLOCK DB 0
STRUCT
a : INT;
END_STRUCT
BEGIN
END_DATA_BLOCK";

/// A declaration: its name, its level, and whether it is a parameter.
type DeclarationRow = (&'static [u8], u32, bool);

fn are_declared(rt: &impl Abort, cells: &[Cell], rows: &[DeclarationRow]) {
    same(rt, "declarations", cells.len(), rows.len());
    for (cell, row) in cells.iter().zip(rows.iter()) {
        let parameter = is_parameter(cell.section);
        let found = (cell.name.as_bytes(), cell.level, parameter);
        same(rt, row.0, found, *row);
    }
}

static VARIABLES: [DeclarationRow; 4] = [
    (b"A", 0, true),
    (b"B", 0, true),
    (b"C", 0, true),
    (b"D", 0, false),
];

static TEMPORARIES: [DeclarationRow; 2] = [(b"E", 0, false), (b"F", 0, false)];

static COMPONENTS: [DeclarationRow; 6] = [
    (b"G", 0, false),
    (b"H", 0, false),
    (b"I", 1, false),
    (b"J", 1, false),
    (b"K", 0, false),
    (b"L", 0, false),
];

/// The place of a block, and that of the block there that breaks no rule.
static WHOLE: [(usize, Option<usize>); 4] = [(0, Some(0)), (1, Some(1)), (2, None), (3, None)];

fn blocks_are_whole(rt: &impl Abort, layouts: &Layouts) {
    for (place, whole) in &WHOLE {
        let found = (layouts.if_whole(*place), layouts.whole_at(*place).is_some());
        same(rt, place, found, (*whole, whole.is_some()));
    }
}

/// Outermost components of DB 1.
static MEMBERS: [(&[u8], usize, u64); 4] = [
    (b"G", 0, 0),
    (b"H", 1, 16),
    (b"K", 4, 48),
    (b"L", 5, 96),
];

// A component of a structure is no outermost one.
fn members_are_found(rt: &impl Abort, layouts: &Layouts, components: &Layout) {
    for (name, place, offset) in &MEMBERS {
        let member = Member {
            place: *place,
            offset: *offset,
        };
        let found = (components.outermost(name), layouts.has_component(1, name));
        same(rt, name, found, (Some(member), true));
    }
    let inner = (components.outermost(b"J"), layouts.has_component(1, b"J"));
    same(rt, "J", inner, (None, false));
}

fn components_are_found(rt: &impl Abort, layouts: &Layouts) -> Result<(), Fail> {
    let components = &layouts.whole_at(1).ok_or("no block")?.components;
    are_declared(rt, components.cells(), &COMPONENTS);
    members_are_found(rt, layouts, components);
    Ok(())
}

// A temporary variable is no outermost component.
fn variables_are_declared(rt: &impl Abort, layouts: &Layouts) {
    are_declared(rt, layouts.cells(0, false), &VARIABLES);
    are_declared(rt, layouts.cells(0, true), &TEMPORARIES);
    are_declared(rt, layouts.cells(3, false), &[]);
    same(rt, "E", layouts.has_component(0, b"E"), false);
}

#[test]
fn declarations_of_blocks(rt: HostRuntime) -> Result<(), Fail> {
    let layouts = laid_sound(rt.alloc(), SOURCE)?;
    variables_are_declared(&rt, &layouts);
    blocks_are_whole(&rt, &layouts);
    components_are_found(&rt, &layouts)
}

// The last byte of DB 1 ends with the word that `l` begins: 96 bits before it, and 16.
static PLACED: [(BlockKind, u16, Option<usize>, Option<u64>); 3] = [
    (BlockKind::Fb, 1, Some(0), Some(64)),
    (BlockKind::Db, 1, Some(1), Some(112)),
    (BlockKind::Fc, 1, None, None),
];

fn blocks_are_placed(rt: &impl Abort, layouts: &Layouts) {
    same(rt, "blocks", layouts.list().len(), 3);
    for (kind, number, place, bits) in &PLACED {
        let id = id(*kind, *number);
        let layout = layouts.lookup(id);
        let found = (layouts.place(id), layout.map(|b| b.components.bits()));
        same(rt, id, found, (*place, *bits));
    }
    are_declared(rt, layouts.parameters(0), &VARIABLES[..3]);
    are_declared(rt, layouts.parameters(1), &[]);
}

static DATA_BLOCKS: [(BlockKind, u16, Option<usize>); 3] = [
    (BlockKind::Db, 1, Some(1)),
    (BlockKind::Db, 2, None),
    (BlockKind::Fb, 1, None),
];

fn data_block_is(
    rt: &impl Abort,
    layouts: &Layouts,
    symbols: &Symbols,
    what: impl Debug + Drop,
    name: &BlockName,
    place: Option<usize>,
) {
    same(rt, what, layouts.data_block(symbols, name), place);
}

fn recipe_is_found(
    rt: &impl Abort,
    alloc: Global,
    layouts: &Layouts,
    symbols: &Symbols,
) -> Result<(), Fail> {
    let recipe = quoted(alloc, b"recipe")?;
    data_block_is(rt, layouts, symbols, "recipe", &recipe, Some(1));
    Ok(())
}

// The number of a function block means no data block.
fn data_blocks_are_found(rt: &impl Abort, alloc: Global, layouts: &Layouts) -> Result<(), Fail> {
    let symbols = symbols_of(alloc, b"\"Recipe\",\"DB 1\",\"DB 1\",\"\"")?;
    for (kind, number, place) in &DATA_BLOCKS {
        let id = id(*kind, *number);
        let name = BlockName::Number { id };
        data_block_is(rt, layouts, &symbols, id, &name, *place);
    }
    recipe_is_found(rt, alloc, layouts, &symbols)
}

#[test]
fn places_of_blocks(rt: HostRuntime) -> Result<(), Fail> {
    let layouts = laid_sound(rt.alloc(), SOURCE)?;
    blocks_are_placed(&rt, &layouts);
    data_blocks_are_found(&rt, rt.alloc(), &layouts)
}

/// The path `k[4]`, of a name and what stands behind it.
fn fourth(alloc: Global) -> Result<Path, AllocError> {
    let name = Name::new(alloc, b"k")?;
    Path::behind(alloc, &name, &[PathStep::Index { at: 4 }])
}

// The name is folded to upper case.
fn is_fourth(rt: &impl Abort, steps: &[PathStep]) -> Result<(), Fail> {
    match steps {
        [PathStep::Named { name }, PathStep::Index { at }] => {
            same(rt, "k[4]", (name.as_bytes(), *at), (b"K".as_slice(), 4));
            Ok(())
        }
        _ => Err(Fail::new("a name and an index")),
    }
}

#[test]
fn path_behind_a_name(rt: HostRuntime) -> Result<(), Fail> {
    let path = fourth(rt.alloc())?;
    is_fourth(&rt, path.steps())
}

/// A path with the place, the depth and the offset of the component that it reaches, and the name
/// and the elementary type of its declaration.
type Row = (
    &'static [Step],
    usize,
    usize,
    u64,
    &'static [u8],
    Option<Simple>,
);

// An index outside its array leads on as the first element does.
static DATA_PATHS: [Row; 7] = [
    (&[(b"g", 0)], 0, 0, 0, b"G", Some(Simple::Byte)),
    (&[(b"h", 0)], 1, 0, 16, b"H", None),
    (&[(b"h", 0), (b"j", 0)], 3, 0, 32, b"J", Some(Simple::Word)),
    (&[(b"k", 0)], 4, 0, 48, b"K", None),
    (&[(b"k", 0), (b"", 4)], 4, 1, 80, b"K", Some(Simple::Int)),
    (&[(b"k", 0), (b"", 5)], 4, 1, 48, b"K", Some(Simple::Int)),
    (&[(b"l", 0)], 5, 0, 96, b"L", Some(Simple::Bool)),
];

/// The steps behind a variable.
static OWN_PATHS: [Row; 4] = [
    (&[], 0, 0, 0, b"A", Some(Simple::Bool)),
    (&[], 2, 0, 32, b"C", Some(Simple::Int)),
    (&[], 3, 0, 48, b"D", None),
    (&[(b"", 1)], 3, 1, 56, b"D", Some(Simple::Byte)),
];

static TEMPORARY: Row = (&[], 1, 0, 16, b"F", Some(Simple::Dint));

/// The walk in a block reaches what its row says.
fn reaches(
    rt: &impl Abort,
    layouts: &Layouts,
    walk: PathEnd,
    block: usize,
    temporary: bool,
    row: &Row,
) {
    let (path, place, depth, offset, name, kind) = row;
    let component = ComponentAt {
        block,
        temporary,
        place: *place,
        depth: *depth,
        offset: *offset,
    };
    same(rt, *path, walk, PathEnd::Reaches { component });
    same(rt, *path, layouts.elementary_at(component), *kind);
    let cell = layouts.cell_at(component).map(|cell| cell.name.as_bytes());
    same(rt, *path, cell, Some(*name));
}

fn data_path_reaches(
    rt: &impl Abort,
    alloc: Global,
    layouts: &Layouts,
    row: &Row,
) -> Result<(), Fail> {
    let path = path_of(alloc, row.0)?;
    reaches(rt, layouts, layouts.walk_data(1, &path), 1, false, row);
    Ok(())
}

fn own_path_reaches(
    rt: &impl Abort,
    alloc: Global,
    layouts: &Layouts,
    temporary: bool,
    row: &Row,
) -> Result<(), Fail> {
    let path = path_of(alloc, row.0)?;
    let walk = layouts.walk_local(0, row.4, &path);
    reaches(rt, layouts, walk, 0, temporary, row);
    Ok(())
}

fn paths_reach(rt: &impl Abort, alloc: Global, layouts: &Layouts) -> Result<(), Fail> {
    for row in &DATA_PATHS {
        data_path_reaches(rt, alloc, layouts, row)?;
    }
    for row in &OWN_PATHS {
        own_path_reaches(rt, alloc, layouts, false, row)?;
    }
    own_path_reaches(rt, alloc, layouts, true, &TEMPORARY)
}

fn names_end(rt: &impl Abort, alloc: Global, layouts: &Layouts) -> Result<(), Fail> {
    let none = path_of(alloc, &[])?;
    let ends = (
        layouts.walk_local(0, b"G", &none),
        layouts.walk_local(2, b"A", &none),
    );
    same(rt, "G and A", ends, (PathEnd::Unknown, PathEnd::Unjudged));
    Ok(())
}

fn data_ends(rt: &impl Abort, alloc: Global, layouts: &Layouts) -> Result<(), Fail> {
    let path = path_of(alloc, &[(b"a", 0)])?;
    let ends = (layouts.walk_data(1, &path), layouts.walk_data(2, &path));
    same(
        rt,
        "a in DB 1 and DB 0",
        ends,
        (PathEnd::Unknown, PathEnd::Unjudged),
    );
    Ok(())
}

fn paths_lead(rt: &impl Abort, alloc: Global, layouts: &Layouts) -> Result<(), Fail> {
    paths_reach(rt, alloc, layouts)?;
    names_end(rt, alloc, layouts)?;
    data_ends(rt, alloc, layouts)
}

#[test]
fn where_paths_lead(rt: HostRuntime) -> Result<(), Fail> {
    let layouts = laid_sound(rt.alloc(), SOURCE)?;
    paths_lead(&rt, rt.alloc(), &layouts)
}
