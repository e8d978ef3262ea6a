use crate::calls::{Step, at, laid, laid_sound, path_of};
use crate::compare::same;
use block_layout::{Layouts, Section};
use plc_base::{Area, BlockId, BlockKind, Place, Width};
use std::alloc::Global;
use std::process::Abort;
use std::test::Fail;

// BOOLs pack, BYTEs stand side by side, all else begins at an even byte; each section begins at one.
static SOURCE: &[u8] = b"DATA_BLOCK DB 1
STRUCT
a : BOOL;
b : BOOL;
c : BYTE;
d : INT;
e : ARRAY [1 .. 3] OF BOOL;
f : BYTE;
g : STRUCT
h : CHAR;
END_STRUCT;
i : DINT;
END_STRUCT
BEGIN
END_DATA_BLOCK
FUNCTION_BLOCK FB 1
VAR_INPUT
a : BOOL;
END_VAR
VAR_OUTPUT
b : BOOL;
END_VAR
VAR_TEMP
c : BYTE;
d : WORD;
END_VAR
BEGIN
END_FUNCTION_BLOCK";

// Structures and arrays end at an even byte, also within arrays; bits of an array pack, and bytes stand
// without gap.
static NESTED: &[u8] = b"DATA_BLOCK DB 1
STRUCT
a : BYTE;
b : ARRAY [1 .. 3] OF STRUCT
x : BYTE;
y : INT;
z : BYTE;
END_STRUCT;
c : BOOL;
d : ARRAY [-1 .. 7] OF BOOL;
e : BYTE;
f : ARRAY [0 .. 2] OF BYTE;
g : CHAR;
h : STRUCT
i : BOOL;
END_STRUCT;
j : BOOL;
k : ARRAY [1 .. 2] OF ARRAY [1 .. 3] OF BYTE;
l : DINT;
m : UDT 1;
n : BOOL;
END_STRUCT
BEGIN
END_DATA_BLOCK
TYPE UDT 1
STRUCT
p : TIME;
q : BOOL;
END_STRUCT
END_TYPE
FUNCTION_BLOCK FB 1
VAR_INPUT
a : BOOL;
b : BYTE;
END_VAR
VAR_OUTPUT
c : BYTE;
d : BOOL;
END_VAR
VAR_IN_OUT
e : BOOL;
END_VAR
VAR
f : BYTE;
g : BOOL;
END_VAR
VAR_TEMP
h : BOOL;
i : DATE_AND_TIME;
j : BYTE;
k : BOOL;
END_VAR
BEGIN
END_FUNCTION_BLOCK
DATA_BLOCK DB 2
FB 1
BEGIN
END_DATA_BLOCK";

/// A path with the byte, the bit and the width that it leads to.
type Row = (&'static [Step], u16, u8, Width);

const COMPONENTS: &[Row] = &[
    (&[(b"a", 0)], 0, 0, Width::Byte),
    (&[(b"b", 0), (b"", 1), (b"x", 0)], 2, 0, Width::Byte),
    (&[(b"b", 0), (b"", 1), (b"y", 0)], 4, 0, Width::Word),
    (&[(b"b", 0), (b"", 1), (b"z", 0)], 6, 0, Width::Byte),
    (&[(b"b", 0), (b"", 2), (b"x", 0)], 8, 0, Width::Byte),
    (&[(b"B", 0), (b"", 3), (b"Z", 0)], 18, 0, Width::Byte),
    (&[(b"c", 0)], 20, 0, Width::Bit),
    (&[(b"d", 0), (b"", -1)], 22, 0, Width::Bit),
    (&[(b"d", 0), (b"", 6)], 22, 7, Width::Bit),
    (&[(b"d", 0), (b"", 7)], 23, 0, Width::Bit),
    (&[(b"e", 0)], 24, 0, Width::Byte),
    (&[(b"f", 0), (b"", 0)], 26, 0, Width::Byte),
    (&[(b"f", 0), (b"", 1)], 27, 0, Width::Byte),
    (&[(b"f", 0), (b"", 2)], 28, 0, Width::Byte),
    (&[(b"g", 0)], 30, 0, Width::Byte),
    (&[(b"h", 0), (b"i", 0)], 32, 0, Width::Bit),
    (&[(b"j", 0)], 34, 0, Width::Bit),
    (&[(b"k", 0), (b"", 1), (b"", 1)], 36, 0, Width::Byte),
    (&[(b"k", 0), (b"", 1), (b"", 3)], 38, 0, Width::Byte),
    (&[(b"k", 0), (b"", 2), (b"", 1)], 40, 0, Width::Byte),
    (&[(b"k", 0), (b"", 2), (b"", 3)], 42, 0, Width::Byte),
    (&[(b"l", 0)], 44, 0, Width::Dword),
    (&[(b"m", 0), (b"p", 0)], 48, 0, Width::Dword),
    (&[(b"m", 0), (b"q", 0)], 52, 0, Width::Bit),
    (&[(b"n", 0)], 54, 0, Width::Bit),
];

/// Paths that lead to no elementary component.
const NOWHERE: &[&[Step]] = &[
    &[],
    &[(b"", 1)],
    &[(b"x", 0)],
    &[(b"b", 0)],
    &[(b"b", 0), (b"", 1)],
    &[(b"b", 0), (b"x", 0)],
    &[(b"b", 0), (b"", 0), (b"x", 0)],
    &[(b"b", 0), (b"", 4), (b"x", 0)],
    &[(b"k", 0), (b"", 1)],
    &[(b"l", 0), (b"", 1)],
];

/// The instance of the function block of `NESTED`.
const VARIABLES: &[Row] = &[
    (&[(b"a", 0)], 0, 0, Width::Bit),
    (&[(b"b", 0)], 1, 0, Width::Byte),
    (&[(b"c", 0)], 2, 0, Width::Byte),
    (&[(b"d", 0)], 3, 0, Width::Bit),
    (&[(b"e", 0)], 4, 0, Width::Bit),
    (&[(b"f", 0)], 6, 0, Width::Byte),
    (&[(b"g", 0)], 7, 0, Width::Bit),
];

const TEMPORARIES: &[Row] = &[
    (&[(b"h", 0)], 0, 0, Width::Bit),
    (&[(b"j", 0)], 10, 0, Width::Byte),
    (&[(b"k", 0)], 11, 0, Width::Bit),
];

/// Components of the first data block of `SOURCE`.
const PLAIN: &[Row] = &[
    (&[(b"a", 0)], 0, 0, Width::Bit),
    (&[(b"B", 0)], 0, 1, Width::Bit),
    (&[(b"c", 0)], 1, 0, Width::Byte),
    (&[(b"d", 0)], 2, 0, Width::Word),
    (&[(b"f", 0)], 6, 0, Width::Byte),
    (&[(b"i", 0)], 10, 0, Width::Dword),
];

/// Variables of the function block of `SOURCE`.
const INSTANCE: &[Row] = &[
    (&[(b"a", 0)], 0, 0, Width::Bit),
    (&[(b"b", 0)], 2, 0, Width::Bit),
];

const TEMPORARY: &[Row] = &[(&[(b"d", 0)], 2, 0, Width::Word)];

/// The component behind the one that breaks a rule.
const BEHIND: &[Row] = &[(&[(b"c", 0)], 2, 0, Width::Word)];

/// Paths in a section of a block: those that lead into this area, of the data block itself where it
/// is one's, and those that lead nowhere.
struct Paths {
    kind: BlockKind,
    number: u16,
    section: Section,
    area: Area,
    found: &'static [Row],
    nowhere: &'static [&'static [Step]],
}

// A structure is no elementary component.
static DATA_BLOCK: [Paths; 1] = [Paths {
    kind: BlockKind::Db,
    number: 1,
    section: Section::Global,
    area: Area::Db,
    found: PLAIN,
    nowhere: &[&[(b"g", 0)]],
}];

static FUNCTION_BLOCK: [Paths; 2] = [
    Paths {
        kind: BlockKind::Fb,
        number: 1,
        section: Section::Instance,
        area: Area::Di,
        found: INSTANCE,
        nowhere: &[],
    },
    Paths {
        kind: BlockKind::Fb,
        number: 1,
        section: Section::Temp,
        area: Area::L,
        found: TEMPORARY,
        nowhere: &[],
    },
];

static NESTED_DATA_BLOCK: [Paths; 1] = [Paths {
    kind: BlockKind::Db,
    number: 1,
    section: Section::Global,
    area: Area::Db,
    found: COMPONENTS,
    nowhere: NOWHERE,
}];

// A data block of a function block has the variables of its instance. A temporary variable isn't in
// the instance, and a DATE_AND_TIME is no elementary one.
static NESTED_SECTIONS: [Paths; 3] = [
    Paths {
        kind: BlockKind::Fb,
        number: 1,
        section: Section::Instance,
        area: Area::Di,
        found: VARIABLES,
        nowhere: &[&[(b"h", 0)]],
    },
    Paths {
        kind: BlockKind::Db,
        number: 2,
        section: Section::Global,
        area: Area::Db,
        found: VARIABLES,
        nowhere: &[],
    },
    Paths {
        kind: BlockKind::Fb,
        number: 1,
        section: Section::Temp,
        area: Area::L,
        found: TEMPORARIES,
        nowhere: &[&[(b"i", 0)]],
    },
];

static BROKEN: [Paths; 1] = [Paths {
    kind: BlockKind::Db,
    number: 1,
    section: Section::Global,
    area: Area::Db,
    found: BEHIND,
    nowhere: &[&[(b"b", 0)]],
}];

/// Where a path in a section leads to, or that it leads nowhere.
fn leads(
    rt: &impl Abort,
    alloc: Global,
    layouts: &Layouts,
    paths: &Paths,
    path: &[Step],
    want: Option<(Place, Width)>,
) -> Result<(), Fail> {
    let steps = path_of(alloc, path)?;
    let id = BlockId {
        kind: paths.kind,
        number: paths.number,
    };
    let found = layouts.offset(id, paths.section, &steps);
    same(rt, path, found, want);
    Ok(())
}

/// Each path of a section leads where it says.
fn lead(rt: &impl Abort, alloc: Global, layouts: &Layouts, paths: &Paths) -> Result<(), Fail> {
    let area = paths.area;
    let number = if area == Area::Db { paths.number } else { 0 };
    for (path, byte, bit, width) in paths.found {
        let want = at(area, number, *byte, *bit, *width);
        leads(rt, alloc, layouts, paths, path, want)?;
    }
    for path in paths.nowhere {
        leads(rt, alloc, layouts, paths, path, None)?;
    }
    Ok(())
}

fn all_lead(
    rt: &impl Abort,
    alloc: Global,
    layouts: &Layouts,
    sections: &[Paths],
) -> Result<(), Fail> {
    for paths in sections {
        lead(rt, alloc, layouts, paths)?;
    }
    Ok(())
}

/// All paths in the sections of a source lead where they say.
fn all_lead_in(
    rt: &impl Abort,
    alloc: Global,
    source: &[u8],
    sections: &[Paths],
) -> Result<(), Fail> {
    let layouts = laid(alloc, source)?;
    all_lead(rt, alloc, &layouts, sections)
}

#[test]
fn components_of_a_data_block(rt: HostRuntime) -> Result<(), Fail> {
    all_lead_in(&rt, rt.alloc(), SOURCE, &DATA_BLOCK)
}

#[test]
fn variables_of_a_function_block(rt: HostRuntime) -> Result<(), Fail> {
    all_lead_in(&rt, rt.alloc(), SOURCE, &FUNCTION_BLOCK)
}

#[test]
fn nested_components(rt: HostRuntime) -> Result<(), Fail> {
    all_lead_in(&rt, rt.alloc(), NESTED, &NESTED_DATA_BLOCK)
}

#[test]
fn sections_of_a_function_block(rt: HostRuntime) -> Result<(), Fail> {
    all_lead_in(&rt, rt.alloc(), NESTED, &NESTED_SECTIONS)
}

// Of a refused source too.
#[test]
fn what_breaks_a_rule_takes_no_place(rt: HostRuntime) -> Result<(), Fail> {
    let source =
        b"DATA_BLOCK DB 1 STRUCT a : INT; b : INT := 40000; c : INT; END_STRUCT BEGIN END_DATA_BLOCK";
    let layouts = laid_sound(rt.alloc(), source)?;
    all_lead(&rt, rt.alloc(), &layouts, &BROKEN)
}
