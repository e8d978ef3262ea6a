use crate::compare::same;
use flat_code::{NameEntry, Names};
use plc_base::{Area, BlockId, BlockKind, Place, Width};
use std::alloc::Global;
use std::process::Abort;
use std::test::Fail;
use var_access::{MOST_VARS, Request, RequestFault, Var, Vars, parse_request};

fn var(area: Area, number: u16, byte: u16, bit: u8, width: Width) -> Var {
    Var {
        place: Place {
            number,
            byte,
            area,
            bit,
        },
        width,
    }
}

fn add(rt: &impl Abort, vars: &mut Vars, var: Var) {
    assert!(rt; vars.len() < MOST_VARS);
    vars.push(var);
}

fn block(kind: BlockKind, number: u16) -> BlockId {
    BlockId { kind, number }
}

// Each area and each width, with blanks between letters and number and without, in the greatest
// numbers, with zeros in front, and names in any case.
static VARIABLES: [(&str, Area, u16, u16, u8, Width); 23] = [
    ("M 0.3", Area::M, 0, 0, 3, Width::Bit),
    ("M0.7", Area::M, 0, 0, 7, Width::Bit),
    ("I127.0", Area::I, 0, 127, 0, Width::Bit),
    ("Q \t 65535.7", Area::Q, 0, 65535, 7, Width::Bit),
    ("MB 2", Area::M, 0, 2, 0, Width::Byte),
    ("MW2", Area::M, 0, 2, 0, Width::Word),
    ("MD 65535", Area::M, 0, 65535, 0, Width::Dword),
    ("IB0", Area::I, 0, 0, 0, Width::Byte),
    ("IW 4", Area::I, 0, 4, 0, Width::Word),
    ("ID 8", Area::I, 0, 8, 0, Width::Dword),
    ("QB1", Area::Q, 0, 1, 0, Width::Byte),
    ("QW2", Area::Q, 0, 2, 0, Width::Word),
    ("QD4", Area::Q, 0, 4, 0, Width::Dword),
    ("DB10.DBX 0.1", Area::Db, 10, 0, 1, Width::Bit),
    ("DB 10.DBB3", Area::Db, 10, 3, 0, Width::Byte),
    ("DB10.DBW 2", Area::Db, 10, 2, 0, Width::Word),
    ("DB65535.DBD 4", Area::Db, 65535, 4, 0, Width::Dword),
    ("DB0.DBW 0", Area::Db, 0, 0, 0, Width::Word),
    ("MW 007", Area::M, 0, 7, 0, Width::Word),
    ("\"LAMP\"", Area::Q, 0, 4, 1, Width::Bit),
    ("\"Lamp\"", Area::Q, 0, 4, 1, Width::Bit),
    ("\"set, point\"", Area::M, 0, 20, 0, Width::Word),
    ("  \"SET, POINT\"\t", Area::M, 0, 20, 0, Width::Word),
];

// Hexadecimal digits in either case, two for each byte.
static WRITES: [(&str, Area, u16, u16, Width, u32); 4] = [
    ("write MW 0 12aB", Area::M, 0, 0, Width::Word, 0x12AB),
    ("write M 0.0 1", Area::M, 0, 0, Width::Bit, 1),
    (
        " write\tDB10.DBD 4  ffffFFFF ",
        Area::Db,
        10,
        4,
        Width::Dword,
        0xFFFF_FFFF,
    ),
    (
        "write \"set, point\" 0080",
        Area::M,
        0,
        20,
        Width::Word,
        128,
    ),
];

static MONITORED: [(&str, BlockKind, u16); 3] = [
    ("monitor on OB 1", BlockKind::Ob, 1),
    ("monitor  on\tFC 65535", BlockKind::Fc, 65535),
    ("monitor on FB 0", BlockKind::Fb, 0),
];

// Rule 1: not in the grammar. 2: a number out of its range, a value wider or narrower than its
// variable. 3: an unknown name. The least of several broken rules counts.
static REFUSED: [(&str, u16); 69] = [
    ("", 1),
    (" \t", 1),
    ("read", 1),
    ("read ", 1),
    ("Read MW 0", 1),
    ("read mw 0", 1),
    ("read M 0", 1),
    ("read MW 0.0", 1),
    ("read MX 0.0", 1),
    ("read M 0.", 1),
    ("read M 0 .0", 1),
    ("read M 0.0.0", 1),
    ("read T 1", 1),
    ("read PIW 256", 1),
    ("read L 0.0", 1),
    ("read DB1", 1),
    ("read DB1.DBX 0", 1),
    ("read DB1.DBW 0.0", 1),
    ("read DB1.DBX 0.0.0", 1),
    ("read DI1.DBW 0", 1),
    ("read MW -1", 1),
    ("read MW 0x1", 1),
    ("read MW 0 MW 2", 1),
    ("read MW 0,", 1),
    ("read ,MW 0", 1),
    ("read \"\"", 1),
    ("read \"LAMP", 1),
    ("read \"LAMP\" 1", 1),
    ("read LAMP", 1),
    (
        "read MB 1, MB 2, MB 3, MB 4, MB 5, MB 6, MB 7, MB 8, MB 9",
        1,
    ),
    ("read M 0.8", 2),
    ("read MW 65536", 2),
    ("read MW 99999999999999999999", 2),
    ("read DB1.DBW 65536", 2),
    ("read DB65536.DBW 0", 2),
    ("read DB1.DBX 0.8", 2),
    ("read \"PUMP\"", 3),
    ("read \"OUTSIDE\"", 3),
    ("read \"PUMP\", M 0.8", 2),
    ("read M 0.8, \"PUMP\"", 2),
    ("read \"PUMP\", M 0.8, T 1", 1),
    ("write MW 0", 1),
    ("write MW0", 1),
    ("write 1234", 1),
    ("write MW 0 12G4", 1),
    ("write MW 0 12 34", 1),
    ("write MW 0 12", 2),
    ("write MW 0 12345", 2),
    ("write MB 0 1", 2),
    ("write MD 0 112233445", 2),
    ("write M 0.0 2", 2),
    ("write M 0.0 01", 2),
    ("write M 0.0 x", 1),
    ("write M 0.8 1", 2),
    ("write \"PUMP\" 1", 3),
    ("write \"PUMP\" x", 1),
    ("STOP", 1),
    ("stop now", 1),
    ("restart 1", 1),
    ("monitor", 1),
    ("monitor on", 1),
    ("monitor on OB1", 1),
    ("monitor on DB 65536", 1),
    ("monitor on OB 65536", 2),
    ("monitor on OB 1 2", 1),
    ("monitor off OB 1", 1),
    ("monitor Off", 1),
    ("diag 1", 1),
    ("step", 1),
];

fn name(alloc: Global, name: &[u8], var: Var) -> Result<NameEntry, Fail> {
    Ok(NameEntry {
        name: Vec::from_slice(alloc, name)?,
        place: var.place,
        width: var.width,
    })
}

// Q 4.1, MW 20, and one that no variable may have: area P.
fn names(rt: &impl Abort, alloc: Global) -> Result<Names, Fail> {
    let mut list = Vec::new(alloc);
    list.push(name(alloc, b"LAMP", var(Area::Q, 0, 4, 1, Width::Bit))?)?;
    list.push(name(alloc, b"OUTSIDE", var(Area::P, 0, 4, 0, Width::Word))?)?;
    list.push(name(alloc, b"SET, POINT", var(Area::M, 0, 20, 0, Width::Word))?)?;
    assert!(rt; Names::are_in_order(list.as_slice()));
    Ok(Names::new(list))
}

#[test]
fn variables_of_texts(rt: HostRuntime) -> Result<(), Fail> {
    let names = names(&rt, rt.alloc())?;
    for (text, area, number, byte, bit, width) in &VARIABLES {
        let line = format!(in rt.alloc(); "read {text}")?;
        let mut vars = Vars::new();
        vars.push(var(*area, *number, *byte, *bit, *width));
        let read = parse_request(rt.alloc(), line.as_bytes(), &names);
        same(&rt, *text, read, Ok(Request::ReadVars { vars }));
    }
    Ok(())
}

// Eight variables in their order; a comma of a name is none between variables.
#[test]
fn reads_of_several_variables(rt: HostRuntime) -> Result<(), Fail> {
    let names = names(&rt, rt.alloc())?;
    let mut vars = Vars::new();
    for byte in 1..8 {
        add(&rt, &mut vars, var(Area::M, 0, byte, 0, Width::Byte));
    }
    add(&rt, &mut vars, var(Area::M, 0, 20, 0, Width::Word));
    let text = "read MB 1,MB 2 , MB 3,\tMB 4, MB 5, MB 6, MB 7, \"set, point\"";
    let read = parse_request(rt.alloc(), text.as_bytes(), &names);
    same(&rt, text, read, Ok(Request::ReadVars { vars }));
    Ok(())
}

#[test]
fn other_requests(rt: HostRuntime) -> Result<(), Fail> {
    let names = names(&rt, rt.alloc())?;
    for (text, area, number, byte, width, value) in &WRITES {
        let request = Request::WriteVar {
            var: var(*area, *number, *byte, 0, *width),
            value: *value,
        };
        let read = parse_request(rt.alloc(), text.as_bytes(), &names);
        same(&rt, *text, read, Ok(request));
    }
    for (text, kind, number) in &MONITORED {
        let request = Request::MonitorOn {
            block: block(*kind, *number),
        };
        let read = parse_request(rt.alloc(), text.as_bytes(), &names);
        same(&rt, *text, read, Ok(request));
    }
    for (text, request) in [
        ("stop", Request::Stop),
        ("\t restart ", Request::Restart),
        ("monitor off", Request::MonitorOff),
        ("monitor  off ", Request::MonitorOff),
        ("diag", Request::Diag),
    ] {
        let read = parse_request(rt.alloc(), text.as_bytes(), &names);
        same(&rt, text, read, Ok(request));
    }
    Ok(())
}

#[test]
fn refused_requests(rt: HostRuntime) -> Result<(), Fail> {
    let names = names(&rt, rt.alloc())?;
    for (text, rule) in &REFUSED {
        let read = parse_request(rt.alloc(), text.as_bytes(), &names);
        same(
            &rt,
            *text,
            read,
            Err(RequestFault::BadRequest { rule: *rule }),
        );
    }
    Ok(())
}

// A read of no variable, of a peripheral one, a local one, one of I with a number, a byte with a bit,
// a ninth bit; a value above its width; blocks that hold no code.
#[test]
fn valid_requests(rt: HostRuntime) {
    let mut one = Vars::new();
    one.push(var(Area::Db, 65535, 65535, 7, Width::Bit));
    same(
        &rt,
        "none",
        Request::ReadVars { vars: Vars::new() }.is_valid(),
        false,
    );
    same(&rt, "one", Request::ReadVars { vars: one }.is_valid(), true);
    for (var, valid) in [
        (var(Area::I, 0, 0, 7, Width::Bit), true),
        (var(Area::I, 1, 0, 0, Width::Bit), false),
        (var(Area::Q, 0, 0, 8, Width::Bit), false),
        (var(Area::M, 0, 2, 1, Width::Byte), false),
        (var(Area::Db, 10, 2, 0, Width::Dword), true),
        (var(Area::P, 0, 0, 0, Width::Byte), false),
        (var(Area::Di, 0, 0, 0, Width::Byte), false),
        (var(Area::L, 0, 0, 0, Width::Byte), false),
    ] {
        same(&rt, var, var.is_valid(), valid);
        same(
            &rt,
            var,
            Request::WriteVar { var, value: 1 }.is_valid(),
            valid,
        );
    }
    for (width, value, valid) in [
        (Width::Bit, 1, true),
        (Width::Bit, 2, false),
        (Width::Byte, 255, true),
        (Width::Byte, 256, false),
        (Width::Word, 65535, true),
        (Width::Word, 65536, false),
        (Width::Dword, 0xFFFF_FFFF, true),
    ] {
        let var = var(Area::M, 0, 0, 0, width);
        same(
            &rt,
            (width, value),
            Request::WriteVar { var, value }.is_valid(),
            valid,
        );
    }
    for (kind, valid) in [
        (BlockKind::Ob, true),
        (BlockKind::Fc, true),
        (BlockKind::Fb, true),
        (BlockKind::Db, false),
        (BlockKind::Sfc, false),
    ] {
        let block = block(kind, 1);
        same(&rt, kind, Request::MonitorOn { block }.is_valid(), valid);
    }
}
