use crate::compare::same;
use event_text::reply_lines;
use monitor::{DiagRecord, DiagRing};
use plc_base::{Area, NoMemory, Place, Width};
use std::alloc::Global;
use std::test::Fail;
use var_access::{Numbers, Reply, Request, Var, Vars};

fn var(byte: u16, bit: u8, width: Width) -> Var {
    let place = Place {
        number: 0,
        byte,
        area: Area::M,
        bit,
    };
    Var { place, width }
}

// A variable of each width, and a bit that is 0.
fn vars_of_each_width() -> Vars {
    let mut vars = Vars::new();
    vars.push(var(0, 3, Width::Bit));
    vars.push(var(0, 4, Width::Bit));
    vars.push(var(1, 0, Width::Byte));
    vars.push(var(2, 0, Width::Word));
    vars.push(var(4, 0, Width::Dword));
    vars
}

fn their_values() -> Reply {
    let mut values = Numbers::new();
    values.push(1);
    values.push(0);
    values.push(10);
    values.push(0xBEEF);
    values.push(0xC0DE);
    Reply::Values { values }
}

fn append_values(out: &mut Vec<u8>) -> Result<(), NoMemory> {
    let request = Request::ReadVars {
        vars: vars_of_each_width(),
    };
    reply_lines(7, 3, &request, &their_values(), out)
}

// The values behind what is there before.
fn append_behind(out: &mut Vec<u8>) -> Result<(), NoMemory> {
    out.extend_from_slice(b"before\n")?;
    append_values(out)
}

// Requests with answers that have no list.
#[derive(Clone, Copy)]
enum AskedRequest {
    Stop,
    Absent,
    Restart,
    MonitorOff,
}

// Entries with their workers and requests.
static ASKED: [(u64, u8, AskedRequest); 4] = [
    (1, 4, AskedRequest::Stop),
    (20, 5, AskedRequest::Absent),
    (300, 6, AskedRequest::Restart),
    (4, 7, AskedRequest::MonitorOff),
];

fn append_reply(row: &(u64, u8, AskedRequest), out: &mut Vec<u8>) -> Result<(), NoMemory> {
    let (n, who, asked) = *row;
    match asked {
        AskedRequest::Stop => reply_lines(n, who, &Request::Stop, &Reply::Done, out),
        AskedRequest::Absent => {
            let absent = Reply::NoSuch { index: 8 };
            reply_lines(n, who, &Request::Stop, &absent, out)
        }
        AskedRequest::Restart => reply_lines(n, who, &Request::Restart, &Reply::NotStopped, out),
        AskedRequest::MonitorOff => reply_lines(n, who, &Request::MonitorOff, &Reply::Done, out),
    }
}

fn append_replies(out: &mut Vec<u8>) -> Result<(), NoMemory> {
    for row in &ASKED {
        append_reply(row, out)?;
    }
    Ok(())
}

fn append_diagnostics(n: u64, ring: &DiagRing, out: &mut Vec<u8>) -> Result<(), NoMemory> {
    let reply = Reply::Diag { list: ring.list() };
    reply_lines(n, 3, &Request::Diag, &reply, out)
}

// None at all, and then two, the oldest first.
fn append_both(ring: &mut DiagRing, out: &mut Vec<u8>) -> Result<(), NoMemory> {
    append_diagnostics(9, ring, out)?;
    ring.push(DiagRecord {
        entry: 3,
        code: 3,
        info: 40,
    });
    ring.push(DiagRecord {
        entry: 5,
        code: 6,
        info: 0,
    });
    append_diagnostics(10, ring, out)
}

// A ring is made where it is used.
fn append_all_diagnostics(alloc: Global, out: &mut Vec<u8>) -> Result<(), NoMemory> {
    let mut ring = DiagRing::new(alloc)?;
    append_both(&mut ring, out)
}

// Lines of replies that are written behind what is there.
#[derive(Clone, Copy)]
enum Lines {
    Values,
    Others,
    Diagnostics,
}

fn append_lines(alloc: Global, lines: Lines, out: &mut Vec<u8>) -> Result<(), NoMemory> {
    match lines {
        Lines::Values => append_behind(out),
        Lines::Others => append_replies(out),
        Lines::Diagnostics => append_all_diagnostics(alloc, out),
    }
}

static TEXTS: [(Lines, &str); 3] = [
    (
        Lines::Values,
        "before\n@7 OP 1 VALUES 1 0 0A BEEF 0000C0DE\n",
    ),
    (
        Lines::Others,
        "@1 OP 2 DONE\n@20 OP 3 NOSUCH 8\n@300 OP 4 NOTSTOPPED\n@4 OP 1 DONE\n",
    ),
    (
        Lines::Diagnostics,
        "@9 OP 1 DIAG 0\n@10 OP 1 DIAG 2\n@10 DIAG 3 3 40\n@10 DIAG 5 6 0\n",
    ),
];

#[test]
fn lines_of_replies(rt: HostRuntime) -> Result<(), Fail> {
    for (lines, text) in &TEXTS {
        let mut out = Vec::new(rt.alloc());
        append_lines(rt.alloc(), *lines, &mut out)?;
        same(&rt, *text, out.as_slice(), text.as_bytes());
    }
    Ok(())
}
