use crate::compare::same;
use monitor::{
    DiagRecord, DiagRing, Line, MonRecord, db_line, diag_line, end_line, mode_line, mon_line,
    output_line,
};
use plc_base::{BlockId, BlockKind, Mode, Spot};
use std::test::Fail;

// An entry, the block, line and registers that it shows, and the line, worked out by hand. The
// status word is that of all nine bits: BR is 256, CC 1 and CC 0 are 128 and 64, OV and OS 32 and
// 16, OR and STA 8 and 4, RLO 2, /FC 1.
static MONITORED: [(u64, BlockKind, u16, u32, u16, u32, u32, &str); 7] = [
    (
        3,
        BlockKind::Ob,
        1,
        3,
        0,
        32767,
        0,
        "@3 MON OB 1 LINE 3 STW 0000 A1 00007FFF A2 00000000\n",
    ),
    // 32767 + 1: CC 0, OV and OS.
    (
        5,
        BlockKind::Ob,
        1,
        5,
        64 + 32 + 16,
        32768,
        32767,
        "@5 MON OB 1 LINE 5 STW 0070 A1 00008000 A2 00007FFF\n",
    ),
    // 13 / 4: quotient 3, remainder 1, CC 1.
    (
        5,
        BlockKind::Ob,
        1,
        5,
        128,
        65539,
        13,
        "@5 MON OB 1 LINE 5 STW 0080 A1 00010003 A2 0000000D\n",
    ),
    // Divided by 0: CC 1, CC 0, OV and OS.
    (
        7,
        BlockKind::Ob,
        1,
        7,
        240,
        0,
        65539,
        "@7 MON OB 1 LINE 7 STW 00F0 A1 00000000 A2 00010003\n",
    ),
    // BR and /FC alone; accumulators whose digits all differ.
    (
        1000000,
        BlockKind::Fc,
        0,
        10,
        257,
        0x0123_4567,
        0x89AB_CDEF,
        "@1000000 MON FC 0 LINE 10 STW 0101 A1 01234567 A2 89ABCDEF\n",
    ),
    // The other seven bits.
    (
        9,
        BlockKind::Fb,
        2047,
        65535,
        254,
        1,
        0x8000_0000,
        "@9 MON FB 2047 LINE 65535 STW 00FE A1 00000001 A2 80000000\n",
    ),
    // The greatest of each number.
    (
        u64::MAX,
        BlockKind::Fb,
        65535,
        u32::MAX,
        511,
        u32::MAX,
        u32::MAX,
        "@18446744073709551615 MON FB 65535 LINE 4294967295 STW 01FF A1 FFFFFFFF A2 FFFFFFFF\n",
    ),
];

#[test]
fn lines_of_monitored_statements(rt: HostRuntime) -> Result<(), Fail> {
    for (n, kind, number, line, stw, a1, a2, spelled) in &MONITORED {
        let block = BlockId {
            kind: *kind,
            number: *number,
        };
        let record = MonRecord {
            block,
            line: *line,
            stw: *stw,
            a1: *a1,
            a2: *a2,
        };
        let mut text = Vec::new(rt.alloc());
        mon_line(*n, &record, &mut text)?;
        same(&rt, *n, text.as_slice(), spelled.as_bytes());
    }
    Ok(())
}

static OUTPUTS: [(u64, u16, u8, &str); 3] = [
    (7, 4, 1, "@7 PQ 4 = 01\n"),
    (10, 767, 175, "@10 PQ 767 = AF\n"),
    (1000000, 0, 0, "@1000000 PQ 0 = 00\n"),
];

#[test]
fn lines_of_outputs(rt: HostRuntime) -> Result<(), Fail> {
    for (n, byte, value, spelled) in &OUTPUTS {
        let mut text = Vec::new(rt.alloc());
        output_line(*n, *byte, *value, &mut text)?;
        same(&rt, *n, text.as_slice(), spelled.as_bytes());
    }
    Ok(())
}

/// STOP with a cause, at the statement of a block or at none.
fn stop(cause: u8, at: Option<(BlockKind, u16, u32)>) -> Mode {
    let at = at.map(|(kind, number, line)| Spot {
        block: BlockId { kind, number },
        line,
    });
    Mode::Stop { cause, at }
}

// A mode that an entry began, and the mode at the end.
#[test]
fn lines_of_modes(rt: HostRuntime) -> Result<(), Fail> {
    let in_ob = stop(8, Some((BlockKind::Ob, 1, 3)));
    let rows = [
        (3, Mode::Run, "@3 MODE RUN\n", "END 3 RUN\n"),
        (7, Mode::Startup, "@7 MODE STARTUP\n", "END 7 STARTUP\n"),
        (
            8,
            in_ob,
            "@8 MODE STOP 8 AT OB 1 LINE 3\n",
            "END 8 STOP 8\n",
        ),
        (
            6,
            stop(2, Some((BlockKind::Fb, 20, 117))),
            "@6 MODE STOP 2 AT FB 20 LINE 117\n",
            "END 6 STOP 2\n",
        ),
        (
            2,
            stop(10, None),
            "@2 MODE STOP 10 AT NONE\n",
            "END 2 STOP 10\n",
        ),
        (0, Mode::Run, "@0 MODE RUN\n", "END 0 RUN\n"),
    ];
    for (n, mode, begun, ended) in rows {
        let mut text = Vec::new(rt.alloc());
        mode_line(n, &mode, &mut text)?;
        same(&rt, n, text.as_slice(), begun.as_bytes());
        text.clear();
        end_line(n, &mode, &mut text)?;
        same(&rt, n, text.as_slice(), ended.as_bytes());
    }
    Ok(())
}

// More than 32 bytes have a line too.
#[test]
fn lines_of_data_blocks(rt: HostRuntime) -> Result<(), Fail> {
    let rows: [(u16, u16, &[u8], &str); 4] = [
        (5, 0, &[0, 9, 0, 10], "DB 5 0 0009000A\n"),
        (1, 0, &[2, 5, 0, 7, 1, 0], "DB 1 0 020500070100\n"),
        (2047, 16352, &[160, 255], "DB 2047 16352 A0FF\n"),
        (
            3,
            32,
            b"0123456789012345678901234567890123456789",
            "DB 3 32 30313233343536373839303132333435363738393031323334353637383930313233343536373839\n",
        ),
    ];
    for (number, at, bytes, spelled) in rows {
        let mut text = Vec::new(rt.alloc());
        db_line(number, at, bytes, &mut text)?;
        same(&rt, number, text.as_slice(), spelled.as_bytes());
    }
    Ok(())
}

fn record(entry: u64, code: u16, info: u16) -> DiagRecord {
    DiagRecord { entry, code, info }
}

// A time error of OB 38; a synchronous error of code 22, which is 34; a restart; the greatest
// numbers.
#[test]
fn lines_of_diagnostics(rt: HostRuntime) -> Result<(), Fail> {
    let rows = [
        (2, record(1, 1, 38), "@2 DIAG 1 1 38\n"),
        (40, record(39, 4, 34), "@40 DIAG 39 4 34\n"),
        (7, record(5, 6, 0), "@7 DIAG 5 6 0\n"),
        (
            u64::MAX,
            record(u64::MAX, 65535, 65535),
            "@18446744073709551615 DIAG 18446744073709551615 65535 65535\n",
        ),
    ];
    for (n, one, spelled) in rows {
        let mut text = Vec::new(rt.alloc());
        diag_line(n, &one, &mut text)?;
        same(&rt, n, text.as_slice(), spelled.as_bytes());
    }
    Ok(())
}

// Each line stands behind what the text holds.
#[test]
fn lines_behind_each_other(rt: HostRuntime) -> Result<(), Fail> {
    let mut text = Vec::new(rt.alloc());
    output_line(8, 4, 0, &mut text)?;
    mode_line(8, &stop(9, None), &mut text)?;
    diag_line(9, &record(8, 5, 9), &mut text)?;
    end_line(9, &stop(9, None), &mut text)?;
    db_line(5, 0, &[9], &mut text)?;
    let spelled = b"@8 PQ 4 = 00\n@8 MODE STOP 9 AT NONE\n@9 DIAG 8 5 9\nEND 9 STOP 9\nDB 5 0 09\n";
    same(&rt, "the text", text.as_slice(), spelled.as_slice());
    Ok(())
}

// The lowest digits of a number, in upper case.
#[test]
fn hexadecimal_numbers(rt: HostRuntime) {
    let rows: [(u32, u32, &[u8]); 5] = [
        (1, 1, b"1"),
        (0xAB, 2, b"AB"),
        (0x8080, 4, b"8080"),
        (0xDEAD_BEEF, 8, b"DEADBEEF"),
        (0xDEAD_BEEF, 3, b"EEF"),
    ];
    for (number, digits, spelled) in rows {
        let mut line = Line::new();
        line.add_hex(number, digits);
        same(&rt, number, line.as_slice(), spelled);
    }
}

// How many records are made, and which of them the list has: the first of them, and how many.
static PUSHED: [(u64, u64, usize); 6] = [
    (0, 1, 0),
    (1, 1, 1),
    (99, 1, 99),
    (100, 1, 100),
    (101, 2, 100),
    (250, 151, 100),
];

#[test]
fn last_hundred_records(rt: HostRuntime) -> Result<(), Fail> {
    for (made, first, count) in &PUSHED {
        let mut ring = DiagRing::new(rt.alloc())?;
        for entry in 1..=*made {
            ring.push(record(entry, 5, 9));
        }
        let list = ring.list();
        same(&rt, *made, list.as_slice().len(), *count);
        for (place, one) in list.as_slice().iter().enumerate() {
            same(&rt, *made, *one, record(*first + place as u64, 5, 9));
        }
        same(&rt, *made, ring.list(), list);
    }
    Ok(())
}
