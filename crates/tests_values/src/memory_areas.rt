ghost use Rattle.std.specs.Prelude.{◌^◌, ◌<◌};
ghost use Rattle.plc_base.specs.Widths.{bit_count};

use crate::compare::same;
use plc_base::{Area, Place, Profile, Width};
use plc_mem::{Memory, Missing, PeripheralArea, operands};
use std::alloc::Global;
use std::process::Abort;

const fn at(area: Area, byte: u16, bit: u8) -> Place {
    Place {
        area,
        number: 0,
        byte,
        bit,
    }
}

const fn in_block(number: u16, byte: u16, bit: u8) -> Place {
    Place {
        area: Area::Db,
        number,
        byte,
        bit,
    }
}

/// The memory of the small profile.
fn memory(rt: &impl Abort, alloc: Global) -> Memory {
    memory_of(rt, alloc, Profile::Small)
}

/// Memory with data block 7 of four bytes 16#0A0B0C0D and data block 3 of none, in this order.
fn memory_of(rt: &impl Abort, alloc: Global, profile: Profile) -> Memory {
    let bytes = Vec::from_slice(alloc, &[0x0A, 0x0B, 0x0C, 0x0D]);
    let bytes = bytes.expect(rt, "memory");
    let blocks = [(7, bytes), (3, Vec::new(alloc))];
    Memory::new(alloc, &blocks, profile).expect(rt, "memory")
}

/// Writes a number, which has a place.
fn write(rt: &impl Abort, memory: &mut Memory, what: &str, place: Place, width: Width, number: u32)
    requires { number < 2 ^ bit_count width }
{
    same(rt, what, memory.write(place, width, number), Ok(()));
}

/// Each of these places holds its number.
fn all_read(rt: &impl Abort, memory: &Memory, rows: &[(Place, Width, u32)]) {
    for (place, width, number) in rows {
        let read = memory.read(*place, *width);
        same(rt, (*place, *width), read, Ok(*number));
    }
}

/// Each of these peripheral output bytes has its value, or there is none.
fn all_output(rt: &impl Abort, memory: &Memory, when: &str, rows: &[(u16, Option<u8>)]) {
    for (byte, value) in rows {
        same(rt, (when, *byte), memory.output(*byte), *value);
    }
}

/// Area, number, byte, bit and width of an operand, and whether it lies in the memory.
type Edge = (Area, u16, u16, u8, Width, bool);

// Each area at its last byte: the widths that fit there and those that run past it.
static EDGES: [Edge; 24] = [
    (Area::I, 0, 127, 7, Width::Bit, true),
    (Area::I, 0, 127, 8, Width::Bit, false),
    (Area::I, 0, 127, 0, Width::Byte, true),
    (Area::I, 0, 126, 0, Width::Word, true),
    (Area::I, 0, 127, 0, Width::Word, false),
    (Area::I, 0, 124, 0, Width::Dword, true),
    (Area::I, 0, 125, 0, Width::Dword, false),
    (Area::Q, 0, 127, 0, Width::Byte, true),
    (Area::Q, 0, 128, 0, Width::Byte, false),
    (Area::Q, 0, 124, 0, Width::Dword, true),
    (Area::Q, 0, 126, 0, Width::Dword, false),
    (Area::M, 0, 255, 0, Width::Bit, true),
    (Area::M, 0, 254, 0, Width::Word, true),
    (Area::M, 0, 255, 0, Width::Word, false),
    (Area::M, 0, 252, 9, Width::Dword, true),
    (Area::M, 0, 256, 0, Width::Byte, false),
    (Area::Db, 7, 3, 7, Width::Bit, true),
    (Area::Db, 7, 0, 0, Width::Dword, true),
    (Area::Db, 7, 1, 0, Width::Dword, false),
    (Area::Db, 3, 0, 0, Width::Bit, false),
    (Area::Db, 1, 0, 0, Width::Byte, false),
    (Area::L, 0, 0, 0, Width::Byte, false),
    (Area::Di, 0, 0, 0, Width::Byte, false),
    (Area::M, 1, 0, 0, Width::Byte, false),
];

// Bit memory of the large profile.
static LARGE_EDGES: [Edge; 9] = [
    (Area::M, 0, 255, 0, Width::Word, true),
    (Area::M, 0, 256, 0, Width::Byte, true),
    (Area::M, 0, 2_047, 7, Width::Bit, true),
    (Area::M, 0, 2_046, 0, Width::Word, true),
    (Area::M, 0, 2_047, 0, Width::Word, false),
    (Area::M, 0, 2_044, 0, Width::Dword, true),
    (Area::M, 0, 2_045, 0, Width::Dword, false),
    (Area::M, 0, 2_048, 0, Width::Bit, false),
    (Area::Q, 0, 128, 0, Width::Byte, false),
];

// What is written is read again.
#[test]
fn last_bytes(rt: HostRuntime) {
    let mut small = memory_of(&rt, rt.alloc(), Profile::Small);
    all_edges(&rt, &mut small, &EDGES);
    let mut large = memory_of(&rt, rt.alloc(), Profile::Large);
    all_edges(&rt, &mut large, &LARGE_EDGES);
}

// Each of these operands can be written and read, or neither.
fn all_edges(rt: &impl Abort, memory: &mut Memory, edges: &[Edge]) {
    for (area, number, byte, bit, width, exists) in edges {
        let place = Place {
            area: *area,
            number: *number,
            byte: *byte,
            bit: *bit,
        };
        let want = if *exists { Ok(1) } else { Err(Missing) };
        let written = memory.write(place, *width, 1).is_ok();
        let got = (written, memory.read(place, *width));
        same(rt, (place, *width), got, (*exists, want));
    }
}

// The peripheral areas have no byte 128 to 255. What is written there isn't what is read.
static PERIPHERAL_EDGES: [(u16, Width, bool); 12] = [
    (127, Width::Byte, true),
    (127, Width::Word, false),
    (124, Width::Dword, true),
    (128, Width::Bit, false),
    (255, Width::Byte, false),
    (255, Width::Word, false),
    (253, Width::Dword, false),
    (256, Width::Dword, true),
    (764, Width::Dword, true),
    (765, Width::Dword, false),
    (767, Width::Bit, true),
    (768, Width::Byte, false),
];

#[test]
fn last_peripheral_bytes(rt: HostRuntime) {
    let mut memory = memory(&rt, rt.alloc());
    for (byte, width, exists) in &PERIPHERAL_EDGES {
        let place = at(Area::P, *byte, 0);
        let written = memory.write(place, *width, 1).is_ok();
        let got = (written, memory.read(place, *width).is_ok());
        same(&rt, (place, *width), got, (*exists, *exists));
    }
}

// 16#12345678 in MD 10: MB 10 is 16#12, MW 12 is 16#5678, and M 13.4 and M 13.0 are 1 and 0, since
// 16#78 is 2#0111_1000.
#[test]
fn big_endian(rt: HostRuntime) {
    let mut memory = memory(&rt, rt.alloc());
    let double_word = at(Area::M, 10, 0);
    write(
        &rt,
        &mut memory,
        "T MD 10",
        double_word,
        Width::Dword,
        0x1234_5678,
    );
    let rows = [
        (at(Area::M, 10, 0), Width::Byte, 0x12),
        (at(Area::M, 12, 0), Width::Word, 0x5678),
        (at(Area::M, 11, 0), Width::Word, 0x3456),
        (at(Area::M, 13, 4), Width::Bit, 1),
        (at(Area::M, 13, 0), Width::Bit, 0),
        (in_block(7, 1, 0), Width::Word, 0x0B0C),
    ];
    all_read(&rt, &memory, &rows);
    write(
        &rt,
        &mut memory,
        "S M 13.0",
        at(Area::M, 13, 0),
        Width::Bit,
        1,
    );
    write(
        &rt,
        &mut memory,
        "R M 13.6",
        at(Area::M, 13, 6),
        Width::Bit,
        0,
    );
    all_read(&rt, &memory, &[(at(Area::M, 13, 0), Width::Byte, 0x39)]);
}

#[test]
fn data_blocks(rt: HostRuntime) {
    let memory = memory(&rt, rt.alloc());
    let rows: [(u16, Option<&[u8]>); 3] = [
        (7, Some(&[0x0A, 0x0B, 0x0C, 0x0D])),
        (3, Some(&[])),
        (0, None),
    ];
    for (number, bytes) in rows {
        same(&rt, number, memory.data_block(number), bytes);
    }
}

// Peripheral outputs take what T PQW writes, the process image with them, and peripheral inputs are
// read as area P.
#[test]
fn peripherals(rt: HostRuntime) {
    let mut memory = memory(&rt, rt.alloc());
    write(
        &rt,
        &mut memory,
        "T PQW 4",
        at(Area::P, 4, 0),
        Width::Word,
        0xABCD,
    );
    all_output(&rt, &memory, "T PQW 4", &[(4, Some(0xAB)), (5, Some(0xCD))]);
    for (byte, value, set) in [
        (0, 0x55, Ok(())),
        (767, 0x66, Ok(())),
        (128, 0x77, Err(Missing)),
    ] {
        same(&rt, ("PIB", byte), memory.set_input(byte, value), set);
    }
    let rows = [
        (at(Area::Q, 4, 0), Width::Word, 0xABCD),
        (at(Area::P, 4, 0), Width::Word, 0),
        (at(Area::P, 0, 0), Width::Byte, 0x55),
        (at(Area::P, 767, 0), Width::Byte, 0x66),
        (at(Area::I, 0, 0), Width::Byte, 0),
    ];
    all_read(&rt, &memory, &rows);
}

// A refresh moves QB 0 out and PIB 0 in.
#[test]
fn refresh(rt: HostRuntime) {
    let mut memory = memory(&rt, rt.alloc());
    same(&rt, "PIB 0", memory.set_input(0, 0x55), Ok(()));
    write(
        &rt,
        &mut memory,
        "T QB 0",
        at(Area::Q, 0, 0),
        Width::Byte,
        0x99,
    );
    all_output(&rt, &memory, "before the refresh", &[(0, Some(0))]);
    memory.refresh();
    all_read(&rt, &memory, &[(at(Area::I, 0, 0), Width::Byte, 0x55)]);
    all_output(&rt, &memory, "after", &[(0, Some(0x99)), (128, None)]);
}

/// From each of these bytes on, the first that differs.
fn next_changes(
    rt: &impl Abort,
    now: &PeripheralArea,
    before: &PeripheralArea,
    rows: &[(u16, Option<u16>)],
) {
    for (from, changed) in rows {
        let next = now.next_change(before, *from);
        same(rt, ("next change from", *from), next, *changed);
    }
}

// What changed since the outputs were copied, and what clearing them leaves.
#[test]
fn changed_outputs(rt: HostRuntime) {
    let mut memory = memory(&rt, rt.alloc());
    let mut before = memory.outputs().copied();
    write(
        &rt,
        &mut memory,
        "T QB 0",
        at(Area::Q, 0, 0),
        Width::Byte,
        0x99,
    );
    memory.refresh();
    write(
        &rt,
        &mut memory,
        "PQ 700.3",
        at(Area::P, 700, 3),
        Width::Bit,
        1,
    );
    same(&rt, "PQB 700", memory.outputs().byte(700), Some(0x08));
    let rows = [(0, Some(0)), (1, Some(700)), (701, None)];
    next_changes(&rt, memory.outputs(), &before, &rows);
    before.copy_from(memory.outputs());
    next_changes(&rt, memory.outputs(), &before, &[(0, None)]);
    memory.clear_outputs();
    all_output(&rt, &memory, "cleared", &[(0, Some(0)), (700, Some(0))]);
    next_changes(&rt, memory.outputs(), &before, &rows);
    all_read(&rt, &memory, &[(at(Area::Q, 0, 0), Width::Byte, 0x99)]);
}

// A byte of an area, what it was written, and what a warm restart leaves of it.
static RETAINED: [(Area, u16, u32, u32); 8] = [
    (Area::M, 0, 0x11, 0x11),
    (Area::M, 15, 0x22, 0x22),
    (Area::M, 16, 0x33, 0),
    (Area::M, 255, 0x44, 0),
    (Area::I, 0, 0x55, 0),
    (Area::I, 127, 0x66, 0),
    (Area::Q, 0, 0x77, 0),
    (Area::Q, 127, 0x88, 0),
];

// MB 0 to MB 15, data blocks and the peripheral inputs and outputs stay.
#[test]
fn restarts(rt: HostRuntime) {
    for (profile, last) in [(Profile::Small, 255), (Profile::Large, 2_047)] {
        let mut memory = memory_of(&rt, rt.alloc(), profile);
        same(&rt, "PIB 1", memory.set_input(1, 0x99), Ok(()));
        let output = at(Area::P, 300, 0);
        write(&rt, &mut memory, "T PQB 300", output, Width::Byte, 0xAA);
        let end = at(Area::M, last, 0);
        write(&rt, &mut memory, "T MB", end, Width::Byte, 0xBB);
        for (area, byte, value, _) in &RETAINED {
            let place = at(*area, *byte, 0);
            let value = *value % 0x100;
            write(&rt, &mut memory, "before", place, Width::Byte, value);
        }
        memory.clear_unretained();
        for (area, byte, _, left) in &RETAINED {
            let place = at(*area, *byte, 0);
            all_read(&rt, &memory, &[(place, Width::Byte, *left)]);
        }
        let rows = [
            (end, Width::Byte, 0),
            (at(Area::P, 1, 0), Width::Byte, 0x99),
            (in_block(7, 0, 0), Width::Dword, 0x0A0B_0C0D),
        ];
        all_read(&rt, &memory, &rows);
        all_output(&rt, &memory, "outputs", &[(300, Some(0xAA))]);
    }
}

// Local bytes are no memory; their operands are read and written in the same way.
#[test]
fn local_bytes(rt: HostRuntime) {
    let mut bytes = [0x12, 0x34, 0x56, 0x78];
    let read = operands::number(&bytes, 1, 0, Width::Word);
    same(&rt, "LW 1", read, Some(0x3456));
    let read = operands::number(&bytes, 3, 4, Width::Bit);
    same(&rt, "L 3.4", read, Some(1));
    let read = operands::number(&bytes, 3, 0, Width::Word);
    same(&rt, "LW 3 of 4 bytes", read, None);
    let written = operands::put(&mut bytes, 2, 0, Width::Word, 0xABCD);
    same(&rt, "T LW 2", written, Ok(()));
    let written = operands::put(&mut bytes, 1, 0, Width::Dword, 0);
    same(&rt, "T LD 1 of 4 bytes", written, Err(Missing));
    same(&rt, "local bytes", bytes, [0x12, 0x34, 0xAB, 0xCD]);
}
