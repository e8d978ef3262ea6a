use crate::compare::same;
use plc_base::{
    Area, BadArea, BadBcd, Place, Profile, SourceFault, TimeBase, TooLong, Width, bcd_to_int,
    bcd_to_unsigned, bcd7_to_dint, capped_decimal, decimal_up_to, dint_to_bcd7, int_to_bcd,
    is_peripheral_byte, ms_of_s5time, place_of_pointer, pointer_of_place, s5time_of_ms,
    unsigned_to_bcd,
};
use std::alloc::AllocError;

// Digit by digit as the manual writes them: 16#F012 is minus, 0, 1, 2.
static BCD_WORDS: [(u16, Result<i16, BadBcd>); 10] = [
    (0x0000, Ok(0)),
    (0x0999, Ok(999)),
    (0xF012, Ok(-12)),
    (0xF999, Ok(-999)),
    (0xF000, Ok(0)),
    (0x1000, Err(BadBcd)),
    (0xE012, Err(BadBcd)),
    (0x000A, Err(BadBcd)),
    (0x00F0, Err(BadBcd)),
    (0xFA00, Err(BadBcd)),
];

static BCD_DOUBLE_WORDS: [(u32, Result<i32, BadBcd>); 5] = [
    (0x0123_4567, Ok(1_234_567)),
    (0xF999_9999, Ok(-9_999_999)),
    (0xF000_0010, Ok(-10)),
    (0x1000_0000, Err(BadBcd)),
    (0x0A00_0000, Err(BadBcd)),
];

static INTS: [(i16, Option<u16>); 7] = [
    (0, Some(0)),
    (12, Some(0x0012)),
    (-12, Some(0xF012)),
    (999, Some(0x0999)),
    (-999, Some(0xF999)),
    (1_000, None),
    (-32_768, None),
];

static DINTS: [(i32, Option<u32>); 4] = [
    (1_234_567, Some(0x0123_4567)),
    (-9_999_999, Some(0xF999_9999)),
    (10_000_000, None),
    (-10_000_000, None),
];

#[test]
fn bcd(rt: HostRuntime) {
    for (word, number) in &BCD_WORDS {
        same(&rt, ("BCD word", *word), bcd_to_int(*word), *number);
    }
    for (word, number) in &BCD_DOUBLE_WORDS {
        same(
            &rt,
            ("BCD double word", *word),
            bcd7_to_dint(*word),
            *number,
        );
    }
    for (number, word) in &INTS {
        same(&rt, ("INT", *number), int_to_bcd(*number), *word);
    }
    for (number, word) in &DINTS {
        same(&rt, ("DINT", *number), dint_to_bcd7(*number), *word);
    }
    same(&rt, "digits 16#F999", bcd_to_unsigned(0xF999, 3), Some(999));
    same(&rt, "digits 16#0A99", bcd_to_unsigned(0x0A99, 3), None);
    same(&rt, "345 in BCD", unsigned_to_bcd(345, 3), 0x0345);
}

// S5T#2S is 200 units of 10 ms; 9,995 ms is more than 999 of these, so 99 units of 100 ms.
static MS: [(u32, Result<u16, TooLong>); 11] = [
    (0, Ok(0x0000)),
    (19, Ok(0x0001)),
    (2_000, Ok(0x0200)),
    (9_990, Ok(0x0999)),
    (9_995, Ok(0x1099)),
    (99_900, Ok(0x1999)),
    (99_901, Ok(0x2099)),
    (999_000, Ok(0x2999)),
    (999_001, Ok(0x3099)),
    (9_990_000, Ok(0x3999)),
    (9_990_001, Err(TooLong)),
];

static S5TIMES: [(u16, Result<u32, BadBcd>); 7] = [
    (0x0200, Ok(2_000)),
    (0x1099, Ok(9_900)),
    (0x2001, Ok(1_000)),
    (0x3999, Ok(9_990_000)),
    (0xF999, Ok(9_990_000)),
    (0xC001, Ok(10)),
    (0x00A0, Err(BadBcd)),
];

#[test]
fn s5times(rt: HostRuntime) {
    for (ms, word) in &MS {
        same(&rt, ("ms", *ms), s5time_of_ms(*ms), *word);
    }
    for (word, ms) in &S5TIMES {
        same(&rt, ("S5TIME", *word), ms_of_s5time(*word), *ms);
    }
    let base = TimeBase::of_s5time(0x6123);
    same(&rt, "base of 16#6123", base, TimeBase::OneSecond);
    same(&rt, "unit of 1 s", base.unit_ms(), 1_000);
    same(&rt, "S5T#123S", base.s5time(123), 0x2123);
}

// P#M 5.3: 5 * 8 + 3 = 43 = 16#2B. The bits 19 to 23 and 27 to 30 mean nothing.
#[test]
fn pointers(rt: HostRuntime) {
    let place = Place {
        area: Area::M,
        number: 0,
        byte: 5,
        bit: 3,
    };
    let farthest = Place {
        area: Area::Db,
        number: 0,
        byte: 65_535,
        bit: 7,
    };
    for (pointer, answer) in [
        (0x8300_002B, Ok(place)),
        (0xFBF8_002B, Ok(place)),
        (0x8407_FFFF, Ok(farthest)),
        (0x8700_0000, Err(BadArea)),
        (0x0300_002B, Err(BadArea)),
    ] {
        same(&rt, pointer, place_of_pointer(pointer), answer);
    }
    same(&rt, "P#M 5.3", pointer_of_place(&place), 0x8300_002B);
    let in_block = Place {
        area: Area::Db,
        number: 10,
        byte: 1,
        bit: 0,
    };
    same(&rt, "P#DBX 1.0", pointer_of_place(&in_block), 0x8400_0008);
}

#[test]
fn want_of_memory(rt: HostRuntime) {
    let fault = SourceFault::from(AllocError);
    same(&rt, "fault of an allocation", fault, SourceFault::NoMemory);
}

// The peripheral bytes beside their gap, the last one, and the first that there isn't.
static PERIPHERAL_BYTES: [(u16, bool); 7] = [
    (0, true),
    (127, true),
    (128, false),
    (255, false),
    (256, true),
    (767, true),
    (768, false),
];

// The bytes of bit memory, the timers, the counters, and the most frames.
static PROFILES: [(Profile, [usize; 4]); 2] = [
    (Profile::Small, [256, 128, 64, 16]),
    (Profile::Large, [2_048, 256, 256, 24]),
];

static WIDTHS: [(Width, usize, u32); 4] = [
    (Width::Bit, 1, 1),
    (Width::Byte, 1, 8),
    (Width::Word, 2, 16),
    (Width::Dword, 4, 32),
];

#[test]
fn sizes(rt: HostRuntime) {
    for (byte, exists) in &PERIPHERAL_BYTES {
        same(&rt, *byte, is_peripheral_byte(*byte), *exists);
    }
    for (profile, sizes) in &PROFILES {
        let got = [
            profile.bit_memory_size(),
            profile.timer_count(),
            profile.counter_count(),
            profile.most_frames(),
        ];
        same(&rt, *profile, got, *sizes);
    }
    for (width, bytes, bits) in &WIDTHS {
        let got = (width.byte_count(), width.bit_count());
        same(&rt, *width, got, (*bytes, *bits));
    }
}

static DECIMALS: [(&str, Option<u32>); 8] = [
    ("0", Some(0)),
    ("007", Some(7)),
    ("65535", Some(65_535)),
    ("65536", None),
    ("99999999999999999999999999", None),
    ("", None),
    ("-1", None),
    ("1 ", None),
];

#[test]
fn decimals(rt: HostRuntime) {
    for (word, number) in &DECIMALS {
        let found = decimal_up_to(word.as_bytes(), 65_535);
        same(&rt, *word, found, *number);
    }
    same(&rt, "1234 capped", capped_decimal(b"1234", 5_000), 1_234);
    same(&rt, "5001 capped", capped_decimal(b"5001", 5_000), 5_000);
}
