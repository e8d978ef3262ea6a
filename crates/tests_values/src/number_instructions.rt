// In the tables a status word is its number: /FC 1, RLO 2, STA 4, OR 8, OS 16#10, OV 16#20,
// CC 0 16#40, CC 1 16#80, BR 16#100.
use crate::compare::same;
use alu::{
    Compare, add_const, add_const_wide, add_d, add_i, and_d, and_w, btd, bti, cad, caw, compare_d,
    compare_i, dec, div_d, div_i, dtb, inc, inv_d, inv_i, itb, itd, mod_d, mul_d, mul_i, neg_d,
    neg_i, or_d, or_w, pop, push, rld, rlda, rrd, rrda, sld, slw, srd, srw, ssd, ssi, sub_d, sub_i,
    tak, xor_d, xor_w,
};
use plc_base::BadBcd;
use status_word::{Regs, Status};

fn regs(a2: u32, a1: u32, stw: u32) -> Regs {
    let mut regs = Regs::new();
    regs.a2 = a2;
    regs.a1 = a1;
    regs.status = Status::transferred_status(stw);
    regs
}

/// Accumulator 2, accumulator 1 and the number of the status word.
fn shown_registers(r: &Regs) -> (u32, u32, u32) {
    (r.a2, r.a1, u32::from(r.status.number()))
}

#[derive(Clone, Copy, Debug)]
enum Sum {
    AddI,
    SubI,
    MulI,
    DivI,
    AddD,
    SubD,
    MulD,
    DivD,
    ModD,
}

fn calculate(r: &mut Regs, what: Sum) {
    match what {
        Sum::AddI => add_i(r),
        Sum::SubI => sub_i(r),
        Sum::MulI => mul_i(r),
        Sum::DivI => div_i(r),
        Sum::AddD => add_d(r),
        Sum::SubD => sub_d(r),
        Sum::MulD => mul_d(r),
        Sum::DivD => div_d(r),
        Sum::ModD => mod_d(r),
    }
}

/// Accumulator 2, accumulator 1 and status word; then accumulator 1 and status word afterwards.
const SUMS: [(Sum, u32, u32, u32, u32, u32); 31] = [
    // 32767 + 1 is too high: 0/1, OV, OS. -65536 shows 0/0. -32769 is too low: 1/0.
    (Sum::AddI, 0x7FFF, 1, 0, 0x8000, 0x70),
    (Sum::AddI, 0x8000, 0x8000, 0, 0, 0x30),
    (Sum::AddI, 0x8000, 0xFFFF, 0, 0x7FFF, 0xB0),
    // 7 + 5 = 12, and ACCU 1-H stays; 1 + -1 = 0 takes OV away and leaves OS.
    (Sum::AddI, 7, 0xABCD_0005, 0, 0xABCD_000C, 0x80),
    (Sum::AddI, 1, 0xFFFF, 0x30, 0, 0x10),
    // 5 - 7 = -2; -32768 - 1; 32767 - -1.
    (Sum::SubI, 5, 7, 0, 0xFFFE, 0x40),
    (Sum::SubI, 0x8000, 1, 0, 0x7FFF, 0xB0),
    (Sum::SubI, 0x7FFF, 0xFFFF, 0, 0x8000, 0x70),
    // 3 * -2 = -6; 256 * 256 and -32768 * -1 have more than 16 bits.
    (Sum::MulI, 3, 0xFFFE, 0, 0xFFFF_FFFA, 0x40),
    (Sum::MulI, 0x100, 0x100, 0, 0x1_0000, 0xB0),
    (Sum::MulI, 0x8000, 0xFFFF, 0, 0x8000, 0xB0),
    (Sum::MulI, 0, 5, 0, 0, 0),
    // 13 / 4 = 3, rest 1; -13 / 4 = -3, rest -1; 3 / 4 = 0, rest 3; by 0; -32768 / -1.
    (Sum::DivI, 13, 4, 0, 0x1_0003, 0x80),
    (Sum::DivI, 0xFFF3, 4, 0, 0xFFFF_FFFD, 0x40),
    (Sum::DivI, 3, 4, 0, 0x3_0000, 0),
    (Sum::DivI, 0x1_0003, 0xAAAA_0000, 0, 0xAAAA_0000, 0xF0),
    (Sum::DivI, 0x8000, 0xFFFF, 0, 0x8000, 0xB0),
    // The same at 32 bits.
    (Sum::AddD, 0x7FFF_FFFF, 1, 0, 0x8000_0000, 0x70),
    (Sum::AddD, 0x8000_0000, 0x8000_0000, 0, 0, 0x30),
    (Sum::AddD, 0x8000_0000, 0xFFFF_FFFF, 0, 0x7FFF_FFFF, 0xB0),
    (Sum::SubD, 2, 3, 0, 0xFFFF_FFFF, 0x40),
    (Sum::SubD, 0x7FFF_FFFF, 0xFFFF_FFFF, 0, 0x8000_0000, 0x70),
    // -3 * 2 = -6; 65536 * 65536 = 2 ^ 32, of which the lowest 32 bits are 0.
    (Sum::MulD, 0xFFFF_FFFD, 2, 0, 0xFFFF_FFFA, 0x40),
    (Sum::MulD, 0x1_0000, 0x1_0000, 0, 0, 0xB0),
    // -7 / 2 = -3; by 0; the least number by -1.
    (Sum::DivD, 0xFFFF_FFF9, 2, 0, 0xFFFF_FFFD, 0x40),
    (Sum::DivD, 9, 0, 0, 0, 0xF0),
    (Sum::DivD, 0x8000_0000, 0xFFFF_FFFF, 0, 0x8000_0000, 0xB0),
    // The rest of -7 / 2 is -1, that of 7 / 2 is 1; by 0; the least number by -1.
    (Sum::ModD, 0xFFFF_FFF9, 2, 0, 0xFFFF_FFFF, 0x40),
    (Sum::ModD, 7, 2, 0, 1, 0x80),
    (Sum::ModD, 9, 0, 0, 0, 0xF0),
    (Sum::ModD, 0x8000_0000, 0xFFFF_FFFF, 0x30, 0, 0x10),
];

#[test]
fn sums(rt: HostRuntime) {
    for (what, a2, a1, stw, a1_after, stw_after) in SUMS {
        let mut r = regs(a2, a1, stw);
        calculate(&mut r, what);
        let row = (what, a2, a1, stw);
        same(&rt, row, shown_registers(&r), (a2, a1_after, stw_after));
    }
}

#[derive(Clone, Copy, Debug)]
enum Single {
    NegI,
    NegD,
    InvI,
    InvD,
    Itd,
    Itb,
    Dtb,
    Rlda,
    Rrda,
    Caw,
    Cad,
    Inc,
    Dec,
    Add,
    AddWide,
}

fn change(r: &mut Regs, what: Single) {
    match what {
        Single::NegI => neg_i(r),
        Single::NegD => neg_d(r),
        Single::InvI => inv_i(r),
        Single::InvD => inv_d(r),
        Single::Itd => itd(r),
        Single::Itb => itb(r),
        Single::Dtb => dtb(r),
        Single::Rlda => rlda(r),
        Single::Rrda => rrda(r),
        Single::Caw => caw(r),
        Single::Cad => cad(r),
        Single::Inc => inc(r, 1),
        Single::Dec => dec(r, 1),
        Single::Add => add_const(r, 0xFFFF),
        Single::AddWide => add_const_wide(r, 2),
    }
}

/// Accumulator 1 and status word; then both afterwards.
const SINGLES: [(Single, u32, u32, u32, u32); 25] = [
    (Single::NegI, 0x1234_0005, 0, 0x1234_FFFB, 0x40),
    (Single::NegI, 0x8000, 0, 0x8000, 0x70),
    (Single::NegI, 0, 0xF0, 0, 0x10),
    (Single::NegD, 0xFFFF_FFFF, 0, 1, 0x80),
    (Single::NegD, 0x8000_0000, 0, 0x8000_0000, 0x70),
    (Single::InvI, 0x1234_00FF, 0x1FF, 0x1234_FF00, 0x1FF),
    (Single::InvD, 0x0000_FFFF, 0x1FF, 0xFFFF_0000, 0x1FF),
    (Single::Itd, 0x1234_8000, 0x1FF, 0xFFFF_8000, 0x1FF),
    // 16#FF85 is -123. OV becomes 0, OS and CC stay.
    (Single::Itb, 0xAAAA_FF85, 0xF0, 0xAAAA_F123, 0xD0),
    (Single::Itb, 999, 0, 0x0999, 0),
    (Single::Itb, 1000, 0, 1000, 0x30),
    // 16#FF676981 is -9,999,999, and 16#989680 is 10,000,000.
    (Single::Dtb, 0xFF67_6981, 0, 0xF999_9999, 0),
    (Single::Dtb, 0x0098_9680, 0, 0x0098_9680, 0x30),
    // CC 1 moves in, and what moves out goes to CC 1.
    (Single::Rlda, 0x8000_0000, 0xE0, 1, 0x80),
    (Single::Rlda, 0x4000_0000, 0, 0x8000_0000, 0),
    (Single::Rrda, 2, 0x80, 0x8000_0001, 0),
    (Single::Rrda, 1, 0x60, 0, 0x80),
    (Single::Caw, 0x1122_3344, 0x1FF, 0x1122_4433, 0x1FF),
    (Single::Cad, 0x1122_3344, 0x1FF, 0x4433_2211, 0x1FF),
    // One byte, one word, one double word, each without a carry into the next.
    (Single::Inc, 0x12FF, 0x1FF, 0x1200, 0x1FF),
    (Single::Dec, 0x1200, 0x1FF, 0x12FF, 0x1FF),
    (Single::Dec, 0x1234, 0, 0x1233, 0),
    (Single::Add, 0x1_0005, 0x1FF, 0x1_0004, 0x1FF),
    (Single::Add, 0x1_0000, 0, 0x1_FFFF, 0),
    (Single::AddWide, 0xFFFF_FFFF, 0x1FF, 1, 0x1FF),
];

#[test]
fn singles(rt: HostRuntime) {
    for (what, a1, stw, a1_after, stw_after) in SINGLES {
        let mut r = regs(77, a1, stw);
        change(&mut r, what);
        same(
            &rt,
            (what, a1, stw),
            shown_registers(&r),
            (77, a1_after, stw_after),
        );
    }
}

#[test]
fn accumulators_and_bcd(rt: HostRuntime) {
    let mut r = regs(1, 2, 0);
    tak(&mut r);
    same(&rt, "TAK", shown_registers(&r), (2, 1, 0));
    push(&mut r);
    same(&rt, "PUSH", shown_registers(&r), (1, 1, 0));
    r.a2 = 5;
    pop(&mut r);
    same(&rt, "POP", shown_registers(&r), (5, 5, 0));

    // -123; a digit 10 and a sign digit 14 are refused, and nothing changes.
    for (a1, answer, a1_after) in [
        (0xAAAA_F123, Ok(()), 0xAAAA_FF85),
        (0xE0A0, Err(BadBcd), 0xE0A0),
        (0xE123, Err(BadBcd), 0xE123),
    ] {
        let mut r = regs(0, a1, 0);
        same(&rt, ("BTI", a1), (bti(&mut r), r.a1), (answer, a1_after));
    }
    // -9,999,999; a sign digit 1 is refused, and nothing changes.
    for (a1, answer, a1_after) in [
        (0xF999_9999, Ok(()), 0xFF67_6981),
        (0x1000_0000, Err(BadBcd), 0x1000_0000),
    ] {
        let mut r = regs(0, a1, 0);
        same(&rt, ("BTD", a1), (btd(&mut r), r.a1), (answer, a1_after));
    }
}

/// Accumulators 2 and 1 and status word, whether they are compared at 16 bits; then the status
/// word afterwards. A comparison that holds leaves /FC, RLO and STA 1, one that doesn't /FC 1.
const COMPARISONS: [(Compare, u32, u32, u32, bool, u32); 14] = [
    // -1 with 1: less, 0/1.
    (Compare::Eq, 0xFFFF, 1, 0, true, 0x41),
    (Compare::Ne, 0xFFFF, 1, 0, true, 0x47),
    (Compare::Gt, 0xFFFF, 1, 0, true, 0x41),
    (Compare::Lt, 0xFFFF, 1, 0, true, 0x47),
    (Compare::Ge, 0xFFFF, 1, 0, true, 0x41),
    (Compare::Le, 0xFFFF, 1, 0, true, 0x47),
    // Equal in the low word, 0/0, and different as double words.
    (Compare::Eq, 0xAAAA_0005, 5, 0, true, 0x07),
    (Compare::Ne, 0xAAAA_0005, 5, 0, true, 0x01),
    (Compare::Lt, 0xAAAA_0005, 5, 0, false, 0x47),
    // 32767 with -32768: greater, 1/0; OV and OR become 0, OS stays.
    (Compare::Gt, 0x7FFF, 0x8000, 0x38, true, 0x97),
    (Compare::Le, 0x7FFF, 0x8000, 0, true, 0x81),
    // At 32 bits 32767 is less than 32768, and -1 is less than 0.
    (Compare::Gt, 0x7FFF, 0x8000, 0, false, 0x41),
    (Compare::Ge, 0xFFFF_FFFF, 0, 0, false, 0x41),
    (Compare::Ge, 6, 6, 0, false, 0x07),
];

#[test]
fn comparisons(rt: HostRuntime) {
    for (how, a2, a1, stw, narrow, stw_after) in COMPARISONS {
        let mut r = regs(a2, a1, stw);
        if narrow {
            compare_i(&mut r, how);
        } else {
            compare_d(&mut r, how);
        }
        let row = (how, a2, a1, stw, narrow);
        same(&rt, row, shown_registers(&r), (a2, a1, stw_after));
    }
}

#[test]
fn word_logic(rt: HostRuntime) {
    let mut r = regs(0x00FF, 0xAAAA_0FF0, 0x70);
    and_w(&mut r, None);
    same(&rt, "AW", shown_registers(&r), (0x00FF, 0xAAAA_00F0, 0x90));
    and_w(&mut r, Some(0xF00F));
    same(
        &rt,
        "AW constant",
        shown_registers(&r),
        (0x00FF, 0xAAAA_0000, 0x10),
    );
    or_w(&mut r, Some(0x0F00));
    same(
        &rt,
        "OW constant",
        shown_registers(&r),
        (0x00FF, 0xAAAA_0F00, 0x90),
    );
    xor_w(&mut r, None);
    same(&rt, "XOW", shown_registers(&r), (0x00FF, 0xAAAA_0FFF, 0x90));
    and_d(&mut r, Some(0xFF00_0FF0));
    same(
        &rt,
        "AD constant",
        shown_registers(&r),
        (0x00FF, 0xAA00_0FF0, 0x90),
    );
    or_d(&mut r, None);
    same(&rt, "OD", shown_registers(&r), (0x00FF, 0xAA00_0FFF, 0x90));
    xor_d(&mut r, Some(0xAA00_0FFF));
    same(&rt, "XOD constant", shown_registers(&r), (0x00FF, 0, 0x10));
}

#[derive(Clone, Copy, Debug)]
enum Shift {
    Ssi,
    Ssd,
    Slw,
    Srw,
    Sld,
    Srd,
    Rld,
    Rrd,
}

fn move_bits(r: &mut Regs, what: Shift, count: Option<u8>) {
    match what {
        Shift::Ssi => ssi(r, count),
        Shift::Ssd => ssd(r, count),
        Shift::Slw => slw(r, count),
        Shift::Srw => srw(r, count),
        Shift::Sld => sld(r, count),
        Shift::Srd => srd(r, count),
        Shift::Rld => rld(r, count),
        Shift::Rrd => rrd(r, count),
    }
}

/// Places, accumulator 1 and status word; then both afterwards. CC 1 (16#80) is the last bit out.
const SHIFTS: [(Shift, u8, u32, u32, u32, u32); 30] = [
    // 16#8123 is 1000 0001 0010 0011: four places on bit 3 has left, two places on bit 1.
    (Shift::Ssi, 4, 0xAAAA_8123, 0xE0, 0xAAAA_F812, 0),
    (Shift::Ssi, 2, 0xAAAA_8123, 0, 0xAAAA_E048, 0x80),
    (Shift::Ssi, 0, 0x8123, 0x1FF, 0x8123, 0x1FF),
    // Above the width the sign alone is left.
    (Shift::Ssi, 20, 0x8000, 0, 0xFFFF, 0x80),
    (Shift::Ssi, 20, 0x7FFF, 0x80, 0, 0),
    (Shift::Ssd, 4, 0x8000_0000, 0, 0xF800_0000, 0),
    (Shift::Ssd, 40, 0x8000_0000, 0, 0xFFFF_FFFF, 0x80),
    // At the width the last bit out still counts, above it CC 1 is 0.
    (Shift::Slw, 1, 0xAAAA_8001, 0, 0xAAAA_0002, 0x80),
    (Shift::Slw, 16, 0xAAAA_0001, 0, 0xAAAA_0000, 0x80),
    (Shift::Slw, 17, 0xFFFF, 0xE0, 0, 0),
    (Shift::Slw, 0, 0xFFFF, 0xE0, 0xFFFF, 0xE0),
    (Shift::Srw, 1, 0xAAAA_8001, 0, 0xAAAA_4000, 0x80),
    (Shift::Srw, 16, 0x8000, 0, 0, 0x80),
    (Shift::Srw, 17, 0xFFFF, 0xE0, 0, 0),
    (Shift::Sld, 4, 0xF000_000F, 0, 0x0000_00F0, 0x80),
    (Shift::Sld, 32, 1, 0, 0, 0x80),
    (Shift::Sld, 33, 0xFFFF_FFFF, 0x80, 0, 0),
    (Shift::Srd, 4, 0xF000_000F, 0, 0x0F00_0000, 0x80),
    (Shift::Srd, 32, 0x8000_0000, 0, 0, 0x80),
    (Shift::Srd, 255, 0xFFFF_FFFF, 0x80, 0, 0),
    // 32 places are a whole turn, and 33 are one place.
    (Shift::Rld, 4, 0xF000_000A, 0, 0x0000_00AF, 0x80),
    (Shift::Rld, 32, 1, 0, 1, 0x80),
    (Shift::Rld, 32, 2, 0x80, 2, 0),
    (Shift::Rld, 33, 0x8000_0000, 0, 1, 0x80),
    (Shift::Rld, 0, 1, 0x60, 1, 0x60),
    (Shift::Rrd, 4, 0xF000_000A, 0, 0xAF00_0000, 0x80),
    (Shift::Rrd, 1, 2, 0xE0, 1, 0),
    (Shift::Rrd, 32, 0x8000_0000, 0, 0x8000_0000, 0x80),
    (Shift::Rrd, 33, 1, 0, 0x8000_0000, 0x80),
    (Shift::Rrd, 0, 1, 0x60, 1, 0x60),
];

#[test]
fn shifts(rt: HostRuntime) {
    for (what, places, a1, stw, a1_after, stw_after) in SHIFTS {
        // Once by the literal, once by the lowest byte of accumulator 2.
        let row = (what, places, a1, stw);
        let mut r = regs(0, a1, stw);
        move_bits(&mut r, what, Some(places));
        same(&rt, row, shown_registers(&r), (0, a1_after, stw_after));
        let a2 = 0xFFFF_FF00 + u32::from(places);
        let mut r = regs(a2, a1, stw);
        move_bits(&mut r, what, None);
        same(&rt, row, shown_registers(&r), (a2, a1_after, stw_after));
    }
}
