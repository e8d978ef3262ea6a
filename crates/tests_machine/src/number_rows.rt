//! Number instructions, comparisons, BCD, word logic, shifts.
use crate::bench::{Row, all_hold};
use std::test::Fail;

/// Accumulator 2 is the left operand and stays.
static SUMS: [Row; 25] = [
    ("+I", "A2=7 A1=ABCD0005", "A1=ABCD000C STW=80"),
    // 32767 + 1, -32768 - 1, -65536
    ("+I", "A2=7FFF A1=1", "A1=8000 STW=70"),
    ("+I", "A2=8000 A1=FFFF", "A1=7FFF STW=B0"),
    ("+I", "A2=8000 A1=8000", "A1=0 STW=30"),
    // 1 + -1: OV goes, OS stays
    ("+I", "A2=1 A1=FFFF STW=30", "A1=0 STW=10"),
    ("-I", "A2=5 A1=7", "A1=FFFE STW=40"),
    ("-I", "A2=7FFF A1=FFFF", "A1=8000 STW=70"),
    ("*I", "A2=3 A1=FFFE", "A1=FFFFFFFA STW=40"),
    ("*I", "A2=100 A1=100", "A1=10000 STW=B0"),
    ("*I", "A2=8000 A1=8000", "A1=40000000 STW=B0"),
    // 13 / 4 = 3, rest 1; -13 / 4 = -3, rest -1; by 0; -32768 by -1
    ("/I", "A2=D A1=4", "A1=10003 STW=80"),
    ("/I", "A2=FFF3 A1=4", "A1=FFFFFFFD STW=40"),
    ("/I", "A2=5 A1=AAAA0000", "STW=F0"),
    ("/I", "A2=8000 A1=FFFF", "A1=8000 STW=B0"),
    ("+D", "A2=7FFFFFFF A1=1", "A1=80000000 STW=70"),
    ("-D", "A2=2 A1=3", "A1=FFFFFFFF STW=40"),
    ("*D", "A2=FFFFFFFD A1=2", "A1=FFFFFFFA STW=40"),
    ("*D", "A2=10000 A1=10000", "A1=0 STW=B0"),
    // -7 / 2 = -3, rest -1
    ("/D", "A2=FFFFFFF9 A1=2", "A1=FFFFFFFD STW=40"),
    ("/D", "A2=9 A1=0", "STW=F0"),
    ("/D", "A2=80000000 A1=FFFFFFFF", "A1=80000000 STW=B0"),
    ("MOD", "A2=FFFFFFF9 A1=2", "A1=FFFFFFFF STW=40"),
    ("MOD", "A2=9 A1=0", "STW=F0"),
    ("MOD", "A2=80000000 A1=FFFFFFFF STW=30", "A1=0 STW=10"),
    ("NEGI", "A1=8000", "STW=70"),
];

#[test]
fn sums(rt: HostRuntime) -> Result<(), Fail> {
    all_hold(&rt, rt.alloc(), &SUMS)
}

/// Comparisons (greater 1/0, less 0/1), negations, conversions.
static COMPARED: [Row; 25] = [
    ("==I", "A2=5 A1=5 STW=28", "STW=7"),
    ("<>I", "A2=FFFF A1=1", "STW=47"),
    (">I", "A2=7FFF A1=8000", "STW=87"),
    ("<I", "A2=FFFF A1=1", "STW=47"),
    (">=I", "A2=FFFF A1=1", "STW=41"),
    ("<=I", "A2=FFFF A1=1", "STW=47"),
    ("==I", "A2=AAAA0005 A1=5", "STW=7"),
    ("==D", "A2=AAAA0005 A1=5", "STW=41"),
    ("<>D", "A2=AAAA0005 A1=5", "STW=47"),
    (">D", "A2=8000 A1=7FFF", "STW=87"),
    ("<D", "A2=80000000 A1=1", "STW=47"),
    (">=D", "A2=6 A1=6", "STW=7"),
    ("<=D", "A2=7 A1=6 STW=10", "STW=91"),
    ("NEGI", "A1=12340005", "A1=1234FFFB STW=40"),
    ("NEGD", "A1=FFFFFFFF", "A1=1 STW=80"),
    ("INVI", "A1=123400FF STW=1FF", "A1=1234FF00"),
    ("INVD", "A1=FFFF STW=1FF", "A1=FFFF0000"),
    ("ITD", "A1=12348000 STW=1FF", "A1=FFFF8000"),
    // 16#FF85 is -123, 16#FF676981 is -9,999,999
    ("BTI", "A1=AAAAF123 STW=1FF", "A1=AAAAFF85"),
    ("BTD", "A1=F9999999 STW=1FF", "A1=FF676981"),
    ("ITB", "A1=AAAAFF85 STW=F0", "A1=AAAAF123 STW=D0"),
    ("ITB", "A1=3E8", "STW=30"),
    ("DTB", "A1=FF676981", "A1=F9999999"),
    ("DTB", "A1=989680", "STW=30"),
    ("NEGD", "A1=80000000", "STW=70"),
];

#[test]
fn comparisons_and_conversions(rt: HostRuntime) -> Result<(), Fail> {
    all_hold(&rt, rt.alloc(), &COMPARED)
}

/// Operation logic: CC 1 tells a result other than 0; CC 0 and OV become 0, OS stays.
static WORD_LOGIC: [Row; 12] = [
    ("AW", "A2=FF A1=AAAA0FF0 STW=70", "A1=AAAA00F0 STW=90"),
    ("OW", "A2=F A1=AAAA00F0", "A1=AAAA00FF STW=80"),
    ("XOW", "A2=FF A1=AAAA00FF STW=E0", "A1=AAAA0000 STW=0"),
    ("AW #F00F", "A2=0 A1=AAAA0FFF", "A1=AAAA000F STW=80"),
    ("OW #F00", "A2=FFFF A1=AAAA000F", "A1=AAAA0F0F STW=80"),
    ("XOW #FFFF", "A1=AAAA00FF", "A1=AAAAFF00 STW=80"),
    ("AD", "A2=FF000FF0 A1=AA0000F0", "A1=AA0000F0 STW=80"),
    ("OD", "A2=FF000FF0 A1=AA0000FF", "A1=FF000FFF STW=80"),
    ("XOD", "A2=FF000FF0 A1=FF000FF0 STW=90", "A1=0 STW=10"),
    ("AD #F", "A2=FFFFFFFF A1=FFFFFFF0 STW=80", "A1=0 STW=0"),
    ("OD #80000000", "A1=1", "A1=80000001 STW=80"),
    ("XOD #FFFFFFFF", "A1=FFFF0000", "A1=FFFF STW=80"),
];

#[test]
fn word_logic(rt: HostRuntime) -> Result<(), Fail> {
    all_hold(&rt, rt.alloc(), &WORD_LOGIC)
}

/// Shifts by a literal and by ACCU 2-L-L. CC 1 (80) is the last bit out.
static SHIFTS: [Row; 25] = [
    // 16#8123 is 1000 0001 0010 0011
    ("SSI #4", "A2=1 A1=AAAA8123 STW=E0", "A1=AAAAF812 STW=0"),
    ("SSI", "A2=FFFFFF02 A1=AAAA8123", "A1=AAAAE048 STW=80"),
    ("SSI", "A2=14 A1=8000", "A1=FFFF STW=80"),
    ("SSD #4", "A1=80000000 STW=10", "A1=F8000000 STW=10"),
    ("SSD", "A2=28 A1=80000000", "A1=FFFFFFFF STW=80"),
    ("SLW #1", "A1=AAAA8001", "A1=AAAA0002 STW=80"),
    ("SLW", "A2=10 A1=AAAA0001", "A1=AAAA0000 STW=80"),
    ("SLW", "A2=11 A1=AAAAFFFF STW=E0", "A1=AAAA0000 STW=0"),
    ("SLW #0", "A1=FFFF STW=E0", ""),
    ("SLW", "A2=100 A1=FFFF STW=E0", ""),
    ("SRW #1", "A1=AAAA8001", "A1=AAAA4000 STW=80"),
    ("SRW", "A2=10 A1=8000", "A1=0 STW=80"),
    ("SRW", "A2=11 A1=FFFF STW=E0", "A1=0 STW=0"),
    ("SLD #4", "A1=F000000F", "A1=F0 STW=80"),
    ("SLD", "A2=20 A1=1", "A1=0 STW=80"),
    ("SLD", "A2=21 A1=FFFFFFFF STW=80", "A1=0 STW=0"),
    ("SRD #4", "A1=F000000F", "A1=F000000 STW=80"),
    ("SRD", "A2=20 A1=80000000", "A1=0 STW=80"),
    // 32 places are a whole turn, 33 are one place
    ("RLD #4", "A1=F000000A", "A1=AF STW=80"),
    ("RLD #20", "A1=1", "A1=1 STW=80"),
    ("RLD", "A2=21 A1=80000000", "A1=1 STW=80"),
    ("RRD #4", "A1=F000000A", "A1=AF000000 STW=80"),
    ("RRD", "A2=21 A1=1", "A1=80000000 STW=80"),
    // one place through CC 1
    ("RLDA", "A1=80000000 STW=E0", "A1=1 STW=80"),
    ("RRDA", "A1=2 STW=E0", "A1=80000001 STW=0"),
];

#[test]
fn shifts(rt: HostRuntime) -> Result<(), Fail> {
    all_hold(&rt, rt.alloc(), &SHIFTS)
}
