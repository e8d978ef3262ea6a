//! Memory-indirect and register-indirect operands, LAR, TAR, CAR, +AR.
//!
//! A pointer has its byte from bit 3 on: 16#50 is byte 10.
use crate::bench::{Row, all_hold};
use std::test::Fail;

/// The pointer's own place in each area that may hold it, and what it points at in each area.
static BY_MEMORY: [Row; 14] = [
    ("L MW[MD0]", "MD0=50 MW10=1234", "A1=1234"),
    ("T QB[LD0]", "LB3=28 A1=77", "QB5=77"),
    (
        "OPN DB10; L IB[DBD0] | DB 10 { 00 00 00 18",
        "IB3=55",
        "A1=55 DB=A",
    ),
    (
        "OPN DI10; L MB[DID0] | DB 10 { 00 00 00 18",
        "MB3=55",
        "A1=55 DI=A",
    ),
    (
        "OPN DB10; L DBW[MD0] | DB 10 { 00 00 12 34",
        "MD0=10",
        "A1=1234 DB=A",
    ),
    (
        "OPN DI10; T DIW[MD0] | DB 10 { 00 00 12 34",
        "MD0=10 A1=5678",
        "DB10.DBD0=5678 DI=A",
    ),
    ("L LB[MD0]", "MD0=28 LB5=66", "A1=66"),
    ("T LW[MD0]", "MD0=28 A1=1234", "LB5=12 LB6=34"),
    ("L MD[MD0]", "MD0=50 MD10=12345678", "A1=12345678"),
    // the area and all bits above bit 18 mean nothing here
    ("L MW[MD0]", "MD0=FFF80050 MW10=1234", "A1=1234"),
    ("L MW[MD0]", "MD0=81000050 MW10=1234 IW10=5678", "A1=1234"),
    // the greatest byte of a pointer is 65,535
    ("L MB[MD0]", "MD0=7FFF8", "ERR=22"),
    ("= M[MD0]", "MD0=57 STW=2", "MB10=80 STW=6"),
    (
        "OPN DB10; A DBX[DBD0] | DB 10 { 00 00 00 27 80 00",
        "",
        "STW=7 DB=A",
    ),
];

#[test]
fn by_memory(rt: HostRuntime) -> Result<(), Fail> {
    all_hold(&rt, rt.alloc(), &BY_MEMORY)
}

/// Within an area, and with the area in the register.
static BY_REGISTER: [Row; 25] = [
    ("L MW[AR1+2.0]", "AR1=40 MW10=1234", "A1=1234"),
    ("L MW[AR2+0.0]", "AR1=40 AR2=50 MW10=1234", "A1=1234"),
    ("T QD[AR1+1.0]", "AR1=18 A1=12345678", "QD4=12345678"),
    (
        "OPN DB10; L DBW[AR1+2.0] | DB 10 { 00 00 12 34",
        "",
        "A1=1234 DB=A",
    ),
    (
        "OPN DI10; L DIB[AR1+3.0] | DB 10 { 00 00 12 34",
        "",
        "A1=34 DI=A",
    ),
    ("T LB[AR2+1.0]", "AR2=20 A1=9", "LB5=9"),
    // the register's area means nothing within an area
    (
        "L MW[AR1+2.0]",
        "AR1=81000040 MW10=1234 IW10=5678",
        "A1=1234",
    ),
    ("L MW[AR1+2.0]", "AR1=87F80040 MW10=1234", "A1=1234"),
    // bits are added too, and the sum is modulo 2 to the 19
    ("A M[AR1+0.7]", "AR1=1 MB1=01", "STW=7"),
    ("L MB[AR1+1.0]", "AR1=7FFF8 MB0=9", "A1=9"),
    ("L MB[AR1+65535.0]", "AR1=10 MB1=9", "A1=9"),
    (
        "L W[AR1+2.0]",
        "AR1=83000040 MW10=1234 IW10=5678",
        "A1=1234",
    ),
    ("L W[AR2+0.0]", "AR2=81000050 IW10=5678", "A1=5678"),
    ("T B[AR1+0.0]", "AR1=82000028 A1=77", "QB5=77 PQ5=0"),
    ("L B[AR1+0.0]", "AR1=80000028 PB5=66 QB5=55", "A1=66"),
    ("T B[AR1+0.0]", "AR1=80000028 A1=77", "PQ5=77 QB5=77"),
    (
        "OPN DB10; L W[AR1+0.0] | DB 10 { 00 00 12 34",
        "AR1=84000010",
        "A1=1234 DB=A",
    ),
    (
        "OPN DI10; T W[AR1+0.0] | DB 10 { 00 00 12 34",
        "AR1=85000010 A1=5678",
        "DB10.DBW2=5678 DI=A",
    ),
    ("L B[AR1+0.0]", "AR1=86000028 LB5=44", "A1=44"),
    ("T D[AR2+0.0]", "AR2=86000028 A1=12345678", "LB5=12 LB8=78"),
    // bits 19 to 23 and 27 to 30 mean nothing
    ("L W[AR1+0.0]", "AR1=FBF80050 MW10=1234", "A1=1234"),
    // the sum doesn't reach the area
    ("L B[AR1+1.0]", "AR1=8307FFF8 MB0=9", "A1=9"),
    ("S X[AR1+0.3]", "AR1=82000000 STW=2", "QB0=08 STW=6"),
    ("FP X[AR1+0.3]", "AR1=83000000 STW=2", "MB0=08 STW=7"),
    ("L D[AR1+0.0]", "AR1=83000050 MD10=12345678", "A1=12345678"),
];

#[test]
fn by_register(rt: HostRuntime) -> Result<(), Fail> {
    all_hold(&rt, rt.alloc(), &BY_REGISTER)
}

/// The address registers. LAR leaves the accumulators.
static ADDRESS_REGISTERS: [Row; 25] = [
    ("LAR1", "A1=12345678 A2=9 AR2=7 STW=1FF", "AR1=12345678"),
    ("LAR2", "A1=12345678 A2=9 AR1=7", "AR2=12345678"),
    ("LAR1 #83000050", "A1=1 A2=2", "AR1=83000050"),
    ("LAR2 #50", "A1=1 A2=2", "AR2=50"),
    ("LAR1 MD4", "MD4=87654321 A1=1", "AR1=87654321"),
    ("LAR2 LD4", "LB4=87 LB7=21", "AR2=87000021"),
    (
        "LAR1 DB10.DBD0 | DB 10 { 11 22 33 44",
        "",
        "AR1=11223344 DB=A",
    ),
    (
        "OPN DI10; LAR2 DID0 | DB 10 { 11 22 33 44",
        "",
        "AR2=11223344 DI=A",
    ),
    ("LAR1AR2", "AR1=1 AR2=2", "AR1=2"),
    ("TAR1", "A1=1 A2=2 AR1=3 AR2=4 STW=1FF", "A1=3 A2=1"),
    ("TAR2", "A1=1 A2=2 AR1=3 AR2=4", "A1=4 A2=1"),
    ("TAR1 MD4", "A1=1 A2=2 AR1=12345678", "MD4=12345678"),
    ("TAR2 LD4", "A1=1 A2=2 AR2=12345678", "LB4=12 LB7=78"),
    (
        "TAR2 DB10.DBD0 | DB 10 { 11 22 33 44",
        "AR2=5",
        "DB10.DBD0=5 DB=A",
    ),
    ("TAR1AR2", "AR1=1 AR2=2", "AR2=1"),
    ("CAR", "AR1=1 AR2=2 A1=3 A2=4 STW=1FF", "AR1=2 AR2=1"),
    // ACCU 1-L with its sign, in bits 0 to 23
    ("+AR1", "A1=FFFF AR1=83000001 STW=1FF", "AR1=83000000"),
    ("+AR1", "A1=FFFF AR1=84000000", "AR1=84FFFFFF"),
    ("+AR1", "A1=17FFF AR1=0", "AR1=7FFF"),
    ("+AR2", "A1=8000 AR2=85010000 AR1=7", "AR2=85008000"),
    ("+AR1 #10", "A1=5 AR1=83FFFFF8", "AR1=83000008"),
    ("+AR2 #8", "A1=5 AR2=81000050 AR1=7", "AR2=81000058"),
    ("+AR1 #FFFFFFFF", "AR1=83000001", "AR1=83000000"),
    ("LAR1 PD256", "PB256=01 PB259=02", "AR1=01000002"),
    ("TAR1 PD0", "AR1=12345678", "PQ0=12 PQ3=78 QD0=12345678"),
];

#[test]
fn address_registers(rt: HostRuntime) -> Result<(), Fail> {
    all_hold(&rt, rt.alloc(), &ADDRESS_REGISTERS)
}
