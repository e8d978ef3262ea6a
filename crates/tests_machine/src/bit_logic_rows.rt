//! A AN O ON X XN, brackets, =, S, R, FP, FN, SET, CLR, NOT, SAVE.
//!
//! The status word is hexadecimal: /FC 1, RLO 2, STA 4, OR 8, OS 10, OV 20, CC 0 40, CC 1 80, BR 100.
use crate::bench::{Row, all_hold};
use std::test::Fail;

/// Each area and each form of an operand.
static OPERANDS: [Row; 25] = [
    ("A I0.0", "IB0=01", "STW=7"),
    ("AN I0.0", "IB0=01", "STW=5"),
    ("O Q4.7", "QB4=80", "STW=7"),
    ("ON M1.0", "", "STW=3"),
    // within a string: 1 X 1, 1 XN 1
    ("X M0.1", "MB0=02 STW=3", "STW=5"),
    ("XN M0.1", "MB0=02 STW=3", "STW=7"),
    ("A L0.3", "LB0=08", "STW=7"),
    ("OPN DB10; A DBX1.0 | DB 10 { 00 01", "", "STW=7 DB=A"),
    ("OPN DI10; A DIX1.0 | DB 10 { 00 01", "", "STW=7 DI=A"),
    ("A DB10.DBX1.0 | DB 10 { 00 01", "", "STW=7 DB=A"),
    // the pointer 16#21 is byte 4, bit 1
    ("A M[MD0]", "MD0=21 MB4=02", "STW=7"),
    ("A I[LD0]", "LB3=21 IB4=02", "STW=7"),
    ("A M[AR1+0.1]", "AR1=20 MB4=02", "STW=7"),
    ("A Q[AR2+0.1]", "AR2=20 QB4=02", "STW=7"),
    ("A X[AR2+0.1]", "AR2=83000020 MB4=02", "STW=7"),
    ("A X[AR1+0.0]", "AR1=81000021 IB4=02", "STW=7"),
    ("A T5", "", "STW=1"),
    ("SET; SF T5; A T5", "", "STW=7 T5=1"),
    ("SET; SF T5; A T[MW0]", "MW0=5", "STW=7"),
    ("A C5", "", "STW=1"),
    ("SET; CU C5; A C5", "", "STW=7 CV5=1"),
    ("SET; CU C5; AN C[MW0]", "MW0=5", "STW=5"),
    // parameters of a function: a place, then a constant
    (
        "PASS 0 M0.1, PASS 1 M1.0, CALL FC1 | FC 1 0 0 IX OX { A @0X; = @1X",
        "MB0=02",
        "MB1=01 STW=6",
    ),
    (
        "PASS 0 #1, PASS 1 M1.0, CALL FC1 | FC 1 0 0 IX OX { AN @0X; = @1X",
        "MB1=01",
        "MB1=00 STW=4",
    ),
    (
        "PASS 0 M1.0, CALL FC1 | FC 1 0 0 NX { SET; FP @0X; S @0X",
        "",
        "MB1=01 STW=6",
    ),
];

#[test]
fn operands_of_checks(rt: HostRuntime) -> Result<(), Fail> {
    all_hold(&rt, rt.alloc(), &OPERANDS)
}

/// Each condition over the condition codes that make it 1 and one that doesn't.
static CONDITIONS: [Row; 25] = [
    ("A BR", "STW=100", "STW=107"),
    ("A BR", "STW=F0", "STW=F1"),
    ("A OV", "STW=20", "STW=27"),
    ("A OV", "STW=1D0", "STW=1D1"),
    ("A OS", "STW=10", "STW=17"),
    ("A OS", "STW=1E0", "STW=1E1"),
    ("A ==0", "", "STW=7"),
    ("A ==0", "STW=40", "STW=41"),
    ("A <>0", "STW=40", "STW=47"),
    ("A <>0", "STW=80", "STW=87"),
    ("A <>0", "STW=C0", "STW=C1"),
    ("A >0", "STW=80", "STW=87"),
    ("A >0", "STW=C0", "STW=C1"),
    ("A <0", "STW=40", "STW=47"),
    ("A <0", "STW=80", "STW=81"),
    ("A >=0", "", "STW=7"),
    ("A >=0", "STW=80", "STW=87"),
    ("A >=0", "STW=40", "STW=41"),
    ("A >=0", "STW=C0", "STW=C1"),
    ("A <=0", "", "STW=7"),
    ("A <=0", "STW=40", "STW=47"),
    ("A <=0", "STW=80", "STW=81"),
    ("A UO", "STW=C0", "STW=C7"),
    ("A UO", "STW=80", "STW=81"),
    ("AN ==0", "STW=3", "STW=5"),
];

#[test]
fn conditions(rt: HostRuntime) -> Result<(), Fail> {
    all_hold(&rt, rt.alloc(), &CONDITIONS)
}

/// AND before OR, and brackets.
static STRINGS: [Row; 18] = [
    // 1 and 1, then O: OR is 1, and keeps the result through two ANDs of 0
    ("A M0.0; A M0.1; O-", "MB0=03", "STW=E"),
    ("A M0.0; A M0.1; O-; A M0.2", "MB0=03", "STW=B"),
    (
        "A M0.0; A M0.1; O-; A M0.2; A M0.3; = M1.0",
        "MB0=03",
        "MB1=01 STW=6",
    ),
    // O keeps OR at the front of a string
    ("O-", "STW=A", "STW=E"),
    // O M clears OR, X looks at it at the front of a string alone
    ("O M0.0", "STW=9", "STW=3"),
    ("X M0.0", "STW=9", "STW=1"),
    ("X M0.0", "STW=8", "STW=3"),
    // 0 or 1 in brackets
    ("A(; O M0.0; O M0.1; ); = M1.0", "MB0=02", "MB1=01 STW=6"),
    ("A(; )", "STW=1FB STEPS=1", "STW=1F6"),
    ("A M0.0; AN(; A M0.1; )", "MB0=01", "STW=7"),
    ("A M0.0; X(; A M0.0; )", "MB0=01", "STW=5"),
    ("A M0.1; O(; AN M0.1; )", "", "STW=7"),
    ("A M0.1; ON(; A M0.1; )", "", "STW=7"),
    ("A M0.1; XN(; A M0.1; )", "", "STW=7"),
    // a bracket keeps OR
    ("A M0.0; A M0.1; O-; A(; A M0.2; )", "MB0=03", "STW=F"),
    // seven deep
    (
        "A(; A(; A(; A(; A(; A(; A(; A M0.0; ); ); ); ); ); ); ); = M1.0",
        "MB0=01",
        "MB1=01 STW=6",
    ),
    (
        "A(; A(; A(; A(; A(; A(; A(; A M0.1; ); ); ); ); ); ); ); = M1.0",
        "MB0=01 MB1=FF",
        "MB1=FE STW=0",
    ),
    // a jump within a bracket
    ("A(; JU x; A M0.0; x: A M0.1; )", "MB0=02", "STW=7"),
];

#[test]
fn strings_and_brackets(rt: HostRuntime) -> Result<(), Fail> {
    all_hold(&rt, rt.alloc(), &STRINGS)
}

/// Bits written; the other bits of the byte stay.
static WRITTEN: [Row; 25] = [
    ("SET; = M0.1", "MB0=01", "MB0=03 STW=6"),
    ("CLR; = M0.0", "MB0=FF", "MB0=FE"),
    ("= M0.7", "STW=1FB MB0=00", "MB0=80 STW=1F6"),
    ("S M0.1", "STW=3", "MB0=02 STW=6"),
    ("S M0.1", "STW=1 MB0=02", "MB0=02 STW=4"),
    ("S M0.1", "STW=1", "MB0=00 STW=0"),
    ("R M0.1", "STW=3 MB0=03", "MB0=01 STW=2"),
    ("R M0.1", "STW=9 MB0=02", "MB0=02 STW=4"),
    ("= Q[MD0]", "STW=3 MD0=21", "QB4=02 STW=6"),
    ("S L5.0", "STW=3", "LB5=01 STW=6"),
    ("= I3.0", "STW=3", "IB3=01 STW=6"),
    (
        "= DB10.DBX1.2 | DB 10 { 00 00",
        "STW=3",
        "DB10.DBB1=04 DB10.DBB0=00 DB=A STW=6",
    ),
    ("= X[AR1+0.1]", "STW=3 AR1=82000020", "QB4=02 STW=6"),
    (
        "OPN DI10; R DIX[AR2+1.0] | DB 10 { FF FF",
        "STW=3",
        "DB10.DBB1=FE DB10.DBB0=FF DI=A STW=2",
    ),
    ("FP M0.0", "STW=2", "MB0=01 STW=7"),
    ("FP M0.0", "STW=2 MB0=01", "MB0=01 STW=1"),
    ("FP M0.0", "MB0=01", "MB0=00 STW=1"),
    ("FN M0.0", "MB0=01", "MB0=00 STW=7"),
    ("FN M0.0", "STW=2", "MB0=01 STW=1"),
    ("FN M0.0", "STW=C", "MB0=00 STW=1"),
    (
        "FP DB10.DBX0.0 | DB 10 { 00 00",
        "STW=A",
        "DB10.DBB0=01 DB=A STW=7",
    ),
    ("FP M[MD4]", "STW=2 MD4=9", "MB1=02 STW=7"),
    ("SET", "STW=1F9", "STW=1F6"),
    ("CLR", "STW=1FF", "STW=1F0"),
    ("NOT; SAVE", "STW=19B", "STW=9D"),
];

#[test]
fn bits_written(rt: HostRuntime) -> Result<(), Fail> {
    all_hold(&rt, rt.alloc(), &WRITTEN)
}
