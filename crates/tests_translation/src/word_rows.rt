use crate::bodies::both_ways;
use std::test::Fail;

/// Each pair of instruction words, in a statement.
static INSTRUCTIONS: [(&str, &str); 34] = [
    ("A M 0.0;", "U M 0.0;"),
    ("AN M 0.0;", "UN M 0.0;"),
    ("AW;", "UW;"),
    ("AD;", "UD;"),
    ("SP T 1;", "SI T 1;"),
    ("SE T 1;", "SV T 1;"),
    ("SD T 1;", "SE T 1;"),
    ("SF T 1;", "SA T 1;"),
    ("CU \"n\";", "ZV \"n\";"),
    ("CD \"n\";", "ZR \"n\";"),
    ("BEC;", "BEB;"),
    ("BEU;", "BEA;"),
    ("OPN DB 1;", "AUF DB 1;"),
    ("CDB;", "TDB;"),
    ("CAW;", "TAW;"),
    ("CAD;", "TAD;"),
    ("CAR;", "TAR;"),
    ("JU x;", "SPA x;"),
    ("JL x;", "SPL x;"),
    ("JC x;", "SPB x;"),
    ("JCN x;", "SPBN x;"),
    ("JCB x;", "SPBB x;"),
    ("JNB x;", "SPBNB x;"),
    ("JBI x;", "SPBI x;"),
    ("JNBI x;", "SPBIN x;"),
    ("JO x;", "SPO x;"),
    ("JOS x;", "SPS x;"),
    ("JZ x;", "SPZ x;"),
    ("JN x;", "SPN x;"),
    ("JP x;", "SPP x;"),
    ("JM x;", "SPM x;"),
    ("JPZ x;", "SPPZ x;"),
    ("JMZ x;", "SPMZ x;"),
    ("JUO x;", "SPU x;"),
];

/// Each pair of operand words, in a statement.
static OPERANDS: [(&str, &str); 16] = [
    ("= I 0.0;", "= E 0.0;"),
    ("L IB 0;", "L EB 0;"),
    ("L IW0;", "L EW0;"),
    ("L ID 0;", "L ED 0;"),
    ("= Q4.0;", "= A4.0;"),
    ("L QB 4;", "L AB 4;"),
    ("T QW 4;", "T AW 4;"),
    ("T QD 4;", "T AD 4;"),
    ("L C 1;", "L Z 1;"),
    ("L PIB 0;", "L PEB 0;"),
    ("L PIW 0;", "L PEW 0;"),
    ("L PID 0;", "L PED 0;"),
    ("T PQB 0;", "T PAB 0;"),
    ("T PQW 0;", "T PAW 0;"),
    ("T PQD 0;", "T PAD 0;"),
    ("O BR;", "O BIE;"),
];

/// Words that are the same in both languages.
static COMMON: [(&str, &str); 12] = [
    (
        "O; ON M 0.1; X M 0.2; XN M 0.3;",
        "O; ON M 0.1; X M 0.2; XN M 0.3;",
    ),
    ("= M 0.0; S M 0.1; R M 0.2;", "= M 0.0; S M 0.1; R M 0.2;"),
    ("L MW 2; T LW 4; L DBW 6;", "L MW 2; T LW 4; L DBW 6;"),
    ("SS T 1; FR T 1;", "SS T 1; FR T 1;"),
    ("TAR1; TAR2; LAR1 P#M 1.0;", "TAR1; TAR2; LAR1 P#M 1.0;"),
    (
        "CALL FC 1; UC FC 2; CC FC 3;",
        "CALL FC 1; UC FC 2; CC FC 3;",
    ),
    (
        "TAK; INC 1; DEC 2; NOP 0; BE;",
        "TAK; INC 1; DEC 2; NOP 0; BE;",
    ),
    ("LOOP E;", "LOOP E;"),
    ("SET; CLR; NOT; SAVE;", "SET; CLR; NOT; SAVE;"),
    ("+I; -D; ==I; <>D; OW; XOD;", "+I; -D; ==I; <>D; OW; XOD;"),
    ("MCRA; MCR(; )MCR; MCRD;", "MCRA; MCR(; )MCR; MCRD;"),
    (
        "L STW; T AR2; L C#5; L T#1S;",
        "L STW; T AR2; L C#5; L T#1S;",
    ),
];

#[test]
fn instruction_words_are_exchanged(rt: HostRuntime) -> Result<(), Fail> {
    both_ways(&rt, rt.alloc(), &INSTRUCTIONS)
}

#[test]
fn operand_words_are_exchanged(rt: HostRuntime) -> Result<(), Fail> {
    both_ways(&rt, rt.alloc(), &OPERANDS)
}

#[test]
fn common_words_stay(rt: HostRuntime) -> Result<(), Fail> {
    both_ways(&rt, rt.alloc(), &COMMON)
}
