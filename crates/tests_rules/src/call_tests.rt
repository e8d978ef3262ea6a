use crate::calls::{Row, bodies_agree};
use std::test::Fail;

static SUPPLIED: [Row; 20] = [
    (
        b"CALL FC 2 (num := 5, flag := M 0.0, wide := MD 2, RET_VAL := MW 6);",
        0,
        0,
    ),
    (
        b"CALL FC 2 (RET_VAL := MW 6, WIDE := MD 2, Flag := M 0.0, NUM := 5);",
        0,
        0,
    ),
    (b"CALL FC 3;\nCALL \"Stop\";", 0, 0),
    // No such parameter.
    (b"CALL FC 3 (num := 5);", 2, 34),
    (
        b"CALL FC 2 (num := 5, flag := M 0.0,\nwide := MD 2, RET_VAL := MW 6,\nkept := 5);",
        4,
        34,
    ),
    (b"CALL FB 1, DB 2 (kept := 5);", 2, 34),
    (b"CALL SFC 43 (RET_VAL := MW 0);", 2, 34),
    (b"CALL FB 1, DB 2 (num := 5);", 0, 0),
    // A parameter twice, also in other letters; what is no parameter isn't one twice.
    (b"CALL FB 1, DB 2 (num := 5,\nnum := 6);", 3, 35),
    (
        b"CALL FB 1, DB 2 (num := 5,\nflag := M 0.0,\nNUM := 6);",
        4,
        35,
    ),
    (b"CALL FC 3 (num := 5,\nnum := 5);", 2, 34),
    (b"CALL FB 1, DB 2 (num := 5, num := 6,\nnum := 7);", 2, 35),
    // A parameter of a function is missing.
    (b"CALL FC 2;", 2, 36),
    (b"CALL FC 2 (num := 5, flag := M 0.0, wide := MD 2);", 2, 36),
    (
        b"CALL FC 2 (flag := M 0.0,\nwide := MD 2, RET_VAL := MW 6);",
        2,
        36,
    ),
    (b"CALL SFC 64;", 2, 36),
    (b"CALL FB 1, DB 2;", 0, 0),
    (b"CALL SFC 64 (RET_VAL := MD 0);", 0, 0),
    // A name comes before what is missing on the same line, and behind it on a later one.
    (b"CALL FC 2 (kept := 5);", 2, 34),
    (b"CALL FC 2 (num := 5,\nkept := 5);", 2, 36),
];

static FITTING: [Row; 31] = [
    (
        b"CALL FB 1, DB 2 (num := 32767);\nCALL FB 1, DB 2 (num := -32768);",
        0,
        0,
    ),
    (b"CALL FB 1, DB 2 (num := 32768);", 2, 37),
    (b"CALL FB 1, DB 2 (num := L#5);", 2, 37),
    (
        b"CALL FB 1, DB 2 (num := MW 0);\nCALL FB 1, DB 2 (num := DB1.DBW 0);",
        0,
        0,
    ),
    (b"CALL FB 1, DB 2 (num := MB 0);", 2, 37),
    (b"CALL FB 1, DB 2 (num := T 1);", 2, 37),
    (b"CALL FB 1, DB 2 (num := P#0.0);", 2, 37),
    (b"CALL FB 1, DB 2 (num := MW [MD 4]);", 2, 37),
    (b"CALL FB 1, DB 2 (flag := TRUE);", 2, 37),
    (b"CALL FB 1, DB 2 (wide := DW#16#5);", 2, 37),
    (b"CALL FB 1, DB 2 (flag := M 0.0, wide := QD 0);", 0, 0),
    (b"CALL FB 1, DB 2 (flag := MW 0);", 2, 37),
    // A constant fits by its form: DW#16# or four characters a DWORD.
    (
        b"CALL FC 5 (long := DW#16#5);\nCALL FC 5 (long := 'abcd');",
        0,
        0,
    ),
    (b"CALL FC 5 (long := W#16#5);", 2, 37),
    (b"CALL FC 5 (long := 5);", 2, 37),
    (b"CALL FC 5 (long := L#5);", 2, 37),
    // Peripheral inputs for IN, outputs for OUT and IN_OUT.
    (b"CALL FB 1, DB 2 (num := PIW 0, wide := PQD 0);", 0, 0),
    (b"CALL FB 1, DB 2 (num := PQW 0);", 2, 37),
    (b"CALL FB 1, DB 2 (wide := PID 0);", 2, 37),
    (b"CALL FB 1, DB 2 (num := \"Outside\");", 0, 0),
    // Variables fit by their types, and inputs of a function for IN alone.
    (
        b"CALL FB 1, DB 2 (num := #num, flag := #way, wide := #wide);",
        0,
        0,
    ),
    (
        b"CALL FB 1, DB 2 (num := #own.num);\nCALL FB 1, DB 2 (num := DB1.list[1]);",
        0,
        0,
    ),
    (b"CALL FB 1, DB 2 (flag := #bit);", 2, 37),
    (
        b"CALL FC 5 (long := #long);\nCALL FC 5 (long := #wide);",
        0,
        0,
    ),
    (b"CALL FB 1, DB 2 (wide := #long);", 2, 37),
    (b"CALL FB 1, DB 2 (num := #wide);", 2, 37),
    (b"CALL FB 1, DB 2 (num := #own.list);", 2, 37),
    (b"CALL FB 1, DB 2 (num := #when);", 2, 24),
    (b"CALL FC 3 (num := #when);", 2, 24),
    (
        b"CALL FB 1, DB 2 (flag := M 0.0,\nnum := \"Speed\",\nwide := 5);",
        4,
        37,
    ),
    (b"CALL FB 1, DB 2 (num := \"Motor\");", 2, 37),
];

static CALLED: [Row; 23] = [
    (
        b"CALL FB 1, DB 2;\nCALL FB 2, DB 3;\nCALL \"Block\", \"Data\";",
        0,
        0,
    ),
    (b"CALL FB 1, DB 3;", 2, 38),
    (b"CALL FB 2, DB 2;", 2, 38),
    (b"CALL FB 1, DB 1;", 2, 38),
    (b"CALL FB 2, \"Data\";", 2, 38),
    (b"CALL FB 2,\nDB 2 (num := 5);", 2, 38),
    (b"UC FC 3;\nCC FB 2;\nUC SFC 46;", 0, 0),
    (b"UC FC 2;", 2, 40),
    (b"CC FC 2;", 2, 40),
    (b"UC FB 1;", 2, 40),
    (b"CC \"Fun\";", 2, 40),
    (b"UC SFC 64;", 2, 40),
    (b"CALL FB 1;", 2, 40),
    (b"CALL FB 2;", 2, 40),
    (b"CALL SFC 44;", 2, 46),
    (b"UC SFC 0;", 2, 46),
    (b"CALL SFC 63 (num := 5);", 2, 46),
    (
        b"CALL SFC 32 (OB_NR := 20, DTIME := T#1S, SIGN := W#16#1, RET_VAL := MW 0);",
        0,
        0,
    ),
    (
        b"CALL SFC 39 (MODE := B#16#0, OB_NR := 20, RET_VAL := MW 0);\nCALL SFC 40 (MODE := B#16#0, OB_NR := 20, RET_VAL := MW 0);\nCALL SFC 33 (OB_NR := 20, RET_VAL := MW 0);",
        0,
        0,
    ),
    (
        b"CALL SFC 41 (RET_VAL := MW 0);\nCALL SFC 42 (RET_VAL := MW 0);\nCALL SFC 43;",
        0,
        0,
    ),
    // A block with a fault in its parameters isn't checked, and nor is one that is absent.
    (b"CALL FC 4;\nUC FC 4;\nCALL FC 9;\nCALL FB 1, DB 9;", 0, 0),
    (b"CALL FC 4 (num := #other);", 2, 20),
    // The least line, and on one line the least rule.
    (b"UC FC 2;\nCALL SFC 44;\nL M 0.0;", 2, 40),
];

#[test]
fn supplied(rt: HostRuntime) -> Result<(), Fail> {
    bodies_agree(&rt, rt.alloc(), &SUPPLIED)
}

#[test]
fn fitting(rt: HostRuntime) -> Result<(), Fail> {
    bodies_agree(&rt, rt.alloc(), &FITTING)
}

#[test]
fn called(rt: HostRuntime) -> Result<(), Fail> {
    bodies_agree(&rt, rt.alloc(), &CALLED)
}
