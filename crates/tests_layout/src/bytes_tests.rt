use crate::calls::first_bytes;
use crate::compare::same;
use std::test::Fail;

/// A source whose first block is a data block, and its initial bytes, worked out by hand.
type Row = (&'static [u8], &'static [u8]);

static BYTES: [Row; 12] = [
    // A later setting wins over an earlier one, and each over the initial value.
    (
        b"DATA_BLOCK DB 1 STRUCT a : INT := 1; b : INT := 2; END_STRUCT BEGIN a := 3; a := 4; END_DATA_BLOCK",
        b"\x00\x04\x00\x02",
    ),
    (
        b"DATA_BLOCK DB 1 STRUCT a : BOOL := TRUE; b : BOOL := TRUE; c : BOOL; END_STRUCT BEGIN a := FALSE; c := TRUE; END_DATA_BLOCK",
        b"\x06\x00",
    ),
    // The bits of constants of each type.
    (
        b"DATA_BLOCK DB 1 STRUCT a : CHAR := 'A'; b : BYTE := 2#101; c : WORD := 'ab'; d : S5TIME := S5T#50MS; e : DINT := L#-1; f : TIME := T#1S; END_STRUCT BEGIN END_DATA_BLOCK",
        b"\x41\x05\x61\x62\x00\x05\xFF\xFF\xFF\xFF\x00\x00\x03\xE8",
    ),
    (
        b"DATA_BLOCK DB 1 STRUCT a : WORD := C#123; b : DWORD := 'abcd'; c : INT := -32768; d : BYTE := W#16#C3; e : TIME := T#-1MS; END_STRUCT BEGIN END_DATA_BLOCK",
        b"\x01\x23\x61\x62\x63\x64\x80\x00\xC3\x00\xFF\xFF\xFF\xFF",
    ),
    // An array of structures: each element has the initial values, and ends at an even byte.
    (
        b"DATA_BLOCK DB 1 STRUCT a : ARRAY [1 .. 2] OF STRUCT x : INT := -2; y : BYTE := 5; END_STRUCT; END_STRUCT BEGIN END_DATA_BLOCK",
        b"\xFF\xFE\x05\x00\xFF\xFE\x05\x00",
    ),
    (
        b"DATA_BLOCK DB 1 STRUCT a : ARRAY [0 .. 2] OF STRUCT x : BYTE; y : BOOL; END_STRUCT; END_STRUCT BEGIN a[2].y := TRUE; a[0].x := 7; END_DATA_BLOCK",
        b"\x07\x00\x00\x00\x00\x01",
    ),
    // Arrays of bits and bytes, as many values as there are, and of none.
    (
        b"DATA_BLOCK DB 1 STRUCT a : ARRAY [1 .. 9] OF BOOL := TRUE, FALSE, 2 (TRUE); b : BYTE := 1; END_STRUCT BEGIN a[9] := TRUE; END_DATA_BLOCK",
        b"\x0D\x01\x01\x00",
    ),
    (
        b"DATA_BLOCK DB 1 STRUCT a : ARRAY [-1 .. 1] OF BYTE := 0 (5), 6, 2 (7); b : BOOL := TRUE; END_STRUCT BEGIN END_DATA_BLOCK",
        b"\x06\x07\x07\x00\x01\x00",
    ),
    (
        b"DATA_BLOCK DB 1 STRUCT a : ARRAY [1 .. 2] OF ARRAY [1 .. 3] OF BYTE; END_STRUCT BEGIN a[1][3] := 1; a[2][1] := 2; END_DATA_BLOCK",
        b"\x00\x00\x01\x00\x02\x00\x00\x00",
    ),
    // The values of a data type, also within an array, and those of an instance.
    (
        b"DATA_BLOCK DB 1 UDT 1 BEGIN b := 9; END_DATA_BLOCK TYPE UDT 1 STRUCT a : BYTE := 1; b : BYTE := 2; END_STRUCT END_TYPE",
        b"\x01\x09",
    ),
    (
        b"DATA_BLOCK DB 1 STRUCT a : ARRAY [1 .. 2] OF UDT 1; b : UDT 1; END_STRUCT BEGIN a[2].b := 9; END_DATA_BLOCK TYPE UDT 1 STRUCT a : BYTE := 1; b : BYTE := 2; c : BYTE := 3; END_STRUCT END_TYPE",
        b"\x01\x02\x03\x00\x01\x09\x03\x00\x01\x02\x03\x00",
    ),
    (
        b"DATA_BLOCK DB 1 FB 1 BEGIN a := TRUE; END_DATA_BLOCK FUNCTION_BLOCK FB 1 VAR_INPUT a : BOOL; END_VAR VAR_OUTPUT b : BOOL := TRUE; END_VAR VAR_IN_OUT c : BYTE := 3; END_VAR VAR d : ARRAY [1 .. 3] OF BOOL := TRUE, FALSE, TRUE; END_VAR VAR_TEMP e : INT; END_VAR BEGIN END_FUNCTION_BLOCK",
        b"\x01\x00\x01\x00\x03\x00\x05\x00",
    ),
];

#[test]
fn initial_bytes(rt: HostRuntime) -> Result<(), Fail> {
    for (source, bytes) in &BYTES {
        let found = first_bytes(rt.alloc(), source)?;
        same(&rt, source, found.as_slice(), *bytes);
    }
    Ok(())
}
