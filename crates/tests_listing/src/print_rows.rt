use crate::printed::{all_come_back, all_printed};
use std::test::Fail;

/// Texts in the form of a listing.
static LISTED: [&str; 12] = [
    "",
    "ORGANIZATION_BLOCK OB 1 BEGIN END_ORGANIZATION_BLOCK\n",
    "\n\nORGANIZATION_BLOCK OB 1 VAR_TEMP t : ARRAY [0..19] OF BYTE; END_VAR BEGIN JU _001;
_001: T DB 10.DBW 2;
END_ORGANIZATION_BLOCK DATA_BLOCK DB 10 STRUCT x : ARRAY [0..3] OF BYTE; END_STRUCT; BEGIN END_DATA_BLOCK
",
    "FUNCTION FC 2 : VOID VAR_INPUT p0 : BYTE; END_VAR VAR_IN_OUT p1 : DWORD; END_VAR BEGIN
L #p0; L DBW [AR1, P#2.0]; L W [AR2, P#0.7]; = [AR1, P#3.0]; LAR1 P#M 4.0; +AR1 P#65535.7;

A(; O Q 0.1; ); MCR(; )MCR; S M [MD 4]; SE T [LW 2]; OPN DI [DIW 6]; OPN DI 3; OPN \"Motor 1\";
; ON <=0; X UO; T STW; L \"Motor 1\".DBD 4; L \"speed\"; CU C 5; BEU;


END_FUNCTION FUNCTION FC 3 : INT BEGIN NOP 0; END_FUNCTION
",
    "ORGANIZATION_BLOCK OB 1 BEGIN CALL FC 2;
CALL FB 1, DB 5 (p0 := TRUE, p1 := DB 3.DBX 6.1, p2 := MW 2); CALL \"mix\", \"data\"; UC SFC 46; CC FC 7;
END_ORGANIZATION_BLOCK
",
    "ORGANIZATION_BLOCK OB 1 BEGIN L 65535; L -32768; L L#-2147483648; L L#5; L C#999; L T#-5MS; L S5T#9990000MS;
L B#16#0A; L W#16#00FF; L DW#16#83000010; L 2#00000000000000000000000010100110; L 'ab'; L B#(1, 255); L B#(1, 2, 3, 4);
= #motor.speed[2].bits[-1]; + -1; L #p2;
END_ORGANIZATION_BLOCK
",
    "DATA_BLOCK DB 1 FB 1 BEGIN p0 := TRUE; s[0] := B#16#01; m.x[-2] := 'a';
q := FALSE; END_DATA_BLOCK
",
    "DATA_BLOCK DB 2 STRUCT x : ARRAY [0..9] OF BYTE := 4 (B#16#00), B#16#FF, 5 (B#16#01);
y : INT := -7; z : STRUCT a : BOOL; b : ARRAY [1..2] OF STRUCT c : CHAR; END_STRUCT; END_STRUCT; w : ARRAY [-1..1] OF ARRAY [0..1] OF TIME; END_STRUCT; BEGIN END_DATA_BLOCK
",
    "DATA_BLOCK \"data\" UDT 4 BEGIN END_DATA_BLOCK\n",
    "TYPE UDT 4 STRUCT END_STRUCT; END_TYPE\n",
    "FUNCTION_BLOCK FB 9 VAR s : ARRAY [0..1] OF BYTE; END_VAR VAR_TEMP d : DATE_AND_TIME; END_VAR BEGIN
END_FUNCTION_BLOCK
",
    "FUNCTION_BLOCK FB 9 VAR_OUTPUT
o : S5TIME; END_VAR VAR u : UDT 4; v : \"type\"; END_VAR BEGIN END_FUNCTION_BLOCK
",
];

/// Sources in another form, and their listings.
static OTHERS: [(&str, &str); 5] = [
    (
        "organization_block ob1\ntitle = main\nbegin\nnetwork\n  l mw2 ; // load\n\n\tt\tdb10.dbw 4;END_ORGANIZATION_BLOCK",
        "ORGANIZATION_BLOCK OB 1 BEGIN\n\n\n\nL MW 2;\n\nT DB 10.DBW 4; END_ORGANIZATION_BLOCK\n",
    ),
    (
        "FUNCTION FC 1:VOID BEGIN a1:A(;O M0.1;);= a;END_FUNCTION",
        "FUNCTION FC 1 : VOID BEGIN a1: A(; O M 0.1; ); = #a; END_FUNCTION\n",
    ),
    (
        "FUNCTION FC 1 : VOID BEGIN L TIME#1M_30S; L S5TIME#2S; L WORD#16#f_f; L 2#1; L +5; END_FUNCTION",
        "FUNCTION FC 1 : VOID BEGIN L T#90000MS; L S5T#2000MS; L W#16#00FF; L 2#00000000000000000000000000000001; L 5; END_FUNCTION\n",
    ),
    (
        "DATA_BLOCK DB 1\nSTRUCT\n a:BYTE:=b#16#a;\nEND_STRUCT\nBEGIN\n#a:=1;\nEND_DATA_BLOCK",
        "DATA_BLOCK DB 1 STRUCT\n\na : BYTE := B#16#0A; END_STRUCT; BEGIN\n\n\na := 1;\nEND_DATA_BLOCK\n",
    ),
    (
        "\n\n\nTYPE UDT 1 STRUCT END_STRUCT END_TYPE TYPE UDT 2\nSTRUCT END_STRUCT;\nEND_TYPE\n\n\n",
        "\n\n\nTYPE UDT 1 STRUCT END_STRUCT; END_TYPE TYPE UDT 2 STRUCT END_STRUCT;\n\nEND_TYPE\n",
    ),
];

#[test]
fn listings_come_back(rt: HostRuntime) -> Result<(), Fail> {
    all_come_back(&rt, rt.alloc(), &LISTED)
}

#[test]
fn other_sources_become_listings(rt: HostRuntime) -> Result<(), Fail> {
    all_printed(&rt, rt.alloc(), &OTHERS)
}
