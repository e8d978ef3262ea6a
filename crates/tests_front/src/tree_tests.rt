use crate::rows::{Frame, Row, all_agree};
use std::test::Fail;

/// An organization block as STEP 7 writes it.
const EXPORT: &str = "ORGANIZATION_BLOCK OB 1
TITLE = \"Main Program Sweep (Cycle)\"
VERSION : 0.1

VAR_TEMP
  OB1_EV_CLASS : BYTE ; //Bits 0-3 = 1
  OB1_PREV_CYCLE : INT ; //Cycle time of previous OB1 scan
  OB1_DATE_TIME : DATE_AND_TIME ; //Date and time OB1 started
END_VAR
BEGIN
NETWORK
TITLE = add
      A(    ;
      A     \"Enable\";
      JNB   _001;
      L     MW     2;
      L     5;
      +I    ;
      T     MW     4;
      AN    OV;
      SAVE  ;
      CLR   ;
_001: A     BR;
      )     ;
      =     Q      4.0;
END_ORGANIZATION_BLOCK
";

const EXPORT_TREE: &str = "1 to 26 Ob Ob 1
5 Section Temp
6 level 0 OB1_EV_CLASS : Byte
7 level 0 OB1_PREV_CYCLE : Int
8 level 0 OB1_DATE_TIME : DateAndTime
13 AOpen Nothing
14 A Symbol Enable
15 Jnb Label _001
16 L Direct M Word 2.0
17 L Number 5
18 AddI Nothing
19 T Direct M Word 4.0
20 An OfStatus Ov
21 Save Nothing
22 Clr Nothing
23 _001: A OfStatus Br
24 Close Nothing
25 Assign Direct Q Bit 4.0
";

/// Organization block 1 with all its local data, as STEP 7 writes it.
const MAIN_EXPORT: &str = "ORGANIZATION_BLOCK OB 1
TITLE = \"Main Program Sweep (Cycle)\"
VERSION : 0.1
VAR_TEMP
  OB1_EV_CLASS : BYTE ; //Bits 0-3 = 1
  OB1_SCAN_1 : BYTE ;
  OB1_PRIORITY : BYTE ;
  OB1_OB_NUMBR : BYTE ;
  OB1_RESERVED_1 : BYTE ;
  OB1_RESERVED_2 : BYTE ;
  OB1_PREV_CYCLE : INT ;
  OB1_MIN_CYCLE : INT ;
  OB1_MAX_CYCLE : INT ;
  OB1_DATE_TIME : DATE_AND_TIME ;
END_VAR
BEGIN
NETWORK
TITLE =
L #OB1_SCAN_1;
T QB 4;
END_ORGANIZATION_BLOCK
";

const MAIN_TREE: &str = "1 to 21 Ob Ob 1
4 Section Temp
5 level 0 OB1_EV_CLASS : Byte
6 level 0 OB1_SCAN_1 : Byte
7 level 0 OB1_PRIORITY : Byte
8 level 0 OB1_OB_NUMBR : Byte
9 level 0 OB1_RESERVED_1 : Byte
10 level 0 OB1_RESERVED_2 : Byte
11 level 0 OB1_PREV_CYCLE : Int
12 level 0 OB1_MIN_CYCLE : Int
13 level 0 OB1_MAX_CYCLE : Int
14 level 0 OB1_DATE_TIME : DateAndTime
19 L Local OB1_SCAN_1
20 T Direct Q Byte 4.0
";

/// A function block with all its sections.
const FUNCTION_BLOCK: &str = "FUNCTION_BLOCK FB 1
VAR_INPUT a {x} : INT := 3; END_VAR
VAR_OUTPUT b : BOOL := TRUE; END_VAR
VAR_IN_OUT c : DINT; END_VAR
VAR d : WORD := W#16#FF; END_VAR
VAR_TEMP e : DATE_AND_TIME;
f : STRUCT g : CHAR; END_STRUCT; END_VAR
BEGIN
NETWORK
TITLE = x
SET;
END_FUNCTION_BLOCK
";

const FUNCTION_BLOCK_TREE: &str = "1 to 12 Fb Fb 1
2 Section Input
2 level 0 a : Int := Number 3
3 Section Output
3 level 0 b : Bool := Truth true
4 Section InOut
4 level 0 c : Dint
5 Section Static
5 level 0 d : Word := Word 255
6 Section Temp
6 level 0 e : DateAndTime
7 level 0 f : Structure
7 level 1 g : Char
11 Set Nothing
";

/// A block of every other kind.
const BLOCKS: &str = "FUNCTION_BLOCK FB 1
VAR_INPUT a {x} : INT := 3; END_VAR
VAR s : ARRAY[1..2] OF STRUCT
b : ARRAY[-1..0] OF BYTE := 2 (B#16#7), 5; t : STRUCT c : BOOL; END_STRUCT; END_STRUCT;
d : UDT 2; END_VAR
BEGIN
END_FUNCTION_BLOCK
DATA_BLOCK DB 2 FB 1 BEGIN a := 5; #s[1].b[0] := B#16#1; END_DATA_BLOCK
DATA_BLOCK DB 3 UDT 2 BEGIN END_DATA_BLOCK
DATA_BLOCK \"data\" STRUCT e : TIME; END_STRUCT BEGIN END_DATA_BLOCK
TYPE UDT 2 STRUCT f : WORD; END_STRUCT; END_TYPE
";

const BLOCKS_TREE: &str = "1 to 7 Fb Fb 1
2 Section Input
2 level 0 a : Int := Number 3
3 Section Static
3 level 0 s : Array 1..2 of Structure
4 level 1 b : Array -1..0 of Byte := 2 times Byte 7 := Number 5
4 level 1 t : Structure
4 level 2 c : Bool
5 level 0 d : Udt 2
8 to 8 Db Db 2
Instance of Fb 1
8 Set .a := Number 5
8 Set .s[1].b[0] := Byte 1
9 to 9 Db Db 3
Shape Udt 2
10 to 10 Db \"data\"
Shape Structure
10 level 0 e : Time
11 to 11 Udt Udt 2
Shape Structure
11 level 0 f : Word
";

// The clauses with the tree that they give, worked out by hand from the grammar of docs/LANGUAGE.md. The
// table is cut, since the proof of a test carries the rows that it names.

/// Blocks of every kind, and the exports.
static WHOLE_SOURCES: [Row; 12] = [
    (Frame::Source, "", ""),
    (Frame::Source, EXPORT, EXPORT_TREE),
    (Frame::Source, MAIN_EXPORT, MAIN_TREE),
    (Frame::Source, FUNCTION_BLOCK, FUNCTION_BLOCK_TREE),
    (Frame::Source, BLOCKS, BLOCKS_TREE),
    (
        Frame::Source,
        "ORGANIZATION_BLOCK OB1\nTITLE = x\n{a := 'b'}\nVERSION : 0.1\nBEGIN\nNETWORK\nTITLE =\nabcd: A(;\nA #x;\n) ;\n;\nEND_ORGANIZATION_BLOCK",
        "1 to 12 Ob Ob 1\n8 abcd: AOpen Nothing\n9 A Local x\n10 Close Nothing\n11 Empty Nothing\n",
    ),
    (
        Frame::Source,
        "ORGANIZATION_BLOCK \"main\" BEGIN\nBE;\nEND_ORGANIZATION_BLOCK",
        "1 to 3 Ob \"main\"\n2 Be Nothing\n",
    ),
    (
        Frame::Source,
        "FUNCTION FC 7 : INT\nVAR_INPUT a : BOOL; END_VAR\nVAR_OUTPUT b : WORD; END_VAR\nVAR_IN_OUT c : DINT; END_VAR\nVAR_TEMP d : INT; END_VAR\nBEGIN\nEND_FUNCTION",
        "1 to 7 Fc Fc 7 : Int\n2 Section Input\n2 level 0 a : Bool\n3 Section Output\n3 level 0 b : Word\n4 Section InOut\n4 level 0 c : Dint\n5 Section Temp\n5 level 0 d : Int\n",
    ),
    (
        Frame::Source,
        "FUNCTION \"f\" : VOID BEGIN END_FUNCTION FUNCTION FC 65535 : S5TIME BEGIN\nEND_FUNCTION",
        "1 to 1 Fc \"f\"\n1 to 2 Fc Fc 65535 : S5time\n",
    ),
    (
        Frame::Source,
        "DATA_BLOCK DB 4\nTITLE = x\n{ y }\nVERSION : 0.1;\nAUTHOR : me\nFAMILY : f;\nNAME : n\nKNOW_HOW_PROTECT\nCODE_VERSION1;\nFB 5\nBEGIN\nEND_DATA_BLOCK",
        "1 to 12 Db Db 4\nInstance of Fb 5\n",
    ),
    (
        Frame::Source,
        "DATA_BLOCK DB 10 STRUCT a : INT := 7; b : STRUCT c : ARRAY[0..1] OF BOOL; END_STRUCT;\nd : BYTE; END_STRUCT;\nBEGIN a := 8;\nb.c[1] := TRUE;\nEND_DATA_BLOCK",
        "1 to 5 Db Db 10\nShape Structure\n1 level 0 a : Int := Number 7\n1 level 0 b : Structure\n1 level 1 c : Array 0..1 of Bool\n2 level 0 d : Byte\n3 Set .a := Number 8\n4 Set .b.c[1] := Truth true\n",
    ),
    (
        Frame::Source,
        "TYPE \"t\" STRUCT a : UDT 3; END_STRUCT END_TYPE",
        "1 to 1 Udt \"t\"\nShape Structure\n1 level 0 a : Udt 3\n",
    ),
];

/// Types, initial values and settings.
static DECLARATIONS: [Row; 13] = [
    // Types and initial values.
    (
        Frame::Section,
        "a:BOOL; b:BYTE; c:CHAR; d:WORD; e:INT; f:S5TIME; g:DWORD; h:DINT; i:TIME;",
        "2 level 0 a : Bool\n2 level 0 b : Byte\n2 level 0 c : Char\n2 level 0 d : Word\n2 level 0 e : Int\n2 level 0 f : S5time\n2 level 0 g : Dword\n2 level 0 h : Dint\n2 level 0 i : Time\n",
    ),
    (Frame::Section, "a {b} : INT;", "2 level 0 a : Int\n"),
    (Frame::Section, "a : UDT7;", "2 level 0 a : Udt 7\n"),
    (Frame::Section, "a : \"t\";", "2 level 0 a : \"t\"\n"),
    (
        Frame::Section,
        "a : ARRAY[0..1] OF ARRAY[-3..-2] OF UDT 4;",
        "2 level 0 a : Array 0..1 of Array -3..-2 of Udt 4\n",
    ),
    (
        Frame::Section,
        "a : STRUCT b : ARRAY[1..1] OF STRUCT c : INT; END_STRUCT; d : INT; END_STRUCT; e : INT;",
        "2 level 0 a : Structure\n2 level 1 b : Array 1..1 of Structure\n2 level 2 c : Int\n2 level 1 d : Int\n2 level 0 e : Int\n",
    ),
    (
        Frame::Section,
        "a : INT := -3;",
        "2 level 0 a : Int := Number -3\n",
    ),
    (
        Frame::Section,
        "a : ARRAY[1..6] OF WORD := 3 (W#16#1), 4, 2 (-5);",
        "2 level 0 a : Array 1..6 of Word := 3 times Word 1 := Number 4 := 2 times Number -5\n",
    ),
    (
        Frame::Section,
        "a : DWORD := B#(1,2,3,4);",
        "2 level 0 a : Dword := Bytes 1 2 3 4\n",
    ),
    (
        Frame::Temporary,
        "a : DATE_AND_TIME; b : STRUCT c : INT; END_STRUCT;",
        "2 level 0 a : DateAndTime\n2 level 0 b : Structure\n2 level 1 c : Int\n",
    ),
    // Settings.
    (Frame::Settings, "a := 5;", "2 Set .a := Number 5\n"),
    (
        Frame::Settings,
        "#s[1].b[-2] := S5T#1S;",
        "2 Set .s[1].b[-2] := S5time 1000\n",
    ),
    (
        Frame::Settings,
        "a.b.c := 'xyz'; M := -1;",
        "2 Set .a.b.c := Characters 120 121 122\n2 Set .M := Number -1\n",
    ),
];

#[test]
fn whole_sources(rt: HostRuntime) -> Result<(), Fail> {
    all_agree(&rt, rt.alloc(), &WHOLE_SOURCES)
}

#[test]
fn declarations_and_settings(rt: HostRuntime) -> Result<(), Fail> {
    all_agree(&rt, rt.alloc(), &DECLARATIONS)
}
