use crate::rows::{Frame, Row, all_agree};
use std::test::Fail;

/// Direct operands.
static ADDRESSES: [Row; 20] = [
    // Bit addresses.
    (Frame::Body, "A I 0.0;", "2 A Direct I Bit 0.0\n"),
    (Frame::Body, "A I0.1;", "2 A Direct I Bit 0.1\n"),
    (Frame::Body, "= Q 4.5;", "2 Assign Direct Q Bit 4.5\n"),
    (Frame::Body, "A M 0.7;", "2 A Direct M Bit 0.7\n"),
    (Frame::Body, "S L 20.0;", "2 S Direct L Bit 20.0\n"),
    (Frame::Body, "A DBX 1.0;", "2 A Direct Db Bit 1.0\n"),
    (Frame::Body, "R DIX65535.7;", "2 R Direct Di Bit 65535.7\n"),
    // Wider addresses.
    (Frame::Body, "L IB 0;", "2 L Direct I Byte 0.0\n"),
    (Frame::Body, "T QW4;", "2 T Direct Q Word 4.0\n"),
    (Frame::Body, "M1: L MW2;", "2 M1: L Direct M Word 2.0\n"),
    (Frame::Body, "L MD 8;", "2 L Direct M Dword 8.0\n"),
    (Frame::Body, "L DBW 2;", "2 L Direct Db Word 2.0\n"),
    (Frame::Body, "L DID 4;", "2 L Direct Di Dword 4.0\n"),
    (Frame::Body, "L LB 0;", "2 L Direct L Byte 0.0\n"),
    (Frame::Body, "L PIB256;", "2 L Direct Pi Byte 256.0\n"),
    (Frame::Body, "L PIW 256;", "2 L Direct Pi Word 256.0\n"),
    (Frame::Body, "L PID 256;", "2 L Direct Pi Dword 256.0\n"),
    (Frame::Body, "T PQB 4;", "2 T Direct Pq Byte 4.0\n"),
    (Frame::Body, "T PQW 4;", "2 T Direct Pq Word 4.0\n"),
    (Frame::Body, "T PQD 65535;", "2 T Direct Pq Dword 65535.0\n"),
];

/// Addresses in a data block, components, paths, symbols, timers, counters and data blocks.
static PATHS: [Row; 22] = [
    // Addresses in a data block, components, paths, symbols.
    (
        Frame::Body,
        "T DB10.DBD 4;",
        "2 T Direct Db Dword 4.0 in Db 10\n",
    ),
    (
        Frame::Body,
        "A DB 3.DBX7.6;",
        "2 A Direct Db Bit 7.6 in Db 3\n",
    ),
    (
        Frame::Body,
        "L \"motor\".DBB 3;",
        "2 L Direct Db Byte 3.0 in \"motor\"\n",
    ),
    (Frame::Body, "L DB 5.a;", "2 L In Db 5.a\n"),
    (Frame::Body, "L DB5.a.b[3];", "2 L In Db 5.a.b[3]\n"),
    // An address with further steps is a path.
    (Frame::Body, "L DB10.DBW2.x;", "2 L In Db 10.DBW2.x\n"),
    (Frame::Body, "L DB10.DBW2[1];", "2 L In Db 10.DBW2[1]\n"),
    (
        Frame::Body,
        "L \"motor\".speed;",
        "2 L In \"motor\".speed\n",
    ),
    (
        Frame::Body,
        "L \"motor\".x[0].y;",
        "2 L In \"motor\".x[0].y\n",
    ),
    (Frame::Body, "L #x.y[-2].z;", "2 L Local x.y[-2].z\n"),
    (Frame::Body, "L speed;", "2 L Local speed\n"),
    (Frame::Body, "L speed[4].a;", "2 L Local speed[4].a\n"),
    (Frame::Body, "L #MW2;", "2 L Local MW2\n"),
    (Frame::Body, "A \"Start\";", "2 A Symbol Start\n"),
    // Timers, counters, data blocks.
    (Frame::Body, "SD T 1;", "2 Sd Timer 1\n"),
    (Frame::Body, "L T15;", "2 L Timer 15\n"),
    (Frame::Body, "L C5;", "2 L Counter 5\n"),
    (Frame::Body, "CU C 7;", "2 Cu Counter 7\n"),
    (Frame::Body, "OPN DB 10;", "2 Opn OpenBlock DB Db 10\n"),
    (Frame::Body, "OPN DB11;", "2 Opn OpenBlock DB Db 11\n"),
    (Frame::Body, "OPN DI 7;", "2 Opn OpenBlock DI Db 7\n"),
    (
        Frame::Body,
        "OPN \"block\";",
        "2 Opn OpenBlock DB \"block\"\n",
    ),
];

/// Operands by memory and by register, and pointer constants.
static POINTERS: [Row; 25] = [
    // By memory and by register.
    (Frame::Body, "L MW [MD 4];", "2 L ByMemory M Word M 4\n"),
    (Frame::Body, "A I [MD 4];", "2 A ByMemory I Bit M 4\n"),
    (Frame::Body, "L QB [LD 8];", "2 L ByMemory Q Byte L 8\n"),
    (Frame::Body, "L DBW [DBD 0];", "2 L ByMemory Db Word Db 0\n"),
    (Frame::Body, "T LD [DID 4];", "2 T ByMemory L Dword Di 4\n"),
    (Frame::Body, "L PIW [MD0];", "2 L ByMemory Pi Word M 0\n"),
    (Frame::Body, "SD T [MW 2];", "2 Sd NumberBy Timer M 2\n"),
    (Frame::Body, "CU C [LW 4];", "2 Cu NumberBy Counter L 4\n"),
    (Frame::Body, "OPN DB [LW 0];", "2 Opn NumberBy Db L 0\n"),
    (Frame::Body, "OPN DB [DBW 6];", "2 Opn NumberBy Db Db 6\n"),
    (Frame::Body, "OPN DI [DIW 8];", "2 Opn NumberBy Di Di 8\n"),
    (Frame::Body, "A [AR1, P#0.0];", "2 A ByRegister Bit 1 0\n"),
    (
        Frame::Body,
        "A I [AR1, P#4.3];",
        "2 A ByRegister I Bit 1 35\n",
    ),
    (
        Frame::Body,
        "= DIX [AR2, P#1.0];",
        "2 Assign ByRegister Di Bit 2 8\n",
    ),
    (
        Frame::Body,
        "T B [AR2, P#2.1];",
        "2 T ByRegister Byte 2 17\n",
    ),
    (
        Frame::Body,
        "T W [AR2, P#2.0];",
        "2 T ByRegister Word 2 16\n",
    ),
    (
        Frame::Body,
        "L D [AR1, P#0.0];",
        "2 L ByRegister Dword 1 0\n",
    ),
    (
        Frame::Body,
        "L QD [AR1, P#65535.7];",
        "2 L ByRegister Q Dword 1 524287\n",
    ),
    // Pointer constants.
    (Frame::Body, "L P#10.3;", "2 L Pointer 10.3\n"),
    (Frame::Body, "LAR1 P#M 2.0;", "2 Lar1 Pointer M 2.0\n"),
    (Frame::Body, "L P#I 0.1;", "2 L Pointer I 0.1\n"),
    (Frame::Body, "L P#Q4.0;", "2 L Pointer Q 4.0\n"),
    (Frame::Body, "L P#L 3.2;", "2 L Pointer L 3.2\n"),
    (Frame::Body, "L P#DBX 10.7;", "2 L Pointer Db 10.7\n"),
    (Frame::Body, "L P#DIX 0.0;", "2 L Pointer Di 0.0\n"),
];

/// Constants, conditions and registers.
static CONSTANTS: [Row; 21] = [
    // Constants.
    (Frame::Body, "L TRUE;", "2 L Truth true\n"),
    (Frame::Body, "L FALSE;", "2 L Truth false\n"),
    (Frame::Body, "L 65535;", "2 L Number 65535\n"),
    (Frame::Body, "L +5;", "2 L Number 5\n"),
    (Frame::Body, "L -5;", "2 L Number -5\n"),
    (Frame::Body, "L -32768;", "2 L Number -32768\n"),
    (Frame::Body, "L 2#101;", "2 L Binary 5\n"),
    (Frame::Body, "L B#16#1F;", "2 L Byte 31\n"),
    (Frame::Body, "L W#16#12_34;", "2 L Word 4660\n"),
    (Frame::Body, "L DW#16#FFFFFFFF;", "2 L Dword 4294967295\n"),
    (Frame::Body, "L L#-7;", "2 L Long -7\n"),
    (Frame::Body, "L L#+8;", "2 L Long 8\n"),
    (Frame::Body, "L C#12;", "2 L Count 12\n"),
    (Frame::Body, "L T#-1S;", "2 L Time -1000\n"),
    (Frame::Body, "L TIME#1M2MS;", "2 L Time 60002\n"),
    (Frame::Body, "L S5T#2H46M30S;", "2 L S5time 9990000\n"),
    (Frame::Body, "L 'ab';", "2 L Characters 97 98\n"),
    (Frame::Body, "L B#(0,255);", "2 L Bytes 0 255\n"),
    (Frame::Body, "L B#(1,2,3,4);", "2 L Bytes 1 2 3 4\n"),
    // Conditions and registers.
    (
        Frame::Body,
        "A BR; A OV; A OS; A UO; A ==0; A <>0; A >0; A <0; A >=0; A <=0;",
        "2 A OfStatus Br\n2 A OfStatus Ov\n2 A OfStatus Os\n2 A OfStatus Uo\n2 A OfStatus EqZero\n2 A OfStatus NeZero\n2 A OfStatus GtZero\n2 A OfStatus LtZero\n2 A OfStatus GeZero\n2 A OfStatus LeZero\n",
    ),
    (
        Frame::Body,
        "L STW; L DBLG; L DBNO; L DILG; L DINO; LAR1 AR2;",
        "2 L Other STW\n2 L Other DBLG\n2 L Other DBNO\n2 L Other DILG\n2 L Other DINO\n2 Lar1 Other AR2\n",
    ),
];

/// Labels, calls and instruction words.
static INSTRUCTIONS: [Row; 24] = [
    // Labels and jumps.
    (Frame::Body, ";", "2 Empty Nothing\n"),
    (Frame::Body, "abcd: A(;", "2 abcd: AOpen Nothing\n"),
    (Frame::Body, "JU M1;", "2 Ju Label M1\n"),
    (Frame::Body, "JU a.b;", "2 Ju Local a.b\n"),
    (Frame::Body, "_001: JC STW;", "2 _001: Jc Label STW\n"),
    (Frame::Body, "LOOP MW 2;", "2 Loop Direct M Word 2.0\n"),
    (Frame::Body, "+ 5;", "2 Add Number 5\n"),
    (Frame::Body, "+ -5;", "2 Add Number -5\n"),
    // Calls.
    (Frame::Body, "CALL FC 1;", "2 Call Called Fc 1\n"),
    (Frame::Body, "CALL \"f\";", "2 Call Called \"f\"\n"),
    (
        Frame::Body,
        "CALL \"f\", \"data\";",
        "2 Call Called \"f\" with \"data\"\n",
    ),
    (Frame::Body, "UC SFC 43;", "2 Uc Called Sfc 43\n"),
    (Frame::Body, "CC FB5;", "2 Cc Called Fb 5\n"),
    (
        Frame::Body,
        "CALL FB 1, DB 2 (a := MW 4, b := B#(1,2), c := [AR1, P#0.0]);",
        "2 Call Called Fb 1 with Db 2\n  2 a := Direct M Word 4.0\n  2 b := Bytes 1 2\n  2 c := ByRegister Bit 1 0\n",
    ),
    (
        Frame::Body,
        "x1: CALL FC 2 (a := \"in\", b := #c.d[1], e := T#5S, f := TRUE);",
        "2 x1: Call Called Fc 2\n  2 a := Symbol in\n  2 b := Local c.d[1]\n  2 e := Time 5000\n  2 f := Truth true\n",
    ),
    // Instruction words.
    (
        Frame::Body,
        "A; AN; O; ON; X; XN; A(; AN(; O(; ON(; X(; XN(; );",
        "2 A Nothing\n2 An Nothing\n2 O Nothing\n2 On Nothing\n2 X Nothing\n2 Xn Nothing\n2 AOpen Nothing\n2 AnOpen Nothing\n2 OOpen Nothing\n2 OnOpen Nothing\n2 XOpen Nothing\n2 XnOpen Nothing\n2 Close Nothing\n",
    ),
    (
        Frame::Body,
        "L; T; =; S; R; FP; FN; SET; CLR; NOT; SAVE; LC;",
        "2 L Nothing\n2 T Nothing\n2 Assign Nothing\n2 S Nothing\n2 R Nothing\n2 Fp Nothing\n2 Fn Nothing\n2 Set Nothing\n2 Clr Nothing\n2 Not Nothing\n2 Save Nothing\n2 Lc Nothing\n",
    ),
    (
        Frame::Body,
        "LAR1; LAR2; TAR1; TAR2; CAR; +AR1; +AR2; TAK; PUSH; POP; CAW; CAD; INC; DEC; NOP; BLD;",
        "2 Lar1 Nothing\n2 Lar2 Nothing\n2 Tar1 Nothing\n2 Tar2 Nothing\n2 Car Nothing\n2 AddAr1 Nothing\n2 AddAr2 Nothing\n2 Tak Nothing\n2 Push Nothing\n2 Pop Nothing\n2 Caw Nothing\n2 Cad Nothing\n2 Inc Nothing\n2 Dec Nothing\n2 Nop Nothing\n2 Bld Nothing\n",
    ),
    (
        Frame::Body,
        "+; +I; -I; *I; /I; +D; -D; *D; /D; MOD; ==I; <>I; >I; <I; >=I; <=I; ==D; <>D; >D; <D; >=D; <=D;",
        "2 Add Nothing\n2 AddI Nothing\n2 SubI Nothing\n2 MulI Nothing\n2 DivI Nothing\n2 AddD Nothing\n2 SubD Nothing\n2 MulD Nothing\n2 DivD Nothing\n2 Mod Nothing\n2 EqI Nothing\n2 NeI Nothing\n2 GtI Nothing\n2 LtI Nothing\n2 GeI Nothing\n2 LeI Nothing\n2 EqD Nothing\n2 NeD Nothing\n2 GtD Nothing\n2 LtD Nothing\n2 GeD Nothing\n2 LeD Nothing\n",
    ),
    (
        Frame::Body,
        "BTI; ITB; BTD; DTB; ITD; INVI; INVD; NEGI; NEGD; AW; OW; XOW; AD; OD; XOD;",
        "2 Bti Nothing\n2 Itb Nothing\n2 Btd Nothing\n2 Dtb Nothing\n2 Itd Nothing\n2 Invi Nothing\n2 Invd Nothing\n2 Negi Nothing\n2 Negd Nothing\n2 Aw Nothing\n2 Ow Nothing\n2 Xow Nothing\n2 Ad Nothing\n2 Od Nothing\n2 Xod Nothing\n",
    ),
    (
        Frame::Body,
        "SSI; SSD; SLW; SRW; SLD; SRD; RLD; RRD; RLDA; RRDA;",
        "2 Ssi Nothing\n2 Ssd Nothing\n2 Slw Nothing\n2 Srw Nothing\n2 Sld Nothing\n2 Srd Nothing\n2 Rld Nothing\n2 Rrd Nothing\n2 Rlda Nothing\n2 Rrda Nothing\n",
    ),
    (
        Frame::Body,
        "JU a; JL a; JC a; JCN a; JCB a; JNB a; JBI a; JNBI a; JO a; JOS a; JZ a; JN a; JP a; JM a; JPZ a; JMZ a; JUO a; LOOP a;",
        "2 Ju Label a\n2 Jl Label a\n2 Jc Label a\n2 Jcn Label a\n2 Jcb Label a\n2 Jnb Label a\n2 Jbi Label a\n2 Jnbi Label a\n2 Jo Label a\n2 Jos Label a\n2 Jz Label a\n2 Jn Label a\n2 Jp Label a\n2 Jm Label a\n2 Jpz Label a\n2 Jmz Label a\n2 Juo Label a\n2 Loop Label a\n",
    ),
    (
        Frame::Body,
        "SP; SE; SD; SS; SF; FR; CU; CD; BE; BEC; BEU; OPN; CDB;",
        "2 Sp Nothing\n2 Se Nothing\n2 Sd Nothing\n2 Ss Nothing\n2 Sf Nothing\n2 Fr Nothing\n2 Cu Nothing\n2 Cd Nothing\n2 Be Nothing\n2 Bec Nothing\n2 Beu Nothing\n2 Opn Nothing\n2 Cdb Nothing\n",
    ),
    (Frame::Body, "beu; Ju x;", "2 Beu Nothing\n2 Ju Label x\n"),
];

/// The master control relay.
static RELAY: [Row; 10] = [
    (
        Frame::Body,
        "MCRA; MCRD; MCR(; )MCR;",
        "2 Mcra Nothing\n2 Mcrd Nothing\n2 McrOpen Nothing\n2 McrClose Nothing\n",
    ),
    (
        Frame::Body,
        "mcra; Mcrd; mcr(; )mCr;",
        "2 Mcra Nothing\n2 Mcrd Nothing\n2 McrOpen Nothing\n2 McrClose Nothing\n",
    ),
    // With blanks, line ends and comments between their tokens.
    (
        Frame::Body,
        "MCR (; ) MCR; MCR\t( ; )\tMCR ;",
        "2 McrOpen Nothing\n2 McrClose Nothing\n2 McrOpen Nothing\n2 McrClose Nothing\n",
    ),
    (
        Frame::Source,
        "FUNCTION FC 1 : VOID BEGIN\nMCR // a zone\n( // begins\n; ) // and\n// ends\nMCR;\nEND_FUNCTION",
        "1 to 7 Fc Fc 1\n2 McrOpen Nothing\n4 McrClose Nothing\n",
    ),
    // With labels.
    (
        Frame::Body,
        "a: MCRA; b: MCRD; c1: MCR(; _d: )MCR;",
        "2 a: Mcra Nothing\n2 b: Mcrd Nothing\n2 c1: McrOpen Nothing\n2 _d: McrClose Nothing\n",
    ),
    (
        Frame::Body,
        "MCR: MCR(; MCRA: )MCR; JU MCR;",
        "2 MCR: McrOpen Nothing\n2 MCRA: McrClose Nothing\n2 Ju Label MCR\n",
    ),
    // With an operand; that they take none is checked later.
    (
        Frame::Body,
        "MCRA 1; MCRD M 0.0;",
        "2 Mcra Number 1\n2 Mcrd Direct M Bit 0.0\n",
    ),
    (
        Frame::Body,
        "MCR( I 0.0; )MCR a;",
        "2 McrOpen Direct I Bit 0.0\n2 McrClose Local a\n",
    ),
    // Variables of these names.
    (
        Frame::Body,
        "A MCR; A mcra; A MCR.x;",
        "2 A Local MCR\n2 A Local mcra\n2 A Local MCR.x\n",
    ),
    (
        Frame::Body,
        ") #MCR; ) MCRA; ) MCR1; ) MCR.x; ) MCR[2];",
        "2 Close Local MCR\n2 Close Local MCRA\n2 Close Local MCR1\n2 Close Local MCR.x\n2 Close Local MCR[2]\n",
    ),
];

#[test]
fn addresses(rt: HostRuntime) -> Result<(), Fail> {
    all_agree(&rt, rt.alloc(), &ADDRESSES)
}

#[test]
fn paths_timers_and_blocks(rt: HostRuntime) -> Result<(), Fail> {
    all_agree(&rt, rt.alloc(), &PATHS)
}

#[test]
fn pointers(rt: HostRuntime) -> Result<(), Fail> {
    all_agree(&rt, rt.alloc(), &POINTERS)
}

#[test]
fn constants_conditions_registers(rt: HostRuntime) -> Result<(), Fail> {
    all_agree(&rt, rt.alloc(), &CONSTANTS)
}

#[test]
fn labels_calls_and_words(rt: HostRuntime) -> Result<(), Fail> {
    all_agree(&rt, rt.alloc(), &INSTRUCTIONS)
}

#[test]
fn relay(rt: HostRuntime) -> Result<(), Fail> {
    all_agree(&rt, rt.alloc(), &RELAY)
}
