//! The table of op codes, cell by cell: each code with its instruction and what it takes, against a
//! list that was typed from the instruction set by hand.

ghost use Rattle.std.specs.Prelude.{◌<◌};

use crate::compare::same;
use flat_code::{
    AccuOperation, AddConstant, CallOperation, EndOperation, Logic, Operand, OperandForms,
    Operation, Passed, PointerOperation, RelayOperation, Shift, operation_of, taken_by,
};
use plc_base::{Area, Check, Compare, TimerKind, Width};
use std::alloc::{AllocError, Global};
use std::process::Abort;
use std::test::*;

// Code, instruction, the forms of its operand; behind 01 the greatest literal, behind 06 and 07
// timer or counter, behind / the widths in bits.
const LIST: &str = "\
00 -
01 NOP 01:1
02 USEDB 0A
03 BLD 01:255
04 PASS 0B
05 MCRA 00
06 MCRD 00
07 MCR( 00
08 )MCR 00
09 -
0A -
0B -
0C -
0D -
0E -
0F -
10 A 02 03 04 05 06T 07T 06C 07C 09 / 1
11 AN 02 03 04 05 06T 07T 06C 07C 09 / 1
12 O 02 03 04 05 06T 07T 06C 07C 09 / 1
13 ON 02 03 04 05 06T 07T 06C 07C 09 / 1
14 X 02 03 04 05 06T 07T 06C 07C 09 / 1
15 XN 02 03 04 05 06T 07T 06C 07C 09 / 1
16 O 00
17 + 01:4294967295
18 A( 00
19 AN( 00
1A O( 00
1B ON( 00
1C X( 00
1D XN( 00
1E ) 00
1F -
20 L 01:4294967295 02 03 04 05 06T 07T 06C 07C / 8 16 32
21 T 02 03 04 05 / 8 16 32
22 = 02 03 04 05 / 1
23 S 02 03 04 05 06C 07C / 1
24 R 02 03 04 05 06T 07T 06C 07C / 1
25 FP 02 03 04 05 / 1
26 FN 02 03 04 05 / 1
27 SET 00
28 CLR 00
29 NOT 00
2A SAVE 00
2B LC 06T 07T 06C 07C
2C L STW 00
2D T STW 00
2E L DBLG 01:3
2F -
30 LAR1 00 01:4294967295 02 / 32
31 LAR2 00 01:4294967295 02 / 32
32 TAR1 00 02 / 32
33 TAR2 00 02 / 32
34 LAR1 AR2 00
35 TAR1 AR2 00
36 CAR 00
37 +AR1 00 01:4294967295
38 +AR2 00 01:4294967295
39 TAK 00
3A PUSH 00
3B POP 00
3C CAW 00
3D CAD 00
3E INC 01:255
3F DEC 01:255
40 + 01:65535
41 +I 00
42 -I 00
43 *I 00
44 /I 00
45 +D 00
46 -D 00
47 *D 00
48 /D 00
49 MOD 00
4A ==I 00
4B <>I 00
4C >I 00
4D <I 00
4E >=I 00
4F <=I 00
50 ==D 00
51 <>D 00
52 >D 00
53 <D 00
54 >=D 00
55 <=D 00
56 BTI 00
57 ITB 00
58 BTD 00
59 DTB 00
5A ITD 00
5B INVI 00
5C INVD 00
5D NEGI 00
5E NEGD 00
5F AW 00 01:65535
60 OW 00 01:65535
61 XOW 00 01:65535
62 AD 00 01:4294967295
63 OD 00 01:4294967295
64 XOD 00 01:4294967295
65 SSI 00 01:15
66 SSD 00 01:32
67 SLW 00 01:15
68 SRW 00 01:15
69 SLD 00 01:32
6A SRD 00 01:32
6B RLD 00 01:32
6C RRD 00 01:32
6D RLDA 00
6E RRDA 00
6F JUMP 08
70 SP 06T 07T
71 SE 06T 07T
72 SD 06T 07T
73 SS 06T 07T
74 SF 06T 07T
75 FR 06T 07T 06C 07C
76 CU 06C 07C
77 CD 06C 07C
78 CALL 0D
79 UC 0D
7A CC 0D
7B BE 00
7C BEC 00
7D BEU 00
7E OPN 0E 0F
7F CDB 00
";

fn check_name(with: Check) -> &'static str {
    match with {
        Check::A => "A",
        Check::An => "AN",
        Check::O => "O",
        Check::On => "ON",
        Check::X => "X",
        Check::Xn => "XN",
    }
}

fn nest_name(with: Check) -> &'static str {
    match with {
        Check::A => "A(",
        Check::An => "AN(",
        Check::O => "O(",
        Check::On => "ON(",
        Check::X => "X(",
        Check::Xn => "XN(",
    }
}

fn number_name(what: AccuOperation) -> &'static str {
    match what {
        AccuOperation::Tak => "TAK",
        AccuOperation::Push => "PUSH",
        AccuOperation::Pop => "POP",
        AccuOperation::Caw => "CAW",
        AccuOperation::Cad => "CAD",
        AccuOperation::AddI => "+I",
        AccuOperation::SubI => "-I",
        AccuOperation::MulI => "*I",
        AccuOperation::DivI => "/I",
        AccuOperation::AddD => "+D",
        AccuOperation::SubD => "-D",
        AccuOperation::MulD => "*D",
        AccuOperation::DivD => "/D",
        AccuOperation::Mod => "MOD",
        AccuOperation::Bti => "BTI",
        AccuOperation::Itb => "ITB",
        AccuOperation::Btd => "BTD",
        AccuOperation::Dtb => "DTB",
        AccuOperation::Itd => "ITD",
        AccuOperation::Invi => "INVI",
        AccuOperation::Invd => "INVD",
        AccuOperation::Negi => "NEGI",
        AccuOperation::Negd => "NEGD",
        AccuOperation::Rlda => "RLDA",
        AccuOperation::Rrda => "RRDA",
    }
}

fn adding_name(what: AddConstant) -> &'static str {
    match what {
        AddConstant::Inc => "INC",
        AddConstant::Dec => "DEC",
        AddConstant::Word | AddConstant::Dword => "+",
    }
}

fn comparison_name(how: Compare) -> &'static str {
    match how {
        Compare::Eq => "==",
        Compare::Ne => "<>",
        Compare::Gt => ">",
        Compare::Lt => "<",
        Compare::Ge => ">=",
        Compare::Le => "<=",
    }
}

fn logic_name(what: Logic) -> &'static str {
    match what {
        Logic::Aw => "AW",
        Logic::Ow => "OW",
        Logic::Xow => "XOW",
        Logic::Ad => "AD",
        Logic::Od => "OD",
        Logic::Xod => "XOD",
    }
}

fn shift_name(what: Shift) -> &'static str {
    match what {
        Shift::Ssi => "SSI",
        Shift::Ssd => "SSD",
        Shift::Slw => "SLW",
        Shift::Srw => "SRW",
        Shift::Sld => "SLD",
        Shift::Srd => "SRD",
        Shift::Rld => "RLD",
        Shift::Rrd => "RRD",
    }
}

fn pointer_name(what: PointerOperation) -> &'static str {
    match what {
        PointerOperation::Lar1 => "LAR1",
        PointerOperation::Lar2 => "LAR2",
        PointerOperation::Tar1 => "TAR1",
        PointerOperation::Tar2 => "TAR2",
        PointerOperation::Lar1Ar2 => "LAR1 AR2",
        PointerOperation::Tar1Ar2 => "TAR1 AR2",
        PointerOperation::Car => "CAR",
        PointerOperation::AddAr1 => "+AR1",
        PointerOperation::AddAr2 => "+AR2",
    }
}

fn start_name(kind: TimerKind) -> &'static str {
    match kind {
        TimerKind::Sp => "SP",
        TimerKind::Se => "SE",
        TimerKind::Sd => "SD",
        TimerKind::Ss => "SS",
        TimerKind::Sf => "SF",
    }
}

fn call_name(how: CallOperation) -> &'static str {
    match how {
        CallOperation::Call => "CALL",
        CallOperation::Uc => "UC",
        CallOperation::Cc => "CC",
    }
}

fn end_name(how: EndOperation) -> &'static str {
    match how {
        EndOperation::Be => "BE",
        EndOperation::Bec => "BEC",
        EndOperation::Beu => "BEU",
    }
}

fn relay_name(what: RelayOperation) -> &'static str {
    match what {
        RelayOperation::Activate => "MCRA",
        RelayOperation::Deactivate => "MCRD",
        RelayOperation::Open => "MCR(",
        RelayOperation::Close => ")MCR",
    }
}

/// The instruction of an operation, a comparison without its type.
fn name(operation: Operation) -> &'static str {
    match operation {
        Operation::CompareInt(how) | Operation::CompareDint(how) => comparison_name(how),
        Operation::NoOperation => "-",
        Operation::Nop => "NOP",
        Operation::Bld => "BLD",
        Operation::UseDb => "USEDB",
        Operation::Pass => "PASS",
        Operation::Relay(what) => relay_name(what),
        Operation::Check(with) => check_name(with),
        Operation::OrBare => "O",
        Operation::Nest(with) => nest_name(with),
        Operation::Unnest => ")",
        Operation::Load => "L",
        Operation::Transfer => "T",
        Operation::Assign => "=",
        Operation::Set => "S",
        Operation::Reset => "R",
        Operation::Edge { rising: true } => "FP",
        Operation::Edge { rising: false } => "FN",
        Operation::SetRlo => "SET",
        Operation::ClearRlo => "CLR",
        Operation::NegateRlo => "NOT",
        Operation::SaveRlo => "SAVE",
        Operation::LoadBcd => "LC",
        Operation::LoadStatus => "L STW",
        Operation::TransferStatus => "T STW",
        Operation::LoadOpenBlock => "L DBLG",
        Operation::Pointer(what) => pointer_name(what),
        Operation::Number(what) => number_name(what),
        Operation::Add(what) => adding_name(what),
        Operation::Logic(what) => logic_name(what),
        Operation::Shift(what) => shift_name(what),
        Operation::Jump => "JUMP",
        Operation::Start(kind) => start_name(kind),
        Operation::Free => "FR",
        Operation::CountUp => "CU",
        Operation::CountDown => "CD",
        Operation::Call(how) => call_name(how),
        Operation::End(how) => end_name(how),
        Operation::OpenBlock => "OPN",
        Operation::Exchange => "CDB",
    }
}

/// The type behind a comparison.
fn type_behind(operation: Operation) -> &'static str {
    match operation {
        Operation::CompareInt(_) => "I",
        Operation::CompareDint(_) => "D",
        _ => "",
    }
}

/// Literals beside which the limits of the list lie.
static LITERALS: [u32; 19] = [
    0,
    1,
    2,
    3,
    4,
    14,
    15,
    16,
    31,
    32,
    33,
    254,
    255,
    256,
    65_534,
    65_535,
    65_536,
    4_294_967_294,
    4_294_967_295,
];

/// The greatest of those literals that is taken.
fn greatest_literal(takes: OperandForms) -> Option<u32> {
    let mut greatest = None;
    for value in &LITERALS {
        if takes.admits(&Operand::Literal { value: *value }) {
            greatest = Some(*value);
        }
    }
    greatest
}

/// An operand of each form but 00 and 01, in the order of the list.
static OPERANDS: [Operand; 15] = [
    Operand::Direct {
        area: Area::M,
        width: Width::Word,
        byte: 2,
        bit: 0,
    },
    Operand::ByMemory {
        area: Area::M,
        width: Width::Word,
        from: Area::L,
        byte: 2,
    },
    Operand::ByRegister {
        area: None,
        width: Width::Word,
        register: 1,
        bits: 8,
    },
    Operand::Parameter {
        index: 0,
        width: Width::Word,
    },
    Operand::Numbered { kind: 1, number: 3 },
    Operand::NumberedBy {
        kind: 1,
        from: Area::L,
        byte: 2,
    },
    Operand::Numbered { kind: 2, number: 3 },
    Operand::NumberedBy {
        kind: 2,
        from: Area::L,
        byte: 2,
    },
    Operand::Jump { kind: 0, target: 6 },
    Operand::OfStatus { condition: 1 },
    Operand::UseDb { number: 10 },
    Operand::Pass {
        index: 0,
        actual: Passed::Literal { value: 7 },
    },
    Operand::Called {
        kind: 2,
        number: 1,
        instance: 0,
    },
    Operand::OpenBlock {
        register: 1,
        number: 10,
    },
    Operand::OpenBy {
        register: 1,
        from: Area::L,
        byte: 2,
    },
];

/// The form of an operand as the list writes it.
fn form(operand: &Operand) -> &'static str {
    match *operand {
        Operand::Nothing => "00",
        Operand::Literal { .. } => "01",
        Operand::Direct { .. } => "02",
        Operand::ByMemory { .. } => "03",
        Operand::ByRegister { .. } => "04",
        Operand::Parameter { .. } => "05",
        Operand::Numbered { kind: 1, .. } => "06T",
        Operand::Numbered { .. } => "06C",
        Operand::NumberedBy { kind: 1, .. } => "07T",
        Operand::NumberedBy { .. } => "07C",
        Operand::Jump { .. } => "08",
        Operand::OfStatus { .. } => "09",
        Operand::UseDb { .. } => "0A",
        Operand::Pass { .. } => "0B",
        Operand::Called { .. } => "0D",
        Operand::OpenBlock { .. } => "0E",
        Operand::OpenBy { .. } => "0F",
    }
}

static WIDTHS: [(Width, u8); 4] = [
    (Width::Bit, 1),
    (Width::Byte, 8),
    (Width::Word, 16),
    (Width::Dword, 32),
];

/// The widths of operands in memory.
fn put_widths(out: &mut String, takes: OperandForms) -> Result<(), AllocError> {
    out.push_str(" /")?;
    for (width, bits) in &WIDTHS {
        if takes.has_width(*width) {
            write!(out, " {bits}")?;
        }
    }
    Ok(())
}

/// The operands that are taken, beside the widths of those in memory.
fn put_operands(out: &mut String, takes: OperandForms) -> Result<(), AllocError> {
    if takes.admits(&Operand::Nothing) {
        out.push_str(" 00")?;
    }
    if let Some(most) = greatest_literal(takes) {
        write!(out, " 01:{most}")?;
    }
    for operand in &OPERANDS {
        if takes.admits(operand) {
            let form = form(operand);
            write!(out, " {form}")?;
        }
    }
    if takes.admits(&OPERANDS[0]) {
        put_widths(out, takes)?;
    }
    Ok(())
}

/// A line of the list as the table of the crate has it.
fn put_line(out: &mut String, code: u8) -> Result<(), AllocError>
    requires { code < 128 }
{
    let operation = operation_of(code);
    let name = name(operation);
    let of = type_behind(operation);
    write!(out, "{code:02X} {name}{of}")?;
    put_operands(out, taken_by(code))
}

/// The line of a code is this one.
fn has_line(rt: &impl Abort, alloc: Global, code: u8, want: &str) -> Result<(), Fail>
    requires { code < 128 }
{
    let mut line = String::new(alloc);
    put_line(&mut line, code)?;
    same(rt, code, line.as_str(), want);
    Ok(())
}

#[test]
fn each_code_takes_what_the_list_says(rt: HostRuntime) -> Result<(), Fail> {
    let mut lines = LIST.lines();
    for code in 0..128u8 {
        let want = lines.next().unwrap_or("no line");
        has_line(&rt, rt.alloc(), code, want)?;
        let is_its_own = code == operation_of(code).code() || want.ends_with('-');
        same(&rt, ("code of the word of", code), is_its_own, true);
    }
    same(&rt, "a further line", lines.next(), None);
    Ok(())
}
