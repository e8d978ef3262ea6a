use plc_base::{BlockKind, Flag, Width};
use stl_ast::{Letters, Mnemonic, PartKind, Simple};

/// What the letters of an address name.
#[derive(Clone, Copy)]
pub enum AddressKind {
    /// An area, and how wide what is addressed in it is.
    Area { letters: Letters, width: Width },
    Timer,
    Counter,
    /// A data block, for the DI register where `di` is true, and else for the DB register.
    Block { di: bool },
}

/// A word that begins a clause at every place.
#[derive(Clone, Copy)]
pub enum Keyword {
    /// The word that opens a block.
    Opens { kind: BlockKind },
    /// The word that ends a block.
    Ends { kind: BlockKind },
    /// `VAR..`.
    Section { kind: PartKind },
    /// `END_VAR`.
    EndSection,
    /// `BEGIN`.
    Begin,
    /// `NETWORK`.
    Network,
    /// `STRUCT`.
    Structure,
    /// `END_STRUCT`.
    EndStructure,
}

/// A word that describes a block in its head.
#[derive(Clone, Copy)]
pub enum HeadWord {
    /// `VERSION`, with a number behind its colon.
    Version,
    /// `AUTHOR`, `FAMILY` or `NAME`, with a word behind its colon.
    Named,
    /// `KNOW_HOW_PROTECT` or `CODE_VERSION1`, which stand alone.
    Alone,
}

/// What may stand behind an instruction word.
#[derive(Clone, Copy)]
pub enum OperandSyntax {
    /// An operand or nothing.
    Operand,
    /// A label, behind a jump.
    Jump,
    /// A data block, behind OPN.
    Open,
    /// One block, behind UC and CC.
    BlockCall,
    /// A block with its actual parameters, behind CALL.
    Call,
}

/// The keywords that begin a clause (manual: block keywords of a source file).
pub static KEYWORDS: [(&[u8], Keyword); 20] = [
    (
        b"ORGANIZATION_BLOCK",
        Keyword::Opens {
            kind: BlockKind::Ob,
        },
    ),
    (
        b"FUNCTION",
        Keyword::Opens {
            kind: BlockKind::Fc,
        },
    ),
    (
        b"FUNCTION_BLOCK",
        Keyword::Opens {
            kind: BlockKind::Fb,
        },
    ),
    (
        b"DATA_BLOCK",
        Keyword::Opens {
            kind: BlockKind::Db,
        },
    ),
    (
        b"TYPE",
        Keyword::Opens {
            kind: BlockKind::Udt,
        },
    ),
    (
        b"END_ORGANIZATION_BLOCK",
        Keyword::Ends {
            kind: BlockKind::Ob,
        },
    ),
    (
        b"END_FUNCTION",
        Keyword::Ends {
            kind: BlockKind::Fc,
        },
    ),
    (
        b"END_FUNCTION_BLOCK",
        Keyword::Ends {
            kind: BlockKind::Fb,
        },
    ),
    (
        b"END_DATA_BLOCK",
        Keyword::Ends {
            kind: BlockKind::Db,
        },
    ),
    (
        b"END_TYPE",
        Keyword::Ends {
            kind: BlockKind::Udt,
        },
    ),
    (
        b"VAR_INPUT",
        Keyword::Section {
            kind: PartKind::Input,
        },
    ),
    (
        b"VAR_OUTPUT",
        Keyword::Section {
            kind: PartKind::Output,
        },
    ),
    (
        b"VAR_IN_OUT",
        Keyword::Section {
            kind: PartKind::InOut,
        },
    ),
    (
        b"VAR",
        Keyword::Section {
            kind: PartKind::Static,
        },
    ),
    (
        b"VAR_TEMP",
        Keyword::Section {
            kind: PartKind::Temp,
        },
    ),
    (b"END_VAR", Keyword::EndSection),
    (b"BEGIN", Keyword::Begin),
    (b"NETWORK", Keyword::Network),
    (b"STRUCT", Keyword::Structure),
    (b"END_STRUCT", Keyword::EndStructure),
];

/// The words of a block's head.
pub static HEAD_WORDS: [(&[u8], HeadWord); 6] = [
    (b"VERSION", HeadWord::Version),
    (b"AUTHOR", HeadWord::Named),
    (b"FAMILY", HeadWord::Named),
    (b"NAME", HeadWord::Named),
    (b"KNOW_HOW_PROTECT", HeadWord::Alone),
    (b"CODE_VERSION1", HeadWord::Alone),
];

/// The letters of a block's number.
pub static BLOCK_KINDS: [(&[u8], BlockKind); 6] = [
    (b"OB", BlockKind::Ob),
    (b"FC", BlockKind::Fc),
    (b"FB", BlockKind::Fb),
    (b"DB", BlockKind::Db),
    (b"SFC", BlockKind::Sfc),
    (b"UDT", BlockKind::Udt),
];

/// The elementary data types.
pub static SIMPLE_TYPES: [(&[u8], Simple); 9] = [
    (b"BOOL", Simple::Bool),
    (b"BYTE", Simple::Byte),
    (b"CHAR", Simple::Char),
    (b"WORD", Simple::Word),
    (b"INT", Simple::Int),
    (b"S5TIME", Simple::S5time),
    (b"DWORD", Simple::Dword),
    (b"DINT", Simple::Dint),
    (b"TIME", Simple::Time),
];

/// The letters of addresses.
pub static ADDRESSES: [(&[u8], AddressKind); 34] = [
    (
        b"I",
        AddressKind::Area {
            letters: Letters::I,
            width: Width::Bit,
        },
    ),
    (
        b"IB",
        AddressKind::Area {
            letters: Letters::I,
            width: Width::Byte,
        },
    ),
    (
        b"IW",
        AddressKind::Area {
            letters: Letters::I,
            width: Width::Word,
        },
    ),
    (
        b"ID",
        AddressKind::Area {
            letters: Letters::I,
            width: Width::Dword,
        },
    ),
    (
        b"Q",
        AddressKind::Area {
            letters: Letters::Q,
            width: Width::Bit,
        },
    ),
    (
        b"QB",
        AddressKind::Area {
            letters: Letters::Q,
            width: Width::Byte,
        },
    ),
    (
        b"QW",
        AddressKind::Area {
            letters: Letters::Q,
            width: Width::Word,
        },
    ),
    (
        b"QD",
        AddressKind::Area {
            letters: Letters::Q,
            width: Width::Dword,
        },
    ),
    (
        b"M",
        AddressKind::Area {
            letters: Letters::M,
            width: Width::Bit,
        },
    ),
    (
        b"MB",
        AddressKind::Area {
            letters: Letters::M,
            width: Width::Byte,
        },
    ),
    (
        b"MW",
        AddressKind::Area {
            letters: Letters::M,
            width: Width::Word,
        },
    ),
    (
        b"MD",
        AddressKind::Area {
            letters: Letters::M,
            width: Width::Dword,
        },
    ),
    (
        b"L",
        AddressKind::Area {
            letters: Letters::L,
            width: Width::Bit,
        },
    ),
    (
        b"LB",
        AddressKind::Area {
            letters: Letters::L,
            width: Width::Byte,
        },
    ),
    (
        b"LW",
        AddressKind::Area {
            letters: Letters::L,
            width: Width::Word,
        },
    ),
    (
        b"LD",
        AddressKind::Area {
            letters: Letters::L,
            width: Width::Dword,
        },
    ),
    (
        b"DBX",
        AddressKind::Area {
            letters: Letters::Db,
            width: Width::Bit,
        },
    ),
    (
        b"DBB",
        AddressKind::Area {
            letters: Letters::Db,
            width: Width::Byte,
        },
    ),
    (
        b"DBW",
        AddressKind::Area {
            letters: Letters::Db,
            width: Width::Word,
        },
    ),
    (
        b"DBD",
        AddressKind::Area {
            letters: Letters::Db,
            width: Width::Dword,
        },
    ),
    (
        b"DIX",
        AddressKind::Area {
            letters: Letters::Di,
            width: Width::Bit,
        },
    ),
    (
        b"DIB",
        AddressKind::Area {
            letters: Letters::Di,
            width: Width::Byte,
        },
    ),
    (
        b"DIW",
        AddressKind::Area {
            letters: Letters::Di,
            width: Width::Word,
        },
    ),
    (
        b"DID",
        AddressKind::Area {
            letters: Letters::Di,
            width: Width::Dword,
        },
    ),
    (
        b"PIB",
        AddressKind::Area {
            letters: Letters::Pi,
            width: Width::Byte,
        },
    ),
    (
        b"PIW",
        AddressKind::Area {
            letters: Letters::Pi,
            width: Width::Word,
        },
    ),
    (
        b"PID",
        AddressKind::Area {
            letters: Letters::Pi,
            width: Width::Dword,
        },
    ),
    (
        b"PQB",
        AddressKind::Area {
            letters: Letters::Pq,
            width: Width::Byte,
        },
    ),
    (
        b"PQW",
        AddressKind::Area {
            letters: Letters::Pq,
            width: Width::Word,
        },
    ),
    (
        b"PQD",
        AddressKind::Area {
            letters: Letters::Pq,
            width: Width::Dword,
        },
    ),
    (b"T", AddressKind::Timer),
    (b"C", AddressKind::Counter),
    (b"DB", AddressKind::Block { di: false }),
    (b"DI", AddressKind::Block { di: true }),
];

/// The instruction words, with the marks and sign words that are instructions, and what may stand
/// behind each. A second language's words would stand in a table of their own beside this one.
pub static MNEMONICS: [(&[u8], (Mnemonic, OperandSyntax)); 118] = [
    (b"NOP", (Mnemonic::Nop, OperandSyntax::Operand)),
    (b"BLD", (Mnemonic::Bld, OperandSyntax::Operand)),
    (b"A", (Mnemonic::A, OperandSyntax::Operand)),
    (b"AN", (Mnemonic::An, OperandSyntax::Operand)),
    (b"O", (Mnemonic::O, OperandSyntax::Operand)),
    (b"ON", (Mnemonic::On, OperandSyntax::Operand)),
    (b"X", (Mnemonic::X, OperandSyntax::Operand)),
    (b"XN", (Mnemonic::Xn, OperandSyntax::Operand)),
    (b")", (Mnemonic::Close, OperandSyntax::Operand)),
    (b"MCRA", (Mnemonic::Mcra, OperandSyntax::Operand)),
    (b"MCRD", (Mnemonic::Mcrd, OperandSyntax::Operand)),
    (b"L", (Mnemonic::L, OperandSyntax::Operand)),
    (b"T", (Mnemonic::T, OperandSyntax::Operand)),
    (b"=", (Mnemonic::Assign, OperandSyntax::Operand)),
    (b"S", (Mnemonic::S, OperandSyntax::Operand)),
    (b"R", (Mnemonic::R, OperandSyntax::Operand)),
    (b"FP", (Mnemonic::Fp, OperandSyntax::Operand)),
    (b"FN", (Mnemonic::Fn, OperandSyntax::Operand)),
    (b"SET", (Mnemonic::Set, OperandSyntax::Operand)),
    (b"CLR", (Mnemonic::Clr, OperandSyntax::Operand)),
    (b"NOT", (Mnemonic::Not, OperandSyntax::Operand)),
    (b"SAVE", (Mnemonic::Save, OperandSyntax::Operand)),
    (b"LC", (Mnemonic::Lc, OperandSyntax::Operand)),
    (b"LAR1", (Mnemonic::Lar1, OperandSyntax::Operand)),
    (b"LAR2", (Mnemonic::Lar2, OperandSyntax::Operand)),
    (b"TAR1", (Mnemonic::Tar1, OperandSyntax::Operand)),
    (b"TAR2", (Mnemonic::Tar2, OperandSyntax::Operand)),
    (b"CAR", (Mnemonic::Car, OperandSyntax::Operand)),
    (b"+AR1", (Mnemonic::AddAr1, OperandSyntax::Operand)),
    (b"+AR2", (Mnemonic::AddAr2, OperandSyntax::Operand)),
    (b"TAK", (Mnemonic::Tak, OperandSyntax::Operand)),
    (b"PUSH", (Mnemonic::Push, OperandSyntax::Operand)),
    (b"POP", (Mnemonic::Pop, OperandSyntax::Operand)),
    (b"CAW", (Mnemonic::Caw, OperandSyntax::Operand)),
    (b"CAD", (Mnemonic::Cad, OperandSyntax::Operand)),
    (b"INC", (Mnemonic::Inc, OperandSyntax::Operand)),
    (b"DEC", (Mnemonic::Dec, OperandSyntax::Operand)),
    (b"+", (Mnemonic::Add, OperandSyntax::Operand)),
    (b"+I", (Mnemonic::AddI, OperandSyntax::Operand)),
    (b"-I", (Mnemonic::SubI, OperandSyntax::Operand)),
    (b"*I", (Mnemonic::MulI, OperandSyntax::Operand)),
    (b"/I", (Mnemonic::DivI, OperandSyntax::Operand)),
    (b"+D", (Mnemonic::AddD, OperandSyntax::Operand)),
    (b"-D", (Mnemonic::SubD, OperandSyntax::Operand)),
    (b"*D", (Mnemonic::MulD, OperandSyntax::Operand)),
    (b"/D", (Mnemonic::DivD, OperandSyntax::Operand)),
    (b"MOD", (Mnemonic::Mod, OperandSyntax::Operand)),
    (b"==I", (Mnemonic::EqI, OperandSyntax::Operand)),
    (b"<>I", (Mnemonic::NeI, OperandSyntax::Operand)),
    (b">I", (Mnemonic::GtI, OperandSyntax::Operand)),
    (b"<I", (Mnemonic::LtI, OperandSyntax::Operand)),
    (b">=I", (Mnemonic::GeI, OperandSyntax::Operand)),
    (b"<=I", (Mnemonic::LeI, OperandSyntax::Operand)),
    (b"==D", (Mnemonic::EqD, OperandSyntax::Operand)),
    (b"<>D", (Mnemonic::NeD, OperandSyntax::Operand)),
    (b">D", (Mnemonic::GtD, OperandSyntax::Operand)),
    (b"<D", (Mnemonic::LtD, OperandSyntax::Operand)),
    (b">=D", (Mnemonic::GeD, OperandSyntax::Operand)),
    (b"<=D", (Mnemonic::LeD, OperandSyntax::Operand)),
    (b"BTI", (Mnemonic::Bti, OperandSyntax::Operand)),
    (b"ITB", (Mnemonic::Itb, OperandSyntax::Operand)),
    (b"BTD", (Mnemonic::Btd, OperandSyntax::Operand)),
    (b"DTB", (Mnemonic::Dtb, OperandSyntax::Operand)),
    (b"ITD", (Mnemonic::Itd, OperandSyntax::Operand)),
    (b"INVI", (Mnemonic::Invi, OperandSyntax::Operand)),
    (b"INVD", (Mnemonic::Invd, OperandSyntax::Operand)),
    (b"NEGI", (Mnemonic::Negi, OperandSyntax::Operand)),
    (b"NEGD", (Mnemonic::Negd, OperandSyntax::Operand)),
    (b"AW", (Mnemonic::Aw, OperandSyntax::Operand)),
    (b"OW", (Mnemonic::Ow, OperandSyntax::Operand)),
    (b"XOW", (Mnemonic::Xow, OperandSyntax::Operand)),
    (b"AD", (Mnemonic::Ad, OperandSyntax::Operand)),
    (b"OD", (Mnemonic::Od, OperandSyntax::Operand)),
    (b"XOD", (Mnemonic::Xod, OperandSyntax::Operand)),
    (b"SSI", (Mnemonic::Ssi, OperandSyntax::Operand)),
    (b"SSD", (Mnemonic::Ssd, OperandSyntax::Operand)),
    (b"SLW", (Mnemonic::Slw, OperandSyntax::Operand)),
    (b"SRW", (Mnemonic::Srw, OperandSyntax::Operand)),
    (b"SLD", (Mnemonic::Sld, OperandSyntax::Operand)),
    (b"SRD", (Mnemonic::Srd, OperandSyntax::Operand)),
    (b"RLD", (Mnemonic::Rld, OperandSyntax::Operand)),
    (b"RRD", (Mnemonic::Rrd, OperandSyntax::Operand)),
    (b"RLDA", (Mnemonic::Rlda, OperandSyntax::Operand)),
    (b"RRDA", (Mnemonic::Rrda, OperandSyntax::Operand)),
    (b"JU", (Mnemonic::Ju, OperandSyntax::Jump)),
    (b"JL", (Mnemonic::Jl, OperandSyntax::Jump)),
    (b"JC", (Mnemonic::Jc, OperandSyntax::Jump)),
    (b"JCN", (Mnemonic::Jcn, OperandSyntax::Jump)),
    (b"JCB", (Mnemonic::Jcb, OperandSyntax::Jump)),
    (b"JNB", (Mnemonic::Jnb, OperandSyntax::Jump)),
    (b"JBI", (Mnemonic::Jbi, OperandSyntax::Jump)),
    (b"JNBI", (Mnemonic::Jnbi, OperandSyntax::Jump)),
    (b"JO", (Mnemonic::Jo, OperandSyntax::Jump)),
    (b"JOS", (Mnemonic::Jos, OperandSyntax::Jump)),
    (b"JZ", (Mnemonic::Jz, OperandSyntax::Jump)),
    (b"JN", (Mnemonic::Jn, OperandSyntax::Jump)),
    (b"JP", (Mnemonic::Jp, OperandSyntax::Jump)),
    (b"JM", (Mnemonic::Jm, OperandSyntax::Jump)),
    (b"JPZ", (Mnemonic::Jpz, OperandSyntax::Jump)),
    (b"JMZ", (Mnemonic::Jmz, OperandSyntax::Jump)),
    (b"JUO", (Mnemonic::Juo, OperandSyntax::Jump)),
    (b"LOOP", (Mnemonic::Loop, OperandSyntax::Jump)),
    (b"SP", (Mnemonic::Sp, OperandSyntax::Operand)),
    (b"SE", (Mnemonic::Se, OperandSyntax::Operand)),
    (b"SD", (Mnemonic::Sd, OperandSyntax::Operand)),
    (b"SS", (Mnemonic::Ss, OperandSyntax::Operand)),
    (b"SF", (Mnemonic::Sf, OperandSyntax::Operand)),
    (b"FR", (Mnemonic::Fr, OperandSyntax::Operand)),
    (b"CU", (Mnemonic::Cu, OperandSyntax::Operand)),
    (b"CD", (Mnemonic::Cd, OperandSyntax::Operand)),
    (b"CALL", (Mnemonic::Call, OperandSyntax::Call)),
    (b"UC", (Mnemonic::Uc, OperandSyntax::BlockCall)),
    (b"CC", (Mnemonic::Cc, OperandSyntax::BlockCall)),
    (b"BE", (Mnemonic::Be, OperandSyntax::Operand)),
    (b"BEC", (Mnemonic::Bec, OperandSyntax::Operand)),
    (b"BEU", (Mnemonic::Beu, OperandSyntax::Operand)),
    (b"OPN", (Mnemonic::Opn, OperandSyntax::Open)),
    (b"CDB", (Mnemonic::Cdb, OperandSyntax::Operand)),
];

/// The instruction words that open a bracket, or a zone of the master control relay, without the `(`
/// behind them.
pub static OPENING_MNEMONICS: [(&[u8], Mnemonic); 7] = [
    (b"A", Mnemonic::AOpen),
    (b"AN", Mnemonic::AnOpen),
    (b"O", Mnemonic::OOpen),
    (b"ON", Mnemonic::OnOpen),
    (b"X", Mnemonic::XOpen),
    (b"XN", Mnemonic::XnOpen),
    (b"MCR", Mnemonic::McrOpen),
];

/// The conditions of the status word that stand as an operand.
pub static FLAGS: [(&[u8], Flag); 10] = [
    (b"BR", Flag::Br),
    (b"OV", Flag::Ov),
    (b"OS", Flag::Os),
    (b"==0", Flag::EqZero),
    (b"<>0", Flag::NeZero),
    (b">0", Flag::GtZero),
    (b"<0", Flag::LtZero),
    (b">=0", Flag::GeZero),
    (b"<=0", Flag::LeZero),
    (b"UO", Flag::Uo),
];

/// The registers that stand as an operand, and whether an instruction has them as one.
pub static REGISTERS: [(&[u8], bool); 7] = [
    (b"STW", true),
    (b"DBLG", true),
    (b"DBNO", true),
    (b"DILG", true),
    (b"DINO", true),
    (b"AR2", true),
    (b"AR1", false),
];
