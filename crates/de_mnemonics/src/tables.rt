/// A word of the English mnemonics, and the German one.
pub(crate) type Pair = (&'static [u8], &'static [u8]);

/// The instruction words that are no jumps.
pub(crate) static INSTRUCTIONS: [Pair; 17] = [
    (b"A", b"U"),
    (b"AN", b"UN"),
    (b"AW", b"UW"),
    (b"AD", b"UD"),
    (b"SP", b"SI"),
    (b"SE", b"SV"),
    (b"SD", b"SE"),
    (b"SF", b"SA"),
    (b"CU", b"ZV"),
    (b"CD", b"ZR"),
    (b"BEC", b"BEB"),
    (b"BEU", b"BEA"),
    (b"OPN", b"AUF"),
    (b"CDB", b"TDB"),
    (b"CAW", b"TAW"),
    (b"CAD", b"TAD"),
    (b"CAR", b"TAR"),
];

/// The instruction words of jumps.
pub(crate) static JUMPS: [Pair; 17] = [
    (b"JU", b"SPA"),
    (b"JL", b"SPL"),
    (b"JC", b"SPB"),
    (b"JCN", b"SPBN"),
    (b"JCB", b"SPBB"),
    (b"JNB", b"SPBNB"),
    (b"JBI", b"SPBI"),
    (b"JNBI", b"SPBIN"),
    (b"JO", b"SPO"),
    (b"JOS", b"SPS"),
    (b"JZ", b"SPZ"),
    (b"JN", b"SPN"),
    (b"JP", b"SPP"),
    (b"JM", b"SPM"),
    (b"JPZ", b"SPPZ"),
    (b"JMZ", b"SPMZ"),
    (b"JUO", b"SPU"),
];

/// The operand words that take a number.
pub(crate) static OPERANDS: [Pair; 15] = [
    (b"I", b"E"),
    (b"IB", b"EB"),
    (b"IW", b"EW"),
    (b"ID", b"ED"),
    (b"Q", b"A"),
    (b"QB", b"AB"),
    (b"QW", b"AW"),
    (b"QD", b"AD"),
    (b"C", b"Z"),
    (b"PIB", b"PEB"),
    (b"PIW", b"PEW"),
    (b"PID", b"PED"),
    (b"PQB", b"PAB"),
    (b"PQW", b"PAW"),
    (b"PQD", b"PAD"),
];

/// The operand word that stands alone.
pub(crate) static RESULTS: [Pair; 1] = [(b"BR", b"BIE")];

/// The jump whose word is the same in both languages.
pub(crate) static COMMON_JUMPS: [&[u8]; 1] = [b"LOOP"];

/// The words that open a block of statements.
pub(crate) static CODE_OPENINGS: [&[u8]; 3] = [
    b"ORGANIZATION_BLOCK",
    b"FUNCTION",
    b"FUNCTION_BLOCK",
];

/// The words that open a block of data.
pub(crate) static DATA_OPENINGS: [&[u8]; 2] = [b"DATA_BLOCK", b"TYPE"];

/// The word that opens a body.
pub(crate) static BEGIN_WORDS: [&[u8]; 1] = [b"BEGIN"];

/// The words that end a block of statements.
pub(crate) static ENDINGS: [&[u8]; 3] = [
    b"END_ORGANIZATION_BLOCK",
    b"END_FUNCTION",
    b"END_FUNCTION_BLOCK",
];

/// The word that opens a network.
pub(crate) static NETWORK_WORDS: [&[u8]; 1] = [b"NETWORK"];

/// The word of `)MCR`.
pub(crate) static ZONE_WORDS: [&[u8]; 1] = [b"MCR"];
