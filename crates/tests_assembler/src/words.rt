//! The instruction words of the tests with their op codes, typed from the table of op codes.

/// Words with one op code whatever their operand.
static WORDS: [(&str, u8); 99] = [
    ("NOP", 0x01),
    ("BLD", 0x03),
    ("MCRA", 0x05),
    ("MCRD", 0x06),
    ("MCR(", 0x07),
    (")MCR", 0x08),
    ("A", 0x10),
    ("AN", 0x11),
    ("O", 0x12),
    ("ON", 0x13),
    ("X", 0x14),
    ("XN", 0x15),
    ("O-", 0x16),
    ("+L", 0x17),
    ("A(", 0x18),
    ("AN(", 0x19),
    ("O(", 0x1A),
    ("ON(", 0x1B),
    ("X(", 0x1C),
    ("XN(", 0x1D),
    (")", 0x1E),
    ("L", 0x20),
    ("T", 0x21),
    ("=", 0x22),
    ("S", 0x23),
    ("R", 0x24),
    ("FP", 0x25),
    ("FN", 0x26),
    ("SET", 0x27),
    ("CLR", 0x28),
    ("NOT", 0x29),
    ("SAVE", 0x2A),
    ("LC", 0x2B),
    ("LSTW", 0x2C),
    ("TSTW", 0x2D),
    ("LDB", 0x2E),
    ("LAR1", 0x30),
    ("LAR2", 0x31),
    ("TAR1", 0x32),
    ("TAR2", 0x33),
    ("LAR1AR2", 0x34),
    ("TAR1AR2", 0x35),
    ("CAR", 0x36),
    ("+AR1", 0x37),
    ("+AR2", 0x38),
    ("TAK", 0x39),
    ("PUSH", 0x3A),
    ("POP", 0x3B),
    ("CAW", 0x3C),
    ("CAD", 0x3D),
    ("INC", 0x3E),
    ("DEC", 0x3F),
    ("+", 0x40),
    ("+I", 0x41),
    ("-I", 0x42),
    ("*I", 0x43),
    ("/I", 0x44),
    ("+D", 0x45),
    ("-D", 0x46),
    ("*D", 0x47),
    ("/D", 0x48),
    ("MOD", 0x49),
    ("==I", 0x4A),
    ("<>I", 0x4B),
    (">I", 0x4C),
    ("<I", 0x4D),
    (">=I", 0x4E),
    ("<=I", 0x4F),
    ("==D", 0x50),
    ("<>D", 0x51),
    (">D", 0x52),
    ("<D", 0x53),
    (">=D", 0x54),
    ("<=D", 0x55),
    ("BTI", 0x56),
    ("ITB", 0x57),
    ("BTD", 0x58),
    ("DTB", 0x59),
    ("ITD", 0x5A),
    ("INVI", 0x5B),
    ("INVD", 0x5C),
    ("NEGI", 0x5D),
    ("NEGD", 0x5E),
    ("AW", 0x5F),
    ("OW", 0x60),
    ("XOW", 0x61),
    ("AD", 0x62),
    ("OD", 0x63),
    ("XOD", 0x64),
    ("SSI", 0x65),
    ("SSD", 0x66),
    ("SLW", 0x67),
    ("SRW", 0x68),
    ("SLD", 0x69),
    ("SRD", 0x6A),
    ("RLD", 0x6B),
    ("RRD", 0x6C),
    ("RLDA", 0x6D),
    ("RRDA", 0x6E),
];

/// Words of timers, counters, calls, returns and data blocks, with one op code whatever their
/// operand.
static MORE_WORDS: [(&str, u8); 16] = [
    ("SP", 0x70),
    ("SE", 0x71),
    ("SD", 0x72),
    ("SS", 0x73),
    ("SF", 0x74),
    ("FR", 0x75),
    ("CU", 0x76),
    ("CD", 0x77),
    ("CALL", 0x78),
    ("UC", 0x79),
    ("CC", 0x7A),
    ("BE", 0x7B),
    ("BEC", 0x7C),
    ("BEU", 0x7D),
    ("OPN", 0x7E),
    ("CDB", 0x7F),
];

/// Jumps by their kind from 0.
static JUMPS: [&str; 18] = [
    "JU", "JL", "JC", "JCN", "JCB", "JNB", "JBI", "JNBI", "JO", "JOS", "JZ", "JN", "JP", "JM",
    "JPZ", "JMZ", "JUO", "LOOP",
];

/// Conditions of the status word from 1.
static CONDITIONS: [&str; 10] = [
    "BR", "OV", "OS", "==0", "<>0", ">0", "<0", ">=0", "<=0", "UO",
];

fn found_code(table: &[(&str, u8)], word: &str) -> Option<u8> {
    for (name, code) in table {
        if *name == word {
            return Some(*code);
        }
    }
    None
}

fn place_in(table: &[&str], word: &str) -> Option<u8> {
    let mut place = 0_u8;
    for name in table {
        if *name == word {
            return Some(place);
        }
        place = place.wrapping_add(1);
    }
    None
}

/// The op code of a word; 0, which is none, where there is no such word.
pub(crate) fn code_of(word: &str) -> u8 {
    match found_code(&WORDS, word) {
        Some(code) => code,
        None => found_code(&MORE_WORDS, word).unwrap_or(0),
    }
}

pub(crate) fn jump_kind(word: &str) -> Option<u8> {
    place_in(&JUMPS, word)
}

pub(crate) fn condition_number(word: &str) -> Option<u8> {
    let place = place_in(&CONDITIONS, word)?;
    Some(place.wrapping_add(1))
}
