//! Images as bytes, of version 1.

/// A data block of two words; a jump, and a transfer to its second word: the image of docs/FORMATS.md but
/// for version and profile.
pub(crate) const IMAGE: &[u8] = &[
    // The header: version 1, 80 bytes, a code block, a data block, no names.
    0x53, 0x37, 0x46, 0x42, 0, 1, 0, 0, 0, 0, 0, 0x50, 0, 1, 0, 1, 0, 0, 0, 0,
    // OB 1: no parameters, 20 local bytes, 3 statements, 20 bytes of code.
    1, 0, 0, 1, 0, 0x14, 0, 0, 0, 3, 0, 0, 0, 0, 0, 0x14,
    // JU to 7; USEDB 10 and T DBW 2; BE.
    0xEF, 8, 0, 0, 0, 0, 7, 2, 0x0A, 0, 0x0A, 0xA1, 2, 0x84, 3, 0, 2, 0, 0xFB, 0,
    // The lines of the statements.
    0, 0, 0, 3, 0, 0, 0, 4, 0, 0, 0, 5,
    // DB 10: no instance, 4 bytes.
    0, 0x0A, 0, 0, 0, 4, 0, 0, 0, 0, 0, 0,
];

/// A function that calls itself without end.
pub(crate) const CHAIN: &[u8] = &[
    // The header: 86 bytes, two code blocks, no data block, no names.
    0x53, 0x37, 0x46, 0x42, 0, 1, 0, 0, 0, 0, 0, 0x56, 0, 2, 0, 0, 0, 0, 0, 0,
    // OB 1: no parameters, 20 local bytes, 2 statements, 9 bytes of code.
    1, 0, 0, 1, 0, 0x14, 0, 0, 0, 2, 0, 0, 0, 0, 0, 9,
    // CALL FC 1; BE. The lines of the statements.
    0xF8, 0x0D, 2, 0, 1, 0, 0, 0xFB, 0, 0, 0, 0, 7, 0, 0, 0, 8,
    // FC 1: no parameters, no local bytes, 2 statements, 9 bytes of code.
    2, 0, 0, 1, 0, 0, 0, 0, 0, 2, 0, 0, 0, 0, 0, 9,
    // CALL FC 1; BE. The lines of the statements.
    0xF8, 0x0D, 2, 0, 1, 0, 0, 0xFB, 0, 0, 0, 0, 3, 0, 0, 0, 4,
];

/// The image of the empty source: a header of no blocks and no names.
pub(crate) const EMPTY: &[u8] = b"S7FB\0\x01\0\0\0\0\0\x14\0\0\0\0\0\0\0\0";

/// The image of version 2 of the empty source, for the large profile.
pub(crate) const LARGE: &[u8] = b"S7FB\0\x02\0\x02\0\0\0\x14\0\0\0\0\0\0\0\0";

/// The source that is listed of `IMAGE`: its statements stand on the lines 3 to 5.
pub(crate) const LISTED: &[u8] =
    b"\n\nORGANIZATION_BLOCK OB 1 VAR_TEMP t : ARRAY [0..19] OF BYTE; END_VAR BEGIN JU _001;\n_001: T DB 10.DBW 2;\nEND_ORGANIZATION_BLOCK DATA_BLOCK DB 10 STRUCT x : ARRAY [0..3] OF BYTE; END_STRUCT; BEGIN END_DATA_BLOCK\n";
