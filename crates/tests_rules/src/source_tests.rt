use crate::calls::{Row, sources_agree};
use std::test::Fail;

static BLOCKS: [Row; 20] = [
    // A component of a user-defined data type among the temporary variables of each kind of block.
    (
        b"TYPE UDT 1\nSTRUCT\nnum : INT;\nEND_STRUCT\nEND_TYPE\nORGANIZATION_BLOCK OB 1\nVAR_TEMP\nown : UDT 1;\nEND_VAR\nBEGIN\nL #own.num;\nEND_ORGANIZATION_BLOCK",
        0,
        0,
    ),
    (
        b"TYPE UDT 1\nSTRUCT\nnum : INT;\nEND_STRUCT\nEND_TYPE\nORGANIZATION_BLOCK OB 1\nVAR_TEMP\nown : UDT 1;\nEND_VAR\nBEGIN\nL #own.other;\nEND_ORGANIZATION_BLOCK",
        11,
        20,
    ),
    (
        b"TYPE UDT 1\nSTRUCT\nnum : INT;\nEND_STRUCT\nEND_TYPE\nFUNCTION FC 1 : VOID\nVAR_TEMP\nown : UDT 1;\nEND_VAR\nBEGIN\nT #own.num;\nEND_FUNCTION",
        0,
        0,
    ),
    (
        b"TYPE UDT 1\nSTRUCT\nnum : INT;\nEND_STRUCT\nEND_TYPE\nFUNCTION FC 1 : VOID\nVAR_TEMP\nown : UDT 1;\nEND_VAR\nBEGIN\nA #own.num;\nEND_FUNCTION",
        11,
        24,
    ),
    (
        b"TYPE UDT 1\nSTRUCT\nnum : INT;\nEND_STRUCT\nEND_TYPE\nFUNCTION_BLOCK FB 1\nVAR\nnum : BOOL;\nEND_VAR\nVAR_TEMP\nown : UDT 1;\nEND_VAR\nBEGIN\nL #own.num;\nA #num;\nEND_FUNCTION_BLOCK",
        0,
        0,
    ),
    (
        b"TYPE UDT 1\nSTRUCT\nnum : INT;\nEND_STRUCT\nEND_TYPE\nFUNCTION_BLOCK FB 1\nVAR\nnum : BOOL;\nEND_VAR\nVAR_TEMP\nown : UDT 1;\nEND_VAR\nBEGIN\nA #own.num.num;\nEND_FUNCTION_BLOCK",
        14,
        20,
    ),
    // An input of a function block may be written.
    (
        b"FUNCTION_BLOCK FB 1\nVAR_INPUT\nnum : INT;\nEND_VAR\nBEGIN\nT #num;\nEND_FUNCTION_BLOCK",
        0,
        0,
    ),
    (
        b"FUNCTION FC 1 : VOID\nVAR_INPUT\nnum : INT;\nEND_VAR\nBEGIN\nT #num;\nEND_FUNCTION",
        6,
        39,
    ),
    // The return value of a function.
    (
        b"FUNCTION FC 1 : INT\nBEGIN\nT #RET_VAL;\nL #ret_val;\nEND_FUNCTION",
        0,
        0,
    ),
    // The target of a setting.
    (
        b"DATA_BLOCK DB 1\nSTRUCT\nnum : INT;\nEND_STRUCT\nBEGIN\nnum := 5;\nother := 5;\nEND_DATA_BLOCK",
        7,
        20,
    ),
    // Of a name that is declared twice the first declaration is meant.
    (
        b"DATA_BLOCK DB 1\nSTRUCT\nnum : INT;\nNUM : BOOL;\nEND_STRUCT\nBEGIN\nEND_DATA_BLOCK\nFUNCTION FC 1 : VOID\nBEGIN\nL DB1.num;\nA DB1.num;\nEND_FUNCTION",
        11,
        24,
    ),
    // A label belongs to its body, and so do brackets.
    (
        b"FUNCTION FC 1 : VOID\nBEGIN\na1: SET;\nEND_FUNCTION\nFUNCTION FC 2 : VOID\nBEGIN\nJU a1;\nEND_FUNCTION",
        7,
        26,
    ),
    (
        b"FUNCTION FC 1 : VOID\nBEGIN\na1: SET;\nEND_FUNCTION\nFUNCTION FC 2 : VOID\nBEGIN\na1: SET;\nJU a1;\nEND_FUNCTION",
        0,
        0,
    ),
    (
        b"FUNCTION FC 1 : VOID\nBEGIN\nA(;\nEND_FUNCTION\nFUNCTION FC 2 : VOID\nBEGIN\n);\nEND_FUNCTION",
        3,
        30,
    ),
    // No instruction calls an organization block.
    (
        b"ORGANIZATION_BLOCK OB 10\nBEGIN\nSET;\nEND_ORGANIZATION_BLOCK\nFUNCTION FC 1 : VOID\nBEGIN\nCALL OB 10;\nEND_FUNCTION",
        7,
        25,
    ),
    // The names of the parameters rest on the called block, whatever is wrong with the instance.
    (
        b"FUNCTION_BLOCK FB 1\nBEGIN\nSET;\nEND_FUNCTION_BLOCK\nORGANIZATION_BLOCK OB 1\nBEGIN\nCALL FB 1, DB 9 (nope := 5);\nEND_ORGANIZATION_BLOCK\nDATA_BLOCK DB 9\nFB 99\nBEGIN\nEND_DATA_BLOCK",
        7,
        34,
    ),
    // The least line of all blocks, whatever its rule.
    (
        b"FUNCTION FC 1 : VOID\nBEGIN\nUC FC 2;\nCALL SFC 99;\nEND_FUNCTION\nFUNCTION FC 2 : INT\nBEGIN\nL M 0.0;\nEND_FUNCTION",
        3,
        40,
    ),
    // Nine zones in an organization block.
    (
        b"ORGANIZATION_BLOCK OB 1\nBEGIN\nMCR(;\nMCR(;\nMCR(;\nMCR(;\nMCR(;\nMCR(;\nMCR(;\nMCR(;\nMCR(;\n)MCR;\n)MCR;\n)MCR;\n)MCR;\n)MCR;\n)MCR;\n)MCR;\n)MCR;\n)MCR;\nEND_ORGANIZATION_BLOCK",
        11,
        49,
    ),
    // Zones are counted in each block from none.
    (
        b"FUNCTION FC 1 : VOID\nBEGIN\nMCR(;\nEND_FUNCTION\nORGANIZATION_BLOCK OB 1\nBEGIN\n)MCR;\nEND_ORGANIZATION_BLOCK",
        3,
        48,
    ),
    (
        b"FUNCTION FC 1 : VOID\nBEGIN\nMCR(;\n)MCR;\nEND_FUNCTION\nORGANIZATION_BLOCK OB 1\nBEGIN\n)MCR;\nEND_ORGANIZATION_BLOCK",
        8,
        47,
    ),
];

#[test]
fn blocks(rt: HostRuntime) -> Result<(), Fail> {
    sources_agree(&rt, rt.alloc(), &BLOCKS)
}
