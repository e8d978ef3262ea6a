ghost use Rattle.std.specs.List.{AllByRecursion};
ghost use Rattle.stl_ast.specs.Operands.{IsOperand};
ghost use Rattle.stl_ast.specs.Statements.{IsStatement};
ghost use Rattle.stl_ast.specs.WellFormed.{IsBlock, IsWellFormed};

use crate::compare::same;
use crate::rows::tree_of_source;
use arrayvec::ArrayVec;
use plc_base::{BlockKind, Width};
use std::test::Fail;
use stl_ast::{Block, Characters, Name, Operand, Statement, Tree};

/// A block of each kind that a source declares.
const EACH_KIND: &str = "ORGANIZATION_BLOCK OB 1 BEGIN A I 0.3; L MW 2; END_ORGANIZATION_BLOCK
FUNCTION FC 1 : VOID BEGIN = Q 4.7; END_FUNCTION
FUNCTION_BLOCK FB 1 BEGIN S M 1.0; END_FUNCTION_BLOCK
DATA_BLOCK DB 1 FB 1 BEGIN END_DATA_BLOCK
TYPE UDT 1 STRUCT a : INT; END_STRUCT END_TYPE
";

/// The mask of the bit of an address of one bit, which is at most 7.
fn bit_mask(operand: &Operand) -> u8
    requires { IsOperand operand.now }
{
    match operand {
        Operand::Direct {
            block: _,
            area: _,
            width: Width::Bit,
            byte: _,
            bit,
        } => 1 << *bit,
        _ => 0,
    }
}

/// The masks of all statements.
fn masks_of_body(body: &[Statement]) -> u8
    requires { AllByRecursion IsStatement body.now }
{
    let mut masks = 0;
    let mut rest = body;
    while let [statement, more @ ..] = rest {
        masks |= bit_mask(&statement.operand);
        rest = more;
    }
    masks
}

/// The masks of a block, 0 for a block without a body. No kind but these is declared.
fn masks_of_block(block: &Block) -> u8
    requires { IsBlock block.now }
{
    match block.kind {
        BlockKind::Ob | BlockKind::Fc | BlockKind::Fb | BlockKind::Db | BlockKind::Udt => {
            masks_of_body(block.body.as_slice())
        }
        BlockKind::Sfc => unreachable!(),
    }
}

/// The masks of a well-formed tree.
fn masks_of_tree(tree: &Tree) -> u8
    requires { IsWellFormed tree.now }
{
    let mut masks = 0;
    let mut rest = tree.blocks.as_slice();
    while let [block, more @ ..] = rest {
        masks |= masks_of_block(block);
        rest = more;
    }
    masks
}

/// A tree is read without a test of its ranges, by what `parse` promises of it.
#[test]
fn trees_of_each_kind_are_well_formed(rt: HostRuntime) -> Result<(), Fail> {
    let tree = tree_of_source(rt.alloc(), EACH_KIND.as_bytes())?;
    same(&rt, "masks", masks_of_tree(&tree), 0b1000_1001);
    same(&rt, "blocks", tree.blocks.len(), 5);
    Ok(())
}

#[test]
fn names_and_characters(rt: HostRuntime) -> Result<(), Fail> {
    let name = Name::from_vec(Vec::from_slice(rt.alloc(), b"ab")?);
    same(&rt, "a name", name.as_bytes(), b"ab".as_slice());
    let mut bytes = ArrayVec::new();
    bytes.push(b'a');
    let characters = Characters::new(bytes);
    same(&rt, "characters", characters.as_slice(), b"a".as_slice());
    Ok(())
}
