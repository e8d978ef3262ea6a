//! What surrounds a block whose ops are checked: its own head, and the blocks that it may call.
ghost use Rattle.std.specs.Prelude.{◌≡◌, map, slice_get, IfOk};
ghost use Rattle.std.specs.Option.{option_map};
ghost use Rattle.flat_code.specs.Blocks.{block_with, callee_among, callee_of_block};
ghost use Rattle.image_file.specs.Tables.{call_key, found_callee};

use crate::tables::{place_at_offset, table_of};
use flat_code::{
    FUNCTION, FUNCTION_BLOCK, ParameterRecord, SYSTEM_FUNCTION, system_function_records,
};
use plc_base::NoMemory;
use std::alloc::Global;
use std::marker::Model;

/// What a CALL sees of a block.
#[derive(Drop)]
pub(crate) struct SignatureRead {
    pub kind: u8,
    pub number: u16,
    pub instance_len: u16,
    pub params: Vec<ParameterRecord>,
}

impl Model for SignatureRead {
    ghost use Rattle.flat_code.specs.Blocks.{BlockSignature};

    ghost Value = { BlockSignature };

    ghost view = { λ s. record {
      kind = s.kind;
      number = s.number;
      instance_len = s.instance_len;
      params = s.params.items;
    } };
}

/// What is called, as a CALL sees it.
#[derive(Drop)]
pub(crate) struct CalleeSignature<'a> {
    pub kind: u8,
    pub instance_len: u16,
    pub params: &'a [ParameterRecord],
}

impl<'a> Model for CalleeSignature<'a> {
    ghost use Rattle.flat_code.specs.Blocks.{CalleeSignature as CalleeSignatureData};

    ghost Value = { CalleeSignatureData };

    ghost view = { λ c. record {
      kind = c.kind;
      instance_len = c.instance_len;
      params = c.params.now;
    } };
}

impl SignatureRead {
    ghost use Rattle.std.specs.Prelude.{◌≡◌};
    ghost use Rattle.flat_code.specs.Blocks.{callee_of_block};

    /// The block as a CALL sees it, without the number by which it was found.
    fn callee(&self) -> CalleeSignature<'_>
        ensures { result ≡ callee_of_block self.now }
    {
        CalleeSignature {
            kind: self.kind,
            instance_len: self.instance_len,
            params: self.params.as_slice(),
        }
    }
}

/// The kind, local bytes and parameters of a block; the code blocks; the numbers and lengths of the
/// data blocks, if all blocks were read.
#[derive(Clone, Copy)]
pub(crate) struct BlockEnvironment<'a> {
    pub kind: u8,
    pub local_len: u16,
    pub params: &'a [ParameterRecord],
    pub blocks: &'a Signatures,
    pub data_lens: Option<&'a DataLens>,
}

/// What CALLs see of the blocks, each found by kind and number without a search.
#[derive(Drop)]
pub(crate) struct Signatures {
    list: Vec<SignatureRead>,
    table: Vec<u32>,
}

impl Model for Signatures {
    ghost use Rattle.std.specs.Prelude.{List};
    ghost use Rattle.flat_code.specs.Blocks.{BlockSignature};
    ghost use Rattle.image_file.specs.Tables.{FindsCallees};

    ghost Value = { List BlockSignature };

    ghost view = { λ s. s.list.items };

    ghost invariant = { λ s. FindsCallees s.list.items s.table.items };
}

/// The numbers and lengths of data blocks, each found by its number without a search.
#[derive(Drop)]
pub(crate) struct DataLens {
    list: Vec<(u16, usize)>,
    table: Vec<u32>,
}

impl Model for DataLens {
    ghost use Rattle.std.specs.Prelude.{List, ℕ};
    ghost use Rattle.image_file.specs.Tables.{FindsLens};

    ghost Value = { List (ℕ × ℕ) };

    ghost view = { λ d. d.list.items };

    ghost invariant = { λ d. FindsLens d.list.items d.table.items };
}

/// How many keys of functions and function blocks there are: two for each number.
const KEYS: usize = 131_072;

/// The key of a block that may be called. Other blocks have one that no call looks for.
fn call_key(block: &SignatureRead) -> u32
    ensures { result ≡ call_key block.now }
{
    let number = u32::from(block.number);
    match block.kind {
        FUNCTION => 2 * number,
        FUNCTION_BLOCK => 2 * number + 1,
        _ => 131_072,
    }
}

impl Signatures {
    ghost use Rattle.std.specs.Prelude.{◌≡◌, IfOk};

    /// Takes a list over.
    pub(crate) fn new(alloc: Global, list: Vec<SignatureRead>) -> Result<Self, NoMemory>
        ensures { IfOk result (λ s. s ≡ list.items) }
    {
        let keys = call_keys(alloc, list.as_slice())?;
        let table = table_of(alloc, keys.as_slice(), KEYS)?;
        Ok(Signatures { list, table })
    }
}

fn call_keys(alloc: Global, blocks: &[SignatureRead]) -> Result<Vec<u32>, NoMemory>
    ensures { IfOk result (λ v. v.items ≡ map call_key blocks.now) }
{
    let mut keys = Vec::new(alloc);
    for block in blocks {
        keys.push(call_key(block))?;
    }
    Ok(keys)
}

impl DataLens {
    ghost use Rattle.std.specs.Prelude.{◌≡◌, IfOk};

    /// Takes a list over.
    pub(crate) fn new(alloc: Global, list: Vec<(u16, usize)>) -> Result<Self, NoMemory>
        ensures { IfOk result (λ d. d ≡ list.items) }
    {
        let numbers = data_numbers(alloc, list.as_slice())?;
        let table = table_of(alloc, numbers.as_slice(), 65_536)?;
        Ok(DataLens { list, table })
    }
}

fn data_numbers(alloc: Global, lens: &[(u16, usize)]) -> Result<Vec<u32>, NoMemory>
    ensures { IfOk result (λ v. v.items ≡ map (λ d. d.0) lens.now) }
{
    let mut numbers = Vec::new(alloc);
    for data in lens {
        numbers.push(u32::from(data.0))?;
    }
    Ok(numbers)
}

/// The block that is called.
#[tactic(auto, unfolding(flat_code::specs::Blocks::callee_among))]
pub(crate) fn callee(blocks: &Signatures, kind: u8, number: u16) -> Option<CalleeSignature<'_>>
    ensures { result ≡ callee_among blocks.now kind number }
{
    if kind != SYSTEM_FUNCTION {
        return blocks.block_with(kind, number);
    }
    let params = system_function_records(number)?;
    Some(CalleeSignature {
        kind: SYSTEM_FUNCTION,
        instance_len: 0,
        params,
    })
}

impl Signatures {
    ghost use Rattle.flat_code.specs.Blocks.{block_with};

    /// The first block of a kind and number. Only functions and function blocks are called, so
    /// others may take a search.
    fn block_with(&self, kind: u8, number: u16) -> Option<CalleeSignature<'_>>
        ensures { result ≡ block_with kind number self.now }
    {
        let number_key = 2 * u32::from(number);
        match kind {
            FUNCTION => found_callee(self.list.as_slice(), self.table.as_slice(), number_key),
            FUNCTION_BLOCK => found_callee(
                self.list.as_slice(),
                self.table.as_slice(),
                number_key + 1,
            ),
            _ => block_by_search(self.list.as_slice(), kind, number),
        }
    }
}

/// The block of a key.
fn found_callee<'a>(
    blocks: &'a [SignatureRead],
    table: &[u32],
    key: u32,
) -> Option<CalleeSignature<'a>>
    ensures { result ≡ found_callee blocks.now table.now key }
{
    let place = place_at_offset(table, key)?;
    callee_at_place(blocks, place)
}

/// The block at a place of a list.
fn callee_at_place(blocks: &[SignatureRead], place: usize) -> Option<CalleeSignature<'_>>
    ensures { result ≡ option_map callee_of_block (slice_get blocks.now place) }
{
    let block = blocks.get(place)?;
    Some(block.callee())
}

/// The first block of a kind and number.
fn block_by_search(blocks: &[SignatureRead], kind: u8, number: u16) -> Option<CalleeSignature<'_>>
    ensures { result ≡ block_with kind number blocks.now }
{
    for block in blocks {
        if block.kind == kind && block.number == number {
            return Some(block.callee());
        }
    }
    None
}

/// The length at a place of a list.
fn len_at(lens: &[(u16, usize)], place: usize) -> Option<usize>
    ensures { result ≡ option_map (λ d. d.1) (slice_get lens.now place) }
{
    let data = lens.get(place)?;
    Some(data.1)
}

impl DataLens {
    ghost use Rattle.flat_code.specs.Blocks.{length_of_data};

    /// The length of the first data block of a number.
    pub(crate) fn of(&self, number: u16) -> Option<usize>
        ensures { result ≡ length_of_data number self.now }
    {
        let place = place_at_offset(self.table.as_slice(), u32::from(number))?;
        len_at(self.list.as_slice(), place)
    }
}
