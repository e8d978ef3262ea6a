//! The laws of memory.
ghost use Rattle.plc_mem.specs.Laws.{BitsDetermineMemory, WritingGivesTheOneMemory, ReadsWhereEachBitExists, WritesWhereEachBitExists, NumbersAreReadBack, PlacesStay, RefreshesBits, ClearsBits, SetsInputBits, MemoryStarts};

use crate::memories::Memory;

/// Two memories with the same loaded data blocks and the same bits at every bit place are the same.
pub fn bits_determine_memory(m: &Memory, n: &Memory)
    ensures { BitsDetermineMemory m.now n.now }
{
    m.law_of_areas();
    n.law_of_areas();
}

/// Writing a number gives a memory with the number in the operand and every other bit as before,
/// and there is no other such memory.
pub fn writing_gives_the_one_memory(m: &Memory, other: &Memory)
    ensures { WritingGivesTheOneMemory m.now other.now }
{
    m.law_of_areas();
    other.law_of_areas();
}

/// A number is read at a place, and can be written there, exactly where each bit of the operand
/// exists.
pub fn places_exist_bit_by_bit(m: &Memory)
    ensures reads { ReadsWhereEachBitExists m.now }
    ensures writes { WritesWhereEachBitExists m.now }
{
    m.law_of_areas();
}

/// A number written is read back from its place, but in area P, where writing means peripheral
/// outputs and reading peripheral inputs.
pub fn numbers_are_read_back(m: &Memory)
    ensures { NumbersAreReadBack m.now }
{
    m.law_of_areas();
}

/// No bit place is added or removed by a write, by setting an input, by clearing the outputs or by
/// updating the process images.
pub fn places_stay(m: &Memory)
    ensures { PlacesStay m.now }
{
    m.law_of_areas();
}

/// Which bits change when the process images are updated, the peripheral outputs cleared or a
/// peripheral input byte set.
pub fn calls_change_these_bits(m: &Memory)
    ensures refreshes { RefreshesBits m.now }
    ensures clears { ClearsBits m.now }
    ensures inputs { SetsInputBits m.now }
{
    m.law_of_areas();
}

/// Memory as it begins has all areas in their sizes, where the data blocks' bytes are numbers below
/// 256.
pub fn memory_starts()
    ensures { MemoryStarts }
{}
