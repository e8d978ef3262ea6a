ghost use Rattle.listing_laws.specs.FoundBlocks.{AreCalledFound, AreDataFound};

/// Where no block of the listing of a source's program breaks a rule as a whole, the data blocks
/// that the source names stand there with their numbers (`stored`), and so do the blocks that it
/// calls (`called`).
pub fn law_of_found_blocks()
    ensures stored { AreDataFound }
    ensures called { AreCalledFound }
{}
