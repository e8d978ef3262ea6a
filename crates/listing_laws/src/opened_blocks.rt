ghost use Rattle.listing_laws.specs.OpenedBlocks.{AreOpenedRight};

/// The fixed place on which a statement of a source's program acts that opens a data block lies in
/// it, and what is passed in a data block is a place in one.
pub fn law_of_opened_blocks()
    ensures { AreOpenedRight }
{}
