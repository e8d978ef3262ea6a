ghost use Rattle.listing_laws.specs.Heads.{AreBlocksOnce, AreNumbersRight};

/// The listing of a source that has no block twice, and no block number beyond the limits, has none
/// either.
pub fn law_of_listed_heads()
    ensures once { AreBlocksOnce }
    ensures right { AreNumbersRight }
{}
