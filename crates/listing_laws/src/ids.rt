ghost use Rattle.listing_laws.specs.Ids.{AreBlocksFound, AreBlocksKept, AreIdsListed, HasNoTypes};

/// The blocks of a listing have the kinds and numbers of those of its program; they are those of
/// the source but for user-defined data types, and each is found at its place, where the source
/// breaks neither rule 22 nor rule 44.
pub fn law_of_listed_ids()
    ensures listed { AreIdsListed }
    ensures kept { AreBlocksKept }
    ensures found { AreBlocksFound }
    ensures plain { HasNoTypes }
{}
