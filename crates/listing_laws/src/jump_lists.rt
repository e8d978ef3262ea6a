ghost use Rattle.listing_laws.specs.JumpLists.{AreListsKept};

/// In a listed body of an accepted source each JL has its list: its label comes later, and between
/// the two stand at most 255 jumps JU.
pub fn law_of_listed_jump_lists()
    ensures { AreListsKept }
{}
