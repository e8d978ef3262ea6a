ghost use Rattle.listing_laws.specs.AgainBodies.{AreCodeBlocksKept};

/// Where each statement of the listed bodies of an accepted source's program comes to its
/// instruction, the code blocks of the listing come to those of the program.
pub fn law_of_again_bodies()
    ensures kept { AreCodeBlocksKept }
{}
