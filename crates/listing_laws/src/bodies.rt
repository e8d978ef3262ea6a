ghost use Rattle.listing_laws.specs.ListedBodies.{AreBodiesKept};

/// Where each listed statement of a block comes to its instruction, the listed body comes to the
/// statements of the block but the one that returns, on their lines.
pub fn law_of_listed_bodies()
    ensures kept { AreBodiesKept }
{}
