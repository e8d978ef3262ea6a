ghost use Rattle.listing_laws.specs.AgainBodies.{AreBodiesKeptAgain};
ghost use Rattle.listing_laws.specs.CallsAgain.{AreStatementsAgain};

/// Each listed statement of a block of an accepted source breaks no rule by its operand, and comes
/// to the instruction of the source's statement; so each listed body comes to the statements of its
/// block.
pub fn law_of_bodies_again()
    ensures statements { AreStatementsAgain }
    ensures kept { AreBodiesKeptAgain }
{}
