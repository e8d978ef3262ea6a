ghost use Rattle.listing_laws.specs.Instructions.{AreInstructionsKept, AreJumpsKept};

/// A listed statement that calls nothing breaks no rule by its operand, and comes to the
/// instruction of the statement of the source, where the listing has the data blocks and parameters
/// that the source names.
pub fn law_of_listed_instructions()
    ensures kept { AreInstructionsKept }
    ensures jumps { AreJumpsKept }
{}
