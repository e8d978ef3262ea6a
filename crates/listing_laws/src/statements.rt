ghost use Rattle.listing_laws.specs.Statements.{AreNumbersFound, AreRunsFound, AreStartsFound, AreTargetsFound, IsCountFound};

/// The statements that a listing finds in the code of a compiled block, with their starts, their
/// numbers and the targets of their jumps, are the statements that the code was made of.
pub fn law_of_listed_statements()
    ensures runs { AreRunsFound }
    ensures starts { AreStartsFound }
    ensures count { IsCountFound }
    ensures numbers { AreNumbersFound }
    ensures targets { AreTargetsFound }
{}
