ghost use Rattle.listing_laws.specs.Places.{AreClausesOnLines};

/// The clauses of a listing are printed on the lines that its tree has for them.
pub fn law_of_listed_places()
    ensures { AreClausesOnLines }
{}
