ghost use Rattle.listing_laws.specs.ListedLandings.{AreLandingsKept};

/// In a listed body of an accepted source equal brackets are open at a jump and at its label, and
/// as many zones.
pub fn law_of_listed_landings()
    ensures { AreLandingsKept }
{}
