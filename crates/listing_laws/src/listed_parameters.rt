ghost use Rattle.listing_laws.specs.ListingParameters.{AreEndsAlike, AreListedAs, AreParametersListed};

/// Each parameter of a block in a listing is the one that the code has, of the type that chains
/// give to it, and both ends of a passing have one type.
pub fn law_of_listed_parameters()
    ensures parameters { AreParametersListed }
    ensures records { AreListedAs }
    ensures ends { AreEndsAlike }
{}
