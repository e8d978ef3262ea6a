ghost use Rattle.listing_laws.specs.AcceptedTypes.{AreAcceptedTypesKept, AreAcceptedTypesOwed};

/// The types that the blocks of an accepted source declare for their parameters are handed on by
/// its calls, so those that the listing of its program gives are handed on from them.
pub fn law_of_accepted_types()
    ensures owed { AreAcceptedTypesOwed }
    ensures kept { AreAcceptedTypesKept }
{}
