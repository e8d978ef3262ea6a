ghost use Rattle.listing_laws.specs.SourceTypes.{AreSourceTypesKept, AreSourcesHandedOn};

/// Where what a source owes for the types of its parameters holds, its calls hand these types on,
/// and those that the listing of its program gives are handed on from them.
pub fn law_of_source_types()
    ensures handed { AreSourcesHandedOn }
    ensures kept { AreSourceTypesKept }
{}
