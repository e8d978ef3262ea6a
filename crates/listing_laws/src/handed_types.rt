ghost use Rattle.listing_laws.specs.HandedTypes.{AreLinksHandedOn, ArePassedOn, AreStatementsHandedOn, AreTypesListed};

/// Where each call of a source passes parameters for parameters of the same type, all links that a
/// listing finds in its code are of such parameters: so the listing says of their types what the
/// source said. The calls whose actual parameters fit pass parameters so.
pub fn law_of_handed_types()
    ensures links { AreLinksHandedOn }
    ensures types { AreTypesListed }
    ensures passed { ArePassedOn }
    ensures statements { AreStatementsHandedOn }
{}
