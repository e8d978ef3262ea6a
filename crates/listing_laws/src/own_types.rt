ghost use Rattle.listing_laws.specs.OwnParameterTypes.{AreOwnSeen};

/// What the body of a function of a source sees as a parameter of the function has the type that
/// the function declares for it, where all its components are parameters of elementary type.
pub fn law_of_own_types()
    ensures seen { AreOwnSeen }
{}
