ghost use Rattle.listing_laws.specs.OwnParameters.{AreOwnParametersFound};

/// The name of a declared parameter of a function, or of its return value, means the parameter of
/// its index.
pub fn law_of_own_parameters()
    ensures found { AreOwnParametersFound }
{}
