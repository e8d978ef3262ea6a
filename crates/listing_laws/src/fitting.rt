ghost use Rattle.listing_laws.specs.Fitting.{AreFittingListed};

/// What a CALL passes without fault in the code of a program fits the parameters as the listing has
/// them, where the listing has the data blocks and parameters that are passed.
pub fn law_of_fitting_passings()
    ensures fitting { AreFittingListed }
{}
