ghost use Rattle.listing_laws.specs.ParametersAgain.{AreParametersAgain};

/// What a body of an accepted source sees as its own parameter is there in the listing, by its
/// index.
pub fn law_of_parameters_again()
    ensures again { AreParametersAgain }
{}
