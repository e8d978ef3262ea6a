ghost use Rattle.listing_laws.specs.ParameterNames.{AreOwnNamesApart, AreSystemNamesApart};

/// The parameters of a block in a listing, where a return value is the last of them, have names of
/// their own, also in upper case, and so have those of the system functions.
pub fn law_of_called_names()
    ensures own { AreOwnNamesApart }
    ensures system { AreSystemNamesApart }
{}
