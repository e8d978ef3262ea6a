ghost use Rattle.listing_laws.specs.Names.{AreNamesKept, AreNamesRead};

/// The symbols file of a listing, in English, is read as symbols with the names and the addresses
/// that the program has, and a program with these symbols has the same names.
pub fn law_of_listed_names()
    ensures read { AreNamesRead }
    ensures kept { AreNamesKept }
{}
