ghost use Rattle.listing_laws.specs.OwnData.{AreOwnDataAgain, AreOwnDataKept};

/// The data blocks of an accepted source's program that have a structure of their own are as long
/// in the listing as they were. Where one stands there and breaks no rule as a whole, the program
/// of the listing has it again, with its number and its initial bytes (`again`). So each is among
/// the data blocks of that program, where no block of the listing breaks a rule as a whole
/// (`kept`).
pub fn law_of_own_data_blocks()
    ensures again { AreOwnDataAgain }
    ensures kept { AreOwnDataKept }
{}
