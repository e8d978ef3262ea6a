ghost use Rattle.listing_laws.specs.DataBytes.{AreOwnBytesAgain};

/// A listed data block with a structure of its own, where it stands whole in a source and is as
/// long as its bytes, has the bytes of which it was made: its initial values are these, run by run.
pub fn law_of_listed_bytes()
    ensures { AreOwnBytesAgain }
{}
