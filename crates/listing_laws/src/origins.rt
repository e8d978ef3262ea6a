ghost use Rattle.listing_laws.specs.ListedSource.{AreMadeOfSource};
ghost use Rattle.listing_laws.specs.Origins.{AreDataListed};

/// Each code block of the listing of an accepted source's program was made of a block of the
/// source, and stands on its lines (`made`). Behind the code blocks each data block of a program
/// has its place (`stored`).
pub fn law_of_listed_origins()
    ensures made { AreMadeOfSource }
    ensures stored { AreDataListed }
{}
