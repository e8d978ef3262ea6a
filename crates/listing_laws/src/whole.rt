ghost use Rattle.listing_laws.specs.ListedSource.{AreWholeAgain};
ghost use Rattle.listing_laws.specs.Whole.{AreBlocksRightAgain, AreDataLaid};

/// No block of the listing of an accepted source's program breaks a rule as a whole (`whole`), and
/// its heads and declarations break none of the rules of layouts (`heads`), whatever symbols stand
/// beside it. Each data block of the program stands there behind the code blocks, as long as it
/// was; an instance has the structure of its function block (`stored`).
pub fn law_of_whole_listings()
    ensures whole { AreWholeAgain }
    ensures heads { AreBlocksRightAgain }
    ensures stored { AreDataLaid }
{}
