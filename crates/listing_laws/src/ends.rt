ghost use Rattle.listing_laws.specs.Ends.{AreEndsFree};

/// No jump of the program of a source leads to the last statement of its block, the END clause.
pub fn law_of_listed_ends()
    ensures { AreEndsFree }
{}
