ghost use Rattle.listing_laws.specs.Ranges.{AreCompiledWritten, AreListedPrintable, AreListedTokens};

/// The tree of the listing of a program is printable, where its offsets to address registers are
/// ones that a source can write: so its text has just the tokens that were printed. Those of a
/// compiled program are such offsets.
pub fn law_of_listed_trees()
    ensures printable { AreListedPrintable }
    ensures tokens { AreListedTokens }
    ensures compiled { AreCompiledWritten }
{}
