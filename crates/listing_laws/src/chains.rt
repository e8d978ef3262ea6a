ghost use Rattle.listing_laws.specs.Chains.{AreLabelsJoined, AreMarksHanded, AreTypesKept};

/// In a listing parameters have one label exactly where a chain of passings joins them, and are INT
/// or TIME exactly where a chain joins them to an INT or a TIME of a system function. So where a
/// source's types are handed on by its calls, what is INT or TIME in the listing was so in the
/// source, each parameter has its width, and both ends of a passing have one type.
pub fn law_of_listed_chains()
    ensures labels { AreLabelsJoined }
    ensures marks { AreMarksHanded }
    ensures types { AreTypesKept }
{}
