ghost use Rattle.listing_laws.specs.Nesting.{AreListedNestingsKept, AreMarksKept, AreNestingsKept};

/// The rules on brackets and relay zones see the instruction words and the lines of a body alone:
/// two bodies with the same words on the same lines, but for empty statements, break the same of
/// them. The listed body of a block is such a body, where the operand of each statement means
/// something.
pub fn law_of_nestings()
    ensures kept { AreNestingsKept }
    ensures marks { AreMarksKept }
    ensures listed { AreListedNestingsKept }
{}
