ghost use Rattle.listing_laws.specs.Rules.{
  AreListedDeclarationsRight,
  AreListedHeadsRight,
  AreListedInstancesShort,
};

/// The declarations in the listing of an accepted source's program break none of the rules 21, 23,
/// 41, 42 and 56, and the heads of its blocks none of 43, 44 and 50, whatever lines they stand on
/// and whatever types, blocks and symbols stand beside them. Its code blocks break no rule 51.
pub fn law_of_right_declarations()
    ensures declarations { AreListedDeclarationsRight }
    ensures heads { AreListedHeadsRight }
    ensures instances { AreListedInstancesShort }
{}
