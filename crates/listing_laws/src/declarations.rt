ghost use Rattle.listing_laws.specs.ListedDeclarations.{AreDeclaredAgain, AreKindsWide};

/// The types that the listing of a program gives to parameters, by chains of passings, have the
/// widths of these, where the program verifies (`kinds`). So the declarations in the listing of an
/// accepted source's program come to the parameters of its code blocks, with their places, to their
/// local data and to the length of their instances, whatever other blocks and types stand beside
/// them (`declared`).
pub fn law_of_listed_declarations()
    ensures kinds { AreKindsWide }
    ensures declared { AreDeclaredAgain }
{}
