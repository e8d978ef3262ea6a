ghost use Rattle.listing_laws.specs.Sources.{AreListingsRead, AreSourcesRead};

use print_laws::law_of_printed_source;

/// The text of the listing of a program whose ops are those of a source has tokens, and these are
/// read as the tree of the listing.
pub fn law_of_listed_source()
    ensures read { AreListingsRead }
    ensures compiled { AreSourcesRead }
{
    law_of_printed_source();
}
