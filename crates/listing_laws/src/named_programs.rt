ghost use Rattle.listing_laws.specs.NamedProgram.{AreAcceptedRead, AreSourcesNamed};

use crate::sources::law_of_listed_source;

/// What each statement of an accepted source's program acts on, calls and passes is named as in a
/// source: only a bit has a bit number, none is one of the peripherals, UC and CC have no instance
/// and pass nothing, and an instance is that of a function block.
pub fn law_of_named_programs()
    ensures { AreSourcesNamed }
{}

/// The text of the listing of each accepted source's program is read as its tree.
pub fn law_of_accepted_listings()
    ensures { AreAcceptedRead }
{
    law_of_listed_source();
}
