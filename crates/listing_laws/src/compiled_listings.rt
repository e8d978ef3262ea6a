ghost use Rattle.listing_laws.specs.ListingCompiles.{AreListingsCompiled, ListingsCompile};

use crate::bodies_again::law_of_bodies_again;
use crate::instances::{law_of_listed_data_blocks, law_of_listed_settings};
use crate::named_programs::law_of_accepted_listings;
use crate::right_bodies::law_of_right_bodies;
use crate::whole::law_of_whole_listings;

/// The listing of the program to which a source compiles, with its symbols file, compiles to this
/// program, its names with it, where neither text is longer than a source and a symbols file may be
/// (`compile`); so does that of an accepted source (`accepted`). Each law on the parts of a listing
/// has its share in it.
pub fn law_of_compiled_listings()
    ensures accepted { AreListingsCompiled }
    ensures compile { ListingsCompile }
{
    law_of_accepted_listings();
    law_of_whole_listings();
    law_of_bodies_again();
    law_of_listed_data_blocks();
    law_of_listed_settings();
    law_of_right_bodies();
}
