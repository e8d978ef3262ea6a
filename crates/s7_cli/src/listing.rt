ghost use Rattle.std.specs.Prelude.{◌≡◌, IfOk};
ghost use Rattle.flat_code.specs.Image.{IsProgram};
ghost use Rattle.stl_list.specs.Listing.{listed_source};
ghost use Rattle.stl_list.specs.Symbols.{listed_names};
ghost use Rattle.s7_cli.specs.Inner.{SaysRefusal};
ghost use Rattle.s7_cli.specs.ListSays.{IsListing, IsListingOf, IsShortListing, ListSays, ListedAnswer};
ghost use Rattle.s7_cli.specs.Listings.{CompiledHaveListings, ListingsGiveImages, ListingsGivePrograms};

use crate::command_checks::loaded_image;
use crate::compiling::{compiles_to, law_of_programs};
use crate::failures::{Failure, File};
use crate::files::limit_of;
use image_file::Loaded;
use std::alloc::Global;
use stl_list::{Listing, list_within};

/// The listing of a program, if neither of its texts is longer than it may be.
fn short_listing(alloc: Global, loaded: &Loaded) -> Result<Listing, Failure>
    ensures source { IfOk result (λ x. x.source.items ≡ listed_source loaded.now.program) }
    ensures symbols { IfOk result
        (λ x. x.symbols.items ≡ listed_names loaded.now.program.names) }
    ensures short { IfOk result (λ x. IsShortListing loaded.now.program) }
    ensures refused { SaysRefusal (ListedAnswer loaded.now.program) result }
{
    match list_within(alloc, loaded, limit_of(File::Listing))? {
        Some(listing) => Ok(listing),
        None => Err(Failure::TooLong {
            file: File::Listing,
        }),
    }
}

/// The listing of a program, if it compiles to the program.
fn listing_that_compiles(alloc: Global, loaded: &Loaded) -> Result<Listing, Failure>
    requires { IsProgram loaded.now.program }
    ensures lists { IfOk result
        (λ x. IsListing x.source.items x.symbols.items loaded.now.program) }
    ensures refused { SaysRefusal (ListedAnswer loaded.now.program) result }
{
    let listing = short_listing(alloc, loaded)?;
    if compiles_to(alloc, &listing.source, &listing.symbols, loaded)? {
        Ok(listing)
    } else {
        Err(Failure::NoListing)
    }
}

/// Checks an image, and lists its program.
pub(crate) fn check_listing(alloc: Global, image: &[u8]) -> Result<Listing, Failure>
    ensures lists { IfOk result (λ x. IsListingOf x.source.items x.symbols.items image.now) }
    ensures refused { SaysRefusal (ListSays image.now) result }
{
    let loaded = loaded_image(alloc, image)?;
    listing_that_compiles(alloc, &loaded)
}

/// A law: where a listing compiles, it compiles to one program, that of the image; where `compile`
/// wrote the image, the listing does compile, unless it is too long, and to the same bytes.
pub fn law_of_listings()
    ensures programs { ListingsGivePrograms }
    ensures images { ListingsGiveImages }
    ensures compile { CompiledHaveListings }
{
    listing_laws::law_of_compiled_listings();
    law_of_programs();
    image_file::laws::one_program();
}
