ghost use Rattle.listing_laws.specs.RightBodies.{AreListedBodiesRight};

/// The bodies of the listing of an accepted source's program break no rule, where none of its
/// blocks breaks one as a whole.
pub fn law_of_right_bodies()
    ensures { AreListedBodiesRight }
{}
