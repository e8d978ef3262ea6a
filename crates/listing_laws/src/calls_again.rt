ghost use Rattle.listing_laws.specs.CallsAgain.{AreCallsAgain, AreOperandsRight};

/// What a statement of an accepted source calls is found in the listing, with the parameters that
/// the listing has, and what is passed fits there; the operands of such a source are right ones.
pub fn law_of_calls_again()
    ensures again { AreCallsAgain }
    ensures operands { AreOperandsRight }
{}
