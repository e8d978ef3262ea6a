ghost use Rattle.listing_laws.specs.Steps.{AreFirstFound, AreSeedsFound, AreStepsFound};

/// Each parameter that a program passes on is a step of a chain in its listing, or has the type
/// that a system function asks for.
pub fn law_of_passing_steps()
    ensures steps { AreStepsFound }
    ensures seeds { AreSeedsFound }
    ensures first { AreFirstFound }
{}
