ghost use Rattle.listing_laws.specs.Passings.{AreActualsRight, AreCallsComplete, ArePassingsKept};

/// A CALL whose actual parameters are listed from the ops before it passes just what these ops
/// pass, and its actual parameters break no rule, where what is passed fits the listed parameters.
pub fn law_of_listed_passings()
    ensures passings { ArePassingsKept }
    ensures actuals { AreActualsRight }
    ensures complete { AreCallsComplete }
{}
