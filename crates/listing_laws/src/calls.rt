ghost use Rattle.listing_laws.specs.Calls.{AreCallsKept, AreCallsListed, AreCallsWhole, AreFunctionsKnown, AreInstancesRight, AreStatementsListed};

/// A listed call names its block and its instance by their numbers, its instruction is the one that
/// it was made of, and it breaks neither rule 40 nor 46 where the source's call broke none, nor 38
/// where its data block is an instance of what it calls.
pub fn law_of_listed_calls()
    ensures listed { AreCallsListed }
    ensures statements { AreStatementsListed }
    ensures kept { AreCallsKept }
    ensures known { AreFunctionsKnown }
    ensures whole { AreCallsWhole }
    ensures instances { AreInstancesRight }
{}
