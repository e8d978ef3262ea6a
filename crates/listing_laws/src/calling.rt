ghost use Rattle.listing_laws.specs.Calling.{AreBareCallsKept};

/// A listed call that passes nothing, as UC and CC, breaks no rule by its operand, and comes to the
/// instruction of the statement of the source, where the listing has the data blocks, parameters and
/// called blocks that the source names.
pub fn law_of_listed_bare_calls()
    ensures kept { AreBareCallsKept }
{}
