ghost use Rattle.listing_laws.specs.Operands.{AreOperandsKept};

/// The operand that a listing has for an instruction which goes on names what that of the source
/// does, and the instruction takes it: a place, a parameter, a constant, a register and so on;
/// where the listing has the data blocks and parameters that the source names.
pub fn law_of_listed_operands()
    ensures kept { AreOperandsKept }
{}
