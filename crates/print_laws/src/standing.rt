ghost use Rattle.print_laws.specs.Standing.{ArePrintedTokens, DoTokensStand};

/// The tokens of a printable tree stand where they are printed, each with the gap before it, and
/// the text of the tree has just these tokens.
pub fn law_of_printed_tokens()
    ensures stand { DoTokensStand }
    ensures tokens { ArePrintedTokens }
{}
