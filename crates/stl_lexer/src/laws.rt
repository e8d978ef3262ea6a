//! Laws of the definitions that contracts cite, each of them a function with an empty body: what is
//! known of a source that is written token by token.

ghost use Rattle.stl_lexer.specs.Pieces.{ArePiecesRead, DoNumbersStand, DoWordsStand};

/// Pieces that stand are the tokens of what they spell.
pub fn law_of_pieces()
    ensures { ArePiecesRead }
{}

/// A word, or a number, is the longest token before a byte that goes on with neither and is no `#`.
pub fn law_of_standing()
    ensures words { DoWordsStand }
    ensures numbers { DoNumbersStand }
{}
