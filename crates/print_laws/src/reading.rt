ghost use Rattle.print_laws.specs.Reading.{ArePrintedTreesRead};

/// The tokens of the pieces of a tree of the forms of a listing, at the places where these are
/// printed, are read as that tree in every text that shows the pieces there.
pub fn law_of_printed_tree()
    ensures { ArePrintedTreesRead }
{}
