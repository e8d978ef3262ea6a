ghost use Rattle.listing_laws.specs.Lines.{AreLinesKept};

/// Each statement of the code blocks of a source is listed on its own line, and so are the ends of
/// the blocks, each head on that of its first statement: sorted by their lines they never go back.
pub fn law_of_listed_lines()
    ensures kept { AreLinesKept }
{}
