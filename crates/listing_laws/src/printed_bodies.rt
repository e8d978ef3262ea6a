ghost use Rattle.listing_laws.specs.Bodies.{AreBodiesPrinted};

/// The statements of a block are listed as ones that are read back, where its ops are those of a
/// source and no jump leads to its END clause.
pub fn law_of_printed_bodies()
    ensures { AreBodiesPrinted }
{}
