ghost use Rattle.listing_laws.specs.Forms.{AreDataPrinted, AreFramesPrinted, AreLabelsPrinted};

/// The data blocks of a listing, its code blocks but for their statements, and its labels are of
/// forms that are read back.
pub fn law_of_listed_forms()
    ensures data_blocks { AreDataPrinted }
    ensures frames { AreFramesPrinted }
    ensures labels { AreLabelsPrinted }
{}
