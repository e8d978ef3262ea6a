ghost use Rattle.listing_laws.specs.Jumps.{AreLabelsOnce};

/// In the listed body of a code block of at most 93,312 statements no label stands twice.
pub fn law_of_listed_jumps()
    ensures { AreLabelsOnce }
{}
