ghost use Rattle.listing_laws.specs.Labels.{AreCallWordsFound, AreEndWordsFound, AreJumpWordsFound, AreLabelsApart, AreLabelsReached, AreWordsFound, HaveWords};

/// The instruction words of a listing are those of the instructions, its labels differ where their
/// numbers, below 93,312, do, and the label of a statement in the listed body is that of its number.
pub fn law_of_listed_labels()
    ensures words { AreWordsFound }
    ensures jump_words { AreJumpWordsFound }
    ensures call_words { AreCallWordsFound }
    ensures end_words { AreEndWordsFound }
    ensures have_words { HaveWords }
    ensures apart { AreLabelsApart }
    ensures reached { AreLabelsReached }
{}
