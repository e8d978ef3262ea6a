ghost use Rattle.listing_laws.specs.LabelRules.{AreJumpsWithin, AreJumpLabelsKnown, AreStatementLabelsOnce};

/// No two statements of a listed body, of at most 93,312, have one label. The jumps of a block of a
/// source lead to its statements, and so each jump of the listed body leads to a label that stands
/// in it.
pub fn law_of_label_rules()
    ensures once { AreStatementLabelsOnce }
    ensures known { AreJumpLabelsKnown }
    ensures within { AreJumpsWithin }
{}
