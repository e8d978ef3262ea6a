ghost use Rattle.translation_laws.specs.RoundTrip.{RoundTrips};
ghost use Rattle.translation_laws.specs.Statements.{BodiesHaveRoles, OthersStay, StatementsHaveRoles};

/// A word has the role in a translation that the rule in words gives it: in a statement by its
/// place behind the label and the instruction and by its neighbours; outside of statements it
/// stays.
pub fn law_of_roles()
    ensures statements { StatementsHaveRoles }
    ensures bodies { BodiesHaveRoles }
    ensures others { OthersStay }
{}

/// A right source that was translated to German mnemonics and back has the same tree, with the same
/// lines.
pub fn law_of_round_trip()
    ensures { RoundTrips }
{
    stl_lexer::law_of_tokens();
}
