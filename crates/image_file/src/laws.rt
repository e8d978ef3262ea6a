//! Laws of images: each function does nothing, and its contract is the law.
ghost use Rattle.image_file.specs.Laws.{ImagesAreOfOne, ImagesAreRead, ReadingsAreImages, GivesExactlyImages, KeptIsLeast, VerifiesOrHasFault, FaultsAreOne};
ghost use Rattle.image_file.specs.VerifiedProgram.{OpsAreOfTable, BlocksAreRight, OpsArePlaced, CodeGoesOn, StatementsAreRight, StatementsHaveLines, JumpsLand, ListsLead, BracketsFit, ZonesFit, OperandsFit, PreparedFit, CallsFit, PassedFit, CalledAreThere};

/// Every program has one image of each version and profile, and every byte string is the image of
/// at most one program, version and profile.
pub fn one_program()
    ensures one { ImagesAreOfOne }
    ensures read { ImagesAreRead }
    ensures spelled { ReadingsAreImages }
{}

/// Bytes give a program with no fault exactly where they are its image and it verifies.
pub fn gives_exactly_images()
    ensures { GivesExactlyImages }
{}

/// The fault that one pass keeps is the least of all.
pub fn kept_is_least()
    ensures { KeptIsLeast }
{}

/// A program verifies or has a fault that `verify` tells, and not both; it has one at most.
pub fn verified_or_refused()
    ensures either { VerifiesOrHasFault }
    ensures one { FaultsAreOne }
{}

/// The op that the readers give is the one in its place.
pub fn ops_are_placed()
    ensures { OpsArePlaced }
{}

/// Of a program that verifies each op is one of the table.
pub fn ops_are_of_the_table()
    ensures { OpsAreOfTable }
{}

/// Of a program that verifies each block begins with a statement and no open bracket or zone, and
/// has at most 1,024 local bytes; an organization block has no parameters, and at least 20.
pub fn blocks_are_right()
    ensures { BlocksAreRight }
{}

/// Of a program that verifies each op but the last of a block has a next one, and the last is BE.
pub fn code_goes_on()
    ensures { CodeGoesOn }
{}

/// Of a program that verifies a statement has at most 64 ops, all but the last USEDB or PASS.
pub fn statements_are_right()
    ensures { StatementsAreRight }
{}

/// Of a program that verifies each statement has a source line.
pub fn statements_have_lines()
    ensures { StatementsHaveLines }
{}

/// Of a program that verifies at most seven brackets stand open, one that opens finds room, and `)`
/// finds an open one.
pub fn brackets_fit()
    ensures { BracketsFit }
{}

/// Of a program that verifies at most eight zones stand open, `MCR(` finds room, and `)MCR` finds
/// an open one.
pub fn zones_fit()
    ensures { ZonesFit }
{}

/// Of a program that verifies a jump leads to a statement of its block, where the same brackets and
/// as many zones stand open; behind a JL stand at most 255 JU up to its target.
pub fn jumps_land()
    ensures targets { JumpsLand }
    ensures lists { ListsLead }
{}

/// Of a program that verifies each operand has a width that its instruction has, local places lie
/// within the block's local bytes, and parameters are there.
pub fn operands_fit()
    ensures { OperandsFit }
{}

/// Of a program that verifies USEDB stands before an access to DB, and PASS before a CALL.
pub fn prepared_fit()
    ensures { PreparedFit }
{}

/// Of a program that verifies what is called is there, with what is passed and the instance.
pub fn calls_fit()
    ensures calls { CallsFit }
    ensures passed { PassedFit }
    ensures blocks { CalledAreThere }
{}
