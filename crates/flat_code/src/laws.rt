//! Laws of the coding of ops: each function does nothing, and its contract is the law.
ghost use Rattle.flat_code.specs.Laws.{OpsAreReadAgain, OpsAreSpelledSo, OperationsHaveTheirCodes, CodesHaveTheirOperations, JumpsHaveTheirKinds, ConditionsHaveTheirNumbers, ProgramsHaveNames};

/// What is spelled is read again, whatever follows; what is read is an op, and is spelled so.
pub fn one_coding()
    ensures again { OpsAreReadAgain }
    ensures spelled { OpsAreSpelledSo }
{}

/// Each operation stands in the table of op codes at its own, each jump at its kind and each
/// condition at its number: no two share one. The table has nothing else: each of its cells is
/// empty or stands at its own code.
pub fn one_number_each()
    ensures operations { OperationsHaveTheirCodes }
    ensures codes { CodesHaveTheirOperations }
    ensures jumps { JumpsHaveTheirKinds }
    ensures conditions { ConditionsHaveTheirNumbers }
{}

/// What a program's type keeps of its names is what `Names` keeps.
pub fn names_in_order()
    ensures { ProgramsHaveNames }
{}
