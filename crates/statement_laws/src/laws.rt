//! Laws of statements: each function does nothing, and its contract is the law.
ghost use Rattle.statement_laws.specs.AcceptedStatements.{AcceptedOperandsAreNamed, AcceptedStatementsAct};
ghost use Rattle.statement_laws.specs.Laws.{BitLogicActs, CallsAct, ComparisonsAct, DataBlocksAct, EndsAct, FamiliesAreAll, IdleActs, JumpListsAct, LoadsAct, NumbersAct, OperandsAreNamed, PlainJumpsAct, RelayActs, ShiftsAct, StatementsAreNumbered, TimingActs, VariablesAreNamed};

/// An operand that its instruction takes, and that is no variable, no called block and no lone word
/// but a register's name, names something.
pub fn operands_are_named()
    ensures { OperandsAreNamed }
{}

/// A variable that its instruction takes names something, where no index leaves its array and the
/// parameters of a function are of elementary type.
pub fn variables_are_named()
    ensures { VariablesAreNamed }
{}

/// A statement of bit logic does what its mnemonic says with what its operand names: it reads and
/// checks a bit, a timer, a counter or a condition, opens or closes a bracket, writes a bit, or
/// sets the RLO.
pub fn bit_logic_acts()
    ensures { BitLogicActs }
{}

/// L, T and LC load and transfer what their operand names, and so do the instructions on the
/// address registers.
pub fn load_or_transfer_acts()
    ensures { LoadsAct }
{}

/// Accumulator and number instructions, BCD and conversions, and word logic do to the registers
/// what their mnemonic says, with the constant of their operand where they have one.
pub fn number_instruction_acts()
    ensures { NumbersAct }
{}

/// A comparison compares accumulator 2 with accumulator 1 as its mnemonic says, as integers of 16
/// or of 32 bits.
pub fn comparison_acts()
    ensures { ComparisonsAct }
{}

/// A shift or rotation moves accumulator 1 by as many places as its constant or accumulator 2 says.
pub fn shift_acts()
    ensures { ShiftsAct }
{}

/// The instructions on timers and counters act on the one that their operand names.
pub fn timing_acts()
    ensures { TimingActs }
{}

/// MCRA, MCRD, MCR( and )MCR act on the relay of the block.
pub fn relay_acts()
    ensures { RelayActs }
{}

/// OPN opens the data block that its operand names, CDB exchanges the two registers.
pub fn data_block_acts()
    ensures { DataBlocksAct }
{}

/// NOP and BLD do nothing.
pub fn idle_acts()
    ensures { IdleActs }
{}

/// A jump but JL goes to the statement of its label or on to the next one, as its mnemonic says,
/// and leaves the registers as it says. The number of a statement counts those before it that
/// aren't empty.
pub fn plain_jumps_act()
    ensures { PlainJumpsAct }
{}

/// JL goes to the statement behind it that the lowest byte of accumulator 1 counts, which is a JU in
/// a source that breaks no rule on lists, or to its label.
pub fn jump_lists_act()
    ensures { JumpListsAct }
{}

/// BE and BEU end the block, BEC where the RLO is 1; else it goes on.
pub fn ends_act()
    ensures { EndsAct }
{}

/// CALL, UC, and CC where the RLO is 1 call the block that their operand names, with its instance,
/// and each parameter stands for what is passed for its name.
pub fn calls_act()
    ensures { CallsAct }
{}

/// The code of a block is made of the instructions of its statements but the empty ones, each at
/// the number that counts those before it, and of one that returns behind them.
pub fn statements_are_numbered()
    ensures { StatementsAreNumbered }
{}

/// Each mnemonic but that of the empty statement is of one of the families that the laws speak of.
pub fn families_are_all()
    ensures { FamiliesAreAll }
{}

/// Each statement of each block of a source that breaks no rule names what it acts on: by its
/// operand something, by that of a call the block that it calls, whose parameters are known, and by
/// each actual parameter what is passed.
pub fn accepted_operands_are_named()
    ensures { AcceptedOperandsAreNamed }
{}

/// Each statement of a source that breaks no rule, but the empty ones, does what its mnemonic
/// says with what its operand names: it goes on or is an error, jumps to a label of its body, ends
/// the block, or calls a block with what is passed for its parameters.
pub fn accepted_statements_act()
    ensures { AcceptedStatementsAct }
{}
