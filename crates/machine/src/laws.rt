//! Laws of statements: each function does nothing, and its contract is the law.
ghost use Rattle.std.specs.Prelude.{◌≡◌, ◌≤◌, ◌<◌, ℕ, true, Some, IsSome};
ghost use Rattle.plc_base.specs.declared.blocks.BlockKind.TheVariants as kinds;
ghost use Rattle.plc_base.specs.declared.places.Place.{Place};
ghost use Rattle.plc_base.specs.declared.profiles.Profile.{Profile};
ghost use Rattle.plc_base.specs.declared.places.Width.{Width};
ghost use Rattle.plc_mem.specs.Areas.{Areas};
ghost use Rattle.plc_mem.specs.Fresh.{initial_memory};
ghost use Rattle.plc_mem.specs.Peripherals.{with_input, outputs_cleared};
ghost use Rattle.plc_mem.specs.Refresh.{memory_refreshed};
ghost use Rattle.plc_mem.specs.Writing.{number_written};
ghost use Rattle.status_word.specs.declared.registers.Regs.{Regs};
ghost use Rattle.frames.specs.Activations.{activation_begun, with_local_byte};
ghost use Rattle.frames.specs.declared.activation.Activation.{Activation};
ghost use Rattle.frames.specs.declared.bindings.Binding.{Binding};
ghost use Rattle.flat_code.specs.Programs.{Program};
ghost use Rattle.flat_code.specs.Loading.{Verifies};
ghost use Rattle.machine.specs.declared.outcomes.Outcome.{Outcome};
ghost use Rattle.machine.specs.Code.{Code, BlockHead};
ghost use Rattle.machine.specs.Fitting.{SameSizes, IsMemoryOf};
ghost use Rattle.machine.specs.Flat.{code_of};
ghost use Rattle.machine.specs.ImageLaws.{ImageLaws};
ghost use Rattle.machine.specs.Lasting.{FitsProgram, GoesOnFitting, IsStatementReady, StepFitsAgain, LeavesFit, first_frame, ob_block};
ghost use Rattle.machine.specs.Results.{GivesResult};
ghost use Rattle.machine.specs.Statement.{GlobalStore, step_found, statement_step, IsNotStuck, IsOutcomeOf};
ghost use Rattle.machine.specs.MovedCode.{StatementsMove};
ghost use Rattle.machine.specs.There.{is_statement_complete};

/// A statement that is there with what it calls, and at a return with the head of its own block, isn't
/// stuck.
pub fn what_is_there_goes()
    ensures { (c : Code) (a : Activation) (w : GlobalStore)
        → is_statement_complete c (c.fetch a.running.frame.block a.running.frame.at)
        a.running.frame.block
        ≡ true
        → IsNotStuck (step_found c (c.fetch a.running.frame.block a.running.frame.at) a w) }
{}

// What verifying gives the laws below.
fn what_verifying_gives()
    ensures { ImageLaws }
{
    image_file::laws::ops_are_placed();
    image_file::laws::ops_are_of_the_table();
    image_file::laws::blocks_are_right();
    image_file::laws::code_goes_on();
    image_file::laws::statements_are_right();
    image_file::laws::statements_have_lines();
    image_file::laws::brackets_fit();
    image_file::laws::zones_fit();
    image_file::laws::jumps_land();
    image_file::laws::operands_fit();
    image_file::laws::prepared_fit();
    image_file::laws::calls_fit();
}

/// Of a program that verifies an activation that fits is ready: `statement` may be called.
pub fn what_fits_goes()
    ensures { (p : Program) (m : Areas) (a : Activation)
        → Verifies p → FitsProgram p m a → IsStatementReady (code_of p) a }
{
    what_verifying_gives();
}

/// Of a program that verifies an activation that fits does so again after each statement, whatever
/// comes of it, or has ended and memory keeps its sizes: by the statement's meaning, and by what a call
/// of `statement` answers.
pub fn what_fits_lasts()
    ensures step { (p : Program) (a : Activation) (w : GlobalStore)
        → Verifies p → FitsProgram p w.memory a
        → StepFitsAgain p w (statement_step (code_of p) a w) }
    ensures answer { (p : Program) (old new : Activation) (w after : GlobalStore) (answer : Outcome)
        → Verifies p → FitsProgram p w.memory old
        → IsOutcomeOf (statement_step (code_of p) old w) old new w after answer
        → LeavesFit p w.memory after.memory new answer }
{
    what_verifying_gives();
}

/// Where memory keeps its sizes, an activation fits as before: so do those that wait.
pub fn what_fits_stays()
    ensures { (p : Program) (m n : Areas) (a : Activation)
        → SameSizes m n → FitsProgram p m a → FitsProgram p n a }
{}

/// Of a program that verifies an organization block begins with an activation that fits, and has
/// room for its start information in its first 20 local bytes.
pub fn blocks_begin()
    ensures fits { (f : Profile) (p : Program) (m : Areas) (class ob : ℕ) (h : BlockHead)
        → Verifies p → IsMemoryOf (code_of p) m → (code_of p).head (ob_block ob) ≡ Some h
        → FitsProgram p m (activation_begun f class ob (first_frame ob h.local_len)) }
    ensures room { (p : Program) (ob : ℕ) (h : BlockHead)
        → Verifies p → (code_of p).head (ob_block ob) ≡ Some h → h.local_len ≤ 1024 }
    ensures start { (f : Profile) (p : Program) (class ob byte value : ℕ) (h : BlockHead)
        → Verifies p → (code_of p).head (ob_block ob) ≡ Some h → byte < 20
        → IsSome (with_local_byte 0 byte value
        (activation_begun f class ob (first_frame ob h.local_len))) }
{
    what_verifying_gives();
}

/// With other registers, another delay or another local byte an activation fits as before.
pub fn what_fits_may_change()
    ensures registers { (p : Program) (m : Areas) (a : Activation) (r : Regs)
        → FitsProgram p m a
        → FitsProgram p m (record a { running = record a.running { regs = r } }) }
    ensures delay { (p : Program) (m : Areas) (a : Activation) (n : ℕ)
        → FitsProgram p m a → FitsProgram p m (record a { delay = n }) }
    ensures local_byte { (p : Program) (m : Areas) (a b : Activation) (frame byte value : ℕ)
        → with_local_byte frame byte value a ≡ Some b → FitsProgram p m a
        → FitsProgram p m b }
{}

/// Of a program that verifies an activation that fits does so again after RET_VAL was given.
pub fn results_fit()
    ensures { (p : Program) (m n : Areas) (a b : Activation) (to : Binding) (value : ℕ)
        → Verifies p → FitsProgram p m a → GivesResult to value a b m n
        → GoesOnFitting p m n b }
{
    what_verifying_gives();
}

/// Memory begins as one of the program, and no write, input, clearing of the outputs or update of the
/// images changes a size.
pub fn memory_is_kept()
    ensures begins { (f : Profile) (p : Program)
        → IsMemoryOf (code_of p) (initial_memory f (code_of p).blocks) }
    ensures writes { (m n : Areas) (place : Place) (width : Width) (value : ℕ)
        → number_written m place width value ≡ Some n → SameSizes m n }
    ensures inputs { (m n : Areas) (byte value : ℕ)
        → with_input m byte value ≡ Some n → SameSizes m n }
    ensures clears { (p : Program) (m : Areas)
        → IsMemoryOf (code_of p) m → SameSizes m (outputs_cleared m) }
    ensures refreshes { (p : Program) (m : Areas)
        → IsMemoryOf (code_of p) m → SameSizes m (memory_refreshed m) }
{}

/// In a code that follows another a statement does the same, at the position there: only positions
/// differ.
#[tactic(auto, using(crate::proofs::MovedLemmas::statements_move))]
pub fn statements_move()
    ensures { StatementsMove }
{}
