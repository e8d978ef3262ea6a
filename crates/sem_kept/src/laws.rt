//! Laws of sources and of the programs that are compiled of them: each function does nothing, and its
//! contract is the law.
ghost use Rattle.std.specs.Prelude.{◌≡◌, List};
ghost use Rattle.flat_code.specs.Programs.{CodeBlock};
ghost use Rattle.stl_codegen.specs.CompiledBlock.{SourceInstruction, code_in, lines_in};
ghost use Rattle.sem_kept.specs.Back.{AreCompiled, IsReadBack};
ghost use Rattle.sem_kept.specs.Statements.{ProgramsFollow};
ghost use Rattle.sem_kept.specs.VerifiedBlocks.{VerifiedIsCompilable};
ghost use Rattle.sem_kept.specs.AcceptedSource.{AcceptedVerifies};
ghost use Rattle.sem_kept.specs.KeptProgram.{ProgramsAreKept};
ghost use Rattle.sem_kept.specs.Agreement.{ImagesKeepGermanSources, ImagesKeepSources, ProgramsRun};
ghost use Rattle.sem_kept.specs.Meaning.{
  IsMeaningUnique,
  ExcludesRefusal,
  IsRefusalUnique,
  HasEachSourceOutcome,
  NoFileHasNone,
};
ghost use Rattle.sem_kept.specs.Resumption.{SourcesResume, ImagesResume};
ghost use Rattle.sem_kept.specs.Initial.{InitialValuesAreWhole};
ghost use Rattle.sem_kept.specs.SettledStatements.{StatementsSettle};

/// Of statements that code can be generated for: at the offset of each statement of their block
/// stands the statement that was compiled, with offsets as its targets, and behind the last one none
/// begins.
pub fn compiled_is_read_back()
    ensures { (b : CodeBlock) (statements : List SourceInstruction) → AreCompiled 0 statements
        → b.code ≡ code_in statements → b.lines ≡ lines_in statements
        → IsReadBack b statements }
{
    flat_code::laws::one_number_each();
}

/// The code of a program that is made of statements, for which code can be generated, follows the
/// code of these statements.
pub fn programs_follow()
    ensures { ProgramsFollow }
{
    flat_code::laws::one_number_each();
}

/// Of a source whose program verifies, whatever it is, code can be generated for the statements of
/// each block.
pub fn verified_is_compilable()
    ensures { VerifiedIsCompilable }
{}

/// The program of a source that breaks no rule has an image, and verifies: its records fit their
/// fields, and no op of its blocks has a fault.
pub fn accepted_verifies()
    ensures { AcceptedVerifies }
{}

/// Of a source that breaks no rule no statement comes to the instruction that stands in for what
/// names nothing: each is a jump to a label of its body, a call of a block that is found, or names
/// what its instruction takes. Each actual parameter names what is passed, and a parameter of that
/// block, no two the same one.
pub fn statements_settle()
    ensures { StatementsSettle }
{}

/// Of a source that breaks no rule no initial value is cut: the initial bytes of each data block
/// are zeros over which its initial values and its settings are written, each whole within the
/// block and in no fewer bits than it has. Each setting is written, and no component has more
/// initial values than elements.
pub fn initial_values_are_whole()
    ensures { InitialValuesAreWhole }
{}

/// The code of blocks, for whose statements code can be generated, and that of their program do the
/// same along every history at each profile: they leave the same memory, timers and counters, mode,
/// scheduler and diagnostics, and each entry answers and shows the same.
pub fn programs_are_kept()
    ensures { ProgramsAreKept }
{
    programs_follow();
    controller::laws::positions_move();
}

/// A source with its symbols is checked in one way: it means at most one code, none where it is
/// refused, there is at most one refusal, and each source means a code or is refused. No bytes have
/// no symbols, so they stand for no symbols file.
pub fn law_of_sources()
    ensures no_file { NoFileHasNone }
    ensures one_meaning { IsMeaningUnique }
    ensures meaning_or_refusal { ExcludesRefusal }
    ensures one_refusal { IsRefusalUnique }
    ensures total { HasEachSourceOutcome }
{
    stl_lexer::law_of_tokens();
    stl_parser::law_of_clauses();
}

/// The program of a source that breaks no rule, whose symbols file breaks none either, has an image
/// and verifies, its names are those that the symbols file gives, and at each profile it runs as
/// the source means: no history tells it from the statements of the source.
pub fn programs_run()
    ensures { ProgramsRun }
{
    accepted_verifies();
    verified_is_compilable();
    programs_are_kept();
}

/// Each image of the program of a source that breaks no rule, whose symbols have English addresses,
/// of whatever version and profile, keeps the source with its symbols: it is in the grammar of
/// images and verifies, its names are those that the symbols file gives, and with the sizes of its
/// profile no history tells its program from the statements of the source.
pub fn compiled_is_kept()
    ensures { ImagesKeepSources }
{
    programs_run();
}

/// Each image of the program of a source that breaks no rule, whose symbols have German addresses,
/// keeps the source with its symbols, as `compiled_is_kept` says of English addresses: so it is of
/// the translation of a German source with its symbols file.
pub fn compiled_is_kept_german()
    ensures { ImagesKeepGermanSources }
{
    programs_run();
}

/// Law of resumption over the statements of a source: an activation that is suspended has the same
/// class, registers, delay count and frames after each further entry, up to the one after which it
/// runs again, whatever the entries are, unless STOP ends it.
pub fn resumes_source()
    ensures { SourcesResume }
{
    controller::laws::continues_replay();
}

/// Law of resumption over a loaded program: an activation that is suspended has the same class,
/// registers, delay count and frames after each further entry, up to the one after which it runs
/// again, whatever the entries are, unless STOP ends it.
pub fn resumes_image()
    ensures { ImagesResume }
{
    controller::laws::continues_replay();
}
