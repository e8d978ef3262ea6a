ghost use Rattle.std.specs.Prelude.{◌≡◌, ◌≢◌, ◌≤◌, false, true, length, IfOk, IfErr};
ghost use Rattle.stl_ast.specs.Literals.{AreBytes};
ghost use Rattle.stl_symbols.specs.Symbols.{symbols_limit};
ghost use Rattle.flat_code.specs.Image.{IsProgram, image};
ghost use Rattle.flat_code.specs.declared.stamps.Stamp.TheVariants.{Two};
ghost use Rattle.plc_base.specs.declared.Profile.TheVariants.{Large};
ghost use Rattle.plc_base.specs.Least.{least};
ghost use Rattle.stl_lexer.specs.Limits.{source_limit};
ghost use Rattle.stl_types.specs.Table.{statement_refusals};
ghost use Rattle.block_layout.specs.Table.{layout_refusals};
ghost use Rattle.sem_kept.specs.Agreement.{AreFiles, IsRunnable, KeepsSource};
ghost use Rattle.sem_kept.specs.Compiles.{CompilesTo, IsProgramUnique};
ghost use Rattle.sem_kept.specs.Meaning.{HasSymbolsIn, HasTokens, HasTreeOrRefusal, IsSound};
ghost use Rattle.plc_base.specs.declared.refusals.SourceFault.TheVariants.{NoMemory};
ghost use Rattle.sem_kept.specs.Stages.{HaveOutcomeInTurn};
ghost use Rattle.stl_symbols.specs.declared.languages.Language.TheVariants.{English};
ghost use Rattle.s7_cli.specs.declared.faults.CompileFault.TheVariants as compiling;
ghost use Rattle.s7_cli.specs.Compiling.{
  AreRead,
  CompilesWith,
  MakesOrRefuses,
  HasProgram,
  HasProgramWith,
  IsImageOfEnglishSource,
  IsSourceLaidOut,
  KeepsWith,
  LaysOutTree,
  RefusedHaveNone,
  RefusesEnglish,
  RefusesLaid,
  RefusesSymbols,
  RefusesForSymbols,
};

use crate::faults::{CompileFault, fault_in_source, fault_in_symbols};
use block_layout::{Layouts, lay_out, lay_out_sound};
use flat_code::Program;
use image_file::{Loaded, VerifyError, verify, write_image2};
use plc_base::{NoMemory, Profile, Refusal, SourceFault, lesser};
use std::alloc::{AllocError, Global};
use stl_ast::Tree;
use stl_codegen::generate;
use stl_lexer::lex;
use stl_parser::parse;
use stl_symbols::{Language, Symbols, read_symbols, read_symbols_german};
use stl_types::{CheckedSource, check};

/// A source that breaks no rule on its symbols, tokens, clauses and layout.
#[derive(Drop)]
struct LaidSource {
    symbols: Symbols,
    tree: Tree,
    layouts: Layouts,
}

/// The symbols of a symbols file with addresses in a language.
fn read_symbols_in(
    alloc: Global,
    language: Language,
    symbols: &[u8],
) -> Result<Symbols, SourceFault>
    requires { length symbols.now ≤ symbols_limit }
    ensures { MakesOrRefuses (HasSymbolsIn language symbols.now) result }
{
    let list = match language {
        Language::English => read_symbols(alloc, symbols)?,
        Language::German => read_symbols_german(alloc, symbols)?,
    };
    Ok(list)
}

/// The symbols of a symbols file with addresses in a language, for a source whose symbols they are.
pub(crate) fn symbols_for_source(
    alloc: Global,
    language: Language,
    symbols: &[u8],
) -> Result<Symbols, CompileFault>
    requires { length symbols.now ≤ symbols_limit }
    ensures ok { IfOk result (λ list. HasSymbolsIn language symbols.now (Ok list)) }
    ensures refused { IfErr result (RefusesSymbols language symbols.now) }
{
    match read_symbols_in(alloc, language, symbols) {
        Ok(list) => Ok(list),
        Err(fault) => Err(fault_in_symbols(fault)),
    }
}

/// The tree of a source.
fn tree_of(alloc: Global, source: &[u8]) -> Result<Tree, SourceFault>
    requires { length source.now ≤ source_limit }
    ensures { MakesOrRefuses (HaveOutcomeInTurn HasTokens (HasTreeOrRefusal source.now) source.now)
        result }
{
    let tokens = lex(alloc, source)?;
    let tree = parse(alloc, &tokens)?;
    Ok(tree)
}

/// The least rule on statements that a tree breaks, if it breaks one.
fn refusal_of_statements(
    alloc: Global,
    tree: &Tree,
    symbols: &Symbols,
    layouts: &Layouts,
) -> Result<Option<Refusal>, SourceFault>
    ensures found { IfOk result (λ r.
        r ≡ least (statement_refusals tree.now symbols.now layouts.now)) }
    ensures memory { IfErr result (λ e. e ≡ NoMemory) }
{
    match check(alloc, tree, symbols, layouts) {
        Ok(_checked) => Ok(None),
        Err(SourceFault::Refused { refusal }) => Ok(Some(refusal)),
        Err(SourceFault::NoMemory) => Err(SourceFault::NoMemory),
    }
}

/// The least refusal of a tree that breaks a rule on its layout. The statements are checked with
/// all that breaks none.
fn least_refusal_of_tree(
    alloc: Global,
    tree: &Tree,
    symbols: &Symbols,
    refusal: Refusal,
) -> Result<Refusal, SourceFault>
    requires { least (layout_refusals tree.now symbols.now) ≡ Some refusal }
    ensures found { IfOk result (λ r. IsSound symbols.now tree.now (Err r)) }
    ensures memory { IfErr result (λ e. e ≡ NoMemory) }
{
    let layouts = lay_out_sound(alloc, tree, symbols)?;
    let other = refusal_of_statements(alloc, tree, symbols, &layouts)?;
    Ok(lesser(Some(refusal), other).unwrap_or(refusal))
}

/// The layouts of a tree that breaks no rule on them.
fn layouts_of_tree(alloc: Global, tree: &Tree, symbols: &Symbols) -> Result<Layouts, SourceFault>
    ensures { LaysOutTree symbols.now tree.now result }
{
    match lay_out(alloc, tree, symbols) {
        Ok(layouts) => Ok(layouts),
        Err(SourceFault::Refused { refusal }) => {
            let least = least_refusal_of_tree(alloc, tree, symbols, refusal)?;
            Err(SourceFault::Refused { refusal: least })
        }
        Err(SourceFault::NoMemory) => Err(SourceFault::NoMemory),
    }
}

/// Lays out a source with these symbols. The tokens of the source are checked first, then its
/// clauses, and its layout. Where a rule on the layout is broken, the refusal is the least one of
/// these rules and of those on statements.
fn laid_source(alloc: Global, source: &[u8], symbols: Symbols) -> Result<LaidSource, CompileFault>
    requires { length source.now ≤ source_limit }
    ensures laid { IfOk result (IsSourceLaidOut source.now) }
    ensures symbols { IfOk result (λ laid. laid.symbols ≡ symbols) }
    ensures refused { IfErr result (RefusesForSymbols source.now symbols) }
{
    let tree = match tree_of(alloc, source) {
        Ok(tree) => tree,
        Err(fault) => return Err(fault_in_source(fault)),
    };
    match layouts_of_tree(alloc, &tree, &symbols) {
        Ok(layouts) => Ok(LaidSource {
            symbols,
            tree,
            layouts,
        }),
        Err(fault) => Err(fault_in_source(fault)),
    }
}

/// A source that is laid out, with its statements checked.
fn checked_of<'a>(alloc: Global, laid: &'a LaidSource) -> Result<CheckedSource<'a>, CompileFault>
    ensures tree { IfOk result (λ checked. checked ≡ laid.now.tree) }
    ensures sound { IfOk result (λ checked.
        least (statement_refusals laid.now.tree laid.now.symbols laid.now.layouts) ≡ None) }
    ensures refused { IfErr result (RefusesLaid laid.now) }
{
    match check(alloc, &laid.tree, &laid.symbols, &laid.layouts) {
        Ok(checked) => Ok(checked),
        Err(fault) => Err(fault_in_source(fault)),
    }
}

/// A program that runs, verified, with the large profile.
pub(crate) fn loaded_large(alloc: Global, program: Program) -> Result<Loaded, AllocError>
    requires { IsRunnable program }
    ensures program { IfOk result (λ l. l.program ≡ program) }
    ensures large { IfOk result (λ l. l.profile ≡ Large) }
{
    image_file::laws::verified_or_refused();
    match verify(alloc, program) {
        Ok(loaded) => Ok(loaded.with_profile(Profile::Large)),
        Err(VerifyError::Fault { fault: _ }) => unreachable!(),
        Err(VerifyError::NoMemory) => Err(AllocError),
    }
}

/// A law: what a slice holds are bytes.
fn law_of_bytes(bytes: &[u8])
    ensures { AreBytes bytes.now }
{}

/// A law: what is known of a source and a symbols file that are read.
pub(crate) fn law_of_files(source: &[u8], symbols: &[u8])
    requires source { length source.now ≤ source_limit }
    requires symbols { length symbols.now ≤ symbols_limit }
    ensures { AreFiles source.now symbols.now }
{
    law_of_bytes(source);
    law_of_bytes(symbols);
}

/// Checks a source with symbols that were read, in either language. No program is made: that a
/// source which breaks no rule has one that verifies and runs as it means is proved.
pub(crate) fn check_source_with(
    alloc: Global,
    source: &[u8],
    symbols: Symbols,
) -> Result<(), CompileFault>
    requires { length source.now ≤ source_limit }
    ensures ok { IfOk result (λ done. HasProgramWith source.now symbols) }
    ensures refused { IfErr result (RefusesForSymbols source.now symbols) }
{
    sem_kept::laws::programs_run();
    let laid = laid_source(alloc, source, symbols)?;
    let _checked = checked_of(alloc, &laid)?;
    Ok(())
}

/// The program of a source with symbols that were read, in either language.
pub(crate) fn program_with_symbols(
    alloc: Global,
    source: &[u8],
    symbols: Symbols,
) -> Result<Program, CompileFault>
    requires source { length source.now ≤ source_limit }
    requires read { AreRead source.now symbols }
    ensures ok { IfOk result (KeepsWith source.now symbols) }
    ensures compiles { IfOk result (CompilesWith source.now symbols) }
    ensures refused { IfErr result (RefusesForSymbols source.now symbols) }
{
    sem_kept::laws::programs_run();
    let laid = laid_source(alloc, source, symbols)?;
    let checked = checked_of(alloc, &laid)?;
    Ok(generate(alloc, &checked, &laid.layouts, &laid.symbols)?)
}

/// Checks a source of at most 1,048,576 bytes with its symbols file, which has at most as many (no
/// file: no bytes), by the rules of `compiled`.
///
/// # Errors
///
/// Those of `compiled`: `Symbols` or `Source` with the refusal exactly where the symbols file or
/// the source with these symbols is refused; or `NoMemory`.
pub fn check_source(alloc: Global, source: &[u8], symbols: &[u8]) -> Result<(), CompileFault>
    requires source { length source.now ≤ source_limit }
    requires symbols { length symbols.now ≤ symbols_limit }
    ensures ok { IfOk result (λ done.
        HasProgram source.now symbols.now) }
    ensures refused { IfErr result
        (RefusesEnglish source.now symbols.now) }
{
    law_of_files(source, symbols);
    let list = symbols_for_source(alloc, Language::English, symbols)?;
    check_source_with(alloc, source, list)
}

/// The program of a source with its symbols.
fn program_of_source(alloc: Global, source: &[u8], symbols: &[u8]) -> Result<Program, CompileFault>
    requires source { length source.now ≤ source_limit }
    requires symbols { length symbols.now ≤ symbols_limit }
    ensures ok { IfOk result (KeepsSource Large source.now symbols.now) }
    ensures compiles { IfOk result (CompilesTo English source.now symbols.now) }
    ensures refused { IfErr result
        (RefusesEnglish source.now symbols.now) }
{
    law_of_files(source, symbols);
    let list = symbols_for_source(alloc, Language::English, symbols)?;
    program_with_symbols(alloc, source, list)
}

/// Compiles a source of at most 1,048,576 bytes with its symbols file, which has at most as many
/// (no file: no bytes), into a loaded program that runs as it means and has the names of its
/// symbols. The symbols are checked first, then the tokens of the source, its clauses, and its
/// layout together with its statements. It has the large profile. `load` gives this program, with
/// this profile, for the image that `compiled_image` gives.
///
/// # Errors
///
/// `Symbols` or `Source` with the refusal exactly where the symbols file or the source with these
/// symbols is refused; or `NoMemory`.
pub fn compiled(alloc: Global, source: &[u8], symbols: &[u8]) -> Result<Loaded, CompileFault>
    requires source { length source.now ≤ source_limit }
    requires symbols { length symbols.now ≤ symbols_limit }
    ensures ok { IfOk result (λ l. KeepsSource Large source.now symbols.now l.program) }
    ensures program { IfOk result (λ l. CompilesTo English source.now symbols.now l.program) }
    ensures large { IfOk result (λ l. l.profile ≡ Large) }
    ensures image { IfOk result
        (λ l. IsImageOfEnglishSource (image (Two l.profile) l.program) source.now symbols.now) }
    ensures refused { IfErr result
        (RefusesEnglish source.now symbols.now) }
{
    law_of_files(source, symbols);
    let program = program_of_source(alloc, source, symbols)?;
    Ok(loaded_large(alloc, program)?)
}

/// Compiles a source with its symbols file, by the rules of `compiled`, into the image of its
/// program: one of version 2 for the large profile.
///
/// # Errors
///
/// Those of `compiled`: `Symbols` or `Source` with the refusal exactly where the symbols file or
/// the source with these symbols is refused; or `NoMemory`.
pub fn compiled_image(alloc: Global, source: &[u8], symbols: &[u8]) -> Result<Vec<u8>, CompileFault>
    requires source { length source.now ≤ source_limit }
    requires symbols { length symbols.now ≤ symbols_limit }
    ensures ok { IfOk result (λ v. IsImageOfEnglishSource v.items source.now symbols.now) }
    ensures refused { IfErr result
        (RefusesEnglish source.now symbols.now) }
{
    law_of_files(source, symbols);
    let program = program_of_source(alloc, source, symbols)?;
    Ok(write_image2(alloc, &program, Profile::Large)?)
}

/// A law: a source with its symbols compiles to one program at most, and to none where it is
/// refused.
pub(crate) fn law_of_programs()
    ensures one { IsProgramUnique }
    ensures refused { RefusedHaveNone }
{
    stl_lexer::law_of_tokens();
    stl_parser::law_of_clauses();
    sem_kept::laws::law_of_sources();
}

/// Whether two programs are the same: their images are.
fn is_same_program(alloc: Global, program: &Program, loaded: &Loaded) -> Result<bool, NoMemory>
    requires program { IsProgram program.now }
    requires loaded { IsProgram loaded.now.program }
    ensures same { IfOk result (λ same. same ≡ true → program.now ≡ loaded.now.program) }
    ensures other { IfOk result (λ same. program.now ≡ loaded.now.program → same ≡ true) }
{
    image_file::laws::one_program();
    let other = loaded.program(alloc)?;
    let image = write_image2(alloc, program, Profile::Large)?;
    let wanted = write_image2(alloc, &other, Profile::Large)?;
    Ok(image.as_slice() == wanted.as_slice())
}

/// A source that is refused compiles to no program; want of memory tells nothing of it.
fn no_program(fault: &CompileFault) -> Result<bool, NoMemory>
    ensures { IfOk result (λ yes. (yes ≡ false) × (fault.now ≢ compiling.NoMemory)) }
{
    match fault {
        CompileFault::NoMemory => Err(AllocError),
        _ => Ok(false),
    }
}

/// Whether a source of at most 1,048,576 bytes with its symbols file, which has at most as many, is
/// accepted by the rules of `compiled` and compiles to this program, with these names. Fails where
/// memory is wanting.
pub fn compiles_to(
    alloc: Global,
    source: &[u8],
    symbols: &[u8],
    loaded: &Loaded,
) -> Result<bool, NoMemory>
    requires source { length source.now ≤ source_limit }
    requires symbols { length symbols.now ≤ symbols_limit }
    requires program { IsProgram loaded.now.program }
    ensures yes { IfOk result (λ yes. yes ≡ true
        → CompilesTo English source.now symbols.now loaded.now.program) }
    ensures no { IfOk result (λ yes. CompilesTo English source.now symbols.now loaded.now.program
        → yes ≡ true) }
{
    law_of_programs();
    match program_of_source(alloc, source, symbols) {
        Ok(program) => is_same_program(alloc, &program, loaded),
        Err(fault) => no_program(&fault),
    }
}
