ghost use Rattle.std.specs.Prelude.{◌≡◌, true, map, string_bytes, Some};
ghost use Rattle.s7_cli.specs.Asking.{compiles_a_source, has_workers, takes_image};
ghost use Rattle.s7_cli.specs.Words.{KeepsLimits, command_of, command_value};
ghost use Rattle.s7_cli.specs.Ends.{EndsWithStatus, sink_moments};
ghost use Rattle.s7_cli.specs.Reading.{disk_moments};
ghost use Rattle.s7_cli.specs.StatusTable.{StatusTable};

use crate::bound_command::cmd_bound;
use crate::checking::cmd_check;
use crate::compile_command::cmd_compile;
use crate::failures::{ExitStatus, Failure};
use crate::finish::end_command;
use crate::gen_command::cmd_gen;
use crate::going::cmd_go;
use crate::list_command::cmd_list;
use crate::live_command::cmd_live;
use crate::recheck_command::cmd_recheck;
use crate::run_command::cmd_run;
use crate::translate_command::cmd_translate;
use crate::upgrade_command::cmd_upgrade;
use crate::watch_command::cmd_watch;
use crate::words::{AskedCommand, read_call};
use plc_io::{Files, Gate, Sink};
use std::alloc::Global;
use std::sync::Wait;
use std::thread::Threads;

/// Does what is asked for of a source that is compiled.
fn with_source<F: Files, K: Sink>(
    alloc: Global,
    asked: AskedCommand<'_>,
    files: &mut F,
    out: &mut K,
) -> ExitStatus
    requires { compiles_a_source asked ≡ true }
    ensures ends { let went = disk_moments (F.shown files.old) (F.shown files.new) in
        let took = sink_moments (K.shown out.old) (K.shown out.new) in
        EndsWithStatus (Some (command_value asked.entry)) went took result.code }
    ensures table { let went = disk_moments (F.shown files.old) (F.shown files.new) in
        let took = sink_moments (K.shown out.old) (K.shown out.new) in
        StatusTable (Some (command_value asked.entry)) went took result.code }
{
    match asked {
        AskedCommand::Go {
            source,
            symbols,
            german,
            history,
        } => cmd_go(alloc, source, history, symbols, german, files, out),
        AskedCommand::Check {
            source,
            symbols,
            german,
        } => cmd_check(alloc, source, symbols, german, files, out),
        AskedCommand::Compile {
            source,
            symbols,
            german,
            image,
        } => cmd_compile(alloc, source, image, symbols, german, files, out),
        _ => unreachable!(),
    }
}

/// Does what is asked for with an image and no workers.
fn with_image<F: Files, K: Sink>(
    alloc: Global,
    asked: AskedCommand<'_>,
    files: &mut F,
    out: &mut K,
) -> ExitStatus
    requires image { takes_image asked ≡ true }
    requires limits { KeepsLimits (command_value asked) }
    ensures ends { let went = disk_moments (F.shown files.old) (F.shown files.new) in
        let took = sink_moments (K.shown out.old) (K.shown out.new) in
        EndsWithStatus (Some (command_value asked.entry)) went took result.code }
    ensures table { let went = disk_moments (F.shown files.old) (F.shown files.new) in
        let took = sink_moments (K.shown out.old) (K.shown out.new) in
        StatusTable (Some (command_value asked.entry)) went took result.code }
{
    match asked {
        AskedCommand::Run { image, history } => cmd_run(alloc, image, history, files, out),
        AskedCommand::Upgrade { image, upgraded } => cmd_upgrade(
            alloc, image, upgraded, files, out,
        ),
        AskedCommand::ListImage {
            image,
            source,
            symbols,
        } => cmd_list(alloc, image, source, symbols, files, out),
        AskedCommand::Bound { image, certificate } => cmd_bound(
            alloc,
            image,
            certificate,
            files,
            out,
        ),
        AskedCommand::Recheck { image, certificate } => {
            cmd_recheck(alloc, image, certificate, files, out)
        }
        _ => unreachable!(),
    }
}

/// Does what is asked for of workers.
fn with_workers<R: Threads + Wait + Sync, F: Files, K: Sink, G: Gate + Sync>(
    rt: &R,
    alloc: Global,
    asked: AskedCommand<'_>,
    files: &mut F,
    out: &mut K,
    gate: &G,
) -> ExitStatus
    requires workers { has_workers asked ≡ true }
    requires limits { KeepsLimits (command_value asked) }
    ensures ends { let went = disk_moments (F.shown files.old) (F.shown files.new) in
        let took = sink_moments (K.shown out.old) (K.shown out.new) in
        EndsWithStatus (Some (command_value asked.entry)) went took result.code }
    ensures table { let went = disk_moments (F.shown files.old) (F.shown files.new) in
        let took = sink_moments (K.shown out.old) (K.shown out.new) in
        StatusTable (Some (command_value asked.entry)) went took result.code }
{
    match asked {
        AskedCommand::Live {
            image,
            stimuli,
            scripts,
            steps,
        } => cmd_live(
            rt,
            alloc,
            image,
            stimuli,
            scripts.as_slice(),
            steps,
            files,
            out,
            gate,
        ),
        AskedCommand::Watch {
            image,
            stimuli,
            vars,
            scripts,
            steps,
        } => cmd_watch(
            rt,
            alloc,
            image,
            stimuli,
            vars,
            scripts.as_slice(),
            steps,
            files,
            out,
            gate,
        ),
        _ => unreachable!(),
    }
}

/// Does what is asked for.
fn carry_out<R: Threads + Wait + Sync, F: Files, K: Sink, G: Gate + Sync>(
    rt: &R,
    alloc: Global,
    asked: AskedCommand<'_>,
    files: &mut F,
    out: &mut K,
    gate: &G,
) -> ExitStatus
    requires limits { KeepsLimits (command_value asked) }
    ensures ends { let went = disk_moments (F.shown files.old) (F.shown files.new) in
        let took = sink_moments (K.shown out.old) (K.shown out.new) in
        EndsWithStatus (Some (command_value asked.entry)) went took result.code }
    ensures table { let went = disk_moments (F.shown files.old) (F.shown files.new) in
        let took = sink_moments (K.shown out.old) (K.shown out.new) in
        StatusTable (Some (command_value asked.entry)) went took result.code }
{
    match asked {
        AskedCommand::Go { .. } | AskedCommand::Check { .. } | AskedCommand::Compile { .. } => {
            with_source(alloc, asked, files, out)
        }
        AskedCommand::Translate {
            language,
            source,
            translation,
        } => cmd_translate(alloc, language, source, translation, files, out),
        AskedCommand::Run { .. }
        | AskedCommand::Upgrade { .. }
        | AskedCommand::ListImage { .. }
        | AskedCommand::Bound { .. }
        | AskedCommand::Recheck { .. } => with_image(alloc, asked, files, out),
        AskedCommand::Live { .. } | AskedCommand::Watch { .. } => {
            with_workers(rt, alloc, asked, files, out, gate)
        }
        AskedCommand::Gen { number } => cmd_gen(alloc, number, out),
    }
}

/// Does what the words of a call ask for, without the program's name: `go SRC HIST` runs a source
/// along a history, `check SRC` checks a source, `compile SRC IMG` writes its image;
/// `--symbols FILE` gives each of them a file of symbols, and with `--german` the source has German
/// mnemonics and the file German addresses. `english SRC OUT` and `german SRC OUT` translate a
/// source from one to the other. `run IMG HIST` runs an image along a
/// history, `gen NUMBER` a program and a history that are made of a number.
/// `live IMG STIM OPS.. --steps N` has a stepper, a feeder and one to four operators run an image
/// beside each other, each of whom passes `gate` before each entry.
/// `watch IMG STIM VARS OPS.. --steps N` does the same with one to three operators, and a fourth
/// whose replies are viewed beside them. `upgrade IMG IMG2` writes the image of version 2 of what
/// an image holds, `list IMG SRC SYM` a source and a symbols file that compile to its program.
/// `bound IMG CERT` writes the certificate of an image, or tells a chain of calls that is too deep,
/// `recheck IMG CERT` checks a certificate. The status is that of the text that `out` took:
///
/// | Status | When |
/// |---|---|
/// | 0 | done |
/// | 1 | the words are refused |
/// | 2 | the symbols or the source are refused |
/// | 3 | the image is refused |
/// | 4 | the history, the stimuli, the variables, a script or the certificate is refused |
/// | 5 | a file can't be read |
/// | 6 | the sink or an output file couldn't be written |
/// | 7 | memory ran out |
/// | 8 | a file holds a byte past its limit, or a translation or a text of a listing would |
/// | 9 | the listing of the image doesn't compile to its program |
/// | 10 | a chain of calls is too deep, or the certificate doesn't hold |
pub fn s7_main<R: Threads + Wait + Sync, F: Files, K: Sink, G: Gate + Sync>(
    rt: &R,
    alloc: Global,
    words: &[String],
    files: &mut F,
    out: &mut K,
    gate: &G,
) -> ExitStatus
    ensures ends { let went = disk_moments (F.shown files.old) (F.shown files.new) in
        let took = sink_moments (K.shown out.old) (K.shown out.new) in
        EndsWithStatus (command_of (map string_bytes words.now)) went took result.code }
    ensures table { let went = disk_moments (F.shown files.old) (F.shown files.new) in
        let took = sink_moments (K.shown out.old) (K.shown out.new) in
        StatusTable (command_of (map string_bytes words.now)) went took result.code }
{
    match read_call(alloc, words) {
        Ok(Some(asked)) => carry_out(rt, alloc, asked, files, out, gate),
        Ok(None) => end_command(out, Err(Failure::WordsRefused)),
        Err(_) => end_command(out, Err(Failure::NoMemory)),
    }
}
