ghost use Rattle.std.specs.Prelude.{◌≡◌, ◌≢◌, false, map, string_bytes, option_map, IfOk, None};
ghost use Rattle.clap.specs.Words.{FailsBy, app_of, fault_of, found_of, kind_of, matches_of, rows_of, rule_of};
ghost use Rattle.clap.specs.declared.error.kind.ErrorKind.TheVariants.{OutOfMemory};
ghost use Rattle.s7_cli.specs.Words.{the_line, command_rule, files_rule, symbols_rule, steps_rule, german_rule, has_german, takes_no_source, number_from_one_up_to, one_word_command, file_command, two_word_command, short_command, three_word_command, live_command_by, stepped_command, watch_command_by, command_with_options, command_of_rows, command_of, command_value, CommandsKeepLimits, ReadsPlainWords, ReadsGermanAnywhere, ReadsStepsAnywhere, ReadsSymbolsAnywhere, ReadsWordsBehindDashes, RefusesNoValue};

use arrayvec::ArrayVec;
use clap::error::ErrorKind;
use clap::{Arg, ArgAction, ArgMatches, Command, Error};
use plc_base::decimal_up_to;
use std::alloc::{AllocError, Global};
use stl_symbols::Language;

/// The greatest number that a program is made of.
const MOST_NUMBER: u32 = 10_000;

/// The most steps of a live run.
const MOST_LIVE_STEPS: u32 = 1_000_000;

/// The most operators of a live run.
const MOST_SCRIPTS: usize = 4;

/// The most operators with scripts of a watch.
const MOST_WATCH_SCRIPTS: usize = 3;

/// What the words of a call ask for.
#[derive(Drop)]
pub enum AskedCommand<'a> {
    /// Run a source, with its symbols, along a history; a German one where `german` says so.
    Go {
        source: &'a str,
        symbols: Option<&'a str>,
        german: bool,
        history: &'a str,
    },
    /// Check a source, with its symbols.
    Check {
        source: &'a str,
        symbols: Option<&'a str>,
        german: bool,
    },
    /// Write the image of a source, with its symbols.
    Compile {
        source: &'a str,
        symbols: Option<&'a str>,
        german: bool,
        image: &'a str,
    },
    /// Write a source in the other language.
    Translate {
        language: Language,
        source: &'a str,
        translation: &'a str,
    },
    /// Run an image along a history.
    Run {
        image: &'a str,
        history: &'a str,
    },
    /// Run the program and the history that are made of a number, 1 to 10,000.
    Gen {
        number: u32,
    },
    /// Have a stepper, a feeder and one to four operators run an image: 1 to 1,000,000 steps, the
    /// stimuli, and a script for each operator.
    Live {
        image: &'a str,
        stimuli: &'a str,
        scripts: ArrayVec<&'a str, MOST_SCRIPTS>,
        steps: u32,
    },
    /// Have a stepper, a feeder and one to three operators run an image, as `Live` does, and a
    /// further operator who reads variables, whose replies are viewed.
    Watch {
        image: &'a str,
        stimuli: &'a str,
        vars: &'a str,
        scripts: ArrayVec<&'a str, MOST_WATCH_SCRIPTS>,
        steps: u32,
    },
    /// Write an image once more, in version 2.
    Upgrade {
        image: &'a str,
        upgraded: &'a str,
    },
    /// Write the source and the symbols file of what an image holds, to two files.
    ListImage {
        image: &'a str,
        source: &'a str,
        symbols: &'a str,
    },
    /// Write the certificate of an image.
    Bound {
        image: &'a str,
        certificate: &'a str,
    },
    /// Check a certificate of an image.
    Recheck {
        image: &'a str,
        certificate: &'a str,
    },
}

/// The word that names the command.
fn command_word<'a>(alloc: Global) -> Arg<'a>
    ensures rule { rule_of result ≡ command_rule }
    ensures local { result.global ≡ false }
{
    Arg::new(alloc, "COMMAND")
        .required(true)
        .action(ArgAction::Set)
}

/// The words that name files, as many as there are.
fn file_words<'a>(alloc: Global) -> Arg<'a>
    ensures rule { rule_of result ≡ files_rule }
    ensures local { result.global ≡ false }
{
    Arg::new(alloc, "FILES")
        .num_args(0..)
        .action(ArgAction::Append)
}

/// The option `--symbols`.
fn symbols_option<'a>(alloc: Global) -> Arg<'a>
    ensures rule { rule_of result ≡ symbols_rule }
    ensures local { result.global ≡ false }
{
    Arg::new(alloc, "symbols")
        .long("symbols")
        .action(ArgAction::Set)
}

/// The option `--steps`.
fn steps_option<'a>(alloc: Global) -> Arg<'a>
    ensures rule { rule_of result ≡ steps_rule }
    ensures local { result.global ≡ false }
{
    Arg::new(alloc, "steps")
        .long("steps")
        .action(ArgAction::Set)
}

/// The flag `--german`.
fn german_flag<'a>(alloc: Global) -> Arg<'a>
    ensures rule { rule_of result ≡ german_rule }
    ensures local { result.global ≡ false }
{
    Arg::new(alloc, "german")
        .long("german")
        .action(ArgAction::SetTrue)
}

/// The command line, for words without the program's name.
fn command_line<'a>(alloc: Global) -> Result<Command<'a>, AllocError>
    ensures { IfOk result (λ line. app_of line ≡ the_line) }
{
    Command::new(alloc, "s7")
        .no_binary_name(true)
        .arg(command_word(alloc))?
        .arg(file_words(alloc))?
        .arg(symbols_option(alloc))?
        .arg(steps_option(alloc))?
        .arg(german_flag(alloc))
}

/// What is found in the words.
fn find_matches<'a>(alloc: Global, words: &'a [String]) -> Result<ArgMatches<'a>, Error>
    ensures fails { FailsBy (fault_of the_line (map string_bytes words.now)) result }
    ensures finds { IfOk result
        (λ found. rows_of (found_of found) ≡ matches_of the_line (map string_bytes words.now)) }
{
    let line = command_line(alloc)?;
    line.try_get_matches_from(words)
}

/// The number that a word writes in decimal digits, from 1 to `most`.
fn number_from_one_up_to(word: &str, most: u32) -> Option<u32>
    ensures { result ≡ number_from_one_up_to most word.now }
{
    let number = decimal_up_to(word.as_bytes(), most)?;
    (number > 0).then_some(number)
}

/// Whether there is no option of a command that compiles a source.
fn takes_no_source(symbols: Option<&str>, german: bool) -> bool
    ensures { result ≡ takes_no_source (option_map (λ s. s.now) symbols.entry) german }
{
    symbols.is_none() && !german
}

/// The command with one word behind it.
fn one_word_command<'a>(
    command: &str,
    word: &'a str,
    symbols: Option<&'a str>,
    german: bool,
) -> Option<AskedCommand<'a>>
    ensures { option_map command_value result ≡
        one_word_command command.now word.now (option_map (λ s. s.now) symbols.entry) german }
{
    match command {
        "check" => Some(AskedCommand::Check {
            source: word,
            symbols,
            german,
        }),
        "gen" if takes_no_source(symbols, german) => Some(AskedCommand::Gen {
            number: number_from_one_up_to(word, MOST_NUMBER)?,
        }),
        _ => None,
    }
}

/// A command that compiles no source, with two words behind it.
fn file_command<'a>(command: &str, first: &'a str, second: &'a str) -> Option<AskedCommand<'a>>
    ensures { option_map command_value result ≡
        file_command command.now first.now second.now }
{
    match command {
        "run" => Some(AskedCommand::Run {
            image: first,
            history: second,
        }),
        "upgrade" => Some(AskedCommand::Upgrade {
            image: first,
            upgraded: second,
        }),
        "bound" => Some(AskedCommand::Bound {
            image: first,
            certificate: second,
        }),
        "recheck" => Some(AskedCommand::Recheck {
            image: first,
            certificate: second,
        }),
        "english" => Some(AskedCommand::Translate {
            language: Language::English,
            source: first,
            translation: second,
        }),
        "german" => Some(AskedCommand::Translate {
            language: Language::German,
            source: first,
            translation: second,
        }),
        _ => None,
    }
}

/// The command with two words behind it.
fn two_word_command<'a>(
    command: &str,
    first: &'a str,
    second: &'a str,
    symbols: Option<&'a str>,
    german: bool,
) -> Option<AskedCommand<'a>>
    ensures { option_map command_value result ≡
        two_word_command command.now first.now second.now (option_map (λ s. s.now) symbols.entry)
        german }
{
    match command {
        "go" => Some(AskedCommand::Go {
            source: first,
            symbols,
            german,
            history: second,
        }),
        "compile" => Some(AskedCommand::Compile {
            source: first,
            symbols,
            german,
            image: second,
        }),
        _ if takes_no_source(symbols, german) => file_command(command, first, second),
        _ => None,
    }
}

/// The command with three words behind it. The files that `list` writes are different ones.
fn three_word_command<'a>(
    command: &str,
    first: &'a str,
    second: &'a str,
    third: &'a str,
    symbols: Option<&'a str>,
    german: bool,
) -> Option<AskedCommand<'a>>
    ensures { option_map command_value result ≡
        three_word_command command.now first.now second.now third.now
        (option_map (λ s. s.now) symbols.entry) german }
{
    match command {
        "list" if takes_no_source(symbols, german) && second != third => Some(
            AskedCommand::ListImage {
                image: first,
                source: second,
                symbols: third,
            },
        ),
        _ => None,
    }
}

/// The command with one word, two or three behind it.
fn short_command<'a>(
    command: &str,
    words: &[&'a str],
    symbols: Option<&'a str>,
    german: bool,
) -> Option<AskedCommand<'a>>
    ensures { option_map command_value result ≡
        short_command command.now (map (λ w. w.now) words.now)
        (option_map (λ s. s.now) symbols.entry) german }
{
    match words {
        [word] => one_word_command(command, word, symbols, german),
        [first, second] => two_word_command(command, first, second, symbols, german),
        [first, second, third] => {
            three_word_command(command, first, second, third, symbols, german)
        }
        _ => None,
    }
}

/// The command `live`, with these words behind it and so many steps.
fn live_command_by<'a>(command: &str, words: &[&'a str], steps: &str) -> Option<AskedCommand<'a>>
    ensures { option_map command_value result ≡
        live_command_by command.now (map (λ w. w.now) words.now) steps.now }
{
    match words {
        [image, stimuli, scripts @ ..] if command == "live" && !scripts.is_empty() => {
            Some(AskedCommand::Live {
                image,
                stimuli,
                scripts: ArrayVec::try_from(scripts).ok()?,
                steps: number_from_one_up_to(steps, MOST_LIVE_STEPS)?,
            })
        }
        _ => None,
    }
}

/// The command `watch`, with these words behind it and so many steps.
fn watch_command_by<'a>(words: &[&'a str], steps: &str) -> Option<AskedCommand<'a>>
    ensures { option_map command_value result ≡
        watch_command_by (map (λ w. w.now) words.now) steps.now }
{
    match words {
        [image, stimuli, vars, scripts @ ..] if !scripts.is_empty() => Some(AskedCommand::Watch {
            image,
            stimuli,
            vars,
            scripts: ArrayVec::try_from(scripts).ok()?,
            steps: number_from_one_up_to(steps, MOST_LIVE_STEPS)?,
        }),
        _ => None,
    }
}

/// A command with so many steps.
fn stepped_command<'a>(command: &str, words: &[&'a str], steps: &str) -> Option<AskedCommand<'a>>
    ensures { option_map command_value result ≡
        stepped_command command.now (map (λ w. w.now) words.now) steps.now }
{
    if command == "watch" {
        watch_command_by(words, steps)
    } else {
        live_command_by(command, words, steps)
    }
}

/// The command that its word, the words behind it and the options ask for.
fn command_with_options<'a>(
    command: &str,
    words: &[&'a str],
    symbols: Option<&'a str>,
    german: bool,
    steps: Option<&str>,
) -> Option<AskedCommand<'a>>
    ensures { option_map command_value result ≡
        command_with_options command.now (map (λ w. w.now) words.now)
        (option_map (λ s. s.now) symbols.entry) german (option_map (λ s. s.now) steps.entry) }
{
    match steps {
        None => short_command(command, words, symbols, german),
        Some(steps) if takes_no_source(symbols, german) => stepped_command(command, words, steps),
        Some(_) => None,
    }
}

/// Whether the flag `--german` was found, whose value is `false` where it wasn't.
fn has_german(matches: &ArgMatches<'_>) -> bool
    ensures { result ≡ has_german (rows_of (found_of matches.now)) }
{
    match matches.get_str("german") {
        Some(value) => value == "true",
        None => false,
    }
}

/// The command that the matches ask for.
fn command_of_rows<'a>(matches: &ArgMatches<'a>) -> Option<AskedCommand<'a>>
    ensures { option_map command_value result ≡ command_of_rows (rows_of (found_of matches.now)) }
{
    let command = matches.get_str("COMMAND")?;
    let files = matches.get_strs("FILES").unwrap_or(&[]);
    command_with_options(
        command,
        files,
        matches.get_str("symbols"),
        has_german(matches),
        matches.get_str("steps"),
    )
}

/// Want of memory is an error of the reading, and any other error refuses the words.
fn refusal<'a>(error: &Error) -> Result<Option<AskedCommand<'a>>, AllocError>
    ensures { IfOk result (λ asked. (asked ≡ None) × (kind_of error.now ≢ OutOfMemory)) }
{
    match error.kind() {
        ErrorKind::OutOfMemory => Err(AllocError),
        _ => Ok(None),
    }
}

/// Reads the words, without the program's name, as one of these calls:
///
/// | Words | Options |
/// |---|---|
/// | `go SRC HIST` | `--symbols FILE` and `--german`, or one of them, or none |
/// | `check SRC` | the same |
/// | `compile SRC IMG` | the same |
/// | `english SRC OUT` | none |
/// | `german SRC OUT` | none |
/// | `run IMG HIST` | none |
/// | `gen NUMBER` | none |
/// | `live IMG STIM OPS..`, with one script to four | `--steps N` |
/// | `watch IMG STIM VARS OPS..`, with one script to three | `--steps N` |
/// | `upgrade IMG IMG2` | none |
/// | `list IMG SRC SYM`, where SRC and SYM differ | none |
/// | `bound IMG CERT` | none |
/// | `recheck IMG CERT` | none |
///
/// An option may stand anywhere. NUMBER is 1 to 10,000 and N is 1 to 1,000,000, in decimal digits
/// without a sign; zeros may lead. Any other words are refused, by `None`. Fails where memory is
/// wanting.
pub fn read_call(alloc: Global, words: &[String]) -> Result<Option<AskedCommand<'_>>, AllocError>
    ensures { IfOk result
        (λ asked. option_map command_value asked ≡ command_of (map string_bytes words.now)) }
{
    match find_matches(alloc, words) {
        Ok(matches) => Ok(command_of_rows(&matches)),
        Err(error) => refusal(&error),
    }
}

/// A word that doesn't begin with a hyphen is plain, and so is `-` alone. Plain words are read by
/// the first of them, as the command, and by those behind it: a call without options, or none.
/// Behind `--` at the front all words are read so, whatever they begin with. `--symbols FILE` or
/// `--steps N` may stand in any place among plain words, and adds that option to the call of the
/// others: as two words, with a plain value, or as a single one, `--symbols=FILE` or `--steps=N`,
/// with any value. Where `--symbols` or `--steps` is the last word, plain words before it are
/// refused. The numbers of a call, and how many scripts it has, are within their limits, and the
/// two files that `list` writes have different names.
pub fn law_of_words()
    ensures plain { ReadsPlainWords }
    ensures behind_dashes { ReadsWordsBehindDashes }
    ensures symbols { ReadsSymbolsAnywhere }
    ensures steps { ReadsStepsAnywhere }
    ensures german { ReadsGermanAnywhere }
    ensures no_value { RefusesNoValue }
    ensures limits { CommandsKeepLimits }
{}
