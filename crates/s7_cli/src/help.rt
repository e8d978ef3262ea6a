//! What the program tells of itself: its commands and its version.
ghost use Rattle.std.specs.Prelude.{◌≡◌, map, string_bytes};
ghost use Rattle.s7_cli.specs.Questions.{AnswerWritten, question_by, question_of, question_text};

use crate::failures::{ExitStatus, Failure};
use plc_io::{IoFault, Sink, push_all};

/// What the words may ask of the program itself.
#[derive(Clone, Copy, Debug, PartialEq, Eq)]
pub enum Question {
    /// How the program is called.
    Help,
    /// Which version the program is.
    Version,
}

/// The answer to `--help`. No line has more than 80 columns.
const HELP: &str = "\
s7: a proved controller and compiler for Siemens STL (Statement List)

Calls:
  s7 go SRC HIST      run the source SRC along the history HIST, write the run
  s7 check SRC        check the source SRC, write OK where it is accepted
  s7 compile SRC IMG  write the image of the source SRC to the file IMG, then OK
  s7 english SRC OUT  write the source SRC with English mnemonics to the file
                      OUT, then OK; SRC has German ones
  s7 german SRC OUT   write the source SRC with German mnemonics to the file
                      OUT, then OK; SRC has English ones
  s7 run IMG HIST     run the image IMG along the history HIST, write the run
  s7 gen NUMBER       run the program and the history that are made of a number
                      from 1 to 10,000, write a line that sums up the run
  s7 live IMG STIM OPS.. --steps N
                      run the image IMG by workers beside one another: one makes
                      N steps, one feeds the stimuli STIM, and one to four more
                      ask what their scripts OPS say; write the history that
                      came of it, a line ---, and the run
  s7 watch IMG STIM VARS OPS.. --steps N
                      the same with one to three scripts, while one more asks
                      a hundred times for the values of the line VARS, and
                      one views the replies; write a line --- more, and a
                      line for each view
  s7 upgrade IMG IMG2 write the image IMG in version 2 to the file IMG2, then OK
  s7 list IMG SRC SYM write a source that gives the program of the image IMG to
                      the file SRC, and its symbols to the file SYM, then OK
  s7 bound IMG CERT   write how deep the calls of the image IMG go, and how many
                      local bytes they take, to the file CERT, then OK; or write
                      a chain of calls that is too deep
  s7 recheck IMG CERT write OK where the certificate CERT holds of the image IMG
  s7 --help           write this text (also -h)
  s7 --version        write the version (also -V)

Options, anywhere among the words:
  --symbols FILE   the symbols of the source, as STEP 7 exports them: with go,
                   check and compile
  --german         the source and its symbols are German: with go, check and
                   compile
  --steps N        the most steps, 1 to 1,000,000: with live and watch, which
                   need it

Behind -- no word is an option, so a file may begin with a hyphen.

Supported: organization blocks, functions, function blocks, data blocks and
types of the whole-number subset of STL, nine system functions, interrupts,
time and synchronous errors, timers and counters, requests of operators.
Not supported: REAL, STRING, ANY, multi-instances.

Lines of a history (numbers are decimal, h is a hexadecimal digit):
  step               one step: one statement, or a cycle point
  step N             N steps; a history has at most 1,000,000
  in B hh            peripheral input byte B becomes hh; its bit 0 is I B.0
  arrive N           an interrupt requests OB N: 10 to 17 or 40 to 47
  arrive N hhhhhhhh  the same with a value, which is 0 otherwise
  tick N             N milliseconds pass, 1 to 60,000
  op K REQUEST       operator K, 1 to 4, asks one of:
    read V, V ..       the values of one to eight variables
    write V h          variable V becomes h
    stop, restart      STOP; a warm restart, in STOP alone
    monitor on KIND N  monitor block KIND N: OB, FC or FB, one at a time
    monitor off        monitor no block
    diag               the last 100 records of diagnostics
                     V is an address, as M 0.1, MW 2, DB1.DBW 0, or a symbol
                     in double quotes; h has two digits a byte, or is 0 or 1
  // ..              a comment; empty lines are skipped too
Stimuli have the lines in, arrive and tick alone, a script requests alone,
VARS of watch a single read.

Lines of a run (N is the number of the entry, from 1):
  @N MON KIND n LINE l STW hhhh A1 hhhhhhhh A2 hhhhhhhh
                                 a statement of the monitored block, with the
                                 status word and both accumulators after it
  @N PQ B = hh                   peripheral output byte B changed to hh
  @N MODE RUN, @N MODE STARTUP   the mode changed
  @N MODE STOP c AT place        the controller stopped, by cause c
  @N OP K VALUES h ..            the reply to operator K: the values read,
  @N OP K DONE                   it is done,
  @N OP K NOSUCH i               variable i, or the block, doesn't exist,
  @N OP K NOTSTOPPED             a restart needs STOP,
  @N OP K DIAG n                 or n records of diagnostics, each as a line
  @N DIAG e code info            by entry e
  END N RUN, END N STARTUP, END N STOP c
                                 the mode after all N entries
  DB n at hh..                   bytes of data block n from byte `at` on

Rules of a source:
   1  no token begins here, or a byte that no source may hold
   2  a name, characters or an attribute has no end
   3  a literal has wrong digits or parts
   4  a literal or a number is out of its range
  10  a clause isn't in the grammar
  11  a clause may not stand here
  12  a label is longer than four characters
  13  the source ends inside a block
  17  a word of the other language: with --german, and of english and german
  20  a name or a component is unknown
  21  a name is declared twice
  22  a block stands twice
  23  a block or a type is unknown
  24  the width doesn't fit the instruction
  25  the instruction takes no such operand
  26  a label is unknown
  27  a label stands twice
  29  a bracket is closed that isn't open
  30  a bracket is open at the block's end
  31  the eighth bracket is open
  32  a jump list isn't right
  33  a jump leads out of brackets or zones, or into them
  34  a called block has no such parameter
  35  a parameter is supplied twice
  36  a parameter isn't supplied
  37  an actual parameter doesn't fit
  38  a data block is no instance of the function block
  39  an input parameter of a function is written
  40  a call needs parameters or a data block
  41  an initial value doesn't fit
  42  bounds of an array are wrong, or an index is outside
  43  a type contains itself
  44  a block has a number that isn't allowed
  46  a system function isn't one of the nine
  47  a zone is ended that isn't open
  48  a zone is open at the block's end
  49  the ninth zone is open
  50  more than 1,024 bytes of local data
  51  a data block, type or instance has more than 16,384 bytes
  52  more than 60 parameters
  53  more than 256 data blocks
  54  data blocks have more than 2,097,152 bytes together
  55  a block has more than 65,534 statements
  56  types are nested deeper than 8
Rules of a symbols file:
  14  a line isn't four fields
  15  an address, type or name isn't right, or too many symbols
  16  a name stands twice
Rules of a history, of stimuli, of a script and of VARS:
   1  a line isn't as above
   2  a number is out of its range, or a value doesn't fit its variable
   3  a name is unknown
   4  a line of another of these texts, as a request without its operator
   5  an operator isn't 1 to 4
   6  more than 1,000,000 steps so far
   7  not a single line, a read (VARS)
Rules of a certificate:
   1  a line isn't KIND n DEPTH d BYTES b
   2  a number is above 65,535
   3  the block isn't loaded, or doesn't stand behind the one before
Faults of an image:
   1  it doesn't begin with S7FB
   2  the version isn't 1 or 2
   3  a field runs past the total length, or that is wrong
   4  a number, count, size or name isn't allowed, or out of its order
   5  no op stands here, or the code doesn't end with BE
   6  a jump leads to no statement, or a jump list isn't right
   7  an operand isn't allowed
   8  brackets or zones don't match
   9  the count of statements or a line isn't right
  10  more bytes than the total length, or than the records

Exit status, and the line that is written in place of a result:
  0  done
  1  the words are no call as above      words refused
  2  the symbols break a rule            symbols refused: line L rule R
     the source breaks a rule            source refused: line L rule R
  3  the image has fault C at byte A     image refused: offset A code C
  4  the history breaks a rule           history refused: line L rule R
     the stimuli break a rule            stimuli refused: line L rule R
     VARS breaks a rule                  vars refused: line L rule R
     script k, from 1, breaks a rule     script k refused: line L rule R
     the certificate breaks a rule       certificate refused: line L rule R
  5  a file can't be read                read fault
  6  standard output failed, or IMG of compile, OUT of english and german, IMG2
     of upgrade, SRC or SYM of list, or CERT of bound can't be written
  7  memory ran out
  8  a file is too long                  too long: source (1,048,576 bytes)
     the translation would be            too long: result (1,048,576 bytes)
     SRC or SYM of list would be         too long: list (1,048,576 bytes)
     a file is too long                  too long: symbols (1,048,576 bytes)
                                         too long: image (8,388,608 bytes)
                                         too long: history (4,194,304 bytes)
                                         too long: stimuli (4,194,304 bytes)
                                         too long: vars (1,048,576 bytes)
                                         too long: script k (1,048,576 bytes)
                                         too long: certificate (1,048,576 bytes)
  9  what would be listed doesn't compile to the image's program
                                         image has no listing
 10  a chain of calls is too deep        chain: KIND n, KIND n ..
     the certificate doesn't hold        certificate says no

Example:
  s7 go examples/interlock/source.awl examples/interlock/history.txt
";

/// The answer to `--version`.
const VERSION: &str = "s7 0.1.0\n";

/// The question that a word asks: `--help` or `-h`, `--version` or `-V`.
fn question_by(word: &str) -> Option<Question>
    ensures { result ≡ question_by word.now }
{
    if word == "--help" || word == "-h" {
        Some(Question::Help)
    } else if word == "--version" || word == "-V" {
        Some(Question::Version)
    } else {
        None
    }
}

/// The question that the words ask, without the program's name, where they are a single word.
pub fn question_in(words: &[String]) -> Option<Question>
    ensures { result ≡ question_of (map string_bytes words.now) }
{
    match words {
        [word] => question_by(word.as_str()),
        _ => None,
    }
}

impl Question {
    /// The text that answers it.
    fn text(self) -> &'static str
        ensures { result.now ≡ question_text self }
    {
        match self {
            Question::Help => HELP,
            Question::Version => VERSION,
        }
    }
}

/// Writes the answer to a question. The status is 0, or 6 where the sink failed, or 7 where memory
/// was wanting.
pub fn write_answer<K: Sink>(out: &mut K, question: Question) -> ExitStatus
    ensures { AnswerWritten (question_text question) (K.shown out.old) (K.shown out.new)
        result.code }
{
    let outcome = match push_all(out, question.text().as_bytes()) {
        Ok(()) => Ok(()),
        Err(IoFault::Failed) => Err(Failure::WriteFault),
        Err(IoFault::NoMemory) => Err(Failure::NoMemory),
    };
    ExitStatus::of(outcome)
}
