ghost use Rattle.std.specs.Prelude.{◌≤◌, length};

use crate::compare::same;
use event_text::{TextFault, read_history, read_script, read_stimuli};
use flat_code::{NameEntry, Names};
use plc_base::{Area, BlockId, BlockKind, Place, Width};
use std::alloc::{AllocError, Global};
use std::process::Abort;
use std::test::Fail;
use var_access::{Entries, Entry, Request, What};

/// The bytes of a short text.
pub(crate) fn bytes_of<'a>(rt: &impl Abort, text: &'a str) -> &'a [u8]
    ensures { length result.now ≤ 1000 }
{
    assert!(rt; text.len() <= 1000);
    text.as_bytes()
}

/// The variable Q 4.1 under the name LAMP.
fn lamp(alloc: Global) -> Result<NameEntry, AllocError> {
    let name = Vec::from_slice(alloc, b"LAMP")?;
    let place = Place {
        number: 0,
        byte: 4,
        area: Area::Q,
        bit: 1,
    };
    let width = Width::Bit;
    Ok(NameEntry { name, place, width })
}

/// A list of that variable alone.
fn only_lamp(alloc: Global) -> Result<Vec<NameEntry>, Fail> {
    let entry = lamp(alloc)?;
    let mut list = Vec::new(alloc);
    list.push(entry)?;
    Ok(list)
}

/// The names of a program that has that variable.
pub(crate) fn names(rt: &impl Abort, alloc: Global) -> Result<Names, Fail> {
    let list = only_lamp(alloc)?;
    assert!(rt; Names::are_in_order(list.as_slice()));
    Ok(Names::new(list))
}

// What a line spells, as a table can hold it.
#[derive(Clone, Copy)]
enum SpelledLine {
    Step,
    Input(u16, u8),
    Arrive(u16, u32),
    Tick(u32),
    Stop,
    Restart,
    MonitorOn(BlockKind, u16),
    MonitorOff,
    Diag,
}

fn what_of_request(request: Request) -> What {
    What::Ask { request }
}

fn what(spelled: SpelledLine) -> What {
    match spelled {
        SpelledLine::Step => What::Step,
        SpelledLine::Input(byte, value) => What::Input { byte, value },
        SpelledLine::Arrive(ob, value) => What::Arrive { ob, value },
        SpelledLine::Tick(ms) => What::Tick { ms },
        SpelledLine::Stop => what_of_request(Request::Stop),
        SpelledLine::Restart => what_of_request(Request::Restart),
        SpelledLine::MonitorOn(kind, number) => {
            let block = BlockId { kind, number };
            what_of_request(Request::MonitorOn { block })
        }
        SpelledLine::MonitorOff => what_of_request(Request::MonitorOff),
        SpelledLine::Diag => what_of_request(Request::Diag),
    }
}

fn entry(who: u8, spelled: SpelledLine) -> Entry {
    Entry {
        who,
        what: what(spelled),
    }
}

/// A line, the worker of its entry, and what it spells.
type Line = (&'static str, u8, SpelledLine);

// Lines with one entry: each kind at both ends of its ranges, with blanks, tabs and zeros in front,
// digits in either case.
static LINES: [Line; 22] = [
    ("in 0 01", 2, SpelledLine::Input(0, 1)),
    ("in 127 fF", 2, SpelledLine::Input(127, 255)),
    ("in 256 00", 2, SpelledLine::Input(256, 0)),
    ("in 767 a0", 2, SpelledLine::Input(767, 160)),
    (" \tin  0\t01  ", 2, SpelledLine::Input(0, 1)),
    ("in 00000001 10", 2, SpelledLine::Input(1, 16)),
    ("arrive 10", 2, SpelledLine::Arrive(10, 0)),
    ("arrive 17 0000000a", 2, SpelledLine::Arrive(17, 10)),
    (
        "arrive 40 FFFFFFFF",
        2,
        SpelledLine::Arrive(40, 0xFFFF_FFFF),
    ),
    ("arrive 47 00000000", 2, SpelledLine::Arrive(47, 0)),
    ("tick 1", 2, SpelledLine::Tick(1)),
    ("tick 60000", 2, SpelledLine::Tick(60000)),
    ("tick 060000", 2, SpelledLine::Tick(60000)),
    ("op 1 stop", 3, SpelledLine::Stop),
    ("op 02  restart", 4, SpelledLine::Restart),
    ("op 3 monitor off", 5, SpelledLine::MonitorOff),
    ("op\t4\tdiag", 6, SpelledLine::Diag),
    (
        "op 1 monitor on OB 1",
        3,
        SpelledLine::MonitorOn(BlockKind::Ob, 1),
    ),
    ("step", 1, SpelledLine::Step),
    ("step 1", 1, SpelledLine::Step),
    ("step 0001 ", 1, SpelledLine::Step),
    ("\tstep", 1, SpelledLine::Step),
];

/// A text, the first line that breaks a rule, and that rule.
type BadText = (&'static str, u32, u16);

// The first line that breaks a rule, and the least rule that it breaks. 1: not in the grammar. 2: a
// number out of its range, too few or too many hexadecimal digits. 3: an unknown name. 4: a line of
// another file. 5: an operator other than 1 to 4. 6: more than 1,000,000 steps.
static BAD_STEPS_AND_INPUTS: [BadText; 27] = [
    (" ", 1, 1),
    ("\t", 1, 1),
    (" // a blank in front", 1, 1),
    ("/", 1, 1),
    ("halt", 1, 1),
    ("Step", 1, 1),
    ("step\r", 1, 1),
    ("step\r\r\n", 1, 1),
    ("step x", 1, 1),
    ("step +1", 1, 1),
    ("step 1 1", 1, 1),
    ("step 0", 1, 2),
    ("step 1000001", 1, 2),
    ("step 99999999999999999999999", 1, 2),
    ("in", 1, 1),
    ("in 0", 1, 1),
    ("in 0 00 00", 1, 1),
    ("in -1 00", 1, 1),
    ("in 0 0g", 1, 1),
    ("in 128 0g", 1, 1),
    ("in x 0", 1, 1),
    ("in 0 0", 1, 2),
    ("in 0 001", 1, 2),
    ("in 128 00", 1, 2),
    ("in 255 00", 1, 2),
    ("in 768 00", 1, 2),
    ("in 65536 00", 1, 2),
];

static BAD_ARRIVALS_AND_TICKS: [BadText; 15] = [
    ("arrive", 1, 1),
    ("arrive x", 1, 1),
    ("arrive 40 00000000 0", 1, 1),
    ("arrive 40 0x000000", 1, 1),
    ("arrive 48 x", 1, 1),
    ("arrive 9", 1, 2),
    ("arrive 18", 1, 2),
    ("arrive 39", 1, 2),
    ("arrive 48", 1, 2),
    ("arrive 40 1", 1, 2),
    ("arrive 40 000000001", 1, 2),
    ("tick", 1, 1),
    ("tick 1 1", 1, 1),
    ("tick 0", 1, 2),
    ("tick 60001", 1, 2),
];

// Requests, lines of other files, and histories of several lines.
static BAD_HISTORIES: [BadText; 26] = [
    ("op", 1, 1),
    ("op 1", 1, 1),
    ("op 5", 1, 1),
    ("op x stop", 1, 1),
    ("op 1stop", 1, 1),
    ("op 5 halt", 1, 1),
    ("op 1 step", 1, 1),
    ("op 1 write M 0.0 2", 1, 2),
    ("op 5 write M 0.0 2", 1, 2),
    ("op 1 read \"PUMP\"", 1, 3),
    ("op 5 read \"PUMP\"", 1, 3),
    ("op 0 stop", 1, 5),
    ("op 5 stop", 1, 5),
    ("op 99999999999 stop", 1, 5),
    ("stop", 1, 4),
    ("read \"LAMP\"", 1, 4),
    ("read \"PUMP\"", 1, 3),
    ("write M 0.0 2", 1, 2),
    ("stop now", 1, 1),
    ("step 1000000\nstep", 2, 6),
    ("step\nstep 1000000", 2, 6),
    ("step 999999\nstep 2", 2, 6),
    ("step 1000000\nstep 0", 2, 2),
    ("in 0 00\n\n// x\r\ntick 0", 4, 2),
    ("op 5 stop\nhalt", 1, 5),
    ("step 1000000\ntick 1\nin 0 00\nstep 1\nhalt", 4, 6),
];

// Stimuli know no names, also not those of the program.
static BAD_STIMULI: [BadText; 13] = [
    ("halt", 1, 1),
    ("tick 0", 1, 2),
    ("step", 1, 4),
    ("step 0", 1, 2),
    ("step 1000000\nstep", 1, 4),
    ("op 1 stop", 1, 4),
    ("op 5 stop", 1, 4),
    ("op 5 halt", 1, 1),
    ("stop", 1, 4),
    ("read MB 0", 1, 4),
    ("read \"LAMP\"", 1, 3),
    ("op 1 read \"LAMP\"", 1, 3),
    ("in 0 00\narrive 40\nread M 0.8", 3, 2),
];

static BAD_SCRIPTS: [BadText; 13] = [
    ("halt", 1, 1),
    ("step", 1, 4),
    ("step 0", 1, 2),
    ("in 0 00", 1, 4),
    ("in 0 0", 1, 2),
    ("arrive 40", 1, 4),
    ("tick 1", 1, 4),
    ("tick", 1, 1),
    ("op 1 stop", 1, 4),
    ("op 5 stop", 1, 4),
    ("op 5 read \"PUMP\"", 1, 3),
    ("stop\nread \"PUMP\"", 2, 3),
    ("stop\n\ndiag\nwrite M 0.0 2\nhalt", 4, 2),
];

fn bad(line: u32, rule: u16) -> Option<TextFault> {
    Some(TextFault::BadLine { line, rule })
}

/// A text has no fault.
pub(crate) fn has_none(rt: &impl Abort, text: &str, fault: TextFault) {
    same(rt, text, Some(fault), None);
}

/// The entries are one.
fn is_only_entry(rt: &impl Abort, text: &str, entries: &Entries, wanted: Entry) {
    same(rt, text, entries.len(), 1);
    same(rt, text, entries.entry(0), Some(wanted));
}

/// A text is a history of one entry.
fn is_history_of(rt: &impl Abort, alloc: Global, names: &Names, text: &str, wanted: Entry) {
    match read_history(alloc, bytes_of(rt, text), names) {
        Ok(entries) => is_only_entry(rt, text, &entries, wanted),
        Err(fault) => has_none(rt, text, fault),
    }
}

static LINE_ENDS: [&str; 3] = ["", "\n", "\r\n"];

/// A line with such an end is one entry.
fn line_is_read(
    rt: &impl Abort,
    alloc: Global,
    names: &Names,
    line: &Line,
    end: &str,
) -> Result<(), AllocError> {
    let (line, who, spelled) = *line;
    let text = format!(in alloc; "{line}{end}")?;
    is_history_of(rt, alloc, names, text.as_str(), entry(who, spelled));
    Ok(())
}

fn lines_are_read(rt: &impl Abort, alloc: Global, names: &Names) -> Result<(), AllocError> {
    for line in &LINES {
        for end in &LINE_ENDS {
            line_is_read(rt, alloc, names, line, end)?;
        }
    }
    Ok(())
}

/// A text, and how many runs and entries it has as a history.
type Sizes = (&'static str, usize, u64);

// A million steps are one run, whatever stands between them.
static MOST_STEPS: [Sizes; 3] = [
    ("step 1000000", 1, 1_000_000),
    ("step 999999\n\nstep\n// the end", 1, 1_000_000),
    ("step 500000\ntick 1\nstep 500000\n", 3, 1_000_001),
];

// Empty texts, empty lines, lines that begin with `//`.
static WITHOUT_ENTRIES: [&str; 6] = ["", "\n", "\r\n\r\n", "//", "// step\n", "\n//halt\r\n\n"];

/// How many runs and entries a text has as a history.
fn history_size(alloc: Global, bytes: &[u8], names: &Names) -> Option<(usize, u64)>
    requires { length bytes.now ≤ 1000 }
{
    match read_history(alloc, bytes, names) {
        Ok(entries) => Some((entries.runs().len(), entries.len())),
        Err(_) => None,
    }
}

/// How many entries a text has as stimuli.
fn stimuli_len(alloc: Global, bytes: &[u8]) -> Option<usize>
    requires { length bytes.now ≤ 1000 }
{
    match read_stimuli(alloc, bytes) {
        Ok(entries) => Some(entries.len()),
        Err(_) => None,
    }
}

/// How many entries a text has as a script.
fn script_len(alloc: Global, bytes: &[u8], names: &Names) -> Option<usize>
    requires { length bytes.now ≤ 1000 }
{
    match read_script(alloc, bytes, 3, names) {
        Ok(entries) => Some(entries.len()),
        Err(_) => None,
    }
}

/// Texts of each kind without entries, and histories with the most steps.
fn sizes_are_right(rt: &impl Abort, alloc: Global, names: &Names) {
    for text in &WITHOUT_ENTRIES {
        let bytes = bytes_of(rt, text);
        same(rt, *text, history_size(alloc, bytes, names), Some((0, 0)));
        same(rt, *text, stimuli_len(alloc, bytes), Some(0));
        same(rt, *text, script_len(alloc, bytes, names), Some(0));
    }
    for (text, runs, len) in &MOST_STEPS {
        let found = history_size(alloc, bytes_of(rt, text), names);
        same(rt, *text, found, Some((*runs, *len)));
    }
}

/// The entries are of this worker, and what happens is this.
fn are_entries(rt: &impl Abort, text: &str, entries: &[Entry], who: u8, wanted: &[SpelledLine]) {
    same(rt, text, entries.len(), wanted.len());
    for (found, spelled) in entries.iter().zip(wanted) {
        same(rt, text, *found, entry(who, *spelled));
    }
}

/// What a text is read as.
#[derive(Clone, Copy)]
enum Kind {
    History,
    Stimuli,
    Script,
}

fn fault_of(
    rt: &impl Abort,
    alloc: Global,
    names: &Names,
    kind: Kind,
    text: &str,
) -> Option<TextFault> {
    let bytes = bytes_of(rt, text);
    match kind {
        Kind::History => read_history(alloc, bytes, names).err(),
        Kind::Stimuli => read_stimuli(alloc, bytes).err(),
        Kind::Script => read_script(alloc, bytes, 3, names).err(),
    }
}

fn are_refused(rt: &impl Abort, alloc: Global, names: &Names, kind: Kind, rows: &[BadText]) {
    for (text, line, rule) in rows {
        let found = fault_of(rt, alloc, names, kind, text);
        same(rt, *text, found, bad(*line, *rule));
    }
}

// A proof carries the rows that its function names, so each of these names few.
fn steps_and_inputs_are_refused(rt: &impl Abort, alloc: Global, names: &Names) {
    are_refused(rt, alloc, names, Kind::History, &BAD_STEPS_AND_INPUTS);
}

fn arrivals_and_ticks_are_refused(rt: &impl Abort, alloc: Global, names: &Names) {
    are_refused(rt, alloc, names, Kind::History, &BAD_ARRIVALS_AND_TICKS);
}

fn histories_are_refused(rt: &impl Abort, alloc: Global, names: &Names) {
    are_refused(rt, alloc, names, Kind::History, &BAD_HISTORIES);
}

fn others_are_refused(rt: &impl Abort, alloc: Global, names: &Names) {
    are_refused(rt, alloc, names, Kind::Stimuli, &BAD_STIMULI);
    are_refused(rt, alloc, names, Kind::Script, &BAD_SCRIPTS);
}

const STIMULI: &str = "in 0 01\r\n\narrive 40 00000002\n// x\ntick 5";

static STIMULI_SPELL: [SpelledLine; 3] = [
    SpelledLine::Input(0, 1),
    SpelledLine::Arrive(40, 2),
    SpelledLine::Tick(5),
];

fn stimuli_are_read(rt: &impl Abort, alloc: Global) {
    match read_stimuli(alloc, bytes_of(rt, STIMULI)) {
        Ok(entries) => are_entries(rt, STIMULI, entries.as_slice(), 2, &STIMULI_SPELL),
        Err(fault) => has_none(rt, STIMULI, fault),
    }
}

const SCRIPT: &str = "stop\n\n//\r\nrestart\r\nmonitor off\ndiag";

static SCRIPT_SPELLS: [SpelledLine; 4] = [
    SpelledLine::Stop,
    SpelledLine::Restart,
    SpelledLine::MonitorOff,
    SpelledLine::Diag,
];

fn script_is_read(rt: &impl Abort, alloc: Global, names: &Names) {
    match read_script(alloc, bytes_of(rt, SCRIPT), 5, names) {
        Ok(entries) => are_entries(rt, SCRIPT, entries.as_slice(), 5, &SCRIPT_SPELLS),
        Err(fault) => has_none(rt, SCRIPT, fault),
    }
}

fn texts_are_refused(rt: &impl Abort, alloc: Global, names: &Names) {
    steps_and_inputs_are_refused(rt, alloc, names);
    arrivals_and_ticks_are_refused(rt, alloc, names);
    histories_are_refused(rt, alloc, names);
    others_are_refused(rt, alloc, names);
}

fn texts_are_read(rt: &impl Abort, alloc: Global, names: &Names) -> Result<(), AllocError> {
    sizes_are_right(rt, alloc, names);
    stimuli_are_read(rt, alloc);
    script_is_read(rt, alloc, names);
    lines_are_read(rt, alloc, names)
}

#[test]
fn texts_of_each_kind(rt: HostRuntime) -> Result<(), Fail> {
    let names = names(&rt, rt.alloc())?;
    texts_are_refused(&rt, rt.alloc(), &names);
    Ok(texts_are_read(&rt, rt.alloc(), &names)?)
}
