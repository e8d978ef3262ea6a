ghost use Rattle.std.specs.Prelude.{◌≡◌, ◌+◌, ◌*◌, ◌≤◌, ◌<◌, ◌^◌, [], ◌++◌, length, false, Ok, All, IfErr, IfOk, OnOk};
ghost use Rattle.flat_code.specs.Names.{find};
ghost use Rattle.var_access.specs.Entry.{IsValid};
ghost use Rattle.event_text.specs.LineEntries.{entries_of_line, HasWorker, IsLineAllowed};
ghost use Rattle.event_text.specs.Lines.{is_history, line_read, most_steps};
ghost use Rattle.event_text.specs.Regular.{HasMaker, IsRegularOf, maker_of};
ghost use Rattle.event_text.specs.TextFault.{IsFollowedByEntries, IsEntryLineFault, IsTextFault};
ghost use Rattle.event_text.specs.Texts.{history_of_text, script_of, steps_in, stimuli_of, text_read};
ghost use Rattle.event_text.specs.declared.kinds.TextKind.TheVariants.{History};

use crate::faults::TextFault;
use crate::fields::law_of_fields;
use crate::kinds::TextKind;
use crate::lines::{LineEntries, read_line};
use flat_code::Names;
use plc_base::{NoMemory, first_line};
use std::alloc::Global;
use var_access::{Entries, Entry, What};

/// One step, which worker 1 makes.
const ONE_STEP: Entry = Entry {
    who: 1,
    what: What::Step,
};

/// What was read of a history.
#[derive(Drop)]
struct HistoryReader {
    entries: Entries,
    steps: u32,
    line: u32,
    ghost counted: { steps ≡ steps_in entries.entries },
    ghost few: { steps ≤ most_steps },
    ghost lines: { length entries.entries + 1 ≤ steps + line },
    ghost spare: { entries.spare ≡ 0 },
}

impl HistoryReader {
    /// Nothing was read yet.
    fn new(alloc: Global) -> HistoryReader
        ensures first { result.line ≡ 1 }
        ensures nothing { result.entries.entries ≡ [] }
    {
        HistoryReader {
            entries: Entries::new(alloc),
            steps: 0,
            line: 1,
        }
    }

    /// Takes what the line spells.
    fn add(&mut self, found: &LineEntries) -> Result<(), NoMemory>
        requires line { IsLineAllowed History self.old.steps found.now }
        requires few { self.old.line < 2 ^ 31 }
        ensures added { OnOk result
            (self.new.entries.entries ≡ self.old.entries.entries ++ entries_of_line found.now) }
        ensures line { OnOk result (self.new.line ≡ self.old.line + 1) }
    {
        match found {
            LineEntries::Nothing => {}
            LineEntries::Steps { count } => {
                self.entries.append(&ONE_STEP, u64::from(*count))?;
                self.steps += *count;
            }
            LineEntries::One { entry } => self.entries.append(entry, 1)?,
        }
        self.line += 1;
        Ok(())
    }

    /// Takes one more line.
    fn take(&mut self, names: &Names, line: &[u8]) -> Result<(), TextFault>
        requires few { self.old.line < 2 ^ 31 }
        ensures taken { OnOk result (IsFollowedByEntries
            (line_read History (find names.now) self.old.steps line.now)
            self.old.entries.entries self.new.entries.entries) }
        ensures line { OnOk result (self.new.line ≡ self.old.line + 1) }
        ensures valid { All IsValid self.old.entries.entries
            → OnOk result (All IsValid self.new.entries.entries) }
        ensures bad { IfErr result (IsEntryLineFault self.old.line
            (line_read History (find names.now) self.old.steps line.now)) }
    {
        match read_line(TextKind::History, names, self.steps, line) {
            Ok(found) => {
                self.add(&found)?;
                Ok(())
            }
            Err(rule) => Err(TextFault::BadLine {
                line: self.line,
                rule,
            }),
        }
    }
}

/// The entries that a history spells, line by line, with the names of a program's variables: `step`
/// or `step n` (1 to 1,000,000 steps), `in b hh` (a peripheral byte takes a value), `arrive ob` or
/// `arrive ob hhhhhhhh` (an interrupt arrives that requests OB 10 to 17 or 40 to 47, with a value
/// or 0), `tick n` (1 to 60,000 milliseconds pass), `op k REQUEST` (operator 1 to 4 asks). Empty
/// lines and lines that begin with `//` are skipped.
///
/// # Errors
///
/// `BadLine` with the first line that breaks a rule and the least rule that it breaks, or want of
/// memory.
pub fn read_history(alloc: Global, bytes: &[u8], names: &Names) -> Result<Entries, TextFault>
    requires { length bytes.now ≤ 4194304 }
    ensures spelled { IfOk result (λ entries.
        history_of_text names.now bytes.now ≡ Ok entries.entries) }
    ensures valid { IfOk result (λ entries. All IsValid entries.entries) }
    ensures refused { IfErr result (IsTextFault (history_of_text names.now bytes.now)) }
{
    let mut reader = HistoryReader::new(alloc);
    let mut rest = bytes;
    while !rest.is_empty() {
        let (line, behind) = first_line(rest);
        reader.take(names, line)?;
        rest = behind;
    }
    Ok(reader.entries)
}

/// Takes what a line spells that isn't one of a history.
fn add_entry(kind: TextKind, found: &LineEntries, entries: &mut Vec<Entry>) -> Result<(), NoMemory>
    requires kind { is_history kind ≡ false }
    requires line { IsLineAllowed kind 0 found.now }
    ensures { OnOk result (entries.new.items ≡ entries.old.items ++ entries_of_line found.now) }
{
    match found {
        LineEntries::Nothing => {}
        LineEntries::Steps { .. } => unreachable!(),
        LineEntries::One { entry } => entries.extend_from_slice(&[*entry])?,
    }
    Ok(())
}

/// Takes one more line of stimuli or a script.
fn take_entry_line(
    kind: TextKind,
    names: &Names,
    number: u32,
    line: &[u8],
    entries: &mut Vec<Entry>,
) -> Result<(), TextFault>
    requires kind { is_history kind ≡ false }
    ensures taken { OnOk result (IsFollowedByEntries (line_read kind (find names.now) 0 line.now)
        entries.old.items entries.new.items) }
    ensures steps { OnOk result (steps_in entries.new.items ≡ steps_in entries.old.items) }
    ensures valid { (HasWorker kind → All IsValid entries.old.items)
        → OnOk result (HasWorker kind → All IsValid entries.new.items) }
    ensures bad { IfErr result
        (IsEntryLineFault number (line_read kind (find names.now) 0 line.now)) }
{
    match read_line(kind, names, 0, line) {
        Ok(found) => {
            add_entry(kind, &found, entries)?;
            Ok(())
        }
        Err(rule) => Err(TextFault::BadLine { line: number, rule }),
    }
}

/// The entries that stimuli or a script spell.
fn read_entries(
    alloc: Global,
    kind: TextKind,
    names: &Names,
    bytes: &[u8],
) -> Result<Vec<Entry>, TextFault>
    requires kind { is_history kind ≡ false }
    requires few { length bytes.now ≤ 4194304 }
    ensures spelled { IfOk result (λ entries.
        text_read kind (find names.now) bytes.now ≡ Ok entries.items) }
    ensures valid { IfOk result (λ entries. HasWorker kind → All IsValid entries.items) }
    ensures regular { IfOk result (λ entries. HasMaker kind
        → All (IsRegularOf (maker_of kind)) entries.items) }
    ensures few { IfOk result (λ entries. 4 * length entries.items ≤ length bytes.now) }
    ensures refused { IfErr result (IsTextFault (text_read kind (find names.now) bytes.now)) }
{
    let mut entries = Vec::new(alloc);
    let mut number: u32 = 1;
    let mut rest = bytes;
    while !rest.is_empty() {
        let (line, behind) = first_line(rest);
        take_entry_line(kind, names, number, line, &mut entries)?;
        number += 1;
        rest = behind;
    }
    // the numbers of each entry fit their fields
    law_of_fields(entries.as_slice());
    Ok(entries)
}

/// The entries that stimuli spell: `in`, `arrive` and `tick` as in a history.
///
/// # Errors
///
/// As those of `read_history`. Stimuli know no names, so that a request with a symbol breaks rule 3
/// before rule 4.
pub fn read_stimuli(alloc: Global, bytes: &[u8]) -> Result<Vec<Entry>, TextFault>
    requires { length bytes.now ≤ 4194304 }
    ensures spelled { IfOk result (λ entries. stimuli_of bytes.now ≡ Ok entries.items) }
    ensures valid { IfOk result (λ entries. All IsValid entries.items) }
    ensures regular { IfOk result (λ entries. All (IsRegularOf 2) entries.items) }
    ensures few { IfOk result (λ entries. 4 * length entries.items ≤ length bytes.now) }
    ensures refused { IfErr result (IsTextFault (stimuli_of bytes.now)) }
{
    let names = Names::new(Vec::new(alloc));
    read_entries(alloc, TextKind::Stimuli, &names, bytes)
}

/// The entries that the script of a worker spells, each line a request: `read V, V ..`, `write V
/// h`, `stop`, `restart`, `monitor on KIND n`, `monitor off`, `diag`.
///
/// # Errors
///
/// As those of `read_history`.
pub fn read_script(
    alloc: Global,
    bytes: &[u8],
    who: u8,
    names: &Names,
) -> Result<Vec<Entry>, TextFault>
    requires { length bytes.now ≤ 1048576 }
    ensures spelled { IfOk result (λ entries.
        script_of who names.now bytes.now ≡ Ok entries.items) }
    ensures valid { IfOk result (λ entries. 1 ≤ who → All IsValid entries.items) }
    ensures regular { IfOk result (λ entries. (3 ≤ who) × (who ≤ 6)
        → All (IsRegularOf who) entries.items) }
    ensures few { IfOk result (λ entries. 4 * length entries.items ≤ length bytes.now) }
    ensures refused { IfErr result (IsTextFault (script_of who names.now bytes.now)) }
{
    read_entries(alloc, TextKind::Script { who }, names, bytes)
}
