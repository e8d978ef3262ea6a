//! What an entry shows.
ghost use Rattle.std.specs.Prelude.{◌≡◌, []};
ghost use Rattle.plc_mem.specs.Places.{HasParts};
ghost use Rattle.controller.specs.ShownEntry.{changed_mode as mode_changed, changed_outputs, nothing_shown, watched_state, next_watched_state};
ghost use Rattle.controller.specs.Views.{cpu_state};

use crate::cpus::Cpu;
use arrayvec::ArrayVec;
use monitor::MonRecord;
use plc_base::Mode;
use plc_mem::PeripheralArea;
use std::marker::Model;

/// How many peripheral output bytes there are.
const OUTPUT_BYTES: usize = 640;

/// Changed peripheral output bytes with their new values, by rising byte number.
#[derive(Drop)]
pub struct Outputs {
    list: ArrayVec<(u16, u8), OUTPUT_BYTES>,
}

impl Model for Outputs {
    ghost use Rattle.std.specs.Prelude.{List, ℕ};

    ghost Value = { List (ℕ × ℕ) };

    ghost view = { λ a. a.list.items };
}

/// What an entry showed: the record of its statement where that is of the monitored block, the
/// peripheral output bytes that it changed, and the mode where it changed.
#[derive(Drop)]
pub struct Observed {
    pub mon: Option<MonRecord>,
    pub outputs: Outputs,
    pub mode: Option<Mode>,
}

/// Watches what each entry shows. It keeps the peripheral outputs and the mode as they were after
/// the last entry, with which those after the next one are compared.
#[derive(Drop)]
pub struct Observer {
    outputs: PeripheralArea,
    mode: Mode,
    seen: Observed,
}

impl Model for Observer {
    ghost use Rattle.controller.specs.ShownEntry.{WatchedState};

    ghost Value = { WatchedState };

    ghost view = { λ o. record { outputs = o.outputs; mode = o.mode; seen = o.seen } };

    ghost use Rattle.plc_mem.specs.Places.{HasParts};

    ghost invariant = { λ o. HasParts o.outputs };
}

impl Outputs {
    // No changed byte.
    fn new() -> Outputs
        ensures { result ≡ [] }
    {
        Outputs {
            list: ArrayVec::new(),
        }
    }

    /// The bytes with their values as a slice.
    pub fn as_slice(&self) -> &[(u16, u8)]
        ensures { result.now ≡ self.now }
    {
        self.list.as_slice()
    }

    // No byte any more.
    fn clear(&mut self)
        ensures { self.new ≡ [] }
    {
        self.list.clear();
    }

    // The bytes that differ between two moments, in place of those before.
    #[tactic(auto, using(crate::proofs::ObservingLemmas::changes_next, crate::proofs::ObservingLemmas::changes_end, crate::proofs::ObservingLemmas::all_changes))]
    fn find(&mut self, before: &PeripheralArea, after: &PeripheralArea)
        ensures { self.new ≡ changed_outputs before.now after.now }
    {
        self.list.clear();
        let mut from = 0;
        while let Some(byte) = after.next_change(before, from) {
            if let Some(value) = after.byte(byte) {
                self.list.push((byte, value));
            }
            from = byte + 1;
        }
    }
}

// The changed bytes are found, and those of now are kept for the next time.
fn find_changes(kept: &mut PeripheralArea, found: &mut Outputs, now: &PeripheralArea)
    requires before { HasParts kept.old }
    requires after { HasParts now.now }
    ensures kept { kept.new ≡ now.now }
    ensures found { found.new ≡ changed_outputs kept.old now.now }
{
    match now.next_change(kept, 0) {
        None => found.clear(),
        Some(_) => {
            found.find(kept, now);
            kept.copy_from(now);
        }
    }
}

// The mode after an entry, if the entry changed it.
fn changed_mode(before: Mode, after: Mode) -> Option<Mode>
    ensures { result ≡ mode_changed before after }
{
    match (before, after) {
        (Mode::Run, Mode::Run)
        | (Mode::Startup, Mode::Startup)
        | (Mode::Stop { .. }, Mode::Stop { .. }) => None,
        _ => Some(after),
    }
}

// Nothing in a place, which mostly holds nothing: it is written only where it does.
fn clear<T: Drop>(shown: &mut Option<T>)
    ensures { shown.new ≡ None }
{
    if shown.is_some() {
        *shown = None;
    }
}

// The record of an entry in place of the one before.
fn show_record(shown: &mut Option<MonRecord>, mon: Option<MonRecord>)
    ensures { shown.new ≡ mon }
{
    match mon {
        None => clear(shown),
        Some(record) => *shown = Some(record),
    }
}

// The mode after an entry in place of the one before, and that it changed.
fn show_mode(kept: &mut Mode, shown: &mut Option<Mode>, now: &Mode)
    ensures kept { kept.new ≡ now.now }
    ensures shown { shown.new ≡ mode_changed kept.old now.now }
{
    match (&*kept, now) {
        (Mode::Run, Mode::Run) | (Mode::Startup, Mode::Startup) => clear(shown),
        _ => {
            *shown = changed_mode(*kept, *now);
            *kept = *now;
        }
    }
}

impl Observer {
    /// Nothing was shown yet.
    #[tactic(auto, using(crate::proofs::ObservingLemmas::outputs_have_parts))]
    pub fn new(cpu: &Cpu) -> Observer
        ensures { result ≡ watched_state (cpu_state cpu.now) nothing_shown }
    {
        cpu.memory.law_of_areas();
        Observer {
            outputs: cpu.memory.outputs().copied(),
            mode: cpu.mode,
            seen: Observed {
                mon: None,
                outputs: Outputs::new(),
                mode: None,
            },
        }
    }

    /// Looks at the state after an entry, of which this was recorded.
    #[tactic(auto, using(crate::proofs::ObservingLemmas::outputs_have_parts))]
    pub fn look(&mut self, cpu: &Cpu, mon: Option<MonRecord>)
        ensures { self.new ≡ next_watched_state self.old mon (cpu_state cpu.now) }
    {
        cpu.memory.law_of_areas();
        find_changes(
            &mut self.outputs,
            &mut self.seen.outputs,
            cpu.memory.outputs(),
        );
        show_record(&mut self.seen.mon, mon);
        show_mode(&mut self.mode, &mut self.seen.mode, &cpu.mode);
    }

    /// An entry has shown nothing.
    pub fn pass(&mut self)
        ensures { self.new ≡ record self.old { seen = nothing_shown } }
    {
        clear(&mut self.seen.mon);
        self.seen.outputs.clear();
        clear(&mut self.seen.mode);
    }

    /// What the last entry showed.
    pub fn last_shown(&self) -> &Observed
        ensures { result.now ≡ self.now.seen }
    {
        &self.seen
    }
}
