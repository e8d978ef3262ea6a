//! The workers of a station, each in a thread of its own: the stepper, the feeder and the
//! operators.
ghost use Rattle.std.specs.Prelude.{◌≡◌, ◌+◌, ◌<◌, false, List, [], ◌∷◌, ◌++◌, length, map, is_ok, All, IfErr, IsOk, OnOk};
ghost use Rattle.std.specs.Thread.{IsSync};
ghost use mathlib.Core.List.{IsPrefix};
ghost use Rattle.var_access.specs.Entry.{IsInRange};
ghost use Rattle.var_access.specs.declared.Entry.{Entry as AnEntry};
ghost use Rattle.controller.specs.State.{is_stop as is_stop_of};
ghost use Rattle.tracked_lock.specs.Views.{AreEntriesByMaker};
ghost use Rattle.station.specs.Turns.{HasMade, HasMadeNone};
ghost use Rattle.s7_cli.specs.Working.{AreReady, CanWork, HasBegun, HasStepped, HasWorked, HaveBegun, IsEntryOf, IsFresh, KnowsFault, passes_made_whole};

use plc_base::Mode;
use plc_io::Gate;
use station::{Pass, Shared, Station, StationFault};
use std::sync::Wait;
use std::thread::{Threads, join};
use var_access::{Entry, What};

/// What a worker leaves: its pass, and its refusal if it was refused.
pub(crate) type WorkerResult = (Pass<Shared>, Result<(), StationFault>);

/// Whether the controller is in STOP.
fn is_stop(mode: Mode) -> bool
    ensures { result ≡ is_stop_of mode }
{
    matches!(mode, Mode::Stop { .. })
}

/// The stepper: makes steps, each after the gate, until one leaves STOP or there are as many as
/// wanted.
fn make_steps<R: Wait, G: Gate>(
    rt: &R,
    s: &Station,
    mut p: Pass<Shared>,
    steps: u32,
    gate: &G,
) -> WorkerResult
    requires { IsFresh s.now p }
    ensures stepped { HasStepped s.now p.number steps result.0 (is_ok result.1) }
    ensures fault { KnowsFault s.now result.0.seen result.1 }
{
    let who = p.number();
    for turn in 0..steps {
        gate.pass(who, u64::from(turn) + 1);
        match s.step(rt, &mut p) {
            Ok(mode) => {
                if is_stop(mode) {
                    return (p, Ok(()));
                }
            }
            Err(fault) => return (p, Err(fault)),
        }
    }
    (p, Ok(()))
}

/// Makes one entry of any kind under the pass's number.
fn make_entry<R: Wait>(
    rt: &R,
    s: &Station,
    p: &mut Pass<Shared>,
    what: What,
) -> Result<(), StationFault>
    requires station { p.old.lock ≡ s.now }
    requires free { p.old.out ≡ false }
    requires valid { IsInRange what }
    ensures ok { OnOk result ((before : List AnEntry)
        × HasMade p.old p.new before (record { who = p.old.number; what = what })) }
    ensures err { IfErr result (λ fault. HasMadeNone p.old p.new fault) }
    ensures pass { p.new ≡ record p.old { seen = p.new.seen; made = p.new.made } }
{
    match what {
        What::Step => match s.step(rt, p) {
            Ok(_) => Ok(()),
            Err(fault) => Err(fault),
        },
        What::Ask { request } => match s.ask(rt, p, request) {
            Ok(_) => Ok(()),
            Err(fault) => Err(fault),
        },
        What::Input { .. } | What::Arrive { .. } | What::Tick { .. } => s.feed(rt, p, what),
    }
}

/// The feeder or an operator: makes the entries of its list in their order, each after the gate. It
/// ends at the first that is refused.
fn make_entries<R: Wait, G: Gate>(
    rt: &R,
    s: &Station,
    mut p: Pass<Shared>,
    entries: &[Entry],
    gate: &G,
) -> WorkerResult
    requires fresh { IsFresh s.now p }
    requires entries { All (IsEntryOf p.number) entries.now }
    ensures begun { HasBegun s.now p.number entries.now result.0 }
    ensures made { OnOk result.1 (result.0.made
        ≡ record { number = p.number; entries = entries.now } ∷ []) }
    ensures fault { KnowsFault s.now result.0.seen result.1 }
{
    let who = p.number();
    for (turn, entry) in entries.iter().enumerate() {
        gate.pass(who, turn as u64 + 1);
        if let Err(fault) = make_entry(rt, s, &mut p, entry.what) {
            return (p, Err(fault));
        }
    }
    (p, Ok(()))
}

/// The first pass with the numbers of both, and the first refusal.
pub(crate) fn together(s: &Station, first: WorkerResult, others: WorkerResult) -> WorkerResult
    requires lock { (first.0.lock ≡ s.now) × (others.0.lock ≡ s.now) }
    requires free { (first.0.out ≡ false) × (others.0.out ≡ false) }
    requires fault { KnowsFault s.now first.0.seen first.1
        × KnowsFault s.now others.0.seen others.1 }
    ensures pass { (result.0.lock ≡ s.now) × (result.0.out ≡ false) }
    ensures seen { IsPrefix first.0.seen result.0.seen }
    ensures others { IsPrefix others.0.seen result.0.seen }
    ensures agrees { AreEntriesByMaker (λ e. e.who) result.0.seen result.0.made }
    ensures made { result.0.made ≡ first.0.made ++ others.0.made }
    ensures ok { OnOk result.1 (IsOk first.1 × IsOk others.1) }
    ensures fault { KnowsFault s.now result.0.seen result.1 }
{
    let (mut p, outcome) = first;
    let (q, other) = others;
    s.join(&mut p, q);
    (p, outcome.and(other))
}

/// The first pass, off the front.
fn take_first_pass(passes: &mut Vec<Pass<Shared>>) -> Pass<Shared>
    requires { 0 < length passes.old.items }
    ensures { passes.old.items ≡ result ∷ passes.new.items }
{
    passes.remove(0)
}

/// The first script, and the others.
fn first_and_others(scripts: &[Vec<Entry>]) -> (&[Entry], &[Vec<Entry>])
    requires { 0 < length scripts.now }
    ensures parts { map (λ v. v.items) scripts.now
        ≡ result.0.now ∷ map (λ v. v.items) result.1.now }
    ensures shorter { length result.1.now + 1 ≡ length scripts.now }
{
    match scripts {
        [first, others @ ..] => (first.as_slice(), others),
        [] => unreachable!(),
    }
}

/// The operators beside each other, one for each script.
fn make_scripts<R: Threads + Wait + Sync, G: Gate + Sync>(
    rt: &R,
    s: &Station,
    mut passes: Vec<Pass<Shared>>,
    scripts: &[Vec<Entry>],
    gate: &G,
) -> WorkerResult
    requires some { 0 < length scripts.now }
    requires ready { AreReady s.now passes.items (map (λ v. v.items) scripts.now) }
    ensures pass { (result.0.lock ≡ s.now) × (result.0.out ≡ false) }
    ensures begun { HaveBegun passes.items (map (λ v. v.items) scripts.now) result.0.made }
    ensures made { OnOk result.1 (result.0.made
        ≡ passes_made_whole passes.items (map (λ v. v.items) scripts.now)) }
    ensures fault { KnowsFault s.now result.0.seen result.1 }
{
    let first = take_first_pass(&mut passes);
    let (script, others) = first_and_others(scripts);
    if others.is_empty() {
        return make_entries(rt, s, first, script, gate);
    }
    let (one, rest) = join(
        rt,
        || -> WorkerResult
            requires { IsFresh s.now first × All (IsEntryOf first.number) script.now }
            ensures begun { HasBegun s.entry.now first.number script.entry.now result.0 }
            ensures made { OnOk result.1 (result.0.made
                ≡ record { number = first.number; entries = script.entry.now } ∷ []) }
            ensures fault { KnowsFault s.entry.now result.0.seen result.1 }
        { make_entries(rt, s, first, script, gate) },
        || -> WorkerResult
            requires { IsSync R.row × IsSync G.row × (0 < length others.now)
                × AreReady s.now passes.items (map (λ v. v.items) others.now) }
            ensures pass { (result.0.lock ≡ s.entry.now) × (result.0.out ≡ false) }
            ensures begun { HaveBegun passes.items (map (λ v. v.items) others.entry.now)
                result.0.made }
            ensures made { OnOk result.1 (result.0.made
                ≡ passes_made_whole passes.items (map (λ v. v.items) others.entry.now)) }
            ensures fault { KnowsFault s.entry.now result.0.seen result.1 }
        { make_scripts(rt, s, passes, others, gate) },
    );
    together(s, one, rest)
}

/// The feeder beside the operators.
fn feed_and_ask<R: Threads + Wait + Sync, G: Gate + Sync>(
    rt: &R,
    s: &Station,
    mut passes: Vec<Pass<Shared>>,
    stimuli: &[Entry],
    scripts: &[Vec<Entry>],
    gate: &G,
) -> WorkerResult
    requires some { 0 < length scripts.now }
    requires ready { AreReady s.now passes.items
        (stimuli.now ∷ map (λ v. v.items) scripts.now) }
    ensures pass { (result.0.lock ≡ s.now) × (result.0.out ≡ false) }
    ensures begun { HaveBegun passes.items
        (stimuli.now ∷ map (λ v. v.items) scripts.now) result.0.made }
    ensures made { OnOk result.1 (result.0.made
        ≡ passes_made_whole passes.items (stimuli.now ∷ map (λ v. v.items) scripts.now)) }
    ensures fault { KnowsFault s.now result.0.seen result.1 }
{
    let feeder = take_first_pass(&mut passes);
    let (fed, asked) = join(
        rt,
        || -> WorkerResult
            requires { IsFresh s.now feeder × All (IsEntryOf feeder.number) stimuli.now }
            ensures begun { HasBegun s.entry.now feeder.number stimuli.entry.now result.0 }
            ensures made { OnOk result.1 (result.0.made
                ≡ record { number = feeder.number; entries = stimuli.entry.now } ∷ []) }
            ensures fault { KnowsFault s.entry.now result.0.seen result.1 }
        { make_entries(rt, s, feeder, stimuli, gate) },
        || -> WorkerResult
            requires { (0 < length scripts.now)
                × AreReady s.now passes.items (map (λ v. v.items) scripts.now) }
            ensures pass { (result.0.lock ≡ s.entry.now) × (result.0.out ≡ false) }
            ensures begun { HaveBegun passes.items (map (λ v. v.items) scripts.entry.now)
                result.0.made }
            ensures made { OnOk result.1 (result.0.made
                ≡ passes_made_whole passes.items (map (λ v. v.items) scripts.entry.now)) }
            ensures fault { KnowsFault s.entry.now result.0.seen result.1 }
        { make_scripts(rt, s, passes, scripts, gate) },
    );
    together(s, fed, asked)
}

/// Lets the workers of a station work beside each other, each in a thread of its own: the stepper
/// with the first pass, the feeder with the second, and an operator with each pass behind them, one
/// for each script. The stepper makes `steps` steps, and fewer only where one leaves STOP; the
/// feeder and the operators make the entries of their lists. Each passes the gate before each of
/// its entries, with its turns counted from 1. The pass that comes back has all numbers.
///
/// # Errors
///
/// That of a worker that was refused: `NoMemory` for want of memory, `Full` where the history has
/// `station::FULL` entries or more. Such a worker ends there, and the others go on.
pub fn work<R: Threads + Wait + Sync, G: Gate + Sync>(
    rt: &R,
    s: &Station,
    mut passes: Vec<Pass<Shared>>,
    steps: u32,
    stimuli: &[Entry],
    scripts: &[Vec<Entry>],
    gate: &G,
) -> (Pass<Shared>, Result<(), StationFault>)
    requires some { 0 < length scripts.now }
    requires ready { CanWork s.now passes.items stimuli.now (map (λ v. v.items) scripts.now) }
    ensures pass { (result.0.lock ≡ s.now) × (result.0.out ≡ false) }
    ensures agrees { AreEntriesByMaker (λ e. e.who) result.0.seen result.0.made }
    ensures made { HasWorked s.now passes.items steps stimuli.now
        (map (λ v. v.items) scripts.now) result.0 (is_ok result.1) }
    ensures fault { KnowsFault s.now result.0.seen result.1 }
{
    let stepper = take_first_pass(&mut passes);
    let (stepped, others) = join(
        rt,
        || -> WorkerResult
            requires { IsFresh s.now stepper }
            ensures stepped { HasStepped s.entry.now stepper.number steps result.0
                (is_ok result.1) }
            ensures fault { KnowsFault s.entry.now result.0.seen result.1 }
        { make_steps(rt, s, stepper, steps, gate) },
        || -> WorkerResult
            requires { (0 < length scripts.now) × AreReady s.now passes.items
                (stimuli.now ∷ map (λ v. v.items) scripts.now) }
            ensures pass { (result.0.lock ≡ s.entry.now) × (result.0.out ≡ false) }
            ensures begun { HaveBegun passes.items
                (stimuli.entry.now ∷ map (λ v. v.items) scripts.entry.now) result.0.made }
            ensures made { OnOk result.1 (result.0.made ≡ passes_made_whole passes.items
                (stimuli.entry.now ∷ map (λ v. v.items) scripts.entry.now)) }
            ensures fault { KnowsFault s.entry.now result.0.seen result.1 }
        { feed_and_ask(rt, s, passes, stimuli, scripts, gate) },
    );
    together(s, stepped, others)
}
