//! A watch: a worker of a station reads variables and publishes what it reads on a board, which a
//! viewer views beside the workers.
ghost use Rattle.std.specs.Prelude.{◌≡◌, ◌⊎◌, ◌<◌, ◌∷◌, ◌++◌, [], false, Err, length, map, is_ok, replicate, IfErr, IfOk, OnOk};
ghost use mathlib.Core.List.{IsPrefix};
ghost use Rattle.var_access.specs.Entry.{IsRequest};
ghost use Rattle.var_access.specs.declared.Request.TheVariants.{ReadVars};
ghost use Rattle.tracked_lock.specs.Views.{AreEntriesByMaker};
ghost use Rattle.station.specs.Openings.{the_opening};
ghost use Rattle.station.specs.declared.shared.StationFault.TheVariants.{NoMemory};
ghost use Rattle.watch_board.specs.BoardList.{initial_item};
ghost use Rattle.s7_cli.specs.Working.{CanWork, HasWorked, IsFresh, KnowsFault};
ghost use Rattle.s7_cli.specs.Watching.{AreViews, HasEnded, HasPublished, HasPublishedNone, IsLastAt, IsLastWithinHistory, PublishesReplies, ViewsBoard, read_entry_of};

use crate::lists::add;
use crate::working::{WorkerResult, together, work};
use plc_base::NoMemory;
use plc_io::Gate;
use station::{Pass, Shared, Station, StationFault};
use std::alloc::Global;
use std::mem::replace;
use std::sync::Wait;
use std::thread::{Threads, join_mut, yield_now};
use var_access::{Entry, Request, Vars};
use watch_board::{Note, Publisher, Shown, Viewer};

/// How often the variables are read and published.
pub(crate) const PUBLISHED: u32 = 100;

/// How often the board is viewed.
pub(crate) const VIEWED: u32 = 100;

/// Reads variables under a pass of a station, and publishes the reply on a board, with the number
/// of the entry that asked for it, counted from 1 as `Pass::seen` does. It waits for its turn, and
/// may wait for the viewer.
///
/// # Errors
///
/// `Full` as of `Station::ask`. `NoMemory` for want of memory: the entry may have been made, and
/// the board shows what it showed.
pub fn publish_read<R: Wait>(
    rt: &R,
    s: &Station,
    p: &mut Pass<Shared>,
    b: &mut Publisher,
    vars: &Vars,
) -> Result<Note, StationFault>
    requires station { p.old.lock ≡ s.now }
    requires free { p.old.out ≡ false }
    requires valid { IsRequest (ReadVars vars.now) }
    requires within { IsLastWithinHistory b.old.list p.old.seen }
    ensures ok { OnOk result
        (HasPublished p.old p.new b.old b.new (read_entry_of p.old.number vars.now)) }
    ensures note { IfOk result (λ note. note ≡ b.new) }
    ensures err { IfErr result
        (HasPublishedNone p.old p.new b.old b.new (read_entry_of p.old.number vars.now)) }
    ensures board { b.new.board ≡ b.old.board }
    ensures pass { p.new ≡ record p.old { seen = p.new.seen; made = p.new.made } }
    ensures made { AreEntriesByMaker (λ e. e.who) p.new.seen p.new.made }
{
    let reply = s.ask(rt, p, Request::ReadVars { vars: *vars })?;
    let shown = Shown {
        length: p.seen(),
        reply: Some(reply),
    };
    match b.publish(rt, shown) {
        Ok(note) => Ok(note),
        Err(_) => Err(StationFault::NoMemory),
    }
}

/// The publisher: reads the variables and publishes them again and again, each time after the gate.
/// It gives the note of the last item.
fn publish_all<R: Wait, G: Gate>(
    rt: &R,
    s: &Station,
    p: &mut Pass<Shared>,
    publisher: &mut Publisher,
    vars: &Vars,
    gate: &G,
) -> Result<Note, StationFault>
    requires fresh { IsFresh s.now p.old }
    requires valid { IsRequest (ReadVars vars.now) }
    requires opening { publisher.old.list ≡ initial_item ∷ [] }
    ensures { PublishesReplies s.now (read_entry_of p.old.number vars.now) PUBLISHED p.new
        publisher.old publisher.new result }
{
    let who = p.number();
    gate.pass(who, 1);
    let mut note = publish_read(rt, s, p, publisher, vars)?;
    for turn in 1..PUBLISHED {
        gate.pass(who, u64::from(turn) + 1);
        note = publish_read(rt, s, p, publisher, vars)?;
    }
    Ok(note)
}

/// The viewer: views the board again and again.
fn view_all(viewer: &mut Viewer, views: &mut Vec<Shown>) -> Result<(), NoMemory>
    requires none { views.old.items ≡ [] }
    ensures { ViewsBoard VIEWED viewer.old viewer.new views.new.items result }
{
    for _ in 0..VIEWED {
        // so that it isn't at its end before the others have begun
        yield_now();
        add(views, viewer.view())?;
    }
    Ok(())
}

/// The publisher beside the viewer.
fn publish_beside_views<R: Threads + Wait + Sync, G: Gate + Sync>(
    rt: &R,
    s: &Station,
    p: &mut Pass<Shared>,
    publisher: &mut Publisher,
    viewer: &mut Viewer,
    views: &mut Vec<Shown>,
    vars: &Vars,
    gate: &G,
) -> (Result<Note, StationFault>, Result<(), NoMemory>)
    requires fresh { IsFresh s.now p.old }
    requires valid { IsRequest (ReadVars vars.now) }
    requires opening { publisher.old.list ≡ initial_item ∷ [] }
    requires none { views.old.items ≡ [] }
    ensures published { PublishesReplies s.now (read_entry_of p.old.number vars.now) PUBLISHED p.new
        publisher.old publisher.new result.0 }
    ensures viewed { ViewsBoard VIEWED viewer.old viewer.new views.new.items result.1 }
{
    join_mut(
        rt,
        &mut || -> Result<Note, StationFault>
            requires { IsFresh s.now p.now × IsRequest (ReadVars vars.now)
                × (publisher.now.list ≡ initial_item ∷ []) }
            ensures { PublishesReplies s.entry.now (read_entry_of p.entry.now.number vars.entry.now)
                PUBLISHED p.exit.now publisher.entry.now publisher.exit.now result }
        { publish_all(rt, s, p, publisher, vars, gate) },
        &mut || -> Result<(), NoMemory>
            requires { views.now.items ≡ [] }
            ensures { ViewsBoard VIEWED viewer.entry.now viewer.exit.now views.exit.now.items
                result }
        { view_all(viewer, views) },
    )
}

/// All passes; none are left.
fn all_passes(alloc: Global, passes: &mut Vec<Pass<Shared>>) -> Vec<Pass<Shared>>
    ensures { result.items ≡ passes.old.items }
{
    replace(passes, Vec::new(alloc))
}

/// The workers of a station beside a publisher, which has the pass `p`, and a viewer.
fn work_beside_watch<R: Threads + Wait + Sync, G: Gate + Sync>(
    rt: &R,
    alloc: Global,
    s: &Station,
    mut passes: Vec<Pass<Shared>>,
    steps: u32,
    stimuli: &[Entry],
    scripts: &[Vec<Entry>],
    p: &mut Pass<Shared>,
    publisher: &mut Publisher,
    viewer: &mut Viewer,
    views: &mut Vec<Shown>,
    vars: &Vars,
    gate: &G,
) -> (
    WorkerResult,
    (Result<Note, StationFault>, Result<(), NoMemory>),
)
    requires some { 0 < length scripts.now }
    requires ready { CanWork s.now passes.items stimuli.now (map (λ v. v.items) scripts.now) }
    requires fresh { IsFresh s.now p.old }
    requires valid { IsRequest (ReadVars vars.now) }
    requires opening { publisher.old.list ≡ initial_item ∷ [] }
    requires none { views.old.items ≡ [] }
    ensures pass { (result.0.0.lock ≡ s.now) × (result.0.0.out ≡ false) }
    ensures agrees { AreEntriesByMaker (λ e. e.who) result.0.0.seen result.0.0.made }
    ensures made { HasWorked s.now passes.items steps stimuli.now
        (map (λ v. v.items) scripts.now) result.0.0 (is_ok result.0.1) }
    ensures fault { KnowsFault s.now result.0.0.seen result.0.1 }
    ensures published { PublishesReplies s.now (read_entry_of p.old.number vars.now) PUBLISHED p.new
        publisher.old publisher.new result.1.0 }
    ensures viewed { ViewsBoard VIEWED viewer.old viewer.new views.new.items result.1.1 }
{
    join_mut(
        rt,
        &mut || -> WorkerResult
            requires { (0 < length scripts.now)
                × CanWork s.now passes.items stimuli.now (map (λ v. v.items) scripts.now) }
            ensures pass { (result.0.lock ≡ s.entry.now) × (result.0.out ≡ false) }
            ensures agrees { AreEntriesByMaker (λ e. e.who) result.0.seen result.0.made }
            ensures made { HasWorked s.entry.now passes.entry.items steps stimuli.entry.now
                (map (λ v. v.items) scripts.entry.now) result.0 (is_ok result.1) }
            ensures fault { KnowsFault s.entry.now result.0.seen result.1 }
        {
            work(
                rt,
                s,
                all_passes(alloc, &mut passes),
                steps,
                stimuli,
                scripts,
                gate,
            )
        },
        &mut || -> (Result<Note, StationFault>, Result<(), NoMemory>)
            requires { IsFresh s.now p.now × IsRequest (ReadVars vars.now)
                × (publisher.now.list ≡ initial_item ∷ []) × (views.now.items ≡ []) }
            ensures published { PublishesReplies s.entry.now
                (read_entry_of p.entry.now.number vars.entry.now) PUBLISHED p.exit.now
                publisher.entry.now publisher.exit.now result.0 }
            ensures viewed { ViewsBoard VIEWED viewer.entry.now viewer.exit.now views.exit.now.items
                result.1 }
        { publish_beside_views(rt, s, p, publisher, viewer, views, vars, gate) },
    )
}

/// Learns of the last item that was published, of this number, and views until the board shows it.
fn catch_up<R: Wait>(rt: &R, viewer: &mut Viewer, note: Note, last: u64)
    requires board { note.board ≡ viewer.old.board }
    requires last { IsLastAt note.list last }
    ensures list { viewer.new.list ≡ note.list }
    ensures seen { IsPrefix viewer.old.list viewer.new.list }
    ensures board { viewer.new.board ≡ viewer.old.board }
{
    viewer.learn(note);
    for _ in rt.forever() {
        if viewer.view().length == last {
            return;
        }
    }
    unreachable!()
}

/// Brings the viewer to the end of the list, where all was published and viewed.
fn end_views<R: Wait>(
    rt: &R,
    viewer: &mut Viewer,
    published: Result<Note, StationFault>,
    viewed: Result<(), NoMemory>,
    last: u64,
) -> Result<(), StationFault>
    requires last { IfOk published (λ note. (note.board ≡ viewer.old.board)
        × IsLastAt note.list last) }
    ensures ok { OnOk result (HasEnded published viewed viewer.new) }
    ensures fault { IfErr result (λ fault. (published ≡ Err fault) ⊎ (fault ≡ NoMemory)) }
    ensures seen { IsPrefix viewer.old.list viewer.new.list }
    ensures board { viewer.new.board ≡ viewer.old.board }
{
    let note = published?;
    if viewed.is_err() {
        return Err(StationFault::NoMemory);
    }
    catch_up(rt, viewer, note, last);
    Ok(())
}

/// Lets the workers of a station work beside a publisher, which has the pass `p`, and a viewer,
/// whose views are added to `views`. The board ends with it. The pass that comes back has all
/// numbers.
pub(crate) fn watch_station<R: Threads + Wait + Sync, G: Gate + Sync>(
    rt: &R,
    alloc: Global,
    s: &Station,
    passes: Vec<Pass<Shared>>,
    steps: u32,
    stimuli: &[Entry],
    scripts: &[Vec<Entry>],
    mut p: Pass<Shared>,
    mut publisher: Publisher,
    mut viewer: Viewer,
    views: &mut Vec<Shown>,
    vars: &Vars,
    gate: &G,
) -> WorkerResult
    requires some { 0 < length scripts.now }
    requires ready { CanWork s.now passes.items stimuli.now (map (λ v. v.items) scripts.now) }
    requires fresh { IsFresh s.now p }
    requires valid { IsRequest (ReadVars vars.now) }
    requires opening { publisher.list ≡ initial_item ∷ [] }
    requires board { viewer.board ≡ publisher.board }
    requires none { views.old.items ≡ [] }
    ensures pass { (result.0.lock ≡ s.now) × (result.0.out ≡ false) }
    ensures agrees { AreEntriesByMaker (λ e. e.who) result.0.seen result.0.made }
    ensures made { HasWorked s.now (passes.items ++ p ∷ []) steps stimuli.now
        (map (λ v. v.items) scripts.now
        ++ replicate PUBLISHED (read_entry_of p.number vars.now) ∷ []) result.0 (is_ok result.1) }
    ensures fault { KnowsFault s.now result.0.seen result.1 }
    ensures views { OnOk result.1 (AreViews (read_entry_of p.number vars.now)
        (the_opening s.now.origin) result.0.seen VIEWED views.new.items) }
{
    let (worked, (published, viewed)) = work_beside_watch(
        rt,
        alloc,
        s,
        passes,
        steps,
        stimuli,
        scripts,
        &mut p,
        &mut publisher,
        &mut viewer,
        views,
        vars,
        gate,
    );
    let ended = end_views(rt, &mut viewer, published, viewed, p.seen());
    publisher.close(rt, viewer);
    together(s, worked, (p, ended))
}
