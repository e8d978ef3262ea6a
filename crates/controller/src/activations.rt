//! The running activation and those that it and others interrupted.
ghost use Rattle.std.specs.Prelude.{◌≡◌, ◌<◌, ◌≤◌, false, [], ◌∷◌, ◌+◌, ◌++◌, length, map, set, take, vec_capacity, IfOk, IfSome};
ghost use Rattle.std.specs.Option.{option_map};
ghost use Rattle.frames.specs.Activations.{activation_begun, frame_begun};
ghost use Rattle.machine.specs.Flat.{code_of};
ghost use Rattle.machine.specs.Lasting.{IsStatementReady, ob_block as block_of_ob};
ghost use Rattle.machine.specs.Statement.{global_store};
ghost use Rattle.ob_sched.specs.StartInformation.{ob_of_error};
ghost use Rattle.ob_sched.specs.Views.{scheduler_of};
ghost use Rattle.controller.specs.Beginning.{ob_activation, with_start_bytes};
ghost use Rattle.controller.specs.Errors.{error_in};
ghost use Rattle.controller.specs.Leaves.{ObBegins, ErrorBegins, HandsRegsOn, LeavesStatementStep, ServesRunning, running_of};
ghost use Rattle.controller.specs.SilentSteps.{GoesOnSilently, GoesOnReady, goes_on_silently};
ghost use Rattle.controller.specs.Ready.{IsReady};
ghost use Rattle.controller.specs.Settling.{may_start};
ghost use Rattle.controller.specs.Stopping.{running_spot, spot_of_frame};
ghost use Rattle.controller.specs.Ticking.{active_obs};

use crate::beginning::{at_begin, local_len_of, ob_block, set_start_bytes};
use crate::errors::failure;
use crate::serving::{Answer, serve};
use crate::spots::statement_start_at;
use arrayvec::ArrayVec;
use frames::{Activation, Binding, Bindings, Frame};
use image_file::Loaded;
use machine::{Inputs, Outcome, give_result, run, statement};
use ob_sched::{Sched, StartInfo};
use plc_base::{BlockId, NoMemory, Profile, Spot};
use plc_mem::Memory;
use status_word::Regs;
use std::alloc::Global;
use std::marker::Model;
use timers_counters::{Counters, Timers};

/// How many activations stand at once at most.
const ACTIVATIONS: usize = 48;

/// Where the running activation stood before a statement: its organization block, and the block and
/// the offset of the statement; and its registers after it.
#[derive(Clone, Copy)]
pub(crate) struct At {
    pub(crate) ob: u16,
    pub(crate) block: BlockId,
    pub(crate) at: u32,
    pub(crate) regs: Regs,
}

/// The running activation and those that it and others interrupted. A contract sees them as a list
/// from the running one down. They stay where they are: behind those that stand are such as have ended,
/// and the next one begins in the place of one of them. Beside them is room for what the parameters of a
/// call stand for: to make it new for each call would write all sixty.
#[derive(Drop)]
pub(crate) struct Activations {
    all: Vec<Activation>,
    count: usize,
    spare: Bindings,
}

impl Model for Activations {
    ghost use Rattle.std.specs.Prelude.{◌≤◌, List, length, vec_capacity};
    ghost use Rattle.frames.specs.declared.Activation.{Activation};

    ghost Value = { List Activation };

    ghost use Rattle.controller.specs.Views.{activations_of};

    ghost view = { λ a. activations_of a.count a.all.items };

    ghost invariant = { λ a. (a.count ≤ length a.all.items)
        × (length a.all.items ≤ 48)
        × (48 ≤ vec_capacity a.all) };
}

// The block of an activation's statement, and its line.
#[tactic(auto, using(crate::proofs::ReadyLemmas::can_go_there))]
fn spot_of(program: &Loaded, a: &Activation) -> Option<Spot>
    requires { IsStatementReady (code_of program.now.program) a.now }
    ensures { result ≡ spot_of_frame (code_of program.now.program) a.now.running.frame }
{
    statement_start_at(program, a.running.frame.block, a.running.frame.at)
}

// The organization blocks of activations.
#[tactic(auto, using(crate::proofs::ActiveLemmas::one_more, crate::proofs::ActiveLemmas::no_more))]
fn add_obs(obs: &mut ArrayVec<u16, ACTIVATIONS>, activations: &[Activation])
    requires { length obs.old.items + length activations.now ≤ 48 }
    ensures { obs.new.items ≡ obs.old.items ++ map (λ a. a.ob) activations.now }
{
    let mut left = activations;
    while let [a, rest @ ..] = left {
        obs.push(a.ob);
        left = rest;
    }
}

// One more place, behind all. Its profile is that of the organization block that begins there.
#[inline(never)]
fn add_place(all: &mut Vec<Activation>)
    requires few { length all.old.items < 48 }
    requires room { 48 ≤ vec_capacity all.old }
    ensures room { 48 ≤ vec_capacity all.new }
    ensures one { (a : Activation) × (all.new.items ≡ all.old.items ++ a ∷ []) }
{
    let mut frame = Frame::default();
    frame.begin(ob_block(0), 0);
    let pushed = all.push(Activation::new(0, 0, frame, Profile::Small));
    prove!(pushed.is_ok());
}

// Sees to it that there is a place behind the first ones.
fn make_place(all: &mut Vec<Activation>, place: usize)
    requires place { place ≤ length all.old.items }
    requires few { (place < 48) × (length all.old.items ≤ 48) }
    requires room { 48 ≤ vec_capacity all.old }
    ensures there { place < length all.new.items }
    ensures few { length all.new.items ≤ 48 }
    ensures room { 48 ≤ vec_capacity all.new }
    ensures kept { take place all.new.items ≡ take place all.old.items }
{
    if place == all.len() {
        add_place(all);
    }
}

// An organization block begins in a place, with its start information in its first local bytes.
fn begin_in(
    all: &mut [Activation],
    place: usize,
    profile: Profile,
    class: u8,
    ob: u16,
    local_len: u16,
    info: &StartInfo,
)
    requires place { place < length all.old }
    requires local { local_len ≤ 1024 }
    ensures { all.new ≡ set all.old place (with_start_bytes 0 info.now.bytes
        (activation_begun profile class ob (frame_begun (block_of_ob ob) local_len))) }
{
    let a = &mut all[place];
    a.restart(class, ob, ob_block(ob), local_len, profile);
    set_start_bytes(a, &info.bytes);
}

impl Activations {
    /// Nothing runs, and there is room for all that can stand.
    pub(crate) fn new(alloc: Global) -> Result<Activations, NoMemory>
        ensures { IfOk result (λ a. a ≡ []) }
    {
        let all = Vec::with_capacity(alloc, ACTIVATIONS)?;
        Ok(Activations {
            all,
            count: 0,
            spare: Bindings::new(),
        })
    }

    /// Ends all activations.
    pub(crate) fn clear(&mut self)
        ensures { self.new ≡ [] }
    {
        self.count = 0;
    }

    /// The running activation.
    pub(crate) fn running(&self) -> Option<&Activation>
        ensures { option_map (λ a. a.now) result ≡ running_of self.now }
    {
        let place = self.count.checked_sub(1)?;
        self.all.as_slice().get(place)
    }

    /// The block of the running activation's statement, and its line.
    pub(crate) fn spot(&self, program: &Loaded) -> Option<Spot>
        requires { IsReady (code_of program.now.program) self.now }
        ensures { result ≡ running_spot (code_of program.now.program) self.now }
    {
        let running = self.running()?;
        spot_of(program, running)
    }

    /// Whether an organization block of this class may start: nothing runs, or what runs has a lower
    /// class and doesn't delay interrupts.
    pub(crate) fn may_start(&self, class: u8) -> bool
        ensures { result ≡ may_start class self.now }
    {
        match self.running() {
            None => true,
            Some(running) => running.class < class && running.delay == 0,
        }
    }

    /// The organization blocks that are active, the lowest one first.
    #[tactic(auto, using(crate::proofs::ActiveLemmas::active_standing, crate::proofs::ActiveLemmas::front_count, crate::proofs::ActiveLemmas::standing_count))]
    pub(crate) fn active(&self) -> ArrayVec<u16, ACTIVATIONS>
        requires { length self.now ≤ 48 }
        ensures { result.items ≡ active_obs self.now }
    {
        let mut obs = ArrayVec::new();
        add_obs(&mut obs, &self.all.as_slice()[..self.count]);
        obs
    }

    // An organization block begins above those that stand.
    #[tactic(auto, using(crate::proofs::ActiveLemmas::standing_count, crate::proofs::ActiveLemmas::one_begun))]
    fn push(&mut self, profile: Profile, class: u8, ob: u16, local_len: u16, info: &StartInfo)
        requires room { length self.old < 48 }
        requires local { local_len ≤ 1024 }
        ensures { self.new ≡ with_start_bytes 0 info.now.bytes
            (activation_begun profile class ob (frame_begun (block_of_ob ob) local_len))
            ∷ self.old }
    {
        make_place(&mut self.all, self.count);
        begin_in(
            self.all.as_mut_slice(),
            self.count,
            profile,
            class,
            ob,
            local_len,
            info,
        );
        self.count += 1;
    }

    /// An organization block begins above those that stand, with its start information; false where it
    /// isn't loaded.
    #[tactic(auto, using(crate::proofs::ActiveLemmas::block_begins, crate::proofs::ActiveLemmas::block_missing, crate::proofs::ActiveLemmas::block_is))]
    pub(crate) fn begin(
        &mut self,
        program: &Loaded,
        profile: Profile,
        class: u8,
        ob: u16,
        info: &StartInfo,
    ) -> bool
        requires { length self.old < 48 }
        ensures begins { ObBegins
            (ob_activation profile (code_of program.now.program) class ob info.now)
            self.old self.new result }
        ensures is { IfSome (ob_activation profile (code_of program.now.program) class ob info.now)
            (λ a. (a.class ≡ class) × (a.ob ≡ ob)) }
    {
        match local_len_of(program, ob) {
            None => false,
            Some(local_len) => {
                self.push(profile, class, ob, local_len, info);
                true
            }
        }
    }

    // The running activation gets other registers, and interrupts delayed so often.
    fn hand_on(&mut self, delay: u16, regs: Regs)
        ensures { HandsRegsOn delay regs self.old self.new }
    {
        let Some(place) = self.count.checked_sub(1) else {
            return;
        };
        let running = &mut self.all.as_mut_slice()[place];
        running.delay = delay;
        running.running.regs = regs;
    }

    /// The organization block of a synchronous error of the running activation begins above it; false
    /// where it isn't loaded.
    pub(crate) fn begin_error(&mut self, program: &Loaded, code: u8, at: Option<Spot>) -> bool
        requires { length self.old < 48 }
        ensures begins { ErrorBegins (code_of program.now.program) code at
            self.old self.new result }
        ensures is { IfSome (running_of self.old)
            (λ a. IfSome (error_in (code_of program.now.program) code at a)
            (λ fresh. (fresh.class ≡ a.class) × (fresh.ob ≡ ob_of_error code))) }
    {
        let Some(running) = self.running() else {
            return false;
        };
        let event = failure(code, at);
        let (profile, class, delay) = (running.profile, running.class, running.delay);
        let regs = at_begin(&running.running.regs);
        let begins = self.begin(
            program,
            profile,
            class,
            event.ob(),
            &StartInfo::new(event, class),
        );
        if begins {
            self.hand_on(delay, regs);
        }
        begins
    }

    /// The registers of the running activation.
    pub(crate) fn regs(&self) -> Option<Regs>
        ensures { result ≡ option_map (λ a. a.running.regs) (running_of self.now) }
    {
        let running = self.running()?;
        Some(running.running.regs)
    }

    /// Executes one statement of the running activation, and ends it where that was its return. The
    /// answer is where it stood, with the registers after it, and what came of it; none where nothing
    /// runs.
    pub(crate) fn step(
        &mut self,
        program: &Loaded,
        m: &mut Memory,
        t: &mut Timers,
        n: &mut Counters,
    ) -> Option<(At, Outcome)>
        requires { IsReady (code_of program.now.program) self.old }
        ensures { LeavesStatementStep (code_of program.now.program) self.old self.new
            (global_store m.old t.old n.old) (global_store m.new t.new n.new) result }
    {
        let place = self.count.checked_sub(1)?;
        let running = &mut self.all.as_mut_slice()[place];
        let ob = running.ob;
        let (block, at) = (running.running.frame.block, running.running.frame.at);
        let outcome = statement(program, m, t, n, running, &mut self.spare);
        let regs = running.running.regs;
        if let Outcome::Ended = outcome {
            self.count = place;
        }
        Some((
            At {
                ob,
                block,
                at,
                regs,
            },
            outcome,
        ))
    }

    /// Executes statements of the running activation one after another, as `machine::run`; none where
    /// nothing runs.
    pub(crate) fn run_silently(
        &mut self,
        program: &Loaded,
        m: &mut Memory,
        t: &mut Timers,
        n: &mut Counters,
        most: u64,
    ) -> u64
        requires { GoesOnReady program.now.program self.old (global_store m.old t.old n.old) }
        ensures few { result ≤ most }
        ensures runs { GoesOnSilently (code_of program.now.program) result self.old self.new
            (global_store m.old t.old n.old) (global_store m.new t.new n.new) }
        ensures stops { result < most → goes_on_silently (code_of program.now.program) self.new
            (global_store m.new t.new n.new) ≡ false }
    {
        let Some(place) = self.count.checked_sub(1) else {
            return 0;
        };
        let running = &mut self.all.as_mut_slice()[place];
        run(program, m, t, n, running, most, &mut self.spare)
    }

    /// The running activation calls a system function, whose result goes where it is bound. The
    /// answer is a stop cause.
    pub(crate) fn serve(
        &mut self,
        number: u16,
        inputs: &Inputs,
        to: Option<Binding>,
        m: &mut Memory,
        s: &mut Sched,
    ) -> Option<u8>
        ensures { ServesRunning number inputs.now to self.old self.new m.old m.new
            (scheduler_of s.old) (scheduler_of s.new) result }
    {
        let place = self.count.checked_sub(1)?;
        let running = &mut self.all.as_mut_slice()[place];
        match serve(number, inputs.as_slice(), s, running) {
            Answer::Value(value) => {
                if let Some(to) = to {
                    give_result(m, running, &to, value);
                }
                None
            }
            Answer::Nothing => None,
            Answer::Halt(cause) => Some(cause),
        }
    }
}
