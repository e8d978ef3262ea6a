//! The controller: a program and its history.
ghost use Rattle.std.specs.Prelude.{◌≡◌, ◌+◌, ◌-◌, ◌^◌, ◌<◌, ◌≤◌, ◌↔◌, [], ◌∷◌, ◌++◌, length, max, slice_get, is_some, replicate, false, IfOk, OnOk, OnErr, IsNone};
ghost use Rattle.std.specs.Option.{option_copied, option_map};
ghost use Rattle.std.specs.FinMap as finmap;
ghost use Rattle.plc_mem.specs.Places.{IsMemory};
ghost use Rattle.image_file.specs.Readers.{data_bytes_of};
ghost use Rattle.machine.specs.Flat.{code_of};
ghost use Rattle.var_access.specs.Entry.{IsRequest, IsValid};
ghost use Rattle.var_access.specs.Runs.{AreRuns, entries_of_runs};
ghost use Rattle.var_access.specs.declared.What.TheVariants.{Step};
ghost use Rattle.controller.specs.Asking.{request_reply};
ghost use Rattle.controller.specs.SilentSteps.{ShowNothing, steps_silently};
ghost use Rattle.controller.specs.Replay.{state_after_entries};
ghost use Rattle.controller.specs.ReplayResult.{final_data_blocks as blocks_after, next_result, number_with_bytes as with_number, final_state, last_shown};

use crate::cpus::Cpu;
use crate::observing::{Observed, Observer};
use crate::starting::data_numbers;
use image_file::Loaded;
use plc_base::{Mode, NoMemory};
use std::alloc::Global;
use std::marker::Model;
use var_access::{Entries, Entry, Reply, Request, Run, What};

/// A controller: a loaded program, its profile, and the history of all entries so far, from which its
/// state follows. A contract sees these three, and `spare`, for how many further entries there is room.
#[derive(Drop)]
pub struct Controller {
    program: Loaded,
    cpu: Cpu,
    history: Entries,
    observer: Observer,
    /// The numbers of the data blocks, which rise.
    numbers: Vec<u16>,
}

impl Model for Controller {
    ghost use Rattle.controller.specs.Recording.{Recording};

    ghost Value = { Recording };

    ghost use Rattle.controller.specs.Invariant.{IsReplay};

    ghost view = { λ a. record {
      program = a.program.program;
      profile = a.program.profile;
      history = a.history.entries;
      spare = a.history.spare;
    } };

    ghost invariant = { IsReplay };
}

fn data_block_number_at(numbers: &[u16], place: usize) -> Option<u16>
    ensures { result ≡ slice_get numbers.now place }
{
    numbers.get(place).copied()
}

impl Controller {
    /// A controller at its first start, with the sizes of the program's profile, an empty history and
    /// room for no entry.
    ///
    /// # Errors
    ///
    /// `NoMemory` for want of memory.
    pub fn new(alloc: Global, program: Loaded) -> Result<Controller, NoMemory>
        ensures { IfOk result (λ c. c ≡ record {
          program = program.program;
          profile = program.profile;
          history = [];
          spare = 0;
        }) }
    {
        program.law_of_verifying();
        crate::laws::what_runs_goes_on();
        let cpu = Cpu::start(alloc, &program, program.profile())?;
        let numbers = data_numbers(alloc, &program)?;
        let observer = Observer::new(&cpu);
        Ok(Controller {
            program,
            cpu,
            history: Entries::new(alloc),
            observer,
            numbers,
        })
    }

    /// Makes room for `n` further entries, whatever they are.
    ///
    /// # Errors
    ///
    /// `NoMemory` for want of memory. Nothing has changed then.
    pub fn reserve(&mut self, n: u64) -> Result<(), NoMemory>
        requires { length self.old.history + n < 2 ^ 64 }
        ensures ok { OnOk result (self.new ≡ record self.old { spare = max self.old.spare n }) }
        ensures err { OnErr result (self.new ≡ self.old) }
    {
        self.history.reserve(n)
    }

    /// What a request is answered now: its reply, if it were the next entry. Takes no memory.
    pub fn answer(&self, request: &Request) -> Reply
        requires { IsRequest request.now }
        ensures { result
            ≡ request_reply (code_of self.now.program) request.now (final_state self.now) }
    {
        self.cpu.answer(&self.program, request)
    }

    /// Makes one entry of the history. Takes no memory.
    pub fn enter(&mut self, e: &Entry)
        requires room { 1 ≤ self.old.spare }
        requires valid { IsValid e.now }
        ensures history { self.new ≡ record self.old {
          history = self.old.history ++ e.now ∷ [];
          spare = self.old.spare - 1;
        } }
        ensures shown { last_shown self.new ≡ (next_result self.old e.now).seen }
        ensures state { final_state self.new ≡ (next_result self.old e.now).state }
    {
        crate::laws::continues_replay();
        crate::laws::counts_entries();
        self.history.law_of_room();
        crate::laws::what_runs_goes_on();
        let mon = self.cpu.enter(&self.program, &e.what);
        self.observer.look(&self.cpu, mon);
        self.history.push(e, 1);
    }

    /// Makes one entry of the history, and answers what the entry answers: a request its reply, each
    /// other entry `Done`. Takes no memory.
    #[tactic(auto, unfolding(crate::specs::Replay::entry_result))]
    pub fn apply(&mut self, e: Entry) -> Reply
        requires room { 1 ≤ self.old.spare }
        requires valid { IsValid e }
        ensures history { self.new ≡ record self.old {
          history = self.old.history ++ e ∷ [];
          spare = self.old.spare - 1;
        } }
        ensures reply { result ≡ (next_result self.old e).reply }
        ensures shown { last_shown self.new ≡ (next_result self.old e).seen }
        ensures state { final_state self.new ≡ (next_result self.old e).state }
    {
        let reply = match &e.what {
            What::Ask { request } => self.answer(request),
            _ => Reply::Done,
        };
        self.enter(&e);
        reply
    }

    /// Makes a step again and again as long as each time it shows nothing, `most` times at most; the
    /// answer is how often. It stops only before a step that isn't a statement of the silent kind
    /// (`machine::run`) with which the running activation goes on, in STOP, where a block
    /// is monitored, or where a request waits: what it leaves is for `enter`. Takes no memory.
    pub fn step_silently(&mut self, step: &Entry, most: u64) -> u64
        requires step { step.now.what ≡ Step }
        requires room { most ≤ self.old.spare }
        ensures few { result ≤ most }
        ensures history { self.new ≡ record self.old {
          history = self.old.history ++ replicate result step.now;
          spare = self.old.spare - result;
        } }
        ensures nothing { ShowNothing (code_of self.old.program) (final_state self.old)
            (replicate result Step) }
        ensures state { final_state self.new ≡ state_after_entries (code_of self.old.program)
            (final_state self.old) (replicate result Step) }
        ensures stops { result < most
            → steps_silently (code_of self.old.program) (final_state self.new) ≡ false }
    {
        crate::laws::continues_replay();
        crate::laws::counts_entries();
        self.history.law_of_room();
        crate::laws::what_runs_goes_on();
        let made = self.cpu.step_silently(&self.program, most);
        if made == 0 {
            return 0;
        }
        self.observer.pass();
        self.history.push(step, made);
        made
    }

    /// The program with its profile, for another controller.
    pub fn into_program(self) -> Loaded
        ensures { result ≡ record { program = self.program; profile = self.profile } }
    {
        self.program
    }

    /// What the last entry showed.
    pub fn observed(&self) -> &Observed
        ensures { result.now ≡ last_shown self.now }
    {
        self.observer.last_shown()
    }

    /// How many entries the history has.
    pub fn history_len(&self) -> u64
        ensures len { result ≡ length self.now.history }
        ensures bounded { result + self.now.spare < 2 ^ 64 }
    {
        self.history.len()
    }

    /// An entry of the history by its place, counted from 0, if there is one.
    pub fn entry(&self, i: u64) -> Option<Entry>
        ensures value { result ≡ slice_get self.now.history i }
        ensures past { IsNone result ↔ (length self.now.history ≤ i) }
    {
        self.history.entry(i)
    }

    /// The history as runs: written out in their order these are its entries, and no run of steps is
    /// followed by one of the same worker. Takes no memory.
    pub fn runs(&self) -> &[Run]
        ensures out { entries_of_runs result.now ≡ self.now.history }
        ensures are { AreRuns result.now }
    {
        self.history.runs()
    }

    /// Nothing is done. The contract says that the memory after the whole history has its areas, each
    /// of its size and made of bytes.
    pub fn law_of_memory(&self)
        ensures { IsMemory (final_state self.now).store.memory }
    {
        self.cpu.memory.law_of_areas();
    }

    /// The operating mode after the whole history.
    pub fn mode(&self) -> Mode
        ensures { result ≡ (final_state self.now).mode }
    {
        self.cpu.mode()
    }

    /// The bytes of a data block after the whole history; none exactly where the program has no such
    /// block.
    pub fn db_bytes(&self, number: u16) -> Option<&[u8]>
        ensures value { option_copied result
            ≡ finmap.get (final_state self.now).store.memory.data_blocks number }
        ensures loaded { is_some result
            ≡ is_some (data_bytes_of number self.now.program.data_blocks) }
    {
        self.cpu.db_bytes(number)
    }

    /// The number of a data block and its bytes after the whole history, by the block's place among
    /// all by rising number, counted from 0; none from their count on.
    pub fn data_block(&self, place: usize) -> Option<(u16, &[u8])>
        ensures { option_map (λ b. (b.0, b.1.now)) result
            ≡ slice_get (blocks_after self.now) place }
    {
        match data_block_number_at(self.numbers.as_slice(), place) {
            None => None,
            Some(number) => self.number_with_bytes(number),
        }
    }

    // A data block's number with its bytes.
    fn number_with_bytes(&self, number: u16) -> Option<(u16, &[u8])>
        ensures { option_map (λ b. (b.0, b.1.now)) result ≡ option_map (with_number number)
            (finmap.get (final_state self.now).store.memory.data_blocks number) }
    {
        match self.cpu.db_bytes(number) {
            None => None,
            Some(bytes) => Some((number, bytes)),
        }
    }
}
