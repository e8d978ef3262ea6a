//! The first start, and a warm restart.
ghost use Rattle.std.specs.Prelude.{◌≡◌, [], true, map, IfOk};
ghost use Rattle.machine.specs.Flat.{code_of};
ghost use Rattle.plc_mem.specs.Blocks.{bytes_by_number};
ghost use Rattle.plc_mem.specs.Fresh.{initial_memory};
ghost use Rattle.controller.specs.Start.{loaded_obs as obs_loaded, state_after_warm_restart, initial_state, state_in_startup, startup_ob};
ghost use Rattle.controller.specs.Stack.{IsActivationStack};
ghost use Rattle.controller.specs.State.{is_stop};
ghost use Rattle.controller.specs.Starting.{is_data_block_id as is_data_block_of, data_block_numbers_in as numbers_in_of, data_block_numbers, read_block as read_block_of};
ghost use Rattle.controller.specs.Views.{cpu_state};

use crate::activations::Activations;
use crate::beginning::{is_loaded, ob_block};
use crate::cpus::Cpu;
use image_file::Loaded;
use monitor::DiagRing;
use ob_sched::{Sched, StartEvent, StartInfo};
use plc_base::{BlockId, Mode, NoMemory, Profile};
use plc_mem::Memory;
use std::alloc::Global;
use timers_counters::{Counters, Timers};

/// The organization block of the startup.
pub(crate) const STARTUP_OB: u16 = 100;

/// The priority class of the startup.
const STARTUP_CLASS: u8 = 27;

/// Record of diagnostics: a warm restart.
const RESTART_RECORD: u16 = 6;

/// The organization blocks that there are.
static OBS: [u16; 35] = [
    1, 10, 11, 12, 13, 14, 15, 16, 17, 20, 21, 22, 23, 30, 31, 32, 33, 34, 35, 36, 37, 38, 40, 41,
    42, 43, 44, 45, 46, 47, 80, 85, 100, 121, 122,
];

fn loaded_obs(alloc: Global, program: &Loaded) -> Result<Vec<u16>, NoMemory>
    ensures { IfOk result (λ v. v.items ≡ obs_loaded (code_of program.now.program)) }
{
    OBS.iter()
        .copied()
        .filter(|ob| is_loaded(program, ob_block(*ob)))
        .collect(alloc)
}

fn is_data_block(id: &BlockId) -> bool
    ensures { result ≡ is_data_block_of id.now }
{
    id.kind.is_data_block()
}

fn numbers_in(alloc: Global, ids: &[BlockId]) -> Result<Vec<u16>, NoMemory>
    ensures { IfOk result (λ v. v.items ≡ numbers_in_of ids.now) }
{
    ids.iter()
        .filter(|id| is_data_block(id))
        .map(|id| id.number)
        .collect(alloc)
}

/// The numbers of a program's data blocks, which rise.
#[tactic(auto, using(crate::proofs::StartLemmas::numbers_among))]
pub fn data_numbers(alloc: Global, program: &Loaded) -> Result<Vec<u16>, NoMemory>
    ensures { IfOk result
        (λ v. v.items ≡ data_block_numbers (code_of program.now.program).blocks) }
{
    program.law_of_verifying();
    let numbers = numbers_in(alloc, program.blocks())?;
    Ok(numbers)
}

// The number of a data block with a copy of its bytes.
fn read_block(alloc: Global, program: &Loaded, number: u16) -> Result<(u16, Vec<u8>), NoMemory>
    ensures { IfOk result (λ b. (b.0, b.1.items)
        ≡ read_block_of program.now.program.data_blocks number) }
{
    let Some(bytes) = program.data_block(number) else {
        return Ok((number, Vec::new(alloc)));
    };
    let copy = Vec::from_slice(alloc, bytes)?;
    Ok((number, copy))
}

fn read_blocks(
    alloc: Global,
    program: &Loaded,
    numbers: &[u16],
) -> Result<Vec<(u16, Vec<u8>)>, NoMemory>
    ensures { IfOk result (λ v. bytes_by_number v.items
        ≡ map (read_block_of program.now.program.data_blocks) numbers.now) }
{
    let mut blocks = Vec::new(alloc);
    for number in numbers {
        let block = read_block(alloc, program, *number)?;
        blocks.push(block)?;
    }
    Ok(blocks)
}

// Memory with copies of the program's data blocks, in which all else is 0.
#[tactic(auto, using(crate::proofs::StartLemmas::blocks_read, crate::proofs::StartLemmas::blocks_differ))]
fn memory_of(alloc: Global, program: &Loaded, profile: Profile) -> Result<Memory, NoMemory>
    ensures { IfOk result
        (λ m. m ≡ initial_memory profile (code_of program.now.program).blocks) }
{
    program.law_of_verifying();
    let numbers = data_numbers(alloc, program)?;
    let blocks = read_blocks(alloc, program, numbers.as_slice())?;
    let memory = Memory::new(alloc, blocks.as_slice(), profile)?;
    Ok(memory)
}

impl Cpu {
    // With OB 100 the mode is STARTUP, and it begins; else RUN begins.
    fn start_up(&mut self, program: &Loaded)
        requires { self.old.activations ≡ [] }
        ensures { cpu_state self.new
            ≡ state_in_startup (startup_ob self.old.profile (code_of program.now.program))
            (cpu_state self.old) }
    {
        let info = StartInfo::new(StartEvent::Startup, STARTUP_CLASS);
        if self
            .activations
            .begin(program, self.profile, STARTUP_CLASS, STARTUP_OB, &info)
        {
            self.mode = Mode::Startup;
        } else {
            self.start_run();
        }
    }

    /// The first start of a program at a profile: data blocks as loaded, all other memory 0, and with
    /// OB 100 STARTUP, else RUN. The room for all activations is taken here, and no other call takes
    /// memory.
    ///
    /// # Errors
    ///
    /// `NoMemory` for want of memory.
    #[tactic(auto, unfolding(crate::specs::Start::initial_state))]
    pub fn start(alloc: Global, program: &Loaded, profile: Profile) -> Result<Cpu, NoMemory>
        ensures { IfOk result
            (λ p. cpu_state p ≡ initial_state profile (code_of program.now.program)) }
    {
        let obs = loaded_obs(alloc, program)?;
        let mut cpu = Cpu {
            profile,
            memory: memory_of(alloc, program, profile)?,
            timers: Timers::new(profile),
            counters: Counters::new(profile),
            mode: Mode::Run,
            activations: Activations::new(alloc)?,
            sched: Sched::new(alloc, obs.as_slice())?,
            first_cycle: true,
            monitored: None,
            diagnostics: DiagRing::new(alloc)?,
            entries: 0,
        };
        cpu.start_up(program);
        Ok(cpu)
    }

    /// A warm restart out of STOP: what isn't retained is cleared, and with OB 100 STARTUP begins, else
    /// RUN.
    #[tactic(auto, unfolding(crate::specs::Start::state_after_warm_restart), using(crate::proofs::StandingLemmas::stop_idle))]
    pub(crate) fn restart(&mut self, program: &Loaded)
        requires stopped { is_stop self.old.mode ≡ true }
        requires stack { IsActivationStack self.old.mode self.old.activations }
        ensures state { cpu_state self.new
            ≡ state_after_warm_restart (code_of program.now.program) (cpu_state self.old) }
        ensures stack { IsActivationStack self.new.mode self.new.activations }
    {
        self.diagnose(RESTART_RECORD, 0);
        self.memory.clear_unretained();
        self.timers = Timers::new(self.profile);
        self.counters.clear_unretained();
        self.sched.restart();
        self.first_cycle = true;
        self.start_up(program);
    }
}
