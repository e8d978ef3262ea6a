ghost use Rattle.std.specs.Prelude.{◌≡◌, ◌+◌, ◌*◌, ◌^◌, ◌<◌, ◌≤◌, ◌++◌, ◌∷◌, [], length, OnOk, IfOk};
ghost use Rattle.std.specs.List.{All, flat_map};
ghost use Rattle.var_access.specs.Entry.{IsValid};
ghost use Rattle.generator.specs.Draws.{random_draws as draws_of};
ghost use Rattle.generator.specs.History.{round_event, generated_history, memory_word, step_entry_of_worker_1, generated_round};

use crate::draws::Draws;
use crate::sources::SOURCE_DRAWS;
use plc_base::{Area, NoMemory, Place, Width};
use std::alloc::Global;
use var_access::{Entries, Entry, Request, Var, Vars, What};

/// How many rounds a history has, one for each draw.
const ROUNDS: u32 = 1_000;

/// The worker that steps.
const STEPPER: u8 = 1;

/// The worker that feeds inputs and ticks.
const FEEDER: u8 = 2;

/// The worker of operator 1.
const OPERATOR_1: u8 = 3;

/// A step.
fn one_step() -> Entry
    ensures { result ≡ step_entry_of_worker_1 }
{
    Entry {
        who: STEPPER,
        what: What::Step,
    }
}

/// A word of bit memory, by its first byte.
fn memory_word(byte: u16) -> Var
    ensures { result ≡ memory_word byte }
{
    Var {
        place: Place {
            number: 0,
            byte,
            area: Area::M,
            bit: 0,
        },
        width: Width::Word,
    }
}

/// The variables of a request that reads one.
fn one_var(var: Var) -> Vars
    ensures { result ≡ var ∷ [] }
{
    let mut vars = Vars::new();
    vars.push(var);
    vars
}

/// What happens in a round behind its steps.
#[tactic(auto, unfolding(crate::specs::History::round_event))]
fn happening(draw: u32) -> Entry
    ensures { result ≡ round_event draw }
{
    match draw / 400 % 3 {
        0 => Entry {
            who: FEEDER,
            what: What::Tick { ms: 1 },
        },
        1 => Entry {
            who: FEEDER,
            what: What::Input {
                byte: (draw % 128) as u16,
                value: (draw % 256) as u8,
            },
        },
        _ => Entry {
            who: OPERATOR_1,
            what: What::Ask {
                request: Request::ReadVars {
                    vars: one_var(memory_word((2 * (draw % 100)) as u16)),
                },
            },
        },
    }
}

/// Appends the round that a draw gives.
#[tactic(auto, unfolding(crate::specs::History::generated_round))]
fn append_round(draw: u32, entries: &mut Entries) -> Result<(), NoMemory>
    requires { length entries.old.entries + entries.old.spare + 401 < 2 ^ 64 }
    ensures round { OnOk result (entries.new ≡ record entries.old {
      entries = entries.old.entries ++ generated_round draw;
    }) }
    ensures few { OnOk result (length entries.new.entries ≤ length entries.old.entries + 401) }
{
    entries.append(&one_step(), u64::from(draw % 400 + 1))?;
    entries.append(&happening(draw), 1)
}

/// Appends the rounds of so many draws.
#[tactic(auto, using(crate::proofs::DrawLemmas::pieces_all, crate::proofs::DrawLemmas::pieces_more))]
fn append_rounds(draws: &mut Draws, count: u32, entries: &mut Entries) -> Result<(), NoMemory>
    requires { length entries.old.entries + entries.old.spare + 401 * count < 2 ^ 64 }
    ensures rounds { OnOk result (entries.new.entries
        ≡ entries.old.entries ++ flat_map generated_round (draws_of count draws.old)) }
    ensures few { OnOk result
        (length entries.new.entries ≤ length entries.old.entries + 401 * count) }
{
    for _ in 0..count {
        append_round(draws.draw(), entries)?;
    }
    Ok(())
}

/// The history that a number gives, to run its source by: 1,000 rounds, each of one draw behind
/// those of the source, with one to 400 steps, and then a tick of 1 ms, an input byte that takes a
/// value, or a word of bit memory that operator 1 reads.
///
/// # Errors
///
/// `NoMemory` for want of memory.
#[tactic(auto, using(crate::proofs::RoundLemmas::valid_history), unfolding(crate::specs::History::generated_history))]
pub fn history(alloc: Global, number: u32) -> Result<Entries, NoMemory>
    ensures entries { IfOk result (λ es. es.entries ≡ generated_history number) }
    ensures valid { IfOk result (λ es. All IsValid es.entries) }
    ensures few { IfOk result (λ es. length es.entries ≤ 401000) }
{
    let mut draws = Draws::new(number);
    draws.skip(SOURCE_DRAWS);
    let mut entries = Entries::new(alloc);
    append_rounds(&mut draws, ROUNDS, &mut entries)?;
    Ok(entries)
}
