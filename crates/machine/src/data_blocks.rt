//! OPN, CDB, L DBLG, L DBNO, L DILG, L DINO.
ghost use Rattle.std.specs.Prelude.{◌≡◌, ◌<◌};
ghost use Rattle.frames.specs.FrameData.{frame_data_of};
ghost use Rattle.machine.specs.ExecState.{local_of, with_local};
ghost use Rattle.machine.specs.Outcomes.{ChangesRunningRegs, ChangesLocal};
ghost use Rattle.machine.specs.DataBlocks.{is_block_loaded as is_loaded_in, block_opened_if, block_opened_by, registers_exchanged, number_opened as number_opened_of, len_opened as len_opened_of, open_block_fact as open_block_fact_of, loading_open_block};

use crate::loads::put_loaded;
use crate::places::{NO_OPERAND, pointer_word};
use flat_code::{DB_REGISTER_NUMBER, Operand};
use frames::{Frame, Running};
use plc_base::error_codes;
use plc_mem::Memory;

/// Whether a data block is loaded.
pub(crate) fn is_loaded(number: u16, m: &Memory) -> bool
    ensures { result ≡ is_loaded_in number m.now }
{
    m.data_block(number).is_some()
}

// Opens a data block in the DB (1) or DI (2) register, if it is loaded.
fn open_if_loaded(register: u8, number: u16, s: &mut Running, m: &Memory) -> Result<(), u8>
    ensures { ChangesLocal
        (block_opened_if (is_loaded_in number m.now) register number (local_of s.old))
        s.old s.new result }
{
    if !is_loaded(number, m) {
        return Err(error_codes::NO_DATA_BLOCK);
    }
    if register == DB_REGISTER_NUMBER {
        s.frame.db = Some(number);
    } else {
        s.frame.di = Some(number);
    }
    Ok(())
}

/// OPN.
#[tactic(auto, unfolding(crate::specs::DataBlocks::block_opened_by))]
#[inline(never)]
pub(crate) fn open(operand: &Operand, s: &mut Running, m: &Memory) -> Result<(), u8>
    ensures { ChangesLocal (block_opened_by operand.now (local_of s.old) m.now) s.old s.new result }
{
    match *operand {
        Operand::OpenBlock { register, number } => open_if_loaded(register, number, s, m),
        Operand::OpenBy {
            register,
            from,
            byte,
        } => {
            let number = pointer_word(from, byte, s, m)?;
            open_if_loaded(register, number, s, m)
        }
        _ => Err(NO_OPERAND),
    }
}

/// CDB.
#[tactic(auto, unfolding(crate::specs::DataBlocks::registers_exchanged))]
pub(crate) fn exchange(s: &mut Running)
    ensures { s.new ≡ with_local s.old (registers_exchanged (local_of s.old)) }
{
    let db = s.frame.db;
    s.frame.db = s.frame.di;
    s.frame.di = db;
}

fn number_opened(block: Option<u16>) -> u32
    ensures { result ≡ number_opened_of block }
{
    match block {
        Some(number) => u32::from(number),
        None => 0,
    }
}

fn len_opened(block: Option<u16>, m: &Memory) -> u32
    ensures { result ≡ len_opened_of block m.now }
{
    match block {
        Some(number) => match m.data_block(number) {
            Some(bytes) => (bytes.len() % 0x1_0000_0000) as u32,
            None => 0,
        },
        None => 0,
    }
}

#[tactic(auto, unfolding(crate::specs::DataBlocks::open_block_fact))]
fn open_block_fact(which: u32, f: &Frame, m: &Memory) -> u32
    ensures { result ≡ open_block_fact_of which (frame_data_of f.now) m.now }
{
    match which {
        0 => len_opened(f.db, m),
        1 => number_opened(f.db),
        2 => len_opened(f.di, m),
        _ => number_opened(f.di),
    }
}

/// L DBLG, L DBNO, L DILG, L DINO.
#[tactic(auto, unfolding(crate::specs::DataBlocks::loading_open_block))]
#[inline(never)]
pub(crate) fn load_open_block(operand: &Operand, s: &mut Running, m: &Memory) -> Result<(), u8>
    ensures { ChangesRunningRegs (loading_open_block operand.now (local_of s.old) m.now)
        s.old s.new result }
{
    match *operand {
        Operand::Literal { value } => {
            let number = open_block_fact(value, &s.frame, m);
            put_loaded(&mut s.regs, number);
            Ok(())
        }
        _ => Err(NO_OPERAND),
    }
}
