//! CALL, UC and CC of a function or function block.
ghost use Rattle.std.specs.Prelude.{◌≡◌, ◌<◌, ◌≤◌, length, None};
ghost use Rattle.frames.specs.Activations.{block_entered, entry_fault, frames_of};
ghost use Rattle.flat_code.specs.Codes.{first_found};
ghost use Rattle.machine.specs.Entering.{at_block as at_block_of, called_frame as fresh_of, caller_at, instance_supplied, entry_or_stop, Enters, LeavesCall};

use crate::copies::copy_params_in;
use flat_code::Param;
use frames::{Activation, Bindings, Frame, FrameFault, Relay};
use plc_base::BlockId;
use plc_mem::Memory;
use status_word::{Brackets, Regs};
use std::marker::Model;

/// A block that is called: its instance, if one is named, its local bytes and its parameters.
#[derive(Drop)]
pub(crate) struct CalledBlock<'a> {
    pub(crate) block: BlockId,
    pub(crate) instance: Option<u16>,
    pub(crate) local_len: u16,
    pub(crate) params: &'a [Param],
}

impl<'a> Model for CalledBlock<'a> {
    ghost use Rattle.machine.specs.Entering.{CalledBlock as CalledBlockData};

    ghost Value = { CalledBlockData };

    ghost view = { λ c. record {
      block = c.block;
      instance = c.instance;
      local_len = c.local_len;
      params = c.params.now;
    } };
}

/// The registers at a call or return: OS 0, OR 0, STA 1, /FC 0.
pub(crate) fn at_block(r: &mut Regs)
    ensures { r.new ≡ at_block_of r.old }
{
    r.status.os = false;
    r.status.or = false;
    r.status.sta = true;
    r.status.fc = false;
}

// The DI register of the called block: the instance, else the caller's.
fn di_of(instance: Option<u16>, di: Option<u16>) -> Option<u16>
    ensures { result ≡ first_found instance di }
{
    match instance {
        None => di,
        Some(instance) => Some(instance),
    }
}

// The frame becomes that of the called block, but for its local bytes.
fn begin(called: &CalledBlock<'_>, bindings: &Bindings, frame: &mut Frame)
    requires { frame.old.local_len ≡ called.now.local_len }
    ensures { frame.new ≡ fresh_of called.now bindings.now frame.old }
{
    frame.block = called.block;
    frame.at = 0;
    frame.di = di_of(called.instance, frame.di);
    frame.instance = called.instance;
    frame.brackets = Brackets::new();
    frame.relay = Relay::off();
    frame.bindings.copy_from(bindings);
}

// The caller goes on behind the call, and the called block runs; it has room.
fn enter(called: &CalledBlock<'_>, bindings: &Bindings, next: u32, a: &mut Activation)
    requires depth { length a.old.running.locals.starts ≡ length (frames_of a.old) }
    requires few { length (frames_of a.old) < 24 }
    requires room { entry_fault called.now.local_len a.old ≡ None }
    ensures { a.new ≡ block_entered (fresh_of called.now bindings.now a.old.running.frame)
        (caller_at next a.old) }
{
    at_block(&mut a.running.regs);
    a.running.frame.at = next;
    a.enter_again(called.local_len);
    begin(called, bindings, &mut a.running.frame);
}

// The parameters of a function block are copied in.
fn supply(
    instance: Option<u16>,
    params: &[Param],
    bindings: &Bindings,
    a: &mut Activation,
    m: &mut Memory,
)
    requires few { length params.now ≤ 60 }
    requires bound { a.old.running.frame.bindings ≡ bindings.now }
    ensures { instance_supplied instance params.now a.old m.old ≡ Enters a.new m.new }
{
    match instance {
        None => {}
        Some(instance) => copy_params_in(params, bindings, instance, &mut a.running, m),
    }
}

/// The block is entered, if it has room.
pub(crate) fn enter_if_room(
    called: &CalledBlock<'_>,
    bindings: &Bindings,
    next: u32,
    a: &mut Activation,
    m: &mut Memory,
) -> Result<(), FrameFault>
    requires depth { length a.old.running.locals.starts ≡ length (frames_of a.old) }
    requires params { length called.now.params ≤ 60 }
    ensures { LeavesCall (entry_or_stop (entry_fault called.now.local_len a.old)
        called.now bindings.now next
        a.old m.old) a.old a.new m.old m.new result }
{
    if let Some(fault) = a.refuses(called.local_len) {
        return Err(fault);
    }
    enter(called, bindings, next, a);
    supply(called.instance, called.params, bindings, a, m);
    Ok(())
}
