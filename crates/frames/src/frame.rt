ghost use Rattle.std.specs.Prelude.{◌≡◌};
ghost use Rattle.frames.specs.Activations.{frame_begun};

use crate::bindings::Bindings;
use crate::relay::Relay;
use plc_base::{BlockId, BlockKind};
use status_word::Brackets;

/// The frame of a block that was entered: the block, the position in its code, and what its
/// statements work on besides registers and memory.
#[derive(Drop)]
pub struct Frame {
    /// The kind and number of the block.
    pub block: BlockId,
    /// The byte offset in the block's code of the next statement.
    pub at: u32,
    /// The number of the data block in the DB register, if one is open.
    pub db: Option<u16>,
    /// The number of the data block in the DI register, if one is open.
    pub di: Option<u16>,
    /// The number of the instance data block, if a CALL of a function block made the frame.
    pub instance: Option<u16>,
    /// The open brackets (manual: nesting stack).
    pub brackets: Brackets,
    /// The master control relay (MCR) of the block.
    pub relay: Relay,
    /// How many local bytes the block has.
    pub local_len: u16,
    /// What each parameter of the block stands for.
    pub bindings: Bindings,
}

impl Default for Frame {
    /// The frame of no block, for room in which no frame stands.
    fn default() -> Frame {
        Frame {
            block: BlockId {
                kind: BlockKind::Ob,
                number: 0,
            },
            at: 0,
            db: None,
            di: None,
            instance: None,
            brackets: Brackets::new(),
            relay: Relay::off(),
            local_len: 0,
            bindings: Bindings::new(),
        }
    }
}

// Brackets become the same as others. Mostly there are none on either side.
#[inline(always)]
#[tactic(auto, using(crate::proofs::Nothing::none_there, crate::proofs::Nothing::both_none))]
fn copy_brackets(into: &mut Brackets, from: &Brackets)
    ensures { into.new ≡ from.now }
{
    if into.is_empty() && from.is_empty() {
        return;
    }
    *into = from.copied();
}

impl Frame {
    /// Makes this the frame of a block at its first statement, with so many local bytes.
    pub fn begin(&mut self, block: BlockId, local_len: u16)
        ensures { self.new ≡ frame_begun block local_len }
    {
        self.block = block;
        self.at = 0;
        self.db = None;
        self.di = None;
        self.instance = None;
        self.brackets = Brackets::new();
        self.relay = Relay::off();
        self.local_len = local_len;
        self.bindings.clear();
    }

    /// Makes this frame a copy of another one; only the bindings that there are are copied.
    pub fn copy_from(&mut self, other: &Frame)
        ensures { self.new ≡ other.now }
    {
        self.block = other.block;
        self.at = other.at;
        self.db = other.db;
        self.di = other.di;
        self.instance = other.instance;
        copy_brackets(&mut self.brackets, &other.brackets);
        self.relay.copy_from(&other.relay);
        self.local_len = other.local_len;
        self.bindings.copy_from(&other.bindings);
    }
}
