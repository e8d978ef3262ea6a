ghost use Rattle.std.specs.Prelude.{
  ◌≡◌,
  ◌<◌,
  ◌≤◌,
  ◌∷◌,
  [],
  length,
  false,
  IfNone,
  None,
};
ghost use Rattle.plc_base.specs.Changes.{ChangesOrStays};
ghost use Rattle.status_word.specs.Registers.{regs_at_rest};
ghost use Rattle.frames.specs.Activations.{
  EntersBlock,
  ExitsFrame,
  ExitsBlock,
  PopsFrame,
  IsFrame,
  IsFrameIn,
  activation_begun,
  block_entered,
  frame_begun,
  frames_of,
  local_byte,
  entry_fault,
  with_frame,
  with_local_byte,
};

use crate::frame::Frame;
use crate::locals::Locals;
use crate::running::Running;
use plc_base::{BlockId, Profile, Width};
use plc_mem::Missing;
use status_word::Regs;
use std::marker::Model;

/// How many frames an activation has below the innermost one at most.
const BELOW: usize = 23;

/// Why a block can't be entered.
#[derive(Clone, Copy, Debug, PartialEq, Eq)]
pub enum FrameFault {
    /// As many frames stand as the profile allows (block nesting depth).
    Depth,
    /// 1,024 bytes of local data don't hold the block's local bytes as well.
    LocalFull,
}

/// The frames below the innermost one, 23 at most. A contract sees the list of them, the innermost
/// one first. They stay where they are: a frame is copied in when a block is entered, and out when
/// it is exited, and of its bindings only those that there are.
#[derive(Drop)]
pub struct Below {
    /// Room for the frames; those from `count` on mean nothing.
    frames: [Frame; BELOW],
    /// How many frames there are.
    count: usize,
}

impl Model for Below {
    ghost use Rattle.std.specs.Prelude.{◌≡◌, ◌≤◌, List, length, reverse, take};
    ghost use Rattle.frames.specs.declared.frame.Frame.{Frame};

    ghost Value = { List Frame };

    ghost view = { λ b. reverse (take b.count b.frames) };

    ghost invariant = { λ b. (b.count ≤ 23) × (length b.frames ≡ 23) };
}

impl Below {
    #[tactic(auto, using(crate::proofs::Stack::count_of))]
    fn new() -> Below
        ensures { result ≡ [] }
    {
        Below {
            frames: Default::default(),
            count: 0,
        }
    }

    #[tactic(auto, using(crate::proofs::Stack::count_of))]
    fn len(&self) -> usize
        ensures value { result ≡ length self.now }
        ensures bound { result ≤ 23 }
    {
        self.count
    }

    #[tactic(auto, using(crate::proofs::Stack::count_of, crate::proofs::Stack::pushed))]
    fn push(&mut self, frame: &Frame)
        requires { length self.old < 23 }
        ensures { self.new ≡ frame.now ∷ self.old }
    {
        let place = self.count;
        self.frames[place].copy_from(frame);
        self.count = place + 1;
    }

    // Copies the innermost frame out and takes it off; false where there is none.
    #[tactic(auto, using(crate::proofs::Stack::count_of, crate::proofs::Stack::popped))]
    fn pop_to(&mut self, frame: &mut Frame) -> bool
        ensures { PopsFrame self.old self.new frame.old frame.new result }
    {
        if self.count == 0 {
            return false;
        }
        let place = self.count - 1;
        frame.copy_from(&self.frames[place]);
        self.count = place;
        true
    }

    fn clear(&mut self)
        ensures { self.new ≡ [] }
    {
        self.count = 0;
    }

    // The frame at a place, counted from the outermost one.
    #[tactic(auto, using(crate::proofs::Stack::placed))]
    fn get(&self, place: usize) -> Option<&Frame>
        ensures { IsFrameIn self.now place result }
    {
        self.frames[..self.count].get(place)
    }
}

/// An organization block that runs or is suspended: its priority class and number, how often
/// interrupts are delayed in it, what its statements work on, and the frames below the innermost
/// one. It is made for a profile, which only `restart` sets anew.
#[derive(Drop)]
pub struct Activation {
    /// The profile of the controller, which limits the block nesting depth.
    pub profile: Profile,
    /// The priority class of the organization block.
    pub class: u8,
    /// The number of the organization block.
    pub ob: u16,
    /// How often SFC 41 has delayed interrupts and SFC 42 not yet enabled them again, 0 to 32,767.
    pub delay: u16,
    /// What its statements work on: registers, innermost frame and local bytes.
    pub running: Running,
    /// The frames below the innermost one.
    pub below: Below,
    /// Whether the last block was exited, so that no frame stands.
    pub ended: bool,
}

impl Activation {
    /// An activation as its organization block begins: all registers and the status word 0, nothing
    /// delayed, one frame, whose local bytes are 0. `f` has at most 1,024 local bytes.
    pub fn new(class: u8, ob: u16, f: Frame, profile: Profile) -> Activation
        requires { f.local_len ≤ 1024 }
        ensures { result ≡ activation_begun profile class ob f }
    {
        let mut locals = Locals::new();
        locals.open(f.local_len);
        Activation {
            profile,
            class,
            ob,
            delay: 0,
            running: Running {
                regs: Regs::new(),
                frame: f,
                locals,
            },
            below: Below::new(),
            ended: false,
        }
    }

    /// Begins an organization block in the place of an activation, as `new` with the frame of a
    /// block at its first statement: the activation stays where it is. There are at most 1,024
    /// local bytes.
    pub fn restart(&mut self, class: u8, ob: u16, block: BlockId, local_len: u16, profile: Profile)
        requires { local_len ≤ 1024 }
        ensures { self.new ≡ activation_begun profile class ob (frame_begun block local_len) }
    {
        self.profile = profile;
        self.class = class;
        self.ob = ob;
        self.delay = 0;
        self.running.regs = Regs::new();
        self.running.frame.begin(block, local_len);
        self.running.locals.clear();
        self.running.locals.open(local_len);
        self.below.clear();
        self.ended = false;
    }

    /// How many frames stand.
    pub fn depth(&self) -> usize
        ensures value { result ≡ length (frames_of self.now) }
        ensures bound { result ≤ 24 }
    {
        if self.ended { 0 } else { self.below.len() + 1 }
    }

    /// Why a block with so many local bytes can't be entered.
    pub fn refuses(&self, local_len: u16) -> Option<FrameFault>
        ensures value { result ≡ entry_fault local_len self.now }
        ensures room { IfNone result (length (frames_of self.now) < 24) }
    {
        if self.depth() >= self.profile.most_frames() {
            Some(FrameFault::Depth)
        } else if self.running.locals.has_room(local_len) {
            None
        } else {
            Some(FrameFault::LocalFull)
        }
    }

    /// Puts the frame of the last block once more, as the innermost one, with so many local bytes,
    /// all 0; whoever calls this makes it the frame of another block. `entry_fault` has nothing
    /// against it.
    pub fn enter_again(&mut self, local_len: u16)
        requires depth { length self.old.running.locals.starts ≡ length (frames_of self.old) }
        requires few { length (frames_of self.old) < 24 }
        requires room { entry_fault local_len self.old ≡ None }
        ensures { self.new
            ≡ block_entered (record self.old.running.frame { local_len = local_len })
            self.old }
    {
        self.running.locals.open(local_len);
        if self.ended {
            self.below.clear();
            self.ended = false;
        } else {
            self.below.push(&self.running.frame);
        }
        self.running.frame.local_len = local_len;
    }

    /// Enters a block: its frame is the innermost one, and its local bytes are 0.
    ///
    /// # Errors
    ///
    /// `Depth` exactly where as many frames stand as the profile has, else `LocalFull` exactly
    /// where the local bytes would exceed 1,024. Nothing has changed then.
    pub fn enter(&mut self, f: Frame) -> Result<(), FrameFault>
        requires { length self.old.running.locals.starts ≡ length (frames_of self.old) }
        ensures { EntersBlock self.old self.new f result }
    {
        if let Some(fault) = self.refuses(f.local_len) {
            return Err(fault);
        }
        self.enter_again(f.local_len);
        self.running.frame = f;
        Ok(())
    }

    /// Exits the innermost block; the answer says whether its caller goes on. At
    /// least one frame stands.
    pub fn exit_block(&mut self) -> bool
        requires { self.old.ended ≡ false }
        ensures { ExitsBlock self.old.below self.old self.new result }
    {
        self.running.locals.close();
        if self.below.pop_to(&mut self.running.frame) {
            return true;
        }
        self.ended = true;
        false
    }

    /// Exits the innermost block, and gives its frame; `None` exactly where no frame stands.
    pub fn exit(&mut self) -> Option<Frame>
        ensures { ExitsFrame self.old self.new result }
    {
        if self.ended {
            return None;
        }
        let mut frame = Frame::default();
        frame.copy_from(&self.running.frame);
        self.exit_block();
        Some(frame)
    }

    /// The priority class.
    pub fn class(&self) -> u8
        ensures { result ≡ self.now.class }
    {
        self.class
    }

    /// The number of the organization block.
    pub fn ob(&self) -> u16
        ensures { result ≡ self.now.ob }
    {
        self.ob
    }

    /// The registers.
    pub fn regs(&self) -> &Regs
        ensures { result.now ≡ self.now.running.regs }
    {
        &self.running.regs
    }

    /// Sets the registers.
    pub fn set_regs(&mut self, r: Regs)
        ensures { self.new ≡ record self.old { running = record self.old.running { regs = r } } }
    {
        self.running.regs = r;
    }

    /// How often interrupts are delayed.
    pub fn delay(&self) -> u16
        ensures { result ≡ self.now.delay }
    {
        self.delay
    }

    /// Sets how often interrupts are delayed, 32,767 at most.
    pub fn set_delay(&mut self, n: u16)
        requires { n ≤ 32767 }
        ensures { self.new ≡ record self.old { delay = n } }
    {
        self.delay = n;
    }

    /// The frame at a place of the list, counted from 0 at the outermost one; `None` exactly where
    /// no frame has this place.
    pub fn frame(&self, i: u8) -> Option<&Frame>
        ensures { IsFrame self.now i result }
    {
        let place = usize::from(i);
        if self.ended {
            return None;
        }
        if place == self.below.len() {
            return Some(&self.running.frame);
        }
        self.below.get(place)
    }

    /// Puts a frame in the place of the innermost one, of the same block; its local bytes stay.
    pub fn set_frame(&mut self, f: Frame)
        requires stands { self.old.ended ≡ false }
        requires same { (f.block ≡ self.old.running.frame.block)
            × (f.local_len ≡ self.old.running.frame.local_len) }
        ensures { self.new ≡ with_frame f self.old }
    {
        self.running.frame = f;
    }

    /// A local byte of a frame, by its place in the list; `None` exactly where there is no such
    /// byte.
    pub fn local(&self, frame: u8, byte: u16) -> Option<u8>
        ensures { result ≡ local_byte self.now frame byte }
    {
        self.running.locals.byte(frame, byte)
    }

    /// Sets a local byte of a frame, by its place in the list.
    ///
    /// # Errors
    ///
    /// `Missing`, with nothing changed, exactly where there is no such byte.
    pub fn set_local(&mut self, frame: u8, byte: u16, value: u8) -> Result<(), Missing>
        ensures { ChangesOrStays (with_local_byte frame byte value self.old)
            self.old self.new result }
    {
        self.running.locals.set_byte(frame, byte, value)
    }
}
