ghost use Rattle.std.specs.Prelude.{◌≡◌, ◌+◌, ◌^◌, ◌<◌, ◌≤◌, ◌++◌, replicate, length, [], ◌∷◌, Some, None, MatchResult, nat_le, IfSome};
ghost use Rattle.std.specs.Bool.{OnTrue, OnFalse};
ghost use Rattle.plc_base.specs.Widths.{bit_count, byte_count};
ghost use Rattle.plc_base.specs.Changes.{ChangesOrStays};
ghost use Rattle.frames.specs.Locals.{frame_bytes_end, local_operand_start, local_number, local_written, local_byte_at, local_byte_set, open_locals, close_locals};

use arrayvec::ArrayVec;
use plc_base::Width;
use plc_mem::{Missing, operands};
use std::marker::Model;

/// How many bytes of local data all frames of an activation have at most.
const LOCAL_BYTES: usize = 1024;
/// How many frames an activation has at most.
const FRAMES: usize = 24;

const ZEROS: [u8; LOCAL_BYTES] = [0; LOCAL_BYTES];

/// The local data (L) of all frames of an activation: the bytes of each frame behind those of the
/// frame that called it.
#[derive(Drop)]
pub struct Locals {
    /// The index at which the local bytes of each frame begin, the outermost frame first.
    starts: ArrayVec<u16, FRAMES>,
    /// The local bytes of all frames, those of the outermost frame first.
    bytes: ArrayVec<u8, LOCAL_BYTES>,
}

impl Model for Locals {
    ghost use Rattle.frames.specs.Locals.{LocalData};

    ghost Value = { LocalData };

    ghost view = { λ l. record { starts = l.starts.items; bytes = l.bytes.items } };
}

// So many zeros.
#[tactic(auto, using(crate::proofs::Zeros::first_zeros))]
fn zeros(len: usize) -> &'static [u8]
    requires { len ≤ 1024 }
    ensures { result.now ≡ replicate len 0 }
{
    &ZEROS[..len]
}

// The bytes with more behind them.
fn append(bytes: &mut ArrayVec<u8, LOCAL_BYTES>, more: &[u8])
    requires { length bytes.old.items + length more.now ≤ 1024 }
    ensures { bytes.new.items ≡ bytes.old.items ++ more.now }
{
    match bytes.try_extend_from_slice(more) {
        Ok(()) => {}
        Err(_) => {}
    }
}

impl Locals {
    /// The local data of no frame.
    pub fn new() -> Locals
        ensures { result ≡ record { starts = []; bytes = [] } }
    {
        Locals {
            starts: ArrayVec::new(),
            bytes: ArrayVec::new(),
        }
    }

    /// Takes the local bytes of all frames away.
    pub fn clear(&mut self)
        ensures { self.new ≡ record { starts = []; bytes = [] } }
    {
        self.starts.clear();
        self.bytes.clear();
    }

    /// How many frames have local data here.
    pub fn depth(&self) -> usize
        ensures value { result ≡ length self.now.starts }
        ensures bound { result ≤ 24 }
    {
        self.starts.len()
    }

    // Where the local bytes of a frame end.
    #[inline(always)]
    fn end(&self, frame: usize) -> usize
        requires { frame < 2 ^ 8 }
        ensures value { result ≡ frame_bytes_end self.now frame }
        ensures bound { result < 2 ^ 16 }
    {
        match self.starts.as_slice().get(frame + 1) {
            Some(end) => usize::from(*end),
            None => self.bytes.len(),
        }
    }

    // The first byte of an operand, if it lies within the bytes of the frame.
    #[inline(always)]
    fn place(&self, frame: u8, at: u16, width: Width) -> Option<usize>
        ensures value { result ≡ local_operand_start self.now frame at width }
        ensures bound { IfSome result (λ place. place < 2 ^ 16) }
    {
        let start = usize::from(*self.starts.as_slice().get(usize::from(frame))?);
        let place = start + usize::from(at);
        if place + width.byte_count() <= self.end(usize::from(frame)) {
            Some(place)
        } else {
            None
        }
    }

    /// The unsigned number in the operand from local byte `at` of a frame, if the operand lies
    /// within the frame's bytes.
    #[tactic(auto, unfolding(crate::specs::Locals::local_number))]
    #[inline(always)]
    pub fn number(&self, frame: u8, at: u16, bit: u8, width: Width) -> Option<u32>
        ensures value { result ≡ local_number self.now frame at bit width }
        ensures fits { IfSome result (λ n. n < 2 ^ bit_count width) }
    {
        let place = self.place(frame, at, width)?;
        operands::number(self.bytes.as_slice(), place, bit, width)
    }

    /// Writes a number to an operand of a frame's local bytes.
    #[tactic(auto, unfolding(crate::specs::Locals::local_written))]
    #[inline(always)]
    pub fn put(
        &mut self,
        frame: u8,
        at: u16,
        bit: u8,
        width: Width,
        value: u32,
    ) -> Result<(), Missing>
        requires { value < 2 ^ bit_count width }
        ensures { ChangesOrStays (local_written self.old frame at bit width value)
            self.old self.new result }
    {
        let Some(place) = self.place(frame, at, width) else {
            return Err(Missing);
        };
        operands::put(self.bytes.as_mut_slice(), place, bit, width, value)
    }

    /// The local byte with a number of a frame, if the frame has it.
    pub fn byte(&self, frame: u8, at: u16) -> Option<u8>
        ensures { result ≡ local_byte_at self.now frame at }
    {
        let number = self.number(frame, at, 0, Width::Byte)?;
        Some(number as u8)
    }

    /// Sets a local byte of a frame.
    ///
    /// # Errors
    ///
    /// `Missing`, with nothing changed, exactly where there is no such byte.
    pub fn set_byte(&mut self, frame: u8, at: u16, value: u8) -> Result<(), Missing>
        ensures { ChangesOrStays (local_byte_set self.old frame at value) self.old self.new result }
    {
        self.put(frame, at, 0, Width::Byte, u32::from(value))
    }

    /// Whether a further frame with so many local bytes has room in the 1,024 of an activation.
    pub fn has_room(&self, len: u16) -> bool
        ensures { result ≡ nat_le (length self.now.bytes + len) 1024 }
    {
        self.bytes.len() + usize::from(len) <= LOCAL_BYTES
    }

    /// Opens a further frame, the innermost one, with so many local bytes, all 0.
    pub fn open(&mut self, len: u16)
        requires depth { length self.old.starts < 24 }
        requires room { length self.old.bytes + len ≤ 1024 }
        ensures { self.new ≡ open_locals len self.old }
    {
        self.starts.push(self.bytes.len() as u16);
        append(&mut self.bytes, zeros(usize::from(len)));
    }

    /// Closes the innermost frame: its local bytes are taken away.
    pub fn close(&mut self)
        ensures { self.new ≡ close_locals self.old }
    {
        if let Some(start) = self.starts.pop() {
            self.bytes.truncate(usize::from(start));
        }
    }
}
