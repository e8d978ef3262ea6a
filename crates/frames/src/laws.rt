//! Laws of local data: each function does nothing, and its contract is the law.
ghost use Rattle.std.specs.Prelude.{◌≡◌, ◌-◌, ◌++◌, [], ◌∷◌, ℕ, length, take, replicate, slice_get, MatchOption, None, option_and_then};
ghost use Rattle.std.specs.List.{concat};
ghost use Rattle.plc_base.specs.declared.Width.{Width};
ghost use Rattle.plc_mem.specs.Run.{number_over};
ghost use Rattle.plc_mem.specs.Writing.{put_number};
ghost use Rattle.frames.specs.Locals.{LocalData, no_locals, open_locals, close_locals, local_number, local_written};
ghost use Rattle.frames.specs.OwnBytes.{IsLaidOut, IsOwnWritten, frame_bytes, own_bytes};

/// Local data are the bytes of the frames one behind the other, and stay so where a frame is opened
/// or closed. The one that is opened has zeros, the innermost one is closed with its bytes, and
/// every other frame keeps its own.
pub fn law_of_local_bytes()
    ensures each { (l : LocalData) (frame : ℕ)
        → slice_get (own_bytes l) frame ≡ frame_bytes l frame }
    ensures together { (l : LocalData) → IsLaidOut l → concat (own_bytes l) ≡ l.bytes }
    ensures none { IsLaidOut no_locals × (own_bytes no_locals ≡ []) }
    ensures opened { (len : ℕ) (l : LocalData) → IsLaidOut l
        → IsLaidOut (open_locals len l)
        × (own_bytes (open_locals len l) ≡ own_bytes l ++ replicate len 0 ∷ []) }
    ensures closed { (l : LocalData) → IsLaidOut l
        → IsLaidOut (close_locals l)
        × (own_bytes (close_locals l) ≡ take (length (own_bytes l) - 1) (own_bytes l)) }
{}

/// An operand of a frame is read from its own bytes alone and written to them alone, at its place
/// in these, and there is none exactly where these have none. Every other frame keeps its own.
pub fn law_of_local_operands()
    ensures number { (l : LocalData) (frame at bit : ℕ) (width : Width)
        → local_number l frame at bit width
        ≡ option_and_then (λ own. number_over (slice_get own) at bit width)
        (frame_bytes l frame) }
    ensures written { (l : LocalData) (frame at bit : ℕ) (width : Width) (value : ℕ)
        → IsLaidOut l
        → MatchOption (local_written l frame at bit width value)
        (option_and_then (λ own. put_number own at bit width value) (frame_bytes l frame) ≡ None)
        (λ new. IsOwnWritten l new frame at bit width value) }
{}
