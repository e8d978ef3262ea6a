ghost use Rattle.std.specs.Prelude.{◌≡◌};
ghost use Rattle.alu.specs.Accumulators.{accumulators_toggled, accumulator_pushed, accumulator_popped, with_word_reversed, with_bytes_reversed, accumulator_increased, accumulator_decreased};

use status_word::Regs;

/// TAK: toggles accumulator 1 with accumulator 2.
pub fn tak(r: &mut Regs)
    ensures { r.new ≡ accumulators_toggled r.old }
{
    let first = r.a1;
    r.a1 = r.a2;
    r.a2 = first;
}

/// PUSH: copies accumulator 1 to accumulator 2.
pub fn push(r: &mut Regs)
    ensures { r.new ≡ accumulator_pushed r.old }
{
    r.a2 = r.a1;
}

/// POP: copies accumulator 2 to accumulator 1.
pub fn pop(r: &mut Regs)
    ensures { r.new ≡ accumulator_popped r.old }
{
    r.a1 = r.a2;
}

/// CAW: changes the byte sequence in ACCU 1-L.
#[tactic(auto, unfolding(crate::specs::Accumulators::with_word_reversed, crate::specs::Accumulators::with_low))]
pub fn caw(r: &mut Regs)
    ensures { r.new ≡ with_word_reversed r.old }
{
    let [b0, b1, b2, b3] = r.a1.to_le_bytes();
    r.a1 = u32::from_le_bytes([b1, b0, b2, b3]);
}

/// CAD: changes the byte sequence in accumulator 1.
#[tactic(auto, unfolding(crate::specs::Accumulators::with_bytes_reversed))]
pub fn cad(r: &mut Regs)
    ensures { r.new ≡ with_bytes_reversed r.old }
{
    r.a1 = r.a1.swap_bytes();
}

/// INC: adds `n` to ACCU 1-L-L, the lowest byte of accumulator 1, modulo 256.
#[tactic(auto, unfolding(crate::specs::Accumulators::accumulator_increased, crate::specs::Accumulators::with_low))]
pub fn inc(r: &mut Regs, n: u8)
    ensures { r.new ≡ accumulator_increased 8 n r.old }
{
    let low = r.a1 % 0x100;
    r.a1 = r.a1 - low + (low + u32::from(n)) % 0x100;
}

/// DEC: takes `n` from ACCU 1-L-L, the lowest byte of accumulator 1, modulo 256.
#[tactic(auto, unfolding(crate::specs::Accumulators::accumulator_decreased, crate::specs::Accumulators::with_low, crate::specs::Signed::modulo))]
pub fn dec(r: &mut Regs, n: u8)
    ensures { r.new ≡ accumulator_decreased 8 n r.old }
{
    let low = r.a1 % 0x100;
    r.a1 = r.a1 - low + (low + 0x100 - u32::from(n)) % 0x100;
}

/// `+ n`: adds `n` to ACCU 1-L, modulo 65536.
#[tactic(auto, unfolding(crate::specs::Accumulators::accumulator_increased, crate::specs::Accumulators::with_low))]
pub fn add_const(r: &mut Regs, n: u16)
    ensures { r.new ≡ accumulator_increased 16 n r.old }
{
    let low = r.a1 % 0x1_0000;
    r.a1 = r.a1 - low + (low + u32::from(n)) % 0x1_0000;
}

/// `+ L#n`: adds `n` to accumulator 1, modulo 4294967296.
#[tactic(auto, unfolding(crate::specs::Accumulators::accumulator_increased, crate::specs::Accumulators::with_low))]
pub fn add_const_wide(r: &mut Regs, n: u32)
    ensures { r.new ≡ accumulator_increased 32 n r.old }
{
    r.a1 = r.a1.wrapping_add(n);
}
