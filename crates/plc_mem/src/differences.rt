// Where two runs of bytes differ.
ghost use Rattle.std.specs.Prelude.{◌≡◌, ℕ, ◌+◌, ◌<◌, ◌≤◌, length, slice_get, IsTrue};
ghost use Rattle.plc_mem.specs.Changes.{IsFirstDifference};

/// How many bytes are compared at once: outputs seldom change, so most blocks of bytes are equal.
pub(crate) const BLOCK: usize = 64;

/// The first index, from `from` on, at which two lists of bytes of the same length differ, if there
/// is one.
pub(crate) fn first_difference(old: &[u8], new: &[u8], from: usize) -> Option<usize>
    requires { length old.now ≡ length new.now }
    ensures { IsFirstDifference old.now new.now from result }
{
    for i in skip_equal_blocks(old, new, from)..old.len() {
        if old[i] != new[i] {
            return Some(i);
        }
    }
    None
}

// An index from `from` on, before which nothing differs from there on.
fn skip_equal_blocks(old: &[u8], new: &[u8], from: usize) -> usize
    requires { length old.now ≡ length new.now }
    ensures ahead { from ≤ result }
    ensures same { (n : ℕ) → from ≤ n → n < result →
        slice_get new.now n ≡ slice_get old.now n }
{
    let mut at = from;
    while at < old.len() && old.len() - at >= BLOCK && are_equal_bytes(old, new, at) {
        at += BLOCK;
    }
    at
}

// Whether the 64 bytes from an index on are the same in the two runs.
fn are_equal_bytes(old: &[u8], new: &[u8], at: usize) -> bool
    requires old { at + 64 ≤ length old.now }
    requires new { at + 64 ≤ length new.now }
    ensures { IsTrue result → (n : ℕ) → at ≤ n → n < at + 64 →
        slice_get new.now n ≡ slice_get old.now n }
{
    let mut same = true;
    for i in at..at + BLOCK {
        same &= old[i] == new[i];
    }
    same
}
