//! Tables by which what has a key is found without a search.
ghost use Rattle.std.specs.Prelude.{◌≡◌, length, nat_lt, slice_set, slice_get, if◌then◌else◌, IfOk};
ghost use Rattle.image_file.specs.Tables.{IsTableOf};

use plc_base::NoMemory;
use std::alloc::{AllocError, Global};

/// A place past the end of each list: nothing has the key. As a mark: no op begins.
pub(crate) const NOWHERE: u32 = 0xFFFF_FFFF;

/// Puts a place into a table, if there is such an offset.
fn put(table: &mut [u32], at: usize, place: u32)
    ensures { table.new ≡ (if nat_lt at (length table.old) then slice_set table.old at place
        else table.old) }
{
    if at < table.len() {
        table[at] = place;
    }
}

/// By offset below a length, the place of the first start there in a list of starts. No memory
/// holds a list with more places than a table can name.
pub(crate) fn table_of(alloc: Global, starts: &[u32], len: usize) -> Result<Vec<u32>, NoMemory>
    ensures { IfOk result (λ v. IsTableOf starts.now len v.items) }
{
    if starts.len() > NOWHERE as usize {
        return Err(AllocError);
    }
    let mut table = vec![in alloc; NOWHERE; len]?;
    for i in (0..starts.len()).rev() {
        put(&mut table, starts[i] as usize, i as u32);
    }
    Ok(table)
}

/// What a table has at an offset.
pub(crate) fn place_at_offset(table: &[u32], at: u32) -> Option<usize>
    ensures { result ≡ slice_get table.now at }
{
    let place = table.get(at as usize)?;
    Some(*place as usize)
}
