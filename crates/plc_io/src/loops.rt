ghost use Rattle.std.specs.Prelude.{◌≡◌, ◌≤◌, ◌+◌, ◌++◌, take, ◌<◌, length, vec_len, IfOk};
ghost use Rattle.plc_io.specs.Contents.{IsFrontOfFile, ReadsFrom};
ghost use Rattle.plc_io.specs.FileCalls.{LeavesRead};
ghost use Rattle.plc_io.specs.SinkBytes.{WroteText};

use crate::faults::IoFault;
use crate::traits::{Files, Sink};
use std::alloc::Global;

/// The most bytes that `read_to_limit` asks for in one read.
const PIECE: usize = 65536;

/// Reads the file from its start to its end, or to one byte past `limit` where it is longer. So a
/// file is within its limit exactly where at most `limit` bytes come.
pub fn read_to_limit<F: Files>(
    alloc: Global,
    files: &mut F,
    name: &str,
    limit: usize,
) -> Result<Vec<u8>, IoFault>
    ensures front { IfOk result
        (λ v. IsFrontOfFile (F.shown files.old).contents name.now (limit + 1) v.items) }
    ensures bound { IfOk result (λ v. vec_len v ≤ limit + 1) }
    ensures leaves { LeavesRead (F.shown files.old) (F.shown files.new) name.now result }
{
    let mut piece = vec![in alloc; 0u8; PIECE]?;
    read_by_pieces(alloc, files, name, limit, &mut piece)
}

/// Reads the file as `read_to_limit` does, by way of `piece`.
fn read_by_pieces<F: Files>(
    alloc: Global,
    files: &mut F,
    name: &str,
    limit: usize,
    piece: &mut [u8],
) -> Result<Vec<u8>, IoFault>
    requires { 0 < length piece.old }
    ensures front { IfOk result
        (λ v. IsFrontOfFile (F.shown files.old).contents name.now (limit + 1) v.items) }
    ensures bound { IfOk result (λ v. vec_len v ≤ limit + 1) }
    ensures leaves { LeavesRead (F.shown files.old) (F.shown files.new) name.now result }
{
    let mut bytes = Vec::new(alloc);
    while bytes.len() <= limit {
        let room = (limit - bytes.len()).min(piece.len() - 1) + 1;
        if read_more(files, name, &mut bytes, &mut piece[..room])? == 0 {
            return Ok(bytes);
        }
    }
    Ok(bytes)
}

/// Reads the next piece of the file behind the bytes that were read so far, by way of `piece`, and
/// answers how many bytes came.
fn read_more<F: Files>(
    files: &mut F,
    name: &str,
    bytes: &mut Vec<u8>,
    piece: &mut [u8],
) -> Result<usize, IoFault>
    ensures reads { IfOk result
        (ReadsFrom (F.shown files.old).contents name.now (vec_len bytes.old) piece.new) }
    ensures added { IfOk result (λ n. bytes.new.items ≡ bytes.old.items ++ take n piece.new) }
    ensures leaves { LeavesRead (F.shown files.old) (F.shown files.new) name.now result }
{
    let at = bytes.len() as u64;
    let count = files.read_some(name, at, piece)?;
    bytes.extend_from_slice(&piece[..count])?;
    Ok(count)
}

/// Offers the rest of a text to the sink until it has taken all. After a failure it has taken some
/// of its first bytes.
pub fn push_all<K: Sink>(out: &mut K, bytes: &[u8]) -> Result<(), IoFault>
    ensures { WroteText (K.shown out.old) (K.shown out.new) bytes.now result }
{
    let mut done = 0;
    while done < bytes.len() {
        done += out.push(&bytes[done..])?;
    }
    Ok(())
}
