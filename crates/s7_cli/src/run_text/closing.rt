ghost use Rattle.std.specs.Prelude.{◌≡◌, ◌≤◌, length, take, drop};
ghost use Rattle.std.specs.List.{flat_map};
ghost use Rattle.plc_io.specs.SinkBytes.{WroteText};
ghost use Rattle.controller.specs.ReplayResult.{final_data_blocks as blocks_after};
ghost use Rattle.s7_cli.specs.run_text.Behind.{closing_of};
ghost use Rattle.s7_cli.specs.run_text.RunText.{data_block_text};

use controller::Controller;
use monitor::{ROW_BYTES, end_text, row_text};
use plc_io::{IoFault, Sink, push_all};

/// The bytes of a row: 32, or as many as are left.
fn row_bytes(bytes: &[u8], at: usize) -> &[u8]
    requires { at ≤ length bytes.now }
    ensures value { result.now ≡ take 32 (drop at bytes.now) }
    ensures short { length result.now ≤ 32 }
{
    let rest = &bytes[at..];
    &rest[..rest.len().min(ROW_BYTES)]
}

/// Writes a data block in rows of 32 bytes.
#[tactic(auto, unfolding(crate::specs::run_text::RunText::data_block_text))]
fn write_block<K: Sink>(out: &mut K, number: u16, bytes: &[u8]) -> Result<(), IoFault>
    ensures { WroteText (K.shown out.old) (K.shown out.new) (data_block_text (number, bytes.now))
        result }
{
    for row in 0..bytes.len().div_ceil(ROW_BYTES) {
        let at = ROW_BYTES * row;
        push_all(out, row_text(number, at, row_bytes(bytes, at)).as_slice())?;
    }
    Ok(())
}

/// Writes the data blocks by rising number.
fn write_blocks<K: Sink>(out: &mut K, controller: &Controller) -> Result<(), IoFault>
    ensures { WroteText (K.shown out.old) (K.shown out.new)
        (flat_map data_block_text (blocks_after controller.now)) result }
{
    let mut place = 0;
    while let Some((number, bytes)) = controller.data_block(place) {
        write_block(out, number, bytes)?;
        let Some(next) = place.checked_add(1) else {
            return Err(IoFault::NoMemory);
        };
        place = next;
    }
    Ok(())
}

/// Writes the mode at the end of a history, and the data blocks.
pub fn write_closing<K: Sink>(out: &mut K, controller: &Controller) -> Result<(), IoFault>
    ensures { WroteText (K.shown out.old) (K.shown out.new) (closing_of controller.now) result }
{
    let end = end_text(controller.history_len(), controller.mode());
    push_all(out, end.as_slice())?;
    write_blocks(out, controller)
}
