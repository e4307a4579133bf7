ghost use Rattle.std.specs.Prelude.{◌≡◌, ◌+◌, ◌≤◌, IfOk, length};
ghost use Rattle.std.specs.Result.{result_err};
ghost use Rattle.lots.specs.Lots.{terms};
ghost use Rattle.lotfile.specs.LotWords.{words_of_lot, end_words, words_bytes};
ghost use Rattle.lotfile.specs.Writing.{room_refused, lot_refused, end_refused, after};

use crate::fault::WriteFault;
use crate::words::{end_bytes, lot_bytes};
use lots::Lot;
use std::ops::Range;

// Where so many bytes lie behind a place of the buffer, if they have room there.
fn room(buffer: &[u8], place: usize, count: usize) -> Result<Range<usize>, WriteFault>
    ensures told { result_err result ≡ room_refused count buffer.now place }
    ensures range { IfOk result (λ r. (r.start ≡ place) × (r.end ≡ place + count) × (r.end ≤ length buffer.now)) }
{
    match place.checked_add(count) {
        Some(end) if end <= buffer.len() => Ok(place..end),
        _ => Err(WriteFault::NoRoom),
    }
}

// Writes a lot's six words at a place of the buffer. Buffer and place come apart, since a place beyond the buffer is refused.
pub fn write_lot(buffer: &mut [u8], place: usize, lot: Lot) -> Result<(), WriteFault>
    ensures told { result_err result ≡ lot_refused buffer.old place }
    ensures left { buffer.new ≡ after (lot_refused buffer.old place) buffer.old place (words_bytes (words_of_lot (terms lot))) }
{
    let room = room(buffer, place, 24)?;
    buffer[room].copy_from_slice(lot_bytes(lot).as_flattened());
    Ok(())
}

// Writes the word that ends a file of so many lots at a place of the buffer.
pub fn write_end(buffer: &mut [u8], place: usize, count: usize) -> Result<(), WriteFault>
    ensures told { result_err result ≡ end_refused buffer.old place count }
    ensures left { buffer.new ≡ after (end_refused buffer.old place count) buffer.old place (words_bytes (end_words count)) }
{
    let room = room(buffer, place, 4)?;
    let end = end_bytes(count)?;
    buffer[room].copy_from_slice(&end);
    Ok(())
}
