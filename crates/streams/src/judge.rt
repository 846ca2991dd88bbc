// Judging a save, up to its first fault.
ghost use Rattle.std.specs.Prelude.{◌≡◌, ◌+◌};
ghost use Rattle.octets.specs.Outcome.{outcome, on_accepted};
ghost use Rattle.packet.specs.Receipt.{packet_at};
ghost use Rattle.octets.specs.Place.{part_of};
ghost use Rattle.streams.specs.Means.{packet_means};
ghost use Rattle.streams.specs.Inside.{no_fault, receipt_of};
ghost use Rattle.streams.specs.Judge.{fields_mean, judged_of, judged_sized, checked_for};

use crate::means::meaning_of;
use crate::shape::{Shape, shape_of};
use crate::stream::fields_of;
use crate::{LONGEST_SAVE, stream};
use octets::{Refusal, number};

// Judges a save against its own sizes.
pub fn judge(save: &[u8]) -> Result<Shape, Refusal>
    ensures { outcome result ≡ on_accepted (λ s. s.shape) (judged_of save.now) }
{
    if LONGEST_SAVE < save.len() {
        return Err(Refusal::TooLong);
    }
    judge_sized(shape_of(save)?, save)
}

fn judge_sized(shape: Shape, save: &[u8]) -> Result<Shape, Refusal>
    ensures { outcome result ≡ on_accepted (λ s. s.shape) (judged_sized save.now shape) }
{
    if processor::too_large(shape.eeprom, shape.settings) {
        return Err(Refusal::WrongSizes);
    }
    scan(fields_of(save), shape.eeprom, shape.settings)?;
    Ok(shape)
}

// Checks a save for memories of e bytes and s words.
pub fn check_for(e: usize, s: usize, save: &[u8]) -> Result<(), Refusal>
    ensures { outcome result ≡ on_accepted (λ a. tt) (checked_for e s save.now) }
{
    if processor::too_large(e, s) {
        return Err(Refusal::WrongSizes);
    }
    if LONGEST_SAVE < save.len() {
        return Err(Refusal::TooLong);
    }
    let shape = shape_of(save)?;
    if shape.eeprom != e || shape.settings != s {
        return Err(Refusal::WrongSizes);
    }
    scan(fields_of(save), e, s)
}

// Goes over the fields and, within, over each frame's bytes, and is left at the first fault.
// Both loops stand here, against the rule of one loop a function: document 01 asks that it be left from within both.
fn scan(fields: &[u8], e: usize, s: usize) -> Result<(), Refusal>
    ensures { outcome result ≡ no_fault (fields_mean e s fields.now) }
{
    let mut rest = fields;
    let mut frames = 0;
    'fields: loop {
        if stream::tag_of(rest) != stream::FRAME {
            break 'fields stream::end_of(rest, frames);
        }
        let frame = stream::content_of(rest);
        receipt(frame)?;
        let len = number::byte(frame, 0) as usize;
        let mut sum: u8 = 0;
        'bytes: for (i, byte) in frame.iter().enumerate() {
            if i == len && sum != *byte {
                break 'fields Err(Refusal::WrongChecksum);
            }
            sum = sum.wrapping_add(*byte);
        }
        packet_fault(stream::packet_in(frame), e, s)?;
        frames += 1;
        let end = stream::field_end(rest);
        rest = &rest[end..];
    }
}

// Exact receipt of a frame, but for its checksum.
fn receipt(frame: &[u8]) -> Result<(), Refusal>
    ensures { outcome result ≡ receipt_of frame.now }
{
    let len = number::byte(frame, 0) as usize;
    if len == 0 {
        return Err(Refusal::Empty);
    }
    if frame.len() < len + 1 {
        return Err(Refusal::Short);
    }
    if len + 1 < frame.len() {
        return Err(Refusal::Trailing);
    }
    Ok(())
}

fn packet_fault(packet: &[u8], e: usize, s: usize) -> Result<(), Refusal>
    ensures { outcome result ≡ no_fault (packet_means e s packet.now) }
{
    meaning_of(packet, e, s).map(|_| ())
}
