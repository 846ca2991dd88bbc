// Replaying a save: it is checked whole, and only then stored.
ghost use Rattle.std.specs.Prelude.{◌≡◌, length};
ghost use Rattle.processor.specs.Memory.{memory, store as store_all};
ghost use Rattle.octets.specs.Outcome.{outcome};
ghost use Rattle.streams.specs.Stream.{stream_of};
ghost use Rattle.streams.specs.Inside.{frames_write, frame_writes};
ghost use Rattle.saves.specs.Replay.{replay_of};

use octets::Refusal;
use streams::judge::check_for;
use streams::means::meaning_of;
use streams::stream;

// Stores what a save's frames write, in order.
pub fn replay(eeprom: &mut [u8], settings: &mut [u32], save: &[u8]) -> Result<(), Refusal>
    ensures { (outcome result, memory eeprom.new settings.new) ≡ replay_of (memory eeprom.old settings.old) save.now }
{
    check_for(eeprom.len(), settings.len(), save)?;
    store_frames(stream::fields_of(save), eeprom, settings);
    Ok(())
}

// A `while`, since how long a field is stands in its own bytes: no iterator of the library goes over them.
fn store_frames(fields: &[u8], eeprom: &mut [u8], settings: &mut [u32])
    ensures { memory eeprom.new settings.new ≡ store_all (frames_write (length eeprom.old) (length settings.old) (stream_of fields.now).frames) (memory eeprom.old settings.old) }
{
    let mut rest = fields;
    while stream::tag_of(rest) == stream::FRAME {
        store_frame(stream::content_of(rest), eeprom, settings);
        let end = stream::field_end(rest);
        rest = &rest[end..];
    }
}

fn store_frame(frame: &[u8], eeprom: &mut [u8], settings: &mut [u32])
    ensures { memory eeprom.new settings.new ≡ store_all (frame_writes (length eeprom.old) (length settings.old) frame.now) (memory eeprom.old settings.old) }
{
    let packet = stream::packet_in(frame);
    if let Ok(change) = meaning_of(packet, eeprom.len(), settings.len()) {
        processor::change::store(change, packet, eeprom, settings);
    }
}
