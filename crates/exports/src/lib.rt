// For callers in C or Rust, which lend a pointer and a length for each slice: the numbers, patterns in
// and patterns out; frames, a save and a replay, each of which answers 0 or the number of its refusal.
// What compare/rust/all, compare/paper/large and compare/speed link.
#![tactic(auto)]

ghost use Rattle.std.specs.Prelude.{◌≡◌, length};
ghost use Rattle.octets.specs.Outcome.{outcome, on_accepted};
ghost use Rattle.octets.specs.Place.{place_at};
ghost use Rattle.numbers.specs.FixedPoint.{code_of, bits_of_code};
ghost use Rattle.packet.specs.Frame.{frame_into};
ghost use Rattle.fields.specs.Row.{row_frame_into};
ghost use Rattle.commands.specs.Encode.{command_row};
ghost use Rattle.commands.specs.Decode.{no_values};
ghost use Rattle.commands.specs.declared.Commands.TheVariants.{Unknown};
ghost use Rattle.processor.specs.Memory.{memory};
ghost use Rattle.saves.specs.Save.{saved_into};
ghost use Rattle.saves.specs.Replay.{replay_of};
ghost use Rattle.exports.specs.Answer.{number_of, in_number, out_number};

use commands::Commands;
use commands::decode::no_values;
use numbers::fixed_point::FixedPoint;
use numbers::float;
use octets::{Place, Refusal};
use saves::replay::replay;
use saves::save::save;

// The 5.23 code of a float's pattern.
#[unsafe(no_mangle)]
pub extern "C" fn wovenpike_from_f32(bits: u32) -> u32
    ensures { result ≡ code_of bits }
{
    FixedPoint::from_f32(float::from_bits(bits)).to_u32()
}

// The pattern of a 5.23 code's float.
#[unsafe(no_mangle)]
pub extern "C" fn wovenpike_to_f32(code: u32) -> u32
    ensures { result ≡ bits_of_code code }
{
    float::to_bits(FixedPoint::from_u32(code).to_f32())
}

fn number_of<T: Drop>(answer: Result<T, Refusal>) -> u8
    ensures { result ≡ number_of (on_accepted (λ value. tt) (outcome answer)) }
{
    match answer {
        Ok(_) => 0,
        Err(refusal) => u8::from(refusal),
    }
}

// Writes the frame of a packet, two bytes longer.
#[unsafe(no_mangle)]
pub extern "C" fn wovenpike_frame(packet: &[u8], out: &mut [u8]) -> u8
    ensures { (result, out.new) ≡ out_number (frame_into packet.now out.old) }
{
    number_of(packet::frame(packet, out))
}

// Writes the frame of a command that has this byte and, behind it, this payload.
#[unsafe(no_mangle)]
pub extern "C" fn wovenpike_command(id: u8, payload: &[u8], out: &mut [u8]) -> u8
    ensures { (result, out.new) ≡ out_number (row_frame_into payload.now (command_row (Unknown id (place_at 0 (length payload.now))) no_values) out.old) }
{
    let command = Commands::Unknown {
        cmd_id: id,
        payload: Place {
            start: 0,
            len: payload.len(),
        },
    };
    number_of(command.to_frame(no_values(), payload, out))
}

// Writes a save of both memories: 18 + E + 8 ceil(E/32) + 13 S bytes.
#[unsafe(no_mangle)]
pub extern "C" fn wovenpike_save(eeprom: &[u8], settings: &[u32], out: &mut [u8]) -> u8
    ensures { (result, out.new) ≡ out_number (saved_into (memory eeprom.now settings.now) out.old) }
{
    number_of(save(eeprom, settings, out))
}

// Replays a save.
#[unsafe(no_mangle)]
pub extern "C" fn wovenpike_replay(eeprom: &mut [u8], settings: &mut [u32], save: &[u8]) -> u8
    ensures { (result, memory eeprom.new settings.new) ≡ in_number (replay_of (memory eeprom.old settings.old) save.now) }
{
    number_of(replay(eeprom, settings, save))
}
