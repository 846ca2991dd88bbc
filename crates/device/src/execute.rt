// Executing commands: everything is decided and the answer settled, and only then stored.
ghost use Rattle.std.specs.Prelude.{◌≡◌, length, ◌+◌, ◌*◌, ◌≤◌};
ghost use Rattle.octets.specs.Outcome.{outcome};
ghost use Rattle.octets.specs.Over.{over};
ghost use Rattle.processor.specs.Memory.{memory};
ghost use Rattle.device.specs.Inside.{data_length};
ghost use Rattle.device.specs.Data.{data_of, memory_part, words_part};
ghost use Rattle.device.specs.Execute.{executed_record, executed_into, command_into, answer_into, packet_into, received_into};

use crate::effect::{Plan, decide, taken};
use commands::Commands;
use octets::{Place, Refusal, number};
use processor::change::store;
use processor::{Device, too_large};
use responses::Responses;

// The most bytes that an answer's payload has: 255 words.
const LONGEST_PAYLOAD: usize = 1020;

// Receives a frame, executes its command and writes the answer's frame.
pub fn receive(
    device: Device,
    frame: &[u8],
    eeprom: &mut [u8],
    settings: &mut [u32],
    out: &mut [u8],
) -> Result<usize, Refusal>
    ensures { (outcome result, memory eeprom.new settings.new, out.new) ≡ received_into device frame.now (memory eeprom.old settings.old) out.old }
{
    if too_large(eeprom.len(), settings.len()) {
        return Err(Refusal::WrongSizes);
    }
    let place = packet::unframe(frame)?;
    receive_packet(device, octets::part(frame, place), eeprom, settings, out)
}

fn receive_packet(
    device: Device,
    packet: &[u8],
    eeprom: &mut [u8],
    settings: &mut [u32],
    out: &mut [u8],
) -> Result<usize, Refusal>
    ensures { (outcome result, memory eeprom.new settings.new, out.new) ≡ packet_into device packet.now (memory eeprom.old settings.old) out.old }
{
    let command = Commands::from_bytes(packet).answer?;
    answer_into(device, command, packet, true, eeprom, settings, out)
}

// Executes a command and writes its answer's packet. A payload of the command stands in the bytes
// lent beside.
pub fn execute_into(
    device: Device,
    command: Commands,
    payload: &[u8],
    eeprom: &mut [u8],
    settings: &mut [u32],
    out: &mut [u8],
) -> Result<usize, Refusal>
    ensures { (outcome result, memory eeprom.new settings.new, out.new) ≡ executed_into device command payload.now (memory eeprom.old settings.old) out.old }
{
    if too_large(eeprom.len(), settings.len()) {
        return Err(Refusal::WrongSizes);
    }
    answer_into(device, command, payload, false, eeprom, settings, out)
}

// Executes a command and answers a record, whose payload is written over the start of data.
pub fn execute(
    device: Device,
    command: Commands,
    payload: &[u8],
    eeprom: &mut [u8],
    settings: &mut [u32],
    data: &mut [u8; LONGEST_PAYLOAD],
) -> Result<Responses, Refusal>
    ensures { (outcome result, memory eeprom.new settings.new, «data».new) ≡ executed_record device command payload.now (memory eeprom.old settings.old) «data».old }
{
    if too_large(eeprom.len(), settings.len()) {
        return Err(Refusal::WrongSizes);
    }
    let Plan { response, change } = decide(device, command, payload, eeprom.len(), settings.len())?;
    put_data(response, eeprom, settings, data);
    store(change, payload, eeprom, settings);
    Ok(response)
}

// The answer's frame, or its packet alone.
fn answer_into(
    device: Device,
    command: Commands,
    payload: &[u8],
    framed: bool,
    eeprom: &mut [u8],
    settings: &mut [u32],
    out: &mut [u8],
) -> Result<usize, Refusal>
    ensures { (outcome result, memory eeprom.new settings.new, out.new) ≡ command_into device framed command payload.now (memory eeprom.old settings.old) out.old }
{
    let plan = decide(device, command, payload, eeprom.len(), settings.len())?;
    let mut data = [0; LONGEST_PAYLOAD];
    let n = put_data(plan.response, eeprom, settings, &mut data);
    let written = write_answer(plan.response, &data[..n], framed, out)?;
    store(plan.change, payload, eeprom, settings);
    Ok(written)
}

// Writes the answer's payload, taken from the memories, over the start of data, and answers how many
// bytes it has.
fn put_data(response: Responses, eeprom: &[u8], settings: &[u32], data: &mut [u8]) -> usize
    requires { (data_length response ≤ 1020) × (1020 ≤ length «data».old) }
    ensures { (result ≡ length (data_of (memory eeprom.now settings.now) response)) × («data».new ≡ over (data_of (memory eeprom.now settings.now) response) «data».old) }
{
    match response {
        Responses::MemoryData(view) => put_memory(view.base, view.data.len, eeprom, data),
        Responses::FloatData(view) => put_words(view.base as usize, view.count, settings, data),
        Responses::Ack
        | Responses::Read { .. }
        | Responses::HardwareId(_)
        | Responses::FirLoadSize { .. }
        | Responses::ConfigChanged
        | Responses::Unk02
        | Responses::Unknown { .. } => 0,
    }
}

// Bytes of the EEPROM, and 0xFF for those that are not taken from it.
fn put_memory(base: u16, size: usize, eeprom: &[u8], data: &mut [u8]) -> usize
    requires { (size ≤ 1020) × (1020 ≤ length «data».old) }
    ensures { (result ≡ length (memory_part eeprom.now base size)) × («data».new ≡ over (memory_part eeprom.now base size) «data».old) }
{
    let len = taken(base, size);
    let start = base as usize;
    let part = octets::part(eeprom, Place { start, len });
    let end = part.len() + (size - len);
    let _ = octets::put(part, data);
    data[part.len()..end].fill(0xff);
    end
}

// Words of the settings, so far as there are any.
fn put_words(base: usize, count: usize, settings: &[u32], data: &mut [u8]) -> usize
    requires { (base ≤ 65535) × (count * 4 ≤ 1020) × (1020 ≤ length «data».old) }
    ensures { (result ≡ length (words_part settings.now base count)) × («data».new ≡ over (words_part settings.now base count) «data».old) }
{
    let end = settings.len().min(base + count);
    let words = &settings[base.min(end)..end];
    for (i, word) in words.iter().enumerate() {
        let _ = octets::put(&number::little_bytes::<4>(*word), &mut data[i * 4..]);
    }
    words.len() * 4
}

// `framed` is handed down as a flag: the definition command_into, of which the public contracts are made, takes it so.
fn write_answer(
    response: Responses,
    payload: &[u8],
    framed: bool,
    out: &mut [u8],
) -> Result<usize, Refusal>
    ensures { (outcome result, out.new) ≡ answer_into framed payload.now response out.old }
{
    if framed {
        response.to_frame(payload, out)
    } else {
        response.to_bytes(payload, out)
    }
}
