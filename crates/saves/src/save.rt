// Writing a save.
ghost use Rattle.std.specs.Prelude.{◌≡◌, ◌∷◌, ◌++◌, ◌+◌, ◌-◌, ◌*◌, ◌≤◌, ◌<◌, min, length};
ghost use Rattle.octets.specs.Number.{big_bytes, little_bytes};
ghost use Rattle.octets.specs.Outcome.{outcome};
ghost use Rattle.octets.specs.Over.{over, into};
ghost use Rattle.processor.specs.Memory.{memory};
ghost use Rattle.saves.specs.Save.{saved_into, save_of, shape_field, end_field, frame_field, memory_packet, word_packet, rising};

use octets::{Place, Refusal, number};
use streams::stream;

// How many bytes of the EEPROM a frame has; the last may have fewer.
const BLOCK: usize = 32;

// Writes both memories over the start of out.
pub fn save(eeprom: &[u8], settings: &[u32], out: &mut [u8]) -> Result<usize, Refusal>
    ensures { (outcome result, out.new) ≡ saved_into (memory eeprom.now settings.now) out.old }
{
    if processor::too_large(eeprom.len(), settings.len()) {
        return Err(Refusal::WrongSizes);
    }
    save_sized(eeprom, settings, out)
}

// The shape takes 11 bytes, a block 8 and its own bytes, a word 13, the end 7.
fn save_sized(eeprom: &[u8], settings: &[u32], out: &mut [u8]) -> Result<usize, Refusal>
    requires { (length eeprom.now ≤ 65536) × (length settings.now ≤ 65536) }
    ensures { (outcome result, out.new) ≡ into (save_of (memory eeprom.now settings.now)) out.old }
{
    let blocks = eeprom.len().div_ceil(BLOCK);
    let words = 11 + eeprom.len() + 8 * blocks;
    let end = words + 13 * settings.len();
    if out.len() < end + 7 {
        return Err(Refusal::NoRoom);
    }
    put_shape(eeprom.len() as u32, settings.len() as u32, out);
    put_blocks(eeprom, blocks, &mut out[11..]);
    put_settings(settings, &mut out[words..]);
    put_end((blocks + settings.len()) as u32, &mut out[end..]);
    Ok(end + 7)
}

// A field's tag and the length of its content.
#[tactic(auto, unfolding(octets::specs::Number::big_bytes))]
fn head(tag: u8, len: u16) -> [u8; 3]
    ensures { result ≡ tag ∷ big_bytes 2 len }
{
    let [high, low] = number::big_bytes::<2>(u32::from(len));
    [tag, high, low]
}

fn put_shape(e: u32, s: u32, out: &mut [u8])
    requires { 11 ≤ length out.old }
    ensures { out.new ≡ over (shape_field e s) out.old }
{
    let _ = octets::put(&head(stream::SHAPE, 8), out);
    let _ = octets::put(&number::big_bytes::<4>(e), &mut out[stream::HEAD..]);
    let _ = octets::put(&number::big_bytes::<4>(s), &mut out[7..]);
}

fn put_end(frames: u32, out: &mut [u8])
    requires { 7 ≤ length out.old }
    ensures { out.new ≡ over (end_field frames) out.old }
{
    let _ = octets::put(&head(stream::END, 4), out);
    let _ = octets::put(&number::big_bytes::<4>(frames), &mut out[stream::HEAD..]);
}

// A field with a packet's frame.
fn put_frame(packet: &[u8], out: &mut [u8])
    requires { (length packet.now ≤ 254) × (length packet.now + 5 ≤ length out.old) }
    ensures { out.new ≡ over (frame_field packet.now) out.old }
{
    let _ = octets::put(&head(stream::FRAME, (packet.len() + 2) as u16), out);
    let _ = packet::frame(packet, &mut out[stream::HEAD..]);
}

// The k-th block of the EEPROM.
fn put_block(k: usize, eeprom: &[u8], out: &mut [u8])
    requires block_is_there { (32 * k < length eeprom.now) × (length eeprom.now ≤ 65536) }
    requires room { 8 + min 32 (length eeprom.now - 32 * k) ≤ length out.old }
    ensures { out.new ≡ over (frame_field (memory_packet eeprom.now k)) out.old }
{
    let start = BLOCK * k;
    let len = BLOCK.min(eeprom.len() - start);
    let mut packet = [0; 35];
    put_memory(
        start as u16,
        octets::part(eeprom, Place { start, len }),
        &mut packet,
    );
    put_frame(&packet[..len + 3], out);
}

// The packet of a WriteMemory.
fn put_memory(addr: u16, block: &[u8], out: &mut [u8])
    requires { length block.now + 3 ≤ length out.old }
    ensures { out.new ≡ over (0x04 ∷ (big_bytes 2 addr ++ block.now)) out.old }
{
    let [high, low] = number::big_bytes::<2>(u32::from(addr));
    let _ = octets::put(&[0x04, high, low], out);
    let _ = octets::put(block, &mut out[3..]);
}

// Each block but the last takes 40 bytes, so that they stand 40 bytes apart.
// This and put_settings stay two: one loop over a closure would be longer, since its closures repeat both contracts.
fn put_blocks(eeprom: &[u8], blocks: usize, out: &mut [u8])
    requires blocks_are_there { (32 * blocks ≤ length eeprom.now + 31) × (length eeprom.now ≤ 65536) }
    requires room { length eeprom.now + 8 * blocks ≤ length out.old }
    ensures { out.new ≡ over (rising (memory_packet eeprom.now) blocks) out.old }
{
    for k in 0..blocks {
        put_block(k, eeprom, &mut out[40 * k..]);
    }
}

// The k-th word of the settings.
fn put_setting(k: usize, settings: &[u32], out: &mut [u8])
    requires { (k < length settings.now) × (length settings.now ≤ 65536) × (13 ≤ length out.old) }
    ensures { out.new ≡ over (frame_field (word_packet settings.now k)) out.old }
{
    put_frame(&word_packet(k as u16, settings[k]), out);
}

// The packet of a Write of a word, to an address of three bytes with the extra bit set.
#[tactic(auto, unfolding(octets::specs::Number::big_bytes, octets::specs::Number::little_bytes))]
fn word_packet(addr: u16, word: u32) -> [u8; 8]
    ensures { result ≡ 0x13 ∷ 0x80 ∷ (big_bytes 2 addr ++ little_bytes 4 word) }
{
    let [high, low] = number::big_bytes::<2>(u32::from(addr));
    let [a, b, c, d] = number::little_bytes::<4>(word);
    [0x13, 0x80, high, low, a, b, c, d]
}

fn put_settings(settings: &[u32], out: &mut [u8])
    requires { (length settings.now ≤ 65536) × (13 * length settings.now ≤ length out.old) }
    ensures { out.new ≡ over (rising (word_packet settings.now) (length settings.now)) out.old }
{
    for k in 0..settings.len() {
        put_setting(k, settings, &mut out[13 * k..]);
    }
}
