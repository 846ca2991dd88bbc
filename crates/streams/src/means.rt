// What a packet of a save means: a write to one of the memories.
ghost use Rattle.std.specs.Prelude.{◌≡◌};
ghost use Rattle.octets.specs.Outcome.{outcome, on_accepted};
ghost use Rattle.streams.specs.Means.{packet_means, memory_means, word_means, in_packet};

use fields::addr::Addr;
use octets::{Refusal, number};
use processor::change::Change;

// The change that a packet comes to, whose bytes stand in the packet. e and s are the sizes of the memories.
#[tactic(auto, using(octets::proofs::Choosing::tests), unfolding(crate::specs::Means::packet_means))]
pub fn meaning_of(packet: &[u8], e: usize, s: usize) -> Result<Change, Refusal>
    ensures { outcome result ≡ on_accepted (in_packet packet.now) (packet_means e s packet.now) }
{
    if packet.is_empty() {
        return Err(Refusal::Ends);
    }
    match number::byte(packet, 0) {
        0x04 | 0x13 if packet.len() < 3 => Err(Refusal::Ends),
        0x04 => memory_means(packet, e),
        0x13 if packet.len() == 8 => word_means(packet, s),
        _ => Err(Refusal::WrongField),
    }
}

fn memory_means(packet: &[u8], e: usize) -> Result<Change, Refusal>
    ensures { outcome result ≡ on_accepted (in_packet packet.now) (memory_means e packet.now) }
{
    let addr = number::big16(packet, 1);
    let data = octets::rest_of(packet, 3);
    if e < addr as usize || e - (addr as usize) < data.len {
        return Err(Refusal::Outside);
    }
    Ok(Change::EepromBytes { addr, data })
}

fn word_means(packet: &[u8], s: usize) -> Result<Change, Refusal>
    ensures { outcome result ≡ on_accepted (in_packet packet.now) (word_means s packet.now) }
{
    let addr = Addr::at(packet, 1, true);
    if s <= addr.val as usize {
        return Err(Refusal::Outside);
    }
    let value = number::little32(packet, 4);
    Ok(Change::SettingsWord {
        addr: addr.val,
        value,
    })
}
