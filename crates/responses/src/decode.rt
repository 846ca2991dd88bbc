// Reading responses. (Responses::from_bytes)
ghost use Rattle.std.specs.Prelude.{◌≡◌};
ghost use Rattle.octets.specs.Outcome.{outcome};
ghost use Rattle.responses.specs.Decode.{read_data_of, memory_of, floats_of, hardware_id_of, fir_size_of, response_by, response_of};

use crate::{Responses, Values};
use facts::HardwareId;
use fields::addr::Addr;
use octets::{Refusal, number};
use views::floats::FloatView;
use views::memory::MemoryView;

impl Responses {
    // Reads a packet. A payload of the response stands in the packet.
    #[tactic(auto, using(octets::proofs::Choosing::tests), unfolding(crate::specs::Decode::response_of))]
    pub fn from_bytes(packet: &[u8]) -> Result<Responses, Refusal>
        ensures { outcome result ≡ response_of packet.now }
    {
        if packet::LONGEST_PACKET < packet.len() {
            return Err(Refusal::TooLong);
        }
        if packet.is_empty() {
            return Ok(Responses::Ack);
        }
        response_by(number::byte(packet, 0), packet)
    }
}

#[tactic(auto, using(octets::proofs::Choosing::tests), unfolding(crate::specs::Decode::response_by, octets::specs::Choice::if_eq))]
fn response_by(kind: u8, p: &[u8]) -> Result<Responses, Refusal>
    ensures { outcome result ≡ response_by kind p.now }
{
    match kind {
        0x02 => parse_read_data(p),
        0x05 => parse_memory(p),
        0x14 => parse_floats(p),
        0x31 => parse_hardware_id(p),
        0x39 => parse_fir_size(p),
        0xab => Ok(Responses::ConfigChanged),
        _ => Ok(Responses::Unknown {
            cmd_id: kind,
            payload: octets::rest_of(p, 0),
        }),
    }
}

// An address here takes two bytes always.
fn parse_read_data(p: &[u8]) -> Result<Responses, Refusal>
    ensures { outcome result ≡ read_data_of p.now }
{
    let addr = Addr::at(p, 1, false);
    let data = Values::Chunks(octets::rest_of(p, 3));
    octets::needing(p, 3, Responses::Read { addr, data })
}

fn parse_memory(p: &[u8]) -> Result<Responses, Refusal>
    ensures { outcome result ≡ memory_of p.now }
{
    MemoryView::from_packet(p).map(Responses::MemoryData)
}

fn parse_floats(p: &[u8]) -> Result<Responses, Refusal>
    ensures { outcome result ≡ floats_of p.now }
{
    FloatView::from_packet(p).map(Responses::FloatData)
}

fn parse_hardware_id(p: &[u8]) -> Result<Responses, Refusal>
    ensures { outcome result ≡ hardware_id_of p.now }
{
    let id = HardwareId {
        fw_major: number::byte(p, 1),
        fw_minor: number::byte(p, 2),
        hw_id: number::byte(p, 3),
    };
    octets::needing(p, 4, Responses::HardwareId(id))
}

fn parse_fir_size(p: &[u8]) -> Result<Responses, Refusal>
    ensures { outcome result ≡ fir_size_of p.now }
{
    let size = number::big16(p, 1);
    octets::needing(p, 3, Responses::FirLoadSize { size })
}
