// Reading commands. (Commands::from_bytes)
ghost use Rattle.std.specs.Prelude.{◌≡◌, ◌≤◌, ◌<◌, length};
ghost use Rattle.octets.specs.Outcome.{outcome};
ghost use Rattle.commands.specs.Decode.{is_set, read_of, write_memory_of, read_memory_of, unk07_of, write_of, read_floats_of, set_mute_of, bypass_of, set_config_of, switch_mux_of, biquad_of, set_source_of, fir_start_of, fir_data_of, set_volume_of, command_by, command_of, no_values, unknown_at, five_from, values_at};

use crate::{Commands, FirData, Mux};
use fields::addr::Addr;
use fields::value::Value;
use numbers::gain::Gain;
use octets::{Place, Refusal, number};

// The same, with the values that stand beside a command.
#[derive(Clone, Copy)]
pub struct Decoded {
    pub answer: Result<Commands, Refusal>,
    pub values: [Value; 5],
}

impl Commands {
    // Reads a packet. A payload of the command stands in the packet.
    pub fn from_bytes(packet: &[u8]) -> Decoded
        ensures { (outcome result.answer ≡ command_of packet.now) × (result.values ≡ values_at packet.now) }
    {
        Decoded {
            answer: command_of(packet),
            values: values_at(packet),
        }
    }
}

#[tactic(auto, using(octets::proofs::Choosing::tests), unfolding(crate::specs::Decode::command_of))]
fn command_of(packet: &[u8]) -> Result<Commands, Refusal>
    ensures { outcome result ≡ command_of packet.now }
{
    if packet::LONGEST_PACKET < packet.len() {
        return Err(Refusal::TooLong);
    }
    if packet.is_empty() {
        return Err(Refusal::Ends);
    }
    command_by(number::byte(packet, 0), packet)
}

#[tactic(auto, using(octets::proofs::Choosing::tests), unfolding(crate::specs::Decode::command_by, octets::specs::Choice::if_eq))]
fn command_by(kind: u8, p: &[u8]) -> Result<Commands, Refusal>
    requires { 1 ≤ length p.now }
    ensures { outcome result ≡ command_by kind p.now }
{
    match kind {
        0x02 => parse_read(p),
        0x04 => parse_write_memory(p),
        0x05 => parse_read_memory(p),
        0x06 => Ok(Commands::BulkLoadFilterData {
            payload: octets::rest_of(p, 1),
        }),
        0x07 => parse_unk07(p),
        0x12 => Ok(Commands::BulkLoad {
            payload: octets::rest_of(p, 1),
        }),
        0x13 => parse_write(p),
        0x14 => parse_read_floats(p),
        0x17 => parse_set_mute(p),
        0x19 => parse_bypass(p),
        0x25 => parse_set_config(p),
        0x31 => Ok(Commands::ReadHardwareId),
        0x29 => parse_switch_mux(p),
        0x30 => parse_biquad(p),
        0x34 => parse_set_source(p),
        0x39 => parse_fir_start(p),
        0x3a => parse_fir_data(p),
        0x3b => Ok(Commands::FirLoadEnd),
        0x42 => parse_set_volume(p),
        _ => Ok(Commands::Unknown {
            cmd_id: kind,
            payload: octets::rest_of(p, 1),
        }),
    }
}

fn is_set(byte: u8) -> bool
    ensures { result ≡ is_set byte }
{
    byte != 0
}

fn parse_read(p: &[u8]) -> Result<Commands, Refusal>
    requires { 1 ≤ length p.now }
    ensures { outcome result ≡ read_of p.now }
{
    let wide = 3 <= p.len() - 1;
    let k = Addr::width(wide);
    let addr = Addr::at(p, 1, wide);
    let len = number::byte(p, k + 1);
    octets::needing(p, k + 2, Commands::Read { addr, len })
}

fn parse_write_memory(p: &[u8]) -> Result<Commands, Refusal>
    ensures { outcome result ≡ write_memory_of p.now }
{
    let addr = number::big16(p, 1);
    let data = octets::rest_of(p, 3);
    octets::needing(p, 3, Commands::WriteMemory { addr, data })
}

fn parse_read_memory(p: &[u8]) -> Result<Commands, Refusal>
    ensures { outcome result ≡ read_memory_of p.now }
{
    let addr = number::big16(p, 1);
    let size = number::byte(p, 3);
    octets::needing(p, 4, Commands::ReadMemory { addr, size })
}

fn parse_unk07(p: &[u8]) -> Result<Commands, Refusal>
    ensures { outcome result ≡ unk07_of p.now }
{
    let payload = number::byte(p, 1);
    octets::needing(p, 2, Commands::Unk07 { payload })
}

fn parse_write(p: &[u8]) -> Result<Commands, Refusal>
    requires { 1 ≤ length p.now }
    ensures { outcome result ≡ write_of p.now }
{
    let wide = 7 <= p.len() - 1;
    let k = Addr::width(wide);
    let addr = Addr::at(p, 1, wide);
    let value = Value::at(p, octets::rest_of(p, k + 1));
    octets::needing(p, k + 1, Commands::Write { addr, value })
}

fn parse_read_floats(p: &[u8]) -> Result<Commands, Refusal>
    ensures { outcome result ≡ read_floats_of p.now }
{
    let addr = number::big16(p, 1);
    let len = number::byte(p, 3);
    octets::needing(p, 4, Commands::ReadFloats { addr, len })
}

fn parse_set_mute(p: &[u8]) -> Result<Commands, Refusal>
    ensures { outcome result ≡ set_mute_of p.now }
{
    let value = is_set(number::byte(p, 1));
    octets::needing(p, 2, Commands::SetMute { value })
}

fn parse_bypass(p: &[u8]) -> Result<Commands, Refusal>
    requires { 1 ≤ length p.now }
    ensures { outcome result ≡ bypass_of p.now }
{
    let wide = 2 < p.len() - 1;
    let k = Addr::width(wide);
    let addr = Addr::at(p, 1, wide);
    let value = addr.extra_bit;
    octets::needing(p, k + 1, Commands::WriteBiquadBypass { addr, value })
}

fn parse_set_config(p: &[u8]) -> Result<Commands, Refusal>
    ensures { outcome result ≡ set_config_of p.now }
{
    let config = number::byte(p, 1);
    let reset = is_set(number::byte(p, 2));
    octets::needing(p, 3, Commands::SetConfig { config, reset })
}

fn parse_switch_mux(p: &[u8]) -> Result<Commands, Refusal>
    ensures { outcome result ≡ switch_mux_of p.now }
{
    let addr = Addr::at(p, 1, false);
    let mux = number::byte(p, 3);
    let slot = number::byte(p, 4);
    let mux = Mux {
        addr,
        max: mux % 128,
        arg: 128 <= mux,
        slot,
    };
    octets::needing(p, 5, Commands::SwitchMux(mux))
}

#[tactic(auto, using(octets::proofs::Choosing::tests))]
fn parse_biquad(p: &[u8]) -> Result<Commands, Refusal>
    requires { 1 ≤ length p.now }
    ensures { outcome result ≡ biquad_of p.now }
{
    let wide = 24 < p.len() - 1;
    let k = Addr::width(wide);
    if p.len() < k + 3 {
        return Err(Refusal::Ends);
    }
    if p.len() < k + 23 {
        return Err(Refusal::FewValues);
    }
    let addr = Addr::at(p, 1, wide);
    Ok(Commands::WriteBiquad { addr })
}

fn parse_set_source(p: &[u8]) -> Result<Commands, Refusal>
    ensures { outcome result ≡ set_source_of p.now }
{
    let source = number::byte(p, 1);
    octets::needing(p, 2, Commands::SetSource { source })
}

fn parse_fir_start(p: &[u8]) -> Result<Commands, Refusal>
    ensures { outcome result ≡ fir_start_of p.now }
{
    let index = number::byte(p, 1);
    octets::needing(p, 2, Commands::FirLoadStart { index })
}

fn parse_fir_data(p: &[u8]) -> Result<Commands, Refusal>
    ensures { outcome result ≡ fir_data_of p.now }
{
    let index = number::byte(p, 1);
    let count = octets::rest_of(p, 3).len / 4;
    let data = FirData { start: 2, count };
    octets::needing(p, 2, Commands::FirLoadData { index, data })
}

fn parse_set_volume(p: &[u8]) -> Result<Commands, Refusal>
    ensures { outcome result ≡ set_volume_of p.now }
{
    let value = Gain::from_u8(number::byte(p, 1));
    octets::needing(p, 2, Commands::SetVolume { value })
}

// The five values of a 0x30 that is read, and the default beside any other packet.
#[tactic(auto, using(octets::proofs::Choosing::tests), unfolding(crate::specs::Decode::values_at))]
fn values_at(p: &[u8]) -> [Value; 5]
    ensures { result ≡ values_at p.now }
{
    if packet::LONGEST_PACKET < p.len() || number::byte(p, 0) != 0x30 {
        return no_values();
    }
    let k = Addr::width(24 < p.len().saturating_sub(1));
    if p.len() < k + 23 {
        no_values()
    } else {
        five_from(k + 3)
    }
}

pub fn no_values() -> [Value; 5]
    ensures { result ≡ no_values }
{
    [Value::Float(0.0); 5]
}

fn five_from(start: usize) -> [Value; 5]
    requires { start < 65536 }
    ensures { result ≡ five_from start }
{
    std::array::from_fn(|i| unknown4(start + 4 * i))
}

fn unknown4(start: usize) -> Value
    ensures { result ≡ unknown_at start }
{
    Value::Unknown(Place { start, len: 4 })
}
