// Values of commands and responses. (Value of commands.rs)
ghost use Rattle.std.specs.Prelude.{◌≡◌, from_bits};
ghost use Rattle.std.specs.Float.{binary32};
ghost use Rattle.octets.specs.Over.{into};
ghost use Rattle.fields.specs.declared.value.Value.TheVariants.{Float, FixedPoint as FixedValue, Int, Unknown};
ghost use Rattle.octets.specs.Outcome.{outcome};
ghost use Rattle.packet.specs.Summing.{wrote, SumOf};
ghost use Rattle.fields.specs.Value.{value_at, value_from, value_bytes, value_outside, value_into};

use numbers::fixed_point::FixedPoint;
use numbers::float;
use octets::{Place, Refusal, number};
use packet::Summed;

// The bytes of an unknown value stand at a place in lent bytes.
#[derive(Clone, Copy)]
pub enum Value {
    Float(f32),
    FixedPoint(FixedPoint),
    Int(u16),
    Int32(u32),
    Unknown(Place),
}

impl Default for Value {
    fn default() -> Value
        ensures { result ≡ Float (from_bits binary32 0) }
    {
        Value::Float(0.0)
    }
}

impl Value {
    // The Rust's `From` for each, by the names that docs/DIFFERENCES.md and docs/CONTRACTS.md give them.
    pub fn from_f32(x: f32) -> Value
        ensures { result ≡ Float x }
    {
        Value::Float(x)
    }

    pub fn from_fixed_point(x: FixedPoint) -> Value
        ensures { result ≡ FixedValue x }
    {
        Value::FixedPoint(x)
    }

    pub fn from_u16(n: u16) -> Value
        ensures { result ≡ Int n }
    {
        Value::Int(n)
    }

    // The value at a place of a packet.
    pub fn from_bytes(packet: &[u8], place: Place) -> Result<Value, Refusal>
        ensures { outcome result ≡ value_from packet.now place }
    {
        if octets::is_outside(place, packet.len()) {
            return Err(Refusal::Outside);
        }
        Ok(Value::at(packet, place))
    }

    // The same, where a byte that is not there reads as 0.
    #[tactic(auto, using(octets::proofs::Choosing::tests), unfolding(crate::specs::Value::value_at))]
    pub fn at(packet: &[u8], place: Place) -> Value
        ensures { result ≡ value_at packet.now place }
    {
        let start = place.start;
        // a place that starts behind the packet reads as 0, and two further on need not fit
        if place.len != 4 || packet.len() <= start || number::little16(packet, start + 2) != 0 {
            return Value::Unknown(place);
        }
        match number::little16(packet, start) {
            0 => Value::Unknown(place),
            n => Value::Int(n),
        }
    }

    // Whether its place, where it has one, runs past so many bytes.
    pub fn is_outside(self, have: usize) -> bool
        ensures { result ≡ value_outside self have }
    {
        match self {
            Value::Unknown(place) => octets::is_outside(place, have),
            _ => false,
        }
    }

    // Writes the value's bytes over the start of out; those of an unknown value stand in the packet.
    pub fn into_bytes(self, packet: &[u8], out: &mut [u8]) -> Result<usize, Refusal>
        ensures { (outcome result, out.new) ≡ value_into self packet.now out.old }
    {
        self.put(packet, out).map(|summed| summed.len)
    }

    // The same, added up as they are written.
    pub(crate) fn put(self, packet: &[u8], out: &mut [u8]) -> Result<Summed, Refusal>
        ensures out_after { (wrote result, out.new) ≡ value_into self packet.now out.old }
        ensures sum_of { SumOf (value_bytes self packet.now) result }
    {
        match self {
            Value::Float(x) => put4(number::little_bytes::<4>(float::to_bits(x)), out),
            Value::FixedPoint(x) => put4(number::big_bytes::<4>(x.to_u32()), out),
            Value::Int(n) => put4(number::little_bytes::<4>(n as u32), out),
            Value::Int32(n) => put4(number::big_bytes::<4>(n), out),
            Value::Unknown(place) => put_part(packet, place, out),
        }
    }
}

fn put4(bytes: [u8; 4], out: &mut [u8]) -> Result<Summed, Refusal>
    ensures out_after { (wrote result, out.new) ≡ into bytes out.old }
    ensures sum_of { SumOf bytes result }
{
    packet::copy(&bytes, out)
}

// Copies the bytes at a place of the packet.
fn put_part(packet: &[u8], place: Place, out: &mut [u8]) -> Result<Summed, Refusal>
    ensures out_after { (wrote result, out.new) ≡ value_into (Unknown place) packet.now out.old }
    ensures sum_of { SumOf (value_bytes (Unknown place) packet.now) result }
{
    if octets::is_outside(place, packet.len()) {
        return Err(Refusal::Outside);
    }
    packet::copy(octets::part(packet, place), out)
}
