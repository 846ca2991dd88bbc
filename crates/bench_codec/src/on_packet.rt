// Requests over the crates packet and numbers. Floats come and go as their patterns.
use bench_words::*;
use numbers::fixed_point::FixedPoint;
use numbers::float::*;
use numbers::gain::Gain;
use octets::{Place, Refusal};

pub fn ask(verb: usize, n: Numbers, bytes: &[u8], out: &mut [u8]) -> Answer {
    let [n, ..] = n;
    let packet = head(bytes, n);
    match verb {
        1 => number(packet::checksum(packet) as u32),
        2 => written(packet::frame(packet, out)),
        3 => received(packet::unframe(packet)),
        4 => received(packet::unframe_strict(packet)),
        5 => number(FixedPoint::from_f32(from_bits(n)).to_u32()),
        6 => number(to_bits(FixedPoint::from_u32(n).to_f32())),
        7 => number(to_bits(from_bits(n))),
        8 => number(Gain(from_bits(n)).to_u8() as u32),
        44 => received(packet::unframe_exact(packet)),
        _ => number(to_bits(Gain::from_u8(byte(n)).0)),
    }
}

fn received(received: Result<Place, Refusal>) -> Answer {
    match received {
        Ok(place) => at(place),
        Err(k) => refused(k),
    }
}

pub fn at(place: Place) -> Answer {
    of(low(place.start), low(place.len), 0, 0)
}
