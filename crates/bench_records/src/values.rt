// Addresses, values, kinds and sources by their numbers.
use bench_answers::put;
use bench_words::*;
use facts::probe::DeviceKind;
use facts::probe::DeviceKind::*;
use facts::source::Source;
use facts::source::Source::*;
use fields::addr::Addr;
use fields::value::*;
use numbers::fixed_point::FixedPoint;
use numbers::float::*;
use octets::Place;
use responses::Values;

pub fn addr_of(len: u32, bit: u32, val: u32) -> Addr {
    Addr::new_with_extra_bit(val, byte(len), bit == 1)
}

pub fn value_of(kind: u32, a: u32, b: u32) -> Value {
    match kind {
        1 => Value::Float(from_bits(a)),
        2 => Value::FixedPoint(FixedPoint::from_u32(a)),
        3 => Value::Int(half(a)),
        4 => Value::Int32(a),
        _ => Value::Unknown(place(a, b)),
    }
}

pub fn value(value: Value) -> Answer {
    match value {
        Value::Float(x) => of(1, to_bits(x), 0, 0),
        Value::FixedPoint(x) => of(2, x.to_u32(), 0, 0),
        Value::Int(n) => of(3, n as u32, 0, 0),
        Value::Int32(n) => of(4, n, 0, 0),
        Value::Unknown(place) => of_place(5, place),
    }
}

pub fn of_place(a: u32, place: Place) -> Answer {
    of(a, low(place.start), low(place.len), 0)
}

// The values of a Read: chunks behind the kinds of one value.
pub fn values_of(kind: u32, a: u32, b: u32) -> Values {
    match kind {
        6 => Values::Chunks(place(a, b)),
        _ => Values::One(value_of(kind, a, b)),
    }
}

pub fn values(values: Values) -> Answer {
    match values {
        Values::Chunks(place) => of_place(6, place),
        Values::One(one) => value(one),
    }
}

// Puts each value in chunks behind the first `at` bytes of an answer, up to one that is refused, and
// answers where they end.
pub fn put_each(place: Place, bytes: &[u8], out: &mut [u8], at: usize) -> usize {
    let all = Values::Chunks(place);
    let mut end = at;
    for i in 0..all.count() {
        match all.get(bytes, i) {
            Ok(one) => end = put(by(Form::Value, value(one)), 0, bytes, bytes, out, end),
            Err(k) => return put(refused(k), 0, bytes, bytes, out, end),
        }
    }
    end
}

// A kind's number, and the kind of a number.
pub fn kind(kind: DeviceKind) -> u32 {
    match kind {
        Generic => 1,
        M4x10Hd => 2,
        M10x10Hd => 3,
        MSharc4x8 => 4,
        M2x4Hd => 5,
        Shd => 6,
        DDRC24 => 7,
        DDRC88BM => 8,
        Nanodigi2x8 => 9,
        C8x12v2 => 10,
        M2x4 => 11,
        Flex => 12,
        FlexHtx => 13,
    }
}

pub fn kind_of(number: u32) -> DeviceKind {
    match number {
        2 => M4x10Hd,
        3 => M10x10Hd,
        4 => MSharc4x8,
        5 => M2x4Hd,
        6 => Shd,
        7 => DDRC24,
        8 => DDRC88BM,
        9 => Nanodigi2x8,
        10 => C8x12v2,
        11 => M2x4,
        12 => Flex,
        13 => FlexHtx,
        _ => Generic,
    }
}

// A source's own numbers count from 0, those of the table from 1.
pub fn source(source: Source) -> u32 {
    facts::source::source_number(source) as u32 + 1
}

pub fn source_of(number: u32) -> Source {
    match number {
        1 => NotInstalled,
        2 => Analog,
        3 => Toslink,
        4 => Spdif,
        5 => Usb,
        6 => Aesebu,
        7 => Rca,
        8 => Xlr,
        9 => Lan,
        10 => I2S,
        11 => Bluetooth,
        _ => Hdmi,
    }
}
