// Commands and responses by their numbers: that of their kind, and those of their fields in order. A kind is a number here, since
// it is the row of a name in the bench's table, which lists several names in a row.
use crate::values::*;
use bench_words::*;
use commands::Commands::*;
use commands::{Commands, FirData, Mux};
use facts::HardwareId;
use fields::addr::Addr;
use fields::value::*;
use numbers::float::*;
use numbers::gain::Gain;
use responses::{Responses, Values};
use views::floats::FloatView;
use views::memory::MemoryView;

pub fn command_of(record: Record) -> Commands {
    let [kind, d, e, f, ..] = record;
    let addr = half(d);
    let data = place(e, f);
    let payload = place(d, e);
    match kind {
        1 => ReadHardwareId,
        2 => FirLoadEnd,
        3 => ReadFloats { addr, len: byte(e) },
        4 => ReadMemory {
            addr,
            size: byte(e),
        },
        5 => WriteMemory { addr, data },
        6 => FirLoadData {
            index: byte(d),
            data: FirData {
                start: data.start,
                count: data.len,
            },
        },
        7 => Unknown {
            cmd_id: byte(d),
            payload: data,
        },
        8 => BulkLoad { payload },
        9 => BulkLoadFilterData { payload },
        10..=16 => with_bytes(record),
        _ => with_address(record),
    }
}

fn with_bytes(record: Record) -> Commands {
    let [kind, d, e, ..] = record;
    let byte = byte(d);
    match kind {
        10 => SetConfig {
            config: byte,
            reset: e == 1,
        },
        11 => SetSource { source: byte },
        12 => SetMute { value: d == 1 },
        13 => SetVolume {
            value: Gain(from_bits(d)),
        },
        14 => FirLoadStart { index: byte },
        15 => DiracBypass { value: byte },
        _ => Unk07 { payload: byte },
    }
}

fn with_address(record: Record) -> Commands {
    let [kind, d, e, f, g, h, i] = record;
    let addr = addr_of(d, e, f);
    match kind {
        17 => WriteBiquadBypass {
            addr,
            value: g == 1,
        },
        18 => Read { addr, len: byte(g) },
        19 => SwitchMux(Mux {
            addr,
            max: byte(g),
            arg: h == 1,
            slot: byte(i),
        }),
        20 => Write {
            addr,
            value: value_of(g, h, i),
        },
        _ => WriteBiquad { addr },
    }
}

// The five values that stand beside a command: those of WriteBiquad.
pub fn five_of(n: Numbers) -> [Value; 5] {
    let mut five = [Value::Float(0.0); 5];
    for (one, of_value) in five.iter_mut().zip(n[6..21].chunks_exact(3)) {
        *one = value_of(of_value[0], of_value[1], of_value[2]);
    }
    five
}

pub fn command(command: Commands, five: [Value; 5]) -> Answer {
    let answer = command_numbers(command);
    match command {
        WriteBiquad { addr: _ } => with_five(answer, five),
        _ => answer,
    }
}

fn with_five(mut answer: Answer, five: [Value; 5]) -> Answer {
    for (one, of_value) in five.iter().zip(answer.numbers[4..19].chunks_exact_mut(3)) {
        of_value.copy_from_slice(&value(*one).numbers[..3]);
    }
    answer
}

fn command_numbers(command: Commands) -> Answer {
    match command {
        ReadHardwareId => number(1),
        FirLoadEnd => number(2),
        ReadFloats { addr, len } => of(3, addr as u32, len as u32, 0),
        ReadMemory { addr, size } => of(4, addr as u32, size as u32, 0),
        WriteMemory { addr, data } => of(5, addr as u32, low(data.start), low(data.len)),
        FirLoadData { index, data } => of(6, index as u32, low(data.start), low(data.count)),
        Unknown { cmd_id, payload } => of(7, cmd_id as u32, low(payload.start), low(payload.len)),
        BulkLoad { payload } => of_place(8, payload),
        BulkLoadFilterData { payload } => of_place(9, payload),
        SetConfig { config, reset } => of(10, config as u32, reset as u32, 0),
        SetSource { source } => of(11, source as u32, 0, 0),
        SetMute { value } => of(12, value as u32, 0, 0),
        SetVolume { value } => of(13, to_bits(value.0), 0, 0),
        FirLoadStart { index } => of(14, index as u32, 0, 0),
        DiracBypass { value } => of(15, value as u32, 0, 0),
        Unk07 { payload } => of(16, payload as u32, 0, 0),
        WriteBiquadBypass { addr, value } => of_addr(17, addr, value as u32, 0, 0),
        Read { addr, len } => of_addr(18, addr, len as u32, 0, 0),
        SwitchMux(
            Mux {
                addr,
                max,
                arg,
                slot,
            },
        ) => of_addr(19, addr, max as u32, arg as u32, slot as u32),
        Write { addr, value: one } => of_values(20, addr, value(one)),
        WriteBiquad { addr } => of_addr(21, addr, 0, 0, 0),
    }
}

// A kind, an address, and three numbers behind it.
fn of_addr(kind: u32, addr: Addr, e: u32, f: u32, g: u32) -> Answer {
    let n = of(kind, addr.len as u32, addr.extra_bit as u32, addr.val);
    with(n, e, f, g)
}

fn of_values(kind: u32, addr: Addr, values: Answer) -> Answer {
    let [e, f, g, ..] = values.numbers;
    of_addr(kind, addr, e, f, g)
}

pub fn response_of(record: Record) -> Responses {
    let [kind, d, e, f, g, h, i] = record;
    match kind {
        1 => Responses::Ack,
        2 => Responses::ConfigChanged,
        3 => Responses::Unk02,
        4 => Responses::MemoryData(memory_of(d, e, f)),
        5 => Responses::FloatData(floats_of(d, e, f)),
        6 => Responses::Unknown {
            cmd_id: byte(d),
            payload: place(e, f),
        },
        7 => Responses::HardwareId(HardwareId {
            fw_major: byte(d),
            fw_minor: byte(e),
            hw_id: byte(f),
        }),
        8 => Responses::FirLoadSize { size: half(d) },
        _ => Responses::Read {
            addr: addr_of(d, e, f),
            data: values_of(g, h, i),
        },
    }
}

pub fn memory_of(base: u32, start: u32, len: u32) -> MemoryView {
    MemoryView {
        base: half(base),
        data: place(start, len),
    }
}

pub fn floats_of(base: u32, start: u32, count: u32) -> FloatView {
    FloatView {
        base: half(base),
        start: start as usize,
        count: count as usize,
    }
}

// A response; behind it the values of a Read's chunks, or the length of its payload.
pub fn response(response: Responses) -> Answer {
    let answer = response_numbers(response);
    match response {
        Responses::Read {
            addr: _,
            data: Values::Chunks(values),
        } => Answer { values, ..answer },
        _ => answer,
    }
}

fn response_numbers(response: Responses) -> Answer {
    match response {
        Responses::Ack => number(1),
        Responses::ConfigChanged => number(2),
        Responses::Unk02 => number(3),
        Responses::MemoryData(MemoryView { base, data }) => {
            of_view(4, base, data.start, data.len, data.len)
        }
        Responses::FloatData(FloatView { base, start, count }) => {
            of_view(5, base, start, count, floats_length(count))
        }
        Responses::Unknown { cmd_id, payload } => {
            of(6, cmd_id as u32, low(payload.start), low(payload.len))
        }
        Responses::HardwareId(id) => of(7, id.fw_major as u32, id.fw_minor as u32, id.hw_id as u32),
        Responses::FirLoadSize { size } => of(8, size as u32, 0, 0),
        Responses::Read { addr, data } => of_values(9, addr, values(data)),
    }
}

fn of_view(kind: u32, base: u16, start: usize, count: usize, bytes: usize) -> Answer {
    let answer = of(kind, u32::from(base), low(start), low(count));
    with(answer, low(bytes), 0, 0)
}

// The most that a payload has is 255 words.
fn floats_length(count: usize) -> usize {
    if 255 < count { 0 } else { 4 * count }
}
