// Requests over the crate responses.
use crate::on_facts::info_of;
use crate::on_fields::read_value;
use crate::on_views::*;
use bench_records::records::*;
use bench_records::values::*;
use bench_words::*;
use facts::source::Source;
use numbers::float::to_bits;
use numbers::gain::Gain;
use responses::kind::*;
use responses::matching::matches_response;
use responses::status::*;
use responses::{Responses, Values};

pub fn ask(verb: usize, n: Numbers, bytes: &[u8], out: &mut [u8]) -> Answer {
    let [a, ..] = n;
    let held = head(bytes, a);
    let one = response_of(first_record(n));
    match verb {
        33 => parsed(held),
        34 => kinds(one),
        35 => into(a, one),
        36 => matching(n),
        39 => written(one.to_bytes(held, out)),
        40 => written(one.to_frame(held, out)),
        42..=43 => number(a),
        _ => of_values(verb, n, bytes),
    }
}

fn parsed(packet: &[u8]) -> Answer {
    match Responses::from_bytes(packet) {
        Ok(read) => response(read),
        Err(k) => refused(k),
    }
}

// The response stands behind the command.
fn matching(n: Numbers) -> Answer {
    let command = command_of(first_record(n));
    number(matches_response(command, response_of(second_record(n))) as u32)
}

fn of_values(verb: usize, n: Numbers, bytes: &[u8]) -> Answer {
    let [a, b, c, d, e, ..] = n;
    match verb {
        37 => all_values(values_of(b, c, d), n),
        38 => read_value(values_of(c, d, e).get(head(bytes, a), b as usize)),
        _ => status(n, bytes),
    }
}

// Whether it is of each kind.
fn kinds(one: Responses) -> Answer {
    let memory = one.is_memory_view() as u32;
    let floats = one.is_float_view() as u32;
    let hardware = one.is_hardware_id() as u32;
    let changed = one.is_config_changed() as u32;
    let n = of(memory, floats, hardware, one.is_ack() as u32);
    with(n, changed, one.is_fir_size() as u32, 0)
}

fn into(kind: u32, one: Responses) -> Answer {
    match kind {
        1 => memory(one.into_memory_view()),
        2 => floats(one.into_float_view()),
        3 => match one.into_hardware_id() {
            Ok(id) => of(id.fw_major as u32, id.fw_minor as u32, id.hw_id as u32, 0),
            Err(k) => refused(k),
        },
        4 => done(one.into_ack()),
        5 => done(one.into_config_changed()),
        _ => match one.into_fir_size() {
            Ok(n) => number(n as u32),
            Err(k) => refused(k),
        },
    }
}

// How many values there are, and each of them.
fn all_values(all: Values, n: Numbers) -> Answer {
    let count = low(all.count());
    match all {
        Values::Chunks(values) => Answer {
            values,
            ..number(count)
        },
        Values::One(_) => {
            let [_, b, c, d, ..] = n;
            of(count, b, c, d)
        }
    }
}

fn status(n: Numbers, bytes: &[u8]) -> Answer {
    let [hw_id, dsp_version, len, base, start, count, ..] = n;
    let view = memory_of(base, start, count);
    let MasterStatus {
        preset,
        source,
        volume,
        mute,
        dirac,
    } = MasterStatus::from_memory(info_of(hw_id, dsp_version), view, head(bytes, len));
    let answer = of(known(preset), input(source), loud(volume), flag(mute));
    with(answer, flag(dirac), 0, 0)
}

// What is known counts from 1.
fn known(byte: Option<u8>) -> u32 {
    byte.map_or(0, |n| u32::from(n) + 1)
}

fn input(input: Option<Source>) -> u32 {
    input.map_or(0, source)
}

fn flag(flag: Option<bool>) -> u32 {
    flag.map_or(0, |yes| u32::from(yes) + 1)
}

fn loud(volume: Option<Gain>) -> u32 {
    volume.map_or(0, |gain| low(to_bits(gain.0) as usize + 1))
}
