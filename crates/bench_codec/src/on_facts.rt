// Requests over the crate facts, and those over dialects.
use crate::on_commands::*;
use bench_records::values::*;
use bench_words::*;
use facts::source::Source;
use facts::{DeviceInfo, eeprom};

pub fn ask(verb: usize, n: Numbers) -> Answer {
    let [hw_id, dsp_version, third, ..] = n;
    let info = info_of(hw_id, dsp_version);
    match verb {
        19 => of_dialect(n),
        20 => default_dialect(),
        21 => number(kind(info.device_kind())),
        22 => number(info.supports_dirac() as u32),
        23 => sources(info),
        24 => number(source(Source::from_id(byte(third), info))),
        25 => number(source_of(third).to_id(info) as u32),
        _ => each(&eeprom::all()),
    }
}

pub fn info_of(hw_id: u32, dsp_version: u32) -> DeviceInfo {
    DeviceInfo {
        hw_id: byte(hw_id),
        fw_major: 0,
        fw_minor: 0,
        dsp_version: byte(dsp_version),
        serial: 0,
    }
}

// Each source of a device and its number; the first that is not there has no name.
fn sources(info: DeviceInfo) -> Answer {
    let mapping = Source::mapping(info);
    let mut numbers = [0; 32];
    let pairs = numbers.chunks_exact_mut(2);
    for (pair, entry) in pairs.zip(mapping.entries.iter().take(mapping.count)) {
        pair[0] = source(entry.source);
        pair[1] = u32::from(entry.id);
    }
    of_numbers(numbers)
}

// Each number of a list, as far as an answer has numbers.
pub fn each(all: &[u16]) -> Answer {
    let mut numbers = [0; 32];
    for (number, one) in numbers.iter_mut().zip(all) {
        *number = u32::from(*one);
    }
    of_numbers(numbers)
}
