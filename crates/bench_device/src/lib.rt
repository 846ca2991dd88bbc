// The bench's requests over one processor with its memories, over a save and over an image, by the
// numbers of their verbs.
#![tactic(auto)]

mod hex;
mod look;
pub mod make;

use bench_records::records::*;
use bench_words::*;
use commands::Commands;
use device::execute::*;
use octets::Refusal;
use processor::Device;
use processor::eeprom::*;
use saves::replay::replay;
use saves::save::save;
use streams::judge::judge;

// Answers a request on what is lent of the two memories. Its bytes lie in `bytes`, what it writes goes to
// `out`, and `saved` is the save or the text that is kept.
pub fn ask(
    verb: usize,
    n: Numbers,
    bytes: &[u8],
    saved: &[u8],
    out: &mut [u8],
    device: &mut Device,
    eeprom: &mut [u8],
    settings: &mut [u32],
) -> Answer {
    let [len, _, _, _, len_of_meters, ..] = n;
    let given = head(bytes, len);
    let command = command_of(first_record(n));
    match verb {
        1002 => make::bare(n, device, eeprom, settings),
        1003 => make::new(n, head(bytes, len_of_meters), device, eeprom, settings),
        1007 => executed(*device, command, given, eeprom, settings, out),
        1008 => written(execute_into(*device, command, given, eeprom, settings, out)),
        1009..=1011 => look::ask(verb, n, &eeprom[..], &settings[..], out),
        1012..=1016 => done(write(verb, n, eeprom)),
        1029..=1032 => hex::ask(verb, given, saved, eeprom, out),
        _ => with_save(verb, n, given, saved, out, eeprom, settings),
    }
}

// Requests over a save: that of the request or the one that is kept.
fn with_save(
    verb: usize,
    n: Numbers,
    given: &[u8],
    saved: &[u8],
    out: &mut [u8],
    eeprom: &mut [u8],
    settings: &mut [u32],
) -> Answer {
    let [a, b, ..] = n;
    match verb {
        1017 => written(save(&eeprom[..], &settings[..], out)),
        1019 => look::peek(octets::part(saved, place(a, b)), out),
        1020 => done(replay(eeprom, settings, saved)),
        1021 => done(replay(eeprom, settings, given)),
        1022 => judged(given),
        1023 => written(listed::list(given, out)),
        _ => written(listed::list(saved, out)),
    }
}

fn write(verb: usize, n: Numbers, eeprom: &mut [u8]) -> Result<(), Refusal> {
    let [a, b, ..] = n;
    match verb {
        1012 => write_eeprom_u8(half(a), byte(b), eeprom),
        1013 => write_eeprom_u16(half(a), half(b), eeprom),
        1014 => write_eeprom_u32(half(a), b, eeprom),
        1015 => set_serial(a, eeprom),
        _ => set_timestamp(a, eeprom),
    }
}

fn judged(save: &[u8]) -> Answer {
    match judge(save) {
        Ok(shape) => of(low(shape.eeprom), low(shape.settings), 0, 0),
        Err(k) => refused(k),
    }
}

// The answer's payload goes to the start of the output.
fn executed(
    device: Device,
    command: Commands,
    payload: &[u8],
    eeprom: &mut [u8],
    settings: &mut [u32],
    out: &mut [u8],
) -> Answer {
    let mut data = [0xeeu8; 1020];
    let executed = execute(device, command, payload, eeprom, settings, &mut data);
    let _ = octets::put(&data, out);
    match executed {
        Ok(one) => response(one),
        Err(k) => refused(k),
    }
}
