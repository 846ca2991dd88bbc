// Making a device on what is lent.
ghost use Rattle.std.specs.Prelude.{◌≤◌, length};

use bench_records::values::*;
use bench_words::*;
use octets::Refusal;
use octets::number::big16;
use processor::{Device, create};
use std::cmp::min;

// The most meters that a request names.
const METERS: usize = 512;

pub fn bare(n: Numbers, device: &mut Device, eeprom: &mut [u8], settings: &mut [u32]) -> Answer {
    let [hw_id, dsp_version, kind, taps, ..] = n;
    let made = create::bare(
        byte(hw_id),
        byte(dsp_version),
        kind_of(kind),
        half(taps),
        eeprom,
        settings,
    );
    held(made, device)
}

pub fn new(
    n: Numbers,
    bytes: &[u8],
    device: &mut Device,
    eeprom: &mut [u8],
    settings: &mut [u32],
) -> Answer {
    let [hw_id, dsp_version, kind, taps, ..] = n;
    let mut meters = [0u16; METERS];
    let count = meters_of(bytes, &mut meters);
    let made = create::new(
        byte(hw_id),
        byte(dsp_version),
        kind_of(kind),
        half(taps),
        &meters[..count],
        eeprom,
        settings,
    );
    held(made, device)
}

// Puts the addresses in bytes at the start of meters, and answers how many those are.
fn meters_of(bytes: &[u8], meters: &mut [u16]) -> usize
    ensures { result ≤ length meters.old }
{
    for (meter, addr) in meters.iter_mut().zip(bytes.chunks_exact(2)) {
        *meter = big16(addr, 0);
    }
    min(meters.len(), bytes.len() / 2)
}

// A device that is made takes the place of the one that is held.
fn held(made: Result<Device, Refusal>, device: &mut Device) -> Answer {
    match made {
        Ok(new) => {
            *device = new;
            of_device(new)
        }
        Err(k) => refused(k),
    }
}

pub fn of_device(device: Device) -> Answer {
    let answer = of(
        u32::from(device.hw_id),
        u32::from(device.dsp_version),
        u32::from(device.fw_major),
        u32::from(device.fw_minor),
    );
    with(answer, kind(device.kind), u32::from(device.fir_max_taps), 0)
}
