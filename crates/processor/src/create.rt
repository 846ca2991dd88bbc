// Devices on lent memories: a bare one, and one as the Rust's mock makes it. (MockDevice::new)
ghost use Rattle.std.specs.Prelude.{◌≡◌, [], length, replicate};
ghost use Rattle.octets.specs.Outcome.{outcome};
ghost use Rattle.facts.specs.declared.probe.DeviceKind.TheVariants.{Generic};
ghost use Rattle.processor.specs.Memory.{memory, store};
ghost use Rattle.processor.specs.Create.{device_of, bare_of, new_of, new_writes, any_beyond, with_meters};

use crate::{Device, LARGEST, put_bytes, too_large};
use facts::eeprom as address;
use facts::probe::DeviceKind;
use octets::{Refusal, number};

// The pattern of -60.0, which a meter shows first.
const METER: u32 = 0xC270_0000;

// The device of the Rust's `Default`, whose FIR taps are those of the 2x4 HD's table; its memories have
// nothing in them.
pub fn default(fir_max_taps: u16) -> Device
    ensures { result ≡ device_of 10 100 Generic fir_max_taps }
{
    device_of(10, 100, DeviceKind::Generic, fir_max_taps)
}

pub fn bare(
    hw_id: u8,
    dsp_version: u8,
    kind: DeviceKind,
    fir_max_taps: u16,
    eeprom: &mut [u8],
    settings: &mut [u32],
) -> Result<Device, Refusal>
    ensures { (outcome result, memory eeprom.new settings.new) ≡ bare_of (device_of hw_id dsp_version kind fir_max_taps) (memory eeprom.old settings.old) }
{
    if too_large(eeprom.len(), settings.len()) {
        return Err(Refusal::WrongSizes);
    }
    erase(eeprom);
    settings.fill(0);
    Ok(device_of(hw_id, dsp_version, kind, fir_max_taps))
}

// Meters are addresses of settings.
#[tactic(auto, using(octets::proofs::Choosing::tests))]
pub fn new(
    hw_id: u8,
    dsp_version: u8,
    kind: DeviceKind,
    fir_max_taps: u16,
    meters: &[u16],
    eeprom: &mut [u8],
    settings: &mut [u32],
) -> Result<Device, Refusal>
    ensures { (outcome result, memory eeprom.new settings.new) ≡ new_of (device_of hw_id dsp_version kind fir_max_taps) meters.now (memory eeprom.old settings.old) }
{
    if eeprom.len() != LARGEST || LARGEST < settings.len() {
        return Err(Refusal::WrongSizes);
    }
    if any_beyond(meters, settings.len()) {
        return Err(Refusal::Outside);
    }
    erase(eeprom);
    settings.fill(0);
    write_defaults(dsp_version, eeprom);
    set_meters(meters, settings);
    Ok(device_of(hw_id, dsp_version, kind, fir_max_taps))
}

// The four stay apart: `default`, `bare` and `new` are public and take them so, which may not change.
fn device_of(hw_id: u8, dsp_version: u8, kind: DeviceKind, fir_max_taps: u16) -> Device
    ensures { result ≡ device_of hw_id dsp_version kind fir_max_taps }
{
    Device {
        hw_id,
        dsp_version,
        fw_major: 1,
        fw_minor: 13,
        kind,
        fir_max_taps,
    }
}

// Fills with 0xFF, as an EEPROM is without content.
pub fn erase(eeprom: &mut [u8])
    ensures { eeprom.new ≡ replicate (length eeprom.old) 0xFF }
{
    eeprom.fill(0xff);
}

fn write_defaults(dsp_version: u8, eeprom: &mut [u8])
    ensures { eeprom.new ≡ (store (new_writes dsp_version) (memory eeprom.old [])).eeprom }
{
    put_bytes(address::FIRMWARE_VERSION, &[dsp_version], eeprom);
    put_bytes(
        address::TIMESTAMP,
        &number::big_bytes::<4>(42424242),
        eeprom,
    );
    put_bytes(address::SOURCE, &number::big_bytes::<2>(0), eeprom);
    put_bytes(address::MASTER_VOLUME, &[7], eeprom);
    put_bytes(address::MUTE, &[0], eeprom);
    put_bytes(address::PRESET, &number::big_bytes::<2>(0), eeprom);
    put_bytes(address::SERIAL, &number::big_bytes::<2>(12345), eeprom);
    // without it a restore says that the dsp is corrupted
    put_bytes(0xffa3, &[3], eeprom);
}

fn any_beyond(meters: &[u16], settings: usize) -> bool
    ensures { result ≡ any_beyond settings meters.now }
{
    meters.iter().any(|meter| settings <= *meter as usize)
}

#[tactic(auto, using(crate::proofs::Meters::more_meters))]
fn set_meters(meters: &[u16], settings: &mut [u32])
    ensures { settings.new ≡ with_meters meters.now settings.old }
{
    for meter in meters {
        octets::put_word(*meter as usize, METER, settings);
    }
}
