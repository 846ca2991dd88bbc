// The master status of a device, out of a view of its memory. (MasterStatus)
ghost use Rattle.std.specs.Prelude.{◌≡◌};
ghost use Rattle.responses.specs.Status.{dirac_in, unknown, status_of};

use facts::source::Source;
use facts::{DeviceInfo, eeprom};
use numbers::gain::Gain;
use views::memory::MemoryView;

// Each is None where the view does not hold it.
#[derive(Clone, Copy)]
pub struct MasterStatus {
    // Active configuration preset
    pub preset: Option<u8>,
    // Active source
    pub source: Option<Source>,
    // Volume in dB [-127, 0]
    pub volume: Option<Gain>,
    // Mute status
    pub mute: Option<bool>,
    // Dirac Live status
    pub dirac: Option<bool>,
}

impl Default for MasterStatus {
    // Nothing is known.
    fn default() -> Self
        ensures { result ≡ unknown }
    {
        MasterStatus {
            preset: None,
            source: None,
            volume: None,
            mute: None,
            dirac: None,
        }
    }
}

impl MasterStatus {
    pub fn from_memory(info: DeviceInfo, view: MemoryView, bytes: &[u8]) -> Self
        ensures { result ≡ status_of info view bytes.now }
    {
        let source = view.read_u8(bytes, eeprom::SOURCE);
        let source_async = view.read_u8(bytes, eeprom::SOURCE_ASYNC);
        let volume = view.read_u8(bytes, eeprom::MASTER_VOLUME);
        let mute = view.read_u8(bytes, eeprom::MUTE);
        let bypass = view.read_u8(bytes, eeprom::DIRAC_BYPASS);
        MasterStatus {
            preset: view.read_u8(bytes, eeprom::PRESET),
            source: source.or(source_async).map(|id| Source::from_id(id, info)),
            volume: volume.map(Gain::from_u8),
            mute: mute.map(|n| n == 1),
            dirac: dirac_in(info, bypass),
        }
    }
}

// The byte says whether Dirac Live is bypassed.
fn dirac_in(info: DeviceInfo, bypass: Option<u8>) -> Option<bool>
    ensures { result ≡ dirac_in info bypass }
{
    if info.supports_dirac() {
        bypass.map(|n| n == 0)
    } else {
        None
    }
}
