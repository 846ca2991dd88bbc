// Input sources and their numbers, by device. (source.rs)
ghost use Rattle.std.specs.Prelude.{◌≡◌, ◌≤◌, take};
ghost use Rattle.facts.specs.Source.{numbered, seven_of, mapping_of, source_number, from_id, to_id};

use crate::DeviceInfo;
use Source::*;

#[derive(Clone, Copy, Debug, PartialEq, Eq)]
pub enum Source {
    NotInstalled,
    Analog,
    Toslink,
    Spdif,
    Usb,
    Aesebu,
    Rca,
    Xlr,
    Lan,
    I2S,
    Bluetooth,
    Hdmi,
}

#[derive(Clone, Copy, Debug, PartialEq, Eq)]
pub struct Entry {
    pub source: Source,
    pub id: u8,
}

// The first count entries are a device's; the others are unused. Fixed memory is a rule of the project, and the contract of `mapping`
// (`seven_of`) says so of both fields.
#[derive(Clone, Copy, Debug, PartialEq, Eq)]
pub struct Mapping {
    pub count: usize,
    pub entries: [Entry; 7],
}

const UNUSED: Entry = Entry {
    source: NotInstalled,
    id: 0,
};

impl Mapping {
    // A device's entries.
    fn used(&self) -> &[Entry]
        requires { self.now.count ≤ 7 }
        ensures { result.now ≡ take self.now.count self.now.entries }
    {
        &self.entries[..self.count]
    }
}

impl Source {
    // The available input sources with their numbers. Every device numbers its own from 0.
    #[tactic(auto, using(octets::proofs::Choosing::tests), unfolding(crate::specs::Source::mapping_of, octets::specs::Choice::if_eq))]
    pub fn mapping(info: DeviceInfo) -> Mapping
        ensures { result ≡ seven_of (mapping_of info.hw_id info.dsp_version) }
    {
        match info.hw_id {
            2 | 11 => listed([Toslink, Spdif]),
            1 | 4 | 5 => listed([Spdif, Toslink, Aesebu]),
            10 => match info.dsp_version {
                100 | 101 => listed([Analog, Toslink, Usb]),
                _ => listed([I2S, Toslink, Usb]),
            },
            14 => listed([Toslink, Spdif, Aesebu, Rca, Xlr, Usb, Lan]),
            17 | 18 => listed([Toslink, Spdif, Aesebu, Usb, Lan]),
            27 => listed([Analog, Toslink, Spdif, Usb, Bluetooth]),
            32 => listed([Analog, Toslink, Spdif, Usb, Hdmi]),
            _ => listed([NotInstalled]),
        }
    }

    // The source that a device has under a number.
    pub fn from_id(id: u8, info: DeviceInfo) -> Source
        ensures { result ≡ from_id id (mapping_of info.hw_id info.dsp_version) }
    {
        let mapping = Source::mapping(info);
        match mapping.used().iter().find(|entry| entry.id == id) {
            Some(entry) => entry.source,
            None => Source::NotInstalled,
        }
    }

    // The number that a device has for a source.
    pub fn to_id(self, info: DeviceInfo) -> u8
        ensures { result ≡ to_id self (mapping_of info.hw_id info.dsp_version) }
    {
        let mapping = Source::mapping(info);
        match mapping.used().iter().find(|entry| entry.source == self) {
            Some(entry) => entry.id,
            None => 0,
        }
    }
}

// A number of its own for each source, to tell them apart.
pub fn source_number(source: Source) -> u8
    ensures { result ≡ source_number source }
{
    source as u8
}

// A list of sources, numbered from 0.
fn listed<const N: usize>(sources: [Source; N]) -> Mapping
    requires { N ≤ 7 }
    ensures { result ≡ seven_of (numbered 0 sources.entry) }
{
    let mut entries = [UNUSED; 7];
    for (i, source) in sources.iter().enumerate() {
        entries[i] = Entry {
            source: *source,
            id: i as u8,
        };
    }
    Mapping { count: N, entries }
}
