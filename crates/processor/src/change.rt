// Writing to the memories: at most one change, which a command or a frame of a save comes to.
ghost use Rattle.std.specs.Prelude.{◌≡◌};
ghost use Rattle.processor.specs.Memory.{memory, store as store_all};
ghost use Rattle.processor.specs.Change.{writes_in};

use crate::put_bytes;
use octets::Place;

// What is stored, and where. Bytes stand in a payload that is lent beside.
#[derive(Clone, Copy)]
pub enum Change {
    Nothing,
    EepromByte { addr: u16, value: u8 },
    EepromBytes { addr: u16, data: Place },
    SettingsWord { addr: u32, value: u32 },
}

// Stores a change; what is outside the memories stores nothing.
pub fn store(change: Change, payload: &[u8], eeprom: &mut [u8], settings: &mut [u32])
    ensures { memory eeprom.new settings.new ≡ store_all (writes_in payload.now change) (memory eeprom.old settings.old) }
{
    match change {
        Change::Nothing => {}
        Change::EepromByte { addr, value } => put_bytes(addr, &[value], eeprom),
        Change::EepromBytes { addr, data } => put_bytes(addr, octets::part(payload, data), eeprom),
        Change::SettingsWord { addr, value } => octets::put_word(addr as usize, value, settings),
    }
}
