// EEPROM addresses; specs/Eeprom.antt says what stands at each. (eeprom.rs)
ghost use Rattle.std.specs.Prelude.{◌≡◌};
ghost use Rattle.facts.specs.Eeprom.{addresses};

pub const FIRMWARE_VERSION: u16 = 0xFFA1;

pub const TIMESTAMP: u16 = 0xFFC8;

pub const TIMESTAMP_2X4: u16 = 0x3FFC;

pub const PRESET: u16 = 0xFFD8;

pub const SOURCE: u16 = 0xFFD9;

pub const SOURCE_ASYNC: u16 = 0xFFA9;

pub const MASTER_VOLUME: u16 = 0xFFDA;

pub const MUTE: u16 = 0xFFDB;

pub const DIRAC_BYPASS: u16 = 0xFFE0;

pub const CHANNEL_MODE: u16 = 0xFFE5;

pub const SERIAL: u16 = 0xFFFC;

pub const SERIAL_SHORT: u16 = 0xFFFE;

// All of them, in this order.
pub fn all() -> [u16; 12]
    ensures { result ≡ addresses }
{
    [
        FIRMWARE_VERSION,
        TIMESTAMP,
        TIMESTAMP_2X4,
        PRESET,
        SOURCE,
        SOURCE_ASYNC,
        MASTER_VOLUME,
        MUTE,
        DIRAC_BYPASS,
        CHANNEL_MODE,
        SERIAL,
        SERIAL_SHORT,
    ]
}
