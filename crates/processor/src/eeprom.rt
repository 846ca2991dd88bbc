// Calls that write the EEPROM. Every place is checked first.
ghost use Rattle.std.specs.Prelude.{◌≡◌};
ghost use Rattle.octets.specs.Outcome.{outcome};
ghost use Rattle.processor.specs.Calls.{write_bytes, write_u8, write_u16, write_u32, set_serial, set_timestamp};

use crate::LARGEST;
use facts::eeprom as address;
use octets::{Refusal, number};

pub fn write_eeprom_u8(addr: u16, value: u8, eeprom: &mut [u8]) -> Result<(), Refusal>
    ensures { (outcome result, eeprom.new) ≡ write_u8 addr value eeprom.old }
{
    write_bytes(addr, &[value], eeprom)
}

pub fn write_eeprom_u16(addr: u16, value: u16, eeprom: &mut [u8]) -> Result<(), Refusal>
    ensures { (outcome result, eeprom.new) ≡ write_u16 addr value eeprom.old }
{
    write_bytes(addr, &number::big_bytes::<2>(value as u32), eeprom)
}

pub fn write_eeprom_u32(addr: u16, value: u32, eeprom: &mut [u8]) -> Result<(), Refusal>
    ensures { (outcome result, eeprom.new) ≡ write_u32 addr value eeprom.old }
{
    write_bytes(addr, &number::big_bytes::<4>(value), eeprom)
}

// A serial number is held less 900,000.
pub fn set_serial(value: u32, eeprom: &mut [u8]) -> Result<(), Refusal>
    ensures { (outcome result, eeprom.new) ≡ set_serial value eeprom.old }
{
    write_eeprom_u32(address::SERIAL, value.saturating_sub(900_000), eeprom)
}

// Its low half stands at the 2x4's address too, which is the lower of the two.
#[tactic(auto, using(octets::proofs::Choosing::tests))]
pub fn set_timestamp(value: u32, eeprom: &mut [u8]) -> Result<(), Refusal>
    ensures { (outcome result, eeprom.new) ≡ set_timestamp value eeprom.old }
{
    if LARGEST < eeprom.len() {
        return Err(Refusal::WrongSizes);
    }
    if eeprom.len() < address::TIMESTAMP as usize + 4 {
        return Err(Refusal::Outside);
    }
    let low = value % 0x1_0000;
    let _ = octets::put_at(
        &number::big_bytes::<4>(value),
        address::TIMESTAMP as usize,
        eeprom,
    );
    let _ = octets::put_at(
        &number::big_bytes::<2>(low),
        address::TIMESTAMP_2X4 as usize,
        eeprom,
    );
    Ok(())
}

#[tactic(auto, using(octets::proofs::Choosing::tests))]
fn write_bytes(addr: u16, bytes: &[u8], eeprom: &mut [u8]) -> Result<(), Refusal>
    ensures { (outcome result, eeprom.new) ≡ write_bytes addr bytes.now eeprom.old }
{
    if LARGEST < eeprom.len() {
        return Err(Refusal::WrongSizes);
    }
    octets::put_at(bytes, addr as usize, eeprom)?;
    Ok(())
}
