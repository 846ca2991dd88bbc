// Requests over the EEPROM as Intel HEX, and over images of it.
use bench_words::*;
use images::export::export;
use images::import::import;
use images::store::store_image;
use octets::Refusal;
use programs::lent::front;

// As much as can be lent.
const LARGEST_LENT: usize = 65537;

pub fn ask(verb: usize, given: &[u8], kept: &[u8], eeprom: &mut [u8], out: &mut [u8]) -> Answer {
    match verb {
        1029 => written(export(&eeprom[..], out)),
        1030 => done(store_image(given, eeprom)),
        _ => done(restore(kept, eeprom)),
    }
}

// The text is read into an image beside the EEPROM, which is then stored.
fn restore(hex: &[u8], eeprom: &mut [u8]) -> Result<(), Refusal> {
    let mut image = [0u8; LARGEST_LENT];
    let lent = front(&mut image, eeprom.len());
    import(hex, lent)?;
    store_image(lent, eeprom)
}
