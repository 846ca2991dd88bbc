// Images of an EEPROM, and Intel HEX, the text in which the bench programmer reads and writes them:
// writing the text, reading it into an image, and storing an image in a processor.
#![tactic(auto)]

pub mod export;
pub mod import;
mod judge;
mod row;
pub mod store;
