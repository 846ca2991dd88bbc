// The tester's console: a request a line on standard input, an answer a line on standard output.
// docs/BENCH.md describes its language. Nothing is decided here but how a line is read and how an
// answer is written: every answer is a library's.
#![tactic(auto)]

mod console;
mod files;
mod held;
mod request;

use std::io;

fn main(rt: HostRuntime) -> io::Result<()> {
    let mut input = [0u8; 65536];
    // one more than a device takes, so that a memory that is too large can be lent
    let mut eeprom = [0xffu8; 65537];
    let mut settings = [0u32; 65537];
    let mut kept = [0u8; 1048576];
    console::run(
        &rt,
        &mut rt.stdin(),
        &mut input,
        &mut eeprom,
        &mut settings,
        &mut kept,
    )
}
