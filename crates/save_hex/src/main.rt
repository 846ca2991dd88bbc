// Reads one save from standard input and prints the EEPROM that it restores as Intel HEX, or only the
// number of its refusal.
#![tactic(auto)]

use images::export::export;
use programs::lent::front;
use programs::prints::*;
use programs::reads::read_full;
use saves::replay::replay;
use std::io;
use std::io::Read;
use streams::judge::judge;

// The most bytes of a save that is read: as many as bench keeps.
const LONGEST_READ: usize = 1048576;

// The input holds one byte more than is read, so that a save that is too long is seen. The memories are
// a bare device's, of the largest sizes; the output has room for the text of the largest.
fn main(rt: HostRuntime) -> io::Result<()> {
    let mut input = [0u8; 1048577];
    let mut eeprom = [0xffu8; 65536];
    let mut settings = [0u32; 65536];
    let mut output = [0u8; 180236];
    run(
        &rt,
        &mut rt.stdin(),
        &mut input,
        &mut eeprom,
        &mut settings,
        &mut output,
    )
}

// Tried without it and slower: where `main` lends an array of a million elements as a slice, its check takes over a minute.
fn run(
    rt: &impl Print,
    stdin: &mut impl Read,
    input: &mut [u8; 1048577],
    eeprom: &mut [u8; 65536],
    settings: &mut [u32; 65536],
    output: &mut [u8; 180236],
) -> io::Result<()> {
    read_and_print(rt, stdin, input, eeprom, settings, output)
}

fn read_and_print(
    rt: &impl Print,
    stdin: &mut impl Read,
    input: &mut [u8],
    eeprom: &mut [u8],
    settings: &mut [u32],
    output: &mut [u8],
) -> io::Result<()> {
    let n = read_full(stdin, input)?;
    if LONGEST_READ < n {
        return print(rt, b"bad input: longer than 1048576 bytes\n");
    }
    judge_and_print(rt, &input[..n], eeprom, settings, output)
}

fn judge_and_print(
    rt: &impl Print,
    save: &[u8],
    eeprom: &mut [u8],
    settings: &mut [u32],
    output: &mut [u8],
) -> io::Result<()> {
    match judge(save) {
        Ok(shape) => {
            let eeprom = front(eeprom, shape.eeprom);
            let settings = front(settings, shape.settings);
            print_restored(rt, save, eeprom, settings, output)
        }
        Err(number) => print_refusal(rt, number),
    }
}

fn print_restored(
    rt: &impl Print,
    save: &[u8],
    eeprom: &mut [u8],
    settings: &mut [u32],
    output: &mut [u8],
) -> io::Result<()> {
    match replay(eeprom, settings, save) {
        Ok(()) => print_hex(rt, eeprom, output),
        Err(number) => print_refusal(rt, number),
    }
}

fn print_hex(rt: &impl Print, eeprom: &[u8], output: &mut [u8]) -> io::Result<()> {
    match export(eeprom, output) {
        Ok(len) => print_front(rt, output, len),
        Err(number) => print_refusal(rt, number),
    }
}
