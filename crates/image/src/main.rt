// Reads a text of Intel HEX from standard input and writes the bytes of its image, or only the number
// of its refusal. The image has as many bytes as the one argument says, without one 65,536.
#![tactic(auto)]

use images::import::import;
use processor::LARGEST;
use programs::lent::front;
use programs::prints::*;
use programs::reads::read_full;
use std::env::FillError;
use std::io;
use std::io::Read;
use std::rt::Env;

// The most bytes of a text that is read: more than 65,536 rows of one byte take.
const LONGEST_READ: usize = 1048576;

// Both have one byte more than is taken, so that a text that is too long is seen, and the library sees
// an image that is too large.
fn main(rt: HostRuntime) -> io::Result<()> {
    let mut input = [0u8; 1048577];
    let mut image = [0u8; 65537];
    run(&rt, &mut rt.stdin(), &mut input, &mut image)
}

// Tried without it and slower: where `main` lends an array of a million elements as a slice, its check takes over a minute.
fn run<R: Env + Print>(
    rt: &R,
    stdin: &mut impl Read,
    input: &mut [u8; 1048577],
    image: &mut [u8; 65537],
) -> io::Result<()> {
    match size(rt) {
        Some(size) => read_and_print(rt, stdin, size as usize, input, image),
        None => print(
            rt,
            b"bad argument 1: expected NUMBER, the size of the image\n",
        ),
    }
}

// The size that the one argument says. One that does not fit in the word is no number.
fn size(rt: &impl Env) -> Option<u32> {
    let mut word = [0u8; 32];
    match rt.arg(1, &mut word) {
        Ok(n) => text::read_decimal(&word[..n]),
        Err(FillError::TooLong) => None,
        Err(FillError::NotPresent) => Some(LARGEST as u32),
    }
}

fn read_and_print(
    rt: &impl Print,
    stdin: &mut impl Read,
    size: usize,
    input: &mut [u8],
    image: &mut [u8],
) -> io::Result<()> {
    let n = read_full(stdin, input)?;
    if LONGEST_READ < n {
        return print(rt, b"bad input: longer than 1048576 bytes\n");
    }
    import_and_print(rt, &input[..n], front(image, size))
}

fn import_and_print(rt: &impl Print, hex: &[u8], image: &mut [u8]) -> io::Result<()> {
    match import(hex, image) {
        Ok(()) => print(rt, image),
        Err(number) => print_refusal(rt, number),
    }
}
