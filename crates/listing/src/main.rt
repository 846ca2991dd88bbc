// Reads one save from standard input and prints its listing, or only the number of its refusal. It
// only reads and writes: the text is the library's.
#![tactic(auto)]

use programs::prints::*;
use programs::reads::read_full;
use std::io;
use std::io::Read;

// The input holds one byte more than is listed, so that a save that is too long is seen; the output
// has room for every listing (crate listed, proofs/Fits.antt).
fn main(rt: HostRuntime) -> io::Result<()> {
    let mut input = [0u8; 32769];
    let mut output = [0u8; 65536];
    read_and_print(&rt, &mut rt.stdin(), &mut input, &mut output)
}

fn read_and_print(
    rt: &impl Print,
    stdin: &mut impl Read,
    input: &mut [u8],
    output: &mut [u8],
) -> io::Result<()> {
    let n = read_full(stdin, input)?;
    match listed::list(&input[..n], output) {
        Ok(len) => print_front(rt, output, len),
        Err(number) => print_refusal(rt, number),
    }
}
