// What a program prints on standard output. Nothing is held back: what is printed is there when the call returns.
use std::io;

pub fn print(rt: &impl Print, text: &[u8]) -> io::Result<()> {
    rt.write_all(text)
}

// The first bytes of an output, where a text was written.
pub fn print_front(rt: &impl Print, output: &[u8], len: usize) -> io::Result<()> {
    output.get(..len).map_or(Ok(()), |text| rt.write_all(text))
}

pub fn print_refusal(rt: &impl Print, refusal: impl Into<u8>) -> io::Result<()> {
    let number: u8 = refusal.into();
    println!(rt; "refused {number}")
}
