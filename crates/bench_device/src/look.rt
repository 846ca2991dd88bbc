// What stands in the memories and in a save.
use bench_words::*;
use octets::number::big_bytes;
use std::cmp::min;

pub fn ask(verb: usize, n: Numbers, eeprom: &[u8], settings: &[u32], out: &mut [u8]) -> Answer {
    let [a, b, ..] = n;
    match verb {
        1009 => peek(octets::part(eeprom, place(a, b)), out),
        1010 => peek_words(a, settings, out),
        _ => digest(eeprom, settings),
    }
}

// Bytes, put at the start of the output.
pub fn peek(part: &[u8], out: &mut [u8]) -> Answer {
    let _ = octets::put(part, out);
    number(low(part.len()))
}

// The words from a place on, so far as there are any, put there as their bytes.
fn peek_words(start: u32, settings: &[u32], out: &mut [u8]) -> Answer {
    let words = settings.get(start as usize..).unwrap_or(&[]);
    for (bytes, word) in out.chunks_exact_mut(4).zip(words) {
        bytes.copy_from_slice(&big_bytes::<4>(*word));
    }
    number(low(min(words.len(), out.len() / 4)))
}

// How much of each memory is lent, and a number that depends on what stands at each place.
fn digest(eeprom: &[u8], settings: &[u32]) -> Answer {
    let bytes = digest_of(eeprom);
    let words = digest_of(settings);
    of(low(eeprom.len()), bytes, low(settings.len()), words)
}

fn digest_of<T: Copy + Into<u32>>(memory: &[T]) -> u32 {
    let mut sum = 0;
    for next in memory {
        sum = digest_with(sum, (*next).into());
    }
    sum
}

// The factor is odd, so that a change at one place always shows.
fn digest_with(sum: u32, next: u32) -> u32 {
    sum.wrapping_mul(16_777_619).wrapping_add(next)
}
