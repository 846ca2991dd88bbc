// The save that is kept goes into a file and comes from one.
use crate::held::Held;
use bench_words::*;
use programs::files::*;
use std::rt::Files;

// One more than can be kept, so that a file that is longer is told.
const MOST: usize = 1048577;

pub fn write_save(files: &impl Files, name: &[u8], saved: &[u8]) -> Answer {
    if saved.is_empty() {
        return by(Form::NothingKept, number(0));
    }
    match write_file(files, name, saved) {
        Ok(()) => number(low(saved.len())),
        Err(WriteError::Unopened) => by(Form::Unopened, number(0)),
        Err(WriteError::Unwritten) => by(Form::Unwritten, number(0)),
    }
}

// All of a file is read before anything that is kept changes. A call of its own, so that no other request takes its million bytes of stack.
#[inline(never)]
pub fn read_save(files: &impl Files, name: &[u8], held: &mut Held, kept: &mut [u8]) -> Answer {
    let mut came = [0u8; MOST];
    lent_whole(files, name, &mut came, held, kept)
}

// Tried without it and not proved: the check counts the elements of the array where `read_save` lends it as a slice.
fn lent_whole(
    files: &impl Files,
    name: &[u8],
    came: &mut [u8; MOST],
    held: &mut Held,
    kept: &mut [u8],
) -> Answer {
    read_and_keep(files, name, came, held, kept)
}

fn read_and_keep(
    files: &impl Files,
    name: &[u8],
    came: &mut [u8],
    held: &mut Held,
    kept: &mut [u8],
) -> Answer {
    match read_file(files, name, came) {
        Ok(n) => held.keep(octets::put(head(came, low(n)), kept)),
        Err(ReadError::Unopened) => by(Form::Unopened, number(0)),
        Err(ReadError::Unread) => by(Form::Unread, number(0)),
        Err(ReadError::Long) => by(Form::LongFile, number(0)),
    }
}
