// What every format of the port needs: refusal numbers under names, places in lent bytes, bytes
// written over the start of a lent output, and numbers in bytes.
#![tactic(auto)]

ghost use Rattle.std.specs.Prelude.{◌≡◌, [], ◌∷◌, length};
ghost use Rattle.octets.specs.Outcome.{outcome};
ghost use Rattle.octets.specs.Over.{into, into_at};
ghost use Rattle.octets.specs.Place.{floats_at, part_of, is_outside};
ghost use Rattle.octets.specs.Reading.{rest, needing};

pub mod number;
pub mod refusal;

pub use refusal::Refusal;

// Writes bytes over the start of out, whole or not at all, and answers how many it wrote.
#[tactic(auto, using(crate::proofs::Choosing::tests))]
pub fn put(bytes: &[u8], out: &mut [u8]) -> Result<usize, Refusal>
    ensures { (outcome result, out.new) ≡ into bytes.now out.old }
{
    if out.len() < bytes.len() {
        return Err(Refusal::NoRoom);
    }
    // `copy_from_slice` is a call of `memmove`, which the archive for C would ask its caller for
    for (i, byte) in bytes.iter().enumerate() {
        out[i] = *byte;
    }
    Ok(bytes.len())
}

// Writes bytes over those from a place of a memory on, whole or not at all.
#[tactic(auto, using(crate::proofs::Choosing::tests))]
pub fn put_at(bytes: &[u8], place: usize, memory: &mut [u8]) -> Result<usize, Refusal>
    ensures { (outcome result, memory.new) ≡ into_at place bytes.now memory.old }
{
    if memory.len() < place || memory.len() - place < bytes.len() {
        return Err(Refusal::Outside);
    }
    put(bytes, &mut memory[place..])
}

// Writes one word of a memory of words; where the place is outside, nothing.
pub fn put_word(place: usize, word: u32, memory: &mut [u32])
    ensures { memory.new ≡ (into_at place (word ∷ []) memory.old).1 }
{
    if place < memory.len() {
        memory[place] = word;
    }
}

// A place in lent bytes, which stands for the bytes there.
#[derive(Clone, Copy)]
pub struct Place {
    pub start: usize,
    pub len: usize,
}

// Whether a place runs past so many bytes.
pub fn is_outside(place: Place, have: usize) -> bool
    ensures { result ≡ is_outside place have }
{
    have < place.start || have - place.start < place.len
}

// Whether count floats from start run past so many bytes: divided, since four times a count can
// overflow.
pub fn floats_outside(start: usize, count: usize, have: usize) -> bool
    ensures { result ≡ is_outside (floats_at start count) have }
{
    have < start || (have - start) / 4 < count
}

// The place of what is left behind the first n bytes.
pub fn rest_of(bytes: &[u8], n: usize) -> Place
    ensures { result ≡ rest n bytes.now }
{
    Place {
        start: n,
        len: bytes.len().saturating_sub(n),
    }
}

// The bytes at a place, so far as there are any.
pub fn part(bytes: &[u8], place: Place) -> &[u8]
    ensures { result.now ≡ part_of bytes.now place }
{
    let start = place.start.min(bytes.len());
    let len = place.len.min(bytes.len() - start);
    &bytes[start..start + len]
}

// What is read of a packet, where it has the n bytes that it needs.
#[tactic(auto, using(crate::proofs::Choosing::tests))]
pub fn needing<T: Drop>(packet: &[u8], n: usize, value: T) -> Result<T, Refusal>
    ensures { outcome result ≡ needing n packet.now value }
{
    if packet.len() < n {
        return Err(Refusal::Ends);
    }
    Ok(value)
}
