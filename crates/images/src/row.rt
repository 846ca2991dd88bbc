// One line of a text: a data record's row, or the end record.
ghost use Rattle.std.specs.Prelude.{◌≡◌, ◌≤◌, length, drop};
ghost use Rattle.octets.specs.Outcome.{outcome, on_accepted};
ghost use Rattle.intel_hex.specs.Reading.{end_in, record_in, line_in, lines_in, without_cr};
ghost use Rattle.images.specs.Inside.{lined, Held, extent_told, extent_of, first_line, behind_line, placed_line};

use octets::{Refusal, number};

// A data record's row. Its data stand in the record's bytes behind its type.
#[derive(Clone, Copy, Debug, PartialEq, Eq)]
pub struct Row {
    pub start: u16,
    pub count: u8,
}

// What a line says: a row, or none where it is the end record.
pub type Line = Result<Option<Row>, Refusal>;

// The most bytes of a record: 255 of data, and five around them.
const RECORD: usize = 260;

// Where a record's data begin.
const DATA: usize = 4;

// The first line of a text, without its line end.
pub fn line_of(rest: &[u8]) -> &[u8]
    ensures { result.now ≡ first_line (lines_in rest.now) }
{
    let n = text::until(rest, b'\n');
    if n == rest.len() {
        rest
    } else {
        without_cr(&rest[..n])
    }
}

fn without_cr(line: &[u8]) -> &[u8]
    ensures { result.now ≡ without_cr line.now }
{
    line.strip_suffix(b"\r").unwrap_or(line)
}

// Where the first line of a text ends, with its line end.
pub fn line_end(rest: &[u8]) -> usize
    ensures { (result ≤ length rest.now) × (drop result rest.now ≡ behind_line rest.now) }
{
    let n = text::until(rest, b'\n');
    if n == rest.len() { n } else { n + 1 }
}

// Reads a line; the bytes that it spells go to the start of bytes.
fn read_line(line: &[u8], bytes: &mut [u8]) -> Line
    requires { length bytes.old ≡ 260 }
    ensures { (lined bytes.new result ≡ line_in line.now) × Held 260 result }
{
    if number::byte(line, 0) != b':' {
        return Err(Refusal::Malformed);
    }
    let Some(n) = text::read_pairs(&line[1..], bytes) else {
        return Err(Refusal::Malformed);
    };
    record_of(&bytes[..n])
}

// The same, where its data are not asked for.
pub fn look_at(line: &[u8]) -> Line
    ensures { extent_told result ≡ on_accepted extent_of (line_in line.now) }
{
    let mut bytes = [0u8; RECORD];
    read_line(line, &mut bytes)
}

#[tactic(auto, using(octets::proofs::Choosing::tests), unfolding(intel_hex::specs::Reading::record_in))]
fn record_of(bytes: &[u8]) -> Line
    ensures { (lined bytes.now result ≡ record_in bytes.now) × Held (length bytes.now) result }
{
    if bytes.len() < 5 {
        return Err(Refusal::Malformed);
    }
    let count = bytes[0];
    if count as usize + 5 != bytes.len() {
        return Err(Refusal::Malformed);
    }
    if bytes[3] == 1 {
        return end_of(bytes);
    }
    if bytes[3] != 0 {
        return Err(Refusal::Malformed);
    }
    if packet::checksum(bytes) != 0 {
        return Err(Refusal::RecordChecksum);
    }
    let start = number::big16(bytes, 1);
    Ok(Some(Row { start, count }))
}

#[tactic(auto, using(octets::proofs::Choosing::tests))]
fn end_of(bytes: &[u8]) -> Line
    ensures { (lined bytes.now result ≡ end_in bytes.now) × Held (length bytes.now) result }
{
    if number::big24(bytes, 0) != 0 || number::byte(bytes, DATA) != 0xff {
        Err(Refusal::Malformed)
    } else {
        Ok(None)
    }
}

// Places a row, and answers whether the line is one.
pub fn place_line(line: &[u8], image: &mut [u8]) -> bool
    ensures { (result, image.new) ≡ placed_line (line_in line.now) image.old }
{
    let mut bytes = [0u8; RECORD];
    let Ok(Some(row)) = read_line(line, &mut bytes) else {
        return false;
    };
    let end = DATA + row.count as usize;
    let _ = octets::put_at(&bytes[DATA..end], row.start as usize, image);
    true
}
