// Judging a text of Intel HEX, up to its first bad row. Which bytes the rows so far have named is marked,
// a bit for each, so that going over the text once is enough.
ghost use Rattle.std.specs.Prelude.{◌≡◌, ◌+◌, ◌<◌, ◌≤◌, length, replicate};
ghost use Rattle.octets.specs.declared.refusal.Refusal.TheVariants.{Malformed};
ghost use Rattle.octets.specs.Choice.{if_lt};
ghost use Rattle.octets.specs.Outcome.{outcome, on_accepted};
ghost use Rattle.intel_hex.specs.Reading.{rows_in};
ghost use Rattle.images.specs.Import.{judged_for};
ghost use Rattle.images.specs.Inside.{MarksOne, MarksRow, last_step, StepOf, FitOf};
ghost use Rattle.images.specs.declared.judge.Step.TheVariants.{End};

use crate::row::{Line, line_end, line_of, look_at};
use octets::Refusal;
use processor::LARGEST;

// A bit for each byte of the largest image.
const MARKS: usize = 8192;

// Judges a text for an image of so many bytes.
pub fn judge(hex: &[u8], size: usize) -> Result<(), Refusal>
    ensures { outcome result ≡ on_accepted (λ rows. tt) (judged_for size hex.now) }
{
    if LARGEST < size {
        return Err(Refusal::WrongSizes);
    }
    judge_sized(hex, size)
}

fn judge_sized(hex: &[u8], size: usize) -> Result<(), Refusal>
    requires { size ≤ 65536 }
    ensures { outcome result ≡ on_accepted (λ rows. tt) (rows_in size hex.now) }
{
    let mut marks = [0u8; MARKS];
    judge_rows(hex, size, &mut marks)
}

// A `while`, since where a line ends is found as it is read.
fn judge_rows(hex: &[u8], size: usize, marks: &mut [u8]) -> Result<(), Refusal>
    requires { (size ≤ 65536) × (marks.old ≡ replicate 8192 0) }
    ensures { outcome result ≡ on_accepted (λ rows. tt) (rows_in size hex.now) }
{
    let mut rest = hex;
    while let Step::Row = judge_line(rest, size, marks)? {
        rest = &rest[line_end(rest)..];
    }
    Ok(())
}

// What a line comes to behind the rows that are marked: one more row, or the end of the text.
#[derive(Clone, Copy, Debug, PartialEq, Eq)]
enum Step {
    Row,
    End,
}

fn judge_line(rest: &[u8], size: usize, marks: &mut [u8]) -> Result<Step, Refusal>
    requires { (size ≤ 65536) × (length marks.old ≡ 8192) }
    ensures { StepOf size rest.now marks.old marks.new result }
{
    let n = text::until(rest, b'\n');
    let line = look_at(line_of(rest));
    if n == rest.len() {
        return last_line(line);
    }
    match line? {
        Some(row) => judge_row(row.start as usize, row.count as usize, size, marks),
        None => end_line(n + 1, rest.len()),
    }
}

// A line without a line end, which only the end record may lack.
fn last_line(line: Line) -> Result<Step, Refusal>
    ensures { result ≡ last_step line }
{
    match line {
        Ok(None) => Ok(Step::End),
        Ok(Some(_)) | Err(_) => Err(Refusal::Malformed),
    }
}

// The end record, behind which the text must end.
#[tactic(auto, using(octets::proofs::Choosing::tests))]
fn end_line(end: usize, len: usize) -> Result<Step, Refusal>
    ensures { result ≡ if_lt end len (Err Malformed) (Ok End) }
{
    if end < len {
        Err(Refusal::Malformed)
    } else {
        Ok(Step::End)
    }
}

fn judge_row(start: usize, count: usize, size: usize, marks: &mut [u8]) -> Result<Step, Refusal>
    requires { (size ≤ 65536) × (length marks.old ≡ 8192) × (start < 65536) × (count < 256) }
    ensures { FitOf size start count marks.old marks.new result }
{
    if size < start + count {
        Err(Refusal::Outside)
    } else if mark_row(start, count, marks) {
        Err(Refusal::NamedTwice)
    } else {
        Ok(Step::Row)
    }
}

// Marks the bytes of a row, unless one of them is marked: whether one is.
fn mark_row(start: usize, count: usize, marks: &mut [u8]) -> bool
    requires { (start + count ≤ 65536) × (length marks.old ≡ 8192) }
    ensures { MarksRow start count marks.old marks.new result }
{
    for place in start..start + count {
        if mark(place, marks) {
            return true;
        }
    }
    false
}

// The same of one byte. Its bit is 0, so that it is set by adding it.
fn mark(place: usize, marks: &mut [u8]) -> bool
    requires { (place < 65536) × (length marks.old ≡ 8192) }
    ensures { MarksOne place marks.old marks.new result }
{
    let bit = 1u8 << (place % 8);
    let before = marks[place / 8];
    if before / bit % 2 == 1 {
        return true;
    }
    marks[place / 8] = before + bit;
    false
}
