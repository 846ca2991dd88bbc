// The words of the bench: one table of its verbs and names, and what is read and answered by it.
#![tactic(auto)]

ghost use Rattle.std.specs.Prelude.{◌≡◌, length, slice_range};

pub mod read;
pub mod table;

use octets::Place;

// The numbers of a request's words, or of an answer's.
pub type Numbers = [u32; 32];

// The numbers of a record: that of its kind, and those of its fields in order.
pub type Record = [u32; 7];

// Where a request's numbers go on behind `@`.
pub const SECOND_PART: usize = 20;

// The record that begins with the third number.
pub fn first_record(n: Numbers) -> Record
    ensures { result ≡ slice_range n 2 9 }
{
    record_of(&n[2..9])
}

// The record that begins with the third number behind `@`.
pub fn second_record(n: Numbers) -> Record
    ensures { result ≡ slice_range n 22 29 }
{
    record_of(&n[SECOND_PART + 2..SECOND_PART + 9])
}

fn record_of(n: &[u32]) -> Record
    requires { length n.now ≡ 7 }
    ensures { result ≡ n.now }
{
    let mut record = [0; 7];
    record.copy_from_slice(n);
    record
}

// By which row of the table an answer's words are put: its request's own, or one of the list z, by its
// number there.
#[derive(Clone, Copy)]
pub enum Form {
    OfRequest,
    BadVerb,
    BadArgument,
    Nothing,
    Refused,
    RefusedOutput,
    Value,
    NothingKept,
    Unopened,
    Unwritten,
    Unread,
    LongFile,
    LongLine,
    CrLine,
}

// An answer: by which row it is put, the numbers of its words, and the place of the values that stand
// behind these.
#[derive(Clone, Copy)]
pub struct Answer {
    pub form: Form,
    pub numbers: Numbers,
    pub values: Place,
}

pub fn of(a: u32, b: u32, c: u32, d: u32) -> Answer {
    let mut numbers = [0; 32];
    numbers[0] = a;
    numbers[1] = b;
    numbers[2] = c;
    numbers[3] = d;
    of_numbers(numbers)
}

pub fn of_numbers(numbers: Numbers) -> Answer
    ensures { result.numbers ≡ numbers }
{
    Answer {
        form: Form::OfRequest,
        numbers,
        values: place(0, 0),
    }
}

// With three numbers behind the first four.
pub fn with(mut answer: Answer, e: u32, f: u32, g: u32) -> Answer {
    answer.numbers[4] = e;
    answer.numbers[5] = f;
    answer.numbers[6] = g;
    answer
}

pub fn number(n: u32) -> Answer {
    of(n, 0, 0, 0)
}

// Put by a row of the list z.
pub fn by(form: Form, answer: Answer) -> Answer {
    Answer { form, ..answer }
}

pub fn none() -> Answer {
    by(Form::Nothing, number(0))
}

pub fn refused(refusal: impl Into<u8>) -> Answer {
    let number_of: u8 = refusal.into();
    by(Form::Refused, number(u32::from(number_of)))
}

// Of a function that writes: the whole output follows.
pub fn written(answer: Result<usize, impl Into<u8>>) -> Answer {
    match answer {
        Ok(n) => number(low(n)),
        Err(k) => with_output(refused(k)),
    }
}

pub fn with_output(answer: Answer) -> Answer {
    match answer.form {
        Form::Refused => by(Form::RefusedOutput, answer),
        _ => answer,
    }
}

pub fn done(answer: Result<(), impl Into<u8>>) -> Answer {
    match answer {
        Ok(()) => number(0),
        Err(k) => refused(k),
    }
}

pub fn low(n: usize) -> u32 {
    (n & 0xffff_ffff) as u32
}

pub fn byte(n: u32) -> u8 {
    (n & 0xff) as u8
}

pub fn half(n: u32) -> u16 {
    (n & 0xffff) as u16
}

pub fn place(start: u32, len: u32) -> Place {
    Place {
        start: start as usize,
        len: len as usize,
    }
}

// The first so many bytes, or all of them.
pub fn head(bytes: &[u8], n: u32) -> &[u8] {
    bytes.get(..n as usize).unwrap_or(bytes)
}

// What stands from a place on, or all.
pub fn from_place(bytes: &mut [u8], place: usize) -> &mut [u8] {
    if bytes.len() < place {
        return bytes;
    }
    &mut bytes[place..]
}
