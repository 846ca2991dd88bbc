// A request read by the table: its words as numbers, and the bytes that it holds.
ghost use Rattle.std.specs.Prelude.{◌≤◌};

use crate::table::*;
use crate::*;
use octets::number::byte;
use text::*;

// The most words of the table that it takes to read a request.
const MOST_STEPS: usize = 64;

// The most digits that a word of bytes has.
const LONGEST_WORD: usize = 2048;

// Where the bytes of a request's second word of bytes stand; those of its first stand at 0.
pub const SECOND_BYTES: u32 = 1024;

// What is added to the number of a verb of the processor.
pub const DEVICE_VERBS: usize = 1000;

// A request: the number of its verb, its numbers, how much output it asks for, and where the words of its
// answer stand in the table.
#[derive(Clone, Copy)]
pub struct Request {
    pub verb: usize,
    pub numbers: Numbers,
    pub room: usize,
    pub answer: usize,
}

// A request, and how far it is read: where in its row, what is left of its line, which of its words is
// next, where that one's bytes go, and how many numbers there are.
#[derive(Clone, Copy)]
struct Reading<'a> {
    request: Request,
    walk: Walk,
    rest: &'a [u8],
    word: u32,
    place: usize,
    count: usize,
}

// Reads a request, and puts its bytes into `bytes`; or answers why it is none. A line that is too long has
// lost its start.
pub fn read(line: &[u8], long: bool, bytes: &mut [u8]) -> Result<Request, Answer> {
    // a function that names the table is dear to check: the others are lent it
    read_in(&TABLE, line, long, bytes)
}

fn read_in(table: &[u8], line: &[u8], long: bool, bytes: &mut [u8]) -> Result<Request, Answer> {
    if long {
        return Err(by(Form::LongLine, number(0)));
    }
    if line.ends_with(b"\r") {
        return Err(by(Form::CrLine, number(0)));
    }
    let (verb, rest) = next_word(line);
    let row = verb_row(table, verb).ok_or(by(Form::BadVerb, number(0)))?;
    read_words(table, begun(row, rest), bytes)
}

fn read_words(table: &[u8], begun: Reading, bytes: &mut [u8]) -> Result<Request, Answer> {
    let mut reading = begun;
    for _ in 0..MOST_STEPS {
        let Some(walk) = reading.walk.next(table) else {
            break;
        };
        reading.walk = walk;
        reading.take_word(table, bytes)?;
    }
    Ok(reading.request)
}

// A verb's row, with its number over both lists.
fn verb_row(table: &[u8], word: &[u8]) -> Option<Row> {
    match named(table, b'd', word) {
        Some(row) => Some(Row {
            number: DEVICE_VERBS + row.number,
            ..row
        }),
        None => named(table, b'a', word),
    }
}

fn begun(row: Row, rest: &[u8]) -> Reading {
    Reading {
        request: Request {
            verb: row.number,
            numbers: [0; 32],
            room: 0,
            answer: 0,
        },
        walk: walk_from(row.words),
        rest,
        word: 1,
        place: 0,
        count: 0,
    }
}

impl Reading<'_> {
    // Takes what the word of the table says that the walk has come to.
    fn take_word(&mut self, table: &[u8], bytes: &mut [u8]) -> Result<(), Answer> {
        match byte(table, self.walk.word.start) {
            b'>' => {
                self.request.answer = self.walk.passed;
                self.walk = self.walk.leave();
            }
            b'_' => self.push(0),
            b'@' => self.count = SECOND_PART,
            b'!' => {
                self.request.room = 1024;
                self.push(0);
            }
            letter => return self.read_word(table, letter, bytes),
        }
        Ok(())
    }

    // Reads a word of the line by its letter.
    fn read_word(&mut self, table: &[u8], letter: u8, bytes: &mut [u8]) -> Result<(), Answer> {
        let (word, rest) = next_word(self.rest);
        let bad = by(Form::BadArgument, of(self.word, u32::from(letter), 0, 0));
        let got = word_by(table, letter, word, from_place(bytes, self.place)).ok_or(bad)?;
        if let Some(words) = got.row {
            self.walk = self.walk.into_row(words);
        }
        self.rest = rest;
        self.word = self.word.saturating_add(1);
        match letter {
            b'r' => self.request.room = got.number as usize,
            b'q' => self.request.room = got.number as usize * 4,
            b'x' => self.place = SECOND_BYTES as usize,
            _ => (),
        }
        self.push(got.number);
        Ok(())
    }

    // With one number more.
    fn push(&mut self, number: u32) {
        if self.count < 32 {
            self.request.numbers[self.count] = number;
            self.count += 1;
        }
    }
}

// What a word is by its letter: a number, and where it is a name, where the words of its row begin.
#[derive(Clone, Copy)]
struct Got {
    number: u32,
    row: Option<usize>,
}

fn word_by(table: &[u8], letter: u8, word: &[u8], bytes: &mut [u8]) -> Option<Got> {
    match letter {
        b'A'..=b'Z' => {
            let row = named(table, letter, word)?;
            Some(Got {
                number: low(row.number),
                row: Some(row.words),
            })
        }
        _ => {
            let number = number_by(table, letter, word, bytes)?;
            Some(Got { number, row: None })
        }
    }
}

fn number_by(table: &[u8], letter: u8, word: &[u8], bytes: &mut [u8]) -> Option<u32> {
    match letter {
        b'x' => bytes_of(word, 2, bytes),
        b'p' => bytes_of(word, 4, bytes),
        b'w' => read_word(word),
        b't' => bit_of(word),
        b'v' => verb_of(table, word),
        b'f' => name_of(word, bytes),
        _ => read_decimal(word).filter(|n| *n <= bound(letter)),
    }
}

// A verb's number, and 0 for no word.
fn verb_of(table: &[u8], word: &[u8]) -> Option<u32> {
    if word.is_empty() {
        return Some(0);
    }
    verb_row(table, word).map(|row| low(row.number))
}

// One digit alone.
fn bit_of(word: &[u8]) -> Option<u32> {
    match word {
        b"0" => Some(0),
        b"1" => Some(1),
        _ => None,
    }
}

fn bound(letter: u8) -> u32 {
    match letter {
        b'n' => 999_999_999,
        b'k' => 1_048_576,
        b'm' => 65537,
        b'h' => 65535,
        b'b' => 255,
        _ => 1024,
    }
}

// The bytes of a word, which come so many digits at a time; `-` is none.
fn bytes_of(word: &[u8], digits: usize, bytes: &mut [u8]) -> Option<u32>
    requires { 1 ≤ digits }
{
    if matches!(word, b"-") {
        return Some(0);
    }
    if word.is_empty() || LONGEST_WORD < word.len() || word.len() % digits != 0 {
        return None;
    }
    match read_pairs(word, bytes) {
        Some(n) => Some(low(n)),
        None => None,
    }
}

// A name as it stands.
fn name_of(word: &[u8], bytes: &mut [u8]) -> Option<u32> {
    if word.is_empty() {
        return None;
    }
    match octets::put(word, bytes) {
        Ok(n) => Some(low(n)),
        Err(_) => None,
    }
}

// The first word of a line, and what stands behind it.
fn next_word(line: &[u8]) -> (&[u8], &[u8]) {
    let behind = &line[run(line, b' ')..];
    behind.split_at(until(behind, b' '))
}
