// The bench's answers in words, by their rows of the table. Each word has a space behind it; the last one's
// becomes the line end.
#![tactic(auto)]

ghost use Rattle.std.specs.Prelude.{◌≤◌, length};

use bench_words::read::*;
use bench_words::table::*;
use bench_words::*;
use octets::number::byte as byte_at;
use octets::{Place, Refusal};

// More words than any answer has but for the values behind it.
const MOST_WORDS: usize = 64;

// How far an answer is put: where in its row, how many of its numbers, and where its text ends.
#[derive(Clone, Copy)]
struct Putting {
    walk: Walk,
    count: usize,
    end: usize,
}

// Puts the words of an answer behind the first `at` bytes of `out`, and answers where they end: a word
// that has no room is left out. The words of the request's own answer stand at `own` in the table; `bytes`
// are those of the request, `lent` the output of its call.
pub fn put(
    answer: Answer,
    own: usize,
    bytes: &[u8],
    lent: &[u8],
    out: &mut [u8],
    at: usize,
) -> usize {
    // a function that names the table is dear to check: the others are lent it
    put_words(&TABLE, answer, own, bytes, lent, out, at)
}

// Puts a line end in place of the last space, and answers how many bytes the line has: none where there
// is no word.
pub fn put_end(out: &mut [u8], end: usize) -> usize
    ensures { result ≤ length out.old }
{
    if end == 0 || out.len() < end {
        return 0;
    }
    out[end - 1] = b'\n';
    end
}

fn put_words(
    table: &[u8],
    answer: Answer,
    own: usize,
    bytes: &[u8],
    lent: &[u8],
    out: &mut [u8],
    at: usize,
) -> usize {
    let mut putting = begun(table, answer.form, own, at);
    for _ in 0..MOST_WORDS {
        let Some(walk) = putting.walk.next(table) else {
            break;
        };
        putting.walk = walk;
        putting = put_next(table, putting, answer.numbers, bytes, lent, out);
    }
    putting.end
}

fn begun(table: &[u8], form: Form, own: usize, end: usize) -> Putting {
    let words = match form {
        Form::OfRequest => own,
        _ => numbered(table, b'z', form as usize).map_or(0, |row| row.words),
    };
    put_to(walk_from(words), 0, end)
}

// Puts the word that the walk has come to.
fn put_next(
    table: &[u8],
    putting: Putting,
    numbers: Numbers,
    bytes: &[u8],
    lent: &[u8],
    out: &mut [u8],
) -> Putting {
    let Putting { walk, count, end } = putting;
    if 30 < count {
        return putting;
    }
    if 1 < walk.word.len {
        return put_to(walk, count, say(octets::part(table, walk.word), out, end));
    }
    let n = numbers[count];
    let letter = byte_at(table, walk.word.start);
    match letter {
        b'A'..=b'Z' => put_name(
            table,
            walk,
            numbered(table, letter, n as usize),
            count + 1,
            out,
            end,
        ),
        b';' if n == 0 => put_to(walk_from(0), count, end),
        b';' => putting,
        b'p' => put_to(
            walk,
            count + 2,
            part(place(n, numbers[count + 1]), bytes, out, end),
        ),
        _ => put_to(walk, count + 1, put_word(table, letter, n, lent, out, end)),
    }
}

fn put_to(walk: Walk, count: usize, end: usize) -> Putting {
    Putting { walk, count, end }
}

// Puts a name and goes into its row, or puts that there is none.
fn put_name(
    table: &[u8],
    walk: Walk,
    row: Option<Row>,
    count: usize,
    out: &mut [u8],
    end: usize,
) -> Putting {
    match row {
        Some(row) => {
            let end = say(octets::part(table, row.name), out, end);
            put_to(walk.into_row(row.words), count, end)
        }
        None => put_to(walk, count, say(b"none", out, end)),
    }
}

// Puts one word by its letter and the next number.
fn put_word(table: &[u8], letter: u8, n: u32, lent: &[u8], out: &mut [u8], at: usize) -> usize {
    match letter {
        b'_' => at,
        b'w' => say(&text::hex8(n), out, at),
        b'c' => pairs(&[byte(n)], out, at),
        b'x' => pairs(lent, out, at),
        b'y' => pairs(head(lent, n), out, at),
        b'q' => words(n, lent, out, at),
        b'o' | b'f' => known(letter, n, out, at),
        b':' => colon(decimal(n, out, at), out),
        b'e' => text_of(table, named(table, b'e', &[byte(n)]), out, at),
        b'i' => text_of(table, numbered(table, b'i', n as usize), out, at),
        b'v' => help(table, n as usize, out, at),
        _ => decimal(n, out, at),
    }
}

fn part(place: Place, bytes: &[u8], out: &mut [u8], at: usize) -> usize {
    let end = decimal(low(place.start), out, at);
    let end = decimal(low(place.len), out, end);
    pairs(octets::part(bytes, place), out, end)
}

// What counts from 1, and is not known at 0.
fn known(letter: u8, n: u32, out: &mut [u8], at: usize) -> usize {
    match n.checked_sub(1) {
        None => say(b"none", out, at),
        Some(n) if letter == b'f' => say(&text::hex8(n), out, at),
        Some(n) => decimal(n, out, at),
    }
}

// A colon in place of the last space.
fn colon(end: usize, out: &mut [u8]) -> usize {
    if end == 0 {
        return 0;
    }
    say(b":", out, end - 1)
}

// The text of a row, what is expected of a word or what a refusal means.
fn text_of(table: &[u8], row: Option<Row>, out: &mut [u8], at: usize) -> usize {
    match row {
        Some(row) => say(text_at(table, row.words), out, at),
        None => say(b"none", out, at),
    }
}

// A verb and its words, and for 0 all verbs.
fn help(table: &[u8], verb: usize, out: &mut [u8], at: usize) -> usize {
    if verb == 0 {
        let end = verbs(table, b'a', out, at);
        return verbs(table, b'd', out, end);
    }
    let row = match verb.checked_sub(DEVICE_VERBS) {
        Some(verb) => numbered(table, b'd', verb),
        None => numbered(table, b'a', verb),
    };
    row.map_or(at, |row| letters(table, row, out, at))
}

fn verbs(table: &[u8], list: u8, out: &mut [u8], at: usize) -> usize {
    let mut end = at;
    for number in 1..DEVICE_VERBS {
        let Some(row) = numbered(table, list, number) else {
            break;
        };
        end = say(octets::part(table, row.name), out, end);
    }
    end
}

// A row's name, and what the words behind it are called.
fn letters(table: &[u8], row: Row, out: &mut [u8], at: usize) -> usize {
    let mut end = say(octets::part(table, row.name), out, at);
    let mut walk = walk_from(row.words);
    for _ in 0..MOST_WORDS {
        let Some(next) = walk.next(table) else {
            break;
        };
        walk = next;
        let letter = byte_at(table, walk.word.start);
        if letter == b'>' {
            break;
        }
        end = called(table, letter, out, end);
    }
    end
}

// What a word of this letter is called: its text up to the comma. Without a word it has none.
fn called(table: &[u8], letter: u8, out: &mut [u8], at: usize) -> usize {
    match named(table, b'e', &[letter]) {
        Some(row) => {
            let text = text_at(table, row.words);
            say(&text[..text::until(text, b',')], out, at)
        }
        None => at,
    }
}

fn say(word: &[u8], out: &mut [u8], at: usize) -> usize {
    let written = octets::put(word, from_place(out, at));
    with_space(written, out, at)
}

fn decimal(n: u32, out: &mut [u8], at: usize) -> usize {
    let written = text::put_decimal(n as u64, from_place(out, at));
    with_space(written, out, at)
}

// Bytes as pairs of digits, none as `-`.
fn pairs(bytes: &[u8], out: &mut [u8], at: usize) -> usize {
    if bytes.is_empty() {
        return say(b"-", out, at);
    }
    let written = text::put_pairs(bytes, from_place(out, at));
    with_space(written, out, at)
}

// The first so many words, of four bytes each.
fn words(count: u32, lent: &[u8], out: &mut [u8], at: usize) -> usize {
    if count == 0 {
        return say(b"-", out, at);
    }
    let mut end = at;
    for word in octets::part(lent, place(0, low(count as usize * 4))).chunks_exact(4) {
        end = pairs(word, out, end);
    }
    end
}

// What is written behind the first `at` bytes ends with a space; what had no room is left out.
fn with_space(written: Result<usize, Refusal>, out: &mut [u8], at: usize) -> usize {
    match written {
        Ok(n) if at <= out.len() && n < out.len() - at => {
            out[at + n] = b' ';
            at + n + 1
        }
        _ => at,
    }
}
