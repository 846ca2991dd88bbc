// Digits and lines: numbers and bytes as text, read and written, and where a word of a line ends.
#![tactic(auto)]

ghost use Rattle.std.specs.Prelude.{◌≡◌, ◌%◌, ◌≤◌, length, drop};
ghost use Rattle.octets.specs.Outcome.{outcome};
ghost use Rattle.octets.specs.Over.{into};
ghost use Rattle.text.specs.Digits.{decimal, hex_digit, hex_digits, pairs_of, digit_value};
ghost use Rattle.text.specs.Read.{number_in, decimal_in, word_in, not_digits, pairs_into};
ghost use Rattle.text.specs.Lines.{until_of, run_of};

use octets::Refusal;

// The last hexadecimal digit of a number.
#[tactic(auto, using(octets::proofs::Choosing::tests))]
pub fn hex_digit(n: u32) -> u8
    ensures { result ≡ hex_digit (n % 16) }
{
    if n % 16 < 10 {
        48 + (n % 16) as u8
    } else {
        55 + (n % 16) as u8
    }
}

pub fn hex8(word: u32) -> [u8; 8]
    ensures { result ≡ hex_digits 8 word }
{
    let mut digits = [0; 8];
    let _ = put_pairs(&word.to_be_bytes(), &mut digits);
    digits
}

// The value of a digit of either case, 16 for any other byte.
#[tactic(auto, using(octets::proofs::Choosing::tests), unfolding(crate::specs::Digits::digit_value))]
pub fn digit_value(byte: u8) -> u8
    ensures { (result ≡ digit_value byte) × (result ≤ 16) }
{
    match byte {
        b'0'..=b'9' => byte - b'0',
        b'A'..=b'F' => byte - 55,
        b'a'..=b'f' => byte - 87,
        _ => 16,
    }
}

// Spells a number from its last digit on: its digits are the end of these bytes, of which twenty are
// enough for any.
// No `for`: how many digits there are shows only at the first of them.
fn digits_of(n: u64, bytes: &mut [u8; 20]) -> &[u8]
    ensures { result.now ≡ decimal n }
{
    let mut start = 20;
    let mut rest = n;
    loop {
        start -= 1;
        bytes[start] = 48 + (rest % 10) as u8;
        rest /= 10;
        if rest == 0 {
            return &bytes[start..];
        }
    }
}

pub fn put_decimal(n: u64, out: &mut [u8]) -> Result<usize, Refusal>
    ensures { (outcome result, out.new) ≡ into (decimal n) out.old }
{
    let mut bytes = [0; 20];
    octets::put(digits_of(n, &mut bytes), out)
}

// Each byte as two digits. Half of the room is asked, since twice a length can overflow.
pub fn put_pairs(bytes: &[u8], out: &mut [u8]) -> Result<usize, Refusal>
    ensures { (outcome result, out.new) ≡ into (pairs_of bytes.now) out.old }
{
    if out.len() / 2 < bytes.len() {
        return Err(Refusal::NoRoom);
    }
    for (i, byte) in bytes.iter().enumerate() {
        let byte = *byte as u32;
        out[2 * i] = hex_digit(byte / 16);
        out[2 * i + 1] = hex_digit(byte);
    }
    Ok(2 * bytes.len())
}

// The number that a word's digits spell, where it is below 2^32.
fn read_number(base: u64, word: &[u8]) -> Option<u32>
    requires { (1 ≤ base) × (base ≤ 16) }
    ensures { result ≡ number_in base word.now }
{
    let mut n: u64 = 0;
    for byte in word {
        let digit = digit_value(*byte) as u64;
        if base <= digit {
            return None;
        }
        n = n * base + digit;
        if 0xFFFF_FFFF < n {
            return None;
        }
    }
    Some(n as u32)
}

#[tactic(auto, using(octets::proofs::Choosing::tests))]
pub fn read_decimal(word: &[u8]) -> Option<u32>
    ensures { result ≡ decimal_in word.now }
{
    if word.is_empty() {
        None
    } else {
        read_number(10, word)
    }
}

#[tactic(auto, using(octets::proofs::Choosing::tests))]
pub fn read_word(word: &[u8]) -> Option<u32>
    ensures { result ≡ word_in word.now }
{
    if word.len() == 8 {
        read_number(16, word)
    } else {
        None
    }
}

// Whether a byte is no digit.
fn not_digits(word: &[u8]) -> bool
    ensures { result ≡ not_digits word.now }
{
    word.iter().any(|byte| digit_value(*byte) == 16)
}

// Pairs of digits as bytes, whole or not at all.
pub fn read_pairs(word: &[u8], out: &mut [u8]) -> Option<usize>
    ensures { (result, out.new) ≡ pairs_into word.now out.old }
{
    let n = word.len() / 2;
    if not_digits(word) || word.len() % 2 == 1 || out.len() < n {
        return None;
    }
    for i in 0..n {
        out[i] = digit_value(word[2 * i]) * 16 + digit_value(word[2 * i + 1]);
    }
    Some(n)
}

// How many bytes come before the first that is this one, all of them where there is none.
pub fn until(text: &[u8], byte: u8) -> usize
    ensures { (result ≡ until_of byte text.now) × (result ≤ length text.now) }
{
    text.iter().position(|b| *b == byte).unwrap_or(text.len())
}

// How many bytes come first that are all this one.
pub fn run(text: &[u8], byte: u8) -> usize
    ensures { (result ≡ run_of byte text.now) × (result ≤ length text.now) }
{
    text.iter().position(|b| *b != byte).unwrap_or(text.len())
}
