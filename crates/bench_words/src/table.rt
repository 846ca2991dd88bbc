// The one table of the bench, a row a line: the letter of the list that the row is of, a name or several
// joined by `|`, the letters of the words behind it, and of a verb, behind `>`, those of its answer. A
// name's number in its list, counted from 1, is what the code knows it by.
//
// The lists: a verbs that need no processor, d those of the processor that the bench holds, C commands,
// R responses, U values, V the values of a Read, K kinds of device, S sources, I what a response is
// asked for, L E D a dialect's address length, its encoding and what it is asked, z answers that are no
// verb's own; and with a text behind the name, e the letters of words and what is expected there, i the
// refusals. A new name comes behind those of its list, so that their numbers stay.
//
// The letters of words: a list's own letter for a name of it and the words of its row;
//   x BYTES   p BYTES in pairs   r ROOM   q ROOM for so many words   n NUMBER   m NUMBER to 65,537
//   h NUMBER to 65,535   k NUMBER to 1,048,576   b NUMBER to 255   t BIT   w WORD   f NAME of a file
//   v VERB or nothing
//   and without a word: _ a number, so that a record begins with the third   @ the next number is that of
//   place 20   ! all the ROOM there is
//
// In an answer a word of more than one byte stands for itself, a name that is none is `none`, and
//   n NUMBER   w WORD   c one byte   x the whole output   y its first bytes   q its first words
//   p a place in the bytes of the request, and what stands there   ; the end, where the next number is 0
//   o NUMBER, f WORD: one less than its number, and none for 0   : NUMBER and a colon
//   e, i the text of that list   v the words of a verb, and for 0 all verbs
ghost use Rattle.std.specs.Prelude.{IfSome, ◌≡◌, ◌≤◌, length};

use octets::Place;
use octets::number::byte;

pub const TABLE: [u8; 5069] = *b"a checksum x > c
a frame x r > n x
a plain|strict x > p
a from_f32|to_f32|float w > w
a gain_byte w > n
a gain b > w
a addr b x > n n w
a value x n n > U
a encode_addr r b t w > n x
a encode_value x r U > n x
a command x > C
a mute b t w t > C
a write_int > DISABLED n ENABLED n BYPASSED n
a encode|encode_frame x r C > n x
a dialect L E D
a dialect_default > L E
a kind b b > K
a dirac b b > n
a sources b b > S n ; S n ; S n ; S n ; S n ; S n ; S n
a source_from b b b > S
a source_to b b S > n
a eeprom > FIRMWARE_VERSION n TIMESTAMP n TIMESTAMP_2X4 n PRESET n SOURCE n SOURCE_ASYNC n MASTER_VOLUME n MUTE n DIRAC_BYPASS n CHANNEL_MODE n SERIAL n SERIAL_SHORT n
a read_at x h n n h b > p
a read_u8|read_u16 x h n n h > n
a get x h n n h > w
a join_memory|join_floats x h n n x h n n r > n n n x
a response x > R
a is _ _ R > memory_view n float_view n hardware_id n ack n config_changed n fir_size n
a into I _ R
a matches _ _ C @ _ _ R > n
a values x V > n ; V
a value_number x n V > U
a encode_response|encode_response_frame x r R > n x
a status b b x h n n > preset o source S volume f mute o dirac o
a why b > i
a help v > v
a exact x > p
a import x r > done x
d lend m m > done
d bare b b K h > n n n n K n
d new b b K h p > n n n n K n
d send x r > n x
d tally > accepted n refused n
d zero > done
d execute x ! C > R y
d execute_into x r C > n x
d peek h r > y
d peek_words h q > q
d digest > n w n w
d write_u8 h b > done
d write_u16 h h > done
d write_u32 h w > done
d set_serial|set_timestamp w > done
d save r > n x
d keep k > n
d kept n r > y
d restore > done
d replay x > done
d judge x > n n
d listing x r > n x
d list_kept r > n x
d device > hw_id n dsp_version n firmware n n kind K taps n eeprom n settings n kept n
d end > end n requests
d write_save|read_save f > n
d export r > n x
d store_image x > done
d keep_hex k > n
d restore_hex > done
C ReadHardwareId|FirLoadEnd
C ReadFloats|ReadMemory h b
C WriteMemory h n n
C FirLoadData|Unknown b n n
C BulkLoad|BulkLoadFilterData n n
C SetConfig b t
C SetSource b
C SetMute t
C SetVolume w
C FirLoadStart|DiracBypass|Unk07 b
C WriteBiquadBypass b t w t
C Read b t w b
C SwitchMux b t w b t b
C Write b t w U
C WriteBiquad b t w U U U U U
R Ack|ConfigChanged|Unk02
R MemoryData|FloatData h n n
R Unknown b n n
R HardwareId b b b
R FirLoadSize h
R Read b t w V
U Float|FixedPoint w _
U Int h _
U Int32 w _
U Unknown n n
V Float|FixedPoint w _
V Int h _
V Int32 w _
V Unknown|Chunks n n
K Generic|M4x10Hd|M10x10Hd|MSharc4x8|M2x4Hd|Shd|DDRC24|DDRC88BM|Nanodigi2x8|C8x12v2|M2x4|Flex|FlexHtx
S NotInstalled|Analog|Toslink|Spdif|Usb|Aesebu|Rca|Xlr|Lan|I2S|Bluetooth|Hdmi
I memory_view|float_view|hardware_id > n n n
I ack|config_changed > done
I fir_size > n
L 2|3
E float|fixed
D addr h > n n w
D float w > U
D int h > U
D delay w > U
D mute|invert t > U
z bad_verb bad verb
z bad_argument bad argument : expected e
z none none
z refused refused n
z refused_output refused n x
z value U
z nothing_kept bad file: nothing is kept
z no_file bad file: cannot be opened
z not_written bad file: cannot be written
z not_read bad file: cannot be read
z long_file bad file: longer than 1048576 bytes
z long_line bad line: too long
z cr_line bad line: ends in CR
e x BYTES, pairs of hexadecimal digits, or - for none
e p BYTES, two for each address, or - for none
e r ROOM, a number to 1024
e q ROOM, a number of words to 1024
e n NUMBER, below 1000000000
e m NUMBER, to 65537
e h NUMBER, to 65535
e k NUMBER, to 1048576
e b NUMBER, to 255
e t BIT, 0 or 1
e w WORD, eight hexadecimal digits
e f NAME, the name of a file
e v VERB, one of those that help names
e C RECORD, the name of a command
e R RESPONSE, the name of a response
e U VALUE, the name of a value: Float, FixedPoint, Int, Int32 or Unknown
e V VALUES, Chunks or the name of a value
e K KIND, the name of a kind of device
e S SOURCE, the name of a source
e I KIND, memory_view, float_view, hardware_id, ack, config_changed or fir_size
e L LENGTH, 2 or 3
e E ENCODING, float or fixed
e D CALL, addr, float, int, delay, mute or invert
i 1 the received bytes are empty, or their length byte is 0
i 2 there are fewer bytes than the length byte asks
i 3 the packet ends before a field
i 4 a WriteBiquad has fewer than 20 bytes of values
i 5 too long: a packet over 254 bytes, a save over 16777216, or a listing's input over 32768
i 6 the output is shorter than the whole result
i 7 an address, a place or a part lies outside the memory, the view or the payload
i 8 an address has another length than 2 or 3
i 9 strict receipt: the checksum differs
i 10 strict receipt: bytes follow the checksum, in a save or where they are not 64 in all
i 11 the joined views do not adjoin
i 12 the response is not of the kind asked for
i 13 the save has a wrong field, order, kind or count
i 14 a memory has a wrong size, or the sizes differ
i 15 the first of the joined views ends behind 65535
i 16 the text is malformed, has another record type or no end record, or goes on behind it
i 17 a record of the text has a wrong checksum
i 18 two rows of the text name one byte
";

// A name's number in its list, its place, and where the words of its row begin.
#[derive(Clone, Copy)]
pub struct Row {
    pub number: usize,
    pub name: Place,
    pub words: usize,
}

// A list's name.
pub fn named(table: &[u8], list: u8, name: &[u8]) -> Option<Row>
    ensures { IfSome result (λ row. row.number ≤ length table.now) }
{
    find(table, list, |_, one| one == name)
}

// The name of a number.
pub fn numbered(table: &[u8], list: u8, number: usize) -> Option<Row>
    ensures { IfSome result (λ row. row.number ≤ length table.now) }
{
    find(table, list, |count, _| count == number)
}

// The first name of a list that is sought, by its number and itself.
fn find<F: Fn(usize, &[u8]) -> bool>(table: &[u8], list: u8, is_sought: F) -> Option<Row>
    requires { F.IsAlwaysCallable is_sought }
    ensures { IfSome result (λ row. row.number ≤ length table.now) }
{
    let mut row = 0;
    let mut start = 1;
    let mut count = 0;
    for _turn in 0..table.len() {
        if table.len() <= start {
            break;
        }
        let rest = &table[start + 1..];
        if byte(table, row) != list {
            row = start + text::until(rest, b'\n') + 2;
            start = row + 1;
            continue;
        }
        let all = word_len(rest);
        let one = text::until(&rest[..all], b'|');
        count += 1;
        if is_sought(count, &rest[..one]) {
            return Some(row_of(count, start + 1, one, start + 1 + all));
        }
        start += 1 + one;
        if one == all {
            row = start + text::until(&rest[one..], b'\n') + 1;
            start = row + 1;
        }
    }
    None
}

fn row_of(number: usize, start: usize, len: usize, words: usize) -> Row
    ensures { result.number ≡ number }
{
    Row {
        number,
        name: Place { start, len },
        words,
    }
}

// How long the first word is.
pub fn word_len(text: &[u8]) -> usize
    ensures { result ≤ length text.now }
{
    let line = text::until(text, b'\n');
    text::until(&text[..line], b' ')
}

// A walk through a row and, at a name, through that one's: the word that it is at, what it has passed of
// its row, and of the rows in which that stands, 0 where there is none.
#[derive(Clone, Copy)]
pub struct Walk {
    pub word: Place,
    pub passed: usize,
    above: usize,
    top: usize,
}

// The walk through the words behind a place in a row.
pub fn walk_from(passed: usize) -> Walk {
    Walk {
        word: crate::place(0, 0),
        passed,
        above: 0,
        top: 0,
    }
}

impl Walk {
    // Goes on behind a name in its row, and then where it is.
    pub fn into_row(self, words: usize) -> Walk {
        Walk {
            passed: words,
            above: self.passed,
            top: self.above,
            ..self
        }
    }

    // Leaves its row for the one in which that stands.
    pub fn leave(self) -> Walk {
        Walk {
            passed: self.above,
            above: self.top,
            top: 0,
            ..self
        }
    }

    // Goes on to the next word, where there is one.
    pub fn next(self, table: &[u8]) -> Option<Walk> {
        if byte(table, self.passed) == b' ' {
            self.at_word(table)
        } else if byte(table, self.above) == b' ' {
            self.leave().at_word(table)
        } else if byte(table, self.top) == b' ' {
            self.leave().leave().at_word(table)
        } else {
            None
        }
    }

    // At the word behind the space that it has come to.
    fn at_word(self, table: &[u8]) -> Option<Walk> {
        if table.len() <= self.passed {
            return None;
        }
        let start = self.passed + 1;
        let len = word_len(&table[start..]);
        if len == 0 {
            return None;
        }
        Some(Walk {
            word: Place { start, len },
            passed: start + len,
            ..self
        })
    }
}

// The text of a row behind its name.
pub fn text_at(table: &[u8], words: usize) -> &[u8] {
    if table.len() <= words {
        return &[];
    }
    let rest = &table[words + 1..];
    &rest[..text::until(rest, b'\n')]
}
