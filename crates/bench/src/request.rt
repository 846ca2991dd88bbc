// One request: read by the table, answered by the part whose verb it is, and put by the table.
use crate::files::*;
use crate::held::Held;
use bench_records::values::put_each;
use bench_words::read::*;
use bench_words::*;
use programs::lent::front;
use programs::prints;
use std::io;
use std::rt::Files;

// The most output that a request is lent.
const ROOM: usize = 4096;

// Writes the answer to a line. A remark and an empty line are answered by themselves.
pub fn answer<R: Files + Print>(
    rt: &R,
    line: &[u8],
    long: bool,
    held: &mut Held,
    eeprom: &mut [u8],
    settings: &mut [u32],
    kept: &mut [u8],
) -> io::Result<()> {
    if !long && is_remark(line) {
        prints::print(rt, line)?;
        return prints::print(rt, b"\n");
    }
    held.count();
    let mut bytes = [0u8; 2048];
    match read(line, long, &mut bytes) {
        Err(answer) => print(rt, answer, 0, &[], &[]),
        Ok(request) if request.verb < DEVICE_VERBS => of_codec(rt, request, &bytes),
        Ok(request) => of_device(rt, request, &bytes, held, eeprom, settings, kept),
    }
}

fn is_remark(line: &[u8]) -> bool {
    matches!(line, [] | [b'#', ..])
}

fn of_codec(rt: &impl Print, request: Request, bytes: &[u8]) -> io::Result<()> {
    let mut lent = [0xeeu8; ROOM];
    let out = front(&mut lent, request.room);
    let answer = bench_codec::ask(request.verb, request.numbers, bytes, out);
    print_by(rt, answer, request, bytes, out)
}

// The bytes of a request that an answer shows are those of its first word.
fn print_by(
    rt: &impl Print,
    answer: Answer,
    request: Request,
    bytes: &[u8],
    lent: &[u8],
) -> io::Result<()> {
    let given = head(bytes, request.numbers[0]);
    print(rt, answer, request.answer, given, lent)
}

// A call of its own, so that its output lies on the stack while it is put and no longer.
#[inline(never)]
fn print(rt: &impl Print, answer: Answer, own: usize, given: &[u8], lent: &[u8]) -> io::Result<()> {
    let mut output = [0u8; 131072];
    let end = bench_answers::put(answer, own, given, lent, &mut output, 0);
    let end = put_each(answer.values, given, &mut output, end);
    let end = bench_answers::put_end(&mut output, end);
    prints::print(rt, &output[..end])
}

fn of_device<R: Files + Print>(
    rt: &R,
    request: Request,
    bytes: &[u8],
    held: &mut Held,
    eeprom: &mut [u8],
    settings: &mut [u32],
    kept: &mut [u8],
) -> io::Result<()> {
    let mut lent = [0xeeu8; ROOM];
    let out = front(&mut lent, request.room);
    let eeprom = front(eeprom, held.eeprom as usize);
    let settings = front(settings, held.settings as usize);
    let answer = ask(rt, request, bytes, out, held, eeprom, settings, kept);
    print_by(rt, answer, request, bytes, out)
}

fn ask(
    files: &impl Files,
    request: Request,
    bytes: &[u8],
    out: &mut [u8],
    held: &mut Held,
    eeprom: &mut [u8],
    settings: &mut [u32],
    kept: &mut [u8],
) -> Answer {
    let n = request.numbers;
    let [a, ..] = n;
    let given = head(bytes, a);
    match request.verb {
        1004 => held.send(given, eeprom, settings, out),
        1018 => held.keep_save(a, eeprom, settings, kept),
        1031 => held.keep_hex(a, eeprom, kept),
        1027 => write_save(files, given, head(kept, held.kept)),
        1028 => read_save(files, given, held, kept),
        1001 | 1005 | 1006 | 1025 | 1026 => held.ask(request.verb, n),
        verb => {
            let saved = head(kept, held.kept);
            bench_device::ask(
                verb,
                n,
                bytes,
                saved,
                out,
                &mut held.device,
                eeprom,
                settings,
            )
        }
    }
}
