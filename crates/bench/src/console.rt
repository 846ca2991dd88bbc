// Lines in, answers out, each at once.
ghost use Rattle.std.specs.Prelude.{◌≡◌, ◌+◌, ◌<◌, ◌≤◌, length, IfOk};

use crate::held::Held;
use crate::request::answer;
use std::io;
use std::io::Read;
use std::rt::Files;

// Tried without it and slower: where `main` lends an array of a million elements as a slice, its check takes over a minute.
pub fn run<R: Files + Print>(
    rt: &R,
    stdin: &mut impl Read,
    input: &mut [u8; 65536],
    eeprom: &mut [u8; 65537],
    settings: &mut [u32; 65537],
    kept: &mut [u8; 1048576],
) -> io::Result<()> {
    serve(rt, stdin, input, eeprom, settings, kept)
}

// Answers each line of the input. The last one may lack its line end; of one that is too long the
// start is dropped.
fn serve<R: Files + Print>(
    rt: &R,
    stdin: &mut impl Read,
    input: &mut [u8],
    eeprom: &mut [u8],
    settings: &mut [u32],
    kept: &mut [u8],
) -> io::Result<()> {
    let mut held = Held::first();
    let mut lines = Lines {
        used: 0,
        have: 0,
        long: false,
        ended: false,
    };
    // far more turns than any input takes, so that the loop has an end
    for _ in 0..u64::MAX {
        let rest = &input[lines.used..lines.have];
        if let Some(len) = rest.iter().position(|byte| *byte == b'\n') {
            let line = &rest[..len];
            answer(rt, line, lines.long, &mut held, eeprom, settings, kept)?;
            lines = behind_line(lines, len);
        } else if !lines.ended {
            lines = read_more(stdin, input, lines)?;
        } else {
            if lines.long || !rest.is_empty() {
                answer(rt, rest, lines.long, &mut held, eeprom, settings, kept)?;
            }
            return Ok(());
        }
    }
    Ok(())
}

// How much of the input is used and how much there is, whether the start of its line is dropped, and
// whether it has ended.
#[derive(Clone, Copy)]
struct Lines {
    used: usize,
    have: usize,
    long: bool,
    ended: bool,
}

// Reads behind the line that is not ended yet, which goes to the front; where it fills the input, now or
// before, it is too long, and nothing of it is kept.
fn read_more(stdin: &mut impl Read, input: &mut [u8], lines: Lines) -> io::Result<Lines>
    requires { (lines.used ≤ lines.have) × (lines.have ≤ length input.old) }
    ensures { IfOk result (λ next. (next.used ≤ next.have) × (next.have ≤ length input.old)) }
{
    let Lines { used, have, .. } = lines;
    let long = used == 0 && (lines.long || have == input.len());
    let kept = if long { 0 } else { have - used };
    input.copy_within(have - kept..have, 0);
    let came = stdin.read(&mut input[kept..])?;
    Ok(Lines {
        used: 0,
        have: kept + came,
        long,
        ended: came == 0,
    })
}

// Behind a line of so many bytes and its line end.
fn behind_line(lines: Lines, len: usize) -> Lines
    requires { lines.used + len < lines.have }
    ensures { (result.used ≤ result.have) × (result.have ≡ lines.have) }
{
    Lines {
        used: lines.used + len + 1,
        long: false,
        ..lines
    }
}
