// Requests over the crate views. A view's words are its bytes, its base, and its place in them.
use crate::on_packet::at;
use bench_records::records::*;
use bench_words::read::SECOND_BYTES;
use bench_words::*;
use views::floats::*;
use views::memory::*;

pub fn ask(verb: usize, n: Numbers, bytes: &[u8], out: &mut [u8]) -> Answer {
    let [len, base, start, count, addr, size, ..] = n;
    let held = head(bytes, len);
    let view = memory_of(base, start, count);
    match verb {
        27 => view
            .read_at(held, half(addr), byte(size))
            .map_or_else(none, at),
        28 => view
            .read_u8(held, half(addr))
            .map_or_else(none, |n| number(u32::from(n))),
        29 => view
            .read_u16(held, half(addr))
            .map_or_else(none, |n| number(u32::from(n))),
        30 => match floats_of(base, start, count).get(held, half(addr)) {
            Ok(bits) => number(bits),
            Err(k) => refused(k),
        },
        _ => join(verb, n, bytes, out),
    }
}

// The second view's words stand behind the first's, and its bytes in their own part.
fn join(verb: usize, n: Numbers, bytes: &[u8], out: &mut [u8]) -> Answer {
    let [a, b, c, d, e, f, g, h, ..] = n;
    let first = head(bytes, a);
    let second = octets::part(bytes, place(SECOND_BYTES, e));
    with_output(match verb {
        31 => memory(memory_of(b, c, d).extend_with(first, memory_of(f, g, h), second, out)),
        _ => floats(floats_of(b, c, d).extend_with(first, floats_of(f, g, h), second, out)),
    })
}

pub fn memory(joined: Result<MemoryView, impl Into<u8>>) -> Answer {
    match joined {
        Ok(MemoryView { base, data }) => { of(u32::from(base), low(data.start), low(data.len), 0) }
        Err(k) => refused(k),
    }
}

pub fn floats(joined: Result<FloatView, impl Into<u8>>) -> Answer {
    match joined {
        Ok(view) => of(view.base as u32, low(view.start), low(view.count), 0),
        Err(k) => refused(k),
    }
}
