// Requests over the crate commands: commands and dialects.
use crate::on_facts::each;
use crate::on_fields::of_addr;
use bench_records::records::*;
use bench_records::values::*;
use bench_words::*;
use commands::dialect::AddrEncoding::*;
use commands::dialect::Dialect;
use commands::dialect::FloatEncoding::*;
use commands::{Commands, write_ints};
use numbers::float::from_bits;

pub fn ask(verb: usize, n: Numbers, bytes: &[u8], out: &mut [u8]) -> Answer {
    let [a, b, c, d, ..] = n;
    let payload = head(bytes, a);
    let one = command_of(first_record(n));
    let values = five_of(n);
    match verb {
        14 => parsed(payload),
        15 => command(Commands::mute(addr_of(a, b, c), d == 1), values),
        16 => each(&write_ints()),
        17 => written(one.to_bytes(values, payload, out)),
        _ => written(one.to_frame(values, payload, out)),
    }
}

fn parsed(packet: &[u8]) -> Answer {
    let decoded = Commands::from_bytes(packet);
    match decoded.answer {
        Ok(read) => command(read, decoded.values),
        Err(k) => refused(k),
    }
}

pub fn of_dialect(n: Numbers) -> Answer {
    let [len, encoding, asked, given, ..] = n;
    let dialect = dialect_of(len, encoding);
    let on = given == 1;
    match asked {
        1 => of_addr(dialect.addr(half(given))),
        2 => value(dialect.float(from_bits(given))),
        3 => value(dialect.int(half(given))),
        4 => value(dialect.delay(given)),
        5 => value(dialect.mute(on)),
        _ => value(dialect.invert(on)),
    }
}

fn dialect_of(len: u32, encoding: u32) -> Dialect {
    Dialect {
        addr_encoding: if len == 1 { AddrLen2 } else { AddrLen3 },
        float_encoding: if encoding == 1 { Float32LE } else { FixedPoint },
    }
}

pub fn default_dialect() -> Answer {
    let dialect = Dialect::const_default();
    let len = if matches!(dialect.addr_encoding, AddrLen2) {
        1
    } else {
        2
    };
    let encoding = if matches!(dialect.float_encoding, Float32LE) {
        1
    } else {
        2
    };
    of(len, encoding, 0, 0)
}
