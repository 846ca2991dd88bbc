// Requests over the crate fields: addresses and values.
use bench_records::values::*;
use bench_words::*;
use fields::addr::*;
use fields::value::*;

pub fn ask(verb: usize, n: Numbers, bytes: &[u8], out: &mut [u8]) -> Answer {
    let [a, b, c, d, e, ..] = n;
    match verb {
        10 => match Addr::read(head(bytes, b), byte(a)) {
            Ok(addr) => of_addr(addr),
            Err(k) => refused(k),
        },
        11 => read_value(Value::from_bytes(head(bytes, a), place(b, c))),
        12 => written(addr_of(b, c, d).write(out)),
        _ => written(value_of(c, d, e).into_bytes(head(bytes, a), out)),
    }
}

pub fn of_addr(addr: Addr) -> Answer {
    of(addr.len as u32, addr.extra_bit as u32, addr.val, 0)
}

pub fn read_value(read: Result<Value, impl Into<u8>>) -> Answer {
    match read {
        Ok(one) => value(one),
        Err(k) => refused(k),
    }
}
