// The bench's requests that need no processor, by the numbers of their verbs: each calls its crate.
#![tactic(auto)]

mod on_commands;
mod on_facts;
mod on_fields;
mod on_packet;
mod on_responses;
mod on_views;

use bench_words::*;
use images::import::import;

// Answers a request by its numbers. Its bytes lie in `bytes`; what it writes goes to `out`.
pub fn ask(verb: usize, n: Numbers, bytes: &[u8], out: &mut [u8]) -> Answer {
    match verb {
        1..=9 => on_packet::ask(verb, n, bytes, out),
        10..=13 => on_fields::ask(verb, n, bytes, out),
        14..=18 => on_commands::ask(verb, n, bytes, out),
        19..=26 => on_facts::ask(verb, n),
        27..=32 => on_views::ask(verb, n, bytes, out),
        44 => on_packet::ask(verb, n, bytes, out),
        45 => with_output(done(import(head(bytes, n[0]), out))),
        _ => on_responses::ask(verb, n, bytes, out),
    }
}
