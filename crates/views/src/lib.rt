// Views: a base address, and the bytes or the floats that were read from there on. (commands.rs)
// A view's bytes are lent beside it; its place in them stands for the Rust's Bytes and Vec<f32>.
#![tactic(auto)]

ghost use Rattle.std.specs.Prelude.{◌≡◌, ◌++◌};
ghost use Rattle.octets.specs.Outcome.{outcome};
ghost use Rattle.views.specs.Reading.{view_part};
ghost use Rattle.views.specs.Joining.{adjoined};

use octets::{Place, Refusal};

pub mod floats;
pub mod memory;

// The most that the base and the length of a view come to, a first view's and a joined memory view's.
const VIEWS_END: usize = 65535;

// The part of a view that is len bytes or floats from addr on, as a place among its count of them.
#[tactic(auto, using(octets::proofs::Choosing::tests))]
fn view_part(base: u16, count: usize, addr: u16, len: u8) -> Option<Place>
    ensures { result ≡ view_part base count addr len }
{
    if addr < base {
        return None;
    }
    let start = (addr - base) as usize;
    let len = len as usize;
    if count < start + len {
        return None;
    }
    Some(Place { start, len })
}

// Joins a view of base and len with one whose base is next: the first view's bytes, and behind them
// the second's, over the start of out.
fn join(
    base: u16,
    len: usize,
    next: u16,
    first: &[u8],
    second: &[u8],
    out: &mut [u8],
) -> Result<usize, Refusal>
    ensures { (outcome result, out.new) ≡ adjoined base len next (first.now ++ second.now) out.old }
{
    let base = base as usize;
    if VIEWS_END - base < len {
        return Err(Refusal::PastEnd);
    }
    if next as usize != base + len {
        return Err(Refusal::Apart);
    }
    let n = first.len();
    if out.len() < n + second.len() {
        return Err(Refusal::NoRoom);
    }
    let _ = octets::put(first, out);
    let _ = octets::put(second, &mut out[n..]);
    Ok(n + second.len())
}
