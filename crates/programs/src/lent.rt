use std::cmp::min;

// The first of what is lent to be written, or all of it.
pub fn front<T>(lent: &mut [T], n: usize) -> &mut [T] {
    let end = min(n, lent.len());
    &mut lent[..end]
}
