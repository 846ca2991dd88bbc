// Numbers in bytes, in both byte orders. A byte that is not there reads as 0, so that reading is
// total; whoever cares tests the length first.
ghost use Rattle.std.specs.Prelude.{◌≡◌};
ghost use Rattle.octets.specs.Number.{at, big_at, little_at, big_bytes, little_bytes};

// The byte at a place.
pub fn byte(bytes: &[u8], place: usize) -> u8
    ensures { result ≡ at bytes.now place }
{
    bytes.get(place).copied().unwrap_or(0)
}

// A reader for each width and order: one over a const width would have to ask that its number fits the answer's type, and no
// public function requires; a trait for u16 and u32 would say each body again.
// Two bytes, the most significant first.
pub fn big16(bytes: &[u8], place: usize) -> u16
    ensures { result ≡ big_at 2 bytes.now place }
{
    if bytes.len() <= place {
        return 0;
    }
    byte(bytes, place) as u16 * 256 + byte(bytes, place + 1) as u16
}

// Three bytes, the most significant first.
pub fn big24(bytes: &[u8], place: usize) -> u32
    ensures { result ≡ big_at 3 bytes.now place }
{
    if bytes.len() <= place {
        return 0;
    }
    big16(bytes, place) as u32 * 256 + byte(bytes, place + 2) as u32
}

// Four bytes, the most significant first.
pub fn big32(bytes: &[u8], place: usize) -> u32
    ensures { result ≡ big_at 4 bytes.now place }
{
    if bytes.len() <= place {
        return 0;
    }
    big16(bytes, place) as u32 * 65536 + big16(bytes, place + 2) as u32
}

// Two bytes, the least significant first.
pub fn little16(bytes: &[u8], place: usize) -> u16
    ensures { result ≡ little_at 2 bytes.now place }
{
    if bytes.len() <= place {
        return 0;
    }
    byte(bytes, place) as u16 + byte(bytes, place + 1) as u16 * 256
}

// Four bytes, the least significant first.
pub fn little32(bytes: &[u8], place: usize) -> u32
    ensures { result ≡ little_at 4 bytes.now place }
{
    if bytes.len() <= place {
        return 0;
    }
    little16(bytes, place) as u32 + little16(bytes, place + 2) as u32 * 65536
}

// The low N bytes of a number, the most significant first.
pub fn big_bytes<const N: usize>(n: u32) -> [u8; N]
    ensures { result ≡ big_bytes N n }
{
    let mut bytes = [0; N];
    let mut rest = n;
    for i in 0..N {
        bytes[N - 1 - i] = (rest % 256) as u8;
        rest /= 256;
    }
    bytes
}

// The same, the least significant first.
pub fn little_bytes<const N: usize>(n: u32) -> [u8; N]
    ensures { result ≡ little_bytes N n }
{
    let mut bytes = [0; N];
    let mut rest = n;
    for byte in bytes.iter_mut() {
        *byte = (rest % 256) as u8;
        rest /= 256;
    }
    bytes
}
