// Big-endian numbers read from a lent slice, their bytes, and bytes copied into one. Reading past the end gives 0, and what does not fit is not written.
#![tactic(auto)]

ghost use Rattle.std.specs.Prelude.{◌≡◌, ℕ, get_or};
ghost use Rattle.wire.specs.Bytes.{num, bytes, part, name_of, onto, over, fill_count, fill_of};

// The byte at a place, 0 past the end.
pub fn byte_at(s: &[u8], i: usize) -> u8
    ensures { result ≡ get_or s.now i 0 }
{
    s.get(i).copied().unwrap_or(0)
}

// The N bytes at a place, 0 past the end; where all of them are there, the end is looked for once.
#[tactic(auto, using(crate::proofs::Parts::rest_of, crate::proofs::Parts::part_whole, crate::proofs::Parts::part_onto))]
pub fn part<const N: usize>(s: &[u8], at: u16) -> [u8; N]
    ensures { result ≡ part N s.now at }
{
    let rest = s.get(at as usize..).unwrap_or(&[]);
    if let Some(all) = rest.first_chunk() {
        return *all;
    }
    let mut short = [0; N];
    put_front(&mut short, rest);
    short
}

// A number of N bytes, the most significant first: read at a place, and written. A place of 16 bits leaves no sum that wraps.
// kept: a slice and a place, since a reader of fields looks at places that document 01 names
pub trait BigEndian<const N: usize> {
    ghost number: { Self → ℕ };

    fn read(s: &[u8], at: u16) -> Self
        ensures { number result ≡ num N s.now at };

    fn bytes(self) -> [u8; N]
        ensures { result ≡ bytes N (number self) };
}

impl BigEndian<2> for u16 {
    ghost number = { λ n. n };

    fn read(s: &[u8], at: u16) -> u16 {
        u16::from_be_bytes(part(s, at))
    }

    fn bytes(self) -> [u8; 2] {
        u16::to_be_bytes(self)
    }
}

impl BigEndian<4> for u32 {
    ghost number = { λ n. n };

    fn read(s: &[u8], at: u16) -> u32 {
        u32::from_be_bytes(part(s, at))
    }

    fn bytes(self) -> [u8; 4] {
        u32::to_be_bytes(self)
    }
}

impl BigEndian<8> for u64 {
    ghost number = { λ n. n };

    fn read(s: &[u8], at: u16) -> u64 {
        u64::from_be_bytes(part(s, at))
    }

    fn bytes(self) -> [u8; 8] {
        u64::to_be_bytes(self)
    }
}

// A number of 24 bits at a place.
// kept: no type has 24 bits, so BigEndian has no impl of them; a type of them would wrap every such field, which is a u32, for be24 and bytes3 alone.
pub fn be24(s: &[u8], at: u16) -> u32
    ensures { result ≡ num 3 s.now at }
{
    let [a, b, c] = part::<3>(s, at);
    u32::from_be_bytes([0, a, b, c])
}

// The low three bytes of a number, the most significant first.
pub fn bytes3(n: u32) -> [u8; 3]
    ensures { result ≡ bytes 3 n }
{
    let [_, a, b, c] = n.to_be_bytes();
    [a, b, c]
}

// A name as a number: two names are the same exactly when their numbers are.
#[tactic(auto, unfolding(crate::specs::Bytes::name_of))]
pub fn name_number(name: [u8; 8]) -> u64
    ensures { result ≡ name_of name }
{
    u64::from_be_bytes(name)
}

// Copies src over the front of out, as much of it as fits. The one copy loop.
// kept: byte by byte and not by std's copy_from_slice, which becomes a call of memmove, and the C library may need memcpy and memset alone (include/jhartupal.h)
pub fn put_front(out: &mut [u8], src: &[u8])
    ensures { out.new ≡ onto src.now out.old }
{
    let n = src.len().min(out.len());
    for i in 0..n {
        out[i] = src[i];
    }
}

// Copies src over out from a place on, as much of it as fits.
#[tactic(auto, using(crate::proofs::Parts::over_part, crate::proofs::Fronts::over_past))]
pub fn put_at(out: &mut [u8], at: usize, src: &[u8])
    ensures { out.new ≡ over out.old at src.now }
{
    if at <= out.len() {
        put_front(&mut out[at..], src);
    }
}

// The zeros that fill a payload of this size to a multiple of 4, over the front of out; answers how many there are.
// kept: answers how many it put, as the writers of reply do
pub fn put_fill(out: &mut [u8], size: usize) -> usize
    ensures value { result ≡ fill_count size }
    ensures out_after { out.new ≡ onto (fill_of size) out.old }
{
    let zeros = [0u8; 3];
    let n = (4 - size % 4) % 4;
    put_front(out, &zeros[..n]);
    n
}
