#![tactic(auto)]

// Big-endian numbers, read from a slice and written over the start of one, and padding.
ghost use Rattle.std.specs.Prelude.{◌≡◌, ◌++◌, ◌+◌, ◌*◌, ◌≤◌, ◌<◌, length, replicate};
ghost use Rattle.octets.specs.Numbers.{be8, be16, be24, be32, oct8, oct16, oct24, oct32, padded};
ghost use Rattle.octets.specs.Writing.{over};

// The readers that may be asked past the end, where an octet counts as 0: one of 8 bits, and at a place near the start
// of 16 and 32.
pub fn read8(s: &[u8], at: usize) -> u8
    ensures { result ≡ be8 s.now at }
{
    s.get(at).copied().unwrap_or(0)
}

pub fn number16(s: &[u8], at: u8) -> u16
    ensures { result ≡ be16 s.now at }
{
    let i = at as usize;
    u16::from_be_bytes([read8(s, i), read8(s, i + 1)])
}

pub fn number32(s: &[u8], at: u8) -> u32
    ensures { result ≡ be32 s.now at }
{
    let i = at as usize;
    u32::from_be_bytes([
        read8(s, i),
        read8(s, i + 1),
        read8(s, i + 2),
        read8(s, i + 3),
    ])
}

// Those that may not. One for each width, and none for all: a trait over u16 and u32 with a cut for 24 bits is longer
// than these lines.
pub fn read16(s: &[u8], at: usize) -> u16
    requires { at + 2 ≤ length s.now }
    ensures { result ≡ be16 s.now at }
{
    u16::from_be_bytes([s[at], s[at + 1]])
}

pub fn read24(s: &[u8], at: usize) -> u32
    requires { at + 3 ≤ length s.now }
    ensures { result ≡ be24 s.now at }
{
    u32::from_be_bytes([0, s[at], s[at + 1], s[at + 2]])
}

pub fn read32(s: &[u8], at: usize) -> u32
    requires { at + 4 ≤ length s.now }
    ensures { result ≡ be32 s.now at }
{
    u32::from_be_bytes([s[at], s[at + 1], s[at + 2], s[at + 3]])
}

// How many octets a content of n octets takes with its padding.
pub fn pad(n: u16) -> usize
    ensures { result ≡ padded n }
{
    // A sum, and no next_multiple_of: its test cost each step of a walk over TLVs a seventh.
    (usize::from(n) + 3) / 4 * 4
}

#[tactic(auto, unfolding(crate::specs::Writing::over, crate::specs::Numbers::oct8))]
pub fn put8(buf: &mut [u8], x: u8)
    requires { 1 ≤ length buf.old }
    ensures { buf.new ≡ over (oct8 x) buf.old }
{
    buf[0] = x;
}

#[tactic(auto, using(crate::proofs::Numbers::bytes16), unfolding(crate::specs::Writing::over))]
pub fn put16(buf: &mut [u8], x: u16)
    requires { 2 ≤ length buf.old }
    ensures { buf.new ≡ over (oct16 x) buf.old }
{
    buf[..2].copy_from_slice(&x.to_be_bytes());
}

#[tactic(auto, using(crate::proofs::Numbers::bytes24), unfolding(crate::specs::Writing::over))]
pub fn put24(buf: &mut [u8], x: u32)
    requires { 3 ≤ length buf.old }
    ensures { buf.new ≡ over (oct24 x) buf.old }
{
    buf[..3].copy_from_slice(&x.to_be_bytes()[1..]);
}

#[tactic(auto, using(crate::proofs::Numbers::bytes32), unfolding(crate::specs::Writing::over))]
pub fn put32(buf: &mut [u8], x: u32)
    requires { 4 ≤ length buf.old }
    ensures { buf.new ≡ over (oct32 x) buf.old }
{
    buf[..4].copy_from_slice(&x.to_be_bytes());
}

// Two numbers of 16 bits, the second directly after the first.
#[tactic(auto, unfolding(crate::specs::Writing::over, crate::specs::Numbers::oct16))]
pub fn put_pair(buf: &mut [u8], a: u16, b: u16)
    requires { 4 ≤ length buf.old }
    ensures { buf.new ≡ over (oct16 a ++ oct16 b) buf.old }
{
    put16(buf, a);
    put16(&mut buf[2..], b);
}

// Two numbers of 8 bits and one of 16, each directly behind the one before it.
#[tactic(auto, unfolding(crate::specs::Writing::over, crate::specs::Numbers::oct8, crate::specs::Numbers::oct16))]
pub fn put_triple(buf: &mut [u8], x: u8, y: u8, z: u16)
    requires { 4 ≤ length buf.old }
    ensures { buf.new ≡ over (oct8 x ++ oct8 y ++ oct16 z) buf.old }
{
    put8(buf, x);
    put8(&mut buf[1..], y);
    put16(&mut buf[2..], z);
}

pub fn put_copy(buf: &mut [u8], src: &[u8])
    requires { length src.now ≤ length buf.old }
    ensures { buf.new ≡ over src.now buf.old }
{
    // By index, and no copy_from_slice: that asks C's library for memmove, and this no more than memcpy.
    for i in 0..src.len() {
        buf[i] = src[i];
    }
}

#[tactic(auto, unfolding(crate::specs::Writing::over))]
pub fn put_zeros(buf: &mut [u8], n: usize)
    requires { n ≤ length buf.old }
    ensures { buf.new ≡ over (replicate n 0) buf.old }
{
    buf[..n].fill(0);
}
