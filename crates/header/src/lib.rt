#![tactic(auto)]

// The header of a message: read, and written.
ghost use Rattle.std.specs.Prelude.{◌≡◌, ◌++◌, ◌≤◌, ◌<◌, length};
ghost use Rattle.octets.specs.Numbers.{oct8, oct24};
ghost use Rattle.octets.specs.Writing.{over};
ghost use Rattle.header.specs.Bits.{result_of, code_of, result_and_code, i_bit_of, submessage_of, i_bit_and_submessage};
ghost use Rattle.header.specs.Header.{size_ok, usable, header_in, head_in, header_of};

// What a header says beside what every usable one says alike. Numbers, and no enums: any type, Result and code is read
// (header_in).
#[repr(C)]
#[derive(Clone, Copy)]
pub struct Header {
    pub kind: u8,
    pub result: u8,
    pub code: u16,
    pub partition: u8,
    pub transaction: u32,
}

#[tactic(auto, unfolding(crate::specs::Header::size_ok, octets::specs::Tests::every))]
pub fn size_ok(s: &[u8]) -> bool
    ensures { result ≡ size_ok s.now }
{
    matches!(s.len(), 16..=4096)
}

// None where the header is unusable.
#[tactic(auto, unfolding(crate::specs::Header::head_in, crate::specs::Header::usable, octets::specs::Tests::every))]
pub fn read_header(s: &[u8]) -> Option<Header>
    ensures { result ≡ head_in s.now }
{
    if s.len() < 16 || !usable_fields(s) {
        return None;
    }
    Some(header_fields(s))
}

#[tactic(auto, unfolding(crate::specs::Header::usable, octets::specs::Tests::every))]
fn usable_fields(s: &[u8]) -> bool
    requires { 16 ≤ length s.now }
    ensures { result ≡ usable s.now }
{
    let n = s.len() - 4;
    let sub = octets::read16(s, 12);
    octets::read16(s, 0) == 0x880C
        && octets::read16(s, 2) as usize == n
        && octets::read8(s, 4) == 0x32
        && i_bit_of(sub) == 1
        && submessage_of(sub) == 1
        && octets::read16(s, 14) as usize == n
}

// What the header of a message says, usable or not.
#[tactic(auto, unfolding(crate::specs::Header::header_in))]
pub fn header_fields(s: &[u8]) -> Header
    requires { 16 ≤ length s.now }
    ensures { result ≡ header_in s.now }
{
    let field = octets::read16(s, 6);
    Header {
        kind: octets::read8(s, 5),
        result: result_of(field),
        code: code_of(field),
        partition: octets::read8(s, 8),
        transaction: octets::read24(s, 9),
    }
}

#[tactic(auto, unfolding(crate::specs::Header::header_of, octets::specs::Writing::over, octets::specs::Numbers::oct8, octets::specs::Numbers::oct16, octets::specs::Numbers::oct24))]
pub fn put_header(buf: &mut [u8], h: Header, n: usize)
    requires { (16 ≤ length buf.old) × (n < 65524) }
    ensures { buf.new ≡ over (header_of h n) buf.old }
{
    let size = (12 + n) as u16;
    octets::put_pair(buf, 0x880C, size);
    octets::put_triple(
        &mut buf[4..],
        0x32,
        h.kind,
        result_and_code(h.result, h.code),
    );
    put_transaction(&mut buf[8..], h.partition, h.transaction);
    octets::put_pair(&mut buf[12..], i_bit_and_submessage(1), size);
}

// The third of the header's four words.
#[tactic(auto, unfolding(octets::specs::Writing::over, octets::specs::Numbers::oct8))]
fn put_transaction(buf: &mut [u8], partition: u8, transaction: u32)
    requires { 4 ≤ length buf.old }
    ensures { buf.new ≡ over (oct8 partition ++ oct24 transaction) buf.old }
{
    octets::put8(buf, partition);
    octets::put24(&mut buf[1..], transaction);
}

// Four bits of Result and twelve of Result Code, split and joined.
pub fn result_of(x: u16) -> u8
    ensures { result ≡ result_of x }
{
    (x >> 12) as u8
}

pub fn code_of(x: u16) -> u16
    ensures { result ≡ code_of x }
{
    x & 0xFFF
}

#[tactic(auto, using(crate::proofs::Bits::join))]
pub fn result_and_code(res: u8, code: u16) -> u16
    ensures { result ≡ result_and_code res code }
{
    ((res as u16 & 0xF) << 12) | (code & 0xFFF)
}

// The I bit and fifteen bits of submessage number, split, and joined with I = 1.
pub fn i_bit_of(x: u16) -> u8
    ensures { result ≡ i_bit_of x }
{
    (x >> 15) as u8
}

pub fn submessage_of(x: u16) -> u16
    ensures { result ≡ submessage_of x }
{
    x & 0x7FFF
}

#[tactic(auto, using(crate::proofs::Bits::join))]
pub fn i_bit_and_submessage(number: u16) -> u16
    ensures { result ≡ i_bit_and_submessage number }
{
    (1 << 15) | (number & 0x7FFF)
}
