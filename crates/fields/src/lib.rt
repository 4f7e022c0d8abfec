#![tactic(auto)]

// The fields of the TLVs, read from a TLV's content.
ghost use Rattle.std.specs.Prelude.{◌≡◌, take, drop};
ghost use Rattle.octets.specs.Numbers.{be16, be32};
ghost use Rattle.fields.specs.Fields.{circuit_ids, circuit_id, status_in, status_text, status_tlvs, command_in, command_tlvs, allocation_in, request_in, sequence_in, length_ok};
ghost use Rattle.fields.specs.Flow.{width_of, length_agrees, flow_in, group_in, sources_in};

// The types of the TLVs.
pub const CIRCUIT_ID: u16 = 0x0001;

pub const COMMAND: u16 = 0x0011;

pub const ALLOCATION: u16 = 0x0015;

pub const REQUEST: u16 = 0x0016;

pub const FLOW: u16 = 0x0019;

pub const SEQUENCE: u16 = 0x0022;

pub const STATUS: u16 = 0x0106;

pub const TARGET: u16 = 0x1000;

// Target: how many circuit ids it holds, and the first; empty where there is none.
pub fn circuit_ids(c: &[u8]) -> usize
    ensures { result ≡ circuit_ids c.now }
{
    items::count_of(c, CIRCUIT_ID)
}

pub fn circuit_id(c: &[u8]) -> &[u8]
    ensures { result.now ≡ circuit_id c.now }
{
    items::first_of(c, CIRCUIT_ID)
}

// Status-Info: the type of the message that it speaks of, and the length of its error text.
#[repr(C)]
#[derive(Clone, Copy)]
pub struct Status {
    pub kind: u8,
    pub text: u16,
}

#[tactic(auto, unfolding(crate::specs::Fields::status_in))]
pub fn status_in(c: &[u8]) -> Status
    ensures { result ≡ status_in c.now }
{
    Status {
        kind: octets::read8(c, 1),
        text: octets::number16(c, 2),
    }
}

pub fn status_text(c: &[u8]) -> &[u8]
    ensures { result.now ≡ status_text c.now }
{
    let n = octets::number16(c, 2) as usize;
    part(c, 4, n)
}

pub fn status_tlvs(c: &[u8]) -> &[u8]
    ensures { result.now ≡ status_tlvs c.now }
{
    rest(c, 4 + octets::pad(octets::number16(c, 2)))
}

#[repr(C)]
#[derive(Clone, Copy)]
pub struct Command {
    pub code: u8,
    pub accounting: u8,
}

#[tactic(auto, unfolding(crate::specs::Fields::command_in))]
pub fn command_in(c: &[u8]) -> Command
    ensures { result ≡ command_in c.now }
{
    Command {
        code: octets::read8(c, 0),
        accounting: octets::read8(c, 1),
    }
}

pub fn command_tlvs(c: &[u8]) -> &[u8]
    ensures { result.now ≡ command_tlvs c.now }
{
    rest(c, 4)
}

pub fn allocation_in(c: &[u8]) -> u32
    ensures { result ≡ allocation_in c.now }
{
    octets::number32(c, 0)
}

#[repr(C)]
#[derive(Clone, Copy)]
pub struct Request {
    pub required: u32,
    pub preferred: u32,
}

#[tactic(auto, unfolding(crate::specs::Fields::request_in))]
pub fn request_in(c: &[u8]) -> Request
    ensures { result ≡ request_in c.now }
{
    Request {
        required: octets::number32(c, 0),
        preferred: octets::number32(c, 4),
    }
}

pub fn sequence_in(c: &[u8]) -> u32
    ensures { result ≡ sequence_in c.now }
{
    octets::number32(c, 0)
}

#[tactic(auto, unfolding(crate::specs::Fields::length_ok))]
pub fn length_ok(kind: u16, c: &[u8]) -> bool
    ensures { result ≡ length_ok kind c.now }
{
    match kind {
        ALLOCATION | SEQUENCE => c.len() == 4,
        REQUEST => c.len() == 8,
        _ => true,
    }
}

// Multicast-Flow: flow type, family, source count, and whether the length agrees with them.
#[repr(C)]
#[derive(Clone, Copy)]
pub struct FlowFields {
    pub kind: u8,
    pub family: u8,
    pub count: u16,
    pub agrees: bool,
}

#[tactic(auto, unfolding(crate::specs::Flow::flow_in))]
pub fn flow_in(c: &[u8]) -> FlowFields
    ensures { result ≡ flow_in c.now }
{
    let family = octets::read8(c, 1);
    let count = octets::number16(c, 2);
    FlowFields {
        kind: octets::read8(c, 0),
        family,
        count,
        agrees: length_agrees(family, count, c.len()),
    }
}

pub fn group_in(c: &[u8]) -> &[u8]
    ensures { result.now ≡ group_in c.now }
{
    part(c, 4, width_of(octets::read8(c, 1)))
}

pub fn sources_in(c: &[u8]) -> &[u8]
    ensures { result.now ≡ sources_in c.now }
{
    rest(c, 4 + width_of(octets::read8(c, 1)))
}

// How many octets an address of a family takes.
#[tactic(auto, unfolding(crate::specs::Flow::width_of))]
pub fn width_of(family: u8) -> usize
    ensures { result ≡ width_of family }
{
    match family {
        1 => 4,
        2 => 16,
        _ => 0,
    }
}

#[tactic(auto, unfolding(crate::specs::Flow::length_agrees))]
fn length_agrees(family: u8, count: u16, n: usize) -> bool
    ensures { result ≡ length_agrees family count n }
{
    let w = width_of(family);
    w != 0 && n == 4 + w * (count as usize + 1)
}

// What stands from octet k on; and n octets of it, or as many as there are.
fn rest(c: &[u8], k: usize) -> &[u8]
    ensures { result.now ≡ drop k c.now }
{
    c.get(k..).unwrap_or(&[])
}

fn part(c: &[u8], k: usize, n: usize) -> &[u8]
    ensures { result.now ≡ take n (drop k c.now) }
{
    let t = rest(c, k);
    t.get(..n).unwrap_or(t)
}
