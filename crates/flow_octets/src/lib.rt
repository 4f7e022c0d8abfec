#![tactic(auto)]

// A flow as a Multicast-Flow TLV (CARD.md, "Octets"): read from its content, and written.
ghost use Rattle.std.specs.Prelude.{◌≡◌, true, ◌+◌, ◌*◌, ◌≤◌, ◌<◌, length, take};
ghost use Rattle.octets.specs.Writing.{Wrote};
ghost use Rattle.flows.specs.Words.{octets_of};
ghost use Rattle.flows.specs.Flows.{good_flow};
ghost use Rattle.flow_octets.specs.FlowOctets.{type_ok, flow_formed, word_in, address_in, flow_named, source_count, source_words, flow_tlv, FlowBack};

use flows::{Flow, known_family, width};
use octets::{put8, put16, put32, read8, read16, read32};

// ---- reading

// Type, family, count and length go together.
pub fn flow_formed(c: &[u8]) -> bool
    ensures { result ≡ flow_formed c.now }
{
    let f = fields::flow_in(c);
    type_ok(f.kind, f.count) && f.agrees
}

fn type_ok(kind: u8, count: u16) -> bool
    ensures { result ≡ type_ok kind count }
{
    match kind {
        1 => count == 0,
        2 => count == 1,
        _ => false,
    }
}

pub fn flow_named(c: &[u8]) -> Flow
    requires { flow_formed c.now ≡ true }
    ensures { result ≡ flow_named c.now }
{
    let family = read8(c, 1) as u32;
    let count = read16(c, 2);
    let w = width(family);
    let group = address_in(c, 4, w);
    let source = address_in(c, 4 + 4 * w, w * (count as usize));
    Flow {
        family,
        sourced: count as u32,
        group,
        source,
    }
}

fn address_in(c: &[u8], at: usize, words: usize) -> [u32; 4]
    requires { (words ≤ 4) × (at + 4 * words ≤ length c.now) }
    ensures { result ≡ address_in c.now at words }
{
    [
        word_in(c, at, words, 0),
        word_in(c, at, words, 1),
        word_in(c, at, words, 2),
        word_in(c, at, words, 3),
    ]
}

fn word_in(c: &[u8], at: usize, words: usize, i: usize) -> u32
    requires { (words ≤ 4) × (at + 4 * words ≤ length c.now) }
    ensures { result ≡ word_in c.now at words i }
{
    if i < words { read32(c, at + 4 * i) } else { 0 }
}

// ---- writing

// Writes the TLV of a flow over the start of the buffer, and tells how many octets that is.
pub fn put_flow(buf: &mut [u8], f: Flow) -> usize
    requires { 40 ≤ length buf.old }
    ensures written { Wrote (flow_tlv f) result buf.old buf.new }
    ensures back { good_flow f ≡ true → FlowBack f }
{
    let count = source_count(f.sourced);
    let mut g = [0u8; 16];
    let mut s = [0u8; 16];
    let a = put_words(&mut g, f.group, width(f.family));
    let b = put_words(&mut s, f.source, source_words(f.family, f.sourced));
    writers::put_flow(
        buf,
        (count + 1) as u8,
        (f.family % 256) as u8,
        count,
        &g[0..a],
        &s[0..b],
    )
}

fn source_count(sourced: u32) -> u16
    ensures value { result ≡ source_count sourced }
    ensures upper_bound { result ≤ 1 }
{
    if sourced == 0 { 0 } else { 1 }
}

fn source_words(family: u32, sourced: u32) -> usize
    ensures value { result ≡ source_words family sourced }
    ensures upper_bound { result ≤ 4 }
{
    if sourced == 0 { 0 } else { width(family) }
}

// The first words of an address, each after the one before it.
fn put_words(buf: &mut [u8], a: [u32; 4], words: usize) -> usize
    requires { (words ≤ 4) × (16 ≤ length buf.old) }
    ensures value { result ≡ 4 * words }
    ensures wrote { Wrote (octets_of (take words a)) result buf.old buf.new }
{
    for i in 0..words {
        put32(&mut buf[4 * i..], a[i]);
    }
    4 * words
}
