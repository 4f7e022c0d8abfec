#![tactic(auto)]

// A message from the access server, check by check, and its answer.
ghost use Rattle.std.specs.Prelude.{◌≡◌, List, ℕ, ◌≤◌, ◌<◌, length};
ghost use Rattle.card.specs.Parts.{ComesTo};
ghost use Rattle.checks.specs.Table.{port_named, table_of};
ghost use Rattle.messages.specs.Messages.{is_answer, is_notice, by_type, requested, refused_number, offered, by_result, received_of, named_in};

use card::{Effect, Terms, unchanged};
use fields::{ALLOCATION, REQUEST};
use header::Header;
use pool::Pool;
use ports::Change;

// The port that a message's Target names, or 64; 65 where size or header is wrong, and then nothing after the header
// is looked at. A number, and no Option of an Option: calls passes it on as the place of the terms (HasTerms).
pub fn port_named(ids: &[u8; 4096], port_count: usize, octets: &[u8]) -> usize
    ensures { result ≡ named_in ids.now port_count octets.now }
{
    if !header::size_ok(octets) {
        return 65;
    }
    match header::read_header(octets) {
        None => 65,
        Some(_) => checks::port_named(ids, port_count, &octets[16..]),
    }
}

// On the parts of a card that it reads and writes, where p is what `port_named` gives.
pub fn message_in(
    pool: &mut Pool,
    ids: &[u8; 4096],
    channels: &[u32; 2816],
    terms: Terms,
    p: usize,
    octets: &[u8],
    reply: &mut [u8],
) -> Effect
    requires { (terms.at < 64) × (p ≡ named_in ids.now terms.head.port_count octets.now) }
    ensures { ComesTo (λ card. received_of ids.now channels.now card octets.now (length reply.old)) p terms pool.old pool.new result reply.old reply.new }
{
    if reply.len() < 4608 {
        return unchanged(terms, 13);
    }
    if 64 < p {
        return unchanged(terms, 15);
    }
    by_result(
        pool,
        ids,
        channels,
        terms,
        p,
        header::header_fields(octets),
        &octets[16..],
        reply,
    )
}

fn by_result(
    pool: &mut Pool,
    ids: &[u8; 4096],
    channels: &[u32; 2816],
    terms: Terms,
    p: usize,
    h: Header,
    tlvs: &[u8],
    reply: &mut [u8],
) -> Effect
    requires space { (4608 ≤ length reply.old) × (length tlvs.now ≤ 4096) }
    requires named { (terms.at < 64) × (p ≡ port_named ids.now terms.head.port_count tlvs.now) }
    ensures { ComesTo (λ card. by_result ids.now channels.now card h tlvs.now) p terms pool.old pool.new result reply.old reply.new }
{
    let answer = is_answer(h.result);
    if h.kind == 147 {
        if answer {
            return offered(terms, p, h, tlvs);
        }
        return unchanged(terms, 15);
    }
    if answer {
        return unchanged(terms, 15);
    }
    if is_notice(h) {
        return unchanged(terms, 0);
    }
    requested(pool, ids, channels, terms, p, h, tlvs, reply)
}

#[tactic(auto, unfolding(crate::specs::Messages::is_answer))]
fn is_answer(res: u8) -> bool
    ensures { result ≡ is_answer res }
{
    matches!(res, 3 | 4)
}

#[tactic(auto, unfolding(crate::specs::Messages::is_notice))]
fn is_notice(h: Header) -> bool
    ensures { result ≡ is_notice h }
{
    h.kind == 144 && h.result == 0
}

// An answer to a request of the card's own. Whatever the pool and the buffer hold.
fn offered(terms: Terms, p: usize, h: Header, tlvs: &[u8]) -> Effect
    ensures { (ids : List ℕ) (pool : Pool) (text : List ℕ) → p ≡ port_named ids terms.head.port_count tlvs.now → ComesTo (λ card. offered card h tlvs.now (table_of ids card h tlvs.now)) p terms pool pool result text text }
{
    let up = terms.port.up;
    match checks::check_table(p, up, h.kind, h.result, h.transaction, tlvs) {
        Err(code) => unchanged(terms, refused_number(code)),
        Ok(_) => {
            let amount = fields::allocation_in(items::first_of(tlvs, ALLOCATION));
            transfers::transfer(terms, h, amount)
        }
    }
}

// 15, and 16 for a port's faults. The number is the call's own, which the C interface gives back.
#[tactic(auto, unfolding(crate::specs::Messages::refused_number))]
fn refused_number(code: u16) -> u8
    ensures { result ≡ refused_number code }
{
    match code {
        0x500 | 0x6 => 16,
        _ => 15,
    }
}

fn requested(
    pool: &mut Pool,
    ids: &[u8; 4096],
    channels: &[u32; 2816],
    terms: Terms,
    p: usize,
    h: Header,
    tlvs: &[u8],
    reply: &mut [u8],
) -> Effect
    requires space { (4608 ≤ length reply.old) × (length tlvs.now ≤ 4096) }
    requires named { (terms.at < 64) × (p ≡ port_named ids.now terms.head.port_count tlvs.now) }
    ensures { ComesTo (λ card. requested ids.now channels.now card h tlvs.now (table_of ids.now card h tlvs.now)) p terms pool.old pool.new result reply.old reply.new }
{
    let up = terms.port.up;
    match checks::check_table(p, up, h.kind, h.result, h.transaction, tlvs) {
        Err(code) => {
            let n = checks::put_refused(reply, h, tlvs, code);
            card::changed(terms, Change::Kept, n)
        }
        Ok(_) => by_type(pool, ids, channels, terms, h, tlvs, reply),
    }
}

// Past the table, on the port at the terms' place.
fn by_type(
    pool: &mut Pool,
    ids: &[u8; 4096],
    channels: &[u32; 2816],
    terms: Terms,
    h: Header,
    tlvs: &[u8],
    reply: &mut [u8],
) -> Effect
    requires { (4608 ≤ length reply.old) × (length tlvs.now ≤ 4096) × (terms.at < 64) }
    ensures { ComesTo (λ card. by_type ids.now channels.now card h tlvs.now terms.at) terms.at terms pool.old pool.new result reply.old reply.new }
{
    match h.kind {
        144 => control::control(pool, ids, channels, terms, h, tlvs, reply),
        146 => {
            let r = fields::request_in(items::first_of(tlvs, REQUEST));
            transfers::reallocate(pool, ids, channels, terms, h, r, reply)
        }
        148 => queries::query_delegation(ids, terms, h, reply),
        _ => queries::query_flows(pool, ids, channels, terms, h, reply),
    }
}
