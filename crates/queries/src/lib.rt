#![tactic(auto)]

// The answers to a Delegated Bandwidth Query (148) and a Multicast Flow Query (149) about the port of the terms, which passed the table.
ghost use Rattle.std.specs.Prelude.{◌++◌, ◌≤◌, ◌<◌, length};
ghost use Rattle.octets.specs.Writing.{Wrote};
ghost use Rattle.writers.specs.Tlvs.{target_of};
ghost use Rattle.card.specs.Parts.{ComesTo};
ghost use Rattle.queries.specs.Queries.{delegation_query, flow_tlvs, flows_reply, flow_query};

use card::{Effect, Terms};
use header::Header;
use pool::Pool;
use ports::Change;

// Whatever the pool holds.
pub fn query_delegation(ids: &[u8; 4096], terms: Terms, h: Header, reply: &mut [u8]) -> Effect
    requires { (4608 ≤ length reply.old) × (terms.at < 64) }
    ensures { (pool : Pool) → ComesTo (λ card. delegation_query ids.now card h terms.at) terms.at terms pool pool result reply.old reply.new }
{
    let n = replies::put_amount(
        reply,
        h,
        h.kind,
        3,
        0,
        circuits::id_at(ids, terms.at as u8),
        terms.port.delegation,
    );
    card::changed(terms, Change::Kept, n)
}

pub fn query_flows(
    pool: &Pool,
    ids: &[u8; 4096],
    channels: &[u32; 2816],
    terms: Terms,
    h: Header,
    reply: &mut [u8],
) -> Effect
    requires { (4608 ≤ length reply.old) × (terms.at < 64) }
    ensures { ComesTo (λ card. flow_query ids.now channels.now card h terms.at) terms.at terms pool.now pool.now result reply.old reply.new }
{
    let p = terms.at as u8;
    let listed = listing::rows_in_order(channels, &pool.owner, &pool.channel, p);
    let ks = &listed.rows[..listed.count];
    let n = put_listing(reply, h, circuits::id_at(ids, p), channels, ks);
    card::changed(terms, Change::Kept, n)
}

fn put_listing(reply: &mut [u8], h: Header, id: &[u8], channels: &[u32; 2816], ks: &[u8]) -> usize
    requires { (4608 ≤ length reply.old) × (length id.now < 64) × (length ks.now ≤ 16) }
    ensures { Wrote (flows_reply h id.now channels.now ks.now) result reply.old reply.new }
{
    let n = put_target_flows(&mut reply[16..], id, channels, ks);
    header::put_header(reply, replies::reply_header(h, h.kind, 3, 0), n);
    16 + n
}

// The flows directly after the Target.
fn put_target_flows(buf: &mut [u8], id: &[u8], channels: &[u32; 2816], ks: &[u8]) -> usize
    requires { (4592 ≤ length buf.old) × (length id.now < 64) × (length ks.now ≤ 16) }
    ensures { Wrote (target_of id.now ++ flow_tlvs channels.now ks.now) result buf.old buf.new }
{
    let at = writers::put_target(buf, id);
    let n = put_flows(&mut buf[at..], channels, ks);
    at + n
}

// One Multicast-Flow each, directly behind the one before it.
fn put_flows(buf: &mut [u8], channels: &[u32; 2816], ks: &[u8]) -> usize
    requires { (640 ≤ length buf.old) × (length ks.now ≤ 16) }
    ensures { Wrote (flow_tlvs channels.now ks.now) result buf.old buf.new }
{
    let mut at: usize = 0;
    for k in ks {
        let f = channels::channel_at(channels, *k);
        at += flow_octets::put_flow(&mut buf[at..], f);
    }
    at
}
