#![tactic(auto)]

// Multicast Replication Control (144) about port p, which passed the table: its commands in order.
ghost use Rattle.std.specs.Prelude.{◌≡◌, ◌++◌, ◌≤◌, ◌<◌, length};
ghost use Rattle.octets.specs.Writing.{Wrote};
ghost use Rattle.writers.specs.Tlvs.{tlv_of, target_of, sequence_of};
ghost use Rattle.card.specs.Outcome.{Ends};
ghost use Rattle.card.specs.Parts.{ComesTo};
ghost use Rattle.card.specs.Cards.{Card};
ghost use Rattle.control.specs.Control.{failure_of, all_good, commands_from, commands_in, controlled, wrote, Controls};

use card::{Effect, Terms};
use fields::COMMAND;
use header::Header;
use pool::Pool;
use ports::Change;
use reader::Reader;

// The pool becomes that of the card afterwards; no port's record changes.
pub fn control(
    pool: &mut Pool,
    ids: &[u8; 4096],
    channels: &[u32; 2816],
    terms: Terms,
    h: Header,
    tlvs: &[u8],
    reply: &mut [u8],
) -> Effect
    requires { (4608 ≤ length reply.old) × (terms.at < 64) × (length tlvs.now ≤ 4096) }
    ensures { ComesTo (λ card. controlled ids.now channels.now card h terms.at tlvs.now) terms.at terms pool.old pool.new result reply.old reply.new }
{
    let id = circuits::id_at(ids, terms.at as u8);
    let n = run_all(pool, channels, terms, h, id, tlvs, reply);
    card::changed(terms, Change::Kept, n)
}

// All commands in order, on the pool; the answer is how many octets of reply are written.
fn run_all(
    pool: &mut Pool,
    channels: &[u32; 2816],
    terms: Terms,
    h: Header,
    id: &[u8],
    tlvs: &[u8],
    reply: &mut [u8],
) -> usize
    requires { (4608 ≤ length reply.old) × (length id.now < 64) × (length tlvs.now ≤ 4096) × (terms.at < 256) }
    ensures { Controls (λ card. commands_from channels.now h id.now terms.at card 1 (commands_in tlvs.now)) terms pool.old pool.new result reply.old reply.new }
{
    let mut seq: u32 = 1;
    for t in Reader::new(tlvs, 0) {
        if t.kind == COMMAND {
            let c = t.content;
            if let Err(code) = commands::run_command(pool, channels, terms, c) {
                return put_failure(reply, h, code, id, seq, c);
            }
            seq += 1;
        }
    }
    finish(h, reply)
}

// All good: Success for Result 2, nothing for Result 1.
fn finish(h: Header, reply: &mut [u8]) -> usize
    requires { 4608 ≤ length reply.old }
    ensures { (card : Card) → Ends (all_good h card) (wrote card result) reply.old reply.new }
{
    if h.result != 2 {
        return 0;
    }
    replies::put_success(reply, h)
}

fn put_failure(reply: &mut [u8], h: Header, code: u16, id: &[u8], seq: u32, c: &[u8]) -> usize
    requires { (4608 ≤ length reply.old) × (length id.now < 64) × (length c.now ≤ 4096) }
    ensures { Wrote (failure_of h code id.now seq c.now) result reply.old reply.new }
{
    let n = put_enclosed(&mut reply[24..], id, seq, c);
    replies::put_refusal(reply, h, code, n);
    24 + n
}

// Target, Sequence-Number and Command, each directly behind the one before it.
fn put_enclosed(buf: &mut [u8], id: &[u8], seq: u32, c: &[u8]) -> usize
    requires { (4584 ≤ length buf.old) × (length id.now < 64) × (length c.now ≤ 4096) }
    ensures { Wrote (target_of id.now ++ sequence_of seq ++ tlv_of 0x0011 c.now) result buf.old buf.new }
{
    let a = writers::put_target(buf, id);
    let b = a + writers::put_sequence(&mut buf[a..], seq);
    let n = writers::put_tlv(&mut buf[b..], COMMAND, c);
    b + n
}
