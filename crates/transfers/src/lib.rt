#![tactic(auto)]

// A Bandwidth Reallocation Request (146) and a Bandwidth Transfer (147) about the port of the terms, which passed the table.
ghost use Rattle.std.specs.Prelude.{◌≡◌, List, ℕ, ◌≤◌, ◌<◌, min, max, length};
ghost use Rattle.card.specs.Parts.{ComesTo};
ghost use Rattle.transfers.specs.Transfers.{transfer_fails, transfer_gives, reallocated, transferred};

use card::{Effect, Terms};
use fields::Request;
use header::Header;
use pool::Pool;
use ports::Change;

pub fn reallocate(
    pool: &Pool,
    ids: &[u8; 4096],
    channels: &[u32; 2816],
    terms: Terms,
    h: Header,
    r: Request,
    reply: &mut [u8],
) -> Effect
    requires { (4608 ≤ length reply.old) × (terms.at < 64) }
    ensures { ComesTo (λ card. reallocated ids.now channels.now card h terms.at r) terms.at terms pool.now pool.now result reply.old reply.new }
{
    if r.required < r.preferred {
        return fail(ids, terms, h, 0x67, reply);
    }
    let p = terms.at as u8;
    let committed = pool::committed_of(channels, &pool.owner, &pool.channel, &pool.charged, p);
    if (r.required as u64) < committed {
        return fail(ids, terms, h, 0, reply);
    }
    let amount = reduced(committed as u32, r.preferred, terms.port.delegation);
    give(ids, terms, h, amount, reply)
}

// The larger of committed and the smaller of preferred and the present delegation.
fn reduced(committed: u32, preferred: u32, present: u32) -> u32
    ensures { result ≡ max committed (min preferred present) }
{
    committed.max(preferred.min(present))
}

// The answer is a Failure with the present delegation, which is kept.
fn fail(ids: &[u8; 4096], terms: Terms, h: Header, code: u16, reply: &mut [u8]) -> Effect
    requires { (4608 ≤ length reply.old) × (terms.at < 64) }
    ensures { (pool : Pool) → ComesTo (λ card. transfer_fails ids.now card h terms.at code) terms.at terms pool pool result reply.old reply.new }
{
    let n = replies::put_amount(
        reply,
        h,
        147,
        4,
        code,
        circuits::id_at(ids, terms.at as u8),
        terms.port.delegation,
    );
    card::changed(terms, Change::Kept, n)
}

// A Success sets the delegation and carries it.
fn give(ids: &[u8; 4096], terms: Terms, h: Header, amount: u32, reply: &mut [u8]) -> Effect
    requires { (4608 ≤ length reply.old) × (terms.at < 64) }
    ensures { (pool : Pool) → ComesTo (λ card. transfer_gives ids.now card h terms.at amount) terms.at terms pool pool result reply.old reply.new }
{
    let n = replies::put_amount(
        reply,
        h,
        147,
        3,
        0,
        circuits::id_at(ids, terms.at as u8),
        amount,
    );
    card::changed(terms, Change::Delegated(amount), n)
}

// Whatever the pool holds.
pub fn transfer(terms: Terms, h: Header, amount: u32) -> Effect
    ensures { (pool : Pool) (text : List ℕ) → ComesTo (λ card. transferred card h terms.at amount) terms.at terms pool pool result text text }
{
    if !terms.port.answers(h.transaction) {
        return card::unchanged(terms, 16);
    }
    if h.result == 4 {
        return card::changed(terms, Change::Closed, 0);
    }
    if !terms.port.within(amount) {
        return card::unchanged(terms, 16);
    }
    card::changed(terms, Change::Delegated(amount), 0)
}
