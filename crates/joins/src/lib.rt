#![tactic(auto)]

// The host's calls that may write a message: join and ask.
ghost use Rattle.std.specs.Prelude.{◌≡◌, List, ℕ, ◌≤◌, ◌<◌, length, Some};
ghost use Rattle.card.specs.Cards.{Card};
ghost use Rattle.card.specs.Parts.{ComesTo};
ghost use Rattle.joins.specs.Joins.{fits, admit_number, refusal_number, admission_number, AsLent, white_of, grey_of, join_row, join_of};
ghost use Rattle.joins.specs.Asks.{asked_of, ask_of};

use card::{CardHead, Effect, Terms, unchanged};
use flows::Flow;
use lists::Colour;
use pool::Pool;
use ports::Change;

// Why a flow is not admitted: its port or the pool is full, or its rate passes the port's delegation.
#[derive(Clone, Copy)]
pub enum Refusal {
    NoRoom,
    OverDelegation,
}

impl Refusal {
    // The number of a join that is so refused.
    #[tactic(auto, unfolding(crate::specs::Joins::refusal_number))]
    pub fn number(self) -> u8
        ensures { result ≡ refusal_number self }
    {
        match self {
            Refusal::NoRoom => 5,
            Refusal::OverDelegation => 4,
        }
    }
}

// On the parts of a card that it reads and writes: the pool becomes that of the card afterwards.
pub fn join_in(
    pool: &mut Pool,
    ids: &[u8; 4096],
    channels: &[u32; 2816],
    entries: &[u32; 1536],
    terms: Terms,
    p: usize,
    f: Flow,
    reply: &mut [u8],
) -> Effect
    ensures { ComesTo (λ card. join_of ids.now channels.now entries.now card p f (length reply.old)) p terms pool.old pool.new result reply.old reply.new }
{
    if reply.len() < 4608 {
        return unchanged(terms, 13);
    }
    if !card::is_port(terms.head.port_count, p) {
        return unchanged(terms, 7);
    }
    if !terms.port.up {
        return unchanged(terms, 6);
    }
    if !flows::good_flow(f) {
        return unchanged(terms, 8);
    }
    let found = channels::channel_of(channels, terms.head.channel_count, f);
    match found {
        None => unchanged(terms, 9),
        Some(k) => join_channel(pool, ids, channels, entries, terms, p as u8, f, k, reply),
    }
}

fn join_channel(
    pool: &mut Pool,
    ids: &[u8; 4096],
    channels: &[u32; 2816],
    entries: &[u32; 1536],
    terms: Terms,
    p: u8,
    f: Flow,
    k: u8,
    reply: &mut [u8],
) -> Effect
    requires { (4608 ≤ length reply.old) × (p < 64) }
    ensures { ComesTo (λ card. join_row ids.now channels.now entries.now card p f (Some k)) p terms pool.old pool.new result reply.old reply.new }
{
    if pool::is_active(&pool.owner, &pool.channel, p, k) {
        return unchanged(terms, 1);
    }
    let Some(list) = lists::list_decision(entries, terms.head.entry_count, f) else {
        return unchanged(terms, 3);
    };
    match list {
        Colour::White => join_white(pool, channels, terms, p, k),
        Colour::Grey => join_grey(ids, terms, p, f, reply),
        Colour::Black => unchanged(terms, 3),
    }
}

// Whatever the buffer holds: nothing is written to it.
fn join_white(pool: &mut Pool, channels: &[u32; 2816], terms: Terms, p: u8, k: u8) -> Effect
    requires { p < 64 }
    ensures { (text : List ℕ) → ComesTo (λ card. white_of channels.now card p k) p terms pool.old pool.new result text text }
{
    let cac = terms.head.white_cac;
    match admit(pool, channels, terms.port.delegation, cac, p, k) {
        Err(refusal) => unchanged(terms, refusal.number()),
        Ok(()) => {
            pool.begin(p, k, cac, 0);
            unchanged(terms, 0)
        }
    }
}

// Room, and then, under admission control, the rate.
pub fn admit(
    pool: &Pool,
    channels: &[u32; 2816],
    delegation: u32,
    cac: bool,
    p: u8,
    k: u8,
) -> Result<(), Refusal>
    ensures { (card : Card) → AsLent card pool.now p delegation → admission_number result ≡ admit_number channels.now card cac p k }
{
    if !pool::has_room(&pool.owner, p) {
        return Err(Refusal::NoRoom);
    }
    if cac && !rate_fits(pool, channels, delegation, p, k) {
        return Err(Refusal::OverDelegation);
    }
    Ok(())
}

// No sum is made, so that none can pass its type.
fn rate_fits(pool: &Pool, channels: &[u32; 2816], delegation: u32, p: u8, k: u8) -> bool
    ensures { (card : Card) → AsLent card pool.now p delegation → result ≡ fits channels.now card p k }
{
    let rate = channels::rate_at(channels, k);
    if delegation < rate {
        return false;
    }
    let committed = pool::committed_of(channels, &pool.owner, &pool.channel, &pool.charged, p);
    committed <= (delegation - rate) as u64
}

// Whatever the pool holds: it is not looked at.
fn join_grey(ids: &[u8; 4096], terms: Terms, p: u8, f: Flow, reply: &mut [u8]) -> Effect
    requires { (4608 ≤ length reply.old) × (p < 64) }
    ensures { (pool : Pool) → ComesTo (λ card. grey_of ids.now card p f) p terms pool pool result reply.old reply.new }
{
    let taken = terms.head.counter.take();
    let n = begun::put_admission(reply, taken.number, circuits::id_at(ids, p), f);
    Effect {
        number: 2,
        length: n,
        head: CardHead {
            counter: taken.next,
            ..terms.head
        },
        change: Change::Kept,
    }
}

// Whatever the pool holds: it is not looked at.
pub fn ask_in(
    ids: &[u8; 4096],
    terms: Terms,
    p: usize,
    required: u32,
    preferred: u32,
    reply: &mut [u8],
) -> Effect
    ensures { (pool : Pool) → ComesTo (λ card. ask_of ids.now card p required preferred (length reply.old)) p terms pool pool result reply.old reply.new }
{
    if reply.len() < 4608 {
        return unchanged(terms, 13);
    }
    if !card::is_port(terms.head.port_count, p) {
        return unchanged(terms, 7);
    }
    if !terms.port.up {
        return unchanged(terms, 6);
    }
    if !terms.port.may_ask(required, preferred) {
        return unchanged(terms, 12);
    }
    open_request(ids, terms, p as u8, required, preferred, reply)
}

fn open_request(
    ids: &[u8; 4096],
    terms: Terms,
    p: u8,
    required: u32,
    preferred: u32,
    reply: &mut [u8],
) -> Effect
    requires { (4608 ≤ length reply.old) × (p < 64) }
    ensures { (pool : Pool) → ComesTo (λ card. asked_of ids.now card p required preferred) p terms pool pool result reply.old reply.new }
{
    let taken = terms.head.counter.take();
    let n = begun::put_reallocation(
        reply,
        taken.number,
        circuits::id_at(ids, p),
        required,
        preferred,
    );
    Effect {
        number: 0,
        length: n,
        head: CardHead {
            counter: taken.next,
            ..terms.head
        },
        change: Change::Asked(required, preferred, taken.number),
    }
}
