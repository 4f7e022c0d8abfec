#![tactic(auto)]

// The card: start; port up, port down, set delegation and leave, each on its parts.
ghost use Rattle.std.specs.Prelude.{◌≡◌, Bool, true, List, ℕ, ◌<◌, length};
ghost use Rattle.pool.specs.Pool.{with_owner};
ghost use Rattle.card.specs.Cards.{Areas, no_areas, is_port, card_of};
ghost use Rattle.card.specs.Calls.{port_up_of, port_down_of, set_delegation_of, leave_of};
ghost use Rattle.card.specs.Parts.{done_with, returned_of, ComesTo};
ghost use Rattle.card.specs.Start.{fresh_core, first_ok, start_of, StartGives};

use flows::Flow;
use pool::Pool;
use ports::{Change, Counter, Port};

// The head: all that is neither a port's nor a flow record's. It goes through every call whole, so that a number more
// in it touches no function that hands it on.
#[repr(C)]
#[derive(Clone, Copy)]
pub struct CardHead {
    pub port_count: usize,
    pub channel_count: usize,
    pub entry_count: usize,
    pub counter: Counter,
    pub white_cac: bool,
    pub add_cac: bool,
}

// What the host keeps of a card in one struct. Large state is lent beside it, an array each (the definitions' `Areas`:
// none yet), and so are the start's tables, with each call that needs them.
#[repr(C)]
#[derive(Clone, Copy)]
pub struct Core {
    pub ports: [Port; 64],
    pub pool: Pool,
    pub head: CardHead,
}

// What a call on a core by value returns: the core after it, the call's number, and how many octets of reply
// are written. The number is as in `Effect`.
#[repr(C)]
#[derive(Clone, Copy)]
pub struct Returned {
    pub core: Core,
    pub number: u8,
    pub length: usize,
}

// What a call asks of the card besides the pool and the areas: the head, and of a call about one port that
// port's record, which lies at `at` in the table. A call about no port or about several does not look at it, and keeps
// it. That `at` is below 64 is a clause where it is asked, and no invariant: `commands::run_command` asks for 256 alone,
// and the host's calls for nothing.
#[repr(C)]
#[derive(Clone, Copy)]
pub struct Terms {
    pub at: usize,
    pub head: CardHead,
    pub port: Port,
}

// What a call on the parts of a card gives: the call's number, how many octets of reply are written, the head after it,
// and what becomes of the port's record.
// The number is no error: C's `ancp_answer` and the definitions' `Outcome` have 0 to 15 for every call (CARD.md).
#[repr(C)]
#[derive(Clone, Copy)]
pub struct Effect {
    pub number: u8,
    pub length: usize,
    pub head: CardHead,
    pub change: Change,
}

// What a start gives: a core, and its number. No Result: a refused start gives a core too (`start_of`, `StartGives`).
#[repr(C)]
#[derive(Clone, Copy)]
pub struct Fresh {
    pub core: Core,
    pub number: u8,
}

pub fn start(
    ids: &[u8; 4096],
    port_count: usize,
    channels: &[u32; 2816],
    channel_count: usize,
    entries: &[u32; 1536],
    entry_count: usize,
    white_cac: bool,
    add_cac: bool,
    first: u32,
) -> Fresh
    ensures { StartGives (start_of ids.now port_count channels.now channel_count entries.now entry_count white_cac add_cac first) result no_areas no_areas }
{
    let number = start_number(
        ids,
        port_count,
        channels,
        channel_count,
        entries,
        entry_count,
        first,
    );
    if number == 0 {
        return Fresh {
            core: fresh_core(
                port_count,
                channel_count,
                entry_count,
                white_cac,
                add_cac,
                first,
            ),
            number: 0,
        };
    }
    Fresh {
        core: fresh_core(0, 0, 0, false, false, 1),
        number: 14,
    }
}

// The number of a start, whatever its switches: 0, or 14, as C is given it (`ancp_card_start_number`).
#[tactic(auto, unfolding(crate::specs::Start::start_of, octets::specs::Tests::every))]
pub fn start_number(
    ids: &[u8; 4096],
    port_count: usize,
    channels: &[u32; 2816],
    channel_count: usize,
    entries: &[u32; 1536],
    entry_count: usize,
    first: u32,
) -> u8
    ensures { (white add : Bool) → result ≡ (start_of ids.now port_count channels.now channel_count entries.now entry_count white add first).number }
{
    let ok = tables::tables_ok(
        ids,
        port_count,
        channels,
        channel_count,
        entries,
        entry_count,
    );
    if ok && first_ok(first) { 0 } else { 14 }
}

fn fresh_core(
    port_count: usize,
    channel_count: usize,
    entry_count: usize,
    white_cac: bool,
    add_cac: bool,
    first: u32,
) -> Core
    ensures { result ≡ fresh_core port_count channel_count entry_count white_cac add_cac first }
{
    Core {
        ports: [Port::fresh(); 64],
        pool: Pool::fresh(),
        head: CardHead {
            port_count,
            channel_count,
            entry_count,
            counter: Counter { number: first },
            white_cac,
            add_cac,
        },
    }
}

#[tactic(auto, unfolding(crate::specs::Start::first_ok, numbers::specs::Numbers::is_number))]
pub fn first_ok(first: u32) -> bool
    ensures { result ≡ first_ok first }
{
    numbers::is_number(first)
}

#[tactic(auto, unfolding(crate::specs::Cards::is_port, octets::specs::Tests::every))]
pub fn is_port(count: usize, p: usize) -> bool
    ensures test { result ≡ is_port count p }
    ensures inside { result ≡ true → p < 64 }
{
    p < 64 && p < count
}

// ---- the parts of a card

// Where port p's record lies in the table; a number that is no port's is not looked at.
pub fn slot(p: usize) -> usize
    ensures { (result < 64) × (p < 64 → result ≡ p) }
{
    if 64 <= p { 63 } else { p }
}

// The card with these maps, and with what a call on them gave.
pub fn done_with(core: Core, at: usize, pool: Pool, r: Effect) -> Returned
    requires { at < 64 }
    ensures { (areas : Areas) → result ≡ returned_of (done_with (card_of core areas) at pool r) }
{
    let mut ports = core.ports;
    ports::update_in(&mut ports, at, r.change);
    Returned {
        core: Core {
            ports,
            pool,
            head: r.head,
        },
        number: r.number,
        length: r.length,
    }
}

// Nothing is written, and the port's record stays as it is.
pub fn unchanged(terms: Terms, number: u8) -> Effect
    ensures { result ≡ record { number = number; length = 0; head = terms.head; change = Change.Kept } }
{
    Effect {
        number,
        length: 0,
        head: terms.head,
        change: Change::Kept,
    }
}

// Done: the port's record changes, and n octets of reply are written.
pub fn changed(terms: Terms, change: Change, n: usize) -> Effect
    ensures { result ≡ record { number = 0; length = n; head = terms.head; change = change } }
{
    Effect {
        number: 0,
        length: n,
        head: terms.head,
        change,
    }
}

// ---- the same calls on the parts that they read and write: the pool becomes that of the card afterwards

// Whatever the pool holds.
pub fn port_up_in(terms: Terms, p: usize) -> Effect
    ensures { (pool : Pool) (text : List ℕ) → ComesTo (λ card. port_up_of card p) p terms pool pool result text text }
{
    if !is_port(terms.head.port_count, p) {
        return unchanged(terms, 7);
    }
    changed(terms, Change::BroughtUp, 0)
}

// Of the pool only the owners change, whatever the terms are.
#[tactic(auto, unfolding(pool::specs::Pool::ended))]
pub fn port_down_in(pool: &mut Pool, terms: Terms, p: usize) -> Effect
    ensures comes { (text : List ℕ) → ComesTo (λ card. port_down_of card p) p terms pool.old pool.new result text text }
    ensures rest { pool.new ≡ with_owner pool.old pool.new.owner }
{
    if !is_port(terms.head.port_count, p) {
        return unchanged(terms, 7);
    }
    if !terms.port.up {
        return unchanged(terms, 0);
    }
    pool.end_all(p as u8);
    changed(terms, Change::TakenDown, 0)
}

pub fn set_delegation_in(
    pool: &Pool,
    channels: &[u32; 2816],
    terms: Terms,
    p: usize,
    amount: u32,
) -> Effect
    ensures { (text : List ℕ) → ComesTo (λ card. set_delegation_of channels.now card p amount) p terms pool.now pool.now result text text }
{
    if !is_port(terms.head.port_count, p) {
        return unchanged(terms, 7);
    }
    let committed = pool::committed_of(
        channels,
        &pool.owner,
        &pool.channel,
        &pool.charged,
        p as u8,
    );
    if (amount as u64) < committed {
        return unchanged(terms, 11);
    }
    changed(terms, Change::Delegated(amount), 0)
}

// Of the pool only the owners change, as in `port_down_in`.
#[tactic(auto, unfolding(pool::specs::Pool::ended))]
pub fn leave_in(pool: &mut Pool, channels: &[u32; 2816], terms: Terms, p: usize, f: Flow) -> Effect
    ensures comes { (text : List ℕ) → ComesTo (λ card. leave_of channels.now card p f) p terms pool.old pool.new result text text }
    ensures rest { pool.new ≡ with_owner pool.old pool.new.owner }
{
    if !is_port(terms.head.port_count, p) {
        return unchanged(terms, 7);
    }
    if !terms.port.up {
        return unchanged(terms, 6);
    }
    if !flows::good_flow(f) {
        return unchanged(terms, 8);
    }
    if pool.end(channels, p as u8, f) {
        return unchanged(terms, 0);
    }
    unchanged(terms, 10)
}
