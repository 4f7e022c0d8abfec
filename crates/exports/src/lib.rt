#![tactic(auto)]

// The card for a host in C. A start writes a fresh card where the host keeps it; one function carries out any call on the card there; the
// readers are lent its parts. include/ancp_card.h puts a name for each call above them.
ghost use Rattle.std.specs.Prelude.{◌≡◌, Bool, List, ℕ, eqb};
ghost use Rattle.card.specs.Cards.{Card, no_areas, card_of, with_pool};
ghost use Rattle.card.specs.Start.{start_of, fresh_core};
ghost use Rattle.card.specs.Figures.{up_of, delegation_of, committed_at};
ghost use Rattle.ports.specs.Ports.{fresh_port};
ghost use Rattle.pool.specs.Pool.{extras_in, fresh_pool, as_rows, pool_of};
ghost use Rattle.listing.specs.Listing.{flows_at, active_at};
ghost use Rattle.readers.specs.Readers.{HasRecord, open_request_of, row_state_at, flow_state_at};
ghost use Rattle.faults.specs.Faults.{NamesFault, start_checks};
ghost use Rattle.numbers.specs.Numbers.{after_of, Counted};
ghost use Rattle.exports.specs.Answers.{CallDoes};

use calls::HostCall;
use card::{CardHead, Core, Terms};
use faults::Fault;
use flows::Flow;
use pool::{FlowState, Rows};
use ports::{Counter, Port};
use readers::Request;

// ---- start

// 0 where start takes the tables and the first number, and else 14.
pub fn ancp_card_start_number(
    ids: &[u8; 4096],
    ports: usize,
    channels: &[u32; 2816],
    channel_count: usize,
    entries: &[u32; 1536],
    entry_count: usize,
    first: u32,
) -> u8
    ensures { (white add : Bool) → result ≡ (start_of ids.now ports channels.now channel_count entries.now entry_count white add first).number }
{
    card::start_number(
        ids,
        ports,
        channels,
        channel_count,
        entries,
        entry_count,
        first,
    )
}

// A fresh core, part by part where the host keeps it: each of the 64 records, the pool's maps, and the head. Only fields
// are written.
pub fn ancp_port_fresh_in(x: &mut Port)
    ensures { x.new ≡ fresh_port }
{
    x.up = false;
    x.delegation = 0;
    x.asking = false;
    x.required = 0;
    x.preferred = 0;
    x.transaction = 0;
}

// Four maps, and no &mut Pool: exports_c hands on what C lends apart.
pub fn ancp_pool_fresh_in(
    owner: &mut [u8; 512],
    channel: &mut [u8; 512],
    charged: &mut [bool; 512],
    accounting: &mut [u8; 512],
)
    ensures { pool_of owner.new channel.new charged.new accounting.new ≡ fresh_pool }
{
    *owner = [pool::FREE; 512];
    *channel = [0u8; 512];
    *charged = [false; 512];
    *accounting = [0u8; 512];
}

pub fn ancp_head_fresh_in(
    head: &mut CardHead,
    ports: usize,
    channel_count: usize,
    entry_count: usize,
    white_cac: bool,
    add_cac: bool,
    first: u32,
)
    ensures { head.new ≡ (fresh_core ports channel_count entry_count white_cac add_cac first).head }
{
    head.port_count = ports;
    head.channel_count = channel_count;
    head.entry_count = entry_count;
    head.counter.number = first;
    head.white_cac = white_cac;
    head.add_cac = add_cac;
}

// Why a start is refused: the first test that fails. Its table is 0 where the start is taken.
pub fn ancp_start_fault(
    ids: &[u8; 4096],
    ports: usize,
    channels: &[u32; 2816],
    channel_count: usize,
    entries: &[u32; 1536],
    entry_count: usize,
    first: u32,
) -> Fault
    ensures names { NamesFault (start_checks ids.now ports channels.now channel_count entries.now entry_count first) result }
    ensures none { (white add : Bool) → eqb result.table 0 ≡ eqb (start_of ids.now ports channels.now channel_count entries.now entry_count white add first).number 0 }
{
    faults::start_fault(
        ids,
        ports,
        channels,
        channel_count,
        entries,
        entry_count,
        first,
    )
}

// ---- the calls, on the card where the host keeps it

// The call's number, and how many octets of reply are written.
#[repr(C)]
#[derive(Clone, Copy)]
pub struct Answer {
    pub number: u8,
    pub length: usize,
}

// Any call, on the core where the host keeps it. Of the core the pool is lent, and the record of the port that
// the call is about is updated where it is stored; that record and the head are copied.
pub fn ancp_card_call(
    core: &mut Core,
    call: &HostCall,
    ids: &[u8; 4096],
    channels: &[u32; 2816],
    entries: &[u32; 1536],
    octets: &[u8],
    reply: &mut [u8],
) -> Answer
    ensures { CallDoes ids.now channels.now entries.now (card_of core.old no_areas) call.now octets.now result (card_of core.new no_areas) reply.old reply.new }
{
    let call = *call;
    let p = calls::port_of(ids, core.head.port_count, call, octets);
    let at = card::slot(p);
    let terms = Terms {
        at,
        head: core.head,
        port: core.ports[at],
    };
    let r = calls::call_in(
        &mut core.pool,
        ids,
        channels,
        entries,
        terms,
        p,
        call,
        octets,
        reply,
    );
    core.ports[at].update(r.change);
    core.head = r.head;
    Answer {
        number: r.number,
        length: r.length,
    }
}

// ---- what a host may read, of the parts that a reader is lent

pub fn ancp_card_up_in(x: Port, port_count: usize, p: usize) -> bool
    ensures { (card : Card) → HasRecord card port_count p x → result ≡ up_of card p }
{
    readers::is_up(x, port_count, p)
}

pub fn ancp_card_delegation_in(x: Port, port_count: usize, p: usize) -> u32
    ensures { (card : Card) → HasRecord card port_count p x → result ≡ delegation_of card p }
{
    readers::delegation(x, port_count, p)
}

pub fn ancp_card_request_in(x: Port, port_count: usize, p: usize) -> Request
    ensures { (card : Card) → HasRecord card port_count p x → result ≡ open_request_of card p }
{
    readers::open_request(x, port_count, p)
}

pub fn ancp_card_committed_in<'a>(
    owner: &'a [u8; 512],
    channel: &'a [u8; 512],
    charged: &'a [bool; 512],
    channels: &[u32; 2816],
    port_count: usize,
    p: usize,
) -> u64
    ensures { (card : Card) (accounting : List ℕ) → card.head.port_count ≡ port_count → result ≡ committed_at channels.now (with_pool card (pool_of owner.now channel.now charged.now accounting)) p }
{
    readers::committed(owner, channel, charged, channels, port_count, p)
}

pub fn ancp_card_flows_in<'a>(
    owner: &'a [u8; 512],
    channel: &'a [u8; 512],
    channels: &[u32; 2816],
    port_count: usize,
    p: usize,
) -> Rows
    ensures { (card : Card) (charged : List Bool) (accounting : List ℕ) → card.head.port_count ≡ port_count → result ≡ as_rows (flows_at channels.now (with_pool card (pool_of owner.now channel.now charged accounting)) p) }
{
    readers::flows_of(owner, channel, channels, port_count, p)
}

pub fn ancp_card_active_in<'a>(
    owner: &'a [u8; 512],
    channel: &'a [u8; 512],
    channels: &[u32; 2816],
    port_count: usize,
    channel_count: usize,
    p: usize,
    f: Flow,
) -> bool
    ensures { (card : Card) (charged : List Bool) (accounting : List ℕ) → card.head.port_count ≡ port_count → card.head.channel_count ≡ channel_count → result ≡ active_at channels.now (with_pool card (pool_of owner.now channel.now charged accounting)) p f }
{
    readers::is_active(owner, channel, channels, port_count, channel_count, p, f)
}

pub fn ancp_card_flow_in<'a>(
    owner: &'a [u8; 512],
    channel: &'a [u8; 512],
    charged: &'a [bool; 512],
    accounting: &'a [u8; 512],
    channels: &[u32; 2816],
    port_count: usize,
    channel_count: usize,
    p: usize,
    f: Flow,
) -> FlowState
    ensures state { (card : Card) → card.head.port_count ≡ port_count → card.head.channel_count ≡ channel_count → result ≡ flow_state_at channels.now (with_pool card (pool_of owner.now channel.now charged.now accounting.now)) p f }
    ensures active { (card : Card) → card.head.port_count ≡ port_count → card.head.channel_count ≡ channel_count → result.active ≡ active_at channels.now (with_pool card (pool_of owner.now channel.now charged.now accounting.now)) p f }
{
    readers::flow_state(
        owner,
        channel,
        charged,
        accounting,
        channels,
        port_count,
        channel_count,
        p,
        f,
    )
}

pub fn ancp_card_row_in<'a>(
    owner: &'a [u8; 512],
    channel: &'a [u8; 512],
    charged: &'a [bool; 512],
    accounting: &'a [u8; 512],
    port_count: usize,
    p: usize,
    k: u8,
) -> FlowState
    ensures { (card : Card) → card.head.port_count ≡ port_count → result ≡ row_state_at (with_pool card (pool_of owner.now channel.now charged.now accounting.now)) p k }
{
    readers::row_state(owner, channel, charged, accounting, port_count, p, k)
}

pub fn ancp_card_extras_in(owner: &[u8; 512]) -> usize
    ensures { result ≡ extras_in owner.now }
{
    pool::extras_of(owner)
}

// The number that the next message takes: a host that stores it can start again after it.
pub fn ancp_card_next_in(counter: Counter) -> u32
    ensures { result ≡ counter.number }
{
    counter.number
}

// ---- the circle of transaction numbers, for a restart

pub fn ancp_number_after(number: u32, by: u32) -> u32
    ensures { result ≡ after_of number by }
{
    numbers::number_after(number, by)
}

pub fn ancp_numbers_left(number: u32, limit: u32) -> u32
    ensures { Counted number limit result }
{
    numbers::numbers_left(number, limit)
}

// ---- the version of this library, which the header compares with its own at a start: 102 for 0.1.2

pub const VERSION: u32 = 102;

pub fn ancp_card_version() -> u32
    ensures { result ≡ 102 }
{
    VERSION
}
