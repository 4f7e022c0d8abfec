#![tactic(auto)]

// The functions of `exports` under C's calling convention and names: each one calls the function of its name, with the
// same promises. include/ancp_card.h declares them.
ghost use Rattle.std.specs.Prelude.{◌≡◌, Bool, List, ℕ, eqb};
ghost use Rattle.card.specs.Cards.{Card, no_areas, card_of, with_pool};
ghost use Rattle.card.specs.Start.{start_of, fresh_core};
ghost use Rattle.card.specs.Figures.{up_of, delegation_of, committed_at};
ghost use Rattle.ports.specs.Ports.{fresh_port};
ghost use Rattle.pool.specs.Pool.{extras_in, fresh_pool, as_rows, pool_of};
ghost use Rattle.listing.specs.Listing.{flows_at, active_at};
ghost use Rattle.readers.specs.Readers.{HasRecord, open_request_of, row_state_at, flow_state_at};
ghost use Rattle.faults.specs.Faults.{NamesFault, start_checks};
ghost use Rattle.numbers.specs.Numbers.{after_of, Counted};
ghost use Rattle.exports.specs.Answers.{CallDoes};

use calls::HostCall;
use card::{CardHead, Core};
use exports::Answer;
use faults::Fault;
use flows::Flow;
use pool::{FlowState, Rows};
use ports::{Counter, Port};
use readers::Request;

#[unsafe(no_mangle)]
pub extern "C" fn ancp_card_start_number(
    ids: &[u8; 4096],
    ports: usize,
    channels: &[u32; 2816],
    channel_count: usize,
    entries: &[u32; 1536],
    entry_count: usize,
    first: u32,
) -> u8
    ensures { (white add : Bool) → result ≡ (start_of ids.now ports channels.now channel_count entries.now entry_count white add first).number }
{
    exports::ancp_card_start_number(
        ids,
        ports,
        channels,
        channel_count,
        entries,
        entry_count,
        first,
    )
}

#[unsafe(no_mangle)]
pub extern "C" fn ancp_port_fresh_in(x: &mut Port)
    ensures { x.new ≡ fresh_port }
{
    exports::ancp_port_fresh_in(x);
}

#[unsafe(no_mangle)]
pub extern "C" fn ancp_pool_fresh_in(
    owner: &mut [u8; 512],
    channel: &mut [u8; 512],
    charged: &mut [bool; 512],
    accounting: &mut [u8; 512],
)
    ensures { pool_of owner.new channel.new charged.new accounting.new ≡ fresh_pool }
{
    exports::ancp_pool_fresh_in(owner, channel, charged, accounting);
}

#[unsafe(no_mangle)]
pub extern "C" fn ancp_head_fresh_in(
    head: &mut CardHead,
    ports: usize,
    channel_count: usize,
    entry_count: usize,
    white_cac: bool,
    add_cac: bool,
    first: u32,
)
    ensures { head.new ≡ (fresh_core ports channel_count entry_count white_cac add_cac first).head }
{
    exports::ancp_head_fresh_in(
        head,
        ports,
        channel_count,
        entry_count,
        white_cac,
        add_cac,
        first,
    );
}

#[unsafe(no_mangle)]
pub extern "C" fn ancp_start_fault(
    ids: &[u8; 4096],
    ports: usize,
    channels: &[u32; 2816],
    channel_count: usize,
    entries: &[u32; 1536],
    entry_count: usize,
    first: u32,
) -> Fault
    ensures names { NamesFault (start_checks ids.now ports channels.now channel_count entries.now entry_count first) result }
    ensures none { (white add : Bool) → eqb result.table 0 ≡ eqb (start_of ids.now ports channels.now channel_count entries.now entry_count white add first).number 0 }
{
    exports::ancp_start_fault(
        ids,
        ports,
        channels,
        channel_count,
        entries,
        entry_count,
        first,
    )
}

#[unsafe(no_mangle)]
pub extern "C" fn ancp_card_call(
    core: &mut Core,
    call: &HostCall,
    ids: &[u8; 4096],
    channels: &[u32; 2816],
    entries: &[u32; 1536],
    octets: &[u8],
    reply: &mut [u8],
) -> Answer
    ensures { CallDoes ids.now channels.now entries.now (card_of core.old no_areas) call.now octets.now result (card_of core.new no_areas) reply.old reply.new }
{
    exports::ancp_card_call(core, call, ids, channels, entries, octets, reply)
}

#[unsafe(no_mangle)]
pub extern "C" fn ancp_card_up_in(x: Port, port_count: usize, p: usize) -> bool
    ensures { (card : Card) → HasRecord card port_count p x → result ≡ up_of card p }
{
    exports::ancp_card_up_in(x, port_count, p)
}

#[unsafe(no_mangle)]
pub extern "C" fn ancp_card_delegation_in(x: Port, port_count: usize, p: usize) -> u32
    ensures { (card : Card) → HasRecord card port_count p x → result ≡ delegation_of card p }
{
    exports::ancp_card_delegation_in(x, port_count, p)
}

#[unsafe(no_mangle)]
pub extern "C" fn ancp_card_request_in(x: Port, port_count: usize, p: usize) -> Request
    ensures { (card : Card) → HasRecord card port_count p x → result ≡ open_request_of card p }
{
    exports::ancp_card_request_in(x, port_count, p)
}

#[unsafe(no_mangle)]
pub extern "C" fn ancp_card_committed_in<'a>(
    owner: &'a [u8; 512],
    channel: &'a [u8; 512],
    charged: &'a [bool; 512],
    channels: &[u32; 2816],
    port_count: usize,
    p: usize,
) -> u64
    ensures { (card : Card) (accounting : List ℕ) → card.head.port_count ≡ port_count → result ≡ committed_at channels.now (with_pool card (pool_of owner.now channel.now charged.now accounting)) p }
{
    exports::ancp_card_committed_in(owner, channel, charged, channels, port_count, p)
}

#[unsafe(no_mangle)]
pub extern "C" fn ancp_card_flows_in<'a>(
    owner: &'a [u8; 512],
    channel: &'a [u8; 512],
    channels: &[u32; 2816],
    port_count: usize,
    p: usize,
) -> Rows
    ensures { (card : Card) (charged : List Bool) (accounting : List ℕ) → card.head.port_count ≡ port_count → result ≡ as_rows (flows_at channels.now (with_pool card (pool_of owner.now channel.now charged accounting)) p) }
{
    exports::ancp_card_flows_in(owner, channel, channels, port_count, p)
}

#[unsafe(no_mangle)]
pub extern "C" fn ancp_card_active_in<'a>(
    owner: &'a [u8; 512],
    channel: &'a [u8; 512],
    channels: &[u32; 2816],
    port_count: usize,
    channel_count: usize,
    p: usize,
    f: Flow,
) -> bool
    ensures { (card : Card) (charged : List Bool) (accounting : List ℕ) → card.head.port_count ≡ port_count → card.head.channel_count ≡ channel_count → result ≡ active_at channels.now (with_pool card (pool_of owner.now channel.now charged accounting)) p f }
{
    exports::ancp_card_active_in(owner, channel, channels, port_count, channel_count, p, f)
}

#[unsafe(no_mangle)]
pub extern "C" fn ancp_card_flow_in<'a>(
    owner: &'a [u8; 512],
    channel: &'a [u8; 512],
    charged: &'a [bool; 512],
    accounting: &'a [u8; 512],
    channels: &[u32; 2816],
    port_count: usize,
    channel_count: usize,
    p: usize,
    f: Flow,
) -> FlowState
    ensures state { (card : Card) → card.head.port_count ≡ port_count → card.head.channel_count ≡ channel_count → result ≡ flow_state_at channels.now (with_pool card (pool_of owner.now channel.now charged.now accounting.now)) p f }
    ensures active { (card : Card) → card.head.port_count ≡ port_count → card.head.channel_count ≡ channel_count → result.active ≡ active_at channels.now (with_pool card (pool_of owner.now channel.now charged.now accounting.now)) p f }
{
    exports::ancp_card_flow_in(
        owner,
        channel,
        charged,
        accounting,
        channels,
        port_count,
        channel_count,
        p,
        f,
    )
}

#[unsafe(no_mangle)]
pub extern "C" fn ancp_card_row_in<'a>(
    owner: &'a [u8; 512],
    channel: &'a [u8; 512],
    charged: &'a [bool; 512],
    accounting: &'a [u8; 512],
    port_count: usize,
    p: usize,
    k: u8,
) -> FlowState
    ensures { (card : Card) → card.head.port_count ≡ port_count → result ≡ row_state_at (with_pool card (pool_of owner.now channel.now charged.now accounting.now)) p k }
{
    exports::ancp_card_row_in(owner, channel, charged, accounting, port_count, p, k)
}

#[unsafe(no_mangle)]
pub extern "C" fn ancp_card_extras_in(owner: &[u8; 512]) -> usize
    ensures { result ≡ extras_in owner.now }
{
    exports::ancp_card_extras_in(owner)
}

#[unsafe(no_mangle)]
pub extern "C" fn ancp_card_next_in(counter: Counter) -> u32
    ensures { result ≡ counter.number }
{
    exports::ancp_card_next_in(counter)
}

#[unsafe(no_mangle)]
pub extern "C" fn ancp_number_after(number: u32, by: u32) -> u32
    ensures { result ≡ after_of number by }
{
    exports::ancp_number_after(number, by)
}

#[unsafe(no_mangle)]
pub extern "C" fn ancp_numbers_left(number: u32, limit: u32) -> u32
    ensures { Counted number limit result }
{
    exports::ancp_numbers_left(number, limit)
}

#[unsafe(no_mangle)]
pub extern "C" fn ancp_card_version() -> u32
    ensures { result ≡ 102 }
{
    exports::ancp_card_version()
}
