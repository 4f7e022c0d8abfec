#![tactic(auto)]

// What a host may read of its card, where it lies: a reader is lent the maps that it looks at, and takes one port's
// record by value. Each tests its port's number. Its contract speaks of every card with these parts. The maps come apart,
// and not as a pool: so C lends them (`ancp_card_committed_in` and the others).
ghost use Rattle.std.specs.Prelude.{◌≡◌, Bool, List, ℕ};
ghost use Rattle.pool.specs.Pool.{pool_of, as_rows};
ghost use Rattle.card.specs.Cards.{Card, with_pool};
ghost use Rattle.card.specs.Figures.{up_of, delegation_of, committed_at};
ghost use Rattle.listing.specs.Listing.{flows_at, active_at};
ghost use Rattle.readers.specs.Readers.{HasRecord, open_request_in, open_request_of, row_state_at, flow_state_at};

use flows::Flow;
use pool::{FlowState, Rows};
use ports::Port;

// ---- of a port's record

pub fn is_up(x: Port, count: usize, p: usize) -> bool
    ensures { (card : Card) → HasRecord card count p x → result ≡ up_of card p }
{
    card::is_port(count, p) && x.up
}

pub fn delegation(x: Port, count: usize, p: usize) -> u32
    ensures { (card : Card) → HasRecord card count p x → result ≡ delegation_of card p }
{
    if !card::is_port(count, p) {
        return 0;
    }
    x.delegation
}

// asking: a request is open, with its figures and its transaction number. Else these are 0.
// A flag with its values beside it, and no Option: C's `ancp_request` has these fields (ancp_card_request_in).
#[repr(C)]
#[derive(Clone, Copy, Default)]
pub struct Request {
    pub asking: bool,
    pub required: u32,
    pub preferred: u32,
    pub transaction: u32,
}

pub fn open_request(x: Port, count: usize, p: usize) -> Request
    ensures { (card : Card) → HasRecord card count p x → result ≡ open_request_of card p }
{
    if !card::is_port(count, p) {
        return Request::default();
    }
    request_in(x)
}

fn request_in(x: Port) -> Request
    ensures { result ≡ open_request_in x }
{
    if !x.asking {
        return Request::default();
    }
    Request {
        asking: true,
        required: x.required,
        preferred: x.preferred,
        transaction: x.transaction,
    }
}

// ---- of the pool's maps

pub fn committed<'a>(
    owner: &'a [u8; 512],
    channel: &'a [u8; 512],
    charged: &'a [bool; 512],
    channels: &[u32; 2816],
    count: usize,
    p: usize,
) -> u64
    ensures { (card : Card) (accounting : List ℕ) → card.head.port_count ≡ count → result ≡ committed_at channels.now (with_pool card (pool_of owner.now channel.now charged.now accounting)) p }
{
    if !card::is_port(count, p) {
        return 0;
    }
    pool::committed_of(channels, owner, channel, charged, p as u8)
}

// The channels of the port's active flows, in order.
pub fn flows_of<'a>(
    owner: &'a [u8; 512],
    channel: &'a [u8; 512],
    channels: &[u32; 2816],
    count: usize,
    p: usize,
) -> Rows
    ensures { (card : Card) (charged : List Bool) (accounting : List ℕ) → card.head.port_count ≡ count → result ≡ as_rows (flows_at channels.now (with_pool card (pool_of owner.now channel.now charged accounting)) p) }
{
    if !card::is_port(count, p) {
        return Rows::none();
    }
    listing::rows_in_order(channels, owner, channel, p as u8)
}

// What the port's flow of channel k has.
pub fn row_state<'a>(
    owner: &'a [u8; 512],
    channel: &'a [u8; 512],
    charged: &'a [bool; 512],
    accounting: &'a [u8; 512],
    count: usize,
    p: usize,
    k: u8,
) -> FlowState
    ensures { (card : Card) → card.head.port_count ≡ count → result ≡ row_state_at (with_pool card (pool_of owner.now channel.now charged.now accounting.now)) p k }
{
    if !card::is_port(count, p) {
        return FlowState::none();
    }
    pool::state_of(owner, channel, charged, accounting, p as u8, k)
}

// What the flow has on the port; `active` is whether it is active there.
pub fn flow_state<'a>(
    owner: &'a [u8; 512],
    channel: &'a [u8; 512],
    charged: &'a [bool; 512],
    accounting: &'a [u8; 512],
    channels: &[u32; 2816],
    count: usize,
    channel_count: usize,
    p: usize,
    f: Flow,
) -> FlowState
    ensures state { (card : Card) → card.head.port_count ≡ count → card.head.channel_count ≡ channel_count → result ≡ flow_state_at channels.now (with_pool card (pool_of owner.now channel.now charged.now accounting.now)) p f }
    ensures active { (card : Card) → card.head.port_count ≡ count → card.head.channel_count ≡ channel_count → result.active ≡ active_at channels.now (with_pool card (pool_of owner.now channel.now charged.now accounting.now)) p f }
{
    if !card::is_port(count, p) {
        return FlowState::none();
    }
    let found = channels::channel_of(channels, channel_count, f);
    match found {
        None => FlowState::none(),
        Some(k) => pool::state_of(owner, channel, charged, accounting, p as u8, k),
    }
}

// The flow is active on the port.
pub fn is_active<'a>(
    owner: &'a [u8; 512],
    channel: &'a [u8; 512],
    channels: &[u32; 2816],
    count: usize,
    channel_count: usize,
    p: usize,
    f: Flow,
) -> bool
    ensures { (card : Card) (charged : List Bool) (accounting : List ℕ) → card.head.port_count ≡ count → card.head.channel_count ≡ channel_count → result ≡ active_at channels.now (with_pool card (pool_of owner.now channel.now charged accounting)) p f }
{
    if !card::is_port(count, p) {
        return false;
    }
    let found = channels::channel_of(channels, channel_count, f);
    match found {
        None => false,
        Some(k) => pool::is_active(owner, channel, p as u8, k),
    }
}
