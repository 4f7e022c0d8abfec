#![tactic(auto)]

// Any call, by its number: on a core by value, for programs, and on the parts of a card.
ghost use Rattle.std.specs.Prelude.{◌≡◌, List, ℕ, ◌<◌, length};
ghost use Rattle.card.specs.Cards.{no_areas, card_of};
ghost use Rattle.card.specs.Parts.{AreasComeTo};
ghost use Rattle.demand3.specs.Calls.{outcome_of};
ghost use Rattle.calls.specs.Calls.{tables_of, no_flow, hosted, call_of, port_about, CallGives};

use card::{Core, Effect, Returned, Terms};
use flows::Flow;
use pool::Pool;

// The numbers of the calls; those of the host go from 0 on, and every number after them is a message.
pub const PORT_UP: u8 = 0;

pub const PORT_DOWN: u8 = 1;

pub const SET_DELEGATION: u8 = 2;

pub const JOIN: u8 = 3;

pub const LEAVE: u8 = 4;

pub const ASK: u8 = 5;

pub const MESSAGE: u8 = 255;

// Which call, with its arguments. `amount` is the delegation that is set, or what is required when the host asks.
// A number and no enum for the call: C's `ancp_call` has these fields (layout_call).
#[repr(C)]
#[derive(Clone, Copy)]
pub struct HostCall {
    pub which: u8,
    pub port: usize,
    pub amount: u32,
    pub preferred: u32,
    pub flow: Flow,
}

// A call about a port, and one about a flow of it; a message has neither.
pub fn on_port(which: u8, port: usize, amount: u32, preferred: u32) -> HostCall
    ensures { result ≡ record { which = which; port = port; amount = amount; preferred = preferred; flow = no_flow } }
{
    HostCall {
        which,
        port,
        amount,
        preferred,
        flow: Flow {
            family: 0,
            sourced: 0,
            group: [0u32; 4],
            source: [0u32; 4],
        },
    }
}

pub fn on_flow(which: u8, port: usize, flow: Flow) -> HostCall
    ensures { result ≡ record { which = which; port = port; amount = 0; preferred = 0; flow = flow } }
{
    HostCall {
        which,
        port,
        amount: 0,
        preferred: 0,
        flow,
    }
}

// Any call on a core by value.
pub fn call(
    core: Core,
    ids: &[u8; 4096],
    channels: &[u32; 2816],
    entries: &[u32; 1536],
    call: HostCall,
    octets: &[u8],
    reply: &mut [u8],
) -> Returned
    ensures { CallGives (outcome_of (tables_of (card_of core no_areas) ids.now channels.now entries.now) (card_of core no_areas) (call_of call octets.now (length reply.old))) result no_areas reply.old reply.new }
{
    let p = port_of(ids, core.head.port_count, call, octets);
    let at = card::slot(p);
    let terms = Terms {
        at,
        head: core.head,
        port: core.ports[at],
    };
    let mut pool = core.pool;
    let r = call_in(
        &mut pool, ids, channels, entries, terms, p, call, octets, reply,
    );
    card::done_with(core, at, pool, r)
}

// The port whose record a call may read and change: the host's number, or that of the port which a usable message's
// Target names. 64 where there is none, as of a call that is about no port or about several: what it reads of them
// stands in the head, the maps or the areas.
pub fn port_of(ids: &[u8; 4096], port_count: usize, call: HostCall, octets: &[u8]) -> usize
    ensures { result ≡ port_about ids.now port_count call octets.now }
{
    if call.which < 6 {
        return call.port;
    }
    messages::port_named(ids, port_count, octets)
}

// What any call comes to, on the parts of a card; p is what `port_of` gives.
pub fn call_in(
    pool: &mut Pool,
    ids: &[u8; 4096],
    channels: &[u32; 2816],
    entries: &[u32; 1536],
    terms: Terms,
    p: usize,
    call: HostCall,
    octets: &[u8],
    reply: &mut [u8],
) -> Effect
    requires { (terms.at < 64) × (p ≡ port_about ids.now terms.head.port_count call octets.now) }
    ensures { AreasComeTo (λ card. outcome_of (tables_of card ids.now channels.now entries.now) card (call_of call octets.now (length reply.old))) p terms pool.old pool.new no_areas no_areas result reply.old reply.new }
{
    if call.which < 6 {
        return host_in(pool, ids, channels, entries, terms, call, reply);
    }
    messages::message_in(pool, ids, channels, terms, p, octets, reply)
}

// The calls that are no message.
fn host_in(
    pool: &mut Pool,
    ids: &[u8; 4096],
    channels: &[u32; 2816],
    entries: &[u32; 1536],
    terms: Terms,
    call: HostCall,
    reply: &mut [u8],
) -> Effect
    ensures { AreasComeTo (λ card. outcome_of (tables_of card ids.now channels.now entries.now) card (hosted call.which call (length reply.old))) call.port terms pool.old pool.new no_areas no_areas result reply.old reply.new }
{
    let p = call.port;
    match call.which {
        PORT_UP => card::port_up_in(terms, p),
        PORT_DOWN => card::port_down_in(pool, terms, p),
        SET_DELEGATION => card::set_delegation_in(pool, channels, terms, p, call.amount),
        JOIN => joins::join_in(pool, ids, channels, entries, terms, p, call.flow, reply),
        LEAVE => card::leave_in(pool, channels, terms, p, call.flow),
        _ => joins::ask_in(ids, terms, p, call.amount, call.preferred, reply),
    }
}
