// Exported for host/layout.c alone: each struct that a C host shares with the card, made of the values of its fields, so
// that a program in C sees at which octets each field lies.
#![tactic(auto)]

ghost use Rattle.std.specs.Prelude.{◌≡◌, replicate};

use calls::HostCall;
use card::{CardHead, Core};
use exports::Answer;
use faults::Fault;
use flows::Flow;
use pool::{FlowState, Pool, Rows};
use ports::{Counter, Port};
use readers::Request;

#[unsafe(no_mangle)]
pub extern "C" fn layout_core(
    up: bool,
    asking: bool,
    delegation: u32,
    required: u32,
    preferred: u32,
    transaction: u32,
    owner: u8,
    channel: u8,
    charged: bool,
    accounting: u8,
    port_count: usize,
    channel_count: usize,
    entry_count: usize,
    number: u32,
    white_cac: bool,
    add_cac: bool,
) -> Core
    ensures { result ≡ record { ports = replicate 64 (record { up = up; asking = asking; delegation = delegation; required = required; preferred = preferred; transaction = transaction }); pool = record { owner = replicate 512 owner; channel = replicate 512 channel; charged = replicate 512 charged; accounting = replicate 512 accounting }; head = record { port_count = port_count; channel_count = channel_count; entry_count = entry_count; counter = record { number = number }; white_cac = white_cac; add_cac = add_cac } } }
{
    let port = Port {
        up,
        asking,
        delegation,
        required,
        preferred,
        transaction,
    };
    let pool = Pool {
        owner: [owner; 512],
        channel: [channel; 512],
        charged: [charged; 512],
        accounting: [accounting; 512],
    };
    let counter = Counter { number };
    let head = CardHead {
        port_count,
        channel_count,
        entry_count,
        counter,
        white_cac,
        add_cac,
    };
    Core {
        ports: [port; 64],
        pool,
        head,
    }
}

#[unsafe(no_mangle)]
pub extern "C" fn layout_flow(family: u32, sourced: u32, group: u32, source: u32) -> Flow
    ensures { result ≡ record { family = family; sourced = sourced; group = replicate 4 group; source = replicate 4 source } }
{
    Flow {
        family,
        sourced,
        group: [group; 4],
        source: [source; 4],
    }
}

#[unsafe(no_mangle)]
pub extern "C" fn layout_call(
    which: u8,
    port: usize,
    amount: u32,
    preferred: u32,
    family: u32,
    sourced: u32,
    group: u32,
    source: u32,
) -> HostCall
    ensures { result ≡ record { which = which; port = port; amount = amount; preferred = preferred; flow = record { family = family; sourced = sourced; group = replicate 4 group; source = replicate 4 source } } }
{
    HostCall {
        which,
        port,
        amount,
        preferred,
        flow: layout_flow(family, sourced, group, source),
    }
}

#[unsafe(no_mangle)]
pub extern "C" fn layout_answer(number: u8, length: usize) -> Answer
    ensures { result ≡ record { number = number; length = length } }
{
    Answer { number, length }
}

#[unsafe(no_mangle)]
pub extern "C" fn layout_rows(count: usize, row: u8) -> Rows
    ensures { result ≡ record { count = count; rows = replicate 16 row } }
{
    Rows {
        count,
        rows: [row; 16],
    }
}

#[unsafe(no_mangle)]
pub extern "C" fn layout_request(
    asking: bool,
    required: u32,
    preferred: u32,
    transaction: u32,
) -> Request
    ensures { result ≡ record { asking = asking; required = required; preferred = preferred; transaction = transaction } }
{
    Request {
        asking,
        required,
        preferred,
        transaction,
    }
}

#[unsafe(no_mangle)]
pub extern "C" fn layout_flow_state(active: bool, charged: bool, accounting: u8) -> FlowState
    ensures { result ≡ record { active = active; charged = charged; accounting = accounting } }
{
    FlowState {
        active,
        charged,
        accounting,
    }
}

#[unsafe(no_mangle)]
pub extern "C" fn layout_fault(row: usize, table: u8, field: u8) -> Fault
    ensures { result ≡ record { row = row; table = table; field = field } }
{
    Fault { row, table, field }
}
