#![tactic(auto)]

// One command of a Multicast Replication Control message (144), on the pool, which is lent and changed in place.
ghost use Rattle.std.specs.Prelude.{◌≡◌, ◌<◌, Some};
ghost use Rattle.fields.specs.Fields.{command_in};
ghost use Rattle.channels.specs.Channels.{channel_of};
ghost use Rattle.commands.specs.Directives.{flows_asked, flow_content, shape_ok, flow_directive};
ghost use Rattle.commands.specs.Commands.{add_row, delete_flow, carried_out, ran_of, Runs};

use card::Terms;
use fields::{Command, FLOW};
use flows::Flow;
use pool::Pool;

// On the port at the terms' place. Where the command fails, the error is its result code, which is never 0.
// An error is a number of the wire, and no enum: the definitions' `Ran` and a reply's Result have every code.
pub fn run_command(
    pool: &mut Pool,
    channels: &[u32; 2816],
    terms: Terms,
    c: &[u8],
) -> Result<(), u16>
    requires { terms.at < 256 }
    ensures { Runs (λ card. ran_of channels.now card terms.at c.now) terms pool.old pool.new result }
{
    let command = fields::command_in(c);
    if !shape_ok(command, c) {
        return Err(0x64);
    }
    if command.code == 3 {
        pool.end_all(terms.at as u8);
        return Ok(());
    }
    run_flow(pool, channels, terms, command, flow_content(c))
}

// Code 1 to 3, accounting 0 or 1, and as many flows as are called for.
fn shape_ok(command: Command, c: &[u8]) -> bool
    requires { command ≡ command_in c.now }
    ensures { result ≡ shape_ok c.now }
{
    1 <= command.code
        && command.code <= 3
        && command.accounting <= 1
        && items::count_of(fields::command_tlvs(c), FLOW) == flows_asked(command.code)
}

fn flows_asked(code: u8) -> usize
    ensures { result ≡ flows_asked code }
{
    if code == 3 { 0 } else { 1 }
}

fn flow_content<'a>(c: &'a [u8]) -> &'a [u8]
    ensures { result.now ≡ flow_content c.now }
{
    items::first_of(fields::command_tlvs(c), FLOW)
}

// Add or Delete of the flow with content c.
fn run_flow(
    pool: &mut Pool,
    channels: &[u32; 2816],
    terms: Terms,
    command: Command,
    c: &[u8],
) -> Result<(), u16>
    requires { terms.at < 256 }
    ensures { Runs (λ card. carried_out channels.now card terms.at (flow_directive command.code command.accounting c.now)) terms pool.old pool.new result }
{
    if !flow_octets::flow_formed(c) {
        return Err(0x55);
    }
    let f = flow_octets::flow_named(c);
    if !flows::good_flow(f) {
        return Err(0x65);
    }
    if command.code == 1 {
        return add(pool, channels, terms, f, command.accounting);
    }
    delete(pool, channels, terms, f)
}

fn add(pool: &mut Pool, channels: &[u32; 2816], terms: Terms, f: Flow, value: u8) -> Result<(), u16>
    requires { terms.at < 256 }
    ensures { Runs (λ card. add_row channels.now card terms.at value (channel_of channels.now card.head.channel_count f)) terms pool.old pool.new result }
{
    let found = channels::channel_of(channels, terms.head.channel_count, f);
    match found {
        None => Err(0x66),
        Some(k) => add_channel(pool, channels, terms, k, value),
    }
}

// An active flow gets its accounting only; another begins if it is admitted.
fn add_channel(
    pool: &mut Pool,
    channels: &[u32; 2816],
    terms: Terms,
    k: u8,
    value: u8,
) -> Result<(), u16>
    requires { terms.at < 256 }
    ensures { Runs (λ card. add_row channels.now card terms.at value (Some k)) terms pool.old pool.new result }
{
    let p = terms.at as u8;
    let cac = terms.head.add_cac;
    if pool.account(p, k, value) {
        return Ok(());
    }
    if joins::admit(pool, channels, terms.port.delegation, cac, p, k).is_err() {
        return Err(0x13);
    }
    pool.begin(p, k, cac, value);
    Ok(())
}

fn delete(pool: &mut Pool, channels: &[u32; 2816], terms: Terms, f: Flow) -> Result<(), u16>
    requires { terms.at < 256 }
    ensures { Runs (λ card. delete_flow channels.now card terms.at f) terms pool.old pool.new result }
{
    if pool.end(channels, terms.at as u8, f) {
        return Ok(());
    }
    Err(0x66)
}
