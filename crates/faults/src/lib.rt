#![tactic(auto)]

// Why start refuses its tables or its first number (number 14): the first test that fails, by table, row and field.
ghost use Rattle.std.specs.Prelude.{◌≡◌, Bool, ◌<◌, eqb};
ghost use Rattle.card.specs.Start.{start_of};
ghost use Rattle.faults.specs.Faults.{NamesFault, Tested, fault_at, port_checks, channel_checks, entry_checks, table_checks, start_checks};

use channels::{channel_at, channel_of, rate_at};
use circuits::{id_at, port_of};
use flows::{good_group, good_source, known_family};
use lists::entry_at;
use tables::{known_list, within_address};

// Tables: 1 ports, 2 channels, 3 list entries, 4 the first number; 0 where start takes all of them.
// Fields: 1 count, 2 length of an id, 3 the same as an earlier row, 4 rate, 5 family, 6 group, 7 source, 8 list, 9 and 10
// prefix length of the group and of the source, 11 number. Of a count and of the first number the row is 0.
#[repr(C)]
#[derive(Clone, Copy)]
pub struct Fault {
    pub row: usize,
    pub table: u8,
    pub field: u8,
}

pub fn start_fault(
    ids: &[u8; 4096],
    ports: usize,
    channels: &[u32; 2816],
    channel_count: usize,
    entries: &[u32; 1536],
    entry_count: usize,
    first: u32,
) -> Fault
    ensures names { NamesFault (start_checks ids.now ports channels.now channel_count entries.now entry_count first) result }
    ensures none { (white add : Bool) → eqb result.table 0 ≡ eqb (start_of ids.now ports channels.now channel_count entries.now entry_count white add first).number 0 }
{
    match checked(
        ids,
        ports,
        channels,
        channel_count,
        entries,
        entry_count,
        first,
    ) {
        Ok(()) => fault_at(0, 0, 0),
        Err(fault) => fault,
    }
}

// The tests of a start in their order.
fn checked(
    ids: &[u8; 4096],
    ports: usize,
    channels: &[u32; 2816],
    channel_count: usize,
    entries: &[u32; 1536],
    entry_count: usize,
    first: u32,
) -> Result<(), Fault>
    ensures { Tested (start_checks ids.now ports channels.now channel_count entries.now entry_count first) result }
{
    ports_fault(ids, ports)?;
    channels_fault(channels, channel_count)?;
    entries_fault(entries, entry_count)?;
    if !card::first_ok(first) {
        return Err(fault_at(4, 0, 11));
    }
    Ok(())
}

fn fault_at(table: u8, row: usize, field: u8) -> Fault
    ensures { result ≡ fault_at table row field }
{
    Fault { row, table, field }
}

// ---- circuit ids

// This walk over a table and the two below: one over a closure would be as long as each.
fn ports_fault(ids: &[u8; 4096], n: usize) -> Result<(), Fault>
    ensures { Tested (table_checks 1 64 n (port_checks ids.now)) result }
{
    if 64 < n {
        return Err(fault_at(1, 0, 1));
    }
    for i in 0..n {
        port_fault(ids, i as u8)?;
    }
    Ok(())
}

fn port_fault(ids: &[u8; 4096], p: u8) -> Result<(), Fault>
    requires { p < 64 }
    ensures { Tested (port_checks ids.now p) result }
{
    let at = p as usize;
    let length = ids[at * 64];
    if length < 1 {
        return Err(fault_at(1, at, 2));
    }
    if 63 < length {
        return Err(fault_at(1, at, 2));
    }
    if port_of(ids, at, id_at(ids, p)).is_some() {
        return Err(fault_at(1, at, 3));
    }
    Ok(())
}

// ---- channels

fn channels_fault(channels: &[u32; 2816], n: usize) -> Result<(), Fault>
    ensures { Tested (table_checks 2 256 n (channel_checks channels.now)) result }
{
    if 256 < n {
        return Err(fault_at(2, 0, 1));
    }
    for i in 0..n {
        channel_fault(channels, i as u8)?;
    }
    Ok(())
}

fn channel_fault(channels: &[u32; 2816], i: u8) -> Result<(), Fault>
    ensures { Tested (channel_checks channels.now i) result }
{
    let at = i as usize;
    let rate = rate_at(channels, i);
    if rate < 1 {
        return Err(fault_at(2, at, 4));
    }
    if 10000000 < rate {
        return Err(fault_at(2, at, 4));
    }
    let f = channel_at(channels, i);
    if !known_family(f.family) {
        return Err(fault_at(2, at, 5));
    }
    if !good_group(f.family, f.group) {
        return Err(fault_at(2, at, 6));
    }
    if !good_source(f.family, f.sourced, f.source) {
        return Err(fault_at(2, at, 7));
    }
    if channel_of(channels, at, f).is_some() {
        return Err(fault_at(2, at, 3));
    }
    Ok(())
}

// ---- list entries

fn entries_fault(entries: &[u32; 1536], n: usize) -> Result<(), Fault>
    ensures { Tested (table_checks 3 128 n (entry_checks entries.now)) result }
{
    if 128 < n {
        return Err(fault_at(3, 0, 1));
    }
    for i in 0..n {
        entry_fault(entries, i)?;
    }
    Ok(())
}

fn entry_fault(entries: &[u32; 1536], i: usize) -> Result<(), Fault>
    requires { i < 128 }
    ensures { Tested (entry_checks entries.now i) result }
{
    let e = entry_at(entries, i);
    if !known_family(e.family) {
        return Err(fault_at(3, i, 5));
    }
    if !known_list(e.list) {
        return Err(fault_at(3, i, 8));
    }
    if !within_address(e.family, e.group_length) {
        return Err(fault_at(3, i, 9));
    }
    if !within_address(e.family, e.source_length) {
        return Err(fault_at(3, i, 10));
    }
    Ok(())
}
