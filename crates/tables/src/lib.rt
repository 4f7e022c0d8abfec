#![tactic(auto)]

// What start takes of its tables. What it does not take is number 14.
ghost use Rattle.std.specs.Prelude.{◌≡◌, ◌<◌, ◌*◌};
ghost use Rattle.flows.specs.Flows.{width};
ghost use Rattle.rows.specs.Rows.{rows_ok};
ghost use Rattle.tables.specs.Tables.{id_ok, channel_ok, known_list, within_address, entry_ok, entry_ok_at, tables_ok};

use channels::{channel_at, channel_of, rate_at};
use circuits::{id_at, port_of};
use flows::{good_flow, known_family, width};
use lists::{Entry, entry_at};
use rows::rows_ok;

pub fn tables_ok(
    ids: &[u8; 4096],
    ports: usize,
    channels: &[u32; 2816],
    channel_count: usize,
    entries: &[u32; 1536],
    entry_count: usize,
) -> bool
    ensures { result ≡ tables_ok ids.now ports channels.now channel_count entries.now entry_count }
{
    ids_ok(ids, ports) && channels_ok(channels, channel_count) && entries_ok(entries, entry_count)
}

// ---- circuit ids

fn ids_ok(ids: &[u8; 4096], n: usize) -> bool
    ensures { result ≡ rows_ok 64 n (id_ok ids.now) }
{
    rows_ok(64, n, |p| id_ok(ids, p as u8))
}

fn id_ok(ids: &[u8; 4096], p: u8) -> bool
    requires { p < 64 }
    ensures { result ≡ id_ok ids.now p }
{
    let length = ids[(p as usize) * 64];
    1 <= length && length <= 63 && port_of(ids, p as usize, id_at(ids, p)).is_none()
}

// ---- channels

fn channels_ok(channels: &[u32; 2816], n: usize) -> bool
    ensures { result ≡ rows_ok 256 n (channel_ok channels.now) }
{
    rows_ok(256, n, |i| channel_ok(channels, i as u8))
}

fn channel_ok(channels: &[u32; 2816], i: u8) -> bool
    ensures { result ≡ channel_ok channels.now i }
{
    let rate = rate_at(channels, i);
    let f = channel_at(channels, i);
    1 <= rate && rate <= 10000000 && good_flow(f) && channel_of(channels, i as usize, f).is_none()
}

// ---- list entries

fn entries_ok(entries: &[u32; 1536], n: usize) -> bool
    ensures { result ≡ rows_ok 128 n (entry_ok_at entries.now) }
{
    rows_ok(128, n, |i| entry_ok(entry_at(entries, i)))
}

fn entry_ok(e: Entry) -> bool
    ensures { result ≡ entry_ok e }
{
    known_family(e.family)
        && known_list(e.list)
        && within_address(e.family, e.group_length)
        && within_address(e.family, e.source_length)
}

pub fn known_list(list: u32) -> bool
    ensures { result ≡ known_list list }
{
    1 <= list && list <= 3
}

// A prefix is no longer than an address of the family.
pub fn within_address(family: u32, length: u32) -> bool
    ensures { result ≡ within_address family length }
{
    length <= bits_of(family)
}

// How many bits an address of the family has.
fn bits_of(family: u32) -> u32
    ensures { result ≡ 32 * width family }
{
    (32 * width(family)) as u32
}
