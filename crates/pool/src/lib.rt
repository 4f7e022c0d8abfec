#![tactic(auto)]

// The 512 flow records: which port each belongs to, its channel, whether it is charged, and its accounting.
// No figure is stored: counts, extras and committed amounts are read off the records.
ghost use Rattle.std.specs.Prelude.{◌≡◌, ℕ, ◌+◌, ◌<◌, ◌≤◌, false, List, []};
ghost use Rattle.std.specs.Iterator.{item_count};
ghost use Rattle.memchr.specs.Find.{TakesFirst, is_byte, places_between};
ghost use Rattle.sums.specs.Sums.{map_to};
ghost use Rattle.channels.specs.Channels.{is_row};
ghost use Rattle.pool.specs.Pool.{Next, records_in, count_in, committed_in, active_in, active_where, extras_in, free_in, room_in, fresh_pool, began, has_flow, is_active, ended_flow, ended_all, accounted, rows_in, as_rows, no_state, state_in};

use channels::{channel_at, rate_at};
use flows::{Flow, same_flow};
use memchr::memchr;
use std::marker::Model;

// No port has this number: a record with it as its owner is free.
pub const FREE: u8 = 255;

// Record i is what stands at i in each map. A freed record keeps all but its owner until it serves again.
#[repr(C)]
#[derive(Clone, Copy)]
pub struct Pool {
    pub owner: [u8; 512],
    pub channel: [u8; 512],
    pub charged: [bool; 512],
    pub accounting: [u8; 512],
}

// The channels of a port's flows: the first `count` of `rows`, and zeros after them.
#[repr(C)]
#[derive(Clone, Copy)]
pub struct Rows {
    pub count: usize,
    pub rows: [u8; 16],
}

impl Rows {
    pub fn none() -> Rows
        ensures { result ≡ as_rows [] }
    {
        Rows {
            count: 0,
            rows: [0; 16],
        }
    }
}

// What a port's flow of a channel has: its charge and its accounting. Where it is not active they are false and 0.
#[repr(C)]
#[derive(Clone, Copy, Default)]
pub struct FlowState {
    pub active: bool,
    pub charged: bool,
    pub accounting: u8,
}

impl FlowState {
    pub fn none() -> FlowState
        ensures { result ≡ no_state }
    {
        FlowState::default()
    }
}

impl Pool {
    pub fn fresh() -> Pool
        ensures { result ≡ fresh_pool }
    {
        Pool {
            owner: [FREE; 512],
            channel: [0u8; 512],
            charged: [false; 512],
            accounting: [0u8; 512],
        }
    }

    // A flow begins in the first free record. Where none is free nothing begins: `has_room` is asked first.
    pub fn begin(&mut self, p: u8, k: u8, c: bool, a: u8)
        ensures { self.new ≡ began self.old p k c a }
    {
        let i = free_of(&self.owner);
        if 512 <= i {
            return;
        }
        self.owner[i] = p;
        self.channel[i] = k;
        self.charged[i] = c;
        self.accounting[i] = a;
    }

    // Leave and Delete: the port's flow with this address ends, whoever began it. The answer is whether there was one.
    // `while`, and no iterator: the walk writes the map that it reads, which an iterator would hold borrowed.
    pub fn end(&mut self, channels: &[u32; 2816], p: u8, f: Flow) -> bool
        ensures was { result ≡ has_flow channels.now self.old p f }
        ensures ends { self.new ≡ ended_flow channels.now self.old p f }
        ensures none { result ≡ false → self.new ≡ self.old }
    {
        let mut found = false;
        let mut i = next_of(&self.owner, p, 0);
        while i < 512 {
            if same_flow(channel_at(channels, self.channel[i]), f) {
                self.owner[i] = FREE;
                found = true;
            }
            i = next_of(&self.owner, p, i + 1);
        }
        found
    }

    // Delete All, and port down. `while` as in `end`.
    pub fn end_all(&mut self, p: u8)
        ensures { self.new ≡ ended_all self.old p }
    {
        let mut at = next_of(&self.owner, p, 0);
        while at < 512 {
            self.owner[at] = FREE;
            at = next_of(&self.owner, p, at + 1);
        }
    }

    // An Add of an active flow: neither charge nor room is touched. The answer is whether it is active.
    pub fn account(&mut self, p: u8, k: u8, value: u8) -> bool
        ensures is { result ≡ is_active self.old p k }
        ensures sets { self.new ≡ accounted self.old p k value }
        ensures none { result ≡ false → self.new ≡ self.old }
    {
        let mut found = false;
        let mut at = next_of(&self.owner, p, 0);
        while at < 512 {
            if self.channel[at] == k {
                self.accounting[at] = value;
                found = true;
            }
            at = next_of(&self.owner, p, at + 1);
        }
        found
    }
}

// ---- figures, read off maps that are lent

// A port's records from record `at` on, seen as the list of their numbers.
#[derive(Drop)]
struct PortRecords<'a> {
    owner: &'a [u8; 512],
    p: u8,
    at: usize,
}

impl<'a> Model for PortRecords<'a> {
    ghost Value = { List ℕ };

    ghost view = { λ it. places_between (is_byte it.p) it.owner.now it.at 512 };

    ghost invariant = { λ it. it.at ≤ 512 };
}

impl<'a> Iterator for PortRecords<'a> {
    type Item = usize;

    ghost next_gives = { TakesFirst };

    ghost remaining = { item_count (λ rest. rest) };

    fn next(&mut self) -> Option<usize> {
        let i = next_of(self.owner, self.p, self.at);
        if 512 <= i {
            self.at = 512;
            return None;
        }
        self.at = i + 1;
        Some(i)
    }
}

// All of the port's records, in order.
fn records<'a>(owner: &'a [u8; 512], p: u8) -> PortRecords<'a>
    ensures { result ≡ records_in owner.now p }
{
    PortRecords { owner, p, at: 0 }
}

// How many flows the port has.
pub fn active_count(owner: &[u8; 512], p: u8) -> usize
    ensures { result ≡ count_in owner.now p }
{
    records(owner, p).count()
}

// The port has the flow of channel k.
pub fn is_active<'a>(owner: &'a [u8; 512], channel: &'a [u8; 512], p: u8, k: u8) -> bool
    ensures { result ≡ active_in owner.now channel.now p k }
{
    for i in records(owner, p) {
        if channel[i] == k {
            return true;
        }
    }
    false
}

// What the port's flow of channel k has.
pub fn state_of<'a>(
    owner: &'a [u8; 512],
    channel: &'a [u8; 512],
    charged: &'a [bool; 512],
    accounting: &'a [u8; 512],
    p: u8,
    k: u8,
) -> FlowState
    ensures state { result ≡ state_in owner.now channel.now charged.now accounting.now p k }
    ensures active { result.active ≡ active_in owner.now channel.now p k }
{
    for i in records(owner, p) {
        if channel[i] == k {
            return FlowState {
                active: true,
                charged: charged[i],
                accounting: accounting[i],
            };
        }
    }
    FlowState::none()
}

// The rates of the port's charged flows.
pub fn committed_of<'a>(
    channels: &[u32; 2816],
    owner: &'a [u8; 512],
    channel: &'a [u8; 512],
    charged: &'a [bool; 512],
    p: u8,
) -> u64
    ensures { result ≡ committed_in channels.now owner.now channel.now charged.now p }
{
    let mut sum: u64 = 0;
    for i in records(owner, p) {
        if charged[i] {
            sum += u64::from(rate_at(channels, channel[i]));
        }
    }
    sum
}

// The channels of the port's flows, in the order of the records.
pub fn rows_of<'a>(owner: &'a [u8; 512], channel: &'a [u8; 512], p: u8) -> Rows
    ensures { result ≡ as_rows (rows_in owner.now channel.now p) }
{
    let mut found = Rows::none();
    for i in records(owner, p).take(16) {
        found.rows[found.count] = channel[i];
        found.count += 1;
    }
    found
}

// ---- room

// The rule asks for the extras only from the fifth flow on.
pub fn has_room(owner: &[u8; 512], p: u8) -> bool
    ensures { result ≡ room_in owner.now p }
{
    let i = free_of(owner);
    if 512 <= i {
        return false;
    }
    let n = active_count(owner, p);
    n < 4 || n < 16 && extras_of(owner) < 256
}

// The flows of all ports beyond each one's fourth.
pub fn extras_of(owner: &[u8; 512]) -> usize
    ensures { result ≡ extras_in owner.now }
{
    let mut e: usize = 0;
    for n in counts_of(owner) {
        e += usize::from(n.saturating_sub(4));
    }
    e
}

// The count of each port, in one pass over the records.
fn counts_of(owner: &[u8; 512]) -> [u16; 64]
    ensures { result ≡ map_to 64 (count_in owner.now) }
{
    let mut counts = [0u16; 64];
    for p in owner {
        let p = usize::from(*p);
        if p < 64 {
            counts[p] += 1;
        }
    }
    counts
}

// The first free record, or 512: no option, since `free_in` has that number where none is free, and `began` and
// `room_in` stand on it.
fn free_of(owner: &[u8; 512]) -> usize
    ensures { result ≡ free_in owner.now }
{
    next_of(owner, FREE, 0)
}

// The port's first record from `from` on, or 512.
fn next_of(owner: &[u8; 512], p: u8, from: usize) -> usize
    requires { from ≤ 512 }
    ensures { Next owner.now p from result }
{
    // Flows of a port often stand together: the record at hand is looked at before the search.
    if from < 512 && owner[from] == p {
        return from;
    }
    match memchr(p, &owner[from..]) {
        Some(i) => from + i,
        None => 512,
    }
}
