#![tactic(auto)]

// The worked cases (CARD.md) that the host's calls reach, played and compared with the file stdout. Each line gives
// what a call answered.
use flows::Flow;
use scenes::{Card, Prefix, Setting, Tables};
use std::fmt::Display;
use std::io;

const SETTING: Setting = Setting {
    ports: 64,
    channels: 20,
    entries: 3,
    white_cac: true,
    add_cac: false,
};

// 64 ports, named by one octet each; 20 IPv4 groups of rate 1000, the last of 1001; all white by 224.0.0.0/4 but two,
// which are grey and black.
fn filled() -> Tables {
    let mut tables = Tables::empty();
    for p in 0..64 {
        tables.name_port(p, &[p as u8]);
    }
    for k in 0..19 {
        tables.put_channel(k, flow(k as u8), 1000);
    }
    tables.put_channel(19, flow(19), 1001);
    let any = Prefix {
        address: 0,
        length: 0,
    };
    let all = Prefix {
        address: 0xE0000000,
        length: 4,
    };
    tables.put_entry(0, lists::WHITE, all, any);
    tables.put_entry(1, lists::GREY, only(18), any);
    tables.put_entry(2, lists::BLACK, only(17), any);
    tables
}

fn group(k: u8) -> u32 {
    0xE9FC0000 + u32::from(k)
}

fn only(k: u8) -> Prefix {
    Prefix {
        address: group(k),
        length: 32,
    }
}

// Channel k: a group without a source.
fn flow(k: u8) -> Flow {
    Flow {
        family: 1,
        sourced: 0,
        group: [group(k), 0, 0, 0],
        source: [0; 4],
    }
}

fn say<P: Print, N: Display + Drop>(rt: &P, what: &str, n: N) -> io::Result<()> {
    println!(rt; "{what} {n}")
}

// Port p up, with this delegation.
fn open(card: &mut Card, p: usize, delegation: u32) {
    card.up(p);
    card.set_delegation(p, delegation);
}

// Channels 0 to n - 1 join on port p.
fn fill(card: &mut Card, p: usize, n: u8) {
    for k in 0..n {
        card.join(p, flow(k));
    }
}

fn say_figures<P: Print>(rt: &P, card: &Card, p: usize) -> io::Result<()> {
    say(rt, "committed", card.committed(p))?;
    say(rt, "delegation", card.delegation(p))?;
    say(rt, "extras", card.extras())
}

// Delegation 4000, committed 3000: rate 1000 starts, 1001 gives 4; and the other numbers of join and leave.
fn admission<P: Print>(rt: &P, tables: &Tables) -> io::Result<()> {
    let (mut card, _) = Card::start(tables, SETTING, 1);
    say(rt, "join on a down port", card.join(0, flow(0)))?;
    open(&mut card, 0, 4000);
    fill(&mut card, 0, 3);
    say(rt, "1001 at 3000 of 4000", card.join(0, flow(19)))?;
    say(rt, "1000 at 3000 of 4000", card.join(0, flow(3)))?;
    say(rt, "an active flow", card.join(0, flow(3)))?;
    say(rt, "a channel not listed", card.join(0, flow(20)))?;
    say(rt, "a black channel", card.join(0, flow(17)))?;
    say(rt, "a grey channel", card.join(0, flow(18)))?;
    say(rt, "no such port", card.join(64, flow(0)))?;
    say(
        rt,
        "delegation under committed",
        card.set_delegation(0, 3999),
    )?;
    say(rt, "leave", card.leave(0, flow(3)))?;
    say(rt, "leave again", card.leave(0, flow(3)))?;
    let bad = Flow {
        family: 3,
        sourced: 0,
        group: [0; 4],
        source: [0; 4],
    };
    say(rt, "leave of a bad address", card.leave(0, bad))?;
    say_figures(rt, &card, 0)?;
    say(rt, "port down", card.down(0))?;
    say(rt, "port up", card.up(0))?;
    say_figures(rt, &card, 0)
}

// 256 extras: a fourth flow starts, a fifth gives 5. 255 extras: a fifth starts. A 17th never does.
fn room<P: Print>(rt: &P, tables: &Tables) -> io::Result<()> {
    let (mut card, _) = Card::start(tables, SETTING, 1);
    for p in 0..34 {
        open(&mut card, p, 100000);
    }
    fill(&mut card, 0, 16);
    say(rt, "a 17th flow", card.join(0, flow(16)))?;
    for p in 1..32 {
        fill(&mut card, p, 12);
    }
    fill(&mut card, 33, 3);
    say(rt, "extras", card.extras())?;
    say(rt, "a fourth flow", card.join(33, flow(3)))?;
    say(rt, "a fifth flow", card.join(33, flow(4)))?;
    say(rt, "leave on another port", card.leave(1, flow(0)))?;
    say(rt, "a fifth flow at 255 extras", card.join(33, flow(4)))?;
    say(rt, "extras", card.extras())
}

// Transaction 16,777,215 is followed by 1; and the numbers of ask and start.
fn transactions<P: Print>(rt: &P, tables: &Tables) -> io::Result<()> {
    let (mut card, _) = Card::start(tables, SETTING, 16777215);
    open(&mut card, 0, 100);
    open(&mut card, 1, 100);
    say(rt, "next", card.next_number())?;
    say(rt, "ask for what is there", card.ask(0, 100, 200))?;
    say(rt, "ask", card.ask(0, 101, 200))?;
    say(rt, "next", card.next_number())?;
    say(rt, "ask again", card.ask(0, 101, 200))?;
    say(rt, "ask on another port", card.ask(1, 101, 200))?;
    say(rt, "next", card.next_number())?;
    small_buffers(rt, &mut card)?;
    let (_, none) = Card::start(tables, SETTING, 0);
    say(rt, "start with transaction 0", none)?;
    let many = Setting {
        ports: 65,
        ..SETTING
    };
    let (_, number) = Card::start(tables, many, 1);
    say(rt, "start with 65 ports", number)?;
    say(rt, "next", card.next_number())
}

// Calls with a reply buffer that is one octet too small; the message is a Delegated Bandwidth Query (148) for port 1.
fn small_buffers<P: Print>(rt: &P, card: &mut Card) -> io::Result<()> {
    let query =
        b"\x88\x0C\x00\x18\x32\x94\x20\x00\x00\x00\x00\x07\x80\x01\x00\x18\x10\x00\x00\x08\x00\x01\x00\x01\x01\x00\x00\x00";
    let mut small = [0; 4607];
    let ask = calls::on_port(calls::ASK, 1, 101, 200);
    let asked = card.call(ask, &[], &mut small);
    say(rt, "ask with a small buffer", asked.number)?;
    let told = card.message(query, &mut small);
    say(rt, "a message with a small buffer", told.number)
}

fn main(rt: HostRuntime) -> io::Result<()> {
    let tables = filled();
    admission(&rt, &tables)?;
    room(&rt, &tables)?;
    transactions(&rt, &tables)
}
