// The cards of the starred cases, reached by the host's calls: the tables and cards of starred/specs/Givens.antt.
use flows::Flow;
use scenes::{Card, Prefix, Setting, Tables};

const SETTING: Setting = Setting {
    ports: 64,
    channels: 22,
    entries: 1,
    white_cac: true,
    add_cac: true,
};

// 64 ports, the circuit id of port p being the one octet p; one list entry, by which every IPv4 group is white.
// Channels 0 to 16 have rate 100.
pub fn filled() -> Tables {
    let mut tables = Tables::empty();
    for p in 0..64 {
        tables.name_port(p, &[p as u8]);
    }
    for k in 0..17 {
        tables.put_channel(k, flow(k as u8), 100);
    }
    tables.put_channel(17, flow(17), 1000);
    tables.put_channel(18, flow(18), 1001);
    tables.put_channel(19, flow(19), 1200);
    tables.put_channel(20, flow(20), 1800);
    tables.put_channel(21, flow(21), 500);
    let any = Prefix {
        address: 0,
        length: 0,
    };
    tables.put_entry(0, lists::WHITE, any, any);
    tables
}

// Channel k is the group 239.0.0.k, without a source.
pub fn flow(k: u8) -> Flow {
    Flow {
        family: 1,
        sourced: 0,
        group: [0xEF000000 + u32::from(k), 0, 0, 0],
        source: [0; 4],
    }
}

// A fresh card with both switches on, then every port up with this delegation.
fn opened(tables: &Tables, first: u32, delegation: u32) -> Card<'_> {
    let (mut card, _) = Card::start(tables, SETTING, first);
    for p in 0..64 {
        card.up(p);
        card.set_delegation(p, delegation);
    }
    card
}

// Channels 0 to n - 1 on port p.
fn join_many(card: &mut Card, p: usize, n: u8) {
    for k in 0..n {
        card.join(p, flow(k));
    }
}

// Delegation 4000, committed 3000: port 0 has flows of 1200 and 1800, port 1 one of 1200.
pub fn committed3000(tables: &Tables) -> Card<'_> {
    let mut card = opened(tables, 1, 4000);
    card.join(0, flow(19));
    card.join(0, flow(20));
    card.join(1, flow(19));
    card
}

// Delegation 6000, committed 3500: port 0 has flows of 1200, 1800 and 500, port 1 one of 1200.
pub fn committed3500(tables: &Tables, first: u32) -> Card<'_> {
    let mut card = opened(tables, first, 6000);
    card.join(0, flow(19));
    card.join(0, flow(20));
    card.join(0, flow(21));
    card.join(1, flow(19));
    card
}

// Port 0 has n flows, so many of the next ports have 16, with 12 extras each, and the one after them has m.
pub fn crowded(tables: &Tables, n: u8, full: u8, m: u8) -> Card<'_> {
    let mut card = opened(tables, 1, 4000);
    join_many(&mut card, 0, n);
    for p in 0..usize::from(full) {
        join_many(&mut card, p + 1, 16);
    }
    join_many(&mut card, usize::from(full) + 1, m);
    card
}
