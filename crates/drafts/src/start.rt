// The state in which the examples are played: ports, channels and lists of the sources.
use flows::Flow;
use scenes::{Card, Prefix, Setting, Tables};

pub fn filled() -> Tables {
    let mut tables = Tables::empty();
    put_ids(&mut tables);
    put_channels(&mut tables);
    put_entries(&mut tables);
    tables
}

// Four ports, White-List-CAC on, MRepCtl-CAC as asked, first transaction number 1.
pub fn ready(tables: &Tables, add_cac: bool) -> Card<'_> {
    let setting = Setting {
        ports: 4,
        channels: 11,
        entries: 5,
        white_cac: true,
        add_cac,
    };
    let (mut card, _) = Card::start(tables, setting, 1);
    for p in 0..4 {
        card.up(p);
    }
    card.set_delegation(0, 2000);
    card
}

fn put_ids(tables: &mut Tables) {
    tables.name_port(0, b"p001");
    tables.name_port(1, b"port10");
    tables.name_port(2, b"port20");
    tables.name_port(3, b"port11");
}

// Each channel has a rate of 2000 kbit/s.
fn put_channels(tables: &mut Tables) {
    let flows = [
        ipv6(2, 1),
        ipv6(3, 2),
        ipv4(0xE9FC0043, Some(0xC0000215)),
        ipv4(0xE9FC0064, None),
        ipv4(0xE9FC0004, Some(0xC0000201)),
        ipv4(0xE9FC000A, Some(0xC0000202)),
        ipv4(0xE9FC0041, Some(0xC0000215)),
        ipv4(0xE9FC0042, Some(0xC0000263)),
        ipv4(0xE9FC0001, Some(0xC000020F)),
        ipv4(0xE9FC0002, Some(0xC000020F)),
        ipv4(0xE9FC0021, Some(0xC0000210)),
    ];
    for (k, flow) in flows.iter().enumerate() {
        tables.put_channel(k, *flow, 2000);
    }
}

pub fn ipv4(group: u32, source: Option<u32>) -> Flow {
    Flow {
        family: 1,
        sourced: u32::from(source.is_some()),
        group: [group, 0, 0, 0],
        source: [source.unwrap_or(0), 0, 0, 0],
    }
}

// The group FF34::group from the source 2001:DB8::source.
fn ipv6(group: u32, source: u32) -> Flow {
    Flow {
        family: 2,
        sourced: 1,
        group: [0xFF340000, 0, 0, group],
        source: [0x20010DB8, 0, 0, source],
    }
}

// White, grey and black, as a provisioning example has them; each source prefix is 32 bits long.
fn put_entries(tables: &mut Tables) {
    let entries = [
        (lists::WHITE, 29, 0xE9FC0000, 0xC000020F),
        (lists::WHITE, 29, 0xE9FC0020, 0xC000020F),
        (lists::GREY, 29, 0xE9FC0040, 0xC0000215),
        (lists::BLACK, 32, 0xE9FC0041, 0xC0000215),
        (lists::BLACK, 32, 0xE9FC0045, 0xC0000215),
    ];
    for (i, (list, length, group, source)) in entries.iter().enumerate() {
        let group = Prefix {
            address: *group,
            length: *length,
        };
        let source = Prefix {
            address: *source,
            length: 32,
        };
        tables.put_entry(i, *list, group, source);
    }
}
