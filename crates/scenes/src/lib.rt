#![tactic(auto)]

// What the programs play: the tables that a host lends with every call, written row by row, and a card with them.
ghost use Rattle.std.specs.Prelude.{◌≡◌, ◌+◌, ◌*◌, ◌<◌, ◌≤◌, [], length};
ghost use Rattle.card.specs.Cards.{no_areas, core_of};
ghost use Rattle.card.specs.Figures.{delegation_of, committed_at};
ghost use Rattle.card.specs.Start.{start_of};
ghost use Rattle.demand3.specs.Calls.Call.{port_up, port_down, set_delegation, join, leave, ask, message};
ghost use Rattle.pool.specs.Pool.{count_in, extras_in};
ghost use Rattle.listing.specs.Listing.{active_at};
ghost use Rattle.calls.specs.Calls.{call_of, CallGives};
ghost use Rattle.scenes.specs.Scenes.{no_rows, with_id, with_channel, with_entry, whole, comes_to, Gives};

use calls::HostCall;
use card::Core;
use flows::Flow;

#[derive(Clone, Copy)]
pub struct Tables {
    pub ids: [u8; 4096],
    pub channels: [u32; 2816],
    pub entries: [u32; 1536],
}

// The leading bits of an IPv4 address.
#[derive(Clone, Copy)]
pub struct Prefix {
    pub address: u32,
    pub length: u32,
}

impl Tables {
    pub fn empty() -> Tables
        ensures { result ≡ no_rows }
    {
        Tables {
            ids: [0; 4096],
            channels: [0; 2816],
            entries: [0; 1536],
        }
    }

    // Port p's circuit id.
    pub fn name_port(&mut self, p: usize, id: &[u8])
        requires port { p < 64 }
        requires room { length id.now < 64 }
        ensures { self.new ≡ record self.old { ids = with_id self.old.ids (p * 64) id.now } }
    {
        let row = p * 64;
        self.ids[row] = id.len() as u8;
        self.ids[row + 1..row + 1 + id.len()].copy_from_slice(id);
    }

    // Channel k: its flow, and its rate in kbit/s.
    pub fn put_channel(&mut self, k: usize, flow: Flow, rate: u32)
        requires { k < 256 }
        ensures { self.new ≡ record self.old { channels = with_channel self.old.channels (k * 11) flow rate } }
    {
        let row = k * 11;
        self.channels[row..row + 3].copy_from_slice(&[flow.family, flow.sourced, rate]);
        self.channels[row + 3..row + 7].copy_from_slice(&flow.group);
        self.channels[row + 7..row + 11].copy_from_slice(&flow.source);
    }

    // Entry i: the list of the flows with these prefixes.
    pub fn put_entry(&mut self, i: usize, list: u32, group: Prefix, source: Prefix)
        requires { i < 128 }
        ensures { self.new ≡ record self.old { entries = with_entry self.old.entries (i * 12) list group source } }
    {
        let row = i * 12;
        let [g, s] = [group, source];
        self.entries[row..row + 12].copy_from_slice(&[
            1, list, g.length, s.length, g.address, 0, 0, 0, s.address, 0, 0, 0,
        ]);
    }
}

// How many ports, channels and entries the tables have, and the switches of White-List-CAC and MRepCtl-CAC.
#[derive(Clone, Copy)]
pub struct Setting {
    pub ports: usize,
    pub channels: usize,
    pub entries: usize,
    pub white_cac: bool,
    pub add_cac: bool,
}

// A card, and the tables that are lent to it.
#[derive(Clone, Copy)]
pub struct Card<'a> {
    tables: &'a Tables,
    core: Core,
}

// What a call answers: its number, and how many octets of reply are written.
#[derive(Clone, Copy)]
pub struct Answer {
    pub number: u8,
    pub length: usize,
}

impl<'a> Card<'a> {
    // The card that a start gives, and its number.
    pub fn start(tables: &'a Tables, setting: Setting, first: u32) -> (Card<'a>, u8)
        ensures starts { let s = start_of tables.now.ids setting.ports tables.now.channels setting.channels tables.now.entries setting.entries setting.white_cac setting.add_cac first in (result.0.core ≡ core_of s.card) × (result.1 ≡ s.number) }
        ensures tables { result.0.tables.now ≡ tables.now }
    {
        let fresh = card::start(
            &tables.ids,
            setting.ports,
            &tables.channels,
            setting.channels,
            &tables.entries,
            setting.entries,
            setting.white_cac,
            setting.add_cac,
            first,
        );
        let card = Card {
            tables,
            core: fresh.core,
        };
        (card, fresh.number)
    }

    // Any call.
    pub fn call(&mut self, call: HostCall, octets: &[u8], reply: &mut [u8]) -> Answer
        ensures call { CallGives (comes_to self.old.tables.now self.old.core (call_of call octets.now (length reply.old))) (record { core = self.new.core; number = result.number; length = result.length }) no_areas reply.old reply.new }
        ensures room { result.length ≤ length reply.new }
        ensures tables { self.new.tables.now ≡ self.old.tables.now }
    {
        let t = self.tables;
        let done = calls::call(
            self.core,
            &t.ids,
            &t.channels,
            &t.entries,
            call,
            octets,
            reply,
        );
        self.core = done.core;
        Answer {
            number: done.number,
            length: done.length,
        }
    }

    #[tactic(auto, unfolding(calls::specs::Calls::call_of))]
    pub fn message(&mut self, octets: &[u8], reply: &mut [u8]) -> Answer
        ensures call { CallGives (comes_to self.old.tables.now self.old.core (message octets.now (length reply.old))) (record { core = self.new.core; number = result.number; length = result.length }) no_areas reply.old reply.new }
        ensures room { result.length ≤ length reply.new }
        ensures tables { self.new.tables.now ≡ self.old.tables.now }
    {
        self.call(calls::on_port(calls::MESSAGE, 0, 0, 0), octets, reply)
    }

    // A call without octets, whose reply is not looked at; its number.
    fn numbered(&mut self, call: HostCall) -> u8
        ensures call { Gives (comes_to self.old.tables.now self.old.core (call_of call [] 4608)) self.new.core result }
        ensures tables { self.new.tables.now ≡ self.old.tables.now }
    {
        let mut reply = [0u8; 4608];
        self.call(call, &[], &mut reply).number
    }

    #[tactic(auto, unfolding(calls::specs::Calls::call_of, calls::specs::Calls::hosted))]
    pub fn up(&mut self, p: usize) -> u8
        ensures call { Gives (comes_to self.old.tables.now self.old.core (port_up p)) self.new.core result }
        ensures tables { self.new.tables.now ≡ self.old.tables.now }
    {
        self.numbered(calls::on_port(calls::PORT_UP, p, 0, 0))
    }

    #[tactic(auto, unfolding(calls::specs::Calls::call_of, calls::specs::Calls::hosted))]
    pub fn down(&mut self, p: usize) -> u8
        ensures call { Gives (comes_to self.old.tables.now self.old.core (port_down p)) self.new.core result }
        ensures tables { self.new.tables.now ≡ self.old.tables.now }
    {
        self.numbered(calls::on_port(calls::PORT_DOWN, p, 0, 0))
    }

    #[tactic(auto, unfolding(calls::specs::Calls::call_of, calls::specs::Calls::hosted))]
    pub fn set_delegation(&mut self, p: usize, amount: u32) -> u8
        ensures call { Gives (comes_to self.old.tables.now self.old.core (set_delegation p amount)) self.new.core result }
        ensures tables { self.new.tables.now ≡ self.old.tables.now }
    {
        self.numbered(calls::on_port(calls::SET_DELEGATION, p, amount, 0))
    }

    #[tactic(auto, unfolding(calls::specs::Calls::call_of, calls::specs::Calls::hosted))]
    pub fn join(&mut self, p: usize, flow: Flow) -> u8
        ensures call { Gives (comes_to self.old.tables.now self.old.core (join p flow 4608)) self.new.core result }
        ensures tables { self.new.tables.now ≡ self.old.tables.now }
    {
        self.numbered(calls::on_flow(calls::JOIN, p, flow))
    }

    #[tactic(auto, unfolding(calls::specs::Calls::call_of, calls::specs::Calls::hosted))]
    pub fn leave(&mut self, p: usize, flow: Flow) -> u8
        ensures call { Gives (comes_to self.old.tables.now self.old.core (leave p flow)) self.new.core result }
        ensures tables { self.new.tables.now ≡ self.old.tables.now }
    {
        self.numbered(calls::on_flow(calls::LEAVE, p, flow))
    }

    #[tactic(auto, unfolding(calls::specs::Calls::call_of, calls::specs::Calls::hosted))]
    pub fn ask(&mut self, p: usize, required: u32, preferred: u32) -> u8
        ensures call { Gives (comes_to self.old.tables.now self.old.core (ask p required preferred 4608)) self.new.core result }
        ensures tables { self.new.tables.now ≡ self.old.tables.now }
    {
        self.numbered(calls::on_port(calls::ASK, p, required, preferred))
    }

    // ---- what is read of the card

    pub fn delegation(&self, p: usize) -> u32
        ensures { result ≡ delegation_of (whole self.now.core) p }
    {
        let x = self.core.ports[card::slot(p)];
        readers::delegation(x, self.core.head.port_count, p)
    }

    pub fn committed(&self, p: usize) -> u64
        ensures { result ≡ committed_at self.now.tables.now.channels (whole self.now.core) p }
    {
        let pool = &self.core.pool;
        let count = self.core.head.port_count;
        readers::committed(
            &pool.owner,
            &pool.channel,
            &pool.charged,
            &self.tables.channels,
            count,
            p,
        )
    }

    pub fn is_active(&self, p: usize, flow: Flow) -> bool
        ensures { result ≡ active_at self.now.tables.now.channels (whole self.now.core) p flow }
    {
        let pool = &self.core.pool;
        let head = self.core.head;
        readers::is_active(
            &pool.owner,
            &pool.channel,
            &self.tables.channels,
            head.port_count,
            head.channel_count,
            p,
            flow,
        )
    }

    // How many flows are active on port p, and how many extras all ports have.
    pub fn flow_count(&self, p: u8) -> usize
        ensures { result ≡ count_in self.now.core.pool.owner p }
    {
        pool::active_count(&self.core.pool.owner, p)
    }

    pub fn extras(&self) -> usize
        ensures { result ≡ extras_in self.now.core.pool.owner }
    {
        pool::extras_of(&self.core.pool.owner)
    }

    // The next transaction number.
    pub fn next_number(&self) -> u32
        ensures { result ≡ self.now.core.head.counter.number }
    {
        self.core.head.counter.number
    }
}
