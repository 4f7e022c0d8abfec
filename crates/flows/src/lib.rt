#![tactic(auto)]

// A flow: family, group, and source or none (CARD.md, "Flows and lists"): equality, good addresses, order.
ghost use Rattle.std.specs.Prelude.{◌≡◌, refl, ◌≤◌};
ghost use Rattle.std.specs.Cmp.{po};
ghost use Rattle.std.specs.Ordering.{as_partial_cmp};
ghost use Rattle.flows.specs.Words.{zero_from};
ghost use Rattle.flows.specs.Flows.{same_flow, known_family, width, is_group, in_width, good_group, good_source, good_flow, flow_order, flow_before};
ghost use Rattle.flows.specs.Laws.{flow_total, flow_ties};

use std::cmp::Ordering;

pub const IPV4: u32 = 1;

pub const IPV6: u32 = 2;

// What the host hands in, a message names and a channel has. An address is four words, the highest first; IPv4 has the
// first and the others zero. `sourced` is 1 where there is a source and 0 where there is none. The fields hold anything:
// `good_flow` tells which of their values are a flow's.
#[repr(C)]
#[derive(Clone, Copy, PartialEq, Eq)]
pub struct Flow {
    pub family: u32,
    pub sourced: u32,
    pub group: [u32; 4],
    pub source: [u32; 4],
}

// `==` in the words of specs/, which the theorems above speak in.
pub fn same_flow(a: Flow, b: Flow) -> bool
    ensures { result ≡ same_flow a b }
{
    a == b
}

// ---- good addresses: what is not good gets number 8 from the host, 0x65 in a command, and 14 in a table

pub fn good_flow(f: Flow) -> bool
    ensures { result ≡ good_flow f }
{
    known_family(f.family)
        && good_group(f.family, f.group)
        && good_source(f.family, f.sourced, f.source)
}

pub fn known_family(family: u32) -> bool
    ensures { result ≡ known_family family }
{
    family == IPV4 || family == IPV6
}

pub fn good_group(family: u32, group: [u32; 4]) -> bool
    ensures { result ≡ good_group family group }
{
    is_group(family, group) && in_width(family, group)
}

pub fn good_source(family: u32, sourced: u32, source: [u32; 4]) -> bool
    ensures { result ≡ good_source family sourced source }
{
    match sourced {
        0 => zero_from(source, 0),
        1 => in_width(family, source) && !zero_from(source, 0) && !is_group(family, source),
        _ => false,
    }
}

// How many words an address of the family has.
pub fn width(family: u32) -> usize
    ensures value { result ≡ width family }
    ensures lower_bound { (1 ≤ result) × (result ≤ 4) }
{
    if family == IPV4 { 1 } else { 4 }
}

// The first bits say whether an address is a group.
fn is_group(family: u32, address: [u32; 4]) -> bool
    ensures { result ≡ is_group family address }
{
    if family == IPV4 {
        return address[0] >> 28 == 14;
    }
    address[0] >> 24 == 255
}

fn in_width(family: u32, address: [u32; 4]) -> bool
    ensures { result ≡ in_width family address }
{
    zero_from(address, width(family))
}

// ---- order

// By family, group and source, none first. A derive would compare the fields in C's order, the mark before the group.
impl Ord for Flow {
    ghost cmp = { flow_order };

    ghost total = { flow_total };

    ghost matches_partial_cmp = { λ a b. refl };

    ghost matches_eq = { flow_ties };

    fn cmp(&self, other: &Flow) -> Ordering {
        let families = self.family.cmp(&other.family);
        let groups = self.group.cmp(&other.group);
        let marks = self.sourced.cmp(&other.sourced);
        let sources = self.source.cmp(&other.source);
        families.then(groups).then(marks).then(sources)
    }
}

impl PartialOrd for Flow {
    ghost partial_cmp = { as_partial_cmp flow_order };

    ghost laws = { po flow_total flow_ties };

    fn partial_cmp(&self, other: &Flow) -> Option<Ordering> {
        Some(self.cmp(other))
    }
}

// `<` in the words of specs/.
pub fn flow_before(a: Flow, b: Flow) -> bool
    ensures { result ≡ flow_before a b }
{
    a < b
}

// The words from a place on are zero.
fn zero_from(address: [u32; 4], from: usize) -> bool
    ensures { result ≡ zero_from from address }
{
    address.iter().skip(from).all(|word| *word == 0)
}
