#![tactic(auto)]

// The list entries, 128 rows of 12 words lent by the host, and what they decide for a flow.
// A row is family, list, group prefix length, source prefix length, group (4), source (4).
ghost use Rattle.std.specs.Prelude.{◌≡◌, [], ◌∷◌, ◌≤◌, ◌<◌};
ghost use Rattle.flows.specs.Words.{address_at};
ghost use Rattle.lists.specs.Prefix.{prefix_matches};
ghost use Rattle.lists.specs.EqualBits.{equal_bits, PrefixLaws};
ghost use Rattle.lists.specs.Lists.{entry_at, entry_matches, list_decision};
ghost use Rattle.lists.specs.Ranks.{strength_of, rank_of, decision_of};
ghost use Rattle.lists.specs.Laws.{Laws};

use flows::Flow;

// List numbers, as RFC 7256 has them.
pub const WHITE: u32 = 1;

pub const BLACK: u32 = 2;

pub const GREY: u32 = 3;

#[derive(Clone, Copy)]
pub struct Entry {
    pub family: u32,
    pub list: u32,
    pub group_length: u32,
    pub source_length: u32,
    pub group: [u32; 4],
    pub source: [u32; 4],
}

#[derive(Clone, Copy, PartialEq, Eq)]
pub enum Colour {
    White,
    Grey,
    Black,
}

// What an entry is compared by. The longer group prefix goes first; of equal ones the longer source prefix; of equal
// ones the stronger list. The strength is a number, and no Option<Colour>: with that 128 entries took 1.4 times as long.
#[derive(Clone, Copy, PartialEq, Eq, PartialOrd, Ord)]
struct Rank {
    group_length: u32,
    source_length: u32,
    strength: u32,
}

// ---- prefixes

// The address at this place of the table and another agree in as many leading bits as the prefix asks, word by word.
fn prefix_at(entries: &[u32; 1536], at: usize, b: [u32; 4], length: u32) -> bool
    requires { at ≤ 1532 }
    ensures { result ≡ prefix_matches length (address_at entries.now at) b }
{
    let mut left = length;
    for i in 0..4 {
        if !word_matches(entries[at + i], b[i], left) {
            return false;
        }
        if left <= 32 {
            return true;
        }
        left -= 32;
    }
    true
}

// The same of one word.
fn word_matches(a: u32, b: u32, length: u32) -> bool
    ensures { result ≡ prefix_matches length (a ∷ []) (b ∷ []) }
{
    if 32 <= length {
        return a == b;
    }
    let k = 32 - length;
    u64::from(a) >> k == u64::from(b) >> k
}

// The leading bits that two words have equal: a bit of the xor is 1 where the words differ, so these are its leading
// zeros. Owed here too: what comparing by them rests on.
fn equal_bits(a: u32, b: u32) -> u32
    ensures value { result ≡ equal_bits (a ∷ []) (b ∷ []) }
    ensures prefix_laws { PrefixLaws }
{
    u32::leading_zeros(a ^ b)
}

// ---- entries

pub fn entry_at(entries: &[u32; 1536], i: usize) -> Entry
    requires { i < 128 }
    ensures { result ≡ entry_at entries.now i }
{
    let at = i * 12;
    let g = at + 4;
    let s = at + 8;
    // The words by their places: a slice's try_into gives a Result, which here never fails.
    Entry {
        family: entries[at],
        list: entries[at + 1],
        group_length: entries[at + 2],
        source_length: entries[at + 3],
        group: [entries[g], entries[g + 1], entries[g + 2], entries[g + 3]],
        source: [entries[s], entries[s + 1], entries[s + 2], entries[s + 3]],
    }
}

// Entry i matches the flow. What keeps most entries from it, their group, is looked at first.
fn row_matches(entries: &[u32; 1536], i: usize, f: Flow) -> bool
    requires { i < 128 }
    ensures { result ≡ entry_matches (entry_at entries.now i) f }
{
    let at = i * 12;
    let g = at + 4;
    let fg = f.group;
    if !prefix_at(entries, g, fg, entries[at + 2]) {
        return false;
    }
    if entries[at] != f.family {
        return false;
    }
    if f.sourced == 0 {
        return entries[at + 3] == 0;
    }
    let s = at + 8;
    let fx = f.source;
    prefix_at(entries, s, fx, entries[at + 3])
}

// ---- the decision

// The matching entry of the highest rank decides, None where no entry matches. Most entries do not match, so that is
// tried first. Owed here too: what follows from the rule.
pub fn list_decision(entries: &[u32; 1536], n: usize, f: Flow) -> Option<Colour>
    ensures value { result ≡ list_decision entries.now n f }
    ensures laws { Laws }
{
    let rows = n.min(128);
    let mut best = Rank {
        group_length: 0,
        source_length: 0,
        strength: 0,
    };
    for i in 0..rows {
        if row_matches(entries, i, f) {
            let rank = rank_of(entry_at(entries, i));
            // An if, and no max: with max each turn copies best, also for the entries that do not match.
            if best < rank {
                best = rank;
            }
        }
    }
    decision_of(best.strength)
}

fn rank_of(e: Entry) -> Rank
    ensures { result ≡ rank_of e }
{
    Rank {
        group_length: e.group_length,
        source_length: e.source_length,
        strength: strength_of(e.list),
    }
}

// Black goes before grey, grey before white.
fn strength_of(list: u32) -> u32
    ensures { result ≡ strength_of list }
{
    match list {
        BLACK => 3,
        GREY => 2,
        WHITE => 1,
        _ => 0,
    }
}

// What a strength decides.
fn decision_of(strength: u32) -> Option<Colour>
    ensures { result ≡ decision_of strength }
{
    match strength {
        3 => Some(Colour::Black),
        2 => Some(Colour::Grey),
        1 => Some(Colour::White),
        _ => None,
    }
}
