#![tactic(auto)]

// What each message type asks, by its type: its Results, its transaction number, the TLVs that its rules name; which of
// these are missing, and from which on one is at fault.
ghost use Rattle.std.specs.Prelude.{◌≡◌, ◌==◌, cond, not, ◌&&◌, ◌||◌, [], ◌∷◌, ◌≤◌, ◌<◌, length, eqb, ltb, position};
ghost use Rattle.octets.specs.Writing.{Wrote};
ghost use Rattle.items.specs.Items.{items_of, count_of};
ghost use Rattle.rules.specs.Rules.{handled, result_ok, transaction_ok, rules_of};
ghost use Rattle.rules.specs.declared.Rule.{Rule};
ghost use Rattle.rules.specs.Named.{lacks, missing, bares, content_ok, from_fault, HasExtent};

use fields::{ALLOCATION, COMMAND, REQUEST, TARGET};
use items::Tlvs;
use tlv::First;

// The rule for the TLVs of type `kind` in a message: `needed`, one of them or of type `instead` must stand; `single`, no
// second one may.
#[derive(Clone, Copy)]
pub struct Rule {
    pub kind: u16,
    pub instead: u16,
    pub needed: bool,
    pub single: bool,
}

// Of none another type serves instead.
const ONE_TARGET: Rule = Rule {
    kind: TARGET,
    instead: TARGET,
    needed: true,
    single: true,
};

const COMMANDS: Rule = Rule {
    kind: COMMAND,
    instead: COMMAND,
    needed: true,
    single: false,
};

const ONE_REQUEST: Rule = Rule {
    kind: REQUEST,
    instead: REQUEST,
    needed: true,
    single: true,
};

const ONE_ALLOCATION: Rule = Rule {
    kind: ALLOCATION,
    instead: ALLOCATION,
    needed: true,
    single: true,
};

// ---- by the message's type

// Every type that is handled has a rule.
pub fn handled(kind: u8) -> bool
    ensures { result ≡ handled kind }
{
    !rules_of(kind).is_empty()
}

#[tactic(auto, unfolding(crate::specs::Rules::result_ok))]
pub fn result_ok(kind: u8, res: u8) -> bool
    ensures { result ≡ result_ok kind res }
{
    match kind {
        144 => res == 1 || res == 2,
        146 => res == 0,
        147 => true,
        _ => res == 2,
    }
}

#[tactic(auto, unfolding(crate::specs::Rules::transaction_ok))]
pub fn transaction_ok(kind: u8, transaction: u32) -> bool
    ensures { result ≡ transaction_ok kind transaction }
{
    kind == 147 || 0 < transaction
}

// A line for each type.
#[tactic(auto, unfolding(crate::specs::Rules::rules_of, crate::specs::Rules::rules_among))]
pub fn rules_of(kind: u8) -> &'static [Rule]
    ensures few { length result.now ≤ 2 }
    ensures rules { result.now ≡ rules_of kind }
{
    match kind {
        144 => &[ONE_TARGET, COMMANDS],
        146 => &[ONE_TARGET, ONE_REQUEST],
        147 => &[ONE_TARGET, ONE_ALLOCATION],
        148 | 149 => &[ONE_TARGET],
        _ => &[],
    }
}

// ---- what is missing

// One of the types that a message needs is missing.
pub fn is_missing(rules: &[Rule], tlvs: &[u8]) -> bool
    ensures { result ≡ ltb 0 (length (missing rules.now (items_of tlvs.now))) }
{
    rules.iter().any(|r| lacks(r, tlvs))
}

#[tactic(auto, unfolding(crate::specs::Named::lacks))]
fn lacks(r: &Rule, tlvs: &[u8]) -> bool
    ensures { result ≡ lacks r.now (items_of tlvs.now) }
{
    r.needed && !stands(tlvs, r.kind) && !stands(tlvs, r.instead)
}

// A TLV of this type stands among them.
fn stands(tlvs: &[u8], kind: u16) -> bool
    ensures { result ≡ not (eqb (count_of kind (items_of tlvs.now)) 0) }
{
    Tlvs::of(tlvs).any(|t| t.kind == kind)
}

// A bare header of each missing type, each directly behind the one before it.
pub fn put_missing(buf: &mut [u8], rules: &[Rule], tlvs: &[u8]) -> usize
    requires { (length rules.now ≤ 4) × (16 ≤ length buf.old) }
    ensures { Wrote (bares (missing rules.now (items_of tlvs.now))) result buf.old buf.new }
{
    let mut at: usize = 0;
    for r in rules {
        at += put_if_missing(&mut buf[at..], r, tlvs);
    }
    at
}

fn put_if_missing(buf: &mut [u8], r: &Rule, tlvs: &[u8]) -> usize
    requires { 4 ≤ length buf.old }
    ensures { Wrote (bares (missing (r.now ∷ []) (items_of tlvs.now))) result buf.old buf.new }
{
    if lacks(r, tlvs) {
        return writers::put_bare(buf, r.kind);
    }
    0
}

// ---- what is at fault

// How far a message's TLVs are as its rules ask: none where all of them are, and none is missing; else a place, that of
// the first TLV at fault, or where they end if none is at fault and one is missing.
pub fn extent_of(kind: u8, tlvs: &[u8]) -> Option<usize>
    ensures { HasExtent (rules_of kind) tlvs.now result }
{
    extent_by(rules_of(kind), tlvs)
}

// A rule is `seen` once a TLV of its type has stood. Steps of a reader, and no iterator over the TLVs: the answer is a
// place in the octets, which an iterator does not give.
fn extent_by(rules: &[Rule], tlvs: &[u8]) -> Option<usize>
    requires { length rules.now ≤ 4 }
    ensures { HasExtent rules.now tlvs.now result }
{
    let mut seen = [false; 4];
    let mut at: usize = 0;
    loop {
        let step = reader::step_at(tlvs, at);
        match step.first {
            First::End | First::Broken => break,
            First::Tlv { kind, len, size: _ } => {
                if let Some(j) = place_of(rules, kind) {
                    let b = at + 4;
                    let e = b + len;
                    if is_fault(rules[j].single, seen[j], kind, &tlvs[b..e]) {
                        return Some(at);
                    }
                    seen[j] = true;
                }
                at = step.next;
            }
        }
    }
    for (i, r) in rules.iter().enumerate() {
        if r.needed && !seen[i] {
            return extent_end(rules, tlvs, at);
        }
    }
    None
}

// Where none is at fault, by what is missing.
fn extent_end(rules: &[Rule], tlvs: &[u8], at: usize) -> Option<usize>
    ensures { result ≡ cond (ltb 0 (length (missing rules.now (items_of tlvs.now)))) (Some at) None }
{
    if is_missing(rules, tlvs) {
        Some(at)
    } else {
        None
    }
}

// The part from the first TLV at fault on.
pub fn from_fault<'a>(kind: u8, tlvs: &'a [u8]) -> &'a [u8]
    ensures { items_of result.now ≡ from_fault (rules_of kind) [] (items_of tlvs.now) }
{
    match extent_of(kind, tlvs) {
        None => &tlvs[0..0],
        Some(at) => &tlvs[at..],
    }
}

// The place of the rule for a type.
fn place_of(rules: &[Rule], t: u16) -> Option<usize>
    ensures { result ≡ position (λ (r : Rule). t == r.kind) rules.now }
{
    rules.iter().position(|r| t == r.kind)
}

// A TLV of type t with this content is at fault by its rule; `again` tells that one stood before.
fn is_fault(single: bool, again: bool, t: u16, content: &[u8]) -> bool
    ensures { result ≡ ((single && again) || not (content_ok t content.now)) }
{
    single && again || !content_ok(t, content)
}

#[tactic(auto, unfolding(crate::specs::Named::content_ok))]
fn content_ok(t: u16, content: &[u8]) -> bool
    ensures { result ≡ content_ok t content.now }
{
    if t == TARGET {
        return fields::circuit_ids(content) == 1;
    }
    fields::length_ok(t, content)
}
