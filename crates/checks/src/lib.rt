#![tactic(auto)]

// The rows of the card's table that all messages go through, and the refusals that answer them.
ghost use Rattle.std.specs.Prelude.{◌≡◌, cond, List, ℕ, ◌≤◌, length, ltb};
ghost use Rattle.octets.specs.Writing.{Wrote};
ghost use Rattle.items.specs.Items.{items_of};
ghost use Rattle.header.specs.declared.Header.{Header};
ghost use Rattle.rules.specs.Rules.{rules_of};
ghost use Rattle.rules.specs.Named.{missing};
ghost use Rattle.circuits.specs.Circuits.{port_of};
ghost use Rattle.card.specs.Cards.{Card};
ghost use Rattle.checks.specs.Table.{id_in, port_named, HasFields, Located, located, faults, named_rows, table_of, copy_of, enclosed_of, refused_of};

use fields::TARGET;
use header::Header;
use tlv::First;

// The port whose circuit id stands in the message's Target; 64 where it is no port's.
// A number, and no Option: the terms' place is it (HasTerms), and the definition `named_in` tells 64 from 65.
pub fn port_named(ids: &[u8; 4096], port_count: usize, tlvs: &[u8]) -> usize
    ensures { result ≡ port_named ids.now port_count tlvs.now }
{
    match circuits::port_of(ids, port_count, id_in(tlvs)) {
        None => 64,
        Some(p) => p as usize,
    }
}

// What the rows give: the port that the message names, which is up; or the result code of the row that refuses the
// message. The error is a number, and no enum: the contract of `put_refused` and the reply's octets speak of every code.
// `named` is what `port_named` gave, and `up` tells whether that port is up; then the fields of the header that the rows
// read, one by one: a struct would be stored to be read again.
pub fn check_table(
    named: usize,
    up: bool,
    kind: u8,
    res: u8,
    transaction: u32,
    tlvs: &[u8],
) -> Result<u8, u16>
    ensures { (ids : List ℕ) (card : Card) (h : Header) → HasFields h kind res transaction → Located ids card tlvs.now named up → result ≡ table_of ids card h tlvs.now }
{
    if !rules::handled(kind) {
        return Err(0x51);
    }
    if !rules::result_ok(kind, res) {
        return Err(0x2);
    }
    if !rules::transaction_ok(kind, transaction) {
        return Err(0x2);
    }
    if !tlv::check_list(tlvs, tlv::depth_of(res), false) {
        return Err(0x53);
    }
    check_named(named, up, kind, tlvs)
}

fn check_named(named: usize, up: bool, kind: u8, tlvs: &[u8]) -> Result<u8, u16>
    ensures { (ids : List ℕ) (card : Card) → Located ids card tlvs.now named up → result ≡ named_rows ids card kind tlvs.now }
{
    match rules::extent_of(kind, tlvs) {
        None => check_port(named, up),
        Some(_) => Err(named_code(kind, tlvs)),
    }
}

// The code where a TLV is missing or at fault.
fn named_code(kind: u8, tlvs: &[u8]) -> u16
    ensures { result ≡ cond (ltb 0 (length (missing (rules_of kind) (items_of tlvs.now)))) 0x54 0x55 }
{
    if rules::is_missing(rules::rules_of(kind), tlvs) {
        return 0x54;
    }
    0x55
}

fn check_port(named: usize, up: bool) -> Result<u8, u16>
    ensures { (ids : List ℕ) (card : Card) (s : List ℕ) → Located ids card s named up → result ≡ located card (port_of ids card.head.port_count (id_in s)) }
{
    if 64 <= named {
        return Err(0x500);
    }
    if up {
        return Ok(named as u8);
    }
    Err(0x6)
}

// The circuit id of the message's Target; empty where there is none.
pub fn id_in<'a>(tlvs: &'a [u8]) -> &'a [u8]
    ensures { result.now ≡ id_in tlvs.now }
{
    fields::circuit_id(items::first_of(tlvs, TARGET))
}

// ---- refusals

// The Generic Response to a message that a row refuses with this code.
pub fn put_refused(reply: &mut [u8], h: Header, tlvs: &[u8], code: u16) -> usize
    requires { (4608 ≤ length reply.old) × (length tlvs.now ≤ 4096) }
    ensures { Wrote (refused_of h tlvs.now code) result reply.old reply.new }
{
    let n = put_enclosed(&mut reply[24..], h.kind, tlvs, code);
    replies::put_refusal(reply, h, code, n);
    24 + n
}

// What its Status-Info encloses.
fn put_enclosed(buf: &mut [u8], kind: u8, tlvs: &[u8], code: u16) -> usize
    requires { (4584 ≤ length buf.old) × (length tlvs.now ≤ 4096) }
    ensures { Wrote (enclosed_of kind tlvs.now code) result buf.old buf.new }
{
    match code {
        0x54 => rules::put_missing(buf, rules::rules_of(kind), tlvs),
        0x55 => put_fault(buf, kind, tlvs),
        0x500 | 0x6 => writers::put_target(buf, id_in(tlvs)),
        _ => 0,
    }
}

// A copy of the first TLV at fault.
fn put_fault(buf: &mut [u8], kind: u8, tlvs: &[u8]) -> usize
    requires { (4584 ≤ length buf.old) × (length tlvs.now ≤ 4096) }
    ensures { Wrote (copy_of (faults kind tlvs.now)) result buf.old buf.new }
{
    let t = rules::from_fault(kind, tlvs);
    match tlv::first_tlv(t) {
        First::End | First::Broken => 0,
        First::Tlv {
            kind: k,
            len,
            size: _,
        } => {
            let e = 4 + len;
            writers::put_tlv(buf, k, &t[4..e])
        }
    }
}
