#![tactic(auto)]

// The starred cases (CARD.md, "Worked cases") as a table: what is given, as the card has it before the call; what is
// expected; what the card did.
mod givens;
mod table;

use calls::HostCall;
use flows::Flow;
use scenes::{Card, Tables};
use std::io;
use table::{Call, Given, Row, Shown};

fn main(rt: HostRuntime) -> io::Result<()> {
    let tables = givens::filled();
    println!(rt;
        "The starred cases, on port 0: what is given | what is expected | what the card did | do they agree"
    )?;
    admission(&rt, &tables)?;
    space(&rt, &tables)?;
    requests(&rt, &tables)?;
    transaction(&rt, &tables)
}

// Delegation 4000, committed 3000: rate 1000 starts, 1001 gives 4.
fn admission<P: Print>(rt: &P, tables: &Tables) -> io::Result<()> {
    let card = givens::committed3000(tables);
    rt.println(join(&card, 17, 1000, 0))?;
    rt.println(join(&card, 18, 1001, 4))
}

// 256 extras: a fourth flow starts, a fifth gives 5. 255 extras: a fifth starts, a 17th does not.
fn space<P: Print>(rt: &P, tables: &Tables) -> io::Result<()> {
    rt.println(join(&givens::crowded(tables, 3, 21, 8), 16, 100, 0))?;
    rt.println(join(&givens::crowded(tables, 4, 21, 8), 16, 100, 5))?;
    rt.println(join(&givens::crowded(tables, 4, 21, 7), 16, 100, 0))?;
    rt.println(join(&givens::crowded(tables, 16, 20, 7), 16, 100, 5))
}

// Delegation 6000, committed 3500, required/preferred: 4000/3000 gives 3500; 3400/3000 fails with 6000; 6000/6000 gives
// 6000; 7000/8000 gives 0x67; 6001/6001 succeeds with 6000.
fn requests<P: Print>(rt: &P, tables: &Tables) -> io::Result<()> {
    let card = givens::committed3500(tables, 1);
    rt.println(request(&card, 4000, 3000, 3, 0, 3500))?;
    rt.println(request(&card, 3400, 3000, 4, 0, 6000))?;
    rt.println(request(&card, 6000, 6000, 3, 0, 6000))?;
    rt.println(request(&card, 7000, 8000, 4, 0x67, 6000))?;
    rt.println(request(&card, 6001, 6001, 3, 0, 6000))
}

// Transaction 16,777,215 is followed by 1.
fn transaction<P: Print>(rt: &P, tables: &Tables) -> io::Result<()> {
    let card = givens::committed3500(tables, 16777215);
    let expected = Shown {
        transaction: 16777215,
        delegation: 6000,
        ..NOTHING
    };
    let ask = calls::on_port(calls::ASK, 0, 7000, 8000);
    rt.println(Row {
        given: given(&card),
        call: Call::Ask {
            next: card.next_number(),
        },
        expected,
        did: shown(&card, ask, &[], givens::flow(0)),
    })
}

// Number 0, no reply, and 1 as the next transaction number.
const NOTHING: Shown = Shown {
    number: 0,
    result: 0,
    code: 0,
    amount: 0,
    transaction: 0,
    delegation: 0,
    active: false,
    next: 1,
};

// A join on port 0; one that is refused leaves the card's amounts and its next number alone too.
fn join(card: &Card, k: u8, rate: u32, number: u8) -> Row {
    let expected = Shown {
        number,
        delegation: 4000,
        active: number == 0,
        ..NOTHING
    };
    let flow = givens::flow(k);
    Row {
        given: given(card),
        call: Call::Join { rate },
        expected,
        did: shown(card, calls::on_flow(calls::JOIN, 0, flow), &[], flow),
    }
}

// A Bandwidth Reallocation Request (146) of transaction 7, answered by a 147 with the delegation that the port then has.
fn request(card: &Card, required: u32, preferred: u32, res: u8, code: u16, amount: u32) -> Row {
    let expected = Shown {
        result: res,
        code,
        amount,
        transaction: 7,
        delegation: amount,
        ..NOTHING
    };
    let told = calls::on_port(calls::MESSAGE, 0, 0, 0);
    let octets = message(required, preferred);
    Row {
        given: given(card),
        call: Call::Request {
            required,
            preferred,
        },
        expected,
        did: shown(card, told, &octets, givens::flow(0)),
    }
}

// 146 with the circuit id of port 0, the octet 0.
fn message(required: u32, preferred: u32) -> [u8; 40] {
    let mut m = [0; 40];
    m[..32].copy_from_slice(
        b"\x88\x0C\x00\x24\x32\x92\x00\x00\x00\x00\x00\x07\x80\x01\x00\x24\x10\x00\x00\x08\x00\x01\x00\x01\x00\x00\x00\x00\x00\x16\x00\x08",
    );
    m[32..36].copy_from_slice(&required.to_be_bytes());
    m[36..].copy_from_slice(&preferred.to_be_bytes());
    m
}

// What the card has before the call.
fn given(card: &Card) -> Given {
    Given {
        delegation: card.delegation(0),
        committed: card.committed(0),
        flows: card.flow_count(0),
        extras: card.extras(),
    }
}

// What the call shows: its number and reply, and what the host reads of the card after it.
fn shown(before: &Card, call: HostCall, octets: &[u8], flow: Flow) -> Shown {
    let mut card = *before;
    let mut reply = [0; 4608];
    let answer = card.call(call, octets, &mut reply);
    let head = header::header_fields(&reply);
    let amount = octets::read32(&reply, 32);
    Shown {
        number: answer.number,
        result: head.result,
        code: head.code,
        amount: if head.kind == 147 { amount } else { 0 },
        transaction: head.transaction,
        delegation: card.delegation(0),
        active: card.is_active(0, flow),
        next: card.next_number(),
    }
}
