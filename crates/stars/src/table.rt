// The rows of the table.
use std::fmt;
use std::fmt::{Formatter, Write};

// What the card has of port 0 before the call, and the extras of all ports.
#[derive(Clone, Copy)]
pub struct Given {
    pub delegation: u32,
    pub committed: u64,
    pub flows: usize,
    pub extras: usize,
}

// The call of a row, with what the row says of it: the rate of the channel that is joined, the amounts of a 146, the
// next transaction number before the host asks.
#[derive(Clone, Copy)]
pub enum Call {
    Join { rate: u32 },
    Request { required: u32, preferred: u32 },
    Ask { next: u32 },
}

// What is read of a case: the call's number; the reply's Result, code, amount and transaction; then port 0's delegation,
// whether the flow of a join is active there, and the next transaction number.
#[derive(Clone, Copy, PartialEq, Eq)]
pub struct Shown {
    pub number: u8,
    pub result: u8,
    pub code: u16,
    pub amount: u32,
    pub transaction: u32,
    pub delegation: u32,
    pub active: bool,
    pub next: u32,
}

// The rows agree where all that is read is the same, also what the row does not print.
#[derive(Clone, Copy)]
pub struct Row {
    pub given: Given,
    pub call: Call,
    pub expected: Shown,
    pub did: Shown,
}

impl fmt::Display for Row {
    fn fmt<W: Write>(&self, f: &mut Formatter<W>) -> fmt::Result {
        self.write_given(f)?;
        self.write_shown(f, &self.expected)?;
        self.write_shown(f, &self.did)?;
        let verdict = if self.expected == self.did {
            "yes"
        } else {
            "NO"
        };
        write!(f, " | {verdict}")
    }
}

impl Row {
    fn write_given<W: Write>(&self, f: &mut Formatter<W>) -> fmt::Result {
        let Given {
            delegation,
            committed,
            flows,
            extras,
        } = self.given;
        write!(f, "delegation {delegation:4}, committed {committed:4}")?;
        match self.call {
            Call::Join { rate } => {
                write!(
                    f,
                    ", flows {flows:2}, extras {extras:3}: join of rate {rate:4}"
                )
            }
            Call::Request {
                required,
                preferred,
            } => { write!(f, ": 146 with {required:4}/{preferred:4}") }
            Call::Ask { next } => write!(f, ", next number {next}: ask for 7000/8000"),
        }
    }

    fn write_shown<W: Write>(&self, f: &mut Formatter<W>, shown: &Shown) -> fmt::Result {
        let Shown {
            number,
            result,
            code,
            amount,
            transaction,
            delegation,
            active,
            next,
        } = *shown;
        match self.call {
            Call::Join { .. } => {
                let starts = if active { "starts" } else { "does not start" };
                write!(f, " | number {number}, {starts:14}")
            }
            Call::Request { .. } => {
                write!(
                    f,
                    " | Result {result}, code 0x{code:02x}, amount {amount:4}, delegation {delegation:4}"
                )
            }
            Call::Ask { .. } => write!(f, " | transaction {transaction}, next number {next}"),
        }
    }
}
