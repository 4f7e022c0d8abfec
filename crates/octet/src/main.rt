#![tactic(auto)]

// The octet program: one port `p1`, up, with delegation 4000, is handed the message on standard input; prints the
// answer.
ghost use Rattle.std.specs.Prelude.{◌≤◌, length, IfOk};

use hexadecimal::InCapitals;
use scenes::{Card, Setting, Tables};
use std::io;
use std::io::Read;

// One octet more than a message may have, so that a longer one is seen to be too long.
const MOST: usize = 4097;

// Which channels and lists the card has is the program's choice: none.
const SETTING: Setting = Setting {
    ports: 1,
    channels: 0,
    entries: 0,
    white_cac: false,
    add_cac: false,
};

fn main(rt: HostRuntime) -> io::Result<()> {
    let mut tables = Tables::empty();
    tables.name_port(0, b"p1");
    let (mut card, _) = Card::start(&tables, SETTING, 1);
    card.up(0);
    card.set_delegation(0, 4000);
    let mut message = [0; MOST];
    let n = read_full(&mut rt.stdin(), &mut message)?;
    let mut reply = [0; 4608];
    let answer = card.message(&message[..n], &mut reply);
    let number = answer.number;
    let length = answer.length;
    let text = InCapitals(&reply[..length]);
    println!(rt; "answer={number}\nlength={length}\nreply={text}")
}

// Reads until the buffer is full or the input ends; how many octets it read.
fn read_full<R: Read>(input: &mut R, buf: &mut [u8]) -> io::Result<usize>
    ensures { IfOk result (λ n. n ≤ length buf.new) }
{
    let mut done = 0;
    while done < buf.len() {
        let n = input.read(&mut buf[done..])?;
        if n == 0 {
            return Ok(done);
        }
        done += n;
    }
    Ok(done)
}
