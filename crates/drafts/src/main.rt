#![tactic(auto)]

// Plays a script of calls from standard input, such as the example messages of the sources (the file stdin), and writes
// what each call answers. What is wrong in it is said on standard error and ends the run. A program has no exit status and
// no usage text here: ./run-drafts has both, the script's format among it.
mod script;
mod start;

use calls::HostCall;
use hexadecimal::InCapitals;
use scenes::{Card, Tables};
use script::{Line, Next, Verb};
use std::io;

fn main(rt: HostRuntime) -> io::Result<()> {
    let tables = start::filled();
    let mut player = Player {
        rt: &rt,
        tables: &tables,
        card: start::ready(&tables, false),
    };
    let mut input = rt.stdin();
    let mut text = [0; script::LONGEST];
    let mut octets = [0; 4097];
    for number in 1..u64::MAX {
        match script::next_line(&mut input, &mut text, &mut octets) {
            Ok(Next::End) => return Ok(()),
            Ok(Next::Nothing) => {}
            Ok(Next::Play(line)) => player.play(line)?,
            Err(wrong) => return eprintln!(rt; "drafts: line {number}, {wrong}"),
        }
    }
    Ok(())
}

#[derive(Drop)]
struct Player<'a, P> {
    rt: &'a P,
    tables: &'a Tables,
    card: Card<'a>,
}

impl<P: Print> Player<'_, P> {
    // Writes the line's name, the number, and the reply if there is one; of a new start nothing.
    fn play(&mut self, line: Line) -> io::Result<()> {
        if line.verb == Verb::StartAgain {
            self.card = start::ready(self.tables, line.octets.first() == Some(&1));
            return Ok(());
        }
        let mut buf = [0; 4608];
        let space = if line.verb == Verb::SmallBuffer {
            4607
        } else {
            4608
        };
        let reply = &mut buf[..space];
        let answer = self.card.call(host_call(line), line.octets, reply);
        let number = answer.number;
        let reply = InCapitals(&reply[..answer.length]);
        let rt = self.rt;
        rt.write_all(line.name)?;
        if answer.length == 0 {
            println!(rt; " {number}")
        } else {
            println!(rt; " {number} {reply}")
        }
    }
}

// The call of a line; its arguments stand in the octets.
fn host_call(line: Line) -> HostCall {
    let p = line.octets.first().map_or(0, |p| usize::from(*p));
    let first = number_at(line.octets, 1).unwrap_or(0);
    let second = number_at(line.octets, 5);
    match line.verb {
        Verb::Up => calls::on_port(calls::PORT_UP, p, 0, 0),
        Verb::Down => calls::on_port(calls::PORT_DOWN, p, 0, 0),
        Verb::Join => calls::on_flow(calls::JOIN, p, start::ipv4(first, second)),
        Verb::Leave => calls::on_flow(calls::LEAVE, p, start::ipv4(first, second)),
        Verb::Delegation => calls::on_port(calls::SET_DELEGATION, p, first, 0),
        Verb::Ask => calls::on_port(calls::ASK, p, first, second.unwrap_or(0)),
        Verb::StartAgain | Verb::Message | Verb::SmallBuffer => {
            calls::on_port(calls::MESSAGE, 0, 0, 0)
        }
    }
}

// The number of 32 bits at a place.
fn number_at(octets: &[u8], at: usize) -> Option<u32> {
    let four = octets.get(at..)?.first_chunk::<4>()?;
    Some(u32::from_be_bytes(*four))
}
