// The lines of the script: what each does, or where it is wrong.
ghost use Rattle.std.specs.Prelude.{◌≤◌, length, take, IfOk};
ghost use Rattle.std.specs.Io.{StopsAt};
ghost use Rattle.std.specs.Io.KnownBytes.{Consumes};

use hexadecimal::ReadError;
use std::io::Read;
use std::{fmt, io};

// What a line does, by its letter.
#[derive(Clone, Copy, PartialEq, Eq)]
pub enum Verb {
    StartAgain,
    Message,
    SmallBuffer,
    Up,
    Down,
    Join,
    Leave,
    Delegation,
    Ask,
}

// The parts of a line.
#[derive(Clone, Copy)]
pub struct Line<'a> {
    pub name: &'a [u8],
    pub verb: Verb,
    pub octets: &'a [u8],
}

// The script's end; an empty line or a comment; or a line that is played.
#[derive(Clone, Copy)]
pub enum Next<'a> {
    End,
    Nothing,
    Play(Line<'a>),
}

// Why a line is refused.
#[derive(Clone, Copy, Debug, PartialEq, Eq)]
pub enum Why {
    LongLine,
    NotRead,
    NoName,
    NoVerb,
    NoSpace,
    NoDigit,
    OddDigit,
    NoRoom,
    TooFew,
    TooMany,
    NoSwitch,
}

// Where a line is wrong: how many of its characters stand before that place.
#[derive(Clone, Copy, Debug)]
pub struct Wrong {
    pub at: usize,
    pub why: Why,
}

// The most characters that a line has, its end among them.
pub const LONGEST: usize = 8257;

// Reads the next line into `text`, and its octets into `buf`. A line is read no further than its end, so it is answered
// before the next one is there.
pub fn next_line<'a, R: Read>(
    input: &mut R,
    text: &'a mut [u8],
    buf: &'a mut [u8],
) -> Result<Next<'a>, Wrong> {
    let n = read_line(input, text).map_err(|_| Wrong::new(0, Why::NotRead))?;
    match &text[..n] {
        [] => Ok(Next::End),
        [line @ .., b'\n'] => parsed(line, buf),
        _ if n == text.len() => Err(Wrong::new(n, Why::LongLine)),
        line => parsed(line, buf),
    }
}

// Reads a character at a time, up to a line end, the input's end or the buffer's; how many it read. It takes no more
// than these from the input.
fn read_line<R: Read>(input: &mut R, buf: &mut [u8]) -> io::Result<usize>
    ensures room { IfOk result (λ n. n ≤ length buf.new) }
    ensures stops { IfOk result (λ n. StopsAt (take n buf.new) 10) }
    ensures taken { IfOk result (λ n. Consumes (R.remaining input.old) (R.remaining input.new) (take n buf.new)) }
{
    for n in 0..buf.len() {
        if input.read(&mut buf[n..=n])? == 0 {
            return Ok(n);
        }
        if buf[n] == b'\n' {
            return Ok(n + 1);
        }
    }
    Ok(buf.len())
}

fn parsed<'a>(line: &'a [u8], buf: &'a mut [u8]) -> Result<Next<'a>, Wrong> {
    if line.is_empty() || line[0] == b'#' {
        return Ok(Next::Nothing);
    }
    let at = line
        .iter()
        .position(|c| !c.is_ascii_graphic())
        .unwrap_or(line.len());
    let (name, rest) = line.split_at(at);
    if name.is_empty() {
        return Err(Wrong::new(at, Why::NoName));
    }
    match rest {
        [b' ', letter, rest @ ..] => {
            let verb = Verb::try_from(*letter).map_err(|why| Wrong::new(at + 1, why))?;
            let n = read_octets(verb, rest, at + 2, buf)?;
            let octets = &buf[..n];
            Ok(Next::Play(Line { name, verb, octets }))
        }
        [b' '] => Err(Wrong::new(at + 1, Why::NoVerb)),
        _ => Err(Wrong::new(at, Why::NoSpace)),
    }
}

// Reads what stands behind a verb, at this place: nothing, or a space and as many octets as the verb takes.
fn read_octets(verb: Verb, s: &[u8], at: usize, buf: &mut [u8]) -> Result<usize, Wrong>
    ensures { IfOk result (λ n. n ≤ length buf.new) }
{
    match s {
        [] => {
            verb.check(&[], at)?;
            Ok(0)
        }
        [b' ', digits @ ..] => {
            let from = at.saturating_add(1);
            let n = hexadecimal::read(digits, buf).map_err(|e| Wrong::of_digits(e, from))?;
            verb.check(&buf[..n], from)?;
            Ok(n)
        }
        _ => Err(Wrong::new(at, Why::NoSpace)),
    }
}

impl TryFrom<u8> for Verb {
    type Error = Why;

    fn try_from(letter: u8) -> Result<Verb, Why> {
        match letter {
            b'n' => Ok(Verb::StartAgain),
            b'm' => Ok(Verb::Message),
            b's' => Ok(Verb::SmallBuffer),
            b'u' => Ok(Verb::Up),
            b'x' => Ok(Verb::Down),
            b'j' => Ok(Verb::Join),
            b'l' => Ok(Verb::Leave),
            b'd' => Ok(Verb::Delegation),
            b'a' => Ok(Verb::Ask),
            _ => Err(Why::NoVerb),
        }
    }
}

impl Verb {
    // How many octets a verb takes, where n are given.
    fn wanted(self, n: usize) -> usize {
        match self {
            Verb::StartAgain => n.min(1),
            Verb::Up | Verb::Down => 1,
            Verb::Join | Verb::Leave => if n <= 5 { 5 } else { 9 },
            Verb::Delegation => 5,
            Verb::Ask => 9,
            Verb::Message | Verb::SmallBuffer => n,
        }
    }

    // Whether the octets are as many as the verb takes, and the switch is 00 or 01; their digits begin at this place.
    fn check(self, octets: &[u8], from: usize) -> Result<(), Wrong> {
        let n = octets.len();
        let wanted = self.wanted(n);
        if n != wanted {
            let why = if n < wanted {
                Why::TooFew
            } else {
                Why::TooMany
            };
            let at = from.saturating_add(n.min(wanted).saturating_mul(2));
            return Err(Wrong::new(at, why));
        }
        if self == Verb::StartAgain && octets.first().is_some_and(|x| *x > 1) {
            return Err(Wrong::new(from, Why::NoSwitch));
        }
        Ok(())
    }
}

impl Wrong {
    fn new(at: usize, why: Why) -> Wrong {
        Wrong { at, why }
    }

    fn of_digits(e: ReadError, from: usize) -> Wrong {
        let (i, why) = match e {
            ReadError::NoDigit(i) => (i, Why::NoDigit),
            ReadError::OddDigit(i) => (i, Why::OddDigit),
            ReadError::NoRoom(i) => (i, Why::NoRoom),
        };
        Wrong::new(from.saturating_add(i), why)
    }
}

// The place counts from 1 on.
impl fmt::Display for Wrong {
    fn fmt<W: fmt::Write>(&self, f: &mut fmt::Formatter<W>) -> fmt::Result {
        let place = self.at.saturating_add(1);
        let why = self.why;
        write!(f, "character {place}: {why}")
    }
}

impl fmt::Display for Why {
    fn fmt<W: fmt::Write>(&self, f: &mut fmt::Formatter<W>) -> fmt::Result {
        let text = match self {
            Why::LongLine => "the line is too long",
            Why::NotRead => "the script cannot be read",
            Why::NoName => "no name",
            Why::NoVerb => "no verb",
            Why::NoSpace => "no space",
            Why::NoDigit => "no hexadecimal digit",
            Why::OddDigit => "half an octet",
            Why::NoRoom => "more than 4,097 octets",
            Why::TooFew => "too few octets",
            Why::TooMany => "too many octets",
            Why::NoSwitch => "neither 00 nor 01",
        };
        write!(f, "{text}")
    }
}
