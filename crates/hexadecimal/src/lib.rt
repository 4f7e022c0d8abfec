#![tactic(auto)]

// Octets as hexadecimal text, read and printed, for the programs.
ghost use Rattle.std.specs.Prelude.{◌≡◌, ◌≤◌, ◌<◌, ◌+◌, ◌*◌, length, Some, position, IfOk};
ghost use Rattle.std.specs.Option.{is_none};
ghost use Rattle.octets.specs.Writing.{over};
ghost use Rattle.hexadecimal.specs.Hex.{value_of, digit_of, digits_in, octets_in, reading_of, left_by, text_of};

use std::fmt;

// Why a text stands for no octets, with the place in the text.
#[derive(Clone, Copy, Debug, PartialEq, Eq)]
pub enum ReadError {
    NoDigit(usize),
    OddDigit(usize),
    NoRoom(usize),
}

// Reads pairs of digits of either case; the result is how many octets they stand for. The octets are written over the
// buffer's start; a text that is refused writes nothing.
pub fn read(s: &[u8], buf: &mut [u8]) -> Result<usize, ReadError>
    ensures value { result ≡ reading_of s.now (length buf.old) }
    ensures buf_after { buf.new ≡ left_by result s.now buf.old }
    ensures room { IfOk result (λ n. n ≤ length buf.new) }
{
    if let Some(at) = first_other(s) {
        return Err(ReadError::NoDigit(at));
    }
    if s.len() % 2 == 1 {
        return Err(ReadError::OddDigit(s.len() - 1));
    }
    let n = s.len() / 2;
    if buf.len() < n {
        return Err(ReadError::NoRoom(buf.len() * 2));
    }
    put_pairs(s, n, buf);
    Ok(n)
}

// Where the first character stands that is no digit.
fn first_other(s: &[u8]) -> Option<usize>
    ensures { result ≡ position (λ x. is_none (digit_of x)) s.now }
{
    s.iter().position(|x| value(*x).is_none())
}

// The octets of a text of n pairs of digits.
fn put_pairs(s: &[u8], n: usize, buf: &mut [u8])
    requires { (length s.now ≡ n + n) × (n ≤ length buf.old) × (digits_in s.now ≡ length s.now) }
    ensures { buf.new ≡ over (octets_in s.now) buf.old }
{
    // An index, and no chunks_exact: a proof of the chunks did not close (that chunk i is the pair at 2 i).
    for i in 0..n {
        buf[i] = pair(s[i + i], s[i + i + 1]);
    }
}

fn pair(a: u8, b: u8) -> u8
    requires { (value_of a < 16) × (value_of b < 16) }
    ensures { result ≡ value_of a * 16 + value_of b }
{
    value(a).unwrap() * 16 + value(b).unwrap()
}

// The value of a digit.
fn value(x: u8) -> Option<u8>
    ensures { result ≡ digit_of x }
{
    match x {
        b'0'..=b'9' => Some(x - b'0'),
        b'A'..=b'F' => Some(x - b'A' + 10),
        b'a'..=b'f' => Some(x - b'a' + 10),
        _ => None,
    }
}

// Octets that print as pairs of digits, in capitals.
#[derive(Clone, Copy, Debug)]
pub struct InCapitals<'a>(pub &'a [u8]);

impl fmt::Display for InCapitals<'_> {
    ghost output = { λ x. Some (text_of x.0.now) };

    fn fmt<W: fmt::Write>(&self, f: &mut fmt::Formatter<W>) -> fmt::Result {
        for &x in self.0 {
            write!(f, "{x:02X}")?;
        }
        Ok(())
    }
}
