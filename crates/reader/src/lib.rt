#![tactic(auto)]

// A reader that remembers its place in the message. Its methods are thin: each leaves the work to a function of crate
// items on slice and place. As an iterator it walks over the TLVs from its place on.
ghost use Rattle.std.specs.Prelude.{◌≡◌};
ghost use Rattle.std.specs.Iterator.{YieldsFirstBy, item_count};
ghost use Rattle.items.specs.Place.{tlv_at};
ghost use Rattle.items.specs.Walk.{item_at};
ghost use Rattle.reader.specs.Reader.{reader_at, advanced, step_at, items_ahead};

use items::Tlv;
use tlv::First;

#[derive(Clone, Copy)]
pub struct Reader<'a> {
    pub message: &'a [u8],
    pub at: usize,
}

impl<'a> Reader<'a> {
    pub fn new(message: &'a [u8], at: usize) -> Self
        ensures { result ≡ reader_at message.entry at }
    {
        Reader { message, at }
    }

    // What stands at its place.
    pub fn next(self) -> First
        ensures { result ≡ tlv_at self.entry.message.now self.entry.at }
    {
        items::tlv_at(self.message, self.at)
    }

    // The reader after what stands at its place.
    pub fn advance(self) -> Self
        ensures { result ≡ advanced self.entry }
    {
        Reader {
            at: items::place_after(self.message, self.at),
            ..self
        }
    }
}

// The TLVs from its place on, in order, as far as no length is broken: one step for each.
impl<'a> Iterator for Reader<'a> {
    type Item = Tlv<'a>;

    ghost next_gives = { YieldsFirstBy item_at items_ahead };

    ghost remaining = { item_count items_ahead };

    fn next(&mut self) -> Option<Tlv<'a>> {
        let step = step_at(self.message, self.at);
        match step.first {
            First::End | First::Broken => None,
            First::Tlv { kind, len, size: _ } => {
                let start = self.at + 4;
                let content = &self.message[start..start + len];
                self.at = step.next;
                Some(Tlv { kind, content })
            }
        }
    }
}

// One read: what stood at the reader's place, and the place that it has then. No item of the iterator above, which goes
// on by it: a walk that answers with a place, or tells the end from a broken length, takes the steps themselves.
#[derive(Clone, Copy)]
pub struct Step {
    pub first: First,
    pub next: usize,
}

// One reader is made at a place, read, and moved on. The parameters are plain, so that a caller needs no walk.
pub fn step_at(message: &[u8], at: usize) -> Step
    ensures { result ≡ step_at message.now at }
{
    let reader = Reader::new(message, at);
    Step {
        first: reader.next(),
        next: reader.advance().at,
    }
}
