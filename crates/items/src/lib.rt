#![tactic(auto)]

// Walks over the TLVs of a list, each of which hands out parts of the message.
ghost use Rattle.std.specs.Prelude.{◌≡◌};
ghost use Rattle.items.specs.Items.{items_of, count_of, first_of, from_type};
ghost use Rattle.items.specs.Walk.{item_at, items_left};
ghost use Rattle.std.specs.Iterator.{YieldsFirstBy, item_count};
ghost use Rattle.items.specs.Place.{tlv_at, place_after, content_at};

use tlv::First;

// A TLV of a list: its type, and its content.
#[derive(Clone, Copy)]
pub struct Tlv<'a> {
    pub kind: u16,
    pub content: &'a [u8],
}

// The TLVs of a list in order, as far as no length is broken.
#[derive(Clone, Copy)]
pub struct Tlvs<'a> {
    rest: &'a [u8],
}

impl<'a> Tlvs<'a> {
    pub fn of(list: &'a [u8]) -> Self
        ensures { items_left result ≡ items_of list.now }
    {
        Tlvs { rest: list }
    }
}

impl<'a> Iterator for Tlvs<'a> {
    type Item = Tlv<'a>;

    ghost next_gives = { YieldsFirstBy item_at items_left };

    ghost remaining = { item_count items_left };

    fn next(&mut self) -> Option<Tlv<'a>> {
        match tlv::first_tlv(self.rest) {
            First::End | First::Broken => None,
            First::Tlv { kind, len, size } => {
                let content = &self.rest[4..4 + len];
                self.rest = &self.rest[size..];
                Some(Tlv { kind, content })
            }
        }
    }
}

// How many TLVs of a type there are.
pub fn count_of(s: &[u8], kind: u16) -> usize
    ensures { result ≡ count_of kind (items_of s.now) }
{
    Tlvs::of(s).filter(|t| t.kind == kind).count()
}

// The part from the first TLV of a type on: where a list of that type is walked, its next TLV stands first there. A loop:
// an iterator's find does not give the rest of the list.
pub fn from_type(s: &[u8], kind: u16) -> &[u8]
    ensures { items_of result.now ≡ from_type kind (items_of s.now) }
{
    let mut t = s;
    loop {
        match tlv::first_tlv(t) {
            First::End | First::Broken => return t,
            First::Tlv { kind: k, .. } if k == kind => return t,
            First::Tlv { size, .. } => t = &t[size..],
        }
    }
}

// The content of the first TLV of a type; empty where there is none.
pub fn first_of(s: &[u8], kind: u16) -> &[u8]
    ensures { result.now ≡ first_of kind (items_of s.now) }
{
    match Tlvs::of(s).find(|t| t.kind == kind) {
        Some(t) => t.content,
        None => &[],
    }
}

// What stands at a place of a message, the content of a TLV there, and the place after it.
pub fn tlv_at(s: &[u8], at: usize) -> First
    ensures { result ≡ tlv_at s.now at }
{
    // By the length, and no get: with an option of the rest each header was read twice, and a long walk took a third more.
    if s.len() < at {
        return First::End;
    }
    tlv::first_tlv(&s[at..])
}

pub fn content_at(s: &[u8], at: usize) -> &[u8]
    ensures { result.now ≡ content_at s.now at }
{
    match tlv_at(s, at) {
        First::End | First::Broken => &[],
        First::Tlv { len, .. } => {
            let b = at + 4;
            &s[b..b + len]
        }
    }
}

pub fn place_after(s: &[u8], at: usize) -> usize
    ensures { result ≡ place_after s.now at }
{
    match tlv_at(s, at) {
        First::End | First::Broken => at,
        First::Tlv { size, .. } => at + size,
    }
}
