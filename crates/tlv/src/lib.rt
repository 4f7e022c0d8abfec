#![tactic(auto)]

// What stands first in a list of TLVs, and the check of a list's lengths and depth.
ghost use Rattle.std.specs.Prelude.{◌≡◌, ◌+◌, ◌≤◌};
ghost use Rattle.tlv.specs.First.{first_tlv};
ghost use Rattle.tlv.specs.Depth.{depth_of, status_inside, inside_of, inside_ok, list_ok};

#[derive(Clone, Copy)]
pub enum First {
    // The list is at its end.
    End,
    // A header, a content or a padding that runs past the end of the list.
    Broken,
    // A TLV of type kind: len octets of content from octet 4 on, and size octets in all.
    Tlv { kind: u16, len: usize, size: usize },
}

#[tactic(auto, unfolding(crate::specs::First::first_tlv))]
pub fn first_tlv(s: &[u8]) -> First
    ensures { result ≡ first_tlv s.now }
{
    if s.is_empty() {
        return First::End;
    }
    if s.len() < 4 {
        return First::Broken;
    }
    let kind = octets::read16(s, 0);
    let len = octets::read16(s, 2);
    let size = 4 + octets::pad(len);
    if s.len() < size {
        return First::Broken;
    }
    First::Tlv {
        kind,
        len: len as usize,
        size,
    }
}

// How deep TLVs may nest in a message with this Result.
pub fn depth_of(res: u8) -> u8
    ensures { result ≡ depth_of res }
{
    match res {
        3 | 4 => 4,
        _ => 3,
    }
}

// Where a TLV's content holds further TLVs.
#[derive(Clone, Copy)]
pub enum Inside {
    // Nowhere.
    Plain,
    // It is a holder, and too short for what stands before its TLVs.
    Short,
    // From octet start on; bare headers may stand there.
    Holds { start: usize, bare: bool },
}

// Whether s is in order where TLVs may nest `depth` deep. Directly inside a Status-Info `bare` is true.
#[cycle(check_inside_check_list)]
pub fn check_list(s: &[u8], depth: u8, bare: bool) -> bool
    ensures { result ≡ list_ok depth bare s.now }
{
    if depth == 0 {
        return s.is_empty();
    }
    let mut t = s;

    // A loop, and no iterator of TLVs: one that gives only TLVs doesn't tell the end from a broken length.
    loop {
        match first_tlv(t) {
            First::End => return true,
            First::Broken => return false,
            First::Tlv { kind, len, size } => {
                let e = 4 + len;
                if !check_inside(&t[4..e], kind, depth - 1, bare) {
                    return false;
                }
                t = &t[size..];
            }
        }
    }
}

// Whether the inside of a TLV of type kind and content c is in order where it may nest `depth` deep.
#[cycle(check_inside_check_list)]
pub fn check_inside(c: &[u8], kind: u16, depth: u8, bare: bool) -> bool
    ensures { result ≡ inside_ok (list_ok depth) bare kind c.now }
{
    match inside_of(c, kind, bare) {
        Inside::Plain => true,
        Inside::Short => false,
        Inside::Holds {
            start,
            bare: within,
        } => check_list(&c[start..], depth, within),
    }
}

#[tactic(auto, unfolding(crate::specs::Depth::inside_of))]
fn inside_of(c: &[u8], kind: u16, bare: bool) -> Inside
    ensures { result ≡ inside_of bare kind c.now }
{
    if bare && c.is_empty() {
        return Inside::Plain;
    }
    match kind {
        0x1000 => Inside::Holds {
            start: 0,
            bare: false,
        },
        0x0011 if c.len() < 4 => Inside::Short,
        0x0011 => Inside::Holds {
            start: 4,
            bare: false,
        },
        0x0106 => inside_status(c),
        _ => Inside::Plain,
    }
}

#[tactic(auto, unfolding(crate::specs::Depth::status_inside))]
fn inside_status(c: &[u8]) -> Inside
    ensures { result ≡ status_inside c.now }
{
    if c.len() < 4 {
        return Inside::Short;
    }
    let start = 4 + octets::pad(octets::read16(c, 2));
    if c.len() < start {
        return Inside::Short;
    }
    Inside::Holds { start, bare: true }
}
