#![tactic(auto)]

// Whole replies, written into a lent buffer: what a header counts is written first, in its place after the header. The
// buffer is a slice, its room in a clause, and no array of 4,608: it may be longer, and `Wrote` speaks of all of it. So
// is a circuit id, and no type of 63 octets: `put_amount` takes up to 4,096.
ghost use Rattle.std.specs.Prelude.{◌≡◌, ◌++◌, ◌+◌, ◌≤◌, ◌<◌, length};
ghost use Rattle.octets.specs.Writing.{over, Wrote};
ghost use Rattle.writers.specs.Tlvs.{target_of, allocation_of};
ghost use Rattle.replies.specs.Replies.{reply_header, begin_header, success_of, amount_reply};
ghost use Rattle.replies.specs.Heads.{refusal_head};

use header::Header;

pub fn reply_header(h: Header, kind: u8, res: u8, code: u16) -> Header
    ensures { result ≡ reply_header h kind res code }
{
    Header {
        kind,
        result: res,
        code,
        ..h
    }
}

pub fn begin_header(kind: u8, transaction: u32) -> Header
    ensures { result ≡ begin_header kind transaction }
{
    Header {
        kind,
        result: 0,
        code: 0,
        partition: 0,
        transaction,
    }
}

pub fn put_success(reply: &mut [u8], h: Header) -> usize
    requires { 16 ≤ length reply.old }
    ensures { Wrote (success_of h) result reply.old reply.new }
{
    header::put_header(reply, reply_header(h, 91, 3, 0), 0);
    16
}

// A refusal: the header and the head of a Status-Info before n octets of enclosed TLVs, which stand after them already.
pub fn put_refusal(reply: &mut [u8], h: Header, code: u16, n: usize)
    requires { (24 ≤ length reply.old) × (n < 65516) }
    ensures { reply.new ≡ over (refusal_head h code n) reply.old }
{
    header::put_header(reply, reply_header(h, 91, 4, code), 8 + n);
    writers::put_status(&mut reply[16..], h.kind, n);
}

// Here and below: no function that takes the writer of the content as a closure. Its clauses (where the closure may be
// called, that it writes the same octets over any buffer, how many at most) would be longer than the two lines that it
// saves.
pub fn put_amount(
    reply: &mut [u8],
    h: Header,
    kind: u8,
    res: u8,
    code: u16,
    id: &[u8],
    amount: u32,
) -> usize
    requires { (4608 ≤ length reply.old) × (length id.now ≤ 4096) }
    ensures { Wrote (amount_reply h kind res code id.now amount) result reply.old reply.new }
{
    let n = put_target_amount(&mut reply[16..], id, amount);
    header::put_header(reply, reply_header(h, kind, res, code), n);
    16 + n
}

// The Bandwidth-Allocation directly after the Target.
fn put_target_amount(buf: &mut [u8], id: &[u8], amount: u32) -> usize
    requires { (4592 ≤ length buf.old) × (length id.now ≤ 4096) }
    ensures { Wrote (target_of id.now ++ allocation_of amount) result buf.old buf.new }
{
    let at = writers::put_target(buf, id);
    let n = writers::put_allocation(&mut buf[at..], amount);
    at + n
}
