#![tactic(auto)]

// Writers of TLVs. Each writes over the start of the buffer that it is lent, keeps what lies after it, and returns how
// many octets it wrote, so that the rest of the buffer can be lent to the next writer.
ghost use Rattle.std.specs.Prelude.{◌≡◌, ◌+◌, ◌≤◌, ◌<◌, length};
ghost use Rattle.octets.specs.Numbers.{padded};
ghost use Rattle.octets.specs.Writing.{over, Wrote};
ghost use Rattle.writers.specs.Tlvs.{tlv_of, bare_of, target_of, flow_of, allocation_of, request_of, sequence_of};
ghost use Rattle.writers.specs.Heads.{head_of, status_head, command_head};

// A TLV of a type and a content, with its padding; and so also a copy of a received TLV, octet for octet.
pub fn put_tlv(buf: &mut [u8], kind: u16, content: &[u8]) -> usize
    requires { (length content.now < 65536) × (4 + padded (length content.now) ≤ length buf.old) }
    ensures { Wrote (tlv_of kind content.now) result buf.old buf.new }
{
    let n = content.len();
    let p = octets::pad(n as u16);
    let e = 4 + n;
    octets::put_pair(buf, kind, n as u16);
    octets::put_copy(&mut buf[4..], content);
    octets::put_zeros(&mut buf[e..], p - n);
    4 + p
}

pub fn put_bare(buf: &mut [u8], kind: u16) -> usize
    requires { 4 ≤ length buf.old }
    ensures { Wrote (bare_of kind) result buf.old buf.new }
{
    put_tlv(buf, kind, &[])
}

pub fn put_target(buf: &mut [u8], id: &[u8]) -> usize
    requires { (length id.now < 65528) × (8 + padded (length id.now) ≤ length buf.old) }
    ensures { Wrote (target_of id.now) result buf.old buf.new }
{
    let n = put_tlv(&mut buf[4..], 0x0001, id);
    octets::put_pair(buf, 0x1000, n as u16);
    4 + n
}

#[tactic(auto, using(octets::proofs::Numbers::bytes32), unfolding(crate::specs::Tlvs::allocation_of, octets::specs::Numbers::oct32))]
pub fn put_allocation(buf: &mut [u8], amount: u32) -> usize
    requires { 8 ≤ length buf.old }
    ensures { Wrote (allocation_of amount) result buf.old buf.new }
{
    put_tlv(buf, 0x0015, &amount.to_be_bytes())
}

#[tactic(auto, unfolding(crate::specs::Tlvs::request_of, crate::specs::Tlvs::tlv_of, octets::specs::Writing::over, octets::specs::Numbers::oct16, octets::specs::Numbers::oct32))]
pub fn put_request(buf: &mut [u8], required: u32, preferred: u32) -> usize
    requires { 12 ≤ length buf.old }
    ensures { Wrote (request_of required preferred) result buf.old buf.new }
{
    octets::put_pair(buf, 0x0016, 8);
    octets::put32(&mut buf[4..], required);
    octets::put32(&mut buf[8..], preferred);
    12
}

#[tactic(auto, using(octets::proofs::Numbers::bytes32), unfolding(crate::specs::Tlvs::sequence_of, octets::specs::Numbers::oct32))]
pub fn put_sequence(buf: &mut [u8], n: u32) -> usize
    requires { 8 ≤ length buf.old }
    ensures { Wrote (sequence_of n) result buf.old buf.new }
{
    put_tlv(buf, 0x0022, &n.to_be_bytes())
}

pub fn put_flow(
    buf: &mut [u8],
    kind: u8,
    family: u8,
    count: u16,
    group: &[u8],
    sources: &[u8],
) -> usize
    requires sources_bound { 4 + length group.now + length sources.now < 65536 }
    requires sources_in_bounds { 4 + padded (4 + length group.now + length sources.now) ≤ length buf.old }
    ensures { Wrote (flow_of kind family count group.now sources.now) result buf.old buf.new }
{
    let at = 8 + group.len();
    let n = 4 + group.len() + sources.len();
    let p = octets::pad(n as u16);
    let e = 4 + n;
    put_head(buf, 0x0019, n as u16, kind, family, count);
    octets::put_copy(&mut buf[8..], group);
    octets::put_copy(&mut buf[at..], sources);
    octets::put_zeros(&mut buf[e..], p - n);
    4 + p
}

// The head of a holder before n octets of TLVs, which stand after it already. Two functions: put_head is the one that
// both are, and each has its own head in the clauses of its callers.
pub fn put_status(buf: &mut [u8], kind: u8, n: usize)
    requires { (8 ≤ length buf.old) × (n < 65532) }
    ensures { buf.new ≡ over (status_head kind n) buf.old }
{
    put_head(buf, 0x0106, (4 + n) as u16, 0, kind, 0);
}

pub fn put_command(buf: &mut [u8], code: u8, accounting: u8, n: usize)
    requires { (8 ≤ length buf.old) × (n < 65532) }
    ensures { buf.new ≡ over (command_head code accounting n) buf.old }
{
    put_head(buf, 0x0011, (4 + n) as u16, code, accounting, 0);
}

// The header of a TLV whose content has n octets, and the first four of them.
#[tactic(auto, unfolding(crate::specs::Heads::head_of, octets::specs::Writing::over, octets::specs::Numbers::oct8, octets::specs::Numbers::oct16))]
fn put_head(buf: &mut [u8], kind: u16, n: u16, x: u8, y: u8, z: u16)
    requires { 8 ≤ length buf.old }
    ensures { buf.new ≡ over (head_of kind n x y z) buf.old }
{
    octets::put_pair(buf, kind, n);
    octets::put_triple(&mut buf[4..], x, y, z);
}
