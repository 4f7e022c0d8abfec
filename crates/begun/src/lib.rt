#![tactic(auto)]

// The messages that the card begins, written into a lent buffer. As in replies::put_amount, the content's writer is no
// closure.
ghost use Rattle.std.specs.Prelude.{◌≡◌, ◌++◌, ◌≤◌, ◌<◌, length};
ghost use Rattle.octets.specs.Writing.{Wrote};
ghost use Rattle.writers.specs.Tlvs.{target_of, command_of, request_of};
ghost use Rattle.flow_octets.specs.FlowOctets.{flow_tlv};
ghost use Rattle.begun.specs.Begun.{admission_of, reallocation_of};

use flows::Flow;

pub fn put_admission(reply: &mut [u8], transaction: u32, id: &[u8], f: Flow) -> usize
    requires { (4608 ≤ length reply.old) × (length id.now < 64) }
    ensures { Wrote (admission_of transaction id.now f) result reply.old reply.new }
{
    let n = put_target_add(&mut reply[16..], id, f);
    header::put_header(reply, replies::begin_header(145, transaction), n);
    16 + n
}

// The Command directly after the Target.
fn put_target_add(buf: &mut [u8], id: &[u8], f: Flow) -> usize
    requires { (4592 ≤ length buf.old) × (length id.now < 64) }
    ensures { Wrote (target_of id.now ++ command_of 1 0 (flow_tlv f)) result buf.old buf.new }
{
    let at = writers::put_target(buf, id);
    let n = put_add(&mut buf[at..], f);
    at + n
}

fn put_add(buf: &mut [u8], f: Flow) -> usize
    requires { 48 ≤ length buf.old }
    ensures { Wrote (command_of 1 0 (flow_tlv f)) result buf.old buf.new }
{
    let n = flow_octets::put_flow(&mut buf[8..], f);
    writers::put_command(buf, 1, 0, n);
    8 + n
}

pub fn put_reallocation(
    reply: &mut [u8],
    transaction: u32,
    id: &[u8],
    required: u32,
    preferred: u32,
) -> usize
    requires { (4608 ≤ length reply.old) × (length id.now < 64) }
    ensures { Wrote (reallocation_of transaction id.now required preferred) result reply.old reply.new }
{
    let n = put_target_request(&mut reply[16..], id, required, preferred);
    header::put_header(reply, replies::begin_header(146, transaction), n);
    16 + n
}

// The Bandwidth-Request directly after the Target.
fn put_target_request(buf: &mut [u8], id: &[u8], required: u32, preferred: u32) -> usize
    requires { (4592 ≤ length buf.old) × (length id.now < 64) }
    ensures { Wrote (target_of id.now ++ request_of required preferred) result buf.old buf.new }
{
    let at = writers::put_target(buf, id);
    let n = writers::put_request(&mut buf[at..], required, preferred);
    at + n
}
