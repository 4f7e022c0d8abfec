#![tactic(auto)]

// Whatever a call writes is one kind of message with its arguments, and reads back as these: the statement is in specs/, its proof in
// proofs/, and this crate's one function owes it.
ghost use Rattle.std.specs.Prelude.{◌≡◌};
ghost use Rattle.written.specs.Every.{EveryWritten};

// How many octets a reply buffer has at least.
pub fn reply_room() -> usize
    ensures { (result ≡ 4608) × EveryWritten }
{
    4608
}
